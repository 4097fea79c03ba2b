// The records that all else speaks of: a board, a command, why one is refused; the founding board, whether a board is sound, and what it
// keeps. Knows the words of `hierarchy` and scopes; decides nothing.
#![tactic(auto)]

ghost use Rattle.std.specs.Prelude.{◌≡◌};
ghost use Rattle.board.specs.Boards.{founding_board};
ghost use Rattle.hierarchy.specs.Tables.{has_i, has_a};
ghost use Rattle.board.specs.Codes.{IsCode, IsKind};

pub mod answers;
pub mod checks;
mod entries;
pub mod kept;
pub mod parts;
mod rights;

use hierarchy::tables::Tables;
use hierarchy::working::Kept;
use parts::Kind;

// The two tables of edges, what is kept so that nobody has to work it out again, and the rights. A command leaves what is kept right; a
// board where it is wrong is not sound. `rights` has a byte for each role, with the right to give command 1 in its lowest bit and so on; a
// board is not sound where a role that isn't live has one, or where there are more than the five.
#[repr(C)]
#[derive(Clone, Copy, PartialEq, Eq)]
pub struct Board {
    pub tables: Tables,
    pub kept: Kept,
    pub rights: [u8; Board::ROLES],
}

impl Board {
    pub const ROLES: usize = 64;

    pub const EDGES: usize = 2016;
    // in `kept.manager`: role 0 and roles that aren't live have none
    pub const NO_MANAGER: u8 = 64;
    // in `rights`: all five
    pub const ALL_RIGHTS: u8 = 31;
    // the bytes of the longest HH file: a byte a role, three an edge, and the trailer's six
    pub const PLAIN_FILE: usize = Board::ROLES + 3 * Board::EDGES + 6;
    // of the longest HR file, which is the longest of all: two bytes a role, three an edge, and the trailer's eight
    pub const FILE: usize = 2 * Board::ROLES + 3 * Board::EDGES + 8;

    // Role 0 lives and has all rights, and there is no edge.
    pub fn founding() -> Self
        ensures { result ≡ founding_board }
    {
        let none = [0; Board::ROLES];
        let mut itself = none;
        itself[0] = 1;
        let mut rights = [0; Board::ROLES];
        rights[0] = Board::ALL_RIGHTS;
        Board {
            tables: Tables {
                live: 1,
                i: none,
                a: none,
            },
            kept: Kept {
                derives: itself,
                derivers: itself,
                manager: [Board::NO_MANAGER; Board::ROLES],
            },
            rights,
        }
    }
}

// What a coordinator asks for. `role` is the role of commands 1, 2, 6 and 7, and the senior of 3, 4 and 5; `rights` are those that 6
// gives and 7 takes. A field that a command doesn't use may hold anything. Numbers are as wide as a caller's, C's among them, so that one
// that is no role stays none and is refused.
#[repr(C)]
#[derive(Clone, Copy)]
pub struct Command {
    pub code: u32,
    pub actor: u32,
    pub role: u32,
    pub junior: u32,
    pub kind: u32,
    pub rights: u32,
    pub a_seniors: u64,
    pub i_seniors: u64,
    pub a_juniors: u64,
    pub i_juniors: u64,
}

// The commands, in the order of their numbers, from 1 to 7.
#[derive(Clone, Copy, PartialEq, Eq)]
pub enum Code {
    AddRole,
    RemoveRole,
    AddEdge,
    RemoveEdge,
    ChangeEdge,
    GiveRights,
    TakeRights,
}

impl Command {
    // The command that the number `code` names, or none: an Option, as for a kind.
    pub fn named(&self) -> Option<Code>
        ensures { IsCode self.now.code result }
    {
        match self.code {
            1 => Some(Code::AddRole),
            2 => Some(Code::RemoveRole),
            3 => Some(Code::AddEdge),
            4 => Some(Code::RemoveEdge),
            5 => Some(Code::ChangeEdge),
            6 => Some(Code::GiveRights),
            7 => Some(Code::TakeRights),
            _ => None,
        }
    }

    // The kind of edge that the number `kind` names, or none.
    pub fn edge_kind(&self) -> Option<Kind>
        ensures { IsKind self.now.kind result }
    {
        Kind::of(self.kind)
    }

    // Whether that kind has the part I; a number that is no kind has neither part.
    pub fn has_i(&self) -> bool
        ensures { result ≡ has_i self.now.kind }
    {
        self.edge_kind().is_some_and(Kind::has_i)
    }

    pub fn has_a(&self) -> bool
        ensures { result ≡ has_a self.now.kind }
    {
        self.edge_kind().is_some_and(Kind::has_a)
    }
}
