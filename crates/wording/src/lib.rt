// The words in which coordinators ask for a change, read: a line means one command, or one word of it is wrong. Knows
// the record of a command, and no board.
//
//     ACTOR add-role ROLE [a-seniors SET] [i-seniors SET] [a-juniors SET] [i-juniors SET]      each set once, in any order
//     ACTOR remove-role ROLE
//     ACTOR add-edge SENIOR JUNIOR KIND            and remove-edge, change-edge; KIND is I, A or IA
//     ACTOR give-rights ROLE RIGHTS                and take-rights; RIGHTS is all, or names of commands: add-role,add-edge
//
// SET is roles, as 1,2,5. Words stand apart by blanks. `specs/Meanings.antt` says what a line means.
#![tactic(auto)]

ghost use Rattle.std.specs.Prelude.{◌≡◌, ◌≤◌};
ghost use Rattle.wording.specs.Meanings.{bare, set_at, with_set, sets_from, edge_from, rights_from, by_code, ends_at, meaning_of};

use board::{Code, Command};
use names::{SetName, code, kind, rights, role, roles, set_name};
use pieces::word;

mod names;
pub mod pieces;

// The word at this place is wrong, which is past the last word where one is missing.
#[derive(Clone, Copy, PartialEq, Eq)]
pub struct Wrong {
    pub place: usize,
    pub wanted: Wanted,
}

// What is wanted in the wrong word's place: a role, the name of a command, a kind, roles, rights, the name of a set that has not been
// named yet, or nothing more.
#[derive(Clone, Copy, PartialEq, Eq)]
pub enum Wanted {
    Role,
    Name,
    Kind,
    Roles,
    Rights,
    SetName,
    Nothing,
}

impl Wanted {
    fn at(self, place: usize) -> Wrong
        ensures { result ≡ record { place = place; wanted = self } }
    {
        Wrong {
            place,
            wanted: self,
        }
    }
}

// The line ends before the word at k, and means c.
fn ended(line: &[u8], k: usize, c: Command) -> Result<Command, Wrong>
    ensures { result ≡ ends_at line.now k c }
{
    if word(line, k).is_empty() {
        Ok(c)
    } else {
        Err(Wanted::Nothing.at(k))
    }
}

// A command that names an actor and a role and nothing else.
fn bare(code: u32, actor: u32, role: u32) -> Command
    ensures { result ≡ bare code actor role }
{
    Command {
        code,
        actor,
        role,
        junior: 0,
        kind: 0,
        rights: 0,
        a_seniors: 0,
        i_seniors: 0,
        a_juniors: 0,
        i_juniors: 0,
    }
}

// One of the four sets of a new role.
fn set_at(c: &Command, name: SetName) -> u64
    ensures { result ≡ set_at name c.now }
{
    match name {
        SetName::ASeniors => c.a_seniors,
        SetName::ISeniors => c.i_seniors,
        SetName::AJuniors => c.a_juniors,
        SetName::IJuniors => c.i_juniors,
    }
}

// The command with another set there.
fn with_set(c: Command, name: SetName, set: u64) -> Command
    ensures { result ≡ with_set name set c }
{
    match name {
        SetName::ASeniors => Command {
            a_seniors: set,
            ..c
        },
        SetName::ISeniors => Command {
            i_seniors: set,
            ..c
        },
        SetName::AJuniors => Command {
            a_juniors: set,
            ..c
        },
        SetName::IJuniors => Command {
            i_juniors: set,
            ..c
        },
    }
}

// From the word at 3 on: the sets of a new role.
fn on_new(line: &[u8], asked: Command) -> Result<Command, Wrong>
    ensures { result ≡ sets_from 4 line.now 3 asked }
{
    let mut c = asked;
    for n in 0..4 {
        let k = 3 + 2 * n;
        let name = word(line, k);
        if name.is_empty() {
            return Ok(c);
        }
        let set = set_name(name).ok_or(Wanted::SetName.at(k))?;
        if set_at(&c, set) != 0 {
            return Err(Wanted::SetName.at(k));
        }
        let named = roles(word(line, k + 1)).ok_or(Wanted::Roles.at(k + 1))?;
        c = with_set(c, set, named);
    }
    ended(line, 11, c)
}

// From the word at 3 on: the junior and the kind of an edge.
#[tactic(auto, unfolding(crate::specs::Meanings::edge_from))]
fn on_edge(line: &[u8], c: Command) -> Result<Command, Wrong>
    ensures { result ≡ edge_from line.now c }
{
    let junior = role(word(line, 3)).ok_or(Wanted::Role.at(3))?;
    let kind = kind(word(line, 4)).ok_or(Wanted::Kind.at(4))?;
    ended(line, 5, Command { junior, kind, ..c })
}

// From the word at 3 on: the rights that are given or taken.
#[tactic(auto, unfolding(crate::specs::Meanings::rights_from))]
fn on_rights(line: &[u8], c: Command) -> Result<Command, Wrong>
    ensures { result ≡ rights_from line.now c }
{
    let rights = rights(word(line, 3)).ok_or(Wanted::Rights.at(3))?;
    ended(
        line,
        4,
        Command {
            rights: rights as u32,
            ..c
        },
    )
}

#[tactic(auto, unfolding(crate::specs::Meanings::by_code))]
fn by_code(line: &[u8], c: Command) -> Result<Command, Wrong>
    requires { c.code ≤ 7 }
    ensures { result ≡ by_code line.now c }
{
    match c.named() {
        Some(Code::AddRole) => on_new(line, c),
        Some(Code::RemoveRole) => ended(line, 3, c),
        Some(Code::GiveRights | Code::TakeRights) => on_rights(line, c),
        _ => on_edge(line, c),
    }
}

// What a line means.
#[tactic(auto, unfolding(crate::specs::Meanings::meaning_of))]
pub fn meant(line: &[u8]) -> Result<Command, Wrong>
    ensures { result ≡ meaning_of line.now }
{
    let actor = role(word(line, 0)).ok_or(Wanted::Role.at(0))?;
    let code = code(word(line, 1)).ok_or(Wanted::Name.at(1))?;
    let target = role(word(line, 2)).ok_or(Wanted::Role.at(2))?;
    by_code(line, bare(code, actor, target))
}
