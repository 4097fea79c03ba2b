// The boards and the commands of the examples, the same as those of the table of examples (`specs/Table.antt`), and that table's theorem. Knows
// the board and the rules, and none of their functions but `work_out`.
#![tactic(auto)]

ghost use Rattle.std.specs.Prelude.{◌≡◌};
ghost use Rattle.exampleboards.specs.Boards.{start_rights, Of, P, W, L, E, F, command, add_between, add_role, remove_role, add_edge, remove_edge, change_edge, give_rights, take_rights};

use board::{Board, Command};
use hierarchy::tables::Tables;
use hierarchy::working::work_out;

// The kinds by their letters, as numbers: a command has what C hands in, which may be no kind.
pub const I: u32 = 1;

pub const A: u32 = 2;

pub const IA: u32 = 3;

// The board of these tables, with all rights at roles 0 and 1; what it keeps is worked out.
fn of(tables: Tables) -> Board
    ensures { Of tables start_rights result }
{
    let mut kept = Board::founding().kept;
    let _ = work_out(&tables, &mut kept);
    let mut rights = [0; Board::ROLES];
    rights[0] = Board::ALL_RIGHTS;
    rights[1] = Board::ALL_RIGHTS;
    Board {
        tables,
        kept,
        rights,
    }
}

// 0 I 1, 1 I 2, 1 A 3
#[tactic(auto, unfolding(crate::specs::Boards::P))]
pub fn p() -> Board
    ensures { Of P start_rights result }
{
    let mut i = [0; Board::ROLES];
    i[0] = 0b0010;
    i[1] = 0b0100;
    let mut a = [0; Board::ROLES];
    a[1] = 0b1000;
    of(Tables { live: 0b1111, i, a })
}

// 0 I 1, 0 I 2, 0 I 3, 1 A 3, 1 A 4, 3 A 5, 4 A 5
#[tactic(auto, unfolding(crate::specs::Boards::W))]
pub fn w() -> Board
    ensures { Of W start_rights result }
{
    let mut i = [0; Board::ROLES];
    i[0] = 0b001110;
    let mut a = [0; Board::ROLES];
    a[1] = 0b011000;
    a[3] = 0b100000;
    a[4] = 0b100000;
    of(Tables {
        live: 0b111111,
        i,
        a,
    })
}

// 0 I 1, 1 I 2, 2 A 3, 0 A 3
#[tactic(auto, unfolding(crate::specs::Boards::L))]
pub fn l() -> Board
    ensures { Of L start_rights result }
{
    let mut i = [0; Board::ROLES];
    i[0] = 0b0010;
    i[1] = 0b0100;
    let mut a = [0; Board::ROLES];
    a[0] = 0b1000;
    a[2] = 0b1000;
    of(Tables { live: 0b1111, i, a })
}

// 0 I 1
#[tactic(auto, unfolding(crate::specs::Boards::E))]
pub fn e() -> Board
    ensures { Of E start_rights result }
{
    let mut i = [0; Board::ROLES];
    i[0] = 0b10;
    let a = [0; Board::ROLES];
    of(Tables { live: 0b11, i, a })
}

// 0 I 1, 1 A 3, 3 I 4, 0 I 4
#[tactic(auto, unfolding(crate::specs::Boards::F))]
pub fn f() -> Board
    ensures { Of F start_rights result }
{
    let mut i = [0; Board::ROLES];
    i[0] = 0b10010;
    i[3] = 0b10000;
    let mut a = [0; Board::ROLES];
    a[1] = 0b01000;
    of(Tables {
        live: 0b11011,
        i,
        a,
    })
}

// A command that names no sets. Its code is the number that C hands in, and one above 7 is no command's.
pub fn command(code: u32, actor: u32, role: u32, junior: u32, kind: u32, rights: u32) -> Command
    ensures { result ≡ command code actor role junior kind rights }
{
    Command {
        code,
        actor,
        role,
        junior,
        kind,
        rights,
        a_seniors: 0,
        i_seniors: 0,
        a_juniors: 0,
        i_juniors: 0,
    }
}

// A role added between seniors and juniors.
pub fn add_between(
    actor: u32,
    role: u32,
    a_seniors: u64,
    i_seniors: u64,
    a_juniors: u64,
    i_juniors: u64,
) -> Command
    ensures { result ≡ add_between actor role a_seniors i_seniors a_juniors i_juniors }
{
    Command {
        a_seniors,
        i_seniors,
        a_juniors,
        i_juniors,
        ..command(1, actor, role, 0, 0, 0)
    }
}

// A role added under seniors alone.
pub fn add_role(actor: u32, role: u32, a_seniors: u64, i_seniors: u64) -> Command
    ensures { result ≡ add_role actor role a_seniors i_seniors }
{
    add_between(actor, role, a_seniors, i_seniors, 0, 0)
}

pub fn remove_role(actor: u32, role: u32) -> Command
    ensures { result ≡ remove_role actor role }
{
    command(2, actor, role, 0, 0, 0)
}

pub fn add_edge(actor: u32, senior: u32, junior: u32, kind: u32) -> Command
    ensures { result ≡ add_edge actor senior junior kind }
{
    command(3, actor, senior, junior, kind, 0)
}

pub fn remove_edge(actor: u32, senior: u32, junior: u32, kind: u32) -> Command
    ensures { result ≡ remove_edge actor senior junior kind }
{
    command(4, actor, senior, junior, kind, 0)
}

pub fn change_edge(actor: u32, senior: u32, junior: u32, kind: u32) -> Command
    ensures { result ≡ change_edge actor senior junior kind }
{
    command(5, actor, senior, junior, kind, 0)
}

pub fn give_rights(actor: u32, role: u32, rights: u32) -> Command
    ensures { result ≡ give_rights actor role rights }
{
    command(6, actor, role, 0, 0, rights)
}

pub fn take_rights(actor: u32, role: u32, rights: u32) -> Command
    ensures { result ≡ take_rights actor role rights }
{
    command(7, actor, role, 0, 0, rights)
}
