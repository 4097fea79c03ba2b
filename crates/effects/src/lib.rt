// The column "Effect" of the rules' table: what a command does to the tables of a board. Knows the board's records; refuses nothing: a command
// of any code on any board has the effect of its code, and a role above 63 names nobody. The two tables go the same way.
#![tactic(auto)]

mod tables;

ghost use Rattle.std.specs.Prelude.{◌≡◌};
ghost use Rattle.sets.specs.Sets.{bit, set_of};
ghost use Rattle.effects.specs.Effects.{lives, table_after, after};

use board::{Code, Command};
use hierarchy::tables::Tables;
use sets::{single, union, with, without};
use tables::{enter, leave, row_of, set_row};

// What the command does to one table: `seniors` and `juniors` are the sets that command 1 names for it. `part` is whether the kind has its
// part: to add or to remove an edge is nothing without it, and where an edge is changed it is what the entry becomes.
fn edit(t: &mut [u64; 64], c: Command, seniors: u64, juniors: u64, part: bool)
    ensures { t.new ≡ table_after c seniors juniors part t.old }
{
    let role = c.role as usize;
    let junior = c.junior as usize;
    let senior = single(role);
    let Some(code) = c.named() else {
        return;
    };
    match code {
        Code::AddRole => {
            enter(t, seniors, role, true);
            let grown = union(row_of(t, role), juniors);
            set_row(t, role, grown);
        }
        Code::RemoveRole => {
            leave(t, role);
            set_row(t, role, 0);
        }
        Code::AddEdge => {
            if part {
                enter(t, senior, junior, true);
            }
        }
        Code::RemoveEdge => {
            if part {
                enter(t, senior, junior, false);
            }
        }
        Code::ChangeEdge => enter(t, senior, junior, part),
        Code::GiveRights | Code::TakeRights => {}
    }
}

// The live roles afterwards.
fn living(live: u64, c: Command) -> u64
    ensures { result ≡ set_of (λ x. lives c (bit live x) x) }
{
    let role = c.role as usize;
    let Some(code) = c.named() else {
        return live;
    };
    match code {
        Code::AddRole => with(live, role),
        Code::RemoveRole => without(live, role),
        _ => live,
    }
}

// Makes the tables those that the command would leave, whether or not it is refused.
pub fn effect(t: &mut Tables, c: Command)
    ensures { t.new ≡ after t.old c }
{
    edit(&mut t.i, c, c.i_seniors, c.i_juniors, c.has_i());
    edit(&mut t.a, c, c.a_seniors, c.a_juniors, c.has_a());
    t.live = living(t.live, c);
}
