// The rows of the rules' table on the board handed in: 2, 3, 4, 5, 13, 6, and whom a 6 names. Knows the board's records and scopes; changes
// nothing. Deriving and scope are read off the sets that the board keeps, whatever they hold.
#![tactic(auto)]

mod formed;
mod offending;
mod rights;

ghost use Rattle.std.specs.Prelude.{◌≡◌, true, ◌↔◌, ◌≢◌, IfOk};
ghost use Rattle.hierarchy.specs.First.{First};
ghost use Rattle.board.specs.Answers.{number, answer};
ghost use Rattle.refusals.specs.Refusals.{Missing, edge_kind, PartsStand, Standing, Lacking, Names, unscoped};
ghost use Rattle.refusals.specs.Trusting.{BlamesBy, before_trusting};

use board::answers::Refusal;
use board::{Board, Code, Command};
use formed::Formed;
use hierarchy::tables::Tables;
use offending::refused_by_scope;
use rights::entitled;
use sets::{has, minus, union, with};

// 3: the actor, or a role that must exist, isn't live. Those whose scope is asked for, and the actor, are all that must exist.
fn missing(t: &Tables, f: &Formed) -> bool
    ensures { (result ≡ true) ↔ Missing t.now f.now.command }
{
    let named = union(f.in_scope(), f.in_strict());
    minus(with(named, f.command.actor as usize), t.live) != 0
}

// Whether the edge of the command stands, in any kind.
fn linked(t: &Tables, f: &Formed) -> bool
    ensures { (result ≡ true) ↔ (edge_kind t.now f.now.command ≢ 0) }
{
    let senior = f.command.role as usize;
    has(union(t.i[senior], t.a[senior]), f.command.junior as usize)
}

// Whether every part of the command's kind stands on its edge: parts that the kind lacks ask nothing.
fn parts_stand(t: &Tables, f: &Formed) -> bool
    ensures { (result ≡ true) ↔ PartsStand t.now f.now.command }
{
    let senior = f.command.role as usize;
    let junior = f.command.junior as usize;
    let i = !f.command.has_i() || has(t.i[senior], junior);
    let a = !f.command.has_a() || has(t.a[senior], junior);
    i && a
}

// 4: the new role is live, or all of the edge to be added stands.
fn standing(t: &Tables, f: &Formed) -> bool
    ensures { (result ≡ true) ↔ Standing t.now f.now.command }
{
    match f.code {
        Code::AddRole => has(t.live, f.command.role as usize),
        Code::AddEdge => parts_stand(t, f),
        _ => false,
    }
}

// 5: a part to be removed is missing, or there is no edge to change.
fn lacking(t: &Tables, f: &Formed) -> bool
    ensures { (result ≡ true) ↔ Lacking t.now f.now.command }
{
    match f.code {
        Code::RemoveEdge => !parts_stand(t, f),
        Code::ChangeEdge => !linked(t, f),
        _ => false,
    }
}

// The refusals on the board handed in, past the first and short of scope; else the command, with its numbers in range.
fn refused_2_to_5(t: &Tables, c: Command) -> Result<Formed, Refusal>
    ensures { First (unscoped t.now c) (number result) × IfOk result (λ f. f.command ≡ c) }
{
    let Some(f) = Formed::of(c) else {
        return Err(Refusal::Malformed);
    };
    if missing(t, &f) {
        return Err(Refusal::Missing);
    }
    if standing(t, &f) {
        return Err(Refusal::Standing);
    }
    if lacking(t, &f) {
        return Err(Refusal::Lacking);
    }
    Ok(f)
}

// The refusals on the board handed in, past the first, with whom a 6 names; its own sets say what deriving and scope are.
pub fn refused_on_board(b: &Board, c: Command) -> Result<(), Refusal>
    ensures { First (before_trusting b.now c) (answer result).number × Names (BlamesBy b.now.kept.derives b.now.kept.derivers c) (answer result) }
{
    let f = refused_2_to_5(&b.tables, c)?;
    if !entitled(b, &f) {
        return Err(Refusal::NotEntitled);
    }
    refused_by_scope(&b.kept, &f)
}
