// 6: whether all are in the scope that is asked of them; where not, whom it names, and why.
ghost use Rattle.std.specs.Prelude.{◌≡◌, true, ◌↔◌, MatchOption, Err, ℕ, ◌<◌};
ghost use Rattle.hierarchy.specs.First.{First};
ghost use Rattle.hierarchy.specs.Views.{ScopeBy};
ghost use Rattle.sets.specs.Sets.{◌is_in◌, ◌are_in◌};
ghost use Rattle.board.specs.Answers.{number_of, answer};
ghost use Rattle.refusals.specs.Refusals.{LowestOut, InScope, conditions, Offends, Names, by_scope};
ghost use Rattle.refusals.specs.Trusting.{BlamesBy};

use crate::formed::Formed;
use board::Code;
use board::answers::{Cause, Refusal};
use hierarchy::working::Kept;
use scopes::{bars, scope};
use sets::{lowest, minus, single, within, without};

// A role that offends, and whether strict scope is asked of it.
#[derive(Clone, Copy)]
struct Offender {
    role: usize,
    strict: bool,
}

// Not 6: all are in the actor's scope that must be, `all` being that.
fn within_scope(all: u64, f: &Formed) -> bool
    ensures { (result ≡ true) ↔ InScope (λ a x. x is_in all) f.now.command }
{
    let own = without(all, f.command.actor as usize);
    within(f.in_scope(), all) && within(f.in_strict(), own)
}

// The lowest of those that is not within, if any; the same is asked of all of them, and `strict` goes on to whoever offends.
fn out_of(those: u64, within: u64, strict: bool) -> Option<Offender>
    ensures { MatchOption result (those are_in within) (λ o. LowestOut those within o.role × (o.strict ≡ strict)) }
{
    let role = lowest(minus(those, within))?;
    Some(Offender { role, strict })
}

// Who offends first, if anybody does. `all` is the actor's scope.
fn offending(all: u64, f: &Formed) -> Option<Offender>
    ensures { MatchOption result (InScope (λ a x. x is_in all) f.now.command) (λ o. (o.role < 64) × Offends (λ a x. x is_in all) f.now.command.actor (conditions f.now.command) o.role o.strict) }
{
    let c = f.command;
    let own = without(all, c.actor as usize);
    let role = single(c.role as usize);
    match f.code {
        Code::AddRole => out_of(c.a_seniors, all, false)
            .or(out_of(c.i_seniors, all, false))
            .or(out_of(c.a_juniors, own, true))
            .or(out_of(c.i_juniors, own, true)),
        Code::RemoveRole => out_of(role, own, true),
        Code::AddEdge | Code::RemoveEdge | Code::ChangeEdge => {
            out_of(role, all, false).or(out_of(single(c.junior as usize), all, false))
        }
        Code::GiveRights | Code::TakeRights => out_of(role, all, false),
    }
}

// 6: who offends first, and why. `all` is the actor's scope.
fn blame(kept: &Kept, all: u64, f: &Formed) -> Refusal
    requires { ((x : ℕ) → (x is_in all) ↔ ScopeBy kept.now.derives kept.now.derivers f.now.command.actor x) × (InScope (λ a x. x is_in all) f.now.command → ⊥) }
    ensures { (number_of result ≡ 6) × BlamesBy kept.now.derives kept.now.derivers f.now.command (answer {A = Unit {0}} (Err result)) }
{
    let actor = f.command.actor as usize;
    let o = offending(all, f).unwrap();
    let cause = if o.strict && o.role == actor {
        Cause::Itself
    } else {
        Cause::from(bars(kept, actor, o.role).unwrap())
    };
    Refusal::OutOfScope {
        who: o.role as u8,
        cause,
    }
}

// The refusal by scope, with whom it names: who offends is looked for only where somebody does.
pub(crate) fn refused_by_scope(kept: &Kept, f: &Formed) -> Result<(), Refusal>
    ensures { First (by_scope (ScopeBy kept.now.derives kept.now.derivers) f.now.command) (answer result).number × Names (BlamesBy kept.now.derives kept.now.derivers f.now.command) (answer result) }
{
    let all = scope(kept, f.command.actor as usize);
    if within_scope(all, f) {
        return Ok(());
    }
    Err(blame(kept, all, f))
}
