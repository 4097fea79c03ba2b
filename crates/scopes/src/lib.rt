// The scope of a role, who is in the way, and the join table. Knows sets and the words of `hierarchy`, and no board.
//
// Scopes are read off what a board keeps of its tables, which is lent: whatever it holds, the answer is the one read off it.
#![tactic(auto)]

pub mod kinds;

ghost use Rattle.std.specs.Prelude.{◌≡◌, true, ◌||◌, ◌↔◌, ℕ, ◌<◌};
ghost use Rattle.sets.specs.Sets.{bit, ◌is_in◌};
ghost use Rattle.hierarchy.specs.Tables.{row};
ghost use Rattle.hierarchy.specs.Views.{ScopeBy, BarBy};
ghost use Rattle.scopes.specs.Bars.{bar_cause, bar_way};

use hierarchy::working::Kept;
use sets::{has, lowest, minus, roles_of, union, with, within};

// What bars a role from the scope of an actor: the actor doesn't derive it; or it does, and so does this other one, the lowest that is
// unrelated to the actor. Both are causes, so this is no Option.
#[derive(Clone, Copy, PartialEq, Eq)]
pub enum Bar {
    NotDerived,
    InTheWay(u8),
}

// What is above or below a.
fn related(kept: &Kept, a: usize) -> u64
    requires { a < 64 }
    ensures { (x : ℕ) → bit result x ≡ (bit (row kept.now.derivers a) x || bit (row kept.now.derives a) x) }
{
    union(kept.derivers[a], kept.derives[a])
}

// Whether r is in the scope of a: a derives r, and whatever derives r is above or below a. Not by `bars`, which would look for the lowest in
// the way as well, for each role that `scope` asks about.
pub fn in_scope(kept: &Kept, a: usize, r: usize) -> bool
    ensures { (result ≡ true) ↔ ScopeBy kept.now.derives kept.now.derivers a r }
{
    if a >= 64 || r >= 64 {
        return false;
    }
    let above = kept.derivers[r];
    has(kept.derives[a], r) && has(above, a) && within(above, related(kept, a))
}

// The scope of a, as a set.
pub fn scope(kept: &Kept, a: usize) -> u64
    ensures { (r : ℕ) → (r is_in result) ↔ ScopeBy kept.now.derives kept.now.derivers a r }
{
    if a >= 64 {
        return 0;
    }
    let mut found: u64 = 0;
    for r in roles_of(kept.derives[a]) {
        if in_scope(kept, a, r) {
            found = with(found, r);
        }
    }
    found
}

// What bars r from the scope of a: nothing where r is in it.
pub fn bars(kept: &Kept, a: usize, r: usize) -> Option<Bar>
    ensures { BarBy kept.now.derives kept.now.derivers a r (bar_cause result) (bar_way result) }
{
    if a >= 64 || r >= 64 {
        return Some(Bar::NotDerived);
    }
    let above = kept.derivers[r];
    if !has(kept.derives[a], r) || !has(above, a) {
        return Some(Bar::NotDerived);
    }
    let stranger = lowest(minus(above, related(kept, a)))?;
    Some(Bar::InTheWay(stranger as u8))
}
