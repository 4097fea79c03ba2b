// Who may use a right. A byte of rights is a set, with the right of command 1 as its lowest member.
ghost use Rattle.std.specs.Prelude.{◌≡◌, true, ◌↔◌, ℕ};
ghost use Rattle.sets.specs.Sets.{◌is_in◌};
ghost use Rattle.refusals.specs.Trusting.{DerivesBy};
ghost use Rattle.refusals.specs.Entitled.{Entitled, HeldAmong};

use crate::formed::Formed;
use board::Board;
use sets::{roles_of, union, with, within};

// The rights that these roles hold among them. `hierarchy` sums rows of 64 bits so; one function for both would carry a bound and its laws for
// three lines.
fn held_among(rights: &[u8; 64], roles: u64) -> u64
    ensures { (k : ℕ) → (k is_in result) ↔ HeldAmong rights.now roles k }
{
    let mut all: u64 = 0;
    for x in roles_of(roles) {
        all = union(all, u64::from(rights[x]));
    }
    all
}

// Not 13: the actor, or a role that it derives, holds each right that the command asks for.
pub(crate) fn entitled(b: &Board, f: &Formed) -> bool
    ensures { (result ≡ true) ↔ Entitled (DerivesBy b.now.kept.derives) b.now.rights f.now.command }
{
    let actor = f.command.actor as usize;
    let those = with(b.kept.derives[actor], actor);
    within(f.asked(), held_among(&b.rights, those))
}
