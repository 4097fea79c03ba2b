// Whether a row of rights is right. A byte of rights is a set, with the right of command 1 as its lowest member.
ghost use Rattle.std.specs.Prelude.{◌≡◌, true, ◌↔◌, ◌≤◌};
ghost use Rattle.sets.specs.Sets.{◌is_in◌};
ghost use Rattle.board.specs.Rights.{RightsFit};

use crate::Board;
use sets::has;

// Whether x may hold these rights: it lives, and they are among the five.
fn may_hold(live: u64, x: usize, held: u8) -> bool
    ensures { (result ≡ true) ↔ ((held ≤ 31) × (x is_in live)) }
{
    held <= Board::ALL_RIGHTS && has(live, x)
}

// Whether there are only the five rights, and only live roles hold any. Most roles hold none, so that is asked first.
pub(crate) fn rightful(live: u64, rights: &[u8; 64]) -> bool
    ensures { (result ≡ true) ↔ RightsFit live rights.now }
{
    for x in 0..64 {
        let held = rights[x];
        if held != 0 && !may_hold(live, x, held) {
            return false;
        }
    }
    true
}
