// What a board keeps, read without working anything out: for a page that shows a board all day. The answer is the one that stands in
// what is lent, whatever that is; of a sound board it is document 01's (`Rattle.board.proofs.Keeping`).
ghost use Rattle.std.specs.Prelude.{◌≡◌, ◌↔◌, ℕ};
ghost use Rattle.sets.specs.Sets.{bit, ◌is_in◌};
ghost use Rattle.hierarchy.specs.Tables.{row};
ghost use Rattle.hierarchy.specs.Views.{ScopeBy, manager_at, steps_up};
ghost use Rattle.board.specs.Kept.{manager_from};

use crate::Board;
use hierarchy::working::Kept;
use sets::has;

// Whether x derives y.
pub fn derives(kept: &Kept, x: u32, y: u32) -> bool
    ensures { result ≡ bit (row kept.now.derives x) y }
{
    derives_of(&kept.derives, x, y)
}

// The same of the sets that each role derives, where these are lent alone.
pub fn derives_of(derives: &[u64; 64], x: u32, y: u32) -> bool
    ensures { result ≡ bit (row derives.now x) y }
{
    x < 64 && has(derives[x as usize], y as usize)
}

// The scope of a, as a set.
pub fn scope(kept: &Kept, a: u32) -> u64
    ensures { (r : ℕ) → (r is_in result) ↔ ScopeBy kept.now.derives kept.now.derivers a r }
{
    scopes::scope(kept, a as usize)
}

// The entry of r in a row of line managers, or none.
fn entry(manager: &[u8; 64], r: u32) -> Option<u8>
    ensures { result ≡ manager_from (manager_at manager.now r) }
{
    let m = *manager.get(r as usize)?;
    (m < Board::NO_MANAGER).then_some(m)
}

// The line manager of r, or none.
pub fn line_manager(kept: &Kept, r: u32) -> Option<u8>
    ensures { result ≡ manager_from (manager_at kept.now.manager r) }
{
    entry(&kept.manager, r)
}

// The steps from r to role 0 by line managers, or 64 where they don't lead there: the number that `StepsTrusting` has there. On a sound board
// they do.
pub fn steps(kept: &Kept, r: u32) -> usize
    ensures { result ≡ steps_up kept.now.manager 64 0 r }
{
    let mut x = r;
    for n in 0..64 {
        if x == 0 {
            return n;
        }
        let Some(m) = entry(&kept.manager, x) else {
            return 64;
        };
        x = u32::from(m);
    }
    64
}
