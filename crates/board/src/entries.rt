// Whether entries join live roles.
ghost use Rattle.std.specs.Prelude.{◌≡◌, true, ◌↔◌, ℕ};
ghost use Rattle.sets.specs.Sets.{◌is_in◌};
ghost use Rattle.hierarchy.specs.Tables.{tables};
ghost use Rattle.hierarchy.specs.Words.{Joined};

use sets::{has, union, within};

// Whether role x may have these juniors: it has none, or all of them and itself live. Most roles have none, so that is asked first.
fn joins_live(live: u64, x: usize, juniors: u64) -> bool
    ensures { (result ≡ true) ↔ ((y : ℕ) → y is_in juniors → (x is_in live) × (y is_in live)) }
{
    juniors == 0 || has(live, x) && within(juniors, live)
}

// Whether each entry of either table joins two live roles.
pub(crate) fn joined(live: u64, i: &[u64; 64], a: &[u64; 64]) -> bool
    ensures { (result ≡ true) ↔ Joined (tables live i.now a.now) }
{
    for x in 0..64 {
        if !joins_live(live, x, union(i[x], a[x])) {
            return false;
        }
    }
    true
}
