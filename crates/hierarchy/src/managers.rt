// Line managers, read off the views of a board whose live roles are in order.
ghost use Rattle.std.specs.Prelude.{◌≡◌, true, ◌↔◌, ◌≢◌, ℕ, ◌<◌, unwrap_or};
ghost use Rattle.sets.specs.Sets.{◌is_in◌};
ghost use Rattle.hierarchy.specs.Tables.{Tables};
ghost use Rattle.hierarchy.specs.Views.{manager_at};
ghost use Rattle.hierarchy.specs.Engine.{Above, AdminsOf, NearestIs, Orderly, Managers};

use crate::working::Kept;
use sets::{common, highest, roles_of, union, without};

// What stands for no line manager in a row of them, also for C: it is no role.
pub(crate) const NONE: u8 = 64;

// The administrators of r: of what derives it, but r itself, those that are above or below all that does.
fn administrators_of(kept: &Kept, r: usize) -> u64
    requires { r < 64 }
    ensures { (a : ℕ) → (a is_in result) ↔ Above kept.now.derives kept.now.derivers a r }
{
    let mut found = without(kept.derivers[r], r);
    for x in roles_of(kept.derivers[r]) {
        found = common(found, union(kept.derivers[x], kept.derives[x]));
    }
    found
}

// Of the administrators of a role the one that all others derive: from any of them on, the highest number first, it goes to one that this
// derives, until that derives no other. No `for` goes through these: which are left hangs on the one that was met.
fn nearest(derives: &[u64; 64], administrators: u64) -> Option<u8>
    ensures { (t : Tables) (r : ℕ) → AdminsOf t derives.now administrators r → NearestIs t r (unwrap_or result 64) }
{
    let mut found = None;
    let mut left = administrators;
    while let Some(m) = highest(left) {
        found = Some(m as u8);
        left = common(without(left, m), derives[m]);
    }
    found
}

// The line manager of each role of live goes into its place, and NONE into all others.
pub(crate) fn fill_managers(live: u64, kept: &mut Kept)
    ensures filled { (t : Tables) → Orderly t live kept.old.derives kept.old.derivers → Managers t kept.new.manager }
    ensures same { (kept.new.derives ≡ kept.old.derives) × (kept.new.derivers ≡ kept.old.derivers) }
{
    kept.manager = [NONE; 64];
    for r in roles_of(live) {
        kept.manager[r] = nearest(&kept.derives, administrators_of(kept, r)).unwrap_or(NONE);
    }
}

// Whether each role of live but 0 has a line manager.
pub(crate) fn all_managed(live: u64, kept: &Kept) -> bool
    ensures { (result ≡ true) ↔ ((r : ℕ) → r is_in live → r ≢ 0 → manager_at kept.now.manager r ≢ 64) }
{
    for r in roles_of(without(live, 0)) {
        if kept.manager[r] == NONE {
            return false;
        }
    }
    true
}
