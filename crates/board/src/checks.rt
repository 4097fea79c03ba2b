// Whether a board is sound: its tables are, the values that it keeps are theirs, and only its live roles hold rights.
ghost use Rattle.std.specs.Prelude.{◌≡◌, true, ◌↔◌};
ghost use Rattle.sets.specs.Sets.{◌is_in◌};
ghost use Rattle.hierarchy.specs.Tables.{tables};
ghost use Rattle.hierarchy.specs.Words.{Joined, Sound};
ghost use Rattle.hierarchy.specs.Views.{RightValues};
ghost use Rattle.board.specs.Boards.{board_of, SoundBoard};
ghost use Rattle.board.specs.Rights.{RightsFit};

use crate::Board;
use crate::entries::joined;
use crate::rights::rightful;
use hierarchy::shape::shaped;
use hierarchy::tables::Tables;
use hierarchy::working::{Kept, work_out};
use sets::has;

// Whether what is looked at first is right: only live roles hold rights, role 0 lives, and each entry joins two live roles.
fn starts_right(live: u64, i: &[u64; 64], a: &[u64; 64], rights: &[u8; 64]) -> bool
    ensures { (result ≡ true) ↔ (RightsFit live rights.now × ((0 is_in live) × Joined (tables live i.now a.now))) }
{
    if !rightful(live, rights) {
        return false;
    }
    if !has(live, 0) {
        return false;
    }
    joined(live, i, a)
}

// Whether these values are those that were worked out, role by role, so that a wrong one ends it.
fn same(derives: &[u64; 64], derivers: &[u64; 64], manager: &[u8; 64], kept: &Kept) -> bool
    ensures { (result ≡ true) ↔ ((derives.now ≡ kept.now.derives) × ((derivers.now ≡ kept.now.derivers) × (manager.now ≡ kept.now.manager))) }
{
    for x in 0..64 {
        if derives[x] != kept.derives[x] {
            return false;
        }
        if derivers[x] != kept.derivers[x] {
            return false;
        }
        if manager[x] != kept.manager[x] {
            return false;
        }
    }
    true
}

// Whether the tables are sound and these values are theirs, where entries join live roles and role 0 lives. They are worked out anew and
// compared, so that whoever goes on may read them there. Not inlined: the room for them is off the stack before anything is decided.
#[inline(never)]
fn keeps_right(t: &Tables, derives: &[u64; 64], derivers: &[u64; 64], manager: &[u8; 64]) -> bool
    requires { (0 is_in t.now.live) × Joined t.now }
    ensures { (result ≡ true) ↔ (Sound t.now × RightValues t.now derives.now derivers.now manager.now) }
{
    let mut kept = Kept {
        derives: [0; 64],
        derivers: [0; 64],
        manager: [0; 64],
    };
    shaped(*t);
    if work_out(t, &mut kept).is_err() {
        return false;
    }
    same(derives, derivers, manager, &kept)
}

// Whether a board is sound.
pub fn sound(b: &Board) -> bool
    ensures { (result ≡ true) ↔ SoundBoard b.now }
{
    let t = &b.tables;
    let kept = &b.kept;
    starts_right(t.live, &t.i, &t.a, &b.rights)
        && keeps_right(t, &kept.derives, &kept.derivers, &kept.manager)
}

// The same of the board of these parts, which may lie apart, as C gives them. Its tables are put together only where the first looks find
// nothing, so that a board refused at once costs no copy.
pub fn sound_of<'t>(
    live: u64,
    i: &'t [u64; 64],
    a: &'t [u64; 64],
    derives: &'t [u64; 64],
    derivers: &'t [u64; 64],
    manager: &'t [u8; 64],
    rights: &'t [u8; 64],
) -> bool
    ensures { (result ≡ true) ↔ SoundBoard (board_of live i.now a.now derives.now derivers.now manager.now rights.now) }
{
    starts_right(live, i, a, rights)
        && keeps_right(&Tables { live, i: *i, a: *a }, derives, derivers, manager)
}
