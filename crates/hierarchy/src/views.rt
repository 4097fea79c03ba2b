// The views of a board: what each role derives, and what derives it.
ghost use Rattle.std.specs.Prelude.{◌≡◌, ◌↔◌, ℕ, ◌<◌};
ghost use Rattle.sets.specs.Sets.{◌is_in◌};
ghost use Rattle.hierarchy.specs.Views.{Turned};
ghost use Rattle.hierarchy.specs.Engine.{InRows, RowSettled, Ready, Finished, Starts, Descended, FilledDown, Marked};

use crate::tables::Tables;
use crate::working::Kept;
use sets::{has, lowest, minus, roles_of, single, union, with, within, without};

// The union of the rows of the roles of s.
fn rows(table: &[u64; 64], s: u64) -> u64
    ensures { (z : ℕ) → (z is_in result) ↔ InRows table.now s z }
{
    let mut sum: u64 = 0;
    for y in roles_of(s) {
        sum = union(sum, table[y]);
    }
    sum
}

// The row of role x is what it has of its own and the rows of its juniors in the table. Both are lent apart: it is called for I and for A.
// (That a number is a role is asked of three functions here: a type for it would be made anew at each turn of their loops.)
fn settle(table: &[u64; 64], reach: &mut [u64; 64], x: usize, own: u64) -> u64
    requires { x < 64 }
    ensures { RowSettled table.now reach.old x own result reach.new }
{
    let below = rows(reach, table[x]);
    let row = union(own, below);
    reach[x] = row;
    row
}

// Settles x, whose juniors are done, first by I alone, then by A and from there by I; gives the roles that are done now.
fn finish(t: &Tables, kept: &mut Kept, done: u64, x: usize) -> u64
    requires { Ready t.now kept.old done x }
    ensures { Finished t.now kept.old kept.new done x result }
{
    let row = settle(&t.i, &mut kept.derivers, x, single(x));
    settle(&t.a, &mut kept.derives, x, row);
    with(done, x)
}

// Goes down from root, each role of the path a junior of the one before, and settles a role on the way back, when its juniors are done.
// Fresh are the live roles it hasn't met: a junior neither done nor fresh is on the path, a loop, or doesn't live, and there it stops.
// The path stands in the row of managers, and `above` is the place of its last role, since there is no heap and no function calls itself.
fn descend(t: &Tables, kept: &mut Kept, start: u64, root: usize) -> u64
    requires { Starts t.now kept.old start root }
    ensures { Descended t.now kept.new start root result }
{
    let mut done = start;
    let mut fresh = without(minus(t.live, start), root);
    let mut above: usize = 0;
    kept.manager[0] = root as u8;
    loop {
        let x = kept.manager[above] as usize;
        let waiting = minus(union(t.i[x], t.a[x]), done);
        if let Some(y) = lowest(waiting) {
            if !within(waiting, fresh) {
                return done;
            }
            fresh = without(fresh, y);
            above += 1;
            kept.manager[above] = y as u8;
        } else {
            done = finish(t, kept, done, x);
            if above == 0 {
                return done;
            }
            above -= 1;
        }
    }
}

// x goes into the row of each role of s.
fn mark(up: &mut [u64; 64], s: u64, x: usize)
    requires { x < 64 }
    ensures { Marked up.old s x up.new }
{
    for y in roles_of(s) {
        up[y] = with(up[y], x);
    }
}

// Settles the roles of a board from the juniors up, going down from each live role that isn't done yet: whether the live roles are in
// order, which is that there is no loop and every junior of a live role lives. Row x of `derives` then is the set of what x derives. Until
// then `derivers` has what the roles that are done lead to by I alone, and `manager` the path; where there is no order, all hold anything.
pub(crate) fn fill_down(t: &Tables, kept: &mut Kept) -> bool
    ensures { FilledDown t.now result kept.new.derives }
{
    kept.derives = [0; 64];
    kept.derivers = [0; 64];
    let mut done: u64 = 0;
    // No `for` goes through the live roles: one walk may settle many of them.
    while let Some(root) = lowest(minus(t.live, done)) {
        done = descend(t, kept, done, root);
        if !has(done, root) {
            return false;
        }
    }
    true
}

// Row y of `derivers` becomes the set of the live roles whose row in `derives` has y: what derives y, where all live roles settle.
pub(crate) fn fill_up(live: u64, kept: &mut Kept)
    ensures turned { Turned live kept.old.derives kept.new.derivers }
    ensures same { kept.new.derives ≡ kept.old.derives }
{
    kept.derivers = [0; 64];
    for x in roles_of(live) {
        mark(&mut kept.derivers, kept.derives[x], x);
    }
}
