// One table of a board, lent: its rows, and the entries of one junior.
ghost use Rattle.std.specs.Prelude.{◌≡◌, cond, ℕ};
ghost use Rattle.hierarchy.specs.Tables.{row, IsTable};
ghost use Rattle.sets.specs.Sets.{bit, same?};
ghost use Rattle.effects.specs.Rows.{RowSet, Entered, Left};

use sets::{roles_of, with, without};

// Row x of a table; a number above 63 has no junior.
pub(crate) fn row_of(t: &[u64; 64], x: usize) -> u64
    ensures { result ≡ row t.now x }
{
    t.get(x).copied().unwrap_or(0)
}

// s becomes the row of x.
pub(crate) fn set_row(t: &mut [u64; 64], x: usize, s: u64)
    requires { IsTable t.old }
    ensures { RowSet t.old x s t.new }
{
    if x < 64 {
        t[x] = s;
    }
}

// s with the role r, or without it: `part` is the entry that r gets.
fn put(s: u64, r: usize, part: bool) -> u64
    ensures { (x : ℕ) → bit result x ≡ cond (same? r x) part (bit s x) }
{
    if part { with(s, r) } else { without(s, r) }
}

// The junior goes into the row of each senior, or out of it, as `part` says.
pub(crate) fn enter(t: &mut [u64; 64], seniors: u64, junior: usize, part: bool)
    ensures { Entered t.old seniors junior part t.new }
{
    for x in roles_of(seniors) {
        t[x] = put(t[x], junior, part);
    }
}

// The junior goes out of every row.
pub(crate) fn leave(t: &mut [u64; 64], junior: usize)
    ensures { Left t.old junior t.new }
{
    for row in t.iter_mut() {
        *row = without(*row, junior);
    }
}
