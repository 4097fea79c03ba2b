// A board's file, written: one for each sound board. Knows the board's records and the trailer; reads no file.
//
// In order: a byte for each live role, ascending; three bytes for each edge, senior, junior and kind, ascending by senior and then by
// junior; a trailer of six bytes: how far before the trailer the edge records begin (0 where there are none), how far before it the
// role bytes begin, each in two bytes, the low one first, and HH. That is the file of a board where role 0 holds all rights and nobody
// else any. Every other board has a rights byte for each live role, ascending, before the trailer, and the trailer has eight bytes: how far
// before it the rights bytes begin comes first, and it ends in HR.
#![tactic(auto)]

mod parts;
pub mod records;

ghost use Rattle.std.specs.Prelude.{◌≡◌, ◌*◌, ◌≤◌, length};
ghost use Rattle.board.specs.Boards.{tables_of};
ghost use Rattle.board.specs.Answers.{number, value_or};
ghost use Rattle.writer.specs.Files.{from, edge?, kind_at, founding?, file_of};
ghost use Rattle.writer.specs.Parts.{Laid, PutAnswer};
ghost use Rattle.writer.specs.Writing.{WriteAnswer};

use board::Board;
use board::answers::Refusal;
use board::checks::sound;
use frames::Layout;
use hierarchy::tables::Tables;
use parts::{file_len, put_file};
use sets::{size, union};

// How many edges have a senior below this one.
pub(crate) fn edges_below(t: &Tables, senior: usize) -> usize
    requires { senior ≤ 64 }
    ensures { result ≡ length (from (senior * 64) 0 (edge? (kind_at t.now))) }
{
    let mut n: usize = 0;
    for (i, a) in t.i[..senior].iter().zip(&t.a) {
        n += size(union(*i, *a)) as usize;
    }
    n
}

// How many edges a board has.
pub fn edge_count(b: &Board) -> usize
    ensures { result ≡ length (from 4096 0 (edge? (kind_at (tables_of b.now)))) }
{
    edges_below(&b.tables, Board::ROLES)
}

// Whether role 0 holds all rights and nobody else any: such a board's file has no rights bytes.
pub fn founding(rights: &[u8; 64]) -> bool
    ensures { result ≡ founding? rights.now }
{
    rights[0] == Board::ALL_RIGHTS && rights[1..].iter().all(|byte| *byte == 0)
}

// What lies in the file of the board of these tables and rights.
fn layout_of(t: &Tables, rights: &[u8; 64]) -> Layout
    ensures { Laid t.now rights.now result }
{
    Layout {
        roles: size(t.live) as usize,
        edges: edges_below(t, Board::ROLES),
        rights: !founding(rights),
    }
}

// The file of the board of these tables and rights, sound or not, into a buffer, from a place on; and its length. A file has nothing of what
// a board keeps besides.
// `at` stays beside the buffer: `NoRoom.past_end` speaks of a place past its end.
pub fn put(t: &Tables, rights: &[u8; 64], out: &mut [u8], at: usize) -> Result<usize, Refusal>
    ensures { PutAnswer (file_of t.now rights.now) out.old at out.new (number result) (value_or 0 result) }
{
    let layout = layout_of(t, rights);
    let len = file_len(layout);
    if out.len() < at || out.len() - at < len {
        return Err(Refusal::NoRoom);
    }
    put_file(t, rights, layout, &mut out[at..]);
    Ok(len)
}

// The file of a board, into a buffer, from a place on; and its length.
// `at` stays beside the buffer: `NoRoom.past_end` speaks of a place past its end.
pub fn write(b: &Board, out: &mut [u8], at: usize) -> Result<usize, Refusal>
    ensures { WriteAnswer b.now out.old at out.new (number result) (value_or 0 result) }
{
    if !sound(b) {
        return Err(Refusal::Unsound);
    }
    put(&b.tables, &b.rights, out, at)
}
