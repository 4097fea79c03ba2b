// Where the edge records of one senior stand in the file of a board.
ghost use Rattle.std.specs.Prelude.{◌≡◌, ◌≤◌};
ghost use Rattle.board.specs.Answers.{number, value_or};
ghost use Rattle.writer.specs.Files.{start_of};
ghost use Rattle.writer.specs.Parts.{PlaceAnswer, nowhere};

use crate::edges_below;
use board::answers::Refusal;
use hierarchy::tables::Tables;
use sets::{has, size};

// Where the edge records of one senior begin in the file, and how many bytes they are; 0 and 0 where it has none, as `start_or_none` has
// it.
#[derive(Clone, Copy, PartialEq, Eq)]
pub struct Span {
    pub start: usize,
    pub len: usize,
}

// Where the records of this senior and of those above it begin: past the role bytes and the records of the seniors below.
fn start_of(t: &Tables, senior: usize) -> usize
    requires { senior ≤ 64 }
    ensures { result ≡ start_of t.now senior }
{
    size(t.live) as usize + 3 * edges_below(t, senior)
}

// The place of the records of this senior in the file of a board.
pub fn place(t: &Tables, role: u32) -> Result<Span, Refusal>
    ensures { let span = value_or nowhere result in PlaceAnswer t.now role (number result) span.start span.len }
{
    if 63 < role {
        return Err(Refusal::Malformed);
    }
    let senior = role as usize;
    if !has(t.live, senior) {
        return Err(Refusal::Missing);
    }
    let start = start_of(t, senior);
    let len = start_of(t, senior + 1) - start;
    if len == 0 {
        return Ok(Span { start: 0, len: 0 });
    }
    Ok(Span { start, len })
}
