// The edge records of one senior in a file: where they stand, and the part of the file that they are. The place is worked out from the
// board, so that the file is read once.
ghost use Rattle.std.specs.Prelude.{ℕ};
ghost use Rattle.board.specs.Answers.{number, value_or};
ghost use Rattle.boardfile.specs.Answers.{BoundsAnswer};
ghost use Rattle.boardfile.specs.Stretches.{StretchOf, Stretched};
ghost use Rattle.writer.specs.Parts.{nowhere};

use crate::opening::open;
use board::Board;
use board::answers::Refusal;
use writer::records::{Span, place};

// The place of the records of this senior in a file.
pub fn bounds(file: &[u8], role: u32) -> Result<Span, Refusal>
    ensures { let span = value_or nowhere result in BoundsAnswer file.now role (number result) span.start span.len }
{
    let mut b = Board::founding();
    open(file, &mut b)?;
    place(&b.tables, role)
}

// The edge records of one senior, as a part of the file.
pub fn records(file: &[u8], role: u32) -> Result<&[u8], Refusal>
    ensures { Stretched file.now file.entry.ref_ptr role result }
{
    let span = bounds(file, role)?;
    Ok(&file[span.start..span.start + span.len])
}

// The same, with no bytes, at the file's first, in place of a refusal.
pub fn stretch(file: &[u8], role: u32) -> &[u8]
    ensures { (number : ℕ) × StretchOf file.now file.entry.ref_ptr role number result.now result.ref_ptr }
{
    match records(file, role) {
        Ok(part) => part,
        Err(_) => &file[..0],
    }
}
