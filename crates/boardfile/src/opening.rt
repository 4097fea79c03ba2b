// A file opened: its board, with all that it keeps.
ghost use Rattle.board.specs.Answers.{number};
ghost use Rattle.boardfile.specs.Parts.{Opening};

use crate::reader::{Listed, edges};
use crate::rights::holdings;
use board::Board;
use board::answers::Refusal;
use frames::frame;
use hierarchy::working::work_out;

// Reads the parts one after the other, and works out what the board keeps. On refusal the board holds anything.
pub(crate) fn open(file: &[u8], b: &mut Board) -> Result<(), Refusal>
    ensures { Opening file.now (number result) b.new }
{
    let layout = frame(file)?;
    let f = Listed::of(file, layout)?;
    edges(&f, &mut b.tables)?;
    b.rights = holdings(&f)?;
    work_out(&b.tables, &mut b.kept).map_err(Refusal::from)
}
