// A board file read, and what is asked of one: the questions, the records of one senior, a command. Knows the frame and the writer, and all
// of the board below; every file that no sound board has is refused. `writer` says what the bytes are.
//
// Each function on a file opens it first, which works out what its board keeps; what follows reads it there, so that soundness is worked
// out once.
#![tactic(auto)]

pub mod ask;
pub mod change;
pub mod lent;
mod opening;
mod reader;
mod rights;
pub mod stretches;

ghost use Rattle.board.specs.Answers.{number, value_or};
ghost use Rattle.board.specs.Boards.{founding_board};
ghost use Rattle.boardfile.specs.Answers.{ReadAnswer};

use board::Board;
use board::answers::Refusal;
use opening::open;

// The board of a file.
#[tactic(auto, using(crate::proofs::Readings::read_not, crate::proofs::Readings::read_done))]
pub fn read(file: &[u8]) -> Result<Board, Refusal>
    ensures { ReadAnswer file.now (number result) (value_or founding_board result) }
{
    let mut b = Board::founding();
    open(file, &mut b)?;
    Ok(b)
}
