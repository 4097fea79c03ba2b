// Reading for a caller whose board is lent: a refusal leaves it.
ghost use Rattle.board.specs.Answers.{number};
ghost use Rattle.boardfile.specs.Answers.{ReadInto};

use crate::opening::open;
use board::Board;
use board::answers::Refusal;

// The board of a file, into this one. (`*b = read(file)?` was tried: it takes 8,008 bytes of stack, where a reading may take 4,096.)
pub fn read_into(file: &[u8], b: &mut Board) -> Result<(), Refusal>
    ensures { ReadInto file.now b.old b.new (number result) }
{
    let mut new = Board::founding();
    open(file, &mut new)?;
    *b = new;
    Ok(())
}
