// A command on the board in a file: read, decided and written in one call.
ghost use Rattle.boardfile.specs.Answers.{Commanded};

use crate::opening::open;
use board::answers::Refusal;
use board::{Board, Command};
use commands::decide_trusting;
use writer::put;

// Why there is no new file: the file handed in is refused, the command on its board is, or there is no room for the new one.
#[derive(Clone, Copy, PartialEq, Eq)]
pub enum Rejected {
    File(Refusal),
    Asked(Refusal),
    Writing(Refusal),
}

// Leaves the file of the board afterwards at the start of `out`, and gives its length. On refusal `out` stays as it was.
#[tactic(auto, using(crate::proofs::Commanding::unread_as, crate::proofs::Commanding::asked_as, crate::proofs::Commanding::unwritten_as, crate::proofs::Commanding::written_as))]
pub fn command(file: &[u8], c: Command, out: &mut [u8]) -> Result<usize, Rejected>
    ensures { Commanded file.now c out.old out.new result }
{
    let mut b = Board::founding();
    open(file, &mut b).map_err(Rejected::File)?;
    decide_trusting(&mut b, c).map_err(Rejected::Asked)?;
    put(&b.tables, &b.rights, out, 0).map_err(Rejected::Writing)
}
