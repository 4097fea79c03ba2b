// A command on a board that is lent: the same service as `step`, on the caller's own board.
ghost use Rattle.board.specs.Answers.{answer};
ghost use Rattle.commands.specs.Commands.{Decided};

use crate::{decide, step};
use board::answers::Refusal;
use board::{Board, Command};

// Decides, and changes the board where nothing refuses it; else the board stays as it was.
pub fn apply(board: &mut Board, c: Command) -> Result<(), Refusal>
    ensures { Decided board.old c (answer result) board.new }
{
    let o = step(*board, c);
    *board = o.board;
    o.answer
}

// The same without a copy of the board, which has 2,184 bytes: it is lent on.
pub fn apply_in_place(board: &mut Board, c: Command) -> Result<(), Refusal>
    ensures { Decided board.old c (answer result) board.new }
{
    decide(board, c)
}
