// The seven commands: one call decides a change and makes it. Knows the board, the effects and the rows on the board handed in; has the rows
// afterwards, and all of them in the order of document 01.
//
// `decide` works on a board that is lent, `step` on one by value, `lent::apply` by `step` on one that is lent. `decide_trusting` is for a
// caller that has just found the board sound.
#![tactic(auto)]

mod afterwards;
pub mod lent;
mod rights;

ghost use Rattle.board.specs.Answers.{answer};
ghost use Rattle.commands.specs.Commands.{Decided};
ghost use Rattle.commands.specs.Trusting.{DecidedTrusting};

use afterwards::change_if_allowed;
use board::answers::Refusal;
use board::checks::sound;
use board::{Board, Command};
use hierarchy::shape::shaped;
use refusals::refused_on_board;
use rights::{change_rights, rights_alone};

// The answer, and the board afterwards.
#[derive(Clone, Copy)]
pub struct Outcome {
    pub answer: Result<(), Refusal>,
    pub board: Board,
}

// Decides one command on a board whose own sets say what deriving and scope are, and changes it. Goes on with a board that was just found
// sound: soundness isn't checked. On refusal the board stays. Commands 6 and 7 leave the tables, so nothing is worked out for them.
pub fn decide_trusting(b: &mut Board, c: Command) -> Result<(), Refusal>
    ensures { DecidedTrusting b.old c (answer result) b.new }
{
    shaped(b.tables);
    refused_on_board(b, c)?;
    if !rights_alone(c) {
        change_if_allowed(&mut b.tables, &mut b.kept, c)?;
    }
    change_rights(&mut b.rights, c);
    Ok(())
}

// Decides one command on a board, soundness first, and changes it. On refusal the board stays.
pub fn decide(b: &mut Board, c: Command) -> Result<(), Refusal>
    ensures { Decided b.old c (answer result) b.new }
{
    if !sound(b) {
        return Err(Refusal::Unsound);
    }
    decide_trusting(b, c)
}

// One command on a board by value: for a caller that keeps the board it had, as `Outcome` has both the answer and the board.
pub fn step(b: Board, c: Command) -> Outcome
    ensures { Decided b c (answer result.answer) result.board }
{
    let mut board = b;
    let answer = decide(&mut board, c);
    Outcome { answer, board }
}
