// An evening's changes in one go: a run of commands handed over together, and a row of answers. Knows the commands, and nothing of how one is
// decided.
//
// Each command is given, in order, to the call that decides one and makes it; a refused one doesn't end the run. A command's answer, in one
// number as C is told it, goes into its place of the row. Where the row is shorter than the run no command is tried.
#![tactic(auto)]

ghost use Rattle.board.specs.Answers.{answer, number, value_or};
ghost use Rattle.runs.specs.Runs.{RunAnswer, EveningAnswer, untried};

use answers::answered;
use board::answers::Refusal;
use board::{Board, Command};
use commands::decide;

// A run on the caller's own board. The places of the row beyond the run stay.
pub fn run(board: &mut Board, commands: &[Command], answers: &mut [u64]) -> Result<(), Refusal>
    ensures { RunAnswer board.old commands.now answers.old answers.new (number result) board.new }
{
    if answers.len() < commands.len() {
        return Err(Refusal::NoRoom);
    }
    for (k, command) in commands.iter().enumerate() {
        answers[k] = answered(decide(board, *command));
    }
    Ok(())
}

// What a run by value leaves: an answer in each command's place and 0 in the others, and the last board.
#[derive(Clone, Copy)]
pub struct Evening {
    pub answers: [u64; Evening::COMMANDS],
    pub board: Board,
}

impl Evening {
    // the places of the row, and so the most that a run by value has
    pub const COMMANDS: usize = 64;
}

// The first n of these commands on a board by value, for callers that lend no slice of commands. More than the row has places is refused,
// which a slice can't say: `EveningAnswer` holds this beside `run`.
pub fn run_by_value(
    board: Board,
    commands: [Command; Evening::COMMANDS],
    n: usize,
) -> Result<Evening, Refusal>
    ensures { let e = value_or (untried board) result in EveningAnswer board commands n e.answers (number result) e.board }
{
    if Evening::COMMANDS < n {
        return Err(Refusal::NoRoom);
    }
    let mut evening = Evening {
        answers: [0; Evening::COMMANDS],
        board,
    };
    run(&mut evening.board, &commands[..n], &mut evening.answers)?;
    Ok(evening)
}
