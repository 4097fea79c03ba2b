// Questions about the board in a file: the file's refusals first, then those of the question.
ghost use Rattle.hierarchy.specs.First.{First};
ghost use Rattle.std.specs.Prelude.{false, None};
ghost use Rattle.board.specs.Answers.{number, value_or};
ghost use Rattle.questions.specs.Scoped.{said, count, cause, way};
ghost use Rattle.boardfile.specs.Answers.{refusals, DerivesOnFile, ScopeOnFile, ManagerOnFile, StepsOnFile};

use crate::opening::open;
use board::Board;
use board::answers::Refusal;
use questions::{Scoped, derives_trusting, line_manager_trusting, scope_trusting, steps_trusting};

// Whether the file can be read.
pub fn check(file: &[u8]) -> Result<(), Refusal>
    ensures { First (refusals file.now) (number result) }
{
    open(file, &mut Board::founding())
}

// Does x derive y.
pub fn derives(file: &[u8], x: u32, y: u32) -> Result<bool, Refusal>
    ensures { DerivesOnFile file.now x y (number result) (value_or false result) }
{
    let mut b = Board::founding();
    open(file, &mut b)?;
    derives_trusting(&b, x, y)
}

// Is r in the scope of a, why not, and how many are.
pub fn scope(file: &[u8], a: u32, r: u32) -> Result<Scoped, Refusal>
    ensures { ScopeOnFile file.now a r (number result) (said result) (count result) (cause result) (way result) }
{
    let mut b = Board::founding();
    open(file, &mut b)?;
    scope_trusting(&b, a, r)
}

// The line manager of r.
pub fn line_manager(file: &[u8], r: u32) -> Result<Option<u8>, Refusal>
    ensures { ManagerOnFile file.now r (number result) (value_or None result) }
{
    let mut b = Board::founding();
    open(file, &mut b)?;
    line_manager_trusting(&b, r)
}

// The steps from r to role 0 by line managers.
pub fn steps(file: &[u8], r: u32) -> Result<usize, Refusal>
    ensures { StepsOnFile file.now r (number result) (value_or 0 result) }
{
    let mut b = Board::founding();
    open(file, &mut b)?;
    steps_trusting(&b, r)
}
