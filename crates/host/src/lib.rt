// The board for programs in C. `host/board.h` declares these functions and says how an answer is taken apart.
//
// Knows all of the library; what is decided is decided there, by `commands`, `runs`, `jobs`, `writer` and `boardfile`, and here an answer is
// packed into one number. Nothing is asked of a caller but that the pointers are good.
#![tactic(auto)]

mod lists;
mod values;

ghost use Rattle.std.specs.Prelude.{◌≡◌};
ghost use Rattle.board.specs.Boards.{founding_board};
ghost use Rattle.host.specs.Answers.{Applied, RunPacked, Checked, DerivesPacked, ScopePacked, ManagerPacked, StepsPacked, StretchPacked, Commanded, ReadPacked, WritePacked};

use answers::{answered, answered_at};
use board::answers::Answer;
use board::{Board, Command};
use boardfile::ask::{check, derives, line_manager, scope, steps};
use boardfile::change::{Rejected, command};
use boardfile::lent::read_into;
use boardfile::stretches::bounds;
use commands::decide;
use runs::run;
use values::{
    ASKED, FILE, WRITING, bar_reason, done, manager_value, refused, refused_at, refused_with,
    scope_value, unwritten,
};
use writer::write;

// The founding board, over the caller's own.
#[unsafe(no_mangle)]
pub extern "C" fn board_found(b: &mut Board) -> u64
    ensures { (result ≡ 0) × (b.new ≡ founding_board) }
{
    *b = Board::founding();
    0
}

// The board of a file, over the caller's own; a refusal leaves the board as it was.
#[unsafe(no_mangle)]
pub extern "C" fn board_read(file: &[u8], b: &mut Board) -> u64
    ensures { ReadPacked file.now b.old b.new result }
{
    match read_into(file, b) {
        Ok(()) => done(0),
        Err(refusal) => refused(refusal),
    }
}

// One command on the caller's own board. Place and value are 0; with number 6 the answer says who offends and why.
#[unsafe(no_mangle)]
pub extern "C" fn board_apply(b: &mut Board, c: &Command) -> u64
    ensures { Applied b.old c.now b.new result }
{
    answered(decide(b, *c))
}

// A run of commands on the caller's own board, with their answers in the caller's row.
#[unsafe(no_mangle)]
pub extern "C" fn board_run(b: &mut Board, commands: &[Command], answers: &mut [u64]) -> u64
    ensures { RunPacked b.old commands.now answers.old answers.new b.new result }
{
    match run(b, commands, answers) {
        Ok(()) => done(0),
        Err(refusal) => unwritten(refusal),
    }
}

// The file of the caller's board, into `out` from place `at` on; the value is its length.
#[unsafe(no_mangle)]
pub extern "C" fn board_write(b: &Board, out: &mut [u8], at: usize) -> u64
    ensures { WritePacked b.now out.old at out.new result }
{
    match write(b, out, at) {
        Ok(len) => done(len as u16),
        Err(refusal) => unwritten(refusal),
    }
}

// One command on the board in a file; done leaves the new file at the start of `out`.
#[unsafe(no_mangle)]
pub extern "C" fn board_command(file: &[u8], c: &Command, out: &mut [u8]) -> u64
    ensures { Commanded file.now c.now out.old out.new result }
{
    match command(file, *c, out) {
        Ok(len) => answered_at(Answer::plain(0), ASKED, len as u16),
        Err(Rejected::File(refusal)) => refused_at(refusal, FILE),
        Err(Rejected::Asked(refusal)) => refused_at(refusal, ASKED),
        Err(Rejected::Writing(refusal)) => refused_at(refusal, WRITING),
    }
}

// Whether the file can be read.
#[unsafe(no_mangle)]
pub extern "C" fn board_check(file: &[u8]) -> u64
    ensures { Checked file.now result }
{
    match check(file) {
        Ok(()) => done(0),
        Err(refusal) => refused(refusal),
    }
}

// Whether x derives y.
#[unsafe(no_mangle)]
pub extern "C" fn board_derives(file: &[u8], x: u32, y: u32) -> u64
    ensures { DerivesPacked file.now x y result }
{
    match derives(file, x, y) {
        Ok(yes) => done(u16::from(yes)),
        Err(refusal) => refused(refusal),
    }
}

// Whether r is in the scope of a, why not, and how many roles are.
#[unsafe(no_mangle)]
pub extern "C" fn board_scope(file: &[u8], a: u32, r: u32) -> u64
    ensures { ScopePacked file.now a r result }
{
    match scope(file, a, r) {
        Ok(scoped) => done(scope_value(scoped)) + bar_reason(scoped.bar),
        Err(refusal) => refused(refusal),
    }
}

// The line manager of r, or none.
#[unsafe(no_mangle)]
pub extern "C" fn board_manager(file: &[u8], r: u32) -> u64
    ensures { ManagerPacked file.now r result }
{
    match line_manager(file, r) {
        Ok(manager) => done(manager_value(manager)),
        Err(refusal) => refused_with(refusal, manager_value(None)),
    }
}

// The steps from r to role 0.
#[unsafe(no_mangle)]
pub extern "C" fn board_steps(file: &[u8], r: u32) -> u64
    ensures { StepsPacked file.now r result }
{
    match steps(file, r) {
        Ok(steps) => done(steps as u16),
        Err(refusal) => refused(refusal),
    }
}

// Where the edge records of a senior stand in the file.
#[unsafe(no_mangle)]
pub extern "C" fn board_stretch(file: &[u8], role: u32) -> u64
    ensures { StretchPacked file.now role result }
{
    match bounds(file, role) {
        Ok(span) => done(span.start as u16) + 4294967296 * (span.len as u64),
        Err(refusal) => refused(refusal),
    }
}
