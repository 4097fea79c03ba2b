// The parts of an answer as numbers: where it arose, its value, and why a role is not in a scope.
ghost use Rattle.std.specs.Prelude.{◌≡◌, is_none, Err, ◌+◌, ◌*◌, ◌≤◌};
ghost use Rattle.sets.specs.Sets.{num};
ghost use Rattle.scopes.specs.Bars.{bar_cause, bar_way};
ghost use Rattle.board.specs.Answers.{number_of, answer as answer_to};
ghost use Rattle.answers.specs.Packing.{answer, reason, answer_of};
ghost use Rattle.host.specs.Answers.{place_of, place_of_writing, manager_or64};

use answers::{answered_at, blame, packed};
use board::answers::{Cause, Refusal};
use questions::Scoped;
use scopes::Bar;

// Where an answer arose, by the number that C is told (`BOARD_PLACE`): the command or the question, which is also where all that is done
// arose; the file; the writing.
pub(crate) const ASKED: u8 = 0;

pub(crate) const FILE: u8 = 1;

pub(crate) const WRITING: u8 = 2;

// what stands for no line manager
const NONE: u16 = 64;

// What is done, with its value.
pub(crate) fn done(value: u16) -> u64
    ensures { result ≡ answer 0 0 value }
{
    packed(0, ASKED, value)
}

// A command that is refused, with whom a 6 names.
pub(crate) fn refused_at(refusal: Refusal, place: u8) -> u64
    ensures { result ≡ answer_of (answer_to {A = Unit {0}} (Err refusal)) place 0 }
{
    let told: Result<(), Refusal> = Err(refusal);
    answered_at(told, place, 0)
}

// A question about a file that is refused, with the value that says none.
pub(crate) fn refused_with(refusal: Refusal, none: u16) -> u64
    ensures { let n = number_of refusal in result ≡ answer n (place_of n) none }
{
    packed(refusal.number(), place_of(refusal), none)
}

// The same where that value is 0.
pub(crate) fn refused(refusal: Refusal) -> u64
    ensures { let n = number_of refusal in result ≡ answer n (place_of n) 0 }
{
    refused_with(refusal, 0)
}

// A writing that is refused.
pub(crate) fn unwritten(refusal: Refusal) -> u64
    ensures { let n = number_of refusal in result ≡ answer n (place_of_writing n) 0 }
{
    packed(refusal.number(), place_of_writing(refusal), 0)
}

// Where the refusal of a question about a file arose: its own are a number that is no role and a role that isn't there, all others are
// the file's. C is told it by a number.
fn place_of(refusal: Refusal) -> u8
    ensures { result ≡ place_of (number_of refusal) }
{
    match refusal {
        Refusal::Malformed | Refusal::Missing => ASKED,
        _ => FILE,
    }
}

// Where the refusal of a writing arose, by a number as C is told it: want of room is its own; a board that isn't sound is refused as a
// command on it is.
fn place_of_writing(refusal: Refusal) -> u8
    ensures { result ≡ place_of_writing (number_of refusal) }
{
    match refusal {
        Refusal::NoRoom => WRITING,
        _ => ASKED,
    }
}

// The answer on a role, and the count of all in the scope.
pub(crate) fn scope_value(scoped: Scoped) -> u16
    requires { scoped.count ≤ 64 }
    ensures { result ≡ num (is_none scoped.bar) + 2 * scoped.count }
{
    let twice = 2 * (scoped.count as u16);
    u16::from(scoped.bar.is_none()) + twice
}

// What bars a role from a scope. A scope names no offender.
pub(crate) fn bar_reason(bar: Option<Bar>) -> u64
    ensures { result ≡ reason 0 (bar_cause bar) (bar_way bar) }
{
    match bar {
        Some(bar) => blame(0, Cause::from(bar)),
        None => 0,
    }
}

pub(crate) fn manager_value(manager: Option<u8>) -> u16
    ensures { result ≡ manager_or64 manager }
{
    manager.map_or(NONE, |role| u16::from(role))
}
