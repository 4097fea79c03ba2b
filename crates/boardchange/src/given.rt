// The commands of a text, given one by one, each to the board that the one before it left. Each function answers whether a command was done.
ghost use Rattle.std.specs.Prelude.{◌≡◌};
ghost use Rattle.wording.specs.Meanings.{meaning_of};
ghost use Rattle.wording.specs.Texts.{pieces};
ghost use Rattle.boardchange.specs.Texts.{meant_by, passed?, line_commands, commands_of, text_commands, Gave};

use crate::reasons::{say_answer, say_wrong};
use board::Board;
use commands::decide;
use wording::meant;
use wording::pieces::{NEWLINE, pieces_of, word};

// The text of what is asked for: one command, or many, one a line.
#[derive(Clone, Copy)]
pub(crate) enum Asked<'a> {
    One(&'a [u8]),
    Many(&'a [u8]),
}

// One line. Where `aloud` its answer is said, with the line's number before it where it has one. A refusal is told off the board as it
// is then, since it left that alone. (A flag: a closure to say it would be passed through the same four functions, and make none shorter.)
fn turn(rt: HostRuntime, b: &mut Board, line: &[u8], number: Option<usize>, aloud: bool) -> bool
    ensures { Gave b.old (meant_by (meaning_of line.now)) b.new result }
{
    match meant(line) {
        Ok(c) => {
            let answer = decide(b, c);
            if aloud {
                say_answer(rt, b, &c, answer, number);
            }
            answer.is_ok()
        }
        Err(wrong) => {
            if aloud {
                say_wrong(rt, line, wrong, number);
            }
            false
        }
    }
}

// Whether a line of standard input is passed over: it has no word, or its first begins with '#'.
fn passed_over(line: &[u8]) -> bool
    ensures { result ≡ passed? line.now }
{
    let first = word(line, 0);
    first.is_empty() || first[0] == b'#'
}

// One line of many.
fn line_turn(rt: HostRuntime, b: &mut Board, line: &[u8], number: usize, aloud: bool) -> bool
    ensures { Gave b.old (line_commands line.now) b.new result }
{
    if passed_over(line) {
        false
    } else {
        turn(rt, b, line, Some(number), aloud)
    }
}

// Each line of a text.
fn all_given(rt: HostRuntime, b: &mut Board, text: &[u8], aloud: bool) -> bool
    ensures { Gave b.old (commands_of (pieces 10 text.now)) b.new result }
{
    let mut done = false;
    for (k, line) in pieces_of(text, NEWLINE).enumerate() {
        done |= line_turn(rt, b, line, k + 1, aloud);
    }
    done
}

// Gives the commands of a text.
pub(crate) fn given(rt: HostRuntime, b: &mut Board, asked: Asked, aloud: bool) -> bool
    ensures { Gave b.old (text_commands asked.entry) b.new result }
{
    match asked {
        Asked::One(line) => turn(rt, b, line, None, aloud),
        Asked::Many(text) => all_given(rt, b, text, aloud),
    }
}
