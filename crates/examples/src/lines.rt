// The lines that the program writes. What was asked is written from the very values that are asked about: each function has the board's name
// and the board, as they stand in the line.
use crate::words::{Answered, Asked, Reason, Rights, yes_or_no};
use board::answers::{Cause, Refusal};
use board::{Board, Command, checks};
use commands::{decide, step};
use hierarchy::tables::Tables;
use hierarchy::working::{Fault, work_out};
use runs::{Evening, run_by_value};
use sets::has;
use std::io;

// The number of a refusal, at the end of a line.
pub(crate) fn refused(rt: &impl Print, why: Refusal) -> io::Result<()> {
    println!(rt; "refused {}", why.number())
}

// ---- questions

pub(crate) fn sound(rt: &impl Print, name: &str, b: &Board) -> io::Result<()> {
    println!(rt; "{name}: sound: {}", yes_or_no(checks::sound(b)))
}

pub(crate) fn derives(rt: &impl Print, name: &str, b: &Board, x: u32, y: u32) -> io::Result<()> {
    print!(rt; "{name}: {x} derives {y}: ")?;
    match questions::derives(b, x, y) {
        Ok(yes) => println!(rt; "{}", yes_or_no(yes)),
        Err(why) => refused(rt, why),
    }
}

// Whether r is in the scope of a.
pub(crate) fn in_scope(rt: &impl Print, name: &str, b: &Board, a: u32, r: u32) -> io::Result<()> {
    print!(rt; "{name}: {r} in the scope of {a}: ")?;
    match questions::scope(b, a, r) {
        Ok(found) => match found.bar {
            None => println!(rt; "yes"),
            Some(bar) => println!(rt; "no{}", Reason(Cause::from(bar))),
        },
        Err(why) => refused(rt, why),
    }
}

// The roles in the scope of a, asked about one by one, and its size in brackets.
pub(crate) fn scope(rt: &impl Print, name: &str, b: &Board, a: u32) -> io::Result<()> {
    print!(rt; "{name}: scope of {a}:")?;
    for r in 0..64 {
        if questions::scope(b, a, r).is_ok_and(|found| found.bar.is_none()) {
            print!(rt; " {r}")?;
        }
    }
    let count = questions::scope(b, a, a).map_or(0, |own| own.count);
    println!(rt; " ({count})")
}

pub(crate) fn manager(rt: &impl Print, name: &str, b: &Board, r: u32) -> io::Result<()> {
    print!(rt; "{name}: line manager of {r}: ")?;
    match questions::line_manager(b, r) {
        Ok(Some(m)) => println!(rt; "{m}"),
        Ok(None) => println!(rt; "none"),
        Err(why) => refused(rt, why),
    }
}

pub(crate) fn steps(rt: &impl Print, name: &str, b: &Board, r: u32) -> io::Result<()> {
    print!(rt; "{name}: steps from {r}: ")?;
    match questions::steps(b, r) {
        Ok(n) => println!(rt; "{n}"),
        Err(why) => refused(rt, why),
    }
}

// ---- commands

// What the command asks for, and its answer; gives the board that it leaves.
pub(crate) fn asked(rt: &impl Print, name: &str, b: &Board, c: Command) -> io::Result<Board> {
    let left = step(*b, c);
    println!(rt; "{name}: {}: {}", Asked(c), Answered(left.answer))?;
    Ok(left.board)
}

// The same on a board that is lent.
pub(crate) fn asked_of_lent(
    rt: &impl Print,
    name: &str,
    b: &mut Board,
    c: Command,
) -> io::Result<()> {
    println!(rt; "{name}: {}: {}", Asked(c), Answered(decide(b, c)))
}

// The first n of these commands in one run: their numbers, or the run's own refusal; gives the board that they leave.
pub(crate) fn evening(
    rt: &impl Print,
    name: &str,
    b: &Board,
    commands: [Command; Evening::COMMANDS],
    n: usize,
) -> io::Result<Board> {
    print!(rt; "{name}: a run of {n}: ")?;
    match run_by_value(*b, commands, n) {
        Ok(evening) => {
            print!(rt; "answers")?;
            for answer in evening.answers.iter().take(n) {
                // the lowest byte of an answer is its number
                print!(rt; " {}", answer % 256)?;
            }
            println!(rt)?;
            Ok(evening.board)
        }
        Err(why) => {
            refused(rt, why)?;
            Ok(*b)
        }
    }
}

// ---- boards

// The rights that r holds.
pub(crate) fn rights(rt: &impl Print, name: &str, b: &Board, r: usize) -> io::Result<()> {
    let held = b.rights.get(r).copied().unwrap_or(0);
    println!(rt; "{name}: {r} holds{}", Rights(held as u32))
}

// The number that is printed for the kind of the edge from x to y, by the two tables: 1 for I, 2 for A and 3 for both; 0 where there is none.
fn kind_of(t: &Tables, x: usize, y: usize) -> u32 {
    let joins = |table: &[u64; 64]| table.get(x).is_some_and(|juniors| has(*juniors, y));
    u32::from(joins(&t.i)) + 2 * u32::from(joins(&t.a))
}

pub(crate) fn kind(rt: &impl Print, name: &str, b: &Board, x: usize, y: usize) -> io::Result<()> {
    println!(rt; "{name}: kind of {x} to {y}: {}", kind_of(&b.tables, x, y))
}

// What is wrong with the board of these tables. Its entries join live roles, so what is not in order is a loop.
pub(crate) fn trouble(rt: &impl Print, name: &str, t: &Tables) -> io::Result<()> {
    let mut kept = Board::founding().kept;
    let found = match work_out(t, &mut kept) {
        Ok(()) => "none",
        Err(Fault::Loops) => "a role that reaches itself",
        Err(Fault::Unmanaged) => "a role without an administrator",
    };
    println!(rt; "{name}: trouble: {found}")
}

// Whether the two boards are the same.
pub(crate) fn same(rt: &impl Print, name: &str, b: &Board, d: &Board) -> io::Result<()> {
    println!(rt; "{name}: {}", yes_or_no(b == d))
}
