// Lists the board whose file stands on standard input: how many roles and edges it has, then for each live role its number, its line
// manager or '-', and its steps to role 0. Of a file that is refused it says only so, with the number. Reading the file works all of this
// out once; the lines are read off the board.
#![tactic(auto)]

ghost use Rattle.std.specs.Prelude.{◌≤◌, length, IfOk};

use board::Board;
use board::kept::{line_manager, steps};
use boardfile::lent::read_into;
use hierarchy::working::Kept;
use sets::{roles_of, size};
use std::io;
use std::io::Read;
use writer::edge_count;

// The line of one role.
fn list(rt: &impl Print, kept: &Kept, role: u32) -> io::Result<()> {
    let away = steps(kept, role);
    match line_manager(kept, role) {
        Some(manager) => println!(rt; "{role} {manager} {away}"),
        None => println!(rt; "{role} - {away}"),
    }
}

// How large the board is, and the lines of all roles, ascending.
fn list_board(rt: &impl Print, b: &Board) -> io::Result<()> {
    let roles = size(b.tables.live);
    let edges = edge_count(b);
    println!(rt; "roles {roles} edges {edges}")?;
    for role in roles_of(b.tables.live) {
        list(rt, &b.kept, role as u32)?;
    }
    Ok(())
}

// Reads until the space is full or the input ends, and answers how many bytes stand at its start. (Tried: std's `copy` in its place takes 22,088
// bytes of stack, where the bar is 16,360. `boardchange` has the same few lines: a crate for them alone would be no plainer.)
fn read_full(input: &mut impl Read, space: &mut [u8]) -> io::Result<usize>
    ensures { IfOk result (λ n. n ≤ length space.new) }
{
    let mut done = 0;
    while done < space.len() {
        match input.read(&mut space[done..])? {
            0 => break,
            n => done += n,
        }
    }
    Ok(done)
}

// One byte more than the longest file is read, so that a longer input is refused and not cut.
fn main(rt: HostRuntime) -> io::Result<()> {
    let mut space = [0u8; Board::FILE + 1];
    let n = read_full(&mut rt.stdin(), &mut space)?;
    let mut b = Board::founding();
    match read_into(&space[..n], &mut b) {
        Ok(()) => list_board(&rt, &b),
        Err(refusal) => println!(&rt; "refused {}", refusal.number()),
    }
}
