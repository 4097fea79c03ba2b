// Runs the examples of request 5 through the job list's own functions and writes a line for each: what was asked, then what came back.
// `stdout` has the same lines, worked out by hand from the documents.
#![tactic(auto)]

use board::{Board, Command};
use commands::decide;
use exampleboards::{add_role, remove_role, w};
use lines::{List, commanded};
use std::io;

mod lines;

// The board that these commands make of the founding one.
fn made_by(commands: &[Command]) -> Board {
    let mut board = Board::founding();
    for c in commands {
        let _ = decide(&mut board, *c);
    }
    board
}

// 0 I 1, 0 I 2, 1 I 3, 2 I 4: two coordinators, and the cutters of each. So 0 derives all, 1 itself and 3, 2 itself and 4, and each one's
// scope is what it derives.
fn two_coordinators() -> Board {
    made_by(&[
        add_role(0, 1, 0, 0b1),
        add_role(0, 2, 0, 0b1),
        add_role(0, 3, 0, 0b10),
        add_role(0, 4, 0, 0b100),
    ])
}

// Two members want one job, and roles that derive the job's role and that don't.
fn claims(rt: &impl Print, b: &Board, list: &mut List) -> io::Result<()> {
    for (member, role) in [(7, 3), (8, 3), (7, 3), (8, 4)] {
        list.claim(rt, b, 0, member, role)?;
    }
    list.job(rt, 0)?;
    list.claim(rt, b, 1, 8, 1)?;
    for role in [3, 1, 2] {
        list.claim(rt, b, 2, 9, role)?;
    }
    list.claim(rt, b, 3, 7, 3)?;
    list.job(rt, 3)
}

// By the holder, by a coordinator, by a stranger.
fn releases(rt: &impl Print, b: &Board, list: &mut List) -> io::Result<()> {
    list.release(rt, b, 0, 7, 3)?;
    list.job(rt, 0)?;
    list.release(rt, b, 0, 7, 3)?;
    list.release(rt, b, 0, 7, 4)?;
    list.release(rt, b, 1, 5, 4)?;
    list.release(rt, b, 1, 5, 1)?;
    list.release(rt, b, 2, 5, 1)?;
    list.job(rt, 2)?;
    list.release(rt, b, 2, 9, 3)?;
    list.claim(rt, b, 2, u32::MAX, 4)?;
    list.job(rt, 2)?;
    list.release(rt, b, 2, 0, 3)
}

// Numbers that are no role, no job and no live role, and a board that isn't sound: the board's refusals come first.
fn refusals(rt: &impl Print, b: &Board, list: &mut List) -> io::Result<()> {
    for (job, role) in [(0, 64), (4, 3), (1024, 3), (65536, 3), (2, 5)] {
        list.claim(rt, b, job, 7, role)?;
    }
    list.release(rt, b, 2, u32::MAX, 5)?;
    list.job(rt, 4)?;
    list.job(rt, 1024)?;
    // the same board with no live role, which isn't sound
    let mut nobody = *b;
    nobody.tables.live = 0;
    list.claim(rt, &nobody, 1024, 7, 64)?;
    list.release(rt, &nobody, 2, u32::MAX, 4)
}

// The role of a held job is removed from the board, and added again: the job stays held.
fn removed_role(rt: &impl Print, b: &Board, list: &mut List) -> io::Result<()> {
    let less = commanded(rt, "removes role 4", b, remove_role(0, 4))?;
    list.release(rt, &less, 2, u32::MAX, 2)?;
    list.claim(rt, &less, 2, 9, 2)?;
    list.job(rt, 2)?;
    let again = commanded(
        rt,
        "adds role 4, I-seniors 2",
        &less,
        add_role(0, 4, 0, 0b100),
    )?;
    list.claim(rt, &again, 2, 9, 2)?;
    list.release(rt, &again, 2, 9, 2)?;
    list.claim(rt, &again, 2, 9, 2)?;
    list.job(rt, 2)
}

// The longest list, one that is longer, and one with a number that is no role.
fn long_lists(rt: &impl Print, b: &Board, list: &mut List) -> io::Result<()> {
    let many = [3u8; 1025];
    list.start(rt, &many[..1024])?;
    list.claim(rt, b, 1023, 7, 3)?;
    list.claim(rt, b, 1023, 8, 3)?;
    list.job(rt, 1023)?;
    list.job(rt, 0)?;
    list.start(rt, &many)?;
    list.job(rt, 1023)?;
    list.job(rt, 0)?;
    list.start(rt, &[63, 64])?;
    list.job(rt, 0)?;
    list.start(rt, &[63])?;
    list.job(rt, 0)?;
    list.claim(rt, b, 0, 7, 0)?;
    list.start(rt, &[])?;
    list.job(rt, 0)
}

// A claim asks who derives, and a release who has it in scope. On document 01's W 5 is derived by 1, 3 and 4, not by 0 (I, then A), and of
// these only 1 has it in its scope: 3 and 4 are in each other's way.
fn deriving_and_scope(rt: &impl Print, list: &mut List) -> io::Result<()> {
    let b = w();
    list.start(rt, &[5])?;
    list.claim(rt, &b, 0, 7, 4)?;
    for role in [4, 0, 1] {
        list.release(rt, &b, 0, 8, role)?;
    }
    list.claim(rt, &b, 0, 8, 0)?;
    list.claim(rt, &b, 0, 8, 3)?;
    list.job(rt, 0)
}

fn main(rt: HostRuntime) -> io::Result<()> {
    let b = two_coordinators();
    let mut list = List::new();
    // jobs 0 and 1 under role 3, job 2 under role 4, job 3 under role 0
    list.start(&rt, &[3, 3, 4, 0])?;
    claims(&rt, &b, &mut list)?;
    releases(&rt, &b, &mut list)?;
    refusals(&rt, &b, &mut list)?;
    removed_role(&rt, &b, &mut list)?;
    long_lists(&rt, &b, &mut list)?;
    deriving_and_scope(&rt, &mut list)
}
