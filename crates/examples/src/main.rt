// Runs every example of document 01, and those of the requests, through the board's own functions and writes a line for each: what was asked,
// then what came back. `stdout` has the same lines, worked out by hand from the documents.
#![tactic(auto)]

use board::Command;
use exampleboards::{
    A, I, IA, add_between, add_edge, add_role, change_edge, command, e, f, give_rights, l, p,
    remove_edge, remove_role, take_rights, w,
};
use runs::Evening;
use std::io;

mod files;
mod lines;
mod words;

// P: who derives whom, scopes, line managers, steps.
fn questions_on_p(rt: &impl Print) -> io::Result<()> {
    let b = p();
    lines::sound(rt, "P", &b)?;
    lines::derives(rt, "P", &b, 0, 2)?;
    lines::derives(rt, "P", &b, 0, 3)?;
    lines::scope(rt, "P", &b, 0)?;
    lines::scope(rt, "P", &b, 1)?;
    for r in 1..4 {
        lines::manager(rt, "P", &b, r)?;
    }
    lines::steps(rt, "P", &b, 3)
}

// P: an edge changed, a role added.
fn changes_on_p(rt: &impl Print) -> io::Result<()> {
    let b = p();
    lines::asked(rt, "P", &b, change_edge(0, 1, 3, I))?;
    let opened = lines::asked(rt, "P", &b, change_edge(1, 1, 3, I))?;
    lines::derives(rt, "P with 1 I 3", &opened, 0, 3)?;
    for (a_seniors, i_seniors) in [(0b10, 0), (0, 0b10), (0, 0)] {
        lines::asked(rt, "P", &b, add_role(0, 4, a_seniors, i_seniors))?;
    }
    Ok(())
}

// P: roles removed, and one of them added again.
fn removals_on_p(rt: &impl Print) -> io::Result<()> {
    let b = p();
    lines::asked(rt, "P", &b, remove_role(0, 1))?;
    lines::asked(rt, "P", &b, remove_role(0, 0))?;
    let less = lines::asked(rt, "P", &b, remove_role(1, 2))?;
    let again = lines::asked(rt, "P without 2", &less, add_role(1, 2, 0, 0b10))?;
    lines::same(rt, "P without 2, and 2 added again, is P", &again, &b)
}

// P and L: loops.
fn loops_on_p_and_l(rt: &impl Print) -> io::Result<()> {
    let b = p();
    lines::asked(rt, "P", &b, add_edge(0, 3, 0, I))?;
    let mut looped = b.tables;
    looped.i[3] = 0b1;
    lines::trouble(rt, "P with 3 I 0", &looped)?;
    lines::asked(rt, "P", &b, add_edge(0, 2, 1, I))?;
    lines::asked(rt, "P", &b, add_edge(0, 1, 1, I))?;
    let d = l();
    lines::sound(rt, "L", &d)?;
    lines::asked(rt, "L", &d, add_edge(0, 3, 1, I))?;
    lines::derives(rt, "L", &d, 1, 3)
}

// W: an edge that leaves role 5 without an administrator.
fn edges_on_w(rt: &impl Print) -> io::Result<()> {
    let b = w();
    lines::sound(rt, "W", &b)?;
    lines::asked(rt, "W", &b, add_edge(0, 2, 3, A))?;
    let mut alone = b.tables;
    alone.a[2] = 0b1000;
    lines::trouble(rt, "W with 2 A 3", &alone)?;
    lines::manager(rt, "W", &b, 3)?;
    let more = lines::asked(rt, "W", &b, add_edge(0, 2, 3, I))?;
    lines::manager(rt, "W with 2 I 3", &more, 3)?;
    lines::asked(rt, "W with 2 I 3", &more, change_edge(0, 2, 3, A))?;
    lines::asked(rt, "W with 2 I 3", &more, add_edge(0, 2, 3, A))?;
    Ok(())
}

// Role 63 is in range and 64 is not, in each field that names a role; and 257 is not role 1.
fn range_of_roles(rt: &impl Print) -> io::Result<()> {
    let b = p();
    let commands = [
        add_role(0, 63, 0, 0b10),
        add_role(0, 64, 0, 0b10),
        remove_role(63, 1),
        remove_role(64, 1),
        remove_role(0, 257),
        add_edge(0, 0, 63, I),
        add_edge(0, 0, 64, I),
    ];
    for c in commands {
        lines::asked(rt, "P", &b, c)?;
    }
    for y in [63, 64, 257] {
        lines::derives(rt, "P", &b, 0, y)?;
    }
    Ok(())
}

// Kinds are 1 to 3.
fn range_of_kinds(rt: &impl Print) -> io::Result<()> {
    let b = p();
    for kind in [0, I, IA, 4] {
        lines::asked(rt, "P", &b, add_edge(0, 0, 2, kind))?;
    }
    Ok(())
}

// Request 2: an edge by its parts.
fn parts_of_an_edge(rt: &impl Print) -> io::Result<()> {
    let b = e();
    let both = lines::asked(rt, "0 I 1", &b, add_edge(0, 0, 1, A))?;
    lines::kind(rt, "0 I 1 with A", &both, 0, 1)?;
    let by_a = lines::asked(rt, "0 IA 1", &both, remove_edge(0, 0, 1, I))?;
    lines::kind(rt, "0 IA 1 without I", &by_a, 0, 1)?;
    lines::asked(rt, "0 A 1", &by_a, remove_edge(0, 0, 1, IA))?;
    lines::asked(rt, "0 A 1", &by_a, add_edge(0, 0, 1, A))?;
    let again = lines::asked(rt, "0 A 1", &by_a, add_edge(0, 0, 1, IA))?;
    lines::kind(rt, "0 A 1 with IA", &again, 0, 1)?;
    lines::asked(rt, "0 A 1", &by_a, remove_edge(0, 0, 1, A))?;
    lines::asked(rt, "0 I 1", &b, remove_edge(0, 0, 1, 0))?;
    lines::asked(rt, "0 I 1", &b, remove_edge(0, 0, 1, 4))?;
    Ok(())
}

// Request 2: an edge goes with its last part.
fn last_part(rt: &impl Print) -> io::Result<()> {
    let b = p();
    lines::asked(rt, "P", &b, remove_edge(0, 0, 2, I))?;
    let more = lines::asked(rt, "P", &b, add_edge(0, 0, 2, I))?;
    let less = lines::asked(rt, "P with 0 I 2", &more, remove_edge(0, 0, 2, I))?;
    lines::same(rt, "P with 0 I 2, and that removed again, is P", &less, &b)
}

// Request 3: which role is in the way. The actors are given the rights that they need.
fn in_the_way(rt: &impl Print) -> io::Result<()> {
    let b = w();
    let able = lines::asked(rt, "W", &b, give_rights(1, 4, 0b10000))?;
    lines::asked(rt, "W, 4 with right 5", &able, change_edge(4, 4, 5, I))?;
    let d = f();
    lines::sound(rt, "F", &d)?;
    let may = lines::asked(rt, "F", &d, give_rights(1, 3, 0b00010))?;
    lines::asked(rt, "F, 3 with right 2", &may, remove_role(3, 4))?;
    for r in [5, 3, 4] {
        lines::in_scope(rt, "W", &b, 4, r)?;
    }
    lines::in_scope(rt, "F", &d, 3, 4)
}

// Request 3: of several that offend the first is named, seniors before juniors, set by set, in each the lowest.
fn first_that_offends(rt: &impl Print) -> io::Result<()> {
    let b = p();
    let able = lines::asked(rt, "P", &b, give_rights(1, 2, 0b00100))?;
    lines::asked(rt, "P, 2 with right 3", &able, add_edge(2, 3, 0, I))?;
    lines::asked(rt, "P", &b, add_between(0, 4, 0b1000, 0, 0b0001, 0))?;
    lines::asked(rt, "P", &b, add_between(0, 4, 0, 0, 0b1000, 0b0001))?;
    lines::asked(rt, "P", &b, add_between(0, 4, 0, 0, 0b0001, 0b1000))?;
    let d = w();
    let may = lines::asked(rt, "W", &d, give_rights(1, 4, 0b00001))?;
    lines::asked(rt, "W, 4 with right 1", &may, add_role(4, 6, 0b101100, 0))?;
    lines::asked(
        rt,
        "W, 4 with right 1",
        &may,
        add_role(4, 6, 0b100000, 0b000100),
    )?;
    Ok(())
}

// Request 4: who may hand on which rights. A right that is missing goes before scope.
fn handing_on(rt: &impl Print) -> io::Result<()> {
    let b = p();
    let refused = [
        give_rights(2, 2, 0b00001),
        give_rights(2, 3, 0b00001),
        remove_role(2, 3),
        give_rights(0, 3, 0b00001),
        take_rights(0, 3, 0b00001),
        give_rights(2, 3, 0),
    ];
    for c in refused {
        lines::asked(rt, "P", &b, c)?;
    }
    let none = lines::asked(rt, "P", &b, give_rights(2, 2, 0))?;
    lines::same(rt, "P with no right given is P", &none, &b)?;
    lines::asked(rt, "P", &b, give_rights(1, 2, 31))?;
    lines::asked(rt, "P", &b, give_rights(1, 2, 32))?;
    lines::asked(rt, "P", &b, command(8, 0, 1, 0, 0, 31))?;
    Ok(())
}

// Request 4: rights add up, go with their role, and a new role has none.
fn coming_and_going(rt: &impl Print) -> io::Result<()> {
    let b = p();
    let some = lines::asked(rt, "P", &b, give_rights(1, 2, 0b00110))?;
    let more = lines::asked(
        rt,
        "P, 2 with rights 2 3",
        &some,
        give_rights(1, 2, 0b01010),
    )?;
    lines::rights(rt, "P, 2 with rights 2 3, then 2 4", &more, 2)?;
    let less = lines::asked(
        rt,
        "P, 2 with rights 2 3 4",
        &more,
        take_rights(1, 2, 0b00011),
    )?;
    lines::rights(rt, "P, 2 with rights 2 3 4, less 1 2", &less, 2)?;
    let gone = lines::asked(rt, "P, 2 with rights 3 4", &less, remove_role(1, 2))?;
    lines::rights(rt, "P without 2", &gone, 2)?;
    let again = lines::asked(rt, "P without 2", &gone, add_role(1, 2, 0, 0b10))?;
    lines::same(
        rt,
        "P, 2 with rights removed and added again, is P",
        &again,
        &b,
    )
}

// Request 4: a right that was lost.
fn lost_right(rt: &impl Print) -> io::Result<()> {
    let lost = lines::asked(rt, "P", &p(), take_rights(0, 1, 0b10000))?;
    let commands = [
        change_edge(1, 1, 3, I),
        give_rights(1, 2, 0b10001),
        give_rights(1, 2, 0b01111),
    ];
    for c in commands {
        lines::asked(rt, "P, 1 without right 5", &lost, c)?;
    }
    Ok(())
}

// Request 4: a right that is held by a role that the actor derives; role 0 reaches role 3 and does not derive it.
fn right_below(rt: &impl Print) -> io::Result<()> {
    let below = lines::asked(rt, "P", &p(), give_rights(1, 3, 0b00001))?;
    let by_3 = lines::asked(rt, "P, 3 with right 1", &below, take_rights(0, 1, 0b00001))?;
    let name = "P, 3 with right 1, 1 without";
    lines::asked(rt, name, &by_3, add_role(1, 4, 0, 0b10))?;
    let own = lines::asked(rt, name, &by_3, take_rights(0, 0, 0b00001))?;
    lines::rights(rt, "P, 3 alone with right 1", &own, 0)?;
    let commands = [
        add_role(0, 4, 0, 0b10),
        give_rights(0, 0, 0b00001),
        add_role(1, 4, 0, 0b10),
    ];
    for c in commands {
        lines::asked(rt, "P, 3 alone with right 1", &own, c)?;
    }
    Ok(())
}

fn six_commands() -> [Command; Evening::COMMANDS] {
    let mut commands = [command(0, 0, 0, 0, 0, 0); Evening::COMMANDS];
    commands[..6].copy_from_slice(&[
        change_edge(0, 1, 3, I),
        change_edge(1, 1, 3, I),
        add_role(0, 4, 0, 0b1000),
        add_role(0, 4, 0, 0b1000),
        remove_role(0, 1),
        change_edge(1, 1, 3, A),
    ]);
    commands
}

// Request 6: commands in one run, each decided on the board that the one before it left. The done ones by themselves leave the same board;
// a run that is longer than the row of answers is refused before any command is tried.
fn an_evening(rt: &impl Print) -> io::Result<()> {
    let b = p();
    let late = lines::evening(rt, "P", &b, six_commands(), 6)?;
    let opened = lines::asked(rt, "P", &b, change_edge(1, 1, 3, I))?;
    let more = lines::asked(rt, "P with 1 I 3", &opened, add_role(0, 4, 0, 0b1000))?;
    let closed = lines::asked(rt, "P with 1 I 3 and 3 I 4", &more, change_edge(1, 1, 3, A))?;
    lines::same(
        rt,
        "P after the run is P with 3 I 4 after these three",
        &late,
        &closed,
    )?;
    lines::kind(rt, "P after the run", &late, 1, 3)?;
    let long = lines::evening(rt, "P", &b, six_commands(), 65)?;
    lines::same(rt, "P after a run that is too long is P", &long, &b)
}

// Document 01's file: the edge records of a senior with an edge, of one without, and of what is no live role or none at all; and the board in it.
fn on_the_file(rt: &impl Print) -> io::Result<()> {
    let file = files::EXAMPLE;
    for senior in [0, 1, 2, 3, 64] {
        files::records(rt, "the file", &file, senior)?;
    }
    files::records(rt, "the file without its first byte", &file[1..], 0)?;
    for at in [5, 9, 10] {
        files::rewritten(rt, "the file", &file, at)?;
    }
    files::rewritten(rt, "the file without its last byte", &file[..14], 0)
}

// Kinds along a path: looking at neighbours alone would miss that I, IA, A joins to 0.
fn along_a_path(rt: &impl Print) -> io::Result<()> {
    for kinds in [[1, 3, 2], [2, 3, 1], [2, 1, 2], [3, 2, 3]] {
        files::path(rt, &kinds)?;
    }
    Ok(())
}

// Role 1 makes the edge 1 to 3 an I edge, as above, on a board that is lent.
fn on_a_lent_board(rt: &impl Print) -> io::Result<()> {
    let b = p();
    let mut lent = b;
    lines::asked_of_lent(rt, "P lent", &mut lent, change_edge(1, 1, 3, I))?;
    lines::derives(rt, "P lent, with 1 I 3", &lent, 0, 3)?;
    let opened = lines::asked(rt, "P", &b, change_edge(1, 1, 3, I))?;
    lines::same(rt, "P lent, with 1 I 3, is P with 1 I 3", &lent, &opened)
}

fn main(rt: HostRuntime) -> io::Result<()> {
    questions_on_p(&rt)?;
    changes_on_p(&rt)?;
    removals_on_p(&rt)?;
    loops_on_p_and_l(&rt)?;
    edges_on_w(&rt)?;
    range_of_roles(&rt)?;
    range_of_kinds(&rt)?;
    parts_of_an_edge(&rt)?;
    last_part(&rt)?;
    in_the_way(&rt)?;
    first_that_offends(&rt)?;
    handing_on(&rt)?;
    coming_and_going(&rt)?;
    lost_right(&rt)?;
    right_below(&rt)?;
    an_evening(&rt)?;
    on_the_file(&rt)?;
    along_a_path(&rt)?;
    on_a_lent_board(&rt)
}
