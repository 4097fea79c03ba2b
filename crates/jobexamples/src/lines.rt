// A job list, and the lines that the program writes. What was asked is written from the very values that are asked about.
use board::answers::Refusal;
use board::{Board, Command};
use commands::decide;
use std::io;

// The rows of a list.
#[derive(Drop)]
pub(crate) struct List {
    roles: [u8; 1024],
    marks: [u8; 1024],
    members: [u32; 1024],
}

// The number that is printed for what came back: 0 for done, else the refusal's.
fn number_of(answer: Result<(), Refusal>) -> u8 {
    match answer {
        Ok(()) => 0,
        Err(why) => why.number(),
    }
}

impl List {
    // No list yet: `start` makes one.
    pub(crate) fn new() -> Self {
        List {
            roles: [0; 1024],
            marks: [0; 1024],
            members: [0; 1024],
        }
    }

    pub(crate) fn start(&mut self, rt: &impl Print, listed: &[u8]) -> io::Result<()> {
        let answer = jobs::start(listed, &mut self.roles, &mut self.marks, &mut self.members);
        println!(rt; "a list of {}: {}", listed.len(), number_of(answer))
    }

    pub(crate) fn claim(
        &mut self,
        rt: &impl Print,
        b: &Board,
        job: u32,
        member: u32,
        role: u32,
    ) -> io::Result<()> {
        let answer = jobs::claim(
            b,
            &self.roles,
            &mut self.marks,
            &mut self.members,
            job,
            member,
            role,
        );
        println!(rt;
            "member {member} in role {role} claims job {job}: {}",
            number_of(answer)
        )
    }

    pub(crate) fn release(
        &mut self,
        rt: &impl Print,
        b: &Board,
        job: u32,
        member: u32,
        role: u32,
    ) -> io::Result<()> {
        let answer = jobs::release(
            b,
            &self.roles,
            &mut self.marks,
            &mut self.members,
            job,
            member,
            role,
        );
        println!(rt;
            "member {member} in role {role} releases job {job}: {}",
            number_of(answer)
        )
    }

    // Whether a job is open or held, and by whom.
    pub(crate) fn job(&self, rt: &impl Print, job: u32) -> io::Result<()> {
        match jobs::look(&self.roles, &self.marks, &self.members, job) {
            Ok(None) => println!(rt; "job {job}: open"),
            Ok(Some(member)) => println!(rt; "job {job}: held by {member}"),
            Err(why) => println!(rt; "job {job}: {}", why.number()),
        }
    }
}

// Role 0 gives a command, in words; the board afterwards.
pub(crate) fn commanded(rt: &impl Print, words: &str, b: &Board, c: Command) -> io::Result<Board> {
    let mut board = *b;
    println!(rt; "actor 0 {words}: {}", number_of(decide(&mut board, c)))?;
    Ok(board)
}
