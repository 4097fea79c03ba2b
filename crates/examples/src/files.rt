// Document 01's example file: the edge records of one senior, and the board in it, read and written. And how kinds join along a path.
use crate::lines::refused;
use crate::words::Bytes;
use board::answers::Refusal;
use boardfile::{read, stretches};
use exampleboards::IA;
use scopes::kinds::join;
use std::io;
use writer::write;

// Roles 0, 1 and 2, 0 I 1, 1 A 2.
pub(crate) const EXAMPLE: [u8; 15] = [0, 1, 2, 0, 1, 1, 1, 2, 2, 6, 0, 9, 0, 72, 72];

// The edge records of a senior, as they stand in the file.
pub(crate) fn records(rt: &impl Print, name: &str, file: &[u8], role: u32) -> io::Result<()> {
    print!(rt; "{name}: edge records of {role}:")?;
    match stretches::records(file, role) {
        Ok(part) => println!(rt; "{}", Bytes(part)),
        Err(why) => {
            print!(rt; " ")?;
            refused(rt, why)
        }
    }
}

// Reads the board in the file and writes it into a buffer from a place on, as `write` has it; gives the length of what was written.
fn copied(file: &[u8], out: &mut [u8], at: usize) -> Result<usize, Refusal> {
    let board = read(file)?;
    write(&board, out, at)
}

// The board in the file, written into a buffer of sevens from a place on: the length, and the whole buffer.
pub(crate) fn rewritten(rt: &impl Print, name: &str, file: &[u8], at: usize) -> io::Result<()> {
    print!(rt; "{name}, read and written at {at}: ")?;
    let mut out = [7u8; 24];
    match copied(file, &mut out, at) {
        Ok(len) => println!(rt; "{len} bytes of{}", Bytes(&out)),
        Err(why) => refused(rt, why),
    }
}

// What the kinds of a path's edges join to, each a number as in the file. IA is where it begins, since it leaves every kind as it is.
fn joined(kinds: &[u8]) -> u8 {
    kinds.iter().fold(
        IA as u8,
        |so_far, next| join(so_far as usize, *next as usize),
    )
}

pub(crate) fn path(rt: &impl Print, kinds: &[u8]) -> io::Result<()> {
    println!(rt;
        "a path of the kinds{} joins to {}",
        Bytes(kinds),
        joined(kinds)
    )
}
