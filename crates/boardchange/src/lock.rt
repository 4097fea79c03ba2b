// The lock of a board: a file beside it that one change makes and all others find. This program removes no other's.
use crate::lines::{complain, fail};
use crate::protocol::make;
use crate::system::{is_nameless, nap};
use std::fs::File;
use std::os::fd::AsRawFd;
use std::{fs, io};

// how often a change looks for the lock of another, a hundredth of a second apart
const PATIENCE: u32 = 500;

// Whether the lock could not be made because there is one.
fn is_busy(made: &io::Result<File>) -> bool {
    matches!(made, Err(why) if why.kind() == io::ErrorKind::AlreadyExists)
}

// Makes the lock, and waits where another change has it. Answers the lock, open, or why it could not be made.
fn taken(rt: HostRuntime, lock: &str) -> io::Result<File> {
    for _ in 0..PATIENCE {
        let made = make(rt, lock);
        if !is_busy(&made) {
            return made;
        }
        nap(rt);
    }
    make(rt, lock)
}

// Whether somebody took our lock away: then the file of that name, if there is one, is another's.
pub(crate) fn is_lost(held: &File) -> bool {
    is_nameless(held)
}

// The lock goes, and only then it is closed: while the file stands, whoever looks finds that somebody has it open. (The file and its name are
// no struct: the name stands in `Names` before there is a lock, and after.)
pub(crate) fn give_up(rt: HostRuntime, held: File, lock: &str) {
    if !is_lost(&held) {
        let _ = fs::remove_file(&rt, lock);
    }
    drop(held);
}

// Why there is no lock.
fn say_untaken(rt: HostRuntime, lock: &str, why: io::Error) {
    if why.kind() == io::ErrorKind::AlreadyExists {
        complain(rt, "busy: ", lock);
        complain(
            rt,
            lock,
            ": another change holds this lock. If none is under way, one died and left it: remove it, or use ./change, which does",
        );
        return;
    }
    fail(rt, lock, why);
}

// Makes the lock, or says why not. A descriptor below 3 is a standard stream that was closed: what is said there would go into the board.
pub(crate) fn take(rt: HostRuntime, lock: &str) -> Option<File> {
    match taken(rt, lock) {
        Ok(held) => {
            if held.as_raw_fd() < 3 {
                give_up(rt, held, lock);
                complain(rt, lock, ": a standard stream is closed");
                return None;
            }
            Some(held)
        }
        Err(why) => {
            say_untaken(rt, lock, why);
            None
        }
    }
}
