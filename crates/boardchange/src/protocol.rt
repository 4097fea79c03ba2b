// The three steps that two changes at once rest on, and nothing else: `tests/race/broken` breaks each of them, and an edit of another file
// must not outdate what it does.
use crate::disk::{Trouble, load, store};
use crate::lock::{is_lost, take};
use crate::paths::Names;
use board::Board;
use std::fs::File;
use std::{fs, io};

// The lock is made where there is none: of those who try at once one succeeds.
pub(crate) fn make(rt: HostRuntime, lock: &str) -> io::Result<File> {
    File::options().write(true).create_new(true).open(&rt, lock)
}

// A change that has begun: the lock, open, and whether the board was read.
#[derive(Drop)]
pub(crate) struct Begun {
    pub(crate) held: File,
    pub(crate) was: Result<(), Trouble>,
}

// The lock first, the board then: whoever reads the file to decide on it is alone until it has decided. Nothing has begun where there is
// no lock.
pub(crate) fn begin(rt: HostRuntime, names: Names, b: &mut Board) -> Option<Begun> {
    let held = take(rt, names.lock)?;
    let was = load(rt, names.board, &held, b);
    Some(Begun { held, was })
}

// Why a new board didn't get the file's name: it isn't on the disk; the lock that it lies in was taken away; the system refused the name.
#[derive(Drop)]
pub(crate) enum Unplaced {
    Unwritten(io::Error),
    Lost,
    Unnamed(io::Error),
}

// The new board goes into the lock, down to the disk, and only then the lock takes the file's name: the file is at any moment a whole one.
pub(crate) fn put_in_place(
    rt: HostRuntime,
    names: Names,
    held: &mut File,
    b: &Board,
) -> Result<(), Unplaced> {
    store(held, b).map_err(Unplaced::Unwritten)?;
    if is_lost(held) {
        return Err(Unplaced::Lost);
    }
    fs::rename(&rt, names.lock, names.board).map_err(Unplaced::Unnamed)
}
