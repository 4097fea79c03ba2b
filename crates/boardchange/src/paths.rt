// The names beside the board's: its lock, and the folder that both stand in.
ghost use Rattle.boardchange.specs.Paths.{FolderOf};

use arrayvec::ArrayString;
use std::fmt::Write;
use std::{fmt, fs};

// the most bytes of a lock's name
pub(crate) const LOCK: usize = 4005;

// The names of a board's file and of its lock.
#[derive(Clone, Copy)]
pub(crate) struct Names<'a> {
    pub(crate) board: &'a str,
    pub(crate) lock: &'a str,
}

// Puts the name with '.lock' behind it into a text that is empty, where there is room.
pub(crate) fn put_lock(lock: &mut ArrayString<LOCK>, name: &str) -> fmt::Result {
    write!(lock, "{name}.lock")
}

// Whether the name could be that of another board's lock.
pub(crate) fn is_lock(name: &str) -> bool {
    name.ends_with(".lock")
}

// The folder of a name, with the '/' that ends it; '.' where it names none.
pub(crate) fn folder(name: &str) -> &str
    ensures { FolderOf name.now result.now }
{
    match name.rfind('/') {
        Some(at) => &name[..at + 1],
        None => ".",
    }
}

// Whether the name is that of a symbolic link.
pub(crate) fn is_link(rt: HostRuntime, name: &str) -> bool {
    fs::symlink_metadata(&rt, name).is_ok_and(|of| of.is_symlink())
}
