// The board on the disk: read whole, and written beside the old one, which stays until the new one has reached the disk.
ghost use Rattle.std.specs.Prelude.{◌≤◌, length, IfOk};

use crate::paths::folder;
use crate::system::keep_mode;
use board::Board;
use board::answers::Refusal;
use boardfile::lent::read_into;
use std::fs::File;
use std::io;
use std::io::{Read, Write};
use std::os::unix::fs::MetadataExt;
use writer::write;

// Reads until the buffer is full or the input ends, and answers how many bytes stand at its start. (`boardlist` has the same few lines: a crate for
// them alone would be no plainer. Tried there: std's `copy` in their place takes more stack than its bar.)
pub(crate) fn read_whole<R: Read>(from: &mut R, out: &mut [u8]) -> io::Result<usize>
    ensures { IfOk result (λ n. n ≤ length out.new) }
{
    let mut n = 0;
    while n < out.len() {
        match from.read(&mut out[n..])? {
            0 => break,
            more => n += more,
        }
    }
    Ok(n)
}

// Why there is no board: the system kept the file from being read; it is no regular file; it has several names, which would be several
// locks; what it has is refused.
#[derive(Drop)]
pub(crate) enum Trouble {
    System(io::Error),
    NoFile,
    Names,
    Refused(Refusal),
}

impl From<io::Error> for Trouble {
    fn from(why: io::Error) -> Trouble {
        Trouble::System(why)
    }
}

impl From<Refusal> for Trouble {
    fn from(refusal: Refusal) -> Trouble {
        Trouble::Refused(refusal)
    }
}

// Reads the board in a file that is open. One byte more than the longest file has is read, so that a longer one is refused and not cut. Not
// inlined: the file's bytes are off the stack before a command is decided.
#[inline(never)]
fn load_from(file: &mut File, b: &mut Board) -> Result<(), Trouble> {
    let mut space = [0u8; Board::FILE + 1];
    let n = read_whole(file, &mut space)?;
    read_into(&space[..n], b)?;
    Ok(())
}

// Opens a file for reading and writing.
pub(crate) fn open_update(rt: HostRuntime, name: &str) -> io::Result<File> {
    File::options().read(true).write(true).open(&rt, name)
}

// Reads the board in the file; who may use that file may use the one that is open as `next`. Whoever may not write to the file may not
// put another in its place, so it is opened for that too.
pub(crate) fn load(rt: HostRuntime, name: &str, next: &File, b: &mut Board) -> Result<(), Trouble> {
    let mut file = open_update(rt, name)?;
    let Ok(of) = file.metadata() else {
        return Err(Trouble::NoFile);
    };
    if !of.is_file() {
        return Err(Trouble::NoFile);
    }
    if of.nlink() > 1 {
        return Err(Trouble::Names);
    }
    keep_mode(&of, next);
    load_from(&mut file, b)
}

// Puts the board's file into an open file, down to the disk.
pub(crate) fn store(file: &mut File, b: &Board) -> io::Result<()> {
    let mut space = [0u8; Board::FILE];
    let n = write(b, &mut space, 0).map_err(|_| io::ErrorKind::InvalidData)?;
    let whole = space.get(..n).ok_or(io::ErrorKind::InvalidData)?;
    file.write_all(whole)?;
    file.sync_all()
}

// Opens the folder of a file, so that what its names mean can be brought down to the disk.
pub(crate) fn open_folder(rt: HostRuntime, name: &str) -> io::Result<File> {
    File::open(&rt, folder(name))
}
