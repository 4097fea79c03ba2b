// A line of text is put together first and then written by one call, so that the lines of several changes that go to one log don't mix.
ghost use Rattle.std.specs.Prelude.{◌<◌, ◌^◌};

use arrayvec::ArrayString;
use std::fmt::Write;
use std::{fmt, io};

// Every answer's line is shorter.
const ANSWER: usize = 512;

// Every other line is: a name in it has at most 4095 bytes.
const COMPLAINT: usize = 4608;

fn write_line<const N: usize, P: Print + Drop, T: fmt::Display + Drop>(
    to: P,
    what: T,
) -> io::Result<()>
    requires { N < 2 ^ 16 }
{
    let mut line = ArrayString::<N>::new();
    if writeln!(line, "{what}").is_err() {
        return Err(io::Error::from(io::ErrorKind::WriteZero));
    }
    to.write_all(line.as_str().as_bytes())
}

// A line on standard output.
pub(crate) fn say<T: fmt::Display + Drop>(rt: HostRuntime, what: T) {
    if let Err(why) = write_line::<ANSWER, _, _>(rt.stdout(), what) {
        fail(rt, "standard output", why);
    }
}

// A line on standard error: a name, and what is the matter with it.
pub(crate) fn complain(rt: HostRuntime, name: &str, what: &str) {
    let _ = write_line::<COMPLAINT, _, _>(rt.stderr(), format_args!("{name}{what}"));
}

// The same, of what the system refused.
pub(crate) fn fail(rt: HostRuntime, name: &str, why: io::Error) {
    let _ = write_line::<COMPLAINT, _, _>(rt.stderr(), format_args!("{name}: {}", Words(&why)));
}

// The system's words for an error: std puts ' (os error 2)' behind them.
#[derive(Drop)]
struct Words<'a>(&'a io::Error);

impl fmt::Display for Words<'_> {
    fn fmt<W: fmt::Write>(&self, f: &mut fmt::Formatter<W>) -> fmt::Result {
        let mut text = ArrayString::<128>::new();
        write!(text, "{}", self.0)?;
        match text.as_str().split_once(" (os error ") {
            Some((words, _)) => f.write_str(words),
            None => f.write_str(text.as_str()),
        }
    }
}

// the most bytes of what somebody typed that are shown
const SHOWN: usize = 40;

// A byte as it may be shown: a text that somebody typed must not end our line, nor look like another.
fn shown(b: u8) -> char {
    match b {
        32..=126 => char::from(b),
        _ => '?',
    }
}

// What somebody typed, in quotes, and cut where it is long.
#[derive(Drop)]
pub(crate) struct Quoted<'a>(pub(crate) &'a [u8]);

impl fmt::Display for Quoted<'_> {
    fn fmt<W: fmt::Write>(&self, f: &mut fmt::Formatter<W>) -> fmt::Result {
        f.write_str("'")?;
        for b in self.0.iter().take(SHOWN) {
            f.write_char(shown(*b))?;
        }
        f.write_str(if SHOWN < self.0.len() { "..'" } else { "'" })
    }
}
