// The commands that the program is given: the words of one as arguments, or several on standard input, one a line.
ghost use Rattle.std.specs.Prelude.{◌≤◌, length, IfOk, IfSome};

use std::env::FillError;
use std::rt::Env;
use wording::pieces::word;

// the most bytes of standard input
pub(crate) const INPUT: usize = 60000;

// the bytes of a buffer for words
pub(crate) const WORDS: usize = 4096;

// Whether there is an argument k.
fn is_there(rt: HostRuntime, k: usize) -> bool {
    !matches!(rt.arg(k, &mut [0u8; 1]), Err(FillError::NotPresent))
}

// How many arguments the program was started with, its own name among them.
pub(crate) fn arg_count(rt: HostRuntime) -> usize {
    for k in 0..usize::MAX {
        if !is_there(rt, k) {
            return k;
        }
    }
    usize::MAX
}

// Whether a text is one word: an argument with a blank in it would be several, and might say more than its sender meant.
fn one_word(text: &[u8]) -> bool {
    !text.is_empty() && word(text, 0).len() == text.len()
}

// Puts argument k into the buffer from `at` on, with a blank behind it, and answers where that ends; none where it is no word, or too long.
// No heap: std fills bytes that are lent.
fn put_argument(rt: HostRuntime, k: usize, out: &mut [u8], at: usize) -> Option<usize>
    ensures { IfSome result (λ end. end ≤ length out.new) }
{
    let n = rt.arg(k, out.get_mut(at..)?).ok()?;
    let end = at + n;
    if out.len() <= end || !one_word(&out[at..end]) {
        return None;
    }
    out[end] = b' ';
    Some(end + 1)
}

// The argument of this number is no word.
#[derive(Drop)]
pub(crate) struct NoWord(pub(crate) usize);

// The arguments from the second on, as one line: how many bytes it has.
pub(crate) fn gather(rt: HostRuntime, out: &mut [u8]) -> Result<usize, NoWord>
    ensures { IfOk result (λ n. n ≤ length out.new) }
{
    let mut at = 0;
    for k in 2..arg_count(rt) {
        at = put_argument(rt, k, out, at).ok_or(NoWord(k))?;
    }
    Ok(at)
}
