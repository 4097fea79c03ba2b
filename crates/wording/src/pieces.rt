// Text cut at separators: a line into words, a list into its pieces.
ghost use Rattle.std.specs.Prelude.{◌≡◌, ◌&&◌, ◌||◌, ◌+◌, ◌-◌, length, drop, position};
ghost use Rattle.std.specs.Iterator.{at_most};
ghost use Rattle.wording.specs.Texts.{separates, piece, WordOf, Cut};

// with it the tab and the return separate as well
pub const BLANK: u8 = b' ';

pub const COMMA: u8 = b',';

pub const NEWLINE: u8 = b'\n';

// Whether the byte b separates.
#[tactic(auto, unfolding(crate::specs::Texts::separates))]
fn separates(sep: u8, b: u8) -> bool
    ensures { result ≡ separates sep b }
{
    b == sep || (sep == BLANK && (b == b'\t' || b == b'\r'))
}

// Where the first separator stands.
fn first_separator(text: &[u8], sep: u8) -> Option<usize>
    ensures { result ≡ position (separates sep) text.now }
{
    text.iter().position(|b| separates(sep, *b))
}

// Where the piece that begins at `from` ends: at the next separator, or where the text ends.
pub fn piece_end(text: &[u8], from: usize, sep: u8) -> usize
    ensures { result ≡ from + length (piece sep (drop from text.now)) }
{
    match text.get(from..) {
        Some(rest) => from + first_separator(rest, sep).unwrap_or(rest.len()),
        None => from,
    }
}

// The pieces of a text one by one, between separators, before the first and behind the last: what a `for` over them goes through.
#[derive(Clone, Copy)]
pub struct Pieces<'a> {
    text: &'a [u8],
    from: usize,
    sep: u8,
}

// The pieces of a text.
pub fn pieces_of(text: &[u8], sep: u8) -> Pieces<'_>
    ensures text { result.text ≡ text.entry }
    ensures from { result.from ≡ 0 }
    ensures sep { result.sep ≡ sep }
{
    Pieces { text, from: 0, sep }
}

impl<'a> Iterator for Pieces<'a> {
    type Item = &'a [u8];

    ghost next_gives = { Cut };

    ghost remaining = { λ s. at_most (length s.text.now + 1 - s.from) };

    fn next(&mut self) -> Option<&'a [u8]> {
        let from = self.from;
        if self.text.len() < from {
            return None;
        }
        let end = piece_end(self.text, from, self.sep);
        self.from = end + 1;
        Some(&self.text[from..end])
    }
}

// The word at a place of a line, counted from 0, as a part of the line; it has no byte, and lies at the line's start, where the line has no
// such word. (No Option: `WordOf` says of a missing word too where it lies.)
pub fn word(line: &[u8], k: usize) -> &[u8]
    ensures { WordOf line.now line.entry.ref_ptr k result.now result.ref_ptr }
{
    pieces_of(line, BLANK)
        .filter(|piece| !piece.is_empty())
        .nth(k)
        .unwrap_or(&line[0..0])
}
