// The frame of a board file: its trailer, and how many role bytes and edge records it announces, with rights bytes or without. Knows bytes and
// the limits of a board; reads no record.
#![tactic(auto)]

ghost use Rattle.std.specs.Prelude.{◌≡◌, ◌+◌, ◌*◌, ◌≤◌, length};
ghost use Rattle.frames.specs.Frames.{EndsHH, EndsHR};
ghost use Rattle.frames.specs.Frames.{edges_back};
ghost use Rattle.frames.specs.Framing.{Framing};

use board::Board;
use board::answers::Refusal;

// the last two bytes of a file without rights bytes, and of one with them
pub const MARK: [u8; 2] = *b"HH";

pub const RIGHTS_MARK: [u8; 2] = *b"HR";
// the bytes of their trailers
pub const TRAILER: usize = 6;

pub const RIGHTS_TRAILER: usize = 8;

// What a frame announces: so many role bytes and edge records, and whether there are rights bytes.
#[derive(Clone, Copy, PartialEq, Eq)]
pub struct Layout {
    pub roles: usize,
    pub edges: usize,
    pub rights: bool,
}

// A distance: two bytes, the low one first.
fn distance(low: u8, high: u8) -> usize
    ensures { result ≡ low + 256 * high }
{
    usize::from(u16::from_le_bytes([low, high]))
}

// How far before the trailer the edge records begin that lie before so many rights bytes; 0 where there are none.
pub fn edges_back(rights: u32, edges: u32) -> usize
    ensures { result ≡ edges_back rights edges }
{
    if edges == 0 {
        return 0;
    }
    rights as usize + edges as usize
}

// The frame of a file that ends in HH: what lies between the two distances is the role bytes.
fn plain_frame(file: &[u8]) -> Result<Layout, Refusal>
    requires { EndsHH file.now }
    ensures { Framing file.now result }
{
    let [body @ .., e0, e1, r0, r1, _, _] = file else {
        return Err(Refusal::BadFrame);
    };
    let edges = distance(*e0, *e1);
    if Board::PLAIN_FILE < file.len() || distance(*r0, *r1) != body.len() || edges % 3 != 0 {
        return Err(Refusal::BadFrame);
    }
    let roles = body.len().checked_sub(edges).ok_or(Refusal::BadFrame)?;
    if roles < 1 || Board::ROLES < roles {
        return Err(Refusal::BadFrame);
    }
    Ok(Layout {
        roles,
        edges: edges / 3,
        rights: false,
    })
}

// The frame of a file that ends in HR: there are as many role bytes as rights bytes, and what is left is the edge records.
fn rights_frame(file: &[u8]) -> Result<Layout, Refusal>
    requires { EndsHR file.now }
    ensures { Framing file.now result }
{
    let [body @ .., h0, h1, e0, e1, r0, r1, _, _] = file else {
        return Err(Refusal::BadFrame);
    };
    let roles = distance(*h0, *h1);
    if Board::FILE < file.len()
        || distance(*r0, *r1) != body.len()
        || roles == 0
        || Board::ROLES < roles
    {
        return Err(Refusal::BadFrame);
    }
    let edges = body.len().checked_sub(2 * roles).ok_or(Refusal::BadFrame)?;
    if edges % 3 != 0 || distance(*e0, *e1) != edges_back(roles as u32, edges as u32) {
        return Err(Refusal::BadFrame);
    }
    Ok(Layout {
        roles,
        edges: edges / 3,
        rights: true,
    })
}

// The number of role bytes and of edge records, of a file whose frame is right.
pub fn frame(file: &[u8]) -> Result<Layout, Refusal>
    ensures { Framing file.now result }
{
    let [.., first, second] = file else {
        return Err(Refusal::BadFrame);
    };
    match [*first, *second] {
        MARK => plain_frame(file),
        RIGHTS_MARK => rights_frame(file),
        _ => Err(Refusal::BadFrame),
    }
}
