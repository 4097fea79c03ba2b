// The parts of a board file, each put at the start of the bytes that are lent for it; what lies behind the part stays.
ghost use Rattle.std.specs.Prelude.{◌≡◌, not, ℕ, map, ◌+◌, ◌*◌, ◌≤◌, ◌<◌, length};
ghost use Rattle.sets.specs.Sets.{bit};
ghost use Rattle.board.specs.Rights.{rights_of};
ghost use Rattle.frames.specs.Frames.{rights_trailer};
ghost use Rattle.writer.specs.Files.{from, edge_bytes, kind_at, file_of};
ghost use Rattle.writer.specs.Parts.{row_bytes, Put, PutEach, last_six, tail_of, tail_length, TailRoom, Room};

use frames::{Layout, MARK, RIGHTS_MARK, RIGHTS_TRAILER, TRAILER, edges_back};
use hierarchy::tables::Tables;
use sets::{has, roles_of, union};

// A byte for each of these live roles.
fn put_each<F: Fn(usize) -> u8>(live: u64, byte: F, out: &mut [u8])
    requires room { length (from 64 0 (bit live)) ≤ length out.old }
    requires each { (x : ℕ) → x < 64 → F.pre byte x }
    ensures { PutEach (F.post byte) (from 64 0 (bit live)) out.old out.new }
{
    for (k, role) in roles_of(live).enumerate() {
        out[k] = byte(role);
    }
}

// The records of one senior, by its row in either table; and how many bytes they are. A kind is 1 for I, 2 for A and 3 for
// both: in a byte of a file a sum, since to choose a `Kind` by the two answers and then its number is longer. (Tried by
// `chunks_exact_mut` and `zip`: of what a loop writes through such chunks a proof learns no more than the length.)
fn put_row(senior: usize, i: u64, a: u64, out: &mut [u8]) -> usize
    requires { (senior < 64) × (length (row_bytes senior i a) ≤ length out.old) }
    ensures { (result ≡ length (row_bytes senior i a)) × Put (row_bytes senior i a) out.old out.new }
{
    let mut at: usize = 0;
    for junior in roles_of(union(i, a)) {
        let kind = u8::from(has(i, junior)) + 2 * u8::from(has(a, junior));
        out[at..at + 3].copy_from_slice(&[senior as u8, junior as u8, kind]);
        at += 3;
    }
    at
}

// All edge records.
fn put_edges(t: &Tables, out: &mut [u8])
    requires { length (edge_bytes (kind_at t.now) 4096 0) ≤ length out.old }
    ensures { Put (edge_bytes (kind_at t.now) 4096 0) out.old out.new }
{
    let mut at: usize = 0;
    for x in 0..64 {
        at += put_row(x, t.i[x], t.a[x], &mut out[at..]);
    }
}

// The last six bytes of a file, by its distances of edge records and of role bytes and by its mark, the very last two.
fn put_trailer(edges: usize, roles: usize, mark: [u8; 2], out: &mut [u8])
    requires { (edges < 65536) × (roles < 65536) × (6 ≤ length out.old) }
    ensures { Put (last_six edges roles mark) out.old out.new }
{
    out[..2].copy_from_slice(&(edges as u16).to_le_bytes());
    out[2..4].copy_from_slice(&(roles as u16).to_le_bytes());
    out[4..6].copy_from_slice(&mark);
}

// The trailer of a file with rights bytes, by its three distances.
fn put_rights_trailer(rights: usize, edges: usize, roles: usize, out: &mut [u8])
    requires { (rights < 65536) × (edges < 65536) × (roles < 65536) × (8 ≤ length out.old) }
    ensures { Put (rights_trailer rights edges roles) out.old out.new }
{
    out[..2].copy_from_slice(&(rights as u16).to_le_bytes());
    put_trailer(edges, roles, RIGHTS_MARK, &mut out[2..]);
}

// What lies behind the edge records in a file: the trailer, and before it the rights bytes where there are any.
fn put_tail(live: u64, rights: &[u8; 64], layout: Layout, out: &mut [u8])
    requires { TailRoom live (not layout.rights) layout.roles (3 * layout.edges) out.old }
    ensures { Put (tail_of (not layout.rights) live rights.now layout.roles (3 * layout.edges)) out.old out.new }
{
    let roles = layout.roles;
    let edges = 3 * layout.edges;
    if !layout.rights {
        put_trailer(edges, roles + edges, MARK, out);
        return;
    }
    put_each(live, |role| rights[role], &mut out[..roles]);
    put_rights_trailer(
        roles,
        edges_back(roles as u32, edges as u32),
        2 * roles + edges,
        &mut out[roles..],
    );
}

// The whole file of a board that has so much in it.
pub(crate) fn put_file(t: &Tables, rights: &[u8; 64], layout: Layout, out: &mut [u8])
    requires { Room t.now rights.now (not layout.rights) layout.roles (3 * layout.edges) out.old }
    ensures { Put (file_of t.now rights.now) out.old out.new }
{
    let roles = layout.roles;
    let body = roles + 3 * layout.edges;
    put_each(t.live, |role| role as u8, &mut out[..roles]);
    put_edges(t, &mut out[roles..body]);
    put_tail(t.live, rights, layout, &mut out[body..]);
}

// The bytes of a file that has so much in it.
pub(crate) fn file_len(layout: Layout) -> usize
    requires { (layout.roles ≤ 64) × (layout.edges ≤ 4096) }
    ensures { result ≡ layout.roles + 3 * layout.edges + tail_length (not layout.rights) layout.roles }
{
    let body = layout.roles + 3 * layout.edges;
    if layout.rights {
        return body + layout.roles + RIGHTS_TRAILER;
    }
    body + TRAILER
}
