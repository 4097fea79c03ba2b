// The records of a board file: role bytes into the set of live roles, edge records into the two tables. Both stand in the order of a
// number, the role or the place senior * 64 + junior, and `next` is the least that may come.
ghost use Rattle.std.specs.Prelude.{◌≡◌, ◌&&◌, ◌||◌, MatchOption, ℕ, ◌+◌, ◌*◌, ◌≤◌, ◌<◌, length};
ghost use Rattle.sets.specs.Sets.{bit, same?};
ghost use Rattle.board.specs.Codes.{kind_number};
ghost use Rattle.frames.specs.Frames.{byte};
ghost use Rattle.boardfile.specs.Parts.{Read, Spelt, Right, Wrong, Entered, GoodRoles, GoodEdges};
ghost use Rattle.frames.specs.Framing.{GoodFrame};

use board::answers::Refusal;
use board::parts::Kind;
use frames::Layout;
use hierarchy::tables::Tables;
use sets::{has, with};

// A file whose frame is right, with the live roles that its role bytes list.
#[derive(Clone, Copy)]
pub(crate) struct Listed<'f> {
    pub file: &'f [u8],
    pub layout: Layout,
    pub live: u64,
    ghost framed: { GoodFrame file.now layout.roles layout.edges layout.rights },
    ghost room: { layout.roles + 3 * layout.edges ≤ length file.now },
    ghost listed: { GoodRoles file.now layout.roles live },
}

impl<'f> Listed<'f> {
    pub(crate) fn of(file: &'f [u8], layout: Layout) -> Result<Listed<'f>, Refusal>
        requires { GoodFrame file.now layout.roles layout.edges layout.rights }
        ensures { Read file.now (λ r. r.file.now ≡ file.now) result }
    {
        if file[0] != 0 {
            return Err(Refusal::BadRecord);
        }
        let mut live: u64 = 0;
        let mut next: usize = 0;
        for byte in &file[..layout.roles] {
            let role = *byte as usize;
            if 63 < role || role < next {
                return Err(Refusal::BadRecord);
            }
            live = with(live, role);
            next = role + 1;
        }
        Ok(Listed { file, layout, live })
    }
}

// An edge record that is right by itself.
#[derive(Clone, Copy)]
struct Edge {
    senior: usize,
    junior: usize,
    kind: Kind,
    ghost in_range: { (senior < 64) × (junior < 64) },
}

impl Edge {
    // The edge that three bytes spell, where it is right by itself among these live roles.
    fn spelt(bytes: &[u8], live: u64) -> Option<Edge>
        requires { length bytes.now ≡ 3 }
        ensures { MatchOption result (Wrong live (byte bytes.now 0) (byte bytes.now 1) (byte bytes.now 2)) (λ e. Spelt bytes.now 0 e.senior e.junior (kind_number e.kind) × Right live e.senior e.junior (kind_number e.kind)) }
    {
        let kind = Kind::of(u32::from(bytes[2]))?;
        let senior = bytes[0] as usize;
        let junior = bytes[1] as usize;
        if !has(live, senior) || !has(live, junior) || senior == junior {
            return None;
        }
        Some(Edge {
            senior,
            junior,
            kind,
        })
    }

    // Its place in the order.
    fn place(self) -> usize
        ensures { result ≡ self.senior * 64 + self.junior }
    {
        self.senior * 64 + self.junior
    }

    // Puts it into the tables: into either where its kind has the part.
    fn enter(self, t: &mut Tables)
        ensures { Entered t.old self.senior self.junior (kind_number self.kind) t.new }
    {
        t.i[self.senior] = entered(t.i[self.senior], self.junior, self.kind.has_i());
        t.a[self.senior] = entered(t.a[self.senior], self.junior, self.kind.has_a());
    }
}

// The row with one junior more, where the kind has the part of its table: a value, and no step to run.
fn entered(row: u64, junior: usize, part: bool) -> u64
    ensures { (y : ℕ) → bit result y ≡ (bit row y || (part && same? junior y)) }
{
    if part { with(row, junior) } else { row }
}

// The tables that the edge records spell, into these. On refusal the tables hold anything.
pub(crate) fn edges(f: &Listed, t: &mut Tables) -> Result<(), Refusal>
    ensures { Read f.now.file.now (λ _. (t.new.live ≡ f.now.live) × GoodEdges f.now.file.now f.now.layout.roles f.now.layout.edges t.new) result }
{
    *t = Tables {
        live: f.live,
        i: [0; 64],
        a: [0; 64],
    };
    let start = f.layout.roles;
    let mut next: usize = 0;
    for bytes in f.file[start..start + 3 * f.layout.edges].chunks_exact(3) {
        let Some(e) = Edge::spelt(bytes, t.live) else {
            return Err(Refusal::BadRecord);
        };
        if e.place() < next {
            return Err(Refusal::BadRecord);
        }
        e.enter(t);
        next = e.place() + 1;
    }
    Ok(())
}
