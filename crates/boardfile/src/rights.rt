// The rights bytes of a board file, one for each live role, ascending.
ghost use Rattle.std.specs.Prelude.{◌≡◌, ◌+◌, ◌*◌, true};
ghost use Rattle.boardfile.specs.Parts.{GoodRights, Granted, Read};

use crate::reader::Listed;
use board::Board;
use board::answers::Refusal;
use sets::roles_of;
use writer::founding;

// The rights bytes of a file that has them.
fn held(f: &Listed) -> Result<[u8; 64], Refusal>
    requires { f.now.layout.rights ≡ true }
    ensures { Read f.now.file.now (GoodRights f.now.file.now (f.now.layout.roles + 3 * f.now.layout.edges) f.now.live) result }
{
    let start = f.layout.roles + 3 * f.layout.edges;
    let mut rights = [0; 64];
    for (role, byte) in roles_of(f.live).zip(&f.file[start..]) {
        if Board::ALL_RIGHTS < *byte {
            return Err(Refusal::BadRecord);
        }
        rights[role] = *byte;
    }
    Ok(rights)
}

// The rights that a file gives: those of its rights bytes, or the founding board's where it has none. Refused where a byte is wrong, or
// where the bytes say what a file without them would.
pub(crate) fn holdings(f: &Listed) -> Result<[u8; 64], Refusal>
    ensures { Read f.now.file.now (Granted f.now.file.now f.now.layout.roles f.now.layout.edges f.now.layout.rights f.now.live) result }
{
    if !f.layout.rights {
        let mut rights = [0; 64];
        rights[0] = Board::ALL_RIGHTS;
        return Ok(rights);
    }
    let rights = held(f)?;
    let needed = !founding(&rights);
    if needed {
        Ok(rights)
    } else {
        Err(Refusal::BadRecord)
    }
}
