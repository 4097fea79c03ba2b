// All that a board keeps of its tables, worked out in one call.
ghost use Rattle.hierarchy.specs.Views.{WorkedOut, fault_number};

use crate::managers::{NONE, all_managed, fill_managers};
use crate::tables::Tables;
use crate::views::{fill_down, fill_up};

// Row x of `derives` is the set of what role x derives, row x of `derivers` of what derives x, and `manager` has the line managers, with 64
// for none. C has the three as they stand here.
#[repr(C)]
#[derive(Clone, Copy, PartialEq, Eq)]
pub struct Kept {
    pub derives: [u64; 64],
    pub derivers: [u64; 64],
    pub manager: [u8; 64],
}

// Why tables are no sound board's: the live roles are not in order; some live role but 0 has no line manager.
#[derive(Clone, Copy, PartialEq, Eq)]
pub enum Fault {
    Loops,
    Unmanaged,
}

// What each live role derives, what derives it, and its line manager. Where the live roles are not in order all three are blank. `derivers`
// and `manager` serve as room to work in until they are filled, so that nobody who has room for the values needs more.
pub fn work_out(t: &Tables, kept: &mut Kept) -> Result<(), Fault>
    ensures { WorkedOut t.now (fault_number result) kept.new.derives kept.new.derivers kept.new.manager }
{
    if !fill_down(t, kept) {
        kept.derives = [0; 64];
        kept.derivers = [0; 64];
        kept.manager = [NONE; 64];
        return Err(Fault::Loops);
    }
    fill_up(t.live, kept);
    fill_managers(t.live, kept);
    if !all_managed(t.live, kept) {
        return Err(Fault::Unmanaged);
    }
    Ok(())
}
