// The job list for programs in C. `host/jobs.h` has these functions on the rows of a list and the fields of a board, and those on its
// structs on top of them: so both come here row by row.
ghost use Rattle.std.specs.Prelude.{◌≡◌};
ghost use Rattle.board.specs.Answers.{number};
ghost use Rattle.board.specs.Boards.{board_of};
ghost use Rattle.answers.specs.Packing.{answer};
ghost use Rattle.jobs.specs.Lists.{jobs_of};
ghost use Rattle.host.specs.Jobs.{StartPacked, ClaimPacked, ReleasePacked, JobPacked};

use answers::packed;
use board::answers::Refusal;
use jobs::{claim_of, look, release_of, start};

// The answer of a change to a list: the number alone.
fn settled(q: Result<(), Refusal>) -> u64
    ensures { result ≡ answer (number q) 0 0 }
{
    match q {
        Ok(()) => packed(0, 0, 0),
        Err(refusal) => packed(refusal.number(), 0, 0),
    }
}

// A new list, all open.
#[unsafe(no_mangle)]
pub extern "C" fn jobs_start_rows(
    listed: &[u8],
    roles: &mut [u8; 1024],
    marks: &mut [u8; 1024],
    members: &mut [u32; 1024],
) -> u64
    ensures { StartPacked listed.now (jobs_of roles.new marks.new members.new) result }
{
    settled(start(listed, roles, marks, members))
}

// The member takes the job.
#[unsafe(no_mangle)]
pub extern "C" fn jobs_claim_rows<'t>(
    live: u64,
    i: &'t [u64; 64],
    a: &'t [u64; 64],
    derives: &'t [u64; 64],
    derivers: &'t [u64; 64],
    manager: &'t [u8; 64],
    rights: &'t [u8; 64],
    roles: &'t [u8; 1024],
    marks: &mut [u8; 1024],
    members: &mut [u32; 1024],
    job: u32,
    member: u32,
    role: u32,
) -> u64
    ensures { ClaimPacked (board_of live i.now a.now derives.now derivers.now manager.now rights.now) (jobs_of roles.now marks.old members.old) job member role (jobs_of roles.now marks.new members.new) result }
{
    settled(claim_of(
        live, i, a, derives, derivers, manager, rights, roles, marks, members, job, member, role,
    ))
}

// The job is open again.
#[unsafe(no_mangle)]
pub extern "C" fn jobs_release_rows<'t>(
    live: u64,
    i: &'t [u64; 64],
    a: &'t [u64; 64],
    derives: &'t [u64; 64],
    derivers: &'t [u64; 64],
    manager: &'t [u8; 64],
    rights: &'t [u8; 64],
    roles: &'t [u8; 1024],
    marks: &mut [u8; 1024],
    members: &mut [u32; 1024],
    job: u32,
    member: u32,
    role: u32,
) -> u64
    ensures { ReleasePacked (board_of live i.now a.now derives.now derivers.now manager.now rights.now) (jobs_of roles.now marks.old members.old) job member role (jobs_of roles.now marks.new members.new) result }
{
    settled(release_of(
        live, i, a, derives, derivers, manager, rights, roles, marks, members, job, member, role,
    ))
}

// Whether a job is held, and by whom; beside a refusal it isn't.
#[unsafe(no_mangle)]
pub extern "C" fn jobs_job_rows<'t>(
    roles: &'t [u8; 1024],
    marks: &'t [u8; 1024],
    members: &'t [u32; 1024],
    job: u32,
) -> u64
    ensures { JobPacked (jobs_of roles.now marks.now members.now) job result }
{
    match look(roles, marks, members, job) {
        Ok(holder) => {
            let held = u16::from(holder.is_some());
            packed(0, 0, held) + 4294967296 * u64::from(holder.unwrap_or(0))
        }
        Err(refusal) => packed(refusal.number(), 0, 0),
    }
}
