// The cooperative's job list above the board: which jobs there are, under which role each is listed, and who holds it. Knows
// the questions about a board, and no command.
//
// A claim or a release is one call: it asks the board its question, decides, and changes the list where nothing refuses it; else the list is
// as it was. Nobody has to test anything before.
//
// The list is three rows that the caller lends, and 6 KB long in all, which is more than a call should have on its stack. They stand apart,
// and not in a struct that is lent whole, since C gives them apart (`jobs_claim_rows`). Place j of `roles` has the role of job j, or a number
// above 63 where there is no such job; `marks` has 0 for an open job and any other number for a held one, and `members` who holds it.
#![tactic(auto)]

ghost use Rattle.std.specs.Prelude.{Option};
ghost use Rattle.board.specs.Answers.{number, value_or};
ghost use Rattle.board.specs.Boards.{board_of};
ghost use Rattle.jobs.specs.Lists.{jobs_of};
ghost use Rattle.jobs.specs.Answers.{StartAnswer, ClaimAnswer, ReleaseAnswer, LookAnswer};

use board::Board;
use board::answers::Refusal;
use questions::{derives_of, scope_of};
use rows::{all_roles, clear, copy, free, holder, is_listed, role_of, take};

mod rows;

// Job j is listed under role `listed[j]`, and every one is open. More than 1,024 of them, or one under a number that is no role, is
// refused as malformed, and leaves an empty list. Whatever was in the rows is gone either way.
pub fn start(
    listed: &[u8],
    roles: &mut [u8; 1024],
    marks: &mut [u8; 1024],
    members: &mut [u32; 1024],
) -> Result<(), Refusal>
    ensures { StartAnswer listed.now (number result) (jobs_of roles.new marks.new members.new) }
{
    clear(roles, marks, members);
    if listed.len() > roles.len() || !all_roles(listed) {
        return Err(Refusal::Malformed);
    }
    copy(listed, roles);
    Ok(())
}

// The member takes the job, acting in a role that derives the job's. The board is lent part by part, as C gives it.
pub fn claim_of<'t>(
    live: u64,
    i: &'t [u64; 64],
    a: &'t [u64; 64],
    derives: &'t [u64; 64],
    derivers: &'t [u64; 64],
    manager: &'t [u8; 64],
    rights: &'t [u8; 64],
    roles: &'t [u8; 1024],
    marks: &mut [u8; 1024],
    members: &mut [u32; 1024],
    job: u32,
    member: u32,
    role: u32,
) -> Result<(), Refusal>
    ensures { ClaimAnswer (board_of live i.now a.now derives.now derivers.now manager.now rights.now) (jobs_of roles.now marks.old members.old) job member role (number result) (jobs_of roles.now marks.new members.new) }
{
    let listed = role_of(roles, job);
    let derived = derives_of(live, i, a, derives, derivers, manager, rights, role, listed)?;
    let job = job as usize;
    if holder(marks, members, job).is_some() {
        return Err(Refusal::WrongState);
    }
    if !derived {
        return Err(Refusal::NotTheirs);
    }
    take(marks, members, job, member);
    Ok(())
}

// The same on a board that is lent whole.
pub fn claim(
    b: &Board,
    roles: &[u8; 1024],
    marks: &mut [u8; 1024],
    members: &mut [u32; 1024],
    job: u32,
    member: u32,
    role: u32,
) -> Result<(), Refusal>
    ensures { ClaimAnswer b.now (jobs_of roles.now marks.old members.old) job member role (number result) (jobs_of roles.now marks.new members.new) }
{
    claim_of(
        b.tables.live,
        &b.tables.i,
        &b.tables.a,
        &b.kept.derives,
        &b.kept.derivers,
        &b.kept.manager,
        &b.rights,
        roles,
        marks,
        members,
        job,
        member,
        role,
    )
}

// The job is open again: its holder gives it up, or whoever acts in a role that has the job's in its scope takes it away. The board is lent
// part by part.
pub fn release_of<'t>(
    live: u64,
    i: &'t [u64; 64],
    a: &'t [u64; 64],
    derives: &'t [u64; 64],
    derivers: &'t [u64; 64],
    manager: &'t [u8; 64],
    rights: &'t [u8; 64],
    roles: &'t [u8; 1024],
    marks: &mut [u8; 1024],
    members: &mut [u32; 1024],
    job: u32,
    member: u32,
    role: u32,
) -> Result<(), Refusal>
    ensures { ReleaseAnswer (board_of live i.now a.now derives.now derivers.now manager.now rights.now) (jobs_of roles.now marks.old members.old) job member role (number result) (jobs_of roles.now marks.new members.new) }
{
    let listed = role_of(roles, job);
    let scoped = scope_of(live, i, a, derives, derivers, manager, rights, role, listed)?;
    let job = job as usize;
    let Some(held_by) = holder(marks, members, job) else {
        return Err(Refusal::WrongState);
    };
    let by_holder = held_by == member;
    if !by_holder && scoped.bar.is_some() {
        return Err(Refusal::NotTheirs);
    }
    free(marks, members, job);
    Ok(())
}

// The same on a board that is lent whole.
pub fn release(
    b: &Board,
    roles: &[u8; 1024],
    marks: &mut [u8; 1024],
    members: &mut [u32; 1024],
    job: u32,
    member: u32,
    role: u32,
) -> Result<(), Refusal>
    ensures { ReleaseAnswer b.now (jobs_of roles.now marks.old members.old) job member role (number result) (jobs_of roles.now marks.new members.new) }
{
    release_of(
        b.tables.live,
        &b.tables.i,
        &b.tables.a,
        &b.kept.derives,
        &b.kept.derivers,
        &b.kept.manager,
        &b.rights,
        roles,
        marks,
        members,
        job,
        member,
        role,
    )
}

// Who holds a job: nobody, where it is open. Past the list it is refused as malformed.
pub fn look(
    roles: &[u8; 1024],
    marks: &[u8; 1024],
    members: &[u32; 1024],
    job: u32,
) -> Result<Option<u32>, Refusal>
    ensures { LookAnswer (jobs_of roles.now marks.now members.now) job (number result) (value_or None result) }
{
    if !is_listed(roles, job) {
        return Err(Refusal::Malformed);
    }
    Ok(holder(marks, members, job as usize))
}
