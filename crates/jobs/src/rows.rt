// The rows of a job list.
ghost use Rattle.std.specs.Prelude.{◌≡◌, true, ◌++◌, ◌↔◌, ℕ, ◌≤◌, ◌<◌, length, get_or, drop, set, replicate};
ghost use Rattle.jobs.specs.Lists.{role_at};
ghost use Rattle.jobs.specs.Answers.{AllRoles, HolderOf};

// what stands for no role, past the jobs that are listed
const NO_ROLE: u8 = 64;

// in `marks`: any number but OPEN is a held job's, and HELD is what a claim writes
const OPEN: u8 = 0;

const HELD: u8 = 1;

// No job is listed.
pub(crate) fn clear(roles: &mut [u8; 1024], marks: &mut [u8; 1024], members: &mut [u32; 1024])
    ensures { (roles.new ≡ replicate 1024 64) × ((marks.new ≡ replicate 1024 0) × (members.new ≡ replicate 1024 0)) }
{
    *roles = [NO_ROLE; 1024];
    *marks = [OPEN; 1024];
    *members = [0; 1024];
}

// Whether each of these is a role.
pub(crate) fn all_roles(listed: &[u8]) -> bool
    ensures { (result ≡ true) ↔ AllRoles listed.now }
{
    listed.iter().all(|role| *role < NO_ROLE)
}

// These go to the front of the row. By `copy_from_slice` the library would ask for `memmove`, and it is to ask for `memcpy` and `memset` alone.
pub(crate) fn copy(listed: &[u8], roles: &mut [u8; 1024])
    requires { (length listed.now ≤ 1024) × (length roles.old ≡ 1024) }
    ensures { roles.new ≡ listed.now ++ drop (length listed.now) roles.old }
{
    for (k, role) in listed.iter().enumerate() {
        roles[k] = *role;
    }
}

// The role that a job is listed under; 64 past the list, which the question refuses in its own order.
pub(crate) fn role_of(roles: &[u8; 1024], job: u32) -> u32
    ensures { result ≡ role_at roles.now job }
{
    match roles.get(job as usize) {
        Some(role) => u32::from(*role),
        None => u32::from(NO_ROLE),
    }
}

// Whether there is such a job.
pub(crate) fn is_listed(roles: &[u8; 1024], job: u32) -> bool
    ensures { (result ≡ true) ↔ (role_at roles.now job < 64) }
{
    role_of(roles, job) < u32::from(NO_ROLE)
}

// Who holds a job; nobody, where it is open. This and the next two ask for a job that is listed, each on its own: a struct for one number,
// made by `is_listed`, would be no plainer.
pub(crate) fn holder(marks: &[u8; 1024], members: &[u32; 1024], job: usize) -> Option<u32>
    requires { job < 1024 }
    ensures { HolderOf marks.now members.now job result }
{
    if marks[job] == OPEN {
        return None;
    }
    Some(members[job])
}

// The member holds the job.
pub(crate) fn take(marks: &mut [u8; 1024], members: &mut [u32; 1024], job: usize, member: u32)
    requires { job < 1024 }
    ensures { (marks.new ≡ set marks.old job 1) × (members.new ≡ set members.old job member) }
{
    marks[job] = HELD;
    members[job] = member;
}

// The job is open, and nothing is left of who held it.
pub(crate) fn free(marks: &mut [u8; 1024], members: &mut [u32; 1024], job: usize)
    requires { job < 1024 }
    ensures { (marks.new ≡ set marks.old job 0) × (members.new ≡ set members.old job 0) }
{
    marks[job] = OPEN;
    members[job] = 0;
}
