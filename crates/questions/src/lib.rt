// The four questions about a board. Knows the board's records and scopes; changes nothing.
//
// Each checks soundness once, and refuses with 1, 2 or 3. The forms with `_of` are on a board lent part by part, as C gives it. Those with
// `_trusting` go on with a board that was just found sound: the answer is the one read off what the board keeps, whatever that holds.
#![tactic(auto)]

ghost use Rattle.std.specs.Prelude.{None, false};
ghost use Rattle.hierarchy.specs.First.{First};
ghost use Rattle.board.specs.Answers.{number, value_or};
ghost use Rattle.board.specs.Asked.{misnamed};
ghost use Rattle.board.specs.Boards.{board_of};
ghost use Rattle.questions.specs.Scoped.{said, count, cause, way};
ghost use Rattle.questions.specs.Trusting.{DerivesTrusting, ScopeTrusting, ManagerTrusting, StepsTrusting};
ghost use Rattle.questions.specs.Questions.{DerivesAnswer, ScopeAnswer, ManagerAnswer, StepsAnswer};

use board::answers::Refusal;
use board::checks::{sound, sound_of};
use board::{Board, kept};
use hierarchy::working::Kept;
use scopes::{Bar, bars};
use sets::{has, size};

// What is asked of a scope: how many roles are in it in all, and what bars the role that was asked about from it.
#[derive(Clone, Copy, PartialEq, Eq)]
pub struct Scoped {
    pub count: u32,
    pub bar: Option<Bar>,
}

// Whether a question may name x and y: both are roles that live.
fn both_live(live: u64, x: u32, y: u32) -> Result<(), Refusal>
    ensures { First (misnamed live x y) (number result) }
{
    if x > 63 || y > 63 {
        return Err(Refusal::Malformed);
    }
    if !has(live, x as usize) || !has(live, y as usize) {
        return Err(Refusal::Missing);
    }
    Ok(())
}

// Does x derive y.
pub fn derives(b: &Board, x: u32, y: u32) -> Result<bool, Refusal>
    ensures { DerivesAnswer b.now x y (number result) (value_or false result) }
{
    if !sound(b) {
        return Err(Refusal::Unsound);
    }
    derives_trusting(b, x, y)
}

// The same on the board of these parts, which may lie apart.
pub fn derives_of<'t>(
    live: u64,
    i: &'t [u64; 64],
    a: &'t [u64; 64],
    derives: &'t [u64; 64],
    derivers: &'t [u64; 64],
    manager: &'t [u8; 64],
    rights: &'t [u8; 64],
    x: u32,
    y: u32,
) -> Result<bool, Refusal>
    ensures { DerivesAnswer (board_of live i.now a.now derives.now derivers.now manager.now rights.now) x y (number result) (value_or false result) }
{
    if !sound_of(live, i, a, derives, derivers, manager, rights) {
        return Err(Refusal::Unsound);
    }
    derives_in(live, derives, x, y)
}

// The same, off the sets that are kept.
pub fn derives_trusting(b: &Board, x: u32, y: u32) -> Result<bool, Refusal>
    ensures { DerivesTrusting b.now.tables.live b.now.kept.derives x y (number result) (value_or false result) }
{
    derives_in(b.tables.live, &b.kept.derives, x, y)
}

// The same, off the sets that each role derives.
fn derives_in(live: u64, derives: &[u64; 64], x: u32, y: u32) -> Result<bool, Refusal>
    ensures { DerivesTrusting live derives.now x y (number result) (value_or false result) }
{
    both_live(live, x, y)?;
    Ok(kept::derives_of(derives, x, y))
}

// What bars r from the scope of a, and how many are in it.
pub fn scope(b: &Board, a: u32, r: u32) -> Result<Scoped, Refusal>
    ensures { ScopeAnswer b.now a r (number result) (said result) (count result) (cause result) (way result) }
{
    if !sound(b) {
        return Err(Refusal::Unsound);
    }
    scope_trusting(b, a, r)
}

// The same on the board of these parts, which may lie apart.
pub fn scope_of<'t>(
    live: u64,
    i: &'t [u64; 64],
    a: &'t [u64; 64],
    derives: &'t [u64; 64],
    derivers: &'t [u64; 64],
    manager: &'t [u8; 64],
    rights: &'t [u8; 64],
    actor: u32,
    r: u32,
) -> Result<Scoped, Refusal>
    ensures { ScopeAnswer (board_of live i.now a.now derives.now derivers.now manager.now rights.now) actor r (number result) (said result) (count result) (cause result) (way result) }
{
    if !sound_of(live, i, a, derives, derivers, manager, rights) {
        return Err(Refusal::Unsound);
    }
    scope_apart(live, derives, derivers, manager, actor, r)
}

// The same, off sets that lie apart. Not inlined: their copy isn't on the stack while soundness is checked.
#[inline(never)]
fn scope_apart(
    live: u64,
    derives: &[u64; 64],
    derivers: &[u64; 64],
    manager: &[u8; 64],
    a: u32,
    r: u32,
) -> Result<Scoped, Refusal>
    ensures { ScopeTrusting live derives.now derivers.now a r (number result) (said result) (count result) (cause result) (way result) }
{
    let kept = Kept {
        derives: *derives,
        derivers: *derivers,
        manager: *manager,
    };
    scope_in(live, &kept, a, r)
}

// The same, off the sets that are kept.
pub fn scope_trusting(b: &Board, a: u32, r: u32) -> Result<Scoped, Refusal>
    ensures { ScopeTrusting b.now.tables.live b.now.kept.derives b.now.kept.derivers a r (number result) (said result) (count result) (cause result) (way result) }
{
    scope_in(b.tables.live, &b.kept, a, r)
}

fn scope_in(live: u64, kept: &Kept, a: u32, r: u32) -> Result<Scoped, Refusal>
    ensures { ScopeTrusting live kept.now.derives kept.now.derivers a r (number result) (said result) (count result) (cause result) (way result) }
{
    both_live(live, a, r)?;
    let all = kept::scope(kept, a);
    let bar = bars(kept, a as usize, r as usize);
    Ok(Scoped {
        count: size(all),
        bar,
    })
}

// The line manager of r.
pub fn line_manager(b: &Board, r: u32) -> Result<Option<u8>, Refusal>
    ensures { ManagerAnswer b.now r (number result) (value_or None result) }
{
    if !sound(b) {
        return Err(Refusal::Unsound);
    }
    line_manager_trusting(b, r)
}

// The same, off the managers that are kept.
pub fn line_manager_trusting(b: &Board, r: u32) -> Result<Option<u8>, Refusal>
    ensures { ManagerTrusting b.now.tables.live b.now.kept.manager r (number result) (value_or None result) }
{
    both_live(b.tables.live, r, r)?;
    Ok(kept::line_manager(&b.kept, r))
}

// The steps from r to role 0 by line managers.
pub fn steps(b: &Board, r: u32) -> Result<usize, Refusal>
    ensures { StepsAnswer b.now r (number result) (value_or 0 result) }
{
    if !sound(b) {
        return Err(Refusal::Unsound);
    }
    steps_trusting(b, r)
}

// The same, off the managers that are kept.
pub fn steps_trusting(b: &Board, r: u32) -> Result<usize, Refusal>
    ensures { StepsTrusting b.now.tables.live b.now.kept.manager r (number result) (value_or 0 result) }
{
    both_live(b.tables.live, r, r)?;
    Ok(kept::steps(&b.kept, r))
}
