// The rows on the tables that a command would leave, and the change where none of them refuses it.
ghost use Rattle.std.specs.Prelude.{◌≡◌, true, ◌↔◌};
ghost use Rattle.hierarchy.specs.Tables.{Shaped};
ghost use Rattle.board.specs.Answers.{number, number_of};
ghost use Rattle.commands.specs.Trusting.{OutOfOrder, OutsideBy, LateBy, Remade};

use board::answers::Refusal;
use board::{Code, Command};
use effects::effect;
use hierarchy::tables::Tables;
use hierarchy::working::{Fault, Kept, work_out};
use sets::{roles_of, union, within};

// 8: the new role is outside the actor's strict scope.
fn outside(kept: &Kept, c: Command) -> bool
    ensures { (result ≡ true) ↔ OutsideBy kept.now.derives kept.now.derivers c }
{
    if c.named() != Some(Code::AddRole) {
        return false;
    }
    c.actor == c.role || !scopes::in_scope(kept, c.actor as usize, c.role as usize)
}

// Why not all live roles settle: some role reaches itself; or a live role has a junior that isn't live, as after no sound board.
fn out_of_order(t: &Tables) -> Refusal
    ensures { OutOfOrder t.now (number_of result) }
{
    for x in roles_of(t.live) {
        if !within(union(t.i[x], t.a[x]), t.live) {
            return Refusal::Unsound;
        }
    }
    Refusal::Loops
}

// The refusals on the tables that the command would leave; where there is none, what a board of these keeps has been worked out.
fn refused_after(t: &Tables, c: Command, kept: &mut Kept) -> Result<(), Refusal>
    requires { Shaped t.now }
    ensures { LateBy t.now c (number result) kept.new.derives kept.new.derivers kept.new.manager }
{
    let worked = work_out(t, kept);
    if worked == Err(Fault::Loops) {
        return Err(out_of_order(t));
    }
    if outside(kept, c) {
        return Err(Refusal::Outside);
    }
    worked?;
    Ok(())
}

// Makes the tables those that the command would leave, and works out what a board of these keeps, unless a row afterwards refuses it. On
// refusal both stay.
pub(crate) fn change_if_allowed(t: &mut Tables, kept: &mut Kept, c: Command) -> Result<(), Refusal>
    ensures { Remade t.old kept.old c (number result) t.new kept.new }
{
    let mut next = *t;
    effect(&mut next, c);
    let mut worked = Kept {
        derives: [0; 64],
        derivers: [0; 64],
        manager: [0; 64],
    };
    refused_after(&next, c, &mut worked)?;
    *t = next;
    *kept = worked;
    Ok(())
}
