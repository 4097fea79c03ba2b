// What a command does to the rights that roles hold.
ghost use Rattle.std.specs.Prelude.{◌≡◌, true, ◌↔◌, ◌<◌};
ghost use Rattle.sets.specs.Sets.{bit, set_of};
ghost use Rattle.refusals.specs.Refusals.{Malformed};
ghost use Rattle.commands.specs.RightsAfter.{holds, rights_after};

use board::{Code, Command};
use sets::{minus, union};

// Whether a command whose numbers are in range is about rights alone.
pub(crate) fn rights_alone(c: Command) -> bool
    requires { Malformed c → ⊥ }
    ensures { (result ≡ true) ↔ (5 < c.code) }
{
    let Some(code) = c.named() else {
        return false;
    };
    matches!(code, Code::GiveRights | Code::TakeRights)
}

// The rights of the role named, by those that it held.
fn held_after(c: Command, held: u64) -> u64
    ensures { result ≡ set_of (λ k. holds c (bit held k) c.role k) }
{
    let Some(code) = c.named() else {
        return held;
    };
    match code {
        Code::AddRole | Code::RemoveRole => 0,
        Code::AddEdge | Code::RemoveEdge | Code::ChangeEdge => held,
        Code::GiveRights => union(held, u64::from(c.rights)),
        Code::TakeRights => minus(held, u64::from(c.rights)),
    }
}

// Makes the rights those that the command leaves.
pub(crate) fn change_rights(rights: &mut [u8; 64], c: Command)
    requires { Malformed c → ⊥ }
    ensures { rights.new ≡ rights_after c rights.old }
{
    let role = c.role as usize;
    let held = u64::from(rights[role]);
    rights[role] = held_after(c, held) as u8;
}
