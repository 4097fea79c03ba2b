// How the lines say what was asked and what came back: sets, rights and bytes by their numbers, a command in words, an answer.
use board::answers::{Cause, Refusal};
use board::{Code, Command};
use sets::roles_of;
use std::fmt;

// The members of a set by their numbers, a space before each, or '-' where it has none.
#[derive(Clone, Copy)]
pub(crate) struct Members(pub(crate) u64);

impl fmt::Display for Members {
    fn fmt<W: fmt::Write>(&self, f: &mut fmt::Formatter<W>) -> fmt::Result {
        if self.0 == 0 {
            return f.write_str(" -");
        }
        for r in roles_of(self.0) {
            write!(f, " {r}")?;
        }
        Ok(())
    }
}

// Rights are numbered as the commands that they are for, of which the first is 1.
#[derive(Clone, Copy)]
pub(crate) struct Rights(pub(crate) u32);

impl fmt::Display for Rights {
    fn fmt<W: fmt::Write>(&self, f: &mut fmt::Formatter<W>) -> fmt::Result {
        write!(f, " the rights{}", Members((self.0 as u64) << 1))
    }
}

// Some bytes, a space before each, or '-' where there are none.
#[derive(Clone, Copy)]
pub(crate) struct Bytes<'b>(pub(crate) &'b [u8]);

impl fmt::Display for Bytes<'_> {
    fn fmt<W: fmt::Write>(&self, f: &mut fmt::Formatter<W>) -> fmt::Result {
        if self.0.is_empty() {
            return f.write_str(" -");
        }
        for b in self.0 {
            write!(f, " {b}")?;
        }
        Ok(())
    }
}

// Why a role is out of scope, by the number of the cause; with cause 2 the role in the way.
#[derive(Clone, Copy)]
pub(crate) struct Reason(pub(crate) Cause);

impl fmt::Display for Reason {
    fn fmt<W: fmt::Write>(&self, f: &mut fmt::Formatter<W>) -> fmt::Result {
        match self.0 {
            Cause::NotDerived => f.write_str(", cause 1"),
            Cause::InTheWay(way) => write!(f, ", cause 2, role {way} in the way"),
            Cause::Itself => f.write_str(", cause 3"),
        }
    }
}

// The number of an answer, 0 for done; with 6 who offends and why.
#[derive(Clone, Copy)]
pub(crate) struct Answered(pub(crate) Result<(), Refusal>);

impl fmt::Display for Answered {
    fn fmt<W: fmt::Write>(&self, f: &mut fmt::Formatter<W>) -> fmt::Result {
        match self.0 {
            Ok(()) => f.write_str("0"),
            Err(Refusal::OutOfScope { who, cause }) => write!(f, "6, role {who}{}", Reason(cause)),
            Err(why) => write!(f, "{}", why.number()),
        }
    }
}

// What an actor asks for. Juniors of a new role are said only where it is to have any.
#[derive(Clone, Copy)]
pub(crate) struct Asked(pub(crate) Command);

impl Asked {
    fn added<W: fmt::Write>(c: Command, f: &mut fmt::Formatter<W>) -> fmt::Result {
        write!(f, "adds role {}", c.role)?;
        write!(f, ", A-seniors{}", Members(c.a_seniors))?;
        write!(f, ", I-seniors{}", Members(c.i_seniors))?;
        if c.a_juniors == 0 && c.i_juniors == 0 {
            return Ok(());
        }
        write!(f, ", A-juniors{}", Members(c.a_juniors))?;
        write!(f, ", I-juniors{}", Members(c.i_juniors))
    }
}

impl fmt::Display for Asked {
    fn fmt<W: fmt::Write>(&self, f: &mut fmt::Formatter<W>) -> fmt::Result {
        let c = self.0;
        write!(f, "actor {} ", c.actor)?;
        match c.named() {
            Some(Code::AddRole) => Asked::added(c, f),
            Some(Code::RemoveRole) => write!(f, "removes role {}", c.role),
            Some(Code::AddEdge) => write!(f, "adds {}", Edge(c)),
            Some(Code::RemoveEdge) => write!(f, "removes {}", Edge(c)),
            Some(Code::ChangeEdge) => write!(f, "changes {}", Edge(c)),
            Some(Code::GiveRights) => write!(f, "gives role {}{}", c.role, Rights(c.rights)),
            Some(Code::TakeRights) => write!(f, "takes from role {}{}", c.role, Rights(c.rights)),
            None => write!(f, "tries code {}", c.code),
        }
    }
}

// The edge that a command names.
#[derive(Clone, Copy)]
struct Edge(Command);

impl fmt::Display for Edge {
    fn fmt<W: fmt::Write>(&self, f: &mut fmt::Formatter<W>) -> fmt::Result {
        let c = self.0;
        write!(f, "{} to {}, kind {}", c.role, c.junior, c.kind)
    }
}

pub(crate) fn yes_or_no(yes: bool) -> &'static str {
    if yes { "yes" } else { "no" }
}
