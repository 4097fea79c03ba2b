// What a command was answered, in words that a coordinator can act on.
use crate::lines::{Quoted, say};
use board::answers::{Cause, Refusal};
use board::parts::Kind;
use board::{Board, Code, Command};
use effects::effect;
use hierarchy::tables::Tables;
use hierarchy::working::work_out;
use scopes::{Bar, bars};
use sets::{has, lowest, minus, roles_of, single, union, with, without};
use std::fmt;
use wording::pieces::word;
use wording::{Wanted, Wrong};

// The line's number, where it has one, before what it was answered.
#[derive(Drop)]
struct Numbered(Option<usize>);

impl fmt::Display for Numbered {
    fn fmt<W: fmt::Write>(&self, f: &mut fmt::Formatter<W>) -> fmt::Result {
        match self.0 {
            Some(number) => write!(f, "{number}: "),
            None => Ok(()),
        }
    }
}

// ---- a line that is no command

// What should stand where a word is wrong.
fn wish(wanted: Wanted) -> &'static str {
    match wanted {
        Wanted::Role => ": it should be a role, 0 to 63",
        Wanted::Name => {
            ": it should be add-role, remove-role, add-edge, remove-edge, change-edge, give-rights or take-rights"
        }
        Wanted::Kind => ": it should be a kind: I, A or IA",
        Wanted::Roles => {
            ": it should be roles, 0 to 63, with commas and no blanks between: 1,2,5"
        }
        Wanted::Rights => {
            ": it should be all, or some of add-role,remove-role,add-edge,remove-edge,change-edge with commas and no blanks between"
        }
        Wanted::SetName => {
            ": it should be a-seniors, i-seniors, a-juniors or i-juniors, each once"
        }
        Wanted::Nothing => " is too much: the command ends before it",
    }
}

// The wrong word, or that the line ends too soon.
pub(crate) fn say_wrong(rt: HostRuntime, line: &[u8], wrong: Wrong, number: Option<usize>) {
    let number = Numbered(number);
    let wish = wish(wrong.wanted);
    match word(line, wrong.place) {
        [] => say(
            rt,
            format_args!("{number}refused 2: a word is missing at the end{wish}"),
        ),
        text => say(
            rt,
            format_args!("{number}refused 2: {}{wish}", Quoted(text)),
        ),
    }
}

// ---- a command that was refused

// The roles that a command names and that must exist.
fn named(c: &Command) -> u64 {
    let actor = single(c.actor as usize);
    let role = c.role as usize;
    match c.named() {
        Some(Code::AddRole) => {
            let seniors = union(c.a_seniors, c.i_seniors);
            let juniors = union(c.a_juniors, c.i_juniors);
            union(union(seniors, juniors), actor)
        }
        Some(Code::AddEdge | Code::RemoveEdge | Code::ChangeEdge) => {
            with(with(actor, role), c.junior as usize)
        }
        _ => with(actor, role),
    }
}

fn kind_name(c: &Command) -> &'static str {
    match c.edge_kind() {
        Some(Kind::I) => "I",
        Some(Kind::A) => "A",
        Some(Kind::IA) => "IA",
        None => "nothing",
    }
}

// Whether the table has the edge that the command names.
fn joins(t: &[u64; 64], c: &Command) -> bool {
    t.get(c.role as usize)
        .is_some_and(|juniors| has(*juniors, c.junior as usize))
}

// The kind of the edge that the command names, if there is one.
fn kind_there(t: &Tables, c: &Command) -> Option<&'static str> {
    match (joins(&t.i, c), joins(&t.a, c)) {
        (true, true) => Some("IA"),
        (true, false) => Some("I"),
        (false, true) => Some("A"),
        (false, false) => None,
    }
}

// The rights that a role holds.
fn rights_held(rights: &[u8; 64], x: usize) -> u64 {
    rights.get(x).map_or(0, |own| u64::from(*own))
}

// The rights that a role may use: its own, and those of the roles that it derives. `refusals` sums them so, and keeps it to itself.
fn usable(b: &Board, actor: usize) -> u64 {
    let mut all = 0;
    if let Some(derived) = b.kept.derives.get(actor) {
        for x in roles_of(*derived) {
            all = union(all, rights_held(&b.rights, x));
        }
    }
    all
}

// The rights that a command asks for. `refusals` has this of a command whose numbers are in range, and keeps it to itself.
fn asked(c: &Command) -> u64 {
    match c.named() {
        Some(Code::GiveRights | Code::TakeRights) => u64::from(c.rights),
        Some(_) => single(c.code as usize - 1),
        None => 0,
    }
}

fn right_name(right: Option<usize>) -> &'static str {
    match right {
        Some(0) => "add-role",
        Some(1) => "remove-role",
        Some(2) => "add-edge",
        Some(3) => "remove-edge",
        Some(4) => "change-edge",
        _ => "",
    }
}

// The board that a command would leave.
fn left_by(b: &Board, c: &Command) -> Board {
    let mut left = *b;
    effect(&mut left.tables, *c);
    let _ = work_out(&left.tables, &mut left.kept);
    left
}

fn has_nobody(manager: &[u8; 64], x: usize) -> bool {
    manager.get(x).is_some_and(|own| *own == Board::NO_MANAGER)
}

// The lowest live role but 0 without a line manager; 64 where each has one, which would be printed as it stands.
fn unmanaged(b: &Board) -> usize {
    for x in roles_of(without(b.tables.live, 0)) {
        if has_nobody(&b.kept.manager, x) {
            return x;
        }
    }
    64
}

// Why a command was refused, on the board that it was given to.
#[derive(Drop)]
struct Reason<'a> {
    board: &'a Board,
    command: &'a Command,
    refusal: Refusal,
}

impl fmt::Display for Reason<'_> {
    fn fmt<W: fmt::Write>(&self, f: &mut fmt::Formatter<W>) -> fmt::Result {
        let role = self.command.role;
        match self.refusal {
            Refusal::Missing => self.absent(f),
            Refusal::Standing => self.standing(f),
            Refusal::Lacking => self.lacking(f),
            Refusal::NotEntitled => self.no_right(f),
            Refusal::OutOfScope { who, cause } => self.barred(f, who, cause),
            // a loop has to go through what the command adds
            Refusal::Loops => write!(
                f,
                "role {role} would reach itself: the edges would close a loop"
            ),
            Refusal::Outside => self.outside(f),
            // 9; no other can arise, since a file's board is sound and a line means no command that is malformed
            _ => {
                let orphan = unmanaged(&left_by(self.board, self.command));
                write!(f, "role {orphan} would be left without an administrator")
            }
        }
    }
}

impl Reason<'_> {
    // 3: the lowest role that the command names and that isn't live; 64 is printed where there is none, as `unmanaged` has it.
    fn absent<W: fmt::Write>(&self, f: &mut fmt::Formatter<W>) -> fmt::Result {
        let absent = lowest(minus(named(self.command), self.board.tables.live)).unwrap_or(64);
        write!(f, "role {absent} isn't live: no such role is on the board")
    }

    // 4: what is to be added stands.
    fn standing<W: fmt::Write>(&self, f: &mut fmt::Formatter<W>) -> fmt::Result {
        let c = self.command;
        let role = c.role;
        let junior = c.junior;
        if matches!(c.named(), Some(Code::AddRole)) {
            return write!(f, "role {role} is on the board already");
        }
        let kind = kind_name(c);
        write!(
            f,
            "the edge from role {role} to role {junior} already has {kind}"
        )
    }

    // 5: what is to go or to change is missing.
    fn lacking<W: fmt::Write>(&self, f: &mut fmt::Formatter<W>) -> fmt::Result {
        let role = self.command.role;
        let junior = self.command.junior;
        match kind_there(&self.board.tables, self.command) {
            Some(kind) => write!(
                f,
                "the edge from role {role} to role {junior} has only {kind}"
            ),
            None => write!(f, "there is no edge from role {role} to role {junior}"),
        }
    }

    // 13: the first right that the command asks for and that the actor may not use.
    fn no_right<W: fmt::Write>(&self, f: &mut fmt::Formatter<W>) -> fmt::Result {
        let actor = self.command.actor;
        let may = usable(self.board, actor as usize);
        let right = right_name(lowest(minus(asked(self.command), may)));
        write!(
            f,
            "neither role {actor} nor a role that it derives holds the right to {right}"
        )
    }

    // 6: who is out of scope, and why.
    fn barred<W: fmt::Write>(
        &self,
        f: &mut fmt::Formatter<W>,
        who: u8,
        cause: Cause,
    ) -> fmt::Result {
        let actor = self.command.actor;
        match cause {
            Cause::NotDerived => write!(
                f,
                "role {who} is not in the scope of role {actor}, since role {actor} doesn't derive it"
            ),
            Cause::InTheWay(x) => write!(
                f,
                "role {who} is not in the scope of role {actor}, since role {x} derives it and is unrelated to role {actor}"
            ),
            Cause::Itself => write!(
                f,
                "role {who} is not in the strict scope of role {actor}, which leaves out role {actor} itself"
            ),
        }
    }

    // 8: why the new role would not be in the actor's strict scope: nobody there leads down to it, or another role does who is unrelated.
    fn outside<W: fmt::Write>(&self, f: &mut fmt::Formatter<W>) -> fmt::Result {
        let actor = self.command.actor;
        let role = self.command.role;
        let left = left_by(self.board, self.command);
        write!(
            f,
            "the new role {role} would not be in the strict scope of role {actor}"
        )?;
        match bars(&left.kept, actor as usize, role as usize) {
            None => Ok(()),
            Some(Bar::NotDerived) => write!(
                f,
                ", since role {actor} would not derive it: name another senior"
            ),
            Some(Bar::InTheWay(x)) => write!(
                f,
                ", since role {x} would derive it and is unrelated to role {actor}"
            ),
        }
    }
}

// The answer to a command, on the board before it; that it was done needs no board.
pub(crate) fn say_answer(
    rt: HostRuntime,
    board: &Board,
    command: &Command,
    answer: Result<(), Refusal>,
    number: Option<usize>,
) {
    let line = Numbered(number);
    match answer {
        Ok(()) => say(rt, format_args!("{line}done")),
        Err(refusal) => {
            let reason = Reason {
                board,
                command,
                refusal,
            };
            say(
                rt,
                format_args!("{line}refused {}: {reason}", refusal.number()),
            );
        }
    }
}
