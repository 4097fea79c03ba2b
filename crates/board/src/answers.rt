// Why a command or a question is refused: document 01's table, and what the requests after it added.
ghost use Rattle.std.specs.Prelude.{◌≡◌};
ghost use Rattle.board.specs.Answers.{plain, answer, number_of, cause_number, cause_way, faulted, barred};

use hierarchy::working::Fault;
use scopes::Bar;

// Why a role is not in the scope that is asked for: the actor doesn't derive it; it does, and this role, which may be role 0, is in the
// way; or, where strict scope is asked, it is the actor itself.
#[derive(Clone, Copy, PartialEq, Eq)]
pub enum Cause {
    NotDerived,
    InTheWay(u8),
    Itself,
}

impl Cause {
    // The number that the rules and C know it by.
    pub fn number(self) -> u8
        ensures { result ≡ cause_number self }
    {
        match self {
            Cause::NotDerived => 1,
            Cause::InTheWay(_) => 2,
            Cause::Itself => Answer::ITSELF,
        }
    }

    // The role in the way, or 0: the cause tells which.
    pub fn way(self) -> u8
        ensures { result ≡ cause_way self }
    {
        match self {
            Cause::InTheWay(role) => role,
            _ => 0,
        }
    }
}

impl From<Bar> for Cause {
    ghost from_gives = { λ bar cause. cause ≡ barred bar };

    fn from(bar: Bar) -> Cause {
        match bar {
            Bar::NotDerived => Cause::NotDerived,
            Bar::InTheWay(x) => Cause::InTheWay(x),
        }
    }
}

// In the order of their numbers, from 1 to 15.
#[derive(Clone, Copy, PartialEq, Eq)]
pub enum Refusal {
    // the board is not sound
    Unsound,
    // a number is out of its range
    Malformed,
    // a role that must exist isn't live
    Missing,
    // the role exists, or every part named of the edge stands already
    Standing,
    // there is no such edge, or a part to be removed is missing
    Lacking,
    // this role, the first that offends, is out of the actor's scope
    OutOfScope { who: u8, cause: Cause },
    // some role would reach itself
    Loops,
    // the new role would be outside the actor's strict scope
    Outside,
    // some role would have no administrator
    Unmanaged,
    // the frame of a file
    BadFrame,
    // a record in a file
    BadRecord,
    // what is to be written doesn't fit
    NoRoom,
    // the actor may not use a right that the command needs or names
    NotEntitled,
    // the job isn't in the state asked for
    WrongState,
    // role or member may not claim or release the job
    NotTheirs,
}

impl Refusal {
    // The number that the rules and C know it by. A method and no `From`: it is read as a name.
    pub fn number(self) -> u8
        ensures { result ≡ number_of self }
    {
        match self {
            Refusal::Unsound => 1,
            Refusal::Malformed => 2,
            Refusal::Missing => 3,
            Refusal::Standing => 4,
            Refusal::Lacking => 5,
            Refusal::OutOfScope { .. } => 6,
            Refusal::Loops => 7,
            Refusal::Outside => 8,
            Refusal::Unmanaged => 9,
            Refusal::BadFrame => 10,
            Refusal::BadRecord => 11,
            Refusal::NoRoom => 12,
            Refusal::NotEntitled => 13,
            Refusal::WrongState => 14,
            Refusal::NotTheirs => 15,
        }
    }
}

impl From<Fault> for Refusal {
    ghost from_gives = { λ fault refusal. refusal ≡ faulted fault };

    fn from(fault: Fault) -> Refusal {
        match fault {
            Fault::Loops => Refusal::Loops,
            Fault::Unmanaged => Refusal::Unmanaged,
        }
    }
}

// A result in numbers, as C is told it. The number, 0 for done. With 6: the first role that offends, the cause, and with cause 2 the role in
// the way, which may be role 0, else 0. With any other number all three are 0.
#[derive(Clone, Copy, PartialEq, Eq)]
pub struct Answer {
    pub number: u8,
    pub who: u8,
    pub cause: u8,
    pub way: u8,
}

impl Answer {
    // the third cause, where strict scope is asked: the role is the actor itself
    pub const ITSELF: u8 = 3;

    // A number that names nobody.
    pub fn plain(number: u8) -> Self
        ensures { result ≡ plain number }
    {
        Answer {
            number,
            who: 0,
            cause: 0,
            way: 0,
        }
    }
}

impl From<Result<(), Refusal>> for Answer {
    ghost from_gives = { λ given told. told ≡ answer given };

    fn from(given: Result<(), Refusal>) -> Answer {
        match given {
            Ok(()) => Answer::plain(0),
            Err(Refusal::OutOfScope { who, cause }) => Answer {
                number: 6,
                who,
                cause: cause.number(),
                way: cause.way(),
            },
            Err(refusal) => Answer::plain(refusal.number()),
        }
    }
}
