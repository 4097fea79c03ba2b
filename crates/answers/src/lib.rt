// An answer in one number, as C is told it: the refusal number, where it arose, and a value, and above them who offends and why. Knows an
// answer, and no board.
#![tactic(auto)]

ghost use Rattle.std.specs.Prelude.{◌≡◌};
ghost use Rattle.board.specs.Answers.{Answer, cause_number, cause_way};
ghost use Rattle.answers.specs.Packing.{answer, reason, answer_of};

use board::answers::{Answer, Cause};

// The three parts of an answer in one number, each a number as C has it.
pub fn packed(number: u8, place: u8, value: u16) -> u64
    ensures { result ≡ answer number place value }
{
    u64::from(number) + 256 * u64::from(place) + 65536 * u64::from(value)
}

// Who offends, the cause and the role in the way, above these: numbers likewise.
pub fn reason(who: u8, cause: u8, way: u8) -> u64
    ensures { result ≡ reason who cause way }
{
    4294967296 * u64::from(who)
        + 1099511627776 * u64::from(cause)
        + 281474976710656 * u64::from(way)
}

// The same of a cause.
pub fn blame(who: u8, cause: Cause) -> u64
    ensures { result ≡ reason who (cause_number cause) (cause_way cause) }
{
    match cause {
        Cause::NotDerived => reason(who, 1, 0),
        Cause::InTheWay(way) => reason(who, 2, way),
        Cause::Itself => reason(who, 3, 0),
    }
}

// The answer to a command, by its result or by its four numbers, with the place and the value.
pub fn answered_at<A: Into<Answer>>(a: A, place: u8, value: u16) -> u64
    ensures { (told : Answer) × (A.converts a told × (result ≡ answer_of told place value)) }
{
    let told = a.into();
    packed(told.number, place, value) + reason(told.who, told.cause, told.way)
}

// The same where place and value are 0: of a command on a board that is lent or handed in.
pub fn answered<A: Into<Answer>>(a: A) -> u64
    ensures { (told : Answer) × (A.converts a told × (result ≡ answer_of told 0 0)) }
{
    answered_at(a, 0, 0)
}
