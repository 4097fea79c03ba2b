// What a word names.
ghost use Rattle.std.specs.Prelude.{◌≡◌, ◌≤◌, ◌<◌, List, ℕ, Option, IfSome, length};
ghost use Rattle.wording.specs.Texts.{pieces};
ghost use Rattle.wording.specs.Names.{place_in, code_of, kind_of, set_name_of, right_of, role_of, members_of, rights_of, Reads};
ghost use Rattle.wording.specs.Steps.{grown};

use crate::pieces::{COMMA, pieces_of};
use sets::with;

// The place of a text among names that stand in a row with commas between.
fn place_in(text: &[u8], names: &[u8]) -> Option<usize>
    ensures value { result ≡ place_in text.now (pieces 44 names.now) }
    ensures bound { IfSome result (λ k. k ≤ length names.now) }
{
    for (k, name) in pieces_of(names, COMMA).enumerate() {
        if text == name {
            return Some(k);
        }
    }
    None
}

// A command by its name: its number, 1 to 7, which C's `Command` has for it.
pub(crate) fn code(text: &[u8]) -> Option<u32>
    ensures value { result ≡ code_of text.now }
    ensures bound { IfSome result (λ k. k ≤ 7) }
{
    let place = place_in(
        text,
        b"add-role,remove-role,add-edge,remove-edge,change-edge,give-rights,take-rights",
    )?;
    Some(place as u32 + 1)
}

// A kind by its name: its number, 1 to 3, which C's `Command` has for it.
pub(crate) fn kind(text: &[u8]) -> Option<u32>
    ensures { result ≡ kind_of text.now }
{
    let place = place_in(text, b"I,A,IA")?;
    Some(place as u32 + 1)
}

// The four sets of a new role.
#[derive(Clone, Copy, PartialEq, Eq)]
pub(crate) enum SetName {
    ASeniors,
    ISeniors,
    AJuniors,
    IJuniors,
}

pub(crate) fn set_name(text: &[u8]) -> Option<SetName>
    ensures { result ≡ set_name_of text.now }
{
    let place = place_in(text, b"a-seniors,i-seniors,a-juniors,i-juniors")?;
    Some(match place {
        0 => SetName::ASeniors,
        1 => SetName::ISeniors,
        2 => SetName::AJuniors,
        _ => SetName::IJuniors,
    })
}

// A right, 0 to 4, by the name of its command.
fn right(text: &[u8]) -> Option<u32>
    ensures { result ≡ right_of text.now }
{
    let place = place_in(
        text,
        b"add-role,remove-role,add-edge,remove-edge,change-edge",
    )?;
    Some(place as u32)
}

// A number so far and one byte more, while that is a role.
#[tactic(auto, unfolding(crate::specs::Steps::grown))]
fn grown(number: u32, b: u8) -> Option<u32>
    ensures { result ≡ grown number b }
{
    if !b.is_ascii_digit() {
        return None;
    }
    if number > 6 {
        return None;
    }
    let next = number * 10 + u32::from(b - b'0');
    if next > 63 {
        return None;
    }
    Some(next)
}

// The role of a decimal number.
pub(crate) fn role(text: &[u8]) -> Option<u32>
    ensures { result ≡ role_of text.now }
{
    if text.is_empty() {
        return None;
    }
    let mut number = 0;
    for b in text {
        number = grown(number, *b)?;
    }
    Some(number)
}

// The set of what the pieces of a text name, with commas between.
pub(crate) fn members<F: Fn(&[u8]) -> Option<u32>>(text: &[u8], name: F) -> Option<u64>
    ghost name_of: { List ℕ → Option ℕ }
    requires callable { F.IsAlwaysCallable name }
    requires reads { Reads (F.post name) name_of }
    ensures { result ≡ members_of name_of text.now }
{
    let mut set: u64 = 0;
    for piece in pieces_of(text, COMMA) {
        set = with(set, name(piece)? as usize);
    }
    Some(set)
}

// Roles, with commas between.
pub(crate) fn roles(text: &[u8]) -> Option<u64>
    ensures { result ≡ members_of role_of text.now }
{
    members(text, role)
}

// Rights by their names, or all of them.
pub(crate) fn rights(text: &[u8]) -> Option<u64>
    ensures { result ≡ rights_of text.now }
{
    if text == b"all".as_slice() {
        return Some(31);
    }
    members(text, right)
}
