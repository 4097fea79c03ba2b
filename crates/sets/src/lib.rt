// Sets of roles. A role is a number from 0 to 63, and a set is a u64 with bit r set where role r is in it. Knows
// nothing else.
// Every function takes any number for a role: one above 63 is in no set, and adding or removing it changes nothing.
// What a function gives is said member by member, for every number x; two sets with the same members are equal (`same_members`).
#![tactic(auto)]

ghost use Rattle.std.specs.Prelude.{◌≡◌, true, false, not, ◌&&◌, ◌||◌, ◌↔◌, ℕ};
ghost use Rattle.std.specs.Int.Count.{ones};
ghost use Rattle.std.specs.Iterator.{at_most};
ghost use Rattle.sets.specs.Sets.{bit, same?, ◌are_in◌, Lowest, ButLowest, Highest, Turn};

// Whether role r is in s.
pub fn has(s: u64, r: usize) -> bool
    ensures { result ≡ bit s r }
{
    r < 64 && (s >> r) & 1 == 1
}

// The role r alone.
pub fn single(r: usize) -> u64
    ensures { (x : ℕ) → bit result x ≡ same? r x }
{
    if r < 64 {
        return 1 << r;
    }
    0
}

// The roles of s and those of t.
pub fn union(s: u64, t: u64) -> u64
    ensures { (x : ℕ) → bit result x ≡ (bit s x || bit t x) }
{
    s | t
}

// The roles of s that are in t too.
pub fn common(s: u64, t: u64) -> u64
    ensures { (x : ℕ) → bit result x ≡ (bit s x && bit t x) }
{
    s & t
}

// The roles of s that are not in t.
pub fn minus(s: u64, t: u64) -> u64
    ensures { (x : ℕ) → bit result x ≡ (bit s x && not (bit t x)) }
{
    s & !t
}

// s and the role r.
pub fn with(s: u64, r: usize) -> u64
    ensures { (x : ℕ) → bit result x ≡ (bit s x || same? r x) }
{
    union(s, single(r))
}

// s but the role r.
pub fn without(s: u64, r: usize) -> u64
    ensures { (x : ℕ) → bit result x ≡ (bit s x && not (same? r x)) }
{
    minus(s, single(r))
}

// Whether every role of s is in t.
pub fn within(s: u64, t: u64) -> bool
    ensures { (result ≡ true) ↔ (s are_in t) }
{
    minus(s, t) == 0
}

// The lowest role of s.
pub fn lowest(s: u64) -> Option<usize>
    ensures { Lowest s result }
{
    if s == 0 {
        return None;
    }
    Some(s.trailing_zeros() as usize)
}

// The roles of s but the lowest: what a loop over s goes on with, without waiting for the lowest to be named.
pub fn but_lowest(s: u64) -> u64
    ensures { ButLowest s result }
{
    if s == 0 {
        return 0;
    }
    s & (s - 1)
}

// The highest role of s.
pub fn highest(s: u64) -> Option<usize>
    ensures { Highest s result }
{
    if s == 0 {
        return None;
    }
    Some(63 - s.leading_zeros() as usize)
}

// The roles of a set one by one, the lowest first: what a `for` over a set goes through.
#[derive(Clone, Copy)]
pub struct Roles {
    pub left: u64,
}

// The roles of s.
pub fn roles_of(s: u64) -> Roles
    ensures { result.left ≡ s }
{
    Roles { left: s }
}

impl Iterator for Roles {
    type Item = usize;

    ghost next_gives = { λ from r to. Turn from.left r to.left };

    ghost remaining = { λ from. at_most (ones from.left) };

    fn next(&mut self) -> Option<usize> {
        let first = lowest(self.left)?;
        self.left = but_lowest(self.left);
        Some(first)
    }
}

// How many roles s has.
pub fn size(s: u64) -> u32
    ensures { result ≡ ones s }
{
    s.count_ones()
}
