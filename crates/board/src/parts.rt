// The kind of an edge: which of its two parts it has.
ghost use Rattle.std.specs.Prelude.{◌≡◌};
ghost use Rattle.hierarchy.specs.Tables.{has_i, has_a};
ghost use Rattle.board.specs.Codes.{kind_number, IsKind};

// In the order of their numbers, from 1 to 3.
#[derive(Clone, Copy, PartialEq, Eq)]
pub enum Kind {
    I,
    A,
    IA,
}

impl Kind {
    // The kind that a number names, or none. An Option and no `TryFrom`: of a number that names none there is nothing more to say.
    pub fn of(number: u32) -> Option<Kind>
        ensures { IsKind number result }
    {
        match number {
            1 => Some(Kind::I),
            2 => Some(Kind::A),
            3 => Some(Kind::IA),
            _ => None,
        }
    }

    pub fn has_i(self) -> bool
        ensures { result ≡ has_i (kind_number self) }
    {
        matches!(self, Kind::I | Kind::IA)
    }

    pub fn has_a(self) -> bool
        ensures { result ≡ has_a (kind_number self) }
    {
        matches!(self, Kind::A | Kind::IA)
    }
}
