//! Kinds of nodes, their bits, and the directions in which they are encoded.
ghost use Rattle.std.specs.Prelude.{◌≡◌};
ghost use Rattle.literal.specs.Kinds.{direction_by, direction_of, kind_of};
ghost use Rattle.model.specs.Machine.{dir_place};
ghost use Rattle.model.specs.Nodes.{bit_at, kind_number};

/// A node of two children, or of three.
#[derive(Clone, Copy, Debug, PartialEq, Eq)]
pub enum Kind {
    Half,
    Full,
}

impl Kind {
    /// The number in a node's record.
    pub fn number(self) -> u32
        ensures { result ≡ kind_number (kind_of self) }
    {
        match self {
            Kind::Half => 1,
            Kind::Full => 2,
        }
    }
}

/// A node's bits.
#[derive(Clone, Copy, Debug, PartialEq, Eq)]
pub enum Bit {
    Sum,
    Carry,
}

/// "If": the inputs force the bit. Only-if: the bit forces its inputs.
#[derive(Clone, Copy, Debug, PartialEq, Eq)]
pub enum Direction {
    If,
    OnlyIf,
}

impl Direction {
    /// Whether a bound record's marks have that of this direction.
    pub fn marked(self, marks: u32) -> bool
        ensures { result ≡ bit_at (dir_place (direction_of self)) marks }
    {
        match self {
            Direction::If => marks % 2 == 1,
            Direction::OnlyIf => marks / 2 % 2 == 1,
        }
    }
}

/// A direction by its number, for callers that have one: 0 is if, any other only-if.
impl From<u32> for Direction {
    ghost from_gives = { λ number r. r ≡ direction_by number };

    fn from(number: u32) -> Direction {
        match number {
            0 => Direction::If,
            _ => Direction::OnlyIf,
        }
    }
}
