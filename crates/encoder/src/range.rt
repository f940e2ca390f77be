//! What is asked for, and the values of it.
ghost use Rattle.std.specs.Prelude.{◌≡◌, ◌+◌, ◌-◌, ◌≤◌};
ghost use Rattle.model.specs.Bounds.{run, up_values, down_values};
ghost use Rattle.encoder.specs.Read.{range_of, up_range, down_range, Cuts};

use stages::Cut;

/// From (included) and to (not).
#[derive(Clone, Copy, Debug, PartialEq, Eq)]
pub struct Range {
    pub from: u64,
    pub to: u64,
}

/// One operation of encoding: upper bounds, lower bounds, the same range for both, or a range for each, the upper
/// first.
#[derive(Clone, Copy, Debug, PartialEq, Eq)]
pub enum Ask {
    Up(Range),
    Down(Range),
    Both(Range),
    Ranges(Range, Range),
}

/// One way alone asks nothing of the other.
const NO_RANGE: Range = Range { from: 0, to: 0 };

impl Ask {
    /// The range of upper bounds.
    /// This and `down` are two definitions of the contracts, and differ in the arms: over a `Direction` both would stand in
    /// one `match`, which is no plainer.
    pub fn up(self) -> Range
        ensures { result ≡ up_range self }
    {
        match self {
            Ask::Up(range) | Ask::Both(range) | Ask::Ranges(range, _) => range,
            Ask::Down(_) => NO_RANGE,
        }
    }

    /// The range of lower bounds.
    pub fn down(self) -> Range
        ensures { result ≡ down_range self }
    {
        match self {
            Ask::Down(range) | Ask::Both(range) | Ask::Ranges(_, range) => range,
            Ask::Up(_) => NO_RANGE,
        }
    }
}

/// The values from a base up, as many as there are from one number to another; base 0 where there is none.
fn span(from: u64, end: u64, base: u64) -> Cut
    requires { (end ≤ 4294967296) × (base ≤ from) }
    ensures { Cuts (run base (end - from)) result }
{
    if end <= from {
        return Cut { base: 0, n: 0 };
    }
    Cut {
        base,
        n: (end - from) as usize,
    }
}

/// To is cut to the total.
pub fn cut_up(range: Range, total: u64) -> Cut
    requires { total ≤ 4294967295 }
    ensures { Cuts (up_values (range_of range) total) result }
{
    span(range.from, range.to.min(total), range.from)
}

/// From is raised to 1, to is cut to the total and 1; a value's record is the one before it.
pub fn cut_down(range: Range, total: u64) -> Cut
    requires { total ≤ 4294967295 }
    ensures { Cuts (down_values (range_of range) total) result }
{
    let low = range.from.max(1);
    span(low, range.to.min(total + 1), low - 1)
}
