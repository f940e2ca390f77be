//! The accepted `u` and `l` lines, three words each in a lent table: 0 for an upper bound and 1 for a lower one, the range's first value,
//! and how many values. The words are made and read here alone.
ghost use Rattle.std.specs.Prelude.{◌≡◌, ◌+◌, ◌*◌, ◌<◌, get_or, length};
ghost use Rattle.plan.specs.Read.{asked_at, asked_of};
ghost use Rattle.plan.specs.Noting.{cut_range, noted};

use literal::Direction;

/// The words of an asked line.
const WORDS: usize = 3;

/// A `u` line (`If`) or an `l` line (`OnlyIf`), with its range as it was cut when the line was taken.
#[derive(Clone, Copy, Debug, PartialEq, Eq)]
pub struct Asked {
    pub direction: Direction,
    /// The first value.
    pub from: u32,
    /// How many values.
    pub many: u32,
}

/// The range `from` (included) to `to` (not) of upper bounds is cut to the total; that of lower bounds begins at 1 and ends at the total.
#[tactic(auto, unfolding(model::specs::Program::asked_up, model::specs::Program::asked_down))]
pub(crate) fn cut_range(direction: Direction, from: u32, to: u32, total: u64) -> Asked
    ensures { asked_of result ≡ cut_range direction from to total }
{
    let (first, end) = match direction {
        Direction::If => (from, total),
        Direction::OnlyIf => (from.max(1), total.saturating_add(1)),
    };
    let last = u64::from(to).min(end) as u32;
    Asked {
        direction,
        from: first,
        many: last.saturating_sub(first),
    }
}

/// Notes the asked line `line`.
#[tactic(auto, unfolding(crate::specs::Noting::noted))]
pub(crate) fn note(table: &mut [u32], line: usize, asked: Asked)
    requires { 3 * line + 2 < length table.old }
    ensures { table.new ≡ noted table.old line asked }
{
    table[WORDS * line] = match asked.direction {
        Direction::If => 0,
        Direction::OnlyIf => 1,
    };
    table[WORDS * line + 1] = asked.from;
    table[WORDS * line + 2] = asked.many;
}

/// A word of an asked line; 0 past the table's end.
fn word_of(table: &[u32], line: usize, k: usize) -> u32
    ensures { result ≡ get_or table.now (3 * line + k) 0 }
{
    let place = line.saturating_mul(WORDS).saturating_add(k);
    table.get(place).copied().unwrap_or(0)
}

/// The asked line `line`; past the table's end an upper range of no value.
pub fn asked_line(table: &[u32], line: usize) -> Asked
    ensures { asked_of result ≡ asked_at table.now line }
{
    let direction = match word_of(table, line, 0) {
        0 => Direction::If,
        _ => Direction::OnlyIf,
    };
    Asked {
        direction,
        from: word_of(table, line, 1),
        many: word_of(table, line, 2),
    }
}
