//! The turns of a history, as they are read.
use encoder::Ask;
use literal::{Literal, Term};
use try_io::Numbers;
use try_state::{Field, range, term};

#[derive(Clone, Copy, Debug, PartialEq, Eq)]
pub enum Turn {
    Add(Term),
    Encode(Ask),
    Reserve,
    StartOver,
    EnforceUb(u64),
    EnforceLb(u64),
    Explain(Literal),
    Report,
    /// The source's next number set by the caller.
    Source(u32),
    /// A field of the state set directly.
    Field(Field, i64),
    /// A word of the node table set.
    Node(usize, u32),
    /// A word of the bound table set.
    Bound(usize, u32),
    /// A field that there is not.
    Nothing,
}

/// The turn that comes next. One of another number than 1 to 15 takes a number that says nothing, and asks for the report.
pub fn read_turn(numbers: &mut Numbers) -> Turn {
    match numbers.read::<u32>() {
        1 => Turn::Add(term(numbers)),
        2 => Turn::Encode(Ask::Up(range(numbers))),
        3 => Turn::Encode(Ask::Down(range(numbers))),
        4 => Turn::Encode(Ask::Both(range(numbers))),
        5 => Turn::Encode(Ask::Ranges(range(numbers), range(numbers))),
        6 => Turn::Reserve,
        7 => Turn::StartOver,
        8 => Turn::EnforceUb(numbers.read()),
        9 => Turn::EnforceLb(numbers.read()),
        10 => Turn::Explain(numbers.read()),
        11 => Turn::Report,
        12 => Turn::Source(numbers.read()),
        13 => field(numbers),
        14 => Turn::Node(numbers.read(), numbers.read()),
        15 => Turn::Bound(numbers.read(), numbers.read()),
        _ => {
            numbers.skip(1);
            Turn::Report
        }
    }
}

fn field(numbers: &mut Numbers) -> Turn {
    let which = numbers.read();
    let number = numbers.read();
    Field::of_number(which).map_or(Turn::Nothing, |field| Turn::Field(field, number))
}
