//! The calls of a trace by their numbers.
use encoder::Ask;
use try_io::Numbers;
use try_state::range;

/// The number of the call that begins a history.
pub const TABLES: i64 = 1;

/// A call within a history. What an add, an implication or a reification takes follows it.
#[derive(Clone, Copy, Debug, PartialEq, Eq)]
pub enum Call {
    Start(u32),
    Add,
    Encode(Ask),
    Reserve,
    StartOver,
    EnforceUb(u64),
    EnforceLb(u64),
    Report,
    /// The source's next number set by the caller.
    Source(u32),
    Dump,
    Implication,
    Reification,
}

/// The call that comes next; one of another number than 2 to 15 is a reification.
pub fn read_call(numbers: &mut Numbers) -> Call {
    match numbers.read::<u32>() {
        2 => Call::Start(numbers.read()),
        3 => Call::Add,
        4 => Call::Encode(Ask::Up(range(numbers))),
        5 => Call::Encode(Ask::Down(range(numbers))),
        6 => Call::Encode(Ask::Both(range(numbers))),
        7 => Call::Reserve,
        8 => Call::StartOver,
        9 => Call::EnforceUb(numbers.read()),
        10 => Call::EnforceLb(numbers.read()),
        11 => Call::Report,
        12 => Call::Source(numbers.read()),
        13 => Call::Dump,
        14 => Call::Implication,
        _ => Call::Reification,
    }
}
