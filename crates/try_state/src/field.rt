//! The fields of a state by their numbers.

/// A field: those of an encoder and those that go with it, in the order in which they are told, and then the arrays, at a place.
#[derive(Clone, Copy, Debug, PartialEq, Eq)]
pub enum Field {
    First,
    Count,
    Built,
    Len,
    Nodes,
    Bounds,
    Clauses,
    Drawn,
    Fill,
    Left,
    Weight(usize),
    Word(usize),
    Output(usize),
}

impl Field {
    /// The field of a number from 0 to 9.
    pub fn of_number(number: u32) -> Option<Field> {
        match number {
            0 => Some(Field::First),
            1 => Some(Field::Count),
            2 => Some(Field::Built),
            3 => Some(Field::Len),
            4 => Some(Field::Nodes),
            5 => Some(Field::Bounds),
            6 => Some(Field::Clauses),
            7 => Some(Field::Drawn),
            8 => Some(Field::Fill),
            9 => Some(Field::Left),
            _ => None,
        }
    }

    /// The field of a number from 0 to 12: the last three are the arrays, at a place.
    pub fn at_place(number: u32, place: usize) -> Option<Field> {
        match number {
            10 => Some(Field::Weight(place)),
            11 => Some(Field::Word(place)),
            12 => Some(Field::Output(place)),
            _ => Field::of_number(number),
        }
    }
}
