//! Lines, a byte at a time, so that lines of any length go through fixed memory.
ghost use Rattle.std.specs.Prelude.{◌≡◌};
ghost use Rattle.text.specs.Scans.{begin_of, first_of, later_of, line_of_scan, scan_of};

use crate::{Fields, Number};

/// A line as far as it was read: the letter that is its first byte, and the numbers that stand behind it, each after one space.
/// The letter is a byte and no kind: any byte may be the first, and what it asks for is told at the line's end.
#[derive(Clone, Copy, Debug, PartialEq, Eq)]
pub enum Scan {
    /// Nothing was read.
    Start,
    Letter(u8),
    OneNumber {
        letter: u8,
        first: Number,
    },
    TwoNumbers {
        letter: u8,
        first: Number,
        second: Number,
    },
    /// Of no form any more.
    Other,
    /// The same as plain fields of any values, as a caller may hold it. What `begin_line` begins never comes to be held so, and a line
    /// that is held so stays held so.
    Fields(Fields),
}

/// `f F`, `t weight literal`, `u from to`, or `l from to`.
#[derive(Clone, Copy, Debug, PartialEq, Eq)]
pub enum Line {
    First(u32),
    Term {
        weight: u32,
        /// The literal's sign and digits, apart as in `Number`.
        negated: bool,
        variable: u32,
    },
    Upper(u32, u32),
    Lower(u32, u32),
}

/// A line of no such form.
#[derive(Clone, Copy, Debug, PartialEq, Eq)]
pub struct NoForm;

/// A line of which nothing was read.
pub fn begin_line() -> Scan
    ensures { result ≡ begin_of }
{
    Scan::Start
}

/// One byte more of a line, a space or any other but the newline.
pub fn scan_byte(scan: Scan, byte: u8) -> Scan
    ensures { result ≡ scan_of scan byte }
{
    let mut next = scan;
    next.take(byte);
    next
}

impl Scan {
    /// `scan_byte` in place: a space goes to the next field, and any other byte goes on with its field. Most go on with a number, and leave
    /// what stands beside it.
    /// Inlined, since the legend reads each byte twice and would call it there.
    #[inline(always)]
    #[tactic(auto, unfolding(crate::specs::Scans::scan_of))]
    pub fn take(&mut self, byte: u8)
        ensures { self.new ≡ scan_of self.old byte }
    {
        match self {
            Scan::Start => *self = Scan::Letter(byte),
            Scan::Letter(letter) => {
                *self = if byte == b' ' {
                    Scan::OneNumber {
                        letter: *letter,
                        first: Number::Empty,
                    }
                } else {
                    Scan::Other
                };
            }
            Scan::OneNumber { letter, first } => {
                if byte == b' ' {
                    *self = Scan::TwoNumbers {
                        letter: *letter,
                        first: *first,
                        second: Number::Empty,
                    };
                } else {
                    *first = first.with_byte(byte);
                }
            }
            Scan::TwoNumbers { second, .. } => {
                if byte == b' ' {
                    *self = Scan::Other;
                } else {
                    *second = second.with_byte(byte);
                }
            }
            Scan::Other => {}
            Scan::Fields(fields) => fields.take(byte),
        }
    }
}

/// A line of one number: `f F`.
#[tactic(auto, unfolding(crate::specs::Scans::first_of))]
fn first_line(letter: u8, first: Number) -> Result<Line, NoForm>
    ensures { result ≡ first_of letter first }
{
    let Some(value) = first.plain() else {
        return Err(NoForm);
    };
    if letter != b'f' {
        return Err(NoForm);
    }
    Ok(Line::First(value))
}

/// A line of two numbers: `t weight literal`, `u from to`, `l from to`.
#[tactic(auto, unfolding(crate::specs::Scans::later_of))]
fn later_line(letter: u8, first: Number, second: Number) -> Result<Line, NoForm>
    ensures { result ≡ later_of letter first second }
{
    let Some(from) = first.plain() else {
        return Err(NoForm);
    };
    let Number::Digits { negative, value } = second else {
        return Err(NoForm);
    };
    if letter == b't' {
        return Ok(Line::Term {
            weight: from,
            negated: negative,
            variable: value,
        });
    }
    if negative {
        return Err(NoForm);
    }
    if letter == b'u' {
        return Ok(Line::Upper(from, value));
    }
    if letter == b'l' {
        return Ok(Line::Lower(from, value));
    }
    Err(NoForm)
}

/// What the bytes read so far are as a whole line.
#[tactic(auto, unfolding(crate::specs::Scans::line_of_scan))]
pub fn line_of(scan: Scan) -> Result<Line, NoForm>
    ensures { result ≡ line_of_scan scan }
{
    match scan {
        Scan::Start => Err(NoForm),
        Scan::Letter(_) => Err(NoForm),
        Scan::OneNumber { letter, first } => first_line(letter, first),
        Scan::TwoNumbers {
            letter,
            first,
            second,
        } => later_line(letter, first, second),
        Scan::Other => Err(NoForm),
        Scan::Fields(fields) => fields.line(),
    }
}
