//! A line as plain fields, a byte at a time: any values of them have an answer. Read from nothing they give the model's line, as the
//! other forms of `Scan` do (proofs/Agreeing: `fields-scanned`). No program's reading comes here.
ghost use Rattle.std.specs.Prelude.{◌≡◌};
ghost use Rattle.model.specs.Limits.{most_total};
ghost use Rattle.text.specs.Fields.{fields_byte, fields_first, fields_later, fields_line, figures_byte, figures_digit};

use crate::{Line, NoForm, digit_after};
use literal::MOST_TOTAL;

/// A number as far as it was read: its value, whether it has a digit, whether a minus stands before them, and whether it is no
/// number any more. For a caller who holds it so, in any values; `Number` can hold only some of them.
#[derive(Clone, Copy, Debug, PartialEq, Eq)]
pub struct Figures {
    pub value: u32,
    pub digits: bool,
    pub minus: bool,
    pub bad: bool,
}

/// A line as far as it was read: its first byte, the field that the next byte belongs to, and its two numbers. Field 0 is the
/// letter, 1 what follows the letter, 2 and 3 the numbers, and 4 and above say that the line is of no form any more. For a caller
/// who holds it so, in any values; the other forms of `Scan` can hold only some of them.
#[derive(Clone, Copy, Debug, PartialEq, Eq)]
pub struct Fields {
    pub letter: u8,
    pub field: u8,
    pub first: Figures,
    pub second: Figures,
}

/// What is no number.
const NO_NUMBER: Figures = Figures {
    value: 0,
    digits: false,
    minus: false,
    bad: true,
};

impl Figures {
    /// One digit more of a number up to the greatest total; any other byte makes it no number.
    #[tactic(auto, unfolding(crate::specs::Fields::figures_digit, crate::specs::Scans::digit_after))]
    fn with_digit(self, byte: u8) -> Self
        ensures { result ≡ figures_digit most_total self byte }
    {
        match digit_after(u64::from(MOST_TOTAL), u64::from(self.value), byte) {
            Some(value) => Figures {
                value: value as u32,
                digits: true,
                minus: self.minus,
                bad: false,
            },
            None => NO_NUMBER,
        }
    }

    /// One byte more: a minus stands only before the digits, and what is no number stays as it is.
    #[tactic(auto, unfolding(crate::specs::Fields::figures_byte))]
    fn with_byte(self, byte: u8) -> Self
        ensures { result ≡ figures_byte self byte }
    {
        if self.bad {
            return self;
        }
        if byte != b'-' {
            return self.with_digit(byte);
        }
        if self.digits || self.minus {
            return NO_NUMBER;
        }
        Figures {
            value: self.value,
            digits: false,
            minus: true,
            bad: false,
        }
    }
}

impl Fields {
    /// One byte more: the first is the letter, a space goes to the next field, and any other goes on with a number; right behind the
    /// letter, or past the numbers, it leaves a line of no form (field 4).
    #[tactic(auto, unfolding(crate::specs::Fields::fields_byte))]
    pub fn with_byte(self, byte: u8) -> Self
        ensures { result ≡ fields_byte self byte }
    {
        let mut new = self;
        let field = self.field;
        if field == 0 {
            new.letter = byte;
            new.field = 1;
            return new;
        }
        if byte == b' ' {
            new.field = field.saturating_add(1).min(4);
            return new;
        }
        if field == 2 {
            new.first = self.first.with_byte(byte);
            return new;
        }
        if field == 3 {
            new.second = self.second.with_byte(byte);
            return new;
        }
        new.field = 4;
        new
    }

    /// `with_byte` in place. A call of its own, so that what `Scan::take` does of a line that is held otherwise stays small.
    #[inline(never)]
    pub(crate) fn take(&mut self, byte: u8)
        ensures { self.new ≡ fields_byte self.old byte }
    {
        *self = self.with_byte(byte);
    }

    /// A line of one number: `f F`.
    #[tactic(auto, unfolding(crate::specs::Fields::fields_first))]
    fn one_number(self) -> Result<Line, NoForm>
        ensures { result ≡ fields_first self.letter self.first }
    {
        if self.letter != b'f' {
            return Err(NoForm);
        }
        if self.first.minus || !self.first.digits {
            return Err(NoForm);
        }
        Ok(Line::First(self.first.value))
    }

    /// A line of two numbers: `t weight literal`, `u from to`, `l from to`.
    #[tactic(auto, unfolding(crate::specs::Fields::fields_later))]
    fn two_numbers(self) -> Result<Line, NoForm>
        ensures { result ≡ fields_later self.letter self.first self.second }
    {
        let (first, second) = (self.first, self.second);
        if first.minus || !first.digits || !second.digits {
            return Err(NoForm);
        }
        if self.letter == b't' {
            return Ok(Line::Term {
                weight: first.value,
                negated: second.minus,
                variable: second.value,
            });
        }
        if second.minus {
            return Err(NoForm);
        }
        if self.letter == b'u' {
            return Ok(Line::Upper(first.value, second.value));
        }
        if self.letter == b'l' {
            return Ok(Line::Lower(first.value, second.value));
        }
        Err(NoForm)
    }

    /// What the bytes read so far are as a whole line. Whether a number is no number any more is not looked at: one that reading
    /// made so has no digits.
    #[inline(never)]
    #[tactic(auto, unfolding(crate::specs::Fields::fields_line))]
    pub fn line(self) -> Result<Line, NoForm>
        ensures { result ≡ fields_line self }
    {
        match self.field {
            2 => self.one_number(),
            3 => self.two_numbers(),
            _ => Err(NoForm),
        }
    }
}
