//! A number that is read, in the type that a program wants.
ghost use Rattle.std.specs.Prelude.{◌≡◌, ℤ, pos, not, cond};
ghost use Rattle.std.specs.Ordering.{int_eq};
ghost use Rattle.literal.specs.declared.kind.Direction.TheVariants.{If, OnlyIf};
ghost use Rattle.std.specs.Int.{cast_unsigned, w64};
ghost use Rattle.try_io.specs.Narrow.{clamped, nearest_word};

use literal::{Direction, Literal};

/// A type that a number can be read as.
pub trait FromNumber {
    /// What a number stands for.
    ghost value_of: { ℤ → Self };

    /// The value of a number.
    fn from_number(number: i64) -> Self
        ensures { result ≡ value_of number };
}

/// The nearest number of the type.
impl FromNumber for i32 {
    ghost value_of = { nearest_word };

    fn from_number(number: i64) -> i32 {
        as_i32(number)
    }
}

/// The nearest number of the type.
impl FromNumber for u32 {
    ghost value_of = { λ n. clamped n 4294967295 };

    fn from_number(number: i64) -> u32 {
        as_u32(number)
    }
}

/// A number of 64 bits: -k stands for 2^64 - k.
impl FromNumber for u64 {
    ghost value_of = { cast_unsigned w64 };

    fn from_number(number: i64) -> u64 {
        number.cast_unsigned()
    }
}

/// The same.
impl FromNumber for usize {
    ghost value_of = { cast_unsigned w64 };

    fn from_number(number: i64) -> usize {
        number.cast_unsigned() as usize
    }
}

impl FromNumber for i64 {
    ghost value_of = { λ n. n };

    fn from_number(number: i64) -> i64 {
        number
    }
}

/// 0 is false.
impl FromNumber for bool {
    ghost value_of = { λ n. not (int_eq n (pos 0)) };

    fn from_number(number: i64) -> bool {
        number != 0
    }
}

/// The nearest word.
impl FromNumber for Literal {
    ghost value_of = { λ n. record { word = nearest_word n } };

    fn from_number(number: i64) -> Literal {
        Literal {
            word: as_i32(number),
        }
    }
}

/// 0 is "if".
impl FromNumber for Direction {
    ghost value_of = { λ n. cond (int_eq n (pos 0)) If OnlyIf };

    fn from_number(number: i64) -> Direction {
        if number == 0 {
            Direction::If
        } else {
            Direction::OnlyIf
        }
    }
}

/// The nearest number of 32 signed bits.
pub fn as_i32(x: i64) -> i32
    ensures { result ≡ nearest_word x }
{
    x.clamp(i32::MIN as i64, i32::MAX as i64) as i32
}

/// The nearest number of 32 unsigned bits.
pub fn as_u32(x: i64) -> u32
    ensures { result ≡ clamped x 4294967295 }
{
    x.clamp(0, 4294967295) as u32
}

/// The nearest number of 64 unsigned bits.
pub fn as_usize(x: i64) -> usize
    ensures { result ≡ clamped x 18446744073709551615 }
{
    x.max(0) as usize
}
