//! Numbers, a byte at a time.
ghost use Rattle.std.specs.Prelude.{◌≡◌, ◌≤◌, IfSome};
ghost use Rattle.text.specs.Scans.{byte_of, digit_after, digits_after, plain_of};

use literal::MOST_TOTAL;

/// A number as far as it was read.
/// Sign and digits stay apart: `-0` is read too, and variables of 32 bits, which no `Literal` holds.
#[derive(Clone, Copy, Debug, PartialEq, Eq)]
pub enum Number {
    /// Nothing was read.
    Empty,
    /// A minus alone.
    Minus,
    Digits { negative: bool, value: u32 },
    /// No number any more.
    Bad,
}

/// The value with one digit more; none where the byte is no digit, or the value would pass the limit.
#[tactic(auto, unfolding(crate::specs::Scans::digit_after, model::specs::Text::is_digit))]
pub fn digit_after(limit: u64, value: u64, byte: u8) -> Option<u64>
    ensures value { result ≡ digit_after limit value byte }
    ensures within { IfSome result (λ more. more ≤ limit) }
{
    if byte < b'0' {
        return None;
    }
    if b'9' < byte {
        return None;
    }
    let digit = u64::from(byte - b'0');
    if limit / 10 < value {
        return None;
    }
    if limit - value * 10 < digit {
        return None;
    }
    Some(value * 10 + digit)
}

/// One digit more of a number up to the greatest total.
#[tactic(auto, unfolding(crate::specs::Scans::digits_after))]
fn digits_after(negative: bool, value: u32, byte: u8) -> Number
    ensures { result ≡ digits_after negative value byte }
{
    match digit_after(u64::from(MOST_TOTAL), u64::from(value), byte) {
        Some(more) => Number::Digits {
            negative,
            value: more as u32,
        },
        None => Number::Bad,
    }
}

impl Number {
    /// One byte more: a minus stands only before the digits.
    #[tactic(auto, unfolding(crate::specs::Scans::byte_of))]
    pub fn with_byte(self, byte: u8) -> Self
        ensures { result ≡ byte_of self byte }
    {
        match self {
            Number::Empty => {
                if byte == b'-' {
                    return Number::Minus;
                }
                digits_after(false, 0, byte)
            }
            Number::Minus => digits_after(true, 0, byte),
            Number::Digits { negative, value } => digits_after(negative, value, byte),
            Number::Bad => Number::Bad,
        }
    }

    /// The value of a number that has no minus.
    pub fn plain(self) -> Option<u32>
        ensures { result ≡ plain_of self }
    {
        match self {
            Number::Empty => None,
            Number::Minus => None,
            Number::Digits { negative, value } => {
                if negative {
                    return None;
                }
                Some(value)
            }
            Number::Bad => None,
        }
    }
}
