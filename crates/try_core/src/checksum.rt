//! A checksum of all words of a table.
ghost use Rattle.std.specs.Prelude.{◌<◌};

use literal::Literal;

/// The checksum's modulus, a prime.
const PRIME: u64 = 4294967291;

pub fn of_numbers(numbers: &[u32]) -> u64 {
    numbers
        .iter()
        .fold(1, |sum, number| mixed(sum, u64::from(*number)))
}

pub fn of_words(words: &[i32]) -> u64 {
    words.iter().fold(1, |sum, word| mixed(sum, plain(*word)))
}

/// A checksum with one number more: below the modulus, whatever it was.
fn mixed(sum: u64, x: u64) -> u64
    ensures { result < 4294967291 }
{
    (sum % PRIME * 1000003 + x % PRIME) % PRIME
}

/// Twice the number without its sign, and 1 more where it is negative.
fn plain(word: i32) -> u64 {
    u64::from(Literal { word }.variable()) * 2 + u64::from(word < 0)
}
