//! Numbers on standard output. A write that fails is let go.
use literal::Refusal;
use std::fmt::Display;

/// A number and a space.
pub fn say(rt: &impl Print, number: impl Display + Copy) {
    let _ = print!(rt; "{number} ");
}

/// Each number of a list, and a space.
pub fn say_all<T: Display + Copy>(rt: &impl Print, numbers: &[T]) {
    for number in numbers {
        say(rt, *number);
    }
}

/// The end of a line.
pub fn end(rt: &impl Print) {
    let _ = println!(rt);
}

/// A refusal's number, and the place of a bad term.
pub fn say_refusal(rt: &impl Print, refusal: Refusal) {
    say(rt, refusal.number());
    if let Refusal::BadTerm(place) = refusal {
        say(rt, place);
    }
}
