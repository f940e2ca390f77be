//! The calls that have lists of their own: an implication, a reification.
use crate::hashing::hash_words;
use literal::Refusal;
use reifications::{Bound, Order, Reified, Way};
use try_imply::{Implication, say_implied};
use try_io::{Numbers, first_of, first_of_mut, say};

/// An implication: its kind, the buffer's length, the fill, and two lists; a single literal is a list of one.
pub fn implication(rt: &impl Print, numbers: &mut Numbers) {
    let kind = i64::from(numbers.read::<u32>()) + 1;
    let implication = Implication::from_number(kind);
    let mut buffer = [9; 512];
    let buffer = first_of_mut(&mut buffer, numbers.read());
    let fill = numbers.read();
    let mut room = [0; 64];
    let count = numbers.read();
    let a = numbers.list_of(count, &mut room);
    let mut room = [0; 64];
    let count = numbers.read();
    let b = numbers.list_of(count, &mut room);
    say_implied(rt, implication.imply(buffer, fill, a, b));
    say(rt, hash_words(buffer));
}

/// A reification: which way, the constraint's kind and bound, the literal, the length of the lists for the result, and the terms.
pub fn reification(rt: &impl Print, numbers: &mut Numbers) {
    let way = way_of(numbers.read());
    let kind = numbers.read();
    let bound = bound_of(kind, numbers.read());
    let lit = numbers.read();
    let room: usize = numbers.read();
    let mut weights = [0; 160];
    let weights = first_of_mut(&mut weights, room);
    let mut literals = [0; 160];
    let literals = first_of_mut(&mut literals, room);
    let count: usize = numbers.read();
    let mut term_weights = [0; 160];
    let term_weights = first_of_mut(&mut term_weights, count);
    let mut term_literals = [0; 160];
    let term_literals = first_of_mut(&mut term_literals, count);
    for (weight, literal) in term_weights.iter_mut().zip(term_literals.iter_mut()) {
        *weight = numbers.read();
        *literal = numbers.read();
    }
    let beyond = count.saturating_sub(term_weights.len());
    numbers.skip(beyond.saturating_mul(2));
    let answer = reifications::reify_lists(
        way,
        lit,
        bound,
        term_weights,
        term_literals,
        weights,
        literals,
    );
    say_reified(rt, answer, weights, literals);
}

fn way_of(kind: u32) -> Way {
    match kind {
        0 => Way::LitImplies,
        _ => Way::ImpliesLit,
    }
}

/// The script numbers from 0, that of `try_reifications` from 1; stored inputs and outputs stay, so each has its own.
fn bound_of(kind: u32, bound: i32) -> Bound {
    match kind {
        0 => Bound::Upper(bound),
        1 => Bound::Lower(bound),
        _ => Bound::Equality(bound),
    }
}

fn order_number(order: Order) -> u32 {
    match order {
        Order::Upper => 0,
        Order::Lower => 1,
    }
}

/// The answer's number, and of an accepted one the order, the bound and the terms.
fn say_reified(
    rt: &impl Print,
    answer: Result<Reified, Refusal>,
    weights: &[u32],
    literals: &[i32],
) {
    match answer {
        Ok(made) => {
            say(rt, 0);
            say(rt, order_number(made.order));
            say(rt, made.bound);
            let weights = first_of(weights, made.count);
            let literals = first_of(literals, made.count);
            for (weight, literal) in weights.iter().zip(literals) {
                say(rt, *weight);
                say(rt, *literal);
            }
        }
        Err(refusal) => say(rt, refusal.number()),
    }
}
