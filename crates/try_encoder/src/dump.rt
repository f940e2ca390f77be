//! Every word, at a history's end.
use literal::Literal;
use source::Source;
use std::fmt::Display;
use try_io::{end, first_of, say, say_all};
use try_state::State;

/// Six lines: the numbers, the pending terms, the outputs, both tables and the buffer.
pub fn say_everything(
    rt: &impl Print,
    state: &State,
    source: &Source,
    nodes: &[u32],
    bounds: &[u32],
    clauses: &[i32],
) {
    let encoder = &state.encoder;
    state.say_numbers(rt);
    say(rt, source.next());
    end(rt);
    let terms = encoder.terms();
    say_all(rt, first_of(&terms.weights, terms.count));
    say_all(rt, first_of(&terms.words, terms.count));
    say(rt, sum_of(&terms.weights));
    say(rt, sum_of(&terms.words));
    end(rt);
    say_all(rt, &encoder.structure().outputs);
    end(rt);
    say_table(rt, nodes, 8 * encoder.nodes() as usize, sum_of(nodes));
    say_table(rt, bounds, 3 * encoder.bounds() as usize, sum_of(bounds));
    say_table(rt, clauses, state.shared.fill, sum_of_words(clauses));
}

/// The words in use, at most 400, and a sum over all.
fn say_table<T: Display + Copy>(rt: &impl Print, table: &[T], used: usize, sum: u64) {
    say_all(rt, first_of(table, used.min(400)));
    say(rt, sum);
    end(rt);
}

/// A sum in which each word and its place counts.
fn sum_of(words: &[u32]) -> u64 {
    words.iter().fold(0, |sum, word| more(sum, *word))
}

/// The same over the connection words of literals, 0 for what is none.
fn sum_of_words(words: &[i32]) -> u64 {
    words.iter().fold(
        0,
        |sum, word| more(sum, Literal { word: *word }.connection()),
    )
}

fn more(sum: u64, word: u32) -> u64 {
    sum % 1000003 * 1009 + u64::from(word)
}
