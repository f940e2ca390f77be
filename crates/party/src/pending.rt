//! The pending terms, in two arrays side by side: weights and connection words, each with 128 places, of which `count` are in use. Memory
//! is fixed; and the words stand alone, so that several are compared at once.
ghost use Rattle.std.specs.Prelude.{◌≡◌, ◌≢◌, ℕ, ◌+◌, ◌<◌, ◌≤◌, ◌^◌, IfNone, IfSome, leb, length, slice_index, take};
ghost use Rattle.model.specs.Limits.{most_total};
ghost use Rattle.model.specs.Machine.{add_to, pending_of, weighed};
ghost use Rattle.party.specs.Laying.{added_each, IsLaid, total_weight};

use crate::terms::TermList;
use literal::{Literal, MOST_TERMS};

/// The greatest total of all weights, in the width in which they are summed.
pub const MOST_SUM: u64 = 4_294_967_295;

/// The place of the first word that equals one. Every word is looked at, with no way out of the loop, so that several are compared at
/// once.
pub fn place_of(words: &[u32], word: u32) -> Option<usize>
    requires { length words.now ≤ 128 }
    ensures found { IfSome result (λ k. (k < length words.now) × (slice_index words.now k ≡ word)) }
    ensures first { IfSome result (λ k. (j : ℕ) → j < k → slice_index words.now j ≢ word) }
    ensures none { IfNone result ((j : ℕ) → j < length words.now → slice_index words.now j ≢ word) }
{
    let none = words.len() as u32;
    let mut place = none;
    for (i, known) in words.iter().enumerate() {
        let here = if *known == word { i as u32 } else { none };
        place = place.min(here);
    }
    if place < none {
        Some(place as usize)
    } else {
        None
    }
}

/// A weight on a word is added to the weight that stands there, or comes behind the last; none where that has no room.
/// Weights, words and count are lent one by one: the words alone are searched.
fn lay(
    weights: &mut [u32],
    words: &mut [u32],
    count: usize,
    weight: u32,
    word: u32,
) -> Option<usize>
    requires widths { (length weights.old ≡ 128) × (length words.old ≡ 128) × (count ≤ 128) }
    requires fits { weighed (pending_of (take count weights.old) (take count words.old)) + weight < 2 ^ 32 }
    ensures laid { IfSome result (λ used. IsLaid weights.old words.old weights.new words.new used
        (add_to (record { weight = weight; word = word }) (pending_of (take count weights.old) (take count words.old)))) }
    ensures within { IfSome result (λ used. used ≤ 128) }
    ensures full { IfNone result
        (128 < length (add_to (record { weight = weight; word = word }) (pending_of (take count weights.old) (take count words.old)))) }
{
    match place_of(&words[..count], word) {
        Some(k) => {
            let raised = weights[k] + weight;
            weights[k] = raised;
            Some(count)
        }
        None => {
            if count == MOST_TERMS {
                return None;
            }
            weights[count] = weight;
            words[count] = word;
            Some(count + 1)
        }
    }
}

/// Whether the terms' weights keep a total within its limit.
pub fn keeps_total<L: TermList>(total: u64, terms: &L) -> bool
    requires { total ≤ most_total }
    ensures { result ≡ leb (total + total_weight (L.terms terms.now)) most_total }
{
    let mut sum = total;
    for i in 0..terms.count() {
        sum += u64::from(terms.at(i).weight);
        if sum > MOST_SUM {
            return false;
        }
    }
    true
}

/// Term after term, while each literal has room: none where one has not, and the lists then hold some of the terms.
pub fn lay_all<L: TermList>(
    weights: &mut [u32],
    words: &mut [u32],
    count: usize,
    terms: &L,
) -> Option<usize>
    requires widths { (length weights.old ≡ 128) × (length words.old ≡ 128) × (count ≤ 128) }
    requires fits { weighed (pending_of (take count weights.old) (take count words.old)) + total_weight (L.terms terms.now) < 2 ^ 32 }
    ensures laid { IfSome result (λ used. IsLaid weights.old words.old weights.new words.new used
        (added_each (L.terms terms.now) (pending_of (take count weights.old) (take count words.old)))) }
    ensures within { IfSome result (λ used. used ≤ 128) }
    ensures full { IfNone result
        (128 < length (added_each (L.terms terms.now) (pending_of (take count weights.old) (take count words.old)))) }
{
    let mut used = count;
    for i in 0..terms.count() {
        let term = terms.at(i);
        let word = Literal { word: term.literal }.connection();
        used = lay(weights, words, used, term.weight, word)?;
    }
    Some(used)
}
