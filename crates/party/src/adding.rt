//! Terms that come one by one and are added as one list: a run begins at an encoder, takes a term a step, and ends with the answer to the
//! whole list, which nobody need hold. Any run is read, also one that no steps led to; `step_on` alone asks for something, that its lists
//! have 128 places.
ghost use Rattle.std.specs.Prelude.{◌≡◌, ℕ, length};
ghost use Rattle.party.specs.Adding.{held, laid, step_of};

use crate::encoder::{Encoder, Terms, is_bad};
use crate::pending::{MOST_SUM, place_of};
use literal::{Literal, MOST_TERMS, MOST_TOTAL, Refusal, Term};

/// What a run of additions holds: the pending terms by now, in two arrays side by side, and how many there are; the first fresh number;
/// the total by now, which stays where it passed its limit; whether a term was bad, and the place of the first; whether a literal had no
/// room. Flags beside numbers, and no enum of what a run came to: any of their values is answered.
#[derive(Clone, Copy, Debug)]
pub struct Adding {
    pub weights: [u32; 128],
    pub words: [u32; 128],
    pub count: usize,
    pub first: u32,
    pub sum: u64,
    pub bad: bool,
    pub place: usize,
    pub full: bool,
}

/// What a run holds beside its two arrays and the first fresh number.
#[derive(Clone, Copy, Debug, PartialEq, Eq)]
pub struct Counts {
    pub count: usize,
    pub sum: u64,
    pub bad: bool,
    pub place: usize,
    pub full: bool,
}

/// A term that is not bad, laid where its literal is pending already, or behind the last; the total is raised already. Nothing is asked of
/// what stands in the lists: a weight that would pass its limit is left.
#[tactic(auto, unfolding(crate::specs::Adding::laid))]
fn lay_on(weights: &mut [u32], words: &mut [u32], counts: Counts, weight: u32, word: u32) -> Counts
    requires { (length weights.old ≡ 128) × (length words.old ≡ 128) }
    ensures { (F : ℕ) → held F weights.new words.new result ≡ laid (held F weights.old words.old counts) weight word counts.sum }
{
    if counts.full {
        return counts;
    }
    let used = counts.count.min(MOST_TERMS);
    match place_of(&words[..used], word) {
        Some(k) => {
            let known = weights[k];
            if MOST_TOTAL - known < weight {
                return counts;
            }
            weights[k] = known + weight;
            counts
        }
        None => {
            if used == MOST_TERMS {
                return Counts {
                    full: true,
                    ..counts
                };
            }
            weights[used] = weight;
            words[used] = word;
            Counts {
                count: used + 1,
                ..counts
            }
        }
    }
}

/// One term, which stands at a place of the list, in a run whose lists are lent, so that none is copied. The first bad term ends the work,
/// and a total that passed its limit stays.
pub fn step_on(
    weights: &mut [u32],
    words: &mut [u32],
    first: u32,
    counts: Counts,
    term: Term,
    place: usize,
) -> Counts
    requires { (length weights.old ≡ 128) × (length words.old ≡ 128) }
    ensures { held first weights.new words.new result ≡ step_of (held first weights.old words.old counts) term place }
{
    if counts.bad {
        return counts;
    }
    if is_bad(term, first) {
        return Counts {
            bad: true,
            place,
            ..counts
        };
    }
    if counts.sum > MOST_SUM {
        return counts;
    }
    let raised = Counts {
        sum: counts.sum + u64::from(term.weight),
        ..counts
    };
    if raised.sum > MOST_SUM {
        return raised;
    }
    let word = Literal { word: term.literal }.connection();
    lay_on(weights, words, raised, term.weight, word)
}

impl Adding {
    ghost use Rattle.std.specs.Prelude.{List, map};
    ghost use Rattle.model.specs.Calls.{add};
    ghost use Rattle.literal.specs.declared.Term.{Term};
    ghost use Rattle.party.specs.Adding.{begin_of, step_all};
    ghost use Rattle.party.specs.Laying.{term_of};
    ghost use Rattle.party.specs.Read.{added_of};

    /// A run that has added nothing yet, begun at an encoder, which may be damaged.
    #[tactic(auto, unfolding(crate::specs::Adding::begin_of))]
    pub fn begin(encoder: &Encoder) -> Adding
        ensures { result ≡ begin_of encoder.now }
    {
        let terms = encoder.terms();
        let weights = terms.weights;
        let words = terms.words;
        Adding {
            weights,
            words,
            count: terms.count,
            first: encoder.first(),
            sum: encoder.total(),
            bad: false,
            place: 0,
            full: false,
        }
    }

    /// One term more, which stands at a place of the list.
    pub fn step(&mut self, term: Term, place: usize)
        ensures { self.new ≡ step_of self.old term place }
    {
        let counts = Counts {
            count: self.count,
            sum: self.sum,
            bad: self.bad,
            place: self.place,
            full: self.full,
        };
        let counts = step_on(
            &mut self.weights,
            &mut self.words,
            self.first,
            counts,
            term,
            place,
        );
        self.count = counts.count;
        self.sum = counts.sum;
        self.bad = counts.bad;
        self.place = counts.place;
        self.full = counts.full;
    }

    /// The answer to the terms that were stepped over, their places counted from 0, since the run began at this encoder: it takes all of
    /// them, or stays as it was. The refusals come in their order: a damaged encoder, the first bad term's place, a total above its limit,
    /// a literal without room. Nothing is said of another run.
    pub fn finish(self, encoder: &mut Encoder) -> Result<(), Refusal>
        ensures { (ts : List Term) → self ≡ step_all (begin_of encoder.old) ts 0 → added_of result encoder.new ≡ add (map term_of ts) encoder.old }
    {
        if encoder.is_damaged() {
            return Err(Refusal::Damaged);
        }
        if self.bad {
            return Err(Refusal::BadTerm(self.place));
        }
        if self.sum > MOST_SUM {
            return Err(Refusal::SumTooLarge);
        }
        if self.full {
            return Err(Refusal::PendingFull);
        }
        let weights = self.weights;
        let words = self.words;
        let count = self.count;
        encoder.replace_terms(Terms {
            weights,
            words,
            count,
        });
        Ok(())
    }
}
