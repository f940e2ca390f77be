//! An encoder's own part: the pending terms, the outputs and the counts.
mod getters;

ghost use Rattle.std.specs.Prelude.{◌≡◌, ◌+◌, ◌≤◌, ◌<◌, ◌^◌, length, map, position, sum};
ghost use Rattle.model.specs.Calls.{is_bad_term};
ghost use Rattle.party.specs.Laying.{term_of};

use crate::check::{any_bad, any_bad_output};
use crate::pending::{MOST_SUM, keeps_total, lay_all};
use crate::terms::TermList;
use literal::{GREATEST, Literal, MOST_BOUNDS, MOST_NODES, MOST_TERMS, OUTPUTS, Refusal, Term};
use std::marker::Model;

/// What goes with the buffer and the source: the fill, and where the last accepted call left the source.
#[repr(C)]
#[derive(Clone, Copy, Debug, PartialEq, Eq)]
pub struct Shared {
    pub fill: usize,
    pub left: u32,
}

/// What the start alone writes.
#[repr(C)]
#[derive(Clone, Copy, Debug, PartialEq, Eq)]
pub struct Given {
    pub first: u32,
}

/// The pending terms, weights and connection words side by side: written by adding and by a build. Arrays and a count: memory is fixed,
/// and the words alone are searched, several at once.
#[repr(C)]
#[derive(Clone, Copy, Debug)]
pub struct Terms {
    pub weights: [u32; 128],
    pub words: [u32; 128],
    pub count: usize,
}

/// The outputs, the nodes and the total built: written by a build alone. The outputs are 48 words by value, and `len` of them are in use.
#[repr(C)]
#[derive(Clone, Copy, Debug)]
pub struct Structure {
    pub outputs: [u32; 48],
    pub len: usize,
    pub nodes: u32,
    pub built: u32,
}

/// What stands in the buffer, and the numbers drawn: written by encoding, reserving and starting over.
#[repr(C)]
#[derive(Clone, Copy, Debug, PartialEq, Eq)]
pub struct Tally {
    pub clauses: usize,
    pub drawn: u32,
}

/// Clauses see the model's party. It is lent and changed in place; a copy is asked for by `clone`.
#[repr(C)]
#[derive(Clone, Copy, Debug)]
pub struct Encoder {
    given: Given,
    terms: Terms,
    structure: Structure,
    bounds: u32,
    tally: Tally,
}

impl Model for Encoder {
    ghost use Rattle.model.specs.Machine.{Party};

    ghost Value = { Party };

    ghost view = { λ e. record {
      given = record { first = e.given.first };
      terms = record { weights = e.terms.weights; words = e.terms.words; count = e.terms.count };
      structure = record { outputs = record { words = e.structure.outputs; len = e.structure.len }; nodes = e.structure.nodes; built = e.structure.built };
      bounds = e.bounds;
      tally = record { clauses = e.tally.clauses; drawn = e.tally.drawn };
    } };

    ghost inverse = { λ p. record {
      given = record { first = p.given.first };
      terms = record { weights = p.terms.weights; words = p.terms.words; count = p.terms.count };
      structure = record { outputs = p.structure.outputs.words; len = p.structure.outputs.len; nodes = p.structure.nodes; built = p.structure.built };
      bounds = p.bounds;
      tally = record { clauses = p.tally.clauses; drawn = p.tally.drawn };
    } };
}

/// What a report tells.
#[derive(Clone, Copy, Debug, PartialEq, Eq)]
pub struct Report {
    /// All weights, those built already and those pending.
    pub total: u64,
    /// The clauses in the buffer.
    pub clauses: usize,
    /// The numbers that accepted calls drew.
    pub drawn: u32,
}

/// A reply beside the encoder after the call: the encoder hands itself back after each term, refused or not.
#[derive(Clone, Copy, Debug)]
pub struct Added {
    pub reply: Result<(), Refusal>,
    pub encoder: Encoder,
}

/// The sum of some weights.
fn sum_of(weights: &[u32]) -> u64
    requires { length weights.now ≤ 128 }
    ensures sum { result ≡ sum weights.now }
    ensures bounded { result < 2 ^ 40 }
{
    weights.iter().map(|weight| u64::from(*weight)).sum()
}

impl Shared {
    ghost use Rattle.party.specs.Read.{shared_of};

    /// What goes with a new encoder: an empty buffer, and a source that stands at the first fresh number.
    pub fn new(first: u32) -> Shared
        ensures { shared_of result ≡ record { fill = 0; left = first } }
    {
        Shared {
            fill: 0,
            left: first,
        }
    }
}

impl Terms {
    ghost use Rattle.model.specs.Machine.{weighed, no_terms, pending_in};
    ghost use Rattle.party.specs.Read.{terms_of};

    /// No pending terms: all places are 0.
    fn none() -> Terms
        ensures { terms_of result ≡ no_terms }
    {
        Terms {
            weights: [0; 128],
            words: [0; 128],
            count: 0,
        }
    }

    /// These terms, with what is known of their arrays.
    fn told(&self) -> &Terms
        ensures same { result.now ≡ self.now }
        ensures widths { (length result.now.weights ≡ 128) × (length result.now.words ≡ 128) }
    {
        self
    }

    /// What the pending weights come to.
    fn weight(&self) -> u64
        ensures weight { result ≡ weighed (pending_in (terms_of self.now)) }
        ensures bounded { result < 2 ^ 40 }
        ensures widths { (length self.now.weights ≡ 128) × (length self.now.words ≡ 128) }
    {
        if self.count < MOST_TERMS {
            return sum_of(&self.weights[..self.count]);
        }
        sum_of(&self.weights)
    }
}

impl Structure {
    /// This structure, with what is known of its array.
    fn told(&self) -> &Structure
        ensures same { result.now ≡ self.now }
        ensures width { length result.now.outputs ≡ 48 }
    {
        self
    }
}

/// A weight 0, or a variable that is 0 or not below the first fresh number.
#[tactic(auto, unfolding(model::specs::Calls::is_bad_term))]
pub(crate) fn is_bad(term: Term, first: u32) -> bool
    ensures { result ≡ is_bad_term first (term_of term) }
{
    let n = Literal { word: term.literal }.variable();
    term.weight == 0 || n == 0 || first <= n
}

/// The place of the first bad term.
/// A `for` and no `find`, whose closure would have to be told that its place is one of the terms'.
fn first_bad<L: TermList>(first: u32, terms: &L) -> Option<usize>
    ensures { result ≡ position (λ t. is_bad_term first (term_of t)) (L.terms terms.now) }
{
    for i in 0..terms.count() {
        if is_bad(terms.at(i), first) {
            return Some(i);
        }
    }
    None
}

impl Encoder {
    ghost use Rattle.std.specs.Prelude.{[], ◌∷◌, IfErr};
    ghost use Rattle.std.specs.Bool.{OnFalse};
    ghost use Rattle.model.specs.Limits.{greatest, most_total};
    ghost use Rattle.model.specs.Machine.{empty_party, no_terms, total_of};
    ghost use Rattle.model.specs.Damage.{party_damaged};
    ghost use Rattle.model.specs.Calls.{start, started_over, add, report};
    ghost use Rattle.party.specs.Read.{started_of, added_of, report_of, party_of, terms_of};

    /// An encoder that holds nothing, whatever its first fresh number is: with 0, what the rules say of a refused start.
    #[tactic(auto, unfolding(model::specs::Machine::empty_party))]
    pub fn empty(first: u32) -> Encoder
        ensures { result ≡ empty_party first }
    {
        Encoder {
            given: Given { first },
            terms: Terms::none(),
            structure: Structure {
                outputs: [0; 48],
                len: 0,
                nodes: 0,
                built: 0,
            },
            bounds: 0,
            tally: Tally {
                clauses: 0,
                drawn: 0,
            },
        }
    }

    /// A new encoder, whose first fresh number is `first`.
    #[tactic(auto, unfolding(model::specs::Limits::in_range, model::specs::Calls::start))]
    pub fn start(first: u32) -> Result<Encoder, Refusal>
        ensures { started_of first result ≡ start first }
    {
        if first == 0 || GREATEST < first {
            return Err(Refusal::BadStart);
        }
        Ok(Encoder::empty(first))
    }

    /// The encoder of any parts, damaged ones too.
    pub fn from_parts(
        given: Given,
        terms: Terms,
        structure: Structure,
        bounds: u32,
        tally: Tally,
    ) -> Encoder
        ensures { result ≡ party_of given terms structure bounds tally }
    {
        Encoder {
            given,
            terms,
            structure,
            bounds,
            tally,
        }
    }

    /// A build takes the pending terms into the structure, and drops the bound records.
    pub fn finish_build(&mut self, outputs: [u32; 48], positions: usize, nodes: u32)
        requires { total_of self.old ≤ most_total }
        ensures { self.new ≡ record self.old {
          terms = no_terms;
          structure = record { outputs = record { words = outputs; len = positions }; nodes = nodes; built = total_of self.old };
          bounds = 0;
        } }
    {
        let built = self.total() as u32;
        self.terms = Terms::none();
        self.structure = Structure {
            outputs,
            len: positions,
            nodes,
            built,
        };
        self.bounds = 0;
    }

    /// Other pending terms in place of those that are held.
    pub(crate) fn replace_terms(&mut self, terms: Terms)
        ensures { self.new ≡ record self.old { terms = terms_of terms } }
    {
        self.terms = terms;
    }

    /// An encoding or a reservation leaves so many bound records, clauses and numbers drawn.
    pub fn count_work(&mut self, bounds: u32, clauses: usize, drawn: u32)
        ensures { self.new ≡ record self.old { bounds = bounds; tally = record { clauses = clauses; drawn = drawn } } }
    {
        self.bounds = bounds;
        self.tally = Tally { clauses, drawn };
    }

    /// A start over forgets the clauses, and nothing else of what is held here.
    #[tactic(auto, unfolding(model::specs::Calls::started_over))]
    pub fn start_over(&mut self)
        ensures { self.new ≡ started_over self.old }
    {
        self.tally.clauses = 0;
    }

    /// The total of all weights, those built already and those pending.
    #[tactic(auto, unfolding(model::specs::Machine::total_of, model::specs::Machine::pending))]
    pub fn total(&self) -> u64
        ensures total { result ≡ total_of self.now }
        ensures widths { (length self.now.terms.weights ≡ 128) × (length self.now.terms.words ≡ 128) }
    {
        u64::from(self.structure.built) + self.terms.weight()
    }

    /// Whether the state is damaged in itself: a count or the total above its limit, a bad pending term, a bad output.
    #[tactic(auto, using(crate::proofs::StateLaws::weighed_pending_of), unfolding(model::specs::Damage::party_damaged, model::specs::Damage::given_damaged, model::specs::Damage::terms_damaged, model::specs::Damage::structure_damaged, model::specs::Damage::tally_damaged, model::specs::Limits::in_range, model::specs::Machine::pending, model::specs::Machine::total_of))]
    pub fn is_damaged(&self) -> bool
        ensures damaged { result ≡ party_damaged self.now }
        ensures within { OnFalse result
            ((self.now.terms.count ≤ 128) × (total_of self.now ≤ most_total) × (self.now.given.first ≤ greatest)) }
        ensures widths { OnFalse result ((length self.now.terms.weights ≡ 128) × (length self.now.terms.words ≡ 128)) }
    {
        if self.given.first == 0 || GREATEST < self.given.first {
            return true;
        }
        if MOST_TERMS < self.terms.count {
            return true;
        }
        if any_bad(
            self.given.first,
            &self.terms.weights[..self.terms.count],
            &self.terms.words[..self.terms.count],
        ) {
            return true;
        }
        if MOST_SUM < self.total() {
            return true;
        }
        if OUTPUTS < self.structure.len
            || any_bad_output(self.structure.nodes, &self.structure.outputs)
        {
            return true;
        }
        MOST_NODES < self.structure.nodes as usize
            || MOST_BOUNDS < self.bounds as usize
            || GREATEST < self.tally.drawn
    }

    /// The total, the clauses in the buffer and the numbers drawn by accepted calls.
    #[tactic(auto, unfolding(model::specs::Calls::report))]
    pub fn report(&self) -> Result<Report, Refusal>
        ensures told { report_of result ≡ report self.now }
        ensures silent { IfErr result (λ why. why ≡ Refusal.Damaged) }
    {
        if self.is_damaged() {
            return Err(Refusal::Damaged);
        }
        Ok(Report {
            total: self.total(),
            clauses: self.tally.clauses,
            drawn: self.tally.drawn,
        })
    }

    /// Adds terms that lie as they may: all, or none.
    pub fn add_each<L: TermList>(&mut self, terms: &L) -> Result<(), Refusal>
        ensures { added_of result self.new ≡ add (map term_of (L.terms terms.now)) self.old }
    {
        if self.is_damaged() {
            return Err(Refusal::Damaged);
        }
        if let Some(place) = first_bad(self.given.first, terms) {
            return Err(Refusal::BadTerm(place));
        }
        let total = self.total();
        if !keeps_total(total, terms) {
            return Err(Refusal::SumTooLarge);
        }
        let count = self.terms.count;
        if terms.count() <= MOST_TERMS - count {
            let Some(used) = lay_all(&mut self.terms.weights, &mut self.terms.words, count, terms)
            else {
                return Err(Refusal::PendingFull);
            };
            self.terms.count = used;
            return Ok(());
        }
        // Not all need have room: a refusal leaves the lists, so a copy is laid.
        let mut laid = self.terms;
        let Some(used) = lay_all(&mut laid.weights, &mut laid.words, count, terms) else {
            return Err(Refusal::PendingFull);
        };
        laid.count = used;
        self.terms = laid;
        Ok(())
    }

    /// Adds terms: all, or none.
    pub fn add(&mut self, terms: &[Term]) -> Result<(), Refusal>
        ensures { added_of result self.new ≡ add (map term_of terms.now) self.old }
    {
        self.add_each(&terms)
    }

    /// Adds one term; the encoder is handed back beside the reply.
    pub fn plus(self, term: Term) -> Added
        ensures { added_of result.reply result.encoder ≡ add (term_of term ∷ []) self }
    {
        let mut encoder = self;
        let reply = encoder.add(&[term]);
        Added { reply, encoder }
    }
}
