//! Terms as callers lend them.
ghost use Rattle.std.specs.Prelude.{◌≡◌, ◌<◌, List, get_or, length};
ghost use Rattle.literal.specs.declared.Term.{Term};

use literal::Term;

/// Terms that are read by their place, however they lie: one walk serves a slice of them, and lists side by side, as C lends them.
pub trait TermList {
    /// The terms, in order.
    ghost terms: { Self → List Term };

    /// How many there are.
    fn count(&self) -> usize
        ensures { result ≡ length (terms self.now) };

    /// The term at a place.
    fn at(&self, i: usize) -> Term
        requires { i < length (terms self.now) }
        ensures { (d : Term) → result ≡ get_or (terms self.now) i d };
}

impl TermList for &[Term] {
    ghost terms = { λ ts. ts.now };

    fn count(&self) -> usize {
        self.len()
    }

    fn at(&self, i: usize) -> Term {
        self[i]
    }
}
