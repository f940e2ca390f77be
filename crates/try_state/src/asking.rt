//! What an operation is given, as it is read.
use encoder::Range;
use literal::Term;
use try_io::Numbers;

/// The weight and the literal.
pub fn term(numbers: &mut Numbers) -> Term {
    Term {
        weight: numbers.read(),
        literal: numbers.read(),
    }
}

/// From and to.
pub fn range(numbers: &mut Numbers) -> Range {
    Range {
        from: numbers.read(),
        to: numbers.read(),
    }
}
