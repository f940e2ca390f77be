//! The value of a variable as callers lend tables of them: a `bool`, or a byte as C has it.
ghost use Rattle.std.specs.Prelude.{◌≡◌, Bool, List, ℕ, eqb, map, not};
ghost use Rattle.model.specs.Words.{chosen};
ghost use Rattle.clauses.specs.Values.{bools_chosen, bytes_chosen, is_set, valued};

/// A variable's value.
pub trait Value: Copy {
    /// Whether a value is true.
    ghost truth: { Self → Bool };

    /// The choice that a table of values stands for, the first value that of variable 1; a variable beyond them is false.
    ghost choice: { List Self → ℕ → Bool };

    /// Whether the variable is true.
    fn is_true(self) -> bool
        ensures { result ≡ truth self };

    /// The choice is the model's, value by value.
    ghost chosen_by_truth: { (vs : List Self) (n : ℕ) → choice vs n ≡ chosen (map truth vs) n };
}

impl Value for bool {
    ghost truth = { λ v. v };

    ghost choice = { chosen };

    ghost chosen_by_truth = { bools_chosen };

    fn is_true(self) -> bool {
        self
    }
}

/// A byte is true where it is not 0.
impl Value for u8 {
    ghost truth = { is_set };

    ghost choice = { valued };

    ghost chosen_by_truth = { bytes_chosen };

    fn is_true(self) -> bool {
        self != 0
    }
}
