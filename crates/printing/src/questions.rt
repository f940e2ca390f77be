//! The questions of the asked lines: each line asks for the bound of each value of its range, rising.
ghost use Rattle.std.specs.Prelude.{◌≡◌, false, IsSome, List, ℕ, suc, ◌++◌, ◌<◌};
ghost use Rattle.model.specs.Signs.{Dir};
ghost use Rattle.model.specs.Calls.{enforce_damaged};
ghost use Rattle.literal.specs.Kinds.{direction_of};
ghost use Rattle.printing.specs.Pieces.{left_at, rest_at};
ghost use Rattle.printing.specs.Asking.{bound_text, enforced_by, text_from, turns_from, word_answered, word_in};

use answers::{answer_lb, answer_ub};
use literal::{Direction, Literal};
use party::Encoder;
use plan::asked_line;

/// A bound that is asked for: an upper one (`If`) or a lower one (`OnlyIf`).
#[derive(Clone, Copy, Debug, PartialEq, Eq)]
pub struct Bound {
    pub direction: Direction,
    pub value: u64,
}

/// A place in the asked lines: a line, and how many of its questions are done.
#[derive(Clone, Copy, Debug, PartialEq, Eq)]
pub struct Question {
    pub line: usize,
    pub done: u64,
}

/// What a question asks, nothing at the end of a line; and where the asking goes on, nowhere after the last line.
#[derive(Clone, Copy, Debug, PartialEq, Eq)]
pub struct Asking {
    pub bound: Option<Bound>,
    pub next: Option<Question>,
}

impl Question {
    /// This question, with `lines` lines asked: whatever the line of a bound is, its text and what follows are what is asked from here
    /// on.
    pub fn ask(self, asked: &[u32], lines: usize) -> Asking
        ensures text { (line : Dir → ℕ → List ℕ) →
            bound_text line result.bound ++ rest_at (text_from line asked.now lines) result.next
            ≡ text_from line asked.now lines self }
        ensures falls { left_at (turns_from asked.now lines) result.next < suc (turns_from asked.now lines self) }
        ensures within { IsSome result.bound → 0 < lines }
    {
        if self.line >= lines {
            return Asking {
                bound: None,
                next: None,
            };
        }
        let asked = asked_line(asked, self.line);
        let from = u64::from(asked.from);
        let many = u64::from(asked.many);
        if self.done >= many {
            return Asking {
                bound: None,
                next: Some(Question {
                    line: self.line + 1,
                    done: 0,
                }),
            };
        }
        let value = from + self.done;
        Asking {
            bound: Some(Bound {
                direction: asked.direction,
                value,
            }),
            next: Some(Question {
                line: self.line,
                done: self.done + 1,
            }),
        }
    }
}

impl Bound {
    /// The literal that keeps the sum within the bound; none where nothing is needed, and where the bound is refused. The test of damage
    /// is the caller's.
    pub fn answer(self, encoder: &Encoder, bounds: &[u32]) -> Option<Literal>
        requires { enforce_damaged encoder.now bounds.now ≡ false }
        ensures { word_in result
            ≡ word_answered (enforced_by (direction_of self.direction) self.value encoder.now bounds.now) }
    {
        match self.direction {
            Direction::If => answer_ub(encoder, bounds, self.value).unwrap_or(None),
            Direction::OnlyIf => answer_lb(encoder, bounds, self.value).unwrap_or(None),
        }
    }
}
