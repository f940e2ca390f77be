//! Why a call is refused: the replies beside "accepted", by name and by number.
ghost use Rattle.std.specs.Prelude.{◌≡◌};
ghost use Rattle.model.specs.Replies.{number};
ghost use Rattle.literal.specs.Kinds.{refused, replied};

/// Why a call is refused. Nothing has changed then.
#[derive(Clone, Copy, Debug, PartialEq, Eq)]
pub enum Refusal {
    /// The place of the first bad term, from 0.
    BadTerm(usize),
    SumTooLarge,
    PendingFull,
    NotEncoded,
    Unsat,
    EqualityRefused,
    TooManyBounds,
    TooWide,
    NoNodes,
    NoVariables,
    NoRoom,
    Damaged,
    BadStart,
    BadConstraint,
}

impl Refusal {
    /// The reply's number.
    #[tactic(auto, unfolding(model::specs::Replies::number))]
    pub fn number(self) -> u32
        ensures { result ≡ number (refused self) }
    {
        match self {
            Refusal::BadTerm(_) => 1,
            Refusal::SumTooLarge => 2,
            Refusal::PendingFull => 3,
            Refusal::NotEncoded => 4,
            Refusal::Unsat => 5,
            Refusal::EqualityRefused => 6,
            Refusal::TooManyBounds => 7,
            Refusal::TooWide => 8,
            Refusal::NoNodes => 9,
            Refusal::NoVariables => 10,
            Refusal::NoRoom => 11,
            Refusal::Damaged => 12,
            Refusal::BadStart => 13,
            Refusal::BadConstraint => 14,
        }
    }
}

/// The number of a call's reply: 0 where it is accepted.
#[tactic(auto, unfolding(model::specs::Replies::number))]
pub fn reply_number<T>(reply: &Result<T, Refusal>) -> u32
    ensures { result ≡ number (replied reply.now) }
{
    match reply {
        Ok(_) => 0,
        Err(refusal) => refusal.number(),
    }
}
