//! A plan beside the tables that its text is made of.
ghost use Rattle.std.specs.Prelude.{◌≡◌, false, ◌<◌};
ghost use Rattle.model.specs.Calls.{enforce_damaged};

use answers::enforce_damaged;
use plan::Plan;

/// What is printed of a plan. No line is answered where the encoder or the bound table is damaged.
/// A view of lent tables, with no more derives: a plan has no equality.
#[derive(Clone, Copy)]
pub struct Printed<'a> {
    pub(crate) plan: &'a Plan,
    pub(crate) bounds: &'a [u32],
    pub(crate) clauses: &'a [i32],
    pub(crate) asked: &'a [u32],
    /// How many asked lines are answered.
    pub(crate) lines: usize,
    pub ghost sound: { 0 < lines → enforce_damaged plan.now.encoder bounds.now ≡ false },
}

impl<'a> Printed<'a> {
    ghost use Rattle.printing.specs.Rest.{printed_in};
    ghost use Rattle.printing.specs.Printed.{printed_of};

    /// The damage is tested here, once for a piece.
    #[tactic(auto, unfolding(crate::specs::Asking::answered))]
    pub fn new(plan: &'a Plan, bounds: &'a [u32], clauses: &'a [i32], asked: &'a [u32]) -> Self
        ensures { printed_of result ≡ printed_in plan.now bounds.now clauses.now asked.now }
    {
        let lines = if enforce_damaged(&plan.encoder, bounds) {
            0
        } else {
            plan.asked
        };
        Printed {
            plan,
            bounds,
            clauses,
            asked,
            lines,
        }
    }
}
