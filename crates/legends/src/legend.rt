//! A plan beside the tables that its legend is made of.
ghost use Rattle.std.specs.Prelude.{◌≡◌, false, [], ◌<◌};
ghost use Rattle.model.specs.Damage.{tables_damaged};
ghost use Rattle.model.specs.Calls.{enforce_damaged};
ghost use Rattle.party.specs.Read.{machine_of};

use answers::enforce_damaged;
use damage::tables_damaged;
use literal::Term;
use plan::Plan;

/// What a legend is written from.
/// A view of lent tables, with no more derives: a plan has no equality.
#[derive(Clone, Copy)]
pub struct Legend<'a> {
    pub(crate) plan: &'a Plan,
    pub(crate) nodes: &'a [u32],
    pub(crate) bounds: &'a [u32],
    pub(crate) asked: &'a [u32],
    pub(crate) terms: &'a [Term],
    /// How many terms there were; those past the list are counted alone.
    pub(crate) count: u64,
    /// The bit position of each node.
    pub(crate) bits: &'a [u32],
    /// Whether the encoder or a table is damaged: then no number is explained. A bool, with no value beside it: the ghost fact below
    /// says what it is.
    pub(crate) damaged: bool,
    /// How many asked lines are answered: none where the encoder or the bound table is damaged.
    pub(crate) lines: usize,
    pub ghost tested: { damaged
        ≡ tables_damaged (machine_of plan.now.encoder plan.now.shared plan.now.source nodes.now bounds.now []) },
    pub ghost sound: { 0 < lines → enforce_damaged plan.now.encoder bounds.now ≡ false },
}

impl<'a> Legend<'a> {
    ghost use Rattle.legends.specs.Rest.{legend_in};
    ghost use Rattle.legends.specs.Legend.{legend_of};

    /// The damage is tested here, once for a piece.
    #[tactic(auto, unfolding(printing::specs::Asking::answered))]
    pub fn new(
        plan: &'a Plan,
        nodes: &'a [u32],
        bounds: &'a [u32],
        asked: &'a [u32],
        terms: &'a [Term],
        count: u64,
        bits: &'a [u32],
    ) -> Self
        ensures { legend_of result ≡ legend_in plan.now nodes.now bounds.now asked.now terms.now count bits.now }
    {
        let damaged = tables_damaged(&plan.encoder, nodes, bounds);
        let lines = if enforce_damaged(&plan.encoder, bounds) {
            0
        } else {
            plan.asked
        };
        Legend {
            plan,
            nodes,
            bounds,
            asked,
            terms,
            count,
            bits,
            damaged,
            lines,
        }
    }
}
