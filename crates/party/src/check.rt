//! The tests of the state's own words.
ghost use Rattle.std.specs.Prelude.{◌≡◌, length};
ghost use Rattle.model.specs.Damage.{any_bad, any_bad_output, bad_output, bad_pending};
ghost use Rattle.model.specs.Machine.{pending_of};

use literal::GREATEST;

/// A pending term that is itself a bad one.
#[tactic(auto, unfolding(model::specs::Damage::bad_pending))]
fn is_bad_pending(first: u32, weight: u32, word: u32) -> bool
    ensures { result ≡ bad_pending first (record { weight = weight; word = word }) }
{
    weight == 0 || word % 4 > 1 || word / 4 == 0 || first <= word / 4
}

/// One of the pending terms is.
/// By place: the definition pairs both lists by it.
#[tactic(auto, using(crate::proofs::AnyLaws::any_bad_step, crate::proofs::AnyLaws::none_left))]
pub fn any_bad(first: u32, weights: &[u32], words: &[u32]) -> bool
    requires { length weights.now ≡ length words.now }
    ensures { result ≡ any_bad first (pending_of weights.now words.now) }
{
    for (i, word) in words.iter().enumerate() {
        if is_bad_pending(first, weights[i], *word) {
            return true;
        }
    }
    false
}

/// An output that is 1, a literal above the greatest, or a bit of a node that is not there.
#[tactic(auto, unfolding(model::specs::Damage::bad_output))]
fn is_bad_output(nodes: u32, word: u32) -> bool
    ensures { result ≡ bad_output nodes word }
{
    word == 1 || (word % 4 < 2 && GREATEST < word / 4) || (word % 4 > 1 && nodes <= word / 4)
}

/// One of the outputs is.
pub fn any_bad_output(nodes: u32, outputs: &[u32]) -> bool
    ensures { result ≡ any_bad_output nodes outputs.now }
{
    outputs.iter().any(|word| is_bad_output(nodes, *word))
}
