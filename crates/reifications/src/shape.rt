//! The shape of a reified constraint: the checks before any is made, and the table of docs/RULES.md, Implications.
ghost use Rattle.std.specs.Prelude.{◌≡◌, ◌≤◌};
ghost use Rattle.reifications.specs.Read.{bound_of, way_of};
ghost use Rattle.reifications.specs.Shapes.{lower_shape, part_of, shape_of, sum_of, upper_shape};

use crate::{Bound, Order, Way};
use literal::{Literal, MOST_TERMS, MOST_WEIGHTS, Refusal};

/// The terms, plain or negated, and the literal or its negation added at a weight (0: not added), against a bound. Whether to negate is
/// a yes or no, as `clauses` takes it.
#[derive(Clone, Copy, Debug, PartialEq, Eq)]
pub(crate) struct Sum {
    pub order: Order,
    pub negate: bool,
    pub added: u32,
    pub negate_lit: bool,
    pub bound: u32,
}

/// The constraint that is made: none, which is no terms at least 0; the literal alone, at least 1; or a sum.
#[derive(Clone, Copy, Debug, PartialEq, Eq)]
pub(crate) enum Shape {
    Nothing,
    Unit,
    Sum(Sum),
}

/// The sum of the weights of a constraint that is not a bad one (docs/RULES.md, Replies). By place: the definition reads
/// both lists by it.
fn sum_of(lit: Literal, weights: &[u32], literals: &[i32]) -> Result<u32, Refusal>
    ensures { result ≡ sum_of lit.word weights.now literals.now }
{
    if literals.len() != weights.len() {
        return Err(Refusal::BadConstraint);
    }
    if !lit.valid() {
        return Err(Refusal::BadConstraint);
    }
    if MOST_TERMS < weights.len() {
        return Err(Refusal::BadConstraint);
    }
    let mut sum: u64 = 0;
    for (i, weight) in weights.iter().enumerate() {
        if *weight < 1 {
            return Err(Refusal::BadConstraint);
        }
        let literal = Literal { word: literals[i] };
        if !literal.valid() {
            return Err(Refusal::BadConstraint);
        }
        sum += u64::from(*weight);
    }
    if u64::from(MOST_WEIGHTS) < sum {
        return Err(Refusal::BadConstraint);
    }
    Ok(sum as u32)
}

/// The bound where it is above 0, and 0 elsewhere.
fn part_of(bound: i32) -> u32
    ensures part { result ≡ part_of bound }
    ensures small { result ≤ 2147483647 }
{
    bound.max(0) as u32
}

/// The table's column of an upper bound from 0 up.
#[tactic(auto, unfolding(crate::specs::Shapes::upper_shape))]
fn upper_shape(way: Way, bound: u32, sum: u32) -> Shape
    requires sum_bound { sum ≤ 2147483647 }
    requires bound_bound { bound ≤ 2147483647 }
    ensures { result ≡ upper_shape (way_of way) bound sum }
{
    match way {
        Way::LitImplies => Shape::Sum(Sum {
            order: Order::Upper,
            negate: false,
            added: sum,
            negate_lit: false,
            bound: bound + sum,
        }),
        Way::ImpliesLit => {
            if sum <= bound {
                return Shape::Unit;
            }
            Shape::Sum(Sum {
                order: Order::Upper,
                negate: true,
                added: sum,
                negate_lit: true,
                bound: 2 * sum - bound - 1,
            })
        }
    }
}

/// The table's column of a lower bound; one below 0 asks no more than 0.
#[tactic(auto, unfolding(crate::specs::Shapes::lower_shape))]
fn lower_shape(way: Way, bound: u32, sum: u32) -> Result<Shape, Refusal>
    requires { sum ≤ 2147483647 }
    ensures { result ≡ lower_shape (way_of way) bound sum }
{
    if sum < bound {
        return Err(Refusal::Unsat);
    }
    match way {
        Way::LitImplies => {
            if bound == 0 {
                return Ok(Shape::Nothing);
            }
            Ok(Shape::Sum(Sum {
                order: Order::Lower,
                negate: false,
                added: bound,
                negate_lit: true,
                bound,
            }))
        }
        Way::ImpliesLit => {
            if bound == 0 {
                return Ok(Shape::Unit);
            }
            let added = sum - bound + 1;
            Ok(Shape::Sum(Sum {
                order: Order::Lower,
                negate: true,
                added,
                negate_lit: false,
                bound: added,
            }))
        }
    }
}

/// The shape of a constraint that is reified, or why it has none.
pub(crate) fn shape_of(
    way: Way,
    lit: Literal,
    bound: Bound,
    weights: &[u32],
    literals: &[i32],
) -> Result<Shape, Refusal>
    ensures { result ≡ shape_of (way_of way) (bound_of bound) lit.word weights.now literals.now }
{
    let sum = sum_of(lit, weights, literals)?;
    match bound {
        Bound::Equality(_) => Err(Refusal::EqualityRefused),
        Bound::Upper(most) => {
            if most < 0 {
                return Err(Refusal::Unsat);
            }
            Ok(upper_shape(way, part_of(most), sum))
        }
        Bound::Lower(least) => lower_shape(way, part_of(least), sum),
    }
}
