//! What is known of the left side of a logical expression, in code.

ghost use Rattle.std.specs.Prelude.{◌≡◌};
ghost use Rattle.mini_terms.specs.Folds as fold;

use crate::effects::is_effect_free;
use crate::evident::evident_truth;
use crate::kinds::Kind;
use crate::known::{common, is_nullish, kind_of};
use mini_model::LogicalOperator;
use mini_node::Node;

fn is_true(truth: Option<bool>) -> bool
    ensures { result ≡ fold.is_true truth }
{
    match truth {
        Some(value) => value,
        None => false,
    }
}

fn is_false(truth: Option<bool>) -> bool
    ensures { result ≡ fold.is_false truth }
{
    match truth {
        Some(value) => !value,
        None => false,
    }
}

fn is_known(kind: Kind) -> bool
    ensures { result ≡ fold.is_known kind }
{
    !matches!(kind, Kind::Undetermined)
}

/// Whether the values of two expressions are of one Kind, as far as is known.
pub fn has_one_kind(left: &Node, right: &Node) -> bool
    ensures { result ≡ fold.has_one_kind left.now right.now }
{
    is_known(common(kind_of(left), kind_of(right)))
}

/// Whether the right side is evaluated after this left one, as far as is known.
pub fn goes_on(operator: LogicalOperator, left: &Node) -> bool
    ensures { result ≡ fold.goes_on operator left.now }
{
    match operator {
        LogicalOperator::And => is_true(evident_truth(left)),
        LogicalOperator::Or => is_false(evident_truth(left)),
        LogicalOperator::Coalesce => is_nullish(kind_of(left)),
    }
}

/// Whether the right side is never evaluated after this left one, as far as is known.
pub fn stops(operator: LogicalOperator, left: &Node) -> bool
    ensures { result ≡ fold.stops operator left.now }
{
    match operator {
        LogicalOperator::And => is_false(evident_truth(left)),
        LogicalOperator::Or => is_true(evident_truth(left)),
        LogicalOperator::Coalesce => {
            let kind = kind_of(left);
            is_known(kind) && !is_nullish(kind)
        }
    }
}

/// Whether the evaluation of an expression has no effect, wherever it stands.
pub fn has_no_effect(node: &Node) -> bool
    ensures { result ≡ fold.is_effect_free node.now }
{
    is_effect_free(node, true)
}
