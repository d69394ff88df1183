//! The rewrites of spellings as one rule.

ghost use Rattle.std.specs.Prelude.{◌≡◌, is_some, unwrap_or, OnOk, IfOk};
ghost use Rattle.mini_tree.specs.Rule.{Applied};
ghost use Rattle.mini_syntax.specs.Lighter.{spellings_lighter};
ghost use Rattle.mini_syntax.specs.Spelled.{assignment_written, equality_written, binary_written, written, Gives, Rests};

use crate::rewrites::convert_to_dotted_properties::convert_to_dotted_properties;
use crate::rewrites::minimize_assignment_to_update_expression::minimize_assignment_to_update_expression;
use crate::rewrites::substitute_boolean::substitute_boolean;
use crate::rewrites::substitute_loose_equals_undefined::substitute_loose_equals_undefined;
use crate::rewrites::substitute_swap_binary_expressions::substitute_swap_binary_expressions;
use crate::rewrites::substitute_template_literal::substitute_template_literal;
use crate::rewrites::substitute_typeof_undefined::substitute_typeof_undefined;
use crate::rewrites::substitute_yield_expression::substitute_yield_expression;
use mini_model::{OutOfMemory, Position, Shape};
use mini_node::Node;
use mini_tree::{Context, Rule};
use std::alloc::Global;

fn substitute_assignment(alloc: Global, node: &mut Node) -> Result<bool, OutOfMemory>
    ensures tree { OnOk result (node.new ≡ unwrap_or (assignment_written node.old) node.old) }
    ensures said { IfOk result (λ changed. changed ≡ is_some (assignment_written node.old)) }
{
    if minimize_assignment_to_update_expression(alloc, node)? {
        return Ok(true);
    }
    convert_to_dotted_properties(alloc, node)
}

fn substitute_equality(alloc: Global, node: &mut Node) -> Result<bool, OutOfMemory>
    ensures tree { OnOk result (node.new ≡ unwrap_or (equality_written node.old) node.old) }
    ensures said { IfOk result (λ changed. changed ≡ is_some (equality_written node.old)) }
{
    if substitute_loose_equals_undefined(alloc, node)? {
        return Ok(true);
    }
    substitute_swap_binary_expressions(alloc, node)
}

fn substitute_binary(alloc: Global, node: &mut Node) -> Result<bool, OutOfMemory>
    ensures tree { OnOk result (node.new ≡ unwrap_or (binary_written node.old) node.old) }
    ensures said { IfOk result (λ changed. changed ≡ is_some (binary_written node.old)) }
{
    if substitute_typeof_undefined(alloc, node)? {
        return Ok(true);
    }
    substitute_equality(alloc, node)
}

// What a row says of the expression, if one reads it.
fn substitute_spelling(alloc: Global, node: &mut Node) -> Result<bool, OutOfMemory>
    ensures tree { OnOk result (node.new ≡ unwrap_or (written node.old) node.old) }
    ensures said { IfOk result (λ changed. changed ≡ is_some (written node.old)) }
{
    match node.shape() {
        Shape::BooleanLiteral(_) => substitute_boolean(alloc, node),
        Shape::ComputedMemberExpression(_) | Shape::UpdateExpression(_, _) => {
            convert_to_dotted_properties(alloc, node)
        }
        Shape::AssignmentExpression(_) => substitute_assignment(alloc, node),
        Shape::BinaryExpression(_) => substitute_binary(alloc, node),
        Shape::YieldExpression(_) => substitute_yield_expression(alloc, node),
        Shape::TemplateLiteral => substitute_template_literal(alloc, node),
        _ => Ok(false),
    }
}

/// The rows of spellings as a rule: of each expression.
pub struct SubstituteSpellings;

impl<C: Context> Rule<C> for SubstituteSpellings {
    ghost gives = { λ o q. Gives };

    ghost rests = { λ o q. Rests };

    ghost lighter = { λ o q. spellings_lighter };

    #[tactic(auto, using(crate::proofs::Applying::applied))]
    fn apply(
        &self,
        alloc: Global,
        node: &mut Node,
        place: Position,
        context: &mut C,
    ) -> Result<bool, OutOfMemory> {
        match place {
            Position::Expr(_) => Ok(substitute_spelling(alloc, node)?),
            _ => Ok(false),
        }
    }
}
