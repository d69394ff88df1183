//! The rewrites of conditionals, logical expressions and assignments as one rule.

ghost use Rattle.std.specs.Prelude.{◌≡◌, is_some, unwrap_or, OnOk, IfOk};
ghost use Rattle.mini_tree.specs.Rule.{Applied};
ghost use Rattle.mini_choices.specs.Choices.{first_of, decided_in, decided_last_in, chains_in, branches_in, operands_written, written, Gives, Rests};
ghost use Rattle.mini_choices.specs.Lighter.{choices_lighter};
ghost use Rattle.mini_choices.specs.EvaluateBothSides as both;
ghost use Rattle.mini_choices.specs.MinimizeHeldBranches as held;
ghost use Rattle.mini_choices.specs.MinimizeNullishComparison as nullish;
ghost use Rattle.mini_choices.specs.MinimizeObjectTest as object_test;
ghost use Rattle.mini_choices.specs.SubstituteRotateLogicalExpression as rotate;

use crate::editions::{COALESCING, DECIDING};
use crate::rewrites::evaluate_both_sides::evaluate_both_sides;
use crate::rewrites::fold_chain_expr::fold_chain_expr;
use crate::rewrites::inject_optional_chaining::inject_optional_chaining;
use crate::rewrites::minimize_conditional_branches::{
    minimize_conditional_branches, minimize_older_branches,
};
use crate::rewrites::minimize_first_part::minimize_first_part;
use crate::rewrites::minimize_held_branches::minimize_held_branches;
use crate::rewrites::minimize_logical_expression::minimize_logical_expression;
use crate::rewrites::minimize_logical_sequence::minimize_logical_sequence;
use crate::rewrites::minimize_normal_assignment_to_combined_assignment::minimize_normal_assignment_to_combined_assignment;
use crate::rewrites::minimize_nullish_comparison::minimize_nullish_comparison;
use crate::rewrites::minimize_object_test::minimize_object_test;
use crate::rewrites::substitute_rotate_logical_expression::substitute_rotate_logical_expression;
use mini_model::{OutOfMemory, Position, Seat, Shape};
use mini_node::Node;
use mini_tree::{Context, Rule};
use std::alloc::Global;

// `x || (x = b)` becomes `x ||= b`, where the edition has that.
fn decide(alloc: Global, node: &mut Node, edition: u16) -> Result<bool, OutOfMemory>
    ensures tree { OnOk result (node.new ≡ unwrap_or (decided_in edition node.old) node.old) }
    ensures said { IfOk result (λ changed. changed ≡ is_some (decided_in edition node.old)) }
{
    if DECIDING <= edition {
        minimize_logical_expression(alloc, node)
    } else {
        Ok(false)
    }
}

// `x || (a, x = b)` becomes `x ||= (a, b)`, where the edition has that.
fn decide_last(
    alloc: Global,
    node: &mut Node,
    seat: Seat,
    edition: u16,
) -> Result<bool, OutOfMemory>
    ensures tree { OnOk result (node.new ≡ unwrap_or (decided_last_in edition seat node.old) node.old) }
    ensures said { IfOk result (λ changed. changed ≡ is_some (decided_last_in edition seat node.old)) }
{
    if DECIDING <= edition {
        minimize_logical_sequence(alloc, node, seat)
    } else {
        Ok(false)
    }
}

// `x == null ? void 0 : x.m` becomes `x?.m`, where the edition has that.
fn inject_chaining(
    alloc: Global,
    node: &mut Node,
    seat: Seat,
    edition: u16,
) -> Result<bool, OutOfMemory>
    ensures tree { OnOk result (node.new ≡ unwrap_or (chains_in edition seat node.old) node.old) }
    ensures said { IfOk result (λ changed. changed ≡ is_some (chains_in edition seat node.old)) }
{
    if COALESCING <= edition {
        inject_optional_chaining(alloc, node, seat)
    } else {
        Ok(false)
    }
}

// What both branches have in common is written once, and `x == null ? b : x` becomes `x ?? b`,
// where the edition has that.
fn join_branches(
    alloc: Global,
    node: &mut Node,
    seat: Seat,
    edition: u16,
) -> Result<bool, OutOfMemory>
    ensures tree { OnOk result (node.new ≡ unwrap_or (branches_in edition seat node.old) node.old) }
    ensures said { IfOk result (λ changed. changed ≡ is_some (branches_in edition seat node.old)) }
{
    if COALESCING <= edition {
        minimize_conditional_branches(alloc, node, seat)
    } else {
        minimize_older_branches(alloc, node, seat)
    }
}

// Of two comparisons.
fn minimize_comparisons(alloc: Global, node: &mut Node) -> Result<bool, OutOfMemory>
    ensures tree { OnOk result (node.new ≡ unwrap_or (first_of (nullish.written node.old) (object_test.written node.old)) node.old) }
    ensures said { IfOk result (λ changed. changed ≡ is_some (first_of (nullish.written node.old) (object_test.written node.old))) }
{
    if minimize_nullish_comparison(alloc, node)? {
        return Ok(true);
    }
    minimize_object_test(alloc, node)
}

// Of a logical expression whose operands stand from the left.
fn minimize_operands(alloc: Global, node: &mut Node, edition: u16) -> Result<bool, OutOfMemory>
    ensures tree { OnOk result (node.new ≡ unwrap_or (first_of (decided_in edition node.old) (first_of (nullish.written node.old) (object_test.written node.old))) node.old) }
    ensures said { IfOk result (λ changed. changed ≡ is_some (first_of (decided_in edition node.old) (first_of (nullish.written node.old) (object_test.written node.old)))) }
{
    if decide(alloc, node, edition)? {
        return Ok(true);
    }
    minimize_comparisons(alloc, node)
}

// Of a logical expression wherever it stands.
fn minimize_logical(alloc: Global, node: &mut Node, edition: u16) -> Result<bool, OutOfMemory>
    ensures tree { OnOk result (node.new ≡ unwrap_or (first_of (rotate.written node.old) (first_of (decided_in edition node.old) (first_of (nullish.written node.old) (object_test.written node.old)))) node.old) }
    ensures said { IfOk result (λ changed. changed ≡ is_some (first_of (rotate.written node.old) (first_of (decided_in edition node.old) (first_of (nullish.written node.old) (object_test.written node.old))))) }
{
    if substitute_rotate_logical_expression(alloc, node)? {
        return Ok(true);
    }
    minimize_operands(alloc, node, edition)
}

// Of a logical expression whose last assignment is decided on.
fn minimize_last(
    alloc: Global,
    node: &mut Node,
    seat: Seat,
    edition: u16,
) -> Result<bool, OutOfMemory>
    ensures tree { OnOk result (node.new ≡ unwrap_or (first_of (decided_last_in edition seat node.old) (operands_written edition node.old)) node.old) }
    ensures said { IfOk result (λ changed. changed ≡ is_some (first_of (decided_last_in edition seat node.old) (operands_written edition node.old))) }
{
    if decide_last(alloc, node, seat, edition)? {
        return Ok(true);
    }
    minimize_logical(alloc, node, edition)
}

// Of a logical expression in its seat.
fn minimize_sides(
    alloc: Global,
    node: &mut Node,
    seat: Seat,
    edition: u16,
) -> Result<bool, OutOfMemory>
    ensures tree { OnOk result (node.new ≡ unwrap_or (first_of (both.written seat node.old) (first_of (decided_last_in edition seat node.old) (operands_written edition node.old))) node.old) }
    ensures said { IfOk result (λ changed. changed ≡ is_some (first_of (both.written seat node.old) (first_of (decided_last_in edition seat node.old) (operands_written edition node.old)))) }
{
    if evaluate_both_sides(alloc, node, seat)? {
        return Ok(true);
    }
    minimize_last(alloc, node, seat, edition)
}

// Of the branches of a conditional.
fn minimize_branches(
    alloc: Global,
    node: &mut Node,
    seat: Seat,
    edition: u16,
) -> Result<bool, OutOfMemory>
    ensures tree { OnOk result (node.new ≡ unwrap_or (first_of (held.written seat node.old) (branches_in edition seat node.old)) node.old) }
    ensures said { IfOk result (λ changed. changed ≡ is_some (first_of (held.written seat node.old) (branches_in edition seat node.old))) }
{
    if minimize_held_branches(alloc, node, seat)? {
        return Ok(true);
    }
    join_branches(alloc, node, seat, edition)
}

// Of a conditional.
fn minimize_conditional(
    alloc: Global,
    node: &mut Node,
    seat: Seat,
    edition: u16,
) -> Result<bool, OutOfMemory>
    ensures tree { OnOk result (node.new ≡ unwrap_or (first_of (chains_in edition seat node.old) (first_of (held.written seat node.old) (branches_in edition seat node.old))) node.old) }
    ensures said { IfOk result (λ changed. changed ≡ is_some (first_of (chains_in edition seat node.old) (first_of (held.written seat node.old) (branches_in edition seat node.old)))) }
{
    if inject_chaining(alloc, node, seat, edition)? {
        return Ok(true);
    }
    minimize_branches(alloc, node, seat, edition)
}

// What a row says of the expression in its seat, if one reads it and the edition has its form.
fn minimize_choice(
    alloc: Global,
    node: &mut Node,
    seat: Seat,
    edition: u16,
) -> Result<bool, OutOfMemory>
    ensures tree { OnOk result (node.new ≡ unwrap_or (written edition seat node.old) node.old) }
    ensures said { IfOk result (λ changed. changed ≡ is_some (written edition seat node.old)) }
{
    match node.shape() {
        Shape::LogicalExpression(_) => minimize_sides(alloc, node, seat, edition),
        Shape::AssignmentExpression(_) => {
            minimize_normal_assignment_to_combined_assignment(alloc, node)
        }
        Shape::ConditionalExpression => minimize_conditional(alloc, node, seat, edition),
        Shape::ChainExpression => fold_chain_expr(alloc, node, seat),
        Shape::SequenceExpression => minimize_first_part(alloc, node, seat),
        _ => Ok(false),
    }
}

/// The rows of choices as a rule: of each expression. A row that writes a form newer than the
/// edition of the options doesn't act.
pub struct MinimizeChoices;

impl<C: Context> Rule<C> for MinimizeChoices {
    ghost gives = { λ o q. Gives o };

    ghost rests = { λ o q. Rests o };

    ghost lighter = { λ o q. choices_lighter o };

    #[tactic(auto, using(crate::proofs::Choices::applied))]
    fn apply(
        &self,
        alloc: Global,
        node: &mut Node,
        place: Position,
        context: &mut C,
    ) -> Result<bool, OutOfMemory> {
        match place {
            Position::Expr(seat) => Ok(minimize_choice(
                alloc,
                node,
                seat,
                context.options().edition,
            )?),
            _ => Ok(false),
        }
    }
}
