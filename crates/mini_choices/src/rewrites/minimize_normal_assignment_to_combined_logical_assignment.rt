//! Row 34: `x = x || b` becomes `x ||= b`, and so of `&&` and `??`, where a scope declares x and it
//! can be written. It is lighter in every seat.

ghost use Rattle.std.specs.Prelude.{◌≡◌, is_some, unwrap_or, OnOk, IfOk};
ghost use Rattle.mini_choices.specs.MinimizeNormalAssignmentToCombinedLogicalAssignment as row;
ghost use Rattle.mini_choices.specs.MinimizeNormalAssignmentToCombinedLogicalAssignment.{marked, written, Gives, Rests};
ghost use Rattle.mini_choices.specs.Choices.{since};
ghost use Rattle.mini_choices.specs.Lighter.{writes_lighter};
ghost use Rattle.mini_choices.specs.Writes.{conditional_written, written as written_for};

use crate::assigning::{is_same_name, writes_name};
use crate::editions::{COALESCING, DECIDING};
use crate::rewrites::inject_assigned_chaining::inject_assigned_chaining;
use crate::rewrites::minimize_assigned_comparison::minimize_assigned_comparison;
use crate::rewrites::minimize_assigned_nullish_comparison::minimize_assigned_nullish_comparison;
use crate::rewrites::minimize_logical_expression::deciding;
use mini_context::{Scopes, TraverseCtx};
use mini_model::{LogicalOperator, OutOfMemory, Position, Seat, Shape};
use mini_node::{Node, assignment, discard, logical_operator, taken, two};
use mini_tree::Rule;
use std::alloc::Global;

// The operator of the `x ||= b` that is written for `x = x || b`.
fn combined_operator(node: &Node, scopes: &Scopes) -> Option<LogicalOperator>
    ensures { result ≡ row.combined_operator (marked scopes.now) node.now }
{
    if !writes_name(node, scopes) {
        return None;
    }
    match logical_operator(node.child(1)) {
        Some(operator) if is_same_name(node.child(0), node.child(1).child(0)) => Some(operator),
        _ => None,
    }
}

// `x ||= b`
fn combined(alloc: Global, operator: LogicalOperator, node: Node) -> Result<Node, OutOfMemory>
    ensures { IfOk result (λ w. w ≡ row.combined operator node) }
{
    let (target, value) = two(node);
    let (old, right) = two(value);
    discard(old);
    assignment(alloc, deciding(operator), target, right)
}

/// `x = x || b` becomes `x ||= b`, and so of `&&` and `??`, where the program mentions x as a name
/// that can be written. The answer says whether it did; the only error is that memory runs out, and
/// then the expression is fit only to be dropped.
pub fn minimize_normal_assignment_to_combined_logical_assignment(
    alloc: Global,
    node: &mut Node,
    scopes: &Scopes,
) -> Result<bool, OutOfMemory>
    ensures tree { OnOk result (node.new ≡ unwrap_or (written (marked scopes.now) node.old) node.old) }
    ensures said { IfOk result (λ changed. changed ≡ is_some (written (marked scopes.now) node.old)) }
{
    match combined_operator(node, scopes) {
        Some(operator) => {
            *node = combined(alloc, operator, taken(alloc, node))?;
            Ok(true)
        }
        None => Ok(false),
    }
}

// Of a conditional.
fn minimize_assigned_conditional(
    alloc: Global,
    node: &mut Node,
    seat: Seat,
    scopes: &Scopes,
) -> Result<bool, OutOfMemory>
    ensures tree { OnOk result (node.new ≡ unwrap_or (conditional_written (marked scopes.now) seat node.old) node.old) }
    ensures said { IfOk result (λ changed. changed ≡ is_some (conditional_written (marked scopes.now) seat node.old)) }
{
    if minimize_assigned_comparison(alloc, node, scopes)? {
        return Ok(true);
    }
    inject_assigned_chaining(alloc, node, seat, scopes)
}

// `x = x || b` becomes `x ||= b`, where the edition has that.
fn decide_assignment(
    alloc: Global,
    node: &mut Node,
    scopes: &Scopes,
    edition: u16,
) -> Result<bool, OutOfMemory>
    ensures tree { OnOk result (node.new ≡ unwrap_or (since 2021 edition (written (marked scopes.now) node.old)) node.old) }
    ensures said { IfOk result (λ changed. changed ≡ is_some (since 2021 edition (written (marked scopes.now) node.old))) }
{
    if DECIDING <= edition {
        minimize_normal_assignment_to_combined_logical_assignment(alloc, node, scopes)
    } else {
        Ok(false)
    }
}

// `(x = a) == null ? b : x` becomes `(x = a) ?? b`, and what is of members `(x = a)?.m`, where the
// edition has that.
fn ask_assigned(
    alloc: Global,
    node: &mut Node,
    seat: Seat,
    scopes: &Scopes,
    edition: u16,
) -> Result<bool, OutOfMemory>
    ensures tree { OnOk result (node.new ≡ unwrap_or (since 2020 edition (conditional_written (marked scopes.now) seat node.old)) node.old) }
    ensures said { IfOk result (λ changed. changed ≡ is_some (since 2020 edition (conditional_written (marked scopes.now) seat node.old))) }
{
    if COALESCING <= edition {
        minimize_assigned_conditional(alloc, node, seat, scopes)
    } else {
        Ok(false)
    }
}

// What a row says of the expression in its seat, if one reads it and the edition has its form.
fn minimize_write(
    alloc: Global,
    node: &mut Node,
    seat: Seat,
    scopes: &Scopes,
    edition: u16,
) -> Result<bool, OutOfMemory>
    ensures tree { OnOk result (node.new ≡ unwrap_or (written_for edition (marked scopes.now) seat node.old) node.old) }
    ensures said { IfOk result (λ changed. changed ≡ is_some (written_for edition (marked scopes.now) seat node.old)) }
{
    match node.shape() {
        Shape::AssignmentExpression(_) => decide_assignment(alloc, node, scopes, edition),
        Shape::LogicalExpression(_) => minimize_assigned_nullish_comparison(alloc, node, scopes),
        Shape::ConditionalExpression => ask_assigned(alloc, node, seat, scopes, edition),
        _ => Ok(false),
    }
}

/// The rows of names that can be written as a rule: of each expression. Its context says which
/// names the program that it knows lets be written, and of which edition no newer form is written.
pub struct MinimizeWrites;

impl Rule<TraverseCtx> for MinimizeWrites {
    ghost gives = { Gives };

    ghost rests = { Rests };

    ghost lighter = { writes_lighter };

    #[tactic(auto, using(crate::proofs::Writes::elsewhere))]
    fn apply(
        &self,
        alloc: Global,
        node: &mut Node,
        place: Position,
        context: &mut TraverseCtx,
    ) -> Result<bool, OutOfMemory> {
        match place {
            Position::Expr(seat) => {
                let edition = context.options.edition;
                Ok(minimize_write(alloc, node, seat, &context.scopes, edition)?)
            },
            _ => Ok(false),
        }
    }
}
