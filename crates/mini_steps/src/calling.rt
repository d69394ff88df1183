//! The calls by their names.

ghost use Rattle.std.specs.Prelude.{◌≡◌, true, IfOk};
ghost use Rattle.mini_laws.specs.Value.{VariableSet};
ghost use Rattle.mini_model.specs.Paths.{is_node as is_it_a_node};
ghost use Rattle.mini_model.specs.declared.place.Position.TheVariants.{Elsewhere, Expr, Stmt};
ghost use Rattle.mini_model.specs.declared.seat.StmtSeat.{StmtSeat};
ghost use Rattle.mini_stmt.specs.MinimizeStatements.{switches_of};
ghost use Rattle.mini_steps.specs.Called.{Called};
ghost use Rattle.mini_steps.specs.Rows.{CallRows, is_list_place, rows_in};

use crate::lists::call_on_list;
use crate::names::RuleName;
use mini_calls::PeepholeOptimizations;
use mini_context::TraverseCtx;
use mini_model::{OutOfMemory, Position, Seat};
use mini_node::Node;
use mini_tree::CompressOptions;
use std::alloc::Global;

const CALLS: PeepholeOptimizations = PeepholeOptimizations;

// Does a rewrite of an expression in its seat.
fn call_on_expression(
    alloc: Global,
    rule: RuleName,
    node: &mut Node,
    seat: Seat,
    context: &TraverseCtx,
) -> Result<bool, OutOfMemory>
    ensures { IfOk result (Called (rows_in context.now rule) (Expr seat) node.old node.new) }
{
    match rule {
        RuleName::MinimizeUnary => CALLS.minimize_unary(alloc, node, seat),
        RuleName::MinimizeExpressionInBooleanContext =>
            CALLS.minimize_expression_in_boolean_context(alloc, node, seat),
        RuleName::MinimizeBinary => CALLS.minimize_binary(alloc, node, seat),
        RuleName::MinimizeLooseBoolean => CALLS.minimize_loose_boolean(alloc, node),
        RuleName::MinimizeBitwiseBinaryExpr => CALLS.minimize_bitwise_binary_expr(
            alloc, node, seat,
        ),
        RuleName::MinimizeNormalAssignmentToCombinedLogicalAssignment =>
            CALLS.minimize_normal_assignment_to_combined_logical_assignment(
                alloc,
                node,
                &context.scopes,
            ),
        RuleName::MinimizeNormalAssignmentToCombinedAssignment =>
            CALLS.minimize_normal_assignment_to_combined_assignment(alloc, node),
        RuleName::MinimizeAssignmentToUpdateExpression =>
            CALLS.minimize_assignment_to_update_expression(alloc, node),
        RuleName::MinimizeLogicalExpression => CALLS.minimize_logical_expression(
            alloc,
            node,
            seat,
            &context.scopes,
        ),
        RuleName::MinimizeConditionalExpression => CALLS.minimize_conditional_expression(
            alloc,
            node,
            seat,
            &context.scopes,
        ),
        RuleName::ConvertToDottedProperties => CALLS.convert_to_dotted_properties(alloc, node),
        RuleName::FoldUnaryExpr => CALLS.fold_unary_expr(alloc, node, seat),
        RuleName::FoldStaticMemberExpr => Ok(CALLS.fold_static_member_expr(alloc, node, seat)),
        RuleName::FoldLogicalExpr => CALLS.fold_logical_expr(alloc, node, seat),
        RuleName::TryFoldAndOr => CALLS.try_fold_and_or(alloc, node, seat),
        RuleName::TryFoldCoalesce => Ok(CALLS.try_fold_coalesce(alloc, node, seat)),
        RuleName::FoldChainExpr => CALLS.fold_chain_expr(alloc, node, seat),
        RuleName::FoldBinaryExpr => CALLS.fold_binary_expr(alloc, node, seat),
        RuleName::FoldSequenceExpression => CALLS.fold_sequence_expression(alloc, node, seat),
        RuleName::FoldBinaryTypeofComparison => CALLS.fold_binary_typeof_comparison(alloc, node),
        RuleName::SubstituteTemplateLiteral => CALLS.substitute_template_literal(alloc, node),
        RuleName::SubstituteTypeofUndefined => CALLS.substitute_typeof_undefined(alloc, node),
        RuleName::SubstituteUnaryPlus => CALLS.substitute_unary_plus(alloc, node),
        RuleName::SubstituteRotateLogicalExpression => CALLS.substitute_rotate_logical_expression(
            alloc, node,
        ),
        RuleName::SubstituteIsObjectAndNotNull => CALLS.substitute_is_object_and_not_null(
            alloc, node,
        ),
        RuleName::SubstituteLooseEqualsUndefined => CALLS.substitute_loose_equals_undefined(
            alloc, node,
        ),
        RuleName::SubstituteBoolean => CALLS.substitute_boolean(alloc, node),
        RuleName::SubstituteSwapBinaryExpressions => CALLS.substitute_swap_binary_expressions(
            alloc, node,
        ),
        RuleName::SubstituteArrowExpression => CALLS.substitute_arrow_expression(alloc, node),
        RuleName::SubstituteObjectProperty => CALLS.substitute_object_property(alloc, node),
        RuleName::SubstituteYieldExpression => CALLS.substitute_yield_expression(alloc, node),
        RuleName::SubstituteAssignmentTargetPropertyProperty
        | RuleName::SubstituteAssignmentTargetProperty
        | RuleName::TryCompressAssignmentTargetProperty
        | RuleName::SubstituteBindingProperty
        | RuleName::SubstituteMethodDefinition
        | RuleName::SubstitutePropertyDefinition
        | RuleName::SubstituteCatchClause
        | RuleName::DeMorganForVoidExpr
        | RuleName::SubstituteReturnStatement
        | RuleName::TryMinimizeIf
        | RuleName::DropUnreachableSwitchCases
        | RuleName::UnwrapBlock
        | RuleName::MinimizeForStatement
        | RuleName::MinimizeStatements => Ok(false),
    }
}

// Does a rewrite of a statement.
fn call_on_statement(
    alloc: Global,
    rule: RuleName,
    node: &mut Node,
    options: CompressOptions,
) -> Result<bool, OutOfMemory>
    ensures { (W : VariableSet) (q : StmtSeat) → IfOk result (Called (CallRows (switches_of options) W rule) (Stmt q) node.old node.new) }
{
    match rule {
        RuleName::DeMorganForVoidExpr => CALLS.de_morgan_for_void_expr(alloc, node),
        RuleName::SubstituteReturnStatement => CALLS.substitute_return_statement(alloc, node),
        RuleName::TryMinimizeIf => CALLS.try_minimize_if(alloc, node),
        RuleName::DropUnreachableSwitchCases => CALLS.drop_unreachable_switch_cases(alloc, node),
        RuleName::UnwrapBlock => CALLS.unwrap_block(alloc, node),
        RuleName::MinimizeForStatement => CALLS.minimize_for_statement(alloc, node),
        RuleName::MinimizeStatements => call_on_list(alloc, node, options),
        _ => Ok(false),
    }
}

// Does a rewrite of a part that is neither: a property, a method, a field, a declarator, a `catch`.
fn call_on_part(
    alloc: Global,
    rule: RuleName,
    node: &mut Node,
    options: CompressOptions,
) -> Result<bool, OutOfMemory>
    ensures { (W : VariableSet) → IfOk result (Called (CallRows (switches_of options) W rule) Elsewhere node.old node.new) }
{
    match rule {
        RuleName::SubstituteAssignmentTargetPropertyProperty =>
            CALLS.substitute_assignment_target_property_property(alloc, node),
        RuleName::SubstituteAssignmentTargetProperty => CALLS.substitute_assignment_target_property(
            alloc, node,
        ),
        RuleName::TryCompressAssignmentTargetProperty =>
            CALLS.try_compress_assignment_target_property(alloc, node),
        RuleName::SubstituteBindingProperty => CALLS.substitute_binding_property(alloc, node),
        RuleName::SubstituteMethodDefinition => CALLS.substitute_method_definition(alloc, node),
        RuleName::SubstitutePropertyDefinition => CALLS.substitute_property_definition(alloc, node),
        RuleName::SubstituteCatchClause => Ok(CALLS.substitute_catch_clause(node)),
        RuleName::MinimizeStatements => call_on_list(alloc, node, options),
        _ => Ok(false),
    }
}

/// Does a rewrite of a node in its place, and says whether it changed something. It doesn't where
/// none of its rows reads the node, as where the node is of another kind. The only error is that
/// memory runs out. A node of ESTree is no list of statements.
pub fn call(
    alloc: Global,
    rule: RuleName,
    node: &mut Node,
    place: Position,
    context: &TraverseCtx,
) -> Result<bool, OutOfMemory>
    requires { is_list_place place ≡ true → is_it_a_node node.old ≡ true }
    ensures { IfOk result (Called (rows_in context.now rule) place node.old node.new) }
{
    match place {
        Position::Expr(seat) => call_on_expression(alloc, rule, node, seat, context),
        Position::Stmt(_) => call_on_statement(alloc, rule, node, context.options),
        Position::Elsewhere => call_on_part(alloc, rule, node, context.options),
        _ => Ok(false),
    }
}
