//! Rewrites of logic: each with its rule for the walk, and the laws that join the rules to the
//! definition of what can be rewritten.
#![tactic(auto)]

mod laws;
mod nots;
mod rewrites;
mod sequences;
mod statements;
mod terms;
mod whole;

// Two expressions, and two statements, are equal exactly where their trees are
// (`same_trees_are_equal` of `mini_node`).
pub use laws::{
    always_lighter, booleans_are_rows, de_morgan_is_row, negations_are_rows,
    negations_mean_the_same, rules_are_rows,
};
pub use mini_node::{is_same_tree as expr_eq, is_same_tree as stmt_eq};
pub use nots::{minimize_not, try_negate_expression};
pub use rewrites::de_morgan_for_void_expr::{
    MinimizeVoid, de_morgan_for_part, de_morgan_for_void_expr,
};
pub use rewrites::minimize_body::{MinimizeBodies, minimize_body};
pub use rewrites::minimize_conditional_expression::{
    MinimizeConditional, minimize_conditional_expression,
};
pub use rewrites::minimize_expression_in_boolean_context::{
    MinimizeInBooleanContext, minimize_expression_in_boolean_context,
};
pub use rewrites::minimize_for_statement::{leads_from_block, minimize_for_statement, with_test};
pub use rewrites::minimize_if_statement::{MinimizeIf, try_minimize_if};
pub use rewrites::minimize_negation::{MinimizeNegations, minimize_negation};
pub use rewrites::minimize_unary_expression::{MinimizeUnary, minimize_unary};
pub use rewrites::remove_last_break::remove_last_break;
pub use rewrites::remove_last_continue::remove_last_continue;
pub use rewrites::unwrap_block::unwrap_block;
pub use sequences::{
    has_negated_result, last_expression_in_sequence, pop_expression_from_sequence, unwrap_unary,
};
pub use terms::{
    has_own_negation, is_boolean, lighter_negation, lighter_negation_weight, neg_weight, negated,
};
pub use whole::{
    lightest_negation, lightest_negation_weight, reaches_in, told_negation, told_weight,
};
