//! Rewrites on what is known of an expression from its text: each with its rule for the walk, and
//! the laws that join the rules to the definition of what can be rewritten.
#![tactic(auto)]

mod exports;
mod laws;
mod rewrites;

pub use laws::{constants_are_rows, folds_are_rows};
pub use mini_terms::{ConstantValue, evaluate_value, is_true, operand_value, value_to_expr};
pub use rewrites::fold_binary::fold_binary_expr;
pub use rewrites::fold_constants::{FoldConstants, fold_constant};
pub use rewrites::fold_known::{
    FoldKnown, fold_conditional, fold_expression, fold_logical_expression, fold_statement,
    remove_unused_expression,
};
pub use rewrites::fold_operands::{FoldOperands, fold_operands};
pub use rewrites::fold_operators::fold_delete;
pub use rewrites::fold_sequences::{FoldSequences, fold_sequence_expression};
pub use rewrites::fold_static_member::{
    fold_computed_member_expr, fold_static_member, fold_static_member as fold_static_member_expr,
};
pub use rewrites::fold_templates::{FoldTemplates, fold_templates, inline_template_literal};
pub use rewrites::minimize_binary::minimize_binary;
pub use rewrites::names::{
    fold_binary_typeof_comparison, fold_logical_expr, fold_unary_expr, minimize_binary_expr,
    minimize_bitwise_binary_expr, minimize_loose_boolean, substitute_unary_plus, try_fold_and_or,
    try_fold_coalesce,
};
pub use rewrites::remove_idle_head::{has_idle_head, remove_idle_head};
