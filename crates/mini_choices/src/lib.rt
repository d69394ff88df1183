//! Rewrites of choices: what conditionals, logical expressions and assignments have in common is
//! written once. One rule for the walk, and one that asks the context which names can be written,
//! and the laws that join them to the rows.
#![tactic(auto)]

mod assigning;
mod calling;
mod editions;
mod forms;
mod joining;
mod laws;
mod rewrites;
mod weights;

// What row 44 takes, whether `this` has an effect there or not.
pub use calling::{called, calls_either};
// What rows 35 and 38 of names take for one target: a name, or a member of one with a key that is
// written out; and a name alone.
pub use assigning::{
    assigns_plainly, has_written_key, is_same_name as can_compress_to_logical_assignment,
    is_same_target as has_no_side_effect_for_evaluation_same_target,
};
pub use joining::join_with_left_associative_op;
pub use laws::{choices_are_rows, left_joins_mean_the_same, writes_are_rows};
pub use rewrites::evaluate_both_sides::evaluate_both_sides;
pub use rewrites::fold_chain_expr::{fold_chain_expr, void_zero};
pub use rewrites::inject_assigned_chaining::inject_assigned_chaining;
pub use rewrites::inject_optional_chaining::inject_optional_chaining;
pub use rewrites::minimize_assigned_comparison::minimize_assigned_comparison;
pub use rewrites::minimize_assigned_nullish_comparison::minimize_assigned_nullish_comparison;
pub use rewrites::minimize_choices::MinimizeChoices;
pub use rewrites::minimize_conditional_branches::{
    assigned, assigns_either, indexes_either, is_seated, minimize_conditional_branches,
    minimize_older_branches,
};
pub use rewrites::minimize_first_part::{behind_zero, minimize_first_part};
pub use rewrites::minimize_held_branches::{is_pair, minimize_held_branches};
pub use rewrites::minimize_logical_expression::{decided, deciding, minimize_logical_expression};
pub use rewrites::minimize_logical_sequence::{
    are_several, decided_last, keeps_parentheses, last_place, minimize_logical_sequence,
};
pub use rewrites::minimize_normal_assignment_to_combined_assignment::{
    combined, computing, minimize_normal_assignment_to_combined_assignment,
};
pub use rewrites::minimize_normal_assignment_to_combined_logical_assignment::{
    MinimizeWrites, minimize_normal_assignment_to_combined_logical_assignment,
};
pub use rewrites::minimize_nullish_comparison::minimize_nullish_comparison;
pub use rewrites::minimize_object_test::{
    minimize_object_test, minimize_object_test as substitute_is_object_and_not_null,
};
pub use rewrites::names::{
    extract_id_or_assign_to_id, inject_optional_chaining_if_matched, substitute_chain_expression,
};
pub use rewrites::substitute_rotate_logical_expression::substitute_rotate_logical_expression;
