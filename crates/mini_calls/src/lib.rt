//! Every rewrite of the minifier by itself, under its name, for who wants one and not all: each
//! call is that of the crate of rewrites that has it, or the first of several that writes
//! something, and adds nothing.
#![tactic(auto)]

mod choices;
mod folding;
mod joined;
mod laws;
mod logic;
mod statements;
mod syntax;
mod unused;

pub use laws::{
    bodies_are_own_rows, choices_are_own_rows, folds_are_own_rows, joined_calls_are_own_rows,
    keys_are_own_rows, operators_are_own_rows, spellings_are_own_rows,
};
// What is known of an expression, and how a key of a class is kept.
pub use mini_syntax::{ClassPropertyKeyParent, ClassPropertyKeyParentType};
pub use mini_terms::{
    ConstantValue, ValueType, constant_value as evaluate_value, is_expression_undefined,
    is_int32_or_uint32, is_literal_value, may_have_side_effects,
    preserve_indirect_access_if_needed, remove_unused_expression, to_boolean, value_to_expr,
    value_type,
};

/// The rewrites, each a call.
pub struct PeepholeOptimizations;
