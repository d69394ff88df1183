//! One type for every node of a syntax tree, its kinds, and what a node of a kind is made of. A
//! contract sees the plain form.
#![tactic(auto)]

mod equal;
mod kinds;
mod list;
mod node;
mod parts;

pub use equal::{is_same_tree, same_trees_are_equal};
pub use kinds::{
    assignment_operator, binary_operator, boolean, is_absent_part, is_block, is_call_expression,
    is_computed_member, is_conditional, is_empty_statement, is_expression_statement, is_identifier,
    is_if_alone, is_if_statement, is_listed, is_logical, is_negation, is_null, is_return_statement,
    is_same_symbol, is_sequence, is_static_member, is_throw_statement, logical_operator, number,
    string, unary_operator,
};
pub use list::Nodes;
pub use node::{Node, discard};
pub use parts::{
    absent, assignment, binary, block, boolean_literal, call_expression, computed_member,
    conditional, empty_statement, expression_statement, identifier, if_statement, listed, logical,
    negation, null_literal, numeric_literal, of_one, of_three, of_two, one, return_statement,
    sequence, static_member, string_literal, take_first, taken, three, throw_statement, two, unary,
};
