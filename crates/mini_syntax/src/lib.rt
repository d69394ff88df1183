//! Rewrites of spellings: each with its rule for the walk.
#![tactic(auto)]

mod forms;
mod laws;
mod rewrites;

pub use forms::{is_list_of, is_plain};
pub use laws::{keys_are_rows, property_keys_are_rows, returns_are_rows, spellings_are_rows};
pub use rewrites::compress_assignment_target_property::{
    compress_assignment_target_property,
    compress_assignment_target_property as try_compress_assignment_target_property,
};
pub use rewrites::convert_to_dotted_properties::convert_to_dotted_properties;
pub use rewrites::minimize_assignment_to_update_expression::minimize_assignment_to_update_expression;
pub use rewrites::substitute_arrow_expression::{SubstituteArrows, substitute_arrow_expression};
pub use rewrites::substitute_binding_property::substitute_binding_property;
pub use rewrites::substitute_boolean::substitute_boolean;
pub use rewrites::substitute_loose_equals_undefined::substitute_loose_equals_undefined;
pub use rewrites::substitute_object_property::{SubstituteKeys, substitute_object_property};
pub use rewrites::substitute_property_key::{
    ClassPropertyKeyParent, ClassPropertyKeyParentType, SubstitutePropertyKeys,
    substitute_assignment_target_property,
    substitute_held_key as substitute_assignment_target_property_property,
    substitute_held_key as substitute_method_definition,
    substitute_held_key as substitute_property_definition, substitute_key, substitute_property_key,
};
pub use rewrites::substitute_return_statement::{SubstituteReturns, substitute_return_statement};
pub use rewrites::substitute_spellings::SubstituteSpellings;
pub use rewrites::substitute_swap_binary_expressions::substitute_swap_binary_expressions;
pub use rewrites::substitute_template_literal::substitute_template_literal;
pub use rewrites::substitute_typeof_undefined::substitute_typeof_undefined;
pub use rewrites::substitute_typeof_value::substitute_typeof_value;
pub use rewrites::substitute_variable_declaration::{
    SubstituteDeclarations, substitute_variable_declaration,
};
pub use rewrites::substitute_yield_expression::substitute_yield_expression;
