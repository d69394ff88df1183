//! What can be known of an expression from its text: definitions, laws that they are sound over
//! what a tree means, and the same in code.
#![tactic(auto)]

mod constants;
mod effects;
mod evident;
mod exact;
mod folds;
mod kinds;
mod known;
mod laws;
mod literals;
mod names;
mod numbers;
mod parts;
mod texts;
mod values;

pub use constants::{constant_value, to_boolean};
pub use effects::is_effect_free;
pub use evident::evident_truth;
pub use exact::{
    is_expression_undefined, is_guarded, is_int32_or_uint32, is_literal_value,
    may_have_side_effects, preserve_indirect_access_if_needed, remove_unused_expression,
};
pub use folds::{goes_on, has_no_effect, has_one_kind, stops};
pub use kinds::{Kind, Kind as ValueType};
pub use known::{is_nullish, is_primitive, kind_of, kind_of as value_type};
pub use laws::{
    const_is_sound, constants_are_sound, effect_free_is_sound, int32_is_sound, kind_is_sound,
    lit_is_sound, truth_is_sound, values_are_read, what_is_known_goes,
};
pub use literals::{
    calculated_binary, copied, evaluate_value, given_value, is_true, operand_value, strictly_equal,
    text_of_both, to_text,
};
pub use numbers::{calculated_numbers, is_same};
pub use parts::{is_item, is_plain_part, is_typed_by_value, leaves_nothing, stands, suits, weighs};
pub use values::{ConstantValue, value_to_expr};
