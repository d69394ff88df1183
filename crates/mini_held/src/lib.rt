//! What goes, and what is left: whether what goes takes along the names in it that can't be
//! written, each declared by a scope in it, whether what is left of a sequence may stand in its
//! place, and what is left of an equality that is told by its sides.
#![tactic(auto)]

mod alone;
mod held_names;
mod parts;
mod types;

pub use alone::{stays_alone, takes_alone};
pub use held_names::takes_names_along;
pub use parts::{IdleParts, drop_parts};
pub use types::{UNDEFINED, is_equality, is_never_type, is_typeof, negated_digit, says_equal};
