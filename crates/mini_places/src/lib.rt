//! The places of the parts of a production: what stands there in parentheses or in braces, and what
//! the tokens that follow tell.
#![tactic(auto)]

mod lookahead;
mod places;
mod standing;

pub use lookahead::{ends_yield, is_forbidden, is_permitted, undirect, wants_braces};
pub use places::{
    at, goal_in, has_gaps, heir, in_place, left_operand, list_goal, plain, right_operand, seated,
};
pub use standing::{Standing, is_enclosed, standing_of};
