//! Rewrites of `switch`, with their rule for the walk.
#![tactic(auto)]

mod rewrites;

pub use rewrites::drop_unreachable_switch_cases::drop_unreachable_switch_cases;
pub use rewrites::minimize_switch_statements::{
    MinimizeSwitches, can_switch_case_be_inlined, holds_one_case, inlined, is_case,
    minimize_switch_statement, stay_inside,
};
