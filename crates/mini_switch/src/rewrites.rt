pub mod drop_unreachable_switch_cases;
pub mod minimize_switch_statements;
