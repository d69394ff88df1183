//! Logs of rewrites: one that anyone wrote is checked, and one is made.
#![tactic(auto)]

mod beside;
mod checking;
mod offers;

pub use checking::{check_log, log_rows};
