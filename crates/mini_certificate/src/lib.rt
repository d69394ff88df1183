//! Logs of rewrites as JSON: a certificate is a program with a log of rewrites of it. One that
//! anyone wrote is checked, and one is made of a program.
//!
//! A certificate is an object `{"log": [[row, [index, ..]], ..], "program": ..}`: each entry has a
//! row by its number, and the indices that lead from the program, which is one of ESTree, to a
//! node.
#![tactic(auto)]

mod checking;
mod entries;
mod logging;
mod reading;
mod running;
mod written;

pub use checking::Checking;
pub use entries::read_log;
pub use logging::Logging;
pub use mini_cli::Status;
pub use reading::{Certificate, read_certificate, read_tree};
pub use running::{run_check, run_log};
pub use written::{log_value, program_value};
