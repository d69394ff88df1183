//! From JSON to JavaScript: a program, or an answer of the minifier, as ESTree JSON in, and the
//! text of that program out, as it is or minified.
#![tactic(auto)]

mod laws;
mod minifying;
mod options;
mod printing;
mod running;

pub use laws::printable_inputs_are_valid;
pub use mini_cli::Status;
pub use minifying::Minifying;
pub use options::{TextOptions, TextOrders, read_text_orders};
pub use printing::Printing;
pub use running::run_text;
