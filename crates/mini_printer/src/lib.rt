//! The JavaScript text of a program: its tokens, and their text.
#![tactic(auto)]

mod front;
mod order;
mod program;
mod walk;

pub use mini_faults::{Cause, Fault, PrintError, faults_are_there, first_fault, refuse_defects};
pub use program::{print_compact, print_program};
