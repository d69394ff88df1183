//! ESTree JSON into trees and back: reading programs by the table of ESTree, and what else a caller
//! that reads and writes them needs.
#![tactic(auto)]

mod head;
mod parts;
mod planned;
mod program;
mod walk;

pub use mini_accept::{
    accepted_is_well_shaped, accepts_one_tree, deeper, faults_are_there, names_have_no_symbol,
    numbers_in_preorder, refused_deeper,
};
pub use mini_model::{MinifyError, Pointer};
pub use mini_writer::{
    accepted_weighs_little, fits, fitting_is_read, read_bytes_fit, write_program,
};
pub use program::{Numbered, read_program};
