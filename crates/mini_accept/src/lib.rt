//! Which JSON value of ESTree (ES5 to ES2022) is which tree of the plain form, or which defect it
//! has: the table of types (`specs/Entries.antt`), and how values are read by it
//! (`specs/Accept.antt`); and which trees of the plain form are programs (`specs/WellShaped.antt`).
//!
//! Each value has a tree or a defect at each depth, since reading is a function. A tree that is
//! accepted is well shaped; examples of each type of node are computed (`specs/Nodes.antt`).
#![tactic(auto)]

mod kind;
mod laws;
mod programs;

pub use kind::Kind;
pub use laws::{
    accepted_is_well_shaped, accepts_one_tree, deeper, faults_are_there, names_have_no_symbol,
    numbers_in_preorder, refused_deeper, texts_are_read,
};
pub use programs::well_shaped_is_program;
