//! Names: early errors, and the symbols of names, that is which scope declares them.
#![tactic(auto)]

mod check;
mod clashes;
mod declarations;
mod declared;
mod distinct;
mod doubles;
mod environment;
mod jumps;
mod kinds;
mod numbering;
mod numbers;
mod opening;
mod pointer;
mod refusing;
mod tables;
mod targets;

pub use check::{EarlyError, check_early};
pub use declared::{copy_text, has_inner, push_body_names, push_names};
pub use distinct::add_all;
pub use environment::Environment;
pub use numbering::{gives_value, is_declarator, resolve_node, resolve_program};
pub use opening::{OpenScopes, is_leaf};
pub use pointer::under_path;
pub use refusing::refuse_early;
pub use tables::{opening_of, place_of, use_of};
