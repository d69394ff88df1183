//! Rewrites of names that nothing mentions in whatever holds a list of statements, and of a `var`
//! further inside a body: each with its rule for the walk.
#![tactic(auto)]

mod bodies;
mod ends;
mod for_heads;
mod further;
mod holding;
mod inside;
mod stack;
mod ways;

pub use bodies::{remove_inside_arrow, remove_inside_function, remove_inside_module};
pub use ends::{EndRewrites, UnusedEnds, put_first, take_alone};
pub use holding::{
    RemoveUnusedDeclarations, has_head, has_statements, is_case_at, is_function, is_module,
    is_static_block, is_switch, put_statements, remove_unused_declaration, remove_unused_in_arrow,
    remove_unused_in_function, remove_unused_in_module, take_statements,
};
pub use inside::{RemoveInside, remove_inside};
