//! Rewrites by a list of steps, each a call by its name at a path of a program, in any order and at
//! any places: what they keep of the program, and what is known of its names afterwards.
//!
//! A path has the index of the child to go to at each node, from the program on. The children of a
//! node are the nodes of ESTree below it, list by list in the order of its fields; a part that is
//! absent is none, and neither is a directive. `MinimizeUnary` at `[0, 0, 1]` makes `x = a != b;`
//! of `x = !(a == b);`. A name takes the node that its call takes: of 51, and of 52 of object
//! literals, the literal; of 52 of what is declared the declarator or the `catch`; of 63 the
//! `catch`; of 66 to 79 the program, block, static block or case of a `switch` that holds the list
//! of statements. The list of a function's body is none of these, since what is read at its end
//! besides no call does by itself.
#![tactic(auto)]

mod calling;
mod laws;
mod lists;
mod names;
mod steps;
#[cfg(test)]
mod tests;
mod walking;

pub use laws::{steps_are_told, steps_keep};
pub use names::{RuleName, Step, StepList};
pub use steps::apply_steps;
