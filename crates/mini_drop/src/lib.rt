//! Functions and declarators that nothing refers to go.
#![tactic(auto)]

mod dead;
mod declared;
mod dropping;
mod going;
mod guess;
mod items;
mod place;
mod planned;
mod rounds;
mod texts;

pub use rounds::drop_dead;
