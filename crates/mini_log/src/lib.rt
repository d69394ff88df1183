//! Logs of rewrites: what a log proves of the program that it was replayed on.
#![tactic(auto)]

pub mod laws;
pub mod row;
