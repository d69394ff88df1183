//! Logs of rewrites, and the answer of a check of one.

use mini_model::{Numbers, OwnedList};

/// One rewrite: a row, by its number, at the node to which a path leads.
#[derive(Drop)]
pub struct LogEntry {
    /// The index of the child to go to, at each node from the program on.
    pub at: Numbers,
    /// The number of the row.
    pub row: u32,
}

/// A log of rewrites, in the order in which they are made.
pub type Log = OwnedList<LogEntry>;

/// The answer of a check of a log.
#[derive(Clone, Copy, PartialEq, Eq, Debug)]
pub enum Verdict {
    /// Each entry in turn has a step.
    Yes,
    /// An entry has none, and those before it have.
    No {
        /// The entry, from 0.
        entry: u32,
    },
}
