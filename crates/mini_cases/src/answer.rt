// What is answered to lines.

use crate::error::NoAnswer;
use std::alloc::Global;
use std::fmt::{Display, Write};

/// The answers so far. They fail where a line is no case, or where what it asks for fails, as for
/// want of memory: nothing of that is in the text, nothing is kept of why, and the program ends
/// with another status.
#[derive(Drop)]
pub struct Answer {
    text: String,
    failed: bool,
}

impl Answer {
    /// Nothing so far.
    pub fn new(alloc: Global) -> Answer {
        Answer {
            text: String::new(alloc),
            failed: false,
        }
    }

    /// What is asked for has no answer.
    pub fn fail(&mut self) {
        self.failed = true;
    }

    /// What was done, which may have failed.
    pub fn done<E: Drop>(&mut self, done: Result<(), E>) {
        if done.is_err() {
            self.failed = true;
        }
    }

    /// Adds a text.
    pub fn text(&mut self, text: &str) {
        let done = self.text.push_str(text);
        self.done(done);
    }

    /// Adds a value as it is shown.
    pub fn show<T: Display>(&mut self, value: &T) {
        let done = write!(self.text, "{value}");
        self.done(done);
    }

    /// Adds a space, and a value as it is shown.
    pub fn word<T: Display>(&mut self, value: &T) {
        self.text(" ");
        self.show(value);
    }

    /// All that was added.
    pub fn as_bytes(&self) -> &[u8] {
        self.text.as_bytes()
    }

    /// Whether there is one to each line.
    pub fn ended(&self) -> Result<(), NoAnswer> {
        if self.failed {
            return Err(NoAnswer);
        }
        Ok(())
    }
}
