//! The run of a program over JSON: the statuses that a process ends with, and the way from the
//! bytes of a source to the bytes of a sink, whatever is made of the value in between.
#![tactic(auto)]

mod answering;
mod notes;
mod running;
mod status;

pub use answering::{Answering, Refusal};
pub use notes::{refuse, refuse_unread};
pub use running::run_answering;
pub use status::Status;
