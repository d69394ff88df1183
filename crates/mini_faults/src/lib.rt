//! Programs that have no text, and why: the first node that none has, how deep a program nests, and
//! whether each node has the parts of its production.
#![tactic(auto)]

mod allowed;
mod defects;
mod depth;
mod error;
mod laws;
mod printable;
mod sound;

pub use defects::{Cause, Fault, first_fault, refuse_defects};
pub use depth::may_print;
pub use error::PrintError;
pub use laws::faults_are_there;
pub use printable::are_printable;
