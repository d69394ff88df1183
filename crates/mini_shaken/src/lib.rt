//! Programs that lose what is dead and are rewritten, in turn, until neither changes anything.
#![tactic(auto)]

mod running;
mod shake;

pub use mini_peephole::{Minified, Status};
pub use running::{Shaking, run};
pub use shake::{shake_estree, shake_value};
