//! The top calls: of the library, an ESTree value in and a lighter one out, and of the program, a
//! whole run from the bytes of a source to the bytes of a sink.
#![tactic(auto)]

mod laws;
mod minify;
mod named;
mod running;

pub use laws::{known_stays, lawful_passes_are_faithful};
pub use mini_estree::{MinifyError, Pointer};
pub use mini_tree::{CompressOptions, KeepNames, Numbers, OutOfMemory};
pub use minify::{Minified, minify_estree, minify_value, minify_with, rewrite_once};
pub use named::{numbers_of, symbols_of};
pub use running::{Minifier, Rewriting, Status, run, run_read};
