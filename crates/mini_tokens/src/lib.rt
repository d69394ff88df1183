//! The text of tokens: whether a text has them, and how they stand behind each other in full and in
//! compact text (ECMA-262, "Lexical Grammar").
#![tactic(auto)]

mod compact;
mod lexical;
mod marks;
mod quotes;
mod slashes;
mod style;
mod text;
mod writable;

pub use compact::compact_text_of;
pub use lexical::are_lexical;
pub use slashes::are_told_in;
pub use style::{Style, terminate};
pub use text::text_of;
pub use writable::{
    are_directives, is_directive, is_raw, is_regular_expression, is_reserved, spells,
};
