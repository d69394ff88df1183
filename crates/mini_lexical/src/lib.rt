//! 80 and 84 of statements that declare names which no event of the body around them shows, as rows
//! of the body's own code.
#![tactic(auto)]

mod held;
mod loops;
mod names;
mod switches;

pub use held::are_held;
pub use loops::minimize_lexical_for_statement;
pub use names::LexicalNames;
pub use switches::minimize_lexical_switch_statement;
