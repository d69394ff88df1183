//! The step of each row of a log of rewrites: of the rows that read a node alone, which
//! `mini_checker` has, of the negation that reaches into its operand, and of those on a statement
//! in its list, or in a branch or a body.
#![tactic(auto)]

mod branches;
mod declarations;
mod lists;
mod negating;
mod row_steps;
mod statements;
mod whole;

pub use branches::unwraps;
pub use declarations::{first_undefined, has_head, is_export, is_let};
pub use lists::{is_statement_list, joins, row_66};
pub use row_steps::{RowSteps, made_at};
pub use statements::is_loose_block;
pub use whole::row_23;
