//! Rewrites of lists of statements: each with its test and what it writes, and the list as a whole.
#![tactic(auto)]

mod lead;
mod rewrites;
mod statements;
mod terminated;
mod terms;

pub use lead::{Lead, lead_of};
pub use rewrites::drop_lexicals::drop_lexicals;
pub use rewrites::drop_unreached::{is_left_lighter, left_behind};
pub use rewrites::join_lets::{JoinLets, join_lets, minimize_lets};
pub use rewrites::turn_loop_guards::{TurnLoopGuards, turn_loop_guard};
pub use statements::{MinimizeStatements, minimize_statements, no_row_reads_a_quiet_list};
pub use terminated::IsTerminated;
pub use terms::{
    are_unscoped, declares_nothing, has_terminated, join_sequence, statement_cares_about_scope,
};
