//! Rewrites of names that nothing mentions, or that are read once, in a list of statements; and of
//! the names of function and class expressions and of what is caught, each with its rule for the
//! walk.
#![tactic(auto)]

mod calls;
mod calm;
mod catches;
mod declarations;
mod declares;
mod evals;
mod first_reads;
mod heads;
mod mentions;
mod names;
mod next_uses;
mod passing;
mod single_uses;
mod sweeping;
mod tallies;

pub use calls::{
    should_remove_unused_declarator, substitute_within, try_remove_name_from_classes,
    try_remove_name_from_functions,
};
pub use catches::{SubstituteCatches, substitute_catch_clause};
pub use declarations::{
    declares_list, declares_name, is_idle, is_lexical, is_var, may_declare, put_child,
    remove_in_list, take_child, take_declarator, unused_of,
};
pub use evals::{either_has_eval, has_eval};
pub use first_reads::{is_childless, is_first, is_member};
pub use heads::{evaluated, reads_head};
pub use mentions::{is_mentioned, is_mentioned_before, is_mentioned_from};
pub use names::{RemoveUnusedNames, remove_unused_name};
pub use next_uses::{
    is_declarator, is_mentioned_beside, is_mentioned_elsewhere, next_of, substitute_next,
};
pub use passing::{
    gathered_below, is_constant, is_field, is_plain_assignment, is_word, of_entries, suits,
};
pub use single_uses::{
    is_declared_over, is_mentioned_around, last_declarator, may_move, substitute_in_list,
    substitute_single_uses,
};
pub use sweeping::{declarators_at, has_next, tally_from};
pub use tallies::{Tallies, has_rare_name, is_rare_in, is_rare_in_head};
