//! The rows of rewrites by family: what each reads and writes, that both mean the same, that what
//! is written is lighter, and that it keeps all that a program has to keep. Each function's
//! contract is a law, and its body is empty.
#![tactic(auto)]

mod arrangements;
mod arrows;
mod booleans;
mod branches;
mod catches;
mod choices;
mod constants;
mod de_morgan;
mod declarations;
mod foldings;
mod gathered;
mod inside;
mod lets;
mod lexical;
mod lists;
mod loop_guards;
mod names;
mod negations;
mod nesting;
mod operands;
mod parts;
mod past;
mod programs;
mod redexes;
mod sequences;
mod spellings;
mod steady;
mod templates;
mod turns;
mod unused;
mod writes;

pub use booleans::{booleans_are_lawful, booleans_are_lighter, booleans_mean_the_same};
pub use branches::{branches_are_lawful, branches_lighten, branches_same, never_breaks_out};
pub use catches::{catches_are_lawful, catches_lighten};
pub use choices::{choices_are_lawful, choices_are_lighter, choices_mean_the_same};
pub use constants::{constants_are_lawful, constants_lighten, constants_mean_the_same};
pub use de_morgan::{de_morgan_is_lawful, de_morgan_lightens, de_morgan_means_the_same};
pub use declarations::{declarations_are_lawful, declarations_lighten, declarations_same};
pub use foldings::{foldings_are_lawful, foldings_are_lighter, foldings_mean_the_same};
pub use gathered::Gathered;
pub use inside::{Way, inside_is_lawful, inside_lightens};
pub use lets::{lets_are_lawful, lets_lighten};
pub use lexical::{
    each_tree_fades, lexical_functions_are_lawful, lexical_names_lighten,
    lexical_names_mean_the_same, lexical_rows_are_kept,
};
pub use loop_guards::{loop_guards_are_lawful, loop_guards_lighten, loop_guards_mean_the_same};
pub use names::{names_are_lawful, names_lighten};
pub use negations::{negations_are_lawful, negations_lighten, negations_mean_the_same};
pub use nesting::{
    are_shallow, fits_in, is_shallow, may_all_sink, may_join, may_sink, rows_keep_their_depth,
};
pub use operands::{operands_are_lawful, operands_are_lighter, operands_mean_the_same};
pub use parts::{own_parts_are_lawful, own_parts_lighten};
pub use past::{
    past_steady_names_are_lawful, past_steady_names_are_lawful_in_arrows,
    past_steady_names_are_lawful_in_blocks, past_steady_names_are_lawful_in_blocks_of_parts,
    past_steady_names_are_lawful_in_blocks_of_programs, past_steady_names_are_lawful_in_modules,
    past_steady_names_are_lawful_in_static_blocks, past_steady_names_are_lawful_inside,
    past_steady_names_lighten, past_steady_names_lighten_arrows, past_steady_names_lighten_blocks,
    past_steady_names_lighten_inside, past_steady_names_lighten_modules,
    past_steady_names_lighten_static_blocks, past_steady_names_read_more_in_blocks,
    past_steady_names_run_alike,
};
pub use programs::{own_programs_are_lawful, own_programs_lighten};
pub use redexes::{latest_edition_has_each_row, rows_are_lawful};
pub use sequences::{sequences_are_lawful, sequences_are_lighter, sequences_mean_the_same};
pub use steady::{
    own_code_is_lawful, own_code_lightens, rows_read_more, steady_functions_are_lawful,
    steady_names_lighten, steady_names_mean_the_same,
};
pub use templates::{templates_are_lawful, templates_lighten, templates_mean_the_same};
pub use unused::{unused_are_lawful, unused_lighten};
pub use writes::{writes_are_lawful, writes_lighten};
