//! Row 71 past names that are steady in the body around them, over what tells which names are.
#![tactic(auto)]

mod blocks;
mod cases;
mod code_names;
mod declared;
mod functions;
mod heads;
mod inside;
mod let_places;
mod lets;
mod names;
mod next_declarators;
mod passing;
mod reaching;
mod rule;
mod searching;
mod sweeping;
mod tallied;

pub use blocks::{PastNamesInBlocks, substitute_past_in_block, substitute_past_in_statement};
pub use functions::{
    substitute_past_in_arrow, substitute_past_in_function, substitute_past_in_module,
    substitute_past_in_static,
};
pub use inside::{PastEnds, SubstitutePastInside};
pub use names::{PastContext, PastNames};
pub use rule::{
    SubstitutePast, SubstitutePastArrows, SubstitutePastModules, SubstitutePastStatics,
};
