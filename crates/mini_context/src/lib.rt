//! What rewrites ask of the names of a program: how often each symbol is read and written, whether
//! it can be written, which scope declares it and what is known of that; and what `this` and
//! `arguments` are in a body. And the context in which rewrites ask it, whose counts follow what
//! they drop.
#![tactic(auto)]

mod asking;
mod catching;
mod context;
mod count;
mod early;
mod exchanges;
mod giving;
mod knowing;
mod laws;
mod listing;
mod lists;
mod marks;
mod mentions;
mod params;
mod parts;
mod reach;
mod refreshing;
mod resolution;
mod scopes;
mod standing;
mod steps;
mod strictness;
mod survey;
mod writable;

pub use context::{Parent, TraverseCtx};
pub use count::{Counts, Tally, fresh_counts, tally_node};
pub use laws::{
    bodies_told, counts_tell, declarators_tell, foreign_tells, names_tell, refresh_tells,
    shares_tell, steady_tells, tables_tell, uses_tell,
};
pub use marks::{is_marked, mark_symbol, no_marks};
pub use refreshing::refresh;
pub use resolution::resolve;
pub use scopes::{ScopeId, Scopes};
pub use steps::Steps;
