//! Rewrites that rest on what is known of a body, as that names are steady: in the own code of each
//! function, of the program, of static blocks and of inner expressions, over what tells that, by
//! rows of any family.
#![tactic(auto)]

mod around;
mod arrows;
mod beginnings;
mod bindings;
mod code;
mod functions;
mod idle;
mod laws;
mod leaving;
mod lets;
mod members;
mod own;
mod parts;
mod programs;
mod rule;
mod steady;
mod still;
mod writing;

pub use around::is_let_around;
pub use arrows::minimize_in_arrow;
pub use bindings::{any_bind, are_bound_twice, binds, is_any_bound};
pub use code::{BodyCode, code_of, is_initialised};
pub use functions::minimize_in_function;
pub use idle::{drop_idle_parts, drop_idle_statement};
pub use laws::members_are_rows;
pub use leaving::is_this;
pub use lets::is_let_in;
pub use members::{SteadyMembers, minimize_members};
pub use own::{OwnRewrites, minimize_own_code};
pub use parts::minimize_in_part;
pub use programs::minimize_in_program;
pub use rule::{InArrows, InFunctions, InParts, InPrograms, SteadyContext};
pub use steady::SteadyNames;
pub use still::shorten_idle_parts;
pub use writing::writes;
