//! A log of rewrites that is checked, and one that is made by a search for steps, over any rows.
#![tactic(auto)]

mod checking;
mod drafting;
mod logging;
mod seeking;
mod widths;

pub use checking::{check_by, log_rows_by};
pub use logging::log_by;
pub use seeking::{Beside, Seeking};
