//! Logs of rewrites, checked and made.
#![tactic(auto)]

mod choices;
mod copying;
mod ifs;
mod keys;
mod known;
mod lighter;
mod log;
mod making;
mod numbered;
mod replaying;
mod rows;
mod spellings;
mod walking;

pub use choices::has_negated_result;
pub use copying::{copy_node, copy_nodes, copy_own_name};
pub use ifs::is_several;
pub use lighter::is_lighter;
pub use log::{Log, LogEntry, Verdict};
pub use making::binary_of;
pub use numbered::row_numbered;
pub use replaying::replay;
pub use rows::{
    row_1, row_3, row_7, row_12, row_13, row_15, row_19, row_33, row_34, row_39, row_40, row_41,
    row_42, row_49, row_54, row_55, row_58, row_60, row_65, row_82,
};
pub use spellings::is_undefined;
pub use walking::{Making, find, step_at};
