//! A log whose entries are made one after another.

ghost use Rattle.std.specs.Prelude.{◌≡◌, ◌<◌, ◌^◌, length, IfOk};
ghost use Rattle.mini_checker.specs.Made.{Made};
ghost use Rattle.mini_checker.specs.Checked.{Checked, entry_step_by};

use crate::log::{Log, LogEntry, Verdict};
use crate::numbered::row_numbered;
use crate::walking::{Making, step_at};
use mini_model::{OutOfMemory, Position};
use mini_node::Node;
use std::alloc::Global;

// Makes an entry, and says whether it has a step.
fn make_entry<M: Making>(
    making: &M,
    alloc: Global,
    program: &mut Node,
    entry: &LogEntry,
) -> Result<bool, OutOfMemory>
    ensures { IfOk result (Made (entry_step_by (M.makes making.now) program.old entry.now) program.old program.new) }
{
    match row_numbered(entry.row) {
        Some(row) => step_at(
            making,
            alloc,
            row,
            program,
            Position::Elsewhere,
            entry.at.as_slice(),
        ),
        None => Ok(false),
    }
}

/// Makes the entries of a log on a program, one after another, up to the first that has no step.
/// The only error is that memory runs out, and then the program is fit only to be dropped.
pub fn replay<M: Making>(
    making: &M,
    alloc: Global,
    program: &mut Node,
    log: &Log,
) -> Result<Verdict, OutOfMemory>
    requires { length log.now < 2 ^ 32 }
    ensures { IfOk result (Checked (M.makes making.now) program.old program.new log.now) }
{
    let entries = log.as_slice();
    for at in 0..entries.len() {
        if !make_entry(making, alloc, program, &entries[at])? {
            return Ok(Verdict::No { entry: at as u32 });
        }
    }
    Ok(Verdict::Yes)
}
