//! A log that is checked, and one that is made, by rows that are those of a log.

ghost use Rattle.std.specs.Prelude.{◌≡◌, ◌<◌, ◌≤◌, ◌^◌, Bool, Some, length, IfOk};
ghost use Rattle.mini_accept.specs.WellShaped.{IsWellShaped};
ghost use Rattle.mini_laws.specs.Value.{VariableSet};
ghost use Rattle.mini_laws.specs.Writable.{writable_in};
ghost use Rattle.mini_log.specs.RowStep.{replayed, row_at};
ghost use Rattle.mini_tree.specs.declared.options.CompressOptions.{CompressOptions};
ghost use Rattle.mini_replay.specs.Checking.{Judged, NoStepLeft, Upheld, entries, made_by};

use crate::logging::log_by;
use crate::seeking::Seeking;
use mini_checker::{Log, Making, Verdict, replay};
use mini_log::laws::accepted_logs_keep;
use mini_model::OutOfMemory;
use mini_node::Node;
use std::alloc::Global;

/// Makes the entries of a log, up to the first that has no step. Where the rows are those of a log,
/// the last program keeps all that the first one has to keep, and is lighter by at least the number
/// of entries that were made. The only error is that memory runs out, and then the program is fit
/// only to be dropped.
pub fn check_by<M: Making>(
    rows: &M,
    alloc: Global,
    program: &mut Node,
    log: &Log,
) -> Result<Verdict, OutOfMemory>
    requires short { length log.now < 2 ^ 32 }
    ensures judged { (sequences : Bool) (W : VariableSet) → M.makes rows.now ≡ row_at sequences W → IfOk result (Judged sequences W program.old program.new log.now) }
    ensures upheld { (o : CompressOptions) → M.makes rows.now ≡ row_at o.sequences (writable_in program.old) → IsWellShaped program.old → IfOk result (λ verdict. Upheld o program.old program.new (made_by log.now verdict)) }
{
    accepted_logs_keep();
    replay(rows, alloc, program, log)
}

/// Makes steps of a program by the rows, at most so many, and gives their log. There are fewer only
/// where no row has a step at any path of the last program. Where the rows are those of a log, that
/// program keeps all that the first one has to keep, and is lighter by at least the number of
/// entries. The only error is that memory runs out, and then the program is fit only to be dropped.
pub fn log_rows_by<S: Seeking>(
    rows: &S,
    alloc: Global,
    program: &mut Node,
    max_entries: u32,
) -> Result<Log, OutOfMemory>
    ensures replays { (sequences : Bool) (W : VariableSet) → S.makes rows.now ≡ row_at sequences W → IfOk result (λ log. replayed sequences W program.old (entries log) ≡ Some program.new) }
    ensures bound { IfOk result (λ log. length log ≤ max_entries) }
    ensures all { (sequences : Bool) (W : VariableSet) → S.makes rows.now ≡ row_at sequences W → IfOk result (λ log. length log < max_entries → NoStepLeft sequences W program.new) }
    ensures upheld { (o : CompressOptions) → S.makes rows.now ≡ row_at o.sequences (writable_in program.old) → IsWellShaped program.old → IfOk result (λ log. Upheld o program.old program.new (length log)) }
{
    accepted_logs_keep();
    log_by(rows, alloc, program, max_entries)
}
