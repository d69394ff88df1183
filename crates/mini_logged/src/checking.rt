//! A log that is checked, and one that is made, of a program that a context knows.

ghost use Rattle.std.specs.Prelude.{◌≡◌, ◌<◌, ◌≤◌, ◌^◌, Some, length, IfOk, OnOk};
ghost use Rattle.mini_model.specs.Tree.{Tree};
ghost use Rattle.mini_accept.specs.WellShaped.{IsWellShaped};
ghost use Rattle.mini_laws.specs.Writable.{writable_in};
ghost use Rattle.mini_log.specs.RowStep.{replayed};
ghost use Rattle.mini_tree.specs.declared.options.CompressOptions.{CompressOptions};
ghost use Rattle.mini_context.specs.Known.{Knows};
ghost use Rattle.mini_replay.specs.Checking.{CountedAnew, Judged, NoStepLeft, Upheld, entries, made_by};

use crate::offers::SoughtRows;
use mini_checker::{Log, Verdict};
use mini_context::TraverseCtx;
use mini_model::OutOfMemory;
use mini_node::Node;
use mini_recorded::RowSteps;
use mini_replay::{check_by, log_rows_by};
use mini_tree::Context;
use std::alloc::Global;

// Makes the entries of a log, up to the first that has no step.
fn replay_rows(
    alloc: Global,
    program: &mut Node,
    context: &TraverseCtx,
    log: &Log,
) -> Result<Verdict, OutOfMemory>
    requires shaped { IsWellShaped program.old }
    requires short { length log.now < 2 ^ 32 }
    ensures judged { (o : CompressOptions) → Knows context.now o program.old → IfOk result (Judged o.sequences (writable_in program.old) program.old program.new log.now) }
    ensures upheld { (o : CompressOptions) → Knows context.now o program.old → IfOk result (λ verdict. Upheld o program.old program.new (made_by log.now verdict)) }
{
    let rows = RowSteps {
        sequences: context.options.sequences,
        scopes: &context.scopes,
    };
    let verdict = check_by(&rows, alloc, program, log);
    let RowSteps {
        sequences: _,
        scopes: _,
    } = rows;
    verdict
}

// Makes steps.
fn make_rows(
    alloc: Global,
    program: &mut Node,
    context: &TraverseCtx,
    max_entries: u32,
) -> Result<Log, OutOfMemory>
    requires shaped { IsWellShaped program.old }
    ensures replays { (o : CompressOptions) → Knows context.now o program.old → IfOk result (λ log. replayed o.sequences (writable_in program.old) program.old (entries log) ≡ Some program.new) }
    ensures bound { IfOk result (λ log. length log ≤ max_entries) }
    ensures all { (o : CompressOptions) → Knows context.now o program.old → IfOk result (λ log. length log < max_entries → NoStepLeft o.sequences (writable_in program.old) program.new) }
    ensures upheld { (o : CompressOptions) → Knows context.now o program.old → IfOk result (λ log. Upheld o program.old program.new (length log)) }
{
    let steps = RowSteps {
        sequences: context.options.sequences,
        scopes: &context.scopes,
    };
    let rows = SoughtRows { steps };
    let log = log_rows_by(&rows, alloc, program, max_entries);
    let SoughtRows { steps } = rows;
    let RowSteps {
        sequences: _,
        scopes: _,
    } = steps;
    log
}

// The context looks at the program.
fn look(alloc: Global, program: &Node, context: &mut TraverseCtx) -> Result<(), OutOfMemory>
    ensures { (o : CompressOptions) → (q : Tree) → Knows context.old o q → OnOk result (Knows context.new o program.now) }
{
    context.refresh(alloc, program)
}

/// Checks a log of rewrites of a program, which anyone may have written. The answer is Yes exactly
/// where each entry in turn has a step, and the program is then the last one; else it names the
/// first entry that has none, and the program is the one before it. No rewrite of the minifier is
/// called.
///
/// The context knows the program, before and after. The only error is that memory runs out, and
/// then the program and the context are fit only to be dropped.
pub fn check_log(
    alloc: Global,
    program: &mut Node,
    context: &mut TraverseCtx,
    log: &Log,
) -> Result<Verdict, OutOfMemory>
    requires known { ((o : CompressOptions) × Knows context.old o program.old) }
    requires shaped { IsWellShaped program.old }
    requires short { length log.now < 2 ^ 32 }
    ensures judged { (o : CompressOptions) → Knows context.old o program.old → IfOk result (Judged o.sequences (writable_in program.old) program.old program.new log.now) }
    ensures upheld { (o : CompressOptions) → Knows context.old o program.old → IfOk result (λ verdict. Upheld o program.old program.new (made_by log.now verdict)) }
    ensures counts { OnOk result (CountedAnew context.new.scopes program.new) }
    ensures known { (o : CompressOptions) → Knows context.old o program.old → OnOk result (Knows context.new o program.new) }
{
    let verdict = replay_rows(alloc, program, context, log)?;
    look(alloc, program, context)?;
    Ok(verdict)
}

/// Makes steps of a program by the rows of a log, at most so many, and gives their log: a check of
/// it on an equal program says Yes, and leaves the same last program. There are fewer entries only
/// where no row has a step at any path of the last program.
///
/// The context knows the program, before and after. The only error is that memory runs out, and
/// then the program and the context are fit only to be dropped.
pub fn log_rows(
    alloc: Global,
    program: &mut Node,
    context: &mut TraverseCtx,
    max_entries: u32,
) -> Result<Log, OutOfMemory>
    requires known { ((o : CompressOptions) × Knows context.old o program.old) }
    requires shaped { IsWellShaped program.old }
    ensures replays { (o : CompressOptions) → Knows context.old o program.old → IfOk result (λ log. replayed o.sequences (writable_in program.old) program.old (entries log) ≡ Some program.new) }
    ensures bound { IfOk result (λ log. length log ≤ max_entries) }
    ensures all { (o : CompressOptions) → Knows context.old o program.old → IfOk result (λ log. length log < max_entries → NoStepLeft o.sequences (writable_in program.old) program.new) }
    ensures upheld { (o : CompressOptions) → Knows context.old o program.old → IfOk result (λ log. Upheld o program.old program.new (length log)) }
    ensures counts { OnOk result (CountedAnew context.new.scopes program.new) }
    ensures known { (o : CompressOptions) → Knows context.old o program.old → OnOk result (Knows context.new o program.new) }
{
    let log = make_rows(alloc, program, context, max_entries)?;
    look(alloc, program, context)?;
    Ok(log)
}
