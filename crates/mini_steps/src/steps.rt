//! Rewrites in any order and at any places.

ghost use Rattle.std.specs.Prelude.{◌≡◌, ◌+◌, ◌<◌, ◌≤◌, ◌^◌, length, IfOk, OnOk};
ghost use Rattle.mini_accept.specs.WellShaped.{IsWellShaped};
ghost use Rattle.mini_context.specs.Known.{Knows};
ghost use Rattle.mini_kept.specs.Loosely.{ProgramIsKeptLoosely};
ghost use Rattle.mini_laws.specs.References.{counts_of, reads as is_read, writes as is_write};
ghost use Rattle.mini_laws.specs.Writable.{writable_in};
ghost use Rattle.mini_rows.specs.Switches.{let_go};
ghost use Rattle.mini_stmt.specs.MinimizeStatements.{switches_of};
ghost use Rattle.mini_steps.specs.Rows.{CallRows, rows_in};
ghost use Rattle.mini_steps.specs.Steps.{Followed};
ghost use Rattle.mini_steps.specs.Taken.{Taken};

use crate::names::{Step, StepList};
use crate::walking::step_at;
use mini_context::TraverseCtx;
use mini_model::{OutOfMemory, Position};
use mini_node::Node;
use mini_tree::Context;
use std::alloc::Global;

// Takes a step, and counts it where it changed something.
fn take_step(
    alloc: Global,
    program: &mut Node,
    context: &TraverseCtx,
    step: &Step,
    changed: u64,
) -> Result<u64, OutOfMemory>
    requires { changed + 1 < 2 ^ 64 }
    ensures { IfOk result (Taken (rows_in context.now) step.now program.old program.new changed) }
{
    let path = step.at.as_slice();
    if step_at(
        alloc,
        step.rule,
        program,
        Position::Elsewhere,
        path,
        context,
    )? {
        Ok(changed + 1)
    } else {
        Ok(changed)
    }
}

// Takes the steps in order, each with what is known of the names at first.
fn take_steps(
    alloc: Global,
    program: &mut Node,
    context: &TraverseCtx,
    steps: &[Step],
) -> Result<u64, OutOfMemory>
    ensures followed { IfOk result (Followed (rows_in context.now) steps.now program.old program.new) }
    ensures bounded { IfOk result (λ changed. changed ≤ length steps.now) }
{
    let mut changed = 0;
    for at in 0..steps.len() {
        changed = take_step(alloc, program, context, &steps[at], changed)?;
    }
    Ok(changed)
}

/// Does the rewrites in order, each of the node to which its path leads in the program as the ones
/// before it left that, and answers how many changed something.
///
/// A step changes nothing only where its path leads to no node, or no row of its rewrite reads that
/// one in its place, as where it is of another kind. However many steps there are, and wherever
/// they are taken: each body runs as before the first, what stands outside of bodies is kept, and
/// so are names and symbols. Afterwards the context has looked at the program anew, so that its
/// counts are those of a fresh count. The only error is that memory runs out, and then the program
/// and the context are fit only to be dropped.
pub fn apply_steps(
    alloc: Global,
    program: &mut Node,
    context: &mut TraverseCtx,
    steps: &StepList,
) -> Result<u64, OutOfMemory>
    requires known { Knows context.old context.old.options program.old }
    ensures followed { IfOk result (Followed (CallRows (switches_of context.old.options) (writable_in program.old)) steps.now program.old program.new) }
    ensures bounded { IfOk result (λ changed. changed ≤ length steps.now) }
    ensures kept { IsWellShaped program.old → OnOk result (ProgramIsKeptLoosely (let_go (switches_of context.old.options)) (writable_in program.old) program.old program.new) }
    ensures known { OnOk result (Knows context.new context.old.options program.new) }
    ensures reads { OnOk result (context.new.scopes.reads ≡ counts_of is_read (length context.new.scopes.reads) program.new) }
    ensures writes { OnOk result (context.new.scopes.writes ≡ counts_of is_write (length context.new.scopes.reads) program.new) }
{
    let changed = take_steps(alloc, program, context, steps.as_slice())?;
    context.refresh(alloc, program)?;
    Ok(changed)
}
