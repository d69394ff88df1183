//! The items of a plan go, where it is sound.

ghost use Rattle.std.specs.Prelude.{◌≡◌, ◌≤◌, ◌&&◌, not, true, slice_index, length, IfOk, OnOk};
ghost use Rattle.mini_model.specs.Tree.{Tree, node_count};
ghost use Rattle.mini_accept.specs.WellShaped.{IsWellShaped};
ghost use Rattle.mini_tree.specs.declared.options.CompressOptions.{CompressOptions};
ghost use Rattle.mini_context.specs.Facts.{shared_always};
ghost use Rattle.mini_context.specs.Known.{Knows};
ghost use Rattle.mini_context.specs.Tables.{mark_at};
ghost use Rattle.mini_dead.specs.Drops.{DropsAgain};
ghost use Rattle.mini_drop.specs.Symbols.{Unseen, Sound};

use crate::dead::room_of;
use crate::declared::mark_declared;
use crate::dropping::{drop_items, sum};
use crate::going::may_go;
use crate::guess::{Plan, guess};
use crate::place::Spot;
use mini_context::{TraverseCtx, is_marked, no_marks};
use mini_model::{OutOfMemory, SymbolId};
use mini_node::Node;
use mini_tree::Context;
use std::alloc::Global;

fn is_unseen(set: &[bool], context: &TraverseCtx, symbol: u32) -> bool
    ensures { result ≡ not (mark_at set.now symbol && shared_always context.now.scopes symbol) }
{
    !(is_marked(set, symbol) && context.scopes.is_shared_always(SymbolId(symbol)))
}

// No symbol of the set is shared always, of so many.
fn are_unseen(set: &[bool], context: &TraverseCtx, room: u32) -> bool
    ensures { result ≡ true → Unseen (mark_at set.now) context.now.scopes room }
{
    let mut unseen = true;
    for symbol in 0..room {
        unseen = unseen & is_unseen(set, context, symbol);
    }
    unseen
}

fn fits(set: &[bool], room: u32) -> bool
    ensures { result ≡ true → length set.now ≤ room }
{
    set.len() <= room as usize
}

// Whether the items of a plan may go from a program.
fn is_sound(plan: &Plan, program: &Node, context: &TraverseCtx, room: u32) -> bool
    requires known { ((o : CompressOptions) × Knows context.now o program.now) }
    requires room { room ≡ length context.now.scopes.reads }
    ensures { result ≡ true → Sound plan.now.set.items plan.now.rounds.items program.now }
{
    let set = plan.set.as_slice();
    fits(set, room)
        & are_unseen(set, context, room)
        & may_go(set, plan.rounds.as_slice(), Spot::Elsewhere, program)
}

fn plan_of(
    alloc: Global,
    program: &Node,
    context: &TraverseCtx,
    room: u32,
) -> Result<Plan, OutOfMemory> {
    let mut declared = no_marks(alloc, room)?;
    mark_declared(&mut declared, Spot::Elsewhere, program);
    guess(alloc, program, context, declared.as_slice(), room)
}

// The items of a sound plan go.
fn drop_plan(
    alloc: Global,
    plan: &Plan,
    program: &mut Node,
    context: &mut TraverseCtx,
    total: &mut u32,
) -> Result<(), OutOfMemory>
    requires known { ((o : CompressOptions) × Knows context.old o program.old) }
    requires shaped { IsWellShaped program.old }
    requires sound { Sound plan.now.set.items plan.now.rounds.items program.old }
    ensures again { (first : Tree) → DropsAgain first program.old total.old → OnOk result (DropsAgain first program.new total.new) }
    ensures shaped { OnOk result (IsWellShaped program.new) }
    ensures no_more { OnOk result (node_count program.new ≤ node_count program.old) }
    ensures known { (o : CompressOptions) → Knows context.old o program.old → OnOk result (Knows context.new o program.new) }
{
    let gone = drop_items(plan.set.as_slice(), Spot::Elsewhere, program)?;
    *total = sum(*total, gone)?;
    context.refresh(alloc, program)?;
    Ok(())
}

/// The items go of which a guess says that they may go at once, where that is so: a chain of
/// functions, each used by the next alone.
pub fn drop_planned(
    alloc: Global,
    program: &mut Node,
    context: &mut TraverseCtx,
    total: &mut u32,
) -> Result<(), OutOfMemory>
    requires known { ((o : CompressOptions) × Knows context.old o program.old) }
    requires shaped { IsWellShaped program.old }
    ensures again { (first : Tree) → DropsAgain first program.old total.old → OnOk result (DropsAgain first program.new total.new) }
    ensures shaped { OnOk result (IsWellShaped program.new) }
    ensures no_more { OnOk result (node_count program.new ≤ node_count program.old) }
    ensures known { (o : CompressOptions) → Knows context.old o program.old → OnOk result (Knows context.new o program.new) }
{
    let room = room_of(context)?;
    let plan = plan_of(alloc, program, context, room)?;
    if plan.next == 1 || !is_sound(&plan, program, context, room) {
        return Ok(());
    }
    drop_plan(alloc, &plan, program, context, total)
}
