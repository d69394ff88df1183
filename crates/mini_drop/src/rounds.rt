//! Items that nothing refers to go, until there is none.

ghost use Rattle.std.specs.Prelude.{◌≡◌, ◌<◌, ◌+◌, true, false, IfOk, OnOk};
ghost use Rattle.mini_model.specs.Tree.{Tree, node_count};
ghost use Rattle.mini_accept.specs.WellShaped.{IsWellShaped};
ghost use Rattle.mini_tree.specs.declared.options.CompressOptions.{CompressOptions};
ghost use Rattle.mini_context.specs.Known.{Knows};
ghost use Rattle.mini_dead.specs.Dead.{dead_count};
ghost use Rattle.mini_dead.specs.Drops.{Drops, DropsAgain};
ghost use Rattle.mini_dead.specs.DeadDropped.{DeadDropped};
ghost use Rattle.mini_drop.specs.Symbols.{CountedAnew};

use crate::dead::dead_symbols;
use crate::dropping::{drop_items, sum};
use crate::place::Spot;
use crate::planned::drop_planned;
use mini_context::TraverseCtx;
use mini_model::OutOfMemory;
use mini_node::Node;
use mini_tree::Context;
use std::alloc::Global;

// The dead items of a program go, and the context looks at it anew. The answer is how many there
// were.
fn drop_once(
    alloc: Global,
    program: &mut Node,
    context: &mut TraverseCtx,
) -> Result<u32, OutOfMemory>
    requires known { ((o : CompressOptions) × Knows context.old o program.old) }
    requires shaped { IsWellShaped program.old }
    ensures drops { IfOk result (λ gone. Drops program.old program.new gone) }
    ensures number { IfOk result (λ gone. gone ≡ dead_count program.old) }
    ensures known { (o : CompressOptions) → Knows context.old o program.old → OnOk result (Knows context.new o program.new) }
{
    let dead = dead_symbols(alloc, program, context)?;
    let gone = drop_items(dead.as_slice(), Spot::Elsewhere, program)?;
    context.refresh(alloc, program)?;
    Ok(gone)
}

// The dead items of a program go, and their number is added to a total. The answer says whether
// anything went.
fn drop_more(
    alloc: Global,
    program: &mut Node,
    context: &mut TraverseCtx,
    total: &mut u32,
) -> Result<bool, OutOfMemory>
    requires known { ((o : CompressOptions) × Knows context.old o program.old) }
    requires shaped { IsWellShaped program.old }
    ensures again { (first : Tree) → DropsAgain first program.old total.old → OnOk result (DropsAgain first program.new total.new) }
    ensures shaped { OnOk result (IsWellShaped program.new) }
    ensures fewer { IfOk result (λ more. more ≡ true → node_count program.new < node_count program.old) }
    ensures none { IfOk result (λ more. more ≡ false → dead_count program.new ≡ 0) }
    ensures known { (o : CompressOptions) → Knows context.old o program.old → OnOk result (Knows context.new o program.new) }
{
    let gone = drop_once(alloc, program, context)?;
    *total = sum(*total, gone)?;
    Ok(gone > 0)
}

/// Takes the items that nothing refers to out of a program, until there is none, and says how many
/// went: functions and declarators of names without references, and functions that are statements
/// by themselves, in lists of statements. `function f() { g(); } function g() {} h();` becomes
/// `h();` in a module.
///
/// The context knows the program, before and after. The only error is that memory runs out, and
/// then the program and the context are fit only to be dropped. Memory counts as run out where 2^32
/// items go.
pub fn drop_dead(
    alloc: Global,
    program: &mut Node,
    context: &mut TraverseCtx,
) -> Result<u32, OutOfMemory>
    requires known { ((o : CompressOptions) × Knows context.old o program.old) }
    requires shaped { IsWellShaped program.old }
    ensures drops { IfOk result (λ gone. DropsAgain program.old program.new gone) }
    ensures unchanged { IfOk result (λ gone. gone ≡ 0 → program.new ≡ program.old) }
    ensures none_left { OnOk result (dead_count program.new ≡ 0) }
    ensures shaped { OnOk result (IsWellShaped program.new) }
    ensures all { IfOk result (λ gone. DeadDropped program.old program.new gone) }
    ensures counts { OnOk result (CountedAnew context.new.scopes program.new) }
    ensures known { (o : CompressOptions) → Knows context.old o program.old → OnOk result (Knows context.new o program.new) }
{
    let mut total = 0;
    'rounds: while drop_more(alloc, program, context, &mut total)? {
        drop_planned(alloc, program, context, &mut total)?;
    }
    Ok(total)
}
