//! One walk over a tree, children first.

ghost use Rattle.std.specs.Prelude.{IfOk, OnOk};
ghost use Rattle.mini_model.specs.Rewriting.{Reaches};
ghost use Rattle.mini_tree.specs.Context.{KnowsSome, KnowsAsBefore, ByKnown};
ghost use Rattle.mini_tree.specs.Rule.{Applied};
ghost use Rattle.mini_tree.specs.Walk.{Walked, WalkedBelow};

use crate::place::child_place;
use crate::rule::{Context, Rule};
use mini_model::{OutOfMemory, Position};
use mini_node::{Node, is_block};
use std::alloc::Global;

/// Walks over a node, its children first, and at each node applies the rule until it answers false.
/// The answer says whether anything changed; the only error is that memory runs out, and then the
/// node is fit only to be dropped.
#[cycle(nodes)]
pub fn walk<C: Context, R: Rule<C>>(
    rule: &R,
    alloc: Global,
    node: &mut Node,
    place: Position,
    context: &mut C,
) -> Result<bool, OutOfMemory>
    requires { KnowsSome C.knows context.old }
    ensures walked { IfOk result (λ changed. ByKnown C.knows context.old (λ o q. Walked (R.gives o q) (R.rests o q) place node.old node.new changed)) }
    ensures known { OnOk result (KnowsAsBefore C.knows context.old context.new) }
{
    let below = walk_children(rule, alloc, node, place, context)?;
    let here = settle(rule, alloc, node, place, context)?;
    Ok(below | here)
}

// The children of the node, one after another.
#[cycle(nodes)]
fn walk_children<C: Context, R: Rule<C>>(
    rule: &R,
    alloc: Global,
    node: &mut Node,
    place: Position,
    context: &mut C,
) -> Result<bool, OutOfMemory>
    requires { KnowsSome C.knows context.old }
    ensures walked { IfOk result (λ changed. ByKnown C.knows context.old (λ o q. WalkedBelow (R.gives o q) (R.rests o q) place node.old node.new changed)) }
    ensures known { OnOk result (KnowsAsBefore C.knows context.old context.new) }
{
    let count = node.children().len();
    let mut changed = false;
    for at in 0..count {
        let stands = child_place(node.shape(), place, count, at);
        let child = walk(
            rule,
            alloc,
            node.children_mut().child_mut(at),
            stands,
            context,
        )?;
        changed = changed | child;
    }
    Ok(changed)
}

// The node itself, until the rule answers false. What the rule has made is looked at one level down
// as well, and so is the list of a block there: a statement that becomes an expression is done in
// one walk, and so is `for (;;) { if (a) break; b(); if (c) break; }`, of which the second guard
// leads only once the rule has been at the list.
fn settle<C: Context, R: Rule<C>>(
    rule: &R,
    alloc: Global,
    node: &mut Node,
    place: Position,
    context: &mut C,
) -> Result<bool, OutOfMemory>
    requires { KnowsSome C.knows context.old }
    ensures walked { IfOk result (λ changed. ByKnown C.knows context.old (λ o q. Applied (R.gives o q) (R.rests o q) place node.old node.new changed)) }
    ensures known { OnOk result (KnowsAsBefore C.knows context.old context.new) }
{
    let mut changed = false;
    'again: while repeat(rule, alloc, node, place, context)? {
        changed = true;
        repeat_below(rule, alloc, node, place, context)?;
    }
    Ok(changed)
}

// The rule at the node alone, until it answers false.
fn repeat<C: Context, R: Rule<C>>(
    rule: &R,
    alloc: Global,
    node: &mut Node,
    place: Position,
    context: &mut C,
) -> Result<bool, OutOfMemory>
    requires { KnowsSome C.knows context.old }
    ensures walked { IfOk result (λ changed. ByKnown C.knows context.old (λ o q. Applied (R.gives o q) (R.rests o q) place node.old node.new changed)) }
    ensures known { OnOk result (KnowsAsBefore C.knows context.old context.new) }
{
    let mut changed = false;
    'again: while rule.apply(alloc, node, place, context)? {
        changed = true;
    }
    Ok(changed)
}

// The rule at each child of the node, until it answers false there.
fn repeat_parts<C: Context, R: Rule<C>>(
    rule: &R,
    alloc: Global,
    node: &mut Node,
    place: Position,
    context: &mut C,
) -> Result<(), OutOfMemory>
    requires { KnowsSome C.knows context.old }
    ensures reached { OnOk result (ByKnown C.knows context.old (λ o q. Reaches (R.gives o q) place node.old node.new)) }
    ensures known { OnOk result (KnowsAsBefore C.knows context.old context.new) }
{
    let parts = node.children().len();
    for at in 0..parts {
        let stands = child_place(node.shape(), place, parts, at);
        let child = node.children_mut().child_mut(at);
        let _changed = repeat(rule, alloc, child, stands, context)?;
    }
    Ok(())
}

// The rule at the node, until it answers false, and then at the list of a block.
fn repeat_through<C: Context, R: Rule<C>>(
    rule: &R,
    alloc: Global,
    node: &mut Node,
    place: Position,
    context: &mut C,
) -> Result<(), OutOfMemory>
    requires { KnowsSome C.knows context.old }
    ensures reached { OnOk result (ByKnown C.knows context.old (λ o q. Reaches (R.gives o q) place node.old node.new)) }
    ensures known { OnOk result (KnowsAsBefore C.knows context.old context.new) }
{
    let _changed = repeat(rule, alloc, node, place, context)?;
    if !is_block(node) {
        return Ok(());
    }
    repeat_parts(rule, alloc, node, place, context)
}

// The rule at each child of the node, and at the list of a child that is a block, until it answers
// false there.
fn repeat_below<C: Context, R: Rule<C>>(
    rule: &R,
    alloc: Global,
    node: &mut Node,
    place: Position,
    context: &mut C,
) -> Result<(), OutOfMemory>
    requires { KnowsSome C.knows context.old }
    ensures reached { OnOk result (ByKnown C.knows context.old (λ o q. Reaches (R.gives o q) place node.old node.new)) }
    ensures known { OnOk result (KnowsAsBefore C.knows context.old context.new) }
{
    let parts = node.children().len();
    for at in 0..parts {
        let stands = child_place(node.shape(), place, parts, at);
        let child = node.children_mut().child_mut(at);
        repeat_through(rule, alloc, child, stands, context)?;
    }
    Ok(())
}
