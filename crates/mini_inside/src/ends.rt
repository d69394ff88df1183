//! What is done at the end of a way further inside a body: rows 71 and 72 of a `var` in a list of
//! statements, in no list, and in the head of a `for`.

ghost use Rattle.std.specs.Prelude.{◌≡◌, ◌<◌, ◌&&◌, ◌||◌, not, true, IfOk};
ghost use Rattle.mini_model.specs.Tree.{◌▸◌, none, children, count, listed as as_list};
ghost use Rattle.mini_laws.specs.ScopeList.{has_eval};
ghost use Rattle.mini_node.specs.Children.{part};
ghost use Rattle.mini_node.specs.Kinds.{is_listed as is_it_listed};
ghost use Rattle.mini_rows.specs.declared.inside.Way.TheVariants as way;
ghost use Rattle.mini_rows.specs.Inside.{Ends, EndsLighten, unused_ends};
ghost use Rattle.mini_unused.specs.RemoveUnusedDeclaration.{is_var as is_it_var, allowed, open_in};
ghost use Rattle.mini_inside.specs.Holding.{is_idle_at as is_it_idle_at};
ghost use Rattle.mini_inside.specs.Further.{HereWalked, HeadingFound};
ghost use Rattle.mini_inside.specs.Lighter.{unused_ends_lighten};

use crate::holding::{drop_from_head, is_idle_at};
use mini_context::TraverseCtx;
use mini_model::OutOfMemory;
use mini_node::{Node, discard, is_listed, listed, of_one, one, taken};
use mini_rows::Way;
use mini_unused::{either_has_eval, is_var, remove_in_list, substitute_within, unused_of};
use std::alloc::Global;
use std::mem;

/// What is done at the end of a way, by the nodes above it, each without what the way goes into.
pub trait EndRewrites {
    /// Which tree may become which at the end of a way.
    ghost ends: { Self → Ends };

    /// Writes there what a row says, once or more often, and answers true; or leaves it, if none
    /// reads it, and answers false. The only error is that memory runs out, and then the node is
    /// fit only to be dropped.
    fn rewrite_end(
        &self,
        alloc: Global,
        above: &Node,
        way: Way,
        node: &mut Node,
    ) -> Result<bool, OutOfMemory>
        requires { is_it_listed above.now ≡ true }
        ensures { IfOk result (λ changed. HereWalked (ends self.now) (children above.now) way node.old node.new changed) };

    /// What holds the body gets lighter by each rewrite at the end of a way in it.
    ghost lighter: { (c : Self) → EndsLighten (Self.ends c) };
}

// In a list of statements.
fn remove_in_statements(
    alloc: Global,
    above: &Node,
    node: &mut Node,
    context: &TraverseCtx,
) -> Result<bool, OutOfMemory>
    requires { is_it_listed above.now ≡ true }
    ensures { IfOk result (λ changed. HereWalked (unused_ends (allowed context.now)) (children above.now) way.Statements node.old node.new changed) }
{
    if !is_listed(node) {
        return Ok(false);
    }
    remove_in_list(alloc, above, node, context)
}

/// A node, taken out of its place, as the only one of a list. The only error is that memory runs
/// out.
pub fn take_alone(alloc: Global, node: &mut Node) -> Result<Node, OutOfMemory>
    ensures { IfOk result (λ list. list ≡ as_list (node.old ▸ none)) }
{
    let moved = taken(alloc, node);
    Ok(listed(of_one(alloc, moved)?))
}

/// Puts the first node of a list into a place.
pub fn put_first(node: &mut Node, list: Node)
    ensures { node.new ≡ part list 0 }
{
    discard(mem::replace(node, one(list)));
}

// In a `var` in no list, which is read like a list of this one statement.
fn remove_held(
    alloc: Global,
    above: &Node,
    node: &mut Node,
    context: &TraverseCtx,
) -> Result<bool, OutOfMemory>
    requires { is_it_listed above.now ≡ true }
    ensures { IfOk result (λ changed. HereWalked (unused_ends (allowed context.now)) (children above.now) way.Held node.old node.new changed) }
{
    if !is_var(node) {
        return Ok(false);
    }
    let mut list = take_alone(alloc, node)?;
    let changed = remove_in_list(alloc, above, &mut list, context)?;
    put_first(node, list);
    Ok(changed)
}

// Nothing misses the initializer of the declarator at the index, and no direct eval sees its name.
fn goes_alone(above: &Node, list: &Node, which: usize) -> bool
    requires declarators { 0 < count (children list.now) }
    requires list { 0 < count (children (part list.now 0)) }
    requires declarator { which < count (children (part (part list.now 0) 0)) }
    ensures { result ≡ (is_it_idle_at (part (part list.now 0) 0) which && not (has_eval above.now || has_eval list.now)) }
{
    is_idle_at(list.child(0).child(0), which) && !either_has_eval(above, list)
}

// Of what a `for` begins with, alone in a list, a declarator whose name nothing else mentions and
// whose initializer nothing misses.
fn idle_place(above: &Node, list: &Node, context: &TraverseCtx) -> Option<usize>
    requires above { is_it_listed above.now ≡ true }
    requires alone { list.now ≡ as_list (part list.now 0 ▸ none) }
    requires some { 0 < count (children list.now) }
    requires var { is_it_var (part list.now 0) ≡ true }
    ensures { HeadingFound (open_in above.now (allowed context.now)) above.now (part list.now 0) result }
{
    match unused_of(above, list.children(), 0, context) {
        Some(which) => {
            if goes_alone(above, list, which) {
                Some(which)
            } else {
                None
            }
        }
        None => None,
    }
}

// In what a `for` begins with, where that is a `var`: a name that nothing else mentions goes, or
// one that the next declarator reads.
fn remove_in_heading(
    alloc: Global,
    above: &Node,
    node: &mut Node,
    context: &TraverseCtx,
) -> Result<bool, OutOfMemory>
    requires { is_it_listed above.now ≡ true }
    ensures { IfOk result (λ changed. HereWalked (unused_ends (allowed context.now)) (children above.now) way.Head node.old node.new changed) }
{
    if !is_var(node) {
        return Ok(false);
    }
    let mut list = take_alone(alloc, node)?;
    match idle_place(above, &list, context) {
        Some(which) => {
            put_first(node, list);
            drop_from_head(alloc, node, which);
            Ok(true)
        }
        None => {
            let changed = substitute_within(above, &mut list, context);
            put_first(node, list);
            Ok(changed)
        }
    }
}

// In what stands at the end of a way.
fn remove_here(
    alloc: Global,
    above: &Node,
    way: Way,
    node: &mut Node,
    context: &TraverseCtx,
) -> Result<bool, OutOfMemory>
    requires { is_it_listed above.now ≡ true }
    ensures { IfOk result (λ changed. HereWalked (unused_ends (allowed context.now)) (children above.now) way node.old node.new changed) }
{
    match way {
        Way::Statements => remove_in_statements(alloc, above, node, context),
        Way::Held => remove_held(alloc, above, node, context),
        Way::Head => remove_in_heading(alloc, above, node, context),
        Way::Statement | Way::Cases | Way::Case | Way::Catch => Ok(false),
    }
}

/// Rows 71 and 72, over the names that can be written and the options.
#[derive(Drop)]
pub struct UnusedEnds<'a> {
    /// Which names can be written, and the options.
    pub context: &'a TraverseCtx,
}

impl<'a> EndRewrites for UnusedEnds<'a> {
    ghost ends = { λ c. unused_ends (allowed c.context.now) };

    fn rewrite_end(
        &self,
        alloc: Global,
        above: &Node,
        way: Way,
        node: &mut Node,
    ) -> Result<bool, OutOfMemory> {
        remove_here(alloc, above, way, node, self.context)
    }

    ghost lighter = { λ c. unused_ends_lighten (allowed c.context.now) };
}
