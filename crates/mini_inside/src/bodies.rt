//! What holds the list of a body: an arrow function, any other function, a module and a static
//! block.

ghost use Rattle.std.specs.Prelude.{◌≡◌, ◌<◌, true, IfOk};
ghost use Rattle.mini_model.specs.declared.place.Position.TheVariants.{Expr, Elsewhere};
ghost use Rattle.mini_model.specs.declared.seat.Seat.{Seat};
ghost use Rattle.mini_model.specs.Tree.{absent, children, count};
ghost use Rattle.mini_node.specs.Children.{part, with_part};
ghost use Rattle.mini_rows.specs.declared.inside.Way.TheVariants as way;
ghost use Rattle.mini_inside.specs.Further.{AppliedAt, InFunction, UnderBody, UnderList, Under, with_body_list};

use crate::ends::EndRewrites;
use crate::further::remove_below;
use crate::holding::{has_statements, holds_list, is_function};
use crate::stack::{pop_above, push_above};
use mini_model::OutOfMemory;
use mini_node::{Node, Nodes, discard, listed};
use mini_rows::Way;
use mini_unused::{put_child, take_child};
use std::alloc::Global;

// In a list of statements, below the node that holds it, without it.
fn remove_under<E: EndRewrites>(
    alloc: Global,
    outside: &mut Node,
    list: &mut Node,
    ends: &E,
) -> Result<bool, OutOfMemory>
    ensures { IfOk result (λ changed. Under (E.ends ends.now) outside.old list.old outside.new list.new changed) }
{
    let mut above = listed(Nodes::new(alloc));
    push_above(alloc, &mut above, outside)?;
    let changed = remove_below(alloc, &mut above, Way::Statements, list, ends)?;
    pop_above(&mut above, outside);
    discard(above);
    Ok(changed)
}

// The list of the body at the index, taken out of it.
#[tactic(auto, using(mini_unused::proofs::Unused::same_parts, mini_unused::proofs::Unused::part_twice))]
fn take_list(node: &mut Node, which: usize) -> Node
    requires body { which < count (children node.old) }
    requires list { 0 < count (children (part node.old which)) }
    ensures list { result ≡ part (part node.old which) 0 }
    ensures left { node.new ≡ with_body_list node.old which absent }
{
    let mut body = take_child(node, which);
    let list = take_child(&mut body, 0);
    put_child(node, which, body);
    list
}

#[tactic(auto, using(mini_unused::proofs::Unused::same_parts, mini_unused::proofs::Unused::part_twice))]
fn put_list(node: &mut Node, which: usize, list: Node)
    requires body { which < count (children node.old) }
    requires list { 0 < count (children (part node.old which)) }
    ensures { node.new ≡ with_body_list node.old which list }
{
    let mut body = take_child(node, which);
    put_child(&mut body, 0, list);
    put_child(node, which, body);
}

// Of a function, whose body is the child at the index.
fn remove_in_body<E: EndRewrites>(
    alloc: Global,
    node: &mut Node,
    which: usize,
    ends: &E,
) -> Result<bool, OutOfMemory>
    requires body { which < count (children node.old) }
    requires list { 0 < count (children (part node.old which)) }
    ensures { IfOk result (λ changed. UnderBody (E.ends ends.now) node.old which node.new changed) }
{
    let mut list = take_list(node, which);
    let changed = remove_under(alloc, node, &mut list, ends)?;
    put_list(node, which, list);
    Ok(changed)
}

// Of a module or a static block.
fn remove_in_holder<E: EndRewrites>(
    alloc: Global,
    node: &mut Node,
    ends: &E,
) -> Result<bool, OutOfMemory>
    requires { 0 < count (children node.old) }
    ensures { IfOk result (λ changed. UnderList (E.ends ends.now) node.old node.new changed) }
{
    let mut list = take_child(node, 0);
    let changed = remove_under(alloc, node, &mut list, ends)?;
    put_child(node, 0, list);
    Ok(changed)
}

/// Of a function that is no arrow function, wherever it stands, what is done at the ends of the
/// ways in it. The answer says whether a name went; the only error is that memory runs out, and
/// then the node is fit only to be dropped.
pub fn remove_inside_function<E: EndRewrites>(
    alloc: Global,
    node: &mut Node,
    ends: &E,
) -> Result<bool, OutOfMemory>
    ensures { IfOk result (λ changed. InFunction (E.ends ends.now) node.old node.new changed) }
{
    if !is_function(node) {
        return Ok(false);
    }
    remove_in_body(alloc, node, 2, ends)
}

/// Of an arrow function with statements, and of any other function that stands as an expression,
/// what is done at the ends of the ways in it. The answer says whether a name went; the only error
/// is that memory runs out, and then the node is fit only to be dropped.
pub fn remove_inside_arrow<E: EndRewrites>(
    alloc: Global,
    node: &mut Node,
    ends: &E,
) -> Result<bool, OutOfMemory>
    ensures { IfOk result (λ changed. (s : Seat) → AppliedAt (E.ends ends.now) (Expr s) node.old node.new changed) }
{
    if !has_statements(node) {
        return remove_inside_function(alloc, node, ends);
    }
    remove_in_body(alloc, node, 1, ends)
}

/// Of a module, a static block, and a function that is exported, what is done at the ends of the
/// ways in it. The answer says whether a name went; the only error is that memory runs out, and
/// then the node is fit only to be dropped.
pub fn remove_inside_module<E: EndRewrites>(
    alloc: Global,
    node: &mut Node,
    ends: &E,
) -> Result<bool, OutOfMemory>
    ensures { IfOk result (λ changed. AppliedAt (E.ends ends.now) Elsewhere node.old node.new changed) }
{
    if !holds_list(node) {
        return remove_inside_function(alloc, node, ends);
    }
    remove_in_holder(alloc, node, ends)
}
