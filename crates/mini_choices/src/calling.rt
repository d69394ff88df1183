//! Tests of calls, and of two that differ in their first argument.

ghost use Rattle.std.specs.Prelude.{◌≡◌, ◌<◌, true, IfOk};
ghost use Rattle.mini_model.specs.Tree.{children, count};
ghost use Rattle.mini_node.specs.Children.{part};
ghost use Rattle.mini_rows.specs.Choices.{spread as spread_of};
ghost use Rattle.mini_choices.specs.Calling.{is_spread as is_it_spread, begins_with_item as it_begins_with_item, begins_with_spread as it_begins_with_spread, begin_alike as they_begin_alike, chosen_first as first_chosen, are_others_same as are_its_others_same, is_idle as is_it_idle, are_alike as are_they_alike, calls_either as it_calls_either, called as called_of};

use mini_model::{OutOfMemory, Shape};
use mini_node::{
    Node, Nodes, call_expression, conditional, discard, is_call_expression, is_conditional,
    is_same_tree, of_one, one, take_first, three, two,
};
use mini_terms::{is_effect_free, is_item, is_plain_part};
use std::alloc::Global;

// Whether it is `...p`.
fn is_spread(node: &Node) -> bool
    ensures kind { result ≡ is_it_spread node.now }
    ensures parts { result ≡ true → count (children node.now) ≡ 1 }
{
    matches!(node.shape(), Shape::SpreadElement) && node.is_bare(1)
}

// Whether an expression stands first.
#[tactic(auto, using(crate::proofs::Calls::none_first, crate::proofs::Calls::some_first))]
fn begins_with_item(nodes: &Nodes) -> bool
    ensures kind { result ≡ it_begins_with_item nodes.now }
    ensures parts { result ≡ true → 0 < count nodes.now }
{
    nodes.len() > 0 && is_item(nodes.child(0))
}

// Whether what stands first is spread.
#[tactic(auto, using(crate::proofs::Calls::none_spread, crate::proofs::Calls::some_spread))]
fn begins_with_spread(nodes: &Nodes) -> bool
    ensures kind { result ≡ it_begins_with_spread nodes.now }
    ensures parts { result ≡ true → 0 < count nodes.now }
{
    nodes.len() > 0 && is_spread(nodes.child(0))
}

// Whether both begin with an expression, or both with one that is spread.
fn begin_alike(first: &Nodes, second: &Nodes) -> bool
    ensures kind { result ≡ they_begin_alike first.now second.now }
    ensures first_there { result ≡ true → 0 < count first.now }
    ensures second_there { result ≡ true → 0 < count second.now }
{
    begins_with_item(first) && begins_with_item(second)
        || begins_with_spread(first) && begins_with_spread(second)
}

// Whether all but the first are the same.
fn are_others_same(first: &Nodes, second: &Nodes) -> bool
    requires first_there { 0 < count first.now }
    requires second_there { 0 < count second.now }
    ensures { result ≡ are_its_others_same first.now second.now }
{
    let count = first.len();
    if second.len() != count {
        return false;
    }
    for at in 1..count {
        if !is_same_tree(first.child(at), second.child(at)) {
            return false;
        }
    }
    true
}

// An expression without an effect, which is the same function wherever it is asked. `this` has one
// where it is asked of the world.
fn is_idle(node: &Node, asked: bool) -> bool
    ensures { result ≡ is_it_idle asked node.now }
{
    is_plain_part(node) && is_effect_free(node, asked)
}

// Whether two calls are of one such function, with the same arguments after the first, of which
// both are expressions or both spread.
fn are_alike(first: &Node, second: &Node, asked: bool) -> bool
    requires first_parts { count (children first.now) ≡ 2 }
    requires second_parts { count (children second.now) ≡ 2 }
    ensures { result ≡ are_they_alike asked first.now second.now }
{
    begin_alike(first.child(1).children(), second.child(1).children())
        && is_same_tree(first.child(0), second.child(0))
        && is_idle(first.child(0), asked)
        && are_others_same(first.child(1).children(), second.child(1).children())
}

/// `a ? f(p, r) : f(q, r)`, where evaluating a has no effect, nor has f; `this` has one where it is
/// asked of the world.
pub fn calls_either(node: &Node, asked: bool) -> bool
    ensures { result ≡ it_calls_either asked node.now }
{
    is_conditional(node)
        && is_call_expression(node.child(1))
        && is_call_expression(node.child(2))
        && are_alike(node.child(1), node.child(2), asked)
        && is_effect_free(node.child(0), asked)
}

// `...p`
fn spread(alloc: Global, operand: Node) -> Result<Node, OutOfMemory>
    ensures { IfOk result (λ w. w ≡ spread_of operand) }
{
    Ok(Node::new(Shape::SpreadElement, of_one(alloc, operand)?))
}

// `a ? p : q`, and `...a ? p : q`
fn chosen_first(alloc: Global, test: Node, first: Node, second: Node) -> Result<Node, OutOfMemory>
    ensures { IfOk result (λ w. w ≡ first_chosen test first second) }
{
    if is_spread(&first) {
        let value = conditional(alloc, test, one(first), one(second))?;
        return spread(alloc, value);
    }
    conditional(alloc, test, first, second)
}

/// `f(a ? p : q, r)` of `a ? f(p, r) : f(q, r)`. The only error is that memory runs out.
pub fn called(alloc: Global, node: Node) -> Result<Node, OutOfMemory>
    ensures { IfOk result (λ w. w ≡ called_of node) }
{
    let (test, consequent, alternate) = three(node);
    let (callee, list) = two(consequent);
    let (again, others) = two(alternate);
    discard(again);
    let mut arguments = list.into_children();
    let first = take_first(&mut arguments);
    let value = chosen_first(alloc, test, first, one(others))?;
    arguments.insert(0, value)?;
    call_expression(alloc, callee, arguments)
}
