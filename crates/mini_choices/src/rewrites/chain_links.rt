//! Rows 11 and 64, of optional chains by what stands before a `?.` of theirs: `(a?.b)?.c` becomes
//! `a?.b?.c`, and `[1]?.length` becomes `[1].length`, which is lighter in every seat.

ghost use Rattle.std.specs.Prelude.{◌≡◌, [], true, is_some, unwrap_or, OnOk, IfOk};
ghost use Rattle.mini_model.specs.Tree.{children, count, node as tree, none, ◌▸◌, shape_of};
ghost use Rattle.mini_node.specs.Children.{part};
ghost use Rattle.mini_terms.specs.Parts.{is_link as is_link_shape};
ghost use Rattle.mini_rows.specs.ChainLinks.{is_there as is_it_there, is_lone as is_it_lone, chain_if};
ghost use Rattle.mini_choices.specs.ChainLinks.{is_chain as is_it_chain, ends_none as ends_it_none, is_step as is_it_step, is_marked as is_it_marked, link_shape as shape_of_link, relinked as relinked_of, holds_link as holds_it_link, is_value as is_it_value, folds_here as folds_it_here, here, outcome as outcome_of, folded as folded_of, wrapped as wrapped_if, folded_written};

use crate::rewrites::inject_optional_chaining::{are_calm, is_calm, is_word};
use mini_model::{LogicalOperator, OutOfMemory, Seat, Shape};
use mini_node::{Node, is_listed, of_one, of_two, one, taken, two};
use mini_terms::{is_plain_part, stands, stops};
use std::alloc::Global;

/// Whether the expression is a chain.
pub fn is_chain(node: &Node) -> bool
    ensures kind { result ≡ is_it_chain node.now }
    ensures parts { result ≡ true → count (children node.now) ≡ 1 }
{
    match node.shape() {
        Shape::ChainExpression => node.is_bare(1),
        _ => false,
    }
}

// Of a link with this key or these arguments, whether they end no chain.
fn ends_none(shape: &Shape, key: &Node) -> bool
    ensures { result ≡ ends_it_none shape.now key.now }
{
    match shape {
        Shape::StaticMemberExpression(_) => is_word(key),
        Shape::ComputedMemberExpression(_) => is_calm(key),
        Shape::CallExpression(_) => is_listed(key) && are_calm(key.children()),
        _ => false,
    }
}

/// Whether the expression is `a.k`, `a[k]` or `a(b, c)`, optional or not, and its key or arguments
/// end no chain.
pub fn is_step(node: &Node) -> bool
    ensures kind { result ≡ is_it_step node.now }
    ensures parts { result ≡ true → count (children node.now) ≡ 2 }
{
    node.is_bare(2) && ends_none(node.shape(), node.child(1))
}

/// Whether the expression is an optional link.
pub fn is_marked(node: &Node) -> bool
    ensures { result ≡ is_it_marked (shape_of node.now) }
{
    match node.shape() {
        Shape::StaticMemberExpression(is_optional) => *is_optional,
        Shape::ComputedMemberExpression(is_optional) => *is_optional,
        Shape::CallExpression(is_optional) => *is_optional,
        _ => false,
    }
}

// A member or a call.
fn is_link(node: &Node) -> bool
    ensures { result ≡ is_link_shape (shape_of node.now) }
{
    matches!(
        node.shape(),
        Shape::CallExpression(_)
            | Shape::StaticMemberExpression(_)
            | Shape::ComputedMemberExpression(_)
            | Shape::PrivateFieldExpression(_)
    )
}

// A chain of a member or a call.
fn holds_link(node: &Node) -> bool
    ensures kind { result ≡ holds_it_link node.now }
    ensures parts { result ≡ true → count (children node.now) ≡ 1 }
{
    is_chain(node) && is_link(node.child(0))
}

// Whether each value of it is known to be neither undefined nor null.
fn is_there(node: &Node) -> bool
    ensures { result ≡ is_it_there node.now }
{
    stops(LogicalOperator::Coalesce, node)
}

// What is called without a `this`: what is read by its value alone, a function, a class or a
// BigInt.
fn is_lone(node: &Node) -> bool
    ensures { result ≡ is_it_lone node.now }
{
    match node.shape() {
        Shape::Function(false, _, _) | Shape::Class(false) | Shape::BigIntLiteral(_) => true,
        _ => stands(node),
    }
}

// A value that is there, and is called without a `this`.
fn is_value(node: &Node) -> bool
    ensures { result ≡ is_it_value node.now }
{
    is_there(node) && is_plain_part(node) && is_lone(node) && is_calm(node)
}

// An optional link over a chain, or, where its mark may go, over a value that is there.
fn folds_here(may_close: bool, node: &Node) -> bool
    requires { count (children node.now) ≡ 2 }
    ensures { result ≡ folds_it_here may_close node.now }
{
    is_marked(node) && (holds_link(node.child(0)) || (may_close && is_value(node.child(0))))
}

// The outermost such link among links, if there is one: whether a link in the chain stays optional.
#[tactic(auto, using(crate::proofs::ChainLinks::none_out, crate::proofs::ChainLinks::here_out, crate::proofs::ChainLinks::below_out))]
fn outcome(may_close: bool, node: &Node) -> Option<bool>
    ensures { result ≡ outcome_of may_close node.now }
{
    if !is_step(node) {
        return None;
    }
    if folds_here(may_close, node) {
        return Some(holds_link(node.child(0)));
    }
    match outcome(may_close, node.child(0)) {
        Some(stays) => Some(is_marked(node) || stays),
        None => None,
    }
}

// The shape of a link, optional or not.
fn link_shape(is_optional: bool, link: &Node) -> Shape
    ensures { result ≡ shape_of_link is_optional (shape_of link.now) }
{
    match link.shape() {
        Shape::CallExpression(_) => Shape::CallExpression(is_optional),
        Shape::StaticMemberExpression(_) => Shape::StaticMemberExpression(is_optional),
        _ => Shape::ComputedMemberExpression(is_optional),
    }
}

// A link of this shape.
fn relinked(alloc: Global, shape: Shape, before: Node, key: Node) -> Result<Node, OutOfMemory>
    ensures { IfOk result (λ w. w ≡ relinked_of shape before key) }
{
    Ok(Node::new(shape, of_two(alloc, before, key)?))
}

// Over a chain it stays optional, and the chain goes; over a value its mark goes.
fn folded_here(alloc: Global, node: Node) -> Result<Node, OutOfMemory>
    requires { count (children node) ≡ 2 }
    ensures { IfOk result (λ w. w ≡ here node) }
{
    let stays = holds_link(node.child(0));
    let shape = link_shape(stays, &node);
    let (before, key) = two(node);
    if stays {
        relinked(alloc, shape, one(before), key)
    } else {
        relinked(alloc, shape, before, key)
    }
}

// The links with it folded.
#[tactic(auto, using(crate::proofs::ChainLinks::none_folds, crate::proofs::ChainLinks::here_folds, crate::proofs::ChainLinks::below_folds))]
fn folded(alloc: Global, may_close: bool, node: Node) -> Result<Node, OutOfMemory>
    ensures { IfOk result (λ w. w ≡ folded_of may_close node) }
{
    if !is_step(&node) {
        return Ok(node);
    }
    if folds_here(may_close, &node) {
        return folded_here(alloc, node);
    }
    let shape = link_shape(is_marked(&node), &node);
    let (before, key) = two(node);
    let other = folded(alloc, may_close, before)?;
    relinked(alloc, shape, other, key)
}

// A chain of these links, as long as one is optional.
fn wrapped(alloc: Global, stays: bool, links: Node) -> Result<Node, OutOfMemory>
    ensures { IfOk result (λ w. w ≡ chain_if stays links) }
{
    if stays {
        return Ok(Node::new(Shape::ChainExpression, of_one(alloc, links)?));
    }
    Ok(links)
}

/// Of links in a chain the outermost optional one over a chain takes what that holds, or loses its
/// mark over a value that is there, where marks may go. The answer says whether there is one; the
/// only error is that memory runs out, and then the expression is fit only to be dropped.
pub fn fold_outermost(alloc: Global, node: &mut Node, may_close: bool) -> Result<bool, OutOfMemory>
    requires { count (children node.old) ≡ 1 }
    ensures tree { OnOk result (node.new ≡ unwrap_or (wrapped_if (outcome_of may_close (part node.old 0)) (folded_of may_close (part node.old 0))) node.old) }
    ensures said { IfOk result (λ changed. changed ≡ is_some (wrapped_if (outcome_of may_close (part node.old 0)) (folded_of may_close (part node.old 0)))) }
{
    match outcome(may_close, node.child(0)) {
        Some(stays) => {
            let links = folded(alloc, may_close, one(taken(alloc, node)))?;
            *node = wrapped(alloc, stays, links)?;
            Ok(true)
        }
        None => Ok(false),
    }
}

/// `(a?.b)?.c` becomes `a?.b?.c`, and `[1]?.length` becomes `[1].length`, where what stands before
/// `?.` is known to be neither undefined nor null. The answer says whether it did; the only error
/// is that memory runs out, and then the expression is fit only to be dropped.
pub fn fold_links(alloc: Global, node: &mut Node, seat: Seat) -> Result<bool, OutOfMemory>
    ensures tree { OnOk result (node.new ≡ unwrap_or (folded_written seat node.old) node.old) }
    ensures said { IfOk result (λ changed. changed ≡ is_some (folded_written seat node.old)) }
{
    if !is_chain(node) {
        return Ok(false);
    }
    fold_outermost(alloc, node, !seat.new_callee)
}
