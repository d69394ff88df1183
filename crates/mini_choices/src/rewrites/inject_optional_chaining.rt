//! Row 46, of what is read of a name that may be null or undefined: `x == null ? void 0 : x.m`
//! becomes `x?.m`, and `0, x?.m` as a callee and under `delete`, which is lighter in every seat.

ghost use Rattle.std.specs.Prelude.{◌≡◌, true, is_some, unwrap_or, OnOk, IfOk};
ghost use Rattle.mini_model.specs.Tree.{children, count, shape_of};
ghost use Rattle.mini_node.specs.Children.{names, part};
ghost use Rattle.mini_node.specs.Kinds.{binary_operator as its_operator};
ghost use Rattle.mini_terms.specs.Exact.{kept_by_value};
ghost use Rattle.mini_rows.specs.Chains.{is_closed_shape, is_open_shape, is_word_shape, is_calm as is_it_calm, are_calm as are_they_calm, chain as chain_of};
ghost use Rattle.mini_choices.specs.MinimizeConditionalBranches.{is_equal_in, is_unequal_in};
ghost use Rattle.mini_choices.specs.InjectOptionalChaining.{is_link as is_it_link, is_spine as is_it_spine, opened as opened_shape, optional_over as optional_over_it, chained, is_eval as is_it_eval, asks_name as it_asks_name, reads_name as it_reads_name, is_read_last as is_it_read_last, is_read_first as is_it_read_first, written};

use crate::assigning::is_declared;
use crate::forms::is_undefined;
use mini_model::{BinaryOperator, Guard, Name, OutOfMemory, Seat, Shape};
use mini_node::{
    Node, Nodes, binary_operator, discard, is_call_expression, is_computed_member, is_conditional,
    is_identifier, is_null, is_same_tree, is_static_member, of_one, one, taken, three,
};
use mini_terms::preserve_indirect_access_if_needed;
use std::alloc::Global;

// The units of `eval`.
const EVAL: [u16; 4] = [101, 118, 97, 108];

/// A property's name.
pub fn is_word(node: &Node) -> bool
    ensures { result ≡ is_word_shape (shape_of node.now) }
{
    matches!(node.shape(), Shape::IdentifierName(_))
}

// What runs inside it, if anything does, ends no chain around it: a name, a constant, `this`, what
// is absent, a function or a class, what the world evaluates whole, a pattern that assigns, and a
// chain of its own.
fn is_closed(node: &Node) -> bool
    ensures { result ≡ is_closed_shape (shape_of node.now) }
{
    matches!(
        node.shape(),
        Shape::Absent
            | Shape::Identifier
            | Shape::IdentifierName(_)
            | Shape::PrivateIdentifier(_)
            | Shape::NumericLiteral(_)
            | Shape::StringLiteral(_)
            | Shape::BooleanLiteral(_)
            | Shape::NullLiteral
            | Shape::RegExpLiteral(_, _)
            | Shape::BigIntLiteral(_)
            | Shape::ThisExpression
            | Shape::Function(false, _, _)
            | Shape::ArrowFunctionExpression(_)
            | Shape::Class(false)
            | Shape::SuperCallExpression
            | Shape::SuperStaticMemberExpression
            | Shape::SuperComputedMemberExpression
            | Shape::PrivateInExpression
            | Shape::TaggedTemplateExpression
            | Shape::TemplateElement(_, _, _)
            | Shape::MetaProperty(_)
            | Shape::ImportExpression
            | Shape::ChainExpression
            | Shape::ObjectAssignmentTarget
            | Shape::ArrayAssignmentTarget
    )
}

// It ends no chain where its parts end none: a link without `?.`, an operator, an array, an object
// or a template, and a list.
fn is_open(node: &Node) -> bool
    ensures { result ≡ is_open_shape (shape_of node.now) }
{
    matches!(
        node.shape(),
        Shape::Listed
            | Shape::InnerExpression
            | Shape::ArrayExpression
            | Shape::ObjectExpression
            | Shape::ObjectProperty(_, _, _, _)
            | Shape::SpreadElement
            | Shape::UnaryExpression(_)
            | Shape::UpdateExpression(_, _)
            | Shape::BinaryExpression(_)
            | Shape::LogicalExpression(_)
            | Shape::AssignmentExpression(_)
            | Shape::ConditionalExpression
            | Shape::SequenceExpression
            | Shape::CallExpression(false)
            | Shape::NewExpression
            | Shape::StaticMemberExpression(false)
            | Shape::ComputedMemberExpression(false)
            | Shape::PrivateFieldExpression(false)
            | Shape::YieldExpression(_)
            | Shape::TemplateLiteral
    )
}

/// Whether in an expression each optional link stands in a chain of its own, so that it ends no
/// chain that it stands in.
#[cycle(calmness)]
#[tactic(auto, using(crate::proofs::OptionalChains::calm_is, crate::proofs::OptionalChains::calm_below))]
pub fn is_calm(node: &Node) -> bool
    ensures { result ≡ is_it_calm node.now }
{
    is_closed(node) || (is_open(node) && are_calm(node.children()))
}

/// Whether in each of some nodes each optional link stands in a chain of its own.
#[cycle(calmness)]
pub fn are_calm(nodes: &Nodes) -> bool
    ensures { result ≡ are_they_calm nodes.now }
{
    for at in 0..nodes.len() {
        if !is_calm(nodes.child(at)) {
            return false;
        }
    }
    true
}

// `a.k`, `a[k]` or `a(b, c)`
fn is_link(node: &Node) -> bool
    ensures kind { result ≡ is_it_link node.now }
    ensures parts { result ≡ true → count (children node.now) ≡ 2 }
{
    (is_static_member(node) && is_word(node.child(1)))
        || (is_computed_member(node) && is_calm(node.child(1)))
        || (is_call_expression(node) && are_calm(node.child(1).children()))
}

/// Whether it is of links over this name.
#[tactic(auto, using(crate::proofs::OptionalChains::spine_below, crate::proofs::OptionalChains::spine_there))]
pub fn is_spine(name: &Node, node: &Node) -> bool
    ensures { result ≡ is_it_spine name.now node.now }
{
    if !is_link(node) {
        return false;
    }
    let before = node.child(0);
    if is_identifier(before) {
        is_same_tree(before, name)
    } else {
        is_spine(name, before)
    }
}

// The optional form of a link.
fn opened(shape: Shape) -> Shape
    ensures { result ≡ opened_shape shape }
{
    match shape {
        Shape::CallExpression(..) => Shape::CallExpression(true),
        Shape::StaticMemberExpression(..) => Shape::StaticMemberExpression(true),
        Shape::ComputedMemberExpression(..) => Shape::ComputedMemberExpression(true),
        other => other,
    }
}

/// The links, of which the first stands over this, in place of the name, and is optional.
#[tactic(auto, using(crate::proofs::OptionalChains::over_name, crate::proofs::OptionalChains::over_link, crate::proofs::OptionalChains::over_other))]
pub fn optional_over(alloc: Global, base: Node, node: Node) -> Result<Node, OutOfMemory>
    ensures { IfOk result (λ w. w ≡ optional_over_it base node) }
{
    if !is_link(&node) {
        return Ok(node);
    }
    let (shape, name, number, mut children) = node.into_parts();
    let before = children.remove(0);
    if is_identifier(&before) {
        children.insert(0, base)?;
        return Ok(Node::with(opened(shape), name, number, children));
    }
    let other = optional_over(alloc, base, before)?;
    children.insert(0, other)?;
    Ok(Node::with(shape, name, number, children))
}

/// The name `eval`.
pub fn is_eval(name: &Option<Name>) -> bool
    ensures { result ≡ is_it_eval (names name.now) }
{
    match name {
        Some(name) => name.spelling.as_slice() == EVAL.as_slice(),
        None => false,
    }
}

// Whether it compares a name with null, which a scope declares, and which isn't `eval`.
fn asks_name(comparison: &Node) -> bool
    requires { count (children comparison.now) ≡ 2 }
    ensures { result ≡ it_asks_name comparison.now }
{
    let name = comparison.child(0);
    is_null(comparison.child(1))
        && is_identifier(name)
        && is_declared(name)
        && !is_eval(name.name())
}

// Whether beside such a test undefined is written for one branch, and the other reads what the name
// holds.
fn reads_name(comparison: &Node, missing: &Node, read: &Node) -> bool
    requires { count (children comparison.now) ≡ 2 }
    ensures { result ≡ it_reads_name comparison.now missing.now read.now }
{
    asks_name(comparison) && is_undefined(missing) && is_spine(comparison.child(0), read)
}

/// `a == b`
pub fn is_equal(node: &Node) -> bool
    ensures kind { result ≡ is_equal_in (its_operator node.now) }
    ensures parts { result ≡ true → count (children node.now) ≡ 2 }
{
    match binary_operator(node) {
        Some(BinaryOperator::Equality) => true,
        _ => false,
    }
}

/// `a != b`
pub fn is_unequal(node: &Node) -> bool
    ensures kind { result ≡ is_unequal_in (its_operator node.now) }
    ensures parts { result ≡ true → count (children node.now) ≡ 2 }
{
    match binary_operator(node) {
        Some(BinaryOperator::Inequality) => true,
        _ => false,
    }
}

// `x == null ? void 0 : x.m`
fn is_read_last(node: &Node) -> bool
    ensures kind { result ≡ is_it_read_last node.now }
{
    is_conditional(node)
        && is_equal(node.child(0))
        && reads_name(node.child(0), node.child(1), node.child(2))
}

// `x != null ? x.m : void 0`
fn is_read_first(node: &Node) -> bool
    ensures kind { result ≡ is_it_read_first node.now }
{
    is_conditional(node)
        && is_unequal(node.child(0))
        && reads_name(node.child(0), node.child(2), node.child(1))
}

// A chain of these links over what a test compares.
fn chain(alloc: Global, test: Node, read: Node) -> Result<Node, OutOfMemory>
    ensures { IfOk result (λ w. w ≡ chain_of (optional_over_it (part test 0) read)) }
{
    let links = optional_over(alloc, one(test), read)?;
    Ok(Node::new(Shape::ChainExpression, of_one(alloc, links)?))
}

// The chain of these links over what a test compares, behind a `0` where a reference is asked.
fn kept_chain(alloc: Global, test: Node, read: Node, guard: Guard) -> Result<Node, OutOfMemory>
    ensures { IfOk result (λ w. w ≡ kept_by_value guard (chain_of (optional_over_it (part test 0) read))) }
{
    let made = chain(alloc, test, read)?;
    preserve_indirect_access_if_needed(alloc, made, guard)
}

/// The chain of the alternate of a conditional, over what its test compares, behind a `0` where a
/// reference is asked.
pub fn chain_of_last(alloc: Global, node: Node, guard: Guard) -> Result<Node, OutOfMemory>
    ensures { IfOk result (λ w. w ≡ kept_by_value guard (chained node (part node 2))) }
{
    let (test, missing, read) = three(node);
    discard(missing);
    kept_chain(alloc, test, read, guard)
}

/// The chain of the consequent of a conditional, over what its test compares, behind a `0` where a
/// reference is asked.
pub fn chain_of_first(alloc: Global, node: Node, guard: Guard) -> Result<Node, OutOfMemory>
    ensures { IfOk result (λ w. w ≡ kept_by_value guard (chained node (part node 1))) }
{
    let (test, read, missing) = three(node);
    discard(missing);
    kept_chain(alloc, test, read, guard)
}

/// `x == null ? void 0 : x.m` becomes `x?.m`, and so do other members and calls over x, and
/// `x != null ? x.m : void 0`; where a scope declares x, and it isn't named `eval`. As a callee and
/// under `delete` the chain stands behind a `0`, so that its value is read. The answer says whether
/// it did; the only error is that memory runs out, and then the expression is fit only to be
/// dropped.
pub fn inject_optional_chaining(
    alloc: Global,
    node: &mut Node,
    seat: Seat,
) -> Result<bool, OutOfMemory>
    ensures tree { OnOk result (node.new ≡ unwrap_or (written seat node.old) node.old) }
    ensures said { IfOk result (λ changed. changed ≡ is_some (written seat node.old)) }
{
    let made = if is_read_last(node) {
        chain_of_last(alloc, taken(alloc, node), seat.guard)?
    } else if is_read_first(node) {
        chain_of_first(alloc, taken(alloc, node), seat.guard)?
    } else {
        return Ok(false);
    };
    *node = made;
    Ok(true)
}
