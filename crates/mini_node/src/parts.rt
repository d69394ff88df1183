//! Taking a node apart, and putting one together.

ghost use Rattle.std.specs.Prelude.{false, ◌≡◌, ◌+◌, ◌<◌, ◌≤◌, IfOk};
ghost use Rattle.mini_model.specs.Tree as tree;
ghost use Rattle.mini_model.specs.Tree.{none, ◌▸◌, count, children, absent, first_or_absent, node_count, node_counts};
ghost use Rattle.mini_node.specs.Children.{part, without};
ghost use Rattle.mini_node.specs.Kinds as kind;

use crate::list::Nodes;
use crate::node::Node;
use mini_model::{
    AssignmentOperator, BinaryOperator, LogicalOperator, Name, OutOfMemory, Shape, Text,
    UnaryOperator,
};
use std::alloc::Global;
use std::mem;

/// Takes the node out of its place, in which another is to be written, and leaves an absent part
/// there.
pub fn taken(alloc: Global, node: &mut Node) -> Node
    ensures value { result ≡ node.old }
    ensures left { node.new ≡ absent }
{
    mem::replace(node, Node::leaf(alloc, Shape::Absent))
}

/// Takes the first of some children out; an absent part where there is none.
#[tactic(auto, using(crate::proofs::Taking::first_is, crate::proofs::Taking::none_left))]
pub fn take_first(children: &mut Nodes) -> Node
    ensures value { result ≡ first_or_absent children.old }
    ensures rest { children.new ≡ without children.old 0 }
    ensures nodes { 0 < count children.old → node_count result + node_counts children.new ≡ node_counts children.old }
{
    if children.len() == 0 {
        Node::leaf(children.allocator(), Shape::Absent)
    } else {
        children.remove(0)
    }
}

/// The first child of a node; an absent part where there is none.
#[tactic(auto, using(crate::proofs::Taking::first_is))]
pub fn one(node: Node) -> Node
    ensures value { result ≡ part node 0 }
    ensures nodes { 0 < count (children node) → node_count result ≤ node_counts (children node) }
{
    take_first(&mut node.into_children())
}

/// The first two children of a node; an absent part for each that there isn't.
#[tactic(auto, using(crate::proofs::Taking::first_is, crate::proofs::Taking::next_is, crate::proofs::Taking::count_rest))]
pub fn two(node: Node) -> (Node, Node)
    ensures first { result.0 ≡ part node 0 }
    ensures second { result.1 ≡ part node 1 }
    ensures nodes { 1 < count (children node) → node_count result.0 + node_count result.1 ≤ node_counts (children node) }
{
    let mut children = node.into_children();
    let first = take_first(&mut children);
    let second = take_first(&mut children);
    (first, second)
}

/// The first three children of a node; an absent part for each that there isn't.
#[tactic(auto, using(crate::proofs::Taking::first_is, crate::proofs::Taking::next_is))]
pub fn three(node: Node) -> (Node, Node, Node)
    ensures first { result.0 ≡ part node 0 }
    ensures second { result.1 ≡ part node 1 }
    ensures third { result.2 ≡ part node 2 }
{
    let mut children = node.into_children();
    let first = take_first(&mut children);
    let second = take_first(&mut children);
    let third = take_first(&mut children);
    (first, second, third)
}

/// A list of one child.
///
/// The only error is that memory runs out; the child is gone then. That is so of each function
/// below that puts nodes together.
pub fn of_one(alloc: Global, first: Node) -> Result<Nodes, OutOfMemory>
    ensures { IfOk result (λ nodes. nodes ≡ first ▸ none) }
{
    let mut children = Nodes::with_capacity(alloc, 1)?;
    children.push(first)?;
    Ok(children)
}

/// A list of two children. The only error is that memory runs out; they are gone then.
pub fn of_two(alloc: Global, first: Node, second: Node) -> Result<Nodes, OutOfMemory>
    ensures { IfOk result (λ nodes. nodes ≡ first ▸ second ▸ none) }
{
    let mut children = Nodes::with_capacity(alloc, 2)?;
    children.push(first)?;
    children.push(second)?;
    Ok(children)
}

/// A list of three children. The only error is that memory runs out; they are gone then.
pub fn of_three(alloc: Global, first: Node, second: Node, third: Node) -> Result<Nodes, OutOfMemory>
    ensures { IfOk result (λ nodes. nodes ≡ first ▸ second ▸ third ▸ none) }
{
    let mut children = Nodes::with_capacity(alloc, 3)?;
    children.push(first)?;
    children.push(second)?;
    children.push(third)?;
    Ok(children)
}

/// A part that is absent.
pub fn absent(alloc: Global) -> Node
    ensures { result ≡ tree.absent }
{
    Node::leaf(alloc, Shape::Absent)
}

/// The items of a list field.
pub fn listed(items: Nodes) -> Node
    ensures { result ≡ tree.listed items }
{
    Node::new(Shape::Listed, items)
}

/// `!a`
pub fn negation(alloc: Global, argument: Node) -> Result<Node, OutOfMemory>
    ensures { IfOk result (λ made. made ≡ tree.negation argument) }
{
    let children = of_one(alloc, argument)?;
    let operator = UnaryOperator::LogicalNot;
    Ok(Node::new(Shape::UnaryExpression(operator), children))
}

/// `a && b`, `a || b` or `a ?? b`
pub fn logical(
    alloc: Global,
    operator: LogicalOperator,
    left: Node,
    right: Node,
) -> Result<Node, OutOfMemory>
    ensures { IfOk result (λ made. made ≡ tree.logical operator left right) }
{
    let children = of_two(alloc, left, right)?;
    Ok(Node::new(Shape::LogicalExpression(operator), children))
}

/// `a ? b : c`
pub fn conditional(
    alloc: Global,
    test: Node,
    consequent: Node,
    alternate: Node,
) -> Result<Node, OutOfMemory>
    ensures { IfOk result (λ made. made ≡ tree.conditional test consequent alternate) }
{
    let children = of_three(alloc, test, consequent, alternate)?;
    Ok(Node::new(Shape::ConditionalExpression, children))
}

/// `a, b`, of its parts.
pub fn sequence(alloc: Global, parts: Nodes) -> Result<Node, OutOfMemory>
    ensures { IfOk result (λ made. made ≡ kind.sequence parts) }
{
    let children = of_one(alloc, listed(parts))?;
    Ok(Node::new(Shape::SequenceExpression, children))
}

/// `a;`
pub fn expression_statement(alloc: Global, expression: Node) -> Result<Node, OutOfMemory>
    ensures { IfOk result (λ made. made ≡ tree.expression_statement expression) }
{
    let children = of_one(alloc, expression)?;
    Ok(Node::new(Shape::ExpressionStatement, children))
}

/// `;`
pub fn empty_statement(alloc: Global) -> Node
    ensures { result ≡ tree.empty_statement }
{
    Node::leaf(alloc, Shape::EmptyStatement)
}

/// `{ a; b; }`, of its statements.
pub fn block(alloc: Global, body: Nodes) -> Result<Node, OutOfMemory>
    ensures { IfOk result (λ made. made ≡ kind.block body) }
{
    let children = of_one(alloc, listed(body))?;
    Ok(Node::new(Shape::BlockStatement, children))
}

/// `if (a) b else c`; with an alternate that is absent, `if (a) b`.
pub fn if_statement(
    alloc: Global,
    test: Node,
    consequent: Node,
    alternate: Node,
) -> Result<Node, OutOfMemory>
    ensures { IfOk result (λ made. made ≡ tree.if_else test consequent alternate) }
{
    let children = of_three(alloc, test, consequent, alternate)?;
    Ok(Node::new(Shape::IfStatement, children))
}

/// `return a;`; with an argument that is absent, `return;`.
pub fn return_statement(alloc: Global, argument: Node) -> Result<Node, OutOfMemory>
    ensures { IfOk result (λ made. made ≡ kind.return_statement argument) }
{
    let children = of_one(alloc, argument)?;
    Ok(Node::new(Shape::ReturnStatement, children))
}

/// `throw a;`
pub fn throw_statement(alloc: Global, argument: Node) -> Result<Node, OutOfMemory>
    ensures { IfOk result (λ made. made ≡ kind.throw_statement argument) }
{
    let children = of_one(alloc, argument)?;
    Ok(Node::new(Shape::ThrowStatement, children))
}

/// `-a`, and the like.
pub fn unary(alloc: Global, operator: UnaryOperator, argument: Node) -> Result<Node, OutOfMemory>
    ensures { IfOk result (λ made. made ≡ tree.unary operator argument) }
{
    let children = of_one(alloc, argument)?;
    Ok(Node::new(Shape::UnaryExpression(operator), children))
}

/// `a + b`, and the like.
pub fn binary(
    alloc: Global,
    operator: BinaryOperator,
    left: Node,
    right: Node,
) -> Result<Node, OutOfMemory>
    ensures { IfOk result (λ made. made ≡ kind.binary operator left right) }
{
    let children = of_two(alloc, left, right)?;
    Ok(Node::new(Shape::BinaryExpression(operator), children))
}

/// `a = b`, `a += b`, and the like.
pub fn assignment(
    alloc: Global,
    operator: AssignmentOperator,
    target: Node,
    value: Node,
) -> Result<Node, OutOfMemory>
    ensures { IfOk result (λ made. made ≡ kind.assignment operator target value) }
{
    let children = of_two(alloc, target, value)?;
    Ok(Node::new(Shape::AssignmentExpression(operator), children))
}

/// `f(a, b)`
pub fn call_expression(alloc: Global, callee: Node, arguments: Nodes) -> Result<Node, OutOfMemory>
    ensures { IfOk result (λ made. made ≡ tree.call false callee arguments) }
{
    let children = of_two(alloc, callee, listed(arguments))?;
    Ok(Node::new(Shape::CallExpression(false), children))
}

/// `a.x`, of the node of its name.
pub fn static_member(alloc: Global, object: Node, property: Node) -> Result<Node, OutOfMemory>
    ensures { IfOk result (λ made. made ≡ kind.static_member object property) }
{
    let children = of_two(alloc, object, property)?;
    Ok(Node::new(Shape::StaticMemberExpression(false), children))
}

/// `a[x]`
pub fn computed_member(alloc: Global, object: Node, property: Node) -> Result<Node, OutOfMemory>
    ensures { IfOk result (λ made. made ≡ kind.computed_member object property) }
{
    let children = of_two(alloc, object, property)?;
    Ok(Node::new(Shape::ComputedMemberExpression(false), children))
}

/// A name that is read or written.
pub fn identifier(alloc: Global, name: Name) -> Node
    ensures { result ≡ tree.identifier name }
{
    Node::with(Shape::Identifier, Some(name), 0, Nodes::new(alloc))
}

/// A number.
pub fn numeric_literal(alloc: Global, value: i64) -> Node
    ensures { result ≡ kind.numeric_literal value }
{
    Node::leaf(alloc, Shape::NumericLiteral(value))
}

/// `true` or `false`
pub fn boolean_literal(alloc: Global, value: bool) -> Node
    ensures { result ≡ kind.boolean_literal value }
{
    Node::leaf(alloc, Shape::BooleanLiteral(value))
}

/// A text in quotes.
pub fn string_literal(alloc: Global, value: Text) -> Node
    ensures { result ≡ kind.string_literal value }
{
    Node::leaf(alloc, Shape::StringLiteral(value))
}

/// `null`
pub fn null_literal(alloc: Global) -> Node
    ensures { result ≡ tree.null_literal }
{
    Node::leaf(alloc, Shape::NullLiteral)
}
