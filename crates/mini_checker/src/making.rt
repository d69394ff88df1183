//! Nodes that are made of copies of others. The only error of each function is that memory runs
//! out.

ghost use Rattle.std.specs.Prelude.{◌≡◌, IfOk};
ghost use Rattle.mini_model.specs.Tree.{none, ◌▸◌, logical, conditional};
ghost use Rattle.mini_node.specs.Kinds as kind;

use crate::copying::copy_node;
use mini_model::{BinaryOperator, LogicalOperator, OutOfMemory, Shape};
use mini_node::{Node, Nodes, sequence};
use std::alloc::Global;

/// A list of copies of two nodes.
pub fn pair(alloc: Global, first: &Node, second: &Node) -> Result<Nodes, OutOfMemory>
    ensures { IfOk result (λ nodes. nodes ≡ first.now ▸ second.now ▸ none) }
{
    let mut nodes = Nodes::with_capacity(alloc, 2)?;
    nodes.push(copy_node(alloc, first)?)?;
    nodes.push(copy_node(alloc, second)?)?;
    Ok(nodes)
}

/// A list of copies of three nodes.
pub fn triple(
    alloc: Global,
    first: &Node,
    second: &Node,
    third: &Node,
) -> Result<Nodes, OutOfMemory>
    ensures { IfOk result (λ nodes. nodes ≡ first.now ▸ second.now ▸ third.now ▸ none) }
{
    let mut nodes = Nodes::with_capacity(alloc, 3)?;
    nodes.push(copy_node(alloc, first)?)?;
    nodes.push(copy_node(alloc, second)?)?;
    nodes.push(copy_node(alloc, third)?)?;
    Ok(nodes)
}

/// `a && b`, `a || b` or `a ?? b`
pub fn logical_of(
    alloc: Global,
    operator: LogicalOperator,
    left: &Node,
    right: &Node,
) -> Result<Node, OutOfMemory>
    ensures { IfOk result (λ made. made ≡ logical operator left.now right.now) }
{
    let nodes = pair(alloc, left, right)?;
    Ok(Node::new(Shape::LogicalExpression(operator), nodes))
}

/// `a == b` and the like
pub fn binary_of(
    alloc: Global,
    operator: BinaryOperator,
    left: &Node,
    right: &Node,
) -> Result<Node, OutOfMemory>
    ensures { IfOk result (λ made. made ≡ kind.binary operator left.now right.now) }
{
    let nodes = pair(alloc, left, right)?;
    Ok(Node::new(Shape::BinaryExpression(operator), nodes))
}

/// `a ? b : c`
pub fn conditional_of(
    alloc: Global,
    test: &Node,
    consequent: &Node,
    alternate: &Node,
) -> Result<Node, OutOfMemory>
    ensures { IfOk result (λ made. made ≡ conditional test.now consequent.now alternate.now) }
{
    let nodes = triple(alloc, test, consequent, alternate)?;
    Ok(Node::new(Shape::ConditionalExpression, nodes))
}

/// `a, b`
pub fn sequence_of(alloc: Global, first: &Node, second: &Node) -> Result<Node, OutOfMemory>
    ensures { IfOk result (λ made. made ≡ kind.sequence (first.now ▸ second.now ▸ none)) }
{
    let nodes = pair(alloc, first, second)?;
    sequence(alloc, nodes)
}
