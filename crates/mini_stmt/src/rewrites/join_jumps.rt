//! 73: `if (a) return b; return c;` becomes `return a ? b : c;`, and `throw` likewise;
//! `if (a) return; return;` becomes `a; return;`.

ghost use Rattle.std.specs.Prelude.{◌≡◌, true, IfOk};
ghost use Rattle.mini_model.specs.Tree.{children, count, is_absent};
ghost use Rattle.mini_node.specs.Children.{part};
ghost use Rattle.mini_rows.specs.Lists.{or_void as a_value};
ghost use Rattle.mini_stmt.specs.JoinJumps as row;

use mini_model::{OutOfMemory, Shape, UnaryOperator};
use mini_node::{
    Node, conditional, discard, expression_statement, is_absent_part, is_if_alone,
    is_return_statement, is_throw_statement, numeric_literal, one, return_statement, three,
    throw_statement, unary,
};
use mini_rows::may_sink;
use std::alloc::Global;

// Whether there is no node.
fn is_missing(node: &Node) -> bool
    ensures { result ≡ is_absent node.now }
{
    matches!(node.shape(), Shape::Absent)
}

// Whether it is an argument; or none, and nothing in its place.
fn is_whole(node: &Node) -> bool
    ensures { result ≡ row.is_whole node.now }
{
    is_absent_part(node) || !is_missing(node)
}

/// `if (a) return b;` or `if (a) return;`
pub fn guards_return(node: &Node) -> bool
    ensures kind { result ≡ row.guards_return node.now }
    ensures parts { result ≡ true → count (children node.now) ≡ 3 }
    ensures inner { result ≡ true → count (children (part node.now 1)) ≡ 1 }
{
    is_if_alone(node) && is_return_statement(node.child(1)) && is_whole(node.child(1).child(0))
}

/// `if (a) throw b;`
pub fn guards_throw(node: &Node) -> bool
    ensures { result ≡ row.guards_throw node.now }
{
    is_if_alone(node) && is_throw_statement(node.child(1)) && is_whole(node.child(1).child(0))
}

// Whether the other argument may be joined to it.
fn is_answer(node: &Node) -> bool
    ensures { result ≡ row.is_answer node.now }
{
    !is_missing(node) && may_sink(node)
}

/// `return c;`
pub fn returns_answer(node: &Node) -> bool
    ensures { result ≡ row.returns_answer node.now }
{
    is_return_statement(node) && is_answer(node.child(0))
}

/// `throw c;`
pub fn throws_answer(node: &Node) -> bool
    ensures { result ≡ row.throws_answer node.now }
{
    is_throw_statement(node) && is_answer(node.child(0))
}

/// `return;`
pub fn returns_nothing(node: &Node) -> bool
    ensures { result ≡ row.returns_nothing node.now }
{
    is_return_statement(node) && is_absent_part(node.child(0))
}

// An argument that may be absent, as a value: `void 0`.
fn or_void(alloc: Global, argument: Node) -> Result<Node, OutOfMemory>
    ensures { IfOk result (λ made. made ≡ a_value argument) }
{
    if is_missing(&argument) {
        unary(alloc, UnaryOperator::Void, numeric_literal(alloc, 0))
    } else {
        Ok(argument)
    }
}

// `a ? b : c`
fn choice(alloc: Global, first: Node, next: Node) -> Result<Node, OutOfMemory>
    ensures { IfOk result (λ made. made ≡ row.choice first next) }
{
    let (test, jump, alternate) = three(first);
    discard(alternate);
    let consequent = or_void(alloc, one(jump))?;
    conditional(alloc, test, consequent, one(next))
}

/// `return a ? b : c;`
pub fn joined_returns(alloc: Global, first: Node, next: Node) -> Result<Node, OutOfMemory>
    ensures { IfOk result (λ made. made ≡ row.joined_returns first next) }
{
    let argument = choice(alloc, first, next)?;
    return_statement(alloc, argument)
}

/// `throw a ? b : c;`
pub fn joined_throws(alloc: Global, first: Node, next: Node) -> Result<Node, OutOfMemory>
    ensures { IfOk result (λ made. made ≡ row.joined_throws first next) }
{
    let argument = choice(alloc, first, next)?;
    throw_statement(alloc, argument)
}

/// `a;`, of `if (a) return;`
pub fn test_alone(alloc: Global, first: Node) -> Result<Node, OutOfMemory>
    ensures { IfOk result (λ made. made ≡ row.test_alone first) }
{
    expression_statement(alloc, one(first))
}
