//! 67: `a; return b;` becomes `return a, b;`, and so with the heads of `throw`, `if`, `switch`,
//! `for` and `for..in`.

ghost use Rattle.std.specs.Prelude.{◌≡◌, ◌<◌, true, IfOk};
ghost use Rattle.mini_model.specs.Tree.{absent, children, count};
ghost use Rattle.mini_node.specs.Children.{part, with_part};
ghost use Rattle.mini_rows.specs.Lists as list;
ghost use Rattle.mini_stmt.specs.JoinHeads as row;

use crate::terms::{declares_nothing, is_joinable, join_sequence};
use mini_model::{OutOfMemory, Shape, VariableDeclarationKind};
use mini_node::{
    Node, discard, is_absent_part, is_if_statement, is_return_statement, is_throw_statement, one,
};
use std::alloc::Global;

// `switch (a) { b }`
fn is_switch(node: &Node) -> bool
    ensures kind { result ≡ row.is_switch node.now }
    ensures parts { result ≡ true → count (children node.now) ≡ 2 }
{
    matches!(node.shape(), Shape::SwitchStatement) && node.is_bare(2)
}

/// `for (a; b; c) d`
pub fn is_for(node: &Node) -> bool
    ensures kind { result ≡ row.is_for node.now }
    ensures parts { result ≡ true → count (children node.now) ≡ 4 }
{
    matches!(node.shape(), Shape::ForStatement) && node.is_bare(4)
}

/// `for (a in b) c`
pub fn is_for_in(node: &Node) -> bool
    ensures kind { result ≡ row.is_for_in node.now }
    ensures parts { result ≡ true → count (children node.now) ≡ 3 }
{
    matches!(node.shape(), Shape::ForInStatement) && node.is_bare(3)
}

// Whether a declarator has no initializer.
fn lacks_initializer(node: &Node) -> bool
    ensures { result ≡ list.lacks_initializer node.now }
{
    node.children().len() == 2 && matches!(node.child(1).shape(), Shape::Absent)
}

/// Whether it is a declarator without an initializer.
pub fn is_bare_declarator(node: &Node) -> bool
    ensures { result ≡ list.is_bare_declarator node.now }
{
    matches!(node.shape(), Shape::VariableDeclarator) && lacks_initializer(node)
}

// Whether there is one declarator, without an initializer.
fn are_bare(node: &Node) -> bool
    ensures { result ≡ list.are_bare node.now }
{
    matches!(node.shape(), Shape::Listed)
        && node.children().len() == 1
        && is_bare_declarator(node.child(0))
}

// `var x`, without an initializer
fn is_bare_var(node: &Node) -> bool
    ensures { result ≡ list.is_bare_var node.now }
{
    matches!(
        node.shape(),
        Shape::VariableDeclaration(VariableDeclarationKind::Var)
    ) && node.children().len() == 1
        && are_bare(node.child(0))
}

/// Whether the left side of a `for..in` or `for..of` declares no lexical name and has no
/// initializer.
pub fn is_plain_left(node: &Node) -> bool
    ensures { result ≡ list.is_plain_left node.now }
{
    declares_nothing(node) || is_bare_var(node)
}

/// Whether the first child is the head.
pub fn has_head(node: &Node) -> bool
    ensures kind { result ≡ row.has_head node.now }
    ensures parts { result ≡ true → 0 < count (children node.now) }
{
    is_return_statement(node)
        || is_throw_statement(node)
        || is_if_statement(node)
        || is_switch(node)
        || is_for(node)
}

/// Whether an expression may be joined to the one in the head.
pub fn has_joinable_head(node: &Node) -> bool
    ensures kind { result ≡ row.has_joinable_head node.now }
    ensures parts { result ≡ true → 0 < count (children node.now) }
{
    has_head(node) && is_joinable(node.child(0))
}

/// `for (; b; c) d`
pub fn has_free_init(node: &Node) -> bool
    ensures kind { result ≡ row.has_free_init node.now }
    ensures parts { result ≡ true → 0 < count (children node.now) }
{
    is_for(node) && is_absent_part(node.child(0))
}

/// `for (x in b) c`, where an expression may be joined to b
pub fn has_joinable_right(node: &Node) -> bool
    ensures kind { result ≡ row.has_joinable_right node.now }
    ensures parts { result ≡ true → 1 < count (children node.now) }
{
    is_for_in(node) && is_plain_left(node.child(0)) && is_joinable(node.child(1))
}

/// The node with another child at the index.
pub fn over_child(mut node: Node, at: usize, child: Node) -> Node
    requires { at < count (children node) }
    ensures { result ≡ with_part node at child }
{
    let mut children = node.take_children();
    discard(children.replace(at, child));
    node.over(children)
}

/// The child at the index, taken out of the node.
pub fn take_child(node: &mut Node, at: usize) -> Node
    requires { at < count (children node.old) }
    ensures child { result ≡ part node.old at }
    ensures left { node.new ≡ with_part node.old at absent }
{
    node.children_mut().take(at)
}

/// `return a, b;`, of `a;` and `return b;`
#[tactic(auto, using(crate::proofs::Parts::same_parts, crate::proofs::Parts::part_twice))]
pub fn with_joined_head(alloc: Global, first: Node, mut next: Node) -> Result<Node, OutOfMemory>
    requires { 0 < count (children next) }
    ensures { IfOk result (λ made. made ≡ row.with_joined_head first next) }
{
    let head = take_child(&mut next, 0);
    let expression = join_sequence(alloc, one(first), head)?;
    Ok(over_child(next, 0, expression))
}

/// `for (a; b; c) d`, of `a;` and `for (; b; c) d`
pub fn with_init(first: Node, next: Node) -> Node
    requires { 0 < count (children next) }
    ensures { result ≡ row.with_init first next }
{
    over_child(next, 0, one(first))
}

/// `for (x in a, b) c`, of `a;` and `for (x in b) c`
#[tactic(auto, using(crate::proofs::Parts::same_parts, crate::proofs::Parts::part_twice))]
pub fn with_joined_right(alloc: Global, first: Node, mut next: Node) -> Result<Node, OutOfMemory>
    requires { 1 < count (children next) }
    ensures { IfOk result (λ made. made ≡ row.with_joined_right first next) }
{
    let right = take_child(&mut next, 1);
    let expression = join_sequence(alloc, one(first), right)?;
    Ok(over_child(next, 1, expression))
}
