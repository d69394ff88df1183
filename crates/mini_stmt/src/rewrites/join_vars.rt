//! 68: `var a; var b;` becomes `var a, b;`, and so with `let` and `const`; `var a; for (var b;;) c`
//! becomes `for (var a, b;;) c`.

ghost use Rattle.std.specs.Prelude.{◌≡◌, ◌<◌, ◌||◌, true, IfOk};
ghost use Rattle.mini_model.specs.Tree.{children, count};
ghost use Rattle.mini_node.specs.Children.{with_part};
ghost use Rattle.mini_stmt.specs.JoinVars as row;

use crate::rewrites::join_heads::{has_free_init, is_for, over_child, take_child};
use mini_model::{OutOfMemory, Shape, VariableDeclarationKind};
use mini_node::{Node, is_listed, listed, of_one, one};
use std::alloc::Global;

// Whether the kinds are one.
fn is_same_kind(own: VariableDeclarationKind, kind: VariableDeclarationKind) -> bool
    ensures { result ≡ row.same_kind own kind }
{
    match (own, kind) {
        (VariableDeclarationKind::Var, VariableDeclarationKind::Var) => true,
        (VariableDeclarationKind::Let, VariableDeclarationKind::Let) => true,
        (VariableDeclarationKind::Const, VariableDeclarationKind::Const) => true,
        _ => false,
    }
}

/// The kind of a declaration; None of any other statement.
pub fn declared_kind(node: &Node) -> Option<VariableDeclarationKind>
    ensures { result ≡ row.declared_kind node.now }
{
    match node.shape() {
        Shape::VariableDeclaration(kind) if node.is_bare(1) && is_listed(node.child(0)) => {
            Some(*kind)
        }
        _ => None,
    }
}

/// Whether the statement is a declaration of this kind.
pub fn declares(node: &Node, kind: VariableDeclarationKind) -> bool
    ensures { result ≡ row.declares kind node.now }
{
    match declared_kind(node) {
        Some(own) => is_same_kind(own, kind),
        None => false,
    }
}

/// `var a, b;`, of `var a;` and `var b;`
pub fn joined_declarations(
    alloc: Global,
    kind: VariableDeclarationKind,
    first: Node,
    next: Node,
) -> Result<Node, OutOfMemory>
    ensures { IfOk result (λ made. made ≡ row.joined_declarations kind first next) }
{
    let mut declarators = one(first).into_children();
    let mut others = one(next).into_children();
    declarators.append(&mut others)?;
    let children = of_one(alloc, listed(declarators))?;
    Ok(Node::new(Shape::VariableDeclaration(kind), children))
}

// Whether the kind is that of a `var`.
fn is_var(kind: VariableDeclarationKind) -> bool
    ensures { result ≡ row.is_var kind }
{
    matches!(kind, VariableDeclarationKind::Var)
}

// `for (var b; c; d) e`
fn has_var_init(node: &Node) -> bool
    ensures kind { result ≡ row.has_var_init node.now }
    ensures parts { result ≡ true → 0 < count (children node.now) }
{
    is_for(node) && declares(node.child(0), VariableDeclarationKind::Var)
}

/// Whether a declaration of this kind goes into the loop.
pub fn takes_declaration(node: &Node, kind: VariableDeclarationKind) -> bool
    ensures kind { result ≡ row.takes_declaration kind node.now }
    ensures parts { result ≡ true → 0 < count (children node.now) }
{
    is_var(kind) && (has_free_init(node) || has_var_init(node))
}

// `for (var a, b; c; d) e`, of `var a;` and `for (var b; c; d) e`
#[tactic(auto, using(crate::proofs::Parts::same_parts, crate::proofs::Parts::part_twice))]
fn with_var(alloc: Global, first: Node, mut next: Node) -> Result<Node, OutOfMemory>
    requires { 0 < count (children next) }
    ensures { IfOk result (λ made. made ≡ row.with_var first next) }
{
    if has_free_init(&next) {
        return Ok(over_child(next, 0, first));
    }
    let head = take_child(&mut next, 0);
    let declared = joined_declarations(alloc, VariableDeclarationKind::Var, first, head)?;
    Ok(over_child(next, 0, declared))
}

/// A declaration of this kind and the next statement as one: the two declarations joined, or
/// `for (var a, b; c; d) e` of `var a;` and `for (var b; c; d) e`. The only error is that memory
/// runs out.
pub fn with_declaration(
    alloc: Global,
    kind: VariableDeclarationKind,
    first: Node,
    next: Node,
) -> Result<Node, OutOfMemory>
    requires { row.declares kind next || row.takes_declaration kind next ≡ true }
    ensures { IfOk result (λ made. made ≡ row.with_declaration kind first next) }
{
    if declares(&next, kind) {
        joined_declarations(alloc, kind, first, next)
    } else {
        with_var(alloc, first, next)
    }
}
