//! Row 52 of brackets in a pattern that is declared: a text or a whole number in brackets loses
//! them. Among parameters they stay, for they decide whether the body's `var`s are the parameters;
//! so the row is read at what declares the pattern, a declarator or a `catch`.

ghost use Rattle.std.specs.Prelude.{◌≡◌, true, IfOk, OnOk};
ghost use Rattle.mini_model.specs.Tree.{children, count};
ghost use Rattle.mini_node.specs.Children.{part};
ghost use Rattle.mini_rows.specs.KeyHolders.{is_pattern_part as is_part};
ghost use Rattle.mini_syntax.specs.SubstituteBindingProperty as row;
ghost use Rattle.mini_syntax.specs.SubstituteBindingProperty.{bares, any_bares, bared, first_bared, declares_brackets, declared_bare};

use crate::forms::is_inner;
use crate::rewrites::substitute_object_property::{is_literal_key, property};
use mini_model::{OutOfMemory, Shape};
use mini_node::{Node, Nodes, one, taken, two};
use std::alloc::Global;

// `[k]: v`
fn is_bracketed(node: &Node) -> bool
    ensures kind { result ≡ row.is_bracketed node.now }
    ensures parts { result ≡ true → count (children node.now) ≡ 2 }
{
    match node.shape() {
        Shape::BindingProperty(false, true) => node.is_bare(2),
        _ => false,
    }
}

fn is_numbered(node: &Node) -> bool
    ensures { result ≡ row.is_numbered node.now }
{
    node.number() != 0
}

// `["x"]: v` and `[1]: v`
fn drops_brackets(node: &Node) -> bool
    ensures kind { result ≡ row.drops_brackets node.now }
    ensures parts { result ≡ true → count (children node.now) ≡ 2 }
    ensures inner { result ≡ true → count (children (part node.now 0)) ≡ 1 }
{
    if !is_bracketed(node) || !is_inner(node.child(0)) {
        return false;
    }
    is_numbered(node.child(0)) && is_literal_key(false, node.child(0).child(0))
}

// `k: v`, of `[k]: v`
fn bare(alloc: Global, node: Node) -> Result<Node, OutOfMemory>
    requires parts { count (children node) ≡ 2 }
    requires inner { count (children (part node 0)) ≡ 1 }
    ensures { IfOk result (λ w. w ≡ row.bare node) }
{
    let (inner, value) = two(node);
    property(
        alloc,
        Shape::BindingProperty(false, false),
        one(inner),
        value,
    )
}

// What a pattern is made of, shorthand properties aside.
fn is_pattern_part(shape: &Shape) -> bool
    ensures { result ≡ is_part shape.now }
{
    match shape {
        Shape::Listed => true,
        Shape::ObjectPattern => true,
        Shape::ArrayPattern => true,
        Shape::BindingProperty(false, _) => true,
        Shape::RestElement => true,
        Shape::AssignmentPattern => true,
        _ => false,
    }
}

// The first such key in a part of a pattern loses its brackets. The answer says whether there is
// one.
#[cycle(baring)]
fn bare_part(alloc: Global, node: &mut Node) -> Result<bool, OutOfMemory>
    ensures tree { OnOk result (node.new ≡ bared node.old) }
    ensures said { IfOk result (λ changed. changed ≡ bares node.old) }
{
    if drops_brackets(node) {
        *node = bare(alloc, taken(alloc, node))?;
        return Ok(true);
    }
    if !is_pattern_part(node.shape()) {
        return Ok(false);
    }
    let below = bare_first(alloc, node.children_mut())?;
    Ok(below)
}

// Of some parts of a pattern the first one with such a key loses its brackets. The answer says
// whether there is one.
#[cycle(baring)]
fn bare_first(alloc: Global, parts: &mut Nodes) -> Result<bool, OutOfMemory>
    ensures tree { OnOk result (parts.new ≡ first_bared parts.old) }
    ensures said { IfOk result (λ changed. changed ≡ any_bares parts.old) }
{
    for at in 0..parts.len() {
        if bare_part(alloc, parts.child_mut(at))? {
            return Ok(true);
        }
    }
    Ok(false)
}

// A declarator, or a `catch`.
fn is_declaring(node: &Node) -> bool
    ensures kind { result ≡ row.is_declaring node.now }
    ensures parts { result ≡ true → count (children node.now) ≡ 2 }
{
    match node.shape() {
        Shape::VariableDeclarator => node.is_bare(2),
        Shape::CatchClause => node.is_bare(2),
        _ => false,
    }
}

/// Of the pattern of a declarator or a `catch` the first key in brackets that is a text or a whole
/// number from 0 loses them. The answer says whether there is one; the only error is that memory
/// runs out.
pub fn substitute_binding_property(alloc: Global, node: &mut Node) -> Result<bool, OutOfMemory>
    ensures tree { OnOk result (node.new ≡ declared_bare node.old) }
    ensures said { IfOk result (λ changed. changed ≡ declares_brackets node.old) }
{
    if !is_declaring(node) {
        return Ok(false);
    }
    let changed = bare_part(alloc, node.children_mut().child_mut(0))?;
    Ok(changed)
}
