//! Row 53: a property that is assigned to whose key is the name assigned to becomes the shorthand,
//! `({ x: x } = o)` the same as `({ x } = o)`. It is lighter in every place.

ghost use Rattle.std.specs.Prelude.{◌≡◌, Some, true, IfOk, OnOk};
ghost use Rattle.mini_model.specs.Tree.{children, count};
ghost use Rattle.mini_node.specs.Children.{names, part};
ghost use Rattle.mini_syntax.specs.SubstituteObjectProperty.{key_name};
ghost use Rattle.mini_syntax.specs.CompressAssignmentTargetProperty as row;

use crate::rewrites::substitute_object_property::property;
use mini_model::{Name, OutOfMemory, Shape, Text};
use mini_node::{Node, is_identifier, taken, two};
use std::alloc::Global;

// `k: v` of what is assigned to
fn is_target(node: &Node) -> bool
    ensures kind { result ≡ row.is_target node.now }
    ensures parts { result ≡ true → count (children node.now) ≡ 2 }
{
    match node.shape() {
        Shape::AssignmentTargetPropertyProperty(false) => node.is_bare(2),
        _ => false,
    }
}

// `v = d`
fn is_defaulted(value: &Node) -> bool
    ensures kind { result ≡ row.is_defaulted value.now }
    ensures parts { result ≡ true → count (children value.now) ≡ 2 }
{
    match value.shape() {
        Shape::AssignmentPattern => value.is_bare(2),
        _ => false,
    }
}

// Whether a name has this spelling.
fn spells(key: &Text, name: &Option<Name>) -> bool
    ensures { result ≡ row.spells (Some key.now) (names name.now) }
{
    match name {
        Some(name) => key.as_slice() == name.spelling.as_slice(),
        None => false,
    }
}

// Whether the key spells the name.
fn names_key(key: &Node, name: &Option<Name>) -> bool
    ensures { result ≡ row.spells (key_name key.now) (names name.now) }
{
    match key.shape() {
        Shape::IdentifierName(text) if key.is_bare(0) => spells(text, name),
        _ => false,
    }
}

// Whether the target is the name that the key is.
fn is_key_of(key: &Node, target: &Node) -> bool
    ensures { result ≡ row.is_key_of key.now target.now }
{
    is_identifier(target) && names_key(key, target.name())
}

// Whether the target, without its default, is the name that the key is.
fn repeats_key(key: &Node, value: &Node) -> bool
    ensures { result ≡ row.repeats_key key.now value.now }
{
    if is_defaulted(value) {
        is_key_of(key, value.child(0))
    } else {
        is_key_of(key, value)
    }
}

// `x: x` and `x: x = d`
fn is_doubled(node: &Node) -> bool
    ensures { result ≡ row.is_doubled node.now }
{
    is_target(node) && repeats_key(node.child(0), node.child(1))
}

// `x` and `x = d`
fn shorthand(alloc: Global, node: Node) -> Result<Node, OutOfMemory>
    ensures { IfOk result (λ w. w ≡ row.shorthand node) }
{
    let (key, value) = two(node);
    property(alloc, Shape::AssignmentTargetPropertyIdentifier, key, value)
}

/// Of what is assigned to a property whose key is the name assigned to becomes the shorthand:
/// `x: x` is `x`, and `x: x = d` is `x = d` (ECMA-262, "Destructuring Assignment",
/// AssignmentProperty). The answer says whether it did; the only error is that memory runs out, and
/// then the property is fit only to be dropped.
pub fn compress_assignment_target_property(
    alloc: Global,
    node: &mut Node,
) -> Result<bool, OutOfMemory>
    ensures tree { OnOk result (node.new ≡ row.compressed node.old) }
    ensures said { IfOk result (λ changed. changed ≡ row.is_doubled node.old) }
{
    if !is_doubled(node) {
        return Ok(false);
    }
    *node = shorthand(alloc, taken(alloc, node))?;
    Ok(true)
}
