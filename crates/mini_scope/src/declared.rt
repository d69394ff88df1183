//! The names that the parts of a tree declare.

ghost use Rattle.std.specs.Prelude.{◌≡◌, ◌++◌, ◌∷◌, [], length, IfOk, OnOk};
ghost use Rattle.mini_model.specs.Tree.{none, ◌▸◌};
ghost use Rattle.mini_node.specs.Children.{trees_of};
ghost use Rattle.mini_laws.specs.DeclaredNames.{own_names, names_of, all_names, body_names, all_body_names, has_inner as has_inner_part, any_inner as any_inner_part};

use crate::tables::{is_inner, is_statement_list, place_of};
use mini_laws::{Declared, Place};
use mini_model::{Name, OutOfMemory, OwnedList, Text};
use mini_node::{Node, Nodes};
use std::alloc::Global;

/// A copy of a text. The only error is that memory runs out.
pub fn copy_text(alloc: Global, text: &Text) -> Result<Text, OutOfMemory>
    ensures { IfOk result (λ copy. copy ≡ text.now) }
{
    let mut copy = OwnedList::new(alloc);
    for unit in text.as_slice() {
        copy.push(*unit)?;
    }
    Ok(copy)
}

/// A copy of a name. The only error is that memory runs out.
fn copy_name(alloc: Global, name: &Name) -> Result<Name, OutOfMemory>
    ensures { IfOk result (λ copy. copy ≡ name.now) }
{
    Ok(Name {
        spelling: copy_text(alloc, &name.spelling)?,
        symbol: name.symbol,
    })
}

/// Adds a name.
fn push_name(names: &mut Vec<Name>, name: Name) -> Result<(), OutOfMemory>
    ensures { OnOk result (names.new.items ≡ names.old.items ++ name ∷ []) }
{
    match names.push(name) {
        Ok(()) => Ok(()),
        Err(_) => Err(OutOfMemory),
    }
}

/// Adds the name of a node, where it has one.
fn push_own_name(alloc: Global, node: &Node, names: &mut Vec<Name>) -> Result<(), OutOfMemory>
    ensures { OnOk result (names.new.items ≡ names.old.items ++ own_names node.now) }
{
    match node.name() {
        Some(name) => push_name(names, copy_name(alloc, name)?),
        None => Ok(()),
    }
}

/// Adds the names that a node declares.
#[cycle(names)]
pub fn push_names(
    alloc: Global,
    declared: Declared,
    node: &Node,
    names: &mut Vec<Name>,
) -> Result<(), OutOfMemory>
    ensures { OnOk result (names.new.items ≡ names.old.items ++ names_of declared node.now) }
{
    let nodes = node.children();
    match place_of(declared, node.shape()) {
        Place::Here => push_own_name(alloc, node, names),
        Place::FirstBound => match nodes.as_slice() {
            [first, ..] => push_names(alloc, Declared::Bound, first, names),
            [] => Ok(()),
        },
        Place::Bound => push_all_names(alloc, Declared::Bound, nodes, names),
        Place::Below => push_all_names(alloc, declared, nodes, names),
        Place::Nowhere => Ok(()),
    }
}

/// Adds the names that some nodes declare.
#[cycle(names)]
fn push_all_names(
    alloc: Global,
    declared: Declared,
    nodes: &Nodes,
    names: &mut Vec<Name>,
) -> Result<(), OutOfMemory>
    ensures { OnOk result (names.new.items ≡ names.old.items ++ all_names declared nodes.now) }
{
    for node in nodes.as_slice() {
        push_names(alloc, declared, node, names)?;
    }
    Ok(())
}

/// Adds the names that a body of statements declares.
#[cycle(bodies)]
pub fn push_body_names(alloc: Global, node: &Node, names: &mut Vec<Name>) -> Result<(), OutOfMemory>
    ensures { OnOk result (names.new.items ≡ names.old.items ++ body_names node.now) }
{
    if is_statement_list(node.shape()) {
        push_all_body_names(alloc, node.children(), names)
    } else {
        push_names(alloc, Declared::Lexical, node, names)?;
        push_names(alloc, Declared::Hoisted, node, names)
    }
}

/// Adds the names that some statements declare for the body in which they stand.
#[cycle(bodies)]
fn push_all_body_names(
    alloc: Global,
    nodes: &Nodes,
    names: &mut Vec<Name>,
) -> Result<(), OutOfMemory>
    ensures { OnOk result (names.new.items ≡ names.old.items ++ all_body_names nodes.now) }
{
    for node in nodes.as_slice() {
        push_body_names(alloc, node, names)?;
    }
    Ok(())
}

/// Whether an inner expression stands in a tree.
#[cycle(inner)]
pub fn has_inner(node: &Node) -> bool
    ensures { result ≡ has_inner_part node.now }
{
    is_inner(node.shape()) || any_inner(node.children())
}

/// Whether an inner expression stands in one of some trees.
#[cycle(inner)]
fn any_inner(nodes: &Nodes) -> bool
    ensures { result ≡ any_inner_part nodes.now }
{
    for node in nodes.as_slice() {
        if has_inner(node) {
            return true;
        }
    }
    false
}
