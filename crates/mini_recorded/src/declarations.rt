//! Row 61: `let x = undefined` becomes `let x`, as a statement, in an export and in the head of a
//! `for`. It is made in place, and what it makes is lighter there.

ghost use Rattle.std.specs.Prelude.{◌≡◌, ◌&&◌, ◌<◌, true, nat_eq};
ghost use Rattle.mini_model.specs.Tree.{absent as absent_tree, children, count, shape_of};
ghost use Rattle.mini_node.specs.Children.{is_bare as is_it_bare, with_part};
ghost use Rattle.mini_node.specs.Kinds.{is_named_leaf as is_it_named_leaf};
ghost use Rattle.mini_log.specs.ListRows as row;
ghost use Rattle.mini_log.specs.Walk.{spot};
ghost use Rattle.mini_checker.specs.Made.{Made};
ghost use Rattle.mini_recorded.specs.Edited.{Edited};
ghost use Rattle.mini_recorded.specs.Declaring.{place_of};

use crate::lists::is_statement_list;
use mini_checker::{find, is_undefined};
use mini_model::{Position, Shape, VariableDeclarationKind};
use mini_node::{Node, Nodes, discard, is_listed};

// `x` where it is declared
fn is_binding(node: &Node) -> bool
    ensures { result ≡ (row.is_binding_shape (shape_of node.now) && is_it_named_leaf node.now) }
{
    matches!(node.shape(), Shape::BindingIdentifier) && node.is_named_leaf()
}

// `x = undefined`, of a plain name
fn begins_undefined(node: &Node) -> bool
    ensures kind { result ≡ row.begins_undefined node.now }
    ensures parts { result ≡ true → count (children node.now) ≡ 2 }
{
    matches!(node.shape(), Shape::VariableDeclarator)
        && (node.is_bare(2) && (is_binding(node.child(0)) && is_undefined(node.child(1))))
}

/// The place of the first declarator that begins as undefined; the number of all where none does.
pub fn first_undefined(declarators: &Nodes) -> usize
    ensures { result ≡ place_of declarators.now }
{
    for at in 0..declarators.len() {
        if begins_undefined(declarators.child(at)) {
            return at;
        }
    }
    declarators.len()
}

// Takes the initializer of a declarator away.
fn bare(node: &mut Node)
    requires { 1 < count (children node.old) }
    ensures { node.new ≡ with_part node.old 1 absent_tree }
{
    let children = node.children_mut();
    discard(children.take(1));
}

// The first declarator that begins as undefined loses its initializer.
fn bare_first(declarators: &mut Nodes) -> bool
    ensures { Edited (row.bared declarators.old) declarators.old declarators.new result }
{
    let at = first_undefined(declarators);
    if at >= declarators.len() {
        return false;
    }
    bare(declarators.child_mut(at));
    true
}

/// Whether it is a declaration by `let` of listed declarators, as `let a, b;`.
pub fn is_let(node: &Node) -> bool
    ensures kind { result ≡ row.is_let node.now }
    ensures parts { result ≡ true → count (children node.now) ≡ 1 }
{
    matches!(
        node.shape(),
        Shape::VariableDeclaration(VariableDeclarationKind::Let)
    ) && (node.is_bare(1) && is_listed(node.child(0)))
}

// 61: `let x = undefined` becomes `let x`.
fn bare_let(node: &mut Node) -> bool
    ensures { Made (row.bare_let node.old) node.old node.new result }
{
    if !is_let(node) {
        return false;
    }
    let list = node.children_mut().child_mut(0);
    bare_first(list.children_mut())
}

/// Whether it is an export of names or of a declaration, with its three parts.
pub fn is_export(node: &Node) -> bool
    ensures kind { result ≡ (row.is_export_shape (shape_of node.now) && is_it_bare node.now 3) }
    ensures parts { result ≡ true → count (children node.now) ≡ 3 }
{
    matches!(node.shape(), Shape::ExportNamedDeclaration) && node.is_bare(3)
}

// 61, in an export.
fn bare_export(node: &mut Node) -> bool
    ensures { Made (row.bare_export node.old) node.old node.new result }
{
    if !is_export(node) {
        return false;
    }
    bare_let(node.children_mut().child_mut(0))
}

fn is_for(node: &Node) -> bool
    ensures kind { result ≡ (row.is_for_shape (shape_of node.now) && is_it_bare node.now 4) }
    ensures parts { result ≡ true → count (children node.now) ≡ 4 }
{
    matches!(node.shape(), Shape::ForStatement) && node.is_bare(4)
}

/// Whether it is a `for`, and the index that of its first part.
pub fn has_head(node: &Node, index: u32) -> bool
    ensures kind { result ≡ (nat_eq (spot (children node.now) index) 0 && (row.is_for_shape (shape_of node.now) && is_it_bare node.now 4)) }
    ensures parts { result ≡ true → count (children node.now) ≡ 4 }
{
    find(node.children(), index).0 == 0 && is_for(node)
}

/// 61, in the head of a `for`.
pub fn bare_head(node: &mut Node, index: u32) -> bool
    ensures { Made (row.bare_head node.old index) node.old node.new result }
{
    if !has_head(node, index) {
        return false;
    }
    bare_let(node.children_mut().child_mut(0))
}

// 61, of the statement at a place in a list.
fn bare_let_at(nodes: &mut Nodes, at: usize) -> bool
    ensures { Edited (row.within (row.first_by row.bare_let) nodes.old at) nodes.old nodes.new result }
{
    if at >= nodes.len() {
        return false;
    }
    bare_let(nodes.child_mut(at))
}

// 61, of the export at a place in a list.
fn bare_export_at(nodes: &mut Nodes, at: usize) -> bool
    ensures { Edited (row.within (row.first_by row.bare_export) nodes.old at) nodes.old nodes.new result }
{
    if at >= nodes.len() {
        return false;
    }
    bare_export(nodes.child_mut(at))
}

/// 61, of the statement of an index in its list.
pub fn bare_statement(place: Position, node: &mut Node, index: u32) -> bool
    ensures { Made (row.in_list (row.first_by row.bare_let) place node.old index) node.old node.new result }
{
    if !is_statement_list(place, node) {
        return false;
    }
    bare_let_at(node.children_mut(), index as usize)
}

/// 61, of the export of an index in its list.
pub fn bare_exported(place: Position, node: &mut Node, index: u32) -> bool
    ensures { Made (row.in_list (row.first_by row.bare_export) place node.old index) node.old node.new result }
{
    if !is_statement_list(place, node) {
        return false;
    }
    bare_export_at(node.children_mut(), index as usize)
}
