//! Which parts of lists go where the symbols of a set are to go.

ghost use Rattle.std.specs.Prelude.{◌≡◌, ◌&&◌, true, if◌then◌else◌};
ghost use Rattle.mini_model.specs.Tree.{child_or_absent, children, count, is_absent as is_it_absent};
ghost use Rattle.mini_node.specs.Children.{names, has_count};
ghost use Rattle.mini_dead.specs.Dead as dead;
ghost use Rattle.mini_dead.specs.Pruned.{Role};
ghost use Rattle.mini_context.specs.Tables.{mark_at};
ghost use Rattle.mini_drop.specs.Asked as item;
ghost use Rattle.mini_drop.specs.Asked.{role_in, items_by};

use crate::place::Role;
use mini_context::is_marked;
use mini_model::{Name, Shape};
use mini_node::{Node, Nodes};
use mini_terms::is_effect_free;

// Whether there are exactly that many nodes.
#[tactic(auto, using(crate::proofs::Told::counted, crate::proofs::Told::as_many))]
fn are_so_many(nodes: &Nodes, number: usize) -> bool
    ensures kind { result ≡ has_count nodes.now number }
    ensures parts { result ≡ true → count nodes.now ≡ number }
{
    nodes.len() == number
}

fn one_if(is_one: bool) -> usize
    ensures { result ≡ item.one_if is_one }
{
    if is_one { 1 } else { 0 }
}

fn is_in(set: &[bool], name: &Option<Name>) -> bool
    ensures { result ≡ item.one_in (mark_at set.now) (names name.now) }
{
    match name {
        Some(name) => match name.symbol {
            Some(symbol) => is_marked(set, symbol.0),
            None => false,
        },
        None => false,
    }
}

// A plain name that is declared, and whose symbol is of the set.
fn binds(set: &[bool], node: &Node) -> bool
    ensures { result ≡ item.binds (mark_at set.now) node.now }
{
    matches!(node.shape(), Shape::BindingIdentifier)
        && are_so_many(node.children(), 0)
        && is_in(set, node.name())
}

/// Whether the node is a function expression or an arrow.
pub fn is_function_value(node: &Node) -> bool
    ensures { result ≡ dead.is_function_value node.now }
{
    matches!(
        node.shape(),
        Shape::Function(false, ..) | Shape::ArrowFunctionExpression(_)
    )
}

fn is_absent(node: &Node) -> bool
    ensures { result ≡ is_it_absent node.now }
{
    matches!(node.shape(), Shape::Absent)
}

/// Whether an initializer may go with its declarator: there is none, or it has no effect, or it is
/// a function.
pub fn is_dispensable(node: &Node) -> bool
    ensures { result ≡ dead.is_dispensable node.now }
{
    is_absent(node) || is_effect_free(node, true) || is_function_value(node)
}

// A declarator of a plain name that goes, with its initializer.
fn declarator_goes(set: &[bool], node: &Node) -> bool
    ensures { result ≡ item.declarator_goes (mark_at set.now) node.now }
{
    matches!(node.shape(), Shape::VariableDeclarator)
        && node.name().is_none()
        && are_so_many(node.children(), 2)
        && binds(set, node.child(0))
        && is_dispensable(node.child(1))
}

fn all_go(set: &[bool], nodes: &Nodes) -> bool
    ensures { result ≡ item.all_go (mark_at set.now) nodes.now }
{
    let mut all = true;
    for at in 0..nodes.len() {
        all = all & declarator_goes(set, nodes.child(at));
    }
    all
}

// How many declarators go with their declaration.
fn declarators_of(set: &[bool], list: &Node) -> usize
    ensures { result ≡ item.declarators_of (mark_at set.now) list.now }
{
    if matches!(list.shape(), Shape::Listed) && all_go(set, list.children()) {
        list.children().len()
    } else {
        0
    }
}

fn declaration_items(set: &[bool], nodes: &Nodes) -> usize
    ensures { result ≡ (if has_count nodes.now 1 then item.declarators_of (mark_at set.now) (child_or_absent nodes.now 0) else 0) }
{
    if are_so_many(nodes, 1) {
        declarators_of(set, nodes.child(0))
    } else {
        0
    }
}

fn lone_items(nodes: &Nodes) -> usize
    ensures { result ≡ item.one_if (has_count nodes.now 1 && dead.is_function_value (child_or_absent nodes.now 0)) }
{
    one_if(are_so_many(nodes, 1) && is_function_value(nodes.child(0)))
}

fn function_items(set: &[bool], nodes: &Nodes) -> usize
    ensures { result ≡ item.one_if (item.binds (mark_at set.now) (child_or_absent nodes.now 0)) }
{
    match nodes.get(0) {
        Some(id) => one_if(binds(set, id)),
        None => 0,
    }
}

fn statement_items(set: &[bool], shape: &Shape, nodes: &Nodes) -> usize
    ensures { result ≡ items_by (mark_at set.now) shape.now nodes.now }
{
    match shape {
        Shape::Function(true, ..) => function_items(set, nodes),
        Shape::ExpressionStatement => lone_items(nodes),
        Shape::VariableDeclaration(_) => declaration_items(set, nodes),
        _ => 0,
    }
}

/// How many items a part of a list is, where it goes with the symbols of the set; 0 where it stays.
pub fn items_of(set: &[bool], role: Role, node: &Node) -> usize
    ensures { result ≡ item.items_of (mark_at set.now) (role_in role) node.now }
{
    match role {
        Role::StatementList => statement_items(set, node.shape(), node.children()),
        Role::DeclaratorList(_) => one_if(declarator_goes(set, node)),
        _ => 0,
    }
}

fn is_one(name: &Option<Name>) -> bool
    ensures { result ≡ item.is_one (names name.now) }
{
    name.is_some()
}

// A plain name that is declared.
fn is_plain(node: &Node) -> bool
    ensures { result ≡ item.is_plain node.now }
{
    matches!(node.shape(), Shape::BindingIdentifier)
        && are_so_many(node.children(), 0)
        && is_one(node.name())
}

fn is_plain_declarator(node: &Node) -> bool
    ensures { result ≡ item.is_plain_declarator node.now }
{
    matches!(node.shape(), Shape::VariableDeclarator)
        && node.name().is_none()
        && are_so_many(node.children(), 2)
        && is_plain(node.child(0))
        && is_dispensable(node.child(1))
}

fn is_declared_function(shape: &Shape) -> bool
    ensures { result ≡ item.is_declared_function shape.now }
{
    matches!(shape, Shape::Function(true, ..))
}

fn is_plain_first(nodes: &Nodes) -> bool
    ensures { result ≡ item.is_plain (child_or_absent nodes.now 0) }
{
    match nodes.get(0) {
        Some(id) => is_plain(id),
        None => false,
    }
}

/// Whether a part of a list is an item with a name: a function declaration, or a declarator of a
/// plain name whose initializer may go.
pub fn is_item(role: Role, node: &Node) -> bool
    ensures { result ≡ item.is_item (role_in role) node.now }
{
    match role {
        Role::StatementList => {
            is_declared_function(node.shape()) && is_plain_first(node.children())
        }
        Role::DeclaratorList(_) => is_plain_declarator(node),
        _ => false,
    }
}
