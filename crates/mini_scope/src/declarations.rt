//! The names that the parts of a tree declare, with their places.

ghost use Rattle.std.specs.Prelude.{◌≡◌, ◌++◌, not, ◌&&◌, IfOk, OnOk};
ghost use Rattle.mini_model.specs.Tree.{child_or_absent, children, shape_of};
ghost use Rattle.mini_node.specs.Children.{names};
ghost use Rattle.mini_laws.specs.Early.{own_declarations, declarations as declarations_of, all_declarations, body_declarations, all_body_declarations, at_child, in_body, is_function_shape, is_pattern_shape, in_param, in_block, declarations_by, scope_declarations};
ghost use Rattle.mini_scope.specs.Paths.{IsUp};

use crate::declared::copy_text;
use crate::kinds::{clash_of, holds_statements, is_function, is_pattern};
use crate::tables::place_of;
use mini_laws::{Clash, Declaration, Declared, Path, Place};
use mini_model::{Name, OutOfMemory, OwnedList, Shape};
use mini_node::{Node, Nodes};
use std::alloc::Global;

/// A copy of a path. The only error is that memory runs out.
pub fn copy_path(alloc: Global, path: &Path) -> Result<Path, OutOfMemory>
    ensures { IfOk result (λ copy. copy ≡ path.now) }
{
    let mut copy = OwnedList::new(alloc);
    for index in path.as_slice() {
        copy.push(*index)?;
    }
    Ok(copy)
}

/// Takes the last index off a path, which then leads to the node above.
pub fn go_up(path: &mut Path)
    ensures { IsUp path.old path.new }
{
    path.pop();
}

/// Adds the name of a node, where it has one.
fn push_own(
    alloc: Global,
    is_lexical: bool,
    path: &Path,
    name: &Option<Name>,
    found: &mut Vec<Declaration>,
) -> Result<(), OutOfMemory>
    ensures { OnOk result (found.new.items ≡ found.old.items ++ own_declarations is_lexical path.now (names name.now)) }
{
    if let Some(name) = name {
        let declaration = Declaration {
            spelling: copy_text(alloc, &name.spelling)?,
            is_lexical,
            at: copy_path(alloc, path)?,
        };
        match found.push(declaration) {
            Ok(()) => {}
            Err(_) => return Err(OutOfMemory),
        }
    }
    Ok(())
}

/// Adds the declarations that a node at a path holds.
#[cycle(declarations)]
fn push_declarations(
    alloc: Global,
    declared: Declared,
    is_lexical: bool,
    path: &mut Path,
    node: &Node,
    found: &mut Vec<Declaration>,
) -> Result<(), OutOfMemory>
    ensures path { OnOk result (path.new ≡ path.old) }
    ensures found { OnOk result (found.new.items ≡ found.old.items ++ declarations_of declared is_lexical path.old node.now) }
{
    let nodes = node.children();
    match place_of(declared, node.shape()) {
        Place::Here => push_own(alloc, is_lexical, path, node.name(), found),
        Place::FirstBound => push_at(alloc, Declared::Bound, is_lexical, path, nodes, 0, found),
        Place::Bound => push_all(alloc, Declared::Bound, is_lexical, path, nodes, found),
        Place::Below => push_all(alloc, declared, is_lexical, path, nodes, found),
        Place::Nowhere => Ok(()),
    }
}

/// Adds the declarations that the children of a node at a path hold.
#[cycle(declarations)]
fn push_all(
    alloc: Global,
    declared: Declared,
    is_lexical: bool,
    path: &mut Path,
    nodes: &Nodes,
    found: &mut Vec<Declaration>,
) -> Result<(), OutOfMemory>
    ensures path { OnOk result (path.new ≡ path.old) }
    ensures found { OnOk result (found.new.items ≡ found.old.items ++ all_declarations declared is_lexical path.old 0 nodes.now) }
{
    for at in 0..nodes.len() {
        push_at(alloc, declared, is_lexical, path, nodes, at, found)?;
    }
    Ok(())
}

/// Adds the declarations that the child at an index holds, where there is such a child.
#[cycle(declarations)]
fn push_at(
    alloc: Global,
    declared: Declared,
    is_lexical: bool,
    path: &mut Path,
    nodes: &Nodes,
    at: usize,
    found: &mut Vec<Declaration>,
) -> Result<(), OutOfMemory>
    ensures path { OnOk result (path.new ≡ path.old) }
    ensures found { OnOk result (found.new.items ≡ found.old.items ++ at_child declared is_lexical path.old nodes.now at) }
{
    if at < nodes.len() {
        path.push(at)?;
        let pushed = push_declarations(alloc, declared, is_lexical, path, nodes.child(at), found);
        go_up(path);
        pushed
    } else {
        Ok(())
    }
}

/// Whether what a statement of this shape declares in a body is lexical.
fn is_lexical_in(is_outer: bool, shape: &Shape) -> bool
    ensures { result ≡ not (is_outer && is_function_shape shape.now) }
{
    !(is_outer && is_function(shape))
}

/// Adds the declarations of a body of statements. A flag says whether functions are lexical in it,
/// or like `var`.
#[cycle(bodies)]
fn push_body(
    alloc: Global,
    is_outer: bool,
    path: &mut Path,
    node: &Node,
    found: &mut Vec<Declaration>,
) -> Result<(), OutOfMemory>
    ensures path { OnOk result (path.new ≡ path.old) }
    ensures found { OnOk result (found.new.items ≡ found.old.items ++ body_declarations is_outer path.old node.now) }
{
    let nodes = node.children();
    if holds_statements(node.shape()) {
        push_all_bodies(alloc, is_outer, path, nodes, found)
    } else {
        let is_lexical = is_lexical_in(is_outer, node.shape());
        push_declarations(alloc, Declared::Lexical, is_lexical, path, node, found)?;
        push_declarations(alloc, Declared::Hoisted, false, path, node, found)
    }
}

/// Adds the declarations of some statements.
#[cycle(bodies)]
fn push_all_bodies(
    alloc: Global,
    is_outer: bool,
    path: &mut Path,
    nodes: &Nodes,
    found: &mut Vec<Declaration>,
) -> Result<(), OutOfMemory>
    ensures path { OnOk result (path.new ≡ path.old) }
    ensures found { OnOk result (found.new.items ≡ found.old.items ++ all_body_declarations is_outer path.old 0 nodes.now) }
{
    for at in 0..nodes.len() {
        push_body_at(alloc, is_outer, path, nodes, at, found)?;
    }
    Ok(())
}

/// Adds the declarations of the statement at an index, where there is such a one.
#[cycle(bodies)]
fn push_body_at(
    alloc: Global,
    is_outer: bool,
    path: &mut Path,
    nodes: &Nodes,
    at: usize,
    found: &mut Vec<Declaration>,
) -> Result<(), OutOfMemory>
    ensures path { OnOk result (path.new ≡ path.old) }
    ensures found { OnOk result (found.new.items ≡ found.old.items ++ in_body is_outer path.old nodes.now at) }
{
    if at < nodes.len() {
        path.push(at)?;
        let pushed = push_body(alloc, is_outer, path, nodes.child(at), found);
        go_up(path);
        pushed
    } else {
        Ok(())
    }
}

/// Whether the parameter of a `catch` with these children is a pattern, and not a name alone.
fn has_pattern(nodes: &Nodes) -> bool
    ensures { result ≡ is_pattern_shape (shape_of (child_or_absent nodes.now 0)) }
{
    nodes.len() == 0 || is_pattern(nodes.child(0).shape())
}

/// Adds what the block of a `catch` with these children declares.
fn push_block(
    alloc: Global,
    path: &mut Path,
    nodes: &Nodes,
    found: &mut Vec<Declaration>,
) -> Result<(), OutOfMemory>
    ensures path { OnOk result (path.new ≡ path.old) }
    ensures found { OnOk result (found.new.items ≡ found.old.items ++ in_block path.old nodes.now) }
{
    if 1 < nodes.len() {
        path.push(1)?;
        let pushed = push_body_at(alloc, false, path, nodes.child(1).children(), 0, found);
        go_up(path);
        pushed
    } else {
        Ok(())
    }
}

/// Adds the declarations that must not clash in the scopes that a node opens.
pub fn push_scope(
    alloc: Global,
    path: &mut Path,
    node: &Node,
    found: &mut Vec<Declaration>,
) -> Result<(), OutOfMemory>
    ensures path { OnOk result (path.new ≡ path.old) }
    ensures found { OnOk result (found.new.items ≡ found.old.items ++ scope_declarations (shape_of node.now) path.old (children node.now)) }
{
    push_by(alloc, clash_of(node.shape()), path, node.children(), found)
}

fn push_by(
    alloc: Global,
    clash: Clash,
    path: &mut Path,
    nodes: &Nodes,
    found: &mut Vec<Declaration>,
) -> Result<(), OutOfMemory>
    ensures path { OnOk result (path.new ≡ path.old) }
    ensures found { OnOk result (found.new.items ≡ found.old.items ++ declarations_by clash path.old nodes.now) }
{
    match clash {
        Clash::Nothing => Ok(()),
        Clash::Body(is_outer) => push_body_at(alloc, is_outer, path, nodes, 0, found),
        Clash::Function(params, body) => {
            push_at(alloc, Declared::Bound, false, path, nodes, params, found)?;
            push_body_at(alloc, true, path, nodes, body, found)
        }
        Clash::Switch => push_body_at(alloc, false, path, nodes, 1, found),
        Clash::Catch => {
            push_at(
                alloc,
                Declared::Bound,
                has_pattern(nodes),
                path,
                nodes,
                0,
                found,
            )?;
            push_block(alloc, path, nodes, found)
        }
        Clash::Loop(body) => {
            push_at(alloc, Declared::Lexical, true, path, nodes, 0, found)?;
            push_at(alloc, Declared::Hoisted, false, path, nodes, body, found)
        }
    }
}
