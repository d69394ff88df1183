//! What `var`s write where they stand: a declarator its own name, or else those that it declares.
//! And the names in their patterns, of which each value goes to the innermost variable of its name.

ghost use Rattle.std.specs.Prelude.{◌≡◌, ◌∷◌, [], ◌++◌, map, OnOk};
ghost use Rattle.mini_model.specs.declared.shape.Shape.TheVariants as shape;
ghost use Rattle.mini_model.specs.Tree.{children, shape_of};
ghost use Rattle.mini_node.specs.Children.{names_of, trees_of};
ghost use Rattle.mini_laws.specs.declared.names.Use.TheVariants as variant;
ghost use Rattle.mini_laws.specs.DeclaredNames.{bound_names};
ghost use Rattle.mini_laws.specs.Resolved.{with_symbol};
ghost use Rattle.mini_laws.specs.Shared.{given_values, is_pattern as is_pattern_shape, names_in_pattern, own_pattern_writes, write_at, written_by};
ghost use Rattle.mini_context.specs.Mentioned.{Joined};
ghost use Rattle.mini_context.specs.Tables.{Marked};

use crate::catching::names_in;
use crate::marks::mark_symbol;
use crate::mentions::{Mentioned, join_symbol};
use crate::standing::{Standing, is_absent};
use mini_laws::{Around, Binding, Declared, Use};
use mini_model::{Name, OutOfMemory, Shape};
use mini_node::Node;
use mini_scope::{Environment, gives_value, is_declarator};
use std::alloc::Global;

/// Goes into a scope, whose names have their symbols.
pub fn enter_scope(environment: &mut Environment, scope: Vec<Binding>) -> Result<(), OutOfMemory>
    ensures { OnOk result (environment.new ≡ environment.old ++ scope.items) }
{
    for binding in scope {
        environment.push(binding)?;
    }
    Ok(())
}

fn join_name(given: &mut Vec<Mentioned>, around: Around, name: &Name)
    ensures { Joined (write_at around name.now ∷ []) given.old.items given.new.items }
{
    if let Some(symbol) = name.symbol {
        join_symbol(given, symbol, around);
    }
}

fn join_all(given: &mut Vec<Mentioned>, around: Around, names: &[Name])
    ensures { Joined (map (write_at around) names.now) given.old.items given.new.items }
{
    for name in names {
        join_name(given, around, name);
    }
}

fn join_bound(
    alloc: Global,
    given: &mut Vec<Mentioned>,
    around: Around,
    id: &Node,
) -> Result<(), OutOfMemory>
    ensures { OnOk result (Joined (map (write_at around) (bound_names id.now)) given.old.items given.new.items) }
{
    let names = names_in(alloc, Declared::Bound, id)?;
    join_all(given, around, names.as_slice());
    Ok(())
}

// Adds what a declarator writes that gives a value.
fn join_written(
    alloc: Global,
    given: &mut Vec<Mentioned>,
    around: Around,
    node: &Node,
    id: &Node,
) -> Result<(), OutOfMemory>
    ensures { OnOk result (Joined (map (write_at around) (written_by (names_of node.now) id.now)) given.old.items given.new.items) }
{
    match node.name() {
        Some(name) => {
            join_name(given, around, name);
            Ok(())
        }
        None => join_bound(alloc, given, around, id),
    }
}

fn join_declarator(
    alloc: Global,
    given: &mut Vec<Mentioned>,
    standing: Standing,
    node: &Node,
) -> Result<(), OutOfMemory>
    ensures { OnOk result (Joined (map (write_at standing.around) (given_values standing.usage shape.VariableDeclarator (names_of node.now) (children node.now))) given.old.items given.new.items) }
{
    match node.parts() {
        [id, init, ..] => {
            if gives_value(standing.usage, is_absent(init)) {
                join_written(alloc, given, standing.around, node, id)
            } else {
                Ok(())
            }
        }
        _ => Ok(()),
    }
}

/// Adds what a node itself writes as a `var` does.
pub fn join_values(
    alloc: Global,
    given: &mut Vec<Mentioned>,
    standing: Standing,
    node: &Node,
) -> Result<(), OutOfMemory>
    ensures { OnOk result (Joined (map (write_at standing.around) (given_values standing.usage (shape_of node.now) (names_of node.now) (children node.now))) given.old.items given.new.items) }
{
    if is_declarator(node) {
        join_declarator(alloc, given, standing, node)
    } else {
        Ok(())
    }
}

fn mark_innermost(marks: &mut Vec<bool>, environment: &Environment, name: &Name)
    ensures { Marked (with_symbol variant.Read environment.now name.now ∷ []) marks.old.items marks.new.items }
{
    if let Some(symbol) = environment.symbol_of(Use::Read, &name.spelling) {
        mark_symbol(marks, symbol);
    }
}

fn mark_all_innermost(marks: &mut Vec<bool>, environment: &Environment, names: &[Name])
    ensures { Marked (map (with_symbol variant.Read environment.now) names.now) marks.old.items marks.new.items }
{
    for name in names {
        mark_innermost(marks, environment, name);
    }
}

fn is_pattern(node: &Node) -> bool
    ensures { result ≡ is_pattern_shape (shape_of node.now) }
{
    matches!(node.shape(), Shape::ObjectPattern | Shape::ArrayPattern)
}

fn mark_pattern(
    alloc: Global,
    marks: &mut Vec<bool>,
    environment: &Environment,
    id: &Node,
) -> Result<(), OutOfMemory>
    ensures { OnOk result (Marked (map (with_symbol variant.Read environment.now) (names_in_pattern id.now)) marks.old.items marks.new.items) }
{
    if !is_pattern(id) {
        return Ok(());
    }
    let names = names_in(alloc, Declared::Bound, id)?;
    mark_all_innermost(marks, environment, names.as_slice());
    Ok(())
}

fn mark_declarator(
    alloc: Global,
    marks: &mut Vec<bool>,
    environment: &Environment,
    usage: Use,
    nodes: &[Node],
) -> Result<(), OutOfMemory>
    ensures { OnOk result (Marked (own_pattern_writes usage environment.now shape.VariableDeclarator (trees_of nodes.now)) marks.old.items marks.new.items) }
{
    match nodes {
        [id, init, ..] => {
            if gives_value(usage, is_absent(init)) {
                mark_pattern(alloc, marks, environment, id)
            } else {
                Ok(())
            }
        }
        _ => Ok(()),
    }
}

/// Marks what a node itself writes as the pattern of a `var` does. (ECMA-262, "Runtime Semantics:
/// BindingInitialization": ResolveBinding.)
pub fn mark_pattern_writes(
    alloc: Global,
    marks: &mut Vec<bool>,
    environment: &Environment,
    usage: Use,
    node: &Node,
) -> Result<(), OutOfMemory>
    ensures { OnOk result (Marked (own_pattern_writes usage environment.now (shape_of node.now) (children node.now)) marks.old.items marks.new.items) }
{
    if is_declarator(node) {
        mark_declarator(alloc, marks, environment, usage, node.parts())
    } else {
        Ok(())
    }
}
