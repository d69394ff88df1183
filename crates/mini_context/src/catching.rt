//! The `var`s under a parameter of `catch` of their name.

ghost use Rattle.std.specs.Prelude.{◌≡◌, ℕ, List, IfOk, OnOk};
ghost use Rattle.mini_model.specs.Tree.{children, shape_of};
ghost use Rattle.mini_node.specs.Children.{trees_of};
ghost use Rattle.mini_laws.specs.DeclaredNames.{all_names, bound_names, is_spelled, names_of};
ghost use Rattle.mini_laws.specs.declared.names.Declared.TheVariants as declared;
ghost use Rattle.mini_laws.specs.declared.names.Use.TheVariants as variant;
ghost use Rattle.mini_laws.specs.Shared.{own_caught, spelled_among};
ghost use Rattle.mini_scope.specs.Spelled.{has_name};
ghost use Rattle.mini_context.specs.Own.{is_catch_shape};
ghost use Rattle.mini_context.specs.Tables.{Marked};

use crate::marks::mark_name;
use mini_laws::{Declared, Use};
use mini_model::{Name, OutOfMemory, Shape};
use mini_node::Node;
use mini_scope::{Environment, add_all, push_names};
use std::alloc::Global;

fn is_catch(shape: &Shape) -> bool
    ensures { result ≡ is_catch_shape shape.now }
{
    matches!(shape, Shape::CatchClause)
}

/// The names of a kind that a node declares. The only error is that memory runs out.
pub fn names_in(alloc: Global, declared: Declared, node: &Node) -> Result<Vec<Name>, OutOfMemory>
    ensures { IfOk result (λ names. names.items ≡ names_of declared node.now) }
{
    let mut names = Vec::new(alloc);
    push_names(alloc, declared, node, &mut names)?;
    Ok(names)
}

fn hoisted_names(alloc: Global, nodes: &[Node]) -> Result<Vec<Name>, OutOfMemory>
    ensures { IfOk result (λ names. names.items ≡ all_names declared.Hoisted (trees_of nodes.now)) }
{
    let mut names = Vec::new(alloc);
    for node in nodes {
        push_names(alloc, Declared::Hoisted, node, &mut names)?;
    }
    Ok(names)
}

// Names that are looked up by their spelling.
fn table_of(alloc: Global, names: Vec<Name>) -> Result<Environment, OutOfMemory>
    ensures { IfOk result (λ table. (s : List ℕ) → has_name variant.Read s table ≡ is_spelled s names.items) }
{
    let mut table = Environment::new(alloc);
    add_all(&mut table, names, true)?;
    Ok(table)
}

fn mark_spelled(marks: &mut Vec<bool>, table: &Environment, names: &[Name])
    ensures { (xs : List Name) → ((s : List ℕ) → has_name variant.Read s table.now ≡ is_spelled s xs) → Marked (spelled_among xs names.now) marks.old.items marks.new.items }
{
    for name in names {
        if table.has(Use::Read, &name.spelling) {
            mark_name(marks, name);
        }
    }
}

fn mark_under(
    alloc: Global,
    marks: &mut Vec<bool>,
    param: &Node,
    rest: &[Node],
) -> Result<(), OutOfMemory>
    ensures { OnOk result (Marked (spelled_among (bound_names param.now) (all_names declared.Hoisted (trees_of rest.now))) marks.old.items marks.new.items) }
{
    let hoisted = hoisted_names(alloc, rest)?;
    let table = table_of(alloc, names_in(alloc, Declared::Bound, param)?)?;
    mark_spelled(marks, &table, hoisted.as_slice());
    Ok(())
}

/// Marks the `var`s in a `catch` clause that have the name of its parameter. The only error is that
/// memory runs out.
pub fn mark_caught(alloc: Global, marks: &mut Vec<bool>, node: &Node) -> Result<(), OutOfMemory>
    ensures { OnOk result (Marked (own_caught (shape_of node.now) (children node.now)) marks.old.items marks.new.items) }
{
    if !is_catch(node.shape()) {
        return Ok(());
    }
    match node.parts() {
        [param, rest @ ..] => mark_under(alloc, marks, param, rest),
        [] => Ok(()),
    }
}
