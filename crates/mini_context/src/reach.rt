//! The parameters that an `arguments` reaches.

ghost use Rattle.std.specs.Prelude.{◌≡◌, ◌&&◌, ◌||◌, not};
ghost use Rattle.mini_model.specs.Tree.{shape_of, children};
ghost use Rattle.mini_node.specs.Children.{names, names_of};
ghost use Rattle.mini_laws.specs.Shared.{any_names_arguments as any_names_arguments_in, is_arguments as is_arguments_in, is_name_of_variable as is_name_shape, is_of_function as is_of_function_in, names_arguments as names_arguments_in, reached_params};
ghost use Rattle.mini_laws.specs.Strict.{is_strict_in as is_strict_at};
ghost use Rattle.mini_laws.specs.Early.{is_function_shape};
ghost use Rattle.mini_context.specs.Tables.{Marked};

use crate::marks::mark_names;
use crate::mentions::is_name_of_variable;
use crate::strictness::is_strict_in;
use mini_laws::Declared;
use mini_model::{Name, Shape};
use mini_node::{Node, Nodes};

/// The units of `arguments`.
const ARGUMENTS: [u16; 9] = [97, 114, 103, 117, 109, 101, 110, 116, 115];

fn is_arguments(name: &Option<Name>) -> bool
    ensures { result ≡ is_arguments_in (names name.now) }
{
    match name {
        Some(name) => name.spelling.as_slice() == ARGUMENTS.as_slice(),
        None => false,
    }
}

/// Whether what stands in the child at an index of a node of this shape belongs to the function
/// around the node.
fn is_of_function(shape: &Shape, at: usize) -> bool
    ensures { result ≡ is_of_function_in shape.now at }
{
    match shape {
        Shape::Function(..) | Shape::StaticBlock => false,
        Shape::PropertyDefinition(..) => at == 0,
        _ => true,
    }
}

fn is_own_arguments(node: &Node) -> bool
    ensures { result ≡ (is_name_shape (shape_of node.now) && is_arguments_in (names_of node.now)) }
{
    is_name_of_variable(node.shape()) && is_arguments(node.name())
}

/// Whether a function's own `arguments` is named in a part of it.
#[cycle(arguments)]
fn names_arguments(node: &Node) -> bool
    ensures { result ≡ names_arguments_in node.now }
{
    is_own_arguments(node) || any_names_arguments(node.shape(), node.children())
}

#[cycle(arguments)]
fn any_names_arguments(shape: &Shape, nodes: &Nodes) -> bool
    ensures { result ≡ any_names_arguments_in (is_of_function_in shape.now) 0 nodes.now }
{
    for at in 0..nodes.len() {
        if child_names_arguments(shape, at, nodes.child(at)) {
            return true;
        }
    }
    false
}

#[cycle(arguments)]
fn child_names_arguments(shape: &Shape, at: usize, child: &Node) -> bool
    ensures { result ≡ (is_of_function_in shape.now at && names_arguments_in child.now) }
{
    is_of_function(shape, at) && names_arguments(child)
}

fn is_function(shape: &Shape) -> bool
    ensures { result ≡ is_function_shape shape.now }
{
    matches!(shape, Shape::Function(..))
}

/// Whether a node of this shape is a sloppy function.
fn is_sloppy_function(strict: bool, shape: &Shape) -> bool
    ensures { result ≡ (is_function_shape shape.now && not (is_strict_at strict shape.now)) }
{
    is_function(shape) && !is_strict_in(strict, shape)
}

/// Whether a function with these parameters and this body names its own `arguments`.
fn names_own_arguments(params: &Node, body: &Node) -> bool
    ensures { result ≡ (names_arguments_in params.now || names_arguments_in body.now) }
{
    names_arguments(params) || names_arguments(body)
}

/// Marks the parameters of a sloppy function that names its `arguments`. (ECMA-262,
/// "CreateMappedArgumentsObject".)
pub fn mark_reached(marks: &mut Vec<bool>, strict: bool, node: &Node)
    ensures { Marked (reached_params (is_strict_at strict (shape_of node.now)) (shape_of node.now) (children node.now)) marks.old.items marks.new.items }
{
    if is_sloppy_function(strict, node.shape()) {
        if let [_id, params, body, ..] = node.parts() {
            if names_own_arguments(params, body) {
                mark_names(marks, Declared::Bound, params);
            }
        }
    }
}
