//! What holds around a node.

ghost use Rattle.std.specs.Prelude.{◌≡◌, ◌<◌};
ghost use Rattle.mini_model.specs.Tree.{is_absent as is_absent_tree, children, shape_of};
ghost use Rattle.mini_laws.specs.NameBodies.{frame_at, frame_of_body, has_superclass as has_superclass_in, no_frame};
ghost use Rattle.mini_laws.specs.Mentions.{around_by as around_by_numbering, around_child, numbering_of as numbering_in, outermost};
ghost use Rattle.mini_node.specs.Children.{number_of};
ghost use Rattle.mini_laws.specs.Foreign.{is_body_by};
ghost use Rattle.mini_context.specs.Visits.{below, first_reading, frame_by, frame_in, is_exchange_shape, is_import_shape, reading_below, top};

use crate::strictness::is_strict_in;
use mini_laws::{Around, Numbering, Use};
use mini_model::{MethodDefinitionKind, Shape};
use mini_node::{Node, Nodes};
use mini_scope::use_of;

/// What `this`, `super` and `arguments` are at a place (ECMA-262, "BindThisValue",
/// "FunctionDeclarationInstantiation").
#[derive(Clone, Copy)]
pub struct Frame {
    /// Whether the class right around the place has a superclass.
    pub extends: bool,
    /// Whether the place is the constructor of a class with a superclass.
    pub constructs: bool,
    /// Whether `this` is bound by `super()` there.
    pub binds_this: bool,
    /// Whether the body around the place has an `arguments`.
    pub has_arguments: bool,
}

/// What holds around a node.
#[derive(Clone, Copy)]
pub struct Standing {
    /// How the node's names are used.
    pub usage: Use,
    /// The innermost node with a number around the node.
    pub around: Around,
    /// Whether the node's code is strict.
    pub strict: bool,
    /// Whether what a module imports and exports may be named there.
    pub exchanges: bool,
    /// Whether the node may be an import.
    pub imports: bool,
    /// Whether the node stands directly in the body of a script or a function, in which functions
    /// are no lexical names.
    pub in_body: bool,
    /// What `this` and `arguments` are there.
    pub frame: Frame,
}

/// How the names of a node are used, what is around it, and whether its code is strict: the part of
/// how it stands that most walks ask for.
#[derive(Clone, Copy)]
pub struct Reading {
    /// How the node's names are used.
    pub usage: Use,
    /// The innermost node with a number around the node.
    pub around: Around,
    /// Whether the node's code is strict.
    pub strict: bool,
}

/// How a program is read.
pub fn first_reading() -> Reading
    ensures { result ≡ first_reading }
{
    Reading {
        usage: Use::Read,
        around: Around {
            number: 0,
            carried: false,
        },
        strict: false,
    }
}

/// How the child at an index of a node is read.
pub fn reading_below(reading: Reading, node: &Node, at: usize) -> Reading
    ensures { result ≡ reading_below reading node.now at }
{
    let shape = node.shape();
    Reading {
        usage: use_of(shape, reading.usage, at),
        around: around_below(shape, reading.around, node.number(), at),
        strict: is_strict_in(reading.strict, shape),
    }
}

fn no_frame() -> Frame
    ensures { result ≡ frame_by no_frame }
{
    Frame {
        extends: false,
        constructs: false,
        binds_this: false,
        has_arguments: false,
    }
}

/// Where a program stands.
pub fn at_top() -> Standing
    ensures { result ≡ top }
{
    Standing {
        usage: Use::Read,
        around: Around {
            number: 0,
            carried: false,
        },
        strict: false,
        exchanges: true,
        imports: true,
        in_body: false,
        frame: no_frame(),
    }
}

/// How a node of this shape and this number stands.
pub fn numbering_of(shape: &Shape, number: u32) -> Numbering
    ensures { result ≡ numbering_in shape.now number }
{
    match shape {
        Shape::Program(..)
        | Shape::Function(..)
        | Shape::ArrowFunctionExpression(_)
        | Shape::StaticBlock
        | Shape::InnerExpression => Numbering::Body,
        _ if number == 0 => Numbering::Unnumbered,
        _ => Numbering::Carried,
    }
}

fn around_by(numbering: Numbering, around: Around, number: u32) -> Around
    ensures { result ≡ around_by_numbering numbering around number }
{
    match numbering {
        Numbering::Body => Around {
            number,
            carried: false,
        },
        Numbering::Carried => Around {
            number,
            carried: true,
        },
        Numbering::Unnumbered => around,
    }
}

/// The innermost node with a number around the child at an index of a node of this shape and this
/// number.
fn around_below(shape: &Shape, around: Around, number: u32, at: usize) -> Around
    ensures { result ≡ around_child shape.now around number at }
{
    match shape {
        Shape::Function(true, ..) | Shape::Class(true) if at == 0 => around,
        _ => around_by(numbering_of(shape, number), around, number),
    }
}

/// What holds in the body of a node of this shape.
pub fn frame_in_body(shape: &Shape, frame: Frame) -> Frame
    ensures { result ≡ frame_by (frame_of_body shape.now (frame_in frame)) }
{
    match shape {
        Shape::Program(..) | Shape::StaticBlock => no_frame(),
        Shape::Function(..) => Frame {
            extends: false,
            constructs: false,
            binds_this: frame.constructs,
            has_arguments: true,
        },
        Shape::ArrowFunctionExpression(_) => Frame {
            extends: false,
            constructs: false,
            binds_this: frame.binds_this,
            has_arguments: frame.has_arguments,
        },
        Shape::InnerExpression => Frame {
            extends: false,
            constructs: false,
            binds_this: frame.binds_this,
            has_arguments: false,
        },
        _ => frame,
    }
}

/// Whether a part is not there.
pub fn is_absent(node: &Node) -> bool
    ensures { result ≡ is_absent_tree node.now }
{
    matches!(node.shape(), Shape::Absent)
}

/// Whether a class with these children has a superclass.
fn has_superclass(nodes: &Nodes) -> bool
    ensures { result ≡ has_superclass_in nodes.now }
{
    match nodes.get(1) {
        Some(super_class) => !is_absent(super_class),
        None => false,
    }
}

/// What `this` and `arguments` are for the child at an index of a node of this shape.
fn frame_below(shape: &Shape, frame: Frame, nodes: &Nodes, at: usize) -> Frame
    ensures { result ≡ frame_by (frame_at shape.now (frame_in frame) nodes.now at) }
{
    match shape {
        Shape::Class(_) => Frame {
            extends: has_superclass(nodes),
            constructs: frame.constructs,
            binds_this: frame.binds_this,
            has_arguments: frame.has_arguments,
        },
        Shape::MethodDefinition(MethodDefinitionKind::Constructor, ..) if at > 0 => Frame {
            extends: frame.extends,
            constructs: frame.extends,
            binds_this: frame.binds_this,
            has_arguments: frame.has_arguments,
        },
        Shape::PropertyDefinition(..) if at > 0 => no_frame(),
        _ => frame_in_body(shape, frame),
    }
}

/// Whether what a module imports and exports may be named in the children of a node of this shape.
fn is_exchange(shape: &Shape) -> bool
    ensures { result ≡ is_exchange_shape shape.now }
{
    matches!(
        shape,
        Shape::Program(..) | Shape::Listed | Shape::ExportNamedDeclaration | Shape::ExportSpecifier
    )
}

/// Whether the children of a node of this shape may be imports.
fn is_importing(shape: &Shape) -> bool
    ensures { result ≡ is_import_shape shape.now }
{
    matches!(shape, Shape::Program(..) | Shape::Listed)
}

/// Whether the children of a node of this shape stand directly in the body of a script or a
/// function.
fn is_body(shape: &Shape, in_body: bool) -> bool
    ensures { result ≡ is_body_by shape.now in_body }
{
    match shape {
        Shape::Program(is_module, _) => !*is_module,
        Shape::FunctionBody | Shape::StaticBlock => true,
        Shape::Listed | Shape::ExportNamedDeclaration | Shape::ExportDefaultDeclaration => in_body,
        _ => false,
    }
}

/// What holds around the child at an index of a node.
pub fn standing_below(standing: Standing, node: &Node, at: usize) -> Standing
    ensures { result ≡ below standing node.now at }
{
    let shape = node.shape();
    Standing {
        usage: use_of(shape, standing.usage, at),
        around: around_below(shape, standing.around, node.number(), at),
        strict: is_strict_in(standing.strict, shape),
        exchanges: standing.exchanges && is_exchange(shape),
        imports: standing.imports && is_importing(shape),
        in_body: is_body(shape, standing.in_body),
        frame: frame_below(shape, standing.frame, node.children(), at),
    }
}
