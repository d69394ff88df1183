//! Which bodies ask the world for `this`: the constructors of classes with a superclass, and arrows
//! and inner expressions in them. (ECMA-262, "ResolveThisBinding", "BindThisValue".)

ghost use Rattle.std.specs.Prelude.{◌≡◌, ℕ, not, OnOk};
ghost use Rattle.std.specs.List.{list_any};
ghost use Rattle.mini_model.specs.Tree.{children, shape_of};
ghost use Rattle.mini_laws.specs.Bodies.{below, bodies, bodies_from, bodies_in, Around};
ghost use Rattle.mini_laws.specs.Naming.{facts, nth_absent, summary};
ghost use Rattle.mini_context.specs.Asking.{absence_of as absence_by, asking_by, asks_as, own_asks as own_asks_by, Like, PutAsking};
ghost use Rattle.mini_context.specs.Tables.{mark_at};

use crate::survey::mark_number;
use mini_model::{MethodDefinitionKind, OutOfMemory, Shape, UnaryOperator};
use mini_node::{Node, Nodes};
use std::alloc::Global;

/// What the nodes around a place say of whether bodies there ask the world for `this`.
#[derive(Clone, Copy)]
pub struct Asking {
    /// Whether an arrow function around the place asks the world for `this`.
    pub asks: bool,
    /// Whether the class around the place has a superclass.
    pub extends: bool,
    /// Whether a function around the place is the constructor of a class with a superclass.
    pub constructs: bool,
}

/// Where a parent reads whether a part of it is absent.
#[derive(Clone, Copy)]
pub enum Absence {
    /// The node is itself absent.
    Here,
    /// What is read of the first child; where there is none, what the field says.
    OfFirst(bool),
    /// The node is there.
    Nowhere,
}

fn absence_of(shape: &Shape) -> Absence
    ensures { result ≡ absence_by shape.now }
{
    match shape {
        Shape::Absent => Absence::Here,
        Shape::UnaryExpression(UnaryOperator::LogicalNot) => Absence::OfFirst(false),
        Shape::SwitchCase => Absence::OfFirst(true),
        _ => Absence::Nowhere,
    }
}

// Whether a parent reads that the node is absent.
fn reads_absent(node: &Node) -> bool
    ensures { result ≡ (summary node.now).facts.absent }
{
    let nodes = node.children();
    match absence_of(node.shape()) {
        Absence::Here => true,
        Absence::OfFirst(missing) => match nodes.get(0) {
            Some(first) => reads_absent(first),
            None => missing,
        },
        Absence::Nowhere => false,
    }
}

// Whether a class with these children has a superclass.
fn extends(nodes: &Nodes) -> bool
    ensures { result ≡ not (nth_absent (facts nodes.now) 1) }
{
    match nodes.get(1) {
        Some(super_class) => !reads_absent(super_class),
        None => false,
    }
}

fn own_asks(shape: &Shape, asking: Asking) -> bool
    ensures { result ≡ own_asks_by shape.now asking.asks asking.constructs }
{
    match shape {
        Shape::Function(..) => asking.constructs,
        Shape::ArrowFunctionExpression(_) | Shape::InnerExpression => asking.asks,
        _ => false,
    }
}

fn stands(asks: bool, extends: bool, constructs: bool) -> Asking
    ensures { result ≡ record { asks = asks; extends = extends; constructs = constructs } }
{
    Asking {
        asks,
        extends,
        constructs,
    }
}

/// What is around the child at an index of a node of this shape.
fn asking_below(shape: &Shape, around: Asking, nodes: &Nodes, at: usize) -> Asking
    ensures { result ≡ asking_by shape.now around nodes.now at }
{
    match shape {
        Shape::Function(..) => stands(around.constructs, around.extends, false),
        Shape::StaticBlock => stands(false, around.extends, false),
        Shape::PropertyDefinition(..) if at > 0 => stands(false, around.extends, false),
        Shape::Class(_) => stands(around.asks, extends(nodes), false),
        Shape::MethodDefinition(MethodDefinitionKind::Constructor, ..) if at > 0 => {
            stands(around.asks, around.extends, around.extends)
        }
        _ => stands(around.asks, around.extends, false),
    }
}

#[cycle(asking)]
fn mark_asking(marks: &mut Vec<bool>, around: Asking, node: &Node) -> Result<(), OutOfMemory>
    ensures { (a : Around) → Like around a → OnOk result (PutAsking (bodies a node.now) marks.old.items marks.new.items) }
{
    mark_number(marks, node.number(), own_asks(node.shape(), around))?;
    mark_below(marks, around, node)
}

#[cycle(asking)]
fn mark_below(marks: &mut Vec<bool>, around: Asking, node: &Node) -> Result<(), OutOfMemory>
    ensures { (a : Around) → Like around a → OnOk result (PutAsking (bodies_from (below a (shape_of node.now) (children node.now)) 0 (children node.now)) marks.old.items marks.new.items) }
{
    let nodes = node.children();
    for at in 0..nodes.len() {
        mark_asking(
            marks,
            asking_below(node.shape(), around, nodes, at),
            nodes.child(at),
        )?;
    }
    Ok(())
}

/// Sets, by number, which bodies of a program ask the world for `this`. After `OutOfMemory` the
/// marks are fit only to be dropped.
pub fn list_asking(alloc: Global, marks: &mut Vec<bool>, program: &Node) -> Result<(), OutOfMemory>
    ensures { OnOk result ((b : ℕ) → mark_at marks.new.items b ≡ list_any (asks_as b) (bodies_in program.now)) }
{
    *marks = Vec::new(alloc);
    mark_asking(marks, stands(false, false, false), program)
}
