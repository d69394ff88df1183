// How a node is read: as a head over children, each of which is read of the nodes below.

ghost use Rattle.std.specs.Prelude.{◌≡◌};
ghost use Rattle.mini_plan.specs.declared.plan.Head.TheVariants as head;

use mini_fields::{Class, Depth, LiteralValue, Place, Tagging};
use mini_model::Shape;
use serde_json::Value;

/// The way from a node to one below it.
#[derive(Clone, Copy)]
pub enum Step {
    /// To the node in a field.
    Field(&'static str),
    /// To the node at an index of a list field.
    Item(&'static str, usize),
}

/// What stands in a tree for a node below.
#[derive(Clone, Copy)]
pub enum Part {
    /// No node: a part that is absent, or a hole in an array.
    Hole,
    /// The tree of the node that the step leads to, read in this place.
    Tree(Step, Place),
    /// An inner expression, over the tree of the node that the step leads to, read in this place.
    Inner(Step, Place),
    /// Nothing: the node that the step leads to is read in this place, and is no part of the tree.
    Checked(Step, Place),
}

/// What a list field holds.
#[derive(Clone, Copy)]
pub enum Items {
    /// Nodes of one class.
    Each(Class),
    /// The elements of an array.
    Elements,
    /// The parameters of a function.
    Parameters,
    /// The arguments of `super()`.
    InnerArguments,
    /// The specifiers of an export: of names of this module (true), or of another one.
    Exported(bool),
    /// The texts of a template.
    Quasis(Tagging),
    /// The expressions of a template.
    Pieces(Tagging),
    /// The properties of a pattern that a declaration binds.
    PatternProperties,
    /// The elements of a pattern that a declaration binds.
    PatternElements,
    /// The properties of a pattern that is assigned to.
    TargetProperties,
    /// The elements of a pattern that is assigned to.
    TargetElements,
    /// The statements of a body, behind that many directives.
    Body(Depth, usize),
}

/// How a child of a node is read. The text is the name of the field that holds it.
#[derive(Clone, Copy)]
pub enum Below {
    /// The node in a field.
    Node(&'static str, Class),
    /// The node in a field, in a place that has no class.
    Placed(&'static str, Place),
    /// The node in a field, below an inner expression.
    Inner(&'static str, Class),
    /// The node in a field, which is no part of the tree.
    Checked(&'static str, Class),
    /// The node in a field, if one is given.
    Optional(&'static str, Class),
    /// The node in a field, below an inner expression, if one is given.
    OptionalInner(&'static str, Class),
    /// The nodes of a list.
    Many(&'static str, Items),
    /// The statements of the list `body`, behind the directives.
    Body(Depth),
    /// No node, in no field.
    Absent,
}

/// What a node is beside its children: its shape and its names, whose texts are still borrowed from
/// the JSON value.
#[derive(Drop)]
pub enum Head<'v> {
    /// A shape without a text.
    Plain(Shape),
    /// A program: whether it is a module, and its statements, with the directives.
    Program(bool, &'v [Value]),
    /// A function: whether it is a declaration, whether it is a generator, and its JSON value, with
    /// the directives.
    Function(bool, bool, &'v Value),
    /// An arrow function: its JSON value, with the directives.
    Arrow(&'v Value),
    /// A name that is read or written.
    Reference(&'v str),
    /// A name that is declared.
    Binding(&'v str),
    /// A name that names no variable, as a key's.
    Word(&'v str),
    /// A private name, without its `#`.
    Private(&'v str),
    /// A literal.
    Literal(LiteralValue<'v>),
    /// The literal of a number below 0, by how far it is from 0.
    Negative(u64),
    /// A piece of a template: whether it is the last, its raw text and its cooked one.
    Quasi(bool, &'v str, Option<&'v str>),
}

/// How a node is read: what it is, over children that are read of the nodes below.
#[derive(Drop)]
pub struct Plan<'v> {
    /// What the node is beside its children.
    pub head: Head<'v>,
    /// How each child is read, in the order of the tree.
    pub children: &'static [Below],
}

impl<'v> Plan<'v> {
    /// The plan of a node whose shape holds no text. It is never None.
    pub fn of(shape: Shape, children: &'static [Below]) -> Option<Plan<'v>>
        ensures { result ≡ Some (record { head = head.Plain shape; children = children.entry }) }
    {
        Some(Plan {
            head: Head::Plain(shape),
            children,
        })
    }
}
