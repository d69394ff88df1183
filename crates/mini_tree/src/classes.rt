//! The classes of nodes by the names that ESTree and ECMA-262 have for them. One type holds every
//! node, and one type every list of nodes: which of the classes a node belongs to stands in its
//! shape.

use mini_node::{Node, Nodes};

/// A program (ESTree, Programs).
pub type Program = Node;

/// A statement or a declaration, of a module too (ESTree, Statements).
pub type Statement = Node;

/// An expression (ESTree, Expressions).
pub type Expression = Node;

/// A function (ESTree, Functions).
pub type Function = Node;

/// A class (ESTree, Classes).
pub type Class = Node;

/// A member of a class: a method, a field or a static block.
pub type ClassElement = Node;

/// A pattern that declares names (ECMA-262, BindingPattern).
pub type BindingPattern = Node;

/// A property of a pattern that declares names.
pub type BindingProperty = Node;

/// What an assignment writes to (ECMA-262, AssignmentTarget).
pub type AssignmentTarget = Node;

/// A property of a pattern of an assignment.
pub type AssignmentTargetProperty = Node;

/// A parameter of a function, with its default where it has one.
pub type FormalParameter = Node;

/// An argument of a call, which may be spread.
pub type Argument = Node;

/// A property of an object literal, or what is spread there.
pub type ObjectPropertyKind = Node;

/// The key of a property.
pub type PropertyKey = Node;

/// A declarator of a variable declaration.
pub type VariableDeclarator = Node;

/// A case of a `switch`.
pub type SwitchCase = Node;

/// The body of an arrow: its statements, or an expression.
pub type ArrowFunctionBody = Node;

/// What stands first in the head of a `for`.
pub type ForStatementInit = Node;

/// What stands on the left in the head of a `for`-`in` or a `for`-`of`.
pub type ForStatementLeft = Node;

/// A piece of a template's text.
pub type TemplateElement = Node;

/// Statements.
pub type Statements = Nodes;

/// Expressions.
pub type Exprs = Nodes;

/// The arguments of a call.
pub type Arguments = Nodes;

/// The elements of an array literal; an absent part is a hole.
pub type Elements = Nodes;

/// The properties of an object literal.
pub type Properties = Nodes;

/// The declarators of a variable declaration.
pub type Declarators = Nodes;

/// The cases of a `switch`.
pub type Cases = Nodes;

/// The members of a class.
pub type ClassElements = Nodes;

/// The parameters of a function.
pub type FormalParameters = Nodes;

/// The properties of a pattern that declares names.
pub type BindingProperties = Nodes;

/// The elements of an array pattern that declares names; an absent part is a hole.
pub type ArrayPatternElements = Nodes;

/// The properties of a pattern of an assignment.
pub type AssignmentTargetProperties = Nodes;

/// The elements of an array pattern of an assignment; an absent part is a hole.
pub type ArrayAssignmentTargetElements = Nodes;

/// What an import names.
pub type ImportSpecifiers = Nodes;

/// What an export names.
pub type ExportSpecifiers = Nodes;

/// The pieces of a template's text.
pub type Quasis = Nodes;
