//! What the tables say of a shape.

ghost use Rattle.std.specs.Prelude.{◌≡◌};
ghost use Rattle.mini_laws.specs.Scopes.{hoisted_by as hoisted_use, use_of as use_at, is_alone as is_alone_use, opening_of as opening_in, variable_opening as variable_opening_in};
ghost use Rattle.mini_laws.specs.DeclaredNames.{place_of as place_in, bound_place as bound_in, lexical_place as lexical_in, hoisted_place as hoisted_in, is_statement_list as is_list, is_inner as is_inner_shape};

use mini_laws::{Declared, Opening, Place, Use};
use mini_model::{AssignmentOperator, Shape, VariableDeclarationKind};

/// Where a node of this shape has the names that it declares.
pub fn place_of(declared: Declared, shape: &Shape) -> Place
    ensures { result ≡ place_in declared shape.now }
{
    match declared {
        Declared::Bound => bound_place(shape),
        Declared::Lexical => lexical_place(shape),
        Declared::Hoisted => hoisted_place(shape),
    }
}

fn bound_place(shape: &Shape) -> Place
    ensures { result ≡ bound_in shape.now }
{
    match shape {
        Shape::BindingIdentifier => Place::Here,
        Shape::VariableDeclarator => Place::FirstBound,
        Shape::Listed
        | Shape::ObjectPattern
        | Shape::ArrayPattern
        | Shape::BindingProperty(..)
        | Shape::RestElement
        | Shape::AssignmentPattern
        | Shape::ImportSpecifier
        | Shape::ImportDefaultSpecifier
        | Shape::ImportNamespaceSpecifier => Place::Below,
        _ => Place::Nowhere,
    }
}

fn lexical_place(shape: &Shape) -> Place
    ensures { result ≡ lexical_in shape.now }
{
    match shape {
        Shape::VariableDeclaration(VariableDeclarationKind::Var) => Place::Nowhere,
        Shape::VariableDeclaration(_) | Shape::ImportDeclaration => Place::Bound,
        Shape::Function(true, ..) | Shape::Class(true) => Place::FirstBound,
        Shape::ExportNamedDeclaration
        | Shape::ExportDefaultDeclaration
        | Shape::SwitchCase
        | Shape::Listed => Place::Below,
        _ => Place::Nowhere,
    }
}

fn hoisted_place(shape: &Shape) -> Place
    ensures { result ≡ hoisted_in shape.now }
{
    match shape {
        Shape::VariableDeclaration(VariableDeclarationKind::Var) => Place::Bound,
        Shape::Listed
        | Shape::BlockStatement
        | Shape::IfStatement
        | Shape::WhileStatement
        | Shape::DoWhileStatement
        | Shape::ForStatement
        | Shape::ForInStatement
        | Shape::ForOfStatement
        | Shape::LabeledStatement
        | Shape::SwitchStatement
        | Shape::SwitchCase
        | Shape::TryStatement
        | Shape::CatchClause
        | Shape::FunctionBody
        | Shape::ExportNamedDeclaration => Place::Below,
        _ => Place::Nowhere,
    }
}

/// How a `var` is used: the head of a `for..in` or `for..of` is what is assigned to.
fn hoisted_by(usage: Use) -> Use
    ensures { result ≡ hoisted_use usage }
{
    match usage {
        Use::Write => Use::Headed,
        _ => Use::Hoisted,
    }
}

/// How a node of this shape, which is used like this itself, uses the names of its child at an
/// index.
pub fn use_of(shape: &Shape, usage: Use, at: usize) -> Use
    ensures { result ≡ use_at shape.now usage at }
{
    match shape {
        Shape::Listed
        | Shape::ObjectPattern
        | Shape::ArrayPattern
        | Shape::BindingProperty(..)
        | Shape::RestElement
        | Shape::ImportSpecifier
        | Shape::ImportDefaultSpecifier
        | Shape::ImportNamespaceSpecifier
        | Shape::AssignmentPattern
        | Shape::ObjectAssignmentTarget
        | Shape::ArrayAssignmentTarget
        | Shape::AssignmentTargetPropertyIdentifier
        | Shape::AssignmentTargetPropertyProperty(_) => usage,
        Shape::VariableDeclarator if at == 0 => usage,
        Shape::VariableDeclaration(VariableDeclarationKind::Var) => hoisted_by(usage),
        Shape::AssignmentExpression(AssignmentOperator::Assign) if at == 0 => Use::Write,
        Shape::AssignmentExpression(_) if at == 0 => Use::ReadWrite,
        Shape::UpdateExpression(..) => Use::ReadWrite,
        Shape::ForInStatement | Shape::ForOfStatement if at == 0 => Use::Write,
        Shape::IfStatement | Shape::WhileStatement if at > 0 => Use::Alone,
        Shape::LabeledStatement => Use::Alone,
        Shape::DoWhileStatement if at == 0 => Use::Alone,
        Shape::ForStatement if at > 2 => Use::Alone,
        Shape::ForInStatement | Shape::ForOfStatement if at > 1 => Use::Alone,
        _ => Use::Read,
    }
}

/// Whether a node of this shape holds the statements of a body.
pub fn is_statement_list(shape: &Shape) -> bool
    ensures { result ≡ is_list shape.now }
{
    matches!(shape, Shape::Listed | Shape::FunctionBody)
}

/// Whether a node of this shape is an inner expression of a carried node.
pub fn is_inner(shape: &Shape) -> bool
    ensures { result ≡ is_inner_shape shape.now }
{
    matches!(shape, Shape::InnerExpression)
}

/// Which scopes a node of this shape opens.
pub fn opening_of(usage: Use, shape: &Shape) -> Opening
    ensures { result ≡ opening_in usage shape.now }
{
    match shape {
        Shape::Program(..) | Shape::StaticBlock => Opening::Body,
        Shape::ArrowFunctionExpression(_) => Opening::Arrow,
        Shape::BlockStatement
        | Shape::ForStatement
        | Shape::ForInStatement
        | Shape::ForOfStatement => Opening::First,
        Shape::SwitchStatement => Opening::Second,
        Shape::CatchClause => Opening::Bound,
        Shape::Function(declaration, ..) => Opening::Function(!*declaration || is_alone(usage)),
        Shape::Class(declaration) => Opening::Class(!*declaration || is_alone(usage), *declaration),
        Shape::VariableDeclaration(kind) => variable_opening(usage, *kind),
        _ => Opening::Nothing,
    }
}

fn is_alone(usage: Use) -> bool
    ensures { result ≡ is_alone_use usage }
{
    matches!(usage, Use::Alone)
}

fn variable_opening(usage: Use, kind: VariableDeclarationKind) -> Opening
    ensures { result ≡ variable_opening_in usage kind }
{
    match kind {
        VariableDeclarationKind::Var => Opening::Nothing,
        _ if is_alone(usage) => Opening::Bound,
        _ => Opening::Nothing,
    }
}
