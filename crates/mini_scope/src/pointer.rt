//! The pointer to the node at a path.

ghost use Rattle.std.specs.Prelude.{◌≡◌, ◌+◌, ◌∷◌, decimal};
ghost use Rattle.mini_model.specs.Tree.{children, shape_of};
ghost use Rattle.mini_model.specs.Faults.{fault_of};
ghost use Rattle.mini_scope.specs.Pointers.{key_of as key_in, step_text, shift_below as shift_in, pointer_in, IsBelow};

use mini_model::{MinifyError, Shape};
use mini_node::Node;
use std::alloc::Global;

// The field of the first child of a node of this shape.
fn first_key(shape: &Shape) -> &'static str
    ensures { result.now ≡ key_in shape.now 0 }
{
    match shape {
        Shape::Program(..)
        | Shape::BlockStatement
        | Shape::FunctionBody
        | Shape::ClassBody
        | Shape::StaticBlock
        | Shape::DoWhileStatement => "body",
        Shape::ExpressionStatement | Shape::ChainExpression => "expression",
        Shape::LabeledStatement | Shape::BreakStatement | Shape::ContinueStatement => "label",
        Shape::ReturnStatement
        | Shape::ThrowStatement
        | Shape::SpreadElement
        | Shape::UnaryExpression(_)
        | Shape::UpdateExpression(..)
        | Shape::YieldExpression(_)
        | Shape::RestElement => "argument",
        Shape::IfStatement
        | Shape::ConditionalExpression
        | Shape::SwitchCase
        | Shape::WhileStatement => "test",
        Shape::SwitchStatement => "discriminant",
        Shape::TryStatement => "block",
        Shape::CatchClause => "param",
        Shape::ForStatement => "init",
        Shape::ForInStatement
        | Shape::ForOfStatement
        | Shape::BinaryExpression(_)
        | Shape::PrivateInExpression
        | Shape::LogicalExpression(_)
        | Shape::AssignmentExpression(_)
        | Shape::AssignmentPattern => "left",
        Shape::VariableDeclaration(_) => "declarations",
        Shape::VariableDeclarator | Shape::Function(..) | Shape::Class(_) => "id",
        Shape::ArrowFunctionExpression(_) => "params",
        Shape::MethodDefinition(..)
        | Shape::PropertyDefinition(..)
        | Shape::ObjectProperty(..)
        | Shape::BindingProperty(..)
        | Shape::AssignmentTargetPropertyIdentifier
        | Shape::AssignmentTargetPropertyProperty(_) => "key",
        Shape::ImportDeclaration => "specifiers",
        Shape::ImportSpecifier => "imported",
        Shape::ImportDefaultSpecifier | Shape::ImportNamespaceSpecifier => "local",
        Shape::ExportNamedDeclaration | Shape::ExportDefaultDeclaration => "declaration",
        Shape::ExportSpecifier | Shape::ExportAllDeclaration => "exported",
        Shape::ArrayExpression | Shape::ArrayPattern | Shape::ArrayAssignmentTarget => "elements",
        Shape::ObjectExpression | Shape::ObjectPattern | Shape::ObjectAssignmentTarget =>
            "properties",
        Shape::SequenceExpression => "expressions",
        Shape::CallExpression(_) | Shape::SuperCallExpression | Shape::NewExpression => "callee",
        Shape::StaticMemberExpression(_)
        | Shape::ComputedMemberExpression(_)
        | Shape::PrivateFieldExpression(_)
        | Shape::SuperStaticMemberExpression
        | Shape::SuperComputedMemberExpression => "object",
        Shape::TemplateLiteral => "quasis",
        Shape::TaggedTemplateExpression => "tag",
        Shape::MetaProperty(_) => "meta",
        Shape::ImportExpression => "source",
        Shape::Absent
        | Shape::Listed
        | Shape::InnerExpression
        | Shape::EmptyStatement
        | Shape::DebuggerStatement
        | Shape::Identifier
        | Shape::BindingIdentifier
        | Shape::IdentifierName(_)
        | Shape::PrivateIdentifier(_)
        | Shape::NumericLiteral(_)
        | Shape::StringLiteral(_)
        | Shape::BooleanLiteral(_)
        | Shape::NullLiteral
        | Shape::RegExpLiteral(..)
        | Shape::BigIntLiteral(_)
        | Shape::ThisExpression
        | Shape::Super
        | Shape::TemplateElement(..) => "",
    }
}

// The field of the second child of a node of this shape.
fn second_key(shape: &Shape) -> &'static str
    ensures { result.now ≡ key_in shape.now 1 }
{
    match shape {
        Shape::LabeledStatement
        | Shape::CatchClause
        | Shape::WhileStatement
        | Shape::ArrowFunctionExpression(_) => "body",
        Shape::IfStatement | Shape::ConditionalExpression | Shape::SwitchCase => "consequent",
        Shape::SwitchStatement => "cases",
        Shape::TryStatement => "handler",
        Shape::DoWhileStatement | Shape::ForStatement => "test",
        Shape::ForInStatement
        | Shape::ForOfStatement
        | Shape::BinaryExpression(_)
        | Shape::PrivateInExpression
        | Shape::LogicalExpression(_)
        | Shape::AssignmentExpression(_)
        | Shape::AssignmentPattern => "right",
        Shape::VariableDeclarator => "init",
        Shape::Function(..) => "params",
        Shape::Class(_) => "superClass",
        Shape::MethodDefinition(..)
        | Shape::PropertyDefinition(..)
        | Shape::ObjectProperty(..)
        | Shape::BindingProperty(..)
        | Shape::AssignmentTargetPropertyIdentifier
        | Shape::AssignmentTargetPropertyProperty(_) => "value",
        Shape::ImportDeclaration | Shape::ExportAllDeclaration => "source",
        Shape::ImportSpecifier | Shape::ExportSpecifier => "local",
        Shape::ExportNamedDeclaration => "specifiers",
        Shape::CallExpression(_) | Shape::SuperCallExpression | Shape::NewExpression => "arguments",
        Shape::StaticMemberExpression(_)
        | Shape::ComputedMemberExpression(_)
        | Shape::PrivateFieldExpression(_)
        | Shape::SuperStaticMemberExpression
        | Shape::SuperComputedMemberExpression
        | Shape::MetaProperty(_) => "property",
        Shape::TemplateLiteral => "expressions",
        Shape::TaggedTemplateExpression => "quasi",
        _ => "",
    }
}

// The field of the third child of a node of this shape.
fn third_key(shape: &Shape) -> &'static str
    ensures { result.now ≡ key_in shape.now 2 }
{
    match shape {
        Shape::IfStatement | Shape::ConditionalExpression => "alternate",
        Shape::TryStatement => "finalizer",
        Shape::ForStatement => "update",
        Shape::ForInStatement | Shape::ForOfStatement | Shape::Function(..) | Shape::Class(_) =>
            "body",
        Shape::ExportNamedDeclaration => "source",
        _ => "",
    }
}

// The field of the fourth child of a node of this shape.
fn fourth_key(shape: &Shape) -> &'static str
    ensures { result.now ≡ key_in shape.now 3 }
{
    match shape {
        Shape::ForStatement => "body",
        _ => "",
    }
}

/// The field that holds the child at an index of a node of this shape.
fn key_of(shape: &Shape, at: usize) -> &'static str
    ensures { result.now ≡ key_in shape.now at }
{
    match at {
        0 => first_key(shape),
        1 => second_key(shape),
        2 => third_key(shape),
        _ => fourth_key(shape),
    }
}

/// How many items a list below the child at an index has before the first of the tree.
fn shift_below(shape: &Shape, shift: usize, at: usize) -> usize
    ensures { result ≡ shift_in shape.now shift at }
{
    match shape {
        Shape::Program(_, directives) => directives.len(),
        Shape::Function(_, _, directives) if at > 1 => directives.len(),
        Shape::ArrowFunctionExpression(directives) if at > 0 => directives.len(),
        Shape::FunctionBody => shift,
        _ => 0,
    }
}

/// The error as seen from a list whose item at an index it stands in.
fn under_item(alloc: Global, shift: usize, at: usize, error: MinifyError) -> MinifyError
    ensures { IsBelow (47 ∷ decimal (shift + at)) (fault_of error) (fault_of result) }
{
    let index = match shift.checked_add(at) {
        Some(index) => index,
        None => return MinifyError::OutOfMemory,
    };
    match index.to_string(alloc) {
        Ok(step) => error.under(alloc, step.as_str()),
        Err(_) => MinifyError::OutOfMemory,
    }
}

/// The error as seen from a node of this shape, in whose child at an index it stands.
fn under_child(
    alloc: Global,
    shape: &Shape,
    shift: usize,
    at: usize,
    error: MinifyError,
) -> MinifyError
    ensures { IsBelow (step_text shape.now shift at) (fault_of error) (fault_of result) }
{
    match shape {
        Shape::Listed => under_item(alloc, shift, at, error),
        Shape::InnerExpression => error,
        _ => error.under(alloc, key_of(shape, at)),
    }
}

/// The error as seen from a node, below which it stands at a path. No path of a tree leads past its
/// children.
#[cycle(pointers)]
pub fn under_path(
    alloc: Global,
    shift: usize,
    node: &Node,
    path: &[usize],
    error: MinifyError,
) -> MinifyError
    ensures { IsBelow (pointer_in shift node.now path.now) (fault_of error) (fault_of result) }
{
    match path {
        [] => error,
        [at, rest @ ..] => {
            let shape = node.shape();
            let nodes = node.children();
            if *at >= nodes.len() {
                return MinifyError::OutOfMemory;
            }
            let below = shift_below(shape, shift, *at);
            let inner = under_path(alloc, below, nodes.child(*at), rest, error);
            under_child(alloc, shape, shift, *at, inner)
        }
    }
}
