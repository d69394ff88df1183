//! Copies of nodes.

ghost use Rattle.std.specs.Prelude.{◌≡◌, Some, IfOk, OnOk};
ghost use Rattle.mini_model.specs.declared.shape.Shape.TheVariants as shape;
ghost use Rattle.mini_node.specs.Children.{names};

use mini_model::{BoxedText, Name, OutOfMemory, Shape, Text, TextList};
use mini_node::{Node, Nodes};
use mini_terms::copied;
use std::alloc::Global;

// The only error of each function here is that memory runs out.
fn copy_text(alloc: Global, text: &Text) -> Result<Text, OutOfMemory>
    ensures { IfOk result (λ copy. copy ≡ text.now) }
{
    copied(alloc, text.as_slice())
}

fn copy_boxed(alloc: Global, text: &BoxedText) -> Result<BoxedText, OutOfMemory>
    ensures { IfOk result (λ copy. copy ≡ text.now) }
{
    let copy = copy_text(alloc, text.text())?;
    BoxedText::new(alloc, copy)
}

fn copy_cooked(alloc: Global, text: &Option<BoxedText>) -> Result<Option<BoxedText>, OutOfMemory>
    ensures { IfOk result (λ copy. copy ≡ text.now) }
{
    match text {
        Some(text) => Ok(Some(copy_boxed(alloc, text)?)),
        None => Ok(None),
    }
}

fn copy_texts(alloc: Global, texts: &TextList) -> Result<TextList, OutOfMemory>
    ensures { IfOk result (λ copy. copy ≡ texts.now) }
{
    let mut copy = TextList::new(alloc);
    for text in texts.as_slice() {
        copy.push(copy_text(alloc, text)?)?;
    }
    Ok(copy)
}

fn copy_name(alloc: Global, name: &Name) -> Result<Name, OutOfMemory>
    ensures { IfOk result (λ copy. copy ≡ name.now) }
{
    Ok(Name {
        spelling: copy_text(alloc, &name.spelling)?,
        symbol: name.symbol,
    })
}

/// A copy of the name of a node, if it has one. The only error is that memory runs out.
pub fn copy_own_name(alloc: Global, name: &Option<Name>) -> Result<Option<Name>, OutOfMemory>
    ensures { IfOk result (λ copy. copy ≡ name.now) }
{
    match name {
        Some(name) => Ok(Some(copy_name(alloc, name)?)),
        None => Ok(None),
    }
}

fn copy_program(alloc: Global, is_module: bool, directives: &TextList) -> Result<Shape, OutOfMemory>
    ensures { IfOk result (λ copy. copy ≡ shape.Program is_module directives.now) }
{
    let copy = copy_texts(alloc, directives)?;
    Ok(Shape::Program(is_module, copy))
}

fn copy_function(
    alloc: Global,
    declaration: bool,
    generator: bool,
    directives: &TextList,
) -> Result<Shape, OutOfMemory>
    ensures { IfOk result (λ copy. copy ≡ shape.Function declaration generator directives.now) }
{
    let copy = copy_texts(alloc, directives)?;
    Ok(Shape::Function(declaration, generator, copy))
}

fn copy_arrow(alloc: Global, directives: &TextList) -> Result<Shape, OutOfMemory>
    ensures { IfOk result (λ copy. copy ≡ shape.ArrowFunctionExpression directives.now) }
{
    let copy = copy_texts(alloc, directives)?;
    Ok(Shape::ArrowFunctionExpression(copy))
}

fn copy_identifier_name(alloc: Global, text: &Text) -> Result<Shape, OutOfMemory>
    ensures { IfOk result (λ copy. copy ≡ shape.IdentifierName text.now) }
{
    let copy = copy_text(alloc, text)?;
    Ok(Shape::IdentifierName(copy))
}

fn copy_private_identifier(alloc: Global, text: &Text) -> Result<Shape, OutOfMemory>
    ensures { IfOk result (λ copy. copy ≡ shape.PrivateIdentifier text.now) }
{
    let copy = copy_text(alloc, text)?;
    Ok(Shape::PrivateIdentifier(copy))
}

fn copy_string(alloc: Global, text: &Text) -> Result<Shape, OutOfMemory>
    ensures { IfOk result (λ copy. copy ≡ shape.StringLiteral text.now) }
{
    let copy = copy_text(alloc, text)?;
    Ok(Shape::StringLiteral(copy))
}

fn copy_regular_expression(
    alloc: Global,
    pattern: &BoxedText,
    flags: &BoxedText,
) -> Result<Shape, OutOfMemory>
    ensures { IfOk result (λ copy. copy ≡ shape.RegExpLiteral pattern.now flags.now) }
{
    let pattern = copy_boxed(alloc, pattern)?;
    let flags = copy_boxed(alloc, flags)?;
    Ok(Shape::RegExpLiteral(pattern, flags))
}

fn copy_element(
    alloc: Global,
    tail: bool,
    raw: &BoxedText,
    cooked: &Option<BoxedText>,
) -> Result<Shape, OutOfMemory>
    ensures { IfOk result (λ copy. copy ≡ shape.TemplateElement tail raw.now cooked.now) }
{
    let raw = copy_boxed(alloc, raw)?;
    let cooked = copy_cooked(alloc, cooked)?;
    Ok(Shape::TemplateElement(tail, raw, cooked))
}

fn copy_shape(alloc: Global, shape: &Shape) -> Result<Shape, OutOfMemory>
    ensures { IfOk result (λ copy. copy ≡ shape.now) }
{
    match shape {
        Shape::Program(module, directives) => copy_program(alloc, *module, directives),
        Shape::Function(declaration, generator, directives) => {
            copy_function(alloc, *declaration, *generator, directives)
        }
        Shape::ArrowFunctionExpression(directives) => copy_arrow(alloc, directives),
        Shape::IdentifierName(text) => copy_identifier_name(alloc, text),
        Shape::PrivateIdentifier(text) => copy_private_identifier(alloc, text),
        Shape::StringLiteral(text) => copy_string(alloc, text),
        Shape::RegExpLiteral(pattern, flags) => copy_regular_expression(alloc, pattern, flags),
        Shape::TemplateElement(tail, raw, cooked) => copy_element(alloc, *tail, raw, cooked),
        Shape::Absent => Ok(Shape::Absent),
        Shape::Listed => Ok(Shape::Listed),
        Shape::InnerExpression => Ok(Shape::InnerExpression),
        Shape::ExpressionStatement => Ok(Shape::ExpressionStatement),
        Shape::EmptyStatement => Ok(Shape::EmptyStatement),
        Shape::DebuggerStatement => Ok(Shape::DebuggerStatement),
        Shape::BlockStatement => Ok(Shape::BlockStatement),
        Shape::LabeledStatement => Ok(Shape::LabeledStatement),
        Shape::BreakStatement => Ok(Shape::BreakStatement),
        Shape::ContinueStatement => Ok(Shape::ContinueStatement),
        Shape::ReturnStatement => Ok(Shape::ReturnStatement),
        Shape::ThrowStatement => Ok(Shape::ThrowStatement),
        Shape::IfStatement => Ok(Shape::IfStatement),
        Shape::SwitchStatement => Ok(Shape::SwitchStatement),
        Shape::SwitchCase => Ok(Shape::SwitchCase),
        Shape::TryStatement => Ok(Shape::TryStatement),
        Shape::CatchClause => Ok(Shape::CatchClause),
        Shape::WhileStatement => Ok(Shape::WhileStatement),
        Shape::DoWhileStatement => Ok(Shape::DoWhileStatement),
        Shape::ForStatement => Ok(Shape::ForStatement),
        Shape::ForInStatement => Ok(Shape::ForInStatement),
        Shape::ForOfStatement => Ok(Shape::ForOfStatement),
        Shape::VariableDeclaration(field) => Ok(Shape::VariableDeclaration(*field)),
        Shape::VariableDeclarator => Ok(Shape::VariableDeclarator),
        Shape::FunctionBody => Ok(Shape::FunctionBody),
        Shape::Class(field) => Ok(Shape::Class(*field)),
        Shape::ClassBody => Ok(Shape::ClassBody),
        Shape::MethodDefinition(first, second, third) => Ok(Shape::MethodDefinition(
            *first, *second, *third,
        )),
        Shape::PropertyDefinition(first, second) => Ok(Shape::PropertyDefinition(*first, *second)),
        Shape::StaticBlock => Ok(Shape::StaticBlock),
        Shape::ImportDeclaration => Ok(Shape::ImportDeclaration),
        Shape::ImportSpecifier => Ok(Shape::ImportSpecifier),
        Shape::ImportDefaultSpecifier => Ok(Shape::ImportDefaultSpecifier),
        Shape::ImportNamespaceSpecifier => Ok(Shape::ImportNamespaceSpecifier),
        Shape::ExportNamedDeclaration => Ok(Shape::ExportNamedDeclaration),
        Shape::ExportSpecifier => Ok(Shape::ExportSpecifier),
        Shape::ExportDefaultDeclaration => Ok(Shape::ExportDefaultDeclaration),
        Shape::ExportAllDeclaration => Ok(Shape::ExportAllDeclaration),
        Shape::Identifier => Ok(Shape::Identifier),
        Shape::BindingIdentifier => Ok(Shape::BindingIdentifier),
        Shape::NumericLiteral(field) => Ok(Shape::NumericLiteral(*field)),
        Shape::BooleanLiteral(field) => Ok(Shape::BooleanLiteral(*field)),
        Shape::NullLiteral => Ok(Shape::NullLiteral),
        Shape::BigIntLiteral(field) => Ok(Shape::BigIntLiteral(*field)),
        Shape::ThisExpression => Ok(Shape::ThisExpression),
        Shape::Super => Ok(Shape::Super),
        Shape::ArrayExpression => Ok(Shape::ArrayExpression),
        Shape::ObjectExpression => Ok(Shape::ObjectExpression),
        Shape::ObjectProperty(first, second, third, fourth) => Ok(Shape::ObjectProperty(
            *first, *second, *third, *fourth,
        )),
        Shape::SpreadElement => Ok(Shape::SpreadElement),
        Shape::UnaryExpression(field) => Ok(Shape::UnaryExpression(*field)),
        Shape::UpdateExpression(first, second) => Ok(Shape::UpdateExpression(*first, *second)),
        Shape::BinaryExpression(field) => Ok(Shape::BinaryExpression(*field)),
        Shape::PrivateInExpression => Ok(Shape::PrivateInExpression),
        Shape::LogicalExpression(field) => Ok(Shape::LogicalExpression(*field)),
        Shape::AssignmentExpression(field) => Ok(Shape::AssignmentExpression(*field)),
        Shape::ConditionalExpression => Ok(Shape::ConditionalExpression),
        Shape::SequenceExpression => Ok(Shape::SequenceExpression),
        Shape::CallExpression(field) => Ok(Shape::CallExpression(*field)),
        Shape::SuperCallExpression => Ok(Shape::SuperCallExpression),
        Shape::NewExpression => Ok(Shape::NewExpression),
        Shape::StaticMemberExpression(field) => Ok(Shape::StaticMemberExpression(*field)),
        Shape::ComputedMemberExpression(field) => Ok(Shape::ComputedMemberExpression(*field)),
        Shape::PrivateFieldExpression(field) => Ok(Shape::PrivateFieldExpression(*field)),
        Shape::SuperStaticMemberExpression => Ok(Shape::SuperStaticMemberExpression),
        Shape::SuperComputedMemberExpression => Ok(Shape::SuperComputedMemberExpression),
        Shape::ChainExpression => Ok(Shape::ChainExpression),
        Shape::YieldExpression(field) => Ok(Shape::YieldExpression(*field)),
        Shape::TemplateLiteral => Ok(Shape::TemplateLiteral),
        Shape::TaggedTemplateExpression => Ok(Shape::TaggedTemplateExpression),
        Shape::MetaProperty(field) => Ok(Shape::MetaProperty(*field)),
        Shape::ImportExpression => Ok(Shape::ImportExpression),
        Shape::ObjectPattern => Ok(Shape::ObjectPattern),
        Shape::ArrayPattern => Ok(Shape::ArrayPattern),
        Shape::BindingProperty(first, second) => Ok(Shape::BindingProperty(*first, *second)),
        Shape::RestElement => Ok(Shape::RestElement),
        Shape::AssignmentPattern => Ok(Shape::AssignmentPattern),
        Shape::ObjectAssignmentTarget => Ok(Shape::ObjectAssignmentTarget),
        Shape::ArrayAssignmentTarget => Ok(Shape::ArrayAssignmentTarget),
        Shape::AssignmentTargetPropertyIdentifier => Ok(Shape::AssignmentTargetPropertyIdentifier),
        Shape::AssignmentTargetPropertyProperty(field) => Ok(
            Shape::AssignmentTargetPropertyProperty(*field),
        ),
    }
}

/// A copy of a node. The only error is that memory runs out.
#[cycle(nodes)]
pub fn copy_node(alloc: Global, node: &Node) -> Result<Node, OutOfMemory>
    ensures { IfOk result (λ copy. copy ≡ node.now) }
{
    let shape = copy_shape(alloc, node.shape())?;
    let name = copy_own_name(alloc, node.name())?;
    let children = copy_nodes(alloc, node.children())?;
    Ok(Node::with(shape, name, node.number(), children))
}

/// A copy of a list of nodes. The only error is that memory runs out.
#[cycle(nodes)]
pub fn copy_nodes(alloc: Global, nodes: &Nodes) -> Result<Nodes, OutOfMemory>
    ensures { IfOk result (λ copy. copy ≡ nodes.now) }
{
    let mut copy = Nodes::with_capacity(alloc, nodes.len())?;
    for at in 0..nodes.len() {
        copy.push(copy_node(alloc, nodes.child(at))?)?;
    }
    Ok(copy)
}
