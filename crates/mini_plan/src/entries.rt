// The table: how a node of each type is read (ESTree, ES5 to ES2022).

ghost use Rattle.std.specs.Prelude.{◌≡◌, map, option_map};
ghost use Rattle.serde_json.specs.Data.{Data};
ghost use Rattle.serde_json.specs.View.{view};
ghost use Rattle.mini_accept.specs.Entries.{entry};
ghost use Rattle.mini_fields.specs.Views.{place_of};
ghost use Rattle.mini_plan.specs.Plains.{plain_shape, plain_children, has_its_list, other_entry};
ghost use Rattle.mini_plan.specs.Views.{child_of, plan_of};

use crate::plan::{Below, Items, Plan};
use crate::{calls, expressions, functions, modules, patterns, statements, templates};
use mini_fields::{Class, Depth, Kind, Place, has_list};
use mini_model::Shape;
use serde_json::Value;

const EXPRESSION: Class = Class::Expression;

const STATEMENT: Class = Class::Statement(Depth::Nested);

const LABELED_STATEMENT: [Below; 2] = [
    Below::Node("label", Class::Label),
    Below::Node("body", STATEMENT),
];

const BREAK_STATEMENT: [Below; 1] = [Below::Optional("label", Class::Label)];

const CONTINUE_STATEMENT: [Below; 1] = [Below::Optional("label", Class::Label)];

const RETURN_STATEMENT: [Below; 1] = [Below::Optional("argument", EXPRESSION)];

const THROW_STATEMENT: [Below; 1] = [Below::Node("argument", EXPRESSION)];

const IF_STATEMENT: [Below; 3] = [
    Below::Node("test", EXPRESSION),
    Below::Node("consequent", STATEMENT),
    Below::Optional("alternate", STATEMENT),
];

const SWITCH_STATEMENT: [Below; 2] = [
    Below::Node("discriminant", EXPRESSION),
    Below::Many("cases", Items::Each(Class::Case)),
];

const SWITCH_CASE: [Below; 2] = [
    Below::Optional("test", EXPRESSION),
    Below::Many("consequent", Items::Each(STATEMENT)),
];

const CATCH_CLAUSE: [Below; 2] = [
    Below::Optional("param", Class::Pattern),
    Below::Node("body", Class::Block),
];

const WHILE_STATEMENT: [Below; 2] = [
    Below::Node("test", EXPRESSION),
    Below::Node("body", STATEMENT),
];

const DO_WHILE_STATEMENT: [Below; 2] = [
    Below::Node("body", STATEMENT),
    Below::Node("test", EXPRESSION),
];

const FOR_STATEMENT: [Below; 4] = [
    Below::Optional("init", Class::Init),
    Below::Optional("test", EXPRESSION),
    Below::Optional("update", EXPRESSION),
    Below::Node("body", STATEMENT),
];

const FOR_IN_STATEMENT: [Below; 3] = [
    Below::Node("left", Class::LoopLeft(true)),
    Below::Node("right", EXPRESSION),
    Below::Node("body", STATEMENT),
];

const VARIABLE_DECLARATOR: [Below; 2] = [
    Below::Node("id", Class::Pattern),
    Below::Optional("init", EXPRESSION),
];

const CLASS_BODY: [Below; 1] = [Below::Many("body", Items::Each(Class::ClassMember))];

const STATIC_BLOCK: [Below; 1] = [Below::Many(
    "body",
    Items::Each(Class::Statement(Depth::InBody)),
)];

const IMPORT_SPECIFIER: [Below; 2] = [
    Below::Node("imported", Class::ModuleName),
    Below::Node("local", Class::Binding),
];

const IMPORT_DEFAULT_SPECIFIER: [Below; 1] = [Below::Node("local", Class::Binding)];

const IMPORT_NAMESPACE_SPECIFIER: [Below; 1] = [Below::Node("local", Class::Binding)];

const EXPORT_DEFAULT_DECLARATION: [Below; 1] = [Below::Node("declaration", Class::DefaultExport)];

const ARRAY_EXPRESSION: [Below; 1] = [Below::Many("elements", Items::Elements)];

const OBJECT_EXPRESSION: [Below; 1] = [Below::Many(
    "properties",
    Items::Each(Class::ObjectProperty),
)];

const CONDITIONAL_EXPRESSION: [Below; 3] = [
    Below::Node("test", EXPRESSION),
    Below::Node("consequent", EXPRESSION),
    Below::Node("alternate", EXPRESSION),
];

const NEW_EXPRESSION: [Below; 2] = [
    Below::Node("callee", EXPRESSION),
    Below::Many("arguments", Items::Each(Class::Argument)),
];

const TAGGED_TEMPLATE_EXPRESSION: [Below; 2] = [
    Below::Inner("tag", EXPRESSION),
    Below::Node("quasi", Class::TaggedTemplate),
];

const IMPORT_EXPRESSION: [Below; 1] = [Below::Inner("source", EXPRESSION)];

// The shape of a node of this type, where all nodes of the type have one and it holds no text; None
// of another type.
fn plain_shape(kind: Kind) -> Option<Shape>
    ensures { result ≡ plain_shape kind }
{
    match kind {
        Kind::EmptyStatement => Some(Shape::EmptyStatement),
        Kind::DebuggerStatement => Some(Shape::DebuggerStatement),
        Kind::LabeledStatement => Some(Shape::LabeledStatement),
        Kind::BreakStatement => Some(Shape::BreakStatement),
        Kind::ContinueStatement => Some(Shape::ContinueStatement),
        Kind::ReturnStatement => Some(Shape::ReturnStatement),
        Kind::ThrowStatement => Some(Shape::ThrowStatement),
        Kind::IfStatement => Some(Shape::IfStatement),
        Kind::SwitchStatement => Some(Shape::SwitchStatement),
        Kind::SwitchCase => Some(Shape::SwitchCase),
        Kind::CatchClause => Some(Shape::CatchClause),
        Kind::WhileStatement => Some(Shape::WhileStatement),
        Kind::DoWhileStatement => Some(Shape::DoWhileStatement),
        Kind::ForStatement => Some(Shape::ForStatement),
        Kind::ForInStatement => Some(Shape::ForInStatement),
        Kind::VariableDeclarator => Some(Shape::VariableDeclarator),
        Kind::ClassBody => Some(Shape::ClassBody),
        Kind::StaticBlock => Some(Shape::StaticBlock),
        Kind::ImportSpecifier => Some(Shape::ImportSpecifier),
        Kind::ImportDefaultSpecifier => Some(Shape::ImportDefaultSpecifier),
        Kind::ImportNamespaceSpecifier => Some(Shape::ImportNamespaceSpecifier),
        Kind::ExportDefaultDeclaration => Some(Shape::ExportDefaultDeclaration),
        Kind::ThisExpression => Some(Shape::ThisExpression),
        Kind::Super => Some(Shape::Super),
        Kind::ArrayExpression => Some(Shape::ArrayExpression),
        Kind::ObjectExpression => Some(Shape::ObjectExpression),
        Kind::ConditionalExpression => Some(Shape::ConditionalExpression),
        Kind::NewExpression => Some(Shape::NewExpression),
        Kind::TaggedTemplateExpression => Some(Shape::TaggedTemplateExpression),
        Kind::ImportExpression => Some(Shape::ImportExpression),
        _ => None,
    }
}

// The children of a node of this type, where all nodes of the type have the same.
fn plain_children(kind: Kind) -> &'static [Below]
    ensures { (d : Data) → map (child_of d) result.now ≡ plain_children kind d }
{
    match kind {
        Kind::LabeledStatement => &LABELED_STATEMENT,
        Kind::BreakStatement => &BREAK_STATEMENT,
        Kind::ContinueStatement => &CONTINUE_STATEMENT,
        Kind::ReturnStatement => &RETURN_STATEMENT,
        Kind::ThrowStatement => &THROW_STATEMENT,
        Kind::IfStatement => &IF_STATEMENT,
        Kind::SwitchStatement => &SWITCH_STATEMENT,
        Kind::SwitchCase => &SWITCH_CASE,
        Kind::CatchClause => &CATCH_CLAUSE,
        Kind::WhileStatement => &WHILE_STATEMENT,
        Kind::DoWhileStatement => &DO_WHILE_STATEMENT,
        Kind::ForStatement => &FOR_STATEMENT,
        Kind::ForInStatement => &FOR_IN_STATEMENT,
        Kind::VariableDeclarator => &VARIABLE_DECLARATOR,
        Kind::ClassBody => &CLASS_BODY,
        Kind::StaticBlock => &STATIC_BLOCK,
        Kind::ImportSpecifier => &IMPORT_SPECIFIER,
        Kind::ImportDefaultSpecifier => &IMPORT_DEFAULT_SPECIFIER,
        Kind::ImportNamespaceSpecifier => &IMPORT_NAMESPACE_SPECIFIER,
        Kind::ExportDefaultDeclaration => &EXPORT_DEFAULT_DECLARATION,
        Kind::ArrayExpression => &ARRAY_EXPRESSION,
        Kind::ObjectExpression => &OBJECT_EXPRESSION,
        Kind::ConditionalExpression => &CONDITIONAL_EXPRESSION,
        Kind::NewExpression => &NEW_EXPRESSION,
        Kind::TaggedTemplateExpression => &TAGGED_TEMPLATE_EXPRESSION,
        Kind::ImportExpression => &IMPORT_EXPRESSION,
        _ => &[],
    }
}

// Whether the list that a node of this type has to have is there.
fn has_its_list(kind: Kind, value: &Value) -> bool
    ensures { result ≡ has_its_list kind (view value.now) }
{
    match kind {
        Kind::SwitchStatement => has_list("cases", value),
        Kind::SwitchCase => has_list("consequent", value),
        Kind::ClassBody => has_list("body", value),
        Kind::StaticBlock => has_list("body", value),
        Kind::ArrayExpression => has_list("elements", value),
        Kind::ObjectExpression => has_list("properties", value),
        Kind::NewExpression => has_list("arguments", value),
        _ => true,
    }
}

// How a node of another type is read.
fn other_entry(kind: Kind, place: Place, value: &Value) -> Option<Plan<'_>>
    ensures { option_map (plan_of (view value.now)) result ≡ other_entry kind (place_of place) (view value.now) }
{
    match kind {
        Kind::Program => statements::program(value),
        Kind::ExpressionStatement => statements::expression_statement(place, value),
        Kind::BlockStatement => statements::block_in(place, value),
        Kind::TryStatement => statements::try_statement(value),
        Kind::ForOfStatement => statements::for_of(value),
        Kind::VariableDeclaration => statements::variable(value),
        Kind::FunctionDeclaration => functions::function(true, place, value),
        Kind::FunctionExpression => functions::function(false, place, value),
        Kind::ArrowFunctionExpression => functions::arrow(value),
        Kind::ClassDeclaration => functions::class(true, place, value),
        Kind::ClassExpression => functions::class(false, place, value),
        Kind::MethodDefinition => functions::method_definition(value),
        Kind::PropertyDefinition => functions::property_definition(value),
        Kind::ImportDeclaration => modules::import(value),
        Kind::ExportNamedDeclaration => modules::export_named(value),
        Kind::ExportSpecifier => modules::export_specifier(place, value),
        Kind::ExportAllDeclaration => modules::export_all(value),
        Kind::Identifier => expressions::identifier(place, value),
        Kind::PrivateIdentifier => expressions::private_identifier(value),
        Kind::Literal => expressions::literal_node(place, value),
        Kind::Property => patterns::property(place, value),
        Kind::SpreadElement => expressions::spread(place, value),
        Kind::UnaryExpression => expressions::unary(value),
        Kind::UpdateExpression => expressions::update(value),
        Kind::BinaryExpression => expressions::binary(value),
        Kind::LogicalExpression => expressions::logical(value),
        Kind::AssignmentExpression => expressions::assignment(value),
        Kind::SequenceExpression => expressions::sequence(value),
        Kind::CallExpression => calls::call(place, value),
        Kind::MemberExpression => calls::member_expression(place, value),
        Kind::ChainExpression => calls::chain(value),
        Kind::YieldExpression => expressions::yield_expression(value),
        Kind::TemplateLiteral => templates::template(place, value),
        Kind::TemplateElement => templates::quasi(place, value),
        Kind::MetaProperty => expressions::meta_property(value),
        Kind::ObjectPattern => patterns::object_pattern(place, value),
        Kind::ArrayPattern => patterns::array_pattern(place, value),
        Kind::RestElement => patterns::rest(place, value),
        Kind::AssignmentPattern => patterns::default(place, value),
        _ => None,
    }
}

/// How a node of this type is read in this place; None where it isn't as ESTree has it.
pub fn entry(kind: Kind, place: Place, value: &Value) -> Option<Plan<'_>>
    ensures { option_map (plan_of (view value.now)) result ≡ entry kind (place_of place) (view value.now) }
{
    if !has_its_list(kind, value) {
        return None;
    }
    match plain_shape(kind) {
        None => other_entry(kind, place, value),
        Some(shape) => Plan::of(shape, plain_children(kind)),
    }
}
