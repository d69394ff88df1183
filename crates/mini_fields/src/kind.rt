// The types of nodes.

ghost use Rattle.std.specs.Prelude.{◌≡◌};
ghost use Rattle.serde_json.specs.View.{view};
ghost use Rattle.mini_accept.specs.Fields.{kind_of};

use crate::words::word_at;
use mini_accept::Kind;
use serde_json::Value;

// Each type by its name, those that code has most of first.
const TYPES: [(&str, Kind); 69] = [
    ("Identifier", Kind::Identifier),
    ("MemberExpression", Kind::MemberExpression),
    ("Literal", Kind::Literal),
    ("CallExpression", Kind::CallExpression),
    ("ExpressionStatement", Kind::ExpressionStatement),
    ("BlockStatement", Kind::BlockStatement),
    ("VariableDeclarator", Kind::VariableDeclarator),
    ("VariableDeclaration", Kind::VariableDeclaration),
    ("Property", Kind::Property),
    ("ReturnStatement", Kind::ReturnStatement),
    ("IfStatement", Kind::IfStatement),
    ("AssignmentExpression", Kind::AssignmentExpression),
    ("BinaryExpression", Kind::BinaryExpression),
    ("FunctionExpression", Kind::FunctionExpression),
    ("LogicalExpression", Kind::LogicalExpression),
    ("UnaryExpression", Kind::UnaryExpression),
    ("ObjectExpression", Kind::ObjectExpression),
    ("ThisExpression", Kind::ThisExpression),
    ("FunctionDeclaration", Kind::FunctionDeclaration),
    ("ArrowFunctionExpression", Kind::ArrowFunctionExpression),
    ("ConditionalExpression", Kind::ConditionalExpression),
    ("ArrayExpression", Kind::ArrayExpression),
    ("NewExpression", Kind::NewExpression),
    ("UpdateExpression", Kind::UpdateExpression),
    ("TemplateElement", Kind::TemplateElement),
    ("ForStatement", Kind::ForStatement),
    ("TemplateLiteral", Kind::TemplateLiteral),
    ("ThrowStatement", Kind::ThrowStatement),
    ("SwitchCase", Kind::SwitchCase),
    ("BreakStatement", Kind::BreakStatement),
    ("ChainExpression", Kind::ChainExpression),
    ("SpreadElement", Kind::SpreadElement),
    ("ObjectPattern", Kind::ObjectPattern),
    ("MethodDefinition", Kind::MethodDefinition),
    ("Program", Kind::Program),
    ("EmptyStatement", Kind::EmptyStatement),
    ("DebuggerStatement", Kind::DebuggerStatement),
    ("LabeledStatement", Kind::LabeledStatement),
    ("ContinueStatement", Kind::ContinueStatement),
    ("SwitchStatement", Kind::SwitchStatement),
    ("TryStatement", Kind::TryStatement),
    ("CatchClause", Kind::CatchClause),
    ("WhileStatement", Kind::WhileStatement),
    ("DoWhileStatement", Kind::DoWhileStatement),
    ("ForInStatement", Kind::ForInStatement),
    ("ForOfStatement", Kind::ForOfStatement),
    ("ClassDeclaration", Kind::ClassDeclaration),
    ("ClassExpression", Kind::ClassExpression),
    ("ClassBody", Kind::ClassBody),
    ("PropertyDefinition", Kind::PropertyDefinition),
    ("StaticBlock", Kind::StaticBlock),
    ("ImportDeclaration", Kind::ImportDeclaration),
    ("ImportSpecifier", Kind::ImportSpecifier),
    ("ImportDefaultSpecifier", Kind::ImportDefaultSpecifier),
    ("ImportNamespaceSpecifier", Kind::ImportNamespaceSpecifier),
    ("ExportNamedDeclaration", Kind::ExportNamedDeclaration),
    ("ExportSpecifier", Kind::ExportSpecifier),
    ("ExportDefaultDeclaration", Kind::ExportDefaultDeclaration),
    ("ExportAllDeclaration", Kind::ExportAllDeclaration),
    ("PrivateIdentifier", Kind::PrivateIdentifier),
    ("Super", Kind::Super),
    ("SequenceExpression", Kind::SequenceExpression),
    ("YieldExpression", Kind::YieldExpression),
    ("TaggedTemplateExpression", Kind::TaggedTemplateExpression),
    ("MetaProperty", Kind::MetaProperty),
    ("ImportExpression", Kind::ImportExpression),
    ("ArrayPattern", Kind::ArrayPattern),
    ("RestElement", Kind::RestElement),
    ("AssignmentPattern", Kind::AssignmentPattern),
];

/// The type that a value names; None where it names none of ESTree's.
pub fn kind_of(value: &Value) -> Option<Kind>
    ensures { result ≡ kind_of (view value.now) }
{
    word_at(&TYPES, "type", value)
}
