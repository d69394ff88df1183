//! Whether two nodes are equal.

ghost use Rattle.std.specs.Prelude.{◌≡◌};
ghost use Rattle.std.specs.Bool.{Decides};
ghost use Rattle.mini_node.specs.Children.{names};
ghost use Rattle.mini_node.specs.Equal as equal;
ghost use Rattle.mini_node.specs.Equal.{SameIsEqual, EachIsItself};

use crate::list::Nodes;
use crate::node::Node;
use mini_model::{
    BoxedText, LogicalOperator, MetaPropertyKind, Name, Shape, Text, UnaryOperator, UpdateOperator,
    VariableDeclarationKind,
};

/// Trees that are the same are equal, and each is the same as itself.
pub fn same_trees_are_equal()
    ensures equal { SameIsEqual }
    ensures itself { EachIsItself }
{}

#[tactic(auto, using(crate::proofs::Equality::text_decided))]
fn is_same_text(first: &Text, second: &Text) -> bool
    ensures { Decides result (first.now ≡ second.now) }
{
    first.as_slice() == second.as_slice()
}

// Of the cooked texts of templates.
fn is_same_cooked(first: &Option<BoxedText>, second: &Option<BoxedText>) -> bool
    ensures { Decides result (first.now ≡ second.now) }
{
    match (first, second) {
        (None, None) => true,
        (Some(one), Some(other)) => is_same_text(one.text(), other.text()),
        _ => false,
    }
}

fn are_same_texts(first: &[Text], second: &[Text]) -> bool
    ensures { Decides result (first.now ≡ second.now) }
{
    if first.len() != second.len() {
        return false;
    }
    for at in 0..first.len() {
        if !is_same_text(&first[at], &second[at]) {
            return false;
        }
    }
    true
}

// The number of a shape with what its fields are, where these are flags and the kinds of which
// there are few; 0 of any other.
fn plain_number(shape: &Shape) -> u32
    ensures { result ≡ equal.plain_number shape.now }
{
    match shape {
        Shape::Absent => 1,
        Shape::Listed => 2,
        Shape::InnerExpression => 3,
        Shape::ExpressionStatement => 4,
        Shape::EmptyStatement => 5,
        Shape::DebuggerStatement => 6,
        Shape::BlockStatement => 7,
        Shape::LabeledStatement => 8,
        Shape::BreakStatement => 9,
        Shape::ContinueStatement => 10,
        Shape::ReturnStatement => 11,
        Shape::ThrowStatement => 12,
        Shape::IfStatement => 13,
        Shape::SwitchStatement => 14,
        Shape::SwitchCase => 15,
        Shape::TryStatement => 16,
        Shape::CatchClause => 17,
        Shape::WhileStatement => 18,
        Shape::DoWhileStatement => 19,
        Shape::ForStatement => 20,
        Shape::ForInStatement => 21,
        Shape::ForOfStatement => 22,
        Shape::VariableDeclarator => 23,
        Shape::FunctionBody => 24,
        Shape::ClassBody => 25,
        Shape::StaticBlock => 26,
        Shape::ImportDeclaration => 27,
        Shape::ImportSpecifier => 28,
        Shape::ImportDefaultSpecifier => 29,
        Shape::ImportNamespaceSpecifier => 30,
        Shape::ExportNamedDeclaration => 31,
        Shape::ExportSpecifier => 32,
        Shape::ExportDefaultDeclaration => 33,
        Shape::ExportAllDeclaration => 34,
        Shape::Identifier => 35,
        Shape::BindingIdentifier => 36,
        Shape::NullLiteral => 37,
        Shape::ThisExpression => 38,
        Shape::Super => 39,
        Shape::ArrayExpression => 40,
        Shape::ObjectExpression => 41,
        Shape::SpreadElement => 42,
        Shape::PrivateInExpression => 43,
        Shape::ConditionalExpression => 44,
        Shape::SequenceExpression => 45,
        Shape::SuperCallExpression => 46,
        Shape::NewExpression => 47,
        Shape::SuperStaticMemberExpression => 48,
        Shape::SuperComputedMemberExpression => 49,
        Shape::ChainExpression => 50,
        Shape::TemplateLiteral => 51,
        Shape::TaggedTemplateExpression => 52,
        Shape::ImportExpression => 53,
        Shape::ObjectPattern => 54,
        Shape::ArrayPattern => 55,
        Shape::RestElement => 56,
        Shape::AssignmentPattern => 57,
        Shape::ObjectAssignmentTarget => 58,
        Shape::ArrayAssignmentTarget => 59,
        Shape::AssignmentTargetPropertyIdentifier => 60,
        Shape::Class(false) => 61,
        Shape::Class(true) => 62,
        Shape::BooleanLiteral(false) => 63,
        Shape::BooleanLiteral(true) => 64,
        Shape::CallExpression(false) => 65,
        Shape::CallExpression(true) => 66,
        Shape::StaticMemberExpression(false) => 67,
        Shape::StaticMemberExpression(true) => 68,
        Shape::ComputedMemberExpression(false) => 69,
        Shape::ComputedMemberExpression(true) => 70,
        Shape::PrivateFieldExpression(false) => 71,
        Shape::PrivateFieldExpression(true) => 72,
        Shape::YieldExpression(false) => 73,
        Shape::YieldExpression(true) => 74,
        Shape::AssignmentTargetPropertyProperty(false) => 75,
        Shape::AssignmentTargetPropertyProperty(true) => 76,
        Shape::PropertyDefinition(false, false) => 77,
        Shape::PropertyDefinition(false, true) => 78,
        Shape::PropertyDefinition(true, false) => 79,
        Shape::PropertyDefinition(true, true) => 80,
        Shape::BindingProperty(false, false) => 81,
        Shape::BindingProperty(false, true) => 82,
        Shape::BindingProperty(true, false) => 83,
        Shape::BindingProperty(true, true) => 84,
        Shape::VariableDeclaration(VariableDeclarationKind::Var) => 85,
        Shape::VariableDeclaration(VariableDeclarationKind::Let) => 86,
        Shape::VariableDeclaration(VariableDeclarationKind::Const) => 87,
        Shape::LogicalExpression(LogicalOperator::Or) => 88,
        Shape::LogicalExpression(LogicalOperator::And) => 89,
        Shape::LogicalExpression(LogicalOperator::Coalesce) => 90,
        Shape::MetaProperty(MetaPropertyKind::NewTarget) => 91,
        Shape::MetaProperty(MetaPropertyKind::ImportMeta) => 92,
        Shape::UnaryExpression(UnaryOperator::UnaryPlus) => 93,
        Shape::UnaryExpression(UnaryOperator::UnaryNegation) => 94,
        Shape::UnaryExpression(UnaryOperator::LogicalNot) => 95,
        Shape::UnaryExpression(UnaryOperator::BitwiseNot) => 96,
        Shape::UnaryExpression(UnaryOperator::Typeof) => 97,
        Shape::UnaryExpression(UnaryOperator::Void) => 98,
        Shape::UnaryExpression(UnaryOperator::Delete) => 99,
        Shape::UpdateExpression(UpdateOperator::Increment, false) => 100,
        Shape::UpdateExpression(UpdateOperator::Increment, true) => 101,
        Shape::UpdateExpression(UpdateOperator::Decrement, false) => 102,
        Shape::UpdateExpression(UpdateOperator::Decrement, true) => 103,
        _ => 0,
    }
}

// Of shapes without a number.
fn has_equal_fields(first: &Shape, second: &Shape) -> bool
    ensures { equal.plain_number first.now ≡ 0 → Decides result (first.now ≡ second.now) }
{
    match first {
        Shape::Program(is_module, directives) => match second {
            Shape::Program(other_is_module, other_directives) => *is_module == *other_is_module
                && are_same_texts(directives.as_slice(), other_directives.as_slice()),
            _ => false,
        },
        Shape::Function(is_declaration, is_generator, directives) => match second {
            Shape::Function(other_is_declaration, other_is_generator, other_directives) =>
                *is_declaration == *other_is_declaration
                    && *is_generator == *other_is_generator
                    && are_same_texts(directives.as_slice(), other_directives.as_slice()),
            _ => false,
        },
        Shape::ArrowFunctionExpression(directives) => match second {
            Shape::ArrowFunctionExpression(other_directives) => are_same_texts(
                directives.as_slice(),
                other_directives.as_slice(),
            ),
            _ => false,
        },
        Shape::MethodDefinition(kind, is_computed, is_static) => match second {
            Shape::MethodDefinition(other_kind, other_is_computed, other_is_static) => *kind
                == *other_kind
                && *is_computed == *other_is_computed
                && *is_static == *other_is_static,
            _ => false,
        },
        Shape::IdentifierName(text) => match second {
            Shape::IdentifierName(other_text) => is_same_text(text, other_text),
            _ => false,
        },
        Shape::PrivateIdentifier(text) => match second {
            Shape::PrivateIdentifier(other_text) => is_same_text(text, other_text),
            _ => false,
        },
        Shape::NumericLiteral(value) => match second {
            Shape::NumericLiteral(other_value) => *value == *other_value,
            _ => false,
        },
        Shape::StringLiteral(text) => match second {
            Shape::StringLiteral(other_text) => is_same_text(text, other_text),
            _ => false,
        },
        Shape::RegExpLiteral(pattern, flags) => match second {
            Shape::RegExpLiteral(other_pattern, other_flags) => is_same_text(
                pattern.text(),
                other_pattern.text(),
            ) && is_same_text(flags.text(), other_flags.text()),
            _ => false,
        },
        Shape::BigIntLiteral(value) => match second {
            Shape::BigIntLiteral(other_value) => *value == *other_value,
            _ => false,
        },
        Shape::ObjectProperty(kind, is_method, is_shorthand, is_computed) => match second {
            Shape::ObjectProperty(
                other_kind,
                other_is_method,
                other_is_shorthand,
                other_is_computed,
            ) => *kind == *other_kind
                && *is_method == *other_is_method
                && *is_shorthand == *other_is_shorthand
                && *is_computed == *other_is_computed,
            _ => false,
        },
        Shape::BinaryExpression(operator) => match second {
            Shape::BinaryExpression(other_operator) => *operator == *other_operator,
            _ => false,
        },
        Shape::AssignmentExpression(operator) => match second {
            Shape::AssignmentExpression(other_operator) => *operator == *other_operator,
            _ => false,
        },
        Shape::TemplateElement(is_tail, raw, cooked) => match second {
            Shape::TemplateElement(other_is_tail, other_raw, other_cooked) => *is_tail
                == *other_is_tail
                && is_same_text(raw.text(), other_raw.text())
                && is_same_cooked(cooked, other_cooked),
            _ => false,
        },
        _ => false,
    }
}

#[tactic(auto, using(crate::proofs::Equality::plain_decided))]
fn is_equal_shape(first: &Shape, second: &Shape) -> bool
    ensures { Decides result (first.now ≡ second.now) }
{
    let number = plain_number(first);
    if number == 0 {
        has_equal_fields(first, second)
    } else {
        number == plain_number(second)
    }
}

fn is_same_shape(first: &Shape, second: &Shape) -> bool
    ensures { result ≡ equal.same_shape first.now second.now }
{
    is_equal_shape(first, second)
}

fn is_equal_name(first: &Option<Name>, second: &Option<Name>) -> bool
    ensures { Decides result (names first.now ≡ names second.now) }
{
    match (first, second) {
        (None, None) => true,
        (Some(one), Some(other)) => {
            one.symbol == other.symbol && is_same_text(&one.spelling, &other.spelling)
        }
        _ => false,
    }
}

fn is_same_name(first: &Option<Name>, second: &Option<Name>) -> bool
    ensures { result ≡ equal.same_names (names first.now) (names second.now) }
{
    is_equal_name(first, second)
}

// Whether they are equal, whatever their children are.
fn is_same_root(first: &Node, second: &Node) -> bool
    ensures { result ≡ equal.same_root first.now second.now }
{
    is_same_shape(first.shape(), second.shape())
        && first.number() == second.number()
        && is_same_name(first.name(), second.name())
}

/// Whether the two are equal: their shapes with all plain fields, their names with spelling and
/// symbol, their numbers, and likewise their children. Of two functions, classes or other nodes
/// that have different numbers the answer is false.
#[cycle(comparing)]
#[tactic(auto, using(crate::proofs::Equality::by_root))]
pub fn is_same_tree(first: &Node, second: &Node) -> bool
    ensures { result ≡ equal.same_tree first.now second.now }
{
    is_same_root(first, second) && are_same_trees(first.children(), second.children())
}

#[cycle(comparing)]
fn are_same_trees(first: &Nodes, second: &Nodes) -> bool
    ensures { result ≡ equal.same_trees first.now second.now }
{
    let count = first.len();
    if second.len() != count {
        return false;
    }
    for at in 0..count {
        if !is_same_tree(first.child(at), second.child(at)) {
            return false;
        }
    }
    true
}
