//! What a node writes besides its children and its parentheses.

ghost use Rattle.std.specs.Prelude.{◌≡◌, [], false};
ghost use Rattle.mini_model.specs.declared.shape.Shape.TheVariants as shape;
ghost use Rattle.mini_model.specs.Weight.{capped, names_weight as weight_of_names, list_weight as weight_of_list, where_present as present_weight, block_weight as weight_of_block, declaration_end as end_of_declaration, function_weight, text_weight as weight_of_text};
ghost use Rattle.mini_node.specs.Children.{names};

use crate::outline::Outlined;
use crate::own::{
    assignment_operator_weight, big_int_weight, binary_operator_weight, commas, declaring_weight,
    directives_weight, flagged, method_kind_weight, name_weight, number_weight, property_weight,
    quoted_weight, template_weight, twice_length, unary_operator_weight,
};
use mini_model::{BoxedText, Name, Position, Shape, StmtSeat, TextList};

fn optional_name_weight(name: &Option<Name>) -> u64
    ensures { result ≡ weight_of_names (names name.now) }
{
    match name {
        None => 0,
        Some(name) => name_weight(name),
    }
}

// The commas of a list.
#[tactic(auto, using(crate::proofs::Outlines::commas_between))]
fn list_weight<C: Outlined>(items: &C, place: Position) -> u64
    ensures { result ≡ capped (weight_of_list place (C.below items.now)) }
{
    match place {
        Position::ArgumentList | Position::SequenceList(_) | Position::CommaList => commas(
            items.how_many(),
        ),
        Position::Expr(_)
        | Position::Stmt(_)
        | Position::Target
        | Position::Method
        | Position::Unwritten
        | Position::StatementList
        | Position::BodyList
        | Position::TemplateList
        | Position::Elsewhere => 0,
    }
}

// The braces of a block.
fn block_weight<C: Outlined>(body: &C, place: Position) -> u64
    ensures { result ≡ weight_of_block place (C.below body.now) }
{
    match place {
        Position::Stmt(StmtSeat::Consequent) if body.chooses_first() => 0,
        _ => 4,
    }
}

// This weight, where the part at a place is there; else 0.
fn where_present<C: Outlined>(children: &C, at: usize, weight: u64) -> u64
    ensures { result ≡ present_weight (C.below children.now) at weight }
{
    if children.is_absent(at) { 0 } else { weight }
}

// The weight of the `;` behind a declaration; in the head of a loop there is none.
fn declaration_end(place: Position) -> u64
    ensures { result ≡ end_of_declaration place }
{
    match place {
        Position::Expr(_) | Position::Target => 0,
        _ => 2,
    }
}

// The weight of `function()`; the function of a method is written without the word.
fn function_word(place: Position) -> u64
    ensures { result ≡ function_weight place }
{
    match place {
        Position::Method => 4,
        _ => 20,
    }
}

fn regular_expression_weight(pattern: &BoxedText, flags: &BoxedText) -> u64
    ensures { result ≡ capped (weight_of_text (shape.RegExpLiteral pattern.now flags.now) [] Position.Elsewhere []) }
{
    twice_length(pattern.text())
        .saturating_add(twice_length(flags.text()))
        .saturating_add(4)
}

fn function_text(generator: bool, directives: &TextList, place: Position) -> u64
    ensures { result ≡ capped (weight_of_text (shape.Function false generator directives.now) [] place []) }
{
    directives_weight(directives).saturating_add(function_word(place) + flagged(generator, 2))
}

/// The weight of what a node writes besides its children and its parentheses.
pub fn text_weight<C: Outlined>(
    shape: &Shape,
    name: &Option<Name>,
    children: &C,
    place: Position,
) -> u64
    ensures { result ≡ capped (weight_of_text shape.now (names name.now) place (C.below children.now)) }
{
    match shape {
        Shape::Listed => list_weight(children, place),
        Shape::Program(_, directives) => directives_weight(directives),
        Shape::ExpressionStatement => 4,
        Shape::EmptyStatement => 2,
        Shape::DebuggerStatement => 18,
        Shape::BlockStatement => block_weight(children, place),
        Shape::LabeledStatement => 2,
        Shape::BreakStatement
        | Shape::ContinueStatement
        | Shape::ReturnStatement
        | Shape::ThrowStatement => 16,
        Shape::IfStatement => 14 + where_present(children, 2, 10),
        Shape::SwitchStatement => 20,
        Shape::SwitchCase => 12 + flagged(children.is_absent(0), 4),
        Shape::TryStatement => 12 + where_present(children, 2, 16),
        Shape::CatchClause => 12 + where_present(children, 0, 4),
        Shape::WhileStatement | Shape::ForStatement => 14,
        Shape::DoWhileStatement => 22,
        Shape::ForInStatement | Shape::ForOfStatement => 16,
        Shape::VariableDeclaration(kind) => declaring_weight(*kind) + declaration_end(place),
        Shape::VariableDeclarator => where_present(children, 1, 2),
        Shape::Function(_, generator, directives) => function_text(*generator, directives, place),
        Shape::ArrowFunctionExpression(directives) => directives_weight(directives).saturating_add(
            8,
        ),
        Shape::FunctionBody => 4,
        Shape::Class(_) => 16 + where_present(children, 1, 16),
        Shape::MethodDefinition(kind, computed, is_static) => {
            method_kind_weight(*kind) + flagged(*computed, 4) + flagged(*is_static, 14)
        }
        Shape::PropertyDefinition(computed, is_static) => {
            where_present(children, 1, 2) + flagged(*computed, 4) + flagged(*is_static, 14)
        }
        Shape::StaticBlock => 18,
        Shape::ImportDeclaration => 20,
        Shape::ImportSpecifier
        | Shape::ImportDefaultSpecifier
        | Shape::ImportNamespaceSpecifier
        | Shape::ExportSpecifier => 4,
        Shape::ExportNamedDeclaration | Shape::ExportAllDeclaration => 14,
        Shape::ExportDefaultDeclaration => 30,
        Shape::Identifier => optional_name_weight(name),
        Shape::BindingIdentifier | Shape::IdentifierName(_) => 2,
        Shape::PrivateIdentifier(_) => 4,
        Shape::NumericLiteral(value) => number_weight(*value),
        Shape::StringLiteral(text) => quoted_weight(text),
        Shape::BooleanLiteral(_) => 10,
        Shape::NullLiteral => 8,
        Shape::RegExpLiteral(pattern, flags) => regular_expression_weight(pattern, flags),
        Shape::BigIntLiteral(value) => big_int_weight(*value),
        Shape::ThisExpression => 8,
        Shape::Super => 10,
        Shape::ArrayExpression | Shape::ObjectExpression => 4,
        Shape::ObjectProperty(_, _, true, _) => 0,
        Shape::ObjectProperty(kind, method, false, computed) => {
            property_weight(*kind, *method, *computed)
        }
        Shape::SpreadElement | Shape::RestElement => 6,
        Shape::UnaryExpression(operator) => unary_operator_weight(*operator),
        Shape::UpdateExpression(_, _) => 4,
        Shape::BinaryExpression(operator) => binary_operator_weight(*operator),
        Shape::PrivateInExpression | Shape::LogicalExpression(_) => 4,
        Shape::AssignmentExpression(operator) => assignment_operator_weight(*operator),
        Shape::ConditionalExpression => 4,
        Shape::CallExpression(optional) => 4 + flagged(*optional, 4),
        Shape::SuperCallExpression => 4,
        Shape::NewExpression => 12,
        Shape::StaticMemberExpression(optional) | Shape::PrivateFieldExpression(optional) => {
            2 + flagged(*optional, 2)
        }
        Shape::ComputedMemberExpression(optional) => 4 + flagged(*optional, 4),
        Shape::SuperStaticMemberExpression => 2,
        Shape::SuperComputedMemberExpression => 4,
        Shape::YieldExpression(delegate) => 10 + flagged(*delegate, 2),
        Shape::TemplateLiteral => template_weight(children.items(1)),
        Shape::TemplateElement(_, raw, _) => twice_length(raw.text()),
        Shape::MetaProperty(_) | Shape::ImportExpression => 16,
        Shape::ObjectPattern
        | Shape::ArrayPattern
        | Shape::ObjectAssignmentTarget
        | Shape::ArrayAssignmentTarget => 4,
        Shape::BindingProperty(true, _) => 0,
        Shape::BindingProperty(false, computed) => 2 + flagged(*computed, 4),
        Shape::AssignmentPattern => 2,
        Shape::AssignmentTargetPropertyProperty(computed) => 2 + flagged(*computed, 4),
        Shape::Absent
        | Shape::InnerExpression
        | Shape::ClassBody
        | Shape::SequenceExpression
        | Shape::ChainExpression
        | Shape::TaggedTemplateExpression
        | Shape::AssignmentTargetPropertyIdentifier => 0,
    }
}
