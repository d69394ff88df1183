// Expressions, names and literals (ESTree; ECMA-262, "Expressions").

ghost use Rattle.std.specs.Prelude.{◌≡◌, option_map, nat_le, codes};
ghost use Rattle.serde_json.specs.Data.{Data};
ghost use Rattle.serde_json.specs.Find.{get};
ghost use Rattle.serde_json.specs.View.{view, items_view};
ghost use Rattle.mini_model.specs.Texts.{units_of};
ghost use Rattle.mini_accept.specs.Expressions as expression;
ghost use Rattle.mini_accept.specs.Expressions.{identifier_in, is_prefix, minus_below};
ghost use Rattle.mini_accept.specs.Fields.{item_count};
ghost use Rattle.mini_fields.specs.Literals.{negative_literal};
ghost use Rattle.mini_fields.specs.Views.{place_of};
ghost use Rattle.mini_plan.specs.Named.{is_declared, is_word};
ghost use Rattle.mini_plan.specs.Views.{plan_of};

use crate::plan::{Below, Head, Items, Plan};
use mini_fields::{
    Class, LiteralValue, MetaWord, Place, assignment_operator_at, binary_operator_at,
    child_has_type, flag_at, has_text, is_given, list_at, literal, logical_operator_at, name_at,
    positive_number, text_at, unary_operator_at, update_operator_at,
};
use mini_model::{AssignmentOperator, BinaryOperator, MetaPropertyKind, Shape, UnaryOperator};
use serde_json::Value;

const EXPRESSION: Class = Class::Expression;

// ---- names and literals

// Whether an identifier there declares its name.
fn is_declared(place: Place) -> bool
    ensures { result ≡ is_declared place }
{
    match place {
        Place::At(Class::Pattern)
        | Place::At(Class::PatternElement)
        | Place::At(Class::Parameter)
        | Place::At(Class::Binding) => true,
        _ => false,
    }
}

// Whether the name of an identifier there names no variable.
fn is_word(place: Place) -> bool
    ensures { result ≡ is_word place }
{
    match place {
        Place::At(Class::Label)
        | Place::At(Class::Key(false))
        | Place::At(Class::PrivateOrKey)
        | Place::At(Class::InnerKey)
        | Place::At(Class::ModuleName)
        | Place::At(Class::Word(_)) => true,
        _ => false,
    }
}

// What an identifier of this text is, by where it stands.
fn identifier_in<'v>(place: Place, text: &'v str) -> Plan<'v>
    ensures { (d : Data) → plan_of d result ≡ identifier_in (place_of place) (units_of text.now) }
{
    if is_declared(place) {
        Plan {
            head: Head::Binding(text),
            children: &[],
        }
    } else if is_word(place) {
        Plan {
            head: Head::Word(text),
            children: &[],
        }
    } else {
        Plan {
            head: Head::Reference(text),
            children: &[],
        }
    }
}

/// `Identifier`
pub fn identifier(place: Place, value: &Value) -> Option<Plan<'_>>
    ensures { option_map (plan_of (view value.now)) result ≡ expression.identifier (place_of place) (view value.now) }
{
    let text = name_at(value)?;
    Some(identifier_in(place, text))
}

/// `PrivateIdentifier`
pub fn private_identifier(value: &Value) -> Option<Plan<'_>>
    ensures { option_map (plan_of (view value.now)) result ≡ expression.private_identifier (view value.now) }
{
    let text = name_at(value)?;
    Some(Plan {
        head: Head::Private(text),
        children: &[],
    })
}

/// `Literal`: a directive's text is looked at for nothing else.
pub fn literal_node(place: Place, value: &Value) -> Option<Plan<'_>>
    ensures { option_map (plan_of (view value.now)) result ≡ expression.literal_plan (place_of place) (view value.now) }
{
    let found = match place {
        Place::DirectiveText => LiteralValue::String(text_at("value", value)?),
        _ => literal(value)?,
    };
    Some(Plan {
        head: Head::Literal(found),
        children: &[],
    })
}

// ---- arrays and objects

const INNER_SPREAD: [Below; 1] = [Below::Inner("argument", EXPRESSION)];

const SPREAD_ELEMENT: [Below; 1] = [Below::Node("argument", EXPRESSION)];

/// `SpreadElement`
pub fn spread(place: Place, value: &Value) -> Option<Plan<'_>>
    ensures { option_map (plan_of (view value.now)) result ≡ expression.spread (place_of place) (view value.now) }
{
    match place {
        Place::At(Class::InnerArgument) => Plan::of(Shape::SpreadElement, &INNER_SPREAD),
        _ => Plan::of(Shape::SpreadElement, &SPREAD_ELEMENT),
    }
}

// ---- operators

// Whether `prefix` is true, or absent.
fn is_prefix(value: &Value) -> bool
    ensures { result ≡ is_prefix (get (codes "prefix") (view value.now)) }
{
    match value.get("prefix") {
        None => true,
        Some(prefix) => prefix.as_bool() == Some(true),
    }
}

// The operand that is a number above 0 behind a minus.
fn minus_below(operator: UnaryOperator, value: &Value) -> Option<u64>
    ensures { option_map negative_literal result ≡ minus_below operator (view value.now) }
{
    match operator {
        UnaryOperator::UnaryNegation => positive_number(value.get("argument")?),
        _ => None,
    }
}

const NEGATIVE_LITERAL: [Below; 1] = [Below::Checked("argument", EXPRESSION)];

const UNARY_EXPRESSION: [Below; 1] = [Below::Node("argument", EXPRESSION)];

/// `UnaryExpression`: with a minus before a number above 0 it is one literal.
pub fn unary(value: &Value) -> Option<Plan<'_>>
    ensures { option_map (plan_of (view value.now)) result ≡ expression.unary (view value.now) }
{
    let operator = unary_operator_at("operator", value)?;
    if !is_prefix(value) {
        return None;
    }
    match minus_below(operator, value) {
        Some(number) => Some(Plan {
            head: Head::Negative(number),
            children: &NEGATIVE_LITERAL,
        }),
        None => Plan::of(Shape::UnaryExpression(operator), &UNARY_EXPRESSION),
    }
}

const UPDATE_EXPRESSION: [Below; 1] = [Below::Node("argument", Class::SimpleTarget)];

/// `UpdateExpression`
pub fn update(value: &Value) -> Option<Plan<'_>>
    ensures { option_map (plan_of (view value.now)) result ≡ expression.update (view value.now) }
{
    let operator = update_operator_at("operator", value)?;
    let prefix = flag_at("prefix", value)?;
    Plan::of(
        Shape::UpdateExpression(operator, prefix),
        &UPDATE_EXPRESSION,
    )
}

const OPERANDS: [Below; 2] = [
    Below::Node("left", EXPRESSION),
    Below::Node("right", EXPRESSION),
];

const PRIVATE_IN: [Below; 2] = [
    Below::Node("left", Class::PrivateName),
    Below::Inner("right", EXPRESSION),
];

/// `BinaryExpression`: before `in` a private name may stand.
pub fn binary(value: &Value) -> Option<Plan<'_>>
    ensures { option_map (plan_of (view value.now)) result ≡ expression.binary (view value.now) }
{
    match binary_operator_at("operator", value)? {
        BinaryOperator::In if child_has_type("left", "PrivateIdentifier", value) => {
            Plan::of(Shape::PrivateInExpression, &PRIVATE_IN)
        }
        operator => Plan::of(Shape::BinaryExpression(operator), &OPERANDS),
    }
}

/// `LogicalExpression`
pub fn logical(value: &Value) -> Option<Plan<'_>>
    ensures { option_map (plan_of (view value.now)) result ≡ expression.logical (view value.now) }
{
    let operator = logical_operator_at("operator", value)?;
    Plan::of(Shape::LogicalExpression(operator), &OPERANDS)
}

const ASSIGNMENT: [Below; 2] = [
    Below::Node("left", Class::Target),
    Below::Node("right", EXPRESSION),
];

const OTHER_ASSIGNMENT: [Below; 2] = [
    Below::Node("left", Class::SimpleTarget),
    Below::Node("right", EXPRESSION),
];

/// `AssignmentExpression`: patterns stand under `=` alone.
pub fn assignment(value: &Value) -> Option<Plan<'_>>
    ensures { option_map (plan_of (view value.now)) result ≡ expression.assignment (view value.now) }
{
    let operator = assignment_operator_at("operator", value)?;
    let shape = Shape::AssignmentExpression(operator);
    match operator {
        AssignmentOperator::Assign => Plan::of(shape, &ASSIGNMENT),
        _ => Plan::of(shape, &OTHER_ASSIGNMENT),
    }
}

// Whether there are two items or more.
#[tactic(auto, using(mini_fields::proofs::Lists::item_count_length))]
fn are_several(items: &[Value]) -> bool
    ensures { result ≡ nat_le 2 (item_count (items_view items.now)) }
{
    items.len() >= 2
}

const SEQUENCE_EXPRESSION: [Below; 1] = [Below::Many("expressions", Items::Each(EXPRESSION))];

/// `SequenceExpression`: two parts or more.
pub fn sequence(value: &Value) -> Option<Plan<'_>>
    ensures { option_map (plan_of (view value.now)) result ≡ expression.sequence (view value.now) }
{
    if !are_several(list_at("expressions", value)?) {
        return None;
    }
    Plan::of(Shape::SequenceExpression, &SEQUENCE_EXPRESSION)
}

// ---- others

const YIELD_EXPRESSION: [Below; 1] = [Below::Optional("argument", EXPRESSION)];

/// `YieldExpression`: what is delegated to is there.
pub fn yield_expression(value: &Value) -> Option<Plan<'_>>
    ensures { option_map (plan_of (view value.now)) result ≡ expression.yield (view value.now) }
{
    let delegate = flag_at("delegate", value)?;
    if delegate && !is_given("argument", value) {
        return None;
    }
    Plan::of(Shape::YieldExpression(delegate), &YIELD_EXPRESSION)
}

// Whether it is a meta property of this keyword.
fn has_meta(word: &str, value: &Value) -> bool
    ensures { result ≡ expression.has_meta word.now (view value.now) }
{
    match value.get("meta") {
        None => false,
        Some(meta) => has_text("name", word, meta),
    }
}

const NEW_TARGET: [Below; 2] = [
    Below::Node("meta", Class::Word(MetaWord::New)),
    Below::Node("property", Class::Word(MetaWord::Target)),
];

const IMPORT_META: [Below; 2] = [
    Below::Node("meta", Class::Word(MetaWord::Import)),
    Below::Node("property", Class::Word(MetaWord::Meta)),
];

/// `MetaProperty`: `new.target` or `import.meta`.
pub fn meta_property(value: &Value) -> Option<Plan<'_>>
    ensures { option_map (plan_of (view value.now)) result ≡ expression.meta_property (view value.now) }
{
    if has_meta("new", value) {
        Plan::of(
            Shape::MetaProperty(MetaPropertyKind::NewTarget),
            &NEW_TARGET,
        )
    } else if has_meta("import", value) {
        Plan::of(
            Shape::MetaProperty(MetaPropertyKind::ImportMeta),
            &IMPORT_META,
        )
    } else {
        None
    }
}
