// The nodes that no row has: what stands for others, leaves, texts, and what has directives.

ghost use Rattle.std.specs.Prelude.{◌≡◌, [], ◌∷◌, codes, decimal, IfOk, MatchOption};
ghost use Rattle.serde_json.specs.Data.{Data, null, string, object, member, no_members, put};
ghost use Rattle.mini_writer.specs.Keys.{key_text, node_object, plain_object};
ghost use Rattle.serde_json.specs.View.{view, items_view};
ghost use Rattle.mini_model.specs.Texts.{bytes_of};
ghost use Rattle.mini_model.specs.declared.operator.UnaryOperator.TheVariants.{UnaryNegation};
ghost use Rattle.mini_node.specs.Children.{names};
ghost use Rattle.mini_writer.specs.Objects as objects;
ghost use Rattle.mini_writer.specs.Written as written;
ghost use Rattle.mini_writer.specs.Special.{special_data};
ghost use Rattle.mini_writer.specs.Written.{of_one};

use crate::bodies::{arrow, class, function, program};
use crate::members::typed;
use crate::objects::row_value;
use crate::rows::{ARGUMENT, Row, prefix_fields};
use crate::{Key, Member, key_text, node, plain_object, text_value, unary_word};
use itoa::Buffer;
use mini_model::{BoxedText, Name, Shape, Text, UnaryOperator};
use serde_json::{Value, put};
use std::alloc::{AllocError, Global};

// ---- texts

/// A text as a JSON value, in UTF-8; U+FFFD stands for a surrogate without a partner.
pub fn text(alloc: Global, units: &Text) -> Result<Value, AllocError>
    ensures { IfOk result (λ v. view v ≡ string (bytes_of units.now)) }
{
    match units.to_utf8(alloc) {
        Ok(text) => Ok(Value::String(text)),
        Err(_) => Err(AllocError),
    }
}

/// The node of a type with one field.
pub fn with_field(alloc: Global, kind: &str, key: Key, value: Value) -> Result<Value, AllocError>
    ensures { IfOk result (λ v. view v ≡ object (put (key_text key) (view value) (member (codes "type") (string kind.now) no_members))) }
{
    let mut object = typed(alloc, kind)?;
    put(&mut object, alloc, key_text(key), value)?;
    Ok(Value::Object(object))
}

// The node of a type without fields.
fn bare(alloc: Global, kind: &str) -> Result<Value, AllocError>
    ensures { IfOk result (λ v. view v ≡ object (member (codes "type") (string kind.now) no_members)) }
{
    let object = typed(alloc, kind)?;
    Ok(Value::Object(object))
}

// Two fields.
fn pair(alloc: Global, first: Member, second: Member) -> Result<Vec<Member>, AllocError>
    ensures { IfOk result (λ members. members.items ≡ first ∷ second ∷ []) }
{
    let members = Vec::from_array(alloc, [first, second])?;
    Ok(members)
}

/// The node of a type with two fields.
pub fn with_two(
    alloc: Global,
    kind: &str,
    first: Member,
    second: Member,
) -> Result<Value, AllocError>
    ensures { IfOk result (λ v. view v ≡ node_object kind.now (first ∷ second ∷ [])) }
{
    let members = pair(alloc, first, second)?;
    node(alloc, kind, members)
}

// The object with two fields, which is no node.
fn object_of_two(alloc: Global, first: Member, second: Member) -> Result<Value, AllocError>
    ensures { IfOk result (λ v. view v ≡ plain_object (first ∷ second ∷ [])) }
{
    let members = pair(alloc, first, second)?;
    plain_object(alloc, members)
}

// `Identifier`
fn identifier(alloc: Global, spelling: &Text) -> Result<Value, AllocError>
    ensures { IfOk result (λ v. view v ≡ objects.identifier (bytes_of spelling.now)) }
{
    let name = text(alloc, spelling)?;
    with_field(alloc, "Identifier", Key::Name, name)
}

// `Identifier` of a node's name.
fn name(alloc: Global, name: &Option<Name>) -> Result<Value, AllocError>
    ensures { IfOk result (λ v. view v ≡ written.name_of (names name.now)) }
{
    match name {
        None => Ok(Value::Null),
        Some(name) => identifier(alloc, &name.spelling),
    }
}

// `PrivateIdentifier`
fn private_identifier(alloc: Global, spelling: &Text) -> Result<Value, AllocError>
    ensures { IfOk result (λ v. view v ≡ objects.private_identifier (bytes_of spelling.now)) }
{
    let name = text(alloc, spelling)?;
    with_field(alloc, "PrivateIdentifier", Key::Name, name)
}

// ---- literals

// `Literal` of a value.
fn literal(alloc: Global, value: Value) -> Result<Value, AllocError>
    ensures { IfOk result (λ v. view v ≡ object (member (codes "type") (string (codes "Literal")) (member (codes "value") (view value) no_members))) }
{
    with_field(alloc, "Literal", Key::Value, value)
}

// The object of a minus over a number above 0.
fn minus(alloc: Global, operand: Value) -> Result<Value, AllocError>
    ensures { IfOk result (λ v. view v ≡ objects.unary_expression UnaryNegation (view operand)) }
{
    let row = Row {
        kind: "UnaryExpression",
        plain: prefix_fields(unary_word(UnaryOperator::UnaryNegation), true),
        keys: &ARGUMENT,
    };
    let below = Vec::from_array(alloc, [operand])?;
    row_value(alloc, row, below)
}

// `Literal` of a number; of one below 0, a minus over it.
fn number(alloc: Global, value: i64) -> Result<Value, AllocError>
    ensures { IfOk result (λ v. view v ≡ written.number_literal value) }
{
    let found = literal(alloc, Value::from(value.unsigned_abs()))?;
    if value >= 0 {
        Ok(found)
    } else {
        minus(alloc, found)
    }
}

// `Literal` of a regular expression.
fn reg_exp(alloc: Global, pattern: &Text, flags: &Text) -> Result<Value, AllocError>
    ensures { IfOk result (λ v. view v ≡ objects.reg_exp_literal (bytes_of pattern.now) (bytes_of flags.now)) }
{
    let pattern = text(alloc, pattern)?;
    let flags = text(alloc, flags)?;
    let regex = object_of_two(
        alloc,
        Member(Key::Flags, flags),
        Member(Key::Pattern, pattern),
    )?;
    with_two(
        alloc,
        "Literal",
        Member(Key::Regex, regex),
        Member(Key::Value, Value::Null),
    )
}

// `Literal` of a BigInt.
fn big_int(alloc: Global, value: u128) -> Result<Value, AllocError>
    ensures { IfOk result (λ v. view v ≡ objects.big_int_literal (decimal value)) }
{
    let mut buffer = Buffer::new();
    let digits = text_value(alloc, buffer.format(value))?;
    with_two(
        alloc,
        "Literal",
        Member(Key::Bigint, digits),
        Member(Key::Value, Value::Null),
    )
}

// The cooked text, or null where the raw one is malformed.
fn cooked_text(alloc: Global, cooked: &Option<BoxedText>) -> Result<Value, AllocError>
    ensures { IfOk result (λ v. view v ≡ written.cooked_text cooked.now) }
{
    match cooked {
        None => Ok(Value::Null),
        Some(units) => text(alloc, units.text()),
    }
}

// `TemplateElement`
fn quasi(
    alloc: Global,
    tail: bool,
    raw: &Text,
    cooked: &Option<BoxedText>,
) -> Result<Value, AllocError>
    ensures { IfOk result (λ v. view v ≡ objects.template_element tail (bytes_of raw.now) (written.cooked_text cooked.now)) }
{
    let raw = text(alloc, raw)?;
    let cooked = cooked_text(alloc, cooked)?;
    let texts = object_of_two(alloc, Member(Key::Raw, raw), Member(Key::Cooked, cooked))?;
    with_two(
        alloc,
        "TemplateElement",
        Member(Key::Tail, Value::Bool(tail)),
        Member(Key::Value, texts),
    )
}

// ---- children

// The only value, if there is just one.
#[tactic(auto, using(crate::proofs::Values::only_one, crate::proofs::Values::more_than_one, crate::proofs::Values::none_of_one))]
fn one(below: Vec<Value>) -> Option<Value>
    ensures { MatchOption result ((f : Data → Data) → of_one f (items_view below.items) ≡ null) (λ v. (f : Data → Data) → of_one f (items_view below.items) ≡ f (view v)) }
{
    let mut rest = below;
    let last = rest.pop()?;
    if rest.is_empty() { Some(last) } else { None }
}

/// What is written for a leaf, or for a node that stands for its one child; null for any other
/// node.
pub fn special_value(
    alloc: Global,
    shape: &Shape,
    spelled: &Option<Name>,
    below: Vec<Value>,
) -> Result<Value, AllocError>
    ensures { IfOk result (λ v. view v ≡ special_data shape.now (names spelled.now) (items_view below.items)) }
{
    match shape {
        Shape::Absent => Ok(Value::Null),
        Shape::Listed => Ok(Value::Array(below)),
        Shape::InnerExpression | Shape::FunctionBody => Ok(one(below).unwrap_or(Value::Null)),
        Shape::EmptyStatement => bare(alloc, "EmptyStatement"),
        Shape::DebuggerStatement => bare(alloc, "DebuggerStatement"),
        Shape::ThisExpression => bare(alloc, "ThisExpression"),
        Shape::Super => bare(alloc, "Super"),
        Shape::Identifier | Shape::BindingIdentifier => name(alloc, spelled),
        Shape::IdentifierName(text) => identifier(alloc, text),
        Shape::PrivateIdentifier(text) => private_identifier(alloc, text),
        Shape::NumericLiteral(value) => number(alloc, *value),
        Shape::StringLiteral(units) => literal(alloc, text(alloc, units)?),
        Shape::BooleanLiteral(value) => literal(alloc, Value::Bool(*value)),
        Shape::NullLiteral => literal(alloc, Value::Null),
        Shape::RegExpLiteral(pattern, flags) => reg_exp(alloc, pattern.text(), flags.text()),
        Shape::BigIntLiteral(value) => big_int(alloc, *value),
        Shape::TemplateElement(tail, raw, cooked) => quasi(alloc, *tail, raw.text(), cooked),
        Shape::Program(is_module, texts) => program(alloc, *is_module, texts, below),
        Shape::Function(declaration, generator, texts) => {
            function(alloc, *declaration, *generator, texts, below)
        }
        Shape::ArrowFunctionExpression(texts) => arrow(alloc, texts, below),
        Shape::Class(declaration) => class(alloc, *declaration, below),
        _ => Ok(Value::Null),
    }
}
