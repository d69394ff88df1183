// What a node is beside its children.

ghost use Rattle.std.specs.Prelude.{◌≡◌, IfOk, IfSome, option_map};
ghost use Rattle.serde_json.specs.View.{view, items_view};
ghost use Rattle.mini_accept.specs.WellShaped.{has_use_strict, is_numbered, is_strict_in};
ghost use Rattle.mini_accept.specs.Accept.{is_root, takes_number};
ghost use Rattle.mini_accept.specs.Functions.{directives_below};
ghost use Rattle.mini_accept.specs.Statements.{directives_of};
ghost use Rattle.mini_fields.specs.Literals.{shape_of, negative_literal};
ghost use Rattle.mini_fields.specs.Views.{class_of, place_of};
ghost use Rattle.mini_node.specs.Children.{names};
ghost use Rattle.mini_plan.specs.Views.{shape_of_head, names_of_head};
ghost use Rattle.mini_model.specs.Texts.{units_of};

use mini_fields::{Class, LiteralValue, Place, digits_value, has_type, list_at};
use mini_model::{BoxedText, Name, OutOfMemory, Shape, Text, TextList};
use mini_plan::{Head, directive_text, has_use_strict};
use serde_json::Value;
use std::alloc::Global;

// ---- directives

// The texts of the directives, which stand before all other statements.
fn directives(alloc: Global, statements: &[Value]) -> Result<TextList, OutOfMemory>
    ensures { IfOk result (λ texts. texts ≡ directives_of (items_view statements.now)) }
{
    let mut texts = TextList::new(alloc);
    for statement in statements {
        let Some(text) = directive_text(statement) else {
            return Ok(texts);
        };
        texts.push(Text::from_str(alloc, text)?)?;
    }
    Ok(texts)
}

// The texts of a function's directives.
fn directives_below(alloc: Global, value: &Value) -> Result<TextList, OutOfMemory>
    ensures { IfOk result (λ texts. texts ≡ directives_below (view value.now)) }
{
    let Some(body) = value.get("body") else {
        return Ok(TextList::new(alloc));
    };
    if !has_type("BlockStatement", body) {
        return Ok(TextList::new(alloc));
    }
    match list_at("body", body) {
        None => Ok(TextList::new(alloc)),
        Some(statements) => directives(alloc, statements),
    }
}

// Whether a function's directives make its code strict.
fn is_strict_below(value: &Value) -> bool
    ensures { result ≡ has_use_strict (directives_below (view value.now)) }
{
    let Some(body) = value.get("body") else {
        return false;
    };
    if !has_type("BlockStatement", body) {
        return false;
    }
    match list_at("body", body) {
        None => false,
        Some(statements) => has_use_strict(statements),
    }
}

const USE_STRICT: [u16; 10] = [0x75, 0x73, 0x65, 0x20, 0x73, 0x74, 0x72, 0x69, 0x63, 0x74];

// Whether a directive of these makes the code strict.
fn says_strict(directives: &TextList) -> bool
    ensures { result ≡ has_use_strict directives.now }
{
    for text in directives.as_slice() {
        if text.as_slice() == USE_STRICT.as_slice() {
            return true;
        }
    }
    false
}

// Whether the code in a node of the shape is strict.
fn is_strict_shape(strict: bool, shape: &Shape) -> bool
    ensures { result ≡ is_strict_in strict shape.now }
{
    match shape {
        Shape::Program(is_module, directives) => *is_module || says_strict(directives),
        Shape::Function(_, _, directives) => strict || says_strict(directives),
        Shape::ArrowFunctionExpression(directives) => strict || says_strict(directives),
        Shape::Class(_) => true,
        _ => strict,
    }
}

/// Whether the code in a node is strict (ECMA-262, "Strict Mode Code").
pub fn is_strict_in(strict: bool, head: &Head<'_>) -> bool
    ensures { result ≡ is_strict_in strict (shape_of_head head.now) }
{
    match head {
        Head::Plain(shape) => is_strict_shape(strict, shape),
        Head::Program(is_module, statements) => *is_module || has_use_strict(statements),
        Head::Function(_, _, value) => strict || is_strict_below(value),
        Head::Arrow(value) => strict || is_strict_below(value),
        _ => strict,
    }
}

// ---- numbers

// Whether nodes of the shape have a number where the class is asked for.
fn is_numbered(class: Class, shape: &Shape) -> bool
    ensures { result ≡ is_numbered (class_of class) shape.now }
{
    match shape {
        Shape::Program(_, _)
        | Shape::Function(_, _, _)
        | Shape::ArrowFunctionExpression(_)
        | Shape::Class(_)
        | Shape::StaticBlock
        | Shape::InnerExpression
        | Shape::RegExpLiteral(_, _)
        | Shape::PrivateInExpression
        | Shape::SuperCallExpression
        | Shape::SuperStaticMemberExpression
        | Shape::SuperComputedMemberExpression
        | Shape::PrivateFieldExpression(_)
        | Shape::TaggedTemplateExpression
        | Shape::MetaProperty(_)
        | Shape::ImportExpression
        | Shape::ObjectPattern
        | Shape::ArrayPattern
        | Shape::ObjectAssignmentTarget
        | Shape::ArrayAssignmentTarget => true,
        Shape::AssignmentPattern => matches!(class, Class::Parameter),
        _ => false,
    }
}

// Whether the class is the root's.
fn is_root(class: Class) -> bool
    ensures { result ≡ is_root (class_of class) }
{
    match class {
        Class::Program => true,
        _ => false,
    }
}

// Whether a node with the head has a number where the class is asked for.
fn has_number(class: Class, head: &Head<'_>) -> bool
    ensures { result ≡ is_numbered (class_of class) (shape_of_head head.now) }
{
    match head {
        Head::Plain(shape) => is_numbered(class, shape),
        Head::Program(_, _) | Head::Function(_, _, _) | Head::Arrow(_) => true,
        Head::Literal(LiteralValue::RegExp { .. }) => true,
        _ => false,
    }
}

/// Whether a node in the place has a number.
pub fn takes_number(place: Place, head: &Head<'_>) -> bool
    ensures { result ≡ takes_number (place_of place) (shape_of_head head.now) }
{
    match place {
        Place::At(class) => is_root(class) || has_number(class, head),
        _ => false,
    }
}

// ---- shapes

// The number below 0 that stands so far from it, if it is in range.
fn negated(number: u64) -> Option<i64>
    ensures { IfSome result (λ z. z ≡ negative_literal number) }
{
    match i64::try_from(number) {
        Ok(positive) if positive > 0 => Some(-positive),
        _ => None,
    }
}

// A text behind a pointer.
fn boxed_text(alloc: Global, text: &str) -> Result<BoxedText, OutOfMemory>
    ensures { IfOk result (λ x. x ≡ units_of text.now) }
{
    let text = Text::from_str(alloc, text)?;
    BoxedText::new(alloc, text)
}

// The shape of a literal. A number that has no shape isn't read, and so isn't asked for.
#[tactic(auto, using(crate::proofs::Values::digits_read))]
fn literal_shape(alloc: Global, value: LiteralValue<'_>) -> Result<Shape, OutOfMemory>
    ensures { IfOk result (λ h. h ≡ shape_of value.entry) }
{
    match value {
        LiteralValue::RegExp { pattern, flags } => {
            let pattern = boxed_text(alloc, pattern)?;
            let flags = boxed_text(alloc, flags)?;
            Ok(Shape::RegExpLiteral(pattern, flags))
        }
        LiteralValue::BigInt(digits) => match digits_value(digits) {
            Some(Some(number)) => Ok(Shape::BigIntLiteral(number)),
            _ => Err(OutOfMemory),
        },
        LiteralValue::Null => Ok(Shape::NullLiteral),
        LiteralValue::Boolean(flag) => Ok(Shape::BooleanLiteral(flag)),
        LiteralValue::Numeric(number) => match i64::try_from(number) {
            Ok(number) => Ok(Shape::NumericLiteral(number)),
            Err(_) => Err(OutOfMemory),
        },
        LiteralValue::String(text) => {
            let text = Text::from_str(alloc, text)?;
            Ok(Shape::StringLiteral(text))
        }
    }
}

// The cooked text of a piece, if there is one.
fn cooked_text(alloc: Global, cooked: Option<&str>) -> Result<Option<BoxedText>, OutOfMemory>
    ensures { IfOk result (λ x. x ≡ option_map (λ s. units_of s.now) cooked.entry) }
{
    match cooked {
        None => Ok(None),
        Some(text) => {
            let text = boxed_text(alloc, text)?;
            Ok(Some(text))
        }
    }
}

/// The shape of a node.
pub fn shape(alloc: Global, head: Head<'_>) -> Result<Shape, OutOfMemory>
    ensures { IfOk result (λ h. h ≡ shape_of_head head.entry) }
{
    match head {
        Head::Plain(shape) => Ok(shape),
        Head::Program(is_module, statements) => {
            let texts = directives(alloc, statements)?;
            Ok(Shape::Program(is_module, texts))
        }
        Head::Function(declaration, generator, value) => {
            let texts = directives_below(alloc, value)?;
            Ok(Shape::Function(declaration, generator, texts))
        }
        Head::Arrow(value) => {
            let texts = directives_below(alloc, value)?;
            Ok(Shape::ArrowFunctionExpression(texts))
        }
        Head::Reference(_) => Ok(Shape::Identifier),
        Head::Binding(_) => Ok(Shape::BindingIdentifier),
        Head::Word(text) => {
            let text = Text::from_str(alloc, text)?;
            Ok(Shape::IdentifierName(text))
        }
        Head::Private(text) => {
            let text = Text::from_str(alloc, text)?;
            Ok(Shape::PrivateIdentifier(text))
        }
        Head::Literal(value) => {
            let shape = literal_shape(alloc, value)?;
            Ok(shape)
        }
        Head::Negative(number) => match negated(number) {
            None => Err(OutOfMemory),
            Some(number) => Ok(Shape::NumericLiteral(number)),
        },
        Head::Quasi(tail, raw, cooked) => {
            let raw = boxed_text(alloc, raw)?;
            let cooked = cooked_text(alloc, cooked)?;
            Ok(Shape::TemplateElement(tail, raw, cooked))
        }
    }
}

/// The name of a node, if it has one.
pub fn name(alloc: Global, head: &Head<'_>) -> Result<Option<Name>, OutOfMemory>
    ensures { IfOk result (λ x. names x ≡ names_of_head head.now) }
{
    match head {
        Head::Reference(text) | Head::Binding(text) => {
            let spelling = Text::from_str(alloc, text)?;
            Ok(Some(Name {
                spelling,
                symbol: None,
            }))
        }
        _ => Ok(None),
    }
}
