// Literals (ESTree, Literal, RegExpLiteral, BigIntLiteral).

ghost use Rattle.std.specs.Prelude.{◌≡◌, ◌<◌, ◌+◌, ◌*◌, ℕ, Some, option_map, unwrap_or, not, nat_le, false, codes};
ghost use Rattle.serde_json.specs.View.{view, number_view};
ghost use Rattle.serde_json.specs.Find.{get};
ghost use Rattle.mini_accept.specs.WellShaped.{max_big_int};
ghost use Rattle.mini_accept.specs.Literals.{reg_exp, digits_value, big_int, literal, value_shape, is_unread_number, is_unread_raw, is_unread_value, is_unread_literal, is_string_literal, is_big_int_literal, is_key_literal, with_minus};
ghost use Rattle.mini_fields.specs.Literals.{capped, shape_of, big_int_shape, negative_literal};

use crate::look::{has_type, is_given, text_at};
use serde_json::{Number, Value};

// The greatest safe number (ECMA-262, Number.MAX_SAFE_INTEGER).
const MAX_SAFE_INTEGER: u64 = 9_007_199_254_740_991;

/// What a literal is.
#[derive(Clone, Copy)]
pub enum LiteralValue<'v> {
    /// A regular expression, by its pattern and flags.
    RegExp { pattern: &'v str, flags: &'v str },
    /// The digits of a BigInt.
    BigInt(&'v str),
    /// `null`
    Null,
    /// `true` or `false`
    Boolean(bool),
    /// A safe number from 0.
    Numeric(u64),
    /// A text.
    String(&'v str),
}

// What a regular expression is, by its pattern and flags.
#[tactic(auto, using(mini_accept::proofs::Texts::text_read))]
fn reg_exp(value: &Value) -> Option<LiteralValue<'_>>
    ensures { option_map shape_of result ≡ reg_exp (view value.now) }
{
    let pattern = text_at("pattern", value)?;
    let flags = text_at("flags", value)?;
    Some(LiteralValue::RegExp { pattern, flags })
}

/// The number of decimal digits, which is None past 2 ^ 128 - 1; None where the text is no such
/// digits.
pub fn digits_value(text: &str) -> Option<Option<u128>>
    ensures { result ≡ option_map capped (digits_value text.now) }
{
    let mut number = Some(0);
    for byte in text.as_bytes() {
        if !byte.is_ascii_digit() {
            return None;
        }
        number = with_digit(number, *byte - b'0');
    }
    if text.is_empty() { None } else { Some(number) }
}

// The number with a digit behind it.
fn with_digit(number: Option<u128>, digit: u8) -> Option<u128>
    requires { digit < 10 }
    ensures { (n : ℕ) → number ≡ capped n → result ≡ capped (n * 10 + digit) }
{
    number?.checked_mul(10)?.checked_add(u128::from(digit))
}

// What a literal of this value is.
fn value_literal(value: &Value) -> Option<LiteralValue<'_>>
    ensures { option_map shape_of result ≡ value_shape (Some (view value.now)) }
{
    match value {
        Value::Null => Some(LiteralValue::Null),
        Value::Bool(flag) => Some(LiteralValue::Boolean(*flag)),
        Value::Number(number) => Some(LiteralValue::Numeric(number.as_u64()?)),
        Value::String(text) => Some(LiteralValue::String(text.as_str())),
        Value::Array(_) => None,
        Value::Object(_) => None,
    }
}

// What a literal with the digits of a BigInt is.
fn big_int(value: &Value) -> Option<LiteralValue<'_>>
    ensures { option_map shape_of result ≡ big_int_shape (view value.now) }
{
    let digits = text_at("bigint", value)?;
    match digits_value(digits) {
        None => None,
        Some(_) => Some(LiteralValue::BigInt(digits)),
    }
}

/// What a literal is; None where it is none that is read.
pub fn literal(value: &Value) -> Option<LiteralValue<'_>>
    ensures { option_map shape_of result ≡ literal (view value.now) }
{
    if is_given("regex", value) {
        reg_exp(value.get("regex")?)
    } else if is_given("bigint", value) {
        big_int(value)
    } else {
        value_literal(value.get("value")?)
    }
}

// Whether the number is fractional, written as a float, or not safe.
fn is_unread_number(number: &Number) -> bool
    ensures { result ≡ is_unread_number (number_view number.now) }
{
    match number.as_u64() {
        Some(n) => n > MAX_SAFE_INTEGER,
        None => number.is_f64(),
    }
}

// Whether a null literal's text isn't null, so that it stands for a value that JSON can't write.
fn is_unread_raw(raw: Option<&Value>) -> bool
    ensures { result ≡ is_unread_raw (option_map (λ v. view v.now) raw.entry) }
{
    match raw {
        None => false,
        Some(raw) => match raw.as_str() {
            Some(text) => text != "null",
            None => true,
        },
    }
}

// Whether the literal's value isn't read.
fn is_unread_value(value: &Value) -> bool
    ensures { result ≡ is_unread_value (get (codes "value") (view value.now)) (get (codes "raw") (view value.now)) }
{
    match value.get("value") {
        Some(Value::Null) => is_unread_raw(value.get("raw")),
        Some(Value::Number(number)) => is_unread_number(number),
        _ => false,
    }
}

/// Whether the literal isn't read, though ESTree has it.
pub fn is_unread_literal(value: &Value) -> bool
    ensures { result ≡ is_unread_literal (view value.now) }
{
    if is_given("regex", value) {
        false
    } else if is_given("bigint", value) {
        is_unread_big_int(value)
    } else {
        is_unread_value(value)
    }
}

// Whether the BigInt has more than 128 bits.
fn is_unread_big_int(value: &Value) -> bool
    ensures { result ≡ unwrap_or (option_map (λ n. not (nat_le n max_big_int)) (big_int (view value.now))) false }
{
    match text_at("bigint", value) {
        None => false,
        Some(digits) => digits_value(digits) == Some(None),
    }
}

/// Whether the value is a literal of a text.
pub fn is_string_literal(value: &Value) -> bool
    ensures { result ≡ is_string_literal (view value.now) }
{
    has_type("Literal", value) && matches!(literal(value), Some(LiteralValue::String(_)))
}

/// Whether the value is a literal of a BigInt.
pub fn is_big_int_literal(value: &Value) -> bool
    ensures { result ≡ is_big_int_literal (view value.now) }
{
    has_type("Literal", value) && matches!(literal(value), Some(LiteralValue::BigInt(_)))
}

/// Whether the value is a literal that may be a key without brackets.
pub fn is_key_literal(value: &Value) -> bool
    ensures { result ≡ is_key_literal (view value.now) }
{
    has_type("Literal", value)
        && matches!(
            literal(value),
            Some(LiteralValue::String(_) | LiteralValue::Numeric(_) | LiteralValue::BigInt(_))
        )
}

/// The number above 0 that the value is a literal of: with a minus before it, it is one literal.
pub fn positive_number(value: &Value) -> Option<u64>
    ensures { option_map negative_literal result ≡ with_minus (view value.now) }
{
    if !has_type("Literal", value) {
        return None;
    }
    match literal(value) {
        Some(LiteralValue::Numeric(n)) if n > 0 => Some(n),
        _ => None,
    }
}
