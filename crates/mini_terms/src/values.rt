//! Values that are calculated, and their literals.

ghost use Rattle.std.specs.Prelude.{◌≡◌, Some, IfOk};
ghost use Rattle.mini_laws.specs.Value.{Boolean};
ghost use Rattle.mini_terms.specs.Plain.{lit};
ghost use Rattle.mini_terms.specs.Values.{value};

use mini_model::{OutOfMemory, Text, UnaryOperator};
use mini_node::{Node, null_literal, numeric_literal, string_literal, unary};
use std::alloc::Global;

/// A primitive value that is known from a text (ECMA-262, "ECMAScript Language Types").
#[derive(Drop)]
pub enum ConstantValue {
    /// `undefined`
    Undefined,
    /// `null`
    Null,
    /// `true` or `false`
    Boolean(bool),
    /// A whole number.
    Number(i64),
    /// A text.
    String(Text),
}

// `!0` for true, `!1` for false
fn negated_digit(alloc: Global, is_true: bool) -> Result<Node, OutOfMemory>
    ensures { IfOk result (λ n. lit (Boolean is_true) ≡ Some n) }
{
    let digit = if is_true { 0 } else { 1 };
    unary(
        alloc,
        UnaryOperator::LogicalNot,
        numeric_literal(alloc, digit),
    )
}

/// The literal of a value.
///
/// The only error is that memory runs out.
pub fn value_to_expr(alloc: Global, constant: ConstantValue) -> Result<Node, OutOfMemory>
    ensures { IfOk result (λ n. lit (value constant) ≡ Some n) }
{
    match constant {
        ConstantValue::Undefined => { unary(alloc, UnaryOperator::Void, numeric_literal(alloc, 0)) }
        ConstantValue::Null => Ok(null_literal(alloc)),
        ConstantValue::Boolean(value) => negated_digit(alloc, value),
        ConstantValue::Number(number) => Ok(numeric_literal(alloc, number)),
        ConstantValue::String(text) => Ok(string_literal(alloc, text)),
    }
}
