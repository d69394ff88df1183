//! What an equality of a result of `typeof` tells (16, 17): `typeof a == "text"` is `!1`, as no
//! text that `typeof` gives equals the other side (ECMA-262, "The typeof Operator").

ghost use Rattle.std.specs.Prelude.{◌≡◌, true, IfOk};
ghost use Rattle.mini_model.specs.Tree.{children, count};
ghost use Rattle.mini_model.specs.Position.{is_equality as is_it_equality};
ghost use Rattle.mini_rows.specs.Operators as row;
ghost use Rattle.mini_rows.specs.Spellings.{negated_digit as negated_digit_of};
ghost use Rattle.mini_held.specs.Types as types;

use mini_model::{BinaryOperator, OutOfMemory, Text, UnaryOperator};
use mini_node::{Node, negation, numeric_literal, string, unary_operator};
use mini_terms::{Kind, is_effect_free, kind_of, leaves_nothing};
use std::alloc::Global;

/// The UTF-16 units of `undefined`, which `typeof` gives of that value, and of a name that nobody
/// declares (ECMA-262, "The typeof Operator").
pub const UNDEFINED: [u16; 9] = [117, 110, 100, 101, 102, 105, 110, 101, 100];

// The UTF-16 units of the other texts that `typeof` gives, and of one that it gave of old.
const OBJECT: [u16; 6] = [111, 98, 106, 101, 99, 116];

const BOOLEAN: [u16; 7] = [98, 111, 111, 108, 101, 97, 110];

const NUMBER: [u16; 6] = [110, 117, 109, 98, 101, 114];

const STRING: [u16; 6] = [115, 116, 114, 105, 110, 103];

const SYMBOL: [u16; 6] = [115, 121, 109, 98, 111, 108];

const BIG_INT: [u16; 6] = [98, 105, 103, 105, 110, 116];

const FUNCTION: [u16; 8] = [102, 117, 110, 99, 116, 105, 111, 110];

const UNKNOWN: [u16; 7] = [117, 110, 107, 110, 111, 119, 110];

/// `!0` of true, `!1` of false. The only error is that memory runs out.
pub fn negated_digit(alloc: Global, truth: bool) -> Result<Node, OutOfMemory>
    ensures { IfOk result (λ w. w ≡ negated_digit_of truth) }
{
    let digit = if truth { 0 } else { 1 };
    negation(alloc, numeric_literal(alloc, digit))
}

/// Whether the expression is `typeof a`.
pub fn is_typeof(node: &Node) -> bool
    ensures kind { result ≡ types.is_typeof node.now }
    ensures parts { result ≡ true → count (children node.now) ≡ 1 }
{
    match unary_operator(node) {
        Some(UnaryOperator::Typeof) => true,
        _ => false,
    }
}

// Whether engines give the text as that of a type.
fn is_type_text(text: &Text) -> bool
    ensures { result ≡ row.is_type_text text.now }
{
    let units = text.as_slice();
    units == UNDEFINED.as_slice()
        || units == OBJECT.as_slice()
        || units == BOOLEAN.as_slice()
        || units == NUMBER.as_slice()
        || units == STRING.as_slice()
        || units == SYMBOL.as_slice()
        || units == BIG_INT.as_slice()
        || units == FUNCTION.as_slice()
        || units == UNKNOWN.as_slice()
}

// Whether its values are primitive, and no texts.
fn is_other_kind(kind: Kind) -> bool
    ensures { result ≡ row.is_other_kind kind }
{
    matches!(
        kind,
        Kind::Undefined | Kind::Null | Kind::Boolean | Kind::Number | Kind::BigInt
    )
}

// Whether no text that `typeof` gives equals it.
fn is_no_type(node: &Node) -> bool
    ensures { result ≡ row.is_no_type node.now }
{
    match string(node) {
        Some(text) => !is_type_text(text),
        None => is_other_kind(kind_of(node)),
    }
}

/// Whether `typeof` stands beside what none of its texts equals, where nothing is done and nothing
/// left behind. `asked` says that `this` is asked of the world, and so has an effect.
pub fn is_never_type(node: &Node, asked: bool) -> bool
    requires { count (children node.now) ≡ 2 }
    ensures { result ≡ types.is_never_type asked node.now }
{
    is_typeof(node.child(0))
        && is_no_type(node.child(1))
        && is_effect_free(node, asked)
        && leaves_nothing(node)
}

/// Whether the operator is `==`, `!=`, `===` or `!==`.
pub fn is_equality(operator: BinaryOperator) -> bool
    ensures { result ≡ is_it_equality operator }
{
    match operator {
        BinaryOperator::Equality
        | BinaryOperator::Inequality
        | BinaryOperator::StrictEquality
        | BinaryOperator::StrictInequality => true,
        _ => false,
    }
}

/// Whether the operator says that its sides are equal, and not that they aren't.
pub fn says_equal(operator: BinaryOperator) -> bool
    ensures { result ≡ row.says_equal operator }
{
    matches!(
        operator,
        BinaryOperator::Equality | BinaryOperator::StrictEquality
    )
}
