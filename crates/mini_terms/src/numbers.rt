//! Operators on whole numbers. What is no safe number, or is -0, has no value here.

ghost use Rattle.std.specs.Prelude.{◌≡◌, ◌<◌, ◌≤◌, ◌*◌, ◌/◌, ◌%◌, ◌^◌, ◌&&◌, ◌+ℤ◌, ◌-ℤ◌, true, Some, nat_abs, pos, negsuc};
ghost use Rattle.mini_laws.specs.Conversion as conversion;
ghost use Rattle.mini_laws.specs.Operators as operators;
ghost use Rattle.mini_terms.specs.Calculated.{calculated_numbers as calculated_of_numbers, over_number as over_number_of};
ghost use Rattle.mini_terms.specs.Const.{made};
ghost use Rattle.mini_terms.specs.Values.{value_in, number_in};

use crate::values::ConstantValue;
use mini_model::{BinaryOperator, UnaryOperator};

// The least number past the safe ones (ECMA-262, Number.MAX_SAFE_INTEGER).
const PAST_SAFE: u64 = 9_007_199_254_740_992;

fn is_safe(number: i64) -> bool
    ensures { result ≡ conversion.is_safe number }
{
    number.unsigned_abs() < PAST_SAFE
}

fn number(number: Option<i64>) -> Option<ConstantValue>
    ensures { value_in result ≡ number_in number }
{
    match number {
        Some(known) => Some(ConstantValue::Number(known)),
        None => None,
    }
}

// ECMA-262, "Number::add"
#[tactic(auto, using(crate::proofs::Arithmetic::sum_out, crate::proofs::Arithmetic::safe_number_is, crate::proofs::Arithmetic::unsafe_number_is))]
fn sum(left: i64, right: i64) -> Option<i64>
    ensures { number_in result ≡ made (operators.safe_number (left +ℤ right)) }
{
    match left.checked_add(right) {
        Some(total) if is_safe(total) => Some(total),
        _ => None,
    }
}

// ECMA-262, "Number::subtract"
#[tactic(auto, using(crate::proofs::Arithmetic::sum_out, crate::proofs::Arithmetic::safe_number_is, crate::proofs::Arithmetic::unsafe_number_is))]
fn difference(left: i64, right: i64) -> Option<i64>
    ensures { number_in result ≡ made (operators.safe_number (left -ℤ right)) }
{
    match left.checked_sub(right) {
        Some(total) if is_safe(total) => Some(total),
        _ => None,
    }
}

// The number of this size, with a minus or without.
#[tactic(auto, using(crate::proofs::Arithmetic::large_out, crate::proofs::Arithmetic::minus_zero, crate::proofs::Arithmetic::negative_is, crate::proofs::Arithmetic::positive_is))]
pub fn signed(is_negative: bool, size: u64) -> Option<i64>
    ensures { number_in result ≡ made (operators.number (conversion.signed is_negative size)) }
{
    if size >= PAST_SAFE {
        None
    } else if !is_negative {
        Some(size as i64)
    } else if size == 0 {
        None
    } else {
        Some(-(size as i64))
    }
}

#[tactic(auto, using(crate::proofs::Arithmetic::negative_test))]
fn is_negative(number: i64) -> bool
    ensures { result ≡ operators.is_negative number }
{
    number < 0
}

fn differ(left: bool, right: bool) -> bool
    ensures { result ≡ operators.differ left right }
{
    if left { !right } else { right }
}

// ECMA-262, "Number::multiply"
#[tactic(auto, using(crate::proofs::Arithmetic::large_out))]
fn product(left: i64, right: i64) -> Option<i64>
    ensures { number_in result ≡ made (operators.product left right) }
{
    match left.unsigned_abs().checked_mul(right.unsigned_abs()) {
        Some(size) => signed(differ(is_negative(left), is_negative(right)), size),
        None => None,
    }
}

// ECMA-262, "Number::divide"
#[tactic(auto, using(crate::proofs::Arithmetic::no_quotient, crate::proofs::Arithmetic::uneven_quotient, crate::proofs::Arithmetic::quotient_is))]
fn quotient(left: i64, right: i64) -> Option<i64>
    ensures { number_in result ≡ made (operators.quotient left right) }
{
    let dividend = left.unsigned_abs();
    let divisor = right.unsigned_abs();
    if divisor == 0 || dividend % divisor != 0 {
        return None;
    }
    signed(
        differ(is_negative(left), is_negative(right)),
        dividend / divisor,
    )
}

// ECMA-262, "Number::remainder"
#[tactic(auto, using(crate::proofs::Arithmetic::no_remainder, crate::proofs::Arithmetic::remainder_is))]
fn remainder(left: i64, right: i64) -> Option<i64>
    ensures { number_in result ≡ made (operators.remainder left right) }
{
    let divisor = right.unsigned_abs();
    if divisor == 0 {
        return None;
    }
    signed(is_negative(left), left.unsigned_abs() % divisor)
}

fn is_odd(number: u64) -> bool
    ensures { result ≡ operators.is_odd number }
{
    number % 2 == 1
}

// Of a base other than 0, 1 and -1 no power past the 53rd is safe.
fn small_exponent(exponent: u64) -> u32
    ensures { result ≡ operators.small_exponent exponent }
{
    if exponent < 54 {
        exponent as u32
    } else {
        (exponent % 2 + 2) as u32
    }
}

// The power, whose size is known.
fn raised(base: i64, exponent: u64) -> Option<i64>
    ensures { number_in result ≡ made (operators.number (conversion.signed (operators.is_negative base && operators.is_odd exponent) (nat_abs base ^ operators.small_exponent exponent))) }
{
    match base.unsigned_abs().checked_pow(small_exponent(exponent)) {
        Some(size) => signed(is_negative(base) && is_odd(exponent), size),
        None => None,
    }
}

// ECMA-262, "Number::exponentiate"
fn power(left: i64, right: i64) -> Option<i64>
    ensures { number_in result ≡ made (operators.power left right) }
{
    let exponent = right.unsigned_abs();
    if is_negative(right) {
        return if left.unsigned_abs() == 1 {
            signed(is_negative(left) && is_odd(exponent), 1)
        } else {
            None
        };
    }
    if left.unsigned_abs() <= 1 || exponent < 54 {
        raised(left, exponent)
    } else {
        None
    }
}

// ECMA-262, "ToUint32"
#[tactic(auto, using(crate::proofs::Arithmetic::modulo_positive, crate::proofs::Arithmetic::modulo_negative))]
fn modulo_32(number: i64) -> u64
    ensures value { result ≡ operators.modulo_32 number }
    ensures small { result < 4_294_967_296 }
{
    let size = number.unsigned_abs();
    if is_negative(number) {
        4_294_967_295 - (size - 1) % 4_294_967_296
    } else {
        size % 4_294_967_296
    }
}

// The number with this size and 1, below 0.
fn below_zero(size: u64) -> i64
    requires { size < 4_294_967_296 }
    ensures { result ≡ negsuc size }
{
    -((size + 1) as i64)
}

// ECMA-262, "ToInt32"
fn signed_32(number: u64) -> Option<i64>
    ensures { number_in result ≡ made (operators.signed_32 number) }
{
    if number < 2_147_483_648 {
        Some(number as i64)
    } else {
        Some(below_zero(4_294_967_295_u64.saturating_sub(number)))
    }
}

// Two to a shift count, which is modulo 32.
fn two_to(count: i64) -> u64
    ensures value { result ≡ operators.two_to count }
    ensures some { 0 < result }
    ensures small { result ≤ 2_147_483_648 }
{
    2_u64.pow((modulo_32(count) % 32) as u32)
}

// ECMA-262, "Number::leftShift"
fn shifted_left(left: i64, right: i64) -> Option<i64>
    ensures { number_in result ≡ made (operators.signed_32 (operators.modulo_32 left * operators.two_to right % 4_294_967_296)) }
{
    signed_32(modulo_32(left) * two_to(right) % 4_294_967_296)
}

// ECMA-262, "Number::signedRightShift"
fn shifted_right(left: i64, right: i64) -> Option<i64>
    ensures { number_in result ≡ made (operators.shifted_right (operators.modulo_32 left) (operators.two_to right)) }
{
    let number = modulo_32(left);
    let factor = two_to(right);
    if number < 2_147_483_648 {
        Some((number / factor) as i64)
    } else {
        Some(below_zero((4_294_967_295 - number) / factor))
    }
}

// ECMA-262, "Number::unsignedRightShift"
fn filled_right(left: i64, right: i64) -> i64
    ensures { result ≡ pos (operators.modulo_32 left / operators.two_to right) }
{
    (modulo_32(left) / two_to(right)) as i64
}

#[tactic(auto, using(crate::proofs::Arithmetic::less_is))]
fn is_less(left: i64, right: i64) -> bool
    ensures { result ≡ operators.is_less left right }
{
    left < right
}

/// Whether they are the same number.
#[tactic(auto, using(crate::proofs::Arithmetic::same_true, crate::proofs::Arithmetic::same_false))]
pub fn is_same(left: i64, right: i64) -> bool
    ensures { result ≡ operators.same_number left right }
{
    if left == right { true } else { false }
}

// ECMA-262, "Number::unaryMinus": -0 is no whole number
fn negated(number: i64) -> Option<i64>
    requires { conversion.is_safe number ≡ true }
    ensures { number_in result ≡ made (operators.negated number) }
{
    if number == 0 { None } else { Some(-number) }
}

// `+`, `-` or `~` of a safe number.
fn of_number(operator: UnaryOperator, operand: i64) -> Option<ConstantValue>
    requires { conversion.is_safe operand ≡ true }
    ensures { value_in result ≡ made (operators.of_number operator operand) }
{
    match operator {
        UnaryOperator::UnaryPlus => Some(ConstantValue::Number(operand)),
        UnaryOperator::UnaryNegation => number(negated(operand)),
        UnaryOperator::BitwiseNot => number(signed_32(4_294_967_295 - modulo_32(operand))),
        _ => None,
    }
}

/// `+`, `-` or `~` of a number, if it is safe.
pub fn over_number(operator: UnaryOperator, operand: i64) -> Option<ConstantValue>
    ensures { value_in result ≡ over_number_of operator (Some operand) }
{
    if is_safe(operand) {
        of_number(operator, operand)
    } else {
        None
    }
}

/// An operator of two numbers, but for equality (ECMA-262, "ApplyStringOrNumericBinaryOperator" and
/// "IsLessThan").
pub fn of_numbers(operator: BinaryOperator, left: i64, right: i64) -> Option<ConstantValue>
    ensures { value_in result ≡ made (operators.of_numbers operator left right) }
{
    let holds = match operator {
        BinaryOperator::Addition => return number(sum(left, right)),
        BinaryOperator::Subtraction => return number(difference(left, right)),
        BinaryOperator::Multiplication => return number(product(left, right)),
        BinaryOperator::Division => return number(quotient(left, right)),
        BinaryOperator::Remainder => return number(remainder(left, right)),
        BinaryOperator::Exponential => return number(power(left, right)),
        BinaryOperator::BitwiseAnd => {
            return number(signed_32(modulo_32(left) & modulo_32(right)));
        }
        BinaryOperator::BitwiseOr => return number(signed_32(modulo_32(left) | modulo_32(right))),
        BinaryOperator::BitwiseXor => {
            return number(signed_32(modulo_32(left) ^ modulo_32(right)));
        }
        BinaryOperator::ShiftLeft => return number(shifted_left(left, right)),
        BinaryOperator::ShiftRight => return number(shifted_right(left, right)),
        BinaryOperator::ShiftRightZeroFill => return number(Some(filled_right(left, right))),
        BinaryOperator::LessThan => is_less(left, right),
        BinaryOperator::GreaterThan => is_less(right, left),
        BinaryOperator::LessEqualThan => !is_less(right, left),
        BinaryOperator::GreaterEqualThan => !is_less(left, right),
        _ => return None,
    };
    Some(ConstantValue::Boolean(holds))
}

/// An operator of two numbers, as far as it is calculated.
pub fn calculated_numbers(operator: BinaryOperator, left: i64, right: i64) -> Option<ConstantValue>
    ensures { value_in result ≡ calculated_of_numbers operator left right }
{
    match operator {
        BinaryOperator::Equality | BinaryOperator::StrictEquality => {
            Some(ConstantValue::Boolean(is_same(left, right)))
        }
        BinaryOperator::Inequality | BinaryOperator::StrictInequality => {
            Some(ConstantValue::Boolean(!is_same(left, right)))
        }
        _ => of_numbers(operator, left, right),
    }
}
