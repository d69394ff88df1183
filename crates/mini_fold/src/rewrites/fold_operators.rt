//! Rows 2, 8, 16, 17 and 56: an operator whose value is told by its operands, or that does alike
//! without a part of them. `delete a()` becomes `a(), !0`, `typeof x == typeof x` becomes `!0`,
//! `typeof a == null` becomes `!1`, `+a * 2` becomes `a * 2`, and `a & 6 & 3` becomes `a & 2`. What
//! is written is lighter in every place.

ghost use Rattle.std.specs.Prelude.{◌≡◌, true, is_some, unwrap_or, option_copied, length, OnOk, IfOk};
ghost use Rattle.std.specs.Fmt.{signed_decimal};
ghost use Rattle.mini_model.specs.Tree.{children, count};
ghost use Rattle.mini_node.specs.Children.{part};
ghost use Rattle.mini_node.specs.Kinds.{unary_operator as its_unary_operator, binary_operator as its_binary_operator};
ghost use Rattle.mini_terms.specs.Kind.{is_number as is_number_of};
ghost use Rattle.mini_rows.specs.ChainLinks.{is_lone as is_it_lone};
ghost use Rattle.mini_rows.specs.Choices.{pair};
ghost use Rattle.mini_rows.specs.Operators as row;
ghost use Rattle.mini_rows.specs.Spellings.{negated_digit as negated_digit_of};
ghost use Rattle.mini_fold.specs.FoldOperators as tree;
ghost use Rattle.mini_terms.specs.Values.{value_in};

use mini_held::{is_equality, is_never_type, is_typeof, negated_digit, says_equal};
use mini_model::{BinaryOperator, OutOfMemory, Shape, UnaryOperator, decimal};
use mini_node::{
    Node, binary_operator, discard, is_identifier, is_same_tree, number, of_two, one, sequence,
    taken, unary_operator,
};
use mini_terms::{
    ConstantValue, Kind, calculated_numbers, has_no_effect, kind_of, leaves_nothing, operand_value,
    stands,
};
use std::alloc::Global;

// `a, !0`
fn then_true(alloc: Global, operand: Node) -> Result<Node, OutOfMemory>
    ensures { IfOk result (λ w. w ≡ pair operand (negated_digit_of true)) }
{
    let last = negated_digit(alloc, true)?;
    sequence(alloc, of_two(alloc, operand, last)?)
}

// What `delete` of a value gives, after what the value does.
fn deleted(alloc: Global, operand: Node) -> Result<Node, OutOfMemory>
    ensures { IfOk result (λ w. w ≡ row.deleted operand) }
{
    if has_no_effect(&operand) && leaves_nothing(&operand) {
        discard(operand);
        return negated_digit(alloc, true);
    }
    then_true(alloc, operand)
}

// What has no reference: what is read by its value alone, a function, a class or a BigInt.
fn is_lone(node: &Node) -> bool
    ensures { result ≡ is_it_lone node.now }
{
    match node.shape() {
        Shape::Function(false, _, _) | Shape::Class(false) | Shape::BigIntLiteral(_) => true,
        _ => stands(node),
    }
}

/// `delete a()` becomes `a(), !0`. The answer says whether it did; the only error is that memory
/// runs out, and then the expression is fit only to be dropped.
pub fn fold_delete(alloc: Global, node: &mut Node) -> Result<bool, OutOfMemory>
    ensures tree { OnOk result (node.new ≡ unwrap_or (tree.delete_written (its_unary_operator node.old) (part node.old 0)) node.old) }
    ensures said { IfOk result (λ changed. changed ≡ is_some (tree.delete_written (its_unary_operator node.old) (part node.old 0))) }
{
    match unary_operator(node) {
        Some(UnaryOperator::Delete) if is_lone(node.child(0)) => {
            *node = deleted(alloc, one(taken(alloc, node)))?;
            Ok(true)
        }
        _ => Ok(false),
    }
}

// Whether both are `typeof` of one name.
fn are_types_same(left: &Node, right: &Node) -> bool
    ensures { result ≡ tree.are_types_same left.now right.now }
{
    is_typeof(left) && is_identifier(left.child(0)) && is_same_tree(left, right)
}

// What an equality tells whose sides are equal, or never are.
fn told_of(node: &Node, operator: BinaryOperator) -> Option<bool>
    requires { count (children node.now) ≡ 2 }
    ensures { result ≡ tree.told_by operator (tree.are_types_same (part node.now 0) (part node.now 1)) (tree.is_never_type true node.now) }
{
    if are_types_same(node.child(0), node.child(1)) {
        return Some(says_equal(operator));
    }
    if is_never_type(node, true) {
        return Some(!says_equal(operator));
    }
    None
}

/// What an equality of the results of `typeof` tells, as far as it is known.
pub fn told_by_types(node: &Node, operator: BinaryOperator) -> Option<bool>
    requires { count (children node.now) ≡ 2 }
    ensures { result ≡ tree.told operator node.now }
{
    if is_equality(operator) {
        told_of(node, operator)
    } else {
        None
    }
}

// Whether it makes numbers of its operands, the left one first, whatever they are.
fn makes_numbers(operator: BinaryOperator) -> bool
    ensures { result ≡ row.makes_numbers operator }
{
    match operator {
        BinaryOperator::Subtraction
        | BinaryOperator::Multiplication
        | BinaryOperator::Division
        | BinaryOperator::Remainder
        | BinaryOperator::Exponential
        | BinaryOperator::BitwiseAnd
        | BinaryOperator::BitwiseXor
        | BinaryOperator::BitwiseOr
        | BinaryOperator::ShiftLeft
        | BinaryOperator::ShiftRight
        | BinaryOperator::ShiftRightZeroFill => true,
        _ => false,
    }
}

fn is_plus(node: &Node) -> bool
    ensures kind { result ≡ tree.is_plus node.now }
    ensures parts { result ≡ true → count (children node.now) ≡ 1 }
{
    match unary_operator(node) {
        Some(UnaryOperator::UnaryPlus) => true,
        _ => false,
    }
}

fn is_number_kind(kind: Kind) -> bool
    ensures { result ≡ is_number_of kind }
{
    matches!(kind, Kind::Number)
}

fn is_number_value(value: &Option<ConstantValue>) -> bool
    ensures { result ≡ tree.is_number_value (value_in value.now) }
{
    matches!(value, Some(ConstantValue::Number(_)))
}

/// Whether the plus of `+a * 2` goes.
///
/// The only error is that memory runs out.
pub fn drops_left(
    alloc: Global,
    operator: BinaryOperator,
    left: &Node,
    right: &Node,
) -> Result<bool, OutOfMemory>
    ensures { IfOk result (λ drops. drops ≡ tree.drops_left operator left.now right.now) }
{
    if is_plus(left) && makes_numbers(operator) {
        let value = operand_value(alloc, right)?;
        Ok(is_number_value(&value))
    } else {
        Ok(false)
    }
}

/// Whether the plus of `2 * +a` goes.
pub fn drops_right(operator: BinaryOperator, left: &Node, right: &Node) -> bool
    ensures { result ≡ tree.drops_right operator left.now right.now }
{
    is_plus(right) && makes_numbers(operator) && is_number_kind(kind_of(left))
}

/// Whether this operator of bits stands over the same one.
pub fn holds_bitwise(operator: BinaryOperator, node: &Node) -> bool
    ensures kind { result ≡ tree.holds_bitwise operator (its_binary_operator node.now) }
    ensures parts { result ≡ true → count (children node.now) ≡ 2 }
{
    match (operator, binary_operator(node)) {
        (BinaryOperator::BitwiseAnd, Some(BinaryOperator::BitwiseAnd)) => true,
        (BinaryOperator::BitwiseXor, Some(BinaryOperator::BitwiseXor)) => true,
        (BinaryOperator::BitwiseOr, Some(BinaryOperator::BitwiseOr)) => true,
        _ => false,
    }
}

fn number_of(value: Option<ConstantValue>) -> Option<i64>
    ensures { result ≡ tree.number_of (value_in value) }
{
    match value {
        Some(ConstantValue::Number(number)) => Some(number),
        _ => None,
    }
}

fn decimal_length(alloc: Global, number: i64) -> Result<usize, OutOfMemory>
    ensures { IfOk result (λ n. n ≡ length (signed_decimal number)) }
{
    Ok(decimal(alloc, number)?.len())
}

// Whether the first is no longer in decimals than the other two together.
fn is_short(alloc: Global, joined: i64, first: i64, second: i64) -> Result<bool, OutOfMemory>
    ensures { IfOk result (λ short. short ≡ row.is_short joined first second) }
{
    let length = decimal_length(alloc, joined)?;
    let before = decimal_length(alloc, first)?;
    Ok(length.saturating_sub(before) <= decimal_length(alloc, second)?)
}

fn shortened(
    alloc: Global,
    joined: Option<i64>,
    first: i64,
    second: i64,
) -> Result<Option<i64>, OutOfMemory>
    ensures { IfOk result (λ number. number ≡ tree.shortened joined first second) }
{
    let Some(number) = joined else {
        return Ok(None);
    };
    if is_short(alloc, number, first, second)? {
        Ok(Some(number))
    } else {
        Ok(None)
    }
}

/// What an operator makes of two numbers, where it is no longer than they are.
///
/// The only error is that memory runs out.
pub fn masked(
    alloc: Global,
    operator: BinaryOperator,
    first: Option<i64>,
    second: Option<i64>,
) -> Result<Option<i64>, OutOfMemory>
    ensures { IfOk result (λ number. number ≡ tree.masked operator first second) }
{
    match (first, second) {
        (Some(one), Some(other)) => {
            let joined = number_of(calculated_numbers(operator, one, other));
            shortened(alloc, joined, one, other)
        }
        _ => Ok(None),
    }
}
