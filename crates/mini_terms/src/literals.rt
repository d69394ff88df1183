//! The value of operators over literals.

ghost use Rattle.std.specs.Prelude.{◌≡◌, ◌<◌, ◌++◌, ◌&&◌, true, false, not, Some, None, IfOk};
ghost use Rattle.mini_model.specs.declared.operator.BinaryOperator.TheVariants.{Addition};
ghost use Rattle.mini_model.specs.Tree.{children, count, shape_of};
ghost use Rattle.mini_model.specs.Weight.{same_text};
ghost use Rattle.mini_node.specs.Children.{part};
ghost use Rattle.mini_node.specs.Kinds.{is_sequence as is_it_sequence};
ghost use Rattle.mini_laws.specs.Value.{Boolean, Number, String, choose, truth, is_nullish as is_it_nullish};
ghost use Rattle.mini_laws.specs.Conversion.{makes, to_text as text_of};
ghost use Rattle.mini_laws.specs.Operators as operators;
ghost use Rattle.mini_laws.specs.Operators.{is_text_less, type_text};
ghost use Rattle.mini_terms.specs.Calculated as term;
ghost use Rattle.mini_terms.specs.Const.{text_of as text_in, made, mapped, decided as chosen_of, binary_value as operated, binary_const, logical_const, conditional_const};
ghost use Rattle.mini_terms.specs.Templates as template;
ghost use Rattle.mini_terms.specs.Templates.{is_template as is_it_template};
ghost use Rattle.mini_terms.specs.Texts as order;
ghost use Rattle.mini_terms.specs.Texts.{is_sum, equal_numbers, equal_present};
ghost use Rattle.mini_terms.specs.Values.{value as value_of, value_in, is_text_value};

use crate::evident::are_round;
use crate::folds::has_no_effect;
use crate::names::is_undefined_name;
use crate::numbers::{is_same, of_numbers, over_number};
use crate::texts::text_number;
use crate::values::ConstantValue;
use mini_model::{
    BinaryOperator, LogicalOperator, OutOfMemory, Shape, Text, UnaryOperator, decimal,
};
use mini_node::{
    Node, Nodes, binary_operator, is_conditional, is_listed, is_sequence, logical_operator,
    unary_operator,
};
use std::alloc::Global;

// The units of these words.
const UNDEFINED: [u16; 9] = [117, 110, 100, 101, 102, 105, 110, 101, 100];

const NULL: [u16; 4] = [110, 117, 108, 108];

const TRUE: [u16; 4] = [116, 114, 117, 101];

const FALSE: [u16; 5] = [102, 97, 108, 115, 101];

const OBJECT: [u16; 6] = [111, 98, 106, 101, 99, 116];

const BOOLEAN: [u16; 7] = [98, 111, 111, 108, 101, 97, 110];

const NUMBER: [u16; 6] = [110, 117, 109, 98, 101, 114];

const STRING: [u16; 6] = [115, 116, 114, 105, 110, 103];

// How many operators are looked through, one within another.
const OPERAND_DEPTH: u32 = 8;

/// The text with these units.
pub fn copied(alloc: Global, units: &[u16]) -> Result<Text, OutOfMemory>
    ensures { IfOk result (λ copy. copy ≡ units.now) }
{
    let mut copy = Text::new(alloc);
    for unit in units {
        copy.push(*unit)?;
    }
    Ok(copy)
}

// A text with these units behind it.
pub fn extended(mut text: Text, units: &[u16]) -> Result<Text, OutOfMemory>
    ensures { IfOk result (λ whole. whole ≡ text ++ units.now) }
{
    for unit in units {
        text.push(*unit)?;
    }
    Ok(text)
}

/// A text and another behind it.
pub fn text_of_both(alloc: Global, before: &[u16], after: Text) -> Result<Text, OutOfMemory>
    ensures { IfOk result (λ text. text ≡ before.now ++ after) }
{
    let mut text = copied(alloc, before)?;
    for unit in after.as_slice() {
        text.push(*unit)?;
    }
    Ok(text)
}

/// Undefined where the condition holds; else no value is known.
pub fn undefined_if(condition: bool) -> Option<ConstantValue>
    ensures { value_in result ≡ term.undefined_if condition }
{
    if condition {
        Some(ConstantValue::Undefined)
    } else {
        None
    }
}

// Of a literal, and of the name `undefined`, which no scope declares.
fn leaf_value(alloc: Global, node: &Node) -> Result<Option<ConstantValue>, OutOfMemory>
    ensures { IfOk result (λ v. value_in v ≡ term.leaf_value node.now) }
{
    match node.shape() {
        Shape::Identifier => Ok(undefined_if(is_undefined_name(node.name()))),
        Shape::NumericLiteral(number) => Ok(Some(ConstantValue::Number(*number))),
        Shape::StringLiteral(text) => Ok(Some(ConstantValue::String(copied(
            alloc,
            text.as_slice(),
        )?))),
        Shape::BooleanLiteral(value) => Ok(Some(ConstantValue::Boolean(*value))),
        Shape::NullLiteral => Ok(Some(ConstantValue::Null)),
        _ => Ok(None),
    }
}

/// Whether a value counts as true (ECMA-262, "ToBoolean").
pub fn is_true(value: &ConstantValue) -> bool
    ensures { result ≡ truth (value_of value.now) }
{
    match value {
        ConstantValue::Undefined | ConstantValue::Null => false,
        ConstantValue::Boolean(holds) => *holds,
        ConstantValue::Number(number) => is_other_than_zero(*number),
        ConstantValue::String(text) => !text.is_empty(),
    }
}

// A number other than 0.
fn is_other_than_zero(number: i64) -> bool
    ensures { result ≡ truth (Number number) }
{
    number != 0
}

// ECMA-262, "The typeof Operator"
fn type_units(value: &ConstantValue) -> &'static [u16]
    ensures { result.now ≡ type_text (value_of value.now) }
{
    match value {
        ConstantValue::Undefined => &UNDEFINED,
        ConstantValue::Null => &OBJECT,
        ConstantValue::Boolean(_) => &BOOLEAN,
        ConstantValue::Number(_) => &NUMBER,
        ConstantValue::String(_) => &STRING,
    }
}

fn type_text_of(alloc: Global, value: &ConstantValue) -> Result<Option<ConstantValue>, OutOfMemory>
    ensures { IfOk result (λ v. value_in v ≡ Some (String (type_text (value_of value.now)))) }
{
    Ok(Some(ConstantValue::String(copied(alloc, type_units(value))?)))
}

// The number of a value, if that is whole and safe (ECMA-262, "ToNumber").
fn as_number(value: &ConstantValue) -> Option<i64>
    ensures { result ≡ term.as_number (value_of value.now) }
{
    match value {
        ConstantValue::Undefined => None,
        ConstantValue::Null | ConstantValue::Boolean(false) => Some(0),
        ConstantValue::Boolean(true) => Some(1),
        ConstantValue::Number(number) => Some(*number),
        ConstantValue::String(text) => text_number(text.as_slice()),
    }
}

fn over_value(operator: UnaryOperator, operand: &ConstantValue) -> Option<ConstantValue>
    ensures { value_in result ≡ term.over_number operator (term.as_number (value_of operand.now)) }
{
    match as_number(operand) {
        Some(number) => over_number(operator, number),
        None => None,
    }
}

// Of an operator over a value.
pub fn calculated_unary(
    alloc: Global,
    operator: UnaryOperator,
    operand: &ConstantValue,
) -> Result<Option<ConstantValue>, OutOfMemory>
    ensures { IfOk result (λ v. value_in v ≡ term.calculated_unary operator (value_of operand.now)) }
{
    match operator {
        UnaryOperator::Void => Ok(Some(ConstantValue::Undefined)),
        UnaryOperator::LogicalNot => Ok(Some(ConstantValue::Boolean(!is_true(operand)))),
        UnaryOperator::Typeof => type_text_of(alloc, operand),
        _ => Ok(over_value(operator, operand)),
    }
}

fn is_same_text(left: &Text, right: &Text) -> bool
    ensures { result ≡ same_text left.now right.now }
{
    left.as_slice() == right.as_slice()
}

// ECMA-262, "IsLessThan", of two texts: by units.

fn is_less(left: &[u16], right: &[u16]) -> bool
    ensures { result ≡ is_text_less left.now right.now }
{
    for at in 0..left.len() {
        if at >= right.len() {
            return false;
        }
        if left[at] != right[at] {
            return left[at] < right[at];
        }
    }
    left.len() < right.len()
}

fn is_less_text(left: &Text, right: &Text) -> bool
    ensures { result ≡ is_text_less left.now right.now }
{
    is_less(left.as_slice(), right.as_slice())
}

// ECMA-262, "ApplyStringOrNumericBinaryOperator"
fn joined(mut left: Text, right: Text) -> Result<Option<ConstantValue>, OutOfMemory>
    ensures { IfOk result (λ v. value_in v ≡ Some (String (left ++ right))) }
{
    for unit in right.as_slice() {
        left.push(*unit)?;
    }
    Ok(Some(ConstantValue::String(left)))
}

/// The text of a value (ECMA-262, "ToString").
///
/// The only error is that memory runs out.
pub fn to_text(alloc: Global, value: ConstantValue) -> Result<Text, OutOfMemory>
    ensures { IfOk result (λ text. makes text ≡ text_of (value_of value)) }
{
    match value {
        ConstantValue::Undefined => copied(alloc, &UNDEFINED),
        ConstantValue::Null => copied(alloc, &NULL),
        ConstantValue::Boolean(true) => copied(alloc, &TRUE),
        ConstantValue::Boolean(false) => copied(alloc, &FALSE),
        ConstantValue::Number(number) => decimal(alloc, number),
        ConstantValue::String(text) => Ok(text),
    }
}

/// Whether the value is a text.
pub fn is_text(value: &ConstantValue) -> bool
    ensures { result ≡ is_text_value (value_of value.now) }
{
    matches!(value, ConstantValue::String(_))
}

// An operator of two values that are made numbers.
#[tactic(auto, using(crate::proofs::Mixed::of_two_numbers, crate::proofs::Mixed::no_left_number, crate::proofs::Mixed::no_right_number))]
fn by_numbers(
    operator: BinaryOperator,
    left: &ConstantValue,
    right: &ConstantValue,
) -> Option<ConstantValue>
    ensures { value_in result ≡ made (operators.by_numbers operator (value_of left.now) (value_of right.now)) }
{
    match (as_number(left), as_number(right)) {
        (Some(first), Some(second)) => of_numbers(operator, first, second),
        _ => None,
    }
}

// `+`, which makes a text of the other side where one is a text.
#[tactic(auto, using(crate::proofs::Mixed::texts_added, crate::proofs::Mixed::numbers_added))]
fn added(
    alloc: Global,
    left: ConstantValue,
    right: ConstantValue,
) -> Result<Option<ConstantValue>, OutOfMemory>
    ensures { IfOk result (λ v. value_in v ≡ operated Addition (value_of left) (value_of right)) }
{
    if is_text(&left) || is_text(&right) {
        joined(to_text(alloc, left)?, to_text(alloc, right)?)
    } else {
        Ok(by_numbers(BinaryOperator::Addition, &left, &right))
    }
}

// An order of two texts, by units.
fn order_of_texts(operator: BinaryOperator, left: &Text, right: &Text) -> Option<bool>
    ensures { result ≡ order.order_of_texts operator left.now right.now }
{
    match operator {
        BinaryOperator::LessThan => Some(is_less_text(left, right)),
        BinaryOperator::GreaterThan => Some(is_less_text(right, left)),
        BinaryOperator::LessEqualThan => Some(!is_less_text(right, left)),
        BinaryOperator::GreaterEqualThan => Some(!is_less_text(left, right)),
        _ => None,
    }
}

fn order_of(operator: BinaryOperator, left: &ConstantValue, right: &ConstantValue) -> Option<bool>
    ensures { result ≡ order.order_of operator (value_of left.now) (value_of right.now) }
{
    match (left, right) {
        (ConstantValue::String(first), ConstantValue::String(second)) => {
            order_of_texts(operator, first, second)
        }
        _ => None,
    }
}

// Of any operator but `+` and those of equality.
#[tactic(auto, using(crate::proofs::Mixed::texts_ordered, crate::proofs::Mixed::numbers_ordered))]
fn ordered(
    operator: BinaryOperator,
    left: &ConstantValue,
    right: &ConstantValue,
) -> Option<ConstantValue>
    requires { is_sum operator ≡ false }
    ensures { value_in result ≡ made (operators.of_primitives operator (value_of left.now) (value_of right.now)) }
{
    match order_of(operator, left, right) {
        Some(holds) => Some(ConstantValue::Boolean(holds)),
        None => by_numbers(operator, left, right),
    }
}

/// Whether the value is undefined or null.
pub fn is_nullish(value: &ConstantValue) -> bool
    ensures { result ≡ is_it_nullish (value_of value.now) }
{
    matches!(value, ConstantValue::Undefined | ConstantValue::Null)
}

/// ECMA-262, "IsStrictlyEqual".
pub fn strictly_equal(left: &ConstantValue, right: &ConstantValue) -> bool
    ensures { result ≡ operators.strictly_equal (value_of left.now) (value_of right.now) }
{
    match (left, right) {
        (ConstantValue::Undefined, ConstantValue::Undefined) => true,
        (ConstantValue::Null, ConstantValue::Null) => true,
        (ConstantValue::Boolean(first), ConstantValue::Boolean(second)) => *first == *second,
        (ConstantValue::Number(first), ConstantValue::Number(second)) => is_same(*first, *second),
        (ConstantValue::String(first), ConstantValue::String(second)) => {
            is_same_text(first, second)
        }
        _ => false,
    }
}

// Of values that are made numbers.
fn equal_as_numbers(left: &ConstantValue, right: &ConstantValue) -> Option<bool>
    ensures { result ≡ equal_numbers (term.as_number (value_of left.now)) (term.as_number (value_of right.now)) }
{
    match (as_number(left), as_number(right)) {
        (Some(first), Some(second)) => Some(is_same(first, second)),
        _ => None,
    }
}

// Of values that are neither undefined nor null.
fn equal_counted(left: &ConstantValue, right: &ConstantValue) -> Option<bool>
    ensures { result ≡ equal_present (value_of left.now) (value_of right.now) }
{
    if is_text(left) && is_text(right) {
        Some(strictly_equal(left, right))
    } else {
        equal_as_numbers(left, right)
    }
}

// ECMA-262, "IsLooselyEqual"
#[tactic(auto, using(crate::proofs::Mixed::loosely_is))]
fn loosely_equal(left: &ConstantValue, right: &ConstantValue) -> Option<bool>
    ensures { result ≡ operators.loosely_equal (value_of left.now) (value_of right.now) }
{
    if is_nullish(left) {
        Some(is_nullish(right))
    } else if is_nullish(right) {
        Some(false)
    } else {
        equal_counted(left, right)
    }
}

fn boolean(holds: Option<bool>) -> Option<ConstantValue>
    ensures { value_in result ≡ mapped (λ c. c) holds }
{
    match holds {
        Some(known) => Some(ConstantValue::Boolean(known)),
        None => None,
    }
}

fn negated(holds: Option<bool>) -> Option<ConstantValue>
    ensures { value_in result ≡ mapped not holds }
{
    match holds {
        Some(known) => Some(ConstantValue::Boolean(!known)),
        None => None,
    }
}

/// An operator of two values, as far as it is calculated.
///
/// The only error is that memory runs out.
pub fn calculated_binary(
    alloc: Global,
    operator: BinaryOperator,
    left: ConstantValue,
    right: ConstantValue,
) -> Result<Option<ConstantValue>, OutOfMemory>
    ensures { IfOk result (λ v. value_in v ≡ operated operator (value_of left) (value_of right)) }
{
    match operator {
        BinaryOperator::Addition => added(alloc, left, right),
        BinaryOperator::Equality => Ok(boolean(loosely_equal(&left, &right))),
        BinaryOperator::Inequality => Ok(negated(loosely_equal(&left, &right))),
        BinaryOperator::StrictEquality => {
            Ok(Some(ConstantValue::Boolean(strictly_equal(&left, &right))))
        }
        BinaryOperator::StrictInequality => {
            Ok(Some(ConstantValue::Boolean(!strictly_equal(&left, &right))))
        }
        BinaryOperator::In | BinaryOperator::Instanceof => Ok(None),
        _ => Ok(ordered(operator, &left, &right)),
    }
}

// ---- operands

#[cycle(operands)]
fn unary_value(
    alloc: Global,
    is_free: bool,
    operator: UnaryOperator,
    operand: &Node,
    depth: u32,
) -> Result<Option<ConstantValue>, OutOfMemory>
    ensures { IfOk result (λ v. value_in v ≡ term.unary_value is_free operator (term.value_within is_free depth operand.now)) }
{
    if is_free && matches!(operator, UnaryOperator::Void) {
        return Ok(Some(ConstantValue::Undefined));
    }
    match value_within(alloc, is_free, operand, depth)? {
        Some(found) => calculated_unary(alloc, operator, &found),
        None => Ok(None),
    }
}

#[cycle(operands)]
fn binary_with(
    alloc: Global,
    is_free: bool,
    operator: BinaryOperator,
    left: ConstantValue,
    right: &Node,
    depth: u32,
) -> Result<Option<ConstantValue>, OutOfMemory>
    ensures { IfOk result (λ v. value_in v ≡ binary_const operator (Some (value_of left)) (term.value_within is_free depth right.now)) }
{
    match value_within(alloc, is_free, right, depth)? {
        Some(found) => calculated_binary(alloc, operator, left, found),
        None => Ok(None),
    }
}

#[cycle(operands)]
fn binary_value(
    alloc: Global,
    is_free: bool,
    operator: BinaryOperator,
    node: &Node,
    depth: u32,
) -> Result<Option<ConstantValue>, OutOfMemory>
    requires { count (children node.now) ≡ 2 }
    ensures { IfOk result (λ v. value_in v ≡ binary_const operator (term.value_within is_free depth (part node.now 0)) (term.value_within is_free depth (part node.now 1))) }
{
    match value_within(alloc, is_free, node.child(0), depth)? {
        Some(found) => binary_with(alloc, is_free, operator, found, node.child(1), depth),
        None => Ok(None),
    }
}

// Of a unary or binary operator over operands in which so many operators lie one within another.
#[cycle(operands)]
fn calculated_over(
    alloc: Global,
    is_free: bool,
    node: &Node,
    depth: u32,
) -> Result<Option<ConstantValue>, OutOfMemory>
    ensures { IfOk result (λ v. value_in v ≡ term.calculated_over is_free (term.value_within is_free depth) node.now) }
{
    if let Some(operator) = unary_operator(node) {
        return unary_value(alloc, is_free, operator, node.child(0), depth);
    }
    if let Some(operator) = binary_operator(node) {
        return binary_value(alloc, is_free, operator, node, depth);
    }
    Ok(None)
}

// Which of two values a logical operator gives.
pub fn decided(
    operator: LogicalOperator,
    left: ConstantValue,
    right: ConstantValue,
) -> ConstantValue
    ensures { value_of result ≡ chosen_of operator (value_of left) (value_of right) }
{
    let takes_right = match operator {
        LogicalOperator::And => is_true(&left),
        LogicalOperator::Or => !is_true(&left),
        LogicalOperator::Coalesce => is_nullish(&left),
    };
    if takes_right { right } else { left }
}

#[cycle(operands)]
fn logical_with(
    alloc: Global,
    is_free: bool,
    operator: LogicalOperator,
    left: ConstantValue,
    right: &Node,
    depth: u32,
) -> Result<Option<ConstantValue>, OutOfMemory>
    ensures { IfOk result (λ v. value_in v ≡ logical_const operator (Some (value_of left)) (term.value_within is_free depth right.now)) }
{
    match value_within(alloc, is_free, right, depth)? {
        Some(found) => Ok(Some(decided(operator, left, found))),
        None => Ok(None),
    }
}

#[cycle(operands)]
fn logical_value(
    alloc: Global,
    is_free: bool,
    operator: LogicalOperator,
    node: &Node,
    depth: u32,
) -> Result<Option<ConstantValue>, OutOfMemory>
    requires { count (children node.now) ≡ 2 }
    ensures { IfOk result (λ v. value_in v ≡ logical_const operator (term.value_within is_free depth (part node.now 0)) (term.value_within is_free depth (part node.now 1))) }
{
    match value_within(alloc, is_free, node.child(0), depth)? {
        Some(found) => logical_with(alloc, is_free, operator, found, node.child(1), depth),
        None => Ok(None),
    }
}

// The branch that a test's truth tells, where both have a value.
pub fn branch(
    is_true: bool,
    consequent: Option<ConstantValue>,
    alternate: Option<ConstantValue>,
) -> Option<ConstantValue>
    ensures { value_in result ≡ conditional_const (Some (Boolean is_true)) (value_in consequent) (value_in alternate) }
{
    match (consequent, alternate) {
        (Some(first), Some(second)) => { if is_true { Some(first) } else { Some(second) } }
        _ => None,
    }
}

#[cycle(operands)]
fn branches_value(
    alloc: Global,
    is_free: bool,
    is_true: bool,
    node: &Node,
    depth: u32,
) -> Result<Option<ConstantValue>, OutOfMemory>
    requires { count (children node.now) ≡ 3 }
    ensures { IfOk result (λ v. value_in v ≡ conditional_const (Some (Boolean is_true)) (term.value_within is_free depth (part node.now 1)) (term.value_within is_free depth (part node.now 2))) }
{
    let consequent = value_within(alloc, is_free, node.child(1), depth)?;
    let alternate = value_within(alloc, is_free, node.child(2), depth)?;
    Ok(branch(is_true, consequent, alternate))
}

#[cycle(operands)]
fn conditional_value(
    alloc: Global,
    is_free: bool,
    node: &Node,
    depth: u32,
) -> Result<Option<ConstantValue>, OutOfMemory>
    requires { count (children node.now) ≡ 3 }
    ensures { IfOk result (λ v. value_in v ≡ conditional_const (term.value_within is_free depth (part node.now 0)) (term.value_within is_free depth (part node.now 1)) (term.value_within is_free depth (part node.now 2))) }
{
    match value_within(alloc, is_free, node.child(0), depth)? {
        Some(found) => branches_value(alloc, is_free, is_true(&found), node, depth),
        None => Ok(None),
    }
}

// Of the last of some nodes.
#[cycle(operands)]
#[tactic(auto, using(crate::proofs::Deep::last_of, crate::proofs::Deep::none_last))]
fn last_value(
    alloc: Global,
    is_free: bool,
    nodes: &Nodes,
    depth: u32,
) -> Result<Option<ConstantValue>, OutOfMemory>
    ensures { IfOk result (λ v. value_in v ≡ term.last_value (term.value_within is_free depth) nodes.now) }
{
    let count = nodes.len();
    if count == 0 {
        return Ok(None);
    }
    value_within(alloc, is_free, nodes.child(count - 1), depth)
}

// ---- templates

fn is_template(node: &Node) -> bool
    ensures kind { result ≡ is_it_template node.now }
    ensures parts { result ≡ true → count (children node.now) ≡ 2 }
{
    matches!(node.shape(), Shape::TemplateLiteral)
        && node.is_bare(2)
        && is_listed(node.child(0))
        && is_listed(node.child(1))
}

// What is known up to here, with one more piece.
pub fn with_piece(before: Option<Text>, piece: &Node) -> Result<Option<Text>, OutOfMemory>
    ensures { IfOk result (λ t. t ≡ template.joined_text before (template.cooked_in (shape_of piece.now))) }
{
    match (before, piece.shape()) {
        (Some(text), Shape::TemplateElement(_, _, Some(cooked))) => {
            Ok(Some(extended(text, cooked.text().as_slice())?))
        }
        _ => Ok(None),
    }
}

// A text with that of a value behind it.
pub fn with_value(
    alloc: Global,
    before: Text,
    value: Option<ConstantValue>,
) -> Result<Option<Text>, OutOfMemory>
    ensures { IfOk result (λ t. t ≡ template.joined_text (Some before) (text_in (value_in value))) }
{
    match value {
        Some(known) => Ok(Some(extended(before, to_text(alloc, known)?.as_slice())?)),
        None => Ok(None),
    }
}

// With one more piece, and the part behind it.
#[cycle(operands)]
fn with_part(
    alloc: Global,
    is_free: bool,
    before: Option<Text>,
    piece: &Node,
    part: &Node,
    depth: u32,
) -> Result<Option<Text>, OutOfMemory>
    ensures { IfOk result (λ t. t ≡ template.joined_text (template.joined_text before (template.cooked_in (shape_of piece.now))) (text_in (term.value_within is_free depth part.now))) }
{
    match with_piece(before, piece)? {
        Some(text) => with_value(alloc, text, value_within(alloc, is_free, part, depth)?),
        None => Ok(None),
    }
}

// The text of pieces with the values of the parts between them.
#[cycle(operands)]
#[tactic(auto, using(crate::proofs::Joined::none_round, crate::proofs::Joined::first_part, crate::proofs::Joined::one_more, crate::proofs::Joined::last_piece))]
fn text_between(
    alloc: Global,
    is_free: bool,
    pieces: &Nodes,
    parts: &Nodes,
    depth: u32,
) -> Result<Option<Text>, OutOfMemory>
    ensures { IfOk result (λ t. t ≡ template.text_between (term.value_within is_free depth) pieces.now parts.now) }
{
    if !are_round(pieces, parts) {
        return Ok(None);
    }
    let mut text = Some(Text::new(alloc));
    for at in 0..parts.len() {
        text = with_part(
            alloc,
            is_free,
            text,
            pieces.child(at),
            parts.child(at),
            depth,
        )?;
    }
    with_piece(text, pieces.child(parts.len()))
}

#[cycle(operands)]
fn template_value(
    alloc: Global,
    is_free: bool,
    node: &Node,
    depth: u32,
) -> Result<Option<ConstantValue>, OutOfMemory>
    requires { count (children node.now) ≡ 2 }
    ensures { IfOk result (λ v. value_in v ≡ template.template_value (term.value_within is_free depth) node.now) }
{
    let pieces = node.child(0).children();
    match text_between(alloc, is_free, pieces, node.child(1).children(), depth)? {
        Some(text) => Ok(Some(ConstantValue::String(text))),
        None => Ok(None),
    }
}

// Whether it is a sequence that has to do nothing.
fn is_free_sequence(is_free: bool, node: &Node) -> bool
    ensures kind { result ≡ is_free && is_it_sequence node.now }
    ensures parts { result ≡ true → 0 < count (children node.now) }
{
    is_free && is_sequence(node)
}

// Of a logical expression, a conditional, a sequence or a template.
#[cycle(operands)]
fn chosen_over(
    alloc: Global,
    is_free: bool,
    node: &Node,
    depth: u32,
) -> Result<Option<ConstantValue>, OutOfMemory>
    ensures { IfOk result (λ v. value_in v ≡ term.chosen_over is_free (term.value_within is_free depth) node.now) }
{
    if let Some(operator) = logical_operator(node) {
        return logical_value(alloc, is_free, operator, node, depth);
    }
    if is_conditional(node) {
        return conditional_value(alloc, is_free, node, depth);
    }
    if is_free_sequence(is_free, node) {
        return last_value(alloc, is_free, node.child(0).children(), depth);
    }
    if is_template(node) {
        return template_value(alloc, is_free, node, depth);
    }
    Ok(None)
}

// Of what is no unary and no binary operator.
#[cycle(operands)]
fn other_value(
    alloc: Global,
    is_free: bool,
    node: &Node,
    depth: u32,
) -> Result<Option<ConstantValue>, OutOfMemory>
    ensures { IfOk result (λ v. value_in v ≡ term.or_else (term.chosen_over is_free (term.value_within is_free depth) node.now) (term.leaf_value node.now)) }
{
    match chosen_over(alloc, is_free, node, depth)? {
        Some(value) => Ok(Some(value)),
        None => leaf_value(alloc, node),
    }
}

// Of a literal, or of operators over literals, of which so many lie one within another.
#[cycle(operands)]
#[tactic(auto, using(crate::proofs::Deep::at_zero, crate::proofs::Deep::others_then))]
fn value_within(
    alloc: Global,
    is_free: bool,
    node: &Node,
    depth: u32,
) -> Result<Option<ConstantValue>, OutOfMemory>
    ensures { IfOk result (λ v. value_in v ≡ term.value_within is_free depth node.now) }
{
    if depth == 0 {
        return leaf_value(alloc, node);
    }
    match calculated_over(alloc, is_free, node, depth - 1)? {
        Some(value) => Ok(Some(value)),
        None => other_value(alloc, is_free, node, depth - 1),
    }
}

/// The value that an expression gives where it gives one, as far as it is calculated, whatever it
/// does besides.
///
/// The only error is that memory runs out.
pub fn given_value(alloc: Global, node: &Node) -> Result<Option<ConstantValue>, OutOfMemory>
    ensures { IfOk result (λ v. value_in v ≡ term.free_value node.now) }
{
    value_within(alloc, true, node, OPERAND_DEPTH)
}

/// The value of an operand whose evaluation does nothing but give it, as far as it is calculated.
///
/// The only error is that memory runs out.
pub fn operand_value(alloc: Global, node: &Node) -> Result<Option<ConstantValue>, OutOfMemory>
    ensures { IfOk result (λ v. value_in v ≡ term.operand_value node.now) }
{
    value_within(alloc, false, node, OPERAND_DEPTH)
}

fn kept_if(condition: bool, value: Option<ConstantValue>) -> Option<ConstantValue>
    ensures { value_in result ≡ choose condition (value_in value) None }
{
    if condition { value } else { None }
}

/// The constant of an effect-free unary or binary expression, as far as it is calculated; None of
/// any other expression.
///
/// The only error is that memory runs out.
#[tactic(auto, using(crate::proofs::Deep::no_constant))]
pub fn evaluate_value(alloc: Global, node: &Node) -> Result<Option<ConstantValue>, OutOfMemory>
    ensures { IfOk result (λ v. value_in v ≡ term.calculated node.now) }
{
    match calculated_over(alloc, true, node, OPERAND_DEPTH)? {
        Some(value) => Ok(kept_if(has_no_effect(node), Some(value))),
        None => Ok(None),
    }
}
