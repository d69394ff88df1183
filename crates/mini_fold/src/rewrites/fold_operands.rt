//! Rows 4, 7, 14, 27 and 29 to 32, and those of operators (2, 8, 16, 17 and 56): an operand whose
//! value is known goes, or is written shorter. `a + "s" + "t"` becomes `a + "st"`, `typeof a + ""`
//! becomes `typeof a`, `a || 0 || b` becomes `a || b`, `(a & 1) == 0` becomes `!(a & 1)`, and
//! `a << 1 != 0` `a << 1` in a test, `!a == !0` becomes `!a`, and `a == !0` becomes `a == 1`;
//! `a << 0` becomes `a | 0`, and `a << 1 | 0` becomes `a << 1`. What is written is lighter in every
//! place.

ghost use Rattle.std.specs.Prelude.{◌≡◌, true, is_some, unwrap_or, option_copied, OnOk, IfOk};
ghost use Rattle.mini_model.specs.Tree.{children, count};
ghost use Rattle.mini_model.specs.Position.{is_and_or as is_it_and_or};
ghost use Rattle.mini_node.specs.Children.{names, part};
ghost use Rattle.mini_node.specs.Kinds.{logical_operator as its_logical_operator, binary_operator as its_binary_operator, string as string_of};
ghost use Rattle.mini_laws.specs.Operators.{same_boolean as are_they_same};
ghost use Rattle.mini_terms.specs.Parts.{suits as may_suit};
ghost use Rattle.mini_rows.specs.Booleans.{digit as digit_of};
ghost use Rattle.mini_rows.specs.Choices.{loosely as loose};
ghost use Rattle.mini_rows.specs.Operands.{encloses as does_it_enclose, told_by, is_undefined_name as is_it_undefined_name, is_undefined as is_it_undefined, word as word_of, tail_text as tail_of, makes_bits as do_they_make_bits, is_bits as are_they_bits, makes_int32 as do_they_make_int32, is_int32 as is_it_int32, makes_shift as does_it_shift, is_shifted as is_it_shifted, keeps_bits as does_it_keep_bits, has_room as has_it_room, zero_told as zero_told_of};
ghost use Rattle.mini_terms.specs.Kind.{is_number as is_number_of};
ghost use Rattle.mini_tree.specs.Rule.{Applied};
ghost use Rattle.mini_fold.specs.FoldOperators.{without_plus, masks_written, mask_written};
ghost use Rattle.mini_fold.specs.FoldOperands as operand;
ghost use Rattle.mini_fold.specs.FoldOperands.{Gives, Rests};
ghost use Rattle.mini_fold.specs.Lighter.{operands_lighter};

use crate::rewrites::fold_operators::{
    drops_left, drops_right, fold_delete, holds_bitwise, masked, told_by_types,
};
use mini_held::{UNDEFINED, negated_digit};
use mini_model::{
    BinaryOperator, LogicalOperator, Name, OutOfMemory, Position, Seat, Shape, Text, UnaryOperator,
    decimal,
};
use mini_node::{
    Node, binary, binary_operator, discard, is_identifier, is_logical, is_negation, is_null,
    logical, logical_operator, negation, number, numeric_literal, one, string, string_literal,
    taken, two, unary_operator,
};
use mini_terms::{
    Kind, copied, goes_on, has_no_effect, is_plain_part, is_same, kind_of, leaves_nothing, suits,
    text_of_both, weighs,
};
use mini_tree::{Context, Rule, seats};
use std::alloc::Global;

// The units of `null`.
const NULL: [u16; 4] = [110, 117, 108, 108];

// Whether the operands tell the truth of the whole: of `&&` and `||`.
fn is_and_or(operator: LogicalOperator) -> bool
    ensures { result ≡ is_it_and_or operator }
{
    match operator {
        LogicalOperator::Coalesce => false,
        LogicalOperator::Or => true,
        LogicalOperator::And => true,
    }
}

// `a || 0` of `a || 0 || b`: whether what is in the middle goes.
fn is_redundant(seat: Seat, operator: LogicalOperator, left: &Node, right: &Node) -> bool
    ensures { result ≡ operand.is_redundant seat operator left.now right.now }
{
    is_and_or(operator)
        && is_logical(left, operator)
        && goes_on(operator, left.child(1))
        && has_no_effect(left.child(1))
        && leaves_nothing(left.child(1))
        && weighs(left.child(1))
        && suits(seats::right_operand(operator, seat), right)
}

// `a || b` of `a || 0 || b`
pub fn fold_middle(alloc: Global, node: &mut Node, seat: Seat) -> Result<bool, OutOfMemory>
    ensures tree { OnOk result (node.new ≡ unwrap_or (operand.logical_written seat (its_logical_operator node.old) node.old) node.old) }
    ensures said { IfOk result (λ changed. changed ≡ is_some (operand.logical_written seat (its_logical_operator node.old) node.old)) }
{
    let Some(operator) = logical_operator(node) else {
        return Ok(false);
    };
    if !is_redundant(seat, operator, node.child(0), node.child(1)) {
        return Ok(false);
    }
    let (left, right) = two(taken(alloc, node));
    *node = logical(alloc, operator, one(left), right)?;
    Ok(true)
}

// Whether it is a text without units.
fn is_empty_text(node: &Node) -> bool
    ensures { result ≡ operand.is_empty (string_of node.now) }
{
    match string(node) {
        Some(text) => text.is_empty(),
        None => false,
    }
}

/// Whether values of this kind are texts.
pub fn is_string_kind(kind: Kind) -> bool
    ensures { result ≡ operand.is_string_kind kind }
{
    matches!(kind, Kind::String)
}

fn is_boolean_kind(kind: Kind) -> bool
    ensures { result ≡ operand.is_boolean_kind kind }
{
    matches!(kind, Kind::Boolean)
}

// Whether the second is an empty text, and the first stays.
fn is_text(seat: Seat, stays: &Node, goes: &Node) -> bool
    ensures { result ≡ operand.is_text seat stays.now goes.now }
{
    is_empty_text(goes) && is_string_kind(kind_of(stays)) && suits(seat, stays)
}

/// The second child, without the first.
pub fn last(node: Node) -> Node
    ensures { result ≡ part node 1 }
{
    let (left, right) = two(node);
    discard(left);
    right
}

// `typeof a` of `typeof a + ""` and of `"" + typeof a`
fn fold_text(alloc: Global, node: &mut Node, seat: Seat) -> bool
    requires { count (children node.old) ≡ 2 }
    ensures tree { node.new ≡ unwrap_or (operand.text_written seat (part node.old 0) (part node.old 1)) node.old }
    ensures said { result ≡ is_some (operand.text_written seat (part node.old 0) (part node.old 1)) }
{
    if is_text(seat, node.child(0), node.child(1)) {
        *node = one(taken(alloc, node));
        return true;
    }
    if is_text(seat, node.child(1), node.child(0)) {
        *node = last(taken(alloc, node));
        return true;
    }
    false
}

// The text at the end of `a + "s"`.
fn sum_text(node: &Node) -> Option<&Text>
    ensures { option_copied result ≡ operand.sum_text node.now }
{
    match binary_operator(node) {
        Some(BinaryOperator::Addition) => string(node.child(1)),
        _ => None,
    }
}

// The name `undefined`, which no scope declares.
fn is_undefined_name(name: &Option<Name>) -> bool
    ensures { result ≡ is_it_undefined_name (names name.now) }
{
    match name {
        Some(name) => { name.symbol.is_none() && name.spelling.as_slice() == UNDEFINED.as_slice() }
        None => false,
    }
}

fn is_undefined(node: &Node) -> bool
    ensures { result ≡ is_it_undefined node.now }
{
    is_identifier(node) && is_undefined_name(node.name())
}

// `null`, or `undefined`, as a text.
fn word(alloc: Global, node: &Node) -> Result<Option<Text>, OutOfMemory>
    ensures { IfOk result (λ t. t ≡ word_of node.now) }
{
    if is_null(node) {
        return Ok(Some(copied(alloc, &NULL)?));
    }
    if is_undefined(node) {
        return Ok(Some(copied(alloc, &UNDEFINED)?));
    }
    Ok(None)
}

// The text that `+` makes of a text, a number, `null` or `undefined`.
fn tail_text(alloc: Global, node: &Node) -> Result<Option<Text>, OutOfMemory>
    ensures { IfOk result (λ t. t ≡ tail_of node.now) }
{
    if let Some(text) = string(node) {
        return Ok(Some(copied(alloc, text.as_slice())?));
    }
    match number(node) {
        Some(number) => Ok(Some(decimal(alloc, number)?)),
        None => word(alloc, node),
    }
}

// `st` of `a + "s"` and `"t"`
fn joined_text(alloc: Global, left: &Node, right: &Node) -> Result<Option<Text>, OutOfMemory>
    ensures { IfOk result (λ t. t ≡ operand.joined_texts (operand.sum_text left.now) (tail_of right.now)) }
{
    let Some(before) = sum_text(left) else {
        return Ok(None);
    };
    match tail_text(alloc, right)? {
        Some(after) => Ok(Some(text_of_both(alloc, before.as_slice(), after)?)),
        None => Ok(None),
    }
}

/// `a` of `a + b + c`
pub fn first_of_first(node: Node) -> Node
    ensures { result ≡ part (part node 0) 0 }
{
    one(one(node))
}

// `a + "st"` of `a + "s" + "t"`
fn join_texts(alloc: Global, node: &mut Node) -> Result<bool, OutOfMemory>
    requires { count (children node.old) ≡ 2 }
    ensures tree { OnOk result (node.new ≡ unwrap_or (operand.joined_written (part node.old 0) (part node.old 1)) node.old) }
    ensures said { IfOk result (λ changed. changed ≡ is_some (operand.joined_written (part node.old 0) (part node.old 1))) }
{
    let Some(text) = joined_text(alloc, node.child(0), node.child(1))? else {
        return Ok(false);
    };
    let left = first_of_first(taken(alloc, node));
    *node = binary(
        alloc,
        BinaryOperator::Addition,
        left,
        string_literal(alloc, text),
    )?;
    Ok(true)
}

/// `typeof a` of `typeof a + ""`, and `a + "st"` of `a + "s" + "t"`
pub fn fold_sum(alloc: Global, node: &mut Node, seat: Seat) -> Result<bool, OutOfMemory>
    requires { count (children node.old) ≡ 2 }
    ensures tree { OnOk result (node.new ≡ unwrap_or (operand.sum_written seat (part node.old 0) (part node.old 1)) node.old) }
    ensures said { IfOk result (λ changed. changed ≡ is_some (operand.sum_written seat (part node.old 0) (part node.old 1))) }
{
    if fold_text(alloc, node, seat) {
        return Ok(true);
    }
    join_texts(alloc, node)
}

fn makes_bits(unary: Option<UnaryOperator>, binary: Option<BinaryOperator>) -> bool
    ensures { result ≡ do_they_make_bits unary binary }
{
    match (unary, binary) {
        (Some(UnaryOperator::BitwiseNot), _) => true,
        (None, Some(BinaryOperator::BitwiseAnd)) => true,
        (None, Some(BinaryOperator::BitwiseXor)) => true,
        (None, Some(BinaryOperator::BitwiseOr)) => true,
        _ => false,
    }
}

fn is_number_kind(kind: Kind) -> bool
    ensures { result ≡ is_number_of kind }
{
    matches!(kind, Kind::Number)
}

// Whether each value of it is a number of 32 bits, as of `a & 1`.
fn is_bits(node: &Node) -> bool
    ensures { result ≡ are_they_bits node.now }
{
    makes_bits(unary_operator(node), binary_operator(node)) && is_number_kind(kind_of(node))
}

fn is_zero(number: Option<i64>) -> bool
    ensures { result ≡ operand.is_zero number }
{
    match number {
        Some(value) => value == 0,
        None => false,
    }
}

// Whether the left side has numbers of 32 bits, as `a & 1` has, and the right one is 0.
pub fn tests_bits(left: &Node, right: &Node) -> bool
    ensures { result ≡ operand.tests_bits left.now right.now }
{
    is_zero(number(right)) && is_bits(left)
}

fn makes_shift(binary: Option<BinaryOperator>) -> bool
    ensures { result ≡ does_it_shift binary }
{
    match binary {
        Some(BinaryOperator::ShiftLeft) => true,
        Some(BinaryOperator::ShiftRight) => true,
        Some(BinaryOperator::ShiftRightZeroFill) => true,
        _ => false,
    }
}

// Whether it is a shift of numbers.
fn is_shifted(node: &Node) -> bool
    ensures { result ≡ is_it_shifted node.now }
{
    makes_shift(binary_operator(node)) && is_number_kind(kind_of(node))
}

// Whether a shift is held against 0 where only the truth is asked: `if (a << 1 != 0)`
pub fn tests_shift(seat: Seat, equal: bool, left: &Node, right: &Node) -> bool
    ensures { result ≡ operand.tests_shift seat equal left.now right.now }
{
    is_zero(number(right)) && !equal && seat.boolean && is_shifted(left)
}

// Whether a `!` has no parentheses in the seat, where an equality has them.
fn encloses(seat: Seat) -> bool
    ensures { result ≡ does_it_enclose seat }
{
    8 < seat.level && seat.level <= 14
}

// Whether a shift is held against 0 in parentheses: `a + (b << 1 == 0)`
pub fn tests_enclosed(seat: Seat, left: &Node, right: &Node) -> bool
    ensures { result ≡ operand.tests_enclosed seat left.now right.now }
{
    is_zero(number(right)) && encloses(seat) && is_shifted(left)
}

// `!a`, or `!!a`
pub fn zero_told(alloc: Global, equal: bool, bits: Node) -> Result<Node, OutOfMemory>
    ensures { IfOk result (λ w. w ≡ zero_told_of equal bits) }
{
    let negated = negation(alloc, bits)?;
    if equal {
        Ok(negated)
    } else {
        negation(alloc, negated)
    }
}

fn negated_truth(digit: Option<i64>) -> Option<bool>
    ensures { result ≡ operand.negated_truth digit }
{
    match digit {
        Some(0) => Some(true),
        Some(1) => Some(false),
        _ => None,
    }
}

// The truth of `!0`, and of `!1`.
pub fn truth_in(node: &Node) -> Option<bool>
    ensures { result ≡ operand.truth_in node.now }
{
    if is_negation(node) {
        negated_truth(number(node.child(0)))
    } else {
        None
    }
}

/// Whether the two truths are the same.
pub fn are_same(left: bool, right: bool) -> bool
    ensures { result ≡ are_they_same left right }
{
    if left { right } else { !right }
}

// Whether the boolean, or its negation, may stand in the seat.
#[tactic(auto, using(crate::proofs::Operands::negated_suits))]
fn may_stand(seat: Seat, holds: bool, boolean: &Node) -> bool
    ensures { result ≡ may_suit seat (told_by holds boolean.now) }
{
    if holds {
        suits(seat, boolean)
    } else {
        is_plain_part(boolean)
    }
}

// Whether the boolean, or its negation, stands for the whole equality in the seat.
pub fn is_told(seat: Seat, holds: bool, boolean: &Node) -> bool
    ensures { result ≡ operand.is_told seat holds boolean.now }
{
    is_boolean_kind(kind_of(boolean)) && may_stand(seat, holds, boolean)
}

// The boolean, or its negation.
pub fn told(alloc: Global, holds: bool, boolean: Node) -> Result<Node, OutOfMemory>
    ensures { IfOk result (λ w. w ≡ told_by holds boolean) }
{
    if holds {
        Ok(boolean)
    } else {
        negation(alloc, boolean)
    }
}

// `1`, or `0`
pub fn digit(alloc: Global, truth: bool) -> Node
    ensures { result ≡ digit_of truth }
{
    if truth {
        numeric_literal(alloc, 1)
    } else {
        numeric_literal(alloc, 0)
    }
}

/// `==`, or `!=` where they are to be unequal.
pub fn loosely(equal: bool) -> BinaryOperator
    ensures { result ≡ loose equal }
{
    if equal {
        BinaryOperator::Equality
    } else {
        BinaryOperator::Inequality
    }
}

// `a` of `a == !0` where it is a boolean, and else `a == 1`
fn right_written(
    alloc: Global,
    seat: Seat,
    equal: bool,
    truth: bool,
    left: Node,
) -> Result<Node, OutOfMemory>
    ensures { IfOk result (λ w. w ≡ operand.right_written seat equal truth left) }
{
    let holds = are_same(equal, truth);
    if is_told(seat, holds, &left) {
        return told(alloc, holds, left);
    }
    binary(alloc, loosely(equal), left, digit(alloc, truth))
}

fn fold_equality(
    alloc: Global,
    node: &mut Node,
    seat: Seat,
    equal: bool,
) -> Result<bool, OutOfMemory>
    requires { count (children node.old) ≡ 2 }
    ensures tree { OnOk result (node.new ≡ unwrap_or (operand.equal_written seat equal (part node.old 0) (part node.old 1)) node.old) }
    ensures said { IfOk result (λ changed. changed ≡ is_some (operand.equal_written seat equal (part node.old 0) (part node.old 1))) }
{
    if tests_bits(node.child(0), node.child(1)) {
        *node = zero_told(alloc, equal, one(taken(alloc, node)))?;
        return Ok(true);
    }
    if tests_shift(seat, equal, node.child(0), node.child(1)) {
        *node = one(taken(alloc, node));
        return Ok(true);
    }
    if tests_enclosed(seat, node.child(0), node.child(1)) {
        *node = zero_told(alloc, equal, one(taken(alloc, node)))?;
        return Ok(true);
    }
    if let Some(truth) = truth_in(node.child(1)) {
        *node = right_written(alloc, seat, equal, truth, one(taken(alloc, node)))?;
        return Ok(true);
    }
    if let Some(truth) = truth_in(node.child(0)) {
        *node = binary(
            alloc,
            loosely(equal),
            digit(alloc, truth),
            last(taken(alloc, node)),
        )?;
        return Ok(true);
    }
    Ok(false)
}

// Whether it gives beside this number what `| 0` does.
fn keeps_bits(operator: BinaryOperator, number: i64) -> bool
    ensures { result ≡ does_it_keep_bits operator number }
{
    match operator {
        BinaryOperator::ShiftLeft | BinaryOperator::ShiftRight | BinaryOperator::BitwiseXor => {
            is_same(number, 0)
        }
        BinaryOperator::BitwiseAnd => is_same(number, 4_294_967_295),
        _ => false,
    }
}

fn keeps_beside(operator: BinaryOperator, number: Option<i64>) -> bool
    ensures { result ≡ operand.keeps_beside operator number }
{
    match number {
        Some(known) => keeps_bits(operator, known),
        None => false,
    }
}

// Whether `|` has no parentheses that count where this operator has none.
fn has_room(operator: BinaryOperator, seat: Seat) -> bool
    ensures { result ≡ has_it_room operator seat }
{
    match operator {
        BinaryOperator::BitwiseAnd => true,
        BinaryOperator::BitwiseXor => seat.level <= 5 || seat.level > 6,
        _ => seat.level <= 5 || seat.level > 10,
    }
}

// `a | 0` of `a << 0`
pub fn fold_kept(
    alloc: Global,
    node: &mut Node,
    seat: Seat,
    operator: BinaryOperator,
) -> Result<bool, OutOfMemory>
    requires { count (children node.old) ≡ 2 }
    ensures tree { OnOk result (node.new ≡ unwrap_or (operand.kept_written seat operator (part node.old 0) (part node.old 1)) node.old) }
    ensures said { IfOk result (λ changed. changed ≡ is_some (operand.kept_written seat operator (part node.old 0) (part node.old 1))) }
{
    if keeps_beside(operator, number(node.child(1))) && has_room(operator, seat) {
        *node = binary(
            alloc,
            BinaryOperator::BitwiseOr,
            one(taken(alloc, node)),
            digit(alloc, false),
        )?;
        return Ok(true);
    }
    Ok(false)
}

// `a | 0` of bits that stay, with the number on either side: of `a << 0`, and of `0 ^ a`.
pub fn fold_bits(
    alloc: Global,
    node: &mut Node,
    seat: Seat,
    operator: BinaryOperator,
) -> Result<bool, OutOfMemory>
    requires { count (children node.old) ≡ 2 }
    ensures tree { OnOk result (node.new ≡ unwrap_or (operand.bits_written seat operator (part node.old 0) (part node.old 1)) node.old) }
    ensures said { IfOk result (λ changed. changed ≡ is_some (operand.bits_written seat operator (part node.old 0) (part node.old 1))) }
{
    if keeps_beside(operator, number(node.child(1))) && has_room(operator, seat) {
        *node = binary(
            alloc,
            BinaryOperator::BitwiseOr,
            one(taken(alloc, node)),
            digit(alloc, false),
        )?;
        return Ok(true);
    }
    if keeps_beside(operator, number(node.child(0))) && has_room(operator, seat) {
        *node = binary(
            alloc,
            BinaryOperator::BitwiseOr,
            last(taken(alloc, node)),
            digit(alloc, false),
        )?;
        return Ok(true);
    }
    Ok(false)
}

fn makes_int32(unary: Option<UnaryOperator>, binary: Option<BinaryOperator>) -> bool
    ensures { result ≡ do_they_make_int32 unary binary }
{
    match (unary, binary) {
        (None, Some(BinaryOperator::ShiftLeft)) => true,
        (None, Some(BinaryOperator::ShiftRight)) => true,
        _ => makes_bits(unary, binary),
    }
}

// Whether each value of it is a number of 32 bits with a sign.
fn is_int32(node: &Node) -> bool
    ensures { result ≡ is_it_int32 node.now }
{
    makes_int32(unary_operator(node), binary_operator(node)) && is_number_kind(kind_of(node))
}

// `a << 1` of `a << 1 | 0`, and of `0 | a << 1`
pub fn fold_whole(alloc: Global, node: &mut Node) -> bool
    requires { count (children node.old) ≡ 2 }
    ensures tree { node.new ≡ unwrap_or (operand.wholes_written (part node.old 0) (part node.old 1)) node.old }
    ensures said { result ≡ is_some (operand.wholes_written (part node.old 0) (part node.old 1)) }
{
    if is_zero(number(node.child(1))) && is_int32(node.child(0)) {
        *node = one(taken(alloc, node));
        return true;
    }
    if is_zero(number(node.child(0))) && is_int32(node.child(1)) {
        *node = last(taken(alloc, node));
        return true;
    }
    false
}

// By what is known of an operand.
fn fold_sides(
    alloc: Global,
    node: &mut Node,
    seat: Seat,
    operator: BinaryOperator,
) -> Result<bool, OutOfMemory>
    requires { count (children node.old) ≡ 2 }
    ensures tree { OnOk result (node.new ≡ unwrap_or (operand.operands_written seat operator node.old) node.old) }
    ensures said { IfOk result (λ changed. changed ≡ is_some (operand.operands_written seat operator node.old)) }
{
    match operator {
        BinaryOperator::Addition => fold_sum(alloc, node, seat),
        BinaryOperator::Equality => fold_equality(alloc, node, seat, true),
        BinaryOperator::Inequality => fold_equality(alloc, node, seat, false),
        BinaryOperator::BitwiseOr => Ok(fold_whole(alloc, node)),
        BinaryOperator::BitwiseAnd => fold_bits(alloc, node, seat, BinaryOperator::BitwiseAnd),
        BinaryOperator::BitwiseXor => fold_bits(alloc, node, seat, BinaryOperator::BitwiseXor),
        BinaryOperator::ShiftLeft => fold_kept(alloc, node, seat, BinaryOperator::ShiftLeft),
        BinaryOperator::ShiftRight => fold_kept(alloc, node, seat, BinaryOperator::ShiftRight),
        _ => Ok(false),
    }
}

/// `b` of `a & b & c`
pub fn second_of_first(node: Node) -> Node
    ensures { result ≡ part (part node 0) 1 }
{
    last(one(node))
}

// `a & 2` of `a & 6 & 3`, and of `6 & a & 3`
fn fold_masks(
    alloc: Global,
    node: &mut Node,
    seat: Seat,
    operator: BinaryOperator,
) -> Result<bool, OutOfMemory>
    requires inner { count (children (part node.old 0)) ≡ 2 }
    requires outer { count (children node.old) ≡ 2 }
    ensures tree { OnOk result (node.new ≡ unwrap_or (masks_written operator (part node.old 0) (part node.old 1) (operand.operands_written seat operator node.old)) node.old) }
    ensures said { IfOk result (λ changed. changed ≡ is_some (masks_written operator (part node.old 0) (part node.old 1) (operand.operands_written seat operator node.old))) }
{
    let mask = number(node.child(1));
    if let Some(joined) = masked(alloc, operator, number(node.child(0).child(1)), mask)? {
        let left = first_of_first(taken(alloc, node));
        *node = binary(alloc, operator, left, numeric_literal(alloc, joined))?;
        return Ok(true);
    }
    if let Some(joined) = masked(alloc, operator, number(node.child(0).child(0)), mask)? {
        let left = second_of_first(taken(alloc, node));
        *node = binary(alloc, operator, left, numeric_literal(alloc, joined))?;
        return Ok(true);
    }
    fold_sides(alloc, node, seat, operator)
}

// `a & 2` of `a & 6 & 3`, where this operator of bits stands over the same one, and else by what is
// known of an operand.
fn fold_mask(
    alloc: Global,
    node: &mut Node,
    seat: Seat,
    operator: BinaryOperator,
) -> Result<bool, OutOfMemory>
    requires { count (children node.old) ≡ 2 }
    ensures tree { OnOk result (node.new ≡ unwrap_or (mask_written operator (part node.old 0) (part node.old 1) (operand.operands_written seat operator node.old)) node.old) }
    ensures said { IfOk result (λ changed. changed ≡ is_some (mask_written operator (part node.old 0) (part node.old 1) (operand.operands_written seat operator node.old))) }
{
    if holds_bitwise(operator, node.child(0)) {
        fold_masks(alloc, node, seat, operator)
    } else {
        fold_sides(alloc, node, seat, operator)
    }
}

// `a * 2` of `+a * 2`, and `2 * a` of `2 * +a`
fn fold_plus(
    alloc: Global,
    node: &mut Node,
    seat: Seat,
    operator: BinaryOperator,
) -> Result<bool, OutOfMemory>
    requires { count (children node.old) ≡ 2 }
    ensures tree { OnOk result (node.new ≡ unwrap_or (without_plus operator (part node.old 0) (part node.old 1) (mask_written operator (part node.old 0) (part node.old 1) (operand.operands_written seat operator node.old))) node.old) }
    ensures said { IfOk result (λ changed. changed ≡ is_some (without_plus operator (part node.old 0) (part node.old 1) (mask_written operator (part node.old 0) (part node.old 1) (operand.operands_written seat operator node.old)))) }
{
    if drops_left(alloc, operator, node.child(0), node.child(1))? {
        let (left, right) = two(taken(alloc, node));
        *node = binary(alloc, operator, one(left), right)?;
        return Ok(true);
    }
    if drops_right(operator, node.child(0), node.child(1)) {
        let (left, right) = two(taken(alloc, node));
        *node = binary(alloc, operator, left, one(right))?;
        return Ok(true);
    }
    fold_mask(alloc, node, seat, operator)
}

fn fold_binary(alloc: Global, node: &mut Node, seat: Seat) -> Result<bool, OutOfMemory>
    ensures tree { OnOk result (node.new ≡ unwrap_or (operand.binary_written seat (its_binary_operator node.old) node.old) node.old) }
    ensures said { IfOk result (λ changed. changed ≡ is_some (operand.binary_written seat (its_binary_operator node.old) node.old)) }
{
    let Some(operator) = binary_operator(node) else {
        return Ok(false);
    };
    if let Some(truth) = told_by_types(node, operator) {
        *node = negated_digit(alloc, truth)?;
        return Ok(true);
    }
    fold_plus(alloc, node, seat, operator)
}

/// An operand whose value is known goes, or is written shorter. The answer says whether it was; the
/// only error is that memory runs out, and then the expression is fit only to be dropped.
pub fn fold_operands(alloc: Global, node: &mut Node, seat: Seat) -> Result<bool, OutOfMemory>
    ensures tree { OnOk result (node.new ≡ unwrap_or (operand.written seat node.old) node.old) }
    ensures said { IfOk result (λ changed. changed ≡ is_some (operand.written seat node.old)) }
{
    match node.shape() {
        Shape::LogicalExpression(_) => fold_middle(alloc, node, seat),
        Shape::BinaryExpression(_) => fold_binary(alloc, node, seat),
        Shape::UnaryExpression(_) => fold_delete(alloc, node),
        _ => Ok(false),
    }
}

/// Rows 2, 4, 7, 8, 14, 16, 17, 27, 29 to 32 and 56 as a rule: of each expression.
pub struct FoldOperands;

impl<C: Context> Rule<C> for FoldOperands {
    ghost gives = { λ o q. Gives };

    ghost rests = { λ o q. Rests };

    ghost lighter = { λ o q. operands_lighter };

    #[tactic(auto, using(crate::proofs::Operands::applied))]
    fn apply(
        &self,
        alloc: Global,
        node: &mut Node,
        place: Position,
        context: &mut C,
    ) -> Result<bool, OutOfMemory> {
        match place {
            Position::Expr(seat) => Ok(fold_operands(alloc, node, seat)?),
            _ => Ok(false),
        }
    }
}
