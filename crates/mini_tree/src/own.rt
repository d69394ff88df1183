//! What names, literals, operators and lists weigh by themselves.

ghost use Rattle.std.specs.Prelude.{◌≡◌, ◌+◌, ◌-◌, ◌*◌, length};
ghost use Rattle.std.specs.Fmt.{decimal, signed_decimal};
ghost use Rattle.mini_model.specs.Weight.{capped, same_text, name_weight as weight_of_name, quoted_weight as weight_of_quoted, directives_weight as weight_of_directives, unary_operator_weight as weight_of_unary, binary_operator_weight as weight_of_binary, assignment_operator_weight as weight_of_assignment, declaring_weight as weight_of_declaring, method_kind_weight as weight_of_method_kind, property_weight as weight_of_property, template_weight as weight_of_template, flagged as flagged_weight};

use crate::place::is_accessor;
use itoa::Buffer;
use mini_model::{
    AssignmentOperator, BinaryOperator, MethodDefinitionKind, Name, PropertyKind, Text, TextList,
    UnaryOperator, VariableDeclarationKind,
};

fn spells(units: &[u16], ascii: &[u8]) -> bool
    ensures { result ≡ same_text units.now ascii.now }
{
    match (units, ascii) {
        ([], []) => true,
        ([u, more @ ..], [b, rest @ ..]) => *u == *b as u16 && spells(more, rest),
        _ => false,
    }
}

/// The weight of a name that is read or written.
pub fn name_weight(x: &Name) -> u64
    ensures { result ≡ weight_of_name x.now }
{
    if x.symbol.is_some() {
        return 2;
    }
    let spelling = x.spelling.as_slice();
    if spells(spelling, b"undefined") {
        18
    } else if spells(spelling, b"Infinity") {
        16
    } else if spells(spelling, b"NaN") {
        6
    } else {
        2
    }
}

/// This weight where the flag holds, and 0 where it doesn't.
pub fn flagged(flag: bool, weight: u64) -> u64
    ensures { result ≡ flagged_weight flag weight }
{
    if flag { weight } else { 0 }
}

/// Twice the length of a text.
pub fn twice_length(text: &Text) -> u64
    ensures { result ≡ capped (2 * length text.now) }
{
    (text.len() as u64).saturating_mul(2)
}

/// The weight of a text in quotes.
pub fn quoted_weight(text: &Text) -> u64
    ensures { result ≡ capped (weight_of_quoted text.now) }
{
    twice_length(text).saturating_add(4)
}

/// The weight of a number, with its minus.
pub fn number_weight(value: i64) -> u64
    ensures { result ≡ 2 * length (signed_decimal value) }
{
    let mut buffer = Buffer::new();
    let text = buffer.format(value);
    2 * text.len() as u64
}

/// The weight of a BigInt: its digits, and the `n` behind them.
pub fn big_int_weight(number: u128) -> u64
    ensures { result ≡ 2 * length (decimal number) + 2 }
{
    let mut buffer = Buffer::new();
    let digits = buffer.format(number);
    2 * digits.len() as u64 + 2
}

/// The weight of the commas between that many parts.
pub fn commas(count: usize) -> u64
    ensures { result ≡ capped (2 * (count - 1)) }
{
    (count as u64).saturating_sub(1).saturating_mul(2)
}

/// The weight of the directives of a program or a function.
pub fn directives_weight(directives: &TextList) -> u64
    ensures { result ≡ capped (weight_of_directives directives.now) }
{
    let mut total: u64 = 0;
    for directive in directives.as_slice() {
        total = total
            .saturating_add(twice_length(directive))
            .saturating_add(6);
    }
    total
}

/// The weight of a template's backticks, and of `${}` around each of that many expressions.
pub fn template_weight(expressions: usize) -> u64
    ensures { result ≡ capped (weight_of_template expressions) }
{
    if expressions == 0 {
        return 5;
    }
    (expressions as u64).saturating_mul(6).saturating_add(4)
}

/// The weight of a unary operator.
pub fn unary_operator_weight(operator: UnaryOperator) -> u64
    ensures { result ≡ weight_of_unary operator }
{
    match operator {
        UnaryOperator::Typeof => 10,
        UnaryOperator::Void => 10,
        UnaryOperator::Delete => 14,
        _ => 2,
    }
}

/// The weight of a binary operator.
pub fn binary_operator_weight(operator: BinaryOperator) -> u64
    ensures { result ≡ weight_of_binary operator }
{
    match operator {
        BinaryOperator::Equality => 4,
        BinaryOperator::Inequality => 4,
        BinaryOperator::StrictEquality => 6,
        BinaryOperator::StrictInequality => 6,
        BinaryOperator::LessEqualThan => 4,
        BinaryOperator::GreaterEqualThan => 4,
        BinaryOperator::ShiftLeft => 4,
        BinaryOperator::ShiftRight => 4,
        BinaryOperator::ShiftRightZeroFill => 6,
        BinaryOperator::Exponential => 4,
        BinaryOperator::BitwiseXor => 4,
        BinaryOperator::In => 4,
        BinaryOperator::Instanceof => 20,
        _ => 2,
    }
}

/// The weight of the operator of an assignment.
pub fn assignment_operator_weight(operator: AssignmentOperator) -> u64
    ensures { result ≡ weight_of_assignment operator }
{
    match operator {
        AssignmentOperator::Assign => 2,
        AssignmentOperator::Exponential => 6,
        AssignmentOperator::ShiftLeft => 6,
        AssignmentOperator::ShiftRight => 6,
        AssignmentOperator::ShiftRightZeroFill => 8,
        AssignmentOperator::BitwiseXor => 6,
        AssignmentOperator::LogicalOr => 6,
        AssignmentOperator::LogicalAnd => 6,
        AssignmentOperator::LogicalNullish => 6,
        _ => 4,
    }
}

/// The weight of the word with which a declaration of variables begins.
pub fn declaring_weight(kind: VariableDeclarationKind) -> u64
    ensures { result ≡ weight_of_declaring kind }
{
    match kind {
        VariableDeclarationKind::Var => 8,
        VariableDeclarationKind::Let => 8,
        VariableDeclarationKind::Const => 12,
    }
}

/// The weight of the word `get` or `set` before a method of a class; 0 for another method.
pub fn method_kind_weight(kind: MethodDefinitionKind) -> u64
    ensures { result ≡ weight_of_method_kind kind }
{
    match kind {
        MethodDefinitionKind::Constructor => 0,
        MethodDefinitionKind::Method => 0,
        MethodDefinitionKind::Get => 8,
        MethodDefinitionKind::Set => 8,
    }
}

/// The weight of what a property of an object literal writes beside its key and its value.
pub fn property_weight(kind: PropertyKind, method: bool, computed: bool) -> u64
    ensures { result ≡ weight_of_property kind method computed }
{
    let accessor = is_accessor(kind);
    flagged(accessor, 8) + flagged(!(method || accessor), 2) + flagged(computed, 4)
}
