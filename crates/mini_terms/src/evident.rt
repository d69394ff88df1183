//! The truth of an expression for which no text has to be made, in code.

ghost use Rattle.std.specs.Prelude.{◌≡◌, ◌+◌, nat_eq, true, Some, None};
ghost use Rattle.mini_model.specs.declared.operator.BinaryOperator.TheVariants.{Addition};
ghost use Rattle.mini_model.specs.Tree.{children, count, shape_of};
ghost use Rattle.mini_node.specs.Children.{part};
ghost use Rattle.mini_laws.specs.Value.{Number, truth};
ghost use Rattle.mini_terms.specs.Evident as term;
ghost use Rattle.mini_terms.specs.Const.{over_number as over_its_number};
ghost use Rattle.mini_terms.specs.Evident.{nth_evidence, last_evidence as its_last_evidence, each_evidence, each_items};
ghost use Rattle.mini_terms.specs.Values.{value_in};

use crate::kinds::Kind;
use crate::known::{is_choice_at, kind_of};
use crate::names::is_undefined_name;
use crate::numbers::{of_numbers, over_number};
use crate::texts::text_number;
use crate::values::ConstantValue;
use mini_model::{BinaryOperator, LogicalOperator, Shape, UnaryOperator};
use mini_node::{Node, Nodes, is_listed};

/// What is evident of a constant: the constant itself, but of a text no more than this.
#[derive(Clone, Copy)]
enum Evidence {
    /// `undefined`
    Undefined,
    /// `null`
    Null,
    /// `true` or `false`
    Boolean(bool),
    /// A whole number.
    Number(i64),
    /// A text: whether it has units, and its number, if that is evident.
    Text(bool, Option<i64>),
}

// ---- conversions

// A number other than 0.
fn is_other_than_zero(number: i64) -> bool
    ensures { result ≡ truth (Number number) }
{
    number != 0
}

// ECMA-262, "ToBoolean"
fn counts(evidence: Evidence) -> bool
    ensures { result ≡ term.counts evidence }
{
    match evidence {
        Evidence::Undefined | Evidence::Null => false,
        Evidence::Boolean(holds) => holds,
        Evidence::Number(number) => is_other_than_zero(number),
        Evidence::Text(has_units, _) => has_units,
    }
}

fn is_text(evidence: Evidence) -> bool
    ensures { result ≡ term.is_text evidence }
{
    matches!(evidence, Evidence::Text(_, _))
}

fn is_nullish(evidence: Evidence) -> bool
    ensures { result ≡ term.is_nullish evidence }
{
    matches!(evidence, Evidence::Undefined | Evidence::Null)
}

// Whether its text has units (ECMA-262, "ToString").
fn has_units(evidence: Evidence) -> bool
    ensures { result ≡ term.has_units evidence }
{
    match evidence {
        Evidence::Text(has_units, _) => has_units,
        _ => true,
    }
}

// Its number, where that is whole and evident (ECMA-262, "ToNumber").
fn number_of(evidence: Evidence) -> Option<i64>
    ensures { result ≡ term.number_of evidence }
{
    match evidence {
        Evidence::Undefined => None,
        Evidence::Null | Evidence::Boolean(false) => Some(0),
        Evidence::Boolean(true) => Some(1),
        Evidence::Number(number) => Some(number),
        Evidence::Text(_, number) => number,
    }
}

// Of a text that is written out.
fn text_evidence(units: &[u16]) -> Evidence
    ensures { result ≡ term.text_evidence units.now }
{
    Evidence::Text(!units.is_empty(), text_number(units))
}

// Of a text that is made.
fn made_text(has_units: bool) -> Evidence
    ensures { result ≡ term.made_text has_units }
{
    Evidence::Text(has_units, None)
}

// Of a number or a boolean.
fn shown(value: Option<ConstantValue>) -> Option<Evidence>
    ensures { result ≡ term.shown (value_in value) }
{
    match value {
        Some(ConstantValue::Number(number)) => Some(Evidence::Number(number)),
        Some(ConstantValue::Boolean(holds)) => Some(Evidence::Boolean(holds)),
        _ => None,
    }
}

// ---- operators

fn undefined_if(condition: bool) -> Option<Evidence>
    ensures { result ≡ term.undefined_if condition }
{
    if condition {
        Some(Evidence::Undefined)
    } else {
        None
    }
}

// `+`, `-` or `~` of what has a safe number.
fn over_one(operator: UnaryOperator, operand: Option<i64>) -> Option<ConstantValue>
    ensures { value_in result ≡ over_its_number operator operand }
{
    match operand {
        Some(number) => over_number(operator, number),
        None => None,
    }
}

// Of an operator over what is evident.
fn over_evidence(operator: UnaryOperator, operand: Evidence) -> Option<Evidence>
    ensures { result ≡ term.unary_evidence operator (Some operand) }
{
    match operator {
        UnaryOperator::Void => Some(Evidence::Undefined),
        UnaryOperator::LogicalNot => Some(Evidence::Boolean(!counts(operand))),
        UnaryOperator::Typeof => Some(made_text(true)),
        _ => shown(over_one(operator, number_of(operand))),
    }
}

fn unary_evidence(operator: UnaryOperator, operand: Option<Evidence>) -> Option<Evidence>
    ensures { result ≡ term.unary_evidence operator operand }
{
    match (operator, operand) {
        (UnaryOperator::Void, _) => Some(Evidence::Undefined),
        (_, Some(evidence)) => over_evidence(operator, evidence),
        _ => None,
    }
}

// An operator of what has two numbers, but for equality.
fn over_numbers(
    operator: BinaryOperator,
    left: Option<i64>,
    right: Option<i64>,
) -> Option<ConstantValue>
    ensures { value_in result ≡ term.over_numbers operator left right }
{
    match (left, right) {
        (Some(first), Some(second)) => of_numbers(operator, first, second),
        _ => None,
    }
}

fn is_order(operator: BinaryOperator) -> bool
    ensures { result ≡ term.is_order operator }
{
    matches!(
        operator,
        BinaryOperator::LessThan
            | BinaryOperator::GreaterThan
            | BinaryOperator::LessEqualThan
            | BinaryOperator::GreaterEqualThan
    )
}

fn numbers_evidence(operator: BinaryOperator, left: Evidence, right: Evidence) -> Option<Evidence>
    ensures { result ≡ term.numbers_evidence operator left right }
{
    if is_order(operator) && is_text(left) && is_text(right) {
        None
    } else {
        shown(over_numbers(operator, number_of(left), number_of(right)))
    }
}

// The text of a sum has units where that of a side has some.
fn sum_evidence(left: Evidence, right: Evidence) -> Option<Evidence>
    ensures { result ≡ term.sum_evidence left right }
{
    if is_text(left) || is_text(right) {
        Some(made_text(has_units(left) || has_units(right)))
    } else {
        numbers_evidence(BinaryOperator::Addition, left, right)
    }
}

fn both_evidence(operator: BinaryOperator, left: Evidence, right: Evidence) -> Option<Evidence>
    ensures { result ≡ term.both_evidence operator left right }
{
    match operator {
        BinaryOperator::Addition => sum_evidence(left, right),
        _ => numbers_evidence(operator, left, right),
    }
}

// Of a right side.
fn right_evidence(
    operator: BinaryOperator,
    left: Evidence,
    right: Option<Evidence>,
) -> Option<Evidence>
    ensures { result ≡ term.binary_evidence operator (Some left) right }
{
    match right {
        Some(evidence) => both_evidence(operator, left, evidence),
        None => None,
    }
}

fn decided(operator: LogicalOperator, left: Evidence, right: Evidence) -> Evidence
    ensures { result ≡ term.decided operator left right }
{
    let takes_right = match operator {
        LogicalOperator::And => counts(left),
        LogicalOperator::Or => !counts(left),
        LogicalOperator::Coalesce => is_nullish(left),
    };
    if takes_right { right } else { left }
}

fn last_decided(
    operator: LogicalOperator,
    left: Evidence,
    right: Option<Evidence>,
) -> Option<Evidence>
    ensures { result ≡ term.logical_evidence operator (Some left) right }
{
    match right {
        Some(evidence) => Some(decided(operator, left, evidence)),
        None => None,
    }
}

fn branch(
    test: Evidence,
    consequent: Option<Evidence>,
    alternate: Option<Evidence>,
) -> Option<Evidence>
    ensures { result ≡ term.conditional_evidence (Some test) consequent alternate }
{
    match (consequent, alternate) {
        (Some(first), Some(second)) => {
            if counts(test) {
                Some(first)
            } else {
                Some(second)
            }
        }
        _ => None,
    }
}

// ---- templates

// Whether a piece of a template's text has units, where it cooks.
fn units_in(piece: &Node) -> Option<bool>
    ensures { result ≡ term.units_in (shape_of piece.now) }
{
    match piece.shape() {
        Shape::TemplateElement(_, _, Some(cooked)) => Some(!cooked.text().is_empty()),
        _ => None,
    }
}

fn units_of(evidence: Option<Evidence>) -> Option<bool>
    ensures { result ≡ term.units_of evidence }
{
    match evidence {
        Some(known) => Some(has_units(known)),
        None => None,
    }
}

// Of two, which are both known.
fn either(first: Option<bool>, second: Option<bool>) -> Option<bool>
    ensures { result ≡ term.either first second }
{
    match (first, second) {
        (Some(before), Some(after)) => Some(before || after),
        _ => None,
    }
}

fn text_if(units: Option<bool>) -> Option<Evidence>
    ensures { result ≡ term.text_if units }
{
    match units {
        Some(has_units) => Some(made_text(has_units)),
        None => None,
    }
}

/// Whether a piece of text stands on either side of each part.
pub fn are_round(pieces: &Nodes, parts: &Nodes) -> bool
    ensures { result ≡ nat_eq (count pieces.now) (count parts.now + 1) }
{
    parts.len() < pieces.len() && pieces.len() - parts.len() == 1
}

// Whether they are the lists of a template.
pub fn are_lists(node: &Node) -> bool
    ensures kind { result ≡ term.are_lists (children node.now) }
    ensures parts { result ≡ true → count (children node.now) ≡ 2 }
{
    node.children().len() == 2 && is_listed(node.child(0)) && is_listed(node.child(1))
}

// What is known of the text up to here, with one more piece and part.
#[cycle(evidence)]
fn with_part(before: Option<bool>, piece: &Node, part: &Node) -> Option<bool>
    ensures { result ≡ term.either (term.either before (term.units_in (shape_of piece.now))) (term.units_of (term.evidence part.now)) }
{
    match either(before, units_in(piece)) {
        Some(units) => either(Some(units), units_of(evidence_of(part))),
        None => None,
    }
}

// Whether pieces of text, with these parts between them, have units.
#[cycle(evidence)]
#[tactic(auto, using(crate::proofs::Pieces::none_round, crate::proofs::Pieces::first_part, crate::proofs::Pieces::one_more, crate::proofs::Pieces::last_piece))]
fn units_between(pieces: &Nodes, parts: &Nodes) -> Option<bool>
    ensures { result ≡ term.units_between pieces.now (each_evidence parts.now) }
{
    if !are_round(pieces, parts) {
        return None;
    }
    let mut units = Some(false);
    for at in 0..parts.len() {
        units = with_part(units, pieces.child(at), parts.child(at));
    }
    either(units, units_in(pieces.child(parts.len())))
}

#[cycle(evidence)]
#[tactic(auto, using(crate::proofs::Pieces::of_lists, crate::proofs::Pieces::no_lists))]
fn template_evidence(node: &Node) -> Option<Evidence>
    ensures { result ≡ term.template_evidence (children node.now) (each_items (children node.now)) }
{
    if are_lists(node) {
        text_if(units_between(node.child(0).children(), node.child(1).children()))
    } else {
        None
    }
}

// ---- all

// Of the child at a place.
#[cycle(evidence)]
#[tactic(auto, using(crate::proofs::Pieces::evidence_at, crate::proofs::Pieces::no_evidence_at))]
fn child_evidence(node: &Node, at: usize) -> Option<Evidence>
    ensures { result ≡ nth_evidence (each_evidence (children node.now)) at }
{
    if at < node.children().len() {
        evidence_of(node.child(at))
    } else {
        None
    }
}

// Of the last child.
#[cycle(evidence)]
#[tactic(auto, using(crate::proofs::Pieces::last_evidence_at, crate::proofs::Pieces::no_last_evidence))]
fn last_evidence(node: &Node) -> Option<Evidence>
    ensures { result ≡ its_last_evidence (each_evidence (children node.now)) }
{
    let count = node.children().len();
    if count > 0 {
        evidence_of(node.child(count - 1))
    } else {
        None
    }
}

// The right side is looked at where something is evident of the left one.
#[cycle(evidence)]
fn operator_evidence(operator: BinaryOperator, node: &Node) -> Option<Evidence>
    ensures { result ≡ term.binary_evidence operator (nth_evidence (each_evidence (children node.now)) 0) (nth_evidence (each_evidence (children node.now)) 1) }
{
    match child_evidence(node, 0) {
        Some(left) => right_evidence(operator, left, child_evidence(node, 1)),
        None => None,
    }
}

fn first_decided(
    operator: LogicalOperator,
    left: Option<Evidence>,
    right: Evidence,
) -> Option<Evidence>
    ensures { result ≡ term.logical_evidence operator left (Some right) }
{
    match left {
        Some(evidence) => Some(decided(operator, evidence, right)),
        None => None,
    }
}

// The left side is looked at last where it may nest deep, and else the right one.
#[cycle(evidence)]
#[tactic(auto, using(crate::proofs::Pieces::no_right))]
fn logical_evidence(operator: LogicalOperator, node: &Node) -> Option<Evidence>
    ensures { result ≡ term.logical_evidence operator (nth_evidence (each_evidence (children node.now)) 0) (nth_evidence (each_evidence (children node.now)) 1) }
{
    if is_choice_at(node, 0) {
        return match child_evidence(node, 1) {
            Some(right) => first_decided(operator, child_evidence(node, 0), right),
            None => None,
        };
    }
    match child_evidence(node, 0) {
        Some(left) => last_decided(operator, left, child_evidence(node, 1)),
        None => None,
    }
}

#[cycle(evidence)]
fn conditional_evidence(node: &Node) -> Option<Evidence>
    ensures { result ≡ term.conditional_evidence (nth_evidence (each_evidence (children node.now)) 0) (nth_evidence (each_evidence (children node.now)) 1) (nth_evidence (each_evidence (children node.now)) 2) }
{
    match child_evidence(node, 0) {
        Some(test) => branch(test, child_evidence(node, 1), child_evidence(node, 2)),
        None => None,
    }
}

// What is evident of the constant of an expression.
#[cycle(evidence)]
#[tactic(auto, using(crate::proofs::Pieces::evidence_is))]
fn evidence_of(node: &Node) -> Option<Evidence>
    ensures { result ≡ term.evidence node.now }
{
    match node.shape() {
        Shape::Listed => last_evidence(node),
        Shape::Identifier => undefined_if(is_undefined_name(node.name())),
        Shape::NumericLiteral(number) => Some(Evidence::Number(*number)),
        Shape::StringLiteral(text) => Some(text_evidence(text.as_slice())),
        Shape::BooleanLiteral(value) => Some(Evidence::Boolean(*value)),
        Shape::NullLiteral => Some(Evidence::Null),
        Shape::UnaryExpression(operator) => unary_evidence(*operator, child_evidence(node, 0)),
        Shape::BinaryExpression(operator) => operator_evidence(*operator, node),
        Shape::LogicalExpression(operator) => logical_evidence(*operator, node),
        Shape::ConditionalExpression => conditional_evidence(node),
        Shape::SequenceExpression => child_evidence(node, 0),
        Shape::TemplateLiteral => template_evidence(node),
        _ => None,
    }
}

/// Whether an expression counts as true, where no text has to be made for that.
pub fn evident_truth(node: &Node) -> Option<bool>
    ensures { result ≡ term.evident_truth node.now }
{
    match evidence_of(node) {
        Some(known) => Some(counts(known)),
        None => object_truth(kind_of(node)),
    }
}

// An object counts as true.
pub fn object_truth(kind: Kind) -> Option<bool>
    ensures { result ≡ term.truth_by None kind }
{
    match kind {
        Kind::Object => Some(true),
        _ => None,
    }
}
