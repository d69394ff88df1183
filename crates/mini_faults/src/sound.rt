// What a node must be beside the parts of its production, and what a part is that isn't in the
// text.

ghost use Rattle.std.specs.Prelude.{◌≡◌, ◌&&◌, true, IfOk};
ghost use Rattle.mini_model.specs.Templates.{cooked};
ghost use Rattle.mini_model.specs.Tree.{shape_of, children};
ghost use Rattle.mini_model.specs.Weight.{same_text};
ghost use Rattle.mini_model.specs.declared.operator.UnaryOperator.TheVariants as unary;
ghost use Rattle.mini_model.specs.declared.shape.Shape.TheVariants as shapes;
ghost use Rattle.mini_node.specs.Children.{names_of, trees_of};
ghost use Rattle.mini_print.specs.Grammar as grammar;
ghost use Rattle.mini_print.specs.Printed as printed;
ghost use Rattle.mini_grammar.specs.Pieces.{flag_of, own_text, silent_of};
ghost use Rattle.mini_grammar.specs.Views.{rule_of};
ghost use Rattle.mini_faults.specs.Wants.{has_no_trees, is_leaf, is_positive, is_positive_shape, is_spelled};

use mini_grammar::{
    Rule, Silent, first_part, is_absent, is_same_flag, is_same_text, only_name, own_flag, own_text,
    second_part, units_of,
};
use mini_model::{BoxedText, MethodDefinitionKind, OutOfMemory, Shape, Text, UnaryOperator, cook};
use mini_node::Node;
use std::alloc::Global;

const CONSTRUCTOR: [u16; 11] = [99, 111, 110, 115, 116, 114, 117, 99, 116, 111, 114];

fn is_same_cooked(own: &Option<BoxedText>, read: &Option<Text>) -> bool
    ensures { result ≡ printed.same_cooked own.now read.now }
{
    match (own, read) {
        (None, None) => true,
        (Some(own), Some(read)) => is_same_text(own.text().as_slice(), read.as_slice()),
        _ => false,
    }
}

// Whether the cooked text of a piece is that of its raw one.
fn is_cooked(alloc: Global, raw: &Text, own: &Option<BoxedText>) -> Result<bool, OutOfMemory>
    ensures { IfOk result (λ same. same ≡ printed.same_cooked own.now (cooked raw.now)) }
{
    let read = cook(alloc, raw)?;
    Ok(is_same_cooked(own, &read))
}

fn is_positive(value: i64) -> bool
    ensures { result ≡ is_positive value }
{
    let size = value.unsigned_abs();
    if value >= 0 { size > 0 } else { false }
}

fn is_positive_literal(shape: &Shape) -> bool
    ensures { result ≡ is_positive_shape shape.now }
{
    match shape {
        Shape::NumericLiteral(value) => is_positive(*value),
        _ => false,
    }
}

// Whether there is one part, and that is no positive number.
#[tactic(auto, using(crate::proofs::Shapes::positive_is))]
fn is_negatable(parts: &[Node]) -> bool
    ensures { result ≡ printed.is_sound (shapes.UnaryExpression unary.UnaryNegation) (trees_of parts.now) }
{
    let Some((part, others)) = parts.split_first() else {
        return false;
    };
    match others.split_first() {
        Some(_) => false,
        None => !is_positive_literal(part.shape()),
    }
}

fn is_private(shape: &Shape) -> bool
    ensures { result ≡ grammar.is_private_shape shape.now }
{
    matches!(shape, Shape::PrivateIdentifier(_))
}

// Whether the second part is a private name.
#[tactic(auto, using(crate::proofs::Shapes::private_by))]
fn has_private(parts: &[Node]) -> bool
    ensures { result ≡ grammar.has_private (trees_of parts.now) }
{
    match second_part(parts) {
        Some(part) => is_private(part.shape()),
        None => false,
    }
}

// Whether there are two parts, of which the second is absent.
#[tactic(auto, using(crate::proofs::Shapes::absent_is))]
fn second_is_absent(parts: &[Node]) -> bool
    ensures { result ≡ printed.second_is_absent (trees_of parts.now) }
{
    let Some((_, more)) = parts.split_first() else {
        return false;
    };
    let Some((second, others)) = more.split_first() else {
        return false;
    };
    match others.split_first() {
        Some(_) => false,
        None => is_absent(second),
    }
}

fn is_constructor(shape: &Shape) -> bool
    ensures { result ≡ grammar.constructor_shape shape.now }
{
    match shape {
        Shape::IdentifierName(text) | Shape::StringLiteral(text) => {
            is_same_text(text.as_slice(), &CONSTRUCTOR)
        }
        _ => false,
    }
}

// Whether the first part is the name `constructor`.
#[tactic(auto, using(crate::proofs::Shapes::constructs_by))]
fn names_constructor(parts: &[Node]) -> bool
    ensures { result ≡ grammar.constructor_shape (grammar.first_shape (trees_of parts.now)) }
{
    match first_part(parts) {
        Some(part) => is_constructor(part.shape()),
        None => false,
    }
}

// What a method is behind `static`.
fn static_kind(kind: MethodDefinitionKind) -> MethodDefinitionKind
    ensures { result ≡ grammar.static_kind kind }
{
    match kind {
        MethodDefinitionKind::Constructor => MethodDefinitionKind::Method,
        MethodDefinitionKind::Method | MethodDefinitionKind::Get | MethodDefinitionKind::Set => {
            kind
        }
    }
}

fn is_same_kind(first: MethodDefinitionKind, second: MethodDefinitionKind) -> bool
    ensures { result ≡ printed.same_kind first second }
{
    match (first, second) {
        (MethodDefinitionKind::Constructor, MethodDefinitionKind::Constructor)
        | (MethodDefinitionKind::Method, MethodDefinitionKind::Method)
        | (MethodDefinitionKind::Get, MethodDefinitionKind::Get)
        | (MethodDefinitionKind::Set, MethodDefinitionKind::Set) => true,
        _ => false,
    }
}

#[tactic(auto, using(crate::proofs::Shapes::static_method))]
fn is_static_method(kind: MethodDefinitionKind, computed: bool, element: &Shape) -> bool
    ensures { result ≡ printed.same_member (grammar.static_shape element.now) (shapes.MethodDefinition kind computed true) }
{
    match element {
        Shape::MethodDefinition(own, own_computed, _) => {
            is_same_kind(static_kind(*own), kind) && is_same_flag(*own_computed, computed)
        }
        _ => false,
    }
}

#[tactic(auto, using(crate::proofs::Shapes::static_field))]
fn is_static_field(computed: bool, element: &Shape) -> bool
    ensures { result ≡ printed.same_member (grammar.static_shape element.now) (shapes.PropertyDefinition computed true) }
{
    match element {
        Shape::PropertyDefinition(own_computed, _) => is_same_flag(*own_computed, computed),
        _ => false,
    }
}

#[tactic(auto, using(crate::proofs::Shapes::first_by))]
fn is_sound_method(
    kind: MethodDefinitionKind,
    computed: bool,
    is_static: bool,
    parts: &[Node],
) -> bool
    ensures { result ≡ printed.is_sound (shapes.MethodDefinition kind computed is_static) (trees_of parts.now) }
{
    if is_static {
        return match first_part(parts) {
            Some(part) => is_static_method(kind, computed, part.shape()),
            None => false,
        };
    }
    match (kind, computed) {
        (MethodDefinitionKind::Constructor, false) => names_constructor(parts),
        (MethodDefinitionKind::Method, false) => !names_constructor(parts),
        _ => true,
    }
}

#[tactic(auto, using(crate::proofs::Shapes::first_by))]
fn is_sound_field(computed: bool, is_static: bool, parts: &[Node]) -> bool
    ensures { result ≡ printed.is_sound (shapes.PropertyDefinition computed is_static) (trees_of parts.now) }
{
    if !is_static {
        return true;
    }
    match first_part(parts) {
        Some(part) => is_static_field(computed, part.shape()),
        None => false,
    }
}

/// Whether a node is as its production wants it, beside its parts: no `-` over a positive number, a
/// private name where there has to be one, the cooked text of its raw one, a constructor by its
/// name. The only error is that memory runs out.
pub fn is_sound(alloc: Global, node: &Node) -> Result<bool, OutOfMemory>
    ensures { IfOk result (λ sound. sound ≡ printed.is_sound (shape_of node.now) (children node.now)) }
{
    let parts = node.parts();
    match node.shape() {
        Shape::TemplateElement(_, raw, own) => is_cooked(alloc, raw.text(), own),
        Shape::UnaryExpression(UnaryOperator::UnaryNegation) => Ok(is_negatable(parts)),
        Shape::StaticMemberExpression(_) => Ok(!has_private(parts)),
        Shape::PrivateFieldExpression(_) => Ok(has_private(parts)),
        Shape::AssignmentPattern => Ok(!second_is_absent(parts)),
        Shape::MethodDefinition(kind, computed, is_static) => {
            Ok(is_sound_method(*kind, *computed, *is_static, parts))
        }
        Shape::PropertyDefinition(computed, is_static) => {
            Ok(is_sound_field(*computed, *is_static, parts))
        }
        _ => Ok(true),
    }
}

fn has_no_parts(node: &Node) -> bool
    ensures { result ≡ has_no_trees (children node.now) }
{
    match node.parts().split_first() {
        Some(_) => false,
        None => true,
    }
}

fn is_leaf(node: &Node) -> bool
    ensures { result ≡ is_leaf (names_of node.now) (children node.now) }
{
    match node.name() {
        Some(_) => false,
        None => has_no_parts(node),
    }
}

// Whether a node has this name, and no parts.
#[tactic(auto, using(crate::proofs::Shapes::spelled_by))]
fn is_spelled(node: &Node, text: &[u16]) -> bool
    ensures { result ≡ is_spelled text.now (names_of node.now) (children node.now) }
{
    match node.name() {
        Some(name) => has_no_parts(node) && is_same_text(name.spelling.as_slice(), text),
        None => false,
    }
}

/// Whether a node stands for nothing.
#[tactic(auto, using(crate::proofs::Shapes::nothing_by))]
pub fn is_nothing(node: &Node) -> bool
    ensures { result ≡ printed.is_nothing (shape_of node.now) (names_of node.now) (children node.now) }
{
    match node.shape() {
        Shape::Absent => is_leaf(node),
        _ => false,
    }
}

#[tactic(auto, using(crate::proofs::Shapes::word_by))]
fn is_word(node: &Node, text: &[u16]) -> bool
    ensures { result ≡ printed.is_silent (grammar.NameOf text.now) (shape_of node.now) (names_of node.now) (children node.now) }
{
    match node.shape() {
        Shape::IdentifierName(own) => is_leaf(node) && is_same_text(own.as_slice(), text),
        _ => false,
    }
}

#[tactic(auto, using(crate::proofs::Shapes::binding_by))]
fn is_binding(node: &Node, text: &[u16]) -> bool
    ensures { result ≡ printed.is_silent (grammar.BindingOf text.now) (shape_of node.now) (names_of node.now) (children node.now) }
{
    match node.shape() {
        Shape::BindingIdentifier => is_spelled(node, text),
        _ => false,
    }
}

#[tactic(auto, using(crate::proofs::Shapes::reference_by))]
fn is_reference(node: &Node, text: &[u16]) -> bool
    ensures { result ≡ printed.is_silent (grammar.ReferenceOf text.now) (shape_of node.now) (names_of node.now) (children node.now) }
{
    match node.shape() {
        Shape::Identifier => is_spelled(node, text),
        _ => false,
    }
}

#[tactic(auto, using(crate::proofs::Shapes::private_name_by))]
fn is_private_name(node: &Node, text: &[u16]) -> bool
    ensures { result ≡ printed.is_silent (grammar.PrivateOf text.now) (shape_of node.now) (names_of node.now) (children node.now) }
{
    match node.shape() {
        Shape::PrivateIdentifier(own) => is_leaf(node) && is_same_text(own.as_slice(), text),
        _ => false,
    }
}

#[tactic(auto, using(crate::proofs::Shapes::text_by))]
fn is_text(node: &Node, text: &[u16]) -> bool
    ensures { result ≡ printed.is_silent (grammar.TextOf text.now) (shape_of node.now) (names_of node.now) (children node.now) }
{
    match node.shape() {
        Shape::StringLiteral(own) => is_leaf(node) && is_same_text(own.as_slice(), text),
        _ => false,
    }
}

#[tactic(auto, using(crate::proofs::Shapes::super_by))]
fn is_super(node: &Node) -> bool
    ensures { result ≡ printed.is_silent grammar.SuperHere (shape_of node.now) (names_of node.now) (children node.now) }
{
    match node.shape() {
        Shape::Super => is_leaf(node),
        _ => false,
    }
}

#[tactic(auto, using(crate::proofs::Shapes::no_items_by))]
fn is_no_items(node: &Node) -> bool
    ensures { result ≡ printed.is_silent grammar.NoItems (shape_of node.now) (names_of node.now) (children node.now) }
{
    match node.shape() {
        Shape::Listed => is_leaf(node),
        _ => false,
    }
}

// Whether a node is a list of this name, declared.
#[tactic(auto, using(crate::proofs::Shapes::parameter_by))]
fn is_parameter(node: &Node, text: &[u16]) -> bool
    ensures { result ≡ printed.is_silent (grammar.ParameterOf text.now) (shape_of node.now) (names_of node.now) (children node.now) }
{
    match only_name(node) {
        Some(own) => is_same_text(own, text),
        None => false,
    }
}

// Whether a node is the name of a property whose default this is: declared, or referred to.
fn is_taker<'a>(node: &Node, rule: Rule<'a>) -> bool
    ensures { result ≡ printed.is_silent (grammar.named (flag_of (rule_of rule.entry)) (own_text (rule_of rule.entry))) (shape_of node.now) (names_of node.now) (children node.now) }
{
    if own_flag(rule) {
        is_binding(node, own_text(rule))
    } else {
        is_reference(node, own_text(rule))
    }
}

// Whether a node without name and parts has this flag and this text.
fn is_leaf_of(node: &Node, tail: bool, last: bool, raw: &Text, text: &[u16]) -> bool
    ensures { result ≡ (is_leaf (names_of node.now) (children node.now) && (grammar.same_flag tail last && same_text raw.now text.now)) }
{
    is_leaf(node) && (is_same_flag(tail, last) && is_same_text(raw.as_slice(), text))
}

// Whether a node is a piece of a template, the last or not, of this raw text.
#[tactic(auto, using(crate::proofs::Shapes::piece_by, crate::proofs::Shapes::no_piece))]
fn is_piece(alloc: Global, last: bool, text: &[u16], node: &Node) -> Result<bool, OutOfMemory>
    ensures { IfOk result (λ same. same ≡ printed.is_silent (grammar.PieceOf last text.now) (shape_of node.now) (names_of node.now) (children node.now)) }
{
    match node.shape() {
        Shape::TemplateElement(tail, raw, own) => {
            if !is_leaf_of(node, *tail, last, raw.text(), text) {
                return Ok(false);
            }
            is_cooked(alloc, raw.text(), own)
        }
        _ => Ok(false),
    }
}

/// Whether a node is what a production wants of a part that isn't in the text. The only error is
/// that memory runs out.
pub fn is_silent<'a>(
    alloc: Global,
    silent: Silent,
    rule: Rule<'a>,
    node: &Node,
) -> Result<bool, OutOfMemory>
    ensures { IfOk result (λ same. same ≡ printed.is_silent (silent_of (rule_of rule.entry) silent) (shape_of node.now) (names_of node.now) (children node.now)) }
{
    match silent {
        Silent::Piece(last) => is_piece(alloc, last, own_text(rule), node),
        Silent::Nothing => Ok(is_nothing(node)),
        Silent::Super => Ok(is_super(node)),
        Silent::Name => Ok(is_word(node, own_text(rule))),
        Silent::Word(word) => Ok(is_word(node, units_of(word))),
        Silent::Binding => Ok(is_binding(node, own_text(rule))),
        Silent::Reference => Ok(is_reference(node, own_text(rule))),
        Silent::Named => Ok(is_taker(node, rule)),
        Silent::Private => Ok(is_private_name(node, own_text(rule))),
        Silent::Text => Ok(is_text(node, own_text(rule))),
        Silent::NoItems => Ok(is_no_items(node)),
        Silent::Parameter => Ok(is_parameter(node, own_text(rule))),
    }
}
