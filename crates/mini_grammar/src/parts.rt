// What the parts of a node tell of its production.

ghost use Rattle.std.specs.Prelude.{◌≡◌, ◌&&◌};
ghost use Rattle.std.specs.Option.{option_copied};
ghost use Rattle.mini_model.specs.Tree.{children, shape_of, is_absent as absent_tree};
ghost use Rattle.mini_model.specs.Weight.{same_text};
ghost use Rattle.mini_model.specs.declared.shape.Shape.TheVariants as shape;
ghost use Rattle.mini_model.specs.declared.operator.AssignmentOperator.TheVariants as assignment;
ghost use Rattle.mini_node.specs.Children.{trees_of, names, names_of};
ghost use Rattle.mini_print.specs.Grammar as grammar;
ghost use Rattle.mini_print.specs.Printed as printed;
ghost use Rattle.mini_print.specs.Grammar.{first_shape, same_flag};
ghost use Rattle.mini_grammar.specs.Firsts.{first_tree, second_tree, third_tree, fourth_tree, is_body, is_list_of_some, name_text, spelling_by, spelling_in, raw_by, name_of_first, name_of_leaf, name_of_one, is_bare_list, has_none_in};
ghost use Rattle.mini_grammar.specs.Views.{rule_of};

use crate::grammar::{Fixed, Rule};
use mini_model::{AssignmentOperator, Name, Shape};
use mini_node::Node;

/// The first part.
pub fn first_part<'a>(parts: &'a [Node]) -> Option<&'a Node>
    ensures { option_copied result ≡ first_tree (trees_of parts.now) }
{
    let (part, _) = parts.split_first()?;
    Some(part)
}

/// The second part.
pub fn second_part<'a>(parts: &'a [Node]) -> Option<&'a Node>
    ensures { option_copied result ≡ second_tree (trees_of parts.now) }
{
    let (_, more) = parts.split_first()?;
    first_part(more)
}

fn third_part<'a>(parts: &'a [Node]) -> Option<&'a Node>
    ensures { option_copied result ≡ third_tree (trees_of parts.now) }
{
    let (_, more) = parts.split_first()?;
    second_part(more)
}

fn fourth_part<'a>(parts: &'a [Node]) -> Option<&'a Node>
    ensures { option_copied result ≡ fourth_tree (trees_of parts.now) }
{
    let (_, more) = parts.split_first()?;
    third_part(more)
}

fn is_body(shape: &Shape) -> bool
    ensures { result ≡ is_body shape.now }
{
    matches!(shape, Shape::FunctionBody)
}

/// Whether the second of two parts is a body in braces.
#[tactic(auto, using(crate::proofs::Leads::body_alone, crate::proofs::Leads::body_more))]
pub fn has_body(parts: &[Node]) -> bool
    ensures { result ≡ printed.has_body (trees_of parts.now) }
{
    let Some((_, more)) = parts.split_first() else {
        return false;
    };
    let Some((second, others)) = more.split_first() else {
        return false;
    };
    match others.split_first() {
        Some(_) => false,
        None => is_body(second.shape()),
    }
}

fn generates(shape: &Shape) -> bool
    ensures { result ≡ printed.generates shape.now }
{
    matches!(shape, Shape::Function(_, true, _))
}

/// Whether the second part is a generator function.
#[tactic(auto, using(crate::proofs::Leads::generates_by))]
pub fn second_generates(parts: &[Node]) -> bool
    ensures { result ≡ printed.second_generates (trees_of parts.now) }
{
    match second_part(parts) {
        Some(part) => generates(part.shape()),
        None => false,
    }
}

fn is_default(shape: &Shape) -> bool
    ensures { result ≡ printed.has_default_shape shape.now }
{
    matches!(shape, Shape::AssignmentPattern)
}

/// Whether the second part has a default.
#[tactic(auto, using(crate::proofs::Leads::default_by))]
pub fn has_default(parts: &[Node]) -> bool
    ensures { result ≡ printed.has_default (trees_of parts.now) }
{
    match second_part(parts) {
        Some(part) => is_default(part.shape()),
        None => false,
    }
}

fn is_declaration(shape: &Shape) -> bool
    ensures { result ≡ printed.is_declaration shape.now }
{
    matches!(shape, Shape::VariableDeclaration(_))
}

/// Whether the first part is a declaration.
#[tactic(auto, using(crate::proofs::Leads::declares_by))]
pub fn declares_first(parts: &[Node]) -> bool
    ensures { result ≡ printed.declares_first (trees_of parts.now) }
{
    match first_part(parts) {
        Some(part) => is_declaration(part.shape()),
        None => false,
    }
}

fn is_target(shape: &Shape) -> bool
    ensures { result ≡ printed.is_target_shape shape.now }
{
    matches!(
        shape,
        Shape::ArrayAssignmentTarget | Shape::ObjectAssignmentTarget
    )
}

/// Whether the first part is a pattern that is assigned to.
#[tactic(auto, using(crate::proofs::Leads::assigns_by))]
pub fn assigns_first(parts: &[Node]) -> bool
    ensures { result ≡ printed.assigns_first (trees_of parts.now) }
{
    match first_part(parts) {
        Some(part) => is_target(part.shape()),
        None => false,
    }
}

/// Whether a node stands for a part that is absent.
#[tactic(auto, using(crate::proofs::Leads::absent_by))]
pub fn is_absent(node: &Node) -> bool
    ensures { result ≡ printed.is_absent_shape (shape_of node.now) }
{
    matches!(node.shape(), Shape::Absent)
}

/// Whether the first part is absent.
#[tactic(auto, using(crate::proofs::Leads::absent_by))]
pub fn first_is_absent(parts: &[Node]) -> bool
    ensures { result ≡ printed.first_is_absent (trees_of parts.now) }
{
    match first_part(parts) {
        Some(part) => is_absent(part),
        None => false,
    }
}

/// Whether there is one part.
pub fn is_one(parts: &[Node]) -> bool
    ensures { result ≡ printed.is_one (trees_of parts.now) }
{
    let Some((_, others)) = parts.split_first() else {
        return false;
    };
    match others.split_first() {
        Some(_) => false,
        None => true,
    }
}

fn name_spelling<'a>(name: &'a Option<Name>) -> &'a [u16]
    ensures { result.now ≡ spelling_by shape.BindingIdentifier (names name.now) }
{
    match name {
        Some(name) => name.spelling.as_slice(),
        None => &[],
    }
}

#[tactic(auto, using(crate::proofs::Leads::spelling_is))]
fn spelling_of<'a>(node: &'a Node) -> &'a [u16]
    ensures { result.now ≡ spelling_in node.now }
{
    match node.shape() {
        Shape::IdentifierName(text) | Shape::PrivateIdentifier(text) => text.as_slice(),
        Shape::BindingIdentifier => name_spelling(node.name()),
        _ => &[],
    }
}

/// The spelling of the first part, a name.
#[tactic(auto, using(crate::proofs::Leads::spelling_first))]
pub fn first_spelling<'a>(parts: &'a [Node]) -> &'a [u16]
    ensures { result.now ≡ printed.first_spelling (trees_of parts.now) }
{
    match first_part(parts) {
        Some(part) => spelling_of(part),
        None => &[],
    }
}

fn raw_of<'a>(shape: &'a Shape) -> &'a [u16]
    ensures { result.now ≡ raw_by shape.now }
{
    match shape {
        Shape::TemplateElement(_, raw, _) => raw.text().as_slice(),
        _ => &[],
    }
}

/// The raw text of the first part, a piece of a template.
#[tactic(auto, using(crate::proofs::Leads::raw_first))]
pub fn first_raw<'a>(parts: &'a [Node]) -> &'a [u16]
    ensures { result.now ≡ printed.first_raw (trees_of parts.now) }
{
    match first_part(parts) {
        Some(part) => raw_of(part.shape()),
        None => &[],
    }
}

fn element_of<'a>(shape: &Shape) -> Rule<'a>
    ensures { rule_of result ≡ printed.element_of (printed.taker shape.now) }
{
    match shape {
        Shape::BindingIdentifier | Shape::ObjectPattern | Shape::ArrayPattern => Rule::Fixed(
            Fixed::Defaulted,
        ),
        Shape::ObjectAssignmentTarget | Shape::ArrayAssignmentTarget => Rule::Fixed(
            Fixed::PatternItem,
        ),
        _ => Rule::Fixed(Fixed::ValueItem),
    }
}

/// The production of an element with a default, by what it is assigned to.
#[tactic(auto, using(crate::proofs::Leads::shape_first))]
pub fn element_rule<'a>(parts: &[Node]) -> Rule<'a>
    ensures { rule_of result ≡ printed.element_of (printed.taker (first_shape (trees_of parts.now))) }
{
    match first_part(parts) {
        Some(part) => element_of(part.shape()),
        None => Rule::Fixed(Fixed::ValueItem),
    }
}

fn rest_of<'a>(shape: &Shape) -> Rule<'a>
    ensures { rule_of result ≡ printed.rest_of (printed.taker shape.now) }
{
    match shape {
        Shape::BindingIdentifier | Shape::ObjectPattern | Shape::ArrayPattern => Rule::Fixed(
            Fixed::Rest,
        ),
        Shape::ObjectAssignmentTarget | Shape::ArrayAssignmentTarget => Rule::Fixed(
            Fixed::PatternRest,
        ),
        _ => Rule::Fixed(Fixed::ValueRest),
    }
}

/// The production of a rest, by what it is assigned to.
#[tactic(auto, using(crate::proofs::Leads::shape_first))]
pub fn rest_rule<'a>(parts: &[Node]) -> Rule<'a>
    ensures { rule_of result ≡ printed.rest_of (printed.taker (first_shape (trees_of parts.now))) }
{
    match first_part(parts) {
        Some(part) => rest_of(part.shape()),
        None => Rule::Fixed(Fixed::ValueRest),
    }
}

#[tactic(auto, using(crate::proofs::Leads::pattern_assigned, crate::proofs::Leads::value_assigned))]
fn plain_assignment<'a>(parts: &[Node]) -> Rule<'a>
    ensures { rule_of result ≡ printed.assignment_of assignment.Assign (printed.taker (first_shape (trees_of parts.now))) }
{
    if assigns_first(parts) {
        Rule::Fixed(Fixed::PatternAssignment)
    } else {
        Rule::Assignment(AssignmentOperator::Assign)
    }
}

/// The production of an assignment, by what is assigned to.
pub fn assignment_rule<'a>(operator: AssignmentOperator, parts: &[Node]) -> Rule<'a>
    ensures { rule_of result ≡ printed.assignment_of operator (printed.taker (first_shape (trees_of parts.now))) }
{
    match operator {
        AssignmentOperator::Assign => plain_assignment(parts),
        _ => Rule::Assignment(operator),
    }
}

fn declares(shape: &Shape) -> bool
    ensures { result ≡ printed.declares_default shape.now }
{
    match shape {
        Shape::Function(declaration, _, _) | Shape::Class(declaration) => *declaration,
        _ => false,
    }
}

/// Whether the first part is the declaration of a function or a class.
#[tactic(auto, using(crate::proofs::Leads::declares_default_by))]
pub fn declares_default(parts: &[Node]) -> bool
    ensures { result ≡ printed.declares_default (first_shape (trees_of parts.now)) }
{
    match first_part(parts) {
        Some(part) => declares(part.shape()),
        None => false,
    }
}

/// Whether the second part is absent, or there is none.
#[tactic(auto, using(crate::proofs::Leads::at_second, crate::proofs::Leads::absent_is))]
pub fn second_is_absent(parts: &[Node]) -> bool
    ensures { result ≡ absent_tree (printed.part_at 1 (trees_of parts.now)) }
{
    match second_part(parts) {
        Some(part) => is_absent(part),
        None => true,
    }
}

/// Whether the third part is absent, or there is none.
#[tactic(auto, using(crate::proofs::Leads::at_third, crate::proofs::Leads::absent_is))]
pub fn third_is_absent(parts: &[Node]) -> bool
    ensures { result ≡ absent_tree (printed.part_at 2 (trees_of parts.now)) }
{
    match third_part(parts) {
        Some(part) => is_absent(part),
        None => true,
    }
}

fn is_list_of_some(shape: &Shape, parts: &[Node]) -> bool
    ensures { result ≡ is_list_of_some shape.now (trees_of parts.now) }
{
    match parts.split_first() {
        Some(_) => matches!(shape, Shape::Listed),
        None => false,
    }
}

/// Whether the third part is a list that isn't empty.
#[tactic(auto, using(crate::proofs::Leads::at_third, crate::proofs::Leads::items_are))]
pub fn third_has_items(parts: &[Node]) -> bool
    ensures { result ≡ printed.has_items (printed.part_at 2 (trees_of parts.now)) }
{
    match third_part(parts) {
        Some(part) => is_list_of_some(part.shape(), part.parts()),
        None => false,
    }
}

fn name_text<'a>(name: &'a Option<Name>) -> &'a [u16]
    ensures { result.now ≡ name_text (names name.now) }
{
    match name {
        Some(name) => name.spelling.as_slice(),
        None => &[],
    }
}

// The spelling of a name or a text; the empty text for any other node.
#[tactic(auto, using(crate::proofs::Leads::word_is))]
fn word_of<'a>(node: &'a Node) -> &'a [u16]
    ensures { result.now ≡ printed.spelling_of node.now }
{
    match node.shape() {
        Shape::IdentifierName(text) | Shape::StringLiteral(text) => text.as_slice(),
        Shape::Identifier | Shape::BindingIdentifier => name_text(node.name()),
        _ => &[],
    }
}

/// The spelling of the first part, a name or a text.
#[tactic(auto, using(crate::proofs::Leads::at_first))]
pub fn first_word<'a>(parts: &'a [Node]) -> &'a [u16]
    ensures { result.now ≡ printed.spelling_of (printed.part_at 0 (trees_of parts.now)) }
{
    match first_part(parts) {
        Some(part) => word_of(part),
        None => &[],
    }
}

/// The spelling of the fourth part, a name or a text.
#[tactic(auto, using(crate::proofs::Leads::at_fourth))]
pub fn fourth_word<'a>(parts: &'a [Node]) -> &'a [u16]
    ensures { result.now ≡ printed.spelling_of (printed.part_at 3 (trees_of parts.now)) }
{
    match fourth_part(parts) {
        Some(part) => word_of(part),
        None => &[],
    }
}

#[tactic(auto, using(crate::proofs::Leads::text_is))]
fn is_text(node: &Node) -> bool
    ensures { result ≡ printed.is_text node.now }
{
    matches!(node.shape(), Shape::StringLiteral(_))
}

/// Whether the first part is a text.
#[tactic(auto, using(crate::proofs::Leads::at_first))]
pub fn first_is_text(parts: &[Node]) -> bool
    ensures { result ≡ printed.is_text (printed.part_at 0 (trees_of parts.now)) }
{
    match first_part(parts) {
        Some(part) => is_text(part),
        None => false,
    }
}

#[tactic(auto, using(crate::proofs::Leads::reference_is))]
fn is_reference(node: &Node) -> bool
    ensures { result ≡ printed.is_reference node.now }
{
    matches!(node.shape(), Shape::Identifier)
}

/// Whether the first part is a reference.
#[tactic(auto, using(crate::proofs::Leads::at_first))]
pub fn first_is_reference(parts: &[Node]) -> bool
    ensures { result ≡ printed.is_reference (printed.part_at 0 (trees_of parts.now)) }
{
    match first_part(parts) {
        Some(part) => is_reference(part),
        None => false,
    }
}

/// Whether two texts are the same.
pub fn is_same_text(first: &[u16], second: &[u16]) -> bool
    ensures { result ≡ same_text first.now second.now }
{
    first == second
}

/// Whether two flags are the same.
pub fn is_same_flag(first: bool, second: bool) -> bool
    ensures { result ≡ same_flag first second }
{
    first == second
}

fn is_same_name(first: &Node, second: &Node) -> bool
    ensures { result ≡ (same_flag (printed.is_text first.now) (printed.is_text second.now) && same_text (printed.spelling_of first.now) (printed.spelling_of second.now)) }
{
    is_same_flag(is_text(first), is_text(second)) && is_same_text(word_of(first), word_of(second))
}

/// Whether there are two parts, names or texts, that are the same.
pub fn is_repeated(parts: &[Node]) -> bool
    ensures { result ≡ printed.is_repeated (trees_of parts.now) }
{
    let Some((first, more)) = parts.split_first() else {
        return false;
    };
    let Some((second, others)) = more.split_first() else {
        return false;
    };
    match others.split_first() {
        Some(_) => false,
        None => is_same_name(first, second),
    }
}

fn spelled_leaf<'a>(node: &'a Node) -> Option<&'a [u16]>
    ensures { option_copied result ≡ name_of_leaf shape.BindingIdentifier (names_of node.now) (children node.now) }
{
    match node.name() {
        Some(name) => match node.parts().split_first() {
            Some(_) => None,
            None => Some(name.spelling.as_slice()),
        },
        None => None,
    }
}

fn name_of_leaf<'a>(node: &'a Node) -> Option<&'a [u16]>
    ensures { option_copied result ≡ name_of_leaf (shape_of node.now) (names_of node.now) (children node.now) }
{
    match node.shape() {
        Shape::BindingIdentifier => spelled_leaf(node),
        _ => None,
    }
}

fn name_of_one<'a>(parts: &'a [Node]) -> Option<&'a [u16]>
    ensures { option_copied result ≡ name_of_one (trees_of parts.now) }
{
    let (part, others) = parts.split_first()?;
    match others.split_first() {
        Some(_) => None,
        None => name_of_leaf(part),
    }
}

/// The name that is all that a list holds.
#[tactic(auto, using(crate::proofs::Leads::only_by))]
pub fn only_name<'a>(list: &'a Node) -> Option<&'a [u16]>
    ensures { option_copied result ≡ printed.only_name list.now }
{
    match list.name() {
        Some(_) => None,
        None => match list.shape() {
            Shape::Listed => name_of_one(list.parts()),
            _ => None,
        },
    }
}

fn name_of_first<'a>(parts: &'a [Node]) -> Option<&'a [u16]>
    ensures { option_copied result ≡ name_of_first (first_tree (trees_of parts.now)) }
{
    match first_part(parts) {
        Some(part) => only_name(part),
        None => None,
    }
}

#[tactic(auto, using(crate::proofs::Leads::arrow_styled))]
fn short_arrow<'a>(parts: &'a [Node]) -> Rule<'a>
    ensures { rule_of result ≡ printed.styled grammar.Arrow printed.Short (trees_of parts.now) }
{
    match name_of_first(parts) {
        Some(text) => Rule::ArrowName(text),
        None => Rule::Fixed(Fixed::Arrow),
    }
}

#[tactic(auto, using(crate::proofs::Leads::block_styled))]
fn short_arrow_block<'a>(parts: &'a [Node]) -> Rule<'a>
    ensures { rule_of result ≡ printed.styled grammar.ArrowBlock printed.Short (trees_of parts.now) }
{
    match name_of_first(parts) {
        Some(text) => Rule::ArrowNameBlock(text),
        None => Rule::Fixed(Fixed::ArrowBlock),
    }
}

fn is_bare(list: &Node) -> bool
    ensures { result ≡ is_bare_list shape.Listed (names_of list.now) (children list.now) }
{
    match list.name() {
        Some(_) => false,
        None => match list.parts().split_first() {
            Some(_) => false,
            None => true,
        },
    }
}

// Whether a list has nothing.
#[tactic(auto, using(crate::proofs::Leads::bare_list_by))]
fn has_no_items(list: &Node) -> bool
    ensures { result ≡ printed.has_no_items list.now }
{
    match list.shape() {
        Shape::Listed => is_bare(list),
        _ => false,
    }
}

fn has_none_in(parts: &[Node]) -> bool
    ensures { result ≡ has_none_in (second_tree (trees_of parts.now)) }
{
    match second_part(parts) {
        Some(part) => has_no_items(part),
        None => false,
    }
}

#[tactic(auto, using(crate::proofs::Leads::new_styled))]
fn short_new<'a>(parts: &[Node]) -> Rule<'a>
    ensures { rule_of result ≡ printed.styled grammar.New printed.Short (trees_of parts.now) }
{
    if has_none_in(parts) {
        Rule::Fixed(Fixed::NewBare)
    } else {
        Rule::Fixed(Fixed::New)
    }
}

/// The production in short text of a node whose production elsewhere is this, over these parts: an
/// arrow function of one name has no parentheses around that (ECMA-262, 15.3), and a `new` without
/// arguments none behind it (13.3.5).
pub fn short_rule<'a>(rule: Rule<'a>, parts: &'a [Node]) -> Rule<'a>
    ensures { rule_of result ≡ printed.styled (rule_of rule.entry) printed.Short (trees_of parts.now) }
{
    match rule {
        Rule::Fixed(Fixed::Arrow) => short_arrow(parts),
        Rule::Fixed(Fixed::ArrowBlock) => short_arrow_block(parts),
        Rule::Fixed(Fixed::New) => short_new(parts),
        _ => rule,
    }
}
