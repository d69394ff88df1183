//! What is evaluated before a variable is read, for 71, and whether the initializer may be
//! evaluated behind that: `a() + x` has `a()`, which only a constant passes.

ghost use Rattle.std.specs.Prelude.{◌≡◌, ◌≤◌, ◌&&◌, true, false};
ghost use Rattle.mini_model.specs.Tree.{children, count, shape_of};
ghost use Rattle.mini_node.specs.Children.{first_children};
ghost use Rattle.mini_terms.specs.Folds.{is_effect_free as is_it_effect_free};
ghost use Rattle.mini_rows.specs.Unused as reading;
ghost use Rattle.mini_rows.specs.Unused.{any_names, names as names_like};
ghost use Rattle.mini_unused.specs.Looks.{Looked, LookedAlong};
ghost use Rattle.mini_unused.specs.SubstituteNext.{reads_in as it_reads_in};
ghost use Rattle.mini_unused.specs.SubstituteSingleUse as row;

use crate::calm::is_calm;
use crate::evals::is_eval_name;
use crate::first_reads::{is_childless, is_first, is_listed_shape, is_member};
use crate::mentions::{is_like, is_mentioned};
use mini_model::{AssignmentOperator, Name, PropertyKind, Shape, UnaryOperator};
use mini_node::{Node, Nodes, is_identifier};
use mini_rows::{Gathered, fits_in};
use mini_terms::{is_effect_free, is_item, is_primitive, is_typed_by_value, kind_of, stands};

/// A number, a text, a boolean or null.
pub fn is_written_value(shape: &Shape) -> bool
    ensures { result ≡ reading.is_written_value shape.now }
{
    matches!(
        shape,
        Shape::NumericLiteral(_)
            | Shape::StringLiteral(_)
            | Shape::BooleanLiteral(_)
            | Shape::NullLiteral
    )
}

/// `!` and `void`.
pub fn is_value_operator(shape: &Shape) -> bool
    ensures { result ≡ reading.is_value_operator shape.now }
{
    matches!(
        shape,
        Shape::UnaryExpression(UnaryOperator::LogicalNot | UnaryOperator::Void)
    )
}

/// Whether the expression has the same value whenever it is evaluated.
#[tactic(auto, using(crate::proofs::SingleUses::constant_literal, crate::proofs::SingleUses::constant_operator, crate::proofs::SingleUses::no_operator, crate::proofs::SingleUses::no_constant))]
pub fn is_constant(node: &Node) -> bool
    ensures { result ≡ reading.is_constant node.now }
{
    if is_written_value(node.shape()) {
        return true;
    }
    if !is_value_operator(node.shape()) {
        return false;
    }
    if node.children().len() != 1 {
        return false;
    }
    is_written_value(node.child(0).shape())
}

// It may be evaluated before the initializer rather than after.
fn passes(init: &Node, node: &Node) -> bool
    ensures { result ≡ reading.passes init.now node.now }
{
    is_constant(init)
        || is_constant(node)
        || (is_effect_free(init, true) && (is_effect_free(node, true) && is_item(node)))
}

/// `=`.
pub fn is_plain_assignment(operator: &AssignmentOperator) -> bool
    ensures { result ≡ reading.is_plain_assignment operator.now }
{
    matches!(operator, AssignmentOperator::Assign)
}

/// A key that is written out.
pub fn is_word(shape: &Shape) -> bool
    ensures { result ≡ reading.is_word shape.now }
{
    matches!(
        shape,
        Shape::IdentifierName(_) | Shape::StringLiteral(_) | Shape::NumericLiteral(_)
    )
}

// The key of a member may be evaluated before the initializer rather than after.
fn passes_word(init: &Node, node: &Node) -> bool
    ensures { result ≡ reading.passes_word init.now node.now }
{
    is_word(node.shape()) || passes(init, node)
}

// A member that `=` assigns to may be evaluated before the initializer.
fn passes_member(init: &Node, operator: &AssignmentOperator, node: &Node) -> bool
    ensures { result ≡ reading.passes_member init.now operator.now node.now }
{
    is_member(node)
        && (is_plain_assignment(operator)
            && (passes(init, node.child(0)) && passes_word(init, node.child(1))))
}

// What is assigned to may be evaluated before the initializer: a name, of which `=` reads nothing
// before the right side, or such a member.
fn passes_target(init: &Node, operator: &AssignmentOperator, node: &Node) -> bool
    ensures { result ≡ reading.passes_target init.now operator.now node.now }
{
    is_constant(init)
        || (passes_member(init, operator, node)
            || ((is_identifier(node) && is_effect_free(node, true))
                && (is_plain_assignment(operator) || is_effect_free(init, true))))
}

// The key of a property may be evaluated before the initializer.
fn passes_key(init: &Node, is_computed: bool, node: &Node) -> bool
    ensures { result ≡ reading.passes_key init.now is_computed node.now }
{
    is_constant(init) || (!is_computed && is_word(node.shape()))
}

// The test of a conditional may be evaluated before the initializer; where the second branch is
// evaluated, the first isn't.
#[tactic(auto, using(crate::proofs::SingleUses::branch_further))]
fn passes_branch(init: &Node, at: usize, node: &Node) -> bool
    ensures { result ≡ reading.passes_branch init.now at node.now }
{
    if at == 0 {
        return passes(init, node);
    }
    true
}

/// A property with a key that is written out.
pub fn is_field(node: &Node) -> bool
    ensures field { result ≡ reading.is_field node.now }
    ensures parts { result ≡ true → count (children node.now) ≡ 2 }
{
    matches!(
        node.shape(),
        Shape::ObjectProperty(PropertyKind::Init, false, _, false)
    ) && (node.is_bare(2) && is_word(node.child(0).shape()))
}

/// Whether entries are gathered.
pub fn of_entries(gathered: Gathered) -> bool
    ensures { result ≡ reading.of_entries gathered }
{
    matches!(gathered, Gathered::Entries)
}

// What is converted to a text may be evaluated before the initializer: it is of a primitive value,
// runs nothing and doesn't throw.
fn passes_text(init: &Node, node: &Node) -> bool
    ensures { result ≡ reading.passes_text init.now node.now }
{
    is_constant(init) || (passes(init, node) && is_primitive(kind_of(node)))
}

// An item of a list may be evaluated before the initializer, by what is gathered: where entries
// are, the value of a property.
#[tactic(auto, using(crate::proofs::SingleUses::values_pass))]
fn passes_item(gathered: Gathered, init: &Node, node: &Node) -> bool
    ensures { result ≡ reading.passes_item gathered init.now node.now }
{
    match gathered {
        Gathered::Texts => passes_text(init, node),
        Gathered::Values => passes(init, node),
        Gathered::Entries => {
            passes(init, node) || (is_field(node) && passes(init, node.child(1)))
        }
    }
}

// What stands before the read, at a place of such a shape, may be evaluated before the initializer.
fn passes_at(gathered: Gathered, init: &Node, shape: &Shape, at: usize, node: &Node) -> bool
    ensures { result ≡ reading.passes_at gathered init.now shape.now at node.now }
{
    match shape {
        Shape::AssignmentExpression(operator) => passes_target(init, operator, node),
        Shape::ConditionalExpression => passes_branch(init, at, node),
        Shape::ObjectProperty(_, _, _, is_computed) => passes_key(init, *is_computed, node),
        Shape::Listed => passes_item(gathered, init, node),
        Shape::TemplateLiteral => true,
        _ => passes(init, node),
    }
}

// Each of the parts before the place may be evaluated before the initializer.
fn all_pass(gathered: Gathered, init: &Node, shape: &Shape, nodes: &Nodes, end: usize) -> bool
    requires { end ≤ count nodes.now }
    ensures { result ≡ row.all_pass gathered init.now shape.now 0 (first_children end nodes.now) }
{
    for at in 0..end {
        if !passes_at(gathered, init, shape, at, nodes.child(at)) {
            return false;
        }
    }
    true
}

// What evaluates the part behind its first one whatever that gives; where the initializer has no
// effect, it may be left out.
fn is_sure(init: &Node, shape: &Shape) -> bool
    ensures { result ≡ reading.is_sure (is_it_effect_free init.now) shape.now }
{
    match shape {
        Shape::LogicalExpression(_) | Shape::ConditionalExpression => is_effect_free(init, true),
        Shape::AssignmentExpression(operator) => {
            is_plain_assignment(operator) || is_effect_free(init, true)
        }
        Shape::ObjectProperty(_, _, _, is_computed) => !*is_computed,
        Shape::CallExpression(is_optional) | Shape::ComputedMemberExpression(is_optional) => {
            !*is_optional || is_effect_free(init, true)
        }
        _ => true,
    }
}

// A property and what is spread stand where an entry is asked, or the initializer has no effect.
fn is_placed(gathered: Gathered, init: &Node, shape: &Shape) -> bool
    ensures { result ≡ reading.is_placed gathered (is_it_effect_free init.now) shape.now }
{
    match shape {
        Shape::ObjectProperty(_, _, _, _) | Shape::SpreadElement => {
            of_entries(gathered) || is_effect_free(init, true)
        }
        _ => true,
    }
}

// The part at the place is evaluated whatever those before it are, or the initializer is a constant
// or has no effect.
#[tactic(auto, using(crate::proofs::SingleUses::reached_further))]
fn is_reached(gathered: Gathered, init: &Node, shape: &Shape, at: usize) -> bool
    ensures { result ≡ row.is_reached_at gathered init.now shape.now at }
{
    if at == 0 {
        return is_constant(init) || is_placed(gathered, init, shape);
    }
    is_constant(init) || (is_placed(gathered, init, shape) && is_sure(init, shape))
}

fn is_number(shape: &Shape) -> bool
    ensures { result ≡ reading.is_number_shape shape.now }
{
    matches!(shape, Shape::NumericLiteral(_))
}

// Where it is called, its value is, without a `this`.
fn is_called_by_value(node: &Node) -> bool
    ensures { result ≡ reading.is_called_by_value node.now }
{
    match node.shape() {
        Shape::Identifier => !is_eval_name(node.name()),
        Shape::Function(false, _, _) | Shape::Class(false) | Shape::BigIntLiteral(_) => true,
        _ => stands(node),
    }
}

// The initializer may stand in the place of a name that is its first part: a number under `-` would
// be another literal, and `typeof` and a call read more of some expressions than their value.
fn suits_under(init: &Node, shape: &Shape) -> bool
    ensures { result ≡ reading.suits_under init.now shape.now }
{
    match shape {
        Shape::UnaryExpression(UnaryOperator::UnaryNegation) => !is_number(init.shape()),
        Shape::UnaryExpression(UnaryOperator::Typeof) => is_typed_by_value(init),
        Shape::CallExpression(_) => is_called_by_value(init),
        _ => true,
    }
}

// The first of some parts is such a name, or there is none.
#[tactic(auto, using(crate::proofs::SingleUses::bare_none, crate::proofs::SingleUses::bare_some))]
fn begins_bare(name: &Name, nodes: &Nodes) -> bool
    ensures { result ≡ reading.begins_bare name.now nodes.now }
{
    if nodes.len() == 0 {
        return true;
    }
    is_childless(nodes.child(0)) && is_mentioned(name, nodes.child(0))
}

// In a chain the initializer ends none around it.
fn suits_in(init: &Node, shape: &Shape) -> bool
    ensures { result ≡ reading.suits_in init.now shape.now }
{
    match shape {
        Shape::ChainExpression => is_calm(init),
        _ => true,
    }
}

/// Whether the initializer may stand in what this node reads of the name: in the place of a name
/// that is its first part, and in a chain, which it must not end.
pub fn suits(name: &Name, init: &Node, node: &Node) -> bool
    ensures { result ≡ reading.suits name.now init.now (shape_of node.now) (children node.now) }
{
    (!begins_bare(name, node.children()) || suits_under(init, node.shape()))
        && suits_in(init, node.shape())
}

// The part at the place is reached, those before it may be evaluated before the initializer, which
// may stand there.
fn may_reach(name: &Name, gathered: Gathered, init: &Node, node: &Node, at: usize) -> bool
    requires { at ≤ count (children node.now) }
    ensures { result ≡ row.may_reach name.now gathered init.now node.now at }
{
    suits(name, init, node)
        && (is_reached(gathered, init, node.shape(), at)
            && all_pass(gathered, init, node.shape(), node.children(), at))
}

// What is gathered from the first part: an array and an object ask it for entries.
fn gathered_first(shape: &Shape) -> Gathered
    ensures { result ≡ reading.gathered_by shape.now 0 }
{
    match shape {
        Shape::ArrayExpression | Shape::ObjectExpression => Gathered::Entries,
        _ => Gathered::Values,
    }
}

// What is gathered from the second part: a call and `new` ask for entries, too, and a template for
// texts.
fn gathered_second(shape: &Shape) -> Gathered
    ensures { result ≡ reading.gathered_by shape.now 1 }
{
    match shape {
        Shape::ArrayExpression
        | Shape::ObjectExpression
        | Shape::CallExpression(_)
        | Shape::NewExpression => Gathered::Entries,
        Shape::TemplateLiteral => Gathered::Texts,
        _ => Gathered::Values,
    }
}

// What is asked of the part at the place.
#[tactic(auto, using(crate::proofs::SingleUses::gathered_further))]
fn gathered_by(shape: &Shape, at: usize) -> Gathered
    ensures { result ≡ reading.gathered_by shape.now at }
{
    if at == 0 {
        return gathered_first(shape);
    }
    gathered_second(shape)
}

/// What is asked of the part at a place of a node of this shape: a list asks its items for what it
/// is asked itself.
pub fn gathered_below(gathered: Gathered, shape: &Shape, at: usize) -> Gathered
    ensures { result ≡ reading.gathered_below gathered shape.now at }
{
    if is_listed_shape(shape) {
        gathered
    } else {
        gathered_by(shape, at)
    }
}

// Whether the initializer may be put into the part at the place, as the flag says of the part
// itself.
fn reaches_at(
    passes: bool,
    name: &Name,
    gathered: Gathered,
    init: &Node,
    node: &Node,
    at: usize,
) -> bool
    requires { at ≤ count (children node.now) }
    ensures { result ≡ (passes && row.may_reach name.now gathered init.now node.now at) }
{
    passes && may_reach(name, gathered, init, node, at)
}

// Whether all parts of a node may be evaluated before the initializer, of which none mentions the
// name.
fn are_all_passed(name: &Name, gathered: Gathered, init: &Node, node: &Node) -> bool
    requires { any_names name.now (children node.now) ≡ false }
    ensures { result ≡ reading.are_passed_in name.now gathered init.now node.now }
{
    may_reach(name, gathered, init, node, node.children().len())
}

// None where the name isn't a node's own, and else whether all parts are passed, of which none
// mentions it.
fn look_at_own(name: &Name, gathered: Gathered, init: &Node, node: &Node) -> Option<bool>
    requires { any_names name.now (children node.now) ≡ false }
    ensures { Looked result (names_like name.now node.now) (reading.are_passed_in name.now gathered init.now node.now) }
{
    if is_like(name, node.name()) {
        Some(are_all_passed(name, gathered, init, node))
    } else {
        None
    }
}

// None where the node doesn't mention the name, and else whether each part that is evaluated before
// the variable is read may be evaluated before the initializer, the read is reached whatever they
// are, or nothing is lost where it isn't, and the initializer may stand in its place: one walk.
#[cycle(looks)]
fn look(name: &Name, gathered: Gathered, init: &Node, node: &Node) -> Option<bool>
    ensures { Looked result (names_like name.now node.now) (reading.are_passed_in name.now gathered init.now node.now) }
{
    match look_along(name, gathered, init, node.shape(), node.children()) {
        Some((at, passes)) => Some(reaches_at(passes, name, gathered, init, node, at)),
        None => look_at_own(name, gathered, init, node),
    }
}

// The place of the first of some parts that mentions the name, in a node of such a shape, and
// whether that is so of the part. None where no part mentions it.
#[cycle(looks)]
fn look_along(
    name: &Name,
    gathered: Gathered,
    init: &Node,
    shape: &Shape,
    nodes: &Nodes,
) -> Option<(usize, bool)>
    ensures { LookedAlong (λ i. reading.are_passed_in name.now (reading.gathered_below gathered shape.now i) init.now) name.now nodes.now result }
{
    for at in 0..nodes.len() {
        let below = gathered_below(gathered, shape, at);
        if let Some(passes) = look(name, below, init, nodes.child(at)) {
            return Some((at, passes));
        }
    }
    None
}

// Whether the initializer may be put where the node reads the name, if it does.
fn are_passed_in(name: &Name, gathered: Gathered, init: &Node, node: &Node) -> bool
    ensures { result ≡ reading.are_passed_in name.now gathered init.now node.now }
{
    match look(name, gathered, init, node) {
        Some(passes) => passes,
        None => are_all_passed(name, gathered, init, node),
    }
}

/// Whether the initializer may be put where an expression, of which the value is asked, reads the
/// name: each part that is evaluated before the read may be evaluated before the initializer, and
/// both nest so that one may be put into the other.
pub fn are_passed(name: &Name, init: &Node, node: &Node) -> bool
    ensures { result ≡ reading.are_passed name.now init.now node.now }
{
    are_passed_in(name, Gathered::Values, init, node) && fits_in(init, node)
}

/// Whether an expression reads the variable first, after parts that pass the initializer.
pub fn reads_in(name: &Name, init: &Node, value: &Node) -> bool
    ensures { result ≡ it_reads_in name.now init.now value.now }
{
    is_first(name, false, value) && are_passed(name, init, value)
}
