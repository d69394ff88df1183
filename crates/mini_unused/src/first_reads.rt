//! Where a variable is read before all else, for 71: in `x + b`, in `a(x)` behind `a`, in `[1, x]`,
//! and nowhere in `() => x`.

ghost use Rattle.std.specs.Prelude.{◌≡◌, ◌&&◌, ◌+◌, ◌<◌, ◌≤◌, not, true, false, None};
ghost use Rattle.mini_model.specs.Tree.{children, count};
ghost use Rattle.mini_node.specs.Children.{names, rest_children};
ghost use Rattle.mini_node.specs.Kinds.{is_listed_shape as is_it_listed_shape};
ghost use Rattle.mini_rows.specs.Unused as reading;
ghost use Rattle.mini_rows.specs.Unused.{any_names, names as names_like};
ghost use Rattle.mini_unused.specs.Looks.{Looked, LookedAlong};
ghost use Rattle.mini_unused.specs.SubstituteSingleUse as row;

use crate::evals::is_eval_callee;
use crate::mentions::{is_like, is_mentioned, is_mentioned_from, is_same_symbol};
use mini_model::{Name, PropertyKind, Shape, UnaryOperator};
use mini_node::{Node, Nodes, is_identifier};

// The units of `__proto__`.
const PROTO: [u16; 9] = [95, 95, 112, 114, 111, 116, 111, 95, 95];

// What evaluates this part, its first one, before all else, and asks for its value, for what is
// called, or for what `typeof` reads.
fn begins(shape: &Shape, node: &Node) -> bool
    ensures { result ≡ reading.begins shape.now node.now }
{
    match shape {
        Shape::UnaryExpression(
            UnaryOperator::LogicalNot
            | UnaryOperator::UnaryPlus
            | UnaryOperator::UnaryNegation
            | UnaryOperator::BitwiseNot
            | UnaryOperator::Typeof
            | UnaryOperator::Void,
        )
        | Shape::BinaryExpression(_)
        | Shape::LogicalExpression(_)
        | Shape::ConditionalExpression
        | Shape::SequenceExpression
        | Shape::NewExpression
        | Shape::ArrayExpression
        | Shape::ObjectExpression
        | Shape::SpreadElement
        | Shape::ObjectProperty(PropertyKind::Init, false, false, true)
        | Shape::YieldExpression(_)
        | Shape::StaticMemberExpression(_)
        | Shape::ComputedMemberExpression(_) => true,
        Shape::CallExpression(_) => !is_eval_callee(node),
        Shape::ChainExpression => !is_childless(node),
        Shape::AssignmentExpression(_) | Shape::UpdateExpression(_, _) => is_member(node),
        _ => false,
    }
}

// What evaluates its first part and then the second, and asks for the second's value alone.
fn goes_on(shape: &Shape) -> bool
    ensures { result ≡ reading.goes_on shape.now }
{
    matches!(
        shape,
        Shape::BinaryExpression(_)
            | Shape::CallExpression(false)
            | Shape::NewExpression
            | Shape::ComputedMemberExpression(false)
            | Shape::TemplateLiteral
    )
}

// What evaluates its first part, or what is assigned to, or a key, and then, if at all, the second,
// and asks for the second's value alone.
fn may_go_on(shape: &Shape) -> bool
    ensures { result ≡ reading.may_go_on shape.now }
{
    matches!(
        shape,
        Shape::LogicalExpression(_)
            | Shape::ConditionalExpression
            | Shape::AssignmentExpression(_)
            | Shape::ObjectProperty(PropertyKind::Init, false, false, _)
            | Shape::ObjectProperty(PropertyKind::Init, false, true, false)
            | Shape::CallExpression(true)
            | Shape::ComputedMemberExpression(true)
    )
}

// What evaluates its first part, and then its second or its third.
fn has_branches(shape: &Shape) -> bool
    ensures { result ≡ reading.has_branches shape.now }
{
    matches!(shape, Shape::ConditionalExpression)
}

/// Whether a node of this shape is a list of parts.
pub fn is_listed_shape(shape: &Shape) -> bool
    ensures { result ≡ is_it_listed_shape shape.now }
{
    matches!(shape, Shape::Listed)
}

// An expression, which evaluates this part, at the place, after those before it, if at all, or a
// list of parts.
#[tactic(auto, using(crate::proofs::SingleUses::leads_further))]
fn leads(in_list: bool, shape: &Shape, at: usize, node: &Node) -> bool
    ensures { result ≡ reading.leads in_list shape.now at node.now }
{
    if in_list {
        return is_listed_shape(shape);
    }
    if at == 0 {
        return begins(shape, node);
    }
    if at == 1 {
        return goes_on(shape) || may_go_on(shape);
    }
    if at == 2 {
        return has_branches(shape);
    }
    false
}

// Its first part is a list.
fn begins_list(shape: &Shape) -> bool
    ensures { result ≡ reading.begins_list shape.now }
{
    matches!(
        shape,
        Shape::SequenceExpression | Shape::ArrayExpression | Shape::ObjectExpression
    )
}

// Its second part is one.
fn has_arguments(shape: &Shape) -> bool
    ensures { result ≡ reading.has_arguments shape.now }
{
    matches!(
        shape,
        Shape::CallExpression(_) | Shape::NewExpression | Shape::TemplateLiteral
    )
}

// The part at the place is one.
#[tactic(auto, using(crate::proofs::SingleUses::lists_further))]
fn holds_list(shape: &Shape, at: usize) -> bool
    ensures { result ≡ reading.holds_list shape.now at }
{
    if at == 0 {
        return begins_list(shape);
    }
    has_arguments(shape)
}

fn has_symbol_of(name: &Name, other: &Option<Name>) -> bool
    ensures { result ≡ reading.has_symbol_of name.now (names other.now) }
{
    match other {
        Some(other) => is_same_symbol(name.symbol, other.symbol),
        None => false,
    }
}

// It reads the variable.
fn reads(name: &Name, node: &Node) -> bool
    ensures { result ≡ reading.reads name.now node.now }
{
    is_identifier(node) && has_symbol_of(name, node.name())
}

/// Nothing stands in it.
pub fn is_childless(node: &Node) -> bool
    ensures value { result ≡ reading.is_childless node.now }
    ensures some { result ≡ false → 0 < count (children node.now) }
{
    node.children().len() == 0
}

// A name other than `__proto__`.
fn is_own_name(shape: &Shape) -> bool
    ensures { result ≡ row.is_own_name shape.now }
{
    match shape {
        Shape::IdentifierName(text) => text.as_slice() != PROTO.as_slice(),
        _ => false,
    }
}

// A key that is such a name.
#[tactic(auto, using(crate::proofs::SingleUses::own_key_is))]
fn is_own_key(node: &Node) -> bool
    ensures { result ≡ reading.is_own_key node.now }
{
    node.is_bare(0) && is_own_name(node.shape())
}

/// `x`, as a property.
pub fn is_short(shape: &Shape) -> bool
    ensures { result ≡ reading.is_short shape.now }
{
    matches!(
        shape,
        Shape::ObjectProperty(PropertyKind::Init, false, true, false)
    )
}

// A shorthand property can be written in full: its value is a name alone, and its key isn't
// `__proto__`. All else is in full.
fn can_be_full(node: &Node) -> bool
    ensures { result ≡ reading.can_be_full node.now }
{
    !is_short(node.shape())
        || (node.is_bare(2) && (is_own_key(node.child(0)) && is_childless(node.child(1))))
}

// No name and no number, and in full, or it can be.
fn may_hold(node: &Node) -> bool
    ensures { result ≡ reading.may_hold node.now }
{
    node.is_nameless() && can_be_full(node)
}

// A node without a name and a number, which evaluates the part at the place after those before it,
// in full, or it can be.
fn may_lead(in_list: bool, node: &Node, at: usize) -> bool
    requires { at < count (children node.now) }
    ensures { result ≡ row.may_lead in_list node.now at }
{
    leads(in_list, node.shape(), at, node.child(at)) && may_hold(node)
}

// Whether the part at the place leads to the read, as the flag says of the part itself, and nothing
// after it mentions the name.
fn reads_at(is_read: bool, name: &Name, in_list: bool, node: &Node, at: usize) -> bool
    requires { at < count (children node.now) }
    ensures { result ≡ (is_read && (row.may_lead in_list node.now at && not (any_names name.now (rest_children (at + 1) (children node.now))))) }
{
    if at >= node.children().len() {
        return false;
    }
    is_read && (may_lead(in_list, node, at) && !is_mentioned_from(name, node.children(), at + 1))
}

// None where a node without parts doesn't mention the name, and else whether it reads it.
#[tactic(auto, using(crate::proofs::SingleUses::first_leaf))]
fn look_at_leaf(name: &Name, in_list: bool, node: &Node) -> Option<bool>
    requires { count (children node.now) ≡ 0 }
    ensures { Looked result (names_like name.now node.now) (reading.is_first name.now in_list node.now) }
{
    if !is_mentioned(name, node) {
        return None;
    }
    Some(!in_list && reads(name, node))
}

// None where the name isn't a node's own, and else false, of a node whose parts don't mention it.
fn look_at_own(name: &Name, in_list: bool, node: &Node) -> Option<bool>
    requires some { 0 < count (children node.now) }
    requires none { any_names name.now (children node.now) ≡ false }
    ensures { Looked result (names_like name.now node.now) (reading.is_first name.now in_list node.now) }
{
    if is_like(name, node.name()) {
        Some(false)
    } else {
        None
    }
}

// None where the node doesn't mention the name, and else whether it reads it first: one walk.
#[cycle(looks)]
fn look(name: &Name, in_list: bool, node: &Node) -> Option<bool>
    ensures { Looked result (names_like name.now node.now) (reading.is_first name.now in_list node.now) }
{
    if node.children().len() == 0 {
        return look_at_leaf(name, in_list, node);
    }
    match look_along(name, node.shape(), node.children()) {
        Some((at, is_read)) => Some(reads_at(is_read, name, in_list, node, at)),
        None => look_at_own(name, in_list, node),
    }
}

// The place of the first of some parts that mentions the name, in a node of such a shape, and
// whether that part reads it first. None where no part mentions it.
#[cycle(looks)]
fn look_along(name: &Name, shape: &Shape, nodes: &Nodes) -> Option<(usize, bool)>
    ensures { LookedAlong (λ i. reading.is_first name.now (reading.holds_list shape.now i)) name.now nodes.now result }
{
    for at in 0..nodes.len() {
        if let Some(is_read) = look(name, holds_list(shape, at), nodes.child(at)) {
            return Some((at, is_read));
        }
    }
    None
}

/// An expression, or a list of parts, reads the variable after the parts that stand before, and
/// nothing else in it mentions the name.
pub fn is_first(name: &Name, in_list: bool, node: &Node) -> bool
    ensures { result ≡ reading.is_first name.now in_list node.now }
{
    match look(name, in_list, node) {
        Some(is_read) => is_read,
        None => false,
    }
}

/// `y.b` and `y[b]`.
pub fn is_member(node: &Node) -> bool
    ensures member { result ≡ reading.is_member node.now }
    ensures parts { result ≡ true → count (children node.now) ≡ 2 }
{
    matches!(
        node.shape(),
        Shape::StaticMemberExpression(false) | Shape::ComputedMemberExpression(false)
    ) && node.is_bare(2)
}
