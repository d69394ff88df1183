//! Rows 20 and 21: a sequence is lifted out of the first operand of a logical expression, a
//! conditional, a `!`, `+`, `-` or `~`, an operator of two, or a `yield`, or of such nodes one in
//! the first operand of the other, and spread in a sequence; parts that have no effect go, but the
//! last. `(a, b) && c` becomes `a, b && c`, `-(a, b)` becomes `a, -b`, `(a, b) + c < d` becomes
//! `a, b + c < d`, `a, (b, c)` becomes `a, b, c`, `a(), 1, b()` becomes `a(), b()`, `(0, a)()`
//! becomes `a()`, and `typeof (0, a.b)` becomes `typeof a.b`. What is written is lighter in every
//! place.

ghost use Rattle.std.specs.Prelude.{◌≡◌, ◌+◌, ◌<◌, ◌==◌, ◌&&◌, true, false, nat_le, is_some, IfOk, IfSome};
ghost use Rattle.mini_model.specs.Tree.{children, count, child_or_absent, shape_of};
ghost use Rattle.mini_node.specs.Children.{part};
ghost use Rattle.mini_node.specs.Kinds.{sequence as sequence_of, is_sequence as is_it_sequence, is_sequence_shape, unary_operator as unary_operator_of};
ghost use Rattle.mini_terms.specs.Parts.{is_number as is_it_number};
ghost use Rattle.mini_rows.specs.Sequences.{is_bare_at as is_it_bare_at};
ghost use Rattle.mini_tree.specs.Rule.{Applied};
ghost use Rattle.mini_fold.specs.FoldSequences.{has_several as has_it_several, is_several as is_it_several, converts as converts_by, is_minus as is_it_minus, is_yield as is_it_yield, is_operation as is_it_operation, takes_last_of, gives_parts as it_gives_parts, reaches_sequence as reaches_it_sequence, ends_bare as end_they_bare, leaves_bare as leaves_it_bare, has_room as has_it_room, is_lifted as is_it_lifted, last_of, but_last, parts_before, left_of, lifted, any_of, spread_at, is_nested as is_it_nested, is_idle as is_it_idle, is_left as is_it_left, Gives, Rests};
ghost use Rattle.mini_fold.specs.Lighter.{sequences_lighter};

use mini_held::{IdleParts, drop_parts, stays_alone, takes_alone};
use mini_model::{OutOfMemory, Position, Seat, Shape, UnaryOperator};
use mini_node::{
    Node, Nodes, absent, binary_operator, discard, is_conditional, is_negation, is_sequence,
    logical_operator, one, sequence, take_first, taken, two, unary_operator,
};
use mini_terms::{has_no_effect, leaves_nothing, weighs};
use mini_tree::{Context, Rule, child_place, place_weight, seats};
use std::alloc::Global;

// Whether there are two or more.
#[tactic(auto, using(crate::proofs::Sequences::several_by_count))]
fn has_several(nodes: &Nodes) -> bool
    ensures { result ≡ has_it_several nodes.now }
{
    nodes.len() >= 2
}

// Whether it is a sequence.
fn is_several(node: &Node) -> bool
    ensures { result ≡ is_it_several node.now }
{
    is_sequence(node) && has_several(node.child(0).children())
}

// Whether this operator makes a number of its operand.
fn is_conversion(operator: Option<UnaryOperator>) -> bool
    ensures { result ≡ converts_by operator }
{
    match operator {
        Some(UnaryOperator::UnaryPlus) => true,
        Some(UnaryOperator::UnaryNegation) => true,
        Some(UnaryOperator::BitwiseNot) => true,
        _ => false,
    }
}

// Whether it makes a number of its operand.
fn converts(node: &Node) -> bool
    ensures kind { result ≡ converts_by (unary_operator_of node.now) }
    ensures parts { result ≡ true → 0 < count (children node.now) }
{
    match unary_operator(node) {
        Some(operator) => is_conversion(Some(operator)),
        None => false,
    }
}

// `yield a`, and `yield* a`
fn yields(node: &Node) -> bool
    ensures kind { result ≡ is_it_yield node.now }
    ensures parts { result ≡ true → count (children node.now) ≡ 1 }
{
    matches!(node.shape(), Shape::YieldExpression(_)) && node.is_bare(1)
}

// Whether it evaluates its first operand before all else of it.
fn is_operation(node: &Node) -> bool
    ensures kind { result ≡ is_it_operation node.now }
    ensures parts { result ≡ true → 0 < count (children node.now) }
{
    logical_operator(node).is_some()
        || is_conditional(node)
        || is_negation(node)
        || binary_operator(node).is_some()
        || converts(node)
        || yields(node)
}

fn is_minus(operator: Option<UnaryOperator>) -> bool
    ensures { result ≡ is_it_minus operator }
{
    match operator {
        Some(UnaryOperator::UnaryNegation) => true,
        _ => false,
    }
}

fn is_number(node: &Node) -> bool
    ensures { result ≡ is_it_number node.now }
{
    matches!(node.shape(), Shape::NumericLiteral(_))
}

// Whether the last one is a number.
#[tactic(auto, using(crate::proofs::Sequences::ends_in))]
fn ends_in_number(nodes: &Nodes) -> bool
    requires { 0 < count nodes.now }
    ensures { result ≡ is_it_number (last_of nodes.now) }
{
    is_number(nodes.child(nodes.len() - 1))
}

// Whether the last of these may stand behind the operator of the node: no number behind a `-`.
fn takes_last(node: &Node, parts: &Nodes) -> bool
    requires { 0 < count parts.now }
    ensures { result ≡ takes_last_of node.now parts.now }
{
    !is_minus(unary_operator(node)) || !ends_in_number(parts)
}

// Whether the operand is a sequence whose last part may stand behind the operator of the node.
#[tactic(auto, using(crate::proofs::Sequences::some_of_several))]
fn gives_parts(node: &Node, operand: &Node) -> bool
    ensures { result ≡ it_gives_parts node.now operand.now }
{
    is_sequence(operand)
        && has_several(operand.child(0).children())
        && takes_last(node, operand.child(0).children())
}

// Whether a sequence is reached along first operands, whose last part may stand in its place.
#[tactic(auto, using(crate::proofs::Sequences::reaches_by, crate::proofs::Sequences::part_fewer))]
fn reaches_sequence(node: &Node) -> bool
    ensures { result ≡ reaches_it_sequence node.now }
{
    if !is_operation(node) {
        return false;
    }
    gives_parts(node, node.child(0)) || reaches_sequence(node.child(0))
}

// Whether it is a sequence, of how many parts ever.
fn has_parts(node: &Node) -> bool
    ensures { result ≡ is_sequence_shape (shape_of node.now) }
{
    matches!(node.shape(), Shape::SequenceExpression)
}

// Whether nothing stands in it.
fn is_leaf(node: &Node) -> bool
    ensures { result ≡ (count (children node.now) == 0) }
{
    node.children().is_empty()
}

// Whether it has neither parentheses there nor a form that a lighter one is wanted for.
#[tactic(auto, using(crate::proofs::Sequences::no_marks))]
fn is_bare_at(node: &Node, place: Position) -> bool
    ensures { result ≡ is_it_bare_at place node.now }
{
    !matches!(node.shape(), Shape::InnerExpression)
        && place_weight(node.shape(), node.children(), place) == 0
}

// Whether the last of these is such.
#[tactic(auto, using(crate::proofs::Sequences::no_last, crate::proofs::Sequences::last_bare))]
fn ends_bare(nodes: &Nodes, place: Position) -> bool
    ensures { result ≡ end_they_bare place nodes.now }
{
    if nodes.is_empty() {
        return false;
    }
    is_bare_at(nodes.child(nodes.len() - 1), place)
}

// Whether the last part of a sequence is.
#[tactic(auto, using(crate::proofs::Sequences::no_parts, crate::proofs::Sequences::some_children))]
fn last_part_bare(sequence: &Node, place: Position) -> bool
    ensures { result ≡ end_they_bare place (children (part sequence.now 0)) }
{
    if is_leaf(sequence) {
        return false;
    }
    ends_bare(sequence.child(0).children(), place)
}

// Whether the last part of the sequence that is reached is such in place of it.
#[tactic(auto, using(crate::proofs::Sequences::no_bare, crate::proofs::Sequences::bare_by, crate::proofs::Sequences::some_children, crate::proofs::Sequences::part_fewer))]
fn leaves_bare(node: &Node) -> bool
    ensures { result ≡ leaves_it_bare node.now }
{
    if is_leaf(node) {
        return false;
    }
    if has_parts(node.child(0)) {
        let beside = Position::Expr(seats::passed_part());
        let place = child_place(node.shape(), beside, node.children().len(), 0);
        return last_part_bare(node.child(0), place);
    }
    leaves_bare(node.child(0))
}

// Whether what is lifted out here has no parentheses, or the node has had some, or the last part
// has none.
fn has_room(node: &Node, seat: Seat) -> bool
    ensures { result ≡ has_it_room seat node.now }
{
    seat.level == 0
        || place_weight(node.shape(), node.children(), Position::Expr(seat)) >= 4
        || leaves_bare(node)
}

// Whether it stands over a sequence that is to be lifted out.
fn is_lifted(node: &Node, seat: Seat) -> bool
    ensures { result ≡ is_it_lifted seat node.now }
{
    !seat.lifted && reaches_sequence(node) && has_room(node, seat)
}

/// Takes the last node out; of none, an absent part.
#[tactic(auto, using(crate::proofs::Sequences::last_is, crate::proofs::Sequences::others_are))]
pub fn take_last(alloc: Global, nodes: &mut Nodes) -> Node
    ensures value { result ≡ last_of nodes.old }
    ensures rest { nodes.new ≡ but_last nodes.old }
{
    match nodes.pop() {
        Some(last) => last,
        None => absent(alloc),
    }
}

// The parts of a sequence but the last, which is left in its place.
fn split_sequence(alloc: Global, node: &mut Node) -> Nodes
    requires { 0 < count (children node.old) }
    ensures before { result ≡ but_last (children (part node.old 0)) }
    ensures left { node.new ≡ last_of (children (part node.old 0)) }
{
    let mut parts = one(taken(alloc, node)).into_children();
    *node = take_last(alloc, &mut parts);
    parts
}

// The parts but the last of the sequence that it is, or of the one that is reached along first
// operands.
#[tactic(auto, using(crate::proofs::Sequences::split_leaf, crate::proofs::Sequences::split_here, crate::proofs::Sequences::split_below, crate::proofs::Sequences::part_fewer))]
fn split_first(alloc: Global, node: &mut Node) -> Nodes
    ensures before { result ≡ parts_before node.old }
    ensures left { node.new ≡ left_of node.old }
{
    if is_leaf(node) {
        return Nodes::new(alloc);
    }
    if has_parts(node) {
        return split_sequence(alloc, node);
    }
    split_first(alloc, node.children_mut().child_mut(0))
}

// `a, b && c` of `(a, b) && c`, and `a, b + c < d` of `(a, b) + c < d`
fn lift_sequence(alloc: Global, mut node: Node) -> Result<Node, OutOfMemory>
    ensures { IfOk result (λ w. w ≡ lifted node) }
{
    let mut parts = split_first(alloc, &mut node);
    parts.push(node)?;
    sequence(alloc, parts)
}

// The place of the first sequence among them.
fn sequence_at(nodes: &Nodes) -> Option<usize>
    ensures found { IfSome result (λ at. at < count nodes.now) }
    ensures read { IfSome result (λ at. is_it_several (child_or_absent nodes.now at) ≡ true) }
    ensures any { is_some result ≡ any_of is_it_several nodes.now }
{
    for at in 0..nodes.len() {
        if is_several(nodes.child(at)) {
            return Some(at);
        }
    }
    None
}

// `a, b, c` of `a, (b, c)`, where the inner sequence is the part at this place.
fn spread_sequence(alloc: Global, node: Node, at: usize) -> Result<Node, OutOfMemory>
    requires { at < count (children (part node 0)) }
    ensures { IfOk result (λ w. w ≡ sequence_of (spread_at at (children (part node 0)))) }
{
    let mut before = one(node).into_children();
    let mut after = before.split_off(at)?;
    let mut parts = one(take_first(&mut after)).into_children();
    before.append(&mut parts)?;
    before.append(&mut after)?;
    sequence(alloc, before)
}

// Whether it has no effect, and may go.
fn is_idle(node: &Node) -> bool
    ensures { result ≡ is_it_idle node.now }
{
    has_no_effect(node) && leaves_nothing(node) && weighs(node)
}

// What has no effect goes of a sequence.
struct Idle;

impl IdleParts for Idle {
    ghost idle = { is_it_idle };

    fn is_idle(&self, node: &Node) -> bool {
        is_idle(node)
    }
}

// `a(), b()` of `a(), 1, b()`
fn drop_some(alloc: Global, node: &mut Node, seat: Seat) -> Result<bool, OutOfMemory>
    requires parts { count (children node.old) ≡ 1 }
    requires kind { is_it_sequence node.old ≡ true }
    requires several { nat_le 3 (count (children (part node.old 0))) ≡ true }
    requires lifted { is_it_lifted seat node.old ≡ false }
    requires nested { is_it_nested node.old ≡ false }
    ensures { IfOk result (λ changed. Applied Gives Rests (Position.Expr seat) node.old node.new changed) }
{
    let changed = drop_parts(alloc, &Idle, node)?;
    Ok(changed)
}

// Whether of two parts the last one may stand alone.
fn is_left(seat: Seat, parts: &Nodes) -> bool
    ensures { result ≡ is_it_left seat parts.now }
{
    parts.len() == 2
        && takes_alone(seat)
        && is_idle(parts.child(0))
        && stays_alone(seat, parts.child(1))
}

fn last_of_two(node: Node) -> Node
    ensures { result ≡ child_or_absent (children (part node 0)) 1 }
{
    let (first, last) = two(one(node));
    discard(first);
    last
}

// `a()` of `1, a()`, and `a()` of `(0, a)()`
fn leave_last(alloc: Global, node: &mut Node, seat: Seat) -> bool
    requires parts { count (children node.old) ≡ 1 }
    requires kind { is_it_sequence node.old ≡ true }
    requires few { nat_le 3 (count (children (part node.old 0))) ≡ false }
    requires lifted { is_it_lifted seat node.old ≡ false }
    requires nested { is_it_nested node.old ≡ false }
    ensures { Applied Gives Rests (Position.Expr seat) node.old node.new result }
{
    if !is_left(seat, node.child(0).children()) {
        return false;
    }
    *node = last_of_two(taken(alloc, node));
    true
}

// Parts that have no effect go. The answer says whether one did.
fn drop_idle(alloc: Global, node: &mut Node, seat: Seat) -> Result<bool, OutOfMemory>
    requires parts { count (children node.old) ≡ 1 }
    requires kind { is_it_sequence node.old ≡ true }
    requires lifted { is_it_lifted seat node.old ≡ false }
    requires nested { is_it_nested node.old ≡ false }
    ensures { IfOk result (λ changed. Applied Gives Rests (Position.Expr seat) node.old node.new changed) }
{
    if node.child(0).children().len() >= 3 {
        drop_some(alloc, node, seat)
    } else {
        Ok(leave_last(alloc, node, seat))
    }
}

// A sequence in a sequence is spread, and parts that have no effect go. The answer says whether
// something was done.
fn spread(alloc: Global, node: &mut Node, seat: Seat) -> Result<bool, OutOfMemory>
    requires { is_it_lifted seat node.old ≡ false }
    ensures { IfOk result (λ changed. Applied Gives Rests (Position.Expr seat) node.old node.new changed) }
{
    if !is_sequence(node) {
        return Ok(false);
    }
    match sequence_at(node.child(0).children()) {
        Some(at) => {
            *node = spread_sequence(alloc, taken(alloc, node), at)?;
            Ok(true)
        }
        None => drop_idle(alloc, node, seat),
    }
}

/// A sequence is lifted out of the first operand of an expression, or spread in a sequence, or a
/// part of one that has no effect goes. The answer says whether something was done; the only error
/// is that memory runs out, and then the expression is fit only to be dropped.
pub fn fold_sequence_expression(
    alloc: Global,
    node: &mut Node,
    seat: Seat,
) -> Result<bool, OutOfMemory>
    ensures { IfOk result (λ changed. Applied Gives Rests (Position.Expr seat) node.old node.new changed) }
{
    if is_lifted(node, seat) {
        *node = lift_sequence(alloc, taken(alloc, node))?;
        return Ok(true);
    }
    spread(alloc, node, seat)
}

/// Rows 20 and 21 as a rule: of each expression.
pub struct FoldSequences;

impl<C: Context> Rule<C> for FoldSequences {
    ghost gives = { λ o q. Gives };

    ghost rests = { λ o q. Rests };

    ghost lighter = { λ o q. sequences_lighter };

    #[tactic(auto, using(crate::proofs::Sequences::elsewhere))]
    fn apply(
        &self,
        alloc: Global,
        node: &mut Node,
        place: Position,
        context: &mut C,
    ) -> Result<bool, OutOfMemory> {
        match place {
            Position::Expr(seat) => Ok(fold_sequence_expression(alloc, node, seat)?),
            _ => Ok(false),
        }
    }
}
