//! The last expression of a sequence, which may end in a sequence in turn: read, and taken out.

ghost use Rattle.std.specs.Prelude.{◌≡◌, ◌<◌, true};
ghost use Rattle.std.specs.Option.{option_copied};
ghost use Rattle.mini_model.specs.Tree.{none, children, count, node_count, node_counts};
ghost use Rattle.mini_node.specs.Children.{part};
ghost use Rattle.mini_node.specs.Kinds.{is_sequence as is_a_sequence, sequence as sequence_of};
ghost use Rattle.mini_logic.specs.Sequences as end;

use crate::terms::is_not;
use mini_node::{Node, Nodes, discard, is_negation, is_sequence, listed, one};

// Whether it is a sequence of one part at least.
fn has_parts(node: &Node) -> bool
    ensures kind { result ≡ end.has_parts node.now }
    ensures is { result ≡ true → is_a_sequence node.now ≡ true }
    ensures one { result ≡ true → count (children node.now) ≡ 1 }
    ensures some { result ≡ true → 0 < count (children (part node.now 0)) }
{
    is_sequence(node) && !node.child(0).children().is_empty()
}

// The last part of a sequence, however many sequences it ends in.
#[tactic(auto, using(crate::proofs::SequenceEnds::end_last, crate::proofs::SequenceEnds::end_alone, crate::proofs::SequenceEnds::children_fewer))]
fn end_of(node: &Node) -> &Node
    ensures { result.now ≡ end.end_of node.now }
{
    if !has_parts(node) {
        return node;
    }
    let parts = node.child(0).children();
    end_of(parts.child(parts.len() - 1))
}

/// The last expression of a sequence, however many sequences it ends in; a trailing sequence that
/// is empty is given itself. None exactly where it is no sequence, or an empty one.
pub fn last_expression_in_sequence(sequence: &Node) -> Option<&Node>
    ensures { option_copied result ≡ end.last_expression sequence.now }
{
    if !has_parts(sequence) {
        return None;
    }
    Some(end_of(sequence))
}

/// The operand of a unary expression: a of `!a`.
pub fn unwrap_unary(unary: Node) -> Node
    ensures { result ≡ part unary 0 }
{
    one(unary)
}

/// Whether an expression is a `!`, or the last expression of a sequence is.
pub fn has_negated_result(test: &Node) -> bool
    ensures { result ≡ end.ends_in_negation test.now }
{
    is_not(end_of(test))
}

// Whether it is a sequence whose end is no empty sequence.
fn has_end(node: &Node) -> bool
    ensures { result ≡ end.has_end node.now }
{
    is_sequence(node) && !is_sequence(end_of(node))
}

/// The parts of a sequence, taken out of it.
#[tactic(auto, using(crate::proofs::SequenceEnds::sequence_again, crate::proofs::SequenceEnds::parts_fewer, crate::proofs::SequenceEnds::holds_list))]
pub fn take_parts(sequence: &mut Node) -> Nodes
    requires { is_a_sequence sequence.old ≡ true }
    ensures parts { result ≡ children (part sequence.old 0) }
    ensures rest { sequence.new ≡ sequence_of none }
    ensures fewer { node_counts result < node_count sequence.old }
{
    sequence.children_mut().child_mut(0).take_children()
}

/// A sequence of these parts, of one that has lost its own.
pub fn put_parts(sequence: &mut Node, parts: Nodes)
    requires { sequence.old ≡ sequence_of none }
    ensures { sequence.new ≡ sequence_of parts }
{
    *sequence.children_mut().child_mut(0) = listed(parts);
}

// The parts with what is left of the one at a place, which is nothing, or a sequence.
#[tactic(auto, using(crate::proofs::SequenceEnds::empty_back, crate::proofs::SequenceEnds::full_back))]
fn put_back(parts: Nodes, at: usize, sequence: Node, left: Nodes) -> Nodes
    requires within { at < count parts }
    requires empty { sequence ≡ sequence_of none }
    ensures { result ≡ end.put_back parts at left }
{
    let mut parts = parts;
    if left.is_empty() {
        discard(parts.remove(at));
        return parts;
    }
    let mut sequence = sequence;
    put_parts(&mut sequence, left);
    discard(parts.replace(at, sequence));
    parts
}

// The parts without the end of the last one, and the end.
#[tactic(auto, using(crate::proofs::SequenceEnds::left_without_last, crate::proofs::SequenceEnds::left_put_back, crate::proofs::SequenceEnds::have_some, crate::proofs::SequenceEnds::end_there))]
fn split_end(parts: Nodes) -> (Nodes, Node)
    requires { end.have_end parts ≡ true }
    ensures left { result.0 ≡ end.parts_left parts }
    ensures end { result.1 ≡ end.last_end (sequence_of none) parts }
{
    let mut parts = parts;
    let at = parts.len() - 1;
    if !is_sequence(parts.child(at)) {
        let end = parts.remove(at);
        return (parts, end);
    }
    let mut last = parts.take(at);
    let (left, end) = split_end(take_parts(&mut last));
    (put_back(parts, at, last, left), end)
}

// The end of a sequence that has one, taken out.
#[tactic(auto, using(crate::proofs::SequenceEnds::end_of_parts, crate::proofs::SequenceEnds::parts_have_end, crate::proofs::SequenceEnds::ends_in_sequence))]
fn take_end(sequence: &mut Node) -> Node
    requires { end.has_end sequence.old ≡ true }
    ensures end { result ≡ end.end_of sequence.old }
    ensures left { sequence.new ≡ sequence_of (end.parts_left (children (part sequence.old 0))) }
{
    let (left, end) = split_end(take_parts(sequence));
    put_parts(sequence, left);
    end
}

/// Takes the last expression out of a sequence, however many sequences it ends in, and drops each
/// inner sequence that becomes empty by it: of `a, (b, c)` it gives `c`, and leaves `a, (b)`. None,
/// and nothing changed, exactly where it is no sequence, or it or a trailing sequence in it is
/// empty.
pub fn pop_expression_from_sequence(sequence: &mut Node) -> Option<Node>
    ensures end { result ≡ end.popped sequence.old }
    ensures left { sequence.new ≡ end.left_of sequence.old }
{
    if !has_end(sequence) {
        return None;
    }
    Some(take_end(sequence))
}

/// Whether an expression is a `!`, or a sequence of two parts at least whose last part is one, or
/// such a sequence.
#[tactic(auto, using(crate::proofs::SequenceEnds::ends_then, crate::proofs::SequenceEnds::ends_last, crate::proofs::SequenceEnds::ends_here, crate::proofs::SequenceEnds::children_fewer))]
pub fn ends_in_not(expression: &Node) -> bool
    ensures { result ≡ end.ends_in_not expression.now }
{
    if !is_sequence(expression) {
        return is_negation(expression);
    }
    let parts = expression.child(0).children();
    parts.len() > 1 && ends_in_not(parts.child(parts.len() - 1))
}

/// The expression without the `!` in which it ends: of `a, !b` it makes `a, b`.
#[tactic(auto, using(crate::proofs::SequenceEnds::bared_last, crate::proofs::SequenceEnds::bared_here, crate::proofs::SequenceEnds::several_parts, crate::proofs::SequenceEnds::last_in_not, crate::proofs::SequenceEnds::ends_here))]
pub fn without_not(expression: Node) -> Node
    requires { end.ends_in_not expression ≡ true }
    ensures { result ≡ end.end_bared expression }
{
    if !is_sequence(&expression) {
        return one(expression);
    }
    let mut sequence = expression;
    let mut parts = take_parts(&mut sequence);
    let at = parts.len() - 1;
    let last = without_not(parts.take(at));
    discard(parts.replace(at, last));
    put_parts(&mut sequence, parts);
    sequence
}
