//! Rows 21 and 22 of what has no effect where a body has its `this`: `a(), this, b()` becomes
//! `a(), b()`, `this, a()` `a()`, `(this, a)()` `a()`, `this;` `;`, and `for (this; a; this) b`
//! `for (; a;) b`.

ghost use Rattle.std.specs.Prelude.{◌≡◌, ◌+◌, ◌<◌, ◌||◌, true, false, nat_le, is_some, unwrap_or, IfOk, IfSome};
ghost use Rattle.mini_model.specs.Tree.{children, count, child_or_absent};
ghost use Rattle.mini_node.specs.Children.{part};
ghost use Rattle.mini_node.specs.Kinds.{sequence as sequence_of, is_sequence as is_it_sequence};
ghost use Rattle.mini_rows.specs.Idle.{is_still as is_it_still, is_still_part as is_it_still_part};
ghost use Rattle.mini_steady.specs.Declarations.{known_of};
ghost use Rattle.mini_steady.specs.Idle as row;
ghost use Rattle.mini_steady.specs.Idle.{Loses, LosesIn};

use crate::code::BodyCode;
use crate::steady::SteadyNames;
use mini_held::{IdleParts, drop_parts, stays_alone, takes_alone};
use mini_model::{OutOfMemory, Seat, Shape};
use mini_node::{
    Node, Nodes, discard, empty_statement, is_expression_statement, is_sequence, one, sequence,
    taken, two,
};
use mini_terms::{is_effect_free, is_plain_part, leaves_nothing, weighs};
use std::alloc::Global;

// Whether it has no effect where the world isn't asked for `this`, and may go.
fn is_still(node: &Node) -> bool
    ensures { result ≡ is_it_still node.now }
{
    is_effect_free(node, false) && leaves_nothing(node) && weighs(node)
}

// Whether so may a part of the head of a `for`.
fn is_still_part(node: &Node) -> bool
    ensures { result ≡ is_it_still_part node.now }
{
    is_still(node) && is_plain_part(node)
}

// `this;`
fn does_nothing(node: &Node) -> bool
    ensures { result ≡ row.does_nothing node.now }
{
    is_expression_statement(node) && is_still(node.child(0))
}

// `for (this; a; b) c`
fn begins_still(node: &Node) -> bool
    ensures kind { result ≡ row.begins_still node.now }
    ensures parts { result ≡ true → count (children node.now) ≡ 4 }
{
    matches!(node.shape(), Shape::ForStatement) && node.is_bare(4) && is_still_part(node.child(0))
}

// `for (; a; this) c`
fn turns_still(node: &Node) -> bool
    ensures kind { result ≡ row.turns_still node.now }
    ensures parts { result ≡ true → count (children node.now) ≡ 4 }
{
    matches!(node.shape(), Shape::ForStatement) && node.is_bare(4) && is_still_part(node.child(2))
}

// Without the part of its head at a place.
fn headless(node: Node, at: usize) -> Node
    requires { at < count (children node) }
    ensures { result ≡ row.headless at node }
{
    let mut children = node.into_children();
    discard(children.take(at));
    Node::new(Shape::ForStatement, children)
}

// What has no effect goes of a statement. The answer says whether something did.
fn empty_idle(alloc: Global, node: &mut Node) -> bool
    ensures tree { node.new ≡ unwrap_or (row.statement_written node.old) node.old }
    ensures said { result ≡ is_some (row.statement_written node.old) }
{
    if does_nothing(node) {
        *node = empty_statement(alloc);
        return true;
    }
    if begins_still(node) {
        *node = headless(taken(alloc, node), 0);
        return true;
    }
    if turns_still(node) {
        *node = headless(taken(alloc, node), 2);
        return true;
    }
    false
}

// What has no effect goes of a sequence.
struct Still;

impl IdleParts for Still {
    ghost idle = { is_it_still };

    fn is_idle(&self, node: &Node) -> bool {
        is_still(node)
    }
}

// `a(), b()` of `a(), this, b()`
fn drop_some(alloc: Global, node: &mut Node, seat: Seat) -> Result<bool, OutOfMemory>
    requires parts { count (children node.old) ≡ 1 }
    requires kind { is_it_sequence node.old ≡ true }
    requires several { nat_le 3 (count (children (part node.old 0))) ≡ true }
    ensures { IfOk result (λ changed. Loses seat node.old node.new changed) }
{
    let changed = drop_parts(alloc, &Still, node)?;
    Ok(changed)
}

// Whether of two parts the last one may stand alone.
fn is_left(seat: Seat, parts: &Nodes) -> bool
    ensures { result ≡ row.is_left seat parts.now }
{
    parts.len() == 2
        && takes_alone(seat)
        && is_still(parts.child(0))
        && stays_alone(seat, parts.child(1))
}

fn last_of_two(node: Node) -> Node
    ensures { result ≡ child_or_absent (children (part node 0)) 1 }
{
    let (first, last) = two(one(node));
    discard(first);
    last
}

// `a()` of `this, a()`
fn leave_last(alloc: Global, node: &mut Node, seat: Seat) -> bool
    requires parts { count (children node.old) ≡ 1 }
    requires kind { is_it_sequence node.old ≡ true }
    requires few { nat_le 3 (count (children (part node.old 0))) ≡ false }
    ensures { Loses seat node.old node.new result }
{
    if !is_left(seat, node.child(0).children()) {
        return false;
    }
    *node = last_of_two(taken(alloc, node));
    true
}

// Parts go that have no effect. The answer says whether one did.
fn drop_idle(alloc: Global, node: &mut Node, seat: Seat) -> Result<bool, OutOfMemory>
    requires parts { count (children node.old) ≡ 1 }
    requires kind { is_it_sequence node.old ≡ true }
    ensures { IfOk result (λ changed. Loses seat node.old node.new changed) }
{
    if node.child(0).children().len() >= 3 {
        drop_some(alloc, node, seat)
    } else {
        Ok(leave_last(alloc, node, seat))
    }
}

// Parts of an expression go that have no effect. The answer says whether one did.
fn drop_from(alloc: Global, node: &mut Node, seat: Seat) -> Result<bool, OutOfMemory>
    ensures { IfOk result (λ changed. Loses seat node.old node.new changed) }
{
    if !is_sequence(node) {
        return Ok(false);
    }
    drop_idle(alloc, node, seat)
}

/// The parts of a sequence go that have no effect, where the body has its `this`: `a(), this, b()`
/// becomes `a(), b()`, and `this, a()` and `(this, a)()` `a()`. The answer says whether one did;
/// the only error is that memory runs out, and then the expression is fit only to be dropped.
pub fn drop_idle_parts<S: SteadyNames>(
    alloc: Global,
    node: &mut Node,
    seat: Seat,
    body: &BodyCode,
    steady: &S,
) -> Result<bool, OutOfMemory>
    ensures { IfOk result (λ changed. LosesIn (known_of (S.sets steady.now) body.now) seat node.old node.new changed) }
{
    if !steady.has_this(body.number) {
        return Ok(false);
    }
    let changed = drop_from(alloc, node, seat)?;
    Ok(changed)
}

/// A statement becomes empty, or a part of the head of a `for` goes, that has no effect, where the
/// body has its `this`: `this;` becomes `;`, and `for (this; a; this) b` `for (; a;) b`. The answer
/// says whether something changed.
pub fn drop_idle_statement<S: SteadyNames>(
    alloc: Global,
    node: &mut Node,
    body: &BodyCode,
    steady: &S,
) -> bool
    ensures tree { node.new ≡ unwrap_or (row.written_in (known_of (S.sets steady.now) body.now) node.old) node.old }
    ensures said { result ≡ is_some (row.written_in (known_of (S.sets steady.now) body.now) node.old) }
{
    if !steady.has_this(body.number) {
        return false;
    }
    empty_idle(alloc, node)
}
