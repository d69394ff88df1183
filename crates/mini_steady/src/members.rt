//! Rows 35, 38 and 45 of members of what keeps its value while a body runs, `this` or a name that
//! is steady: `x.k || (x.k = b)` becomes `x.k ||= b`, `x.k || (a, x.k = b)` `x.k ||= (a, b)`,
//! `this.k = this.k + b` `this.k += b`, and `a ? this.k = b : this.k = c` `this.k = a ? b : c`, and
//! so of x.k and x[i], where x and i have values throughout the body, or a reads them first. Each
//! is lighter in every seat.

ghost use Rattle.std.specs.Prelude.{◌≡◌, ◌<◌, true, is_some, unwrap_or, OnOk, IfOk};
ghost use Rattle.mini_model.specs.Tree.{children, count};
ghost use Rattle.mini_node.specs.Children.{names};
ghost use Rattle.mini_choices.specs.MinimizeLogicalSequence.{parts_of};
ghost use Rattle.mini_steady.specs.Declarations.{known_of};
ghost use Rattle.mini_steady.specs.Members as row;
ghost use Rattle.mini_rows.proofs.SteadyKept.{steady_rows_more};
ghost use Rattle.mini_rows.specs.Editions.{SteadyRowsIn};
ghost use Rattle.mini_steady.specs.Keeping.{members_keep};
ghost use Rattle.mini_steady.specs.Members.{members_open, written};
ghost use Rattle.mini_steady.specs.Own.{AppliedHere};

use crate::code::{BodyCode, is_initialised};
use crate::idle::{drop_idle_parts, drop_idle_statement};
use crate::leaving::{begins_at, is_this, leave_before, leaves_object};
use crate::own::OwnRewrites;
use crate::steady::SteadyNames;
use crate::still::shorten_idle_parts;
use mini_choices::{
    are_several, assigned, assigns_plainly, combined, computing, decided, decided_last,
    has_written_key, is_seated, keeps_parentheses, last_place,
};
use mini_model::{AssignmentOperator, LogicalOperator, Name, OutOfMemory, Position, Seat};
use mini_node::{
    Node, Nodes, binary_operator, is_computed_member, is_conditional, is_identifier, is_same_tree,
    is_sequence, logical_operator, taken,
};
use std::alloc::Global;

// The edition of ECMA-262 that `&&=`, `||=` and `??=` came with, as a year.
const DECIDING: u16 = 2021;

// Whether a scope declares the name, and it is steady in the body.
fn is_steady<S: SteadyNames>(name: &Option<Name>, body: &BodyCode, steady: &S) -> bool
    ensures { result ≡ row.is_steady_in (known_of (S.sets steady.now) body.now).steady (names name.now) }
{
    match name {
        Some(name) => match name.symbol {
            Some(symbol) => steady.is_steady(symbol, body.number),
            None => false,
        },
        None => false,
    }
}

// `this` for which the world isn't asked, or a name that is steady.
fn is_kept_object<S: SteadyNames>(node: &Node, body: &BodyCode, steady: &S) -> bool
    ensures { result ≡ row.is_kept_object (known_of (S.sets steady.now) body.now) node.now }
{
    is_this(node) && steady.has_this(body.number)
        || is_identifier(node) && is_steady(node.name(), body, steady)
}

// A member of one, with a key that is written out.
fn is_kept_member<S: SteadyNames>(node: &Node, body: &BodyCode, steady: &S) -> bool
    ensures kind { result ≡ row.is_kept_member (known_of (S.sets steady.now) body.now) node.now }
    ensures parts { result ≡ true → count (children node.now) ≡ 2 }
{
    has_written_key(node) && is_kept_object(node.child(0), body, steady)
}

// A member of `this` with such a key.
fn is_this_member<S: SteadyNames>(node: &Node, body: &BodyCode, steady: &S) -> bool
    ensures { result ≡ row.is_this_member (known_of (S.sets steady.now) body.now) node.now }
{
    has_written_key(node) && is_this(node.child(0)) && steady.has_this(body.number)
}

// `x.k = b`, where the member is this one.
fn assigns_kept<S: SteadyNames>(member: &Node, node: &Node, body: &BodyCode, steady: &S) -> bool
    ensures kind { result ≡ row.assigns_kept (known_of (S.sets steady.now) body.now) member.now node.now }
    ensures parts { result ≡ true → count (children member.now) ≡ 2 }
{
    assigns_plainly(node)
        && is_same_tree(member, node.child(0))
        && is_kept_member(member, body, steady)
}

// `x.k || (x.k = b)`
fn decides_member<S: SteadyNames>(node: &Node, body: &BodyCode, steady: &S) -> bool
    ensures { result ≡ row.decides_member (known_of (S.sets steady.now) body.now) node.now }
{
    match logical_operator(node) {
        Some(_) => assigns_kept(node.child(0), node.child(1), body, steady),
        None => false,
    }
}

// Its operator.
fn operator_of(node: &Node) -> LogicalOperator
    ensures { result ≡ row.operator_of node.now }
{
    logical_operator(node).unwrap_or(LogicalOperator::Or)
}

// Whether the last of the parts assigns to this member, and those before it leave its object.
fn assigns_last<S: SteadyNames>(member: &Node, parts: &Nodes, body: &BodyCode, steady: &S) -> bool
    ensures kind { result ≡ row.assigns_last (known_of (S.sets steady.now) body.now) member.now parts.now }
    ensures parts { result ≡ true → 0 < count parts.now }
{
    if !are_several(parts) {
        return false;
    }
    let last = last_place(parts);
    assigns_kept(member, parts.child(last), body, steady)
        && leave_before(member.child(0), parts, last)
}

// `x.k || (a, x.k = b)`
fn decides_last<S: SteadyNames>(node: &Node, seat: Seat, body: &BodyCode, steady: &S) -> bool
    ensures kind { result ≡ row.decides_last (known_of (S.sets steady.now) body.now) seat node.now }
    ensures parts { result ≡ true → 0 < count (parts_of node.now) }
{
    match logical_operator(node) {
        Some(operator) => {
            keeps_parentheses(operator, seat)
                && is_sequence(node.child(1))
                && assigns_last(
                    node.child(0),
                    node.child(1).child(0).children(),
                    body,
                    steady,
                )
        }
        None => false,
    }
}

// The operator of the `this.k += b` that is written for `this.k = this.k + b`, if there is one.
fn computing_operator(node: &Node) -> Option<AssignmentOperator>
    ensures { result ≡ row.computing_operator node.now }
{
    match binary_operator(node) {
        Some(operator) => computing(operator),
        None => None,
    }
}

// `this.k = this.k + b`
fn computes_this<S: SteadyNames>(node: &Node, body: &BodyCode, steady: &S) -> bool
    ensures kind { result ≡ row.computes_this (known_of (S.sets steady.now) body.now) node.now }
    ensures parts { result ≡ true → count (children node.now) ≡ 2 }
{
    if !assigns_plainly(node) {
        return false;
    }
    match binary_operator(node.child(1)) {
        Some(operator) => {
            computing(operator).is_some()
                && is_same_tree(node.child(0), node.child(1).child(0))
                && is_this_member(node.child(0), body, steady)
        }
        None => false,
    }
}

// Whether a scope declares the name, and it has its value throughout the body.
fn is_valued<S: SteadyNames>(name: &Option<Name>, body: &BodyCode, steady: &S) -> bool
    ensures { result ≡ row.is_steady_in (known_of (S.sets steady.now) body.now).initial (names name.now) }
{
    match name {
        Some(name) => match name.symbol {
            Some(symbol) => is_initialised(symbol, body, steady),
            None => false,
        },
        None => false,
    }
}

// Whether it may be evaluated before a node.
fn is_ready_before<S: SteadyNames>(object: &Node, node: &Node, body: &BodyCode, steady: &S) -> bool
    ensures { result ≡ row.is_ready_before (known_of (S.sets steady.now) body.now) object.now node.now }
{
    is_this(object)
        || (is_valued(object.name(), body, steady) || begins_at(object, node))
            && leaves_object(object, node)
}

// `x[i]`, where both keep their values.
fn is_held_member<S: SteadyNames>(node: &Node, body: &BodyCode, steady: &S) -> bool
    ensures kind { result ≡ row.is_held_member (known_of (S.sets steady.now) body.now) node.now }
    ensures parts { result ≡ true → count (children node.now) ≡ 2 }
{
    is_computed_member(node)
        && is_kept_object(node.child(0), body, steady)
        && is_kept_object(node.child(1), body, steady)
}

// A member with a key that is written out, or such a one, whose parts may be evaluated before the
// test.
fn is_ready_member<S: SteadyNames>(member: &Node, test: &Node, body: &BodyCode, steady: &S) -> bool
    ensures { result ≡ row.is_ready_member (known_of (S.sets steady.now) body.now) test.now member.now }
{
    is_kept_member(member, body, steady) && is_ready_before(member.child(0), test, body, steady)
        || is_held_member(member, body, steady)
            && is_ready_before(member.child(0), test, body, steady)
            && is_ready_before(member.child(1), test, body, steady)
}

// Whether both are assignments to one member, whose parts may be evaluated before the test.
fn assigns_either<S: SteadyNames>(
    test: &Node,
    first: &Node,
    second: &Node,
    body: &BodyCode,
    steady: &S,
) -> bool
    ensures { result ≡ row.assigns_either (known_of (S.sets steady.now) body.now) test.now first.now second.now }
{
    assigns_plainly(first)
        && assigns_plainly(second)
        && is_same_tree(first.child(0), second.child(0))
        && is_ready_member(first.child(0), test, body, steady)
}

// `a ? this.k = b : this.k = c`, or `a ? x.k = b : x.k = c`
fn chooses_member<S: SteadyNames>(node: &Node, seat: Seat, body: &BodyCode, steady: &S) -> bool
    ensures { result ≡ row.chooses_member (known_of (S.sets steady.now) body.now) seat node.now }
{
    is_seated(seat)
        && is_conditional(node)
        && assigns_either(node.child(0), node.child(1), node.child(2), body, steady)
}

// `x.k ||= b` of `x.k || (x.k = b)`
fn decided_member(alloc: Global, node: Node) -> Result<Node, OutOfMemory>
    ensures { IfOk result (λ w. w ≡ row.member_decided node) }
{
    decided(alloc, operator_of(&node), node)
}

// `x.k ||= (a, b)` of `x.k || (a, x.k = b)`
fn decided_before(alloc: Global, node: Node) -> Result<Node, OutOfMemory>
    requires { 0 < count (parts_of node) }
    ensures { IfOk result (λ w. w ≡ row.last_decided node) }
{
    decided_last(alloc, operator_of(&node), node)
}

// `this.k += b` of `this.k = this.k + b`
fn combined_member(alloc: Global, node: Node) -> Result<Node, OutOfMemory>
    requires { count (children node) ≡ 2 }
    ensures { IfOk result (λ w. w ≡ row.member_combined node) }
{
    let operator = computing_operator(node.child(1)).unwrap_or(AssignmentOperator::Assign);
    combined(alloc, operator, node)
}

/// `x.k || (x.k = b)` becomes `x.k ||= b`, and so of `&&` and `??`, and of a sequence that ends in
/// the assignment, where x is steady in the body with this number, or is `this`, and the edition of
/// the options has it;
/// `this.k = this.k + b` becomes `this.k += b`, and `a ? this.k = b : this.k = c`
/// `this.k = a ? b : c`, and so of x.k, where a reads x first. The answer says whether it did; the
/// only error is that memory runs out, and then the expression is fit only to be dropped.
pub fn minimize_members<S: SteadyNames>(
    alloc: Global,
    node: &mut Node,
    seat: Seat,
    body: &BodyCode,
    steady: &S,
) -> Result<bool, OutOfMemory>
    ensures tree { OnOk result (node.new ≡ unwrap_or (written (S.orders steady.now).edition (known_of (S.sets steady.now) body.now) seat node.old) node.old) }
    ensures said { IfOk result (λ changed. changed ≡ is_some (written (S.orders steady.now).edition (known_of (S.sets steady.now) body.now) seat node.old)) }
{
    let late = DECIDING <= steady.orders().edition;
    let made = if late && decides_member(node, body, steady) {
        decided_member(alloc, taken(alloc, node))?
    } else if late && decides_last(node, seat, body, steady) {
        decided_before(alloc, taken(alloc, node))?
    } else if computes_this(node, body, steady) {
        combined_member(alloc, taken(alloc, node))?
    } else if chooses_member(node, seat, body, steady) {
        assigned(alloc, taken(alloc, node))?
    } else {
        return Ok(false);
    };
    *node = made;
    Ok(true)
}

// Of an expression: a row of members, or a part of it goes that has no effect, or is shortened.
fn minimize_expression<S: SteadyNames>(
    alloc: Global,
    node: &mut Node,
    seat: Seat,
    body: &BodyCode,
    steady: &S,
) -> Result<bool, OutOfMemory>
    ensures { IfOk result (λ changed. AppliedHere (SteadyRowsIn (S.orders steady.now).edition (known_of (S.sets steady.now) body.now)) (Position.Expr seat) node.old node.new changed) }
{
    if minimize_members(alloc, node, seat, body, steady)? {
        return Ok(true);
    }
    if drop_idle_parts(alloc, node, seat, body, steady)? {
        return Ok(true);
    }
    let shortened = shorten_idle_parts(alloc, node, seat, body, steady)?;
    Ok(shortened)
}

/// Rows of what keeps its value: of members 35, 38 and 45, and 1, 21, 22 and 44 of what has no
/// effect where the body has its `this`.
pub struct SteadyMembers;

impl<S: SteadyNames> OwnRewrites<S> for SteadyMembers {
    ghost rows = { λ o. SteadyRowsIn o.edition };

    fn rewrite(
        &self,
        alloc: Global,
        node: &mut Node,
        place: Position,
        body: &BodyCode,
        steady: &S,
    ) -> Result<bool, OutOfMemory> {
        match place {
            Position::Expr(seat) => Ok(minimize_expression(alloc, node, seat, body, steady)?),
            Position::Stmt(_) => Ok(drop_idle_statement(alloc, node, body, steady)),
            _ => Ok(false),
        }
    }

    ghost opens = { λ o. members_open o.edition };

    ghost more = { λ o. steady_rows_more o.edition };

    ghost keeps = { λ o. members_keep o.edition };
}
