//! Rows of what has no effect where a body has its `this`, in the place of which something else
//! stands: `(this, a.b)()` becomes `(0, a.b)()`, `void this` `void 0`, `a ? this(b) : this(c)`
//! `this(a ? b : c)`, `typeof this == "text"` `!1`, and `this ? x += 1 : x += 2`
//! `x += this ? 1 : 2`.

ghost use Rattle.std.specs.Prelude.{◌≡◌, true, is_some, unwrap_or, OnOk, IfOk};
ghost use Rattle.mini_model.specs.Tree.{children, count};
ghost use Rattle.mini_node.specs.Kinds.{binary_operator as its_operator, unary_operator as operator_of};
ghost use Rattle.mini_rows.specs.Still.{outweighs_zero as it_outweighs_zero};
ghost use Rattle.mini_steady.specs.Declarations.{known_of};
ghost use Rattle.mini_steady.specs.Still as row;

use crate::code::BodyCode;
use crate::steady::SteadyNames;
use mini_choices::{
    assigned, assigns_either, behind_zero, called, calls_either, indexes_either, is_pair,
    is_seated, void_zero,
};
use mini_held::{is_equality, is_never_type, negated_digit, says_equal};
use mini_model::{BinaryOperator, OutOfMemory, Seat, UnaryOperator};
use mini_node::{Node, binary_operator, taken, unary_operator};
use mini_terms::{is_effect_free, leaves_nothing};
use mini_tree::{expr_weight, seats};
use std::alloc::Global;

// Whether it does nothing where the world isn't asked for `this`, and leaves nothing behind.
fn is_idle(node: &Node) -> bool
    ensures { result ≡ row.is_idle node.now }
{
    is_effect_free(node, false) && leaves_nothing(node)
}

// Whether it weighs more than a `0`, also where a value that is written out weighs 1 more.
fn outweighs_zero(node: &Node, seat: Seat) -> bool
    ensures { result ≡ it_outweighs_zero seat node.now }
{
    expr_weight(node, seat) > 3
}

// `(this, a.b)()`
fn follows_idle(node: &Node) -> bool
    ensures { result ≡ row.follows_idle node.now }
{
    is_pair(node)
        && is_idle(node.child(0).child(0))
        && outweighs_zero(node.child(0).child(0), seats::passed_part())
}

// `void a`
fn is_void(node: &Node) -> bool
    ensures kind { result ≡ row.is_void (operator_of node.now) }
    ensures parts { result ≡ true → count (children node.now) ≡ 1 }
{
    match unary_operator(node) {
        Some(UnaryOperator::Void) => true,
        _ => false,
    }
}

// `void this`
fn voids_idle(node: &Node) -> bool
    ensures { result ≡ row.voids_idle node.now }
{
    is_void(node)
        && is_idle(node.child(0))
        && outweighs_zero(node.child(0), seats::unary_operand(UnaryOperator::Void))
}

// An equality whose left side is a `typeof` of which no text equals the right side.
fn never_equal(operator: BinaryOperator, node: &Node) -> bool
    requires { count (children node.now) ≡ 2 }
    ensures { result ≡ row.never_equal operator node.now }
{
    is_equality(operator) && is_never_type(node, false)
}

// `typeof this == "text"` becomes `!1`. The answer says whether it did.
fn fold_type(alloc: Global, node: &mut Node) -> Result<bool, OutOfMemory>
    ensures tree { OnOk result (node.new ≡ unwrap_or (row.type_written node.old) node.old) }
    ensures said { IfOk result (λ changed. changed ≡ is_some (row.type_written node.old)) }
{
    match binary_operator(node) {
        Some(operator) if never_equal(operator, node) => {
            *node = negated_digit(alloc, !says_equal(operator))?;
            Ok(true)
        }
        _ => Ok(false),
    }
}

// `this ? x += 1 : x += 2`
fn assigns_choice(node: &Node, seat: Seat) -> bool
    ensures { result ≡ row.assigns_choice seat node.now }
{
    is_seated(seat) && (assigns_either(node, false) || indexes_either(node, false))
}

// What has no effect goes for something else. The answer says whether it did.
fn shorten(alloc: Global, node: &mut Node, seat: Seat) -> Result<bool, OutOfMemory>
    ensures tree { OnOk result (node.new ≡ unwrap_or (row.written seat node.old) node.old) }
    ensures said { IfOk result (λ changed. changed ≡ is_some (row.written seat node.old)) }
{
    let made = if follows_idle(node) {
        behind_zero(alloc, taken(alloc, node))?
    } else if voids_idle(node) {
        void_zero(alloc)?
    } else if calls_either(node, false) {
        called(alloc, taken(alloc, node))?
    } else if assigns_choice(node, seat) {
        assigned(alloc, taken(alloc, node))?
    } else {
        return fold_type(alloc, node);
    };
    *node = made;
    Ok(true)
}

/// Something else stands for what has no effect, where the body has its `this`: `(this, a.b)()`
/// becomes `(0, a.b)()`, `void this` `void 0`, `a ? this(b) : this(c)` `this(a ? b : c)`,
/// `typeof this == "text"` `!1`, and `this ? x += 1 : x += 2` `x += this ? 1 : 2`. The answer says
/// whether it does; the only error is that memory runs out, and then the expression is fit only to
/// be dropped.
pub fn shorten_idle_parts<S: SteadyNames>(
    alloc: Global,
    node: &mut Node,
    seat: Seat,
    body: &BodyCode,
    steady: &S,
) -> Result<bool, OutOfMemory>
    ensures tree { OnOk result (node.new ≡ unwrap_or (row.written_in (known_of (S.sets steady.now) body.now) seat node.old) node.old) }
    ensures said { IfOk result (λ changed. changed ≡ is_some (row.written_in (known_of (S.sets steady.now) body.now) seat node.old)) }
{
    if !steady.has_this(body.number) {
        return Ok(false);
    }
    let changed = shorten(alloc, node, seat)?;
    Ok(changed)
}
