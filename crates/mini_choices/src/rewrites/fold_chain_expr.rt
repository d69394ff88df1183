//! Row 10, of optional chains over what is known to be null or undefined: `null?.a` becomes
//! `void 0`, and `(void f())?.a.b.c.d` becomes `void f(), void 0`, where that is lighter; and rows
//! 11 and 64.

ghost use Rattle.std.specs.Prelude.{◌≡◌, true, is_some, unwrap_or, OnOk, IfOk};
ghost use Rattle.mini_model.specs.Tree.{children, count};
ghost use Rattle.mini_model.specs.Weight.{capped, weight};
ghost use Rattle.mini_node.specs.Children.{part};
ghost use Rattle.mini_rows.specs.ChainEnds.{is_nothing as is_it_nothing};
ghost use Rattle.mini_rows.specs.Spellings.{void_zero as void_zero_of};
ghost use Rattle.mini_choices.specs.FoldChainExpr.{ends_at_once as ends_it_at_once, base_of, links_enclose as its_links_enclose, ends_idly as ends_it_idly, may_end as may_it_end, acts as acts_it, ends_after as ends_it_after, may_end_after as may_it_end_after, base_then as base_then_of, after_written, written};

use crate::rewrites::chain_links::{fold_links, is_chain, is_marked, is_step};
use crate::rewrites::inject_optional_chaining::is_calm;
use crate::rewrites::minimize_held_branches::pair;
use crate::weights::pair_weight;
use mini_held::takes_names_along;
use mini_model::{LogicalOperator, OutOfMemory, Position, Seat, UnaryOperator};
use mini_node::{Node, discard, numeric_literal, one, taken, two, unary};
use mini_terms::{goes_on, has_no_effect, stands};
use mini_tree::expr_weight;
use std::alloc::Global;

// Known to be null or undefined.
fn is_nothing(node: &Node) -> bool
    ensures { result ≡ is_it_nothing node.now }
{
    goes_on(LogicalOperator::Coalesce, node)
}

// One of the links is optional over that.
#[tactic(auto, using(crate::proofs::ChainEnds::none_ends, crate::proofs::ChainEnds::below_ends))]
fn ends_at_once(node: &Node) -> bool
    ensures { result ≡ ends_it_at_once node.now }
{
    if !is_step(node) {
        return false;
    }
    let before = node.child(0);
    (is_marked(node) && is_nothing(before)) || ends_at_once(before)
}

// What stands before the links.
#[tactic(auto, using(crate::proofs::ChainEnds::none_before, crate::proofs::ChainEnds::below_before))]
fn base(node: &Node) -> &Node
    ensures { result.now ≡ base_of node.now }
{
    if !is_step(node) {
        return node;
    }
    base(node.child(0))
}

// What stands before the links, taken out of them.
#[tactic(auto, using(crate::proofs::ChainEnds::none_before, crate::proofs::ChainEnds::below_before))]
fn taken_base(node: Node) -> Node
    ensures { result ≡ base_of node }
{
    if !is_step(&node) {
        return node;
    }
    let (before, key) = two(node);
    discard(key);
    taken_base(before)
}

// The names, keys and arguments of the links take along the names in them that can't be written.
#[tactic(auto, using(crate::proofs::ChainEnds::none_enclose, crate::proofs::ChainEnds::below_enclose))]
fn links_enclose(node: &Node) -> bool
    ensures { result ≡ its_links_enclose node.now }
{
    if !is_step(node) {
        return true;
    }
    takes_names_along(node.child(1)) && links_enclose(node.child(0))
}

// Links that end at once, over what has no effect, go with such names.
fn ends_idly(node: &Node) -> bool
    ensures { result ≡ ends_it_idly node.now }
{
    ends_at_once(node) && has_no_effect(base(node)) && takes_names_along(node)
}

fn may_end(node: &Node) -> bool
    ensures { result ≡ may_it_end node.now }
{
    is_chain(node) && ends_idly(node.child(0))
}

// It has an effect, is read by its value alone, and ends no chain.
fn acts(node: &Node) -> bool
    ensures { result ≡ acts_it node.now }
{
    !has_no_effect(node) && stands(node) && is_calm(node)
}

// Of links that end at once, over what has an effect, that alone is left.
fn ends_after(node: &Node) -> bool
    ensures { result ≡ ends_it_after node.now }
{
    ends_at_once(node) && acts(base(node)) && links_enclose(node)
}

fn may_end_after(node: &Node) -> bool
    ensures kind { result ≡ may_it_end_after node.now }
    ensures parts { result ≡ true → count (children node.now) ≡ 1 }
{
    is_chain(node) && ends_after(node.child(0))
}

/// A new `void 0`. The only error is that memory runs out.
pub fn void_zero(alloc: Global) -> Result<Node, OutOfMemory>
    ensures { IfOk result (λ w. w ≡ void_zero_of) }
{
    unary(alloc, UnaryOperator::Void, numeric_literal(alloc, 0))
}

// `void f(), void 0`
fn base_then(alloc: Global, node: Node) -> Result<Node, OutOfMemory>
    ensures { IfOk result (λ w. w ≡ base_then_of node) }
{
    let first = taken_base(one(node));
    let last = void_zero(alloc)?;
    pair(alloc, first, last)
}

// The weight of that.
fn weight_then(alloc: Global, node: &Node, seat: Seat) -> Result<u64, OutOfMemory>
    requires { count (children node.now) ≡ 1 }
    ensures { IfOk result (λ w. w ≡ capped (weight (Position.Expr seat) (base_then_of node.now))) }
{
    let last = void_zero(alloc)?;
    Ok(pair_weight(base(node.child(0)), &last, seat))
}

// `(void f())?.a.b.c.d` becomes `void f(), void 0`.
fn end_after(alloc: Global, node: &mut Node, seat: Seat) -> Result<bool, OutOfMemory>
    ensures tree { OnOk result (node.new ≡ unwrap_or (after_written seat node.old) node.old) }
    ensures said { IfOk result (λ changed. changed ≡ is_some (after_written seat node.old)) }
{
    if may_end_after(node) && weight_then(alloc, node, seat)? < expr_weight(node, seat) {
        *node = base_then(alloc, taken(alloc, node))?;
        return Ok(true);
    }
    fold_links(alloc, node, seat)
}

/// `null?.a` becomes `void 0`, where what stands before `?.` is known to be null or undefined, and
/// where it has an effect, it stays: `(void f())?.a.b.c.d` becomes `void f(), void 0`, each where
/// it is lighter; `(a?.b)?.c` becomes `a?.b?.c`; and `[1]?.length` becomes `[1].length`, where what
/// stands before `?.` is known to be neither; whatever links stand outside. The answer says whether
/// it did; the only error is that memory runs out, and then the expression is fit only to be
/// dropped.
pub fn fold_chain_expr(alloc: Global, node: &mut Node, seat: Seat) -> Result<bool, OutOfMemory>
    ensures tree { OnOk result (node.new ≡ unwrap_or (written seat node.old) node.old) }
    ensures said { IfOk result (λ changed. changed ≡ is_some (written seat node.old)) }
{
    if may_end(node) {
        let made = void_zero(alloc)?;
        if expr_weight(&made, seat) < expr_weight(node, seat) {
            *node = made;
            return Ok(true);
        }
    }
    end_after(alloc, node, seat)
}
