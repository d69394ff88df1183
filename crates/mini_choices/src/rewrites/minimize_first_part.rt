//! Row 21 of a first part that has no effect before a last one that may not stand alone:
//! `(null, a.b)()` becomes `(0, a.b)()`, where that is lighter.

ghost use Rattle.std.specs.Prelude.{◌≡◌, true, is_some, unwrap_or, OnOk, IfOk};
ghost use Rattle.mini_model.specs.declared.place.Position.TheVariants.{Expr};
ghost use Rattle.mini_model.specs.Tree.{children, count};
ghost use Rattle.mini_model.specs.Weight.{capped, weight as weight_at};
ghost use Rattle.mini_node.specs.Children.{part};
ghost use Rattle.mini_terms.specs.Exact.{by_value};
ghost use Rattle.mini_choices.specs.MinimizeFirstPart.{is_idle as is_it_idle, follows_idle as it_follows_idle, is_shortened as is_it_shortened, behind_zero as behind_its_zero, written};

use crate::rewrites::minimize_held_branches::{is_pair, pair};
use crate::weights::pair_weight;
use mini_model::{OutOfMemory, Seat};
use mini_node::{Node, discard, numeric_literal, one, taken, two};
use mini_terms::{has_no_effect, leaves_nothing};
use mini_tree::expr_weight;
use std::alloc::Global;

// Whether it does nothing, and leaves nothing behind.
fn is_idle(node: &Node) -> bool
    ensures { result ≡ is_it_idle node.now }
{
    has_no_effect(node) && leaves_nothing(node)
}

// `a, b`, where a does nothing
fn follows_idle(node: &Node) -> bool
    ensures kind { result ≡ it_follows_idle node.now }
    ensures list { result ≡ true → count (children node.now) ≡ 1 }
    ensures parts { result ≡ true → count (children (part node.now 0)) ≡ 2 }
{
    is_pair(node) && is_idle(node.child(0).child(0))
}

// The weight of `0, b`.
fn behind_zero_weight(alloc: Global, last: &Node, seat: Seat) -> u64
    ensures { result ≡ capped (weight_at (Expr seat) (by_value last.now)) }
{
    let zero = numeric_literal(alloc, 0);
    pair_weight(&zero, last, seat)
}

// Whether `0, b` is lighter.
fn is_shortened(alloc: Global, node: &Node, seat: Seat) -> bool
    ensures { result ≡ is_it_shortened seat node.now }
{
    follows_idle(node)
        && behind_zero_weight(alloc, node.child(0).child(1), seat) < expr_weight(node, seat)
}

/// `0, b` of `a, b`
pub fn behind_zero(alloc: Global, node: Node) -> Result<Node, OutOfMemory>
    ensures { IfOk result (λ w. w ≡ behind_its_zero node) }
{
    let (first, last) = two(one(node));
    discard(first);
    pair(alloc, numeric_literal(alloc, 0), last)
}

/// Where a sequence is of two parts, of which the first has no effect, a literal 0 stands for it,
/// if that is lighter: `(null, a.b)()` becomes `(0, a.b)()`, where the last part would be read as a
/// reference alone. The answer says whether it did; the only error is that memory runs out, and
/// then the expression is fit only to be dropped.
pub fn minimize_first_part(alloc: Global, node: &mut Node, seat: Seat) -> Result<bool, OutOfMemory>
    ensures tree { OnOk result (node.new ≡ unwrap_or (written seat node.old) node.old) }
    ensures said { IfOk result (λ changed. changed ≡ is_some (written seat node.old)) }
{
    if !is_shortened(alloc, node, seat) {
        return Ok(false);
    }
    *node = behind_zero(alloc, taken(alloc, node))?;
    Ok(true)
}
