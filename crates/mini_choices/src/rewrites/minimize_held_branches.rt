//! Rows 42, 43 and 49: a branch that stands in two places of a conditional is written once, where
//! that is lighter.

ghost use Rattle.std.specs.Prelude.{ℕ, ◌≡◌, ◌<◌, true, is_some, unwrap_or, OnOk, IfOk};
ghost use Rattle.mini_model.specs.Tree.{children, count, logical as logical_of};
ghost use Rattle.mini_node.specs.Children.{part, has_count};
ghost use Rattle.mini_rows.specs.Choices.{pair as pair_of};
ghost use Rattle.mini_choices.specs.MinimizeHeldBranches.{is_pair as is_it_pair, chooses as it_chooses, decides as it_decides, follows as it_follows, consequent_chosen as consequent_chosen_of, alternate_chosen as alternate_chosen_of, consequent_decided as consequent_decided_of, alternate_decided as alternate_decided_of, consequent_followed as consequent_followed_of, alternate_followed as alternate_followed_of, both_followed as both_followed_of, is_consequent_chosen as is_its_consequent_chosen, is_alternate_chosen as is_its_alternate_chosen, is_consequent_decided as is_its_consequent_decided, is_alternate_decided as is_its_alternate_decided, is_consequent_followed as is_its_consequent_followed, is_alternate_followed as is_its_alternate_followed, are_both_alike as are_its_both_alike, written};

use crate::weights::{conditional_over_weight, logical_over_weight, pair_over_weight, pair_weight};
use mini_model::{LogicalOperator, OutOfMemory, Seat};
use mini_node::{
    Node, Nodes, conditional, discard, is_conditional, is_logical, is_same_tree, is_sequence,
    logical, of_two, one, sequence, taken, three, two,
};
use mini_rows::may_join;
use mini_tree::expr_weight;
use std::alloc::Global;

// Whether there are two children.
#[tactic(auto, using(crate::proofs::HeldBranches::two_by_count))]
fn has_two(children: &Nodes) -> bool
    ensures kind { result ≡ has_count children.now 2 }
    ensures parts { result ≡ true → count children.now ≡ 2 }
{
    children.len() == 2
}

/// Whether the expression is `b, c`, a sequence of two parts.
pub fn is_pair(node: &Node) -> bool
    ensures kind { result ≡ is_it_pair node.now }
    ensures list { result ≡ true → count (children node.now) ≡ 1 }
    ensures parts { result ≡ true → count (children (part node.now 0)) ≡ 2 }
{
    is_sequence(node) && has_two(node.child(0).children())
}

// Whether the branch is a conditional, and its own branch at the place the other one.
fn chooses(branch: &Node, at: usize, other: &Node) -> bool
    requires { at < 3 }
    ensures kind { result ≡ it_chooses branch.now at other.now }
    ensures parts { result ≡ true → count (children branch.now) ≡ 3 }
{
    is_conditional(branch) && is_same_tree(branch.child(at), other)
}

// Whether the branch is `b || c` or `b && c`, and c the other one.
fn decides(operator: LogicalOperator, branch: &Node, other: &Node) -> bool
    ensures kind { result ≡ it_decides operator branch.now other.now }
    ensures parts { result ≡ true → count (children branch.now) ≡ 2 }
{
    is_logical(branch, operator) && is_same_tree(branch.child(1), other)
}

// Whether the branch is `b, c`, and c the other one.
fn follows(branch: &Node, other: &Node) -> bool
    ensures kind { result ≡ it_follows branch.now other.now }
    ensures list { result ≡ true → count (children branch.now) ≡ 1 }
    ensures parts { result ≡ true → count (children (part branch.now 0)) ≡ 2 }
{
    is_pair(branch) && is_same_tree(branch.child(0).child(1), other)
}

// `a ? b ? c : d : d`, where `a && b ? c : d` is lighter and `a && b` may be put deeper
fn is_consequent_chosen(node: &Node, seat: Seat) -> bool
    requires { count (children node.now) ≡ 3 }
    ensures { result ≡ is_its_consequent_chosen seat node.now }
{
    let branch = node.child(1);
    chooses(branch, 2, node.child(2))
        && conditional_over_weight(
            LogicalOperator::And,
            node.child(0),
            branch.child(0),
            branch.child(1),
            node.child(2),
            seat,
        ) < expr_weight(node, seat)
        && may_join(node.child(0), branch.child(0))
}

// `a ? c : b ? c : d`, where `a || b ? c : d` is lighter and `a || b` may be put deeper
fn is_alternate_chosen(node: &Node, seat: Seat) -> bool
    requires { count (children node.now) ≡ 3 }
    ensures { result ≡ is_its_alternate_chosen seat node.now }
{
    let branch = node.child(2);
    chooses(branch, 1, node.child(1))
        && conditional_over_weight(
            LogicalOperator::Or,
            node.child(0),
            branch.child(0),
            node.child(1),
            branch.child(2),
            seat,
        ) < expr_weight(node, seat)
        && may_join(node.child(0), branch.child(0))
}

// `a ? b || c : c`, where `a && b || c` is lighter
fn is_consequent_decided(node: &Node, seat: Seat) -> bool
    requires { count (children node.now) ≡ 3 }
    ensures { result ≡ is_its_consequent_decided seat node.now }
{
    decides(LogicalOperator::Or, node.child(1), node.child(2))
        && logical_over_weight(
            LogicalOperator::Or,
            LogicalOperator::And,
            node.child(0),
            node.child(1).child(0),
            node.child(2),
            seat,
        ) < expr_weight(node, seat)
}

// `a ? c : b && c`, where `(a || b) && c` is lighter
fn is_alternate_decided(node: &Node, seat: Seat) -> bool
    requires { count (children node.now) ≡ 3 }
    ensures { result ≡ is_its_alternate_decided seat node.now }
{
    decides(LogicalOperator::And, node.child(2), node.child(1))
        && logical_over_weight(
            LogicalOperator::And,
            LogicalOperator::Or,
            node.child(0),
            node.child(2).child(0),
            node.child(1),
            seat,
        ) < expr_weight(node, seat)
}

// `a ? (b, c) : c`, where `a && b, c` is lighter
fn is_consequent_followed(node: &Node, seat: Seat) -> bool
    requires { count (children node.now) ≡ 3 }
    ensures { result ≡ is_its_consequent_followed seat node.now }
{
    follows(node.child(1), node.child(2))
        && pair_over_weight(
            LogicalOperator::And,
            node.child(0),
            node.child(1).child(0).child(0),
            node.child(2),
            seat,
        ) < expr_weight(node, seat)
}

// `a ? c : (b, c)`, where `a || b, c` is lighter
fn is_alternate_followed(node: &Node, seat: Seat) -> bool
    requires { count (children node.now) ≡ 3 }
    ensures { result ≡ is_its_alternate_followed seat node.now }
{
    follows(node.child(2), node.child(1))
        && pair_over_weight(
            LogicalOperator::Or,
            node.child(0),
            node.child(2).child(0).child(0),
            node.child(1),
            seat,
        ) < expr_weight(node, seat)
}

// `a ? b : b`, where `a, b` is lighter
fn are_both_alike(node: &Node, seat: Seat) -> bool
    requires { count (children node.now) ≡ 3 }
    ensures { result ≡ are_its_both_alike seat node.now }
{
    is_same_tree(node.child(1), node.child(2))
        && pair_weight(node.child(0), node.child(1), seat) < expr_weight(node, seat)
}

/// The sequence `a, b`. The only error is that memory runs out.
pub fn pair(alloc: Global, first: Node, last: Node) -> Result<Node, OutOfMemory>
    ensures { IfOk result (λ w. w ≡ pair_of first last) }
{
    let parts = of_two(alloc, first, last)?;
    sequence(alloc, parts)
}

// `a && b ? c : d` of `a ? b ? c : d : d`
fn consequent_chosen(alloc: Global, node: Node) -> Result<Node, OutOfMemory>
    ensures { IfOk result (λ w. w ≡ consequent_chosen_of node) }
{
    let (test, consequent, alternate) = three(node);
    let (inner, first, again) = three(consequent);
    discard(again);
    let both = logical(alloc, LogicalOperator::And, test, inner)?;
    conditional(alloc, both, first, alternate)
}

// `a || b ? c : d` of `a ? c : b ? c : d`
fn alternate_chosen(alloc: Global, node: Node) -> Result<Node, OutOfMemory>
    ensures { IfOk result (λ w. w ≡ alternate_chosen_of node) }
{
    let (test, consequent, alternate) = three(node);
    let (inner, again, last) = three(alternate);
    discard(again);
    let either = logical(alloc, LogicalOperator::Or, test, inner)?;
    conditional(alloc, either, consequent, last)
}

// `a && b || c` of `a ? b || c : c`
fn consequent_decided(alloc: Global, node: Node) -> Result<Node, OutOfMemory>
    ensures { IfOk result (λ w. w ≡ consequent_decided_of node) }
{
    let (test, consequent, alternate) = three(node);
    let both = logical(alloc, LogicalOperator::And, test, one(consequent))?;
    logical(alloc, LogicalOperator::Or, both, alternate)
}

// `(a || b) && c` of `a ? c : b && c`
fn alternate_decided(alloc: Global, node: Node) -> Result<Node, OutOfMemory>
    ensures { IfOk result (λ w. w ≡ alternate_decided_of node) }
{
    let (test, consequent, alternate) = three(node);
    let either = logical(alloc, LogicalOperator::Or, test, one(alternate))?;
    logical(alloc, LogicalOperator::And, either, consequent)
}

// `a && b, c` of `a ? (b, c) : c`
fn consequent_followed(alloc: Global, node: Node) -> Result<Node, OutOfMemory>
    ensures { IfOk result (λ w. w ≡ consequent_followed_of node) }
{
    let (test, consequent, alternate) = three(node);
    let both = logical(alloc, LogicalOperator::And, test, one(one(consequent)))?;
    pair(alloc, both, alternate)
}

// `a || b, c` of `a ? c : (b, c)`
fn alternate_followed(alloc: Global, node: Node) -> Result<Node, OutOfMemory>
    ensures { IfOk result (λ w. w ≡ alternate_followed_of node) }
{
    let (test, consequent, alternate) = three(node);
    let either = logical(alloc, LogicalOperator::Or, test, one(one(alternate)))?;
    pair(alloc, either, consequent)
}

// `a, b` of `a ? b : b`
fn both_followed(alloc: Global, node: Node) -> Result<Node, OutOfMemory>
    ensures { IfOk result (λ w. w ≡ both_followed_of node) }
{
    let (test, consequent, again) = three(node);
    discard(again);
    pair(alloc, test, consequent)
}

/// A branch that stands in two places of a conditional is written once, where that is lighter:
/// `a ? b ? c : d : d` becomes `a && b ? c : d`, `a ? b || c : c` becomes `a && b || c`,
/// `a ? (b, c) : c` becomes `a && b, c`, the same of the alternate with `||`, and `a ? b : b`
/// becomes `a, b`. The answer says whether it did; the only error is that memory runs out, and then
/// the expression is fit only to be dropped.
pub fn minimize_held_branches(
    alloc: Global,
    node: &mut Node,
    seat: Seat,
) -> Result<bool, OutOfMemory>
    ensures tree { OnOk result (node.new ≡ unwrap_or (written seat node.old) node.old) }
    ensures said { IfOk result (λ changed. changed ≡ is_some (written seat node.old)) }
{
    if !is_conditional(node) {
        return Ok(false);
    }
    let made = if is_consequent_chosen(node, seat) {
        consequent_chosen(alloc, taken(alloc, node))?
    } else if is_alternate_chosen(node, seat) {
        alternate_chosen(alloc, taken(alloc, node))?
    } else if is_consequent_decided(node, seat) {
        consequent_decided(alloc, taken(alloc, node))?
    } else if is_alternate_decided(node, seat) {
        alternate_decided(alloc, taken(alloc, node))?
    } else if is_consequent_followed(node, seat) {
        consequent_followed(alloc, taken(alloc, node))?
    } else if is_alternate_followed(node, seat) {
        alternate_followed(alloc, taken(alloc, node))?
    } else if are_both_alike(node, seat) {
        both_followed(alloc, taken(alloc, node))?
    } else {
        return Ok(false);
    };
    *node = made;
    Ok(true)
}
