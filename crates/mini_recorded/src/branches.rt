//! Row 79 of branches and bodies: a block of one statement becomes it. It is made in place, and
//! what it makes is lighter there.

ghost use Rattle.std.specs.Prelude.{◌≡◌, ◌<◌, true};
ghost use Rattle.mini_model.specs.Tree.{children, count};
ghost use Rattle.mini_log.specs.ListRows as row;
ghost use Rattle.mini_checker.specs.Made.{Made};
ghost use Rattle.mini_recorded.specs.Unwrapping as term;

use crate::statements::{has_else, holds_one, is_unscoped};
use mini_checker::find;
use mini_model::Shape;
use mini_node::{Node, discard, one};

// Whether the child at a place of such a statement is a branch or a body.
#[tactic(auto, using(crate::proofs::BranchForms::if_branch, crate::proofs::BranchForms::while_body, crate::proofs::BranchForms::do_body, crate::proofs::BranchForms::for_body, crate::proofs::BranchForms::in_body, crate::proofs::BranchForms::of_body))]
fn is_branch(shape: &Shape, at: usize) -> bool
    ensures { result ≡ row.is_branch shape.now at }
{
    match shape {
        Shape::IfStatement => at == 1 || at == 2,
        Shape::WhileStatement => at == 1,
        Shape::DoWhileStatement => at == 0,
        Shape::ForStatement => at == 3,
        Shape::ForInStatement => at == 2,
        Shape::ForOfStatement => at == 2,
        _ => false,
    }
}

// How many children such a statement has.
fn arity(shape: &Shape) -> usize
    ensures { result ≡ row.arity shape.now }
{
    match shape {
        Shape::WhileStatement => 2,
        Shape::DoWhileStatement => 2,
        Shape::ForStatement => 4,
        _ => 3,
    }
}

// Whether the child at a place is a branch or a body.
#[tactic(auto, using(crate::proofs::BranchForms::branch_within))]
fn holds_branch(node: &Node, at: usize) -> bool
    ensures kind { result ≡ term.holds_branch node.now at }
    ensures within { result ≡ true → at < count (children node.now) }
{
    is_branch(node.shape(), at) && node.is_bare(arity(node.shape()))
}

#[tactic(auto, using(crate::proofs::BranchForms::if_consequent))]
fn is_consequent(shape: &Shape, at: usize) -> bool
    ensures { result ≡ row.is_consequent shape.now at }
{
    match shape {
        Shape::IfStatement => at == 1,
        _ => false,
    }
}

// Whether a statement may stand there without a block.
fn stands_bare(shape: &Shape, at: usize, node: &Node) -> bool
    ensures { result ≡ row.stands_bare shape.now at node.now }
{
    is_unscoped(node) && !(is_consequent(shape, at) && has_else(node))
}

/// Whether the child at a place is a block that becomes its one statement.
pub fn unwraps(node: &Node, at: usize) -> bool
    ensures kind { result ≡ term.unwraps node.now at }
    ensures within { result ≡ true → at < count (children node.now) }
{
    holds_branch(node, at)
        && (holds_one(node.child(at))
            && stands_bare(node.shape(), at, node.child(at).child(0).child(0)))
}

/// 79: the block of an index, which is a branch or a body, becomes its one statement.
pub fn unwrap_block(node: &mut Node, index: u32) -> bool
    ensures { Made (row.unwrapped node.old index) node.old node.new result }
{
    let (at, _) = find(node.children(), index);
    if !unwraps(node, at) {
        return false;
    }
    let children = node.children_mut();
    let block = children.take(at);
    discard(children.replace(at, one(one(block))));
    true
}
