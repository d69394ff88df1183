//! The forms of row 82 of an `if` whose test is a `!`, or whose consequent is empty. Each function
//! makes what one form writes for a node, if it fits. The only error is that memory runs out.

ghost use Rattle.std.specs.Prelude.{◌≡◌, ◌<◌, ◌&&◌, true, option_map, IfOk};
ghost use Rattle.mini_model.specs.Tree.{children, count};
ghost use Rattle.mini_node.specs.Children.{part};
ghost use Rattle.mini_node.specs.Kinds.{sequence as sequence_tree};
ghost use Rattle.mini_rows.specs.Negations.{is_several as is_it_several};
ghost use Rattle.mini_log.specs.ChoiceRows as row;

use crate::choices::{has_negated_result, is_one_branched};
use crate::copying::{copy_node, copy_nodes};
use crate::making::logical_of;
use mini_model::{LogicalOperator, OutOfMemory};
use mini_node::{
    Node, Nodes, discard, expression_statement, is_block, is_empty_statement,
    is_expression_statement, is_if_statement, is_negation, is_sequence, logical, sequence,
};
use std::alloc::Global;

/// Whether it is a sequence of two parts at least.
#[tactic(auto, using(crate::proofs::Unnegated::several_by_parts, crate::proofs::Unnegated::other_than_several))]
pub fn is_several(node: &Node) -> bool
    ensures kind { result ≡ is_it_several node.now }
    ensures list { result ≡ true → count (children node.now) ≡ 1 }
    ensures parts { result ≡ true → 1 < count (children (part node.now 0)) }
{
    is_sequence(node) && node.child(0).children().len() > 1
}

/// `a` of `!a`, and `a, b` of `a, !b`.
#[cycle(unnegating)]
fn unnegated(alloc: Global, node: &Node) -> Result<Option<Node>, OutOfMemory>
    ensures { IfOk result (λ w. w ≡ row.unnegated node.now) }
{
    if is_negation(node) {
        Ok(Some(copy_node(alloc, node.child(0))?))
    } else if is_several(node) {
        unnegated_sequence(alloc, node.child(0).children())
    } else {
        Ok(None)
    }
}

// The sequence of these parts with the last one so.
#[cycle(unnegating)]
fn unnegated_sequence(alloc: Global, parts: &Nodes) -> Result<Option<Node>, OutOfMemory>
    requires { 1 < count parts.now }
    ensures { IfOk result (λ w. w ≡ option_map sequence_tree (row.unnegated_last parts.now)) }
{
    let last = parts.len() - 1;
    match unnegated(alloc, parts.child(last))? {
        Some(other) => {
            let mut copies = copy_nodes(alloc, parts)?;
            discard(copies.replace(last, other));
            Ok(Some(sequence(alloc, copies)?))
        }
        None => Ok(None),
    }
}

fn is_empty(node: &Node) -> bool
    ensures { result ≡ row.is_empty node.now }
{
    is_empty_statement(node) || (is_block(node) && holds_nothing(node.child(0)))
}

fn holds_nothing(list: &Node) -> bool
    ensures { result ≡ row.holds_nothing (children list.now) }
{
    list.children().is_empty()
}

fn is_else_branched(node: &Node) -> bool
    ensures kind { result ≡ row.is_else_branched node.now }
    ensures parts { result ≡ true → count (children node.now) ≡ 3 }
    ensures inner { result ≡ true → count (children (part node.now 2)) ≡ 1 }
{
    is_if_statement(node) && (is_empty(node.child(1)) && is_expression_statement(node.child(2)))
}

// `a && c;` or `a || c;` of `c;`
fn joined(
    alloc: Global,
    operator: LogicalOperator,
    test: Node,
    statement: &Node,
) -> Result<Node, OutOfMemory>
    requires { count (children statement.now) ≡ 1 }
    ensures { IfOk result (λ w. w ≡ row.joined_by operator test statement.now) }
{
    let right = copy_node(alloc, statement.child(0))?;
    let whole = logical(alloc, operator, test, right)?;
    expression_statement(alloc, whole)
}

// Of a test whose result is a `!`, joined to the branch at an index.
fn unnegated_branch(
    alloc: Global,
    operator: LogicalOperator,
    node: &Node,
    at: usize,
) -> Result<Option<Node>, OutOfMemory>
    requires parts { count (children node.now) ≡ 3 }
    requires within { at < 3 }
    requires inner { count (children (part node.now at)) ≡ 1 }
    ensures { IfOk result (λ w. w ≡ option_map (λ a. row.joined_by operator a (part node.now at)) (row.unnegated (part node.now 0))) }
{
    match unnegated(alloc, node.child(0))? {
        Some(test) => Ok(Some(joined(alloc, operator, test, node.child(at))?)),
        None => Ok(None),
    }
}

/// 82: `if (!a) b;` becomes `a || b`.
pub fn disjoined(alloc: Global, node: &Node) -> Result<Option<Node>, OutOfMemory>
    ensures { IfOk result (λ w. w ≡ row.disjoined node.now) }
{
    if is_one_branched(node) {
        unnegated_branch(alloc, LogicalOperator::Or, node, 1)
    } else {
        Ok(None)
    }
}

/// 82: `if (!a); else b;` becomes `a && b`.
pub fn else_conjoined(alloc: Global, node: &Node) -> Result<Option<Node>, OutOfMemory>
    ensures { IfOk result (λ w. w ≡ row.else_conjoined node.now) }
{
    if is_else_branched(node) {
        unnegated_branch(alloc, LogicalOperator::And, node, 2)
    } else {
        Ok(None)
    }
}

/// 82: `if (a); else b;` becomes `a || b`.
pub fn else_disjoined(alloc: Global, node: &Node) -> Result<Option<Node>, OutOfMemory>
    ensures { IfOk result (λ w. w ≡ row.else_disjoined node.now) }
{
    if is_else_branched(node) && !has_negated_result(node.child(0)) {
        let branch = node.child(2).child(0);
        let whole = logical_of(alloc, LogicalOperator::Or, node.child(0), branch)?;
        Ok(Some(expression_statement(alloc, whole)?))
    } else {
        Ok(None)
    }
}
