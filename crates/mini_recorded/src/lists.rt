//! Rows 66 and 79 in a list of statements. Each is made in place, whatever else the list holds, and
//! what it makes is lighter in every list.

ghost use Rattle.std.specs.Prelude.{◌≡◌, ◌&&◌, ◌+◌, ◌<◌, ◌≤◌, true, false, IfOk};
ghost use Rattle.mini_model.specs.Paths.{append};
ghost use Rattle.mini_model.specs.Tree.{child_or_absent, count, expression_statement as statement_of};
ghost use Rattle.mini_node.specs.Children.{part};
ghost use Rattle.mini_node.specs.Kinds as kind;
ghost use Rattle.mini_log.specs.declared.row.LogRow.TheVariants.{Row66};
ghost use Rattle.mini_log.specs.ListRows as row;
ghost use Rattle.mini_log.specs.RowStep.{first_lighter, held_forms};
ghost use Rattle.mini_log.specs.Walk.{or_else};
ghost use Rattle.mini_checker.specs.Made.{Made};
ghost use Rattle.mini_recorded.specs.Edited.{Edited};

use crate::statements::{is_joinable, is_loose_block};
use mini_model::{OutOfMemory, Position};
use mini_node::{
    Node, Nodes, discard, expression_statement, is_empty_statement, is_listed, is_sequence, of_one,
    one, sequence,
};
use std::alloc::Global;

fn is_statements(place: Position) -> bool
    ensures { result ≡ row.is_statements place }
{
    matches!(place, Position::StatementList | Position::BodyList)
}

/// Whether it is the list of the statements of a program, a block or a body.
pub fn is_statement_list(place: Position, node: &Node) -> bool
    ensures { result ≡ (row.is_statements place && kind.is_listed node.now) }
{
    is_statements(place) && is_listed(node)
}

// ---- 66

// 66: an empty statement goes.
fn drop_empty(nodes: &mut Nodes, at: usize) -> bool
    ensures { Edited (row.within row.gone nodes.old at) nodes.old nodes.new result }
{
    if at >= nodes.len() {
        return false;
    }
    if !is_empty_statement(nodes.child(at)) {
        return false;
    }
    discard(nodes.remove(at));
    true
}

// The parts of a sequence; any other expression is one.
fn parts_of(alloc: Global, expression: Node) -> Result<Nodes, OutOfMemory>
    ensures { IfOk result (λ parts. parts ≡ row.parts expression) }
{
    if is_sequence(&expression) {
        Ok(one(expression).into_children())
    } else {
        of_one(alloc, expression)
    }
}

// `a, b;` of `a;` and `b;`
fn joined(alloc: Global, first: Node, second: Node) -> Result<Node, OutOfMemory>
    ensures { IfOk result (λ w. w ≡ statement_of (kind.sequence (append (row.parts (part first 0)) (row.parts (part second 0))))) }
{
    let mut parts = parts_of(alloc, one(first))?;
    let mut others = parts_of(alloc, one(second))?;
    parts.append(&mut others)?;
    let whole = sequence(alloc, parts)?;
    expression_statement(alloc, whole)
}

// Whether another statement follows the one at a place.
fn has_next(nodes: &Nodes, at: usize) -> bool
    ensures some { result ≡ true → at + 1 < count nodes.now }
    ensures none { result ≡ false → count nodes.now ≤ at + 1 }
{
    at < nodes.len() && at + 1 < nodes.len()
}

/// Whether the statement at a place is joined to that at the next one; never without `sequences`.
pub fn joins(sequences: bool, nodes: &Nodes, at: usize, next: usize) -> bool
    requires first { at < count nodes.now }
    requires second { next < count nodes.now }
    ensures { result ≡ (sequences && (row.is_joinable (child_or_absent nodes.now at) && row.is_joinable (child_or_absent nodes.now next))) }
{
    sequences && (is_joinable(nodes.child(at)) && is_joinable(nodes.child(next)))
}

// 66, with `sequences`: `a; b;` becomes `a, b;`.
fn join_next(
    alloc: Global,
    sequences: bool,
    nodes: &mut Nodes,
    at: usize,
) -> Result<bool, OutOfMemory>
    ensures { IfOk result (Edited (row.within (row.joined sequences) nodes.old at) nodes.old nodes.new) }
{
    if !has_next(nodes, at) {
        return Ok(false);
    }
    let count = nodes.len();
    prove!(at < count);
    let next = at + 1;
    if !joins(sequences, nodes, at, next) {
        return Ok(false);
    }
    let second = nodes.remove(next);
    let first = nodes.take(at);
    let whole = joined(alloc, first, second)?;
    discard(nodes.replace(at, whole));
    Ok(true)
}

// 66: an empty statement goes, and `a; b;` becomes `a, b;`.
fn edit_66(
    alloc: Global,
    sequences: bool,
    nodes: &mut Nodes,
    at: usize,
) -> Result<bool, OutOfMemory>
    ensures { IfOk result (Edited (or_else (row.within row.gone nodes.old at) (row.within (row.joined sequences) nodes.old at)) nodes.old nodes.new) }
{
    if drop_empty(nodes, at) {
        return Ok(true);
    }
    join_next(alloc, sequences, nodes, at)
}

/// Row 66, of the statement of an index. The only error is that memory runs out, and then the list
/// is fit only to be dropped.
pub fn row_66(
    alloc: Global,
    sequences: bool,
    place: Position,
    node: &mut Node,
    index: u32,
) -> Result<bool, OutOfMemory>
    ensures { IfOk result (Made (first_lighter place node.old (held_forms sequences Row66 place node.old index)) node.old node.new) }
{
    if !is_statement_list(place, node) {
        return Ok(false);
    }
    edit_66(alloc, sequences, node.children_mut(), index as usize)
}

// ---- 79

// 79: a block without scoped statements is spread in its list.
fn spread(nodes: &mut Nodes, at: usize) -> Result<bool, OutOfMemory>
    ensures { IfOk result (Edited (row.within row.spread nodes.old at) nodes.old nodes.new) }
{
    if at >= nodes.len() {
        return Ok(false);
    }
    if !is_loose_block(nodes.child(at)) {
        return Ok(false);
    }
    let mut rest = nodes.split_off(at)?;
    let mut items = one(rest.remove(0)).into_children();
    nodes.append(&mut items)?;
    nodes.append(&mut rest)?;
    Ok(true)
}

/// 79: the block of an index is spread in its list. The only error is that memory runs out, and
/// then the list is fit only to be dropped.
pub fn spread_block(place: Position, node: &mut Node, index: u32) -> Result<bool, OutOfMemory>
    ensures { IfOk result (Made (row.in_list row.spread place node.old index) node.old node.new) }
{
    if !is_statement_list(place, node) {
        return Ok(false);
    }
    spread(node.children_mut(), index as usize)
}
