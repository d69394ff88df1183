//! The rows of lists over a whole list.

ghost use Rattle.std.specs.Prelude.{◌≡◌, ◌<◌, ◌+◌, IfOk, OnOk, true, false};
ghost use Rattle.mini_model.specs.Paths.{append};
ghost use Rattle.mini_model.specs.Tree.{none, ◌▸◌, children, count, node_count, node_counts};
ghost use Rattle.mini_stmt.specs.MinimizeStatements as row;
ghost use Rattle.mini_stmt.specs.MinimizeStatements.{Changes, Minimized, JoinsStatements, MinimizesList, Placed, Gives, RestsUnder, switches_of};
ghost use Rattle.mini_stmt.specs.JoinGuards.{JoinsOthers};
ghost use Rattle.mini_stmt.specs.MinimizeBody.{QuietRests};
ghost use Rattle.mini_stmt.specs.Lighter.{lists_lighter};
ghost use Rattle.mini_tree.specs.Rule.{Applied};

use crate::lead::{Lead, lead_of};
use crate::rewrites::join_assignments::join_assignments;
use crate::rewrites::join_expressions::joined_expressions;
use crate::rewrites::join_guards::join_guards;
use crate::rewrites::join_heads::{
    has_free_init, has_joinable_head, has_joinable_right, with_init, with_joined_head,
    with_joined_right,
};
use crate::rewrites::join_jumps::{
    joined_returns, joined_throws, returns_answer, returns_nothing, test_alone, throws_answer,
};
use crate::rewrites::join_vars::{declares, takes_declaration, with_declaration};
use crate::rewrites::minimize_body::minimize_body;
use crate::rewrites::split_if::{split, splits};
use crate::rewrites::spread_block::{body_of, spreads};
use crate::terms::is_joinable_statement;
use mini_model::{OutOfMemory, Position, Shape};
use mini_node::{Node, Nodes, discard, is_empty_statement, is_listed};
use mini_tree::{CompressOptions, Context, Rule};
use std::alloc::Global;
use std::mem;

// Whether a row reads the statement by itself.
fn is_read(options: CompressOptions, node: &Node) -> bool
    ensures { result ≡ row.is_read (switches_of options) node.now }
{
    is_empty_statement(node) || spreads(node) || options.sequences && splits(node)
}

// Whether an expression before it is joined to it.
fn takes_expression(node: &Node) -> bool
    ensures { result ≡ row.takes_expression node.now }
{
    is_joinable_statement(node)
        || has_joinable_head(node)
        || has_free_init(node)
        || has_joinable_right(node)
}

// Whether what stands before is joined to it, and one statement is left.
fn joins(options: CompressOptions, lead: Lead, node: &Node) -> bool
    ensures { result ≡ row.joins (switches_of options) lead node.now }
{
    match lead {
        Lead::Expression => options.sequences && takes_expression(node),
        Lead::Declaration(kind) => {
            options.join_vars && declares(node, kind)
                || options.sequences && takes_declaration(node, kind)
        }
        Lead::Return(_) => options.sequences && returns_answer(node),
        Lead::Throw => options.sequences && throws_answer(node),
        Lead::Nothing => false,
    }
}

// `a, b;`, `return a, b;` and the like, of `a;` and the next one
fn with_expression(alloc: Global, first: Node, next: Node) -> Result<Node, OutOfMemory>
    requires { row.takes_expression next ≡ true }
    ensures { IfOk result (λ made. made ≡ row.with_expression first next) }
{
    if is_joinable_statement(&next) {
        joined_expressions(alloc, first, next)
    } else if has_joinable_head(&next) {
        with_joined_head(alloc, first, next)
    } else if has_free_init(&next) {
        Ok(with_init(first, next))
    } else {
        with_joined_right(alloc, first, next)
    }
}

// The statement that is left of the two.
fn joined_to(
    alloc: Global,
    options: CompressOptions,
    lead: Lead,
    first: Node,
    next: Node,
) -> Result<Node, OutOfMemory>
    requires { row.joins (switches_of options) lead next ≡ true }
    ensures { IfOk result (λ made. made ≡ row.joined_to lead first next) }
{
    match lead {
        Lead::Expression => with_expression(alloc, first, next),
        Lead::Declaration(kind) => with_declaration(alloc, kind, first, next),
        Lead::Return(_) => joined_returns(alloc, first, next),
        Lead::Throw => joined_throws(alloc, first, next),
        Lead::Nothing => Ok(next),
    }
}

// Whether both jump with nothing.
fn jumps_anyway(options: CompressOptions, lead: Lead, node: &Node) -> bool
    ensures { result ≡ row.jumps_anyway (switches_of options) lead node.now }
{
    match lead {
        Lead::Return(true) => options.sequences && returns_nothing(node),
        _ => false,
    }
}

/// No row reads a list that is quiet and has no guards to join, if it isn't a function's body that
/// ends with what a row reads.
pub fn no_row_reads_a_quiet_list()
    ensures { QuietRests }
{}

// Whether no row reads the list.
fn is_quiet(options: CompressOptions, list: &Nodes) -> bool
    ensures { result ≡ row.is_quiet (switches_of options) list.now }
{
    let mut lead = Lead::Nothing;
    for at in 0..list.len() {
        let node = list.child(at);
        if is_read(options, node)
            || joins(options, lead, node)
            || jumps_anyway(options, lead, node)
        {
            return false;
        }
        lead = lead_of(node);
    }
    true
}

// How the last of the statements may be joined to the next one.
#[tactic(auto, using(crate::proofs::Quiet::last_is, crate::proofs::Quiet::no_last))]
fn last_lead(list: &Nodes) -> Lead
    ensures { result ≡ row.last_lead list.now }
{
    let count = list.len();
    if count == 0 {
        return Lead::Nothing;
    }
    lead_of(list.child(count - 1))
}

/// Takes the last of the statements out.
#[tactic(auto, using(crate::proofs::Quiet::count_push))]
pub fn take_last(list: &mut Nodes) -> Node
    requires { 0 < count list.old }
    ensures { list.old ≡ append list.new (result ▸ none) }
{
    match list.pop() {
        Some(last) => last,
        None => Node::leaf(list.allocator(), Shape::Absent),
    }
}

// Puts the statement after the others, without joining it to them.
fn put_apart(
    alloc: Global,
    options: CompressOptions,
    before: &mut Nodes,
    lead: Lead,
    statement: Node,
) -> Result<bool, OutOfMemory>
    requires lead { lead ≡ row.last_lead before.old }
    requires apart { row.joins (switches_of options) lead statement ≡ false }
    ensures { IfOk result (λ changed. Placed (switches_of options) before.old statement before.new changed) }
{
    if !jumps_anyway(options, lead, &statement) {
        before.push(statement)?;
        return Ok(false);
    }
    let last = take_last(before);
    let test = test_alone(alloc, last)?;
    before.push(test)?;
    before.push(statement)?;
    Ok(true)
}

// Puts the statement after the others, joined to the last of them as long as a row does that. The
// answer says whether one did.
fn put_after(
    alloc: Global,
    options: CompressOptions,
    before: &mut Nodes,
    statement: Node,
) -> Result<bool, OutOfMemory>
    ensures { IfOk result (λ changed. Placed (switches_of options) before.old statement before.new changed) }
{
    let mut current = statement;
    let mut lead = last_lead(before);
    let mut changed = false;
    'joining: while joins(options, lead, &current) {
        let last = take_last(before);
        current = joined_to(alloc, options, lead, last, current)?;
        lead = last_lead(before);
        changed = true;
    }
    let apart = put_apart(alloc, options, before, lead, current)?;
    Ok(changed | apart)
}

/// Puts the statements after the others, the last of them first.
pub fn put_reversed(rest: &mut Nodes, nodes: Nodes) -> Result<(), OutOfMemory>
    ensures list { OnOk result (row.reversed rest.new ≡ append nodes (row.reversed rest.old)) }
    ensures nodes { OnOk result (node_counts rest.new ≡ node_counts rest.old + node_counts nodes) }
{
    let mut left = nodes;
    'moving: while let Some(node) = left.pop() {
        rest.push(node)?;
    }
    Ok(())
}

// Does the next statement, which others follow, the nearest of them last.
fn minimize_next(
    alloc: Global,
    options: CompressOptions,
    before: &mut Nodes,
    rest: &mut Nodes,
    statement: Node,
) -> Result<bool, OutOfMemory>
    ensures changes { IfOk result (λ changed. Changes (switches_of options) (append before.old (statement ▸ row.reversed rest.old)) (append before.new (row.reversed rest.new)) changed) }
    ensures quiet { OnOk result (row.is_quiet (switches_of options) before.old ≡ true → row.is_quiet (switches_of options) before.new ≡ true) }
    ensures smaller { OnOk result (node_counts rest.new < node_counts rest.old + node_count statement) }
{
    if is_empty_statement(&statement) {
        discard(statement);
        return Ok(true);
    }
    if spreads(&statement) {
        put_reversed(rest, body_of(statement))?;
        return Ok(true);
    }
    if options.sequences && splits(&statement) {
        let (first, alternate) = split(alloc, statement)?;
        rest.push(alternate)?;
        let _joined = put_after(alloc, options, before, first)?;
        return Ok(true);
    }
    put_after(alloc, options, before, statement)
}

// Does all statements, from the first to the last.
fn minimize_all(
    alloc: Global,
    options: CompressOptions,
    list: &mut Nodes,
) -> Result<bool, OutOfMemory>
    ensures { IfOk result (λ changed. Minimized (switches_of options) list.old list.new changed) }
{
    let whole = mem::replace(list, Nodes::new(alloc));
    let mut rest = Nodes::new(alloc);
    put_reversed(&mut rest, whole)?;
    let mut changed = false;
    'statements: while let Some(statement) = rest.pop() {
        let next = minimize_next(alloc, options, list, &mut rest, statement)?;
        changed = changed | next;
    }
    Ok(changed)
}

// A list of statements without what these rows read: empty statements go, blocks are spread,
// neighbours are joined.
fn join_statements(
    alloc: Global,
    options: CompressOptions,
    node: &mut Node,
) -> Result<bool, OutOfMemory>
    ensures { IfOk result (λ changed. JoinsStatements (switches_of options) node.old node.new changed) }
{
    if !is_listed(node) || is_quiet(options, node.children()) {
        return Ok(false);
    }
    minimize_all(alloc, options, node.children_mut())
}

// A list of statements without what the rows of lists read but for those of assignments.
fn join_others(
    alloc: Global,
    options: CompressOptions,
    node: &mut Node,
) -> Result<bool, OutOfMemory>
    ensures { IfOk result (λ changed. JoinsOthers (switches_of options) node.old node.new changed) }
{
    if join_statements(alloc, options, node)? {
        return Ok(true);
    }
    join_guards(alloc, options, node)
}

/// A list of statements without what the rows of lists read: empty statements go, blocks are
/// spread, neighbours are joined. The answer says whether it changed; the only error is that memory
/// runs out, and then the list is fit only to be dropped.
pub fn minimize_statements(
    alloc: Global,
    options: CompressOptions,
    node: &mut Node,
) -> Result<bool, OutOfMemory>
    ensures { IfOk result (λ changed. MinimizesList (switches_of options) node.old node.new changed) }
{
    if join_assignments(alloc, options, node)? {
        return Ok(true);
    }
    join_others(alloc, options, node)
}

/// The rows of lists as a rule: of each list of statements.
pub struct MinimizeStatements;

impl<C: Context> Rule<C> for MinimizeStatements {
    ghost gives = { Gives };

    ghost rests = { RestsUnder };

    ghost lighter = { lists_lighter };

    fn apply(
        &self,
        alloc: Global,
        node: &mut Node,
        place: Position,
        context: &mut C,
    ) -> Result<bool, OutOfMemory> {
        match place {
            Position::StatementList => Ok(minimize_statements(alloc, context.options(), node)?),
            Position::BodyList => Ok(minimize_body(alloc, context.options(), node)?),
            _ => Ok(false),
        }
    }
}
