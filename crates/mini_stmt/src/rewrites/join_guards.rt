//! 74: `if (a) s; if (b) s;` becomes `if (a || b) s`, where s ends in a jump. 77: `return a; b();`
//! becomes `return a;`, and what else never runs goes with it.

ghost use Rattle.std.specs.Prelude.{◌≡◌, ◌<◌, IfOk};
ghost use Rattle.mini_model.specs.Tree.{count};
ghost use Rattle.mini_node.specs.Children.{rest_children};
ghost use Rattle.mini_stmt.specs.JoinGuards as row;
ghost use Rattle.mini_stmt.specs.JoinGuards.{Joined, JoinsGuards, PutJoined, Settled};
ghost use Rattle.mini_stmt.specs.MinimizeStatements.{switches_of};

use crate::rewrites::drop_unreached::drop_unreached;
use crate::statements::{put_reversed, take_last};
use crate::terms::is_terminated;
use mini_model::{LogicalOperator, OutOfMemory, Shape};
use mini_node::{
    Node, Nodes, discard, if_statement, is_absent_part, is_expression_statement, is_if_alone,
    is_if_statement, is_listed, is_return_statement, is_same_tree, is_throw_statement, logical,
    one, three,
};
use mini_rows::may_join;
use mini_terms::leaves_nothing;
use mini_tree::CompressOptions;
use std::alloc::Global;
use std::mem;

// Whether it is `if (a) s`, and then an `if (b)` with the branch s, where `a || b` may be put
// deeper.
fn are_guards(first: &Node, next: &Node) -> bool
    ensures { result ≡ row.are_guards first.now next.now }
{
    is_if_alone(first)
        && is_terminated(first.child(1))
        && is_if_statement(next)
        && is_same_tree(first.child(1), next.child(1))
        && may_join(first.child(0), next.child(0))
}

// `if (a || b) s`, with the `else` of the second
fn both_guards(alloc: Global, first: Node, next: Node) -> Result<Node, OutOfMemory>
    ensures { IfOk result (λ made. made ≡ row.both_guards first next) }
{
    let (right, consequent, alternate) = three(next);
    let test = logical(alloc, LogicalOperator::Or, one(first), right)?;
    if_statement(alloc, test, consequent, alternate)
}

// `break;` or `continue;`
fn leaps(node: &Node) -> bool
    ensures { result ≡ row.leaps node.now }
{
    matches!(
        node.shape(),
        Shape::BreakStatement | Shape::ContinueStatement
    ) && node.is_bare(1)
        && is_absent_part(node.child(0))
}

// Whether it is `break;` or `continue;`, or an expression, a `return` or a `throw` that leaves
// nothing behind.
fn may_go(node: &Node) -> bool
    ensures { result ≡ row.may_go node.now }
{
    is_idle(node) || leaps(node)
}

// Whether it is `a;`, `return a;` or `throw a;`, and leaves nothing behind when it goes.
fn is_idle(node: &Node) -> bool
    ensures { result ≡ row.is_idle node.now }
{
    (is_expression_statement(node) || is_return_statement(node) || is_throw_statement(node))
        && leaves_nothing(node.child(0))
}

// Whether the first ends in a jump, and the next one may go.
fn ends_before(first: &Node, next: &Node) -> bool
    ensures { result ≡ row.ends_before first.now next.now }
{
    is_terminated(first) && may_go(next)
}

// Whether the two are one.
fn meets(first: &Node, next: &Node) -> bool
    ensures { result ≡ row.meets first.now next.now }
{
    ends_before(first, next) || are_guards(first, next)
}

// The one statement that is left of the two.
fn met(alloc: Global, first: Node, next: Node) -> Result<Node, OutOfMemory>
    ensures { IfOk result (λ made. made ≡ row.met first next) }
{
    if ends_before(&first, &next) {
        discard(next);
        return Ok(first);
    }
    both_guards(alloc, first, next)
}

// Whether the one at a place and the next one are so.
fn meet_at(list: &Nodes, at: usize) -> bool
    requires { at < count list.now }
    ensures { result ≡ row.meet_first (rest_children at list.now) }
{
    let last = list.len() - 1;
    if at == last {
        return false;
    }
    meets(list.child(at), list.child(at + 1))
}

// Whether no two neighbours are.
fn are_apart(list: &Nodes) -> bool
    ensures { result ≡ row.are_apart list.now }
{
    for at in 0..list.len() {
        if meet_at(list, at) {
            return false;
        }
    }
    true
}

// Whether the last of the statements and this one are.
fn meets_last(before: &Nodes, statement: &Node) -> bool
    ensures { result ≡ row.meets_last before.now statement.now }
{
    let count = before.len();
    if count == 0 {
        return false;
    }
    meets(before.child(count - 1), statement)
}

// Puts the statement after the others, or joins it to the last of them. The answer says whether it
// is joined.
fn put_joined(alloc: Global, before: &mut Nodes, statement: Node) -> Result<bool, OutOfMemory>
    ensures { IfOk result (λ changed. PutJoined before.old statement before.new changed) }
{
    if !meets_last(before, &statement) {
        before.push(statement)?;
        return Ok(false);
    }
    let last = take_last(before);
    let joined = met(alloc, last, statement)?;
    before.push(joined)?;
    Ok(true)
}

// Does all statements, from the first to the last.
fn join_all(alloc: Global, list: &mut Nodes) -> Result<bool, OutOfMemory>
    ensures { IfOk result (λ changed. Joined list.old list.new changed) }
{
    let whole = mem::replace(list, Nodes::new(alloc));
    let mut rest = Nodes::new(alloc);
    put_reversed(&mut rest, whole)?;
    let mut changed = false;
    'statements: while let Some(statement) = rest.pop() {
        let joined = put_joined(alloc, list, statement)?;
        changed = changed | joined;
    }
    Ok(changed)
}

// As far as two neighbours are one.
fn join_neighbours(alloc: Global, list: &mut Nodes) -> Result<bool, OutOfMemory>
    ensures { IfOk result (λ changed. Joined list.old list.new changed) }
{
    if are_apart(list) {
        return Ok(false);
    }
    join_all(alloc, list)
}

// Where no two are, what never runs goes.
fn settle(alloc: Global, list: &mut Nodes) -> Result<bool, OutOfMemory>
    ensures { IfOk result (λ changed. Settled list.old list.new changed) }
{
    if join_neighbours(alloc, list)? {
        return Ok(true);
    }
    drop_unreached(alloc, list)
}

/// Each `if` that ends in a jump, and the next one with that branch, as one; and what ends in a
/// jump without what never runs after it, but for the names that it declares. The answer says
/// whether there was anything to do; the only error is that memory runs out, and then the list is
/// fit only to be dropped.
pub fn join_guards(
    alloc: Global,
    options: CompressOptions,
    node: &mut Node,
) -> Result<bool, OutOfMemory>
    ensures { IfOk result (λ changed. JoinsGuards (switches_of options) node.old node.new changed) }
{
    if !options.sequences || !is_listed(node) {
        return Ok(false);
    }
    settle(alloc, node.children_mut())
}
