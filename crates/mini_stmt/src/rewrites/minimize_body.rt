//! The list of a function's body. 78: its last `return;` goes. 75: `if (a) return; b; c;` becomes
//! `if (!a) { b; c; }`, and `if (a) { b; return; } c;` becomes `if (a) { b; } else { c; }`.

ghost use Rattle.std.specs.Prelude.{◌≡◌, true, Some, IfOk, OnOk};
ghost use Rattle.mini_rows.specs.Lists.{alternate_of as its_alternate};
ghost use Rattle.mini_stmt.specs.MinimizeBody as row;
ghost use Rattle.mini_stmt.specs.MinimizeBody.{AllTurned, EarlyAt, EndsBody, MinimizesBody, Turned, TurnedAt};
ghost use Rattle.mini_stmt.specs.MinimizeStatements.{switches_of};

use crate::rewrites::join_jumps::returns_nothing;
use crate::rewrites::spread_block::body_of;
use crate::statements::{minimize_statements, take_last};
use crate::terms::{are_unscoped, statement_cares_about_scope};
use mini_model::{OutOfMemory, Shape};
use mini_node::{
    Node, Nodes, absent, block, discard, if_statement, is_absent_part, is_block, is_if_alone,
    is_listed, negation, three,
};
use mini_rows::may_all_sink;
use mini_tree::CompressOptions;
use std::alloc::Global;

// `continue;`
fn goes_on(node: &Node) -> bool
    ensures { result ≡ row.goes_on node.now }
{
    matches!(node.shape(), Shape::ContinueStatement)
        && node.is_bare(1)
        && is_absent_part(node.child(0))
}

// The jump at the end of a loop's body, `continue;`, or of a function's, `return;`.
fn is_jump(in_loop: bool, node: &Node) -> bool
    ensures { result ≡ row.is_jump in_loop node.now }
{
    if in_loop {
        goes_on(node)
    } else {
        returns_nothing(node)
    }
}

// `if (a) return;`, and in a loop `if (a) continue;`
fn leaves(in_loop: bool, node: &Node) -> bool
    ensures { result ≡ row.leaves in_loop node.now }
{
    is_if_alone(node) && is_jump(in_loop, node.child(1))
}

// Whether the last statement is the jump.
fn ends_bare(in_loop: bool, list: &Nodes) -> bool
    ensures { result ≡ row.ends_bare in_loop list.now }
{
    let count = list.len();
    if count == 0 {
        return false;
    }
    is_jump(in_loop, list.child(count - 1))
}

// `if (a) { b; return; }`
fn leaves_by_block(in_loop: bool, node: &Node) -> bool
    ensures { result ≡ row.leaves_by_block in_loop node.now }
{
    is_if_alone(node)
        && is_block(node.child(1))
        && ends_bare(in_loop, node.child(1).child(0).children())
        && are_unscoped(node.child(1).child(0).children())
}

// Whether the statement is a guard: `if (a) return;`, or `if (a) { b; return; }`, and in a loop
// with `continue`.
pub(crate) fn is_guard(in_loop: bool, node: &Node) -> bool
    ensures { result ≡ row.is_guard in_loop node.now }
{
    leaves(in_loop, node) || leaves_by_block(in_loop, node)
}

// The last guard, if what follows it may go into a block.
pub(crate) fn early_at(in_loop: bool, list: &Nodes) -> Option<usize>
    ensures { EarlyAt in_loop list.now result }
{
    let count = list.len();
    for back in 0..count {
        let at = count - 1 - back;
        let node = list.child(at);
        if is_guard(in_loop, node) {
            return if may_all_sink(list, at + 1) {
                Some(at)
            } else {
                None
            };
        }
        if statement_cares_about_scope(node) {
            return None;
        }
    }
    None
}

// `if (!a) { b; c; }`
fn turned_bare(alloc: Global, in_loop: bool, guard: Node, rest: Nodes) -> Result<Node, OutOfMemory>
    requires guard { row.leaves in_loop guard ≡ true }
    requires rest { row.may_nest rest ≡ true }
    ensures { IfOk result (Turned in_loop guard rest) }
{
    let (test, jump, alternate) = three(guard);
    discard(jump);
    discard(alternate);
    let turned = negation(alloc, test)?;
    let body = block(alloc, rest)?;
    if_statement(alloc, turned, body, absent(alloc))
}

// `else { c; }`, or nothing
fn alternate_of(alloc: Global, rest: Nodes) -> Result<Node, OutOfMemory>
    ensures { IfOk result (λ made. made ≡ its_alternate rest) }
{
    if rest.len() == 0 {
        return Ok(absent(alloc));
    }
    block(alloc, rest)
}

// `if (a) { b; } else { c; }`
fn turned_block(alloc: Global, in_loop: bool, guard: Node, rest: Nodes) -> Result<Node, OutOfMemory>
    requires guard { row.leaves_by_block in_loop guard ≡ true }
    requires rest { row.may_nest rest ≡ true }
    ensures { IfOk result (Turned in_loop guard rest) }
{
    let (test, consequent, nothing) = three(guard);
    discard(nothing);
    let mut body = body_of(consequent);
    drop_last(in_loop, &mut body);
    let kept = block(alloc, body)?;
    let alternate = alternate_of(alloc, rest)?;
    if_statement(alloc, test, kept, alternate)
}

// The guard with what follows it in a block: `if (!a) { b; c; }`, or `if (a) { b; } else { c; }`.
pub(crate) fn turned(
    alloc: Global,
    in_loop: bool,
    guard: Node,
    rest: Nodes,
) -> Result<Node, OutOfMemory>
    requires guard { row.is_guard in_loop guard ≡ true }
    requires rest { row.may_nest rest ≡ true }
    ensures { IfOk result (Turned in_loop guard rest) }
{
    if leaves(in_loop, &guard) {
        return turned_bare(alloc, in_loop, guard, rest);
    }
    turned_block(alloc, in_loop, guard, rest)
}

// The guard at a place takes in what follows.
pub(crate) fn turn_at(
    alloc: Global,
    in_loop: bool,
    list: &mut Nodes,
    at: usize,
) -> Result<(), OutOfMemory>
    requires { EarlyAt in_loop list.old (Some at) }
    ensures { OnOk result (TurnedAt in_loop list.old at list.new) }
{
    let mut rest = list.split_off(at)?;
    let guard = rest.remove(0);
    let made = turned(alloc, in_loop, guard, rest)?;
    list.push(made)?;
    Ok(())
}

// The last statement goes.
fn drop_last(in_loop: bool, list: &mut Nodes)
    requires { row.ends_bare in_loop list.old ≡ true }
    ensures { row.DropsLast in_loop list.old list.new }
{
    let last = take_last(list);
    discard(last);
}

// Turns all guards, from the last to the first. The answer says whether there was one.
fn turn_guards(alloc: Global, list: &mut Nodes) -> Result<bool, OutOfMemory>
    ensures { IfOk result (λ changed. AllTurned list.old list.new changed) }
{
    let mut changed = false;
    'turning: while let Some(at) = early_at(false, list) {
        turn_at(alloc, false, list, at)?;
        changed = true;
    }
    Ok(changed)
}

// The rows at the end of the list. The answer says whether one acted.
fn end_body(alloc: Global, options: CompressOptions, node: &mut Node) -> Result<bool, OutOfMemory>
    ensures { IfOk result (λ changed. EndsBody (switches_of options) node.old node.new changed) }
{
    if !is_listed(node) {
        return Ok(false);
    }
    if ends_bare(false, node.children()) {
        drop_last(false, node.children_mut());
        return Ok(true);
    }
    if !options.sequences {
        return Ok(false);
    }
    turn_guards(alloc, node.children_mut())
}

/// The list of a function's body without what the rows of lists read, and without what those at its
/// end do: the function returns there by itself. The answer says whether it changed; the only error
/// is that memory runs out, and then the list is fit only to be dropped.
pub fn minimize_body(
    alloc: Global,
    options: CompressOptions,
    node: &mut Node,
) -> Result<bool, OutOfMemory>
    ensures { IfOk result (λ changed. MinimizesBody (switches_of options) node.old node.new changed) }
{
    if !is_listed(node) {
        return Ok(false);
    }
    if minimize_statements(alloc, options, node)? {
        return Ok(true);
    }
    end_body(alloc, options, node)
}
