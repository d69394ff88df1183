//! Row 71 in one declaration: `{ let x = a(), y = x.b; c(y); }` becomes `{ let y = a().b; c(y); }`,
//! where the next declarator evaluates x after parts that may be evaluated before the initializer,
//! nothing else in the block has its spelling or its symbol, and no direct eval stands there.

ghost use Rattle.std.specs.Prelude.{◌≡◌, ◌+◌, ◌<◌, ◌^◌, true, None, IfOk};
ghost use Rattle.mini_model.specs.Tree.{children, count};
ghost use Rattle.mini_node.specs.Children.{names, part, with_part};
ghost use Rattle.mini_node.specs.Kinds.{is_listed as is_it_listed};
ghost use Rattle.mini_unused.specs.RemoveUnusedDeclaration.{declares_name as it_declares_name, allowed, open_in, UnusedAt};
ghost use Rattle.mini_unused.specs.SubstituteNext as row;
ghost use Rattle.mini_unused.specs.SubstituteNext.{NextIn, NextOf, NextAt};
ghost use Rattle.mini_unused.specs.SubstituteSingleUse.{Removed, SingleAt};

use crate::declarations::{
    declares_name, is_lexical, may_declare, may_lose, put_child, take_child,
};
use crate::evals::either_has_eval;
use crate::mentions::{is_mentioned, is_mentioned_before, is_mentioned_from};
use crate::passing::reads_in;
use crate::single_uses::{may_move, put_named};
use crate::sweeping::sweep;
use mini_context::TraverseCtx;
use mini_model::{Name, OutOfMemory, Shape};
use mini_node::{Node, Nodes, discard, two};
use std::alloc::Global;

/// A declarator, of a name or of a pattern.
pub fn is_declarator(node: &Node) -> bool
    ensures kind { result ≡ row.is_declarator node.now }
    ensures parts { result ≡ true → count (children node.now) ≡ 2 }
{
    matches!(node.shape(), Shape::VariableDeclarator) && node.is_bare(2)
}

/// Whether the name stands in the declarator's own initializer, in what the next declarator
/// declares, or in another declarator.
pub fn is_mentioned_beside(
    name: &Name,
    declarator: &Node,
    next: &Node,
    declarators: &Nodes,
    which: usize,
) -> bool
    requires parts { 1 < count (children declarator.now) }
    requires next_parts { 1 < count (children next.now) }
    requires next { which + 1 < count declarators.now }
    requires fits { which + 2 < 2 ^ 64 }
    ensures { result ≡ row.is_mentioned_beside name.now declarator.now next.now declarators.now which }
{
    is_mentioned(name, declarator.child(1))
        || is_mentioned(name, next.child(0))
        || is_mentioned_before(name, declarators, which)
        || is_mentioned_from(name, declarators, which + 2)
}

/// Whether the name stands in another statement than the one at the place.
pub fn is_mentioned_elsewhere(name: &Name, statements: &Nodes, at: usize) -> bool
    requires statement { at < count statements.now }
    requires fits { at + 1 < 2 ^ 64 }
    ensures { result ≡ row.is_mentioned_elsewhere name.now statements.now at }
{
    is_mentioned_before(name, statements, at) || is_mentioned_from(name, statements, at + 1)
}

/// The next declarator reads the name first, and nothing else mentions it.
pub fn is_read_then(
    name: &Option<Name>,
    declarator: &Node,
    next: &Node,
    outside: &Node,
    declarators: &Nodes,
    which: usize,
    statements: &Nodes,
    at: usize,
) -> bool
    requires parts { 1 < count (children declarator.now) }
    requires next_parts { 1 < count (children next.now) }
    requires next { which + 1 < count declarators.now }
    requires statement { at < count statements.now }
    requires fits { which + 2 < 2 ^ 64 }
    requires fits_too { at + 1 < 2 ^ 64 }
    ensures { result ≡ row.is_read_then (names name.now) declarator.now next.now outside.now declarators.now which statements.now at }
{
    match name {
        Some(name) => {
            reads_in(name, declarator.child(1), next.child(1))
                && !is_mentioned_beside(name, declarator, next, declarators, which)
                && !is_mentioned(name, outside)
                && !is_mentioned_elsewhere(name, statements, at)
        }
        None => false,
    }
}

// A declarator that the next one reads first, and whose initializer may move.
fn is_read_by(
    is_free: bool,
    declarator: &Node,
    next: &Node,
    outside: &Node,
    declarators: &Nodes,
    which: usize,
    statements: &Nodes,
    at: usize,
    context: &TraverseCtx,
) -> bool
    requires next { which + 1 < count declarators.now }
    requires statement { at < count statements.now }
    requires fits { which + 2 < 2 ^ 64 }
    requires fits_too { at + 1 < 2 ^ 64 }
    ensures { result ≡ row.is_read_by is_free (open_in outside.now (allowed context.now)) declarator.now next.now outside.now declarators.now which statements.now at }
{
    declares_name(declarator)
        && is_declarator(next)
        && may_lose(is_free, declarator.child(0).name(), outside, context)
        && may_move(declarator.child(1), context.options)
        && is_read_then(
            declarator.child(0).name(),
            declarator,
            next,
            outside,
            declarators,
            which,
            statements,
            at,
        )
}

// Of a list the declarator at the place.
#[tactic(auto, using(crate::proofs::NextUses::next_is))]
fn is_read_by_next(
    is_free: bool,
    list: &Node,
    which: usize,
    outside: &Node,
    statements: &Nodes,
    at: usize,
    context: &TraverseCtx,
) -> bool
    requires next { which + 1 < count (children list.now) }
    requires statement { at < count statements.now }
    requires fits { which + 2 < 2 ^ 64 }
    requires fits_too { at + 1 < 2 ^ 64 }
    ensures { result ≡ row.is_read_by_next is_free (open_in outside.now (allowed context.now)) list.now which outside.now statements.now at }
{
    let declarator = list.child(which);
    let next = list.child(which + 1);
    let declarators = list.children();
    is_read_by(
        is_free,
        declarator,
        next,
        outside,
        declarators,
        which,
        statements,
        at,
        context,
    )
}

// The first of the list.
fn next_in(
    is_free: bool,
    list: &Node,
    outside: &Node,
    statements: &Nodes,
    at: usize,
    context: &TraverseCtx,
) -> Option<usize>
    requires statement { at < count statements.now }
    requires fits { at + 1 < 2 ^ 64 }
    ensures { NextIn is_free (open_in outside.now (allowed context.now)) list.now outside.now statements.now at result }
{
    let count = list.children().len();
    if count == 0 {
        return None;
    }
    for which in 0..count - 1 {
        if is_read_by_next(is_free, list, which, outside, statements, at, context) {
            return Some(which);
        }
    }
    None
}

/// The place of the first declarator of the statement whose name the next one reads first, and
/// which nothing else mentions, where the statement is a declaration and has such a one.
pub fn next_of(
    outside: &Node,
    statements: &Nodes,
    at: usize,
    context: &TraverseCtx,
) -> Option<usize>
    requires statement { at < count statements.now }
    requires fits { at + 1 < 2 ^ 64 }
    ensures { NextOf (open_in outside.now (allowed context.now)) outside.now statements.now at result }
{
    let statement = statements.child(at);
    if !may_declare(outside, statement) {
        return None;
    }
    let is_free = is_lexical(statement.shape());
    next_in(
        is_free,
        statement.child(0),
        outside,
        statements,
        at,
        context,
    )
}

/// The first declaration that has a name which its next declarator reads first, and which nothing
/// else mentions, and the declarator's place in it.
pub fn next_at(outside: &Node, statements: &Nodes, context: &TraverseCtx) -> Option<(usize, usize)>
    ensures { NextAt (open_in outside.now (allowed context.now)) outside.now statements.now result }
{
    for at in 0..statements.len() {
        if let Some(which) = next_of(outside, statements, at, context) {
            return Some((at, which));
        }
    }
    None
}

// In the declarator at the index a tree goes in the place of what its initializer reads of the
// name.
#[tactic(auto, using(crate::proofs::Unused::same_parts, crate::proofs::Unused::part_twice))]
fn put_initial(list: &mut Node, which: usize, name: &Option<Name>, value: Node)
    requires declarator { which < count (children list.old) }
    requires parts { 1 < count (children (part list.old which)) }
    ensures { list.new ≡ row.with_initial list.old which (names name.now) value }
{
    let mut declarator = take_child(list, which);
    let initial = take_child(&mut declarator, 1);
    put_child(&mut declarator, 1, put_named(name, value, initial));
    put_child(list, which, declarator);
}

// Of a list of declarators, the one at the index goes, and its initializer into the next.
#[tactic(auto, using(crate::proofs::NextUses::within_left, crate::proofs::NextUses::parts_left))]
fn substitute_in_declarators(list: &mut Node, which: usize)
    requires next { which + 1 < count (children list.old) }
    requires parts { count (children (part list.old which)) ≡ 2 }
    requires next_parts { count (children (part list.old (which + 1))) ≡ 2 }
    ensures { list.new ≡ row.declarators_next list.old which }
{
    let (binding, value) = two(list.children_mut().remove(which));
    put_initial(list, which, binding.name(), value);
    discard(binding);
}

/// Of a list of statements, `let x = a(), y = x.b;` becomes `let y = a().b;`, and so it does at the
/// head of a `for`.
#[tactic(auto, using(crate::proofs::Unused::same_parts, crate::proofs::Unused::part_twice, crate::proofs::NextUses::two_parts, crate::proofs::NextUses::declarator_parts))]
pub fn substitute_next(list: &mut Node, at: usize, which: usize)
    requires statement { at < count (children list.old) }
    requires declarators { 0 < count (children (part list.old at)) }
    requires next { which + 1 < count (children (part (part list.old at) 0)) }
    requires declares { it_declares_name (part (part (part list.old at) 0) which) ≡ true }
    requires next_declares { row.is_declarator (part (part (part list.old at) 0) (which + 1)) ≡ true }
    ensures { list.new ≡ row.list_next list.old at which }
{
    let mut declaration = take_child(list, at);
    let mut declarators = take_child(&mut declaration, 0);
    substitute_in_declarators(&mut declarators, which);
    put_child(&mut declaration, 0, declarators);
    put_child(list, at, declaration);
}

/// Of a list of statements in which no name is unused, and none that the next statement reads
/// alone, with what stands outside of them, `let x = a(), y = x.b;` becomes `let y = a().b;`, as
/// often as there is one. The answer says whether there was; the only error is that memory runs
/// out.
pub fn substitute_next_uses(
    alloc: Global,
    outside: &Node,
    list: &mut Node,
    context: &TraverseCtx,
) -> Result<bool, OutOfMemory>
    requires list { is_it_listed list.old ≡ true }
    requires used { UnusedAt (open_in outside.now (allowed context.now)) outside.now (children list.old) None }
    requires singles { SingleAt (open_in outside.now (allowed context.now)) outside.now (children list.old) None }
    ensures { IfOk result (λ changed. Removed (open_in outside.now (allowed context.now)) outside.now list.old list.new changed) }
{
    match next_at(outside, list.children(), context) {
        Some((at, which)) => {
            if either_has_eval(outside, list) {
                return Ok(false);
            }
            substitute_next(list, at, which);
            sweep(alloc, outside, list, at, context)?;
            Ok(true)
        }
        None => Ok(false),
    }
}
