//! Row 71: `{ const x = a(); return x + b; }` becomes `{ ; return a() + b; }`,
//! `{ let a, x = b(); return x; }` becomes `{ let a; return b(); }`, and
//! `{ let x = a(); const y = x.b; c(y); }` becomes `{ ; const y = a().b; c(y); }`, where the parts
//! that the next statement evaluates before x may be evaluated before the initializer, nothing else
//! in the block has its spelling or its symbol, and no direct eval stands there.

ghost use Rattle.std.specs.Prelude.{◌≡◌, ◌+◌, ◌<◌, ◌^◌, true, false, None, IfOk, if◌then◌else◌};
ghost use Rattle.mini_model.specs.Tree.{child_or_absent, children, count, empty_statement, shape_of};
ghost use Rattle.mini_node.specs.Children.{names, part, with_part};
ghost use Rattle.mini_node.specs.Kinds.{is_absent_part as is_it_absent, is_listed as is_it_listed};
ghost use Rattle.mini_rows.specs.Unused as reading;
ghost use Rattle.mini_rows.specs.Unused.{any_names, names as names_like};
ghost use Rattle.mini_unused.specs.Allowed.{switches_of};
ghost use Rattle.mini_unused.specs.Looks.{Put, PutAlong};
ghost use Rattle.mini_unused.specs.RemoveUnusedDeclaration.{list_at, allowed, open_in, UnusedAt};
ghost use Rattle.mini_unused.specs.SubstituteNext.{put_named as it_put_named};
ghost use Rattle.mini_unused.specs.SubstituteSingleUse as row;
ghost use Rattle.mini_unused.specs.SubstituteSingleUse.{declaration_left, SingleAt, Removed};

use crate::declarations::{
    declares_name, is_lexical, may_declare, may_lose, put_child, take_child, take_declarator,
};
use crate::evals::either_has_eval;
use crate::first_reads::is_short;
use crate::heads::takes;
use crate::mentions::{is_like, is_mentioned, is_mentioned_before, is_mentioned_from};
use crate::next_uses::substitute_next_uses;
use crate::sweeping::sweep;
use mini_context::TraverseCtx;
use mini_model::{Name, OutOfMemory, PropertyKind, Shape};
use mini_node::{Node, Nodes, discard, empty_statement, is_absent_part, taken, two};
use mini_terms::is_plain_part;
use mini_tree::CompressOptions;
use std::alloc::Global;
use std::mem;

// It is absent, or there is none.
#[tactic(auto, using(crate::proofs::SingleUses::no_name))]
fn has_no_name(node: &Node) -> bool
    ensures { result ≡ is_it_absent (part node.now 0) }
{
    if node.children().len() == 0 {
        return true;
    }
    is_absent_part(node.child(0))
}

// A function or a class without a name of its own gets the variable's, which may have to stay.
fn takes_name(node: &Node, options: CompressOptions) -> bool
    ensures { result ≡ reading.takes_name (switches_of options) (shape_of node.now) (part node.now 0) }
{
    match node.shape() {
        Shape::Function(_, _, _) => options.keep_names.function && has_no_name(node),
        Shape::ArrowFunctionExpression(_) => options.keep_names.function,
        Shape::Class(_) => options.keep_names.class && has_no_name(node),
        _ => false,
    }
}

/// Whether an initializer may move: it is no function and no class that would get the variable's
/// name, where such names have to stay.
pub fn may_move(node: &Node, options: CompressOptions) -> bool
    ensures { result ≡ reading.may_move (switches_of options) node.now }
{
    is_plain_part(node) && !takes_name(node, options)
}

/// Whether the name stands in the initializer, or in a declarator before it.
pub fn is_declared_over(name: &Name, init: &Node, declarators: &Nodes, which: usize) -> bool
    requires { which < count declarators.now }
    ensures { result ≡ row.is_declared_over name.now init.now declarators.now which }
{
    is_mentioned(name, init) || is_mentioned_before(name, declarators, which)
}

/// Whether the name stands after the next statement, where it mostly does if anywhere, or before
/// the declaration.
pub fn is_mentioned_around(name: &Name, statements: &Nodes, at: usize) -> bool
    requires next { at + 1 < count statements.now }
    requires fits { at + 2 < 2 ^ 64 }
    ensures { result ≡ row.is_mentioned_around name.now statements.now at }
{
    is_mentioned_from(name, statements, at + 2) || is_mentioned_before(name, statements, at)
}

/// Whether the statement after the place reads the name first, after parts that pass the
/// initializer, and takes that in its place.
#[tactic(auto, using(crate::proofs::SingleUses::read_next))]
pub fn reads_next(name: &Name, init: &Node, statements: &Nodes, at: usize) -> bool
    requires next { at + 1 < count statements.now }
    requires fits { at + 1 < 2 ^ 64 }
    ensures { result ≡ row.reads_next name.now init.now statements.now at }
{
    takes(name, init, statements.child(at + 1))
}

// The next statement reads the name first, and nothing else in the statements mentions it.
fn is_read_inside(
    name: &Name,
    init: &Node,
    declarators: &Nodes,
    which: usize,
    statements: &Nodes,
    at: usize,
) -> bool
    requires declarator { which < count declarators.now }
    requires next { at + 1 < count statements.now }
    requires fits { at + 2 < 2 ^ 64 }
    ensures { result ≡ row.is_read_inside name.now init.now declarators.now which statements.now at }
{
    reads_next(name, init, statements, at)
        && !is_declared_over(name, init, declarators, which)
        && !is_mentioned_around(name, statements, at)
}

/// Whether the next statement reads the name first, and nothing else mentions it, in the statements
/// or in what stands outside of them. The latter is looked at last.
#[tactic(auto, using(crate::proofs::Unused::last_true, crate::proofs::Unused::last_false))]
pub fn is_read_once(
    name: &Option<Name>,
    outside: &Node,
    init: &Node,
    declarators: &Nodes,
    which: usize,
    statements: &Nodes,
    at: usize,
) -> bool
    requires declarator { which < count declarators.now }
    requires next { at + 1 < count statements.now }
    requires fits { at + 2 < 2 ^ 64 }
    ensures { result ≡ row.is_read_once (names name.now) outside.now init.now declarators.now which statements.now at }
{
    match name {
        Some(name) => {
            is_read_inside(name, init, declarators, which, statements, at)
                && !is_mentioned(name, outside)
        }
        None => false,
    }
}

fn is_single_declarator(
    is_free: bool,
    list: &Node,
    which: usize,
    outside: &Node,
    statements: &Nodes,
    at: usize,
    context: &TraverseCtx,
) -> bool
    requires declarator { which < count (children list.now) }
    requires next { at + 1 < count statements.now }
    requires fits { at + 2 < 2 ^ 64 }
    ensures { result ≡ row.is_single_declarator is_free (open_in outside.now (allowed context.now)) list.now which outside.now statements.now at }
{
    let declarator = list.child(which);
    declares_name(declarator)
        && may_lose(is_free, declarator.child(0).name(), outside, context)
        && may_move(declarator.child(1), context.options)
        && is_read_once(
            declarator.child(0).name(),
            outside,
            declarator.child(1),
            list.children(),
            which,
            statements,
            at,
        )
}

// The statement is a declaration, whose last declarator is such a one.
#[tactic(auto, using(crate::proofs::SingleUses::no_declarator, crate::proofs::SingleUses::last_is))]
fn is_single(outside: &Node, statements: &Nodes, at: usize, context: &TraverseCtx) -> bool
    requires next { at + 1 < count statements.now }
    requires fits { at + 2 < 2 ^ 64 }
    ensures single { result ≡ row.is_single (open_in outside.now (allowed context.now)) outside.now statements.now at }
    ensures list { result ≡ true → 0 < count (children (child_or_absent statements.now at)) }
    ensures declarators { result ≡ true → 0 < count (children (list_at statements.now at)) }
{
    let statement = statements.child(at);
    if !may_declare(outside, statement) {
        return false;
    }
    let list = statement.child(0);
    let count = list.children().len();
    if count == 0 {
        return false;
    }
    let is_free = is_lexical(statement.shape());
    is_single_declarator(is_free, list, count - 1, outside, statements, at, context)
}

// The first such statement.
fn single_at(outside: &Node, statements: &Nodes, context: &TraverseCtx) -> Option<usize>
    ensures { SingleAt (open_in outside.now (allowed context.now)) outside.now statements.now result }
{
    let count = statements.len();
    if count == 0 {
        return None;
    }
    for at in 0..count - 1 {
        if is_single(outside, statements, at, context) {
            return Some(at);
        }
    }
    None
}

// `x: a` of `x`.
#[tactic(auto, using(crate::proofs::SingleUses::stays_in_full, crate::proofs::SingleUses::now_in_full))]
fn in_full(node: Node) -> Node
    ensures { result ≡ row.written_in_full node }
{
    if !is_short(node.shape()) {
        return node;
    }
    let (_, name, number, children) = node.into_parts();
    let shape = Shape::ObjectProperty(PropertyKind::Init, false, false, false);
    Node::with(shape, name, number, children)
}

// `x: a` of `x`, in place.
fn spell_in_full(node: &mut Node)
    ensures { node.new ≡ row.written_in_full node.old }
{
    if !is_short(node.shape()) {
        return;
    }
    let alloc = node.children().allocator();
    let whole = taken(alloc, node);
    *node = in_full(whole);
}

// The value stands in the place of a node without parts that mentions the name.
#[tactic(auto, using(crate::proofs::SingleUses::put_leaf))]
fn put_at_leaf(name: &Name, value: Node, node: &mut Node) -> Option<Node>
    requires { count (children node.old) ≡ 0 }
    ensures { Put name.now value node.old node.new result }
{
    if !is_mentioned(name, node) {
        return Some(value);
    }
    discard(mem::replace(node, value));
    None
}

// Where the name is a node's own, whose parts don't mention it, the value goes.
fn put_at_own(name: &Name, value: Node, node: &mut Node) -> Option<Node>
    requires some { 0 < count (children node.old) }
    requires none { any_names name.now (children node.old) ≡ false }
    ensures { Put name.now value node.old node.new result }
{
    if !is_like(name, node.name()) {
        return Some(value);
    }
    discard(value);
    spell_in_full(node);
    None
}

// The value stands in the place of what the node reads first of the name, and `{ x }` becomes
// `{ x: a() }`; it comes back where the node doesn't mention the name.
#[cycle(puts)]
fn put_inside(name: &Name, value: Node, node: &mut Node) -> Option<Node>
    ensures { Put name.now value node.old node.new result }
{
    if node.children().len() == 0 {
        return put_at_leaf(name, value, node);
    }
    match put_along(name, value, node.children_mut()) {
        Some(value) => put_at_own(name, value, node),
        None => {
            spell_in_full(node);
            None
        }
    }
}

// So it stands in the first of some parts that mentions the name.
#[cycle(puts)]
fn put_along(name: &Name, value: Node, nodes: &mut Nodes) -> Option<Node>
    ensures { PutAlong name.now value nodes.old nodes.new result }
{
    let mut left = value;
    for at in 0..nodes.len() {
        match put_inside(name, left, nodes.child_mut(at)) {
            Some(value) => left = value,
            None => return None,
        }
    }
    Some(left)
}

// So it stands in the place of a node without parts, though that doesn't mention the name.
#[tactic(auto, using(crate::proofs::SingleUses::put_leaf))]
fn put_unmentioned(_name: &Name, value: Node, node: Node) -> Node
    requires { names_like _name.now node ≡ false }
    ensures { result ≡ reading.put_first _name.now value node }
{
    if node.children().len() == 0 {
        discard(node);
        return value;
    }
    discard(value);
    in_full(node)
}

/// What a name becomes that is read: another tree stands in its place, and `{ x }` becomes
/// `{ x: a() }`.
fn put_first(name: &Name, value: Node, mut node: Node) -> Node
    ensures { result ≡ reading.put_first name.now value node }
{
    match put_inside(name, value, &mut node) {
        Some(value) => put_unmentioned(name, value, node),
        None => node,
    }
}

/// A node with another tree in the place of what it reads first of a name, where there is a name.
pub fn put_named(name: &Option<Name>, value: Node, node: Node) -> Node
    ensures { result ≡ it_put_named (names name.now) value node }
{
    match name {
        Some(name) => put_first(name, value, node),
        None => {
            discard(value);
            node
        }
    }
}

// Of a declaration that has lost a declarator, what is written: `;` where it was the only one.
fn left_of(alloc: Global, declaration: Node, is_only_one: bool) -> Node
    ensures { result ≡ if is_only_one then empty_statement else declaration }
{
    if is_only_one {
        discard(declaration);
        return empty_statement(alloc);
    }
    declaration
}

// Of a declaration that is the only one, `;` is left, and of another its other declarators. The
// answer is what it binds and the initializer.
#[tactic(auto, using(crate::proofs::Unused::same_parts, crate::proofs::Unused::part_twice))]
fn take_initializer(alloc: Global, list: &mut Node, at: usize, which: usize) -> (Node, Node)
    requires statement { at < count (children list.old) }
    requires declarators { 0 < count (children (part list.old at)) }
    requires declarator { which < count (children (part (part list.old at) 0)) }
    ensures binding { result.0 ≡ part (part (part (part list.old at) 0) which) 0 }
    ensures value { result.1 ≡ row.initializer list.old at which }
    ensures left { list.new ≡ with_part list.old at (declaration_left (part list.old at) which) }
{
    let mut declaration = take_child(list, at);
    let is_only_one = declaration.child(0).is_bare(1);
    let (binding, init) = two(take_declarator(&mut declaration, which));
    put_child(list, at, left_of(alloc, declaration, is_only_one));
    (binding, init)
}

// In the statement at the index it goes in the place of what is read of the name.
#[tactic(auto, using(crate::proofs::Unused::same_parts, crate::proofs::Unused::part_twice))]
fn put_in(list: &mut Node, at: usize, name: &Option<Name>, value: Node)
    requires { at < count (children list.old) }
    ensures { list.new ≡ with_part list.old at (it_put_named (names name.now) value (part list.old at)) }
{
    let head = take_child(list, at);
    put_child(list, at, put_named(name, value, head));
}

/// Of the statement at the place in a list the declarator goes, which is its last one, and the next
/// statement has its initializer in the place of what it reads of the name.
#[tactic(auto, using(crate::proofs::Unused::same_parts, crate::proofs::SingleUses::next_part))]
pub fn substitute_in_list(alloc: Global, list: &mut Node, at: usize, which: usize)
    requires next { at + 1 < count (children list.old) }
    requires fits { at + 1 < 2 ^ 64 }
    requires declarators { 0 < count (children (part list.old at)) }
    requires declarator { which < count (children (part (part list.old at) 0)) }
    ensures { list.new ≡ row.list_single list.old at which }
{
    let (binding, init) = take_initializer(alloc, list, at, which);
    put_in(list, at + 1, binding.name(), init);
    discard(binding);
}

/// The place of the last declarator of the declaration at the place in a list.
#[tactic(auto, using(crate::proofs::SingleUses::last_is))]
pub fn last_declarator(list: &Node, at: usize) -> usize
    requires statement { at < count (children list.now) }
    requires declarators { 0 < count (children (part list.now at)) }
    requires some { 0 < count (children (part (part list.now at) 0)) }
    ensures place { result ≡ row.last_place (children (part (part list.now at) 0)) }
    ensures within { result < count (children (part (part list.now at) 0)) }
{
    list.child(at).child(0).children().len() - 1
}

/// Of a list of statements in which no name is unused, with what stands outside of them,
/// `let x = a(); return x + b;` becomes `; return a() + b;`, and `let a, x = b(); return x;`
/// becomes `let a; return b();`, as often as there is one. The answer says whether there was; the
/// only error is that memory runs out.
pub fn substitute_single_uses(
    alloc: Global,
    outside: &Node,
    list: &mut Node,
    context: &TraverseCtx,
) -> Result<bool, OutOfMemory>
    requires list { is_it_listed list.old ≡ true }
    requires used { UnusedAt (open_in outside.now (allowed context.now)) outside.now (children list.old) None }
    ensures { IfOk result (λ changed. Removed (open_in outside.now (allowed context.now)) outside.now list.old list.new changed) }
{
    match single_at(outside, list.children(), context) {
        Some(at) => {
            if either_has_eval(outside, list) {
                return Ok(false);
            }
            let which = last_declarator(list, at);
            substitute_in_list(alloc, list, at, which);
            sweep(alloc, outside, list, at, context)?;
            Ok(true)
        }
        None => substitute_next_uses(alloc, outside, list, context),
    }
}
