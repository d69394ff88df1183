//! Row 72 of a list of statements: `let x = a(); b();` becomes `a(); b();`, and
//! `let x = 1, y = b(); c(y);` becomes `let y = b(); c(y);`, where nothing else in the list or in
//! what stands outside of it has x's spelling or its symbol and no direct eval stands there; and of
//! a `var` whose name can be written, too. What holds such a list is asked in `mini_inside`.

ghost use Rattle.std.specs.Prelude.{◌≡◌, ◌+◌, ◌<◌, ◌^◌, true, IfOk, OnOk};
ghost use Rattle.mini_laws.specs.Naming.{is_lexical as is_it_lexical};
ghost use Rattle.mini_model.specs.Tree.{absent, children, count};
ghost use Rattle.mini_node.specs.Children.{names, part, with_part};
ghost use Rattle.mini_node.specs.Kinds.{is_listed as is_it_listed};
ghost use Rattle.mini_rows.specs.Unused.{is_idle as is_it_idle};
ghost use Rattle.mini_unused.specs.RemoveUnusedDeclaration as row;
ghost use Rattle.mini_unused.specs.RemoveUnusedDeclaration.{declares_name as it_declares_name, declares_list as it_declares_list, is_lexical_shape, is_var as is_it_var, may_declare as may_it_declare, let_left, allowed, open_in, UnusedIn, UnusedOf, UnusedAt};
ghost use Rattle.mini_unused.specs.SubstituteSingleUse.{Removed};

use crate::declares::declares_nothing;
use crate::evals::either_has_eval;
use crate::mentions::{is_mentioned, is_mentioned_before, is_mentioned_from, is_mentioned_outside};
use crate::single_uses::substitute_single_uses;
use crate::sweeping::sweep;
use mini_context::TraverseCtx;
use mini_model::{Name, OutOfMemory, Shape, VariableDeclarationKind};
use mini_node::{
    Node, Nodes, discard, empty_statement, expression_statement, is_absent_part, is_listed, two,
};
use mini_terms::{has_no_effect, leaves_nothing};
use std::alloc::Global;

// A name with a symbol.
fn has_symbol(name: &Option<Name>) -> bool
    ensures { result ≡ row.has_symbol (names name.now) }
{
    match name {
        Some(name) => name.symbol.is_some(),
        None => false,
    }
}

/// A name that is declared, with its symbol.
pub fn is_resolved_binding(node: &Node) -> bool
    ensures { result ≡ row.is_resolved_binding node.now }
{
    matches!(node.shape(), Shape::BindingIdentifier)
        && node.is_named_leaf()
        && has_symbol(node.name())
}

/// `x = a()` or `x`, as a declarator.
pub fn declares_name(node: &Node) -> bool
    ensures kind { result ≡ it_declares_name node.now }
    ensures parts { result ≡ true → count (children node.now) ≡ 2 }
{
    matches!(node.shape(), Shape::VariableDeclarator)
        && node.is_bare(2)
        && is_resolved_binding(node.child(0))
}

/// A declaration of variables, with its list of declarators.
pub fn declares_list(node: &Node) -> bool
    ensures kind { result ≡ it_declares_list node.now }
    ensures list { result ≡ true → count (children node.now) ≡ 1 }
{
    matches!(node.shape(), Shape::VariableDeclaration(_))
        && node.is_bare(1)
        && is_listed(node.child(0))
}

fn is_lexical_kind(kind: VariableDeclarationKind) -> bool
    ensures { result ≡ is_it_lexical kind }
{
    match kind {
        VariableDeclarationKind::Var => false,
        VariableDeclarationKind::Let | VariableDeclarationKind::Const => true,
    }
}

/// A `let` or a `const`.
pub fn is_lexical(shape: &Shape) -> bool
    ensures { result ≡ is_lexical_shape shape.now }
{
    match shape {
        Shape::VariableDeclaration(kind) => is_lexical_kind(*kind),
        _ => false,
    }
}

/// A `var`, with its list of declarators.
pub fn is_var(node: &Node) -> bool
    ensures kind { result ≡ is_it_var node.now }
    ensures list { result ≡ true → count (children node.now) ≡ 1 }
{
    declares_list(node) && !is_lexical(node.shape())
}

/// A declaration from which names may go: where what stands outside of the statements is a list, as
/// that of the nodes above a list further inside a body, these are `var`s alone.
pub fn may_declare(outside: &Node, node: &Node) -> bool
    ensures kind { result ≡ may_it_declare outside.now node.now }
    ensures declares { result ≡ true → it_declares_list node.now ≡ true }
    ensures list { result ≡ true → count (children node.now) ≡ 1 }
{
    if matches!(outside.shape(), Shape::Listed) {
        is_var(node)
    } else {
        declares_list(node)
    }
}

// A block and a switch show the `var`s in them to what is around them.
fn shows_vars(shape: &Shape) -> bool
    ensures { result ≡ row.shows_vars shape.now }
{
    matches!(shape, Shape::BlockStatement | Shape::SwitchStatement)
}

// A name that a scope declares, and that can be written.
fn may_write(name: &Option<Name>, context: &TraverseCtx) -> bool
    ensures { result ≡ row.may_write_in (allowed context.now) (names name.now) }
{
    match name {
        Some(name) => match name.symbol {
            Some(symbol) => context.scopes.is_mentioned_writable(symbol),
            None => false,
        },
        None => false,
    }
}

/// A name that a `let` or a `const` declares, or, in a function's statements, one that can be
/// written.
#[tactic(auto, using(crate::proofs::Unused::open_name))]
pub fn may_lose(is_free: bool, name: &Option<Name>, outside: &Node, context: &TraverseCtx) -> bool
    ensures { result ≡ row.may_lose is_free (open_in outside.now (allowed context.now)) (names name.now) }
{
    is_free || !shows_vars(outside.shape()) && may_write(name, context)
}

/// Whether nothing is lost with an initializer: there is none, or it is an expression that has no
/// effect and leaves nothing behind.
pub fn is_idle(init: &Node) -> bool
    ensures { result ≡ is_it_idle init.now }
{
    is_absent_part(init) || declares_nothing(init) && has_no_effect(init) && leaves_nothing(init)
}

/// Whether a declarator with this initializer may go from its list: nothing is lost with the
/// initializer, or the declarator is the only one of the list, so that the initializer stays as an
/// expression.
pub fn may_go(init: &Node, list: &Node) -> bool
    ensures { result ≡ row.may_go init.now list.now }
{
    is_idle(init) || list.is_bare(1) && declares_nothing(init)
}

// Whether the name stands neither in its initializer, nor in the other declarators, nor in the
// other statements. What follows is looked at first: a name that is used mostly is soon.
fn is_alone_inside(
    name: &Name,
    init: &Node,
    declarators: &Nodes,
    which: usize,
    statements: &Nodes,
    at: usize,
) -> bool
    requires declarator { which < count declarators.now }
    requires statement { at < count statements.now }
    requires fits { which + 1 < 2 ^ 64 }
    requires fits_too { at + 1 < 2 ^ 64 }
    ensures { result ≡ row.is_alone_inside name.now init.now declarators.now which statements.now at }
{
    !is_mentioned(name, init)
        && !is_mentioned_from(name, declarators, which + 1)
        && !is_mentioned_from(name, statements, at + 1)
        && !is_mentioned_before(name, declarators, which)
        && !is_mentioned_before(name, statements, at)
}

/// Whether nothing else mentions the name of a declarator: neither its initializer, nor the other
/// declarators, nor the other statements, nor what stands outside of them. The latter is looked at
/// last: it may be all of a body.
#[tactic(auto, using(crate::proofs::Unused::last_true, crate::proofs::Unused::last_false))]
pub fn is_alone(
    name: &Option<Name>,
    outside: &Node,
    init: &Node,
    declarators: &Nodes,
    which: usize,
    statements: &Nodes,
    at: usize,
) -> bool
    requires declarator { which < count declarators.now }
    requires statement { at < count statements.now }
    requires fits { which + 1 < 2 ^ 64 }
    requires fits_too { at + 1 < 2 ^ 64 }
    ensures { result ≡ row.is_alone (names name.now) outside.now init.now declarators.now which statements.now at }
{
    match name {
        Some(name) => {
            is_alone_inside(name, init, declarators, which, statements, at)
                && !is_mentioned_outside(name, outside)
        }
        None => false,
    }
}

// Whether nothing else mentions the name of the declarator, and it may go.
fn is_unused_declarator(
    is_free: bool,
    list: &Node,
    which: usize,
    outside: &Node,
    statements: &Nodes,
    at: usize,
    context: &TraverseCtx,
) -> bool
    requires declarator { which < count (children list.now) }
    requires statement { at < count statements.now }
    requires fits { which + 1 < 2 ^ 64 }
    requires fits_too { at + 1 < 2 ^ 64 }
    ensures { result ≡ row.is_unused_declarator is_free (open_in outside.now (allowed context.now)) list.now which outside.now statements.now at }
{
    let declarator = list.child(which);
    declares_name(declarator)
        && may_lose(is_free, declarator.child(0).name(), outside, context)
        && may_go(declarator.child(1), list)
        && is_alone(
            declarator.child(0).name(),
            outside,
            declarator.child(1),
            list.children(),
            which,
            statements,
            at,
        )
}

// The first declarator of the list that is.
fn unused_in(
    is_free: bool,
    list: &Node,
    outside: &Node,
    statements: &Nodes,
    at: usize,
    context: &TraverseCtx,
) -> Option<usize>
    requires statement { at < count statements.now }
    requires fits { at + 1 < 2 ^ 64 }
    ensures { UnusedIn is_free (open_in outside.now (allowed context.now)) list.now outside.now statements.now at result }
{
    for which in 0..list.children().len() {
        if is_unused_declarator(is_free, list, which, outside, statements, at, context) {
            return Some(which);
        }
    }
    None
}

/// The place of the first declarator of the statement whose name nothing else mentions, where that
/// is a declaration and has such a one.
pub fn unused_of(
    outside: &Node,
    statements: &Nodes,
    at: usize,
    context: &TraverseCtx,
) -> Option<usize>
    requires statement { at < count statements.now }
    requires fits { at + 1 < 2 ^ 64 }
    ensures { UnusedOf (open_in outside.now (allowed context.now)) outside.now statements.now at result }
{
    let statement = statements.child(at);
    if !may_declare(outside, statement) {
        return None;
    }
    let is_free = is_lexical(statement.shape());
    unused_in(
        is_free,
        statement.child(0),
        outside,
        statements,
        at,
        context,
    )
}

// The first statement that has one, and the declarator's place in it.
fn unused_at(outside: &Node, statements: &Nodes, context: &TraverseCtx) -> Option<(usize, usize)>
    ensures { UnusedAt (open_in outside.now (allowed context.now)) outside.now statements.now result }
{
    for at in 0..statements.len() {
        if let Some(which) = unused_of(outside, statements, at, context) {
            return Some((at, which));
        }
    }
    None
}

/// The child at the index, taken out of the node.
pub fn take_child(node: &mut Node, at: usize) -> Node
    requires { at < count (children node.old) }
    ensures child { result ≡ part node.old at }
    ensures left { node.new ≡ with_part node.old at absent }
{
    node.children_mut().take(at)
}

/// Puts the child at the index of the node.
pub fn put_child(node: &mut Node, at: usize, child: Node)
    requires { at < count (children node.old) }
    ensures { node.new ≡ with_part node.old at child }
{
    discard(node.children_mut().replace(at, child));
}

/// Of a declaration, the declarator at the index, taken out of its list.
#[tactic(auto, using(crate::proofs::Unused::same_parts, crate::proofs::Unused::part_twice))]
pub fn take_declarator(declaration: &mut Node, which: usize) -> Node
    requires list { 0 < count (children declaration.old) }
    requires declarator { which < count (children (part declaration.old 0)) }
    ensures declarator { result ≡ part (part declaration.old 0) which }
    ensures left { declaration.new ≡ let_left declaration.old which }
{
    let mut list = take_child(declaration, 0);
    let declarator = list.children_mut().remove(which);
    put_child(declaration, 0, list);
    declarator
}

// `a();` for `let x = a();`, `;` for `let x;` and `let x = 1;`, and the others where there are
// some.
fn statement_left(alloc: Global, mut declaration: Node, which: usize) -> Result<Node, OutOfMemory>
    requires list { 0 < count (children declaration) }
    requires declarator { which < count (children (part declaration 0)) }
    ensures { IfOk result (λ made. made ≡ row.statement_left declaration which) }
{
    let is_only_one = declaration.child(0).is_bare(1);
    let (binding, init) = two(take_declarator(&mut declaration, which));
    discard(binding);
    if !is_idle(&init) {
        discard(declaration);
        return expression_statement(alloc, init);
    }
    discard(init);
    if is_only_one {
        discard(declaration);
        return Ok(empty_statement(alloc));
    }
    Ok(declaration)
}

/// Of a list, the statement at the index loses the declarator.
#[tactic(auto, using(crate::proofs::Unused::same_parts, crate::proofs::Unused::part_twice))]
pub fn drop_in_list(
    alloc: Global,
    list: &mut Node,
    at: usize,
    which: usize,
) -> Result<(), OutOfMemory>
    requires statement { at < count (children list.old) }
    requires declarators { 0 < count (children (part list.old at)) }
    requires declarator { which < count (children (part (part list.old at) 0)) }
    ensures { OnOk result (list.new ≡ row.list_left list.old at which) }
{
    let declaration = take_child(list, at);
    let left = statement_left(alloc, declaration, which)?;
    put_child(list, at, left);
    Ok(())
}

/// Of a list of statements, with what stands outside of them, each name goes that nothing else
/// mentions, or that is read once, from the first of them on: where that is a list itself, the
/// names of `var`s alone. The answer says whether one did.
pub fn remove_in_list(
    alloc: Global,
    outside: &Node,
    list: &mut Node,
    context: &TraverseCtx,
) -> Result<bool, OutOfMemory>
    requires { is_it_listed list.old ≡ true }
    ensures { IfOk result (λ changed. Removed (open_in outside.now (allowed context.now)) outside.now list.old list.new changed) }
{
    match unused_at(outside, list.children(), context) {
        Some((at, which)) => {
            if either_has_eval(outside, list) {
                return Ok(false);
            }
            drop_in_list(alloc, list, at, which)?;
            sweep(alloc, outside, list, at, context)?;
            Ok(true)
        }
        None => substitute_single_uses(alloc, outside, list, context),
    }
}
