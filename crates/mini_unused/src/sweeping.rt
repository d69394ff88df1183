//! Where one name has gone from a list of statements, the others are looked for from there on: each
//! declarator once, so that no look begins anew.

ghost use Rattle.std.specs.Prelude.{◌≡◌, ◌+◌, ◌<◌, ◌^◌, ◌||◌, nat_lt, true, false, Some, OnOk};
ghost use Rattle.mini_model.specs.Tree.{child_or_absent, children, count, listed};
ghost use Rattle.mini_laws.specs.ScopeList.{has_eval};
ghost use Rattle.mini_node.specs.Children.{names_of as names, part};
ghost use Rattle.mini_node.specs.Kinds.{is_listed as is_it_listed};
ghost use Rattle.mini_unused.specs.Chains.{Chain};
ghost use Rattle.mini_unused.specs.SubstituteNext.{is_declarator as is_it_declarator, is_read_then as is_it_read_then, NextOf};
ghost use Rattle.mini_unused.specs.RemoveUnusedDeclaration.{declares_list as it_declares_list, is_alone as is_it_alone, list_at, allowed, open_in, UnusedOf};
ghost use Rattle.mini_unused.specs.SubstituteSingleUse.{is_read_once as is_it_read_once, is_single as is_it_single, Gone};
ghost use Rattle.mini_unused.specs.Sweep.{declarators_of, may_go_at, may_move_at, Calm, Swept};
ghost use Rattle.mini_unused.specs.Tallies.{Tallied};

use crate::declarations::{
    declares_list, declares_name, drop_in_list, is_alone, is_lexical, may_declare, may_go, may_lose,
};
use crate::next_uses::{is_declarator, is_read_then, substitute_next};
use crate::single_uses::{is_read_once, last_declarator, may_move, reads_next, substitute_in_list};
use crate::tallies::{
    Tallies, has_rare_name, is_rarely_read, is_rarely_read_in, tally_if_many, tally_list,
};
use mini_context::TraverseCtx;
use mini_model::OutOfMemory;
use mini_node::{Node, Nodes};
use std::alloc::Global;

// The declarator has a name that may go, and so may its initializer.
fn may_go_there(
    is_free: bool,
    list: &Node,
    which: usize,
    outside: &Node,
    context: &TraverseCtx,
) -> bool
    requires { which < count (children list.now) }
    ensures { result ≡ may_go_at is_free (open_in outside.now (allowed context.now)) list.now which }
{
    let declarator = list.child(which);
    declares_name(declarator)
        && may_lose(is_free, declarator.child(0).name(), outside, context)
        && may_go(declarator.child(1), list)
}

// Nothing else mentions its name, as the tables tell, or a look through the list.
fn is_alone_there(
    outside: &Node,
    statements: &Nodes,
    at: usize,
    list: &Node,
    which: usize,
    tallies: &Tallies,
) -> bool
    requires statement { at < count statements.now }
    requires fits { at + 1 < 2 ^ 64 }
    requires fits_too { which + 1 < 2 ^ 64 }
    requires declares { it_declares_list (child_or_absent statements.now at) ≡ true }
    requires list { list.now ≡ list_at statements.now at }
    requires declarator { which < count (children list.now) }
    requires tallied { Tallied tallies.now outside.now (listed statements.now) }
    ensures { result ≡ true → is_it_alone (names (part (part list.now which) 0)) outside.now (part (part list.now which) 1) (children list.now) which statements.now at ≡ true }
{
    let declarator = list.child(which);
    if !declares_name(declarator) {
        return false;
    }
    if has_rare_name(tallies, declarator.child(0).name(), 1) {
        return true;
    }
    is_alone(
        declarator.child(0).name(),
        outside,
        declarator.child(1),
        list.children(),
        which,
        statements,
        at,
    )
}

// Of the statement at the place, where it is a declaration, the declarator at the other has a name
// that nothing else mentions.
fn is_unused_there(
    outside: &Node,
    statements: &Nodes,
    at: usize,
    which: usize,
    context: &TraverseCtx,
    tallies: &Tallies,
) -> bool
    requires statement { at < count statements.now }
    requires fits { at + 1 < 2 ^ 64 }
    requires tallied { Tallied tallies.now outside.now (listed statements.now) }
    ensures { result ≡ true → UnusedOf (open_in outside.now (allowed context.now)) outside.now statements.now at (Some which) }
{
    let statement = statements.child(at);
    if !may_declare(outside, statement) {
        return false;
    }
    let list = statement.child(0);
    if which >= list.children().len() {
        return false;
    }
    if !may_go_there(is_lexical(statement.shape()), list, which, outside, context) {
        return false;
    }
    is_alone_there(outside, statements, at, list, which, tallies)
}

/// Whether a statement comes after the place.
pub fn has_next(list: &Node, at: usize) -> bool
    requires { at + 1 < 2 ^ 64 }
    ensures told { result ≡ nat_lt (at + 1) (count (children list.now)) }
    ensures next { result ≡ true → at + 1 < count (children list.now) }
    ensures fits { result ≡ true → at + 2 < 2 ^ 64 }
{
    at + 1 < list.children().len()
}

/// How many declarators the statement at the place has, if it is a declaration.
#[tactic(auto, using(crate::proofs::Swept::no_declarators, crate::proofs::Swept::none_behind))]
pub fn declarators_at(list: &Node, at: usize) -> usize
    ensures { result ≡ declarators_of (part list.now at) }
{
    if at >= list.children().len() {
        return 0;
    }
    let statement = list.child(at);
    if !declares_list(statement) {
        return 0;
    }
    statement.child(0).children().len()
}

// The declarator has a name that may go, and its initializer may move.
fn may_move_there(
    is_free: bool,
    list: &Node,
    which: usize,
    outside: &Node,
    context: &TraverseCtx,
) -> bool
    requires { which < count (children list.now) }
    ensures { result ≡ may_move_at is_free (open_in outside.now (allowed context.now)) list.now which }
{
    let declarator = list.child(which);
    declares_name(declarator)
        && may_lose(is_free, declarator.child(0).name(), outside, context)
        && may_move(declarator.child(1), context.options)
}

// The next statement reads the name first, and nothing else mentions it, as the tables tell, or a
// look through the list.
fn is_read_there(
    outside: &Node,
    statements: &Nodes,
    at: usize,
    list: &Node,
    which: usize,
    tallies: &Tallies,
) -> bool
    requires next { at + 1 < count statements.now }
    requires fits { at + 2 < 2 ^ 64 }
    requires declares { it_declares_list (child_or_absent statements.now at) ≡ true }
    requires list { list.now ≡ list_at statements.now at }
    requires declarator { which + 1 ≡ count (children list.now) }
    requires tallied { Tallied tallies.now outside.now (listed statements.now) }
    ensures { result ≡ true → is_it_read_once (names (part (part list.now which) 0)) outside.now (part (part list.now which) 1) (children list.now) which statements.now at ≡ true }
{
    let declarator = list.child(which);
    if !declares_name(declarator) {
        return false;
    }
    if has_rare_name(tallies, declarator.child(0).name(), 2) {
        return is_rarely_read(
            tallies,
            declarator.child(0).name(),
            declarator.child(1),
            statements,
            at,
        );
    }
    is_read_once(
        declarator.child(0).name(),
        outside,
        declarator.child(1),
        list.children(),
        which,
        statements,
        at,
    )
}

// Of the statement at the place, where it is a declaration, the declarator at the other is the last
// one, and such a one.
fn is_single_there(
    outside: &Node,
    statements: &Nodes,
    at: usize,
    which: usize,
    context: &TraverseCtx,
    tallies: &Tallies,
) -> bool
    requires next { at + 1 < count statements.now }
    requires fits { at + 2 < 2 ^ 64 }
    requires fits_too { which + 1 < 2 ^ 64 }
    requires tallied { Tallied tallies.now outside.now (listed statements.now) }
    ensures single { result ≡ true → is_it_single (open_in outside.now (allowed context.now)) outside.now statements.now at ≡ true }
    ensures declarators { result ≡ true → 0 < count (children (list_at statements.now at)) }
    ensures list { result ≡ true → 0 < count (children (child_or_absent statements.now at)) }
{
    let statement = statements.child(at);
    if !may_declare(outside, statement) {
        return false;
    }
    let list = statement.child(0);
    if which + 1 != list.children().len() {
        return false;
    }
    if !may_move_there(is_lexical(statement.shape()), list, which, outside, context) {
        return false;
    }
    is_read_there(outside, statements, at, list, which, tallies)
}

// The last declarator of the statement goes where the next statement reads its name first and
// nothing else mentions it.
fn sweep_single(
    alloc: Global,
    outside: &Node,
    list: &mut Node,
    at: usize,
    which: usize,
    context: &TraverseCtx,
    tallies: &Tallies,
)
    requires fits { at + 1 < 2 ^ 64 }
    requires fits_too { which + 1 < 2 ^ 64 }
    requires calm { Calm tallies.now outside.now list.old }
    ensures { Swept (open_in outside.now (allowed context.now)) tallies.now outside.now list.old list.new }
{
    if !has_next(list, at) {
        return;
    }
    if !is_single_there(outside, list.children(), at, which, context, tallies) {
        return;
    }
    let last = last_declarator(list, at);
    substitute_in_list(alloc, list, at, last);
}

// The next declarator reads the name first, and nothing else mentions it, as the tables tell, or a
// look through the list.
fn is_read_next(
    outside: &Node,
    statements: &Nodes,
    at: usize,
    list: &Node,
    which: usize,
    tallies: &Tallies,
) -> bool
    requires statement { at < count statements.now }
    requires fits { at + 1 < 2 ^ 64 }
    requires next { which + 1 < count (children list.now) }
    requires fits_too { which + 2 < 2 ^ 64 }
    requires declares { it_declares_list (child_or_absent statements.now at) ≡ true }
    requires list { list.now ≡ list_at statements.now at }
    requires tallied { Tallied tallies.now outside.now (listed statements.now) }
    ensures next { result ≡ true → is_it_declarator (part list.now (which + 1)) ≡ true }
    ensures read { result ≡ true → is_it_read_then (names (part (part list.now which) 0)) (part list.now which) (part list.now (which + 1)) outside.now (children list.now) which statements.now at ≡ true }
{
    let declarator = list.child(which);
    if !declares_name(declarator) {
        return false;
    }
    let next = list.child(which + 1);
    if !is_declarator(next) {
        return false;
    }
    if has_rare_name(tallies, declarator.child(0).name(), 2) {
        return is_rarely_read_in(
            tallies,
            declarator.child(0).name(),
            declarator.child(1),
            next.child(1),
        );
    }
    is_read_then(
        declarator.child(0).name(),
        declarator,
        next,
        outside,
        list.children(),
        which,
        statements,
        at,
    )
}

// Of the statement at the place, where it is a declaration, the declarator at the other has a name
// that the next one reads first, and that nothing else mentions.
fn is_next_there(
    outside: &Node,
    statements: &Nodes,
    at: usize,
    which: usize,
    context: &TraverseCtx,
    tallies: &Tallies,
) -> bool
    requires statement { at < count statements.now }
    requires fits { at + 1 < 2 ^ 64 }
    requires fits_too { which + 1 < 2 ^ 64 }
    requires tallied { Tallied tallies.now outside.now (listed statements.now) }
    ensures { result ≡ true → NextOf (open_in outside.now (allowed context.now)) outside.now statements.now at (Some which) }
{
    let statement = statements.child(at);
    if !may_declare(outside, statement) {
        return false;
    }
    let list = statement.child(0);
    if which + 1 >= list.children().len() {
        return false;
    }
    if !may_move_there(is_lexical(statement.shape()), list, which, outside, context) {
        return false;
    }
    is_read_next(outside, statements, at, list, which, tallies)
}

// The declarator at the place goes where the next one reads its name first and nothing else
// mentions it.
fn sweep_next(
    outside: &Node,
    list: &mut Node,
    at: usize,
    which: usize,
    context: &TraverseCtx,
    tallies: &Tallies,
)
    requires fits { at + 1 < 2 ^ 64 }
    requires fits_too { which + 1 < 2 ^ 64 }
    requires calm { Calm tallies.now outside.now list.old }
    ensures { Swept (open_in outside.now (allowed context.now)) tallies.now outside.now list.old list.new }
{
    if at >= list.children().len() {
        return;
    }
    if !is_next_there(outside, list.children(), at, which, context, tallies) {
        return;
    }
    substitute_next(list, at, which);
}

// The declarator at the place goes where nothing else mentions its name, or where it is read once.
fn sweep_declarator(
    alloc: Global,
    outside: &Node,
    list: &mut Node,
    at: usize,
    which: usize,
    context: &TraverseCtx,
    tallies: &Tallies,
) -> Result<(), OutOfMemory>
    requires fits { at + 1 < 2 ^ 64 }
    requires fits_too { which + 1 < 2 ^ 64 }
    requires calm { Calm tallies.now outside.now list.old }
    ensures { OnOk result (Swept (open_in outside.now (allowed context.now)) tallies.now outside.now list.old list.new) }
{
    if at >= list.children().len() {
        return Ok(());
    }
    if is_unused_there(outside, list.children(), at, which, context, tallies) {
        return drop_in_list(alloc, list, at, which);
    }
    sweep_single(alloc, outside, list, at, which, context, tallies);
    sweep_next(outside, list, at, which, context, tallies);
    Ok(())
}

// The declarators of a statement, the last one first.
fn sweep_statement(
    alloc: Global,
    outside: &Node,
    list: &mut Node,
    at: usize,
    context: &TraverseCtx,
    tallies: &Tallies,
) -> Result<(), OutOfMemory>
    requires fits { at + 1 < 2 ^ 64 }
    requires calm { Calm tallies.now outside.now list.old }
    ensures { OnOk result (Swept (open_in outside.now (allowed context.now)) tallies.now outside.now list.old list.new) }
{
    let count = declarators_at(list, at);
    for passed in 0..count {
        sweep_declarator(
            alloc,
            outside,
            list,
            at,
            count - 1 - passed,
            context,
            tallies,
        )?;
    }
    Ok(())
}

// How many declarators the statements have from a place on, up to a number past which it doesn't
// matter.
fn count_declarators(list: &Node, from: usize) -> usize {
    let mut declarators: usize = 0;
    for at in from..list.children().len() {
        declarators = declarators.saturating_add(declarators_at(list, at));
    }
    declarators
}

/// The tallies of a list that is swept from a place on, and of what is outside of it. Where it has
/// few declarators, or memory runs out, nothing is counted.
pub fn tally_from(alloc: Global, outside: &Node, list: &Node, from: usize) -> Tallies
    ensures { Tallied result outside.now list.now }
{
    tally_if_many(alloc, outside, list, count_declarators(list, from))
}

// From a place on, with the tables.
fn sweep_from(
    alloc: Global,
    outside: &Node,
    list: &mut Node,
    from: usize,
    context: &TraverseCtx,
    tallies: &Tallies,
) -> Result<(), OutOfMemory>
    requires { Calm tallies.now outside.now list.old }
    ensures { OnOk result (Swept (open_in outside.now (allowed context.now)) tallies.now outside.now list.old list.new) }
{
    for at in from..list.children().len() {
        sweep_statement(alloc, outside, list, at, context, tallies)?;
    }
    Ok(())
}

/// Of a list of statements, from a place on, each name goes that nothing else mentions, or that is
/// read once.
pub fn sweep(
    alloc: Global,
    outside: &Node,
    list: &mut Node,
    from: usize,
    context: &TraverseCtx,
) -> Result<(), OutOfMemory>
    requires list { is_it_listed list.old ≡ true }
    requires unseen { (has_eval outside.now || has_eval list.old) ≡ false }
    ensures { OnOk result (Chain (Gone (open_in outside.now (allowed context.now)) outside.now) list.old list.new) }
{
    let tallies = tally_list(alloc, outside, list, count_declarators(list, from))?;
    sweep_from(alloc, outside, list, from, context, &tallies)
}
