//! Row 71 past steady names in the statements of a body: `let x = a(); return g(x);` becomes
//! `; return g(a());`, where g is steady there.

ghost use Rattle.std.specs.Prelude.{◌≡◌, ◌+◌, ◌<◌, ◌^◌, suc, true, None, IfSome};
ghost use Rattle.mini_model.specs.Tree.{child_or_absent, children, count};
ghost use Rattle.mini_node.specs.Children.{names};
ghost use Rattle.mini_node.specs.Kinds.{is_listed as is_it_listed};
ghost use Rattle.mini_unused.specs.RemoveUnusedDeclaration.{list_at};
ghost use Rattle.mini_unused.specs.SubstituteSingleUse.{last_place};
ghost use Rattle.mini_past.specs.LetPlaces.{Told, ToldOfAll};
ghost use Rattle.mini_rows.specs.Past.{are_past as are_it_past};
ghost use Rattle.mini_rows.specs.Unused.{evaluated as evaluated_in, reads_head as reads_it_head};
ghost use Rattle.mini_past.specs.SubstitutePast as row;
ghost use Rattle.mini_past.specs.SubstitutePast.{PastAt, PastRemoved, held_at};

use crate::declared::may_pass_by;
use crate::let_places::{LetPlaces, list_places};
use crate::names::PastNames;
use crate::next_declarators::substitute_next_past;
use crate::reaching::are_past;
use crate::sweeping::sweep;
use mini_model::Name;
use mini_node::{Node, Nodes};
use mini_steady::SteadyNames;
use mini_unused::{
    declarators_at, either_has_eval, evaluated, is_declared_over, is_lexical, is_mentioned,
    is_mentioned_around, last_declarator, may_declare, reads_head, substitute_in_list,
};
use std::alloc::Global;

// Fewer statements and declarators than these are gone through for each name, without a table.
const FEW: usize = 8;

/// Whether the next statement is a head that reads the name.
#[tactic(auto, using(crate::proofs::Places::next_head))]
pub fn reads_next(name: &Name, statements: &Nodes, at: usize) -> bool
    requires next { at + 1 < count statements.now }
    requires fits { at + 2 < 2 ^ 64 }
    ensures { result ≡ reads_it_head name.now (child_or_absent statements.now (suc at)) }
{
    reads_head(name, statements.child(at + 1))
}

/// Whether it does so after parts that pass the initializer.
#[tactic(auto, using(crate::proofs::Places::next_past))]
pub fn passes_next<S: SteadyNames>(
    name: &Name,
    init: &Node,
    statements: &Nodes,
    at: usize,
    declarators: &Nodes,
    which: usize,
    body: u32,
    steady: &S,
    lets: &Option<LetPlaces>,
) -> bool
    requires next { at + 1 < count statements.now }
    requires fits { at + 2 < 2 ^ 64 }
    requires declarator { which < count declarators.now }
    requires told { IfSome lets.now (λ m. Told m statements.now at declarators.now which) }
    ensures { result ≡ are_it_past (held_at (S.sets steady.now body) statements.now at declarators.now which) name.now init.now (evaluated_in (child_or_absent statements.now (suc at))) }
{
    are_past(
        name,
        init,
        evaluated(statements.child(at + 1)),
        statements,
        at,
        declarators,
        which,
        body,
        steady,
        lets,
    )
}

// The next statement does, and nothing else mentions it.
fn is_read_past<S: SteadyNames>(
    name: &Option<Name>,
    outside: &Node,
    init: &Node,
    declarators: &Nodes,
    which: usize,
    statements: &Nodes,
    at: usize,
    body: u32,
    steady: &S,
    lets: &Option<LetPlaces>,
) -> bool
    requires declarator { which < count declarators.now }
    requires next { at + 1 < count statements.now }
    requires fits { at + 2 < 2 ^ 64 }
    requires told { IfSome lets.now (λ m. Told m statements.now at declarators.now which) }
    ensures { result ≡ row.is_read_past (S.sets steady.now body) (names name.now) outside.now init.now declarators.now which statements.now at }
{
    match name {
        Some(name) => {
            reads_next(name, statements, at)
                && !is_mentioned(name, outside)
                && passes_next(
                    name,
                    init,
                    statements,
                    at,
                    declarators,
                    which,
                    body,
                    steady,
                    lets,
                )
                && !is_declared_over(name, init, declarators, which)
                && !is_mentioned_around(name, statements, at)
        }
        None => false,
    }
}

/// Whether row 71 past steady names takes the declarator at the place of a declaration, whose name
/// the next statement reads.
pub fn is_past_declarator<S: PastNames>(
    is_free: bool,
    list: &Node,
    which: usize,
    outside: &Node,
    statements: &Nodes,
    at: usize,
    body: u32,
    steady: &S,
    lets: &Option<LetPlaces>,
) -> bool
    requires declarator { which < count (children list.now) }
    requires next { at + 1 < count statements.now }
    requires fits { at + 2 < 2 ^ 64 }
    requires told { IfSome lets.now (λ m. Told m statements.now at (children list.now) which) }
    ensures { result ≡ row.is_past_declarator (S.sets steady.now body) is_free (S.lets steady.now) list.now which outside.now statements.now at }
{
    let declarator = list.child(which);
    may_pass_by(is_free, declarator, steady)
        && is_read_past(
            declarator.child(0).name(),
            outside,
            declarator.child(1),
            list.children(),
            which,
            statements,
            at,
            body,
            steady,
            lets,
        )
}

/// Whether row 71 past steady names takes the last declarator of the statement at the place: that
/// is a declaration from which names may go, the next statement reads the name after parts that
/// pass the initializer, and nothing else mentions it.
#[tactic(auto, using(crate::proofs::Places::no_declarator, crate::proofs::Places::last_is))]
pub fn is_past<S: PastNames>(
    outside: &Node,
    statements: &Nodes,
    at: usize,
    body: u32,
    steady: &S,
    lets: &Option<LetPlaces>,
) -> bool
    requires next { at + 1 < count statements.now }
    requires fits { at + 2 < 2 ^ 64 }
    requires told { IfSome lets.now (λ m. Told m statements.now at (children (list_at statements.now at)) (last_place (children (list_at statements.now at)))) }
    ensures past { result ≡ row.is_past (S.sets steady.now body) (S.lets steady.now) outside.now statements.now at }
    ensures list { result ≡ true → 0 < count (children (child_or_absent statements.now at)) }
    ensures declarators { result ≡ true → 0 < count (children (list_at statements.now at)) }
{
    let statement = statements.child(at);
    if !may_declare(outside, statement) {
        return false;
    }
    let list = statement.child(0);
    let count = list.children().len();
    if count == 0 {
        return false;
    }
    let is_free = is_lexical(statement.shape());
    is_past_declarator(
        is_free,
        list,
        count - 1,
        outside,
        statements,
        at,
        body,
        steady,
        lets,
    )
}

// The first such statement.
fn past_at<S: PastNames>(
    outside: &Node,
    statements: &Nodes,
    body: u32,
    steady: &S,
    lets: &Option<LetPlaces>,
) -> Option<usize>
    requires { ToldOfAll lets.now statements.now }
    ensures { PastAt (S.sets steady.now body) (S.lets steady.now) outside.now statements.now result }
{
    let count = statements.len();
    if count == 0 {
        return None;
    }
    for at in 0..count - 1 {
        if is_past(outside, statements, at, body, steady, lets) {
            return Some(at);
        }
    }
    None
}

// How many statements a list has, and declarators besides, up to a number past which it doesn't
// matter.
fn count_parts(list: &Node) -> usize {
    let mut parts = list.children().len();
    for at in 0..list.children().len() {
        parts = parts.saturating_add(declarators_at(list, at));
    }
    parts
}

// What the statements declare, where they are many.
fn places_of(alloc: Global, list: &Node) -> Option<LetPlaces>
    ensures { ToldOfAll result (children list.now) }
{
    if count_parts(list) < FEW {
        return None;
    }
    list_places(alloc, list.children())
}

// Of a list of statements it does, by what these declare.
fn substitute_past_by<S: PastNames>(
    alloc: Global,
    outside: &Node,
    list: &mut Node,
    body: u32,
    steady: &S,
    lets: &Option<LetPlaces>,
) -> bool
    requires list { is_it_listed list.old ≡ true }
    requires told { ToldOfAll lets.now (children list.old) }
    ensures { PastRemoved (S.sets steady.now body) (S.lets steady.now) outside.now list.old list.new result }
{
    match past_at(outside, list.children(), body, steady, lets) {
        Some(at) => {
            if either_has_eval(outside, list) {
                return false;
            }
            let which = last_declarator(list, at);
            substitute_in_list(alloc, list, at, which);
            sweep(alloc, outside, list, at, body, steady);
            true
        }
        None => substitute_next_past(alloc, outside, list, body, steady, lets),
    }
}

/// Of a list of statements, which with what stands outside of them is the body with this number,
/// `let x = a(); return g(x);` becomes `; return g(a());`, and `let x = a(), y = g(x);` becomes
/// `let y = g(a());`, where g is steady in it and initialised, as often as there is one. The answer
/// says whether there was.
pub fn substitute_past<S: PastNames>(
    alloc: Global,
    outside: &Node,
    list: &mut Node,
    body: u32,
    steady: &S,
) -> bool
    requires { is_it_listed list.old ≡ true }
    ensures { PastRemoved (S.sets steady.now body) (S.lets steady.now) outside.now list.old list.new result }
{
    let lets = places_of(alloc, list);
    substitute_past_by(alloc, outside, list, body, steady, &lets)
}
