//! Where one name has gone from a list of statements, the others are looked for from there on: each
//! declarator once, so that no look begins anew.

ghost use Rattle.std.specs.Prelude.{◌≡◌, ◌+◌, ◌<◌, ◌^◌, ◌||◌, true, false, Some, IfSome};
ghost use Rattle.mini_model.specs.Tree.{children, count, listed};
ghost use Rattle.mini_laws.specs.ScopeList.{has_eval};
ghost use Rattle.mini_node.specs.Kinds.{is_listed as is_it_listed};
ghost use Rattle.mini_node.specs.Children.{part};
ghost use Rattle.mini_unused.specs.Chains.{Chain};
ghost use Rattle.mini_unused.specs.RemoveUnusedDeclaration.{list_at};
ghost use Rattle.mini_unused.specs.Sweep.{declarators_of, Calm};
ghost use Rattle.mini_unused.specs.Tallies.{Tallied};
ghost use Rattle.mini_past.specs.LetPlaces.{Told, ToldAt, ToldFirst, ToldNowhere};
ghost use Rattle.mini_past.specs.SubstitutePast.{PastGone, PastNextOf, Swept};

use crate::let_places::{FirstPlaces, LetPlaces, first_places, list_places};
use crate::names::PastNames;
use crate::tallied::{is_next_by, is_past_by};
use mini_node::{Node, Nodes};
use mini_unused::{
    Tallies, declarators_at, declares_list, has_next, is_lexical, last_declarator, may_declare,
    substitute_in_list, substitute_next, tally_from,
};
use std::alloc::Global;

// A statement of fewer declarators than these is gone through for each name, without a table.
const FEW: usize = 16;

// A statement of more declarators than these has no table.
const MANY: usize = 1073741824;

// The declarator at the place goes where it is the last one of the statement and the next statement
// reads its name so.
fn sweep_last<S: PastNames>(
    alloc: Global,
    outside: &Node,
    list: &mut Node,
    at: usize,
    which: usize,
    body: u32,
    steady: &S,
    lets: &Option<LetPlaces>,
    tallies: &Tallies,
)
    requires fits { at + 1 < 2 ^ 64 }
    requires fits_too { which + 1 < 2 ^ 64 }
    requires calm { Calm tallies.now outside.now list.old }
    requires told { ToldAt lets.now list.old at which }
    ensures swept { Swept (S.sets steady.now body) (S.lets steady.now) tallies.now outside.now list.old list.new }
    ensures told { ToldAt lets.now list.new at which }
{
    if declarators_at(list, at) != which + 1 {
        return;
    }
    if !has_next(list, at) {
        return;
    }
    if !is_past_by(outside, list.children(), at, body, steady, lets, tallies) {
        return;
    }
    let last = last_declarator(list, at);
    substitute_in_list(alloc, list, at, last);
}

// Of the statement at the place, where it is a declaration, the declarator at the other has a name
// that the next one reads so.
fn is_next_there<S: PastNames>(
    outside: &Node,
    statements: &Nodes,
    at: usize,
    which: usize,
    body: u32,
    steady: &S,
    lets: &Option<LetPlaces>,
    tallies: &Tallies,
) -> bool
    requires statement { at < count statements.now }
    requires fits { at + 1 < 2 ^ 64 }
    requires fits_too { which + 1 < 2 ^ 64 }
    requires tallied { Tallied tallies.now outside.now (listed statements.now) }
    requires told { IfSome lets.now (λ m. Told m statements.now at (children (list_at statements.now at)) which) }
    ensures { result ≡ true → PastNextOf (S.sets steady.now body) (S.lets steady.now) outside.now statements.now at (Some which) }
{
    let statement = statements.child(at);
    if !may_declare(outside, statement) {
        return false;
    }
    let list = statement.child(0);
    if which + 1 >= list.children().len() {
        return false;
    }
    let is_free = is_lexical(statement.shape());
    is_next_by(
        is_free, list, which, outside, statements, at, body, steady, lets, tallies,
    )
}

// The declarator at the place goes where the next one reads its name so.
fn sweep_next<S: PastNames>(
    outside: &Node,
    list: &mut Node,
    at: usize,
    which: usize,
    body: u32,
    steady: &S,
    lets: &Option<LetPlaces>,
    tallies: &Tallies,
)
    requires fits { at + 1 < 2 ^ 64 }
    requires fits_too { which + 1 < 2 ^ 64 }
    requires calm { Calm tallies.now outside.now list.old }
    requires told { ToldAt lets.now list.old at which }
    ensures swept { Swept (S.sets steady.now body) (S.lets steady.now) tallies.now outside.now list.old list.new }
    ensures told { ToldAt lets.now list.new at which }
{
    if at >= list.children().len() {
        return;
    }
    if !is_next_there(
        outside,
        list.children(),
        at,
        which,
        body,
        steady,
        lets,
        tallies,
    ) {
        return;
    }
    substitute_next(list, at, which);
}

// The declarator at the place goes where the next statement reads its name so, or the next
// declarator does.
fn sweep_declarator<S: PastNames>(
    alloc: Global,
    outside: &Node,
    list: &mut Node,
    at: usize,
    which: usize,
    body: u32,
    steady: &S,
    lets: &Option<LetPlaces>,
    tallies: &Tallies,
)
    requires fits { at + 1 < 2 ^ 64 }
    requires fits_too { which + 1 < 2 ^ 64 }
    requires calm { Calm tallies.now outside.now list.old }
    requires told { ToldAt lets.now list.old at which }
    ensures swept { Swept (S.sets steady.now body) (S.lets steady.now) tallies.now outside.now list.old list.new }
    ensures told { ToldAt lets.now list.new at which }
{
    sweep_last(alloc, outside, list, at, which, body, steady, lets, tallies);
    sweep_next(outside, list, at, which, body, steady, lets, tallies);
}

// So many that a table is made.
fn are_many(count: usize) -> bool
    ensures { result ≡ true → count + 1 < 2 ^ 64 }
{
    FEW <= count && count <= MANY
}

// Where the declarators of the statement at the index are many, the first places of what they and
// the statements before it declare.
fn places_for(alloc: Global, list: &Node, at: usize) -> Option<FirstPlaces>
    requires { at + 1 < 2 ^ 64 }
    ensures { IfSome result (λ first. ToldFirst first (children list.now) at (children (list_at (children list.now) at)) (declarators_of (part list.now at))) }
{
    if at >= list.children().len() {
        return None;
    }
    let statement = list.child(at);
    if !declares_list(statement) {
        return None;
    }
    let declarators = statement.child(0).children();
    if !are_many(declarators.len()) {
        return None;
    }
    match first_places(alloc, list.children(), at, declarators) {
        Ok(first) => Some(first),
        Err(_) => None,
    }
}

// Puts the first places of the statement at the index into the tables.
fn put_first_places(alloc: Global, list: &Node, at: usize, lets: &mut Option<LetPlaces>)
    requires fits { at + 1 < 2 ^ 64 }
    requires nowhere { ToldNowhere lets.old (children list.now) }
    ensures { ToldAt lets.new list.now at (declarators_of (part list.now at)) }
{
    if let Some(lets) = lets {
        lets.first = places_for(alloc, list, at);
    }
}

// The declarators of a statement, the last one first.
fn sweep_statement<S: PastNames>(
    alloc: Global,
    outside: &Node,
    list: &mut Node,
    at: usize,
    body: u32,
    steady: &S,
    lets: &mut Option<LetPlaces>,
    tallies: &Tallies,
)
    requires fits { at + 1 < 2 ^ 64 }
    requires calm { Calm tallies.now outside.now list.old }
    requires nowhere { ToldNowhere lets.old (children list.old) }
    ensures swept { Swept (S.sets steady.now body) (S.lets steady.now) tallies.now outside.now list.old list.new }
    ensures nowhere { ToldNowhere lets.new (children list.new) }
{
    let count = declarators_at(list, at);
    put_first_places(alloc, list, at, lets);
    for passed in 0..count {
        sweep_declarator(
            alloc,
            outside,
            list,
            at,
            count - 1 - passed,
            body,
            steady,
            lets,
            tallies,
        );
    }
}

/// In a list of statements, which with what stands outside of them is the body with this number,
/// row 71 past steady names is made from a place on: each name goes that the next statement or the
/// next declarator reads after parts that pass its initializer, and that nothing else mentions.
pub fn sweep<S: PastNames>(
    alloc: Global,
    outside: &Node,
    list: &mut Node,
    from: usize,
    body: u32,
    steady: &S,
)
    requires list { is_it_listed list.old ≡ true }
    requires unseen { (has_eval outside.now || has_eval list.old) ≡ false }
    ensures { Chain (PastGone (S.sets steady.now body) (S.lets steady.now) outside.now) list.old list.new }
{
    let tallies = tally_from(alloc, outside, list, from);
    let mut lets = list_places(alloc, list.children());
    for at in from..list.children().len() {
        sweep_statement(alloc, outside, list, at, body, steady, &mut lets, &tallies);
    }
}
