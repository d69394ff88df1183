//! Row 71 past steady names in one declaration: `let x = a(), y = g(x);` becomes `let y = g(a());`,
//! where g is steady in the body.

ghost use Rattle.std.specs.Prelude.{◌≡◌, ◌+◌, ◌<◌, ◌^◌, true, None, IfSome};
ghost use Rattle.mini_model.specs.Tree.{children, count};
ghost use Rattle.mini_node.specs.Children.{names};
ghost use Rattle.mini_node.specs.Kinds.{is_listed as is_it_listed};
ghost use Rattle.mini_past.specs.LetPlaces.{Told, ToldOfAll};
ghost use Rattle.mini_past.specs.SubstitutePast as row;
ghost use Rattle.mini_past.specs.SubstitutePast.{held_at, PastAt, PastNextAt, PastNextIn, PastNextOf, PastRemoved};

use crate::declared::may_pass_by;
use crate::let_places::LetPlaces;
use crate::names::PastNames;
use crate::reaching::are_past;
use crate::sweeping::sweep;
use mini_model::Name;
use mini_node::{Node, Nodes};
use mini_steady::SteadyNames;
use mini_unused::{
    either_has_eval, is_declarator, is_first, is_lexical, is_mentioned, is_mentioned_beside,
    is_mentioned_elsewhere, may_declare, substitute_next,
};
use std::alloc::Global;

/// Whether an initializer reads the name first, after parts that pass the other.
pub fn reads_past_in<S: SteadyNames>(
    name: &Name,
    init: &Node,
    value: &Node,
    statements: &Nodes,
    at: usize,
    declarators: &Nodes,
    which: usize,
    body: u32,
    steady: &S,
    lets: &Option<LetPlaces>,
) -> bool
    requires statement { at < count statements.now }
    requires declarator { which < count declarators.now }
    requires told { IfSome lets.now (λ m. Told m statements.now at declarators.now which) }
    ensures { result ≡ row.reads_past_in (held_at (S.sets steady.now body) statements.now at declarators.now which) name.now init.now value.now }
{
    is_first(name, false, value)
        && are_past(
            name,
            init,
            value,
            statements,
            at,
            declarators,
            which,
            body,
            steady,
            lets,
        )
}

// The next declarator does, and nothing else mentions it.
fn is_read_past_then<S: SteadyNames>(
    name: &Option<Name>,
    declarator: &Node,
    next: &Node,
    outside: &Node,
    declarators: &Nodes,
    which: usize,
    statements: &Nodes,
    at: usize,
    body: u32,
    steady: &S,
    lets: &Option<LetPlaces>,
) -> bool
    requires parts { 1 < count (children declarator.now) }
    requires next_parts { 1 < count (children next.now) }
    requires next { which + 1 < count declarators.now }
    requires statement { at < count statements.now }
    requires fits { which + 2 < 2 ^ 64 }
    requires fits_too { at + 1 < 2 ^ 64 }
    requires told { IfSome lets.now (λ m. Told m statements.now at declarators.now which) }
    ensures { result ≡ row.is_read_past_then (S.sets steady.now body) (names name.now) declarator.now next.now outside.now declarators.now which statements.now at }
{
    match name {
        Some(name) => {
            reads_past_in(
                name,
                declarator.child(1),
                next.child(1),
                statements,
                at,
                declarators,
                which,
                body,
                steady,
                lets,
            ) && !is_mentioned_beside(name, declarator, next, declarators, which)
                && !is_mentioned(name, outside)
                && !is_mentioned_elsewhere(name, statements, at)
        }
        None => false,
    }
}

// A declarator that the next one reads past others, and whose initializer may move.
fn is_past_by<S: PastNames>(
    is_free: bool,
    declarator: &Node,
    next: &Node,
    outside: &Node,
    declarators: &Nodes,
    which: usize,
    statements: &Nodes,
    at: usize,
    body: u32,
    steady: &S,
    lets: &Option<LetPlaces>,
) -> bool
    requires next { which + 1 < count declarators.now }
    requires statement { at < count statements.now }
    requires fits { which + 2 < 2 ^ 64 }
    requires fits_too { at + 1 < 2 ^ 64 }
    requires told { IfSome lets.now (λ m. Told m statements.now at declarators.now which) }
    ensures { result ≡ row.is_past_by (S.sets steady.now body) is_free (S.lets steady.now) declarator.now next.now outside.now declarators.now which statements.now at }
{
    is_declarator(next)
        && may_pass_by(is_free, declarator, steady)
        && is_read_past_then(
            declarator.child(0).name(),
            declarator,
            next,
            outside,
            declarators,
            which,
            statements,
            at,
            body,
            steady,
            lets,
        )
}

/// Whether row 71 past steady names takes the declarator at the place of a list: its name and
/// initializer may go, the next declarator reads the name after parts that pass the initializer,
/// and nothing else mentions it.
#[tactic(auto, using(crate::proofs::NextPlaces::next_is))]
pub fn is_past_by_next<S: PastNames>(
    is_free: bool,
    list: &Node,
    which: usize,
    outside: &Node,
    statements: &Nodes,
    at: usize,
    body: u32,
    steady: &S,
    lets: &Option<LetPlaces>,
) -> bool
    requires next { which + 1 < count (children list.now) }
    requires statement { at < count statements.now }
    requires fits { which + 2 < 2 ^ 64 }
    requires fits_too { at + 1 < 2 ^ 64 }
    requires told { IfSome lets.now (λ m. Told m statements.now at (children list.now) which) }
    ensures { result ≡ row.is_past_by_next (S.sets steady.now body) is_free (S.lets steady.now) list.now which outside.now statements.now at }
{
    let declarator = list.child(which);
    let next = list.child(which + 1);
    let declarators = list.children();
    is_past_by(
        is_free,
        declarator,
        next,
        outside,
        declarators,
        which,
        statements,
        at,
        body,
        steady,
        lets,
    )
}

// The first of the list.
fn next_in<S: PastNames>(
    is_free: bool,
    list: &Node,
    outside: &Node,
    statements: &Nodes,
    at: usize,
    body: u32,
    steady: &S,
    lets: &Option<LetPlaces>,
) -> Option<usize>
    requires statement { at < count statements.now }
    requires fits { at + 1 < 2 ^ 64 }
    requires told { ToldOfAll lets.now statements.now }
    ensures { PastNextIn (S.sets steady.now body) is_free (S.lets steady.now) list.now outside.now statements.now at result }
{
    let count = list.children().len();
    if count == 0 {
        return None;
    }
    for which in 0..count - 1 {
        if is_past_by_next(
            is_free, list, which, outside, statements, at, body, steady, lets,
        ) {
            return Some(which);
        }
    }
    None
}

// Of the statement, where it is a declaration.
fn next_of<S: PastNames>(
    outside: &Node,
    statements: &Nodes,
    at: usize,
    body: u32,
    steady: &S,
    lets: &Option<LetPlaces>,
) -> Option<usize>
    requires statement { at < count statements.now }
    requires fits { at + 1 < 2 ^ 64 }
    requires told { ToldOfAll lets.now statements.now }
    ensures { PastNextOf (S.sets steady.now body) (S.lets steady.now) outside.now statements.now at result }
{
    let statement = statements.child(at);
    if !may_declare(outside, statement) {
        return None;
    }
    let is_free = is_lexical(statement.shape());
    next_in(
        is_free,
        statement.child(0),
        outside,
        statements,
        at,
        body,
        steady,
        lets,
    )
}

// The first declaration that has a name which its next declarator reads so, and which nothing else
// mentions, and the declarator's place in it.
fn next_at<S: PastNames>(
    outside: &Node,
    statements: &Nodes,
    body: u32,
    steady: &S,
    lets: &Option<LetPlaces>,
) -> Option<(usize, usize)>
    requires { ToldOfAll lets.now statements.now }
    ensures { PastNextAt (S.sets steady.now body) (S.lets steady.now) outside.now statements.now result }
{
    for at in 0..statements.len() {
        if let Some(which) = next_of(outside, statements, at, body, steady, lets) {
            return Some((at, which));
        }
    }
    None
}

/// In a list of statements `let x = a(), y = g(x);` becomes `let y = g(a());`, as often as there is
/// such a declaration, where g is steady in the body around. No statement of the list may read a
/// name of the one before it like that. The answer says whether there was one.
pub fn substitute_next_past<S: PastNames>(
    alloc: Global,
    outside: &Node,
    list: &mut Node,
    body: u32,
    steady: &S,
    lets: &Option<LetPlaces>,
) -> bool
    requires list { is_it_listed list.old ≡ true }
    requires told { ToldOfAll lets.now (children list.old) }
    requires none { PastAt (S.sets steady.now body) (S.lets steady.now) outside.now (children list.old) None }
    ensures { PastRemoved (S.sets steady.now body) (S.lets steady.now) outside.now list.old list.new result }
{
    match next_at(outside, list.children(), body, steady, lets) {
        Some((at, which)) => {
            if either_has_eval(outside, list) {
                return false;
            }
            substitute_next(list, at, which);
            sweep(alloc, outside, list, at, body, steady);
            true
        }
        None => false,
    }
}
