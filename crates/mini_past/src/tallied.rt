//! Row 71 past steady names, by tables of how often names stand in a list: where no more names are
//! in the buckets of a name than its declaration and what reads it, nothing else mentions it, and
//! the list isn't looked through.

ghost use Rattle.std.specs.Prelude.{◌≡◌, ◌+◌, ◌<◌, ◌^◌, suc, true, IfSome};
ghost use Rattle.mini_model.specs.Tree.{child_or_absent, children, count, listed};
ghost use Rattle.mini_node.specs.Children.{names};
ghost use Rattle.mini_unused.specs.RemoveUnusedDeclaration.{declares_list as it_declares_list, list_at};
ghost use Rattle.mini_unused.specs.SubstituteSingleUse.{last_place};
ghost use Rattle.mini_unused.specs.Tallies.{IsRareIn, Tallied};
ghost use Rattle.mini_past.specs.LetPlaces.{Told};
ghost use Rattle.mini_past.specs.SubstitutePast as row;
ghost use Rattle.mini_past.specs.SubstitutePast.{held_at};
ghost use Rattle.mini_past.specs.RareReads.{AreRareAtHead, AreRareInNext};

use crate::declared::may_pass_by;
use crate::let_places::LetPlaces;
use crate::names::PastNames;
use crate::next_declarators::{is_past_by_next, reads_past_in};
use crate::searching::{is_past_declarator, passes_next, reads_next};
use mini_model::Name;
use mini_node::{Node, Nodes};
use mini_steady::SteadyNames;
use mini_unused::{
    Tallies, has_rare_name, is_declarator, is_lexical, is_rare_in, is_rare_in_head, may_declare,
};

// The name and one in what the next statement evaluates first are the only ones in its buckets.
fn is_rare_next(tallies: &Tallies, name: &Name, statements: &Nodes, at: usize) -> bool
    requires next { at + 1 < count statements.now }
    requires fits { at + 2 < 2 ^ 64 }
    ensures { result ≡ true → IsRareIn tallies.now name.now (child_or_absent statements.now (suc at)) }
{
    is_rare_in_head(tallies, name, statements.child(at + 1))
}

// The next statement reads the name at its head, after parts that pass the initializer, and the two
// are the only ones in the name's buckets.
fn is_rarely_read<S: SteadyNames>(
    name: &Option<Name>,
    init: &Node,
    statements: &Nodes,
    at: usize,
    declarators: &Nodes,
    which: usize,
    body: u32,
    steady: &S,
    lets: &Option<LetPlaces>,
    tallies: &Tallies,
) -> bool
    requires declarator { which < count declarators.now }
    requires next { at + 1 < count statements.now }
    requires fits { at + 2 < 2 ^ 64 }
    requires told { IfSome lets.now (λ m. Told m statements.now at declarators.now which) }
    ensures { result ≡ true → AreRareAtHead tallies.now (held_at (S.sets steady.now body) statements.now at declarators.now which) (names name.now) init.now (child_or_absent statements.now (suc at)) }
{
    match name {
        Some(name) => {
            is_rare_next(tallies, name, statements, at)
                && reads_next(name, statements, at)
                && passes_next(
                    name,
                    init,
                    statements,
                    at,
                    declarators,
                    which,
                    body,
                    steady,
                    lets,
                )
        }
        None => false,
    }
}

// The value reads the name first, after parts that pass the initializer, and the two are the only
// ones in the name's buckets.
fn is_rarely_read_in<S: SteadyNames>(
    name: &Option<Name>,
    init: &Node,
    value: &Node,
    statements: &Nodes,
    at: usize,
    declarators: &Nodes,
    which: usize,
    body: u32,
    steady: &S,
    lets: &Option<LetPlaces>,
    tallies: &Tallies,
) -> bool
    requires statement { at < count statements.now }
    requires declarator { which < count declarators.now }
    requires told { IfSome lets.now (λ m. Told m statements.now at declarators.now which) }
    ensures { result ≡ true → AreRareInNext tallies.now (held_at (S.sets steady.now body) statements.now at declarators.now which) (names name.now) init.now value.now }
{
    match name {
        Some(name) => {
            is_rare_in(tallies, name, value)
                && reads_past_in(
                    name,
                    init,
                    value,
                    statements,
                    at,
                    declarators,
                    which,
                    body,
                    steady,
                    lets,
                )
        }
        None => false,
    }
}

/// Whether, as the tables tell or a look through the list, row 71 past steady names takes the
/// declarator at the place of a declaration, whose name the next declarator reads.
pub fn is_next_by<S: PastNames>(
    is_free: bool,
    list: &Node,
    which: usize,
    outside: &Node,
    statements: &Nodes,
    at: usize,
    body: u32,
    steady: &S,
    lets: &Option<LetPlaces>,
    tallies: &Tallies,
) -> bool
    requires next { which + 1 < count (children list.now) }
    requires statement { at < count statements.now }
    requires fits { which + 2 < 2 ^ 64 }
    requires fits_too { at + 1 < 2 ^ 64 }
    requires told { IfSome lets.now (λ m. Told m statements.now at (children list.now) which) }
    requires declares { it_declares_list (child_or_absent statements.now at) ≡ true }
    requires list { list.now ≡ list_at statements.now at }
    requires tallied { Tallied tallies.now outside.now (listed statements.now) }
    ensures { result ≡ true → row.is_past_by_next (S.sets steady.now body) is_free (S.lets steady.now) list.now which outside.now statements.now at ≡ true }
{
    let declarator = list.child(which);
    if !may_pass_by(is_free, declarator, steady) {
        return false;
    }
    let next = list.child(which + 1);
    if !is_declarator(next) {
        return false;
    }
    if has_rare_name(tallies, declarator.child(0).name(), 2) {
        return is_rarely_read_in(
            declarator.child(0).name(),
            declarator.child(1),
            next.child(1),
            statements,
            at,
            list.children(),
            which,
            body,
            steady,
            lets,
            tallies,
        );
    }
    is_past_by_next(
        is_free, list, which, outside, statements, at, body, steady, lets,
    )
}

// So it takes the declarator at the place, whose name the next statement reads.
fn is_read_by<S: PastNames>(
    is_free: bool,
    list: &Node,
    which: usize,
    outside: &Node,
    statements: &Nodes,
    at: usize,
    body: u32,
    steady: &S,
    lets: &Option<LetPlaces>,
    tallies: &Tallies,
) -> bool
    requires declarator { which < count (children list.now) }
    requires next { at + 1 < count statements.now }
    requires fits { at + 2 < 2 ^ 64 }
    requires told { IfSome lets.now (λ m. Told m statements.now at (children list.now) which) }
    requires declares { it_declares_list (child_or_absent statements.now at) ≡ true }
    requires list { list.now ≡ list_at statements.now at }
    requires tallied { Tallied tallies.now outside.now (listed statements.now) }
    ensures { result ≡ true → row.is_past_declarator (S.sets steady.now body) is_free (S.lets steady.now) list.now which outside.now statements.now at ≡ true }
{
    let declarator = list.child(which);
    if !may_pass_by(is_free, declarator, steady) {
        return false;
    }
    if has_rare_name(tallies, declarator.child(0).name(), 2) {
        return is_rarely_read(
            declarator.child(0).name(),
            declarator.child(1),
            statements,
            at,
            list.children(),
            which,
            body,
            steady,
            lets,
            tallies,
        );
    }
    is_past_declarator(
        is_free, list, which, outside, statements, at, body, steady, lets,
    )
}

/// Whether, as the tables tell or a look through the list, row 71 past steady names takes the last
/// declarator of the statement at the place.
#[tactic(auto, using(crate::proofs::Places::last_is))]
pub fn is_past_by<S: PastNames>(
    outside: &Node,
    statements: &Nodes,
    at: usize,
    body: u32,
    steady: &S,
    lets: &Option<LetPlaces>,
    tallies: &Tallies,
) -> bool
    requires next { at + 1 < count statements.now }
    requires fits { at + 2 < 2 ^ 64 }
    requires told { IfSome lets.now (λ m. Told m statements.now at (children (list_at statements.now at)) (last_place (children (list_at statements.now at)))) }
    requires tallied { Tallied tallies.now outside.now (listed statements.now) }
    ensures past { result ≡ true → row.is_past (S.sets steady.now body) (S.lets steady.now) outside.now statements.now at ≡ true }
    ensures list { result ≡ true → 0 < count (children (child_or_absent statements.now at)) }
    ensures declarators { result ≡ true → 0 < count (children (list_at statements.now at)) }
{
    let statement = statements.child(at);
    if !may_declare(outside, statement) {
        return false;
    }
    let list = statement.child(0);
    let count = list.children().len();
    if count == 0 {
        return false;
    }
    let is_free = is_lexical(statement.shape());
    is_read_by(
        is_free,
        list,
        count - 1,
        outside,
        statements,
        at,
        body,
        steady,
        lets,
        tallies,
    )
}
