//! Whether the items of a set of symbols may go at once: what stays names none of them, and what
//! goes refers to symbols of later rounds. Of `function f() { g(); } function g() {}` both may go,
//! f in the first round and g in the second.

ghost use Rattle.std.specs.Prelude.{◌≡◌, not, slice_index};
ghost use Rattle.std.specs.List.{list_any};
ghost use Rattle.mini_model.specs.Tree.{child_or_absent, children};
ghost use Rattle.mini_node.specs.Children.{names, names_of, rest_children};
ghost use Rattle.mini_dead.specs.Dead.{has_name};
ghost use Rattle.mini_dead.specs.Marked as marks;
ghost use Rattle.mini_context.specs.Tables.{mark_at};
ghost use Rattle.mini_drop.specs.Asked.{role_in, spot_in};
ghost use Rattle.mini_drop.specs.Going as go;

use crate::items::items_of;
use crate::place::{Role, Spot, role_of, spot_below};
use mini_context::is_marked;
use mini_model::{Name, Shape};
use mini_node::{Node, Nodes};

fn round_at(rounds: &[u32], symbol: u32) -> u32
    ensures { result ≡ slice_index rounds.now symbol }
{
    match rounds.get(symbol as usize) {
        Some(round) => *round,
        None => 0,
    }
}

fn round_of(rounds: &[u32], name: &Option<Name>) -> u32
    ensures { result ≡ go.first_round (slice_index rounds.now) (names name.now) }
{
    match name {
        Some(name) => match name.symbol {
            Some(symbol) => round_at(rounds, symbol.0),
            None => 0,
        },
        None => 0,
    }
}

fn is_later(set: &[bool], rounds: &[u32], round: u32, name: &Option<Name>) -> bool
    ensures { result ≡ go.names_later (mark_at set.now) (slice_index rounds.now) round (names name.now) }
{
    match name {
        Some(name) => match name.symbol {
            Some(symbol) => !is_marked(set, symbol.0) || round < round_at(rounds, symbol.0),
            None => true,
        },
        None => true,
    }
}

fn own_later(set: &[bool], rounds: &[u32], round: u32, shape: &Shape, name: &Option<Name>) -> bool
    ensures { result ≡ go.own_later (mark_at set.now) (slice_index rounds.now) round shape.now (names name.now) }
{
    match shape {
        Shape::Identifier => is_later(set, rounds, round, name),
        _ => true,
    }
}

// Each symbol of the set that a node refers to goes after this round.
#[cycle(later)]
fn later_in(set: &[bool], rounds: &[u32], round: u32, node: &Node) -> bool
    ensures { result ≡ go.later_in (mark_at set.now) (slice_index rounds.now) round node.now }
{
    own_later(set, rounds, round, node.shape(), node.name())
        & all_later(set, rounds, round, node.children(), 0)
}

#[cycle(later)]
fn all_later(set: &[bool], rounds: &[u32], round: u32, nodes: &Nodes, from: usize) -> bool
    ensures { result ≡ go.all_later (mark_at set.now) (slice_index rounds.now) round (rest_children from nodes.now) }
{
    let mut all = true;
    for at in from..nodes.len() {
        all = all & later_in(set, rounds, round, nodes.child(at));
    }
    all
}

// The round of the name of the first child.
fn first_round(rounds: &[u32], nodes: &Nodes) -> u32
    ensures { result ≡ go.first_round (slice_index rounds.now) (names_of (child_or_absent nodes.now 0)) }
{
    match nodes.get(0) {
        Some(id) => round_of(rounds, id.name()),
        None => 0,
    }
}

fn later_at(set: &[bool], rounds: &[u32], round: u32, nodes: &Nodes, at: usize) -> bool
    ensures { result ≡ go.later_in (mark_at set.now) (slice_index rounds.now) round (child_or_absent nodes.now at) }
{
    match nodes.get(at) {
        Some(node) => later_in(set, rounds, round, node),
        None => true,
    }
}

// A declarator's initializer refers to symbols of later rounds.
fn declarator_later(set: &[bool], rounds: &[u32], node: &Node) -> bool
    ensures { result ≡ go.declarator_later (mark_at set.now) (slice_index rounds.now) node.now }
{
    let nodes = node.children();
    later_at(set, rounds, first_round(rounds, nodes), nodes, 1)
}

fn declarators_later(set: &[bool], rounds: &[u32], nodes: &Nodes) -> bool
    ensures { result ≡ go.declarators_later (mark_at set.now) (slice_index rounds.now) (rest_children 0 nodes.now) }
{
    let mut all = true;
    for at in 0..nodes.len() {
        all = all & declarator_later(set, rounds, nodes.child(at));
    }
    all
}

fn declaration_later(set: &[bool], rounds: &[u32], nodes: &Nodes) -> bool
    ensures { result ≡ go.declarators_later (mark_at set.now) (slice_index rounds.now) (children (child_or_absent nodes.now 0)) }
{
    match nodes.get(0) {
        Some(list) => declarators_later(set, rounds, list.children()),
        None => true,
    }
}

fn item_later(set: &[bool], rounds: &[u32], shape: &Shape, nodes: &Nodes) -> bool
    ensures { result ≡ go.item_later (mark_at set.now) (slice_index rounds.now) shape.now nodes.now }
{
    match shape {
        Shape::Function(true, ..) => {
            all_later(set, rounds, first_round(rounds, nodes), nodes, 1)
        }
        Shape::VariableDeclaration(_) => declaration_later(set, rounds, nodes),
        _ => true,
    }
}

// An item that is a part of a list refers to symbols of later rounds.
fn part_later(set: &[bool], rounds: &[u32], role: Role, node: &Node) -> bool
    ensures { result ≡ go.part_later (mark_at set.now) (slice_index rounds.now) (role_in role) node.now }
{
    match role {
        Role::StatementList => item_later(set, rounds, node.shape(), node.children()),
        Role::DeclaratorList(_) => declarator_later(set, rounds, node),
        _ => true,
    }
}

fn has_none(set: &[bool], name: &Option<Name>) -> bool
    ensures { result ≡ not (list_any (has_name (mark_at set.now)) (names name.now)) }
{
    match name {
        Some(name) => match name.symbol {
            Some(symbol) => !is_marked(set, symbol.0),
            None => true,
        },
        None => true,
    }
}

/// Whether the items of a set of symbols may go at once from a node that stands there, each in its
/// round.
#[cycle(going)]
pub fn may_go(set: &[bool], rounds: &[u32], spot: Spot, node: &Node) -> bool
    ensures { result ≡ marks.may_go (mark_at set.now) (slice_index rounds.now) (spot_in spot) node.now }
{
    has_none(set, node.name())
        & parts_may_go(set, rounds, role_of(node.shape(), spot), node.children())
}

#[cycle(going)]
fn parts_may_go(set: &[bool], rounds: &[u32], role: Role, nodes: &Nodes) -> bool
    ensures { result ≡ marks.all_may_go (mark_at set.now) (slice_index rounds.now) (role_in role) 0 (rest_children 0 nodes.now) }
{
    let mut all = true;
    for at in 0..nodes.len() {
        all = all & part_may_go(set, rounds, role, at, nodes.child(at));
    }
    all
}

#[cycle(going)]
fn part_may_go(set: &[bool], rounds: &[u32], role: Role, at: usize, node: &Node) -> bool
    ensures { result ≡ go.part_goes (mark_at set.now) (slice_index rounds.now) (role_in role) at node.now }
{
    if items_of(set, role, node) > 0 {
        part_later(set, rounds, role, node)
    } else {
        may_go(set, rounds, spot_below(role, at), node)
    }
}
