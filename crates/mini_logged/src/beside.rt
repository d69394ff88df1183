//! The rows that are named by a statement in its list, or by a branch or a body.

ghost use Rattle.std.specs.Prelude.{◌≡◌, ◌<◌, false};
ghost use Rattle.mini_model.specs.Tree.{children, count};
ghost use Rattle.mini_logged.specs.Offers.{offer_at, offer_beside, offer_held, offer_listed};
ghost use Rattle.mini_logged.specs.Sites as site;

use mini_checker::find;
use mini_log::row::LogRow;
use mini_model::Position;
use mini_node::{Node, Nodes, is_empty_statement};
use mini_recorded::{
    first_undefined, has_head, is_export, is_let, is_loose_block, is_statement_list, joins, unwraps,
};
use mini_replay::Beside;

fn named(row: LogRow) -> Beside
    ensures { result ≡ record { row = row; is_below = false } }
{
    Beside {
        row,
        is_below: false,
    }
}

// `let x = undefined`
fn bares_let(node: &Node) -> bool
    ensures { result ≡ site.bares_let node.now }
{
    is_let(node) && first_undefined(node.child(0).children()) < node.child(0).children().len()
}

fn bares_export(node: &Node) -> bool
    ensures { result ≡ site.bares_export node.now }
{
    is_export(node) && bares_let(node.child(0))
}

fn bares_head(node: &Node, index: u32) -> bool
    ensures { result ≡ site.bares_head node.now index }
{
    has_head(node, index) && bares_let(node.child(0))
}

// `a; b;`
fn joins_next(sequences: bool, nodes: &Nodes, at: usize) -> bool
    requires { at < count nodes.now }
    ensures { result ≡ site.joins sequences nodes.now at }
{
    let count = nodes.len();
    prove!(at < count);
    let next = at + 1;
    next < count && joins(sequences, nodes, at, next)
}

// The row of the statement at a place in its list.
fn site_at(sequences: bool, nodes: &Nodes, at: usize) -> Option<Beside>
    requires { at < count nodes.now }
    ensures { result ≡ site.site_at sequences nodes.now at }
{
    if bares_let(nodes.child(at)) {
        Some(named(LogRow::Row61))
    } else if bares_export(nodes.child(at)) {
        Some(Beside {
            row: LogRow::Row61,
            is_below: true,
        })
    } else if is_empty_statement(nodes.child(at)) || joins_next(sequences, nodes, at) {
        Some(named(LogRow::Row66))
    } else if is_loose_block(nodes.child(at)) {
        Some(named(LogRow::Row79))
    } else {
        None
    }
}

#[tactic(auto, using(crate::proofs::Sites::list_is, crate::proofs::Sites::past_list))]
fn offer_in(sequences: bool, nodes: &Nodes, at: usize) -> Option<Beside>
    ensures { result ≡ offer_at sequences nodes.now at }
{
    if at < nodes.len() {
        site_at(sequences, nodes, at)
    } else {
        None
    }
}

fn offer_of_list(sequences: bool, place: Position, node: &Node, index: u32) -> Option<Beside>
    ensures { result ≡ offer_listed sequences place node.now index }
{
    if is_statement_list(place, node) {
        offer_in(sequences, node.children(), index as usize)
    } else {
        None
    }
}

// The row of the branch or the body of an index.
fn site_held(node: &Node, index: u32) -> Option<Beside>
    ensures { result ≡ site.site_held node.now index }
{
    if bares_head(node, index) {
        Some(named(LogRow::Row61))
    } else if unwraps(node, find(node.children(), index).0) {
        Some(named(LogRow::Row79))
    } else {
        None
    }
}

#[tactic(auto, using(crate::proofs::Sites::held_is))]
fn offer_of_held(node: &Node, index: u32) -> Option<Beside>
    ensures { result ≡ offer_held node.now index }
{
    site_held(node, index)
}

/// The row that makes something of a node, named by the node of ESTree of an index below it.
pub fn offer(sequences: bool, place: Position, node: &Node, index: u32) -> Option<Beside>
    ensures { result ≡ offer_beside sequences place node.now index }
{
    match place {
        Position::Stmt(_) => offer_of_held(node, index),
        _ => offer_of_list(sequences, place, node, index),
    }
}
