//! The search for a row's step in a tree.

ghost use Rattle.std.specs.Prelude.{◌≡◌, ◌+◌, ◌<◌, ◌≤◌, IfOk};
ghost use Rattle.mini_model.specs.Tree.{count, children};
ghost use Rattle.mini_model.specs.Paths.{width, spread as spread_out, is_node as is_it_a_node};
ghost use Rattle.mini_replay.specs.Seeking.{before, child, is_holder as holds_others, AreLonger, IsBeside, MadeHere, MadeBeside, OwnSought, Sought, SoughtAt, SoughtBelow, SoughtBeside, SoughtIn};

use crate::widths::{sum, width_of};
use mini_checker::Making;
use mini_log::row::LogRow;
use mini_model::{Numbers, OutOfMemory, Position, Shape};
use mini_node::Node;
use mini_tree::child_place;
use std::alloc::Global;

/// A row that makes something of a node, named by the node of ESTree of an index below it.
#[derive(Clone, Copy)]
pub struct Beside {
    /// The row.
    pub row: LogRow,
    /// Whether the row is named by that one's first child.
    pub is_below: bool,
}

/// A row, and a path at which it has a step.
#[derive(Drop)]
pub struct Found {
    /// The row.
    pub row: LogRow,
    /// The index of the child to go to, at each node on.
    pub at: Numbers,
}

/// Rows that can be looked for. The only error of each search is that memory runs out.
pub trait Seeking: Making {
    /// A row that makes something of a node in its place, where the path ends there; None only
    /// where there is none.
    fn seek_here(
        &self,
        alloc: Global,
        node: &Node,
        place: Position,
    ) -> Result<Option<LogRow>, OutOfMemory>
        ensures { IfOk result (MadeHere (Self.makes self.now) place node.now) };

    /// One that makes something of it where the path goes on with this index; None only where
    /// there is none.
    fn seek_beside(
        &self,
        alloc: Global,
        node: &Node,
        place: Position,
        index: u32,
    ) -> Result<Option<Beside>, OutOfMemory>
        ensures { IfOk result (MadeBeside (Self.makes self.now) place node.now index) };
}

// A child, by its place among the others, and the indices of what it holds.
#[derive(Clone, Copy)]
struct Spot {
    at: usize,
    first: u32,
    end: u32,
}

/// Whether it is a node of ESTree, and neither absent nor what holds others.
pub fn is_node(node: &Node) -> bool
    ensures { result ≡ is_it_a_node node.now }
{
    !matches!(
        node.shape(),
        Shape::Absent | Shape::Listed | Shape::InnerExpression
    )
}

/// Whether it stands for the nodes of ESTree that it holds.
pub fn is_holder(node: &Node) -> bool
    ensures { result ≡ holds_others node.now }
{
    matches!(node.shape(), Shape::Listed | Shape::InnerExpression)
}

/// A row and a path from a node on at which it has a step; None only where there is no step.
#[cycle(seeking)]
pub fn seek<S: Seeking>(
    rows: &S,
    alloc: Global,
    node: &Node,
    place: Position,
) -> Result<Option<Found>, OutOfMemory>
    ensures { IfOk result (Sought (S.makes rows.now) place node.now) }
{
    match seek_below(rows, alloc, node, place, 0)? {
        Some(found) => Ok(Some(found)),
        None => seek_own(rows, alloc, node, place),
    }
}

// Of the node alone, where the path ends there.
fn seek_own<S: Seeking>(
    rows: &S,
    alloc: Global,
    node: &Node,
    place: Position,
) -> Result<Option<Found>, OutOfMemory>
    ensures { IfOk result (OwnSought (S.makes rows.now) place node.now) }
{
    match rows.seek_here(alloc, node, place)? {
        Some(row) => Ok(Some(Found {
            row,
            at: Numbers::new(alloc),
        })),
        None => Ok(None),
    }
}

// Where the path goes on with an index, to which a number is added.
#[cycle(seeking)]
fn seek_below<S: Seeking>(
    rows: &S,
    alloc: Global,
    node: &Node,
    place: Position,
    base: u32,
) -> Result<Option<Found>, OutOfMemory>
    ensures { IfOk result (SoughtBelow (S.makes rows.now) place node.now base) }
{
    let mut first = 0;
    for at in 0..node.children().len() {
        let width = width_of(node.child(at))?;
        let end = sum(first, width)?;
        let spot = Spot { at, first, end };
        match seek_at(rows, alloc, node, place, base, spot)? {
            Some(found) => return Ok(Some(found)),
            None => first = end,
        }
    }
    Ok(None)
}

// In one child, or made of the node by what the child holds.
#[cycle(seeking)]
fn seek_at<S: Seeking>(
    rows: &S,
    alloc: Global,
    node: &Node,
    place: Position,
    base: u32,
    spot: Spot,
) -> Result<Option<Found>, OutOfMemory>
    requires within { spot.at < count (children node.now) }
    requires first { spot.first ≡ before (children node.now) spot.at }
    requires end { spot.end ≡ spot.first + width (child node.now spot.at) }
    ensures { IfOk result (SoughtAt (S.makes rows.now) place node.now base spot.at) }
{
    let stands = child_place(node.shape(), place, node.children().len(), spot.at);
    let index = sum(base, spot.first)?;
    match seek_in(rows, alloc, node.child(spot.at), stands, index)? {
        Some(found) => Ok(Some(found)),
        None => seek_between(rows, alloc, node, place, base, spot),
    }
}

// In a child of which the first node of ESTree has this index.
#[cycle(seeking)]
fn seek_in<S: Seeking>(
    rows: &S,
    alloc: Global,
    node: &Node,
    place: Position,
    index: u32,
) -> Result<Option<Found>, OutOfMemory>
    ensures { IfOk result (SoughtIn (S.makes rows.now) place node.now index) }
{
    if is_node(node) {
        let found = seek(rows, alloc, node, place)?;
        go_on(found, index)
    } else if is_holder(node) {
        seek_below(rows, alloc, node, place, index)
    } else {
        Ok(None)
    }
}

// The path from the node above on.
fn go_on(found: Option<Found>, index: u32) -> Result<Option<Found>, OutOfMemory>
    ensures { IfOk result (AreLonger index found) }
{
    match found {
        Some(mut found) => {
            found.at.insert(0, index)?;
            Ok(Some(found))
        }
        None => Ok(None),
    }
}

// Of the node, where the path goes on with one of these indices.
fn seek_between<S: Seeking>(
    rows: &S,
    alloc: Global,
    node: &Node,
    place: Position,
    base: u32,
    spot: Spot,
) -> Result<Option<Found>, OutOfMemory>
    ensures { spot.end ≤ count (spread_out (children node.now)) → IfOk result (SoughtBeside (S.makes rows.now) place node.now base spot.first spot.end) }
{
    for index in spot.first..spot.end {
        match rows.seek_beside(alloc, node, place, index)? {
            Some(beside) => return found_beside(alloc, base, index, beside),
            None => (),
        }
    }
    Ok(None)
}

// The path of what is named by an index, to which a number is added.
fn found_beside(
    alloc: Global,
    base: u32,
    index: u32,
    beside: Beside,
) -> Result<Option<Found>, OutOfMemory>
    ensures { IfOk result (IsBeside base index beside) }
{
    let mut at = Numbers::new(alloc);
    at.push(sum(base, index)?)?;
    if beside.is_below {
        at.push(0)?;
    }
    Ok(Some(Found {
        row: beside.row,
        at,
    }))
}
