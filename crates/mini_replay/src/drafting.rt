//! A draft of a log: the steps that a walk makes of a copy of a program, children first, each in
//! place. It is a proposal, made in linear time: that its rows have steps is proved of no draft, but
//! as each is made of the program itself.

ghost use Rattle.std.specs.Prelude.{◌≡◌, ◌<◌, ◌≤◌, ◌++◌, true, OnOk, IfOk};

use crate::seeking::{Beside, Found, Seeking, is_holder, is_node};
use crate::widths::{sum, width_of, widths_of};
use mini_checker::copy_node;
use mini_log::row::LogRow;
use mini_model::{Numbers, OutOfMemory, OwnedList, Position};
use mini_node::{Node, discard};
use mini_tree::child_place;
use std::alloc::Global;

/// Rows, each with a path at which it may have a step.
pub type Drafted = OwnedList<Found>;

// A draft, the path to the node that is walked over, and for how many more steps there is room.
#[derive(Drop)]
struct Draft {
    path: Numbers,
    found: Drafted,
    room: u32,
}

/// Puts numbers behind others.
pub fn put_behind(numbers: &mut Numbers, more: &[u32]) -> Result<(), OutOfMemory>
    ensures { OnOk result (numbers.new ≡ numbers.old ++ more.now) }
{
    for number in more {
        numbers.push(*number)?;
    }
    Ok(())
}

// Adds a row at the node, or at what these indices lead to from there.
fn add(draft: &mut Draft, alloc: Global, row: LogRow, more: &[u32]) -> Result<(), OutOfMemory>
    requires { 0 < draft.old.room }
    ensures { OnOk result (draft.new.room < draft.old.room) }
{
    let mut at = Numbers::new(alloc);
    put_behind(&mut at, draft.path.as_slice())?;
    put_behind(&mut at, more)?;
    draft.found.push(Found { row, at })?;
    draft.room -= 1;
    Ok(())
}

// Makes one step of the node alone, where the path ends there, and says whether there was one.
fn draft_own<S: Seeking>(
    rows: &S,
    alloc: Global,
    node: &mut Node,
    place: Position,
    draft: &mut Draft,
) -> Result<bool, OutOfMemory>
    ensures { IfOk result (λ made. made ≡ true → draft.new.room < draft.old.room) }
{
    if draft.room == 0 {
        return Ok(false);
    }
    match rows.seek_here(alloc, node, place)? {
        Some(row) => {
            let _made = rows.make(alloc, row, node, place)?;
            add(draft, alloc, row, &[])?;
            Ok(true)
        }
        None => Ok(false),
    }
}

// Makes what a row makes of the node, named by the node of ESTree of an index below it.
fn make_beside<S: Seeking>(
    rows: &S,
    alloc: Global,
    node: &mut Node,
    place: Position,
    index: u32,
    beside: Beside,
) -> Result<bool, OutOfMemory> {
    if beside.is_below {
        rows.make_above(alloc, beside.row, node, place, index, &[0])
    } else {
        rows.make_above(alloc, beside.row, node, place, index, &[])
    }
}

// Adds that row. The node stands at an index from which on its own are counted.
fn add_beside(
    draft: &mut Draft,
    alloc: Global,
    base: u32,
    index: u32,
    beside: Beside,
) -> Result<(), OutOfMemory>
    requires { 0 < draft.old.room }
    ensures { OnOk result (draft.new.room < draft.old.room) }
{
    let named = sum(base, index)?;
    if beside.is_below {
        add(draft, alloc, beside.row, &[named, 0])
    } else {
        add(draft, alloc, beside.row, &[named])
    }
}

// Makes one step of the node that is named by the node of ESTree of an index below it, and says
// whether there was one.
fn draft_beside<S: Seeking>(
    rows: &S,
    alloc: Global,
    node: &mut Node,
    place: Position,
    base: u32,
    index: u32,
    draft: &mut Draft,
) -> Result<bool, OutOfMemory>
    ensures { IfOk result (λ made. made ≡ true → draft.new.room < draft.old.room) }
{
    if draft.room == 0 {
        return Ok(false);
    }
    match rows.seek_beside(alloc, node, place, index)? {
        Some(beside) => {
            let _made = make_beside(rows, alloc, node, place, index, beside)?;
            add_beside(draft, alloc, base, index, beside)?;
            Ok(true)
        }
        None => Ok(false),
    }
}

// Makes steps of the node that are named by nodes of ESTree below it, one index after another.
fn draft_between<S: Seeking>(
    rows: &S,
    alloc: Global,
    node: &mut Node,
    place: Position,
    base: u32,
    draft: &mut Draft,
) -> Result<(), OutOfMemory> {
    let end = widths_of(node.children())?;
    for index in 0..end {
        'steps: while draft_beside(rows, alloc, node, place, base, index, draft)? {}
    }
    Ok(())
}

// Walks over a node, its children first.
#[cycle(drafting)]
fn draft_at<S: Seeking>(
    rows: &S,
    alloc: Global,
    node: &mut Node,
    place: Position,
    draft: &mut Draft,
) -> Result<(), OutOfMemory> {
    draft_below(rows, alloc, node, place, 0, draft)?;
    draft_between(rows, alloc, node, place, 0, draft)?;
    'steps: while draft_own(rows, alloc, node, place, draft)? {}
    Ok(())
}

// Walks over its children, one after another.
#[cycle(drafting)]
fn draft_below<S: Seeking>(
    rows: &S,
    alloc: Global,
    node: &mut Node,
    place: Position,
    base: u32,
    draft: &mut Draft,
) -> Result<(), OutOfMemory> {
    let count = node.children().len();
    let mut first = base;
    for at in 0..count {
        let stands = child_place(node.shape(), place, count, at);
        let child = node.children_mut().child_mut(at);
        draft_in(rows, alloc, child, stands, first, draft)?;
        first = sum(first, width_of(node.child(at))?)?;
    }
    Ok(())
}

// Walks over a child of which the first node of ESTree has this index.
#[cycle(drafting)]
fn draft_in<S: Seeking>(
    rows: &S,
    alloc: Global,
    node: &mut Node,
    place: Position,
    index: u32,
    draft: &mut Draft,
) -> Result<(), OutOfMemory> {
    if is_node(node) {
        draft.path.push(index)?;
        draft_at(rows, alloc, node, place, draft)?;
        let _last = draft.path.pop();
    } else if is_holder(node) {
        draft_below(rows, alloc, node, place, index, draft)?;
        draft_between(rows, alloc, node, place, index, draft)?;
    }
    Ok(())
}

/// Drafts a log of at most so many steps of a program. The only error is that memory runs out.
pub fn draft_log<S: Seeking>(
    rows: &S,
    alloc: Global,
    program: &Node,
    room: u32,
) -> Result<Drafted, OutOfMemory> {
    let mut copy = copy_node(alloc, program)?;
    let mut draft = Draft {
        path: Numbers::new(alloc),
        found: Drafted::new(alloc),
        room,
    };
    let walked = draft_at(rows, alloc, &mut copy, Position::Elsewhere, &mut draft);
    discard(copy);
    let Draft {
        path: _,
        found,
        room: _,
    } = draft;
    match walked {
        Ok(()) => Ok(found),
        Err(error) => Err(error),
    }
}
