//! A guess of a set of symbols that may go at once, and of the round of each. Nothing rests on it:
//! whether they may go is tested before they do.
//!
//! The references of an item are counted out when it goes, and a symbol to which none is left joins
//! those whose items go. So each item and each reference is passed once, however long a chain is.

use crate::texts::{Texts, nameless, texts_of};
use mini_context::{TraverseCtx, is_marked, mark_symbol, no_marks};
use mini_model::{OutOfMemory, OwnedList, SymbolId};
use mini_node::Node;
use std::alloc::Global;

/// Symbols that are to go, and in which round each does.
#[derive(Drop)]
pub struct Plan {
    /// By symbol, whether it is to go.
    pub set: Vec<bool>,
    /// By symbol, the round in which it goes.
    pub rounds: Vec<u32>,
    /// The next round: 1 where no symbol is to go.
    pub next: u32,
}

// Items that go, one after another.
#[derive(Drop)]
struct Work {
    // By symbol, how many references are left; a symbol that stays has one more.
    counts: Vec<u32>,
    // By item, whether it goes.
    gone: Vec<bool>,
    // The items that go, in their order.
    queue: OwnedList<u32>,
    plan: Plan,
}

fn number_of(count: usize) -> Result<u32, OutOfMemory> {
    match u32::try_from(count) {
        Ok(number) => Ok(number),
        Err(_) => Err(OutOfMemory),
    }
}

fn no_numbers(alloc: Global, length: u32) -> Result<Vec<u32>, OutOfMemory> {
    match Vec::from_elem(alloc, 0, length as usize) {
        Ok(numbers) => Ok(numbers),
        Err(_) => Err(OutOfMemory),
    }
}

fn stays(context: &TraverseCtx, declared: &[bool], symbol: u32) -> bool {
    is_marked(declared, symbol) || context.scopes.is_shared_always(SymbolId(symbol))
}

// By symbol, how many references there are, and one more where the symbol stays.
fn count_all(
    alloc: Global,
    texts: &Texts,
    context: &TraverseCtx,
    declared: &[bool],
) -> Result<Vec<u32>, OutOfMemory> {
    let mut counts = Vec::new(alloc);
    for symbol in 0..nameless(texts) {
        let count = match texts.counts.get(symbol as usize) {
            Some(count) => *count,
            None => 0,
        };
        let more = u32::from(stays(context, declared, symbol));
        match counts.push(count.saturating_add(more)) {
            Ok(()) => {}
            Err(_) => return Err(OutOfMemory),
        }
    }
    Ok(counts)
}

fn open_work(alloc: Global, texts: &Texts, counts: Vec<u32>) -> Result<Work, OutOfMemory> {
    let symbols = nameless(texts);
    let items = number_of(texts.around.len())?;
    Ok(Work {
        counts,
        gone: no_marks(alloc, items)?,
        queue: OwnedList::new(alloc),
        plan: Plan {
            set: no_marks(alloc, symbols)?,
            rounds: no_numbers(alloc, symbols)?,
            next: 1,
        },
    })
}

fn take_item(work: &mut Work, item: u32) -> Result<(), OutOfMemory> {
    if is_marked(work.gone.as_slice(), item) {
        return Ok(());
    }
    mark_symbol(&mut work.gone, SymbolId(item));
    work.queue.push(item)
}

// Whether there are items, and each of them may go.
fn may_all_go(allowed: &[bool], items: &[u32]) -> bool {
    let mut all = items.len() > 0;
    for item in items {
        all = all && is_marked(allowed, *item);
    }
    all
}

// The items of a symbol go, where they may.
fn take_symbol(
    work: &mut Work,
    allowed: &[bool],
    symbol: u32,
    items: &[u32],
) -> Result<(), OutOfMemory> {
    if !may_all_go(allowed, items) {
        return Ok(());
    }
    mark_symbol(&mut work.plan.set, SymbolId(symbol));
    let at = symbol as usize;
    if at < work.plan.rounds.len() {
        work.plan.rounds[at] = work.plan.next;
    }
    work.plan.next = work.plan.next.saturating_add(1);
    for item in items {
        take_item(work, *item)?;
    }
    Ok(())
}

fn take_listed(
    work: &mut Work,
    texts: &Texts,
    allowed: &[bool],
    symbol: u32,
) -> Result<(), OutOfMemory> {
    match texts.of_symbol.get(symbol as usize) {
        Some(items) => take_symbol(work, allowed, symbol, items.as_slice()),
        None => Ok(()),
    }
}

// One reference less.
fn count_out(
    work: &mut Work,
    texts: &Texts,
    allowed: &[bool],
    symbol: u32,
) -> Result<(), OutOfMemory> {
    let at = symbol as usize;
    if at < work.counts.len() {
        let count = work.counts[at];
        work.counts[at] = count.saturating_sub(1);
        if count == 1 {
            return take_listed(work, texts, allowed, symbol);
        }
    }
    Ok(())
}

// An item's references are counted out, and the items inside go along.
fn pass_item(
    work: &mut Work,
    texts: &Texts,
    allowed: &[bool],
    item: u32,
) -> Result<(), OutOfMemory> {
    if let Some(symbols) = texts.references.get(item as usize) {
        for symbol in symbols.as_slice() {
            count_out(work, texts, allowed, *symbol)?;
        }
    }
    if let Some(items) = texts.inside.get(item as usize) {
        for inner in items.as_slice() {
            take_item(work, *inner)?;
        }
    }
    Ok(())
}

fn queued(work: &Work, at: usize) -> Option<u32> {
    match work.queue.as_slice().get(at) {
        Some(item) => Some(*item),
        None => None,
    }
}

fn is_unreferenced(work: &Work, symbol: u32) -> bool {
    match work.counts.get(symbol as usize) {
        Some(count) => *count == 0,
        None => false,
    }
}

// The first items that go: those without a name, and those of symbols without references.
fn take_first(work: &mut Work, texts: &Texts, allowed: &[bool]) -> Result<(), OutOfMemory> {
    let symbols = nameless(texts);
    if let Some(items) = texts.of_symbol.get(symbols as usize) {
        for item in items.as_slice() {
            if is_marked(allowed, *item) {
                take_item(work, *item)?;
            }
        }
    }
    for symbol in 0..symbols {
        if is_unreferenced(work, symbol) {
            take_listed(work, texts, allowed, symbol)?;
        }
    }
    Ok(())
}

// The items that go, of these, as long as there is one.
fn take_all(
    alloc: Global,
    texts: &Texts,
    allowed: &[bool],
    counts: Vec<u32>,
) -> Result<Work, OutOfMemory> {
    let mut work = open_work(alloc, texts, counts)?;
    take_first(&mut work, texts, allowed)?;
    for at in 0..texts.around.len() {
        match queued(&work, at) {
            Some(item) => pass_item(&mut work, texts, allowed, item)?,
            None => return Ok(work),
        }
    }
    Ok(work)
}

fn each_item(alloc: Global, texts: &Texts) -> Result<Vec<bool>, OutOfMemory> {
    match Vec::from_elem(alloc, true, texts.around.len()) {
        Ok(marks) => Ok(marks),
        Err(_) => Err(OutOfMemory),
    }
}

// Of the items that go, those that don't stand in the text of another: the others go along.
fn outermost(alloc: Global, texts: &Texts, gone: &[bool]) -> Result<Vec<bool>, OutOfMemory> {
    let mut marks = Vec::new(alloc);
    let items = number_of(texts.around.len())?;
    for item in 0..items {
        let inside = match texts.around.get(item as usize) {
            Some(around) => is_marked(gone, *around),
            None => false,
        };
        match marks.push(is_marked(gone, item) && !inside) {
            Ok(()) => {}
            Err(_) => return Err(OutOfMemory),
        }
    }
    Ok(marks)
}

/// A guess of which symbols of a program may go at once, of so many, where it is told which of them
/// anything but an item declares. The only error is that memory runs out.
///
/// An item that goes before the one around it would go along with that, so a first pass tells which
/// items go at all, and a second one takes the outermost of them.
pub fn guess(
    alloc: Global,
    program: &Node,
    context: &TraverseCtx,
    declared: &[bool],
    room: u32,
) -> Result<Plan, OutOfMemory> {
    let texts = texts_of(alloc, program, room)?;
    let each = each_item(alloc, &texts)?;
    let counts = count_all(alloc, &texts, context, declared)?;
    let first = take_all(alloc, &texts, each.as_slice(), counts)?;
    let outer = outermost(alloc, &texts, first.gone.as_slice())?;
    let counts = count_all(alloc, &texts, context, declared)?;
    let second = take_all(alloc, &texts, outer.as_slice(), counts)?;
    Ok(second.plan)
}
