//! The items of a program, and the references in the text of each. Nothing is proved of these
//! tables but that they are made: what is guessed from them is tested.

use crate::items::{is_function_value, is_item};
use crate::place::{Role, Spot, role_of, spot_below};
use mini_model::{OutOfMemory, OwnedList, Shape, SymbolId};
use mini_node::{Node, Nodes};
use std::alloc::Global;

/// A number that no item has.
pub const NO_ITEM: u32 = u32::MAX;

/// The items of a program. Items have numbers, in the order in which they stand.
#[derive(Drop)]
pub struct Texts {
    /// By symbol, how many references there are.
    pub counts: Vec<u32>,
    /// By symbol, its items; then the items without a name.
    pub of_symbol: Vec<OwnedList<u32>>,
    /// By item, the innermost item in whose text it stands, or `NO_ITEM`.
    pub around: Vec<u32>,
    /// By item, the items in its text, but for those in the text of another of these.
    pub inside: Vec<OwnedList<u32>>,
    /// By item, the symbols to which its text refers, but for the text of the items inside.
    pub references: Vec<OwnedList<u32>>,
}

fn push_number(numbers: &mut Vec<u32>, number: u32) -> Result<(), OutOfMemory> {
    match numbers.push(number) {
        Ok(()) => Ok(()),
        Err(_) => Err(OutOfMemory),
    }
}

fn push_list(alloc: Global, lists: &mut Vec<OwnedList<u32>>) -> Result<(), OutOfMemory> {
    match lists.push(OwnedList::new(alloc)) {
        Ok(()) => Ok(()),
        Err(_) => Err(OutOfMemory),
    }
}

fn put(lists: &mut Vec<OwnedList<u32>>, at: u32, number: u32) -> Result<(), OutOfMemory> {
    let at = at as usize;
    if at < lists.len() {
        lists[at].push(number)
    } else {
        Ok(())
    }
}

// Before a walk over a program with so many symbols.
fn no_texts(alloc: Global, symbols: u32) -> Result<Texts, OutOfMemory> {
    let mut texts = Texts {
        counts: Vec::new(alloc),
        of_symbol: Vec::new(alloc),
        around: Vec::new(alloc),
        inside: Vec::new(alloc),
        references: Vec::new(alloc),
    };
    for symbol in 0..symbols {
        push_number(&mut texts.counts, 0)?;
        push_list(alloc, &mut texts.of_symbol)?;
    }
    push_list(alloc, &mut texts.of_symbol)?;
    Ok(texts)
}

fn note_reference(texts: &mut Texts, item: u32, symbol: SymbolId) -> Result<(), OutOfMemory> {
    let at = symbol.0 as usize;
    if at < texts.counts.len() {
        texts.counts[at] = texts.counts[at].saturating_add(1);
    }
    put(&mut texts.references, item, symbol.0)
}

// Notes what a node in the text of an item refers to.
fn note_own(texts: &mut Texts, item: u32, node: &Node) -> Result<(), OutOfMemory> {
    match node.shape() {
        Shape::Identifier => {}
        _ => return Ok(()),
    }
    match node.name() {
        Some(name) => match name.symbol {
            Some(symbol) => note_reference(texts, item, symbol),
            None => Ok(()),
        },
        None => Ok(()),
    }
}

// The symbol of an item's name, or where the items without a name are listed.
fn list_of(texts: &Texts, node: &Node) -> u32 {
    if let Some(id) = node.children().get(0) {
        if let Some(name) = id.name() {
            if let Some(symbol) = name.symbol {
                return symbol.0;
            }
        }
    }
    nameless(texts)
}

/// Where the items without a name are listed.
pub fn nameless(texts: &Texts) -> u32 {
    match u32::try_from(texts.counts.len()) {
        Ok(symbols) => symbols,
        Err(_) => NO_ITEM,
    }
}

// A function that is a statement by itself.
fn is_lone(role: Role, node: &Node) -> bool {
    matches!(role, Role::StatementList)
        && matches!(node.shape(), Shape::ExpressionStatement)
        && node.children().len() == 1
        && is_function_value(node.child(0))
}

// A new item in the text of another, listed with those of a symbol; the answer is its number.
fn open_item(alloc: Global, texts: &mut Texts, around: u32, list: u32) -> Result<u32, OutOfMemory> {
    let item = match u32::try_from(texts.around.len()) {
        Ok(item) => item,
        Err(_) => return Err(OutOfMemory),
    };
    push_number(&mut texts.around, around)?;
    push_list(alloc, &mut texts.inside)?;
    push_list(alloc, &mut texts.references)?;
    put(&mut texts.of_symbol, list, item)?;
    put(&mut texts.inside, around, item)?;
    Ok(item)
}

// In the text of which item a part of a node stands, which may be itself one.
fn item_of(
    alloc: Global,
    texts: &mut Texts,
    around: u32,
    role: Role,
    node: &Node,
) -> Result<u32, OutOfMemory> {
    if is_item(role, node) {
        let list = list_of(texts, node);
        return open_item(alloc, texts, around, list);
    }
    if is_lone(role, node) {
        let list = nameless(texts);
        return open_item(alloc, texts, around, list);
    }
    Ok(around)
}

// Notes the items and the references of a node that stands there, in the text of an item.
#[cycle(reading)]
fn read(
    alloc: Global,
    texts: &mut Texts,
    item: u32,
    spot: Spot,
    node: &Node,
) -> Result<(), OutOfMemory> {
    note_own(texts, item, node)?;
    read_below(
        alloc,
        texts,
        item,
        role_of(node.shape(), spot),
        node.children(),
    )
}

#[cycle(reading)]
fn read_below(
    alloc: Global,
    texts: &mut Texts,
    item: u32,
    role: Role,
    nodes: &Nodes,
) -> Result<(), OutOfMemory> {
    for at in 0..nodes.len() {
        let node = nodes.child(at);
        let inner = item_of(alloc, texts, item, role, node)?;
        read(alloc, texts, inner, spot_below(role, at), node)?;
    }
    Ok(())
}

/// The items of a program with so many symbols. The only error is that memory runs out.
pub fn texts_of(alloc: Global, program: &Node, symbols: u32) -> Result<Texts, OutOfMemory> {
    let mut texts = no_texts(alloc, symbols)?;
    read(alloc, &mut texts, NO_ITEM, Spot::Elsewhere, program)?;
    Ok(texts)
}
