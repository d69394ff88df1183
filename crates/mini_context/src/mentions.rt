//! Where symbols are mentioned.

ghost use Rattle.std.specs.Prelude.{◌≡◌, ℕ, ◌||◌, ◌&&◌, ◌<◌, nat_eq, not, length, replicate, IfOk, OnOk};
ghost use Rattle.mini_model.specs.Tree.{shape_of};
ghost use Rattle.mini_node.specs.Children.{names_of};
ghost use Rattle.mini_laws.specs.Mentions.{is_elsewhere, own_mentions};
ghost use Rattle.mini_laws.specs.Shared.{is_name_of_variable as is_name_shape};
ghost use Rattle.std.specs.List.{filter};
ghost use Rattle.mini_context.specs.Lists.{Housed};
ghost use Rattle.mini_context.specs.Own.{is_binding_shape};
ghost use Rattle.mini_context.specs.Visits.{is_binding, is_writing};
ghost use Rattle.mini_context.specs.Mentioned.{is_outside as is_outside_of, is_somewhere as is_somewhere_in, mentioned_at as entry_at, Joined};
ghost use Rattle.mini_context.specs.declared.mentions.Mentioned.TheVariants as mentioned;

use crate::count::{is_reference, is_write};
use crate::lists::put_number;
use crate::standing::Standing;
use mini_laws::Around;
use mini_model::{OutOfMemory, OwnedList, Shape, SymbolId};
use mini_node::Node;
use std::alloc::Global;

/// Where a symbol is mentioned, that is declared, bound, read or written.
#[derive(Clone, Copy)]
pub enum Mentioned {
    /// Nowhere.
    Nowhere,
    /// In the body with this number alone.
    In(u32),
    /// In a carried node, or in more than one body.
    Widely,
}

/// A table for that many symbols that are mentioned nowhere. The only error is that memory runs
/// out.
pub fn no_mentions(alloc: Global, length: u32) -> Result<Vec<Mentioned>, OutOfMemory>
    ensures { IfOk result (λ table. table.items ≡ replicate length mentioned.Nowhere) }
{
    match Vec::from_elem(alloc, Mentioned::Nowhere, length as usize) {
        Ok(table) => Ok(table),
        Err(_) => Err(OutOfMemory),
    }
}

/// Whether a symbol is mentioned in another body than this, or in a carried node.
pub fn is_outside(mentioned: Mentioned, body: u32) -> bool
    ensures { result ≡ is_outside_of mentioned body }
{
    match mentioned {
        Mentioned::Nowhere => false,
        Mentioned::In(number) => number != body,
        Mentioned::Widely => true,
    }
}

/// Whether a symbol is mentioned at all.
pub fn is_somewhere(mentioned: Mentioned) -> bool
    ensures { result ≡ is_somewhere_in mentioned }
{
    !matches!(mentioned, Mentioned::Nowhere)
}

/// What is known of a symbol; of one past the end of the table, that it is mentioned nowhere.
pub fn mentioned_at(table: &[Mentioned], at: u32) -> Mentioned
    ensures { result ≡ entry_at table.now at }
{
    match table.get(at as usize) {
        Some(mentioned) => *mentioned,
        None => Mentioned::Nowhere,
    }
}

fn in_body(mentioned: Mentioned, number: u32) -> Mentioned
    ensures { (b : ℕ) → is_outside_of result b ≡ (is_outside_of mentioned b || not (nat_eq number b)) }
{
    match mentioned {
        Mentioned::Nowhere => Mentioned::In(number),
        Mentioned::In(other) => {
            if other == number {
                Mentioned::In(number)
            } else {
                Mentioned::Widely
            }
        }
        Mentioned::Widely => Mentioned::Widely,
    }
}

fn joined(mentioned: Mentioned, around: Around) -> Mentioned
    ensures { (b : ℕ) → is_outside_of result b ≡ (is_outside_of mentioned b || is_elsewhere b around) }
{
    if around.carried {
        Mentioned::Widely
    } else {
        in_body(mentioned, around.number)
    }
}

/// Adds a mention of a symbol.
pub fn join_symbol(table: &mut Vec<Mentioned>, symbol: SymbolId, around: Around)
    ensures symbols { length table.new.items ≡ length table.old.items }
    ensures each { (s : ℕ) → s < length table.old.items → (b : ℕ) → is_outside_of (entry_at table.new.items s) b ≡ (is_outside_of (entry_at table.old.items s) b || (nat_eq s symbol.0 && is_elsewhere b around)) }
{
    let at = symbol.0 as usize;
    if at < table.len() {
        table[at] = joined(table[at], around);
    }
}

/// Whether a node of this shape is the name of a variable.
pub fn is_name_of_variable(shape: &Shape) -> bool
    ensures { result ≡ is_name_shape shape.now }
{
    matches!(shape, Shape::Identifier | Shape::BindingIdentifier)
}

/// Adds the mention that a node itself is.
pub fn join_own(table: &mut Vec<Mentioned>, standing: Standing, node: &Node)
    ensures { Joined (own_mentions standing.usage standing.around (shape_of node.now) (names_of node.now)) table.old.items table.new.items }
{
    if !is_name_of_variable(node.shape()) {
        return;
    }
    if let Some(name) = node.name() {
        if let Some(symbol) = name.symbol {
            join_symbol(table, symbol, standing.around);
        }
    }
}

/// Adds the write that a node itself is.
pub fn join_write(table: &mut Vec<Mentioned>, standing: Standing, node: &Node)
    ensures { Joined (filter is_writing (own_mentions standing.usage standing.around (shape_of node.now) (names_of node.now))) table.old.items table.new.items }
{
    if is_reference(node.shape()) && is_write(standing.usage) {
        join_own(table, standing, node);
    }
}

fn is_binding_name(shape: &Shape) -> bool
    ensures { result ≡ is_binding_shape shape.now }
{
    matches!(shape, Shape::BindingIdentifier)
}

/// Puts the number of the body in which a node stands into the list of its symbol, where the node
/// is a name that is declared. The only error is that memory runs out.
pub fn put_home(
    homes: &mut Vec<OwnedList<u32>>,
    standing: Standing,
    node: &Node,
) -> Result<(), OutOfMemory>
    ensures { OnOk result (Housed (filter is_binding (own_mentions standing.usage standing.around (shape_of node.now) (names_of node.now))) homes.old.items homes.new.items) }
{
    if !is_binding_name(node.shape()) || standing.around.carried {
        return Ok(());
    }
    if let Some(name) = node.name() {
        if let Some(symbol) = name.symbol {
            put_number(homes, symbol.0, standing.around.number)?;
        }
    }
    Ok(())
}
