//! Tables of marks.

ghost use Rattle.std.specs.Prelude.{◌≡◌, ℕ, ◌||◌, ◌∷◌, [], ◌<◌, nat_eq, length, replicate, IfOk, false};
ghost use Rattle.mini_laws.specs.DeclaredNames.{own_names, names_of, all_names};
ghost use Rattle.mini_laws.specs.ScopeList.{names_in};
ghost use Rattle.mini_context.specs.Tables.{mark_at, Marked};

use mini_laws::{Binding, Declared, Place};
use mini_model::{Name, OutOfMemory, SymbolId};
use mini_node::{Node, Nodes};
use mini_scope::place_of;
use std::alloc::Global;

/// A table for that many symbols, without a mark. The only error is that memory runs out.
pub fn no_marks(alloc: Global, length: u32) -> Result<Vec<bool>, OutOfMemory>
    ensures { IfOk result (λ marks. marks.items ≡ replicate length false) }
{
    match Vec::from_elem(alloc, false, length as usize) {
        Ok(marks) => Ok(marks),
        Err(_) => Err(OutOfMemory),
    }
}

/// Whether there is a mark; past the end of the table there is none.
pub fn is_marked(marks: &[bool], at: u32) -> bool
    ensures { result ≡ mark_at marks.now at }
{
    match marks.get(at as usize) {
        Some(mark) => *mark,
        None => false,
    }
}

/// Marks a symbol.
pub fn mark_symbol(marks: &mut Vec<bool>, symbol: SymbolId)
    ensures symbols { length marks.new.items ≡ length marks.old.items }
    ensures each { (s : ℕ) → s < length marks.old.items → mark_at marks.new.items s ≡ (mark_at marks.old.items s || nat_eq symbol.0 s) }
{
    let at = symbol.0 as usize;
    if at < marks.len() {
        marks[at] = true;
    }
}

/// Marks the symbol of a name, where it has one.
pub fn mark_name(marks: &mut Vec<bool>, name: &Name)
    ensures { Marked (name.now ∷ []) marks.old.items marks.new.items }
{
    if let Some(symbol) = name.symbol {
        mark_symbol(marks, symbol);
    }
}

/// Marks the names of a scope.
pub fn mark_bindings(marks: &mut Vec<bool>, scope: &[Binding])
    ensures { Marked (names_in scope.now) marks.old.items marks.new.items }
{
    for binding in scope {
        mark_name(marks, &binding.name);
    }
}

/// Marks the name of a node, where it has one.
pub fn mark_own_name(marks: &mut Vec<bool>, node: &Node)
    ensures { Marked (own_names node.now) marks.old.items marks.new.items }
{
    if let Some(name) = node.name() {
        mark_name(marks, name);
    }
}

/// Marks the names that a node declares.
#[cycle(marks)]
pub fn mark_names(marks: &mut Vec<bool>, declared: Declared, node: &Node)
    ensures { Marked (names_of declared node.now) marks.old.items marks.new.items }
{
    let nodes = node.children();
    match place_of(declared, node.shape()) {
        Place::Here => mark_own_name(marks, node),
        Place::FirstBound => {
            if let Some(first) = nodes.get(0) {
                mark_names(marks, Declared::Bound, first);
            }
        }
        Place::Bound => mark_all_names(marks, Declared::Bound, nodes),
        Place::Below => mark_all_names(marks, declared, nodes),
        Place::Nowhere => {}
    }
}

/// Marks the names that some nodes declare.
#[cycle(marks)]
pub fn mark_all_names(marks: &mut Vec<bool>, declared: Declared, nodes: &Nodes)
    ensures { Marked (all_names declared nodes.now) marks.old.items marks.new.items }
{
    for at in 0..nodes.len() {
        mark_names(marks, declared, nodes.child(at));
    }
}
