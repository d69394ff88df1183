//! The dead symbols of a program.

ghost use Rattle.std.specs.Prelude.{◌≡◌, ℕ, ◌<◌, ◌&&◌, ◌++◌, ◌∷◌, [], nat_eq, slice_index, length, replicate, false, not, IfOk, OnOk};
ghost use Rattle.mini_tree.specs.declared.options.CompressOptions.{CompressOptions};
ghost use Rattle.mini_context.specs.Tables.{mark_at};
ghost use Rattle.mini_context.specs.Facts.{shared_always};
ghost use Rattle.mini_context.specs.Known.{Knows};
ghost use Rattle.mini_drop.specs.Symbols.{DeadSymbols, ListsDead, dead_by, unreferenced_by};

use crate::declared::mark_declared;
use crate::place::Spot;
use mini_context::{TraverseCtx, counts_tell, is_marked, no_marks};
use mini_model::{OutOfMemory, SymbolId};
use mini_node::Node;
use std::alloc::Global;

fn is_unreferenced(context: &TraverseCtx, symbol: u32) -> bool
    ensures { result ≡ unreferenced_by context.now.scopes symbol }
{
    context.scopes.reads(SymbolId(symbol)) == 0 && context.scopes.writes(SymbolId(symbol)) == 0
}

// Whether a symbol is dead, of which it is told whether anything but an item declares it.
fn is_dead(context: &TraverseCtx, symbol: u32, is_declared: bool) -> bool
    ensures { result ≡ dead_by context.now.scopes symbol is_declared }
{
    is_unreferenced(context, symbol)
        && !is_declared
        && !context.scopes.is_shared_always(SymbolId(symbol))
}

fn push(marks: &mut Vec<bool>, mark: bool) -> Result<(), OutOfMemory>
    ensures { OnOk result (marks.new.items ≡ marks.old.items ++ mark ∷ []) }
{
    match marks.push(mark) {
        Ok(()) => Ok(()),
        Err(_) => Err(OutOfMemory),
    }
}

// For so many symbols, whether each is dead.
fn list_dead(
    alloc: Global,
    declared: &[bool],
    context: &TraverseCtx,
    room: u32,
) -> Result<Vec<bool>, OutOfMemory>
    ensures { IfOk result (λ dead. ListsDead context.now.scopes declared.now room dead.items) }
{
    let mut dead = Vec::new(alloc);
    for symbol in 0..room {
        let mark = is_dead(context, symbol, is_marked(declared, symbol));
        push(&mut dead, mark)?;
    }
    Ok(dead)
}

/// For how many symbols a context has room. Memory counts as run out where there are 2^32 - 1.
pub fn room_of(context: &TraverseCtx) -> Result<u32, OutOfMemory>
    ensures { IfOk result (λ room. room ≡ length context.now.scopes.reads) }
{
    for symbol in 0..u32::MAX {
        if context.scopes.is_past(SymbolId(symbol)) {
            return Ok(symbol);
        }
    }
    Err(OutOfMemory)
}

/// The dead symbols of a program that the context knows. The only error is that memory runs out.
pub fn dead_symbols(
    alloc: Global,
    program: &Node,
    context: &TraverseCtx,
) -> Result<Vec<bool>, OutOfMemory>
    requires { ((o : CompressOptions) × Knows context.now o program.now) }
    ensures { IfOk result (λ dead. DeadSymbols program.now dead.items) }
{
    counts_tell();
    let room = room_of(context)?;
    let mut declared = no_marks(alloc, room)?;
    mark_declared(&mut declared, Spot::Elsewhere, program);
    list_dead(alloc, declared.as_slice(), context, room)
}
