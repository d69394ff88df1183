//! The numbers of the nodes of a program, and those of the symbols that its scopes declare.

ghost use Rattle.std.specs.Prelude.{◌≡◌, ◌++◌, ◌∷◌, [], IfOk, OnOk};
ghost use Rattle.mini_laws.specs.Scopes.{use_of as use_at};
ghost use Rattle.mini_laws.specs.Symbols.{declared, declared_from, declared_symbols, symbols_in};
ghost use Rattle.mini_kept.specs.Carried.{all_numbers, numbers, symbol_numbers, with_number};
ghost use Rattle.mini_scope.specs.ScopeAt.{scope_at};

use mini_laws::{Binding, Use};
use mini_scope::{OpenScopes, use_of};
use mini_tree::{Node, Nodes, Numbers, OutOfMemory, Program, Shape, SymbolId};
use std::alloc::Global;

// Adds a number where it is above 0.
fn push_number(number: u32, found: &mut Numbers) -> Result<(), OutOfMemory>
    ensures { OnOk result (found.new ≡ found.old ++ with_number number []) }
{
    if number == 0 {
        return Ok(());
    }
    found.push(number)
}

// Adds the numbers above 0 of a node and of all below it, in preorder.
#[cycle(numbers)]
fn push_numbers(node: &Node, found: &mut Numbers) -> Result<(), OutOfMemory>
    ensures { OnOk result (found.new ≡ found.old ++ numbers node.now) }
{
    push_number(node.number(), found)?;
    push_all_numbers(node.children(), found)
}

#[cycle(numbers)]
fn push_all_numbers(nodes: &Nodes, found: &mut Numbers) -> Result<(), OutOfMemory>
    ensures { OnOk result (found.new ≡ found.old ++ all_numbers nodes.now) }
{
    for at in 0..nodes.len() {
        push_numbers(nodes.child(at), found)?;
    }
    Ok(())
}

/// The numbers of the numbered nodes of a program, in preorder: its own, which is 0, and those
/// above 0 below it.
pub fn numbers_of(alloc: Global, program: &Program) -> Result<Numbers, OutOfMemory>
    ensures { IfOk result (λ found. found ≡ 0 ∷ numbers program.now) }
{
    let mut found = Numbers::new(alloc);
    found.push(0)?;
    push_numbers(program, &mut found)?;
    Ok(found)
}

// Adds the number of a symbol where there is one.
fn push_symbol(symbol: Option<SymbolId>, found: &mut Numbers) -> Result<(), OutOfMemory>
    ensures { OnOk result (found.new ≡ found.old ++ symbol_numbers (symbol ∷ [])) }
{
    match symbol {
        Some(symbol) => found.push(symbol.0),
        None => Ok(()),
    }
}

// Adds the symbols that a scope's names carry.
fn push_scope(scope: &[Binding], found: &mut Numbers) -> Result<(), OutOfMemory>
    ensures { OnOk result (found.new ≡ found.old ++ symbol_numbers (symbols_in scope.now)) }
{
    for binding in scope {
        push_symbol(binding.name.symbol, found)?;
    }
    Ok(())
}

// Adds the symbols that the scopes of a tree declare, in the order in which they are entered.
#[cycle(symbols)]
fn push_symbols(
    alloc: Global,
    usage: Use,
    node: &Node,
    found: &mut Numbers,
) -> Result<(), OutOfMemory>
    ensures { OnOk result (found.new ≡ found.old ++ symbol_numbers (declared usage node.now)) }
{
    let scopes = OpenScopes::of(alloc, usage, node)?;
    push_all_symbols(alloc, usage, node.shape(), scopes, node.children(), found)
}

#[cycle(symbols)]
fn push_all_symbols(
    alloc: Global,
    usage: Use,
    shape: &Shape,
    scopes: OpenScopes,
    nodes: &Nodes,
    found: &mut Numbers,
) -> Result<(), OutOfMemory>
    ensures { OnOk result (found.new ≡ found.old ++ symbol_numbers (declared_from (scope_at scopes) (use_at shape.now usage) 0 nodes.now)) }
{
    let mut scopes = scopes;
    for at in 0..nodes.len() {
        let scope = scopes.take(alloc, at);
        push_scope(scope.as_slice(), found)?;
        push_symbols(alloc, use_of(shape, usage, at), nodes.child(at), found)?;
    }
    Ok(())
}

/// The symbols that the scopes of a program declare, in the order in which the scopes are entered.
pub fn symbols_of(alloc: Global, program: &Program) -> Result<Numbers, OutOfMemory>
    ensures { IfOk result (λ found. found ≡ symbol_numbers (declared_symbols program.now)) }
{
    let mut found = Numbers::new(alloc);
    push_symbols(alloc, Use::Read, program, &mut found)?;
    Ok(found)
}
