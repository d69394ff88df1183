//! The code of a body: its number, what is declared in it, and what of that before a place in it.

ghost use Rattle.std.specs.Prelude.{◌≡◌, ◌∷◌, [], ◌++◌, length, take, OnOk, IfOk};
ghost use Rattle.mini_node.specs.Children.{names, names_of};
ghost use Rattle.mini_steady.specs.Declarations.{declared_among, declared_in, is_listed as is_listed_in, is_listed_twice as is_listed_twice_in, begun_by, known_of, lets_if, own_symbols, symbols_of};
ghost use Rattle.mini_steady.specs.Own.{BeginsBesides};
ghost use Rattle.mini_rows.specs.Past as reading;
ghost use Rattle.mini_rows.specs.Steady.{nothing_begun};
ghost use Rattle.mini_model.specs.Tree.{shape_of};
ghost use Rattle.mini_laws.specs.Value.{Declared};

use crate::bindings::is_binding;
use crate::lets::push_lets;
use crate::steady::SteadyNames;
use mini_model::{Name, OutOfMemory, SymbolId};
use mini_node::{Node, Nodes};
use std::alloc::Global;

/// What rows in a body ask: of which body, and which symbols are declared in its code.
#[derive(Drop)]
pub struct BodyCode {
    /// The number of the body.
    pub number: u32,
    /// The symbols that are declared in the code of the body.
    pub declared: Vec<SymbolId>,
    /// The symbols that were declared before the place in it, and have their values there.
    pub begun: Vec<SymbolId>,
    /// Whether the place is the list of a `let` or a `const`, or stands in an export.
    pub in_lexical: bool,
}

// Adds a symbol.
fn push_symbol(symbols: &mut Vec<SymbolId>, symbol: SymbolId) -> Result<(), OutOfMemory>
    ensures { OnOk result (symbols.new.items ≡ symbols.old.items ++ symbol ∷ []) }
{
    match symbols.push(symbol) {
        Ok(()) => Ok(()),
        Err(_) => Err(OutOfMemory),
    }
}

/// Adds the symbol of a name, if it has one.
pub fn push_name(symbols: &mut Vec<SymbolId>, name: &Option<Name>) -> Result<(), OutOfMemory>
    ensures { OnOk result (symbols.new.items ≡ symbols.old.items ++ symbols_of (names name.now)) }
{
    match name {
        Some(name) => match name.symbol {
            Some(symbol) => push_symbol(symbols, symbol),
            None => Ok(()),
        },
        None => Ok(()),
    }
}

// Adds the symbol that a node declares itself.
fn push_own(symbols: &mut Vec<SymbolId>, node: &Node) -> Result<(), OutOfMemory>
    ensures { OnOk result (symbols.new.items ≡ symbols.old.items ++ own_symbols (reading.is_binding (shape_of node.now)) (names_of node.now)) }
{
    if is_binding(node.shape()) {
        push_name(symbols, node.name())
    } else {
        Ok(())
    }
}

// Adds the symbols that are declared in a tree.
#[cycle(declarations)]
fn push_declared(symbols: &mut Vec<SymbolId>, node: &Node) -> Result<(), OutOfMemory>
    ensures { OnOk result (symbols.new.items ≡ symbols.old.items ++ declared_in node.now) }
{
    push_own(symbols, node)?;
    push_all(symbols, node.children())
}

// Adds those that are declared in these trees.
#[cycle(declarations)]
fn push_all(symbols: &mut Vec<SymbolId>, nodes: &Nodes) -> Result<(), OutOfMemory>
    ensures { OnOk result (symbols.new.items ≡ symbols.old.items ++ declared_among nodes.now) }
{
    for node in nodes.as_slice() {
        push_declared(symbols, node)?;
    }
    Ok(())
}

/// The code of the body with this number, as it starts. The only error is that memory runs out.
#[tactic(auto, using(crate::proofs::Declaring::none_begun))]
pub fn code_of(alloc: Global, number: u32, node: &Node) -> Result<BodyCode, OutOfMemory>
    ensures number { IfOk result (λ code. code.number ≡ number) }
    ensures declared { IfOk result (λ code. code.declared.items ≡ declared_in node.now) }
    ensures begun { IfOk result (λ code. begun_by code ≡ nothing_begun) }
{
    let mut declared = Vec::new(alloc);
    push_declared(&mut declared, node)?;
    let begun = Vec::new(alloc);
    Ok(BodyCode {
        number,
        declared,
        begun,
        in_lexical: false,
    })
}

/// Adds to what is initialised at the place in the code what a node declares in the scope around
/// it, where that is asked. The only error is that memory runs out.
pub fn push_begun(code: &mut BodyCode, is_asked: bool, node: &Node) -> Result<(), OutOfMemory>
    ensures { OnOk result (BeginsBesides (lets_if is_asked node.now) code.old code.new) }
{
    if is_asked {
        push_lets(&mut code.begun, node)
    } else {
        Ok(())
    }
}

/// How many symbols were declared before the place in the code.
pub fn begun_count(code: &BodyCode) -> usize
    ensures { result ≡ length code.now.begun.items }
{
    code.begun.as_slice().len()
}

/// Whether the place is the list of a `let` or a `const`, or stands in an export.
pub fn is_in_lexical(code: &BodyCode) -> bool
    ensures { result ≡ code.now.in_lexical }
{
    code.in_lexical
}

/// Goes down to the children of a node. The flag says whether they are the list of a `let` or a
/// `const`, or stand in an export.
pub fn enter_children(code: &mut BodyCode, in_lexical: bool)
    ensures number { code.new.number ≡ code.old.number }
    ensures declared { code.new.declared.items ≡ code.old.declared.items }
    ensures begun { code.new.begun.items ≡ code.old.begun.items }
    ensures in_lexical { code.new.in_lexical ≡ in_lexical }
{
    code.in_lexical = in_lexical;
}

/// Goes back up to a node: that many symbols are left that were declared before the place. The flag
/// says whether the node is the list of a `let` or a `const`, or stands in an export.
pub fn leave_children(code: &mut BodyCode, count: usize, in_lexical: bool)
    ensures number { code.new.number ≡ code.old.number }
    ensures declared { code.new.declared.items ≡ code.old.declared.items }
    ensures begun { code.new.begun.items ≡ take count code.old.begun.items }
    ensures in_lexical { code.new.in_lexical ≡ in_lexical }
{
    code.begun.truncate(count);
    code.in_lexical = in_lexical;
}

// Whether a symbol is among these.
fn is_listed(symbol: SymbolId, symbols: &[SymbolId]) -> bool
    ensures { result ≡ is_listed_in symbol.0 symbols.now }
{
    match symbols {
        [first, rest @ ..] => first.0 == symbol.0 || is_listed(symbol, rest),
        [] => false,
    }
}

// Whether it is among them twice.
fn is_listed_twice(symbol: SymbolId, symbols: &[SymbolId]) -> bool
    ensures { result ≡ is_listed_twice_in symbol.0 symbols.now }
{
    match symbols {
        [first, rest @ ..] => {
            if first.0 == symbol.0 {
                is_listed(symbol, rest)
            } else {
                is_listed_twice(symbol, rest)
            }
        }
        [] => false,
    }
}

/// Whether the symbol has its value at the place in the code: statements before have declared it,
/// and nothing else in the code does, or it has its value throughout the code.
pub fn is_initialised<S: SteadyNames>(symbol: SymbolId, code: &BodyCode, steady: &S) -> bool
    ensures { result ≡ (known_of (S.sets steady.now) code.now).initial (Declared symbol.0) }
{
    is_listed(symbol, &code.begun) && !is_listed_twice(symbol, &code.declared)
        || steady.is_initial(symbol, code.number) && !is_listed(symbol, &code.declared)
}
