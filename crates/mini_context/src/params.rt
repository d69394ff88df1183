//! In the parameters of which functions a body stands, and a variable is bound.

ghost use Rattle.std.specs.Prelude.{◌≡◌, ℕ, ◌<◌, [], ◌∷◌, false, length, replicate, IfOk, OnOk};
ghost use Rattle.std.specs.List.{list_any};
ghost use Rattle.mini_model.specs.Tree.{children, shape_of};
ghost use Rattle.mini_context.specs.Enclosing.{all_numbers_in, is_around as is_around_in, numbers_in, own_params, Enclosed, PutNames, PutNumbers};
ghost use Rattle.mini_context.specs.Lists.{holds};

use crate::catching::names_in;
use crate::lists::{holds_number, no_lists, put_number};
use mini_laws::Declared;
use mini_model::{Name, OutOfMemory, OwnedList, Shape};
use mini_node::{Node, Nodes};
use std::alloc::Global;

/// The functions so far: each has a number of its own, in the order in which they were come to.
#[derive(Drop)]
pub struct Params {
    /// The number of the next function.
    pub next: u32,
    /// The functions whose parameters bind each symbol.
    pub by_symbol: Vec<OwnedList<u32>>,
    /// The functions in whose parameters a node with each number stands.
    pub by_number: Vec<OwnedList<u32>>,
}

/// Tables of no function and no symbol.
pub fn empty_params(alloc: Global) -> Params {
    Params {
        next: 0,
        by_symbol: Vec::new(alloc),
        by_number: Vec::new(alloc),
    }
}

/// Tables of no function and that many symbols. The only error is that memory runs out.
pub fn no_params(alloc: Global, symbols: u32) -> Result<Params, OutOfMemory>
    ensures symbols { IfOk result (λ params. params.by_symbol.items ≡ replicate symbols []) }
    ensures numbers { IfOk result (λ params. params.by_number.items ≡ []) }
{
    Ok(Params {
        next: 0,
        by_symbol: no_lists(alloc, symbols)?,
        by_number: Vec::new(alloc),
    })
}

/// Makes a table longer, until there is a list at an index.
fn reach_list(alloc: Global, lists: &mut Vec<OwnedList<u32>>, at: usize) -> Result<(), OutOfMemory>
    ensures same { OnOk result ((b : ℕ) (j : ℕ) → holds lists.new.items b j ≡ holds lists.old.items b j) }
    ensures within { OnOk result (at < length lists.new.items) }
{
    'reaching: while lists.len() <= at {
        match lists.push(OwnedList::new(alloc)) {
            Ok(()) => {}
            Err(_) => return Err(OutOfMemory),
        }
    }
    Ok(())
}

/// Puts a function into the list of a number. The only error is that memory runs out.
pub fn put_own(
    alloc: Global,
    lists: &mut Vec<OwnedList<u32>>,
    number: u32,
    function: u32,
) -> Result<(), OutOfMemory>
    ensures { OnOk result (PutNumbers function (number ∷ []) lists.old.items lists.new.items) }
{
    reach_list(alloc, lists, number as usize)?;
    put_number(lists, number, function)
}

/// Puts a function into the lists of the numbers in a tree.
#[cycle(numbers)]
fn put_numbers(
    alloc: Global,
    lists: &mut Vec<OwnedList<u32>>,
    node: &Node,
    function: u32,
) -> Result<(), OutOfMemory>
    ensures { OnOk result (PutNumbers function (numbers_in node.now) lists.old.items lists.new.items) }
{
    put_own(alloc, lists, node.number(), function)?;
    put_all_numbers(alloc, lists, node.children(), function)
}

#[cycle(numbers)]
fn put_all_numbers(
    alloc: Global,
    lists: &mut Vec<OwnedList<u32>>,
    nodes: &Nodes,
    function: u32,
) -> Result<(), OutOfMemory>
    ensures { OnOk result (PutNumbers function (all_numbers_in nodes.now) lists.old.items lists.new.items) }
{
    for at in 0..nodes.len() {
        put_numbers(alloc, lists, nodes.child(at), function)?;
    }
    Ok(())
}

fn put_name(lists: &mut Vec<OwnedList<u32>>, name: &Name, function: u32) -> Result<(), OutOfMemory>
    ensures { OnOk result (PutNames function (name.now ∷ []) lists.old.items lists.new.items) }
{
    match name.symbol {
        Some(symbol) => put_number(lists, symbol.0, function),
        None => Ok(()),
    }
}

fn put_names(
    lists: &mut Vec<OwnedList<u32>>,
    names: &[Name],
    function: u32,
) -> Result<(), OutOfMemory>
    ensures { OnOk result (PutNames function names.now lists.old.items lists.new.items) }
{
    for name in names {
        put_name(lists, name, function)?;
    }
    Ok(())
}

fn add_params(alloc: Global, params: &mut Params, node: &Node) -> Result<(), OutOfMemory>
    ensures { OnOk result (Enclosed (node.now ∷ []) params.old params.new) }
{
    let function = params.next;
    let Some(next) = function.checked_add(1) else {
        return Err(OutOfMemory);
    };
    params.next = next;
    let names = names_in(alloc, Declared::Bound, node)?;
    put_names(&mut params.by_symbol, names.as_slice(), function)?;
    put_numbers(alloc, &mut params.by_number, node, function)
}

/// Adds a function to the tables, where the node is one. The only error is that memory runs out.
pub fn enclose(alloc: Global, params: &mut Params, node: &Node) -> Result<(), OutOfMemory>
    ensures { OnOk result (Enclosed (own_params (shape_of node.now) (children node.now)) params.old params.new) }
{
    match node.shape() {
        Shape::Function(..) => match node.parts() {
            [_id, list, ..] => add_params(alloc, params, list),
            _ => Ok(()),
        },
        Shape::ArrowFunctionExpression(_) => match node.parts() {
            [list, ..] => add_params(alloc, params, list),
            [] => Ok(()),
        },
        _ => Ok(()),
    }
}

/// Whether the body with a number stands in the parameters of a function whose parameters bind a
/// symbol.
pub fn is_around(params: &Params, symbol: u32, body: u32) -> bool
    ensures { result ≡ is_around_in params.now.by_symbol.items params.now.by_number.items symbol body }
{
    match params.by_symbol.get(symbol as usize) {
        Some(functions) => is_any_around(params, functions.as_slice(), body),
        None => false,
    }
}

fn is_any_around(params: &Params, functions: &[u32], body: u32) -> bool
    ensures { result ≡ list_any (λ k. holds params.now.by_number.items body k) functions.now }
{
    for function in functions {
        if holds_number(params.by_number.as_slice(), body, *function) {
            return true;
        }
    }
    false
}
