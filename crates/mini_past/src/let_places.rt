//! The first place at which each symbol is declared in the declarators of a statement and in the
//! statements before it: found once, so that the list isn't gone through for each name. The place
//! is 0 in a statement, 1 in the first declarator, and so on.

ghost use Rattle.std.specs.Prelude.{◌≡◌, ◌+◌, ◌<◌, ◌≤◌, ◌^◌, ◌&&◌, not, nat_eq, true, IfOk, IfSome, OnOk};
ghost use Rattle.mini_model.specs.Tree.{children, count, shape_of};
ghost use Rattle.mini_node.specs.Children.{first_children, names_of};
ghost use Rattle.mini_rows.specs.Past as reading;
ghost use Rattle.mini_unused.specs.RemoveUnusedDeclaration.{is_free_at};
ghost use Rattle.mini_past.specs.LetPlaces as row;
ghost use Rattle.mini_past.specs.LetPlaces.{Marked, Nowhere, Tells, Told, ToldFirst, ToldOfAll};

use crate::lets::is_let;
use mini_model::{OutOfMemory, Shape, SymbolId};
use mini_node::{Node, Nodes};
use mini_steady::any_bind;
use mini_unused::{declares_list, is_childless, is_declarator, is_lexical};
use std::alloc::Global;
use std::collections::BTreeMap;

/// For each symbol the first place at which it is declared in the declarators of a statement and
/// the statements before it.
#[derive(Drop)]
pub struct FirstPlaces {
    /// The first place at which the symbol is declared.
    pub bound: BTreeMap<u32, usize>,
    /// The first place at which the symbol is declared by anything but a declarator of a `let` or a
    /// `const` that has it as its only name.
    pub hidden: BTreeMap<u32, usize>,
}

/// What the statements of a list declare.
#[derive(Drop)]
pub struct LetPlaces {
    /// The first places in one of the statements and those before it, where that is looked at.
    pub first: Option<FirstPlaces>,
    /// The place 0 for each symbol that any statement of the list declares.
    pub all: BTreeMap<u32, usize>,
}

// Whether the symbol has a place up to this one.
fn reaches(places: &BTreeMap<u32, usize>, symbol: u32, place: usize) -> bool
    ensures { result ≡ row.reaches places.now symbol place }
{
    match places.get(&symbol) {
        Some(first) => *first <= place,
        None => false,
    }
}

// Puts the symbol at the place where it has none before.
fn mark(places: &mut BTreeMap<u32, usize>, symbol: u32, place: usize) -> Result<(), OutOfMemory>
    ensures { OnOk result (Marked (nat_eq symbol) place places.old places.new) }
{
    if reaches(places, symbol, place) {
        return Ok(());
    }
    match places.insert(symbol, place) {
        Ok(_) => Ok(()),
        Err(_) => Err(OutOfMemory),
    }
}

// Whether a node of this shape declares a name.
fn is_binding(shape: &Shape) -> bool
    ensures { result ≡ reading.is_binding shape.now }
{
    matches!(shape, Shape::BindingIdentifier)
}

// Marks what the node itself declares.
fn mark_own(places: &mut BTreeMap<u32, usize>, node: &Node, place: usize) -> Result<(), OutOfMemory>
    ensures { OnOk result (Marked (λ k. reading.is_binding (shape_of node.now) && reading.has_symbol k (names_of node.now)) place places.old places.new) }
{
    if !is_binding(node.shape()) {
        return Ok(());
    }
    match node.name() {
        Some(name) => match name.symbol {
            Some(symbol) => mark(places, symbol.0, place),
            None => Ok(()),
        },
        None => Ok(()),
    }
}

// Marks each name that the node declares, at any depth.
#[cycle(marking)]
fn mark_names(
    places: &mut BTreeMap<u32, usize>,
    node: &Node,
    place: usize,
) -> Result<(), OutOfMemory>
    ensures { OnOk result (Marked (λ k. reading.binds k node.now) place places.old places.new) }
{
    mark_own(places, node, place)?;
    mark_all(places, node.children(), place)
}

// Marks each name that any of the nodes declares, at any depth.
#[cycle(marking)]
fn mark_all(
    places: &mut BTreeMap<u32, usize>,
    nodes: &Nodes,
    place: usize,
) -> Result<(), OutOfMemory>
    ensures { OnOk result (Marked (λ k. reading.any_bind k nodes.now) place places.old places.new) }
{
    for at in 0..nodes.len() {
        mark_names(places, nodes.child(at), place)?;
    }
    Ok(())
}

// Whether the node declares one plain name.
fn is_plain_name(node: &Node) -> bool
    ensures { result ≡ row.is_plain_name node.now }
{
    is_binding(node.shape()) && (node.name().is_some() && is_childless(node))
}

// Whether the declarator is `y = v` with a plain name.
fn is_plain(declarator: &Node) -> bool
    ensures kind { result ≡ row.is_plain declarator.now }
    ensures parts { result ≡ true → count (children declarator.now) ≡ 2 }
{
    is_declarator(declarator) && is_plain_name(declarator.child(0))
}

// Marks each name that the declarator declares but as the plain name of a `let` or a `const`.
fn mark_hidden(
    places: &mut BTreeMap<u32, usize>,
    is_lexical: bool,
    declarator: &Node,
    place: usize,
) -> Result<(), OutOfMemory>
    ensures { OnOk result (Marked (λ k. not (reading.lets_at_most is_lexical k declarator.now)) place places.old places.new) }
{
    if is_lexical && is_plain(declarator) {
        return mark_names(places, declarator.child(1), place);
    }
    mark_names(places, declarator, place)
}

// Marks each name that one of the declarators declares but as the plain name of a `let` or a
// `const`.
fn mark_all_hidden(
    places: &mut BTreeMap<u32, usize>,
    is_lexical: bool,
    declarators: &Nodes,
) -> Result<(), OutOfMemory>
    ensures { OnOk result (Marked (λ k. not (reading.all_of (reading.lets_at_most is_lexical k) declarators.now)) 0 places.old places.new) }
{
    for at in 0..declarators.len() {
        mark_hidden(places, is_lexical, declarators.child(at), 0)?;
    }
    Ok(())
}

// Marks each name that the statement declares but as the plain name of a `let` or a `const`.
fn mark_hidden_here(places: &mut BTreeMap<u32, usize>, statement: &Node) -> Result<(), OutOfMemory>
    ensures { OnOk result (Marked (λ k. not (reading.lets_here k statement.now)) 0 places.old places.new) }
{
    if !declares_list(statement) {
        return mark_names(places, statement, 0);
    }
    let is_lexical = is_lexical(statement.shape());
    mark_all_hidden(places, is_lexical, statement.child(0).children())
}

// Marks each name that the statement declares; where `by_let` is set, plain names of a `let` or a
// `const` aside.
fn mark_here(
    by_let: bool,
    places: &mut BTreeMap<u32, usize>,
    statement: &Node,
) -> Result<(), OutOfMemory>
    ensures { OnOk result (Marked (λ k. not (row.passes_here by_let k statement.now)) 0 places.old places.new) }
{
    if by_let {
        mark_hidden_here(places, statement)
    } else {
        mark_names(places, statement, 0)
    }
}

// Marks each name that the declarator declares; where `by_let` is set, the plain name of a `let` or
// a `const` aside.
fn mark_there(
    by_let: bool,
    places: &mut BTreeMap<u32, usize>,
    is_lexical: bool,
    declarator: &Node,
    place: usize,
) -> Result<(), OutOfMemory>
    ensures { OnOk result (Marked (λ k. not (row.passes_there by_let is_lexical k declarator.now)) place places.old places.new) }
{
    if by_let {
        mark_hidden(places, is_lexical, declarator, place)
    } else {
        mark_names(places, declarator, place)
    }
}

// Marks the names of all statements before the index, by `mark_here`.
fn mark_statements(
    by_let: bool,
    places: &mut BTreeMap<u32, usize>,
    statements: &Nodes,
    end: usize,
) -> Result<(), OutOfMemory>
    requires { end ≤ count statements.now }
    ensures { OnOk result (Marked (λ k. not (reading.all_of (row.passes_here by_let k) (first_children end statements.now))) 0 places.old places.new) }
{
    for at in 0..end {
        mark_here(by_let, places, statements.child(at))?;
    }
    Ok(())
}

// Marks the names of all declarators, each at its place, by `mark_there`.
fn mark_declarators(
    by_let: bool,
    places: &mut BTreeMap<u32, usize>,
    is_lexical: bool,
    declarators: &Nodes,
) -> Result<(), OutOfMemory>
    requires { count declarators.now + 1 < 2 ^ 64 }
    ensures { OnOk result (row.Placed by_let is_lexical declarators.now (count declarators.now) places.old places.new) }
{
    for at in 0..declarators.len() {
        mark_there(by_let, places, is_lexical, declarators.child(at), at + 1)?;
    }
    Ok(())
}

// The first places of the names of the statements before the index and of the declarators.
fn places_by(
    alloc: Global,
    by_let: bool,
    statements: &Nodes,
    end: usize,
    is_lexical: bool,
    declarators: &Nodes,
) -> Result<BTreeMap<u32, usize>, OutOfMemory>
    requires end { end ≤ count statements.now }
    requires fits { count declarators.now + 1 < 2 ^ 64 }
    ensures { IfOk result (λ places. Tells by_let is_lexical places (first_children end statements.now) declarators.now (count declarators.now)) }
{
    let mut places = BTreeMap::new(alloc);
    mark_statements(by_let, &mut places, statements, end)?;
    mark_declarators(by_let, &mut places, is_lexical, declarators)?;
    Ok(places)
}

// The place 0 for each name that any of the statements declares.
fn all_places(alloc: Global, statements: &Nodes) -> Result<BTreeMap<u32, usize>, OutOfMemory>
    ensures { IfOk result (λ places. Nowhere places statements.now) }
{
    let mut places = BTreeMap::new(alloc);
    mark_all(&mut places, statements, 0)?;
    Ok(places)
}

/// The first places of the names that the declarators of the statement at the index, and the
/// statements before it, declare; `OutOfMemory` where a table can't grow.
pub fn first_places(
    alloc: Global,
    statements: &Nodes,
    at: usize,
    declarators: &Nodes,
) -> Result<FirstPlaces, OutOfMemory>
    requires statement { at < count statements.now }
    requires fits { count declarators.now + 1 < 2 ^ 64 }
    ensures { IfOk result (λ first. ToldFirst first statements.now at declarators.now (count declarators.now)) }
{
    let is_free = is_lexical(statements.child(at).shape());
    let bound = places_by(alloc, false, statements, at, is_free, declarators)?;
    let hidden = places_by(alloc, true, statements, at, is_free, declarators)?;
    Ok(FirstPlaces { bound, hidden })
}

/// What the statements of a list declare, with the first places in none of them; `None` where the
/// table can't grow.
pub fn list_places(alloc: Global, statements: &Nodes) -> Option<LetPlaces>
    ensures { ToldOfAll result statements.now }
{
    match all_places(alloc, statements) {
        Ok(all) => Some(LetPlaces { first: None, all }),
        Err(_) => None,
    }
}

// Whether a declarator before the place, or a statement before theirs, has initialised the name,
// and no scope in them hides it: by the first places where they are known, else by going through
// the list.
#[tactic(auto, using(crate::proofs::FirstPlaces::let_told))]
fn is_let_first(
    symbol: SymbolId,
    statements: &Nodes,
    at: usize,
    declarators: &Nodes,
    which: usize,
    first: &Option<FirstPlaces>,
) -> bool
    requires statement { at < count statements.now }
    requires declarator { which < count declarators.now }
    requires told { IfSome first.now (λ f. ToldFirst f statements.now at declarators.now which) }
    ensures { result ≡ reading.is_let symbol.0 (first_children at statements.now) (is_free_at statements.now at) (first_children which declarators.now) }
{
    match first {
        Some(first) => {
            reaches(&first.bound, symbol.0, which) && !reaches(&first.hidden, symbol.0, which)
        }
        None => is_let(symbol, statements, at, declarators, which),
    }
}

/// Whether a declarator before the place, or a statement before theirs, has initialised the name,
/// and no scope in them hides it: by the tables where there are some, else by going through the
/// list.
#[tactic(auto, using(crate::proofs::FirstPlaces::first_told))]
pub fn is_let_by(
    symbol: SymbolId,
    statements: &Nodes,
    at: usize,
    declarators: &Nodes,
    which: usize,
    lets: &Option<LetPlaces>,
) -> bool
    requires statement { at < count statements.now }
    requires declarator { which < count declarators.now }
    requires told { IfSome lets.now (λ m. Told m statements.now at declarators.now which) }
    ensures { result ≡ reading.is_let symbol.0 (first_children at statements.now) (is_free_at statements.now at) (first_children which declarators.now) }
{
    match lets {
        Some(lets) => is_let_first(symbol, statements, at, declarators, which, &lets.first),
        None => is_let(symbol, statements, at, declarators, which),
    }
}

/// Whether one of the statements declares the name, by the table where there is one.
pub fn is_bound_in(symbol: SymbolId, statements: &Nodes, lets: &Option<LetPlaces>) -> bool
    requires { IfSome lets.now (λ m. Nowhere m.all statements.now) }
    ensures { result ≡ reading.any_bind symbol.0 statements.now }
{
    match lets {
        Some(lets) => reaches(&lets.all, symbol.0, 0) && any_bind(symbol, statements),
        None => any_bind(symbol, statements),
    }
}
