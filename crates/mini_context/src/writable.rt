//! Which symbols a program mentions and lets be written.

ghost use Rattle.std.specs.Prelude.{◌≡◌, ℕ, ◌&&◌, not, nat_eq, ◌∷◌, [], IfOk, OnOk};
ghost use Rattle.mini_model.specs.Tree.{children};
ghost use Rattle.mini_node.specs.Children.{names, names_of};
ghost use Rattle.mini_laws.specs.Naming.{lets_all, summary, summaries};
ghost use Rattle.mini_laws.specs.Value.{variables};
ghost use Rattle.mini_context.specs.Tables.{mark_at};
ghost use Rattle.mini_context.specs.Holders.{class_place as class_place_of, declares_class as is_class_declared, forbidden_holder as forbidden_holder_of, forbidden_in, all_forbidden_in, held_by, class_at, lets_at, lets_holder as lets_holder_of, variables_in, all_variables_in, AllBelow, PutAll, TakenAll, Writables};

use crate::survey::mark_number;
use mini_model::{Name, OutOfMemory, Shape, SymbolId, UnaryOperator, VariableDeclarationKind};
use mini_node::{Node, Nodes};
use std::alloc::Global;

/// Whose names are meant, of those that a node and its children declare or bind.
#[derive(Clone, Copy)]
pub enum Holder {
    /// The node's own name.
    Itself,
    /// The names that its child at an index declares.
    At(usize),
    /// The names that its children declare.
    Every,
    /// The names that its first child declares, where that is a class.
    AClass,
    /// None of them.
    Nothing,
}

/// Where the class stands that a node declares, as a parent reads it.
#[derive(Clone, Copy)]
pub enum ClassPlace {
    /// The node is the class.
    Here,
    /// The node's first child is the class.
    First,
    /// The node declares no class.
    Nowhere,
}

// ---- what is mentioned

// The table grows where it must.
fn put_name(marks: &mut Vec<bool>, name: &Name) -> Result<(), OutOfMemory>
    ensures { OnOk result (PutAll (variables (name.now ∷ [])) marks.old.items marks.new.items) }
{
    match name.symbol {
        Some(symbol) => mark_number(marks, symbol.0, true),
        None => Ok(()),
    }
}

fn put_own_name(marks: &mut Vec<bool>, name: &Option<Name>) -> Result<(), OutOfMemory>
    ensures { OnOk result (PutAll (variables (names name.now)) marks.old.items marks.new.items) }
{
    match name {
        Some(name) => put_name(marks, name),
        None => Ok(()),
    }
}

#[cycle(putting)]
fn put_node(marks: &mut Vec<bool>, node: &Node) -> Result<(), OutOfMemory>
    ensures { OnOk result (PutAll (variables_in node.now) marks.old.items marks.new.items) }
{
    put_own_name(marks, node.name())?;
    put_children(marks, node)
}

#[cycle(putting)]
fn put_children(marks: &mut Vec<bool>, node: &Node) -> Result<(), OutOfMemory>
    ensures { OnOk result (PutAll (all_variables_in (children node.now)) marks.old.items marks.new.items) }
{
    let nodes = node.children();
    for at in 0..nodes.len() {
        put_node(marks, nodes.child(at))?;
    }
    Ok(())
}

// ---- what is declared

/// Whose names a node of this shape declares in the scope around it, or binds. (ECMA-262,
/// "BoundNames", "LexicallyDeclaredNames".)
fn lets_holder(shape: &Shape) -> Holder
    ensures { result ≡ lets_holder_of shape.now }
{
    match shape {
        Shape::BindingIdentifier => Holder::Itself,
        Shape::UnaryExpression(UnaryOperator::LogicalNot)
        | Shape::AssignmentPattern
        | Shape::VariableDeclarator
        | Shape::Class(true)
        | Shape::ExportNamedDeclaration => Holder::At(0),
        Shape::VariableDeclaration(VariableDeclarationKind::Var) => Holder::Nothing,
        Shape::VariableDeclaration(_) => Holder::At(0),
        Shape::Listed
        | Shape::ObjectPattern
        | Shape::ArrayPattern
        | Shape::BindingProperty(..)
        | Shape::RestElement
        | Shape::SwitchCase => Holder::Every,
        Shape::ExportDefaultDeclaration => Holder::AClass,
        _ => Holder::Nothing,
    }
}

/// Whose names can't be written that a node of this shape declares. (ECMA-262,
/// "CreateImmutableBinding".)
fn forbidden_holder(shape: &Shape) -> Holder
    ensures { result ≡ forbidden_holder_of shape.now }
{
    match shape {
        Shape::VariableDeclaration(VariableDeclarationKind::Const)
        | Shape::Function(false, ..)
        | Shape::Class(false)
        | Shape::ImportDefaultSpecifier
        | Shape::ImportNamespaceSpecifier => Holder::At(0),
        Shape::Class(true) => Holder::At(3),
        Shape::ImportSpecifier => Holder::Every,
        _ => Holder::Nothing,
    }
}

// Where a node of this shape has a class that is declared, as a parent reads it.
fn class_place(shape: &Shape) -> ClassPlace
    ensures { result ≡ class_place_of shape.now }
{
    match shape {
        Shape::Class(true) => ClassPlace::Here,
        Shape::UnaryExpression(UnaryOperator::LogicalNot) => ClassPlace::First,
        _ => ClassPlace::Nowhere,
    }
}

// Whether a parent reads of the node that it declares a class.
fn declares_class(node: &Node) -> bool
    ensures { result ≡ is_class_declared node.now }
{
    let nodes = node.children();
    match class_place(node.shape()) {
        ClassPlace::Here => true,
        ClassPlace::First => match nodes.get(0) {
            Some(first) => declares_class(first),
            None => false,
        },
        ClassPlace::Nowhere => false,
    }
}

fn take_symbol(marks: &mut Vec<bool>, symbol: SymbolId)
    ensures { (s : ℕ) → mark_at marks.new.items s ≡ (mark_at marks.old.items s && not (nat_eq symbol.0 s)) }
{
    let at = symbol.0 as usize;
    if at < marks.len() {
        marks[at] = false;
    }
}

fn take_name(marks: &mut Vec<bool>, name: &Name)
    ensures { TakenAll (variables (name.now ∷ [])) marks.old.items marks.new.items }
{
    if let Some(symbol) = name.symbol {
        take_symbol(marks, symbol);
    }
}

fn take_own_name(marks: &mut Vec<bool>, name: &Option<Name>)
    ensures { TakenAll (variables (names name.now)) marks.old.items marks.new.items }
{
    if let Some(name) = name {
        take_name(marks, name);
    }
}

#[cycle(taking)]
fn take_lets(marks: &mut Vec<bool>, node: &Node)
    ensures { TakenAll (summary node.now).lets marks.old.items marks.new.items }
{
    take_held(marks, lets_holder(node.shape()), node);
}

#[cycle(taking)]
fn take_held(marks: &mut Vec<bool>, holder: Holder, node: &Node)
    ensures { TakenAll (held_by holder (variables (names_of node.now)) (children node.now)) marks.old.items marks.new.items }
{
    match holder {
        Holder::Itself => take_own_name(marks, node.name()),
        Holder::At(at) => take_at(marks, node.children(), at),
        Holder::Every => take_all(marks, node.children()),
        Holder::AClass => take_class(marks, node.children()),
        Holder::Nothing => {}
    }
}

#[cycle(taking)]
fn take_at(marks: &mut Vec<bool>, nodes: &Nodes, at: usize)
    ensures { TakenAll (lets_at nodes.now at) marks.old.items marks.new.items }
{
    if let Some(node) = nodes.get(at) {
        take_lets(marks, node);
    }
}

#[cycle(taking)]
fn take_class(marks: &mut Vec<bool>, nodes: &Nodes)
    ensures { TakenAll (class_at nodes.now) marks.old.items marks.new.items }
{
    if let Some(node) = nodes.get(0) {
        if declares_class(node) {
            take_lets(marks, node);
        }
    }
}

#[cycle(taking)]
fn take_all(marks: &mut Vec<bool>, nodes: &Nodes)
    ensures { TakenAll (lets_all (summaries nodes.now)) marks.old.items marks.new.items }
{
    for at in 0..nodes.len() {
        take_lets(marks, nodes.child(at));
    }
}

#[cycle(forbidding)]
fn take_forbidden(marks: &mut Vec<bool>, node: &Node)
    ensures { TakenAll (forbidden_in node.now) marks.old.items marks.new.items }
{
    take_held(marks, forbidden_holder(node.shape()), node);
    take_all_forbidden(marks, node.children());
}

#[cycle(forbidding)]
fn take_all_forbidden(marks: &mut Vec<bool>, nodes: &Nodes)
    ensures { TakenAll (all_forbidden_in nodes.now) marks.old.items marks.new.items }
{
    for at in 0..nodes.len() {
        take_forbidden(marks, nodes.child(at));
    }
}

/// Sets, by symbol, whether a program mentions it and lets it be written. The answer is a number
/// above each symbol that the program mentions. After `OutOfMemory` the marks are fit only to be
/// dropped.
pub fn mark_writable(
    alloc: Global,
    marks: &mut Vec<bool>,
    program: &Node,
) -> Result<usize, OutOfMemory>
    ensures marks { OnOk result (Writables program.now marks.new.items) }
    ensures room { IfOk result (λ room. AllBelow room program.now) }
{
    *marks = Vec::new(alloc);
    put_node(marks, program)?;
    let room = marks.len();
    take_forbidden(marks, program);
    Ok(room)
}
