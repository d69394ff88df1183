//! What can't be printed: names that are reserved words, texts that can't stand in a program, and
//! parts that stand together in no text.

ghost use Rattle.std.specs.Prelude.{◌≡◌, ◌+◌, ◌++◌, ◌∷◌, [], true, false, ◌&&◌, not, reverse, IfOk, OnOk, IfErr, None, Some, option_map};
ghost use Rattle.mini_model.specs.Paths.{child_at, width, is_node as is_it_node};
ghost use Rattle.mini_model.specs.Tree.{shape_of, children};
ghost use Rattle.mini_node.specs.Children.{names, names_of, trees_of};
ghost use Rattle.mini_print.specs.Grammar as grammar;
ghost use Rattle.mini_print.specs.Unprintable as unprintable;
ghost use Rattle.mini_faults.specs.Faults as faults;

use crate::error::PrintError;
use mini_model::{MethodDefinitionKind, Name, Numbers, OutOfMemory, PropertyKind, Shape};
use mini_node::{Node, Nodes};
use mini_tokens::{are_directives, is_raw, is_regular_expression, is_reserved};
use std::alloc::Global;

/// Why a node can't be printed.
#[derive(Clone, Copy)]
pub enum Cause {
    /// It is an identifier that reads, writes, binds or labels, and a reserved word.
    Reserved,
    /// It has a text that can't stand in a program, or parts that stand together in no text: an
    /// import whose default isn't first or whose namespace has another name beside it, an accessor
    /// that is a generator, or an object that is assigned to and whose rest is a pattern.
    BadText,
}

/// A node that can't be printed.
#[derive(Drop)]
pub struct Fault {
    /// Its path: at each node from the program on, the place of the next among the nodes of ESTree
    /// below it.
    pub at: Numbers,
    /// Why it can't be printed.
    pub cause: Cause,
}

// A node that can't be printed, with its path from the node back to where the search began.
#[derive(Drop)]
struct Found {
    back: Numbers,
    cause: Cause,
}

// How far a search came: past these nodes, to the place behind them; or to a node that can't be
// printed.
#[derive(Drop)]
enum Sought {
    Past(u32),
    At(Found),
}

// ---- a node's own cause

fn is_named_reserved(name: &Option<Name>) -> bool
    ensures { result ≡ faults.is_named_reserved (names name.now) }
{
    match name {
        Some(name) => is_reserved(name.spelling.as_slice()),
        None => false,
    }
}

fn is_reserved_name(node: &Node, label: bool) -> bool
    ensures { result ≡ unprintable.is_reserved_name label (shape_of node.now) (names_of node.now) }
{
    match node.shape() {
        Shape::Identifier | Shape::BindingIdentifier => is_named_reserved(node.name()),
        Shape::IdentifierName(text) => label && is_reserved(text.as_slice()),
        _ => false,
    }
}

fn is_raw_piece(piece: &Node) -> bool
    ensures { result ≡ unprintable.is_raw_piece piece.now }
{
    match piece.shape() {
        Shape::TemplateElement(_, raw, _) => is_raw(raw.text().as_slice()),
        _ => true,
    }
}

#[tactic(auto, using(crate::proofs::Scans::pieces_go_on, crate::proofs::Scans::pieces_stop, crate::proofs::Scans::pieces_end))]
fn are_raw(pieces: &[Node]) -> bool
    ensures { result ≡ unprintable.are_raw (trees_of pieces.now) }
{
    for piece in pieces {
        if !is_raw_piece(piece) {
            return false;
        }
    }
    true
}

fn is_default(specifier: &Node) -> bool
    ensures { result ≡ unprintable.is_default specifier.now }
{
    matches!(specifier.shape(), Shape::ImportDefaultSpecifier)
}

fn is_namespace(specifier: &Node) -> bool
    ensures { result ≡ unprintable.is_namespace specifier.now }
{
    matches!(specifier.shape(), Shape::ImportNamespaceSpecifier)
}

fn is_named(specifier: &Node) -> bool
    ensures { result ≡ (not (unprintable.is_default specifier.now) && not (unprintable.is_namespace specifier.now)) }
{
    !is_default(specifier) && !is_namespace(specifier)
}

#[tactic(auto, using(crate::proofs::Scans::names_go_on, crate::proofs::Scans::names_stop, crate::proofs::Scans::names_end))]
fn are_names(specifiers: &[Node]) -> bool
    ensures { result ≡ unprintable.are_names (trees_of specifiers.now) }
{
    for specifier in specifiers {
        if !is_named(specifier) {
            return false;
        }
    }
    true
}

fn is_namespace_alone(specifiers: &[Node]) -> bool
    ensures { result ≡ unprintable.is_namespace_alone (trees_of specifiers.now) }
{
    match specifiers {
        [] => false,
        [only] => is_namespace(only),
        [_, _, ..] => false,
    }
}

fn is_rest(specifiers: &[Node]) -> bool
    ensures { result ≡ unprintable.is_rest (trees_of specifiers.now) }
{
    is_namespace_alone(specifiers) || are_names(specifiers)
}

fn are_specifiers(specifiers: &[Node]) -> bool
    ensures { result ≡ unprintable.are_specifiers (trees_of specifiers.now) }
{
    match specifiers {
        [] => true,
        [first, rest @ ..] => if is_default(first) {
            is_rest(rest)
        } else {
            is_rest(specifiers)
        },
    }
}

fn items_of(node: &Node) -> &[Node]
    ensures { trees_of result.now ≡ unprintable.items_of node.now }
{
    match node.shape() {
        Shape::Listed => node.parts(),
        _ => &[],
    }
}

fn first_list(parts: &[Node]) -> &[Node]
    ensures { trees_of result.now ≡ unprintable.first_list (trees_of parts.now) }
{
    match parts {
        [] => &[],
        [first, ..] => items_of(first),
    }
}

fn generates(node: &Node) -> bool
    ensures { result ≡ unprintable.generates node.now }
{
    match node.shape() {
        Shape::Function(_, generator, _) => *generator,
        _ => false,
    }
}

// Whether the value of a property or a method is a generator.
fn is_generator(parts: &Nodes) -> bool
    ensures { result ≡ unprintable.is_generator (child_at parts.now 1) }
{
    match parts.get(1) {
        Some(value) => generates(value),
        None => false,
    }
}

fn is_accessor(kind: PropertyKind) -> bool
    ensures { result ≡ unprintable.is_accessor kind }
{
    matches!(kind, PropertyKind::Get | PropertyKind::Set)
}

fn is_class_accessor(kind: MethodDefinitionKind) -> bool
    ensures { result ≡ unprintable.is_class_accessor kind }
{
    matches!(kind, MethodDefinitionKind::Get | MethodDefinitionKind::Set)
}

fn is_pattern_target(node: &Node) -> bool
    ensures { result ≡ unprintable.is_pattern_target node.now }
{
    matches!(
        node.shape(),
        Shape::ObjectAssignmentTarget | Shape::ArrayAssignmentTarget
    )
}

fn begins_with_pattern(parts: &Nodes) -> bool
    ensures { result ≡ unprintable.is_pattern_in (child_at parts.now 0) }
{
    match parts.get(0) {
        Some(target) => is_pattern_target(target),
        None => false,
    }
}

fn is_pattern_rest(property: &Node) -> bool
    ensures { result ≡ unprintable.is_pattern_rest property.now }
{
    match property.shape() {
        Shape::RestElement => begins_with_pattern(property.children()),
        _ => false,
    }
}

#[tactic(auto, using(crate::proofs::Scans::rests_go_on, crate::proofs::Scans::rests_stop, crate::proofs::Scans::rests_end))]
fn are_plain_rests(properties: &[Node]) -> bool
    ensures { result ≡ unprintable.are_plain_rests (trees_of properties.now) }
{
    for property in properties {
        if is_pattern_rest(property) {
            return false;
        }
    }
    true
}

fn has_text(node: &Node) -> bool
    ensures { result ≡ unprintable.has_text (shape_of node.now) (children node.now) }
{
    match node.shape() {
        Shape::RegExpLiteral(pattern, flags) => {
            is_regular_expression(pattern.text().as_slice(), flags.text().as_slice())
        }
        Shape::Program(_, texts)
        | Shape::Function(_, _, texts)
        | Shape::ArrowFunctionExpression(texts) => are_directives(texts),
        Shape::TemplateLiteral => are_raw(first_list(node.parts())),
        Shape::ImportDeclaration => are_specifiers(first_list(node.parts())),
        Shape::ObjectProperty(kind, ..) => !(is_accessor(*kind) && is_generator(node.children())),
        Shape::MethodDefinition(kind, ..) => {
            !(is_class_accessor(*kind) && is_generator(node.children()))
        }
        Shape::ObjectAssignmentTarget => are_plain_rests(first_list(node.parts())),
        _ => true,
    }
}

fn cause_of(node: &Node, label: bool) -> Option<Cause>
    ensures { option_map faults.cause_of result ≡ faults.own_cause label node.now }
{
    if is_reserved_name(node, label) {
        Some(Cause::Reserved)
    } else if has_text(node) {
        None
    } else {
        Some(Cause::BadText)
    }
}

// ---- the search

// Whether it is a node of ESTree, and neither absent nor what holds others.
fn is_node(node: &Node) -> bool
    ensures { result ≡ is_it_node node.now }
{
    !matches!(
        node.shape(),
        Shape::Absent | Shape::Listed | Shape::InnerExpression
    )
}

fn is_missing(node: &Node) -> bool
    ensures { result ≡ faults.is_missing node.now }
{
    matches!(node.shape(), Shape::Absent)
}

fn has_label(shape: &Shape) -> bool
    ensures { result ≡ unprintable.has_label shape.now }
{
    matches!(
        shape,
        Shape::LabeledStatement | Shape::BreakStatement | Shape::ContinueStatement
    )
}

// The next place. The only error is that a number in a path can't tell it.
fn next_place(at: u32) -> Result<u32, OutOfMemory>
    ensures { IfOk result (λ next. next ≡ at + 1) }
{
    match at.checked_add(1) {
        Some(next) => Ok(next),
        None => Err(OutOfMemory),
    }
}

fn put_below(at: u32, found: Found) -> Result<Found, OutOfMemory>
    ensures { IfOk result (λ below. faults.found below ≡ unprintable.below at (faults.found found)) }
{
    let mut found = found;
    found.back.push(at)?;
    Ok(found)
}

// The first node that can't be printed of a child, which may be a label, and those below it. The
// child is the node of ESTree in this place, holds those from there on, or is absent.
#[cycle(search)]
fn search(alloc: Global, node: &Node, label: bool, at: u32) -> Result<Sought, OutOfMemory>
    ensures { IfOk result (λ sought. faults.Seeks sought (unprintable.faults_inside label node.now at) (at + width node.now)) }
{
    if is_node(node) {
        search_node(alloc, node, label, at)
    } else if is_missing(node) {
        Ok(Sought::Past(at))
    } else {
        search_all(alloc, node.children(), false, at)
    }
}

// The same of a node of ESTree.
#[cycle(search)]
fn search_node(alloc: Global, node: &Node, label: bool, at: u32) -> Result<Sought, OutOfMemory>
    ensures { IfOk result (λ sought. faults.SeeksNode sought (unprintable.faults_at label node.now) at) }
{
    match first_below(alloc, node, label)? {
        Some(found) => Ok(Sought::At(put_below(at, found)?)),
        None => Ok(Sought::Past(next_place(at)?)),
    }
}

// The first from a node of ESTree on, with the path from there.
#[cycle(search)]
fn first_below(alloc: Global, node: &Node, label: bool) -> Result<Option<Found>, OutOfMemory>
    ensures { IfOk result (λ first. option_map faults.found first ≡ unprintable.head (unprintable.faults_at label node.now)) }
{
    match cause_of(node, label) {
        Some(cause) => Ok(Some(Found {
            back: Numbers::new(alloc),
            cause,
        })),
        None => match search_all(alloc, node.children(), has_label(node.shape()), 0)? {
            Sought::At(found) => Ok(Some(found)),
            Sought::Past(_) => Ok(None),
        },
    }
}

#[cycle(search)]
fn search_all(alloc: Global, nodes: &Nodes, label: bool, at: u32) -> Result<Sought, OutOfMemory>
    ensures { IfOk result (λ sought. faults.Seeks sought (unprintable.faults_among label nodes.now at) (at + faults.widths nodes.now)) }
{
    let mut place = at;
    for i in 0..nodes.len() {
        match search(alloc, nodes.child(i), label, place)? {
            Sought::Past(next) => place = next,
            Sought::At(found) => return Ok(Sought::At(found)),
        }
    }
    Ok(Sought::Past(place))
}

// The path from where the search began.
#[tactic(auto, using(crate::proofs::Searches::turns, crate::proofs::Searches::turns_end))]
fn turned(alloc: Global, back: Numbers) -> Result<Numbers, OutOfMemory>
    ensures { IfOk result (λ path. path ≡ reverse back) }
{
    let mut back = back;
    let mut path = Numbers::new(alloc);
    while let Some(index) = back.pop() {
        path.push(index)?;
    }
    Ok(path)
}

/// The first node, in preorder, that can't be printed.
///
/// The only error is that memory runs out, or that a node has more children than a number in a path
/// can tell, which is 2^32 - 1.
pub fn first_fault(alloc: Global, program: &Node) -> Result<Option<Fault>, OutOfMemory>
    ensures { IfOk result (λ fault. option_map faults.fault fault ≡ unprintable.first_fault program.now) }
{
    match first_below(alloc, program, false)? {
        Some(found) => Ok(Some(Fault {
            at: turned(alloc, found.back)?,
            cause: found.cause,
        })),
        None => Ok(None),
    }
}

fn error_of(fault: Fault) -> PrintError
    ensures { faults.Tells result (Some (faults.fault fault)) }
{
    match fault.cause {
        Cause::Reserved => PrintError::Reserved { at: fault.at },
        Cause::BadText => PrintError::BadText { at: fault.at },
    }
}

/// Refuses a program that has a node that can't be printed, by the first, in preorder.
pub fn refuse_defects(alloc: Global, program: &Node) -> Result<(), PrintError>
    ensures printable { OnOk result (unprintable.first_fault program.now ≡ None) }
    ensures refused { IfErr result (λ error. faults.Tells error (unprintable.first_fault program.now)) }
{
    match first_fault(alloc, program) {
        Ok(None) => Ok(()),
        Ok(Some(fault)) => Err(error_of(fault)),
        Err(_) => Err(PrintError::OutOfMemory),
    }
}
