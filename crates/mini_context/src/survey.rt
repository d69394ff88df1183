//! One walk over a tree, which fills the tables of symbols and of bodies.

ghost use Rattle.std.specs.Prelude.{◌≡◌, ℕ, ◌||◌, ◌&&◌, [], ◌∷◌, nat_eq, ◌<◌, true, false, length, replicate, OnOk};
ghost use Rattle.mini_model.specs.Tree.{children, shape_of};
ghost use Rattle.mini_laws.specs.Foreign.{own_lexical};
ghost use Rattle.mini_laws.specs.DeclaredNames.{names_of};
ghost use Rattle.mini_laws.specs.declared.names.Declared.TheVariants as declared;
ghost use Rattle.mini_node.specs.Children.{number_of};
ghost use Rattle.mini_context.specs.Found.{Unmarked};
ghost use Rattle.mini_context.specs.Tables.{mark_at, Marked, Noted};
ghost use Rattle.mini_context.specs.declared.mentions.Mentioned.TheVariants as mentioned;
ghost use Rattle.mini_context.specs.Own.{is_class_shape, is_import_declaration};
ghost use Rattle.mini_context.specs.Visits.{below, bodies_at, imported_here, visits, visits_from, Surveyed};

use crate::catching::mark_caught;
use crate::exchanges::mark_exchanged;
use crate::giving::join_values;
use crate::lists::no_lists;
use crate::marks::{mark_names, no_marks};
use crate::mentions::{Mentioned, join_own, join_write, no_mentions, put_home};
use crate::params::{Params, empty_params, enclose, no_params};
use crate::parts::{fixed_part, lexical_part, mark_part, pattern_part, switched_part};
use crate::reach::mark_reached;
use crate::standing::{Standing, frame_in_body, numbering_of, standing_below};
use mini_laws::{Declared, Numbering};
use mini_model::{OutOfMemory, OwnedList, Shape};
use mini_node::Node;
use std::alloc::Global;

/// What a walk over a program finds, by symbol and by the number of a body.
#[derive(Drop)]
pub struct Tables {
    /// By symbol, whether its name can't be written.
    pub fixed: Vec<bool>,
    /// By symbol, whether a module imports or exports it.
    pub exchanged: Vec<bool>,
    /// By symbol, whether it is a parameter that an `arguments` reaches.
    pub reached: Vec<bool>,
    /// By symbol, whether a module imports it.
    pub imported: Vec<bool>,
    /// By symbol, whether a pattern binds it.
    pub patterns: Vec<bool>,
    /// By symbol, whether its name is lexical.
    pub lexical: Vec<bool>,
    /// By symbol, whether its name is lexical and declared directly in a `switch`.
    pub switched: Vec<bool>,
    /// By symbol, whether it is a `var` under a parameter of `catch` of its name.
    pub caught: Vec<bool>,
    /// By symbol, where it is mentioned.
    pub mentioned: Vec<Mentioned>,
    /// By symbol, where it is written.
    pub written: Vec<Mentioned>,
    /// By symbol, where `var`s write it.
    pub given: Vec<Mentioned>,
    /// By symbol, the bodies in which it is bound.
    pub homes: Vec<OwnedList<u32>>,
    /// In whose parameters bodies stand, and symbols are bound.
    pub enclosing: Params,
    /// By number, whether `this` is an event in the body.
    pub this_events: Vec<bool>,
    /// By number, whether the body has an `arguments`.
    pub arguments: Vec<bool>,
}

/// Tables of no symbol.
pub fn empty_tables(alloc: Global) -> Tables {
    Tables {
        fixed: Vec::new(alloc),
        exchanged: Vec::new(alloc),
        reached: Vec::new(alloc),
        imported: Vec::new(alloc),
        patterns: Vec::new(alloc),
        lexical: Vec::new(alloc),
        switched: Vec::new(alloc),
        caught: Vec::new(alloc),
        mentioned: Vec::new(alloc),
        written: Vec::new(alloc),
        given: Vec::new(alloc),
        homes: Vec::new(alloc),
        enclosing: empty_params(alloc),
        this_events: Vec::new(alloc),
        arguments: Vec::new(alloc),
    }
}

/// Makes them three tables for so many symbols, without a mark. After `OutOfMemory` they are fit
/// only to be dropped.
fn open_marks(
    alloc: Global,
    symbols: u32,
    first: &mut Vec<bool>,
    second: &mut Vec<bool>,
    third: &mut Vec<bool>,
) -> Result<(), OutOfMemory>
    ensures first { OnOk result (first.new.items ≡ replicate symbols false) }
    ensures second { OnOk result (second.new.items ≡ replicate symbols false) }
    ensures third { OnOk result (third.new.items ≡ replicate symbols false) }
{
    *first = no_marks(alloc, symbols)?;
    *second = no_marks(alloc, symbols)?;
    *third = no_marks(alloc, symbols)?;
    Ok(())
}

/// Makes them two tables for that many symbols, which are mentioned nowhere.
fn open_mentions(
    alloc: Global,
    symbols: u32,
    first: &mut Vec<Mentioned>,
    second: &mut Vec<Mentioned>,
) -> Result<(), OutOfMemory>
    ensures first { OnOk result (first.new.items ≡ replicate symbols mentioned.Nowhere) }
    ensures second { OnOk result (second.new.items ≡ replicate symbols mentioned.Nowhere) }
{
    *first = no_mentions(alloc, symbols)?;
    *second = no_mentions(alloc, symbols)?;
    Ok(())
}

/// Makes them tables for so many symbols, without a mark. After `OutOfMemory` they are fit only to
/// be dropped.
pub fn open_tables(alloc: Global, symbols: u32, tables: &mut Tables) -> Result<(), OutOfMemory>
    ensures { OnOk result (Unmarked symbols tables.new) }
{
    open_marks(
        alloc,
        symbols,
        &mut tables.fixed,
        &mut tables.exchanged,
        &mut tables.reached,
    )?;
    open_marks(
        alloc,
        symbols,
        &mut tables.imported,
        &mut tables.patterns,
        &mut tables.lexical,
    )?;
    tables.switched = no_marks(alloc, symbols)?;
    tables.caught = no_marks(alloc, symbols)?;
    open_mentions(alloc, symbols, &mut tables.mentioned, &mut tables.written)?;
    tables.given = no_mentions(alloc, symbols)?;
    tables.homes = no_lists(alloc, symbols)?;
    tables.enclosing = no_params(alloc, symbols)?;
    tables.this_events = Vec::new(alloc);
    tables.arguments = Vec::new(alloc);
    Ok(())
}

/// Makes a table longer, until there is an entry at an index.
fn reach(marks: &mut Vec<bool>, at: usize) -> Result<(), OutOfMemory>
    ensures marks { OnOk result ((k : ℕ) → mark_at marks.new.items k ≡ mark_at marks.old.items k) }
    ensures within { OnOk result (at < length marks.new.items) }
{
    'reaching: while marks.len() <= at {
        match marks.push(false) {
            Ok(()) => {}
            Err(_) => return Err(OutOfMemory),
        }
    }
    Ok(())
}

/// Marks a number where something holds of it; the table grows where it must. The only error is
/// that memory runs out.
pub fn mark_number(marks: &mut Vec<bool>, number: u32, holds: bool) -> Result<(), OutOfMemory>
    ensures { OnOk result ((k : ℕ) → mark_at marks.new.items k ≡ (mark_at marks.old.items k || (nat_eq number k && holds))) }
{
    if holds {
        let at = number as usize;
        reach(marks, at)?;
        marks[at] = true;
    }
    Ok(())
}

fn mark_body(
    this_events: &mut Vec<bool>,
    arguments: &mut Vec<bool>,
    standing: Standing,
    node: &Node,
) -> Result<(), OutOfMemory>
    ensures this_events { OnOk result (Noted (λ f. f.binds_this) (bodies_at (record { standing = standing; tree = node.now })) this_events.old.items this_events.new.items) }
    ensures arguments { OnOk result (Noted (λ f. f.has_arguments) (bodies_at (record { standing = standing; tree = node.now })) arguments.old.items arguments.new.items) }
{
    if let Numbering::Body = numbering_of(node.shape(), node.number()) {
        let inside = frame_in_body(node.shape(), standing.frame);
        mark_number(this_events, node.number(), inside.binds_this)?;
        mark_number(arguments, node.number(), inside.has_arguments)
    } else {
        Ok(())
    }
}

fn is_import(shape: &Shape) -> bool
    ensures { result ≡ is_import_declaration shape.now }
{
    matches!(shape, Shape::ImportDeclaration)
}

fn mark_imported(marks: &mut Vec<bool>, imports: bool, node: &Node)
    ensures { Marked (imported_here imports (shape_of node.now) (names_of declared.Lexical node.now)) marks.old.items marks.new.items }
{
    if imports && is_import(node.shape()) {
        mark_names(marks, Declared::Lexical, node);
    }
}

fn is_class(shape: &Shape) -> bool
    ensures { result ≡ is_class_shape shape.now }
{
    matches!(shape, Shape::Class(_))
}

// The name of a class, and the name that it holds again.
fn mark_class(marks: &mut Vec<bool>, node: &Node)
    ensures { is_class_shape (shape_of node.now) ≡ true → Marked (own_lexical false (shape_of node.now) (children node.now)) marks.old.items marks.new.items }
{
    if let [id, _super_class, _body, again, ..] = node.parts() {
        mark_names(marks, Declared::Bound, id);
        mark_names(marks, Declared::Bound, again);
    }
}

fn mark_lexical(marks: &mut Vec<bool>, in_body: bool, node: &Node)
    ensures { Marked (own_lexical in_body (shape_of node.now) (children node.now)) marks.old.items marks.new.items }
{
    let shape = node.shape();
    if is_class(shape) {
        mark_class(marks, node);
    } else {
        mark_part(marks, lexical_part(in_body, shape), node.children());
    }
}

fn visit(
    alloc: Global,
    tables: &mut Tables,
    standing: Standing,
    node: &Node,
) -> Result<(), OutOfMemory>
    ensures { OnOk result (Surveyed (record { standing = standing; tree = node.now } ∷ []) tables.old tables.new) }
{
    let shape = node.shape();
    let nodes = node.children();
    mark_part(&mut tables.fixed, fixed_part(shape), nodes);
    mark_part(&mut tables.switched, switched_part(shape), nodes);
    let pattern = pattern_part(shape, node.number());
    mark_part(&mut tables.patterns, pattern, nodes);
    mark_exchanged(&mut tables.exchanged, standing.exchanges, node);
    mark_reached(&mut tables.reached, standing.strict, node);
    mark_imported(&mut tables.imported, standing.imports, node);
    mark_lexical(&mut tables.lexical, standing.in_body, node);
    mark_caught(alloc, &mut tables.caught, node)?;
    join_own(&mut tables.mentioned, standing, node);
    join_write(&mut tables.written, standing, node);
    join_values(alloc, &mut tables.given, standing, node)?;
    put_home(&mut tables.homes, standing, node)?;
    mark_body(
        &mut tables.this_events,
        &mut tables.arguments,
        standing,
        node,
    )?;
    enclose(alloc, &mut tables.enclosing, node)
}

/// Walks over a tree that stands like this, and fills the tables. The only error is that memory
/// runs out.
#[cycle(survey)]
pub fn survey_node(
    alloc: Global,
    tables: &mut Tables,
    standing: Standing,
    node: &Node,
) -> Result<(), OutOfMemory>
    ensures { OnOk result (Surveyed (visits standing node.now) tables.old tables.new) }
{
    visit(alloc, tables, standing, node)?;
    survey_children(alloc, tables, standing, node)
}

#[cycle(survey)]
fn survey_children(
    alloc: Global,
    tables: &mut Tables,
    standing: Standing,
    node: &Node,
) -> Result<(), OutOfMemory>
    ensures { OnOk result (Surveyed (visits_from (below standing node.now) 0 (children node.now)) tables.old tables.new) }
{
    let nodes = node.children();
    for at in 0..nodes.len() {
        survey_node(
            alloc,
            tables,
            standing_below(standing, node, at),
            nodes.child(at),
        )?;
    }
    Ok(())
}
