//! Reads of variables before their declarations have ended, in the order of evaluation.

ghost use Rattle.std.specs.Prelude.{◌≡◌, ℕ, ◌<◌, ◌&&◌, ◌||◌, not, nat_eq, [], ◌∷◌, false, length, replicate, IfOk, OnOk};
ghost use Rattle.mini_model.specs.Tree.{children, child_or_absent, count, shape_of};
ghost use Rattle.mini_node.specs.Children.{names_of, number_of, rest_children};
ghost use Rattle.mini_laws.specs.Mentions.{around_child, is_elsewhere, own_mentions};
ghost use Rattle.mini_laws.specs.Scopes.{use_of as use_at};
ghost use Rattle.mini_laws.specs.Foreign.{ended_by, ends_at, in_order, joined as joined_in, moments as moments_of, moments_from, reads_at};
ghost use Rattle.mini_context.specs.Early.{ended_part as ended_part_of, order_of as order_in, Passed};
ghost use Rattle.mini_context.specs.Lists.{holds};
ghost use Rattle.mini_context.specs.Tables.{mark_at};

use crate::count::{is_read, is_reference};
use crate::lists::{no_lists, put_number};
use crate::marks::{is_marked, no_marks};
use crate::parts::{Part, mark_part};
use crate::standing::{Reading, reading_below};
use mini_laws::Around;
use mini_model::{Name, OutOfMemory, OwnedList, Shape, SymbolId};
use mini_node::Node;
use std::alloc::Global;

/// In which order a node evaluates its children.
#[derive(Clone, Copy)]
pub enum Order {
    /// As they stand.
    InOrder,
    /// The second before the first.
    RightFirst,
    /// As they stand, the declaration of the first ending before the others.
    ParamFirst,
}

/// What is known at a moment of evaluation.
#[derive(Drop)]
pub struct Moments {
    /// The symbols whose declarations have ended.
    pub ended: Vec<bool>,
    /// By symbol, the bodies that have read it before its declaration ended.
    pub early: Vec<OwnedList<u32>>,
}

/// A moment of no symbol.
pub fn empty_moments(alloc: Global) -> Moments {
    Moments {
        ended: Vec::new(alloc),
        early: Vec::new(alloc),
    }
}

/// Makes it the first moment of a program with that many symbols. After `OutOfMemory` it is fit
/// only to be dropped.
pub fn open_moments(alloc: Global, symbols: u32, moments: &mut Moments) -> Result<(), OutOfMemory>
    ensures ended { OnOk result (moments.new.ended.items ≡ replicate symbols false) }
    ensures early { OnOk result (moments.new.early.items ≡ replicate symbols []) }
{
    moments.ended = no_marks(alloc, symbols)?;
    moments.early = no_lists(alloc, symbols)?;
    Ok(())
}

fn order_of(shape: &Shape, count: usize) -> Order
    ensures { result ≡ order_in shape.now count }
{
    match shape {
        Shape::ForInStatement | Shape::ForOfStatement if count > 1 => Order::RightFirst,
        Shape::CatchClause if count > 0 => Order::ParamFirst,
        _ => Order::InOrder,
    }
}

fn ended_part(shape: &Shape) -> Part
    ensures { result ≡ ended_part_of shape.now }
{
    match shape {
        Shape::VariableDeclarator
        | Shape::Function(true, ..)
        | Shape::Class(true)
        | Shape::CatchClause => Part::At(0),
        _ => Part::Nothing,
    }
}

fn pass_ends(moments: &mut Moments, reading: Reading, node: &Node)
    ensures { Passed (ends_at reading.around (ended_by (shape_of node.now) (children node.now))) moments.old moments.new }
{
    mark_part(
        &mut moments.ended,
        ended_part(node.shape()),
        node.children(),
    );
}

fn note_read(moments: &mut Moments, symbol: SymbolId, around: Around) -> Result<(), OutOfMemory>
    ensures ended { OnOk result (moments.new.ended ≡ moments.old.ended) }
    ensures lists { OnOk result (length moments.new.early.items ≡ length moments.old.early.items) }
    ensures reads { OnOk result ((s : ℕ) → s < length moments.old.early.items → (b : ℕ) → holds moments.new.early.items s b ≡ (holds moments.old.early.items s b || (not (mark_at moments.old.ended.items s) && (nat_eq symbol.0 s && not (is_elsewhere b around))))) }
{
    if around.carried || is_marked(moments.ended.as_slice(), symbol.0) {
        return Ok(());
    }
    put_number(&mut moments.early, symbol.0, around.number)
}

fn pass_name(moments: &mut Moments, around: Around, name: &Name) -> Result<(), OutOfMemory>
    ensures { OnOk result (Passed (record { name = name.now; ends = false; around = around } ∷ []) moments.old moments.new) }
{
    match name.symbol {
        Some(symbol) => note_read(moments, symbol, around),
        None => Ok(()),
    }
}

fn pass_own(moments: &mut Moments, reading: Reading, node: &Node) -> Result<(), OutOfMemory>
    ensures { OnOk result (Passed (reads_at (own_mentions reading.usage reading.around (shape_of node.now) (names_of node.now))) moments.old moments.new) }
{
    if !is_reference(node.shape()) || !is_read(reading.usage) {
        return Ok(());
    }
    match node.name() {
        Some(name) => pass_name(moments, reading.around, name),
        None => Ok(()),
    }
}

/// Goes through a tree that is read like this in the order of evaluation, and notes its moments.
/// After `OutOfMemory` they are fit only to be dropped.
#[cycle(moments)]
pub fn pass_node(moments: &mut Moments, reading: Reading, node: &Node) -> Result<(), OutOfMemory>
    ensures { OnOk result (Passed (moments_of reading.usage reading.around node.now) moments.old moments.new) }
{
    pass_own(moments, reading, node)?;
    pass_below(moments, reading, node)
}

#[cycle(moments)]
fn pass_below(moments: &mut Moments, reading: Reading, node: &Node) -> Result<(), OutOfMemory>
    ensures { OnOk result (Passed (in_order (shape_of node.now) (moments_from (use_at (shape_of node.now) reading.usage) (around_child (shape_of node.now) reading.around (number_of node.now)) 0 (children node.now)) (ends_at reading.around (ended_by (shape_of node.now) (children node.now)))) moments.old moments.new) }
{
    match order_of(node.shape(), node.children().len()) {
        Order::InOrder => {
            let passed = pass_rest(moments, reading, node, 0);
            pass_ends(moments, reading, node);
            passed
        }
        Order::RightFirst => {
            pass_child(moments, reading, node, 1)?;
            pass_child(moments, reading, node, 0)?;
            let passed = pass_rest(moments, reading, node, 2);
            pass_ends(moments, reading, node);
            passed
        }
        Order::ParamFirst => {
            pass_child(moments, reading, node, 0)?;
            pass_ends(moments, reading, node);
            pass_rest(moments, reading, node, 1)
        }
    }
}

#[cycle(moments)]
fn pass_child(
    moments: &mut Moments,
    reading: Reading,
    node: &Node,
    at: usize,
) -> Result<(), OutOfMemory>
    requires { at < count (children node.now) }
    ensures { OnOk result (Passed (moments_of (use_at (shape_of node.now) reading.usage at) (around_child (shape_of node.now) reading.around (number_of node.now) at) (child_or_absent (children node.now) at)) moments.old moments.new) }
{
    let stands = reading_below(reading, node, at);
    pass_node(moments, stands, node.children().child(at))
}

#[cycle(moments)]
fn pass_rest(
    moments: &mut Moments,
    reading: Reading,
    node: &Node,
    from: usize,
) -> Result<(), OutOfMemory>
    ensures { OnOk result (Passed (joined_in (moments_from (use_at (shape_of node.now) reading.usage) (around_child (shape_of node.now) reading.around (number_of node.now)) from (rest_children from (children node.now)))) moments.old moments.new) }
{
    for at in from..node.children().len() {
        pass_child(moments, reading, node, at)?;
    }
    Ok(())
}
