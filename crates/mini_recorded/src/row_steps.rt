//! The step of each row of a log.

ghost use Rattle.std.specs.Prelude.{◌≡◌, ◌∷◌, Bool, IfOk};
ghost use Rattle.mini_log.specs.declared.row.LogRow.TheVariants.{Row61, Row79};
ghost use Rattle.mini_log.specs.RowStep.{export_forms, first_lighter, held_forms, node_forms, row_at};
ghost use Rattle.mini_laws.specs.Value.{VariableSet};
ghost use Rattle.mini_checker.specs.Forms.{marked};
ghost use Rattle.mini_checker.specs.Made.{Made};
ghost use Rattle.mini_recorded.specs.Stepping.{is_statement_place as is_it_for_a_statement};

use crate::branches::unwrap_block;
use crate::declarations::{bare_exported, bare_head, bare_statement};
use crate::lists::{row_66, spread_block};
use crate::whole::row_23;
use mini_checker::{
    Making, row_1, row_3, row_7, row_12, row_13, row_15, row_19, row_33, row_34, row_39, row_40,
    row_41, row_42, row_49, row_54, row_55, row_58, row_60, row_65, row_82,
};
use mini_context::Scopes;
use mini_log::row::LogRow;
use mini_model::{OutOfMemory, Position};
use mini_node::Node;
use std::alloc::Global;

/// The steps of all rows of a log.
pub struct RowSteps<'a> {
    /// Whether statements may be joined into sequences of expressions.
    pub sequences: bool,
    /// Which names can be written.
    pub scopes: &'a Scopes,
}

/// What a row makes of the node to which a path leads, if it weighs less there. The only error is
/// that memory runs out.
pub fn made_at(
    alloc: Global,
    scopes: &Scopes,
    row: LogRow,
    place: Position,
    node: &Node,
) -> Result<Option<Node>, OutOfMemory>
    ensures { IfOk result (λ w. w ≡ first_lighter place node.now (node_forms (marked scopes.now.writable) row place node.now)) }
{
    match row {
        LogRow::Row1 => row_1(alloc, place, node),
        LogRow::Row3 => row_3(alloc, place, node),
        LogRow::Row7 => row_7(alloc, place, node),
        LogRow::Row12 => row_12(alloc, place, node),
        LogRow::Row13 => row_13(alloc, place, node),
        LogRow::Row15 => row_15(alloc, place, node),
        LogRow::Row19 => row_19(alloc, place, node),
        LogRow::Row23 => row_23(alloc, place, node),
        LogRow::Row33 => row_33(alloc, place, node),
        LogRow::Row34 => row_34(alloc, scopes, place, node),
        LogRow::Row39 => row_39(alloc, place, node),
        LogRow::Row40 => row_40(alloc, place, node),
        LogRow::Row41 => row_41(alloc, place, node),
        LogRow::Row42 => row_42(alloc, place, node),
        LogRow::Row49 => row_49(alloc, place, node),
        LogRow::Row54 => row_54(alloc, place, node),
        LogRow::Row55 => row_55(alloc, place, node),
        LogRow::Row58 => row_58(alloc, place, node),
        LogRow::Row60 => row_60(alloc, place, node),
        LogRow::Row61 => Ok(None),
        LogRow::Row65 => row_65(alloc, place, node),
        LogRow::Row66 => Ok(None),
        LogRow::Row79 => Ok(None),
        LogRow::Row82 => row_82(alloc, place, node),
    }
}

// Puts what was made in the place of the node, if anything was.
fn put(node: &mut Node, made: Option<Node>) -> bool
    ensures { Made made node.old node.new result }
{
    match made {
        Some(other) => {
            *node = other;
            true
        }
        None => false,
    }
}

// Whether a statement stands there by itself.
fn is_statement_place(place: Position) -> bool
    ensures { result ≡ is_it_for_a_statement place }
{
    matches!(place, Position::Stmt(_))
}

// Row 61 of the declaration of an index.
fn row_61(place: Position, node: &mut Node, index: u32) -> bool
    ensures { (b : Bool) → Made (first_lighter place node.old (held_forms b Row61 place node.old index)) node.old node.new result }
{
    if is_statement_place(place) {
        bare_head(node, index)
    } else {
        bare_statement(place, node, index)
    }
}

// Row 79 of the block of an index.
fn row_79(place: Position, node: &mut Node, index: u32) -> Result<bool, OutOfMemory>
    ensures { IfOk result (λ done. (b : Bool) → Made (first_lighter place node.old (held_forms b Row79 place node.old index)) node.old node.new done) }
{
    if is_statement_place(place) {
        Ok(unwrap_block(node, index))
    } else {
        spread_block(place, node, index)
    }
}

// What a row makes of the list or the statement around the node of an index.
fn hold(
    alloc: Global,
    sequences: bool,
    row: LogRow,
    place: Position,
    node: &mut Node,
    index: u32,
) -> Result<bool, OutOfMemory>
    ensures { IfOk result (Made (first_lighter place node.old (held_forms sequences row place node.old index)) node.old node.new) }
{
    match row {
        LogRow::Row61 => Ok(row_61(place, node, index)),
        LogRow::Row66 => row_66(alloc, sequences, place, node, index),
        LogRow::Row79 => row_79(place, node, index),
        _ => Ok(false),
    }
}

// What a row makes of the list that holds the export of an index, by the declaration in it.
fn export(row: LogRow, place: Position, node: &mut Node, index: u32) -> bool
    ensures { Made (first_lighter place node.old (export_forms row place node.old index)) node.old node.new result }
{
    match row {
        LogRow::Row61 => bare_exported(place, node, index),
        _ => false,
    }
}

// The same, told the first of the indices behind it and the others.
fn export_above(
    row: LogRow,
    place: Position,
    node: &mut Node,
    index: u32,
    first: u32,
    others: &[u32],
) -> bool
    ensures { (b : Bool) (W : VariableSet) → Made (row_at b W row place node.old (index ∷ first ∷ others.now)) node.old node.new result }
{
    if first == 0 && others.is_empty() {
        export(row, place, node, index)
    } else {
        false
    }
}

impl<'a> Making for RowSteps<'a> {
    ghost makes = { λ s. row_at s.sequences (marked s.scopes.now.writable) };

    fn make(
        &self,
        alloc: Global,
        row: LogRow,
        node: &mut Node,
        place: Position,
    ) -> Result<bool, OutOfMemory> {
        let made = made_at(alloc, self.scopes, row, place, node)?;
        Ok(put(node, made))
    }

    fn make_above(
        &self,
        alloc: Global,
        row: LogRow,
        node: &mut Node,
        place: Position,
        index: u32,
        rest: &[u32],
    ) -> Result<bool, OutOfMemory> {
        match rest.split_first() {
            Some((first, others)) => Ok(export_above(row, place, node, index, *first, others)),
            None => hold(alloc, self.sequences, row, place, node, index),
        }
    }
}
