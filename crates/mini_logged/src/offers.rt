//! The rows of a log, looked for in a tree.

ghost use Rattle.std.specs.Prelude.{IfOk};
ghost use Rattle.mini_log.specs.RowStep.{row_at};
ghost use Rattle.mini_checker.specs.Forms.{marked};
ghost use Rattle.mini_logged.specs.Offers.{AnyOffered, OfferedHere};

use crate::beside::offer;
use mini_checker::{Making, row_numbered};
use mini_context::Scopes;
use mini_log::row::LogRow;
use mini_model::{OutOfMemory, Position};
use mini_node::{Node, discard};
use mini_recorded::{RowSteps, made_at};
use mini_replay::{Beside, Seeking};
use std::alloc::Global;

// The row of a number, where it makes something of the node.
#[tactic(auto, using(crate::proofs::Numbers::no_number, crate::proofs::Numbers::not_offered, crate::proofs::Numbers::is_offered))]
fn offered(
    alloc: Global,
    scopes: &Scopes,
    number: u32,
    node: &Node,
    place: Position,
) -> Result<Option<LogRow>, OutOfMemory>
    ensures { IfOk result (OfferedHere (marked scopes.now.writable) place node.now number) }
{
    match row_numbered(number) {
        Some(row) => match made_at(alloc, scopes, row, place, node)? {
            Some(made) => {
                discard(made);
                Ok(Some(row))
            }
            None => Ok(None),
        },
        None => Ok(None),
    }
}

// The first row that makes something of the node, where the path ends there.
fn first_offered(
    alloc: Global,
    scopes: &Scopes,
    node: &Node,
    place: Position,
) -> Result<Option<LogRow>, OutOfMemory>
    ensures { IfOk result (AnyOffered (marked scopes.now.writable) place node.now) }
{
    for number in 0..83 {
        match offered(alloc, scopes, number, node, place)? {
            Some(row) => return Ok(Some(row)),
            None => (),
        }
    }
    Ok(None)
}

/// The rows of a log, which can be made and looked for.
pub struct SoughtRows<'a> {
    /// The steps of the rows.
    pub steps: RowSteps<'a>,
}

impl<'a> Making for SoughtRows<'a> {
    ghost makes = { λ s. row_at s.steps.sequences (marked s.steps.scopes.now.writable) };

    fn make(
        &self,
        alloc: Global,
        row: LogRow,
        node: &mut Node,
        place: Position,
    ) -> Result<bool, OutOfMemory> {
        self.steps.make(alloc, row, node, place)
    }

    fn make_above(
        &self,
        alloc: Global,
        row: LogRow,
        node: &mut Node,
        place: Position,
        index: u32,
        rest: &[u32],
    ) -> Result<bool, OutOfMemory> {
        self.steps.make_above(alloc, row, node, place, index, rest)
    }
}

impl<'a> Seeking for SoughtRows<'a> {
    fn seek_here(
        &self,
        alloc: Global,
        node: &Node,
        place: Position,
    ) -> Result<Option<LogRow>, OutOfMemory> {
        first_offered(alloc, self.steps.scopes, node, place)
    }

    fn seek_beside(
        &self,
        _alloc: Global,
        node: &Node,
        place: Position,
        index: u32,
    ) -> Result<Option<Beside>, OutOfMemory> {
        Ok(offer(self.steps.sequences, place, node, index))
    }
}
