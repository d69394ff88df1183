//! How often symbols are read and written: references are counted in, or out.

ghost use Rattle.std.specs.Prelude.{◌≡◌, ◌+◌, ◌≤◌, ◌^◌, ◌<◌, length, replicate, slice_index, slice_set, IfOk, if◌then◌else◌};
ghost use Rattle.mini_node.specs.Children.{names};
ghost use Rattle.mini_laws.specs.declared.names.Use.TheVariants as variant;
ghost use Rattle.mini_laws.specs.Scopes.{use_of as use_at};
ghost use Rattle.mini_laws.specs.References.{references, references_from, own_references, reads as is_read, writes as is_write, counts_of};
ghost use Rattle.mini_context.specs.Own.{is_reference_shape};
ghost use Rattle.mini_laws.specs.Counts.{Contained, FellBy};
ghost use Rattle.mini_context.specs.Tallies.{tallied, tallied_number, tallied_symbol};

use crate::steps::Steps;
use mini_laws::Use;
use mini_model::{Name, OutOfMemory, Shape, SymbolId};
use mini_node::{Node, Nodes};
use mini_scope::use_of;
use std::alloc::Global;
use std::sync::ledger::{Blank, Ledger};

/// Which way references are counted.
#[derive(Clone, Copy)]
pub enum Tally {
    /// One more for each; a count stays below 2^32.
    In,
    /// One less for each; a count that is 0 stays so.
    Out,
}

/// How often each symbol is read, and how often it is written.
#[derive(Drop)]
pub struct Counts {
    /// How often each symbol is read, at its number.
    pub reads: Vec<u32>,
    /// How often each symbol is written, at its number.
    pub writes: Vec<u32>,
}

/// Counts of no symbol.
pub fn no_counts(alloc: Global) -> Counts {
    Counts {
        reads: Vec::new(alloc),
        writes: Vec::new(alloc),
    }
}

/// Whether a name that is used like this is read.
pub fn is_read(usage: Use) -> bool
    ensures { result ≡ is_read usage }
{
    !matches!(usage, Use::Write)
}

/// Whether a name that is used like this is written.
pub fn is_write(usage: Use) -> bool
    ensures { result ≡ is_write usage }
{
    matches!(usage, Use::Write | Use::ReadWrite)
}

fn next_count(tally: Tally, count: u32) -> u32
    ensures { result ≡ tallied_number tally count }
{
    match tally {
        Tally::In => count.saturating_add(1),
        Tally::Out => count.saturating_sub(1),
    }
}

fn tally_symbol(tally: Tally, counts: &mut Vec<u32>, symbol: SymbolId)
    ensures { counts.new.items ≡ slice_set counts.old.items symbol.0 (tallied_number tally (slice_index counts.old.items symbol.0)) }
{
    let at = symbol.0 as usize;
    if at < counts.len() {
        counts[at] = next_count(tally, counts[at]);
    }
}

fn tally_use(tally: Tally, counts: &mut Vec<u32>, is_counted: bool, symbol: Option<SymbolId>)
    ensures { counts.new.items ≡ (if is_counted then tallied_symbol tally counts.old.items symbol else counts.old.items) }
{
    if is_counted {
        if let Some(symbol) = symbol {
            tally_symbol(tally, counts, symbol);
        }
    }
}

/// Whether a node of this shape is a reference.
pub fn is_reference(shape: &Shape) -> bool
    ensures { result ≡ is_reference_shape shape.now }
{
    matches!(shape, Shape::Identifier)
}

fn tally_own<L: Ledger>(
    counts: &mut Counts,
    tally: Tally,
    usage: Use,
    shape: &Shape,
    name: &Option<Name>,
    steps: &mut Steps<L>,
)
    ensures reads { counts.new.reads.items ≡ tallied tally is_read (own_references usage shape.now (names name.now)) counts.old.reads.items }
    ensures writes { counts.new.writes.items ≡ tallied tally is_write (own_references usage shape.now (names name.now)) counts.old.writes.items }
    ensures steps { steps.new ≡ steps.old + length (own_references usage shape.now (names name.now)) }
{
    if !is_reference(shape) {
        return;
    }
    if let Some(name) = name {
        steps.tick();
        tally_use(tally, &mut counts.reads, is_read(usage), name.symbol);
        tally_use(tally, &mut counts.writes, is_write(usage), name.symbol);
    }
}

/// Counts the references of a tree, whose names are used like this, in or out. A step is one
/// reference.
#[cycle(tallies)]
pub fn tally_node<L: Ledger>(
    counts: &mut Counts,
    tally: Tally,
    usage: Use,
    node: &Node,
    steps: &mut Steps<L>,
)
    ensures reads { counts.new.reads.items ≡ tallied tally is_read (references usage node.now) counts.old.reads.items }
    ensures writes { counts.new.writes.items ≡ tallied tally is_write (references usage node.now) counts.old.writes.items }
    ensures steps { steps.new ≡ steps.old + length (references usage node.now) }
{
    let shape = node.shape();
    tally_own(counts, tally, usage, shape, node.name(), steps);
    tally_nodes(counts, tally, usage, shape, node.children(), steps);
}

#[cycle(tallies)]
fn tally_nodes<L: Ledger>(
    counts: &mut Counts,
    tally: Tally,
    usage: Use,
    shape: &Shape,
    nodes: &Nodes,
    steps: &mut Steps<L>,
)
    ensures reads { counts.new.reads.items ≡ tallied tally is_read (references_from (use_at shape.now usage) 0 nodes.now) counts.old.reads.items }
    ensures writes { counts.new.writes.items ≡ tallied tally is_write (references_from (use_at shape.now usage) 0 nodes.now) counts.old.writes.items }
    ensures steps { steps.new ≡ steps.old + length (references_from (use_at shape.now usage) 0 nodes.now) }
{
    for at in 0..nodes.len() {
        let child = nodes.child(at);
        tally_node(counts, tally, use_of(shape, usage, at), child, steps);
    }
}

/// Counts the references of a part that is to be dropped out. A step is one reference.
pub fn count_out<L: Ledger>(counts: &mut Counts, part: &Node, steps: &mut Steps<L>)
    requires reads { Contained is_read (references variant.Read part.now) counts.old.reads.items }
    requires writes { Contained is_write (references variant.Read part.now) counts.old.writes.items }
    ensures reads { FellBy is_read (references variant.Read part.now) counts.old.reads.items counts.new.reads.items }
    ensures writes { FellBy is_write (references variant.Read part.now) counts.old.writes.items counts.new.writes.items }
    ensures steps { steps.new ≡ steps.old + length (references variant.Read part.now) }
{
    tally_node(counts, Tally::Out, Use::Read, part, steps);
}

/// Counts the references of a program with that many symbols anew. A step is one reference. The
/// only error is that memory runs out.
pub fn fresh_counts<L: Ledger>(
    alloc: Global,
    program: &Node,
    symbols: u32,
    steps: &mut Steps<L>,
) -> Result<Counts, OutOfMemory>
    requires { length (references variant.Read program.now) + 1 < 2 ^ 32 }
    ensures reads { IfOk result (λ counts. counts.reads.items ≡ counts_of is_read symbols program.now) }
    ensures writes { IfOk result (λ counts. counts.writes.items ≡ counts_of is_write symbols program.now) }
    ensures steps { steps.new ≤ steps.old + length (references variant.Read program.now) }
{
    let mut counts = Counts {
        reads: zeros(alloc, symbols)?,
        writes: zeros(alloc, symbols)?,
    };
    tally_node(&mut counts, Tally::In, Use::Read, program, steps);
    Ok(counts)
}

/// A list of that many zeros. The only error is that memory runs out.
pub fn zeros(alloc: Global, length: u32) -> Result<Vec<u32>, OutOfMemory>
    ensures { IfOk result (λ zeros. zeros.items ≡ replicate length 0) }
{
    match Vec::from_elem(alloc, 0, length as usize) {
        Ok(zeros) => Ok(zeros),
        Err(_) => Err(OutOfMemory),
    }
}

/// The counts of a program with so many symbols, with a count of steps of its own.
pub fn own_counts<L: Ledger>(
    alloc: Global,
    program: &Node,
    symbols: u32,
    blank: Blank,
) -> Result<Counts, OutOfMemory>
    requires name { blank.name ≡ L.name }
    requires parts { blank.parts ≡ L.parts }
    requires some { 0 < blank.parts }
    requires references { length (references variant.Read program.now) + 1 < 2 ^ 32 }
    ensures reads { IfOk result (λ counts. counts.reads.items ≡ counts_of is_read symbols program.now) }
    ensures writes { IfOk result (λ counts. counts.writes.items ≡ counts_of is_write symbols program.now) }
{
    let mut steps = Steps::<L>::new(blank);
    fresh_counts(alloc, program, symbols, &mut steps)
}
