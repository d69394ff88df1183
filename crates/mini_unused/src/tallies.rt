//! Of a long list of statements how often names stand in it, counted once, so that it isn't looked
//! through for each name. Names are counted by buckets: where a bucket has no more than it must, no
//! other name is in it.

ghost use Rattle.std.specs.Prelude.{◌≡◌, ◌≤◌, ◌<◌, ◌+◌, ◌^◌, ℕ, suc, nat_eq, true, false, length, replicate, IfOk};
ghost use Rattle.mini_model.specs.Tree.{child_or_absent, count};
ghost use Rattle.mini_node.specs.Children.{names, rest_children};
ghost use Rattle.mini_unused.specs.Tallies as row;
ghost use Rattle.mini_unused.specs.Tallies.{hash_of, number_of, bucket, one_if, own_tally, tally, tallies, Counted, Covers, Tallied, HasFew, IsRare, IsRareIn, AreRare, AreRead, AreReadIn};

use crate::heads::{evaluated, evaluated_hidden};
use crate::mentions::is_same_text;
use crate::passing::reads_in;
use crate::single_uses::reads_next;
use mini_model::{Name, OutOfMemory, SymbolId, Text};
use mini_node::{Node, Nodes};
use std::alloc::Global;

/// With fewer declarators than these a list is looked through for each name.
const FEW: usize = 16;

/// No more than these are given buckets of their own.
const MANY: usize = 1048576;

/// How many buckets there are for each declarator.
const ROOM: usize = 32;

/// How many names are in each bucket, by their symbols and by their spellings.
#[derive(Drop)]
pub struct Tallies {
    /// By their symbols.
    pub by_symbol: Vec<u8>,
    /// By their spellings.
    pub by_spelling: Vec<u8>,
}

// A number of a text: the same for the same text.
fn hash(text: &Text) -> u64
    ensures value { result ≡ hash_of text.now }
    ensures small { result < 4294967296 }
{
    let mut value: u64 = 0;
    for unit in text.as_slice() {
        value = (value * 31 + u64::from(*unit)) % 4294967296;
    }
    value
}

fn number(symbol: Option<SymbolId>) -> u32
    ensures { result ≡ number_of symbol }
{
    match symbol {
        Some(symbol) => symbol.0,
        None => 0,
    }
}

// In which of so many buckets a name is.
#[tactic(auto, unfolding(crate::specs::Tallies::bucket))]
fn bucket_of(by_symbol: bool, buckets: usize, name: &Name) -> usize
    requires { 0 < buckets }
    ensures value { result ≡ bucket by_symbol buckets name.now }
    ensures within { result < buckets }
{
    if by_symbol {
        number(name.symbol) as usize % buckets
    } else {
        hash(&name.spelling) as usize % buckets
    }
}

// One more is in the bucket.
fn count_one(counts: &mut Vec<u8>, bucket: usize)
    ensures { Counted (λ b. one_if (nat_eq bucket b)) counts.old.items counts.new.items }
{
    if bucket < counts.len() {
        counts[bucket] = counts[bucket].saturating_add(1);
    }
}

// Counts a node's own name.
fn count_own(by_symbol: bool, counts: &mut Vec<u8>, name: &Option<Name>)
    ensures { Counted (λ b. own_tally (bucket by_symbol (length counts.old.items)) b (names name.now)) counts.old.items counts.new.items }
{
    if counts.len() == 0 {
        return;
    }
    if let Some(name) = name {
        let bucket = bucket_of(by_symbol, counts.len(), name);
        count_one(counts, bucket);
    }
}

// Counts the names of a node.
#[cycle(counting)]
fn count_names(by_symbol: bool, counts: &mut Vec<u8>, node: &Node)
    ensures { Counted (λ b. tally (bucket by_symbol (length counts.old.items)) b node.now) counts.old.items counts.new.items }
{
    count_own(by_symbol, counts, node.name());
    count_all(by_symbol, counts, node.children());
}

#[cycle(counting)]
fn count_all(by_symbol: bool, counts: &mut Vec<u8>, nodes: &Nodes)
    ensures { Counted (λ b. tallies (bucket by_symbol (length counts.old.items)) b nodes.now) counts.old.items counts.new.items }
{
    for at in 0..nodes.len() {
        count_names(by_symbol, counts, nodes.child(at));
    }
}

// No more than so many are in the name's bucket.
fn is_few(by_symbol: bool, counts: &Vec<u8>, name: &Name, most: u8) -> bool
    ensures few { result ≡ true → HasFew by_symbol counts.now.items name.now most }
    ensures told { HasFew by_symbol counts.now.items name.now most → result ≡ true }
{
    let buckets = counts.len();
    if buckets == 0 {
        return false;
    }
    counts[bucket_of(by_symbol, buckets, name)] <= most
}

/// Whether no more than `most` names are in each of the two buckets of this name.
pub fn is_rare(tallies: &Tallies, name: &Name, most: u8) -> bool
    ensures rare { result ≡ true → IsRare tallies.now name.now most }
    ensures told { IsRare tallies.now name.now most → result ≡ true }
{
    is_few(true, &tallies.by_symbol, name, most) && is_few(false, &tallies.by_spelling, name, most)
}

/// Whether there is a name, and no more than `most` names are in each of its two buckets.
pub fn has_rare_name(tallies: &Tallies, name: &Option<Name>, most: u8) -> bool
    ensures rare { result ≡ true → AreRare tallies.now (names name.now) most }
    ensures told { AreRare tallies.now (names name.now) most → result ≡ true }
{
    match name {
        Some(name) => is_rare(tallies, name, most),
        None => false,
    }
}

// It has the spelling of the other.
#[tactic(auto, using(crate::proofs::Rare::text_counted))]
fn is_spelled(name: &Name, other: &Option<Name>) -> bool
    ensures told { result ≡ row.is_spelled name.now (names other.now) }
    ensures counted { result ≡ true → (r : ℕ) → 1 ≤ own_tally (bucket false r) (bucket false r name.now) (names other.now) }
{
    match other {
        Some(other) => is_same_text(&name.spelling, &other.spelling),
        None => false,
    }
}

// A name with the spelling stands in the node.
#[cycle(spelling)]
fn is_spelled_in(name: &Name, node: &Node) -> bool
    ensures { result ≡ row.is_spelled_in name.now node.now }
{
    is_spelled(name, node.name()) || is_any_spelled(name, node.children(), 0)
}

// It stands in one of these nodes, from an index on.
#[cycle(spelling)]
fn is_any_spelled(name: &Name, nodes: &Nodes, from: usize) -> bool
    ensures { result ≡ row.is_any_spelled name.now (rest_children from nodes.now) }
{
    for at in from..nodes.len() {
        if is_spelled_in(name, nodes.child(at)) {
            return true;
        }
    }
    false
}

// A name with the spelling stands in the node, and so the tables count it.
#[tactic(auto, using(crate::proofs::Spelled::spelled_counted))]
fn is_counted_in(name: &Name, node: &Node) -> bool
    ensures told { result ≡ row.is_spelled_in name.now node.now }
    ensures counted { result ≡ true → (r : ℕ) → 1 ≤ tally (bucket false r) (bucket false r name.now) node.now }
{
    is_spelled_in(name, node)
}

// A name with the spelling stands in what a head evaluates, or a loop that hides its names first.
#[tactic(auto, using(crate::proofs::Rare::head_spelled))]
fn is_counted_in_head(name: &Name, node: &Node) -> bool
    ensures { result ≡ true → (r : ℕ) → 1 ≤ tally (bucket false r) (bucket false r name.now) node.now }
{
    is_counted_in(name, evaluated(evaluated_hidden(node)))
}

/// Whether the statement after the place reads a name, after parts that pass the initializer, and
/// the two are the only ones in its buckets.
pub fn is_rarely_read(
    tallies: &Tallies,
    name: &Option<Name>,
    init: &Node,
    statements: &Nodes,
    at: usize,
) -> bool
    requires next { at + 1 < count statements.now }
    requires fits { at + 1 < 2 ^ 64 }
    ensures { result ≡ true → AreRead tallies.now (names name.now) init.now (child_or_absent statements.now (suc at)) }
{
    match name {
        Some(name) => {
            is_rare(tallies, name, 2)
                && reads_next(name, init, statements, at)
                && is_counted_in_head(name, statements.child(at + 1))
        }
        None => false,
    }
}

/// Whether a value reads a name, after parts that pass the initializer, and the two are the only
/// ones in its buckets.
pub fn is_rarely_read_in(tallies: &Tallies, name: &Option<Name>, init: &Node, value: &Node) -> bool
    ensures { result ≡ true → AreReadIn tallies.now (names name.now) init.now value.now }
{
    match name {
        Some(name) => {
            is_rare(tallies, name, 2) && reads_in(name, init, value) && is_counted_in(name, value)
        }
        None => false,
    }
}

/// Whether no more than two names are in each of the buckets of this one, and a name with its
/// spelling stands in the tree.
pub fn is_rare_in(tallies: &Tallies, name: &Name, node: &Node) -> bool
    ensures { result ≡ true → IsRareIn tallies.now name.now node.now }
{
    is_rare(tallies, name, 2) && is_counted_in(name, node)
}

/// Whether no more than two names are in each of the buckets of this one, and a name with its
/// spelling stands in what the statement evaluates first.
pub fn is_rare_in_head(tallies: &Tallies, name: &Name, node: &Node) -> bool
    ensures { result ≡ true → IsRareIn tallies.now name.now node.now }
{
    is_rare(tallies, name, 2) && is_counted_in_head(name, node)
}

// So many buckets, all empty.
fn no_counts(alloc: Global, buckets: usize) -> Result<Vec<u8>, OutOfMemory>
    ensures { IfOk result (λ counts. counts.items ≡ replicate buckets 0) }
{
    match Vec::from_elem(alloc, 0, buckets) {
        Ok(counts) => Ok(counts),
        Err(_) => Err(OutOfMemory),
    }
}

// The names of a list and of what is outside of it.
fn count_list(
    alloc: Global,
    by_symbol: bool,
    outside: &Node,
    list: &Node,
    buckets: usize,
) -> Result<Vec<u8>, OutOfMemory>
    ensures { IfOk result (λ counts. Covers by_symbol counts.items outside.now list.now) }
{
    let mut counts = no_counts(alloc, buckets)?;
    count_names(by_symbol, &mut counts, outside);
    count_names(by_symbol, &mut counts, list);
    Ok(counts)
}

/// The tallies of a list with that many declarators, and of what is outside of it. Where they are
/// few nothing is counted. The only error is that memory runs out.
pub fn tally_list(
    alloc: Global,
    outside: &Node,
    list: &Node,
    declarators: usize,
) -> Result<Tallies, OutOfMemory>
    ensures { IfOk result (λ tallies. Tallied tallies outside.now list.now) }
{
    if declarators < FEW {
        return Ok(Tallies {
            by_symbol: Vec::new(alloc),
            by_spelling: Vec::new(alloc),
        });
    }
    let buckets = declarators.min(MANY) * ROOM;
    let by_symbol = count_list(alloc, true, outside, list, buckets)?;
    let by_spelling = count_list(alloc, false, outside, list, buckets)?;
    Ok(Tallies {
        by_symbol,
        by_spelling,
    })
}

/// The tallies of a list with that many declarators, and of what is outside of it. Where they are
/// few, or memory runs out, nothing is counted.
pub fn tally_if_many(alloc: Global, outside: &Node, list: &Node, declarators: usize) -> Tallies
    ensures { Tallied result outside.now list.now }
{
    match tally_list(alloc, outside, list, declarators) {
        Ok(tallies) => tallies,
        Err(_) => Tallies {
            by_symbol: Vec::new(alloc),
            by_spelling: Vec::new(alloc),
        },
    }
}
