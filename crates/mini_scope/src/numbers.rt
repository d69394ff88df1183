//! A number for each spelling.

ghost use Rattle.std.specs.Prelude.{◌≡◌, List, ℕ, Some, IfOk, OnErr, OnOk, if◌then◌else◌};
ghost use Rattle.mini_laws.specs.declared.names.Binding.{Binding};
ghost use Rattle.mini_model.specs.Weight.{same_text};
ghost use Rattle.mini_scope.specs.Spelled.{by_items, number_of, Holds};
ghost use Rattle.std.specs.BTreeMap.{IsUnchanged, Updates};

use mini_model::{OutOfMemory, Text};
use std::alloc::Global;
use std::collections::BTreeMap;

/// The number of a spelling, if it has one. The map is ordered: no choice of names makes a look-up
/// long.
#[tactic(auto, unfolding(crate::specs::Spelled::number_of))]
pub fn number_of(numbers: &BTreeMap<Vec<u16>, usize>, spelling: &Text) -> Option<usize>
    ensures { result ≡ number_of numbers.now spelling.now }
{
    numbers.get(spelling.as_slice()).copied()
}

// Puts a number at a key.
fn put(
    numbers: &mut BTreeMap<Vec<u16>, usize>,
    key: Vec<u16>,
    number: usize,
) -> Result<(), OutOfMemory>
    ensures given { OnOk result (Updates by_items numbers.old numbers.new key (Some number)) }
    ensures kept { OnErr result (IsUnchanged numbers.old numbers.new) }
{
    match numbers.insert(key, number) {
        Ok(_) => Ok(()),
        Err(_) => Err(OutOfMemory),
    }
}

// Gives a spelling this number.
fn give_number(
    alloc: Global,
    numbers: &mut BTreeMap<Vec<u16>, usize>,
    spelling: &Text,
    number: usize,
) -> Result<(), OutOfMemory>
    ensures given { OnOk result ((s : List ℕ) → number_of numbers.new s ≡ (if same_text spelling.now s then Some number else number_of numbers.old s)) }
    ensures kept { OnErr result ((s : List ℕ) → number_of numbers.new s ≡ number_of numbers.old s) }
{
    match Vec::from_slice(alloc, spelling.as_slice()) {
        Ok(key) => put(numbers, key, number),
        Err(_) => Err(OutOfMemory),
    }
}

/// The number of a spelling, which is a new one, with an empty bucket, if it has none yet.
pub fn number_or_new(
    alloc: Global,
    numbers: &mut BTreeMap<Vec<u16>, usize>,
    buckets: &mut Vec<Vec<usize>>,
    spelling: &Text,
) -> Result<usize, OutOfMemory>
    ensures held { (bs : List Binding) → Holds numbers.old buckets.old.items bs → Holds numbers.new buckets.new.items bs }
    ensures given { IfOk result (λ number. number_of numbers.new spelling.now ≡ Some number) }
{
    if let Some(number) = number_of(numbers, spelling) {
        return Ok(number);
    }
    let number = buckets.len();
    match buckets.push(Vec::new(alloc)) {
        Ok(()) => {}
        Err(_) => return Err(OutOfMemory),
    }
    match give_number(alloc, numbers, spelling, number) {
        Ok(()) => Ok(number),
        Err(_) => Err(OutOfMemory),
    }
}
