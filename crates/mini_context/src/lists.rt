//! Lists of numbers, at an index each: of each symbol, or of each number of a node.

ghost use Rattle.std.specs.Prelude.{◌≡◌, ℕ, ◌||◌, nat_eq, true, [], replicate, IfOk, OnOk};
ghost use Rattle.std.specs.List.{list_any};
ghost use Rattle.mini_context.specs.Lists.{holds, Put};

use mini_model::{OutOfMemory, OwnedList};
use std::alloc::Global;

/// That many empty lists. The only error is that memory runs out.
pub fn no_lists(alloc: Global, length: u32) -> Result<Vec<OwnedList<u32>>, OutOfMemory>
    ensures { IfOk result (λ lists. lists.items ≡ replicate length []) }
{
    let mut lists = Vec::new(alloc);
    for done in 0..length {
        match lists.push(OwnedList::new(alloc)) {
            Ok(()) => {}
            Err(_) => return Err(OutOfMemory),
        }
    }
    Ok(lists)
}

/// Whether a number stands in a list.
pub fn has_number(list: &OwnedList<u32>, number: u32) -> bool
    ensures { result ≡ list_any (nat_eq number) list.now }
{
    for other in list.as_slice() {
        if number == *other {
            return true;
        }
    }
    false
}

/// Whether a number stands in the list at an index; past the last list it doesn't.
pub fn holds_number(lists: &[OwnedList<u32>], at: u32, number: u32) -> bool
    ensures { result ≡ holds lists.now at number }
{
    match lists.get(at as usize) {
        Some(list) => has_number(list, number),
        None => false,
    }
}

fn ends_in(list: &OwnedList<u32>, number: u32) -> bool
    ensures { (result ≡ true) → list_any (nat_eq number) list.now ≡ true }
{
    match list.as_slice() {
        [.., last] => number == *last,
        [] => false,
    }
}

fn add_number(list: &mut OwnedList<u32>, number: u32) -> Result<(), OutOfMemory>
    ensures { OnOk result ((k : ℕ) → list_any (nat_eq k) list.new ≡ (list_any (nat_eq k) list.old || nat_eq number k)) }
{
    if ends_in(list, number) {
        return Ok(());
    }
    list.push(number)
}

/// Puts a number into the list at an index, where there is such a list. The only error is that
/// memory runs out.
pub fn put_number(lists: &mut Vec<OwnedList<u32>>, at: u32, number: u32) -> Result<(), OutOfMemory>
    ensures { OnOk result (Put at number lists.old.items lists.new.items) }
{
    let at = at as usize;
    if at < lists.len() {
        add_number(&mut lists[at], number)
    } else {
        Ok(())
    }
}
