//! A log of rewrites as it is read from JSON.

ghost use Rattle.std.specs.Prelude.{◌≡◌, Some, None, Err, IfOk};
ghost use Rattle.serde_json.specs.View.{view, items_view};
ghost use Rattle.mini_model.specs.Faults.{Fails, Gives};
ghost use Rattle.mini_certificate.specs.Logs as logs;

use mini_checker::{Log, LogEntry};
use mini_model::{MinifyError, Numbers, OutOfMemory, bad_shape};
use serde_json::Value;
use std::alloc::Global;

// A whole number below 2^32.
fn number_at(value: &Value) -> Option<u32>
    ensures { result ≡ logs.number_at (view value.now) }
{
    match u32::try_from(value.as_u64()?) {
        Ok(number) => Some(number),
        Err(_) => None,
    }
}

// The numbers of a list; None where an item is none.
#[tactic(auto, using(crate::proofs::Items::behind_none, crate::proofs::Items::numbers_step, crate::proofs::Items::numbers_stop, crate::proofs::Items::numbers_end))]
fn numbers_in(alloc: Global, values: &[Value]) -> Result<Option<Numbers>, OutOfMemory>
    ensures { IfOk result (λ path. path ≡ logs.numbers_in (items_view values.now)) }
{
    let mut path = Numbers::new(alloc);
    for value in values {
        match number_at(value) {
            Some(number) => path.push(number)?,
            None => return Ok(None),
        }
    }
    Ok(Some(path))
}

fn path_at(alloc: Global, value: &Value) -> Result<Option<Numbers>, OutOfMemory>
    ensures { IfOk result (λ path. path ≡ logs.path_at (view value.now)) }
{
    match value.as_array() {
        Some(values) => numbers_in(alloc, values),
        None => Ok(None),
    }
}

fn entry_of(row: Option<u32>, path: Option<Numbers>) -> Option<LogEntry>
    ensures { result ≡ logs.entry_of row path }
{
    match (row, path) {
        (Some(row), Some(at)) => Some(LogEntry { at, row }),
        _ => None,
    }
}

// The entry of a row and a path; None where they are none.
#[tactic(auto, using(crate::proofs::Items::too_short, crate::proofs::Items::too_long))]
fn entry_in(alloc: Global, values: &[Value]) -> Result<Option<LogEntry>, OutOfMemory>
    ensures { IfOk result (λ entry. entry ≡ logs.entry_in (items_view values.now)) }
{
    match values {
        [row, path] => Ok(entry_of(number_at(row), path_at(alloc, path)?)),
        [] | [_] | [_, _, _, ..] => Ok(None),
    }
}

fn entry_at(alloc: Global, value: &Value) -> Result<Option<LogEntry>, OutOfMemory>
    ensures { IfOk result (λ entry. entry ≡ logs.entry_at (view value.now)) }
{
    match value.as_array() {
        Some(values) => entry_in(alloc, values),
        None => Ok(None),
    }
}

// The error of an item that is no entry.
fn no_entry(alloc: Global, index: usize) -> MinifyError
    ensures { Fails result (logs.entry_or index None) }
{
    bad_shape(alloc).under_item(alloc, "log", index)
}

fn read_entry(alloc: Global, index: usize, value: &Value) -> Result<LogEntry, MinifyError>
    ensures { Gives (λ entry. entry) result (logs.entry_or index (logs.entry_at (view value.now))) }
{
    match entry_at(alloc, value)? {
        Some(entry) => Ok(entry),
        None => Err(no_entry(alloc, index)),
    }
}

#[tactic(auto, using(crate::proofs::Items::onto_none, crate::proofs::Items::entries_step, crate::proofs::Items::entries_stop, crate::proofs::Items::entries_end))]
fn read_entries(alloc: Global, values: &[Value]) -> Result<Log, MinifyError>
    ensures { Gives (λ log. log) result (logs.entries_from 0 (items_view values.now)) }
{
    let mut log = Log::new(alloc);
    for (index, value) in values.iter().enumerate() {
        log.push(read_entry(alloc, index, value)?)?;
    }
    Ok(log)
}

/// The log of a list of entries `[row, [index, ..]]`, numbers all below 2^32, which is the member
/// `log` of an object.
///
/// `BadShape` points from that object to the log, where that is no list, or to the first item that
/// is no entry. `OutOfMemory` may come in place of any answer.
pub fn read_log(alloc: Global, value: &Value) -> Result<Log, MinifyError>
    ensures { Gives (λ log. log) result (logs.log_at (view value.now)) }
{
    match value.as_array() {
        Some(values) => read_entries(alloc, values),
        None => Err(bad_shape(alloc).under(alloc, "log")),
    }
}
