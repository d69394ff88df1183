//! A log that is made of the steps of a program.

ghost use Rattle.std.specs.Prelude.{◌≡◌, ◌<◌, ◌≤◌, true, length, Some, IfOk, OnOk};
ghost use Rattle.mini_model.specs.declared.place.Position.TheVariants.{Elsewhere};
ghost use Rattle.mini_log.specs.RowStep.{row_number};
ghost use Rattle.mini_log.specs.Walk.{step_at as step_at_path};
ghost use Rattle.mini_checker.specs.Checked.{replayed_by};
ghost use Rattle.mini_replay.specs.Logged.{EnteredIf, Further, Next, NothingLeft};

use crate::drafting::{draft_log, put_behind};
use crate::seeking::{Found, Seeking, seek};
use mini_checker::{Log, LogEntry, step_at};
use mini_log::row::LogRow;
use mini_model::{Numbers, OutOfMemory, Position};
use mini_node::Node;
use std::alloc::Global;

// The number of a row.
fn number_of(row: LogRow) -> u32
    ensures { result ≡ row_number row }
{
    match row {
        LogRow::Row1 => 1,
        LogRow::Row3 => 3,
        LogRow::Row7 => 7,
        LogRow::Row12 => 12,
        LogRow::Row13 => 13,
        LogRow::Row15 => 15,
        LogRow::Row19 => 19,
        LogRow::Row23 => 23,
        LogRow::Row33 => 33,
        LogRow::Row34 => 34,
        LogRow::Row39 => 39,
        LogRow::Row40 => 40,
        LogRow::Row41 => 41,
        LogRow::Row42 => 42,
        LogRow::Row49 => 49,
        LogRow::Row54 => 54,
        LogRow::Row55 => 55,
        LogRow::Row58 => 58,
        LogRow::Row60 => 60,
        LogRow::Row61 => 61,
        LogRow::Row65 => 65,
        LogRow::Row66 => 66,
        LogRow::Row79 => 79,
        LogRow::Row82 => 82,
    }
}

// The entry of what was found.
fn entry_of(alloc: Global, found: &Found) -> Result<LogEntry, OutOfMemory>
    ensures { IfOk result (λ entry. entry ≡ record { at = found.now.at; row = row_number found.now.row }) }
{
    let mut at = Numbers::new(alloc);
    put_behind(&mut at, found.at.as_slice())?;
    Ok(LogEntry {
        at,
        row: number_of(found.row),
    })
}

// Makes the step of what was found, if it has one, and logs it; says whether it has.
fn make_found<S: Seeking>(
    rows: &S,
    alloc: Global,
    program: &mut Node,
    log: &mut Log,
    found: &Found,
) -> Result<bool, OutOfMemory>
    ensures { IfOk result (EnteredIf (S.makes rows.now) (step_at_path (S.makes rows.now found.now.row) Elsewhere program.old found.now.at) program.old program.new log.old log.new) }
{
    let at = found.at.as_slice();
    if !step_at(rows, alloc, found.row, program, Position::Elsewhere, at)? {
        return Ok(false);
    }
    log.push(entry_of(alloc, found)?)?;
    Ok(true)
}

// Makes the steps of a draft, up to the first that has none or for which there is no room, and logs
// them.
fn make_all<S: Seeking>(
    rows: &S,
    alloc: Global,
    program: &mut Node,
    log: &mut Log,
    max_entries: u32,
    drafted: &[Found],
) -> Result<(), OutOfMemory>
    ensures { OnOk result (Further (S.makes rows.now) program.old program.new log.old log.new max_entries) }
{
    for at in 0..drafted.len() {
        if log.len() >= max_entries as usize {
            return Ok(());
        }
        if !make_found(rows, alloc, program, log, &drafted[at])? {
            return Ok(());
        }
    }
    Ok(())
}

// Drafts steps of the program, makes those, and says whether it made any.
fn make_drafted<S: Seeking>(
    rows: &S,
    alloc: Global,
    program: &mut Node,
    log: &mut Log,
    max_entries: u32,
) -> Result<bool, OutOfMemory>
    ensures further { OnOk result (Further (S.makes rows.now) program.old program.new log.old log.new max_entries) }
    ensures more { IfOk result (λ made. made ≡ true → length log.old < length log.new) }
{
    let before = log.len();
    let drafted = draft_log(rows, alloc, program, max_entries)?;
    make_all(rows, alloc, program, log, max_entries, drafted.as_slice())?;
    Ok(log.len() > before)
}

// Makes one more step of the program, if there is room for its entry, and says whether there was
// one.
fn make_next<S: Seeking>(
    rows: &S,
    alloc: Global,
    program: &mut Node,
    log: &mut Log,
    max_entries: u32,
) -> Result<bool, OutOfMemory>
    ensures { IfOk result (Next (S.makes rows.now) program.old program.new log.old log.new max_entries) }
{
    if log.len() >= max_entries as usize {
        return Ok(false);
    }
    match seek(rows, alloc, program, Position::Elsewhere)? {
        Some(found) => make_found(rows, alloc, program, log, &found),
        None => Ok(false),
    }
}

/// Makes steps of a program by the rows, at most so many, and gives their log. There are fewer only
/// where no row has a step at any path of the last program. Drafts make nearly all of them, in time
/// linear in the program for each draft; a search for a step finds out that none is left.
///
/// The only error is that memory runs out, and then the program is fit only to be dropped.
pub fn log_by<S: Seeking>(
    rows: &S,
    alloc: Global,
    program: &mut Node,
    max_entries: u32,
) -> Result<Log, OutOfMemory>
    ensures replays { IfOk result (λ log. replayed_by (S.makes rows.now) program.old log ≡ Some program.new) }
    ensures bound { IfOk result (λ log. length log ≤ max_entries) }
    ensures all { IfOk result (λ log. length log < max_entries → NothingLeft (S.makes rows.now) program.new) }
{
    let mut log = Log::new(alloc);
    'drafts: while make_drafted(rows, alloc, program, &mut log, max_entries)? {}
    'steps: while make_next(rows, alloc, program, &mut log, max_entries)? {}
    Ok(log)
}
