// What is read of programs, and what the minifier makes of them.

use crate::answer::Answer;
use crate::echo::echoed;
use crate::words::small_numbered;
use mini_estree::{Numbered, fits, read_program};
use mini_peephole::{CompressOptions, Minified, MinifyError, Numbers, minify_estree};
use mini_shaken::shake_estree;
use mini_writer::{count_units, count_values};
use serde_json::Value;
use std::alloc::Global;

/// What is asked of a program, or of another value.
#[derive(Clone, Copy)]
pub enum Task {
    /// Whether the value is read within a depth: `Ok`, or the error and the pointer of the node
    /// that has the defect.
    Tell,
    /// How many nodes of the program have a number.
    Numbers,
    /// How many JSON values the value is made of, how many UTF-16 units its texts have, and whether
    /// it is small enough to be minified.
    Sizes,
    /// What the minifier makes of the program in at most that many passes: how many it made,
    /// whether nothing is left to do, and the program.
    Minify,
    /// What became of the nodes with a number and of the symbols, and behind that what `Minify`
    /// tells.
    Answer,
    /// The same where dead items go besides.
    Shake,
    /// The same as `Answer` where no form newer than an edition is written.
    Edition,
}

// How deep the nodes of a value may nest where a case says nothing of it.
const MAX_DEPTH: u32 = 30;

// How long a pointer may be that is told.
const MAX_POINTER: usize = 4_000;

/// What is asked of the value of a text, before which a number may stand.
pub fn answer_program(alloc: Global, task: Task, text: &str, out: &mut Answer) {
    let (number, text) = match task {
        Task::Numbers | Task::Sizes => (MAX_DEPTH, text),
        _ => small_numbered(text).unwrap_or((0, "")),
    };
    match Value::from_str(alloc, text) {
        Ok(value) => answer_value(alloc, task, number, &value, out),
        Err(_) => out.fail(),
    }
}

fn answer_value(alloc: Global, task: Task, number: u32, value: &Value, out: &mut Answer) {
    match task {
        Task::Tell => tell(alloc, number, value, out),
        Task::Numbers => count_numbers(alloc, value, out),
        Task::Sizes => sizes(value, out),
        Task::Minify => minify(alloc, &passes_of(number), value, false, out),
        Task::Answer => minify(alloc, &passes_of(number), value, true, out),
        Task::Shake => shake(alloc, &passes_of(number), value, out),
        Task::Edition => minify(alloc, &edition_of(number), value, true, out),
    }
}

// An error, and the pointer of the node that has it, or how long that is where it is too long to be
// told.
fn refuse(error: &MinifyError, out: &mut Answer) {
    let place = error.place();
    out.text(error.variant());
    if place.len() > MAX_POINTER {
        out.word(&place.len());
    } else {
        out.word(&place);
    }
}

/// The program of a value whose nodes nest so deep at most. Why there is none is added to the
/// answer.
pub fn read(alloc: Global, value: &Value, max_depth: u32, out: &mut Answer) -> Option<Numbered> {
    match read_program(alloc, value, max_depth) {
        Ok(found) => Some(found),
        Err(error) => {
            refuse(&error, out);
            None
        }
    }
}

/// Whether a value is read within a depth: `Ok`, or the error and the pointer of the node that has
/// the defect.
pub fn tell(alloc: Global, max_depth: u32, value: &Value, out: &mut Answer) {
    if read(alloc, value, max_depth, out).is_some() {
        out.text("Ok");
    }
}

/// The program that a text says.
pub fn program(alloc: Global, text: &str, out: &mut Answer) -> Option<Numbered> {
    match Value::from_str(alloc, text) {
        Ok(value) => read(alloc, &value, MAX_DEPTH, out),
        Err(_) => None,
    }
}

fn count_numbers(alloc: Global, value: &Value, out: &mut Answer) {
    match read(alloc, value, MAX_DEPTH, out) {
        Some(found) => out.show(&found.numbers),
        None => out.fail(),
    }
}

fn sizes(value: &Value, out: &mut Answer) {
    out.show(&count_values(value));
    out.word(&count_units(value));
    out.word(&fits(value));
}

/// Numbers in brackets, with commas between them.
pub fn list(numbers: &Numbers, out: &mut Answer) {
    let mut before = "[";
    for number in numbers.as_slice() {
        out.text(before);
        out.show(number);
        before = ",";
    }
    if numbers.is_empty() {
        out.text("[");
    }
    out.text("]");
}

fn tell_minified(found: &Minified, with_numbers: bool, out: &mut Answer) {
    if with_numbers {
        list(&found.kept, out);
        out.text(" ");
        list(&found.symbols, out);
        out.text(" ");
    }
    out.show(&found.passes);
    out.word(&found.settled);
    out.word(&found.program);
}

fn passes_of(passes: u32) -> CompressOptions {
    CompressOptions {
        passes,
        ..CompressOptions::new()
    }
}

// A year that 16 bits don't hold is later than any.
fn edition_of(year: u32) -> CompressOptions {
    let edition = if year < 65_535 { year as u16 } else { 65_535 };
    CompressOptions {
        edition,
        ..CompressOptions::new()
    }
}

fn depth_of(max_depth: u32) -> CompressOptions {
    CompressOptions {
        max_depth,
        ..CompressOptions::new()
    }
}

fn minify(
    alloc: Global,
    options: &CompressOptions,
    value: &Value,
    with_numbers: bool,
    out: &mut Answer,
) {
    if !fits(value) {
        return out.fail();
    }
    match minify_estree(alloc, value, options) {
        Ok(found) => tell_minified(&found, with_numbers, out),
        Err(error) => refuse(&error, out),
    }
}

fn shake(alloc: Global, options: &CompressOptions, value: &Value, out: &mut Answer) {
    if !fits(value) {
        return out.fail();
    }
    match shake_estree(alloc, value, options) {
        Ok(found) => tell_minified(&found, true, out),
        Err(error) => refuse(&error, out),
    }
}

/// What the minifier makes of a value whose nodes may nest so deep.
pub fn minify_within(alloc: Global, max_depth: u32, value: &Value, out: &mut Answer) {
    minify(alloc, &depth_of(max_depth), value, false, out);
}

fn echoed_text(alloc: Global, text: &str) -> Option<String> {
    match String::from_str(alloc, text) {
        Ok(text) => echoed(alloc, text).ok(),
        Err(_) => None,
    }
}

/// What is written of a program of any depth.
pub fn echo(alloc: Global, text: &str, out: &mut Answer) {
    match echoed_text(alloc, text) {
        Some(back) => out.text(back.as_str()),
        None => out.fail(),
    }
}

/// Whether what is written of a program reads as that program again.
pub fn write_again(alloc: Global, text: &str, out: &mut Answer) {
    match echoed_text(alloc, text) {
        Some(first) => compare(alloc, first.as_str(), out),
        None => out.fail(),
    }
}

fn compare(alloc: Global, first: &str, out: &mut Answer) {
    match echoed_text(alloc, first) {
        Some(second) => tell_same(first == second.as_str(), out),
        None => out.fail(),
    }
}

fn tell_same(same: bool, out: &mut Answer) {
    if same {
        out.text("the same");
    } else {
        out.text("another");
    }
}
