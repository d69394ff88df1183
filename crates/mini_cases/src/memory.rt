// Whole runs over memory: sources and sinks that fail, that move a few bytes a call, or that have
// little room.

use crate::answer::Answer;
use crate::words::numbered;
use mini_peephole::{Status, run};
use mini_run::{MemSink, MemSource, PlainSink, PlainSource, Words, read_options};
use std::alloc::Global;

/// What a run is over: how many bytes a call moves, for how many bytes the sink has room, and which
/// calls fail.
#[derive(Clone, Copy)]
struct Setting<'a> {
    limit: usize,
    room: usize,
    reads: &'a str,
    writes: &'a str,
    notes: &'a str,
}

// How many bytes the notes have room for.
const ROOM: usize = 1_000;

// No call fails, and each moves all that it can.
const WHOLE: Setting<'static> = Setting {
    limit: usize::MAX,
    room: ROOM,
    reads: "",
    writes: "",
    notes: "",
};

// The numbers between commas. What is no number, as a hyphen, stands for none.
fn numbers(alloc: Global, text: &str, out: &mut Answer) -> Vec<u32> {
    let mut found = Vec::new(alloc);
    for part in text.split(',') {
        if let Ok(number) = part.parse::<u32>() {
            out.done(found.push(number));
        }
    }
    found
}

// The bytes whose numbers the characters are, so that they need be no UTF-8.
fn bytes_of(alloc: Global, text: &str, out: &mut Answer) -> Vec<u8> {
    let mut bytes = Vec::new(alloc);
    for ch in text.chars() {
        if let Ok(byte) = u8::try_from(u32::from(ch)) {
            out.done(bytes.push(byte));
        }
    }
    bytes
}

// Puts the words between bars each behind the others.
fn push_words(words: &mut Words, text: &str, out: &mut Answer) {
    for word in text.split('|') {
        out.done(words.push(word));
    }
}

// The words before the last bar, each with a bar behind it, and what stands behind that bar.
fn words_of<'a>(alloc: Global, text: &'a str, out: &mut Answer) -> (Words, &'a str) {
    let mut words = Words::new(alloc);
    match text.rsplit_once('|') {
        Some((front, rest)) => {
            push_words(&mut words, front, out);
            (words, rest)
        }
        None => (words, text),
    }
}

// The bytes behind a space, if there are any, without spaces and lines at their end.
fn tell_bytes(alloc: Global, bytes: &[u8], out: &mut Answer) {
    if bytes.is_empty() {
        return;
    }
    match String::from_utf8_lossy(alloc, bytes) {
        Ok(text) => out.word(&text.as_str().trim_end()),
        Err(_) => out.fail(),
    }
}

// The status, how many bytes are left, written and told, and which were written or told.
fn tell(alloc: Global, status: Status, left: &[u8], written: &[u8], told: &[u8], out: &mut Answer) {
    out.show(&status.code());
    out.word(&left.len());
    out.word(&written.len());
    out.word(&told.len());
    tell_bytes(alloc, written, out);
    tell_bytes(alloc, told, out);
}

// A run over memory, of which nothing is said: what a line asks of it is computed.
fn run_over(
    alloc: Global,
    words: &Words,
    mut source: MemSource,
    mut sink: MemSink,
    mut notes: MemSink,
    out: &mut Answer,
) {
    let status = run(alloc, words, &mut source, &mut sink, &mut notes);
    tell(
        alloc,
        status,
        source.left(),
        sink.written(),
        notes.written(),
        out,
    );
}

fn run_to(
    alloc: Global,
    setting: Setting,
    words: &Words,
    source: MemSource,
    sink: MemSink,
    out: &mut Answer,
) {
    let fails = numbers(alloc, setting.notes, out);
    match MemSink::new(alloc, ROOM, setting.limit, fails) {
        Ok(notes) => run_over(alloc, words, source, sink, notes, out),
        Err(_) => out.fail(),
    }
}

// A run over memory on words and an input.
fn run_on(alloc: Global, setting: Setting, words: &Words, input: Vec<u8>, out: &mut Answer) {
    let source = MemSource::new(input, setting.limit, numbers(alloc, setting.reads, out));
    let fails = numbers(alloc, setting.writes, out);
    match MemSink::new(alloc, setting.room, setting.limit, fails) {
        Ok(sink) => run_to(alloc, setting, words, source, sink, out),
        Err(_) => out.fail(),
    }
}

// What a line says of a run, and what stands behind that.
fn setting_of(text: &str) -> Option<(Setting<'_>, &str)> {
    let (limit, text) = numbered(text)?;
    let (room, text) = numbered(text)?;
    let (reads, text) = text.split_once(' ')?;
    let (writes, text) = text.split_once(' ')?;
    let (notes, text) = text.split_once(' ')?;
    let setting = Setting {
        limit,
        room,
        reads,
        writes,
        notes,
    };
    Some((setting, text))
}

/// A run over a limit of bytes a call, a room, the calls that fail of the source, of the sink and
/// of the notes, and behind them words, each with a bar behind it, and the input, of which each
/// character is the byte of its number.
pub fn run_in_memory(alloc: Global, text: &str, out: &mut Answer) {
    match setting_of(text) {
        Some((setting, text)) => run_with(alloc, setting, text, out),
        None => out.fail(),
    }
}

fn run_with(alloc: Global, setting: Setting, text: &str, out: &mut Answer) {
    let (words, input) = words_of(alloc, text, out);
    let input = bytes_of(alloc, input, out);
    run_on(alloc, setting, &words, input, out);
}

/// A run whose source and sinks never fail, over words, each with a bar behind it, and the input:
/// the status, and how many bytes are left, written and told.
pub fn run_plainly(alloc: Global, text: &str, out: &mut Answer) {
    let (words, input) = words_of(alloc, text, out);
    let mut source = PlainSource::new(bytes_of(alloc, input, out));
    let mut sink = PlainSink::new();
    let mut notes = PlainSink::new();
    let status = run(alloc, &words, &mut source, &mut sink, &mut notes);
    out.show(&status.code());
    out.word(&source.left().len());
    out.word(&sink.taken());
    out.word(&notes.taken());
}

/// A run on so many spaces, where no call fails and each moves all that it can.
pub fn run_on_spaces(alloc: Global, count: u32, out: &mut Answer) {
    match vec![in alloc; b' '; count as usize] {
        Ok(input) => run_on(alloc, WHOLE, &Words::new(alloc), input, out),
        Err(_) => out.fail(),
    }
}

/// The options that words choose, each with a bar behind it.
pub fn choose(alloc: Global, text: &str, out: &mut Answer) {
    let (words, _) = words_of(alloc, text, out);
    match read_options(&words) {
        Some(found) => {
            out.show(&found.passes);
            out.word(&found.max_depth);
            out.word(&found.sequences);
            out.word(&found.join_vars);
            out.word(&found.keep_names.function);
            out.word(&found.keep_names.class);
            out.word(&found.pure_coercion);
            out.word(&found.known_calls);
            out.word(&found.edition);
        }
        None => out.text("None"),
    }
}

/// The code and the name of a status.
const STATUSES: [(Status, &str); 8] = [
    (Status::Done, "Done"),
    (Status::BadWords, "BadWords"),
    (Status::NotJson, "NotJson"),
    (Status::Refused, "Refused"),
    (Status::ReadFault, "ReadFault"),
    (Status::WriteFault, "WriteFault"),
    (Status::TooLong, "TooLong"),
    (Status::OutOfMemory, "OutOfMemory"),
];

/// The code of the status at a place of the table of the README.
pub fn code(at: u32, out: &mut Answer) {
    match STATUSES.get(at as usize) {
        Some((status, name)) => {
            out.show(&status.code());
            out.word(name);
        }
        None => out.fail(),
    }
}
