//! Answers cases of standard input, a line each, so that what is read, refused, written, weighed
//! and minified can be compared with what was worked out by hand, or is what acorn gives for some
//! code (`stdin` and `stdout`).
//!
//! A line that begins with `#` is a title, and its own answer. Each other one is a word and a value
//! of ESTree as JSON: `tell` and a depth, `numbers`, `again`, `echo`, `lighter`, `expression`,
//! `statement`, or `minify`, `answer` or `shake` and a number of passes. Or it asks for a whole run
//! over memory (`run` and its like, `memory.rt`), for a program that nests deep (`depth.rt`) or for
//! a part of a library: `text`, `numeral`, `cooked`, `list`, `statements`, `sizes` and more
//! (`cases.rt`). `bench/cases.js` writes the lines below the title
//! `Whole runs: which numbers and symbols stay`.
//!
//! With the word `--echo` all of standard input is one program, which is written as the minifier
//! would: every field of each type of node, and no other. With `--json` it is read and written as
//! plain JSON, so that the time of that can be told from the time of all.
//!
//! The repository has one test besides these lines, of a call that no program makes (`mini_steps`),
//! since a crate with tests is proved a second time with them.
#![tactic(auto)]

mod answer;
mod cases;
mod depth;
mod echo;
mod error;
mod library;
mod lists;
mod literals;
mod memory;
mod nested;
mod programs;
mod weights;
mod words;

use answer::Answer;
use cases::answer;
use echo::{echoed, same_json};
use error::NoAnswer;
use std::alloc::Global;
use std::io::Write;
use std::process::ExitCode;
use std::{env, io};

/// What is done with standard input.
#[derive(Clone, Copy)]
enum Task {
    /// The lines of standard input are answered, each as a case.
    Cases,
    /// Standard input is a program, which is written.
    Echo,
    /// Standard input is JSON, which is written.
    Json,
}

fn main(rt: HostRuntime) -> ExitCode {
    match start(&rt) {
        Ok(()) => ExitCode::SUCCESS,
        Err(_) => ExitCode::FAILURE,
    }
}

// What a word asks for.
fn task_of(word: &str) -> Result<Task, NoAnswer> {
    match word {
        "--echo" => Ok(Task::Echo),
        "--json" => Ok(Task::Json),
        _ => Err(NoAnswer),
    }
}

// What the first word asks for, if there is one.
fn asked(rt: &HostRuntime) -> Result<Task, NoAnswer> {
    match env::args(rt)?.nth(1) {
        Some(word) => task_of(word.as_str()),
        None => Ok(Task::Cases),
    }
}

fn start(rt: &HostRuntime) -> Result<(), NoAnswer> {
    let task = asked(rt)?;
    let text = io::read_to_string(rt.alloc(), rt.stdin())?;
    match task {
        Task::Cases => print_answers(rt, &answers(rt.alloc(), text.as_str())),
        Task::Echo => print(rt, echoed(rt.alloc(), text)),
        Task::Json => print(rt, same_json(rt.alloc(), text)),
    }
}

fn print(rt: &HostRuntime, text: Result<String, NoAnswer>) -> Result<(), NoAnswer> {
    Ok(rt.stdout().write_all(text?.as_bytes())?)
}

fn print_answers(rt: &HostRuntime, found: &Answer) -> Result<(), NoAnswer> {
    rt.stdout().write_all(found.as_bytes())?;
    found.ended()
}

// The answers to lines, a line each.
fn answers(alloc: Global, text: &str) -> Answer {
    let mut out = Answer::new(alloc);
    for line in text.lines() {
        answer(alloc, line, &mut out);
        out.text("\n");
    }
    out
}
