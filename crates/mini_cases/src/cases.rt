// Cases and their answers.

use crate::answer::Answer;
use crate::depth::{DeepTask, do_deep, write_deep};
use crate::library::lighter;
use crate::lists::{change_nodes, change_numbers};
use crate::literals::{answer_text, join, number_text};
use crate::memory::{choose, code, run_in_memory, run_on_spaces, run_plainly};
use crate::nested::resolve_nested;
use crate::programs::{Task, answer_program, echo, write_again};
use crate::weights::{Weighed, weigh};
use crate::words::{TextCase, word_in};
use mini_model::{Position, StmtSeat};
use mini_tree::seats;
use std::alloc::Global;

/// What a line asks for.
#[derive(Clone, Copy)]
enum Case {
    /// A title, which is its own answer.
    Title,
    /// A text as JSON is read, and asked about.
    Text(TextCase),
    /// A program is read, and asked about.
    Program(Task),
    /// The library is called as README.md shows it.
    Lighter,
    /// What is written of a program reads as that program again.
    Again,
    /// A program is written.
    Echo,
    /// The weights of what is read are told.
    Weight(Weighed),
    Run,
    /// A run whose source and sinks never fail.
    Plain,
    Options,
    Numeral,
    Joined,
    List,
    Statements,
    Expressions,
    /// A value that nests deeper than the text of JSON may.
    Deep(DeepTask),
    /// Something is done with a number.
    Number(NumberCase),
}

/// What is done with a number.
#[derive(Clone, Copy)]
enum NumberCase {
    Spaces,
    Code,
    Write,
    Nested,
}

const CASES: [(&str, Case); 32] = [
    ("#", Case::Title),
    ("tell", Case::Program(Task::Tell)),
    ("numbers", Case::Program(Task::Numbers)),
    ("sizes", Case::Program(Task::Sizes)),
    ("minify", Case::Program(Task::Minify)),
    ("answer", Case::Program(Task::Answer)),
    ("shake", Case::Program(Task::Shake)),
    ("edition", Case::Program(Task::Edition)),
    ("lighter", Case::Lighter),
    ("again", Case::Again),
    ("echo", Case::Echo),
    ("expression", Case::Weight(Weighed::Expression)),
    ("statement", Case::Weight(Weighed::Statement)),
    ("run", Case::Run),
    ("plain", Case::Plain),
    ("options", Case::Options),
    ("text", Case::Text(TextCase::Name)),
    ("shortened", Case::Text(TextCase::Shortened)),
    ("safe", Case::Text(TextCase::Safe)),
    ("escaped", Case::Text(TextCase::Escaped)),
    ("cooked", Case::Text(TextCase::Cooked)),
    ("joined", Case::Joined),
    ("numeral", Case::Numeral),
    ("list", Case::List),
    ("statements", Case::Statements),
    ("expressions", Case::Expressions),
    ("read", Case::Deep(DeepTask::Read)),
    ("deep", Case::Deep(DeepTask::Minify)),
    ("spaces", Case::Number(NumberCase::Spaces)),
    ("code", Case::Number(NumberCase::Code)),
    ("write", Case::Number(NumberCase::Write)),
    ("nested", Case::Number(NumberCase::Nested)),
];

/// Adds the answer to a line.
pub fn answer(alloc: Global, line: &str, out: &mut Answer) {
    match line.split_once(' ') {
        Some((word, rest)) => match word_in(&CASES, word) {
            Some(case) => answer_case(alloc, case, rest, out),
            None => out.fail(),
        },
        None => out.fail(),
    }
}

fn answer_case(alloc: Global, case: Case, rest: &str, out: &mut Answer) {
    match case {
        Case::Title => title(rest, out),
        Case::Text(case) => answer_text(alloc, case, rest, out),
        Case::Program(task) => answer_program(alloc, task, rest, out),
        Case::Lighter => show_lighter(alloc, rest, out),
        Case::Again => write_again(alloc, rest, out),
        Case::Echo => echo(alloc, rest, out),
        Case::Weight(weighed) => weigh(alloc, weighed, rest, out),
        Case::Run => run_in_memory(alloc, rest, out),
        Case::Plain => run_plainly(alloc, rest, out),
        Case::Options => choose(alloc, rest, out),
        Case::Numeral => number_text(alloc, rest, out),
        Case::Joined => join(alloc, rest, out),
        Case::List => change_numbers(alloc, rest, out),
        Case::Statements => change_nodes(alloc, rest, Position::Stmt(StmtSeat::List), out),
        Case::Expressions => change_nodes(alloc, rest, Position::Expr(seats::if_test()), out),
        Case::Deep(task) => do_deep(alloc, task, rest, out),
        Case::Number(case) => answer_number(alloc, case, rest, out),
    }
}

fn title(rest: &str, out: &mut Answer) {
    out.text("# ");
    out.text(rest);
}

fn show_lighter(alloc: Global, json: &str, out: &mut Answer) {
    match lighter(alloc, json) {
        Some(program) => out.show(&program),
        None => out.fail(),
    }
}

fn answer_number(alloc: Global, case: NumberCase, text: &str, out: &mut Answer) {
    match text.parse::<u32>() {
        Ok(number) => do_with_number(alloc, case, number, out),
        Err(_) => out.fail(),
    }
}

fn do_with_number(alloc: Global, case: NumberCase, number: u32, out: &mut Answer) {
    match case {
        NumberCase::Spaces => run_on_spaces(alloc, number, out),
        NumberCase::Code => code(number, out),
        NumberCase::Write => write_deep(alloc, number, out),
        NumberCase::Nested => resolve_nested(alloc, number, out),
    }
}
