// Programs that nest deeper than the text of JSON may: reading, writing and letting go take no more
// than 8 MiB of stack. A build with checks, as `rt try` makes one, takes more than that.

ghost use Rattle.std.specs.Prelude.{◌≡◌, IfOk};
ghost use Rattle.mini_writer.proofs.Loads.{name_count, name_counts};

use crate::answer::Answer;
use crate::lists::name_node;
use crate::programs::{minify_within, tell};
use crate::words::small_numbered;
use mini_estree::write_program;
use mini_model::{OutOfMemory, Shape, TextList};
use mini_node::{Node, Nodes, expression_statement, listed, negation, of_one};
use serde_json::Value;
use std::alloc::Global;

// `!!..a`, with so many `!` before an expression.
fn negated(alloc: Global, expression: Node, count: u32) -> Result<Node, OutOfMemory> {
    if count == 0 {
        return Ok(expression);
    }
    match negation(alloc, expression) {
        Ok(negated_once) => negated(alloc, negated_once, count - 1),
        Err(_) => Err(OutOfMemory),
    }
}

/// A node over a list.
pub fn over_list(alloc: Global, shape: Shape, items: Nodes) -> Result<Node, OutOfMemory>
    ensures { IfOk result (λ made. name_count made ≡ name_counts items) }
{
    match of_one(alloc, listed(items)) {
        Ok(children) => Ok(Node::new(shape, children)),
        Err(_) => Err(OutOfMemory),
    }
}

/// A script of one statement.
pub fn script(alloc: Global, statement: Node) -> Result<Node, OutOfMemory>
    ensures { IfOk result (λ made. name_count made ≡ name_count statement) }
{
    let shape = Shape::Program(false, TextList::new(alloc));
    match of_one(alloc, statement) {
        Ok(items) => over_list(alloc, shape, items),
        Err(_) => Err(OutOfMemory),
    }
}

// The script `!!..a;`, with so many `!`. The name is at depth 3 where there are none.
fn nested(alloc: Global, count: u32) -> Result<Node, OutOfMemory> {
    let expression = negated(alloc, name_node(alloc)?, count)?;
    match expression_statement(alloc, expression) {
        Ok(statement) => script(alloc, statement),
        Err(_) => Err(OutOfMemory),
    }
}

fn nested_value(alloc: Global, count: u32) -> Option<Value> {
    match nested(alloc, count) {
        Ok(program) => write_program(alloc, &program).ok(),
        Err(_) => None,
    }
}

// What stands below so many `!`.
fn below(expression: &Value, count: u32) -> Option<&Value> {
    if count == 0 {
        return expression.get("type");
    }
    below(expression.get("argument")?, count - 1)
}

// The expression of the first statement.
fn first_expression(program: &Value) -> Option<&Value> {
    program.get("body")?.get(0)?.get("expression")
}

/// What is done with a value that nests deep.
#[derive(Clone, Copy)]
pub enum DeepTask {
    /// It is read.
    Read,
    /// It is minified.
    Minify,
}

fn do_nested(alloc: Global, task: DeepTask, max_depth: u32, value: &Value, out: &mut Answer) {
    match task {
        DeepTask::Read => tell(alloc, max_depth, value, out),
        DeepTask::Minify => minify_within(alloc, max_depth, value, out),
    }
}

fn make_nested(alloc: Global, task: DeepTask, max_depth: u32, count: u32, out: &mut Answer) {
    match nested_value(alloc, count) {
        Some(value) => do_nested(alloc, task, max_depth, &value, out),
        None => out.fail(),
    }
}

/// Whether a value with so many `!` is read, or what is made of it, where nodes may nest so deep.
pub fn do_deep(alloc: Global, task: DeepTask, text: &str, out: &mut Answer) {
    match small_numbered(text) {
        Some((max_depth, count)) => match count.parse::<u32>() {
            Ok(count) => make_nested(alloc, task, max_depth, count, out),
            Err(_) => out.fail(),
        },
        None => out.fail(),
    }
}

fn tell_below(value: &Value, count: u32, out: &mut Answer) {
    match first_expression(value) {
        Some(expression) => match below(expression, count) {
            Some(found) => out.show(found),
            None => out.fail(),
        },
        None => out.fail(),
    }
}

/// The type of what is written below so many `!`.
pub fn write_deep(alloc: Global, count: u32, out: &mut Answer) {
    match nested_value(alloc, count) {
        Some(value) => tell_below(&value, count, out),
        None => out.fail(),
    }
}
