// Lists that are changed step by step. A line has the steps, with commas between them, each of them
// a word, a place and an item; its answer has for each step what it gave, or a hyphen, and what is
// in the list then.

use crate::answer::Answer;
use crate::programs::list;
use crate::words::word_in;
use mini_model::{Name, Numbers, OutOfMemory, Position, Shape, Text};
use mini_node::{
    Node, Nodes, call_expression, empty_statement, expression_statement, identifier, null_literal,
};
use mini_tree::weight;
use std::alloc::Global;

/// What is done with a list.
#[derive(Clone, Copy)]
enum Action {
    Push,
    Insert,
    TryPush,
    TryInsert,
    Set,
    Get,
    Remove,
    Pop,
    IsEmpty,
}

const ACTIONS: [(&str, Action); 9] = [
    ("push", Action::Push),
    ("insert", Action::Insert),
    ("try_push", Action::TryPush),
    ("try_insert", Action::TryInsert),
    ("set", Action::Set),
    ("get", Action::Get),
    ("remove", Action::Remove),
    ("pop", Action::Pop),
    ("is_empty", Action::IsEmpty),
];

/// What is done, where, and with which item.
#[derive(Clone, Copy)]
struct Step<'a> {
    action: Action,
    at: usize,
    item: &'a str,
}

// The step that a text says. One that isn't known asks whether the list is empty.
fn step_of(text: &str) -> Step<'_> {
    let mut parts = text.splitn(3, ' ');
    let word = parts.next().unwrap_or("");
    let at = parts.next().unwrap_or("").parse::<usize>().unwrap_or(0);
    let item = parts.next().unwrap_or("");
    let action = word_in(&ACTIONS, word).unwrap_or(Action::IsEmpty);
    Step { action, at, item }
}

// What a step gave, if anything.
fn tell_given(given: Option<u64>, out: &mut Answer) {
    match given {
        Some(number) => out.show(&number),
        None => out.text("-"),
    }
    out.text(" ");
}

// A step that gives nothing, which fails where it is an error.
fn tell_done<E: Drop>(done: Result<(), E>, out: &mut Answer) {
    out.done(done);
    out.text("- ");
}

fn set_number(numbers: &mut Numbers, at: usize, item: u32, out: &mut Answer) {
    if let Some(number) = numbers.get_mut(at) {
        *number = item;
    }
    out.text("- ");
}

// Makes a step of a list of numbers. One that its place doesn't allow does nothing.
fn change(numbers: &mut Numbers, step: Step, out: &mut Answer) {
    let item = step.item.parse::<u32>().unwrap_or(0);
    let at = step.at.min(numbers.len());
    match step.action {
        Action::Push => tell_done(numbers.push(item), out),
        Action::Insert => tell_done(numbers.insert(at, item), out),
        Action::TryPush => tell_done(numbers.try_push(item), out),
        Action::TryInsert => tell_done(numbers.try_insert(at, item), out),
        Action::Set => set_number(numbers, step.at, item, out),
        Action::Get => tell_given(numbers.get(step.at).copied().map(u64::from), out),
        Action::Remove => tell_given(numbers.remove(step.at).map(u64::from), out),
        Action::Pop => tell_given(numbers.pop().map(u64::from), out),
        Action::IsEmpty => tell_given(Some(u64::from(numbers.is_empty())), out),
    }
}

/// What becomes of an empty list of numbers, step by step.
pub fn change_numbers(alloc: Global, steps: &str, out: &mut Answer) {
    let mut numbers = Numbers::new(alloc);
    for text in steps.split(',') {
        change(&mut numbers, step_of(text), out);
        list(&numbers, out);
        out.text(";");
    }
}

// The node that a word stands for.
fn node_of(alloc: Global, word: &str) -> Result<Node, OutOfMemory> {
    match word {
        ";" => Ok(empty_statement(alloc)),
        "debugger" => Ok(Node::leaf(alloc, Shape::DebuggerStatement)),
        "null" => Ok(null_literal(alloc)),
        "a()" => call_statement(alloc),
        _ => name_node(alloc),
    }
}

// `a();`
fn call_statement(alloc: Global) -> Result<Node, OutOfMemory> {
    let call = call_expression(alloc, name_node(alloc)?, Nodes::new(alloc))?;
    expression_statement(alloc, call)
}

/// `a`
pub fn name_node(alloc: Global) -> Result<Node, OutOfMemory> {
    let spelling = Text::from_str(alloc, "a")?;
    let symbol = None;
    Ok(identifier(alloc, Name { spelling, symbol }))
}

fn set_node(nodes: &mut Nodes, at: usize, item: Node) -> Result<(), OutOfMemory> {
    if let Some(node) = nodes.get_mut(at) {
        *node = item;
    }
    Ok(())
}

// Puts a node into a list. A place behind the end is the end.
fn put_node(alloc: Global, nodes: &mut Nodes, step: Step) -> Result<(), OutOfMemory> {
    let item = node_of(alloc, step.item)?;
    match step.action {
        Action::Insert => nodes.insert(step.at.min(nodes.len()), item),
        Action::Set => set_node(nodes, step.at, item),
        _ => nodes.push(item),
    }
}

fn weigh(node: Option<&Node>, place: Position) -> Option<u64> {
    match node {
        Some(node) => Some(weight(node, place)),
        None => None,
    }
}

// What the node weighs that is last, which is let go.
fn pop_weight(nodes: &mut Nodes, place: Position) -> Option<u64> {
    let last = nodes.pop();
    weigh(last.as_ref(), place)
}

// Makes a step of a list of nodes, and tells what one weighs there that it took out or looked at.
fn change_node(alloc: Global, nodes: &mut Nodes, step: Step, place: Position, out: &mut Answer) {
    match step.action {
        Action::Get => tell_given(weigh(nodes.get(step.at), place), out),
        Action::Pop => tell_given(pop_weight(nodes, place), out),
        Action::IsEmpty => tell_given(Some(u64::from(nodes.is_empty())), out),
        _ => tell_done(put_node(alloc, nodes, step), out),
    }
}

// What each node of a list weighs there.
fn tell_nodes(nodes: &Nodes, place: Position, out: &mut Answer) {
    for node in nodes.as_slice() {
        out.show(&weight(node, place));
        out.text(",");
    }
    out.text(";");
}

/// What becomes of an empty list of nodes at a place, step by step, where a node is told by what it
/// weighs there.
pub fn change_nodes(alloc: Global, steps: &str, place: Position, out: &mut Answer) {
    let mut nodes = Nodes::new(alloc);
    for text in steps.split(',') {
        change_node(alloc, &mut nodes, step_of(text), place, out);
        tell_nodes(&nodes, place, out);
    }
}
