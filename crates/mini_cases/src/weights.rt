// What trees weigh.

use crate::answer::Answer;
use crate::programs::program;
use mini_model::StmtSeat;
use mini_node::Node;
use mini_tree::{expr_weight, seats, stmt_weight};
use std::alloc::Global;

/// What is weighed.
#[derive(Clone, Copy)]
pub enum Weighed {
    /// An expression, as the test of an `if`.
    Expression,
    /// A statement of a module, in a list, as a body and as a consequent.
    Statement,
}

// What stands before it in a program, and behind it.
const AS_TEST: (&str, &str) = (
    r#"{"type":"Program","sourceType":"script","body":[{"type":"IfStatement","test":"#,
    r#","consequent":{"type":"EmptyStatement"}}]}"#,
);

const IN_MODULE: (&str, &str) = (r#"{"type":"Program","sourceType":"module","body":["#, "]}");

/// The weights of what a text says.
pub fn weigh(alloc: Global, weighed: Weighed, text: &str, out: &mut Answer) {
    let (before, behind) = match weighed {
        Weighed::Expression => AS_TEST,
        Weighed::Statement => IN_MODULE,
    };
    match format!(in alloc; "{before}{text}{behind}") {
        Ok(text) => weigh_program(alloc, weighed, text.as_str(), out),
        Err(_) => out.fail(),
    }
}

fn weigh_program(alloc: Global, weighed: Weighed, text: &str, out: &mut Answer) {
    match program(alloc, text, out) {
        Some(found) => weigh_first(weighed, &found.root, out),
        None => out.fail(),
    }
}

// The first statement of a program, or its test.
fn weigh_first(weighed: Weighed, program: &Node, out: &mut Answer) {
    match first(program, 2) {
        Some(statement) => match weighed {
            Weighed::Expression => weigh_test(statement, out),
            Weighed::Statement => tell_weights(statement, out),
        },
        None => out.fail(),
    }
}

// The first child of the first child, and so on, so many steps down.
fn first(node: &Node, steps: u32) -> Option<&Node> {
    if steps == 0 {
        return Some(node);
    }
    first(node.parts().first()?, steps - 1)
}

fn weigh_test(statement: &Node, out: &mut Answer) {
    match first(statement, 1) {
        Some(test) => out.show(&expr_weight(test, seats::if_test())),
        None => out.fail(),
    }
}

fn tell_weights(statement: &Node, out: &mut Answer) {
    out.show(&stmt_weight(statement, StmtSeat::List));
    out.word(&stmt_weight(statement, StmtSeat::Body));
    out.word(&stmt_weight(statement, StmtSeat::Consequent));
}
