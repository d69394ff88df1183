//! Row 78 of a `do` that is run once: `do { a(); break; } while (0);` becomes
//! `do { a(); } while (0);`, and `do break; while (0);` becomes `do ; while (0);`, each of which is
//! lighter in every place.

ghost use Rattle.std.specs.Prelude.{◌≡◌, ◌<◌, true, is_some, unwrap_or, IfOk, OnOk};
ghost use Rattle.mini_model.specs.Tree.{children, count};
ghost use Rattle.mini_logic.specs.LastContinue.{last_of};
ghost use Rattle.mini_logic.specs.LastBreak as row;
ghost use Rattle.mini_logic.specs.LastBreak.{written};

use crate::rewrites::remove_last_continue::drop_last;
use mini_model::{OutOfMemory, Shape};
use mini_node::{
    Node, Nodes, block, discard, empty_statement, is_absent_part, is_block, one, taken,
};
use mini_terms::{is_true, operand_value};
use std::alloc::Global;

// Whether a test does nothing but give a value that is false.
fn fails(alloc: Global, test: &Node) -> Result<bool, OutOfMemory>
    ensures { IfOk result (λ b. b ≡ row.fails test.now) }
{
    match operand_value(alloc, test)? {
        Some(value) => Ok(!is_true(&value)),
        None => Ok(false),
    }
}

// `break;`
fn breaks(node: &Node) -> bool
    ensures { result ≡ row.breaks node.now }
{
    matches!(node.shape(), Shape::BreakStatement)
        && node.is_bare(1)
        && is_absent_part(node.child(0))
}

// Whether the last statement is `break;`.
fn breaks_last(statements: &Nodes) -> bool
    ensures { result ≡ row.breaks (last_of statements.now) }
{
    let count = statements.len();
    if count == 0 {
        return false;
    }
    breaks(statements.child(count - 1))
}

// `{ a; break; }`
fn ends_breaking(node: &Node) -> bool
    ensures { result ≡ row.ends_breaking node.now }
{
    is_block(node) && breaks_last(node.child(0).children())
}

// Whether it is `break;`, or a block that ends with it.
fn is_broken_end(node: &Node) -> bool
    ensures { result ≡ row.is_broken_end node.now }
{
    breaks(node) || ends_breaking(node)
}

// What is left of it.
fn left_of(alloc: Global, body: Node) -> Result<Node, OutOfMemory>
    ensures { IfOk result (λ made. made ≡ row.left_of body) }
{
    if breaks(&body) {
        discard(body);
        return Ok(empty_statement(alloc));
    }
    let mut statements = one(body).into_children();
    drop_last(&mut statements);
    block(alloc, statements)
}

// `do a while (b);`
fn is_do(node: &Node) -> bool
    ensures kind { result ≡ row.is_do node.now }
    ensures parts { result ≡ true → count (children node.now) ≡ 2 }
{
    matches!(node.shape(), Shape::DoWhileStatement) && node.is_bare(2)
}

// One whose body ends so.
fn is_broken(node: &Node) -> bool
    ensures kind { result ≡ row.is_broken node.now }
    ensures parts { result ≡ true → count (children node.now) ≡ 2 }
{
    is_do(node) && is_broken_end(node.child(0))
}

// Whether it is a `do` whose body ends with `break;`, and whose test fails.
fn is_read(alloc: Global, node: &Node) -> Result<bool, OutOfMemory>
    ensures kind { IfOk result (λ b. b ≡ row.is_read node.now) }
    ensures parts { IfOk result (λ b. b ≡ true → count (children node.now) ≡ 2) }
{
    if is_broken(node) {
        fails(alloc, node.child(1))
    } else {
        Ok(false)
    }
}

// With what is left of its body.
#[tactic(auto, using(crate::proofs::Negations::with_twice, crate::proofs::Negations::count_with))]
fn left_in(alloc: Global, mut node: Node) -> Result<Node, OutOfMemory>
    requires { count (children node) ≡ 2 }
    ensures { IfOk result (λ made. made ≡ row.left_in node) }
{
    let mut children = node.take_children();
    let left = left_of(alloc, children.take(0))?;
    discard(children.replace(0, left));
    Ok(node.over(children))
}

/// The last `break;` of the body of a `do` goes, where its test does nothing but give a value that
/// is false, so that the loop ends behind its body either way (ECMA-262, "Runtime Semantics:
/// DoWhileLoopEvaluation"). The answer says whether it did; the only error is that memory runs out,
/// and then the statement is fit only to be dropped.
pub fn remove_last_break(alloc: Global, node: &mut Node) -> Result<bool, OutOfMemory>
    ensures tree { OnOk result (node.new ≡ unwrap_or (written node.old) node.old) }
    ensures said { IfOk result (λ changed. changed ≡ is_some (written node.old)) }
{
    if is_read(alloc, node)? {
        *node = left_in(alloc, taken(alloc, node))?;
        return Ok(true);
    }
    Ok(false)
}
