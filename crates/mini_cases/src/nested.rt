// Scopes in one another, more than the text of JSON may hold.

ghost use Rattle.std.specs.Prelude.{◌≡◌, ◌+◌, ◌≤◌, IfOk};
ghost use Rattle.mini_writer.proofs.Loads.{name_count};

use crate::answer::Answer;
use crate::depth::{over_list, script};
use mini_context::{Scopes, resolve};
use mini_model::{Name, OutOfMemory, Shape, SymbolId, Text, VariableDeclarationKind};
use mini_node::{Node, Nodes, expression_statement, identifier, of_one, of_two};
use std::alloc::Global;

// The names are a0, a1 and so on.
fn name_at(alloc: Global, index: u32) -> Result<Name, OutOfMemory> {
    match format!(in alloc; "a{index}") {
        Ok(text) => named(alloc, text.as_str()),
        Err(_) => Err(OutOfMemory),
    }
}

fn named(alloc: Global, text: &str) -> Result<Name, OutOfMemory> {
    let spelling = Text::from_str(alloc, text)?;
    Ok(Name {
        spelling,
        symbol: None,
    })
}

// The declaration `let NAME;`.
fn declaration(alloc: Global, name: Name) -> Result<Node, OutOfMemory>
    ensures { IfOk result (λ made. name_count made ≡ 1) }
{
    let id = Node::with(Shape::BindingIdentifier, Some(name), 0, Nodes::new(alloc));
    match of_two(alloc, id, Node::leaf(alloc, Shape::Absent)) {
        Ok(parts) => declare(alloc, Node::new(Shape::VariableDeclarator, parts)),
        Err(_) => Err(OutOfMemory),
    }
}

fn declare(alloc: Global, declarator: Node) -> Result<Node, OutOfMemory>
    ensures { IfOk result (λ made. name_count made ≡ name_count declarator) }
{
    let shape = Shape::VariableDeclaration(VariableDeclarationKind::Let);
    match of_one(alloc, declarator) {
        Ok(items) => over_list(alloc, shape, items),
        Err(_) => Err(OutOfMemory),
    }
}

// The block `{ let NAME; INNER }`.
fn block_around(alloc: Global, name: Name, inner: Node) -> Result<Node, OutOfMemory>
    ensures { IfOk result (λ made. name_count made ≡ name_count inner + 1) }
{
    let items = of_two(alloc, declaration(alloc, name)?, inner)?;
    over_list(alloc, Shape::BlockStatement, items)
}

// So many blocks in one another around a statement, each of which declares a name.
fn nested_blocks(alloc: Global, statement: Node, count: u32) -> Result<Node, OutOfMemory>
    ensures { IfOk result (λ made. name_count made ≡ name_count statement + count) }
{
    if count == 0 {
        return Ok(statement);
    }
    let block = block_around(alloc, name_at(alloc, count - 1)?, statement)?;
    nested_blocks(alloc, block, count - 1)
}

// A script of so many blocks in one another, each of which declares a name; the innermost reads
// that of the outermost.
fn nested_program(alloc: Global, count: u32) -> Result<Node, OutOfMemory>
    ensures { IfOk result (λ made. name_count made ≡ count + 1) }
{
    let name = name_at(alloc, 0)?;
    let statement = expression_statement(alloc, identifier(alloc, name))?;
    let blocks = nested_blocks(alloc, statement, count)?;
    script(alloc, blocks)
}

fn tell_resolved(alloc: Global, mut program: Node, count: u32, out: &mut Answer)
    requires { name_count program ≤ 100001 }
{
    match resolve(alloc, &mut program) {
        Ok(scopes) => tell_scopes(&scopes, count, out),
        Err(_) => out.fail(),
    }
}

fn tell_scopes(scopes: &Scopes, count: u32, out: &mut Answer) {
    out.show(&scopes.scope_of(SymbolId(count.saturating_sub(1))).0);
    out.word(&scopes.reads(SymbolId(0)));
}

/// Adds the number of the scope of the innermost name of so many blocks, and how often the
/// outermost name is read.
pub fn resolve_nested(alloc: Global, count: u32, out: &mut Answer) {
    if count > 100_000 {
        return out.fail();
    }
    match nested_program(alloc, count) {
        Ok(program) => tell_resolved(alloc, program, count, out),
        Err(_) => out.fail(),
    }
}
