//! 77: what never runs after a jump goes, and its `var` names stay.
//! `return a; if (b) { var x = 1; }` becomes `return a; var x;`.

ghost use Rattle.std.specs.Prelude.{◌≡◌, ◌<◌, true, Some, IfOk};
ghost use Rattle.mini_laws.specs.DeclaredNames.{names_of as declared_in};
ghost use Rattle.mini_laws.specs.declared.names.Declared.TheVariants as declared;
ghost use Rattle.mini_model.specs.Tree.{absent as nothing, children, count, shape_of};
ghost use Rattle.mini_rows.specs.Lists as list;
ghost use Rattle.mini_stmt.specs.DropUnreached as row;
ghost use Rattle.mini_stmt.specs.DropUnreached.{Dropped, EndsAt, Left, LeftBehind, PutLeft};

use crate::rewrites::fading::{faded, may_fade};
use crate::statements::put_reversed;
use crate::terms::{is_terminated, statement_cares_about_scope};
use mini_held::takes_names_along;
use mini_laws::Declared;
use mini_model::{Name, OutOfMemory, Position, Shape, StmtSeat, VariableDeclarationKind};
use mini_node::{Node, Nodes, absent, discard, listed, of_one, of_two, one};
use mini_scope::push_names;
use mini_tree::{stmt_weight, weight};
use std::alloc::Global;
use std::mem;

/// What may go of what never runs.
#[derive(Clone, Copy)]
pub enum Going {
    /// What declares nothing in its list but `var` names.
    Statements,
    /// Classes, `let`s and `const`s.
    Lexicals,
}

// The `var` names of a statement.
fn hoisted_names(alloc: Global, node: &Node) -> Result<Vec<Name>, OutOfMemory>
    ensures { IfOk result (λ names. names.items ≡ declared_in declared.Hoisted node.now) }
{
    let mut names = Vec::new(alloc);
    push_names(alloc, Declared::Hoisted, node, &mut names)?;
    Ok(names)
}

// `x`, as a declarator without an initializer
fn bare_declarator(alloc: Global, name: Name) -> Result<Node, OutOfMemory>
    ensures { IfOk result (λ made. made ≡ list.declarator (list.binding name) nothing) }
{
    let binding = Node::with(Shape::BindingIdentifier, Some(name), 0, Nodes::new(alloc));
    let children = of_two(alloc, binding, absent(alloc))?;
    Ok(Node::new(Shape::VariableDeclarator, children))
}

// A declarator without an initializer of each name.
fn bare_declarators(alloc: Global, names: Vec<Name>) -> Result<Nodes, OutOfMemory>
    ensures { IfOk result (λ made. made ≡ list.bare_declarators names.items) }
{
    let mut made = Nodes::new(alloc);
    for name in names {
        let declarator = bare_declarator(alloc, name)?;
        made.push(declarator)?;
    }
    Ok(made)
}

// `var x, y;`
fn declared_bare(alloc: Global, declarators: Nodes) -> Result<Node, OutOfMemory>
    ensures { IfOk result (λ made. made ≡ list.declaration VariableDeclarationKind.Var declarators) }
{
    let children = of_one(alloc, listed(declarators))?;
    Ok(Node::new(
        Shape::VariableDeclaration(VariableDeclarationKind::Var),
        children,
    ))
}

/// What is left of a statement that goes: its `var` names, in a `var` without initializers. The
/// only error is that memory runs out.
pub fn left_behind(alloc: Global, node: &Node) -> Result<Nodes, OutOfMemory>
    ensures { IfOk result (λ left. left ≡ list.left_behind node.now) }
{
    let declarators = bare_declarators(alloc, hoisted_names(alloc, node)?)?;
    if declarators.is_empty() {
        return Ok(declarators);
    }
    let made = declared_bare(alloc, declarators)?;
    of_one(alloc, made)
}

// Whether what is left of a statement is lighter.
fn is_lighter(going: Going, left: &Node, node: &Node) -> bool
    requires { left.now ≡ row.left_list going node.now }
    ensures { result ≡ row.is_lighter going node.now }
{
    weight(left, Position::StatementList) < stmt_weight(node, StmtSeat::List)
}

/// Whether what is left of a statement that goes is lighter than it. The only error is that memory
/// runs out.
pub fn is_left_lighter(alloc: Global, node: &Node) -> Result<bool, OutOfMemory>
    ensures { IfOk result (λ lighter. lighter ≡ list.is_lighter_left node.now) }
{
    let left = listed(left_behind(alloc, node)?);
    let lighter = is_lighter(Going::Statements, &left, node);
    discard(left);
    Ok(lighter)
}

// Whether the statement declares nothing else in its list, and takes along each name in it that
// can't be written.
fn is_loose(node: &Node) -> bool
    ensures { result ≡ row.is_loose node.now }
{
    !statement_cares_about_scope(node) && takes_names_along(node)
}

fn may_go(going: Going, node: &Node) -> bool
    ensures { result ≡ row.may_go going node.now }
{
    match going {
        Going::Statements => is_loose(node),
        Going::Lexicals => may_fade(node),
    }
}

// What is left of a statement that goes.
fn remains(alloc: Global, going: Going, node: &Node) -> Result<Nodes, OutOfMemory>
    ensures { IfOk result (λ left. left ≡ row.remains going node.now) }
{
    match going {
        Going::Statements => left_behind(alloc, node),
        Going::Lexicals => faded(alloc, node),
    }
}

// Puts what is left of a statement that may go after the others, if that is lighter, or else the
// statement.
fn put_lighter(
    alloc: Global,
    going: Going,
    before: &mut Nodes,
    statement: Node,
) -> Result<bool, OutOfMemory>
    requires { row.may_go going statement ≡ true }
    ensures { IfOk result (λ went. PutLeft going before.old statement before.new went) }
{
    let left = listed(remains(alloc, going, &statement)?);
    if !is_lighter(going, &left, &statement) {
        discard(left);
        before.push(statement)?;
        return Ok(false);
    }
    discard(statement);
    let mut nodes = left.into_children();
    before.append(&mut nodes)?;
    Ok(true)
}

// Puts what is left of a statement after the others. The answer says whether it goes.
fn put_left(
    alloc: Global,
    going: Going,
    before: &mut Nodes,
    statement: Node,
) -> Result<bool, OutOfMemory>
    ensures { IfOk result (λ went. PutLeft going before.old statement before.new went) }
{
    if !may_go(going, &statement) {
        before.push(statement)?;
        return Ok(false);
    }
    put_lighter(alloc, going, before, statement)
}

// Does all statements, from the first to the last.
fn leave_all(alloc: Global, going: Going, list: &mut Nodes) -> Result<bool, OutOfMemory>
    ensures { IfOk result (λ changed. Left going list.old list.new changed) }
{
    let whole = mem::replace(list, Nodes::new(alloc));
    let mut rest = Nodes::new(alloc);
    put_reversed(&mut rest, whole)?;
    let mut changed = false;
    'statements: while let Some(statement) = rest.pop() {
        let went = put_left(alloc, going, list, statement)?;
        changed = changed | went;
    }
    Ok(changed)
}

// The place of the first statement that ends in a jump.
fn ends_at(list: &Nodes) -> Option<usize>
    ensures { EndsAt list.now result }
{
    for at in 0..list.len() {
        if is_terminated(list.child(at)) {
            return Some(at);
        }
    }
    None
}

// What comes after the statement at a place, which ends in a jump, goes.
fn drop_after(alloc: Global, going: Going, list: &mut Nodes, at: usize) -> Result<bool, OutOfMemory>
    requires { EndsAt list.old (Some at) }
    ensures { IfOk result (λ changed. LeftBehind going list.old list.new changed) }
{
    let mut rest = list.split_off(at)?;
    list.push(rest.remove(0))?;
    let changed = leave_all(alloc, going, &mut rest)?;
    list.append(&mut rest)?;
    Ok(changed)
}

/// What comes after the first statement that ends in a jump goes, as far as it may, but for what is
/// left of it. The answer says whether anything does; the only error is that memory runs out, and
/// then the list is fit only to be dropped.
pub fn drop_behind(alloc: Global, going: Going, list: &mut Nodes) -> Result<bool, OutOfMemory>
    ensures { IfOk result (λ changed. LeftBehind going list.old list.new changed) }
{
    match ends_at(list) {
        Some(at) => drop_after(alloc, going, list, at),
        None => Ok(false),
    }
}

/// What comes after the first statement that ends in a jump goes, but for what it declares. The
/// answer says whether anything does; the only error is that memory runs out, and then the list is
/// fit only to be dropped.
pub fn drop_unreached(alloc: Global, list: &mut Nodes) -> Result<bool, OutOfMemory>
    ensures { IfOk result (λ changed. Dropped list.old list.new changed) }
{
    drop_behind(alloc, Going::Statements, list)
}
