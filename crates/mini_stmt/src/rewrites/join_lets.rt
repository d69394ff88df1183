//! 70: `let a; a = 1;` becomes `let a = 1;`, and `let a; return a = 1, b;` becomes
//! `let a = 1; return b;`, where a can be written.

ghost use Rattle.std.specs.Prelude.{◌≡◌, ◌<◌, true, IfOk};
ghost use Rattle.mini_model.specs.Tree.{absent, children, count};
ghost use Rattle.mini_node.specs.Children.{part, names, rest_children};
ghost use Rattle.mini_node.specs.Kinds.{number as number_in, unary_operator as operator_of};
ghost use Rattle.mini_stmt.specs.JoinAssignments.{beginning_of as begins};
ghost use Rattle.mini_stmt.specs.JoinGuards.{last_after};
ghost use Rattle.mini_stmt.specs.JoinLets as row;
ghost use Rattle.mini_stmt.specs.JoinLets.{AllJoined, Gives, Joined, JoinsLets, JoinsValues, PutJoined, Rests, WithValue, marked};
ghost use Rattle.mini_stmt.specs.Lighter.{lets_lighter};

use crate::rewrites::drop_lexicals::drop_lexicals;
use crate::rewrites::join_assignments::{
    assigns_first, beginning_of, declares_bare, initialised, leave,
};
use crate::rewrites::join_vars::declares;
use crate::statements::{put_reversed, take_last};
use mini_context::{Scopes, TraverseCtx};
use mini_model::{Name, OutOfMemory, Position, Shape, UnaryOperator, VariableDeclarationKind};
use mini_node::{Node, Nodes, is_listed, listed, number, of_one, one, unary_operator};
use mini_tree::Rule;
use std::alloc::Global;
use std::mem;

// `0`
fn is_zero(node: &Node) -> bool
    ensures { result ≡ row.is_zero (number_in node.now) }
{
    match number(node) {
        Some(value) => value == 0,
        None => false,
    }
}

// `0` or `1`
fn is_digit(node: &Node) -> bool
    ensures { result ≡ row.is_digit (number_in node.now) }
{
    match number(node) {
        Some(value) => value == 0 || value == 1,
        None => false,
    }
}

// `void 0`, `!0` or `!1`
fn is_over_digit(node: &Node) -> bool
    ensures { result ≡ row.is_over_digit (operator_of node.now) (part node.now 0) }
{
    match unary_operator(node) {
        Some(UnaryOperator::Void) => is_zero(node.child(0)),
        Some(UnaryOperator::LogicalNot) => is_digit(node.child(0)),
        _ => false,
    }
}

// A number, a text, `null`, `void 0`, `!0` or `!1`.
fn is_known(node: &Node) -> bool
    ensures { result ≡ row.is_known node.now }
{
    match node.shape() {
        Shape::NumericLiteral(_) | Shape::StringLiteral(_) | Shape::NullLiteral => node.is_bare(0),
        Shape::UnaryExpression(_) => is_over_digit(node),
        _ => false,
    }
}

// Whether a scope declares the name, and it can be written.
fn may_write(name: &Option<Name>, scopes: &Scopes) -> bool
    ensures { result ≡ row.may_write_in (marked scopes.now) (names name.now) }
{
    match name {
        Some(name) => match name.symbol {
            Some(symbol) => scopes.is_mentioned_writable(symbol),
            None => false,
        },
        None => false,
    }
}

// Whether a value that is written out is assigned to a name that can be written.
fn writes_value(assignment: &Node, scopes: &Scopes) -> bool
    requires { count (children assignment.now) ≡ 2 }
    ensures { result ≡ row.writes_value (marked scopes.now) assignment.now }
{
    is_known(assignment.child(1)) && may_write(assignment.child(0).name(), scopes)
}

// Whether the last declarator has no initializer, and the name that is assigned to.
fn takes_last(list: &Nodes, target: &Node) -> bool
    ensures { result ≡ row.takes_last target.now list.now }
{
    let count = list.len();
    if count == 0 {
        return false;
    }
    declares_bare(list.child(count - 1), target)
}

// Whether the second begins by assigning to the last name of the first.
fn assigns_last(first: &Node, next: &Node) -> bool
    requires { 0 < count (children first.now) }
    ensures kind { result ≡ row.assigns_last first.now next.now }
    ensures parts { result ≡ true → 0 < count (children next.now) }
    ensures target { result ≡ true → count (children (begins next.now)) ≡ 2 }
{
    assigns_first(next) && takes_last(first.child(0).children(), beginning_of(next).child(0))
}

// Whether the first is a `let`, whose last name the second begins by assigning to.
fn may_join(first: &Node, next: &Node) -> bool
    ensures kind { result ≡ row.may_join first.now next.now }
    ensures parts { result ≡ true → 0 < count (children next.now) }
    ensures target { result ≡ true → count (children (begins next.now)) ≡ 2 }
{
    declares(first, VariableDeclarationKind::Let) && assigns_last(first, next)
}

// Whether the value goes into the first.
fn joins_let(first: &Node, next: &Node, scopes: &Scopes) -> bool
    ensures { result ≡ row.joins_let (marked scopes.now) first.now next.now }
{
    may_join(first, next) && writes_value(beginning_of(next), scopes)
}

// Whether the one after a place is joined to the one there.
fn joins_next(list: &Nodes, at: usize, scopes: &Scopes) -> bool
    requires { at < count list.now }
    ensures { result ≡ row.joins_first (marked scopes.now) (rest_children at list.now) }
{
    let last = list.len() - 1;
    if at == last {
        return false;
    }
    joins_let(list.child(at), list.child(at + 1), scopes)
}

// Whether nothing is joined to a `let` before it.
fn are_joined(list: &Nodes, scopes: &Scopes) -> bool
    ensures { result ≡ row.are_joined (marked scopes.now) list.now }
{
    for at in 0..list.len() {
        if joins_next(list, at, scopes) {
            return false;
        }
    }
    true
}

// Whether the statement is joined to the last of the others.
fn joins_last(before: &Nodes, statement: &Node, scopes: &Scopes) -> bool
    ensures { result ≡ row.joins_last (marked scopes.now) before.now statement.now }
{
    let count = before.len();
    if count == 0 {
        return false;
    }
    joins_let(before.child(count - 1), statement, scopes)
}

// `let a, c = 1;`, of `let a, c;`
fn with_value(alloc: Global, declaration: Node, value: Node) -> Result<Node, OutOfMemory>
    requires some { 0 < count (children (part declaration 0)) }
    requires parts { 1 < count (children (last_after absent (children (part declaration 0)))) }
    ensures { IfOk result (WithValue declaration value) }
{
    let mut declarators = one(declaration).into_children();
    let last = take_last(&mut declarators);
    declarators.push(initialised(last, value))?;
    let children = of_one(alloc, listed(declarators))?;
    Ok(Node::new(
        Shape::VariableDeclaration(VariableDeclarationKind::Let),
        children,
    ))
}

// The `let` with the value in it, and what is left of the statement.
fn join_let(alloc: Global, first: Node, next: Node) -> Result<(Node, Nodes), OutOfMemory>
    requires { row.may_join first next ≡ true }
    ensures { IfOk result (λ made. Joined first next made.0 made.1) }
{
    let (value, left) = leave(alloc, next)?;
    let declared = with_value(alloc, first, value)?;
    Ok((declared, left))
}

// Puts the statement after the others, joined to the last of them where the row does that. The
// answer says whether it did.
fn put_joined(
    alloc: Global,
    before: &mut Nodes,
    statement: Node,
    scopes: &Scopes,
) -> Result<bool, OutOfMemory>
    ensures { IfOk result (PutJoined (marked scopes.now) before.old statement before.new) }
{
    if !joins_last(before, &statement, scopes) {
        before.push(statement)?;
        return Ok(false);
    }
    let last = take_last(before);
    let (declared, mut left) = join_let(alloc, last, statement)?;
    before.push(declared)?;
    before.append(&mut left)?;
    Ok(true)
}

// Does all statements, from the first to the last.
fn join_all(alloc: Global, list: &mut Nodes, scopes: &Scopes) -> Result<bool, OutOfMemory>
    ensures { IfOk result (AllJoined (marked scopes.now) list.old list.new) }
{
    let whole = mem::replace(list, Nodes::new(alloc));
    let mut rest = Nodes::new(alloc);
    put_reversed(&mut rest, whole)?;
    let mut changed = false;
    'statements: while let Some(statement) = rest.pop() {
        let joined = put_joined(alloc, list, statement, scopes)?;
        changed = changed | joined;
    }
    Ok(changed)
}

/// Each value that is written out and assigned to the last name of the `let` before it as an
/// initializer in it, where the program lets the name be written. The answer says whether there was
/// one; the only error is that memory runs out, and then the list is fit only to be dropped.
pub fn join_lets(alloc: Global, node: &mut Node, scopes: &Scopes) -> Result<bool, OutOfMemory>
    ensures { IfOk result (JoinsValues (marked scopes.now) node.old node.new) }
{
    if !is_listed(node) || are_joined(node.children(), scopes) {
        return Ok(false);
    }
    join_all(alloc, node.children_mut(), scopes)
}

/// A list of statements without what either row of `let`s reads: values that are assigned go into
/// the `let` before them, and where none does, what would initialize a class, a `let` or a `const`
/// that never runs goes. The answer says whether the list changed; the only error is that memory
/// runs out, and then the list is fit only to be dropped.
pub fn minimize_lets(alloc: Global, node: &mut Node, scopes: &Scopes) -> Result<bool, OutOfMemory>
    ensures { IfOk result (JoinsLets (marked scopes.now) node.old node.new) }
{
    if join_lets(alloc, node, scopes)? {
        return Ok(true);
    }
    drop_lexicals(alloc, node)
}

// Whether a list of statements stands there.
fn is_list_place(place: Position) -> bool
    ensures { result ≡ row.is_list_place place }
{
    matches!(place, Position::StatementList | Position::BodyList)
}

/// The rows of a `let` and an assignment after it, and of lexical declarations that never run, as a
/// rule: of each list of statements. Its context says which names the program that it knows lets be
/// written.
pub struct JoinLets;

impl Rule<TraverseCtx> for JoinLets {
    ghost gives = { Gives };

    ghost rests = { λ o q. Rests q };

    ghost lighter = { λ o q. lets_lighter q };

    fn apply(
        &self,
        alloc: Global,
        node: &mut Node,
        place: Position,
        context: &mut TraverseCtx,
    ) -> Result<bool, OutOfMemory> {
        if !is_list_place(place) {
            return Ok(false);
        }
        Ok(minimize_lets(alloc, node, &context.scopes)?)
    }
}
