//! Resolution: the symbol of each name.

ghost use Rattle.std.specs.Prelude.{◌≡◌, ◌+◌, ◌^◌, ◌<◌, ◌∷◌, [], length, take, map, IfOk, OnOk};
ghost use Rattle.mini_model.specs.Tree.{children, shape_of, is_absent as is_absent_tree};
ghost use Rattle.mini_node.specs.Children.{like, names, names_of, trees_of, with_names};
ghost use Rattle.mini_laws.specs.Scopes.{use_of as use_at};
ghost use Rattle.mini_laws.specs.Resolved.{gives_value as is_given, plain_name, other_name as name_of_other, written_name as name_written, names_in, with_symbol, symbols, symbols_from, resolved, resolved_from, resolved_program};
ghost use Rattle.mini_laws.specs.declared.names.Use.TheVariants as variant;
ghost use Rattle.mini_laws.specs.Symbols.{is_same};
ghost use Rattle.mini_scope.specs.Declarators.{is_declarator_shape};
ghost use Rattle.mini_scope.specs.ScopeAt.{scope_at};

use crate::opening::OpenScopes;
use crate::{Environment, copy_text, is_leaf, use_of};
use mini_laws::Use;
use mini_model::{Name, OutOfMemory, Shape, SymbolId};
use mini_node::{Node, Nodes};
use std::alloc::Global;

fn give_symbol(environment: &Environment, usage: Use, node: &mut Node)
    ensures { node.new ≡ with_names node.old (map (with_symbol usage environment.now) (names_of node.old)) }
{
    if let Some(name) = node.name_mut() {
        name.symbol = environment.symbol_of(usage, &name.spelling);
    }
}

/// Whether a declarator that is used like this gives its name a value.
pub fn gives_value(usage: Use, has_no_init: bool) -> bool
    ensures { result ≡ is_given usage has_no_init }
{
    match usage {
        Use::Headed => true,
        Use::Hoisted => !has_no_init,
        _ => false,
    }
}

fn is_same_symbol(one: Option<SymbolId>, other: Option<SymbolId>) -> bool
    ensures { result ≡ is_same one other }
{
    match (one, other) {
        (None, None) => true,
        (Some(one), Some(other)) => one.0 == other.0,
        _ => false,
    }
}

// The name of the innermost variable with a spelling, where it is another than the one that is
// declared.
fn other_name(
    alloc: Global,
    environment: &Environment,
    usage: Use,
    name: &Name,
) -> Result<Option<Name>, OutOfMemory>
    ensures { IfOk result (λ other. names other ≡ name_of_other usage environment.now (name.now ∷ [])) }
{
    let symbol = environment.symbol_of(Use::Read, &name.spelling);
    if is_same_symbol(symbol, environment.symbol_of(usage, &name.spelling)) {
        return Ok(None);
    }
    let spelling = copy_text(alloc, &name.spelling)?;
    Ok(Some(Name { spelling, symbol }))
}

fn other_of(
    alloc: Global,
    environment: &Environment,
    usage: Use,
    id: &Node,
) -> Result<Option<Name>, OutOfMemory>
    ensures { IfOk result (λ other. names other ≡ name_of_other usage environment.now (plain_name id.now)) }
{
    match (id.shape(), id.name()) {
        (Shape::BindingIdentifier, Some(name)) => other_name(alloc, environment, usage, name),
        _ => Ok(None),
    }
}

fn is_absent(node: &Node) -> bool
    ensures { result ≡ is_absent_tree node.now }
{
    matches!(node.shape(), Shape::Absent)
}

/// The name that a declarator over these children has of its own: that of the variable that it
/// writes, where it is another than the one that it declares, as under a parameter of `catch` of
/// its name. (ECMA-262, "VariableStatements in Catch Clauses".)
fn written_name(
    alloc: Global,
    environment: &Environment,
    usage: Use,
    nodes: &[Node],
) -> Result<Option<Name>, OutOfMemory>
    ensures { IfOk result (λ name. names name ≡ name_written usage environment.now (trees_of nodes.now)) }
{
    match nodes {
        [id, init, ..] => {
            if gives_value(usage, is_absent(init)) {
                other_of(alloc, environment, usage, id)
            } else {
                Ok(None)
            }
        }
        _ => Ok(None),
    }
}

/// Whether a node is a declarator.
pub fn is_declarator(node: &Node) -> bool
    ensures { result ≡ is_declarator_shape (shape_of node.now) }
{
    matches!(node.shape(), Shape::VariableDeclarator)
}

// Gives the name of a node its symbol, and a declarator the name of the variable that it writes.
fn give_names(
    alloc: Global,
    environment: &Environment,
    usage: Use,
    node: &mut Node,
) -> Result<(), OutOfMemory>
    ensures { OnOk result (node.new ≡ with_names node.old (names_in usage environment.now (shape_of node.old) (names_of node.old) (children node.old))) }
{
    if is_declarator(node) {
        let name = written_name(alloc, environment, usage, node.parts())?;
        node.set_name(name);
    } else {
        give_symbol(environment, usage, node);
    }
    Ok(())
}

fn put_children(node: &mut Node, children: Nodes)
    ensures { node.new ≡ like node.old children }
{
    *node.children_mut() = children;
}

/// Gives the names of a node and of all below it their symbols, those of its declarations being
/// numbered from a number on. The answer is the number after them. The only error is that memory
/// runs out.
#[cycle(resolve)]
pub fn resolve_node(
    alloc: Global,
    environment: &mut Environment,
    next: u32,
    usage: Use,
    node: &mut Node,
) -> Result<u32, OutOfMemory>
    requires { next + symbols usage node.old < 2 ^ 32 }
    ensures after { IfOk result (λ after. after ≡ next + symbols usage node.old) }
    ensures resolved { IfOk result (λ after. node.new ≡ resolved usage environment.old next node.old) }
    ensures left { IfOk result (λ after. environment.new ≡ environment.old) }
{
    give_names(alloc, environment, usage, node)?;
    if is_leaf(node) {
        return Ok(next);
    }
    let mut scopes = OpenScopes::of(alloc, usage, node)?;
    let around = environment.len();
    let mut children = node.take_children();
    let after = resolve_nodes(
        alloc,
        environment,
        next,
        usage,
        node.shape(),
        &mut scopes,
        &mut children,
    );
    put_children(node, children);
    environment.leave(around);
    after
}

/// Gives the names of the children of a node of this shape, which opens these scopes, and of all
/// below them their symbols. The answer is the number after those of the new declarations. The only
/// error is that memory runs out.
#[cycle(resolve)]
fn resolve_nodes(
    alloc: Global,
    environment: &mut Environment,
    next: u32,
    usage: Use,
    shape: &Shape,
    scopes: &mut OpenScopes,
    nodes: &mut Nodes,
) -> Result<u32, OutOfMemory>
    requires { next + symbols_from (scope_at scopes.old) (use_at shape.now usage) 0 nodes.old < 2 ^ 32 }
    ensures after { IfOk result (λ after. after ≡ next + symbols_from (scope_at scopes.old) (use_at shape.now usage) 0 nodes.old) }
    ensures resolved { IfOk result (λ after. nodes.new ≡ resolved_from (scope_at scopes.old) (use_at shape.now usage) 0 environment.old next nodes.old) }
    ensures within { IfOk result (λ after. take (length environment.old) environment.new ≡ environment.old) }
{
    let mut next = next;
    for at in 0..nodes.len() {
        next = environment.enter(next, scopes.take(alloc, at))?;
        next = resolve_node(
            alloc,
            environment,
            next,
            use_of(shape, usage, at),
            nodes.child_mut(at),
        )?;
    }
    Ok(next)
}

/// Gives the names of a program their symbols, numbered from 0 on, and says how many declarations
/// it has (ECMA-262, ResolveBinding). The only error is that memory runs out.
pub fn resolve_program(alloc: Global, program: &mut Node) -> Result<u32, OutOfMemory>
    requires { symbols variant.Read program.old < 2 ^ 32 }
    ensures count { IfOk result (λ count. count ≡ symbols variant.Read program.old) }
    ensures resolved { IfOk result (λ count. program.new ≡ resolved_program program.old) }
{
    let mut environment = Environment::new(alloc);
    resolve_node(alloc, &mut environment, 0, Use::Read, program)
}
