//! The scopes of a program, in the order in which they are entered.

ghost use Rattle.std.specs.Prelude.{◌≡◌, ◌<◌, ℕ, nat_eq, ◌&&◌, ◌∷◌, [], ◌++◌, take, length, replicate, slice_index, false, IfOk, OnOk, if◌then◌else◌};
ghost use Rattle.mini_model.specs.Tree.{children, shape_of};
ghost use Rattle.mini_node.specs.Children.{trees_of, names, rest_children};
ghost use Rattle.mini_laws.specs.Shared.{pattern_writes as pattern_writes_of, pattern_writes_from};
ghost use Rattle.mini_laws.specs.Strict.{is_strict_in as is_strict_at};
ghost use Rattle.mini_laws.specs.Scopes.{use_of as use_at};
ghost use Rattle.mini_laws.specs.ScopeList.{any_has_eval as any_has_eval_in, calls_eval as calls_eval_in, entered, has_eval as has_eval_in, is_eval, is_eval_call as is_eval_call_in, is_eval_callee as is_eval_callee_in, least_scopes as least_in, names_in, scope_list, scope_list_from};
ghost use Rattle.mini_scope.specs.ScopeAt.{scope_at};
ghost use Rattle.mini_context.specs.Tables.{Listed, Marked, OwnedBy, Unlisted};

use crate::count::zeros;
use crate::giving::{enter_scope, mark_pattern_writes};
use crate::marks::{mark_bindings, no_marks};
use crate::standing::{Reading, reading_below};
use crate::strictness::is_strict_in;
use mini_laws::Binding;
use mini_model::{Name, OutOfMemory, Shape, SymbolId};
use mini_node::{Node, Nodes};
use mini_scope::{Environment, OpenScopes, is_leaf};
use std::alloc::Global;

/// The scopes that were entered so far.
#[derive(Drop)]
pub struct ScopeTables {
    /// By scope, whether its code is strict.
    pub strict: Vec<bool>,
    /// By scope, whether a direct eval stands in it.
    pub evals: Vec<bool>,
    /// By symbol, the scope that declares it.
    pub owners: Vec<u32>,
    /// By symbol, whether a direct eval can see it.
    pub seen: Vec<bool>,
}

/// No scope, and no symbol.
pub fn empty_scopes(alloc: Global) -> ScopeTables {
    ScopeTables {
        strict: Vec::new(alloc),
        evals: Vec::new(alloc),
        owners: Vec::new(alloc),
        seen: Vec::new(alloc),
    }
}

/// Makes them tables of no scope, before that many symbols are declared. After `OutOfMemory` they
/// are fit only to be dropped.
pub fn open_scopes(alloc: Global, symbols: u32, tables: &mut ScopeTables) -> Result<(), OutOfMemory>
    ensures { OnOk result (Unlisted symbols tables.new) }
{
    tables.strict = Vec::new(alloc);
    tables.evals = Vec::new(alloc);
    tables.owners = zeros(alloc, symbols)?;
    tables.seen = no_marks(alloc, symbols)?;
    Ok(())
}

/// The units of `eval`.
const EVAL: [u16; 4] = [101, 118, 97, 108];

fn is_eval_name(name: &Option<Name>) -> bool
    ensures { result ≡ is_eval (names name.now) }
{
    match name {
        Some(name) => name.spelling.as_slice() == EVAL.as_slice(),
        None => false,
    }
}

fn is_eval_callee(node: &Node) -> bool
    ensures { result ≡ is_eval_callee_in node.now }
{
    matches!(node.shape(), Shape::Identifier) && is_eval_name(node.name())
}

fn calls_eval(nodes: &[Node]) -> bool
    ensures { result ≡ calls_eval_in (trees_of nodes.now) }
{
    match nodes {
        [callee, ..] => is_eval_callee(callee),
        [] => false,
    }
}

fn is_eval_call(shape: &Shape, nodes: &[Node]) -> bool
    ensures { result ≡ is_eval_call_in shape.now (trees_of nodes.now) }
{
    match shape {
        Shape::CallExpression(false) => calls_eval(nodes),
        _ => false,
    }
}

/// Whether a direct eval stands in a tree.
#[cycle(evals)]
pub fn has_eval(node: &Node) -> bool
    ensures { result ≡ has_eval_in node.now }
{
    is_eval_call(node.shape(), node.parts()) || any_has_eval(node.children(), 0)
}

/// Whether a direct eval stands in one of these nodes, from an index on.
#[cycle(evals)]
fn any_has_eval(nodes: &Nodes, from: usize) -> bool
    ensures { result ≡ any_has_eval_in (rest_children from nodes.now) }
{
    for at in from..nodes.len() {
        if has_eval(nodes.child(at)) {
            return true;
        }
    }
    false
}

/// How many scopes a node of this shape opens at least before its child at an index.
fn least_scopes(shape: &Shape, at: usize) -> usize
    ensures { result ≡ least_in shape.now at }
{
    match shape {
        Shape::Program(..) if at == 0 => 1,
        Shape::StaticBlock if at == 0 => 2,
        Shape::Function(..) if at == 1 || at == 2 => 1,
        Shape::ArrowFunctionExpression(_) if at == 0 || at == 1 => 1,
        _ => 0,
    }
}

/// Lists a scope of these names. More than 2^32 scopes are taken for want of memory.
fn push_scope(
    tables: &mut ScopeTables,
    scope: &[Binding],
    strict: bool,
    evals: bool,
) -> Result<(), OutOfMemory>
    ensures { OnOk result (Listed (record { names = names_in scope.now; strict = strict; evals = evals } ∷ []) tables.old tables.new) }
{
    let number = match u32::try_from(tables.strict.len()) {
        Ok(number) => number,
        Err(_) => return Err(OutOfMemory),
    };
    own_bindings(&mut tables.owners, number, scope);
    push_flag(&mut tables.strict, strict)?;
    push_flag(&mut tables.evals, evals)?;
    if evals {
        mark_bindings(&mut tables.seen, scope);
    }
    Ok(())
}

fn push_flag(flags: &mut Vec<bool>, flag: bool) -> Result<(), OutOfMemory>
    ensures { OnOk result (flags.new.items ≡ flags.old.items ++ flag ∷ []) }
{
    match flags.push(flag) {
        Ok(()) => Ok(()),
        Err(_) => Err(OutOfMemory),
    }
}

fn own_symbol(owners: &mut Vec<u32>, scope: u32, symbol: SymbolId)
    ensures symbols { length owners.new.items ≡ length owners.old.items }
    ensures each { (s : ℕ) → s < length owners.old.items → slice_index owners.new.items s ≡ (if nat_eq symbol.0 s then scope else slice_index owners.old.items s) }
{
    let at = symbol.0 as usize;
    if at < owners.len() {
        owners[at] = scope;
    }
}

fn own_name(owners: &mut Vec<u32>, scope: u32, name: &Name)
    ensures { OwnedBy scope (name.now ∷ []) owners.old.items owners.new.items }
{
    if let Some(symbol) = name.symbol {
        own_symbol(owners, scope, symbol);
    }
}

fn own_bindings(owners: &mut Vec<u32>, scope: u32, bindings: &[Binding])
    ensures { OwnedBy scope (names_in bindings.now) owners.old.items owners.new.items }
{
    for binding in bindings {
        own_name(owners, scope, &binding.name);
    }
}

/// Whether a direct eval stands in one of these nodes, from an index on. Where none may there is no
/// look.
fn evals_from(may_eval: bool, nodes: &Nodes, from: usize) -> bool
    requires { may_eval ≡ false → any_has_eval_in (rest_children from nodes.now) ≡ false }
    ensures { result ≡ any_has_eval_in (rest_children from nodes.now) }
{
    may_eval && any_has_eval(nodes, from)
}

/// Lists at least so many scopes, of which the last declares these names, where there are some or a
/// scope is wanted.
fn push_scopes(
    tables: &mut ScopeTables,
    least: usize,
    scope: &[Binding],
    strict: bool,
    evals: bool,
) -> Result<(), OutOfMemory>
    requires { (nat_eq least 0 && nat_eq (length scope.now) 0) ≡ false }
    ensures { OnOk result (Listed (entered least (record { names = names_in scope.now; strict = strict; evals = evals })) tables.old tables.new) }
{
    if least > 1 {
        push_scope(tables, &scope[..0], strict, evals)?;
        push_scope(tables, scope, strict, evals)
    } else {
        push_scope(tables, scope, strict, evals)
    }
}

/// Whether no scope is wanted, and these are no names.
fn enters_none(least: usize, scope: &[Binding]) -> bool
    ensures { result ≡ (nat_eq least 0 && nat_eq (length scope.now) 0) }
{
    least == 0 && scope.is_empty()
}

/// Lists the scopes that are entered before the child at an index: at least so many, of which the
/// last declares these names. Whether a direct eval may stand in that child or in one after it.
fn push_entered(
    tables: &mut ScopeTables,
    least: usize,
    scope: &[Binding],
    strict: bool,
    may_eval: bool,
    nodes: &Nodes,
    at: usize,
) -> Result<bool, OutOfMemory>
    requires { may_eval ≡ false → any_has_eval_in (rest_children at nodes.now) ≡ false }
    ensures listed { OnOk result (Listed (entered least (record { names = names_in scope.now; strict = strict; evals = any_has_eval_in (rest_children at nodes.now) })) tables.old tables.new) }
    ensures evals { IfOk result (λ may. may ≡ false → any_has_eval_in (rest_children at nodes.now) ≡ false) }
{
    if enters_none(least, scope) {
        return Ok(may_eval);
    }
    let evals = evals_from(may_eval, nodes, at);
    push_scopes(tables, least, scope, strict, evals)?;
    Ok(evals)
}

/// Lists the scopes that are entered in a tree that stands so, and marks what the patterns of its
/// `var`s write. The environment is what is declared around the tree. Where no direct eval may
/// stand in it none is looked for.
#[cycle(listing)]
pub fn list_scopes(
    alloc: Global,
    tables: &mut ScopeTables,
    pattern_writes: &mut Vec<bool>,
    environment: &mut Environment,
    may_eval: bool,
    reading: Reading,
    node: &Node,
) -> Result<(), OutOfMemory>
    requires { may_eval ≡ false → has_eval_in node.now ≡ false }
    ensures listed { OnOk result (Listed (scope_list reading.usage reading.strict node.now) tables.old tables.new) }
    ensures patterns { OnOk result (Marked (pattern_writes_of reading.usage environment.old node.now) pattern_writes.old.items pattern_writes.new.items) }
    ensures left { OnOk result (environment.new ≡ environment.old) }
{
    mark_pattern_writes(alloc, pattern_writes, environment, reading.usage, node)?;
    if is_leaf(node) {
        return Ok(());
    }
    let mut scopes = OpenScopes::of(alloc, reading.usage, node)?;
    let around = environment.len();
    let listed = list_below(
        alloc,
        tables,
        pattern_writes,
        environment,
        may_eval,
        reading,
        node,
        &mut scopes,
    );
    environment.leave(around);
    listed
}

#[cycle(listing)]
fn list_below(
    alloc: Global,
    tables: &mut ScopeTables,
    pattern_writes: &mut Vec<bool>,
    environment: &mut Environment,
    may_eval: bool,
    reading: Reading,
    node: &Node,
    scopes: &mut OpenScopes,
) -> Result<(), OutOfMemory>
    requires { may_eval ≡ false → any_has_eval_in (children node.now) ≡ false }
    ensures listed { OnOk result (Listed (scope_list_from (scope_at scopes.old) (use_at (shape_of node.now) reading.usage) (least_in (shape_of node.now)) (is_strict_at reading.strict (shape_of node.now)) 0 (children node.now)) tables.old tables.new) }
    ensures patterns { OnOk result (Marked (pattern_writes_from (scope_at scopes.old) (use_at (shape_of node.now) reading.usage) 0 environment.old (children node.now)) pattern_writes.old.items pattern_writes.new.items) }
    ensures around { OnOk result (take (length environment.old) environment.new ≡ environment.old) }
{
    let mut may_eval = may_eval;
    let nodes = node.children();
    let strict = is_strict_in(reading.strict, node.shape());
    for at in 0..nodes.len() {
        let scope = scopes.take(alloc, at);
        let least = least_scopes(node.shape(), at);
        may_eval = push_entered(tables, least, scope.as_slice(), strict, may_eval, nodes, at)?;
        enter_scope(environment, scope)?;
        let stands = reading_below(reading, node, at);
        let child = nodes.child(at);
        list_scopes(
            alloc,
            tables,
            pattern_writes,
            environment,
            may_eval,
            stands,
            child,
        )?;
    }
    Ok(())
}
