//! Row 61: `let x = undefined` and `let x = void 0` become `let x`, as a statement, exported, and
//! in the head of a `for`. It is lighter in every place.

ghost use Rattle.std.specs.Prelude.{◌≡◌, ◌<◌, true, IfSome, is_some};
ghost use Rattle.mini_model.specs.declared.place.Position.{Position as PositionSpec};
ghost use Rattle.mini_model.specs.declared.place.Position.TheVariants.{Stmt};
ghost use Rattle.mini_model.specs.declared.seat.StmtSeat.{StmtSeat};
ghost use Rattle.mini_model.specs.Tree.{absent, children, count, child_or_absent};
ghost use Rattle.mini_kept.specs.Placed.{is_statement_list};
ghost use Rattle.mini_node.specs.Children.{part, with_part};
ghost use Rattle.mini_rows.specs.Declarations.{Row61, DeclarationContracts};
ghost use Rattle.mini_syntax.specs.Lighter.{declarations_lighter};
ghost use Rattle.mini_syntax.specs.SubstituteVariableDeclaration as row;
ghost use Rattle.mini_syntax.specs.SubstituteVariableDeclaration.{any_of, begins_undefined as is_begun_undefined, declares_undefined as is_declared_undefined, is_read as is_it_read, Bared, Rests, Applied};

use crate::forms::is_undefined;
use mini_model::{OutOfMemory, Position, Shape, VariableDeclarationKind};
use mini_node::{Node, Nodes, discard, is_listed};
use mini_tree::{Context, Rule};
use std::alloc::Global;

// A name that is declared.
fn is_binding(node: &Node) -> bool
    ensures { result ≡ row.is_binding node.now }
{
    matches!(node.shape(), Shape::BindingIdentifier) && node.is_named_leaf()
}

// `x = undefined` and `x = void 0`
fn begins_undefined(node: &Node) -> bool
    ensures kind { result ≡ is_begun_undefined node.now }
    ensures parts { result ≡ true → count (children node.now) ≡ 2 }
{
    matches!(node.shape(), Shape::VariableDeclarator)
        && node.is_bare(2)
        && is_binding(node.child(0))
        && is_undefined(node.child(1))
}

// The first declarator that does.
fn undefined_at(declarators: &Nodes) -> Option<usize>
    ensures found { IfSome result (λ at. at < count declarators.now) }
    ensures begins { IfSome result (λ at. is_begun_undefined (child_or_absent declarators.now at) ≡ true) }
    ensures any { is_some result ≡ any_of is_begun_undefined declarators.now }
{
    for at in 0..declarators.len() {
        if begins_undefined(declarators.child(at)) {
            return Some(at);
        }
    }
    None
}

// A `let` with such a declarator.
fn declares_undefined(node: &Node) -> bool
    ensures kind { result ≡ is_declared_undefined node.now }
    ensures parts { result ≡ true → count (children node.now) ≡ 1 }
{
    matches!(
        node.shape(),
        Shape::VariableDeclaration(VariableDeclarationKind::Let)
    ) && node.is_bare(1)
        && is_listed(node.child(0))
        && undefined_at(node.child(0).children()).is_some()
}

// `export let x = undefined;`
fn exports_undefined(node: &Node) -> bool
    ensures kind { result ≡ row.exports_undefined node.now }
    ensures parts { result ≡ true → count (children node.now) ≡ 3 }
{
    matches!(node.shape(), Shape::ExportNamedDeclaration)
        && node.is_bare(3)
        && declares_undefined(node.child(0))
}

// One or the other.
fn is_read(node: &Node) -> bool
    ensures { result ≡ is_it_read node.now }
{
    declares_undefined(node) || exports_undefined(node)
}

// The first statement that is.
fn read_at(statements: &Nodes) -> Option<usize>
    ensures found { IfSome result (λ at. at < count statements.now) }
    ensures read { IfSome result (λ at. is_it_read (child_or_absent statements.now at) ≡ true) }
    ensures any { is_some result ≡ any_of is_it_read statements.now }
{
    for at in 0..statements.len() {
        if is_read(statements.child(at)) {
            return Some(at);
        }
    }
    None
}

// `for (let x = undefined; b; c) d`
fn loops_undefined(node: &Node) -> bool
    ensures kind { result ≡ row.loops_undefined node.now }
    ensures parts { result ≡ true → count (children node.now) ≡ 4 }
{
    matches!(node.shape(), Shape::ForStatement)
        && node.is_bare(4)
        && declares_undefined(node.child(0))
}

// The child at the index, taken out of the node.
fn take_child(node: &mut Node, at: usize) -> Node
    requires { at < count (children node.old) }
    ensures child { result ≡ part node.old at }
    ensures left { node.new ≡ with_part node.old at absent }
{
    node.children_mut().take(at)
}

// Puts the child at the index of the node.
fn put_child(node: &mut Node, at: usize, child: Node)
    requires { at < count (children node.old) }
    ensures { node.new ≡ with_part node.old at child }
{
    discard(node.children_mut().replace(at, child));
}

// Lets the initializer at the index of the declarators go.
#[tactic(auto, using(crate::proofs::Declarations::same_parts, crate::proofs::Declarations::part_twice))]
fn drop_at(node: &mut Node, at: usize)
    requires declarator { at < count (children node.old) }
    requires initializer { 1 < count (children (part node.old at)) }
    ensures { node.new ≡ row.dropped node.old at }
{
    let mut declarator = take_child(node, at);
    discard(take_child(&mut declarator, 1));
    put_child(node, at, declarator);
}

// Lets the initializer at the index of a declaration go.
#[tactic(auto, using(crate::proofs::Declarations::same_parts, crate::proofs::Declarations::part_twice))]
fn drop_initializer(node: &mut Node, at: usize)
    requires list { 0 < count (children node.old) }
    requires declarator { at < count (children (part node.old 0)) }
    requires initializer { 1 < count (children (part (part node.old 0) at)) }
    ensures { node.new ≡ row.bared node.old at }
{
    let mut declarators = take_child(node, 0);
    drop_at(&mut declarators, at);
    put_child(node, 0, declarators);
}

// Lets the first of them go that is undefined.
fn drop_first(node: &mut Node)
    requires { is_declared_undefined node.old ≡ true }
    ensures { Row61 node.old node.new }
{
    match undefined_at(node.child(0).children()) {
        Some(at) => drop_initializer(node, at),
        None => {}
    }
}

// Lets the first undefined initializer go of the declaration that is the first child.
fn drop_below(node: &mut Node)
    requires child { 0 < count (children node.old) }
    requires declares { is_declared_undefined (part node.old 0) ≡ true }
    ensures row { Row61 (part node.old 0) (part node.new 0) }
    ensures rest { node.new ≡ with_part node.old 0 (part node.new 0) }
{
    let mut declaration = take_child(node, 0);
    drop_first(&mut declaration);
    put_child(node, 0, declaration);
}

// Lets the first undefined initializer go of a statement of a list.
fn drop_in_statement(node: &mut Node)
    requires { is_it_read node.old ≡ true }
    ensures { Bared node.old node.new }
{
    if declares_undefined(node) {
        drop_first(node);
    } else {
        drop_below(node);
    }
}

// Lets the first undefined initializer go of the statement at the index of a list.
fn drop_in_list(node: &mut Node, at: usize)
    requires found { at < count (children node.old) }
    requires read { is_it_read (part node.old at) ≡ true }
    ensures bared { Bared (part node.old at) (part node.new at) }
    ensures rest { node.new ≡ with_part node.old at (part node.new at) }
{
    let mut statement = take_child(node, at);
    drop_in_statement(&mut statement);
    put_child(node, at, statement);
}

// Of a list of statements, `let x = undefined;` becomes `let x;`, exported or not. The answer says
// whether one did.
fn substitute_in_list(node: &mut Node) -> bool
    ensures { (p : PositionSpec) → is_statement_list p ≡ true → Applied p node.old node.new result }
{
    if !is_listed(node) {
        return false;
    }
    match read_at(node.children()) {
        Some(at) => {
            drop_in_list(node, at);
            true
        }
        None => false,
    }
}

// `for (let x = undefined; b; c) d` becomes `for (let x; b; c) d`. The answer says whether it did.
fn substitute_in_loop(node: &mut Node) -> bool
    ensures { (q : StmtSeat) → Applied (Stmt q) node.old node.new result }
{
    if !loops_undefined(node) {
        return false;
    }
    drop_below(node);
    true
}

/// A `let` loses an initializer that is `undefined` or `void 0`, as a statement of a list or in the
/// head of a `for`. The answer says whether one did.
pub fn substitute_variable_declaration(node: &mut Node, place: Position) -> bool
    ensures { Applied place node.old node.new result }
{
    match place {
        Position::StatementList => substitute_in_list(node),
        Position::BodyList => substitute_in_list(node),
        Position::Stmt(_) => substitute_in_loop(node),
        _ => false,
    }
}

/// Row 61 as a rule: of each list of statements, and of each `for`.
pub struct SubstituteDeclarations;

impl<C: Context> Rule<C> for SubstituteDeclarations {
    ghost gives = { λ o q. DeclarationContracts };

    ghost rests = { λ o q. Rests };

    ghost lighter = { λ o q. declarations_lighter };

    fn apply(
        &self,
        _alloc: Global,
        node: &mut Node,
        place: Position,
        _context: &mut C,
    ) -> Result<bool, OutOfMemory> {
        Ok(substitute_variable_declaration(node, place))
    }
}
