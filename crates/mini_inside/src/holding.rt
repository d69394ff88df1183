//! Rows 71 and 72 of what holds a list of statements: `{ let x = a(); b(); }` becomes
//! `{ a(); b(); }`, and `{ let x = 1, y = b(); c(y); }` becomes `{ let y = b(); c(y); }`, where
//! nothing else in the block has x's spelling or its symbol and no direct eval stands there. So do
//! the blocks of a `try`, and the statements of a function, wherever it stands, of a module, and of
//! a static block, and there each `var`, too, whose name can be written, and so do the cases of a
//! switch. It is lighter in every place.

ghost use Rattle.std.specs.Prelude.{◌≡◌, ◌<◌, true, IfOk};
ghost use Rattle.mini_model.specs.declared.place.Position.TheVariants.{Expr, Stmt, Elsewhere};
ghost use Rattle.mini_model.specs.declared.seat.Seat.{Seat};
ghost use Rattle.mini_model.specs.declared.seat.StmtSeat.{StmtSeat};
ghost use Rattle.mini_model.specs.Tree.{absent, children, count, empty_statement as is_nothing};
ghost use Rattle.mini_node.specs.Children.{names, part, with_part};
ghost use Rattle.mini_unused.specs.Allowed.{switches_of};
ghost use Rattle.mini_unused.specs.RemoveUnusedDeclaration.{allowed, open_in, UnusedOf};
ghost use Rattle.mini_inside.specs.Holding as row;
ghost use Rattle.mini_inside.specs.Holding.{case_at, with_statements, Applied, AppliedInCase, AppliedInCases, AppliedInFunction, AppliedIdle, AppliedInHead, IdleDropped, Gives, Rests};
ghost use Rattle.mini_inside.specs.Lighter.{unused_is_lighter};

use crate::for_heads::substitute_next_in_head;
use mini_context::TraverseCtx;
use mini_model::{Name, OutOfMemory, Position, Shape};
use mini_node::{Node, discard, empty_statement, is_block, is_listed, taken};
use mini_tree::Rule;
use mini_unused::{
    declares_list, declares_name, has_eval, is_idle, is_lexical, put_child, remove_in_list,
    take_child, take_declarator, unused_of,
};
use std::alloc::Global;

/// Whether the node is a `switch` over a list of cases.
pub fn is_switch(node: &Node) -> bool
    ensures kind { result ≡ row.is_switch node.now }
    ensures parts { result ≡ true → count (children node.now) ≡ 2 }
{
    matches!(node.shape(), Shape::SwitchStatement) && node.is_bare(2) && is_listed(node.child(1))
}

// A case, with its statements in a list.
fn is_case(node: &Node) -> bool
    ensures kind { result ≡ row.is_case node.now }
    ensures parts { result ≡ true → count (children node.now) ≡ 2 }
{
    matches!(node.shape(), Shape::SwitchCase) && node.is_bare(2) && is_listed(node.child(1))
}

/// Whether the child at the place of a `switch` is a case with its statements in a list.
pub fn is_case_at(node: &Node, at: usize) -> bool
    requires cases { 1 < count (children node.now) }
    requires case { at < count (children (part node.now 1)) }
    ensures kind { result ≡ row.is_case (case_at node.now at) }
    ensures parts { result ≡ true → count (children (case_at node.now at)) ≡ 2 }
{
    is_case(node.child(1).child(at))
}

/// The statements of the case at the place of a `switch`, taken out of it.
#[tactic(auto, using(mini_unused::proofs::Unused::same_parts, mini_unused::proofs::Unused::part_twice))]
pub fn take_statements(node: &mut Node, at: usize) -> Node
    requires cases { 1 < count (children node.old) }
    requires case { at < count (children (part node.old 1)) }
    requires list { 1 < count (children (case_at node.old at)) }
    ensures list { result ≡ part (case_at node.old at) 1 }
    ensures left { node.new ≡ with_statements node.old at absent }
{
    let mut cases = take_child(node, 1);
    let mut case = take_child(&mut cases, at);
    let list = take_child(&mut case, 1);
    put_child(&mut cases, at, case);
    put_child(node, 1, cases);
    list
}

/// Puts these statements into the case at the place of a `switch`.
#[tactic(auto, using(mini_unused::proofs::Unused::same_parts, mini_unused::proofs::Unused::part_twice))]
pub fn put_statements(node: &mut Node, at: usize, list: Node)
    requires cases { 1 < count (children node.old) }
    requires case { at < count (children (part node.old 1)) }
    requires list { 1 < count (children (case_at node.old at)) }
    ensures { node.new ≡ with_statements node.old at list }
{
    let mut cases = take_child(node, 1);
    let mut case = take_child(&mut cases, at);
    put_child(&mut case, 1, list);
    put_child(&mut cases, at, case);
    put_child(node, 1, cases);
}

// Of a switch, names go from the statements of the case at the place, which nothing else in the
// switch mentions.
fn remove_in_case(
    alloc: Global,
    node: &mut Node,
    at: usize,
    context: &TraverseCtx,
) -> Result<bool, OutOfMemory>
    requires switch { row.is_switch node.old ≡ true }
    requires cases { 1 < count (children node.old) }
    requires case { at < count (children (part node.old 1)) }
    ensures { IfOk result (λ changed. AppliedInCase (switches_of context.now.options) node.old at node.new changed) }
{
    if !is_case_at(node, at) {
        return Ok(false);
    }
    let mut list = take_statements(node, at);
    let changed = remove_in_list(alloc, node, &mut list, context);
    put_statements(node, at, list);
    changed
}

// From the case at the place on, of the first that has such names.
fn remove_in_cases(
    alloc: Global,
    node: &mut Node,
    from: usize,
    context: &TraverseCtx,
) -> Result<bool, OutOfMemory>
    requires switch { row.is_switch node.old ≡ true }
    requires cases { 1 < count (children node.old) }
    ensures { IfOk result (λ changed. AppliedInCases (switches_of context.now.options) node.old from node.new changed) }
{
    if from >= node.child(1).children().len() {
        return Ok(false);
    }
    if remove_in_case(alloc, node, from, context)? {
        return Ok(true);
    }
    remove_in_cases(alloc, node, from + 1, context)
}

// Of a switch, names go from its cases.
fn remove_unused_in_switch(
    alloc: Global,
    node: &mut Node,
    context: &TraverseCtx,
) -> Result<bool, OutOfMemory>
    requires switch { row.is_switch node.old ≡ true }
    requires cases { 1 < count (children node.old) }
    ensures { IfOk result (λ changed. (q : StmtSeat) → Applied (allowed context.now) (Stmt q) node.old node.new changed) }
{
    remove_in_cases(alloc, node, 0, context)
}

/// Whether the node is a `for` over a `let` or a `const`.
pub fn has_head(node: &Node) -> bool
    ensures kind { result ≡ row.has_head node.now }
    ensures parts { result ≡ true → count (children node.now) ≡ 4 }
{
    matches!(node.shape(), Shape::ForStatement)
        && node.is_bare(4)
        && is_lexical(node.child(0).shape())
        && declares_list(node.child(0))
}

// Of its declarators the first whose name nothing else in the `for` mentions, and that may go from
// a list of statements.
fn unused_in_head(alloc: Global, node: &Node, context: &TraverseCtx) -> Option<usize>
    requires { 0 < count (children node.now) }
    ensures { UnusedOf (open_in is_nothing (allowed context.now)) is_nothing (children node.now) 0 result }
{
    let outside = empty_statement(alloc);
    let found = unused_of(&outside, node.children(), 0, context);
    discard(outside);
    found
}

/// Whether the declarator at the index of a list has a name, and nothing is lost with its
/// initializer.
pub fn is_idle_at(list: &Node, which: usize) -> bool
    requires { which < count (children list.now) }
    ensures { result ≡ row.is_idle_at list.now which }
{
    let declarator = list.child(which);
    declares_name(declarator) && is_idle(declarator.child(1))
}

/// From the declaration that a `for` begins with the declarator at the index goes, and with the
/// only one all of it.
pub fn drop_from_head(alloc: Global, head: &mut Node, which: usize)
    requires list { 0 < count (children head.old) }
    requires declarator { which < count (children (part head.old 0)) }
    ensures { head.new ≡ row.head_without head.old which }
{
    if head.child(0).is_bare(1) {
        discard(taken(alloc, head));
        return;
    }
    discard(take_declarator(head, which));
}

// Of a `for` it does.
#[tactic(auto, using(mini_unused::proofs::Unused::same_parts, mini_unused::proofs::Unused::part_twice))]
fn drop_in_head(alloc: Global, node: &mut Node, which: usize)
    requires head { 0 < count (children node.old) }
    requires list { 0 < count (children (part node.old 0)) }
    requires declarator { which < count (children (part (part node.old 0) 0)) }
    ensures { node.new ≡ with_part node.old 0 (row.head_without (part node.old 0) which) }
{
    let mut head = take_child(node, 0);
    drop_from_head(alloc, &mut head, which);
    put_child(node, 0, head);
}

// The declarator at the index of the head goes, where nothing misses its initializer.
fn drop_idle_in_head(alloc: Global, node: &mut Node, which: usize) -> bool
    requires head { row.has_head node.old ≡ true }
    requires parts { 0 < count (children node.old) }
    requires list { 0 < count (children (part node.old 0)) }
    requires declarator { which < count (children (part (part node.old 0) 0)) }
    ensures { IdleDropped node.old which node.new result }
{
    if !is_idle_at(node.child(0).child(0), which) {
        return false;
    }
    if has_eval(node) {
        return false;
    }
    drop_in_head(alloc, node, which);
    true
}

// Of the head of a `for` such a declarator goes.
fn remove_idle_in_head(alloc: Global, node: &mut Node, context: &TraverseCtx) -> bool
    requires head { row.has_head node.old ≡ true }
    requires parts { 0 < count (children node.old) }
    ensures { AppliedIdle node.old node.new result }
{
    match unused_in_head(alloc, node, context) {
        Some(which) => drop_idle_in_head(alloc, node, which),
        None => false,
    }
}

// From the head of a `for` a declarator goes that nothing else mentions, or else one that the next
// declarator reads, whose initializer goes there.
fn remove_in_head(alloc: Global, node: &mut Node, context: &TraverseCtx) -> bool
    requires head { row.has_head node.old ≡ true }
    requires parts { 0 < count (children node.old) }
    ensures { AppliedInHead (switches_of context.now.options) node.old node.new result }
{
    if remove_idle_in_head(alloc, node, context) {
        return true;
    }
    substitute_next_in_head(alloc, node, context)
}

/// Of a block, `let x = a();` becomes `a();`, `let x;` and `let x = 1;` become `;`, and
/// `let x, y = b();` becomes `let y = b();` where nothing mentions x, and so do the cases of a
/// switch, the head of a `for` and the statements of a function that is declared. The answer says
/// whether one did; the only error is that memory runs out.
#[tactic(auto, using(mini_unused::proofs::Unused::same_parts, mini_unused::proofs::Unused::part_twice))]
pub fn remove_unused_declaration(
    alloc: Global,
    node: &mut Node,
    context: &TraverseCtx,
) -> Result<bool, OutOfMemory>
    ensures { IfOk result (λ changed. (q : StmtSeat) → Applied (allowed context.now) (Stmt q) node.old node.new changed) }
{
    if has_head(node) {
        return Ok(remove_in_head(alloc, node, context));
    }
    if is_switch(node) {
        return remove_unused_in_switch(alloc, node, context);
    }
    if !is_block(node) {
        return remove_unused_in_function(alloc, node, context);
    }
    let mut list = take_child(node, 0);
    let changed = remove_in_list(alloc, node, &mut list, context);
    put_child(node, 0, list);
    changed
}

fn has_no_name(name: &Option<Name>) -> bool
    ensures { result ≡ row.are_no_names (names name.now) }
{
    match name {
        Some(_) => false,
        None => true,
    }
}

// `{ .. }`, as a body.
fn are_statements(node: &Node) -> bool
    ensures kind { result ≡ row.are_statements node.now }
    ensures parts { result ≡ true → count (children node.now) ≡ 1 }
{
    matches!(node.shape(), Shape::FunctionBody) && node.is_bare(1) && is_listed(node.child(0))
}

/// Whether the node is an arrow function with statements.
pub fn has_statements(node: &Node) -> bool
    ensures kind { result ≡ row.has_statements node.now }
    ensures parts { result ≡ true → count (children node.now) ≡ 2 }
    ensures list { result ≡ true → count (children (part node.now 1)) ≡ 1 }
{
    matches!(node.shape(), Shape::ArrowFunctionExpression(_))
        && has_no_name(node.name())
        && node.children().len() == 2
        && is_listed(node.child(0))
        && are_statements(node.child(1))
}

/// Drops or inlines a declaration of the body of an arrow function or of another function
/// expression, whose parameters don't mention it: `() => { let x = a(); b(); }` becomes
/// `() => { a(); b(); }`.
#[tactic(auto, using(mini_unused::proofs::Unused::same_parts, mini_unused::proofs::Unused::part_twice))]
pub fn remove_unused_in_arrow(
    alloc: Global,
    node: &mut Node,
    context: &TraverseCtx,
) -> Result<bool, OutOfMemory>
    ensures { IfOk result (λ changed. (s : Seat) → Applied (allowed context.now) (Expr s) node.old node.new changed) }
{
    if !has_statements(node) {
        return remove_unused_in_function(alloc, node, context);
    }
    let mut body = take_child(node, 1);
    let mut list = take_child(&mut body, 0);
    let changed = remove_in_list(alloc, node, &mut list, context);
    put_child(&mut body, 0, list);
    put_child(node, 1, body);
    changed
}

/// Whether the node is a function with statements that is no arrow function.
pub fn is_function(node: &Node) -> bool
    ensures kind { result ≡ row.is_function node.now }
    ensures parts { result ≡ true → count (children node.now) ≡ 3 }
    ensures list { result ≡ true → count (children (part node.now 2)) ≡ 1 }
{
    matches!(node.shape(), Shape::Function(_, _, _))
        && has_no_name(node.name())
        && node.children().len() == 3
        && is_listed(node.child(1))
        && are_statements(node.child(2))
}

/// In a function that is no arrow function, wherever it stands, rows 71 and 72 are made, as in
/// `function f(a) { let x = b(); return x + a; }`: its own name and its parameters don't mention x
/// either. The answer says whether a name went; the only error is that memory runs out.
#[tactic(auto, using(mini_unused::proofs::Unused::same_parts, mini_unused::proofs::Unused::part_twice))]
pub fn remove_unused_in_function(
    alloc: Global,
    node: &mut Node,
    context: &TraverseCtx,
) -> Result<bool, OutOfMemory>
    ensures { IfOk result (λ changed. AppliedInFunction (allowed context.now) node.old node.new changed) }
{
    if !is_function(node) {
        return Ok(false);
    }
    let mut body = take_child(node, 2);
    let mut list = take_child(&mut body, 0);
    let changed = remove_in_list(alloc, node, &mut list, context);
    put_child(&mut body, 0, list);
    put_child(node, 2, body);
    changed
}

/// Whether the node is a module with its statements.
pub fn is_module(node: &Node) -> bool
    ensures kind { result ≡ row.is_module node.now }
    ensures parts { result ≡ true → count (children node.now) ≡ 1 }
{
    matches!(node.shape(), Shape::Program(true, _)) && node.is_bare(1) && is_listed(node.child(0))
}

/// Whether the node is a static block with its statements.
pub fn is_static_block(node: &Node) -> bool
    ensures kind { result ≡ row.is_static_block node.now }
    ensures parts { result ≡ true → count (children node.now) ≡ 1 }
{
    matches!(node.shape(), Shape::StaticBlock)
        && has_no_name(node.name())
        && node.children().len() == 1
        && is_listed(node.child(0))
}

/// Whether the node is a module or a static block.
pub fn holds_list(node: &Node) -> bool
    ensures kind { result ≡ row.holds_list node.now }
    ensures parts { result ≡ true → count (children node.now) ≡ 1 }
{
    is_module(node) || is_static_block(node)
}

// Either, or a block, as one of a `try`.
fn holds_statements(node: &Node) -> bool
    ensures kind { result ≡ row.holds_statements node.now }
    ensures parts { result ≡ true → count (children node.now) ≡ 1 }
{
    is_block(node) || holds_list(node)
}

/// In a module, a static block of a class, a block of a `try`, or a function that is exported rows
/// 71 and 72 are made, as in `import "a"; const x = f(); g();`, in which nothing else mentions x.
/// The answer says whether a name went; the only error is that memory runs out.
#[tactic(auto, using(mini_unused::proofs::Unused::same_parts, mini_unused::proofs::Unused::part_twice))]
pub fn remove_unused_in_module(
    alloc: Global,
    node: &mut Node,
    context: &TraverseCtx,
) -> Result<bool, OutOfMemory>
    ensures { IfOk result (λ changed. Applied (allowed context.now) Elsewhere node.old node.new changed) }
{
    if !holds_statements(node) {
        return remove_unused_in_function(alloc, node, context);
    }
    let mut list = take_child(node, 0);
    let changed = remove_in_list(alloc, node, &mut list, context);
    put_child(node, 0, list);
    changed
}

/// Rows 71 and 72 as a rule: of each block, those of a `try` among them, and each switch, of each
/// function with statements, of each static block, and of a module. Its context says which names
/// the program that it knows lets be written, and its options whether functions and classes keep
/// the names that they get.
pub struct RemoveUnusedDeclarations;

impl Rule<TraverseCtx> for RemoveUnusedDeclarations {
    ghost gives = { Gives };

    ghost rests = { Rests };

    ghost lighter = { unused_is_lighter };

    #[tactic(auto, using(crate::proofs::Holders::elsewhere))]
    fn apply(
        &self,
        alloc: Global,
        node: &mut Node,
        place: Position,
        context: &mut TraverseCtx,
    ) -> Result<bool, OutOfMemory> {
        match place {
            Position::Stmt(_) => Ok(remove_unused_declaration(alloc, node, &*context)?),
            Position::Expr(_) => Ok(remove_unused_in_arrow(alloc, node, &*context)?),
            Position::Method => Ok(remove_unused_in_function(alloc, node, &*context)?),
            Position::Elsewhere => Ok(remove_unused_in_module(alloc, node, &*context)?),
            _ => Ok(false),
        }
    }
}
