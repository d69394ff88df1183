//! 70: `var a, c; a = b;` becomes `var a = b, c;`, and `var a; return a = b, c;` becomes
//! `var a = b; return c;`. 69: `var a; for (a of b) c` becomes `for (var a of b) c`.

ghost use Rattle.std.specs.Prelude.{◌≡◌, ◌<◌, ◌&&◌, ◌||◌, true, false, Some, IfOk};
ghost use Rattle.mini_model.specs.Tree.{Trees, none, ◌▸◌, child_or_absent, children, count};
ghost use Rattle.mini_node.specs.Children.{names, part, with_part, rest_children, without};
ghost use Rattle.mini_rows.specs.Lists as list;
ghost use Rattle.mini_node.specs.Kinds.{is_sequence as is_it_sequence};
ghost use Rattle.mini_stmt.specs.JoinAssignments as row;
ghost use Rattle.mini_stmt.specs.JoinHeads.{is_for_in as is_it_for_in};
ghost use Rattle.mini_stmt.specs.JoinVars.{declared_kind as kind_of};
ghost use Rattle.mini_stmt.specs.MinimizeStatements.{switches_of};
ghost use Rattle.mini_stmt.specs.JoinAssignments.{AllEntered, Entered, EntersAt, EntersLast, JoinsAssignments, PutEntered, TakesAt};

use crate::rewrites::join_heads::{
    has_head, is_bare_declarator, is_for, is_for_in, is_plain_left, over_child, take_child,
};
use crate::rewrites::join_vars::{declared_kind, declares};
use crate::statements::{put_reversed, take_last};
use crate::terms::{declares_nothing, is_one_part};
use mini_model::{AssignmentOperator, Name, OutOfMemory, Shape, VariableDeclarationKind};
use mini_node::{
    Node, Nodes, discard, is_absent_part, is_expression_statement, is_identifier, is_listed,
    is_same_symbol, is_sequence, listed, of_one, one, sequence, two,
};
use mini_tree::CompressOptions;
use std::alloc::Global;
use std::mem;

// `x = b`
fn assigns_name(node: &Node) -> bool
    ensures kind { result ≡ row.assigns_name node.now }
    ensures parts { result ≡ true → count (children node.now) ≡ 2 }
{
    matches!(
        node.shape(),
        Shape::AssignmentExpression(AssignmentOperator::Assign)
    ) && node.is_bare(2)
        && is_identifier(node.child(0))
        && declares_nothing(node.child(1))
}

// Whether both are names of the same spelling.
fn is_spelled_alike(first: &Option<Name>, second: &Option<Name>) -> bool
    ensures { result ≡ row.spelled_alike (names first.now) (names second.now) }
{
    match (first, second) {
        (Some(one), Some(other)) => one.spelling.as_slice() == other.spelling.as_slice(),
        _ => false,
    }
}

// Whether both are one name: of the same spelling, and with one symbol.
fn is_one_name(first: &Option<Name>, second: &Option<Name>) -> bool
    ensures { result ≡ row.one_name (names first.now) (names second.now) }
{
    is_same_symbol(first, second) && is_spelled_alike(first, second)
}

/// Whether the declarator has no initializer, and the name that is assigned to.
pub fn declares_bare(declarator: &Node, target: &Node) -> bool
    ensures { result ≡ row.declares_bare declarator.now target.now }
{
    matches!(declarator.shape(), Shape::VariableDeclarator)
        && declarator.is_bare(2)
        && matches!(declarator.child(0).shape(), Shape::BindingIdentifier)
        && declarator.child(0).is_named_leaf()
        && is_one_name(declarator.child(0).name(), target.name())
        && is_absent_part(declarator.child(1))
}

// The place of the last declarator of the name, if none from there on has an initializer.
fn takes_at(list: &Nodes, target: &Node) -> Option<usize>
    ensures { TakesAt target.now list.now result }
{
    let count = list.len();
    for back in 0..count {
        let at = count - 1 - back;
        let node = list.child(at);
        if declares_bare(node, target) {
            return Some(at);
        }
        if !is_bare_declarator(node) {
            return None;
        }
    }
    None
}

// Whether the parts of a sequence may stand without the first.
fn leaves_parts(parts: &Nodes) -> bool
    ensures kind { result ≡ row.leaves_parts parts.now }
    ensures parts { result ≡ true → 1 < count parts.now }
{
    parts.len() > 1 && (parts.len() > 2 || is_one_part(parts.child(1)))
}

// `e;`, or a head
fn is_led(node: &Node) -> bool
    ensures kind { result ≡ row.is_led node.now }
    ensures parts { result ≡ true → 0 < count (children node.now) }
{
    is_expression_statement(node) || has_head(node)
}

// `for (a of b) c`
fn is_for_of(node: &Node) -> bool
    ensures kind { result ≡ row.is_for_of node.now }
    ensures parts { result ≡ true → count (children node.now) ≡ 3 }
{
    matches!(node.shape(), Shape::ForOfStatement) && node.is_bare(3)
}

// A `for..in` or `for..of`.
fn is_loop(node: &Node) -> bool
    ensures kind { result ≡ (is_it_for_in node.now || row.is_for_of node.now) }
    ensures parts { result ≡ true → count (children node.now) ≡ 3 }
{
    is_for_in(node) || is_for_of(node)
}

// A `for..in` or `for..of` whose head declares no lexical name.
fn goes_over(node: &Node) -> bool
    ensures kind { result ≡ row.goes_over node.now }
    ensures parts { result ≡ true → count (children node.now) ≡ 3 }
{
    is_loop(node) && is_plain_left(node.child(0))
}

fn is_declarator(node: &Node) -> bool
    ensures kind { result ≡ row.is_declarator node.now }
    ensures parts { result ≡ true → count (children node.now) ≡ 2 }
{
    matches!(node.shape(), Shape::VariableDeclarator) && node.is_bare(2)
}

fn begins_with_one(list: &Nodes) -> bool
    ensures kind { result ≡ row.begins_with_one list.now }
    ensures some { result ≡ true → 0 < count list.now }
    ensures parts { result ≡ true → count (children (child_or_absent list.now 0)) ≡ 2 }
{
    list.len() > 0 && is_declarator(list.child(0))
}

// A declaration.
fn is_declaration(node: &Node) -> bool
    ensures kind { result ≡ row.is_kind (kind_of node.now) }
    ensures parts { result ≡ true → 0 < count (children node.now) }
{
    declared_kind(node).is_some()
}

// A declaration with a declarator.
fn declares_first(node: &Node) -> bool
    ensures kind { result ≡ row.declares_first node.now }
    ensures parts { result ≡ true → 0 < count (children node.now) }
    ensures list { result ≡ true → 0 < count (children (part node.now 0)) }
    ensures declarator { result ≡ true → count (children (part (part node.now 0) 0)) ≡ 2 }
{
    is_declaration(node) && begins_with_one(node.child(0).children())
}

// A `for` whose head is a `var`.
fn loops_first(node: &Node) -> bool
    ensures kind { result ≡ row.loops_first node.now }
    ensures parts { result ≡ true → 0 < count (children node.now) }
    ensures head { result ≡ true → 0 < count (children (part node.now 0)) }
    ensures list { result ≡ true → 0 < count (children (part (part node.now 0) 0)) }
    ensures declarator { result ≡ true → count (children (part (part (part node.now 0) 0) 0)) ≡ 2 }
{
    is_for(node)
        && declares(node.child(0), VariableDeclarationKind::Var)
        && declares_first(node.child(0))
}

// What holds an expression that is evaluated first, other than that.
fn holds_plainly(node: &Node) -> bool
    ensures kind { result ≡ row.holds_plainly node.now }
    ensures parts { result ≡ true → 0 < count (children node.now) }
{
    is_led(node) || goes_over(node) || declares_first(node)
}

// Whichever holds one.
fn holds(node: &Node) -> bool
    ensures kind { result ≡ row.holds node.now }
    ensures parts { result ≡ true → 0 < count (children node.now) }
{
    loops_first(node) || holds_plainly(node)
}

// The expression that a statement evaluates first.
fn held(node: &Node) -> &Node
    ensures { result.now ≡ row.held node.now }
{
    if loops_first(node) {
        return node.child(0).child(0).child(0).child(1);
    }
    held_plainly(node)
}

// The expression that a statement other than a `for` over a `var` evaluates first.
fn held_plainly(node: &Node) -> &Node
    ensures { result.now ≡ row.held_plainly node.now }
{
    if is_led(node) {
        return node.child(0);
    }
    if goes_over(node) {
        return node.child(1);
    }
    if declares_first(node) {
        return node.child(0).child(0).child(1);
    }
    node
}

// Whether an expression is a sequence, of which the others may stand without the first.
fn is_apart(node: &Node) -> bool
    ensures kind { result ≡ (is_it_sequence node.now && row.leaves_parts (children (part node.now 0))) }
    ensures list { result ≡ true → 0 < count (children node.now) }
    ensures parts { result ≡ true → 1 < count (children (part node.now 0)) }
{
    is_sequence(node) && leaves_parts(node.child(0).children())
}

// Whether a sequence is there.
fn holds_sequence(node: &Node) -> bool
    ensures kind { result ≡ row.holds_sequence node.now }
    ensures first { result ≡ true → 0 < count (children node.now) }
    ensures list { result ≡ true → 0 < count (children (row.held node.now)) }
    ensures parts { result ≡ true → 1 < count (children (part (row.held node.now) 0)) }
{
    holds(node) && is_apart(held(node))
}

// `a;`, or a `for`
fn holds_alone(node: &Node) -> bool
    ensures kind { result ≡ row.holds_alone node.now }
    ensures parts { result ≡ true → 0 < count (children node.now) }
{
    is_expression_statement(node) || is_for(node)
}

/// What the statement begins with.
pub fn beginning_of(node: &Node) -> &Node
    requires { 0 < count (children node.now) }
    ensures { result.now ≡ row.beginning_of node.now }
{
    if holds_sequence(node) {
        return held(node).child(0).child(0);
    }
    node.child(0)
}

/// Whether the statement begins with an assignment, which leaves a statement, or nothing.
pub fn assigns_first(node: &Node) -> bool
    ensures kind { result ≡ row.assigns_first node.now }
    ensures parts { result ≡ true → 0 < count (children node.now) }
    ensures target { result ≡ true → count (children (row.beginning_of node.now)) ≡ 2 }
{
    (holds_sequence(node) || holds_alone(node)) && assigns_name(beginning_of(node))
}

// Whether the first is a `var`, and the second begins with an assignment.
fn may_enter(first: &Node, next: &Node) -> bool
    ensures { result ≡ row.may_enter first.now next.now }
{
    declares(first, VariableDeclarationKind::Var) && assigns_first(next)
}

// The place of the declarator that the assignment goes into.
fn enters_at(first: &Node, next: &Node) -> Option<usize>
    ensures { EntersAt first.now next.now result }
{
    if !may_enter(first, next) {
        return None;
    }
    takes_at(first.child(0).children(), beginning_of(next).child(0))
}

// The expression of these parts.
fn of_parts(alloc: Global, mut parts: Nodes) -> Result<Node, OutOfMemory>
    requires { 0 < count parts }
    ensures { IfOk result (λ made. made ≡ list.of_parts (child_or_absent parts 0) (without parts 0)) }
{
    if parts.len() == 1 {
        return Ok(parts.remove(0));
    }
    sequence(alloc, parts)
}

// `b`, of `x = b`
fn value_of(assignment: Node) -> Node
    ensures { result ≡ part assignment 1 }
{
    let (target, value) = two(assignment);
    discard(target);
    value
}

// `b`, and `c`, of `(a = b, c)`
#[tactic(auto, using(crate::proofs::Assignments::others_are, crate::proofs::Assignments::count_others))]
fn split(alloc: Global, sequence: Node) -> Result<(Node, Node), OutOfMemory>
    requires { 1 < count (children (part sequence 0)) }
    ensures value { IfOk result (λ made. made.0 ≡ part (part (part sequence 0) 0) 1) }
    ensures rest { IfOk result (λ made. made.1 ≡ row.other_parts (children (part sequence 0))) }
{
    let mut parts = one(sequence).into_children();
    let value = value_of(parts.remove(0));
    let rest = of_parts(alloc, parts)?;
    Ok((value, rest))
}

// `b`, and the child with `c`, of a child `(a = b, c)`.
#[tactic(auto, using(crate::proofs::Parts::same_parts, crate::proofs::Parts::part_twice))]
fn leave_child(alloc: Global, mut next: Node, at: usize) -> Result<(Node, Node), OutOfMemory>
    requires within { at < count (children next) }
    requires parts { 1 < count (children (part (part next at) 0)) }
    ensures value { IfOk result (λ made. made.0 ≡ part (part (part (part next at) 0) 0) 1) }
    ensures left { IfOk result (λ made. made.1 ≡ with_part next at (row.other_parts (children (part (part next at) 0)))) }
{
    let sequence = take_child(&mut next, at);
    let (value, rest) = split(alloc, sequence)?;
    Ok((value, over_child(next, at, rest)))
}

// `b`, and the declaration with `c`, of one whose first initializer is `(a = b, c)`.
#[tactic(auto, using(crate::proofs::Parts::same_parts, crate::proofs::Parts::part_twice))]
fn leave_first(alloc: Global, mut next: Node) -> Result<(Node, Node), OutOfMemory>
    requires some { 0 < count (children next) }
    requires list { 0 < count (children (part next 0)) }
    requires declarator { 1 < count (children (part (part next 0) 0)) }
    requires parts { 1 < count (children (part (part (part (part next 0) 0) 1) 0)) }
    ensures value { IfOk result (λ made. made.0 ≡ part (part (part (part (part (part next 0) 0) 1) 0) 0) 1) }
    ensures left { IfOk result (λ made. made.1 ≡ row.with_first next (row.other_parts (children (part (part (part (part next 0) 0) 1) 0)))) }
{
    let mut list = take_child(&mut next, 0);
    let declarator = take_child(&mut list, 0);
    let (value, given) = leave_child(alloc, declarator, 1)?;
    let others = over_child(list, 0, given);
    Ok((value, over_child(next, 0, others)))
}

// `b`, and the `for` with `c`, of a `for` over a `var` whose first initializer is `(a = b, c)`.
#[tactic(auto, using(crate::proofs::Parts::same_parts, crate::proofs::Parts::part_twice))]
fn leave_looped(alloc: Global, mut next: Node) -> Result<(Node, Node), OutOfMemory>
    requires some { 0 < count (children next) }
    requires head { 0 < count (children (part next 0)) }
    requires list { 0 < count (children (part (part next 0) 0)) }
    requires declarator { 1 < count (children (part (part (part next 0) 0) 0)) }
    requires parts { 1 < count (children (part (part (part (part (part next 0) 0) 0) 1) 0)) }
    ensures value { IfOk result (λ made. made.0 ≡ part (part (part (part (part (part (part next 0) 0) 0) 1) 0) 0) 1) }
    ensures left { IfOk result (λ made. made.1 ≡ with_part next 0 (row.with_first (part next 0) (row.other_parts (children (part (part (part (part (part next 0) 0) 0) 1) 0))))) }
{
    let head = take_child(&mut next, 0);
    let (value, rest) = leave_first(alloc, head)?;
    Ok((value, over_child(next, 0, rest)))
}

// `b`, and the statement with `c`, of one that holds `(a = b, c)`.
fn leave_held(alloc: Global, next: Node) -> Result<(Node, Node), OutOfMemory>
    requires { row.holds_sequence next ≡ true }
    ensures value { IfOk result (λ made. made.0 ≡ part (part (part (row.held next) 0) 0) 1) }
    ensures left { IfOk result (λ made. made.1 ≡ row.with_held next (row.other_parts (children (part (row.held next) 0)))) }
{
    if loops_first(&next) {
        return leave_looped(alloc, next);
    }
    leave_plainly(alloc, next)
}

// `b`, and the statement with `c`, of any other that begins with `(a = b, c)`.
fn leave_plainly(alloc: Global, next: Node) -> Result<(Node, Node), OutOfMemory>
    requires whole { row.holds_sequence next ≡ true }
    requires plain { row.loops_first next ≡ false }
    ensures value { IfOk result (λ made. made.0 ≡ part (part (part (row.held_plainly next) 0) 0) 1) }
    ensures left { IfOk result (λ made. made.1 ≡ row.with_plainly next (row.other_parts (children (part (row.held_plainly next) 0)))) }
{
    if is_led(&next) {
        return leave_child(alloc, next, 0);
    }
    if goes_over(&next) {
        return leave_child(alloc, next, 1);
    }
    leave_first(alloc, next)
}

// `b`, and `c;`, of `a = b, c;`
fn leave_sequence(alloc: Global, next: Node) -> Result<(Node, Nodes), OutOfMemory>
    requires { row.holds_sequence next ≡ true }
    ensures value { IfOk result (λ made. made.0 ≡ part (part (part (row.held next) 0) 0) 1) }
    ensures left { IfOk result (λ made. made.1 ≡ row.with_held next (row.other_parts (children (part (row.held next) 0))) ▸ none) }
{
    let (value, rest) = leave_held(alloc, next)?;
    let left = of_one(alloc, rest)?;
    Ok((value, left))
}

// `b`, and nothing, of `a = b;`; or `for (; c; d) e`, of `for (a = b; c; d) e`
fn leave_alone(alloc: Global, mut next: Node) -> Result<(Node, Nodes), OutOfMemory>
    requires { 0 < count (children next) }
    ensures value { IfOk result (λ made. made.0 ≡ part (part next 0) 1) }
    ensures left { IfOk result (λ made. made.1 ≡ row.left_alone next) }
{
    if is_expression_statement(&next) {
        return Ok((value_of(one(next)), Nodes::new(alloc)));
    }
    let value = value_of(take_child(&mut next, 0));
    let left = of_one(alloc, next)?;
    Ok((value, left))
}

/// The value that is assigned, and what is left of the statement.
pub fn leave(alloc: Global, next: Node) -> Result<(Node, Nodes), OutOfMemory>
    requires { 0 < count (children next) }
    ensures value { IfOk result (λ made. made.0 ≡ part (row.beginning_of next) 1) }
    ensures left { IfOk result (λ made. made.1 ≡ row.left_of next) }
{
    if holds_sequence(&next) {
        leave_sequence(alloc, next)
    } else {
        leave_alone(alloc, next)
    }
}

/// The declarator, with a value.
pub fn initialised(declarator: Node, value: Node) -> Node
    requires { 1 < count (children declarator) }
    ensures { result ≡ with_part declarator 1 value }
{
    over_child(declarator, 1, value)
}

// `var a = b, c;`, of `var a, c;`
fn with_value(alloc: Global, declaration: Node, at: usize, value: Node) -> Result<Node, OutOfMemory>
    requires within { at < count (children (part declaration 0)) }
    requires parts { 1 < count (children (child_or_absent (children (part declaration 0)) at)) }
    ensures { IfOk result (λ made. made ≡ row.with_value declaration at value) }
{
    let mut declarators = one(declaration).into_children();
    let declarator = declarators.take(at);
    discard(declarators.replace(at, initialised(declarator, value)));
    let children = of_one(alloc, listed(declarators))?;
    Ok(Node::new(
        Shape::VariableDeclaration(VariableDeclarationKind::Var),
        children,
    ))
}

// The `var` with the value in it, and what is left of the statement.
fn enter(alloc: Global, first: Node, next: Node, at: usize) -> Result<(Node, Nodes), OutOfMemory>
    requires { EntersAt first next (Some at) }
    ensures { IfOk result (λ made. Entered first next made.0 made.1) }
{
    let (value, left) = leave(alloc, next)?;
    let declared = with_value(alloc, first, at, value)?;
    Ok((declared, left))
}

// Whether the loop takes a `var` into its head.
fn takes_head(options: CompressOptions, node: &Node) -> bool
    ensures kind { result ≡ row.takes_head (switches_of options) node.now }
    ensures parts { result ≡ true → 0 < count (children node.now) }
{
    is_for_of(node) || (options.sequences && is_for_in(node))
}

// Whether there is one declarator, without an initializer, of the name that is assigned to.
fn declares_one(target: &Node, declarators: &Nodes) -> bool
    ensures { result ≡ row.declares_one target.now declarators.now }
{
    declarators.len() == 1 && declares_bare(declarators.child(0), target)
}

// Whether the loop assigns to the name of the declaration.
fn assigns_its_name(options: CompressOptions, declaration: &Node, node: &Node) -> bool
    requires { 0 < count (children declaration.now) }
    ensures kind { result ≡ row.assigns_its_name (switches_of options) declaration.now node.now }
    ensures parts { result ≡ true → 0 < count (children node.now) }
{
    takes_head(options, node)
        && is_identifier(node.child(0))
        && declares_one(node.child(0), declaration.child(0).children())
}

// Whether the first, a `var`, goes into the head of the second.
fn heads(options: CompressOptions, first: &Node, next: &Node) -> bool
    ensures kind { result ≡ row.heads (switches_of options) first.now next.now }
    ensures parts { result ≡ true → 0 < count (children next.now) }
{
    declares(first, VariableDeclarationKind::Var) && assigns_its_name(options, first, next)
}

// Whether an assignment that begins the second goes into the first.
fn enters(first: &Node, next: &Node) -> bool
    ensures { result ≡ row.enters first.now next.now }
{
    enters_at(first, next).is_some()
}

// Whether a `var` goes into the head of the next statement, or an assignment that begins that goes
// into it.
fn joins_var(options: CompressOptions, first: &Node, next: &Node) -> bool
    ensures { result ≡ row.joins_var (switches_of options) first.now next.now }
{
    enters(first, next) || heads(options, first, next)
}

// Whether the one after a place is joined to the one there.
fn enters_next(options: CompressOptions, list: &Nodes, at: usize) -> bool
    requires { at < count list.now }
    ensures { result ≡ row.enters_first (switches_of options) (rest_children at list.now) }
{
    let last = list.len() - 1;
    if at == last {
        return false;
    }
    joins_var(options, list.child(at), list.child(at + 1))
}

// Whether nothing is joined to a `var` before it.
fn are_entered(options: CompressOptions, list: &Nodes) -> bool
    ensures { result ≡ row.are_entered (switches_of options) list.now }
{
    for at in 0..list.len() {
        if enters_next(options, list, at) {
            return false;
        }
    }
    true
}

// The place where the assignment goes that begins the statement, in the last of the others.
fn enters_last(before: &Nodes, statement: &Node) -> Option<usize>
    ensures { EntersLast before.now statement.now result }
{
    let count = before.len();
    if count == 0 {
        return None;
    }
    enters_at(before.child(count - 1), statement)
}

// Whether the last of the others goes into the head of the statement.
fn heads_last(options: CompressOptions, before: &Nodes, statement: &Node) -> bool
    ensures kind { result ≡ row.heads_last (switches_of options) before.now statement.now }
    ensures parts { result ≡ true → 0 < count (children statement.now) }
{
    let count = before.len();
    if count == 0 {
        return false;
    }
    heads(options, before.child(count - 1), statement)
}

// Puts the statement after the others, of which the last may go into its head.
fn put_headed(
    options: CompressOptions,
    before: &mut Nodes,
    statement: Node,
) -> Result<bool, OutOfMemory>
    requires { row.enters_last before.old statement ≡ false }
    ensures { IfOk result (λ changed. (rest : Trees) → PutEntered (switches_of options) before.old statement rest before.new rest changed) }
{
    if !heads_last(options, before, &statement) {
        before.push(statement)?;
        return Ok(false);
    }
    let last = take_last(before);
    before.push(over_child(statement, 0, last))?;
    Ok(true)
}

// Puts the statement after the others; where it begins with an assignment that goes into the last
// of them, what is left of it is put back. The answer says whether one did.
fn put_entered(
    alloc: Global,
    options: CompressOptions,
    before: &mut Nodes,
    rest: &mut Nodes,
    statement: Node,
) -> Result<bool, OutOfMemory>
    ensures { IfOk result (PutEntered (switches_of options) before.old statement rest.old before.new rest.new) }
{
    match enters_last(before, &statement) {
        None => put_headed(options, before, statement),
        Some(at) => {
            let last = take_last(before);
            let (declared, left) = enter(alloc, last, statement, at)?;
            before.push(declared)?;
            put_reversed(rest, left)?;
            Ok(true)
        }
    }
}

// Does all statements, from the first to the last.
fn enter_all(alloc: Global, options: CompressOptions, list: &mut Nodes) -> Result<bool, OutOfMemory>
    ensures { IfOk result (AllEntered (switches_of options) list.old list.new) }
{
    let whole = mem::replace(list, Nodes::new(alloc));
    let mut rest = Nodes::new(alloc);
    put_reversed(&mut rest, whole)?;
    let mut changed = false;
    'statements: while let Some(statement) = rest.pop() {
        let entered = put_entered(alloc, options, list, &mut rest, statement)?;
        changed = changed | entered;
    }
    Ok(changed)
}

/// Each assignment that begins the statement after a `var` as an initializer in it, and each `var`
/// in the head of the loop after it that assigns to its name. The answer says whether there was
/// one; the only error is that memory runs out, and then the list is fit only to be dropped.
pub fn join_assignments(
    alloc: Global,
    options: CompressOptions,
    node: &mut Node,
) -> Result<bool, OutOfMemory>
    ensures { IfOk result (JoinsAssignments (switches_of options) node.old node.new) }
{
    if !is_listed(node) || are_entered(options, node.children()) {
        return Ok(false);
    }
    enter_all(alloc, options, node.children_mut())
}
