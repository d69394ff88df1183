//! Row 80: `switch (a) { case 1: b(); break; }` becomes `if (a === 1) { b(); }`,
//! `switch (a) { default: b(); break; }` becomes `{ a; b(); }`, and
//! `switch (a) { default: let x = b(); c(x); }` `{ a; { let x = b(); c(x); } }`, each of which is
//! lighter in every place.

ghost use Rattle.std.specs.Prelude.{◌≡◌, ◌≤◌, ◌<◌, ◌&&◌, true, not, is_some, unwrap_or, OnOk, IfOk};
ghost use Rattle.mini_model.specs.declared.operator.BinaryOperator.TheVariants.{StrictEquality};
ghost use Rattle.mini_model.specs.Tree.{children, count, shape_of, expression_statement as statement_of, if_alone};
ghost use Rattle.mini_model.specs.Tree.{◌▸◌};
ghost use Rattle.mini_laws.specs.Early.{jump_of, label_in, turn_of};
ghost use Rattle.mini_node.specs.Children.{part, first_children};
ghost use Rattle.mini_node.specs.Kinds.{block as block_of, binary as binary_of};
ghost use Rattle.mini_rows.specs.Cases as case;
ghost use Rattle.mini_rows.specs.Lists as list;
ghost use Rattle.mini_switch.specs.Lighter.{switches_lighter};
ghost use Rattle.mini_switch.specs.MinimizeSwitchStatements as row;
ghost use Rattle.mini_switch.specs.DropUnreachableSwitchCases.{either_written};
ghost use Rattle.mini_switch.specs.MinimizeSwitchStatements.{written, Gives, Rests};
ghost use Rattle.mini_tree.specs.Rule.{Applied};

use crate::rewrites::drop_unreachable_switch_cases::drop_unreachable_switch_cases;
use mini_model::{BinaryOperator, OutOfMemory, Position, Shape};
use mini_node::{
    Node, Nodes, absent, binary, block, discard, expression_statement, if_statement,
    is_absent_part, is_listed, of_one, one, taken, two,
};
use mini_stmt::{are_unscoped, declares_nothing};
use mini_syntax::{is_list_of, is_plain};
use mini_tree::{Context, Rule};
use std::alloc::Global;

// Whether a `break` in the child at an index ends what is around the node too: in the body of a
// loop, in the cases of a `switch` and in a function it doesn't.
fn lets_out(shape: &Shape, at: usize) -> bool
    ensures { result ≡ case.lets_out (turn_of shape.now at) }
{
    match shape {
        Shape::WhileStatement => at == 0,
        Shape::DoWhileStatement => at != 0,
        Shape::ForStatement => at < 3,
        Shape::ForInStatement => at < 2,
        Shape::ForOfStatement => at < 2,
        Shape::SwitchStatement => at == 0,
        Shape::Function(_, _, _) => false,
        Shape::ArrowFunctionExpression(_) => false,
        _ => true,
    }
}

// Whether there is a label.
#[tactic(auto, using(crate::proofs::Switches::no_label))]
fn has_label(node: &Node) -> bool
    ensures { result ≡ row.has_label (children node.now) }
{
    node.children().len() > 0 && matches!(node.child(0).shape(), Shape::IdentifierName(_))
}

// `break` without a label.
#[tactic(auto, using(crate::proofs::Switches::break_is_bare))]
fn is_break(node: &Node) -> bool
    ensures { result ≡ case.is_bare (jump_of (shape_of node.now)) (label_in (children node.now)) }
{
    match node.shape() {
        Shape::BreakStatement => !has_label(node),
        _ => false,
    }
}

// Whether a `break` without a label in the child of a shape ends what is around that.
#[cycle(breaking)]
fn breaks_through(shape: &Shape, at: usize, child: &Node) -> bool
    ensures { result ≡ (case.lets_out (turn_of shape.now at) && case.breaks_out child.now) }
{
    lets_out(shape, at) && breaks_out(child)
}

// Whether one in one of the children does.
#[cycle(breaking)]
fn any_breaks_out(shape: &Shape, nodes: &Nodes) -> bool
    ensures { result ≡ case.any_breaks_out shape.now 0 nodes.now }
{
    for at in 0..nodes.len() {
        if breaks_through(shape, at, nodes.child(at)) {
            return true;
        }
    }
    false
}

// Whether a `break` without a label stands in a tree that ends what is around the tree.
#[cycle(breaking)]
#[tactic(auto, using(crate::proofs::Switches::below))]
fn breaks_out(node: &Node) -> bool
    ensures { result ≡ case.breaks_out node.now }
{
    is_break(node) || any_breaks_out(node.shape(), node.children())
}

// Whether one stands in one of the first statements.
fn some_breaks(nodes: &Nodes, end: usize) -> bool
    requires { end ≤ count nodes.now }
    ensures { result ≡ row.some_breaks (first_children end nodes.now) }
{
    for at in 0..end {
        if breaks_out(nodes.child(at)) {
            return true;
        }
    }
    false
}

// `break;`
fn is_bare_break(node: &Node) -> bool
    ensures { result ≡ row.is_bare_break node.now }
{
    match node.shape() {
        Shape::BreakStatement => node.is_bare(1) && is_absent_part(node.child(0)),
        _ => false,
    }
}

// Whether the last of some statements is one.
#[tactic(auto, using(crate::proofs::Switches::nothing_last))]
fn ends_in_break(nodes: &Nodes) -> bool
    ensures kind { result ≡ row.ends_in_break nodes.now }
    ensures some { result ≡ true → 0 < count nodes.now }
{
    nodes.len() > 0 && is_bare_break(nodes.child(nodes.len() - 1))
}

// How many statements there are without it.
fn unbroken_count(nodes: &Nodes) -> usize
    ensures value { result ≡ row.unbroken_count nodes.now }
    ensures within { result ≤ count nodes.now }
{
    if ends_in_break(nodes) {
        nodes.len() - 1
    } else {
        nodes.len()
    }
}

/// Whether none of the statements of a case but a last `break;` leaves it by a `break` without a
/// label (ECMA-262, "BreakStatement").
pub fn stay_inside(nodes: &Nodes) -> bool
    ensures { result ≡ row.stay_inside nodes.now }
{
    !some_breaks(nodes, unbroken_count(nodes))
}

/// Whether the node is `case a: ..`, or `default: ..`.
pub fn is_case(node: &Node) -> bool
    ensures kind { result ≡ row.is_case node.now }
    ensures parts { result ≡ true → count (children node.now) ≡ 2 }
{
    match node.shape() {
        Shape::SwitchCase => node.is_bare(2) && is_listed(node.child(1)),
        _ => false,
    }
}

// Whether there is no test, or one that writes a value out, and then nothing in the case is scoped.
fn may_be_tested(test: &Node, statements: &Nodes) -> bool
    ensures { result ≡ row.may_be_tested test.now statements.now }
{
    is_absent_part(test) || (is_plain(test) && are_unscoped(statements))
}

/// Whether the statements of a case may stand in a branch or a block: it has no test, or one that
/// writes a value out, and then nothing in it is scoped; and none but a last `break;` leaves it by
/// a `break` without a label (ECMA-262, "The switch Statement").
pub fn can_switch_case_be_inlined(case: &Node) -> bool
    ensures { result ≡ row.can_be_inlined case.now }
{
    is_case(case)
        && may_be_tested(case.child(0), case.child(1).children())
        && stay_inside(case.child(1).children())
}

/// Whether the statement is `switch (a) { one case }`.
pub fn holds_one_case(node: &Node) -> bool
    ensures kind { result ≡ row.holds_one_case node.now }
    ensures outer { result ≡ true → count (children node.now) ≡ 2 }
    ensures inner { result ≡ true → count (children (part node.now 1)) ≡ 1 }
{
    match node.shape() {
        Shape::SwitchStatement => node.is_bare(2) && is_list_of(1, node.child(1)),
        _ => false,
    }
}

fn inlines(node: &Node) -> bool
    ensures { result ≡ row.inlines node.now }
{
    holds_one_case(node)
        && declares_nothing(node.child(0))
        && can_switch_case_be_inlined(node.child(1).child(0))
}

// The statements without a last `break;`.
#[tactic(auto, using(crate::proofs::Switches::without_last, crate::proofs::Switches::all_there))]
fn without_break(mut nodes: Nodes) -> Nodes
    ensures { result ≡ row.before_break nodes }
{
    if !ends_in_break(&nodes) {
        return nodes;
    }
    let last = nodes.len() - 1;
    discard(nodes.remove(last));
    nodes
}

// The statements, or a block of those that declare names.
fn enclosed(alloc: Global, statements: Nodes) -> Result<Nodes, OutOfMemory>
    ensures { IfOk result (λ w. w ≡ row.enclosed statements) }
{
    if are_unscoped(&statements) {
        return Ok(statements);
    }
    let inner = block(alloc, statements)?;
    of_one(alloc, inner)
}

// `{ a; .. }`
#[tactic(auto, using(crate::proofs::Switches::inserted_first))]
fn default_block(
    alloc: Global,
    discriminant: Node,
    mut statements: Nodes,
) -> Result<Node, OutOfMemory>
    ensures { IfOk result (λ w. w ≡ block_of (statement_of discriminant ▸ statements)) }
{
    let first = expression_statement(alloc, discriminant)?;
    statements.insert(0, first)?;
    block(alloc, statements)
}

// `if (a === 1) { .. }`
fn case_branch(
    alloc: Global,
    discriminant: Node,
    test: Node,
    statements: Nodes,
) -> Result<Node, OutOfMemory>
    ensures { IfOk result (λ w. w ≡ if_alone (binary_of StrictEquality discriminant test) (block_of statements)) }
{
    let body = block(alloc, statements)?;
    let equality = binary(alloc, BinaryOperator::StrictEquality, discriminant, test)?;
    if_statement(alloc, equality, body, absent(alloc))
}

fn written_for(
    alloc: Global,
    discriminant: Node,
    test: Node,
    statements: Nodes,
) -> Result<Node, OutOfMemory>
    ensures { IfOk result (λ w. w ≡ row.written_for discriminant test statements) }
{
    if is_absent_part(&test) {
        discard(test);
        default_block(alloc, discriminant, enclosed(alloc, statements)?)
    } else {
        case_branch(alloc, discriminant, test, statements)
    }
}

/// Of a `switch` of one case the `if`, or of `default` the block, without a last `break;`, whatever
/// stands in it. The only error is that memory runs out.
pub fn inlined(alloc: Global, node: Node) -> Result<Node, OutOfMemory>
    ensures { IfOk result (λ w. w ≡ row.inlined node) }
{
    let (discriminant, cases) = two(node);
    let (test, body) = two(one(cases));
    written_for(
        alloc,
        discriminant,
        test,
        without_break(body.into_children()),
    )
}

/// A `switch` of one case becomes an `if`, or of `default` alone a block, in which what declares
/// names has a block of its own. The answer says whether it did; the only error is that memory runs
/// out.
pub fn minimize_switch_statement(alloc: Global, node: &mut Node) -> Result<bool, OutOfMemory>
    ensures tree { OnOk result (node.new ≡ unwrap_or (written node.old) node.old) }
    ensures said { IfOk result (λ changed. changed ≡ is_some (written node.old)) }
{
    if !inlines(node) {
        return Ok(false);
    }
    *node = inlined(alloc, taken(alloc, node))?;
    Ok(true)
}

// What either rewrite of a `switch` makes.
fn minimize_switch(alloc: Global, node: &mut Node) -> Result<bool, OutOfMemory>
    ensures tree { OnOk result (node.new ≡ unwrap_or (either_written node.old) node.old) }
    ensures said { IfOk result (λ changed. changed ≡ is_some (either_written node.old)) }
{
    if minimize_switch_statement(alloc, node)? {
        return Ok(true);
    }
    drop_unreachable_switch_cases(alloc, node)
}

/// Rows 80 and 81 as a rule: of each statement.
pub struct MinimizeSwitches;

impl<C: Context> Rule<C> for MinimizeSwitches {
    ghost gives = { λ o q. Gives };

    ghost rests = { λ o q. Rests };

    ghost lighter = { λ o q. switches_lighter };

    #[tactic(auto, using(crate::proofs::DeadCaseRows::applied))]
    fn apply(
        &self,
        alloc: Global,
        node: &mut Node,
        place: Position,
        context: &mut C,
    ) -> Result<bool, OutOfMemory> {
        match place {
            Position::Stmt(_) => Ok(minimize_switch(alloc, node)?),
            _ => Ok(false),
        }
    }
}
