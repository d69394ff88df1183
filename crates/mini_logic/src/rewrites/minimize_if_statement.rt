//! Rows 82 and 83: `if (a) b; else c;` becomes `a ? b : c;`, `if (a) b;` becomes `a && b;`, and
//! `if (!a) b;` becomes `a || b;`, and so does `if (a, !b) c;` become `(a, b) || c;`; an empty
//! consequent goes, `if (a) if (b) c;` becomes `if (a && b) c;`, an `if` with `else` as a
//! consequent gets a block, and `if (!a) return b; else throw c;` becomes
//! `if (a) throw c; else return b;`. Each is lighter in every place.

ghost use Rattle.std.specs.Prelude.{◌≡◌, true, is_some, unwrap_or, OnOk, IfOk};
ghost use Rattle.mini_model.specs.Position.{statement_expression_seat, left_operand_seat};
ghost use Rattle.mini_model.specs.Terms.{neg};
ghost use Rattle.mini_rows.specs.Branches.{as_consequent as as_consequent_of};
ghost use Rattle.mini_tree.specs.Rule.{Applied};
ghost use Rattle.mini_logic.specs.Lighter.{if_lighter};
ghost use Rattle.mini_logic.specs.MinimizeIfStatement.{chooses as it_chooses, guards as it_guards, is_empty as is_it_empty, has_empty_consequent as has_an_empty_consequent, skips as it_skips, only_tests as it_only_tests, is_weighed as is_it_weighed, turns as it_turns, nests as it_nests, is_bare as is_it_bare, keeps_braces as it_keeps_braces, swaps as it_swaps, choice as choice_of, conjunction as conjunction_of, disjunction as disjunction_of, guard as guard_of, skipped as skipped_of, turned as turned_of, nested as nested_of, in_block as in_block_of, swapped as swapped_of, written, Gives, Rests};
ghost use Rattle.mini_model.specs.Tree.{children, count, expression_statement as expression_statement_of};
ghost use Rattle.mini_node.specs.Children.{part};

use crate::sequences::{ends_in_not, without_not};
use crate::statements::{has_else, is_other_branch, is_unchained, may_choose};
use crate::terms::{has_one, is_not, lighter_negation, negated};
use mini_model::{LogicalOperator, OutOfMemory, Position, Seat, Shape};
use mini_node::{
    Node, absent, block, conditional, discard, expression_statement, if_statement, is_absent_part,
    is_block, is_empty_statement, is_expression_statement, is_if_alone, is_if_statement,
    is_negation, logical, of_one, one, taken, three,
};
use mini_tree::{Context, Rule, negation_weight, seats};
use std::alloc::Global;

// `if (a) b; else c;`
fn chooses(node: &Node) -> bool
    ensures { result ≡ it_chooses node.now }
{
    is_if_statement(node)
        && is_expression_statement(node.child(1))
        && is_expression_statement(node.child(2))
}

// `if (a) b;`
fn guards(node: &Node) -> bool
    ensures { result ≡ it_guards node.now }
{
    is_if_alone(node) && is_expression_statement(node.child(1))
}

// `;` or `{}`
fn is_empty(node: &Node) -> bool
    ensures { result ≡ is_it_empty node.now }
{
    is_empty_statement(node) || (is_block(node) && node.child(0).children().is_empty())
}

// `if (a);`, with `else` or without
fn has_empty_consequent(node: &Node) -> bool
    ensures kind { result ≡ has_an_empty_consequent node.now }
    ensures parts { result ≡ true → count (children node.now) ≡ 3 }
{
    is_if_statement(node) && is_empty(node.child(1))
}

// `if (a); else b;`
fn skips(node: &Node) -> bool
    ensures { result ≡ it_skips node.now }
{
    has_empty_consequent(node) && is_expression_statement(node.child(2))
}

// `if (a);`
fn only_tests(node: &Node) -> bool
    ensures { result ≡ it_only_tests node.now }
{
    has_empty_consequent(node) && is_absent_part(node.child(2))
}

// Whether the weight of `!a` as a test fits 64 bits.
fn is_weighed(test: &Node) -> bool
    ensures { result ≡ is_it_weighed test.now }
{
    negation_weight(test, seats::if_test()) < u64::MAX
}

// `if (a); else return b;`
fn turns(node: &Node) -> bool
    ensures { result ≡ it_turns node.now }
{
    has_empty_consequent(node) && is_other_branch(node.child(2)) && is_weighed(node.child(0))
}

// `if (a) if (b) c;`
fn nests(node: &Node) -> bool
    ensures { result ≡ it_nests node.now }
{
    is_if_alone(node) && is_if_alone(node.child(1))
}

// `if (a) if (b) c; else d;`, where the `else` is that of the second `if`
fn is_bare(node: &Node) -> bool
    ensures { result ≡ is_it_bare node.now }
{
    is_if_statement(node) && has_else(node.child(1))
}

// Whether its braces, if it has any, weigh as an alternate what they do as a consequent.
#[tactic(auto, using(crate::proofs::Alternates::one_counted))]
fn keeps_braces(node: &Node) -> bool
    ensures { result ≡ it_keeps_braces node.now }
{
    if !matches!(node.shape(), Shape::BlockStatement) {
        return true;
    }
    is_block(node) && !(has_one(node.child(0).children()) && may_choose(node.child(0).child(0)))
}

// `if (!a) return b; else throw c;`
fn swaps(node: &Node) -> bool
    ensures { result ≡ it_swaps node.now }
{
    is_if_statement(node)
        && is_negation(node.child(0))
        && is_other_branch(node.child(1))
        && keeps_braces(node.child(1))
        && is_unchained(node.child(2))
}

// `a ? b : c;`
fn choice(alloc: Global, node: Node) -> Result<Node, OutOfMemory>
    ensures { IfOk result (λ w. w ≡ choice_of node) }
{
    let (test, consequent, alternate) = three(node);
    let expression = conditional(alloc, test, one(consequent), one(alternate))?;
    expression_statement(alloc, expression)
}

// `a && b;`
fn conjunction(alloc: Global, test: Node, branch: Node) -> Result<Node, OutOfMemory>
    ensures { IfOk result (λ w. w ≡ conjunction_of test branch) }
{
    let expression = logical(alloc, LogicalOperator::And, test, one(branch))?;
    expression_statement(alloc, expression)
}

// `a || b;`
fn disjunction(alloc: Global, test: Node, branch: Node) -> Result<Node, OutOfMemory>
    ensures { IfOk result (λ w. w ≡ disjunction_of test branch) }
{
    let expression = logical(alloc, LogicalOperator::Or, test, one(branch))?;
    expression_statement(alloc, expression)
}

// The test `!a` of an expression statement without its `!`.
fn unnegated(alloc: Global, operator: LogicalOperator, test: Node) -> Result<Node, OutOfMemory>
    ensures { IfOk result (λ w. w ≡ neg (left_operand_seat operator statement_expression_seat) test) }
{
    negated(
        alloc,
        test,
        seats::left_operand(operator, seats::statement_expression()),
    )
}

// `a && b;`, or `a || b;` of a test `!a`, and of a sequence that ends in one
fn guard(alloc: Global, node: Node) -> Result<Node, OutOfMemory>
    ensures { IfOk result (λ w. w ≡ guard_of node) }
{
    let (test, consequent, alternate) = three(node);
    discard(alternate);
    if is_not(&test) {
        let left = unnegated(alloc, LogicalOperator::Or, test)?;
        disjunction(alloc, left, consequent)
    } else if ends_in_not(&test) {
        disjunction(alloc, without_not(test), consequent)
    } else {
        conjunction(alloc, test, consequent)
    }
}

// `a || b;`, or `a && b;` of a test `!a`, and of a sequence that ends in one
fn skipped(alloc: Global, node: Node) -> Result<Node, OutOfMemory>
    ensures { IfOk result (λ w. w ≡ skipped_of node) }
{
    let (test, consequent, alternate) = three(node);
    discard(consequent);
    if is_not(&test) {
        let left = unnegated(alloc, LogicalOperator::And, test)?;
        conjunction(alloc, left, alternate)
    } else if ends_in_not(&test) {
        conjunction(alloc, without_not(test), alternate)
    } else {
        disjunction(alloc, test, alternate)
    }
}

// `a;`
fn tested(alloc: Global, node: Node) -> Result<Node, OutOfMemory>
    ensures { IfOk result (λ w. w ≡ expression_statement_of (part node 0)) }
{
    expression_statement(alloc, one(node))
}

// A statement as a consequent: an `if` with `else` has a block around it there.
fn as_consequent(alloc: Global, statement: Node) -> Result<Node, OutOfMemory>
    ensures { IfOk result (λ w. w ≡ as_consequent_of statement) }
{
    if !has_else(&statement) {
        return Ok(statement);
    }
    let body = of_one(alloc, statement)?;
    block(alloc, body)
}

// `if (!a) return b;`
fn turned(alloc: Global, node: Node) -> Result<Node, OutOfMemory>
    ensures { IfOk result (λ w. w ≡ turned_of node) }
{
    let (test, consequent, alternate) = three(node);
    discard(consequent);
    let other = lighter_negation(alloc, test, seats::if_test())?;
    let branch = as_consequent(alloc, alternate)?;
    if_statement(alloc, other, branch, absent(alloc))
}

// `if (a && b) c;`
fn nested(alloc: Global, node: Node) -> Result<Node, OutOfMemory>
    ensures { IfOk result (λ w. w ≡ nested_of node) }
{
    let (test, consequent, alternate) = three(node);
    discard(alternate);
    let (second, statement, other) = three(consequent);
    discard(other);
    let both = logical(alloc, LogicalOperator::And, test, second)?;
    if_statement(alloc, both, statement, absent(alloc))
}

// `if (a) { if (b) c; else d; }`
fn in_block(alloc: Global, node: Node) -> Result<Node, OutOfMemory>
    ensures { IfOk result (λ w. w ≡ in_block_of node) }
{
    let (test, consequent, alternate) = three(node);
    let body = of_one(alloc, consequent)?;
    let branch = block(alloc, body)?;
    if_statement(alloc, test, branch, alternate)
}

// `if (a) throw c; else return b;`
fn swapped(alloc: Global, node: Node) -> Result<Node, OutOfMemory>
    ensures { IfOk result (λ w. w ≡ swapped_of node) }
{
    let (test, consequent, alternate) = three(node);
    if_statement(alloc, one(test), alternate, consequent)
}

/// `if (a) b; else c;` becomes `a ? b : c;`, `if (a) b;` becomes `a && b;`, and where a ends in a
/// `!`, alone or as the last part of a sequence, `!a || b;` with the `!` taken off; an empty
/// consequent goes; `if (a) if (b) c;` becomes `if (a && b) c;`; an `if` with `else` as a
/// consequent gets a block; and `if (!a) return b; else throw c;` becomes
/// `if (a) throw c; else return b;`. The answer says whether it did; the only error is that memory
/// runs out, and then the statement is fit only to be dropped.
pub fn try_minimize_if(alloc: Global, node: &mut Node) -> Result<bool, OutOfMemory>
    ensures tree { OnOk result (node.new ≡ unwrap_or (written node.old) node.old) }
    ensures said { IfOk result (λ changed. changed ≡ is_some (written node.old)) }
{
    let written = if chooses(node) {
        choice(alloc, taken(alloc, node))?
    } else if guards(node) {
        guard(alloc, taken(alloc, node))?
    } else if skips(node) {
        skipped(alloc, taken(alloc, node))?
    } else if only_tests(node) {
        tested(alloc, taken(alloc, node))?
    } else if turns(node) {
        turned(alloc, taken(alloc, node))?
    } else if nests(node) {
        nested(alloc, taken(alloc, node))?
    } else if is_bare(node) {
        in_block(alloc, taken(alloc, node))?
    } else if swaps(node) {
        swapped(alloc, taken(alloc, node))?
    } else {
        return Ok(false);
    };
    *node = written;
    Ok(true)
}

/// Row 82 as a rule: of each statement.
pub struct MinimizeIf;

impl<C: Context> Rule<C> for MinimizeIf {
    ghost gives = { λ o q. Gives };

    ghost rests = { λ o q. Rests };

    ghost lighter = { λ o q. if_lighter };

    #[tactic(auto, using(crate::proofs::MinimizeIfStatement::applied))]
    fn apply(
        &self,
        alloc: Global,
        node: &mut Node,
        place: Position,
        context: &mut C,
    ) -> Result<bool, OutOfMemory> {
        match place {
            Position::Stmt(_) => Ok(try_minimize_if(alloc, node)?),
            _ => Ok(false),
        }
    }
}
