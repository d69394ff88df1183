// Whether a tree in the order of its text can be printed: each node has the parts of its
// production.

ghost use Rattle.std.specs.Prelude.{◌≡◌, nat_le, ◌&&◌, ◌||◌, true, false, option_map, IfOk};
ghost use Rattle.mini_model.specs.Tree.{count, shape_of};
ghost use Rattle.mini_node.specs.Children.{trees_of, names_of};
ghost use Rattle.mini_print.specs.Groups.{has_gaps};
ghost use Rattle.mini_print.specs.Printed as printed;
ghost use Rattle.mini_grammar.specs.Pieces.{is_end, is_mark, least_of, takes_part};
ghost use Rattle.mini_grammar.specs.Views.{aim_of, goal_of, rule_of};
ghost use Rattle.mini_faults.specs.Wants.{filled, has_no_trees, is_negative, stands_in, want_in};

use crate::allowed::is_wanted;
use crate::sound::{is_nothing, is_silent, is_sound};
use mini_grammar::{Aim, Goal, Least, Piece, Rule, own_text, pieces_of, rule_in};
use mini_model::{OutOfMemory, Shape};
use mini_node::Node;
use std::alloc::Global;

fn plain(goal: Goal) -> Goal
    ensures { goal_of result ≡ printed.plain (goal_of goal) }
{
    match goal {
        Goal::WithoutIn | Goal::Callee | Goal::Target => Goal::Anything,
        _ => goal,
    }
}

// The goal of a part: that of the production's piece, or any expression.
fn wanted_goal(own: Option<Goal>) -> Goal
    ensures { goal_of result ≡ printed.wanted_goal (option_map goal_of own) }
{
    match own {
        Some(goal) => plain(goal),
        None => Goal::Anything,
    }
}

fn core(goal: Goal) -> Goal
    ensures { goal_of result ≡ printed.core (goal_of goal) }
{
    match goal {
        Goal::Parameter | Goal::BoundElement => Goal::Bound,
        Goal::TargetElement => Goal::TargetPattern,
        _ => goal,
    }
}

fn has_core(goal: Goal) -> bool
    ensures { result ≡ printed.has_core (goal_of goal) }
{
    matches!(
        goal,
        Goal::Parameter | Goal::BoundElement | Goal::TargetElement
    )
}

fn takes_values(goal: Goal) -> bool
    ensures { result ≡ printed.takes_values (goal_of goal) }
{
    matches!(goal, Goal::TargetElement)
}

fn is_list(node: &Node) -> bool
    ensures { result ≡ (printed.is_list (shape_of node.now) && printed.has_no_names (names_of node.now)) }
{
    match node.name() {
        Some(_) => false,
        None => matches!(node.shape(), Shape::Listed),
    }
}

fn has_one(items: &[Node]) -> bool
    ensures { result ≡ nat_le 1 (count (trees_of items.now)) }
{
    match items.split_first() {
        Some(_) => true,
        None => false,
    }
}

fn has_two(items: &[Node]) -> bool
    ensures { result ≡ nat_le 2 (count (trees_of items.now)) }
{
    match items.split_first() {
        Some((_, more)) => has_one(more),
        None => false,
    }
}

fn has_enough(least: Least, items: &[Node]) -> bool
    ensures { result ≡ printed.has_enough (least_of least) (count (trees_of items.now)) }
{
    match least {
        Least::Zero | Least::Gaps => true,
        Least::One => has_one(items),
        Least::Two => has_two(items),
    }
}

fn has_gaps(least: Least) -> bool
    ensures { result ≡ has_gaps (least_of least) }
{
    matches!(least, Least::Gaps)
}

fn is_negative(shape: &Shape) -> bool
    ensures { result ≡ is_negative shape.now }
{
    match shape {
        Shape::NumericLiteral(value) => *value < 0,
        _ => false,
    }
}

fn has_none(nodes: &[Node]) -> bool
    ensures { result ≡ has_no_trees (trees_of nodes.now) }
{
    match nodes.split_first() {
        Some(_) => false,
        None => true,
    }
}

// Whether a piece is a token or nothing: it takes no part.
fn is_mark(piece: Piece) -> bool
    ensures { result ≡ is_mark piece }
{
    !matches!(
        piece,
        Piece::Left(_)
            | Piece::LeftOperand
            | Piece::RightOperand
            | Piece::Part(_, _)
            | Piece::Default(_)
            | Piece::Restricted(_, _, _)
            | Piece::Commas(_, _)
            | Piece::Perhaps(_)
            | Piece::Option(_, _, _)
            | Piece::Statements(_)
            | Piece::Undirected
            | Piece::Silent(_)
            | Piece::End(_)
    )
}

fn is_end(piece: Piece) -> bool
    ensures { result ≡ is_end piece }
{
    matches!(piece, Piece::End(_))
}

// Whether a node stands in a goal by its production alone.
#[cycle(filling)]
#[tactic(auto, using(crate::proofs::Filled::no_rule, crate::proofs::Filled::unwanted, crate::proofs::Filled::unsound, crate::proofs::Filled::negative_stands, crate::proofs::Filled::other_stands))]
fn stands<'a>(alloc: Global, goal: Aim<'a>, node: &'a Node) -> Result<bool, OutOfMemory>
    ensures { IfOk result (λ same. same ≡ stands_in (aim_of goal.entry) node.now) }
{
    let Some(rule) = rule_in(goal, node) else {
        return Ok(false);
    };
    if !is_wanted(goal, rule) {
        return Ok(false);
    }
    if !is_sound(alloc, node)? {
        return Ok(false);
    }
    if is_negative(node.shape()) {
        return Ok(has_none(node.parts()));
    }
    are_filled(alloc, rule, pieces_of(rule), node.parts())
}

// Whether the parts that are left are as the pieces that are left want them.
#[cycle(filling)]
#[tactic(auto, using(crate::proofs::Filled::no_piece, crate::proofs::Filled::last_piece, crate::proofs::Filled::mark_piece, crate::proofs::Filled::takes_by, crate::proofs::Filled::missing_part, crate::proofs::Filled::refused_part, crate::proofs::Filled::taken_part))]
fn are_filled<'a>(
    alloc: Global,
    rule: Rule<'a>,
    pieces: &[Piece],
    parts: &'a [Node],
) -> Result<bool, OutOfMemory>
    ensures { IfOk result (λ same. same ≡ filled (rule_of rule.entry) pieces.now (trees_of parts.now)) }
{
    let Some((piece, others)) = pieces.split_first() else {
        return Ok(has_none(parts));
    };
    if is_end(*piece) {
        return Ok(has_none(parts));
    }
    if is_mark(*piece) {
        return are_filled(alloc, rule, others, parts);
    }
    let Some((part, more)) = parts.split_first() else {
        return Ok(false);
    };
    if !is_filled(alloc, rule, *piece, part)? {
        return Ok(false);
    }
    are_filled(alloc, rule, others, more)
}

// Whether a part is as its piece wants it.
#[cycle(filling)]
#[tactic(auto, using(crate::proofs::Filled::default_is, crate::proofs::Filled::silent_is))]
fn is_filled<'a>(
    alloc: Global,
    rule: Rule<'a>,
    piece: Piece,
    part: &'a Node,
) -> Result<bool, OutOfMemory>
    requires { takes_part piece ≡ true }
    ensures { IfOk result (λ same. same ≡ printed.is_printable (want_in (rule_of rule.entry) piece) part.now) }
{
    match piece {
        Piece::Left(_) | Piece::LeftOperand | Piece::RightOperand => {
            is_part(alloc, Goal::Anything, part)
        }
        Piece::Part(own, _) => is_part(alloc, wanted_goal(own), part),
        Piece::Restricted(_, own, _) => is_part(alloc, wanted_goal(own), part),
        Piece::Default(declared) => stands(alloc, Aim::DefaultOf(declared, own_text(rule)), part),
        Piece::Commas(own, least) => is_list_part(alloc, wanted_goal(own), least, part),
        Piece::Perhaps(goal) => is_perhaps(alloc, plain(goal), part),
        Piece::Option(_, own, _) => is_perhaps(alloc, wanted_goal(own), part),
        Piece::Statements(goal) => is_block(alloc, goal, part),
        Piece::Undirected => is_block(alloc, Goal::Statement, part),
        Piece::Silent(silent) => is_silent(alloc, silent, rule, part),
        _ => Ok(false),
    }
}

// Whether a part stands in a goal, by its production or in one around it.
#[cycle(filling)]
#[tactic(auto, using(crate::proofs::Filled::by_itself, crate::proofs::Filled::by_nothing, crate::proofs::Filled::by_core, crate::proofs::Filled::by_neither, crate::proofs::Filled::by_value))]
fn is_part(alloc: Global, goal: Goal, part: &Node) -> Result<bool, OutOfMemory>
    ensures { IfOk result (λ same. same ≡ printed.is_printable (printed.a_part (goal_of goal)) part.now) }
{
    if stands(alloc, Aim::Plain(goal), part)? {
        return Ok(true);
    }
    if !has_core(goal) {
        return Ok(false);
    }
    if stands(alloc, Aim::Plain(core(goal)), part)? {
        return Ok(true);
    }
    if !takes_values(goal) {
        return Ok(false);
    }
    stands(alloc, Aim::Plain(Goal::Anything), part)
}

// Whether a part that may be absent is, or stands in a goal by its production.
#[cycle(filling)]
#[tactic(auto, using(crate::proofs::Filled::perhaps_is))]
fn is_perhaps(alloc: Global, goal: Goal, part: &Node) -> Result<bool, OutOfMemory>
    ensures { IfOk result (λ same. same ≡ printed.is_printable (printed.a_perhaps (goal_of goal)) part.now) }
{
    if is_nothing(part) {
        return Ok(true);
    }
    stands(alloc, Aim::Plain(goal), part)
}

// Whether a part is a list of items of a goal, with commas.
#[cycle(filling)]
#[tactic(auto, using(crate::proofs::Filled::other_list, crate::proofs::Filled::short_list, crate::proofs::Filled::whole_list))]
fn is_list_part(alloc: Global, goal: Goal, least: Least, part: &Node) -> Result<bool, OutOfMemory>
    ensures { IfOk result (λ same. same ≡ printed.is_printable (printed.a_list (goal_of goal) (least_of least)) part.now) }
{
    if !is_list(part) {
        return Ok(false);
    }
    if !has_enough(least, part.parts()) {
        return Ok(false);
    }
    are_items(alloc, goal, has_gaps(least), part.parts())
}

// Whether a part is a list of what stands in a goal, one behind the other.
#[cycle(filling)]
#[tactic(auto, using(crate::proofs::Filled::other_block, crate::proofs::Filled::whole_block))]
fn is_block(alloc: Global, goal: Goal, part: &Node) -> Result<bool, OutOfMemory>
    ensures { IfOk result (λ same. same ≡ printed.is_printable (printed.a_block (goal_of goal)) part.now) }
{
    if !is_list(part) {
        return Ok(false);
    }
    are_items(alloc, goal, false, part.parts())
}

#[cycle(filling)]
#[tactic(auto, using(crate::proofs::Filled::items_go_on, crate::proofs::Filled::items_stop, crate::proofs::Filled::items_end))]
fn are_items(alloc: Global, goal: Goal, gaps: bool, items: &[Node]) -> Result<bool, OutOfMemory>
    ensures { IfOk result (λ same. same ≡ printed.are_printable (goal_of goal) gaps (trees_of items.now)) }
{
    for item in items {
        if !is_item(alloc, goal, gaps, item)? {
            return Ok(false);
        }
    }
    Ok(true)
}

#[cycle(filling)]
#[tactic(auto, using(crate::proofs::Filled::gap_is))]
fn is_item(alloc: Global, goal: Goal, gaps: bool, item: &Node) -> Result<bool, OutOfMemory>
    ensures { IfOk result (λ same. same ≡ ((gaps && printed.is_gap item.now) || printed.is_printable (printed.a_part (goal_of goal)) item.now)) }
{
    if gaps && is_nothing(item) {
        return Ok(true);
    }
    is_part(alloc, goal, item)
}

/// Whether each of these nodes, in the order of their text, can be printed where a goal stands: it
/// has the parts of its production, and so have they. The only error is that memory runs out.
pub fn are_printable(alloc: Global, goal: Goal, items: &[Node]) -> Result<bool, OutOfMemory>
    ensures { IfOk result (λ same. same ≡ printed.are_printable (goal_of goal) false (trees_of items.now)) }
{
    are_items(alloc, goal, false, items)
}
