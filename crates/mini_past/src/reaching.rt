//! Whether what is read may be put there, whatever the initializer does: the way to the read, and
//! what is evaluated before it.

ghost use Rattle.std.specs.Prelude.{◌≡◌, ◌&&◌, ◌<◌, ◌≤◌, false, IfSome};
ghost use Rattle.mini_model.specs.Tree.{children, count, shape_of};
ghost use Rattle.mini_node.specs.Children.{first_children};
ghost use Rattle.mini_rows.specs.Past as reading;
ghost use Rattle.mini_rows.specs.Unused.{begins_with as it_begins_with, is_placed as is_it_placed, is_sure as is_it_sure, names};
ghost use Rattle.mini_unused.specs.Looks.{Looked};
ghost use Rattle.mini_past.specs.LetPlaces.{Told};
ghost use Rattle.mini_past.specs.Looks.{FirstAt, LookedAlong};
ghost use Rattle.mini_past.specs.SubstitutePast.{held_at};

use crate::let_places::LetPlaces;
use crate::passing::passes_any_at;
use mini_model::{Name, Shape};
use mini_node::{Node, Nodes};
use mini_rows::{Gathered, fits_in};
use mini_steady::SteadyNames;
use mini_unused::{gathered_below, is_mentioned, is_plain_assignment, of_entries, suits};

// The first of some parts mentions the name, or there is none.
#[tactic(auto, using(crate::proofs::PassedParts::begins_none, crate::proofs::PassedParts::begins_some))]
fn begins_with(name: &Name, nodes: &Nodes) -> bool
    ensures { result ≡ it_begins_with name.now nodes.now }
{
    if nodes.len() == 0 {
        return true;
    }
    is_mentioned(name, nodes.child(0))
}

// A property and what is spread stand where an entry is asked.
#[tactic(auto, using(crate::proofs::PassedParts::or_none))]
fn is_placed(gathered: Gathered, shape: &Shape) -> bool
    ensures { result ≡ is_it_placed gathered false shape.now }
{
    match shape {
        Shape::ObjectProperty(_, _, _, _) | Shape::SpreadElement => of_entries(gathered),
        _ => true,
    }
}

// What evaluates the part behind its first one whatever that gives.
#[tactic(auto, using(crate::proofs::PassedParts::or_none))]
fn is_sure(shape: &Shape) -> bool
    ensures { result ≡ is_it_sure false shape.now }
{
    match shape {
        Shape::LogicalExpression(_) | Shape::ConditionalExpression => false,
        Shape::AssignmentExpression(operator) => is_plain_assignment(operator),
        Shape::ObjectProperty(_, _, _, is_computed) => !*is_computed,
        Shape::CallExpression(is_optional) | Shape::ComputedMemberExpression(is_optional) => {
            !*is_optional
        }
        _ => true,
    }
}

// What mentions the name is evaluated whatever stands before it, and the initializer may stand in
// its place.
fn is_certain(name: &Name, gathered: Gathered, init: &Node, node: &Node) -> bool
    ensures { result ≡ reading.is_certain name.now gathered init.now (shape_of node.now) (children node.now) }
{
    suits(name, init, node)
        && (is_placed(gathered, node.shape())
            && (is_sure(node.shape()) || begins_with(name, node.children())))
}

// Each part that is evaluated before the variable is read may be evaluated before the initializer,
// and the read is reached whatever they are.
#[cycle(past)]
fn are_past_in<S: SteadyNames>(
    name: &Name,
    gathered: Gathered,
    init: &Node,
    node: &Node,
    statements: &Nodes,
    at: usize,
    declarators: &Nodes,
    which: usize,
    body: u32,
    steady: &S,
    lets: &Option<LetPlaces>,
) -> bool
    requires statement { at < count statements.now }
    requires declarator { which < count declarators.now }
    requires told { IfSome lets.now (λ m. Told m statements.now at declarators.now which) }
    ensures { result ≡ reading.are_past_in (held_at (S.sets steady.now body) statements.now at declarators.now which) name.now gathered init.now node.now }
{
    is_certain(name, gathered, init, node)
        && all_past(
            name,
            gathered,
            init,
            node.shape(),
            node.children(),
            statements,
            at,
            declarators,
            which,
            body,
            steady,
            lets,
        )
}

// Each of some parts of a node of such a shape, up to the one that mentions the name, may be
// evaluated before the initializer.
#[cycle(past)]
fn all_past<S: SteadyNames>(
    name: &Name,
    gathered: Gathered,
    init: &Node,
    shape: &Shape,
    nodes: &Nodes,
    statements: &Nodes,
    at: usize,
    declarators: &Nodes,
    which: usize,
    body: u32,
    steady: &S,
    lets: &Option<LetPlaces>,
) -> bool
    requires statement { at < count statements.now }
    requires declarator { which < count declarators.now }
    requires told { IfSome lets.now (λ m. Told m statements.now at declarators.now which) }
    ensures { result ≡ reading.all_past (held_at (S.sets steady.now body) statements.now at declarators.now which) name.now gathered init.now shape.now 0 nodes.now }
{
    for place in 0..nodes.len() {
        let part = nodes.child(place);
        if is_mentioned(name, part) {
            return are_past_in(
                name,
                gathered_below(gathered, shape, place),
                init,
                part,
                statements,
                at,
                declarators,
                which,
                body,
                steady,
                lets,
            );
        }
        if !passes_any_at(
            gathered,
            init,
            shape,
            part,
            statements,
            at,
            declarators,
            which,
            body,
            steady,
            lets,
        ) {
            return false;
        }
    }
    true
}

// Each part before the place may be evaluated before the initializer.
fn all_pass_before<S: SteadyNames>(
    gathered: Gathered,
    init: &Node,
    shape: &Shape,
    nodes: &Nodes,
    end: usize,
    statements: &Nodes,
    at: usize,
    declarators: &Nodes,
    which: usize,
    body: u32,
    steady: &S,
    lets: &Option<LetPlaces>,
) -> bool
    requires end { end ≤ count nodes.now }
    requires statement { at < count statements.now }
    requires declarator { which < count declarators.now }
    requires told { IfSome lets.now (λ m. Told m statements.now at declarators.now which) }
    ensures { result ≡ reading.all_of (reading.passes_any_at (held_at (S.sets steady.now body) statements.now at declarators.now which) gathered init.now shape.now) (first_children end nodes.now) }
{
    for place in 0..end {
        if !passes_any_at(
            gathered,
            init,
            shape,
            nodes.child(place),
            statements,
            at,
            declarators,
            which,
            body,
            steady,
            lets,
        ) {
            return false;
        }
    }
    true
}

// Whether the first of some parts mentions the name, where the part at the place is the first that
// does.
fn begins_at(_name: &Name, _nodes: &Nodes, place: usize) -> bool
    requires { FirstAt _name.now _nodes.now place }
    ensures { result ≡ it_begins_with _name.now _nodes.now }
{
    place == 0
}

// What mentions the name, first in the part at the place, is evaluated whatever stands before it,
// and the initializer may stand in its place.
fn is_certain_at(name: &Name, gathered: Gathered, init: &Node, node: &Node, place: usize) -> bool
    requires { FirstAt name.now (children node.now) place }
    ensures { result ≡ reading.is_certain name.now gathered init.now (shape_of node.now) (children node.now) }
{
    suits(name, init, node)
        && (is_placed(gathered, node.shape())
            && (is_sure(node.shape()) || begins_at(name, node.children(), place)))
}

// Whether the initializer may be put into the node, where the part at the place is the first that
// mentions the name, and the flag says whether the initializer may be put into that part.
fn is_past_at<S: SteadyNames>(
    passes: bool,
    name: &Name,
    gathered: Gathered,
    init: &Node,
    node: &Node,
    place: usize,
    statements: &Nodes,
    at: usize,
    declarators: &Nodes,
    which: usize,
    body: u32,
    steady: &S,
    lets: &Option<LetPlaces>,
) -> bool
    requires first { FirstAt name.now (children node.now) place }
    requires statement { at < count statements.now }
    requires declarator { which < count declarators.now }
    requires told { IfSome lets.now (λ m. Told m statements.now at declarators.now which) }
    ensures { result ≡ (passes && (reading.is_certain name.now gathered init.now (shape_of node.now) (children node.now) && reading.all_of (reading.passes_any_at (held_at (S.sets steady.now body) statements.now at declarators.now which) gathered init.now (shape_of node.now)) (first_children place (children node.now)))) }
{
    passes
        && (is_certain_at(name, gathered, init, node, place)
            && all_pass_before(
                gathered,
                init,
                node.shape(),
                node.children(),
                place,
                statements,
                at,
                declarators,
                which,
                body,
                steady,
                lets,
            ))
}

// None where the node doesn't mention the name, and else whether the initializer may be put there:
// two walks, one for each question.
fn look_whole<S: SteadyNames>(
    name: &Name,
    gathered: Gathered,
    init: &Node,
    node: &Node,
    statements: &Nodes,
    at: usize,
    declarators: &Nodes,
    which: usize,
    body: u32,
    steady: &S,
    lets: &Option<LetPlaces>,
) -> Option<bool>
    requires statement { at < count statements.now }
    requires declarator { which < count declarators.now }
    requires told { IfSome lets.now (λ m. Told m statements.now at declarators.now which) }
    ensures { Looked result (names name.now node.now) (reading.are_past_in (held_at (S.sets steady.now body) statements.now at declarators.now which) name.now gathered init.now node.now) }
{
    if !is_mentioned(name, node) {
        return None;
    }
    Some(are_past_in(
        name,
        gathered,
        init,
        node,
        statements,
        at,
        declarators,
        which,
        body,
        steady,
        lets,
    ))
}

// None where the node doesn't mention the name, and else whether the initializer may be put there:
// one walk over the nodes that have no name of their own.
#[cycle(looks)]
fn look<S: SteadyNames>(
    name: &Name,
    gathered: Gathered,
    init: &Node,
    node: &Node,
    statements: &Nodes,
    at: usize,
    declarators: &Nodes,
    which: usize,
    body: u32,
    steady: &S,
    lets: &Option<LetPlaces>,
) -> Option<bool>
    requires statement { at < count statements.now }
    requires declarator { which < count declarators.now }
    requires told { IfSome lets.now (λ m. Told m statements.now at declarators.now which) }
    ensures { Looked result (names name.now node.now) (reading.are_past_in (held_at (S.sets steady.now body) statements.now at declarators.now which) name.now gathered init.now node.now) }
{
    if node.name().is_some() {
        return look_whole(
            name,
            gathered,
            init,
            node,
            statements,
            at,
            declarators,
            which,
            body,
            steady,
            lets,
        );
    }
    match look_along(
        name,
        gathered,
        init,
        node.shape(),
        node.children(),
        statements,
        at,
        declarators,
        which,
        body,
        steady,
        lets,
    ) {
        Some((place, passes)) => Some(is_past_at(
            passes,
            name,
            gathered,
            init,
            node,
            place,
            statements,
            at,
            declarators,
            which,
            body,
            steady,
            lets,
        )),
        None => None,
    }
}

// The place of the first of some parts that mentions the name, in a node of such a shape, and
// whether the initializer may be put there. None where no part does.
#[cycle(looks)]
fn look_along<S: SteadyNames>(
    name: &Name,
    gathered: Gathered,
    init: &Node,
    shape: &Shape,
    nodes: &Nodes,
    statements: &Nodes,
    at: usize,
    declarators: &Nodes,
    which: usize,
    body: u32,
    steady: &S,
    lets: &Option<LetPlaces>,
) -> Option<(usize, bool)>
    requires statement { at < count statements.now }
    requires declarator { which < count declarators.now }
    requires told { IfSome lets.now (λ m. Told m statements.now at declarators.now which) }
    ensures { LookedAlong (held_at (S.sets steady.now body) statements.now at declarators.now which) name.now gathered init.now shape.now nodes.now result }
{
    for place in 0..nodes.len() {
        let part = nodes.child(place);
        if let Some(passes) = look(
            name,
            gathered_below(gathered, shape, place),
            init,
            part,
            statements,
            at,
            declarators,
            which,
            body,
            steady,
            lets,
        ) {
            return Some((place, passes));
        }
    }
    None
}

// Whether the initializer may be put where the node reads the name: one walk, and for a node that
// doesn't mention it another one over its parts.
fn is_past_along<S: SteadyNames>(
    name: &Name,
    gathered: Gathered,
    init: &Node,
    node: &Node,
    statements: &Nodes,
    at: usize,
    declarators: &Nodes,
    which: usize,
    body: u32,
    steady: &S,
    lets: &Option<LetPlaces>,
) -> bool
    requires statement { at < count statements.now }
    requires declarator { which < count declarators.now }
    requires told { IfSome lets.now (λ m. Told m statements.now at declarators.now which) }
    ensures { result ≡ reading.are_past_in (held_at (S.sets steady.now body) statements.now at declarators.now which) name.now gathered init.now node.now }
{
    match look(
        name,
        gathered,
        init,
        node,
        statements,
        at,
        declarators,
        which,
        body,
        steady,
        lets,
    ) {
        Some(passes) => passes,
        None => are_past_in(
            name,
            gathered,
            init,
            node,
            statements,
            at,
            declarators,
            which,
            body,
            steady,
            lets,
        ),
    }
}

/// Whether the initializer may be put where an expression, of which the value is asked, reads the
/// name: each part that is evaluated before the read may be evaluated before the initializer, the
/// read is reached whatever those are, and both nest so that one may be put into the other.
pub fn are_past<S: SteadyNames>(
    name: &Name,
    init: &Node,
    node: &Node,
    statements: &Nodes,
    at: usize,
    declarators: &Nodes,
    which: usize,
    body: u32,
    steady: &S,
    lets: &Option<LetPlaces>,
) -> bool
    requires statement { at < count statements.now }
    requires declarator { which < count declarators.now }
    requires told { IfSome lets.now (λ m. Told m statements.now at declarators.now which) }
    ensures { result ≡ reading.are_past (held_at (S.sets steady.now body) statements.now at declarators.now which) name.now init.now node.now }
{
    is_past_along(
        name,
        Gathered::Values,
        init,
        node,
        statements,
        at,
        declarators,
        which,
        body,
        steady,
        lets,
    ) && fits_in(init, node)
}
