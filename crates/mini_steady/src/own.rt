//! Rows of the own code of a body, and a walk over that, children first, past no other body and no
//! node with a number.

ghost use Rattle.std.specs.Prelude.{◌≡◌, true, IfOk, OnOk};
ghost use Rattle.mini_rows.specs.Switches.{Switches};
ghost use Rattle.mini_rows.specs.Steady.{OwnRows, ReadsMore, has_body as has_it_body};
ghost use Rattle.mini_steady.specs.Declarations.{begun_by, known_of};
ghost use Rattle.mini_unused.specs.Allowed.{switches_of};
ghost use Rattle.mini_steady.specs.Own.{AppliedHere, AsBefore, KeepsEach, OwnWalked, OwnWalkedBelow, ReadsOpen, is_open as is_it_open, rows_there};

use crate::beginnings::{enters_lexical, push_behind};
use crate::code::{BodyCode, begun_count, enter_children, is_in_lexical, leave_children};
use crate::steady::SteadyNames;
use mini_model::{OutOfMemory, Position, Shape};
use mini_node::Node;
use mini_tree::child_place;
use std::alloc::Global;

/// Rows of the own code of a body, over what tells what is known of bodies.
pub trait OwnRewrites<S: SteadyNames> {
    /// By what the minifier may do and what is known of the body, which nodes are read as which.
    ghost rows: { Switches → OwnRows };

    /// Writes what a row says that reads the node at its place, in this body, once or more often,
    /// and answers true; or leaves it, if none does, and answers false. The only error is that
    /// memory runs out, and then the node is fit only to be dropped.
    fn rewrite(
        &self,
        alloc: Global,
        node: &mut Node,
        place: Position,
        body: &BodyCode,
        steady: &S,
    ) -> Result<bool, OutOfMemory>
        ensures { IfOk result (λ changed. AppliedHere (rows (switches_of (S.orders steady.now)) (known_of (S.sets steady.now) body.now)) place node.old node.new changed) };

    /// What has a body or a number no row reads.
    ghost opens: { (o : Switches) → ReadsOpen (rows o) };

    /// What they read they read where more variables are known to have values.
    ghost more: { (o : Switches) → ReadsMore (rows o) };

    /// What a row writes is read alike, declares no name that what stood there didn't and no symbol
    /// more often, and is lighter.
    ghost keeps: { (o : Switches) → KeepsEach (rows o) };
}

// What has a body of its own.
fn has_body(shape: &Shape) -> bool
    ensures { result ≡ has_it_body shape.now }
{
    matches!(
        shape,
        Shape::Program(_, _)
            | Shape::Function(_, _, _)
            | Shape::ArrowFunctionExpression(_)
            | Shape::StaticBlock
            | Shape::InnerExpression
    )
}

// Whether what stands in it is code of the body around it.
fn is_open(node: &Node) -> bool
    ensures { result ≡ is_it_open node.now }
{
    node.number() == 0 && !has_body(node.shape())
}

/// Walks over the own code of this body, from a node in it where this is begun, and writes there
/// what these rows say. The answer says whether anything changed, and where nothing did no row
/// reads anything in it; the only error is that memory runs out, and then the node and what is
/// begun are fit only to be dropped.
#[cycle(own)]
pub fn minimize_own_code<S: SteadyNames, W: OwnRewrites<S>>(
    alloc: Global,
    node: &mut Node,
    place: Position,
    body: &mut BodyCode,
    steady: &S,
    rewrites: &W,
) -> Result<bool, OutOfMemory>
    ensures walked { IfOk result (λ changed. OwnWalked (rows_there (W.rows (switches_of (S.orders steady.now))) (S.sets steady.now) body.old) (begun_by body.old) place node.old node.new changed) }
    ensures body { OnOk result (AsBefore body.old body.new) }
{
    if !is_open(node) {
        return Ok(false);
    }
    let below = minimize_parts(alloc, node, place, body, steady, rewrites)?;
    let here = rewrites.rewrite(alloc, node, place, &*body, steady)?;
    Ok(below | here)
}

// The children of the node, one after another.
#[cycle(own)]
fn minimize_parts<S: SteadyNames, W: OwnRewrites<S>>(
    alloc: Global,
    node: &mut Node,
    place: Position,
    body: &mut BodyCode,
    steady: &S,
    rewrites: &W,
) -> Result<bool, OutOfMemory>
    requires { is_it_open node.old ≡ true }
    ensures walked { IfOk result (λ changed. OwnWalkedBelow (rows_there (W.rows (switches_of (S.orders steady.now))) (S.sets steady.now) body.old) (begun_by body.old) place node.old node.new changed) }
    ensures body { OnOk result (AsBefore body.old body.new) }
{
    let count = node.children().len();
    let before = begun_count(body);
    let was_lexical = is_in_lexical(body);
    enter_children(body, enters_lexical(node.shape(), place, was_lexical));
    let mut changed = false;
    for at in 0..count {
        let stands = child_place(node.shape(), place, count, at);
        let child = node.children_mut().child_mut(at);
        let part = minimize_own_code(alloc, child, stands, body, steady, rewrites)?;
        push_behind(body, &*node, place, at, was_lexical)?;
        changed = changed | part;
    }
    leave_children(body, before, was_lexical);
    Ok(changed)
}
