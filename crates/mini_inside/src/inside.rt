//! What is done at the ends of the ways in whatever holds a body, and the rule that rows 71 and 72
//! are there.

ghost use Rattle.std.specs.Prelude.{IfOk};
ghost use Rattle.mini_inside.specs.Lighter.{inside_is_lighter};
ghost use Rattle.mini_inside.specs.Further.{AppliedAt, Gives, Rests};

use crate::bodies::{remove_inside_arrow, remove_inside_function, remove_inside_module};
use crate::ends::{EndRewrites, UnusedEnds};
use mini_context::TraverseCtx;
use mini_model::{OutOfMemory, Position};
use mini_node::Node;
use mini_tree::Rule;
use std::alloc::Global;

/// Makes what is done at the ends of ways in what holds a body, as it stands at a place: in a
/// function with statements, in a static block, and in a module. The answer says whether anything
/// was done; the only error is that memory runs out, and then the node is fit only to be dropped.
#[tactic(auto, using(crate::proofs::FurtherHolders::nowhere))]
pub fn remove_inside<E: EndRewrites>(
    alloc: Global,
    node: &mut Node,
    place: Position,
    ends: &E,
) -> Result<bool, OutOfMemory>
    ensures { IfOk result (λ changed. AppliedAt (E.ends ends.now) place node.old node.new changed) }
{
    match place {
        Position::Stmt(_) => remove_inside_function(alloc, node, ends),
        Position::Expr(_) => remove_inside_arrow(alloc, node, ends),
        Position::Method => remove_inside_function(alloc, node, ends),
        Position::Elsewhere => remove_inside_module(alloc, node, ends),
        _ => Ok(false),
    }
}

/// Rows 71 and 72 of a `var` further inside as a rule. Its context says which names the program
/// that it knows lets be written, and its options whether functions and classes keep the names that
/// they get.
pub struct RemoveInside;

impl Rule<TraverseCtx> for RemoveInside {
    ghost gives = { Gives };

    ghost rests = { Rests };

    ghost lighter = { inside_is_lighter };

    fn apply(
        &self,
        alloc: Global,
        node: &mut Node,
        place: Position,
        context: &mut TraverseCtx,
    ) -> Result<bool, OutOfMemory> {
        let ends = UnusedEnds { context: &*context };
        remove_inside(alloc, node, place, &ends)
    }
}
