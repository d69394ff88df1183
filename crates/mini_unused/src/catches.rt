//! Row 63: `catch (e) { f(); }` becomes `catch { f(); }`, where nothing in the body has e's
//! spelling or its symbol and no direct eval stands there. It is lighter in every place.

ghost use Rattle.std.specs.Prelude.{◌≡◌, ◌<◌, true};
ghost use Rattle.mini_model.specs.declared.place.Position.TheVariants.{Elsewhere};
ghost use Rattle.mini_model.specs.Tree.{children, count};
ghost use Rattle.mini_node.specs.Children.{names};
ghost use Rattle.mini_unused.specs.Lighter.{catch_is_lighter};
ghost use Rattle.mini_unused.specs.SubstituteCatchClause as row;
ghost use Rattle.mini_unused.specs.SubstituteCatchClause.{Applied, AppliedIn, Gives, RestsUnder};

use crate::declarations::{is_resolved_binding, take_child};
use crate::evals::has_eval;
use crate::mentions::is_mentioned;
use mini_model::{Name, OutOfMemory, Position, Shape};
use mini_node::{Node, discard};
use mini_tree::{Context, Rule};
use std::alloc::Global;

// The edition of ECMA-262 that a `catch` without a parameter came with, as a year.
const BARE_CATCH: u16 = 2019;

// Nothing in the body mentions the name, and no direct eval stands there, which would see it.
fn is_unseen(name: &Option<Name>, body: &Node) -> bool
    ensures { result ≡ row.is_unseen (names name.now) body.now }
{
    match name {
        Some(name) => !is_mentioned(name, body) && !has_eval(body),
        None => false,
    }
}

// A handler whose name for what it catches goes.
fn loses_name(node: &Node) -> bool
    ensures kind { result ≡ row.loses_it node.now }
    ensures parts { result ≡ true → 0 < count (children node.now) }
{
    matches!(node.shape(), Shape::CatchClause)
        && node.is_bare(2)
        && is_resolved_binding(node.child(0))
        && is_unseen(node.child(0).name(), node.child(1))
}

/// A `catch` loses the name of what it catches, where nothing in its body mentions that. The answer
/// says whether it did.
pub fn substitute_catch_clause(node: &mut Node) -> bool
    ensures { Applied Elsewhere node.old node.new result }
{
    if !loses_name(node) {
        return false;
    }
    discard(take_child(node, 0));
    true
}

// The same of what stands at a place, where the edition has a `catch` without a parameter.
fn substitute_catch_in(node: &mut Node, place: Position, edition: u16) -> bool
    ensures { AppliedIn edition place node.old node.new result }
{
    if edition < BARE_CATCH {
        return false;
    }
    match place {
        Position::Elsewhere => substitute_catch_clause(node),
        _ => false,
    }
}

/// Row 63 as a rule: of each handler, where the edition of the options has a `catch` without a
/// parameter.
pub struct SubstituteCatches;

impl<C: Context> Rule<C> for SubstituteCatches {
    ghost gives = { λ o q. Gives o };

    ghost rests = { λ o q. RestsUnder o };

    ghost lighter = { λ o q. catch_is_lighter o };

    fn apply(
        &self,
        _alloc: Global,
        node: &mut Node,
        place: Position,
        context: &mut C,
    ) -> Result<bool, OutOfMemory> {
        Ok(substitute_catch_in(node, place, context.options().edition))
    }
}
