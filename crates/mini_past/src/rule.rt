//! The rules over them.

ghost use Rattle.std.specs.Prelude.{◌≡◌};
ghost use Rattle.mini_rows.specs.Past.{PastFunction};
ghost use Rattle.mini_rows.specs.PastArrows.{PastArrow};
ghost use Rattle.mini_rows.specs.PastModules.{PastModule};
ghost use Rattle.mini_rows.specs.PastStatics.{PastStatic};
ghost use Rattle.mini_steady.specs.Arrows.{holds_arrow as may_hold_arrow};
ghost use Rattle.mini_steady.specs.Functions.{holds_function as may_hold_function};
ghost use Rattle.mini_steady.specs.Programs.{holds_program as may_hold_program};
ghost use Rattle.mini_past.specs.Lighter.{past_arrow_lighter, past_lighter, past_module_lighter, past_static_lighter};
ghost use Rattle.mini_past.specs.SubstitutePast.{RestsPast, RestsPastArrow, RestsPastModule, RestsPastStatic};

use crate::functions::{
    substitute_past_in_arrow, substitute_past_in_function, substitute_past_in_module,
    substitute_past_in_static,
};
use crate::names::PastContext;
use mini_model::{OutOfMemory, Position};
use mini_node::Node;
use mini_tree::Rule;
use std::alloc::Global;

// Whether a function may stand there.
fn holds_function(place: Position) -> bool
    ensures { result ≡ may_hold_function place }
{
    matches!(
        place,
        Position::Stmt(_) | Position::Expr(_) | Position::Method | Position::Elsewhere
    )
}

/// Row 71 past steady names as a rule: of each function with statements that is no arrow function.
/// Its context says what is known of each body, which names can be written, and what the minifier
/// may do.
pub struct SubstitutePast;

impl<C: PastContext> Rule<C> for SubstitutePast {
    ghost gives = { λ o q. PastFunction (C.steady q) (C.lets_in o q) };

    ghost rests = { λ o q. RestsPast (C.steady q) (C.lets_in o q) };

    ghost lighter = { λ o q. past_lighter (C.steady q) (C.lets_in o q) };

    fn apply(
        &self,
        alloc: Global,
        node: &mut Node,
        place: Position,
        context: &mut C,
    ) -> Result<bool, OutOfMemory> {
        if !holds_function(place) {
            return Ok(false);
        }
        Ok(substitute_past_in_function(alloc, node, &*context))
    }
}

// Whether an arrow function may stand there.
fn holds_arrow(place: Position) -> bool
    ensures { result ≡ may_hold_arrow place }
{
    matches!(place, Position::Expr(_))
}

/// Row 71 past steady names as a rule: of each arrow function with statements.
pub struct SubstitutePastArrows;

impl<C: PastContext> Rule<C> for SubstitutePastArrows {
    ghost gives = { λ o q. PastArrow (C.steady q) (C.lets_in o q) };

    ghost rests = { λ o q. RestsPastArrow (C.steady q) (C.lets_in o q) };

    ghost lighter = { λ o q. past_arrow_lighter (C.steady q) (C.lets_in o q) };

    fn apply(
        &self,
        alloc: Global,
        node: &mut Node,
        place: Position,
        context: &mut C,
    ) -> Result<bool, OutOfMemory> {
        if !holds_arrow(place) {
            return Ok(false);
        }
        Ok(substitute_past_in_arrow(alloc, node, &*context))
    }
}

// Whether a root or a member of a class may stand there.
fn holds_program(place: Position) -> bool
    ensures { result ≡ may_hold_program place }
{
    matches!(place, Position::Elsewhere)
}

/// Row 71 past steady names as a rule: of a module.
pub struct SubstitutePastModules;

impl<C: PastContext> Rule<C> for SubstitutePastModules {
    ghost gives = { λ o q. PastModule (C.steady q) (C.lets_in o q) };

    ghost rests = { λ o q. RestsPastModule (C.steady q) (C.lets_in o q) };

    ghost lighter = { λ o q. past_module_lighter (C.steady q) (C.lets_in o q) };

    fn apply(
        &self,
        alloc: Global,
        node: &mut Node,
        place: Position,
        context: &mut C,
    ) -> Result<bool, OutOfMemory> {
        if !holds_program(place) {
            return Ok(false);
        }
        Ok(substitute_past_in_module(alloc, node, &*context))
    }
}

/// Row 71 past steady names as a rule: of each static block.
pub struct SubstitutePastStatics;

impl<C: PastContext> Rule<C> for SubstitutePastStatics {
    ghost gives = { λ o q. PastStatic (C.steady q) (C.lets_in o q) };

    ghost rests = { λ o q. RestsPastStatic (C.steady q) (C.lets_in o q) };

    ghost lighter = { λ o q. past_static_lighter (C.steady q) (C.lets_in o q) };

    fn apply(
        &self,
        alloc: Global,
        node: &mut Node,
        place: Position,
        context: &mut C,
    ) -> Result<bool, OutOfMemory> {
        if !holds_program(place) {
            return Ok(false);
        }
        Ok(substitute_past_in_static(alloc, node, &*context))
    }
}
