//! The rules over them.

ghost use Rattle.std.specs.Prelude.{◌≡◌};
ghost use Rattle.mini_model.specs.Tree.{Tree};
ghost use Rattle.mini_kept.specs.Without.{BodySets};
ghost use Rattle.mini_rows.specs.OwnArrows.{OwnArrow};
ghost use Rattle.mini_rows.specs.Steady.{OwnFunction};
ghost use Rattle.mini_tree.specs.declared.options.CompressOptions.{CompressOptions};
ghost use Rattle.mini_steady.specs.Functions.{Rests, holds_function as may_hold_function};
ghost use Rattle.mini_steady.specs.Arrows.{holds_arrow as may_hold_arrow, ArrowRests};
ghost use Rattle.mini_rows.specs.OwnPrograms.{OwnProgram};
ghost use Rattle.mini_steady.specs.Programs.{holds_program as may_hold_program, ProgramRests};
ghost use Rattle.mini_rows.specs.OwnParts.{OwnPart};
ghost use Rattle.mini_steady.specs.Parts.{PartRests};
ghost use Rattle.mini_steady.specs.Lighter.{arrow_lighter, function_lighter, part_lighter, program_lighter};
ghost use Rattle.mini_unused.specs.Allowed.{switches_of};

use crate::arrows::minimize_in_arrow;
use crate::functions::minimize_in_function;
use crate::own::OwnRewrites;
use crate::parts::minimize_in_part;
use crate::programs::minimize_in_program;
use crate::steady::SteadyNames;
use mini_context::TraverseCtx;
use mini_model::{OutOfMemory, Position};
use mini_node::Node;
use mini_tree::{Context, Rule};
use std::alloc::Global;

/// A context that tells what is known of the bodies of the program that it knows.
pub trait SteadyContext: Context + SteadyNames {
    /// What is known of each body of a program, by its number.
    ghost steady: { Tree → BodySets };

    /// What the context tells of bodies is that of the program that it knows.
    ghost told: { (c : Self) (o : CompressOptions) (q : Tree) → Self.knows c o q → Self.sets c ≡ steady q };

    /// What the context says that the minifier may do are its options.
    ghost ordered: { (c : Self) (o : CompressOptions) (q : Tree) → Self.knows c o q → Self.orders c ≡ o };
}

impl SteadyContext for TraverseCtx {
    ghost use Rattle.mini_steady.specs.Told.{told_in};
    ghost use Rattle.mini_steady.specs.Telling.{ordered_known, told_known};

    ghost steady = { told_in };

    ghost told = { told_known };

    ghost ordered = { ordered_known };
}

// Whether a function may stand there.
fn holds_function(place: Position) -> bool
    ensures { result ≡ may_hold_function place }
{
    matches!(
        place,
        Position::Stmt(_) | Position::Expr(_) | Position::Method | Position::Elsewhere
    )
}

/// The rule that makes a family of rows in the own code of each function that is no arrow function.
/// The context says what is known of its body.
pub struct InFunctions<W> {
    /// The family of rows.
    pub rewrites: W,
}

impl<C: SteadyContext, W: OwnRewrites<C>> Rule<C> for InFunctions<W> {
    ghost gives = { λ o q. OwnFunction (W.rows (switches_of o)) (C.steady q) };

    ghost rests = { λ o q. Rests (W.rows (switches_of o)) (C.steady q) };

    ghost lighter = { λ o q. function_lighter (W.rows (switches_of o)) (W.keeps (switches_of o)) (C.steady q) };

    fn apply(
        &self,
        alloc: Global,
        node: &mut Node,
        place: Position,
        context: &mut C,
    ) -> Result<bool, OutOfMemory> {
        if !holds_function(place) {
            return Ok(false);
        }
        Ok(minimize_in_function(alloc, node, &*context, &self.rewrites)?)
    }
}

// Whether an arrow function may stand there.
fn holds_arrow(place: Position) -> bool
    ensures { result ≡ may_hold_arrow place }
{
    matches!(place, Position::Expr(_))
}

/// The rule that makes a family of rows in the own code of each arrow function.
pub struct InArrows<W> {
    /// The family of rows.
    pub rewrites: W,
}

impl<C: SteadyContext, W: OwnRewrites<C>> Rule<C> for InArrows<W> {
    ghost gives = { λ o q. OwnArrow (W.rows (switches_of o)) (C.steady q) };

    ghost rests = { λ o q. ArrowRests (W.rows (switches_of o)) (C.steady q) };

    ghost lighter = { λ o q. arrow_lighter (W.rows (switches_of o)) (W.keeps (switches_of o)) (C.steady q) };

    fn apply(
        &self,
        alloc: Global,
        node: &mut Node,
        place: Position,
        context: &mut C,
    ) -> Result<bool, OutOfMemory> {
        if !holds_arrow(place) {
            return Ok(false);
        }
        Ok(minimize_in_arrow(alloc, node, &*context, &self.rewrites)?)
    }
}

// Whether a root stands there.
fn holds_program(place: Position) -> bool
    ensures { result ≡ may_hold_program place }
{
    matches!(place, Position::Elsewhere)
}

/// The rule that makes a family of rows in the own code of the program.
pub struct InPrograms<W> {
    /// The family of rows.
    pub rewrites: W,
}

impl<C: SteadyContext, W: OwnRewrites<C>> Rule<C> for InPrograms<W> {
    ghost gives = { λ o q. OwnProgram (W.rows (switches_of o)) (C.steady q) };

    ghost rests = { λ o q. ProgramRests (W.rows (switches_of o)) (C.steady q) };

    ghost lighter = { λ o q. program_lighter (W.rows (switches_of o)) (W.keeps (switches_of o)) (C.steady q) };

    fn apply(
        &self,
        alloc: Global,
        node: &mut Node,
        place: Position,
        context: &mut C,
    ) -> Result<bool, OutOfMemory> {
        if !holds_program(place) {
            return Ok(false);
        }
        Ok(minimize_in_program(alloc, node, &*context, &self.rewrites)?)
    }
}

/// The rule that makes a family of rows in the own code of each static block and each inner
/// expression, such as the value of a field.
pub struct InParts<W> {
    /// The family of rows.
    pub rewrites: W,
}

impl<C: SteadyContext, W: OwnRewrites<C>> Rule<C> for InParts<W> {
    ghost gives = { λ o q. OwnPart (W.rows (switches_of o)) (C.steady q) };

    ghost rests = { λ o q. PartRests (W.rows (switches_of o)) (C.steady q) };

    ghost lighter = { λ o q. part_lighter (W.rows (switches_of o)) (W.keeps (switches_of o)) (C.steady q) };

    fn apply(
        &self,
        alloc: Global,
        node: &mut Node,
        place: Position,
        context: &mut C,
    ) -> Result<bool, OutOfMemory> {
        Ok(minimize_in_part(alloc, node, place, &*context, &self.rewrites)?)
    }
}
