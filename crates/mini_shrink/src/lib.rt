//! What Shared and Foreign are made of only shrinks from step to step, whatever is rewritten. Each
//! function's contract is a law, and its body is empty.
#![tactic(auto)]

ghost use Rattle.mini_shrink.specs.Cover.{ProgramsAreCovered};
ghost use Rattle.mini_shrink.specs.Exact.{ExactIsSo, ExactWithin};
ghost use Rattle.mini_shrink.specs.Examples.{after_it};
ghost use Rattle.mini_shrink.specs.Facts.{ReadsLessShrinks};
ghost use Rattle.mini_shrink.specs.Regular.{EarlyByScopes, ForeignByScopes, ProgramsAreRegular};
ghost use Rattle.mini_shrink.specs.SameForeign.{BoundOnce, EarlyByMoments, ExactIsAll, ForeignByDefinition, ToldIsAll};
ghost use Rattle.mini_shrink.specs.Told.{ToldShrinks};
ghost use Rattle.mini_shrink.specs.ToldOn.{PlacesShow, ToldIsSo, ToldOn, ToldWithin};

use mini_laws::Rewrites;

/// Any number of steps of a relation that reads less (`ReadsLess`) leave each question of which
/// Shared and Foreign are made with the answer that it had, or with less: for each body, and for
/// each symbol that is still declared. The program is well shaped and scoped, with distinct
/// symbols.
pub fn reads_less_shrinks<R: Rewrites>()
    ensures { ReadsLessShrinks R.gives }
{}

/// Facts of a body survive any number of steps of a relation that reads less: where the questions
/// say that no body writes a symbol and no answer changes it, or that no other body sees it, they
/// say so of the later program, too.
pub fn told_shrinks<R: Rewrites>()
    ensures { ToldShrinks R.gives }
{}

/// Each program has the shape on which the order of reads and declarations rests.
pub fn programs_are_regular()
    ensures { ProgramsAreRegular }
{}

/// Each binder of a program is spelled in a scope of its own body, or by the pattern in which it
/// stands.
pub fn programs_are_covered()
    ensures { ProgramsAreCovered }
{}

/// A symbol that is bound in a body is bound in no other, but for symbols that are foreign to every
/// body, as those that a pattern binds.
pub fn symbols_are_bound_once()
    ensures { BoundOnce }
{}

/// A body that reads a symbol early, by all moments of the program, does so by the ends that scopes
/// tell; and a symbol that is foreign to a body by its definition is so by the questions, which
/// shrink.
pub fn foreign_by_scopes()
    ensures early { EarlyByScopes }
    ensures foreign { ForeignByScopes }
{}

/// What the questions tell of a body (which symbols are steady in it, which no other body sees) is
/// so by the definitions of Shared and Foreign, and is told of the same body after any number of
/// lawful steps that read less.
pub fn told_on<R: Rewrites>()
    ensures so { ToldIsSo }
    ensures on { ToldOn R.gives }
    ensures shown { PlacesShow R.gives }
    ensures within { ToldWithin R.gives }
{}

/// A symbol that no node writes and that is not foreign to a body, whatever the body's own
/// declarators give it, is so by the definitions of Shared and Foreign, and stays so after any
/// number of lawful steps that read less.
pub fn exactly_told_on<R: Rewrites>()
    ensures so { ExactIsSo }
    ensures within { ExactWithin R.gives }
{}

/// In a program that declares each name once, a symbol that is foreign to a body by the questions,
/// which shrink, is foreign to it by its definition: the questions tell of a body all that the
/// definitions say, of what nothing writes and of what no node writes.
pub fn foreign_is_exact()
    ensures early { EarlyByMoments }
    ensures foreign { ForeignByDefinition }
    ensures told { ToldIsAll }
    ensures exact { ExactIsAll }
{}
