//! What a tree means: a run of it over states, events and answers; and the names of a program:
//! which scope declares each of them, which symbol each has, and which early errors there are
//! (`specs/`). And laws of these definitions: of the weight, of what a tree means, of paths in it,
//! and of which edits of it keep the symbols of its names. Each function's contract is a law, and
//! its body is empty.
#![tactic(auto)]

mod name_edits;
mod name_laws;
mod name_moves;
mod names;
mod paths;

ghost use Rattle.std.specs.Prelude.{◌≡◌};
ghost use Rattle.mini_model.specs.declared.place.Position.{Position};
ghost use Rattle.mini_model.specs.Tree.{Tree};
ghost use Rattle.mini_laws.specs.Apart.{CutMeans, CutReads, NestedApart};
ghost use Rattle.mini_laws.specs.Congruence.{Insensitive, Congruence, CongruentSame, CongruentBody};
ghost use Rattle.mini_laws.specs.Renaming.{RenamedSame};
ghost use Rattle.mini_laws.specs.Sameness.{Reflexive, Transitive, Weaker, BodyReflexive, BodyTransitive, BodySame};
ghost use Rattle.mini_laws.specs.Differences.{UnswappedDiffers, ValueDiffers, OneSideDiffers, OrDiffers, TestDroppedDiffers};
ghost use Rattle.mini_laws.specs.NearMisses.{ConversionMoves, OperandsSwap, ReadMoves, EqualitySharpens, ThisAppears, DeletedName, MissingName, AbsentDropped, AbsentPartDropped, ChainEnds, KeyConvertsTwice, TargetReadLate, ConstantWritten, PrivateTargetMoves, WriteMoves, FinalizerLost, FinalizerReplaces, CaseSkipped, DefaultMoves, ContinueDropped, BreakDropped, FreshLost, CopyLost, CloseLost, FunctionLate, LexicalLost};
ghost use Rattle.mini_laws.specs.Fewer.{Fewer, FewerSame, FewerBody};
ghost use Rattle.mini_laws.specs.Returns.{ReturnsSame};
ghost use Rattle.mini_laws.specs.Rewritten.{StepKeeps, StepReads, AnyStepSame, AnyReachesSame, AnyBodySame, AnyFrameKept, StepSame, ReachesSame, ProgramSame, FrameKept};
ghost use Rattle.mini_laws.specs.Rows.{NegationSame, LighterNegationSame, Row23Same, Row40Same, Row82ElseSame, Row82AndSame, Row82OrSame, RowSame};
ghost use Rattle.mini_laws.specs.Moves.{Commutes, NumberPasses, SteadyPasses};
ghost use Rattle.mini_laws.specs.Stretches.{StretchSame, StretchAnywhere};
ghost use Rattle.mini_laws.specs.Steady.{Steady};
ghost use Rattle.mini_laws.specs.Substitution.{NumberSame};
ghost use Rattle.mini_laws.specs.Tails.{TailSame, InEachTail, LastJumpSame, BlockBreaks, LastBreakSame};
ghost use Rattle.mini_laws.specs.Truth.{Coherent};
ghost use Rattle.mini_laws.specs.Weights.{Replacement, OwnWeightKept, ReplacementFalls, FallsOtherwise, WholeFalls, AnyStepLighter, AnyReachesLighter, StepLighter, ReachesLighter};

pub use name_edits::{
    kept_as_it_is, kept_below, kept_by_drop, kept_by_swap, kept_is_distinct, kept_twice,
};
pub use name_laws::{
    drops_tell, resolved_is_distinct, resolved_is_scoped, resolved_of_bare, resolved_renamed,
    resolved_symbols,
};
pub use name_moves::{
    drop_let, drop_name, join, move_in, move_out, of_parts, split, swap_branches, to_parts,
};
pub use names::{
    Around, Binding, Clash, Declaration, Declared, Jump, Label, Numbering, Opening, Path, Place,
    Targets, Turn, Use,
};
pub use paths::{
    found, heads_are_kept, paths_of_all_nodes, put_at_a_path, put_further, put_is_counted,
    put_near_a_path,
};

/// The weight of a whole falls by what a part's falls, and by what the own weights of the nodes
/// above that part do, which read the outlines of their children alone.
pub fn replacement()
    ensures falls { Replacement }
    ensures kept { OwnWeightKept }
{}

/// Where a part stands for another the nodes above grow no heavier, so that the whole falls by at
/// least what the part does, with two exceptions: the braces of a block that is a consequent, where
/// an `if` with `else` stood alone in it and no longer does, and an operand of an equality that
/// gets to be `void 0`.
pub fn replacement_of_parts()
    ensures above { ReplacementFalls }
    ensures otherwise { FallsOtherwise }
    ensures whole { WholeFalls }
{}

/// Each rewrite makes the whole lighter by at least 1.
pub fn rewriting_is_lighter()
    ensures step { StepLighter }
    ensures reaches { ReachesLighter }
{}

/// What may be made of which tree at a place, as a rule says it.
pub trait Rewrites {
    /// At this place the second tree may be made of the first.
    ghost gives: { Position → Tree → Tree → Type 0 };
}

/// A step at any place, and any number of them, keep what the tree means, where what is put there
/// means the same as what stood there and is read alike by its parent. So a body runs as before,
/// and a program keeps its frame.
pub fn any_steps_are_same<R: Rewrites>()
    ensures keeps { StepKeeps R.gives }
    ensures reads { StepReads R.gives }
    ensures step { AnyStepSame R.gives }
    ensures reaches { AnyReachesSame R.gives }
    ensures body { AnyBodySame R.gives }
    ensures frame { AnyFrameKept R.gives }
{}

/// A step at any place, and any number of them, make the whole lighter, where what is put there is.
pub fn any_steps_are_lighter<R: Rewrites>()
    ensures step { AnyStepLighter R.gives }
    ensures reaches { AnyReachesLighter R.gives }
{}

/// The truth that a test gets of an expression is that of the expression's value.
pub fn coherent()
    ensures { Coherent }
{}

/// The negation of an expression, and the lighter of it and of `!` over it, mean what that does.
pub fn negation_same()
    ensures negation { NegationSame }
    ensures lighter { LighterNegationSame }
{}

/// What each row writes means the same in every demand that fits its place.
pub fn rows_same()
    ensures row_23 { Row23Same }
    ensures row_40 { Row40Same }
    ensures row_82_else { Row82ElseSame }
    ensures row_82_and { Row82AndSame }
    ensures row_82_or { Row82OrSame }
    ensures row { RowSame }
{}

/// A rewrite at any place, and any number of them, keep what the tree means; a program runs as
/// before and keeps its frame.
pub fn steps_are_same()
    ensures step { StepSame }
    ensures reaches { ReachesSame }
    ensures program { ProgramSame }
    ensures frame { FrameKept }
{}

/// A node replaced at any place by one that means the same there leaves the whole the same, and so
/// a body; and a tree does the same whatever the variables hold that it doesn't mention.
pub fn congruence()
    ensures insensitive { Insensitive }
    ensures trees { Congruence }
    ensures same { CongruentSame }
    ensures body { CongruentBody }
{}

/// A body doesn't depend on the bodies that are nested in it, but by their numbers.
pub fn nested_bodies_are_apart()
    ensures means { CutMeans }
    ensures reads { CutReads }
    ensures same { NestedApart }
{}

/// To mean the same is reflexive and transitive, of trees and of bodies; more dead and more
/// initialised variables make it weaker.
pub fn sameness()
    ensures reflexive { Reflexive }
    ensures transitive { Transitive }
    ensures weaker { Weaker }
    ensures body_reflexive { BodyReflexive }
    ensures body_transitive { BodyTransitive }
{}

/// Bodies whose roots mean the same are the same.
pub fn body_same()
    ensures { BodySame }
{}

/// In a tail a statement does what it does elsewhere, but for the jump that ends the turn or the
/// function: so what means the same in no tail does so in each, and the last such jump may go.
pub fn tails()
    ensures tail { TailSame }
    ensures each { InEachTail }
    ensures jump { LastJumpSame }
{}

/// A block that ends with `break` does what the block without it does, and then breaks: so that may
/// go from the body of a `do` whose test is false.
pub fn last_breaks()
    ensures block { BlockBreaks }
    ensures loop_body { LastBreakSame }
{}

/// `if (a) return b; return c;` means what `return a ? b : c;` does, in any tail.
pub fn returns_join()
    ensures { ReturnsSame }
{}

/// Some statements of a list replaced by others that mean the same, however many they are, leave
/// the list the same.
pub fn stretches()
    ensures in_a_tail { StretchSame }
    ensures anywhere { StretchAnywhere }
{}

/// A variable that no node of a tree writes, and that no answer may change, keeps its value.
pub fn spared_is_steady()
    ensures { Steady }
{}

/// An expression that has the same value before another is evaluated and after, and no effect, may
/// be evaluated before it or after. A number is such a one, and so is an initialised name that
/// nothing writes.
pub fn passed_expressions_commute()
    ensures commutes { Commutes }
    ensures number { NumberPasses }
    ensures steady { SteadyPasses }
{}

/// A tree whose symbols and numbers are renamed does the same of the renamed variables.
pub fn renaming()
    ensures { RenamedSame }
{}

/// A `let` that is initialised with a number may go where a statement after it, which mentions it
/// once, has the number in its place, if no other body sees it.
pub fn substitution()
    ensures { NumberSame }
{}

/// What means the same over more shared and foreign variables means the same over fewer.
pub fn fewer()
    ensures states { Fewer }
    ensures same { FewerSame }
    ensures body { FewerBody }
{}

/// Near misses of the rows do not mean the same.
pub fn differences()
    ensures unswapped { UnswappedDiffers }
    ensures value { ValueDiffers }
    ensures one_side { OneSideDiffers }
    ensures or { OrDiffers }
    ensures test_dropped { TestDroppedDiffers }
{}

/// Programs that nearly do the same are told apart by a run.
pub fn near_misses()
    ensures conversion_moves { ConversionMoves }
    ensures operands_swap { OperandsSwap }
    ensures read_moves { ReadMoves }
    ensures equality_sharpens { EqualitySharpens }
    ensures this_appears { ThisAppears }
    ensures deleted_name { DeletedName }
    ensures missing_name { MissingName }
    ensures absent_dropped { AbsentDropped }
    ensures absent_part_dropped { AbsentPartDropped }
    ensures chain_ends { ChainEnds }
    ensures key_converts_twice { KeyConvertsTwice }
    ensures target_read_late { TargetReadLate }
    ensures constant_written { ConstantWritten }
    ensures private_target_moves { PrivateTargetMoves }
    ensures write_moves { WriteMoves }
    ensures finalizer_lost { FinalizerLost }
    ensures finalizer_replaces { FinalizerReplaces }
    ensures case_skipped { CaseSkipped }
    ensures default_moves { DefaultMoves }
    ensures continue_dropped { ContinueDropped }
    ensures break_dropped { BreakDropped }
    ensures fresh_lost { FreshLost }
    ensures copy_lost { CopyLost }
    ensures close_lost { CloseLost }
    ensures function_late { FunctionLate }
    ensures lexical_lost { LexicalLost }
{}
