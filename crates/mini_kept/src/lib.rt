//! What rewriting keeps of a program: it stays well shaped, and so do its names, numbers, bodies
//! and frames; and what a program that is written, read again and resolved has to do with the one
//! that was written. Each function's contract is a law, and its body is empty.
#![tactic(auto)]

ghost use Rattle.mini_kept.specs.Kept.{EachBelowKept, EachKept, ReachesWellShaped, StepFits};
ghost use Rattle.mini_kept.specs.KeepsShapes.{AnyStepFits, AnyReachesWellShaped};
ghost use Rattle.mini_kept.specs.Lawful.{LawfulKeeps, LawfulJoin, LawfulNarrowed, RowsAreLawful};
ghost use Rattle.mini_kept.specs.Loosely.{LooselyKeeps, LawfulIsLoose, LooseIsSteady, LooseJoin, LooseNarrowed, LooseWider, SteadilyKeeps, SteadyJoin, SteadyNarrowed, SteadyWider};
ghost use Rattle.mini_kept.specs.Rooted.{RootedJoin, RootedKeeps, RootedNarrowed, RootedWider, SteadyIsRooted};
ghost use Rattle.mini_kept.specs.Swaps.{BranchesSwapped, NegationLeft};
ghost use Rattle.mini_kept.specs.Lifted.{RowsKeepNames, ReachesKeepsNames};
ghost use Rattle.mini_kept.specs.NameLaws.{ResolvedRenumbered, NumbersCarried, ProgramCarried};
ghost use Rattle.mini_kept.specs.Fixities.{ReachesKeepsFixities, RowsKeepFixities, ProgramKeepsFixities};
ghost use Rattle.mini_kept.specs.BodyLaws.{StepKeepsBodies, ReachesKeepsBodies, BodiesStand, RowsKeepBodies, ProgramKeepsBodies};
ghost use Rattle.mini_kept.specs.FrameLaws.{StepKeepsFrames, ReachesKeepsFrames, RowsKeepFrames, ProgramKeepsFrames};

use mini_laws::Rewrites;

/// A rewrite at any place leaves a tree where it may stand; so a program stays one after any number
/// of them.
pub fn rewriting_keeps_programs()
    ensures step { StepFits }
    ensures program { ReachesWellShaped }
{}

/// A step at any place leaves a tree where it may stand, and any number of them leave a program
/// one, where what is put there may stand wherever what stood there might, and a parent may ask the
/// same of both.
pub fn shapes_kept<R: Rewrites>()
    ensures step { AnyStepFits R.gives }
    ensures program { AnyReachesWellShaped R.gives }
{}

/// What holds of each node of a tree holds of each after any number of rewrites, if it holds of
/// what the rows write; the root of a program stays, and what holds of each node below it still
/// does.
pub fn rewriting_keeps_nodes()
    ensures anywhere { EachKept }
    ensures program { EachBelowKept }
{}

/// What each row writes keeps the names, the symbols and the numbers of what it reads, and has no
/// early error if that has none.
pub fn rows_keep_names()
    ensures { RowsKeepNames }
{}

/// Any number of rewrites at any places of a program keep its names, symbols and numbers, and it
/// has no early error if it had none.
pub fn rewriting_keeps_names()
    ensures { ReachesKeepsNames }
{}

/// Resolution doesn't look at numbers.
pub fn resolved_renumbered()
    ensures { ResolvedRenumbered }
{}

/// Numbers in preorder stand for the places of the numbers that a program had.
pub fn numbers_carried()
    ensures { NumbersCarried }
{}

/// A program that is written, read again and resolved is the one that was written, with the numbers
/// and the symbols that its own stand for.
pub fn program_carried()
    ensures { ProgramCarried }
{}

/// A step at any place, and any number of them, keep the bodies of a program that is well shaped,
/// where what is put there keeps those of what stood there.
pub fn bodies_kept<R: Rewrites>()
    ensures step { StepKeepsBodies R.gives }
    ensures reaches { ReachesKeepsBodies R.gives }
{}

/// Each body of a program whose bodies are kept stands for an earlier one.
pub fn bodies_stand()
    ensures { BodiesStand }
{}

/// What each row writes has the bodies of what it reads, and so any number of rewrites keep those
/// of a program.
pub fn rows_keep_bodies()
    ensures rows { RowsKeepBodies }
    ensures program { ProgramKeepsBodies }
{}

/// Any number of steps keep which variables can be written and which raise, where each step keeps
/// that of what stood there.
pub fn fixities_kept<R: Rewrites>()
    ensures { ReachesKeepsFixities R.gives }
{}

/// What each row writes declares each name as what it reads does, and so any number of rewrites
/// keep what a write of each variable of a program does.
pub fn rows_keep_fixities()
    ensures rows { RowsKeepFixities }
    ensures program { ProgramKeepsFixities }
{}

/// A step at any place, and any number of them, keep the frames of a program that is well shaped,
/// where what is put there keeps those of what stood there and is no part of one.
pub fn frames_kept<R: Rewrites>()
    ensures step { StepKeepsFrames R.gives }
    ensures reaches { ReachesKeepsFrames R.gives }
{}

/// What each row writes has the frames of what it reads, and so any number of rewrites keep those
/// of a program.
pub fn rows_keep_frames()
    ensures rows { RowsKeepFrames }
    ensures program { ProgramKeepsFrames }
{}

/// Any number of steps of a lawful relation keep all of a program that is well shaped: that it is
/// one, its names, symbols and numbers, its bodies and frames, what a write of each variable does,
/// which names it declares, and its root.
pub fn lawful_rewriting_keeps<R: Rewrites>()
    ensures { LawfulKeeps R.gives }
{}

/// What one lawful relation makes, or another, is lawful.
pub fn lawful_rules_join<R: Rewrites, S: Rewrites>()
    ensures { LawfulJoin R.gives S.gives }
{}

/// What makes no more than a lawful relation is lawful.
pub fn lawful_rules_narrowed<R: Rewrites, S: Rewrites>()
    ensures { LawfulNarrowed R.gives S.gives }
{}

/// Any number of steps of a loosely lawful relation keep all of a program that is well shaped, but
/// names that nothing mentions: each body of it runs as before where nobody else sees a variable
/// that the later program doesn't declare, and those can be written for which the relation is
/// lawful. What is lawful is so, whichever can.
pub fn loose_rewriting_keeps<R: Rewrites>()
    ensures keeps { LooselyKeeps R.gives }
    ensures lawful { LawfulIsLoose R.gives }
{}

/// What one loosely lawful relation makes, or another, is loosely lawful, what makes no more than
/// one is, and what is so where some variables can be written is so where more can.
pub fn loose_rules_join<R: Rewrites, S: Rewrites>()
    ensures joined { LooseJoin R.gives S.gives }
    ensures narrowed { LooseNarrowed R.gives S.gives }
    ensures wider { LooseWider R.gives }
{}

/// Any number of steps keep all of a program, too, where the relation rests on it that some names
/// are steady in some bodies, that is, that no answer changes them while such a body runs: then
/// each body of the later program runs as before where these are. What is loosely lawful is so,
/// whichever are steady.
pub fn steady_rewriting_keeps<R: Rewrites>()
    ensures keeps { SteadilyKeeps R.gives }
    ensures loose { LooseIsSteady R.gives }
{}

/// What one such relation makes, or another, is one, what makes no more than one is, and what rests
/// on some steady names may rest on more.
pub fn steady_rules_join<R: Rewrites, S: Rewrites>()
    ensures joined { SteadyJoin R.gives S.gives }
    ensures narrowed { SteadyNarrowed R.gives S.gives }
    ensures wider { SteadyWider R.gives }
{}

/// Any number of steps keep all of a program, too, where the relation may give a whole program
/// other statements by what is known of its body: no node asks a program, so that it has to keep no
/// meaning at a place. What is lawful at each node is so.
pub fn rooted_rewriting_keeps<R: Rewrites>()
    ensures keeps { RootedKeeps R.gives }
    ensures steady { SteadyIsRooted R.gives }
{}

/// What one such relation makes, or another, is one, what makes no more than one is, and what rests
/// on something may rest on more.
pub fn rooted_rules_join<R: Rewrites, S: Rewrites>()
    ensures joined { RootedJoin R.gives S.gives }
    ensures narrowed { RootedNarrowed R.gives S.gives }
    ensures wider { RootedWider R.gives }
{}

/// What the rows make is lawful.
pub fn rows_are_lawful()
    ensures { RowsAreLawful }
{}

/// `if (!a) s; else u;` may become `if (a) u; else s;`: each name keeps its symbol, though what
/// `var` hoists in the two is declared in another order.
pub fn branches_swapped()
    ensures swapped { BranchesSwapped }
    ensures test { NegationLeft }
{}
