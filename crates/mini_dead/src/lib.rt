//! What a run does without functions and declarators that nothing refers to. Each function's
//! contract is a law, and its body is empty.
#![tactic(auto)]

ghost use Rattle.mini_dead.specs.Creations.{WithoutNone, WithoutTwice};
ghost use Rattle.mini_dead.specs.Differences.{UnansweredDiffers, LoneDeclarationDiffers};
ghost use Rattle.mini_dead.specs.Pruned.{PrunedSame};
ghost use Rattle.mini_dead.specs.PrunedBodies.{PrunedProgram};
ghost use Rattle.mini_dead.specs.DeadDropped.{DeadIsDropped};
ghost use Rattle.mini_dead.specs.Counting.{DropsCount, NoneGoes};
ghost use Rattle.mini_dead.specs.Frames.{DropsKeepFrames, DropsKeepProgram, DropsKeepAllFrames};
ghost use Rattle.mini_dead.specs.Marked.{MayGoDrops, DeadSymbolsGo, DeadItemsCounted};
ghost use Rattle.mini_dead.specs.KeptNames.{DropsKeepNames};
ghost use Rattle.mini_dead.specs.Drops.{DropsKeepShape, DropsKeepBodies, DroppedBodiesStay};

/// A body from whose lists of statements items go does what it did, but for the creation of the
/// functions that went, where what stays names nothing that went.
pub fn pruned_is_same()
    ensures { PrunedSame }
{}

/// A body does what it does without creating no function; and a body that goes without some
/// functions, and then without others, goes without both.
pub fn without_is_an_order()
    ensures none { WithoutNone }
    ensures twice { WithoutTwice }
{}

/// A run without an item may end otherwise where no answer is left for the creation of a function
/// that went, and where a `var` of its name stays.
pub fn dropping_may_differ()
    ensures unanswered { UnansweredDiffers }
    ensures lone_declaration { LoneDeclarationDiffers }
{}

/// Each body of a program from which items go is one that the program had, and does what that did,
/// but for the creation of the functions that went.
pub fn pruned_program()
    ensures { PrunedProgram }
{}

/// Each body of a program that lost dead items, any number of times, is one that the program had,
/// and does what that did, but for the creation of the functions that went: in every environment
/// that hides the symbols that went and lets them be written, and so in that of the later program.
pub fn drops_keep_bodies()
    ensures bodies { DropsKeepBodies }
    ensures stay { DroppedBodiesStay }
{}

/// A program less a set of symbols loses dead items alone, where no other code sees a symbol of the
/// set and `may_go` answers that what stays names none and what goes refers to later rounds.
pub fn may_go_drops()
    ensures { MayGoDrops }
{}

/// Dead symbols of a program can go at once, one or more of them; and all of them are its dead
/// items.
pub fn dead_symbols_go()
    ensures go { DeadSymbolsGo }
    ensures counted { DeadItemsCounted }
{}

/// The counts of each symbol fall by the references that go with items, and by nothing else; and
/// where no item goes, the program is what it was.
pub fn drops_are_counted()
    ensures fall { DropsCount }
    ensures none { NoneGoes }
{}

/// A program from which dead items go is a program of ESTree still.
pub fn drops_keep_shape()
    ensures { DropsKeepShape }
{}

/// A program that lost dead items, any number of times, keeps its names: each that is left has the
/// symbol that the scopes around it give, no symbol is declared twice, nothing else is declared,
/// and it has no early error.
pub fn drops_keep_names()
    ensures { DropsKeepNames }
{}

/// Each function and each carried node that is left has the frame that it had, and so has the
/// program itself, where its names are resolved: its imports, its exports and what a script gives
/// the global object stay. So each frame that is left is one that was there.
pub fn drops_keep_frames()
    ensures below { DropsKeepFrames }
    ensures program { DropsKeepProgram }
    ensures all { DropsKeepAllFrames }
{}

/// All that is said of a program that loses dead items until there is none: which items go and how
/// many, that the bodies, frames and names that are left are kept, and that the program as it is
/// written is resolved to the symbols that it carries.
pub fn dead_is_dropped()
    ensures { DeadIsDropped }
{}
