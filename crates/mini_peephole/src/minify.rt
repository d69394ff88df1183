//! The library's top call: an ESTree value in, a lighter one out.

ghost use Rattle.std.specs.Prelude.{◌≡◌, ◌+◌, ◌<◌, ◌^◌, Some, length, IfOk, IfErr, IfSome, OnOk, true, false};
ghost use Rattle.serde_json.specs.View.{view};
ghost use Rattle.serde_json.specs.Written.{has_float};
ghost use Rattle.mini_context.specs.Known.{Knows};
ghost use Rattle.mini_model.specs.Weight.{program_weight};
ghost use Rattle.mini_model.specs.declared.place.Position.TheVariants.{Elsewhere};
ghost use Rattle.mini_tree.specs.Context.{KnowsSome, ByKnown, KnowsAsBefore};
ghost use Rattle.mini_tree.specs.Walk.{Walked};
ghost use Rattle.mini_writer.specs.Fits.{Fits};
ghost use Rattle.mini_laws.specs.References.{references};
ghost use Rattle.mini_laws.specs.Resolved.{symbols};
ghost use Rattle.mini_laws.specs.declared.names.Use.TheVariants as variant;
ghost use Rattle.mini_scope.specs.Pointers.{early_fault};
ghost use Rattle.mini_model.specs.Faults.{fault_of};
ghost use Rattle.mini_peephole.specs.ComesBack.{ComesBack};
ghost use Rattle.mini_peephole.specs.Faithful.{Faithful, PassesBounded};
ghost use Rattle.mini_peephole.specs.Answer.{IsWeighed};
ghost use Rattle.mini_peephole.specs.Rules.{AllGives, AllRests};
ghost use Rattle.mini_peephole.specs.Minified.{IsWeighedAnswer, IsWritten, IsAnswerOf, IsMinified, IsMinifiedBy, IsRefusal};

use crate::named::{numbers_of, symbols_of};
use mini_choices::{MinimizeChoices, MinimizeWrites};
use mini_context::{TraverseCtx, resolve};
use mini_estree::{MinifyError, Numbered, read_program};
use mini_fold::{FoldConstants, FoldKnown, FoldOperands, FoldSequences, FoldTemplates};
use mini_inside::{RemoveInside, RemoveUnusedDeclarations};
use mini_lexical::LexicalNames;
use mini_logic::{
    MinimizeBodies, MinimizeConditional, MinimizeIf, MinimizeInBooleanContext, MinimizeNegations,
    MinimizeUnary, MinimizeVoid,
};
use mini_past::{
    PastNamesInBlocks, SubstitutePast, SubstitutePastArrows, SubstitutePastInside,
    SubstitutePastModules, SubstitutePastStatics,
};
use mini_steady::{InArrows, InFunctions, InParts, InPrograms, SteadyMembers};
use mini_stmt::{JoinLets, MinimizeStatements, TurnLoopGuards};
use mini_switch::MinimizeSwitches;
use mini_syntax::{
    SubstituteArrows, SubstituteDeclarations, SubstituteKeys, SubstitutePropertyKeys,
    SubstituteReturns, SubstituteSpellings,
};
use mini_tree::{
    CompressOptions, Context, Numbers, OutOfMemory, Passes, Position, Program, Rule, Then, discard,
    run_passes, walk, weight,
};
use mini_unused::{RemoveUnusedNames, SubstituteCatches};
use mini_writer::write_program;
use serde_json::Value;
use std::alloc::Global;

/// The answer of the minifier to a program.
#[derive(Drop)]
pub struct Minified {
    /// The lighter program, as ESTree.
    pub program: Value,
    /// For each numbered node of the answer, in preorder, its number in the input.
    pub kept: Numbers,
    /// For each symbol of the answer, its number in the input.
    pub symbols: Numbers,
    /// How many passes were made.
    pub passes: u32,
    /// Whether the last pass found nothing to rewrite.
    pub settled: bool,
}

/// An answer, and what its program weighs before and after.
#[derive(Drop)]
pub struct Weighed {
    /// The answer.
    pub minified: Minified,
    /// What the input weighs, each name with its symbol.
    pub before: u64,
    /// What the program of the answer weighs.
    pub after: u64,
}

// The rules, in the order in which a node is tried with them: of logic, of blocks as branches and
// bodies, of spellings, of lists, of keys, of choices, of declarations, of what is known, of arrow
// functions, of constants and of keys of patterns and classes.
type Logic = Then<MinimizeUnary, Then<MinimizeConditional, MinimizeIf>>;

type Spellings = Then<
    SubstituteReturns,
    Then<
        SubstituteSpellings,
        Then<
            MinimizeStatements,
            Then<
                SubstituteKeys,
                Then<
                    MinimizeChoices,
                    Then<
                        SubstituteDeclarations,
                        Then<
                            FoldKnown,
                            Then<
                                SubstituteArrows,
                                Then<
                                    FoldConstants,
                                    Then<
                                        SubstitutePropertyKeys,
                                        Then<
                                            MinimizeInBooleanContext,
                                            Then<
                                                MinimizeVoid,
                                                Then<
                                                    FoldSequences,
                                                    Then<
                                                        FoldOperands,
                                                        Then<
                                                            MinimizeNegations,
                                                            Then<
                                                                FoldTemplates,
                                                                Then<
                                                                    MinimizeSwitches,
                                                                    TurnLoopGuards,
                                                                >,
                                                            >,
                                                        >,
                                                    >,
                                                >,
                                            >,
                                        >,
                                    >,
                                >,
                            >,
                        >,
                    >,
                >,
            >,
        >,
    >,
>;

const KEEPING_RULES: Then<Logic, Then<MinimizeBodies, Spellings>> = Then {
    first: Then {
        first: MinimizeUnary,
        second: Then {
            first: MinimizeConditional,
            second: MinimizeIf,
        },
    },
    second: Then {
        first: MinimizeBodies,
        second: Then {
            first: SubstituteReturns,
            second: Then {
                first: SubstituteSpellings,
                second: Then {
                    first: MinimizeStatements,
                    second: Then {
                        first: SubstituteKeys,
                        second: Then {
                            first: MinimizeChoices,
                            second: Then {
                                first: SubstituteDeclarations,
                                second: Then {
                                    first: FoldKnown,
                                    second: Then {
                                        first: SubstituteArrows,
                                        second: Then {
                                            first: FoldConstants,
                                            second: Then {
                                                first: SubstitutePropertyKeys,
                                                second: Then {
                                                    first: MinimizeInBooleanContext,
                                                    second: Then {
                                                        first: MinimizeVoid,
                                                        second: Then {
                                                            first: FoldSequences,
                                                            second: Then {
                                                                first: FoldOperands,
                                                                second: Then {
                                                                    first: MinimizeNegations,
                                                                    second: Then {
                                                                        first: FoldTemplates,
                                                                        second: Then {
                                                                            first: MinimizeSwitches,
                                                                            second: TurnLoopGuards,
                                                                        },
                                                                    },
                                                                },
                                                            },
                                                        },
                                                    },
                                                },
                                            },
                                        },
                                    },
                                },
                            },
                        },
                    },
                },
            },
        },
    },
};

// Rules that keep each name come before those of names that nothing mentions, and of names that can
// be written.
type Keeping = Then<Logic, Then<MinimizeBodies, Spellings>>;

type Naming = Then<
    RemoveUnusedDeclarations,
    Then<RemoveUnusedNames, Then<SubstituteCatches, Then<MinimizeWrites, JoinLets>>>,
>;

type Loose = Then<Keeping, Naming>;

const LOOSE_RULES: Loose = Then {
    first: KEEPING_RULES,
    second: Then {
        first: RemoveUnusedDeclarations,
        second: Then {
            first: RemoveUnusedNames,
            second: Then {
                first: SubstituteCatches,
                second: Then {
                    first: MinimizeWrites,
                    second: JoinLets,
                },
            },
        },
    },
};

// Rules that rest on what is known of bodies act where no other does.
type AnyCode<W> = Then<Then<Then<InFunctions<W>, InArrows<W>>, InPrograms<W>>, InParts<W>>;

const MEMBERS: AnyCode<SteadyMembers> = Then {
    first: Then {
        first: Then {
            first: InFunctions {
                rewrites: SteadyMembers,
            },
            second: InArrows {
                rewrites: SteadyMembers,
            },
        },
        second: InPrograms {
            rewrites: SteadyMembers,
        },
    },
    second: InParts {
        rewrites: SteadyMembers,
    },
};

const LEXICAL: AnyCode<LexicalNames> = Then {
    first: Then {
        first: Then {
            first: InFunctions {
                rewrites: LexicalNames,
            },
            second: InArrows {
                rewrites: LexicalNames,
            },
        },
        second: InPrograms {
            rewrites: LexicalNames,
        },
    },
    second: InParts {
        rewrites: LexicalNames,
    },
};

type OwnRules = Then<AnyCode<SteadyMembers>, AnyCode<LexicalNames>>;

// Rules of names that are read once past others.
type Past = Then<
    Then<SubstitutePast, SubstitutePastArrows>,
    Then<SubstitutePastModules, SubstitutePastStatics>,
>;

// Of a `var` further inside a body.
type Inside = Then<RemoveInside, SubstitutePastInside>;

// Rules of names that are read once or not at all, those of blocks further inside a body among
// them.
type Once = Then<Then<Past, AnyCode<PastNamesInBlocks>>, Inside>;

const PAST: Past = Then {
    first: Then {
        first: SubstitutePast,
        second: SubstitutePastArrows,
    },
    second: Then {
        first: SubstitutePastModules,
        second: SubstitutePastStatics,
    },
};

const INSIDE: Inside = Then {
    first: RemoveInside,
    second: SubstitutePastInside,
};

const IN_BLOCKS: AnyCode<PastNamesInBlocks> = Then {
    first: Then {
        first: Then {
            first: InFunctions {
                rewrites: PastNamesInBlocks,
            },
            second: InArrows {
                rewrites: PastNamesInBlocks,
            },
        },
        second: InPrograms {
            rewrites: PastNamesInBlocks,
        },
    },
    second: InParts {
        rewrites: PastNamesInBlocks,
    },
};

type Steady = Then<OwnRules, Once>;

const STEADY_RULES: Steady = Then {
    first: Then {
        first: MEMBERS,
        second: LEXICAL,
    },
    second: Then {
        first: Then {
            first: PAST,
            second: IN_BLOCKS,
        },
        second: INSIDE,
    },
};

const RULES: Then<Loose, Steady> = Then {
    first: LOOSE_RULES,
    second: STEADY_RULES,
};

// A walk of a rule over a program, which gets lighter where anything changes.
fn walk_once<C: Context, R: Rule<C>>(
    rule: &R,
    alloc: Global,
    tree: &mut Program,
    context: &mut C,
) -> Result<bool, OutOfMemory>
    requires { KnowsSome C.knows context.old }
    ensures walked { IfOk result (λ changed. ByKnown C.knows context.old (λ o q. Walked (R.gives o q) (R.rests o q) Elsewhere tree.old tree.new changed)) }
    ensures lighter { IfOk result (λ changed. changed ≡ true → program_weight tree.new < program_weight tree.old) }
    ensures known { OnOk result (KnowsAsBefore C.knows context.old context.new) }
{
    walk(rule, alloc, tree, Position::Elsewhere, context)
}

/// One walk of all rules over a program, whose answer says whether anything changed: steps lead to
/// the program from what it was, each lighter, or nowhere in it has a rule anything to do. The only
/// error is that memory runs out, and then the program is fit only to be dropped.
pub fn rewrite_once(
    alloc: Global,
    tree: &mut Program,
    context: &mut TraverseCtx,
) -> Result<bool, OutOfMemory>
    requires { KnowsSome Knows context.old }
    ensures walked { IfOk result (λ changed. ByKnown Knows context.old (λ o q. Walked (AllGives o q) (AllRests o q) Elsewhere tree.old tree.new changed)) }
    ensures lighter { IfOk result (λ changed. changed ≡ true → program_weight tree.new < program_weight tree.old) }
    ensures known { OnOk result (KnowsAsBefore Knows context.old context.new) }
{
    walk_once(&RULES, alloc, tree, context)
}

// The answer of passes of a rule for a resolved tree, which is rewritten in place.
fn rewritten<R: Rule<TraverseCtx>>(
    rule: &R,
    alloc: Global,
    tree: &mut Program,
    options: &CompressOptions,
    context: &mut TraverseCtx,
) -> Result<Minified, OutOfMemory>
    requires { Knows context.old options.now tree.old }
    ensures ok { IfOk result (λ m. IsWritten (R.gives options.now) (R.rests options.now) tree.old options.now.passes m) }
    ensures made { IfOk result (λ m. (r : IsWritten (R.gives options.now) (R.rests options.now) tree.old options.now.passes m) × (r.output ≡ tree.new)) }
    ensures plain { IfOk result (λ m. has_float (view m.program) ≡ false) }
{
    let Passes { passes, settled } = run_passes(rule, alloc, tree, options.passes, context)?;
    let program = write_program(alloc, tree)?;
    let kept = numbers_of(alloc, tree)?;
    let symbols = symbols_of(alloc, tree)?;
    Ok(Minified {
        program,
        kept,
        symbols,
        passes,
        settled,
    })
}

// The answer for a tree as it was read, which is resolved and rewritten in place.
fn answer<R: Rule<TraverseCtx>>(
    rule: &R,
    alloc: Global,
    tree: &mut Program,
    options: &CompressOptions,
) -> Result<Minified, MinifyError>
    requires symbols { symbols variant.Read tree.old < 2 ^ 32 }
    requires references { length (references variant.Read tree.old) + 1 < 2 ^ 32 }
    ensures ok { IfOk result (λ m. IsAnswerOf R.gives R.rests tree.old options.now m) }
    ensures plain { IfOk result (λ m. has_float (view m.program) ≡ false) }
    ensures refused { IfErr result (λ e. IfSome (fault_of e) (λ f. early_fault tree.old ≡ Some f)) }
{
    let scopes = resolve(alloc, tree)?;
    let mut context = TraverseCtx::new(scopes, *options);
    Ok(rewritten(rule, alloc, tree, options, &mut context)?)
}

// The answer for a program as it was read, which is let go.
fn minify_read<R: Rule<TraverseCtx>>(
    rule: &R,
    alloc: Global,
    read: Numbered,
    options: &CompressOptions,
) -> Result<Minified, MinifyError>
    requires symbols { symbols variant.Read read.root < 2 ^ 32 }
    requires references { length (references variant.Read read.root) + 1 < 2 ^ 32 }
    ensures ok { IfOk result (λ m. IsAnswerOf R.gives R.rests read.root options.now m) }
    ensures plain { IfOk result (λ m. has_float (view m.program) ≡ false) }
    ensures refused { IfErr result (λ e. IfSome (fault_of e) (λ f. early_fault read.root ≡ Some f)) }
{
    let Numbered { mut root, .. } = read;
    let made = answer(rule, alloc, &mut root, options);
    discard(root);
    made
}

/// Reads a program from its ESTree value, gives each name in it its symbol, makes passes of a rule
/// over it, until the rule has nothing left to do or the passes of the options are made, and writes
/// it. Where the rule is lawful the answer is faithful (`lawful_passes_are_faithful`).
///
/// A value is refused exactly where it is no program that is read to the depth of the options, or
/// where its program has an early error, with the first defect and its pointer. `OutOfMemory` may
/// come in place of any answer. The value has to fit (`mini_writer::fits`).
#[tactic(auto, using(crate::proofs::Refused::refused_by_table))]
pub fn minify_with<R: Rule<TraverseCtx>>(
    rule: &R,
    alloc: Global,
    program: &Value,
    options: &CompressOptions,
) -> Result<Minified, MinifyError>
    requires { Fits (view program.now) }
    ensures rewritten { IfOk result (λ m. IsMinifiedBy R.gives R.rests (view program.now) options.now m) }
    ensures plain { IfOk result (λ m. has_float (view m.program) ≡ false) }
    ensures refused { IfErr result (λ e. IsRefusal (view program.now) options.now e) }
{
    let read = read_program(alloc, program, options.max_depth)?;
    minify_read(rule, alloc, read, options)
}

/// Reads a program from its ESTree value, gives each name in it its symbol, rewrites it until
/// nothing is left to rewrite or the passes of the options are made, and writes it.
///
/// A value is refused exactly where it is no program that is read to the depth of the options, with
/// the first defect and its pointer (`mini_accept::faults_are_there` says that the node at the
/// pointer has the defect), or where its program has an early error, `EarlyName` or `EarlyJump`,
/// with the first and its pointer. `OutOfMemory` may come in place of any answer.
///
/// The value has to fit: `mini_writer::fits` tells, and what 16,777,216 bytes of JSON say does.
pub fn minify_estree(
    alloc: Global,
    program: &Value,
    options: &CompressOptions,
) -> Result<Minified, MinifyError>
    requires { Fits (view program.now) }
    ensures faithful { IfOk result (λ m. Faithful (view program.now) options.now m) }
    ensures passes { IfOk result (λ m. PassesBounded (view program.now) options.now m) }
    ensures rewritten { IfOk result (λ m. IsMinified (view program.now) options.now m) }
    ensures again { IfOk result (λ m. ComesBack options.now m) }
    ensures plain { IfOk result (λ m. has_float (view m.program) ≡ false) }
    ensures refused { IfErr result (λ e. IsRefusal (view program.now) options.now e) }
{
    minify_with(&RULES, alloc, program, options)
}

/// Minifies a value that is given away, as `minify_estree` minifies one that is borrowed. It is
/// dropped as soon as it is read, so that all that comes after has its memory.
#[tactic(auto, using(crate::proofs::Refused::refused_by_table))]
pub fn minify_value(
    alloc: Global,
    program: Value,
    options: &CompressOptions,
) -> Result<Minified, MinifyError>
    requires { Fits (view program) }
    ensures faithful { IfOk result (λ m. Faithful (view program) options.now m) }
    ensures passes { IfOk result (λ m. PassesBounded (view program) options.now m) }
    ensures rewritten { IfOk result (λ m. IsMinified (view program) options.now m) }
    ensures again { IfOk result (λ m. ComesBack options.now m) }
    ensures plain { IfOk result (λ m. has_float (view m.program) ≡ false) }
    ensures refused { IfErr result (λ e. IsRefusal (view program) options.now e) }
{
    let made = read_program(alloc, &program, options.max_depth);
    drop(program);
    let read = made?;
    minify_read(&RULES, alloc, read, options)
}

// The answer for a tree as it was read, with what it weighs before and after.
fn weighed_answer(
    alloc: Global,
    tree: &mut Program,
    options: &CompressOptions,
) -> Result<Weighed, MinifyError>
    requires symbols { symbols variant.Read tree.old < 2 ^ 32 }
    requires references { length (references variant.Read tree.old) + 1 < 2 ^ 32 }
    ensures ok { IfOk result (λ w. IsWeighedAnswer tree.old options.now w) }
    ensures refused { IfErr result (λ e. IfSome (fault_of e) (λ f. early_fault tree.old ≡ Some f)) }
{
    let resolved = resolve(alloc, tree)?;
    let before = weight(tree, Position::Elsewhere);
    let mut context = TraverseCtx::new(resolved, *options);
    let minified = rewritten(&RULES, alloc, tree, options, &mut context)?;
    let after = weight(tree, Position::Elsewhere);
    Ok(Weighed {
        minified,
        before,
        after,
    })
}

// The answer for a program as it was read, which is let go, with what it weighs before and after.
fn weigh_read(
    alloc: Global,
    read: Numbered,
    options: &CompressOptions,
) -> Result<Weighed, MinifyError>
    requires symbols { symbols variant.Read read.root < 2 ^ 32 }
    requires references { length (references variant.Read read.root) + 1 < 2 ^ 32 }
    ensures ok { IfOk result (λ w. IsWeighedAnswer read.root options.now w) }
    ensures refused { IfErr result (λ e. IfSome (fault_of e) (λ f. early_fault read.root ≡ Some f)) }
{
    let Numbered { mut root, .. } = read;
    let made = weighed_answer(alloc, &mut root, options);
    discard(root);
    made
}

/// The answer for a value that is given away, and what its program weighs before and after.
#[tactic(auto, using(crate::proofs::Refused::refused_by_table))]
pub fn weigh_value(
    alloc: Global,
    program: Value,
    options: &CompressOptions,
) -> Result<Weighed, MinifyError>
    requires { Fits (view program) }
    ensures weighed { IfOk result (λ w. IsWeighed (view program) options.now w.minified w.before w.after) }
    ensures refused { IfErr result (λ e. IsRefusal (view program) options.now e) }
{
    let made = read_program(alloc, &program, options.max_depth);
    drop(program);
    let read = made?;
    weigh_read(alloc, read, options)
}
