//! Rows that **read less**: what a row writes for a node asks no more of a name, shows no more of
//! it and writes it no more than the node did, so that what is shared with a body and foreign to it
//! only shrinks by any number of steps (`mini_shrink`). Each function's contract is a law, and its
//! body is empty.
#![tactic(auto)]

ghost use Rattle.mini_less.specs.Families.{ConstantsReadLess, SequencesReadLess, TemplatesReadLess, BooleansReadLess, NegationsReadLess, ChoicesReadLess, WritesReadLess, KeysReadLess, FoldingsReadLess, DeMorganReadsLess, WholeFamiliesReadLess, IfRowsLess, BodyRowsLess, BodyRowsOfThisLess, FirstRowsReadLess, OperandsReadLess, SpellingsReadLess, ReadsLessJoins, ReadsLessNarrows, ListRowsLess, MoreRowsLess, TurnsReadLess, TurnsShrink};
ghost use Rattle.mini_less.specs.Arrows.{ArrowsReadLess};
ghost use Rattle.mini_less.specs.BodyEnds.{BodyEndsLess};
ghost use Rattle.mini_less.specs.Declarations.{DeclarationsReadLess};
ghost use Rattle.mini_less.specs.Lets.{LetsReadLess};
ghost use Rattle.mini_less.specs.LoopGuards.{LoopGuardsReadLess};
ghost use Rattle.mini_less.specs.Unused.{UnusedReadLess};
ghost use Rattle.mini_less.specs.Rows.{RowsReadLess, RewritesReadLess};
ghost use Rattle.mini_less.specs.HeldKeys.{HeldKeysReadLess};
ghost use Rattle.mini_less.specs.Names.{NamesReadLess, CatchesReadLess};
ghost use Rattle.mini_less.specs.SwitchRows.{BranchesReadLess, LexicalNamesReadLess, LexicalRowsLess, SwitchRowsLess};
ghost use Rattle.mini_less.specs.Own.{SteadyReadsLess, LexicalReadsLess, PastBlocksReadLess};
ghost use Rattle.mini_less.specs.ListFamilies.{HeadRowsLess, EnterRowsLess, ListsReadLess};
ghost use Rattle.mini_less.specs.Inside.{InsideReadsLess};
ghost use Rattle.mini_less.specs.Past.{PastReadLess, PastInsideReadsLess};
ghost use Rattle.mini_less.specs.Steady.{SteadyRewritesReadLess};
ghost use Rattle.mini_less.specs.Rebuilt.{ListsAskLess, StatementsAskLess};

use mini_laws::Rewrites;

/// A statement that is built anew of the same parts answers at most what that did, of every fact,
/// and whatever their order.
pub fn statements_ask_less()
    ensures { StatementsAskLess }
{}

/// Neighbours in a list that are built anew of the parts of others, none of which is a mere part,
/// answer at most what those did, of every fact.
pub fn lists_ask_less()
    ensures { ListsAskLess }
{}

/// Two relations that read less make one, and so does what makes no more than one.
pub fn reads_less_joins<R: Rewrites, S: Rewrites>()
    ensures joins { ReadsLessJoins R.gives S.gives }
    ensures narrows { ReadsLessNarrows R.gives S.gives }
{}

/// Rows on negations and on `if` over expressions: 23, 40 and 82. What they write reads less.
pub fn first_rows_read_less()
    ensures { FirstRowsReadLess }
{}

/// Rows that turn a test, so that what is shared and foreign only shrinks by any number of their
/// steps. What they write reads less.
pub fn turns_read_less()
    ensures turns { TurnsReadLess }
    ensures shrink { TurnsShrink }
{}

/// Rows on neighbours in a list ask less: 66, 73, 76 and 79.
pub fn list_rows_less()
    ensures { ListRowsLess }
{}

/// Further rows ask less: 67, 77 and 78, and 40 and 82 but for a negated test.
pub fn more_rows_less()
    ensures { MoreRowsLess }
{}

/// Rows on expressions whose value is calculated from their text: 1, 3, 4, 8 and 9. What they write
/// reads less.
pub fn constants_read_less()
    ensures { ConstantsReadLess }
{}

/// Rows on operands whose value is known, and on operators. What they write reads less.
pub fn operands_read_less()
    ensures { OperandsReadLess }
{}

/// Rows on spellings: 19, 33, 54, 55, 58, 60 and 65. What they write reads less.
pub fn spellings_read_less()
    ensures { SpellingsReadLess }
{}

/// Rows on sequences: 20 and 21. What they write reads less.
pub fn sequences_read_less()
    ensures { SequencesReadLess }
{}

/// Rows on templates: 5, 6 and 18. What they write reads less.
pub fn templates_read_less()
    ensures { TemplatesReadLess }
{}

/// Rows of which only the truth is asked, and of conditionals one of whose branches is a boolean:
/// 24 to 26, 47 and 48. What they write reads less.
pub fn booleans_read_less()
    ensures { BooleansReadLess }
{}

/// Negations that reach into the operand: 23. What they write reads less.
pub fn negations_read_less()
    ensures { NegationsReadLess }
{}

/// Rows of choices: 10 to 13, 21, 35, 37 to 39, 41 to 46, 49, 57 and 64. What they write reads
/// less.
pub fn choices_read_less()
    ensures { ChoicesReadLess }
{}

/// Rows of names that can be written: 34, 37 and 46. What they write reads less.
pub fn writes_read_less()
    ensures { WritesReadLess }
{}

/// Rows on the keys of object literals: 51 and 52. What they write reads less.
pub fn keys_read_less()
    ensures { KeysReadLess }
{}

/// Rows on what is known of an expression from its text: 9, 12, 13, 22, 28, 36 and 49. What they
/// write reads less.
pub fn foldings_read_less()
    ensures { FoldingsReadLess }
{}

/// De Morgan's laws where nobody asks for the value: 50. What they write reads less.
pub fn de_morgan_reads_less()
    ensures { DeMorganReadsLess }
{}

/// Twenty-three families of rows as one relation, whatever the options and the variables that can
/// be written. What it writes reads less.
pub fn whole_families_read_less()
    ensures { WholeFamiliesReadLess }
{}

/// Rows of `if`, and of `return` without a value: 60, 82 and 83. What they write reads less.
pub fn if_rows_less()
    ensures { IfRowsLess }
{}

/// Rows of branches and of bodies of loops: 79, 84, and 78 of a body that is a jump. What they
/// write reads less.
pub fn body_rows_less()
    ensures { BodyRowsLess }
{}

/// Rows that rest on what is known of the body around, of members and of `this`. What they write
/// reads less.
pub fn body_rows_of_this_less()
    ensures { BodyRowsOfThisLess }
{}

/// Rows that rest on what is known of a body, in its own code: those of members, of `this` and of
/// lexical names, and of declarations that are put where they are used, read less in a function, an
/// arrow function, a program, a static block and an inner expression.
pub fn own_rows_read_less()
    ensures steady { SteadyReadsLess }
    ensures lexical { LexicalReadsLess }
    ensures past { PastBlocksReadLess }
{}

/// Rows on the keys of patterns and of classes: 52 and 53. What they write reads less.
pub fn held_keys_read_less()
    ensures { HeldKeysReadLess }
{}

/// The row of arrow functions whose body only returns a value: 59. What it writes reads less.
pub fn arrows_read_less()
    ensures { ArrowsReadLess }
{}

/// The row that drops the name of a function or class expression that nothing mentions: 62. What it
/// writes reads less.
pub fn names_read_less()
    ensures { NamesReadLess }
{}

/// The row of a `let` without the value `undefined`: 61. What it writes reads less.
pub fn declarations_read_less()
    ensures { DeclarationsReadLess }
{}

/// The row of a guard in the body of a loop that goes on with the next turn: 75. What it writes
/// reads less.
pub fn loop_guards_read_less()
    ensures { LoopGuardsReadLess }
{}

/// Rows of a `let` and an assignment after it, and of a lexical declaration that never runs: 70,
/// 77. What they write reads less.
pub fn lets_read_less()
    ensures { LetsReadLess }
{}

/// Rows of a name that nothing mentions, and of one that is read once: 71, 72. What they write
/// reads less.
pub fn unused_read_less()
    ensures { UnusedReadLess }
{}

/// All rows by which any program is rewritten whatever is known of its names. What they write reads
/// less.
pub fn rows_read_less()
    ensures { RowsReadLess }
{}

/// All rows by which any program is rewritten, those of names among them that nothing mentions,
/// that are read once or that may be written. What they write reads less.
pub fn rewrites_read_less()
    ensures { RewritesReadLess }
{}

/// The row that drops what a `catch` catches where nothing mentions it: 63. What it writes reads
/// less.
pub fn catches_read_less()
    ensures { CatchesReadLess }
{}

/// Rows of a `switch` of one case, and of one over a value that is known: 80 and 81. What they
/// write reads less.
pub fn switch_rows_less()
    ensures { SwitchRowsLess }
{}

/// Rows of a `switch` of one case and of a `for` in whose blocks names are declared: 80 and 84.
/// What they write reads less.
pub fn lexical_names_read_less()
    ensures rows { LexicalRowsLess }
    ensures family { LexicalNamesReadLess }
{}

/// All rows of branches: 60, 78 and 79 in branches and in bodies of loops, 80, 81, and 82 to 84.
/// What they write reads less.
pub fn branches_read_less()
    ensures { BranchesReadLess }
{}

/// Rows on the jump that ends a block which is the body of a loop: 78. What they write reads less.
pub fn body_ends_less()
    ensures { BodyEndsLess }
{}

/// Rows of lists on heads of statements, on declarations that become one and on what follows a
/// jump: 67 with every head, 68, also into the head of a `for`, 74, 75 at the end of a body, and 77
/// of `break` and `continue` and of what never runs. What they write reads less.
pub fn head_rows_less()
    ensures { HeadRowsLess }
{}

/// Rows of lists on a `var` and a statement that writes its name first: 69, 70. What they write
/// reads less.
pub fn enter_rows_less()
    ensures { EnterRowsLess }
{}

/// All rows of lists. What they write reads less.
pub fn lists_read_less()
    ensures { ListsReadLess }
{}

/// The row of a declaration whose name is read once, behind names that keep their value: 71 in the
/// statements of a function, of an arrow function, of a module and of a static block. What it
/// writes reads less.
pub fn past_read_less()
    ensures { PastReadLess }
{}

/// The row of a `var` that stands further inside the body that it belongs to and is read once,
/// behind names that keep their value: 71. What it writes reads less.
pub fn past_inside_reads_less()
    ensures { PastInsideReadsLess }
{}

/// Rows of a `var` further inside the body that it belongs to, which nothing mentions, or which is
/// read once: 71, 72. What they write reads less.
pub fn inside_reads_less()
    ensures { InsideReadsLess }
{}

/// All rows that rest on what is known of the bodies of a program. What they write reads less.
pub fn steady_rewrites_read_less()
    ensures { SteadyRewritesReadLess }
{}
