//! What passes of any rule keep.

ghost use Rattle.mini_peephole.specs.AnyPasses.{LessIsKnown, PassesFaithful, PlainFaithful, StepsFaithful, ToldFaithful};

use mini_laws::Rewrites;
use mini_tree::{Context, Rule};

/// Passes of a rule give a faithful answer for a program that is read and resolved: its names,
/// numbers, symbols, frames and bodies, and its weight. Where they settled, the rule has nothing
/// left to do. Its steps have to be lawful, under any options and over any program that its context
/// has looked at (`mini_kept::rooted_rewriting_keeps`), be it loosely or by facts of the bodies of
/// that program.
///
/// Those facts have to be facts of the last program too: clause `faithful` asks this of passes, and
/// clause `steps` of each step. A rule that rests on no facts is asked nothing of them, and its
/// answer is faithful whatever is known of bodies: clause `plain`. One may rest on all facts that
/// are told, if they stay so after each step (`known_stays`): clause `told`.
pub fn lawful_passes_are_faithful<C: Context, R: Rule<C>>()
    ensures faithful { PassesFaithful R.gives R.rests }
    ensures steps { StepsFaithful R.gives R.rests }
    ensures plain { PlainFaithful R.gives R.rests }
    ensures told { ToldFaithful R.gives R.rests }
{}

/// What is known of the bodies of a program, as that no answer of the outside changes some names
/// while one runs, stays so after each step of a lawful relation that reads less
/// (`mini_shrink::reads_less_shrinks`).
pub fn known_stays<R: Rewrites>()
    ensures { LessIsKnown R.gives }
{}
