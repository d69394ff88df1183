//! Rows write no form newer than the edition that is asked for, but one that stood there. Each
//! function's contract is a law, and its body is empty.
#![tactic(auto)]

ghost use Rattle.mini_editions.specs.Kept.{RewritesStayWithin, SteadyRewritesStayWithin, StepsStayWithin};

use mini_laws::Rewrites;

/// Any number of steps of a relation hold no form newer than an edition that the tree lacks, where
/// what each writes holds none.
pub fn steps_stay_within<R: Rewrites>()
    ensures { StepsStayWithin R.gives }
{}

/// Each row by which any program is rewritten writes no form newer than the edition that is asked
/// for, and that the node lacks.
pub fn rewrites_stay_within()
    ensures { RewritesStayWithin }
{}

/// Nor does each row that rests on what is known of a body.
pub fn steady_rewrites_stay_within()
    ensures { SteadyRewritesStayWithin }
{}
