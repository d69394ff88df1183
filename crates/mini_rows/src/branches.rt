//! The rows of `if`, of blocks as branches and as bodies of loops, and of `return` without a value.

ghost use Rattle.mini_laws.specs.Rewritten.{MeansSame};
ghost use Rattle.mini_laws.specs.Weights.{Lightens};
ghost use Rattle.std.specs.Prelude.{Bool};
ghost use Rattle.mini_kept.specs.Lawful.{Lawful};
ghost use Rattle.mini_kept.specs.Loosely.{LawfulLoosely};
ghost use Rattle.mini_model.specs.declared.shape.Shape.{Shape};
ghost use Rattle.mini_rows.specs.Arranged.{WhereFixed};
ghost use Rattle.mini_rows.specs.Branches.{BranchContracts, BranchLighter};
ghost use Rattle.mini_rows.specs.Cases.{NeverBreaksOut};

/// What each row of branches writes means the same in every demand that fits its place, and is read
/// alike.
pub fn branches_same()
    ensures { MeansSame BranchContracts }
{}

/// What each row of branches writes is lighter wherever the node stands, so no weight is asked
/// before it is applied, and it makes the whole lighter.
pub fn branches_lighten()
    ensures lighter { BranchLighter }
    ensures anywhere { Lightens BranchContracts }
{}

/// What each row of branches writes keeps all that a program has to keep, where what a write of
/// each variable does stays; and else all but what is said of constants that are declared in what
/// goes.
pub fn branches_are_lawful()
    ensures lawful { Lawful (WhereFixed BranchContracts) }
    ensures loosely { (K : Shape → Bool) → LawfulLoosely K BranchContracts }
{}

/// No run of a tree ends with a `break` without a label where none stands in it but in loops, in
/// cases and in functions.
pub fn never_breaks_out()
    ensures { NeverBreaksOut }
{}
