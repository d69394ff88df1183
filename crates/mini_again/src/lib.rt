//! What is left to rewrite in a program doesn't depend on its symbols and on the numbers of its
//! nodes. Each function's contract is a law, and its body is empty.
#![tactic(auto)]

ghost use Rattle.mini_again.specs.Carrying.{CarriedIsAgain, CarriedLeavesNothing};
ghost use Rattle.mini_again.specs.Families.{BodiesAgain, BodyRewritesSurvive, NothingIsLeft, NothingIsLeftInBodies, RewritesSurvive, ToldSurvives, WritableSurvives};

/// What a row writes for a node it writes for the node that is read again, with other symbols and
/// other numbers, but for rows that rest on what is known of the body around.
pub fn rewrites_survive()
    ensures { RewritesSurvive }
{}

/// Nothing is left to rewrite in a program by rows that rest on no body, if nothing is left in the
/// program that is read again.
pub fn nothing_is_left()
    ensures { NothingIsLeft }
{}

/// What a row that rests on what is known of the body around writes for a node, it writes for the
/// node that is read again, over what is known of the body there.
pub fn body_rewrites_survive()
    ensures { BodyRewritesSurvive }
{}

/// Nothing is left to rewrite in a program by rows that rest on what is known of the body around,
/// if nothing is left in the program that is read again.
pub fn nothing_is_left_in_bodies()
    ensures { NothingIsLeftInBodies }
{}

/// A program lets a variable be written where the program that is read again lets the other one be.
pub fn writable_survives()
    ensures { WritableSurvives }
{}

/// The bodies of a program that is read again are its bodies, with other numbers and read again.
pub fn bodies_survive()
    ensures { BodiesAgain }
{}

/// What is shared with a body, foreign to it, written and lexical in a program is so in the program
/// that is read again, by other symbols and other numbers, where both are told apart.
pub fn told_survives()
    ensures { ToldSurvives }
{}

/// What carries a program in lists of numbers and of symbols without repeats reads it again:
/// nothing is left to rewrite in the program if nothing is left in what is carried.
pub fn carried_is_again()
    ensures again { CarriedIsAgain }
    ensures settled { CarriedLeavesNothing }
{}
