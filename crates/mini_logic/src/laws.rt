//! What the rules make, and the rows.

ghost use Rattle.mini_logic.specs.MinimizeConditionalExpression.{RowLighter as ConditionalLighter};
ghost use Rattle.mini_logic.specs.MinimizeIfStatement.{RowLighter as IfLighter};
ghost use Rattle.mini_logic.specs.Joined.{GivesContract, ContractsAreGiven, ReachesContract, LogicContracts, RestsSettle, RestsEverywhere};
ghost use Rattle.mini_logic.specs.DeMorganForVoidExpr as de_morgan;
ghost use Rattle.mini_logic.specs.MinimizeExpressionInBooleanContext as boolean;
ghost use Rattle.mini_logic.specs.MinimizeNegation as negation;
ghost use Rattle.mini_logic.specs.NegationsSame.{LighterSame, LightestSame};
ghost use Rattle.mini_kept.specs.Lawful.{Lawful};

/// What rows 40, 82 and 83 write is lighter wherever the node stands, so no weight is asked before
/// they are applied.
pub fn always_lighter()
    ensures conditional { ConditionalLighter }
    ensures when { IfLighter }
{}

/// The rules one after another make exactly what the rows contract, so that steps of the rules are
/// rewrites; and where each rule has nothing to do nothing is to be rewritten, as far as the weight
/// fits 64 bits. What the rows contract is lawful.
pub fn rules_are_rows()
    ensures gives { GivesContract }
    ensures given { ContractsAreGiven }
    ensures reaches { ReachesContract }
    ensures settled { RestsSettle }
    ensures everywhere { RestsEverywhere }
    ensures lawful { Lawful LogicContracts }
{}

/// What is written where only the truth is asked, or where a branch is a boolean, is what a row
/// says, and lighter; where nothing is written no row makes the expression lighter, as far as its
/// weight fits 64 bits.
pub fn booleans_are_rows()
    ensures written { boolean.WrittenIsRow }
    ensures unwritten { boolean.UnwrittenRests }
{}

/// What is written by De Morgan's laws for an expression statement is what the row says, and
/// lighter; where nothing is written the row makes nothing lighter of it, as far as its weight fits
/// 64 bits.
pub fn de_morgan_is_row()
    ensures written { de_morgan.WrittenIsRow }
    ensures unwritten { de_morgan.UnwrittenRests }
{}

/// What is written for a negation that is read inside its operand is what the row says, and
/// lighter; where nothing is written the row makes nothing lighter of it, as far as its weight fits
/// 64 bits.
pub fn negations_are_rows()
    ensures written { negation.WrittenIsRow }
    ensures unwritten { negation.UnwrittenRests }
{}

/// The lighter of the negation of an expression and of `!` over it means what `!` over it does, in
/// every seat, and so does the lightest negation.
pub fn negations_mean_the_same()
    ensures lighter { LighterSame }
    ensures lightest { LightestSame }
{}
