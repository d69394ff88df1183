//! What each call writes that is one rewrite of many, and its own rows: what is written is what one
//! of them says, and where nothing is none of them reads the node.

ghost use Rattle.mini_calls.specs.Joined as joined;
ghost use Rattle.mini_calls.specs.OwnRows.{AndOrRow, AnyKey, BinaryRow, BitwiseRow, BothIn, Changing, CoalesceRow, CombinedRow, ComparisonRow, ConditionalRow, DecisionRow, DottedRow, Fitting, HeldIn, HeldKey, IdleHeadRow, LengthRow, LogicalRow, LooseRow, ObjectRow, OperatorRow, Own, OwnIn, PlusRow, SideRow, TargetKey, TypeofRow, UnaryRow, UndefinedRow, Weighed, ZeroIn, deletes, negated};
ghost use Rattle.mini_choices.specs.EvaluateBothSides as both_sides;
ghost use Rattle.mini_choices.specs.FoldChainExpr as chain;
ghost use Rattle.mini_choices.specs.InjectAssignedChaining as assigned_chain;
ghost use Rattle.mini_choices.specs.InjectOptionalChaining as optional_chain;
ghost use Rattle.mini_choices.specs.MinimizeAssignedComparison as assigned_comparison;
ghost use Rattle.mini_choices.specs.MinimizeAssignedNullishComparison as assigned_nullish;
ghost use Rattle.mini_choices.specs.MinimizeConditionalBranches as branches;
ghost use Rattle.mini_choices.specs.MinimizeFirstPart as first_part;
ghost use Rattle.mini_choices.specs.MinimizeHeldBranches as held_branches;
ghost use Rattle.mini_choices.specs.MinimizeLogicalExpression as decided;
ghost use Rattle.mini_choices.specs.MinimizeLogicalSequence as decided_last;
ghost use Rattle.mini_choices.specs.MinimizeNormalAssignmentToCombinedAssignment as combined;
ghost use Rattle.mini_choices.specs.MinimizeNormalAssignmentToCombinedLogicalAssignment as combined_logical;
ghost use Rattle.mini_choices.specs.MinimizeNullishComparison as nullish;
ghost use Rattle.mini_choices.specs.MinimizeObjectTest as object_test;
ghost use Rattle.mini_choices.specs.Names.{chain_written};
ghost use Rattle.mini_choices.specs.OwnRows.{FoldedRow, SharedRow};
ghost use Rattle.mini_choices.specs.SubstituteRotateLogicalExpression as rotated;
ghost use Rattle.mini_fold.specs.FoldKnown.{branch_written, expression_written, folded};
ghost use Rattle.mini_fold.specs.FoldStaticMember.{computed_written, written as length_written};
ghost use Rattle.mini_fold.specs.MinimizeBinary as equality;
ghost use Rattle.mini_fold.specs.Names as name;
ghost use Rattle.mini_fold.specs.RemoveIdleHead as idle_head;
ghost use Rattle.mini_laws.specs.Value.{VariableSet};
ghost use Rattle.mini_logic.specs.LastContinue as last_continue;
ghost use Rattle.mini_logic.specs.MinimizeForStatement as for_statement;
ghost use Rattle.mini_logic.specs.MinimizeIfStatement as if_statement;
ghost use Rattle.mini_logic.specs.UnwrapBlock as unwrap_block;
ghost use Rattle.mini_model.specs.Redex.{Row23};
ghost use Rattle.mini_rows.specs.Branches.{Row78, Row79};
ghost use Rattle.mini_rows.specs.Cases.{OneCaseRow};
ghost use Rattle.mini_rows.specs.DeadCases.{DeadCaseRow};
ghost use Rattle.mini_rows.specs.ChainLinks.{Row64};
ghost use Rattle.mini_rows.specs.Chains.{Row46Chain};
ghost use Rattle.mini_rows.specs.Choices.{Row38, Row38Last, Row39};
ghost use Rattle.mini_rows.specs.Folding.{Row22, Row28, Row49Idle, Row9};
ghost use Rattle.mini_rows.specs.KeyHolders.{Row52Declared, Row52Held, Row53};
ghost use Rattle.mini_rows.specs.Loops.{Row84};
ghost use Rattle.mini_rows.specs.Operands.{Row30};
ghost use Rattle.mini_rows.specs.Operators.{Row2};
ghost use Rattle.mini_rows.specs.Spellings.{Row19, Row36, Row54, Row55Value, Row60Yield, Row65};
ghost use Rattle.mini_rows.specs.Writes.{Row34, Row37Assigned, Row46Assigned, Row46AssignedChain};
ghost use Rattle.mini_switch.specs.DropUnreachableSwitchCases as dead_cases;
ghost use Rattle.mini_switch.specs.MinimizeSwitchStatements as one_case;
ghost use Rattle.mini_syntax.specs.CompressAssignmentTargetProperty.{compressed, is_doubled};
ghost use Rattle.mini_syntax.specs.ConvertToDottedProperties as dotted;
ghost use Rattle.mini_syntax.specs.MinimizeAssignmentToUpdateExpression as stepping;
ghost use Rattle.mini_syntax.specs.SubstituteBindingProperty.{declared_bare, declares_brackets};
ghost use Rattle.mini_syntax.specs.SubstituteBoolean as boolean;
ghost use Rattle.mini_syntax.specs.SubstituteLooseEqualsUndefined as loose;
ghost use Rattle.mini_syntax.specs.SubstitutePropertyKey as key;
ghost use Rattle.mini_syntax.specs.SubstituteSwapBinaryExpressions as swapped;
ghost use Rattle.mini_syntax.specs.SubstituteTemplateLiteral as template;
ghost use Rattle.mini_syntax.specs.SubstituteTypeofUndefined as typeof_undefined;
ghost use Rattle.mini_syntax.specs.SubstituteTypeofValue as typeof_value;
ghost use Rattle.mini_syntax.specs.SubstituteYieldExpression as yielded;

/// The calls of operators: 1 to 9, 16, 17, 27 to 32 and 56.
pub fn operators_are_own_rows()
    ensures typeof_comparison { Own name.typeof_written TypeofRow }
    ensures plus { Own name.plus_written PlusRow }
    ensures loose_boolean { Own name.loose_written Row30 }
    ensures bitwise { OwnIn name.bitwise_written BitwiseRow }
    ensures binary { OwnIn name.binary_written BinaryRow }
    ensures equality { Own equality.written Row28 }
    ensures deletion { Own deletes Row2 }
    ensures unary { Weighed name.unary_written UnaryRow }
    ensures operator { Weighed name.binary_expression_written OperatorRow }
    ensures length { OwnIn length_written Row9 }
    ensures computed_length { OwnIn computed_written LengthRow }
{}

/// The calls of sides, branches and statements that go: 12 to 15, 22 and 49.
pub fn folds_are_own_rows()
    ensures side { OwnIn folded SideRow }
    ensures and_or { OwnIn name.and_or_written AndOrRow }
    ensures coalesce { OwnIn name.coalesce_written CoalesceRow }
    ensures logical { OwnIn name.either_written LogicalRow }
    ensures branch { OwnIn branch_written Row49Idle }
    ensures statement { Own expression_written Row22 }
    ensures head { Own idle_head.written IdleHeadRow }
{}

/// The calls of choices: 10, 11, 13, 15, 21, 34, 35, 37 to 39, 41 to 46, 49, 57 and 64.
pub fn choices_are_own_rows()
    ensures rotated { Own rotated.written Row39 }
    ensures decided { Own decided.written Row38 }
    ensures decided_last { OwnIn decided_last.written Row38Last }
    ensures nullish { Own nullish.written ComparisonRow }
    ensures object { Own object_test.written ObjectRow }
    ensures both { Weighed both_sides.written BothIn }
    ensures combined { Own combined.written CombinedRow }
    ensures first { Weighed first_part.written ZeroIn }
    ensures branches { Weighed branches.written SharedRow }
    ensures held { Weighed held_branches.written HeldIn }
    ensures optional { OwnIn optional_chain.written Row46Chain }
    ensures chain { Weighed chain.written FoldedRow }
    ensures link { Own chain_written Row64 }
    ensures combined_logical { (W : VariableSet) → Own (combined_logical.written W) (Row34 W) }
    ensures nullish_assigned { (W : VariableSet) → Own (assigned_nullish.written W) (Row37Assigned W) }
    ensures assigned { (W : VariableSet) → Own (assigned_comparison.written W) (Row46Assigned W) }
    ensures assigned_chain { (W : VariableSet) → OwnIn (assigned_chain.written W) (Row46AssignedChain W) }
{}

/// The two calls that join those of several crates: 37 and 38; 40 to 49, and 26 where only the
/// truth is asked.
pub fn joined_calls_are_own_rows()
    ensures logical { (W : VariableSet) → OwnIn (joined.logical_written W) (DecisionRow W) }
    ensures conditional { (W : VariableSet) → Weighed (joined.conditional_written W) (ConditionalRow W) }
{}

/// The calls of spellings: 19, 33, 54, 55, 58, 60 of `yield`, and 65.
pub fn spellings_are_own_rows()
    ensures boolean { Own boolean.written Row65 }
    ensures dotted { Own dotted.written DottedRow }
    ensures loose { Own loose.written LooseRow }
    ensures swapped { Own swapped.written Row54 }
    ensures undefined { Own typeof_undefined.written UndefinedRow }
    ensures value { Own typeof_value.written Row55Value }
    ensures yielded { Own yielded.written Row60Yield }
    ensures template { Own template.written Row19 }
    ensures stepped { Own stepping.written Row36 }
{}

/// The calls of keys of patterns and classes: 52 and 53.
pub fn keys_are_own_rows()
    ensures spelled { Changing key.is_spelled key.spelled Row52Held }
    ensures held { Changing key.is_held_written key.held_written HeldKey }
    ensures any { Changing key.is_key_written key.key_written AnyKey }
    ensures target { Changing key.is_target_written key.target_written TargetKey }
    ensures declared { Changing declares_brackets declared_bare Row52Declared }
    ensures doubled { Changing is_doubled compressed Row53 }
{}

/// The calls of negations, of `if`, of branches, bodies and `switch`: 23, 78 of loops, 79 to 84.
pub fn bodies_are_own_rows()
    ensures negation { Weighed negated Row23 }
    ensures choice { Fitting if_statement.written if_statement.IsRow }
    ensures block { Own unwrap_block.written Row79 }
    ensures last { Own last_continue.written Row78 }
    ensures leaving { Own for_statement.written Row84 }
    ensures one_case { Own one_case.written OneCaseRow }
    ensures dead_cases { Own dead_cases.written DeadCaseRow }
{}
