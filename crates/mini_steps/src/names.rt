//! Rewrites by their names, and lists of steps.

use mini_model::{Numbers, OwnedList};

/// A rewrite, by the name of its call (`PeepholeOptimizations` of `mini_calls`).
#[derive(Clone, Copy)]
pub enum RuleName {
    /// `minimize_unary`: 23.
    MinimizeUnary,
    /// `minimize_expression_in_boolean_context`: 24 to 26, 47 and 48.
    MinimizeExpressionInBooleanContext,
    /// `minimize_binary`: 27 to 29.
    MinimizeBinary,
    /// `minimize_loose_boolean`: 30.
    MinimizeLooseBoolean,
    /// `minimize_bitwise_binary_expr`: 31 and 32.
    MinimizeBitwiseBinaryExpr,
    /// `minimize_normal_assignment_to_combined_logical_assignment`: 34.
    MinimizeNormalAssignmentToCombinedLogicalAssignment,
    /// `minimize_normal_assignment_to_combined_assignment`: 35.
    MinimizeNormalAssignmentToCombinedAssignment,
    /// `minimize_assignment_to_update_expression`: 36.
    MinimizeAssignmentToUpdateExpression,
    /// `minimize_logical_expression`: 37 and 38.
    MinimizeLogicalExpression,
    /// `minimize_conditional_expression`: 40 to 49, and 26 where only the truth is asked.
    MinimizeConditionalExpression,
    /// `convert_to_dotted_properties`: 33.
    ConvertToDottedProperties,
    /// `fold_unary_expr`: 1 and 2.
    FoldUnaryExpr,
    /// `fold_static_member_expr`: 9.
    FoldStaticMemberExpr,
    /// `fold_logical_expr`: 12 to 15.
    FoldLogicalExpr,
    /// `try_fold_and_or`: 12 to 14.
    TryFoldAndOr,
    /// `try_fold_coalesce`: 15.
    TryFoldCoalesce,
    /// `fold_chain_expr`: 10, 11 and 64.
    FoldChainExpr,
    /// `fold_binary_expr`: 3 to 8.
    FoldBinaryExpr,
    /// `fold_sequence_expression`: 20 and 21.
    FoldSequenceExpression,
    /// `fold_binary_typeof_comparison`: 16 and 17.
    FoldBinaryTypeofComparison,
    /// `substitute_template_literal`: 19.
    SubstituteTemplateLiteral,
    /// `substitute_typeof_undefined`: 55.
    SubstituteTypeofUndefined,
    /// `substitute_unary_plus`: 56.
    SubstituteUnaryPlus,
    /// `substitute_rotate_logical_expression`: 39.
    SubstituteRotateLogicalExpression,
    /// `substitute_is_object_and_not_null`: 57.
    SubstituteIsObjectAndNotNull,
    /// `substitute_loose_equals_undefined`: 58.
    SubstituteLooseEqualsUndefined,
    /// `substitute_boolean`: 65.
    SubstituteBoolean,
    /// `substitute_swap_binary_expressions`: 54.
    SubstituteSwapBinaryExpressions,
    /// `substitute_arrow_expression`: 59.
    SubstituteArrowExpression,
    /// `substitute_object_property`: 51, and 52 of the properties of an object literal.
    SubstituteObjectProperty,
    /// `substitute_yield_expression`: 60 of `yield`.
    SubstituteYieldExpression,
    /// `substitute_assignment_target_property_property`: 52 of a pattern that is assigned to.
    SubstituteAssignmentTargetPropertyProperty,
    /// `substitute_assignment_target_property`: 53, or else 52.
    SubstituteAssignmentTargetProperty,
    /// `try_compress_assignment_target_property`: 53.
    TryCompressAssignmentTargetProperty,
    /// `substitute_binding_property`: 52 of a declarator or a `catch`.
    SubstituteBindingProperty,
    /// `substitute_method_definition`: 52 of a method.
    SubstituteMethodDefinition,
    /// `substitute_property_definition`: 52 of a field.
    SubstitutePropertyDefinition,
    /// `substitute_catch_clause`: 63.
    SubstituteCatchClause,
    /// `de_morgan_for_void_expr`: 50 of a statement.
    DeMorganForVoidExpr,
    /// `substitute_return_statement`: 60 of `return`.
    SubstituteReturnStatement,
    /// `try_minimize_if`: 82 and 83.
    TryMinimizeIf,
    /// `drop_unreachable_switch_cases`: 81.
    DropUnreachableSwitchCases,
    /// `unwrap_block`: 79 of a branch or a body.
    UnwrapBlock,
    /// `minimize_for_statement`: 84.
    MinimizeForStatement,
    /// `minimize_statements`: 66 to 70 and 73 to 79, of the program, the block, the static block or
    /// the case of a `switch` that holds the list.
    MinimizeStatements,
}

/// A rewrite of the node to which a path leads from the program.
#[derive(Drop)]
pub struct Step {
    /// The index of the child to go to, at each node from the program on: of the nodes of ESTree
    /// below a node, list by list in its fields' order, without parts that are absent.
    pub at: Numbers,
    /// The rewrite.
    pub rule: RuleName,
}

/// Steps in the order in which they are taken.
pub type StepList = OwnedList<Step>;
