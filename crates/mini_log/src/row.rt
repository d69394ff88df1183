/// A row of a log, by its number among the rewrites.
#[derive(Clone, Copy)]
pub enum LogRow {
    /// `fold_unary_expr`.
    Row1,
    /// `fold_binary_expr`.
    Row3,
    /// `fold_binary_expr`: an empty text beside a text.
    Row7,
    /// `try_fold_and_or`: the right side is never evaluated.
    Row12,
    /// `try_fold_and_or`: the right side always is.
    Row13,
    /// `try_fold_coalesce`.
    Row15,
    /// `substitute_template_literal`.
    Row19,
    /// `minimize_unary`.
    Row23,
    /// `convert_to_dotted_properties`.
    Row33,
    /// `minimize_normal_assignment_to_combined_logical_assignment`.
    Row34,
    /// `substitute_rotate_logical_expression`.
    Row39,
    /// `minimize_conditional_expression`: the test turns and the branches swap.
    Row40,
    /// `minimize_conditional_expression`: a branch is the test.
    Row41,
    /// `minimize_conditional_expression`: a branch stands in two places.
    Row42,
    /// `minimize_conditional_expression`: both branches are equal.
    Row49,
    /// `substitute_swap_binary_expressions`.
    Row54,
    /// `substitute_typeof_undefined`.
    Row55,
    /// `substitute_loose_equals_undefined`.
    Row58,
    /// `substitute_return_statement` and `substitute_yield_expression`.
    Row60,
    /// `substitute_variable_declaration`.
    Row61,
    /// `substitute_boolean`.
    Row65,
    /// `minimize_statements`: empty and neighbouring expression statements.
    Row66,
    /// `minimize_statements` and `unwrap_block`.
    Row79,
    /// `try_minimize_if`.
    Row82,
}
