//! Rewrites of choices, of optional chains, and of names that can be written.

ghost use Rattle.mini_choices.specs.Assigning.{is_same_name, is_same_target};
ghost use Rattle.mini_choices.specs.EvaluateBothSides.{written as written_of_evaluate_both_sides};
ghost use Rattle.mini_choices.specs.FoldChainExpr.{written as written_of_fold_chain_expr};
ghost use Rattle.mini_choices.specs.InjectAssignedChaining.{written as written_of_inject_assigned_chaining};
ghost use Rattle.mini_choices.specs.InjectOptionalChaining.{written as written_of_inject_optional_chaining};
ghost use Rattle.mini_choices.specs.JoinWithLeftAssociativeOp.{joined_left};
ghost use Rattle.mini_choices.specs.MinimizeAssignedComparison.{written as written_of_minimize_assigned_comparison};
ghost use Rattle.mini_choices.specs.MinimizeAssignedNullishComparison.{written as written_of_minimize_assigned_nullish_comparison};
ghost use Rattle.mini_choices.specs.MinimizeConditionalBranches.{written as written_of_minimize_conditional_branches};
ghost use Rattle.mini_choices.specs.MinimizeFirstPart.{written as written_of_minimize_first_part};
ghost use Rattle.mini_choices.specs.MinimizeHeldBranches.{written as written_of_minimize_held_branches};
ghost use Rattle.mini_choices.specs.MinimizeNormalAssignmentToCombinedAssignment.{written as written_of_minimize_normal_assignment_to_combined_assignment};
ghost use Rattle.mini_choices.specs.MinimizeNormalAssignmentToCombinedLogicalAssignment.{marked, written as written_of_minimize_normal_assignment_to_combined_logical_assignment};
ghost use Rattle.mini_choices.specs.MinimizeLogicalSequence.{written as written_of_minimize_logical_sequence};
ghost use Rattle.mini_choices.specs.MinimizeNullishComparison.{written as written_of_minimize_nullish_comparison};
ghost use Rattle.mini_choices.specs.MinimizeObjectTest.{written as written_of_minimize_object_test};
ghost use Rattle.mini_choices.specs.Names as name;
ghost use Rattle.mini_choices.specs.SubstituteRotateLogicalExpression.{written as written_of_substitute_rotate_logical_expression};
ghost use Rattle.mini_model.specs.Tree.{node as tree};
ghost use Rattle.mini_rows.specs.Spellings.{void_zero};
ghost use Rattle.std.specs.Option.{option_copied};
ghost use Rattle.std.specs.Prelude.{IfOk, OnOk, if◌then◌else◌, is_some, unwrap_or, ◌≡◌};

use crate::PeepholeOptimizations;
use mini_context::Scopes;
use mini_tree::{LogicalOperator, Node, OutOfMemory, Seat};
use std::alloc::Global;

impl PeepholeOptimizations {
    /// `x || (a, x = b)` becomes `x ||= (a, b)`, and so of `&&` and `??`, where an assignment has
    /// no parentheses in the seat that the operator hasn't. The answer says whether it did; the
    /// only error is that memory runs out, and then the expression is fit only to be dropped.
    pub fn minimize_logical_sequence(
        &self,
        alloc: Global,
        node: &mut Node,
        seat: Seat,
    ) -> Result<bool, OutOfMemory>
        ensures tree { OnOk result (node.new ≡ unwrap_or (written_of_minimize_logical_sequence seat node.old) node.old) }
        ensures said { IfOk result (λ changed. changed ≡ is_some (written_of_minimize_logical_sequence seat node.old)) }
    {
        mini_choices::minimize_logical_sequence(alloc, node, seat)
    }

    /// `x ? x : b` becomes `x || b`, `x ? b : x` becomes `x && b`, `a ? x = b : x = c` becomes
    /// `x = a ? b : c`, and so of `+=`, `x == null ? b : x` becomes `x ?? b`, and
    /// `a ? f(p, r) : f(q, r)` becomes `f(a ? p : q, r)`. The answer says whether it did; the only
    /// error is that memory runs out, and then the expression is fit only to be dropped.
    pub fn minimize_conditional_branches(
        &self,
        alloc: Global,
        node: &mut Node,
        seat: Seat,
    ) -> Result<bool, OutOfMemory>
        ensures tree { OnOk result (node.new ≡ unwrap_or (written_of_minimize_conditional_branches seat node.old) node.old) }
        ensures said { IfOk result (λ changed. changed ≡ is_some (written_of_minimize_conditional_branches seat node.old)) }
    {
        mini_choices::minimize_conditional_branches(alloc, node, seat)
    }

    /// A branch that stands in two places of a conditional is written once, where that is lighter:
    /// `a ? b ? c : d : d` becomes `a && b ? c : d`, `a ? b || c : c` becomes `a && b || c`,
    /// `a ? (b, c) : c` becomes `a && b, c`, the same of the alternate with `||`, and `a ? b : b`
    /// becomes `a, b`. The answer says whether it did; the only error is that memory runs out, and
    /// then the expression is fit only to be dropped.
    pub fn minimize_held_branches(
        &self,
        alloc: Global,
        node: &mut Node,
        seat: Seat,
    ) -> Result<bool, OutOfMemory>
        ensures tree { OnOk result (node.new ≡ unwrap_or (written_of_minimize_held_branches seat node.old) node.old) }
        ensures said { IfOk result (λ changed. changed ≡ is_some (written_of_minimize_held_branches seat node.old)) }
    {
        mini_choices::minimize_held_branches(alloc, node, seat)
    }

    /// `x == null ? void 0 : x.m` becomes `x?.m`, and so do other members and calls over x, and
    /// `x != null ? x.m : void 0`; where a scope declares x, and it isn't named `eval`. As a callee
    /// and under `delete` the chain stands behind a `0`, so that its value is read. The answer says
    /// whether it did; the only error is that memory runs out, and then the expression is fit only
    /// to be dropped.
    pub fn inject_optional_chaining(
        &self,
        alloc: Global,
        node: &mut Node,
        seat: Seat,
    ) -> Result<bool, OutOfMemory>
        ensures tree { OnOk result (node.new ≡ unwrap_or (written_of_inject_optional_chaining seat node.old) node.old) }
        ensures said { IfOk result (λ changed. changed ≡ is_some (written_of_inject_optional_chaining seat node.old)) }
    {
        mini_choices::inject_optional_chaining(alloc, node, seat)
    }

    /// `x = x + b` becomes `x += b`, and so of the other operators of numbers. The answer says
    /// whether it did; the only error is that memory runs out, and then the expression is fit only
    /// to be dropped.
    pub fn minimize_normal_assignment_to_combined_assignment(
        &self,
        alloc: Global,
        node: &mut Node,
    ) -> Result<bool, OutOfMemory>
        ensures tree { OnOk result (node.new ≡ unwrap_or (written_of_minimize_normal_assignment_to_combined_assignment node.old) node.old) }
        ensures said { IfOk result (λ changed. changed ≡ is_some (written_of_minimize_normal_assignment_to_combined_assignment node.old)) }
    {
        mini_choices::minimize_normal_assignment_to_combined_assignment(alloc, node)
    }

    /// `x = x || b` becomes `x ||= b`, and so of `&&` and `??`, where the program mentions x as a
    /// name that can be written. The answer says whether it did; the only error is that memory runs
    /// out, and then the expression is fit only to be dropped.
    pub fn minimize_normal_assignment_to_combined_logical_assignment(
        &self,
        alloc: Global,
        node: &mut Node,
        scopes: &Scopes,
    ) -> Result<bool, OutOfMemory>
        ensures tree { OnOk result (node.new ≡ unwrap_or (written_of_minimize_normal_assignment_to_combined_logical_assignment (marked scopes.now) node.old) node.old) }
        ensures said { IfOk result (λ changed. changed ≡ is_some (written_of_minimize_normal_assignment_to_combined_logical_assignment (marked scopes.now) node.old)) }
    {
        mini_choices::minimize_normal_assignment_to_combined_logical_assignment(alloc, node, scopes)
    }

    /// `x === null || x === undefined` becomes `x == null`, and `x !== null && x !== undefined`
    /// becomes `x != null`, in any order, and after an equal operator to the left. The answer says
    /// whether it did; the only error is that memory runs out, and then the expression is fit only
    /// to be dropped.
    pub fn minimize_nullish_comparison(
        &self,
        alloc: Global,
        node: &mut Node,
    ) -> Result<bool, OutOfMemory>
        ensures tree { OnOk result (node.new ≡ unwrap_or (written_of_minimize_nullish_comparison node.old) node.old) }
        ensures said { IfOk result (λ changed. changed ≡ is_some (written_of_minimize_nullish_comparison node.old)) }
    {
        mini_choices::minimize_nullish_comparison(alloc, node)
    }

    /// `(x = a) == null ? b : x` becomes `(x = a) ?? b`, and so does `(x = a) != null ? x : b`,
    /// where the program mentions x as a name that can be written. The answer says whether it did;
    /// the only error is that memory runs out, and then the expression is fit only to be dropped.
    pub fn minimize_assigned_comparison(
        &self,
        alloc: Global,
        node: &mut Node,
        scopes: &Scopes,
    ) -> Result<bool, OutOfMemory>
        ensures tree { OnOk result (node.new ≡ unwrap_or (written_of_minimize_assigned_comparison (marked scopes.now) node.old) node.old) }
        ensures said { IfOk result (λ changed. changed ≡ is_some (written_of_minimize_assigned_comparison (marked scopes.now) node.old)) }
    {
        mini_choices::minimize_assigned_comparison(alloc, node, scopes)
    }

    /// `typeof x == "object" && x !== null` becomes `typeof x == "object" && !!x`, and
    /// `typeof x != "object" || x === null` becomes `typeof x != "object" || !x`, in any order, and
    /// after an equal operator to the left. The answer says whether it did; the only error is that
    /// memory runs out, and then the expression is fit only to be dropped.
    pub fn substitute_is_object_and_not_null(
        &self,
        alloc: Global,
        node: &mut Node,
    ) -> Result<bool, OutOfMemory>
        ensures tree { OnOk result (node.new ≡ unwrap_or (written_of_minimize_object_test node.old) node.old) }
        ensures said { IfOk result (λ changed. changed ≡ is_some (written_of_minimize_object_test node.old)) }
    {
        mini_choices::substitute_is_object_and_not_null(alloc, node)
    }

    /// `a && (b && c)` becomes `a && b && c`, and so of `||` and `??`, however many operands stand
    /// on the right. The answer says whether it did; the only error is that memory runs out, and
    /// then the expression is fit only to be dropped.
    pub fn substitute_rotate_logical_expression(
        &self,
        alloc: Global,
        node: &mut Node,
    ) -> Result<bool, OutOfMemory>
        ensures tree { OnOk result (node.new ≡ unwrap_or (written_of_substitute_rotate_logical_expression node.old) node.old) }
        ensures said { IfOk result (λ changed. changed ≡ is_some (written_of_substitute_rotate_logical_expression node.old)) }
    {
        mini_choices::substitute_rotate_logical_expression(alloc, node)
    }

    /// `(x = a) === null || x === undefined` becomes `(x = a) == null`, and
    /// `(x = a) !== null && x !== undefined` becomes `(x = a) != null`, in any order, and after an
    /// equal operator to the left, where the program mentions x as a name that can be written. The
    /// answer says whether it did; the only error is that memory runs out, and then the expression
    /// is fit only to be dropped.
    pub fn minimize_assigned_nullish_comparison(
        &self,
        alloc: Global,
        node: &mut Node,
        scopes: &Scopes,
    ) -> Result<bool, OutOfMemory>
        ensures tree { OnOk result (node.new ≡ unwrap_or (written_of_minimize_assigned_nullish_comparison (marked scopes.now) node.old) node.old) }
        ensures said { IfOk result (λ changed. changed ≡ is_some (written_of_minimize_assigned_nullish_comparison (marked scopes.now) node.old)) }
    {
        mini_choices::minimize_assigned_nullish_comparison(alloc, node, scopes)
    }

    /// A logical expression whose left side is known to let the right one be evaluated becomes both
    /// in order, where that is lighter: `(x = []) && b` becomes `x = [], b`, `void f() || b`
    /// becomes `void f(), b`, and `void f() ?? b` the same. The answer says whether it did; the
    /// only error is that memory runs out, and then the expression is fit only to be dropped.
    pub fn evaluate_both_sides(
        &self,
        alloc: Global,
        node: &mut Node,
        seat: Seat,
    ) -> Result<bool, OutOfMemory>
        ensures tree { OnOk result (node.new ≡ unwrap_or (written_of_evaluate_both_sides seat node.old) node.old) }
        ensures said { IfOk result (λ changed. changed ≡ is_some (written_of_evaluate_both_sides seat node.old)) }
    {
        mini_choices::evaluate_both_sides(alloc, node, seat)
    }

    /// Where a sequence is of two parts, of which the first has no effect, a literal 0 stands for
    /// it, if that is lighter: `(null, a.b)()` becomes `(0, a.b)()`, where the last part would be
    /// read as a reference alone. The answer says whether it did; the only error is that memory
    /// runs out, and then the expression is fit only to be dropped.
    pub fn minimize_first_part(
        &self,
        alloc: Global,
        node: &mut Node,
        seat: Seat,
    ) -> Result<bool, OutOfMemory>
        ensures tree { OnOk result (node.new ≡ unwrap_or (written_of_minimize_first_part seat node.old) node.old) }
        ensures said { IfOk result (λ changed. changed ≡ is_some (written_of_minimize_first_part seat node.old)) }
    {
        mini_choices::minimize_first_part(alloc, node, seat)
    }

    /// `(x = a) == null ? void 0 : x.m` becomes `(x = a)?.m`, and so do other members and calls
    /// over x, and `(x = a) != null ? x.m : void 0`, where the program mentions x as a name that
    /// can be written, and it isn't named `eval`. The answer says whether it did; the only error is
    /// that memory runs out, and then the expression is fit only to be dropped.
    pub fn inject_assigned_chaining(
        &self,
        alloc: Global,
        node: &mut Node,
        seat: Seat,
        scopes: &Scopes,
    ) -> Result<bool, OutOfMemory>
        ensures tree { OnOk result (node.new ≡ unwrap_or (written_of_inject_assigned_chaining (marked scopes.now) seat node.old) node.old) }
        ensures said { IfOk result (λ changed. changed ≡ is_some (written_of_inject_assigned_chaining (marked scopes.now) seat node.old)) }
    {
        mini_choices::inject_assigned_chaining(alloc, node, seat, scopes)
    }

    /// `a || b`, where b may be of `||` itself, and so of `&&` and `??`: of `a` and `b || c` it
    /// makes `a || b || c`. It means what the operator over the two does, and its right operand is
    /// not of the operator (`left_joins_mean_the_same`). The only error is that memory runs out.
    pub fn join_with_left_associative_op(
        &self,
        alloc: Global,
        operator: LogicalOperator,
        first: Node,
        second: Node,
    ) -> Result<Node, OutOfMemory>
        ensures { IfOk result (λ made. made ≡ joined_left operator first second) }
    {
        mini_choices::join_with_left_associative_op(alloc, operator, first, second)
    }

    /// `null?.a` becomes `void 0`, where what stands before `?.` is known to be null or undefined,
    /// and where it has an effect, it stays: `(void f())?.a.b.c.d` becomes `void f(), void 0`, each
    /// where it is lighter; `(a?.b)?.c` becomes `a?.b?.c`; and `[1]?.length` becomes `[1].length`,
    /// where what stands before `?.` is known to be neither; whatever links stand outside. The
    /// answer says whether it did; the only error is that memory runs out, and then the expression
    /// is fit only to be dropped.
    pub fn fold_chain_expr(
        &self,
        alloc: Global,
        node: &mut Node,
        seat: Seat,
    ) -> Result<bool, OutOfMemory>
        ensures tree { OnOk result (node.new ≡ unwrap_or (written_of_fold_chain_expr seat node.old) node.old) }
        ensures said { IfOk result (λ changed. changed ≡ is_some (written_of_fold_chain_expr seat node.old)) }
    {
        mini_choices::fold_chain_expr(alloc, node, seat)
    }

    /// `(a?.b)?.c` becomes `a?.b?.c`, whatever links stand outside. The answer says whether it did;
    /// the only error is that memory runs out, and then the expression is fit only to be dropped.
    pub fn substitute_chain_expression(
        &self,
        alloc: Global,
        node: &mut Node,
    ) -> Result<bool, OutOfMemory>
        ensures tree { OnOk result (node.new ≡ unwrap_or (name.chain_written node.old) node.old) }
        ensures said { IfOk result (λ changed. changed ≡ is_some (name.chain_written node.old)) }
    {
        mini_choices::substitute_chain_expression(alloc, node)
    }

    /// Where an expression is a member, a call or more of these over the name, which a scope
    /// declares, and which isn't `eval`, the value goes into the place of the name, the first link
    /// becomes optional, and the expression a chain: of `x.m(b)` and the value `x = a` it makes
    /// `(x = a)?.m(b)`, and leaves `void 0` as the value. Else nothing changes. The answer says
    /// whether it did; the only error is that memory runs out, and then both are fit only to be
    /// dropped.
    pub fn inject_optional_chaining_if_matched(
        &self,
        alloc: Global,
        target: &Node,
        value: &mut Node,
        expression: &mut Node,
    ) -> Result<bool, OutOfMemory>
        ensures tree { OnOk result (expression.new ≡ name.injected target.now value.old expression.old) }
        ensures left { OnOk result (value.new ≡ (if name.reads_target target.now expression.old then void_zero else value.old)) }
        ensures said { IfOk result (λ changed. changed ≡ name.reads_target target.now expression.old) }
    {
        mini_choices::inject_optional_chaining_if_matched(alloc, target, value, expression)
    }

    /// The name, where an expression is one, and the one that it assigns to, where it is an
    /// assignment by `=` to a name: x of `x` and of `x = a`. None of everything else.
    pub fn extract_id_or_assign_to_id<'a>(&self, expression: &'a Node) -> Option<&'a Node>
        ensures { option_copied result ≡ name.assigned_name expression.now }
    {
        mini_choices::extract_id_or_assign_to_id(expression)
    }

    /// Whether an expression reads what is assigned to, and this is a name, or a member of a name
    /// with a key that is written out, so that `x.k = x.k + b` may become `x.k += b`.
    pub fn has_no_side_effect_for_evaluation_same_target(
        &self,
        target: &Node,
        expression: &Node,
    ) -> bool
        ensures { result ≡ is_same_target target.now expression.now }
    {
        mini_choices::has_no_side_effect_for_evaluation_same_target(target, expression)
    }

    /// Whether what is read is the name that is assigned to, so that `x || (x = b)` may become
    /// `x ||= b`.
    pub fn can_compress_to_logical_assignment(&self, target: &Node, read: &Node) -> bool
        ensures { result ≡ is_same_name target.now read.now }
    {
        mini_choices::can_compress_to_logical_assignment(target, read)
    }
}
