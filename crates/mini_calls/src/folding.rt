//! Rewrites of what is known of an expression: of constants, operands, sequences and templates.

ghost use Rattle.mini_fold.specs.FoldConstants.{written};
ghost use Rattle.mini_fold.specs.FoldKnown.{branch_written, expression_written, folded, statement_written, written as written_of_fold_known};
ghost use Rattle.mini_fold.specs.FoldOperands as operand;
ghost use Rattle.mini_fold.specs.FoldOperators as tree;
ghost use Rattle.mini_fold.specs.FoldSequences.{Gives, Rests};
ghost use Rattle.mini_fold.specs.FoldStaticMember.{computed_written, written as written_of_fold_static_member};
ghost use Rattle.mini_fold.specs.FoldTemplates.{Gives as GivesOfFoldTemplates, PartsRest, Rests as RestsOfFoldTemplates};
ghost use Rattle.mini_fold.specs.MinimizeBinary.{written as written_of_minimize_binary};
ghost use Rattle.mini_fold.specs.Names as name;
ghost use Rattle.mini_fold.specs.RemoveIdleHead as row;
ghost use Rattle.mini_terms.specs.Values.{value, value_in};
ghost use Rattle.mini_node.specs.Children.{part};
ghost use Rattle.mini_node.specs.Kinds.{unary_operator as its_unary_operator};
ghost use Rattle.mini_terms.specs.Constant.{constant};
ghost use Rattle.mini_terms.specs.Plain.{lit};
ghost use Rattle.mini_tree.specs.Rule.{Applied};
ghost use Rattle.std.specs.Prelude.{IfOk, OnOk, Some, is_some, unwrap_or, ◌≡◌};

use crate::PeepholeOptimizations;
use mini_terms::ConstantValue;
use mini_tree::{Node, OutOfMemory, Position, Seat};
use std::alloc::Global;

impl PeepholeOptimizations {
    /// An operator over constants becomes the literal of its value, where that is lighter. The
    /// answer says whether it did; the only error is that memory runs out.
    pub fn fold_constant(
        &self,
        alloc: Global,
        node: &mut Node,
        seat: Seat,
    ) -> Result<bool, OutOfMemory>
        ensures tree { OnOk result (node.new ≡ unwrap_or (written seat node.old) node.old) }
        ensures said { IfOk result (λ changed. changed ≡ is_some (written seat node.old)) }
    {
        mini_fold::fold_constant(alloc, node, seat)
    }

    /// A logical expression one of whose sides is known to go becomes the other one. The answer
    /// says whether it did.
    pub fn fold_logical_expression(&self, alloc: Global, node: &mut Node, seat: Seat) -> bool
        ensures tree { node.new ≡ unwrap_or (folded seat node.old) node.old }
        ensures said { result ≡ is_some (folded seat node.old) }
    {
        mini_fold::fold_logical_expression(alloc, node, seat)
    }

    /// A conditional with an effect-free test and two equal branches becomes its branch:
    /// `!a ? b : b` becomes `b`. The answer says whether it did.
    pub fn fold_conditional(&self, alloc: Global, node: &mut Node, seat: Seat) -> bool
        ensures tree { node.new ≡ unwrap_or (branch_written seat node.old) node.old }
        ensures said { result ≡ is_some (branch_written seat node.old) }
    {
        mini_fold::fold_conditional(alloc, node, seat)
    }

    /// What is known of a logical expression, of the sides of an equality, of a conditional or of a
    /// text's length is folded. The answer says whether something was.
    pub fn fold_expression(&self, alloc: Global, node: &mut Node, seat: Seat) -> bool
        ensures tree { node.new ≡ unwrap_or (written_of_fold_known seat node.old) node.old }
        ensures said { result ≡ is_some (written_of_fold_known seat node.old) }
    {
        mini_fold::fold_expression(alloc, node, seat)
    }

    /// An effect-free expression statement becomes empty. The answer says whether it did.
    pub fn remove_unused_expression(&self, alloc: Global, node: &mut Node) -> bool
        ensures tree { node.new ≡ unwrap_or (expression_written node.old) node.old }
        ensures said { result ≡ is_some (expression_written node.old) }
    {
        mini_fold::remove_unused_expression(alloc, node)
    }

    /// The length of a text that is written out becomes its number: `"abc".length` becomes `3`. The
    /// answer says whether it did.
    pub fn fold_static_member_expr(&self, alloc: Global, node: &mut Node, seat: Seat) -> bool
        ensures tree { node.new ≡ unwrap_or (written_of_fold_static_member seat node.old) node.old }
        ensures said { result ≡ is_some (written_of_fold_static_member seat node.old) }
    {
        mini_fold::fold_static_member_expr(alloc, node, seat)
    }

    /// The length of a text that is read with a key in brackets becomes a number: `"abc"["length"]`
    /// becomes `3`. The answer says whether it did.
    pub fn fold_computed_member_expr(&self, alloc: Global, node: &mut Node, seat: Seat) -> bool
        ensures tree { node.new ≡ unwrap_or (computed_written seat node.old) node.old }
        ensures said { result ≡ is_some (computed_written seat node.old) }
    {
        mini_fold::fold_computed_member_expr(alloc, node, seat)
    }

    /// A binary operator over constants becomes the literal of its value, `typeof a + ""`
    /// `typeof a`, `a + "s" + "t"` `a + "st"`, `a & 6 & 3` `a & 2`, and a sum with a template one
    /// template, each where it is lighter. The answer says whether one did; the only error is that
    /// memory runs out, and then the expression is fit only to be dropped.
    pub fn fold_binary_expr(
        &self,
        alloc: Global,
        node: &mut Node,
        seat: Seat,
    ) -> Result<bool, OutOfMemory>
        ensures tree { OnOk result (node.new ≡ unwrap_or (name.binary_expression_written seat node.old) node.old) }
        ensures said { IfOk result (λ changed. changed ≡ is_some (name.binary_expression_written seat node.old)) }
    {
        mini_fold::fold_binary_expr(alloc, node, seat)
    }

    /// An expression statement, or a part of the head of a `for`, goes where it does nothing. The
    /// answer says whether one did.
    pub fn fold_statement(&self, alloc: Global, node: &mut Node) -> bool
        ensures tree { node.new ≡ unwrap_or (statement_written node.old) node.old }
        ensures said { result ≡ is_some (statement_written node.old) }
    {
        mini_fold::fold_statement(alloc, node)
    }

    /// A part of the head of a `for` whose value nobody asks for goes, where it does nothing: what
    /// the loop begins with, or what it does after each turn (ECMA-262, "The for Statement"). The
    /// answer says whether one did.
    pub fn remove_idle_head(&self, alloc: Global, node: &mut Node) -> bool
        ensures tree { node.new ≡ unwrap_or (row.written node.old) node.old }
        ensures said { result ≡ is_some (row.written node.old) }
    {
        mini_fold::remove_idle_head(alloc, node)
    }

    /// An operand whose value is known goes, or is written shorter. The answer says whether it was;
    /// the only error is that memory runs out, and then the expression is fit only to be dropped.
    pub fn fold_operands(
        &self,
        alloc: Global,
        node: &mut Node,
        seat: Seat,
    ) -> Result<bool, OutOfMemory>
        ensures tree { OnOk result (node.new ≡ unwrap_or (operand.written seat node.old) node.old) }
        ensures said { IfOk result (λ changed. changed ≡ is_some (operand.written seat node.old)) }
    {
        mini_fold::fold_operands(alloc, node, seat)
    }

    /// `delete a()` becomes `a(), !0`. The answer says whether it did; the only error is that
    /// memory runs out, and then the expression is fit only to be dropped.
    pub fn fold_delete(&self, alloc: Global, node: &mut Node) -> Result<bool, OutOfMemory>
        ensures tree { OnOk result (node.new ≡ unwrap_or (tree.delete_written (its_unary_operator node.old) (part node.old 0)) node.old) }
        ensures said { IfOk result (λ changed. changed ≡ is_some (tree.delete_written (its_unary_operator node.old) (part node.old 0))) }
    {
        mini_fold::fold_delete(alloc, node)
    }

    /// A sequence is lifted out of the first operand of an expression, or spread in a sequence, or
    /// a part of one that has no effect goes. The answer says whether something was done; the only
    /// error is that memory runs out, and then the expression is fit only to be dropped.
    pub fn fold_sequence_expression(
        &self,
        alloc: Global,
        node: &mut Node,
        seat: Seat,
    ) -> Result<bool, OutOfMemory>
        ensures { IfOk result (λ changed. Applied Gives Rests (Position.Expr seat) node.old node.new changed) }
    {
        mini_fold::fold_sequence_expression(alloc, node, seat)
    }

    /// A part of a template whose value is calculated goes into the text, where that is lighter.
    /// The answer says whether one did; the only error is that memory runs out, and then the
    /// expression is fit only to be dropped.
    pub fn inline_template_literal(
        &self,
        alloc: Global,
        node: &mut Node,
        seat: Seat,
    ) -> Result<bool, OutOfMemory>
        ensures { IfOk result (λ changed. Applied GivesOfFoldTemplates PartsRest (Position.Expr seat) node.old node.new changed) }
    {
        mini_fold::inline_template_literal(alloc, node, seat)
    }

    /// A part of a template whose value is calculated goes into the text, and a sum of a template
    /// and another, or of a template and what has a calculated value, becomes one template, also
    /// behind another operand, where that is lighter. The answer says whether something did; the
    /// only error is that memory runs out, and then the expression is fit only to be dropped.
    pub fn fold_templates(
        &self,
        alloc: Global,
        node: &mut Node,
        seat: Seat,
    ) -> Result<bool, OutOfMemory>
        ensures { IfOk result (λ changed. Applied GivesOfFoldTemplates RestsOfFoldTemplates (Position.Expr seat) node.old node.new changed) }
    {
        mini_fold::fold_templates(alloc, node, seat)
    }

    /// A strict equality of two sides of one known Kind becomes a loose one. The answer says
    /// whether it did.
    pub fn loosen_equality(&self, alloc: Global, node: &mut Node) -> bool
        ensures tree { node.new ≡ unwrap_or (written_of_minimize_binary node.old) node.old }
        ensures said { result ≡ is_some (written_of_minimize_binary node.old) }
    {
        mini_fold::minimize_binary(alloc, node)
    }

    /// `(a & 1) == 0` becomes `!(a & 1)`, `!a == !0` becomes `!a`, and `a === b` `a == b` where
    /// both are of one known Kind. The answer says whether it did; the only error is that memory
    /// runs out, and then the expression is fit only to be dropped.
    pub fn minimize_binary(
        &self,
        alloc: Global,
        node: &mut Node,
        seat: Seat,
    ) -> Result<bool, OutOfMemory>
        ensures tree { OnOk result (node.new ≡ unwrap_or (name.binary_written seat node.old) node.old) }
        ensures said { IfOk result (λ changed. changed ≡ is_some (name.binary_written seat node.old)) }
    {
        mini_fold::minimize_binary_expr(alloc, node, seat)
    }

    /// `a == !0` becomes `a == 1`, and `a != !1` `a != 0`, the boolean on either side. The answer
    /// says whether it did; the only error is that memory runs out, and then the expression is fit
    /// only to be dropped.
    pub fn minimize_loose_boolean(
        &self,
        alloc: Global,
        node: &mut Node,
    ) -> Result<bool, OutOfMemory>
        ensures tree { OnOk result (node.new ≡ unwrap_or (name.loose_written node.old) node.old) }
        ensures said { IfOk result (λ changed. changed ≡ is_some (name.loose_written node.old)) }
    {
        mini_fold::minimize_loose_boolean(alloc, node)
    }

    /// `a << 0`, `a >> 0`, `a ^ 0` and `a & 4294967295` become `a | 0`, and `a << 1 | 0` `a << 1`.
    /// The answer says whether it did; the only error is that memory runs out, and then the
    /// expression is fit only to be dropped.
    pub fn minimize_bitwise_binary_expr(
        &self,
        alloc: Global,
        node: &mut Node,
        seat: Seat,
    ) -> Result<bool, OutOfMemory>
        ensures tree { OnOk result (node.new ≡ unwrap_or (name.bitwise_written seat node.old) node.old) }
        ensures said { IfOk result (λ changed. changed ≡ is_some (name.bitwise_written seat node.old)) }
    {
        mini_fold::minimize_bitwise_binary_expr(alloc, node, seat)
    }

    /// A unary operator over a constant becomes the literal of its value, where that is lighter,
    /// and `delete a()` becomes `a(), !0`. The answer says whether one did; the only error is that
    /// memory runs out, and then the expression is fit only to be dropped.
    pub fn fold_unary_expr(
        &self,
        alloc: Global,
        node: &mut Node,
        seat: Seat,
    ) -> Result<bool, OutOfMemory>
        ensures tree { OnOk result (node.new ≡ unwrap_or (name.unary_written seat node.old) node.old) }
        ensures said { IfOk result (λ changed. changed ≡ is_some (name.unary_written seat node.old)) }
    {
        mini_fold::fold_unary_expr(alloc, node, seat)
    }

    /// Folds a logical expression with a side that is known: `??` as `try_fold_coalesce` does, `&&`
    /// and `||` as `try_fold_and_or` does. The answer says whether it did; the only error is that
    /// memory runs out, and then the expression is fit only to be dropped.
    pub fn fold_logical_expr(
        &self,
        alloc: Global,
        node: &mut Node,
        seat: Seat,
    ) -> Result<bool, OutOfMemory>
        ensures tree { OnOk result (node.new ≡ unwrap_or (name.either_written seat node.old) node.old) }
        ensures said { IfOk result (λ changed. changed ≡ is_some (name.either_written seat node.old)) }
    {
        mini_fold::fold_logical_expr(alloc, node, seat)
    }

    /// `0 && b` becomes `0`, `1 && b` `b`, and `a || 0 || b` `a || b`: a side of `&&` or `||` goes
    /// whose truth is known. The answer says whether one did; the only error is that memory runs
    /// out, and then the expression is fit only to be dropped.
    pub fn try_fold_and_or(
        &self,
        alloc: Global,
        node: &mut Node,
        seat: Seat,
    ) -> Result<bool, OutOfMemory>
        ensures tree { OnOk result (node.new ≡ unwrap_or (name.and_or_written seat node.old) node.old) }
        ensures said { IfOk result (λ changed. changed ≡ is_some (name.and_or_written seat node.old)) }
    {
        mini_fold::try_fold_and_or(alloc, node, seat)
    }

    /// `null ?? b` becomes `b`, and `!a ?? b` `!a`: a side of `??` goes where the Kind of the left
    /// one is known. The answer says whether one did.
    pub fn try_fold_coalesce(&self, alloc: Global, node: &mut Node, seat: Seat) -> bool
        ensures tree { node.new ≡ unwrap_or (name.coalesce_written seat node.old) node.old }
        ensures said { result ≡ is_some (name.coalesce_written seat node.old) }
    {
        mini_fold::try_fold_coalesce(alloc, node, seat)
    }

    /// `typeof x == typeof x` becomes `!0`, and `typeof a == "text"` `!1` where no value of
    /// `typeof` is that; unequal the other one. The answer says whether it did; the only error is
    /// that memory runs out.
    pub fn fold_binary_typeof_comparison(
        &self,
        alloc: Global,
        node: &mut Node,
    ) -> Result<bool, OutOfMemory>
        ensures tree { OnOk result (node.new ≡ unwrap_or (name.typeof_written node.old) node.old) }
        ensures said { IfOk result (λ changed. changed ≡ is_some (name.typeof_written node.old)) }
    {
        mini_fold::fold_binary_typeof_comparison(alloc, node)
    }

    /// `+a * 2` becomes `a * 2`, and so of other operators that make numbers of their operands. The
    /// answer says whether it did; the only error is that memory runs out, and then the expression
    /// is fit only to be dropped.
    pub fn substitute_unary_plus(&self, alloc: Global, node: &mut Node) -> Result<bool, OutOfMemory>
        ensures tree { OnOk result (node.new ≡ unwrap_or (name.plus_written node.old) node.old) }
        ensures said { IfOk result (λ changed. changed ≡ is_some (name.plus_written node.old)) }
    {
        mini_fold::substitute_unary_plus(alloc, node)
    }

    /// The constant of an expression, whatever the expression does besides. None exactly where
    /// nothing is known.
    ///
    /// The only error is that memory runs out.
    pub fn evaluate_value(
        &self,
        alloc: Global,
        node: &Node,
    ) -> Result<Option<ConstantValue>, OutOfMemory>
        ensures { IfOk result (λ v. value_in v ≡ constant node.now) }
    {
        mini_terms::constant_value(alloc, node)
    }

    /// The literal of a value.
    ///
    /// The only error is that memory runs out.
    pub fn value_to_expr(&self, alloc: Global, constant: ConstantValue) -> Result<Node, OutOfMemory>
        ensures { IfOk result (λ n. lit (value constant) ≡ Some n) }
    {
        mini_terms::value_to_expr(alloc, constant)
    }
}
