//! Rewrites of logic: of negations, conditionals, tests, branches and bodies, and what they are
//! made with.

ghost use Rattle.mini_logic.specs.DeMorganForVoidExpr.{Gives, Rests, written as written_of_de_morgan_for_void_expr};
ghost use Rattle.mini_logic.specs.LastContinue.{written as written_of_last_continue};
ghost use Rattle.mini_logic.specs.MinimizeBody.{written as written_of_minimize_body};
ghost use Rattle.mini_logic.specs.MinimizeExpressionInBooleanContext as boolean;
ghost use Rattle.mini_logic.specs.MinimizeForStatement as row;
ghost use Rattle.mini_logic.specs.MinimizeIfStatement.{written as written_of_minimize_if_statement};
ghost use Rattle.mini_logic.specs.MinimizeNegation.{negates, told, told_lightest, written};
ghost use Rattle.mini_logic.specs.MinimizeUnaryExpression.{minimized_unary, minimizes_unary};
ghost use Rattle.mini_logic.specs.Sequences as end;
ghost use Rattle.mini_logic.specs.UnwrapBlock.{written as written_of_unwrap_block};
ghost use Rattle.mini_node.specs.Children.{part};
ghost use Rattle.mini_tree.specs.Rule.{Applied};
ghost use Rattle.std.specs.Option.{option_copied};
ghost use Rattle.std.specs.Prelude.{IfOk, OnOk, if◌then◌else◌, is_some, unwrap_or, ◌≡◌};

use crate::PeepholeOptimizations;
use mini_tree::{Node, OutOfMemory, Position, Seat};
use std::alloc::Global;

impl PeepholeOptimizations {
    /// `!e` becomes the negation of e where that is lighter in the seat. The answer says whether it
    /// did; the only error is that memory runs out, and then the expression is fit only to be
    /// dropped.
    pub fn minimize_unary(
        &self,
        alloc: Global,
        node: &mut Node,
        seat: Seat,
    ) -> Result<bool, OutOfMemory>
        ensures tree { OnOk result (node.new ≡ minimized_unary seat node.old) }
        ensures said { IfOk result (λ changed. changed ≡ minimizes_unary seat node.old) }
    {
        mini_logic::minimize_unary(alloc, node, seat)
    }

    /// `!(a && typeof x < "u")` becomes `!a || typeof x > "u"`, and `!(a, b == c)` becomes
    /// `a, b != c`, where that is lighter in the seat. The answer says whether it did; the only
    /// error is that memory runs out, and then the expression is fit only to be dropped.
    pub fn minimize_negation(
        &self,
        alloc: Global,
        node: &mut Node,
        seat: Seat,
    ) -> Result<bool, OutOfMemory>
        ensures tree { OnOk result (node.new ≡ unwrap_or (written seat node.old) node.old) }
        ensures said { IfOk result (λ changed. changed ≡ is_some (written seat node.old)) }
    {
        mini_logic::minimize_negation(alloc, node, seat)
    }

    /// `if (a) b; else c;` becomes `a ? b : c;`, `if (a) b;` becomes `a && b;`, and where a ends in
    /// a `!`, alone or as the last part of a sequence, `!a || b;` with the `!` taken off; an empty
    /// consequent goes; `if (a) if (b) c;` becomes `if (a && b) c;`; an `if` with `else` as a
    /// consequent gets a block; and `if (!a) return b; else throw c;` becomes
    /// `if (a) throw c; else return b;`. The answer says whether it did; the only error is that
    /// memory runs out, and then the statement is fit only to be dropped.
    pub fn try_minimize_if(&self, alloc: Global, node: &mut Node) -> Result<bool, OutOfMemory>
        ensures tree { OnOk result (node.new ≡ unwrap_or (written_of_minimize_if_statement node.old) node.old) }
        ensures said { IfOk result (λ changed. changed ≡ is_some (written_of_minimize_if_statement node.old)) }
    {
        mini_logic::try_minimize_if(alloc, node)
    }

    /// A block of one statement that isn't scoped becomes that statement, the last `continue;` of a
    /// loop goes, and what leaves a `for` first goes into its test. The answer says whether one of
    /// them was done; the only error is that memory runs out, and then the statement is fit only to
    /// be dropped.
    pub fn minimize_body(&self, alloc: Global, node: &mut Node) -> Result<bool, OutOfMemory>
        ensures tree { OnOk result (node.new ≡ unwrap_or (written_of_minimize_body node.old) node.old) }
        ensures said { IfOk result (λ changed. changed ≡ is_some (written_of_minimize_body node.old)) }
    {
        mini_logic::minimize_body(alloc, node)
    }

    /// A block of one statement that isn't scoped becomes that statement, as a branch of an `if` or
    /// as the body of a loop; an `if` with `else` keeps its block as a consequent. The answer says
    /// whether it did; the only error is that memory runs out.
    pub fn unwrap_block(&self, alloc: Global, node: &mut Node) -> Result<bool, OutOfMemory>
        ensures tree { OnOk result (node.new ≡ unwrap_or (written_of_unwrap_block node.old) node.old) }
        ensures said { IfOk result (λ changed. changed ≡ is_some (written_of_unwrap_block node.old)) }
    {
        mini_logic::unwrap_block(alloc, node)
    }

    /// The last `continue;` of the body of a loop goes, after which the loop goes on by itself
    /// (ECMA-262, "LoopContinues"). The answer says whether it did; the only error is that memory
    /// runs out, and then the statement is fit only to be dropped.
    pub fn remove_last_continue(&self, alloc: Global, node: &mut Node) -> Result<bool, OutOfMemory>
        ensures tree { OnOk result (node.new ≡ unwrap_or (written_of_last_continue node.old) node.old) }
        ensures said { IfOk result (λ changed. changed ≡ is_some (written_of_last_continue node.old)) }
    {
        mini_logic::remove_last_continue(alloc, node)
    }

    /// A body that begins by leaving the loop has that in the test of the loop, which is asked
    /// right before it (ECMA-262, "ForBodyEvaluation"). The answer says whether it did; the only
    /// error is that memory runs out, and then the statement is fit only to be dropped.
    pub fn minimize_for_statement(
        &self,
        alloc: Global,
        node: &mut Node,
    ) -> Result<bool, OutOfMemory>
        ensures tree { OnOk result (node.new ≡ unwrap_or (row.written node.old) node.old) }
        ensures said { IfOk result (λ changed. changed ≡ is_some (row.written node.old)) }
    {
        mini_logic::minimize_for_statement(alloc, node)
    }

    /// Where only the truth of an expression is asked, `!0` becomes `1`, `a && 1` becomes `a`, and
    /// `a ? 1 : b` becomes `a || b`; where its value is, `a ? false : b` becomes `!a && b`,
    /// `a ? true : false` `!!a`, and `a ? 0 : 1` `+!a`. The answer says whether it did; the only
    /// error is that memory runs out, and then the expression is fit only to be dropped.
    pub fn minimize_expression_in_boolean_context(
        &self,
        alloc: Global,
        node: &mut Node,
        seat: Seat,
    ) -> Result<bool, OutOfMemory>
        ensures tree { OnOk result (node.new ≡ unwrap_or (boolean.written seat node.old) node.old) }
        ensures said { IfOk result (λ changed. changed ≡ is_some (boolean.written seat node.old)) }
    {
        mini_logic::minimize_expression_in_boolean_context(alloc, node, seat)
    }

    /// `!a && b;` becomes `a || b;`, and `!a || b;` `a && b;`, where that is lighter. The answer
    /// says whether it did; the only error is that memory runs out, and then the statement is fit
    /// only to be dropped.
    pub fn de_morgan_for_void_expr(
        &self,
        alloc: Global,
        node: &mut Node,
    ) -> Result<bool, OutOfMemory>
        ensures tree { OnOk result (node.new ≡ unwrap_or (written_of_de_morgan_for_void_expr node.old) node.old) }
        ensures said { IfOk result (λ changed. changed ≡ is_some (written_of_de_morgan_for_void_expr node.old)) }
    {
        mini_logic::de_morgan_for_void_expr(alloc, node)
    }

    /// `a(), !b && c(), d()` becomes `a(), b || c(), d()`, where that is lighter: the value of a
    /// part but the last is asked by nobody (ECMA-262, "Comma Operator"). The answer says whether
    /// one did; the only error is that memory runs out, and then the expression is fit only to be
    /// dropped.
    pub fn de_morgan_for_part(
        &self,
        alloc: Global,
        node: &mut Node,
        seat: Seat,
    ) -> Result<bool, OutOfMemory>
        ensures { IfOk result (λ changed. Applied Gives Rests (Position.Expr seat) node.old node.new changed) }
    {
        mini_logic::de_morgan_for_part(alloc, node, seat)
    }

    /// What `!e` is written as in this seat: the lightest of `!` over the expression, its negation
    /// and its whole negation, and the last where others weigh as much. It means what `!e` does
    /// (`negations_mean_the_same`). The only error is that memory runs out.
    pub fn minimize_not(
        &self,
        alloc: Global,
        expression: Node,
        seat: Seat,
    ) -> Result<Node, OutOfMemory>
        ensures { IfOk result (λ w. w ≡ told_lightest seat expression) }
    {
        mini_logic::minimize_not(alloc, expression, seat)
    }

    /// Makes an expression its whole negation, unless that is `!` over it. The answer says whether
    /// it did: true of `a == b`, of `a && b`, of `a, b` and of `typeof a < "u"`, and false of `a`,
    /// which stays. The only error is that memory runs out, and then the expression is fit only to
    /// be dropped.
    pub fn try_negate_expression(
        &self,
        alloc: Global,
        expression: &mut Node,
        seat: Seat,
    ) -> Result<bool, OutOfMemory>
        ensures tree { OnOk result (expression.new ≡ (if negates seat expression.old then told seat expression.old else expression.old)) }
        ensures said { IfOk result (λ changed. changed ≡ negates seat expression.old) }
    {
        mini_logic::try_negate_expression(alloc, expression, seat)
    }

    /// Whether an expression is a `!`, or the last expression of a sequence is.
    pub fn has_negated_result(&self, test: &Node) -> bool
        ensures { result ≡ end.ends_in_negation test.now }
    {
        mini_logic::has_negated_result(test)
    }

    /// Takes the last expression out of a sequence, however many sequences it ends in, and drops
    /// each inner sequence that becomes empty by it: of `a, (b, c)` it gives `c`, and leaves
    /// `a, (b)`. None, and nothing changed, exactly where it is no sequence, or it or a trailing
    /// sequence in it is empty.
    pub fn pop_expression_from_sequence(&self, sequence: &mut Node) -> Option<Node>
        ensures end { result ≡ end.popped sequence.old }
        ensures left { sequence.new ≡ end.left_of sequence.old }
    {
        mini_logic::pop_expression_from_sequence(sequence)
    }

    /// The operand of a unary expression: a of `!a`.
    pub fn unwrap_unary(&self, unary: Node) -> Node
        ensures { result ≡ part unary 0 }
    {
        mini_logic::unwrap_unary(unary)
    }

    /// The last expression of a sequence, however many sequences it ends in; a trailing sequence
    /// that is empty is given itself. None exactly where it is no sequence, or an empty one.
    pub fn last_expression_in_sequence<'a>(&self, sequence: &'a Node) -> Option<&'a Node>
        ensures { option_copied result ≡ end.last_expression sequence.now }
    {
        mini_logic::last_expression_in_sequence(sequence)
    }
}
