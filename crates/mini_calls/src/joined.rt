//! Calls of several crates as one, each where those before it have nothing to do: of conditionals,
//! and of logical expressions.

ghost use Rattle.mini_calls.specs.Joined as joined;
ghost use Rattle.mini_choices.specs.MinimizeNormalAssignmentToCombinedLogicalAssignment.{marked};
ghost use Rattle.mini_model.specs.Tree.{conditional as conditional_of};
ghost use Rattle.std.specs.Prelude.{IfOk, OnOk, is_some, unwrap_or, ◌≡◌};

use crate::PeepholeOptimizations;
use mini_context::Scopes;
use mini_node::{conditional, is_conditional};
use mini_tree::{Node, OutOfMemory, Seat};
use std::alloc::Global;

// 46 of an assignment: `(x = a) ?? b`, and `(x = a)?.m`.
#[tactic(auto, using(crate::proofs::Joining::assigned_first, crate::proofs::Joining::assigned_told, crate::proofs::Joining::assigned_then, crate::proofs::Joining::assigned_says))]
fn assigned(
    alloc: Global,
    node: &mut Node,
    seat: Seat,
    scopes: &Scopes,
) -> Result<bool, OutOfMemory>
    ensures tree { OnOk result (node.new ≡ unwrap_or (joined.assigned_written (marked scopes.now) seat node.old) node.old) }
    ensures said { IfOk result (λ changed. changed ≡ is_some (joined.assigned_written (marked scopes.now) seat node.old)) }
{
    if mini_choices::minimize_assigned_comparison(alloc, node, scopes)? {
        Ok(true)
    } else {
        mini_choices::inject_assigned_chaining(alloc, node, seat, scopes)
    }
}

// 46: `x?.m`, and else `(x = a) ?? b` or `(x = a)?.m`.
#[tactic(auto, using(crate::proofs::Joining::chained_first, crate::proofs::Joining::chained_told, crate::proofs::Joining::chained_then, crate::proofs::Joining::chained_says))]
fn chained(alloc: Global, node: &mut Node, seat: Seat, scopes: &Scopes) -> Result<bool, OutOfMemory>
    ensures tree { OnOk result (node.new ≡ unwrap_or (joined.chained_written (marked scopes.now) seat node.old) node.old) }
    ensures said { IfOk result (λ changed. changed ≡ is_some (joined.chained_written (marked scopes.now) seat node.old)) }
{
    if mini_choices::inject_optional_chaining(alloc, node, seat)? {
        Ok(true)
    } else {
        assigned(alloc, node, seat, scopes)
    }
}

// 42, 43 and 49, of a branch that stands twice.
#[tactic(auto, using(crate::proofs::Joining::held_first, crate::proofs::Joining::held_told, crate::proofs::Joining::held_then, crate::proofs::Joining::held_says))]
fn held(alloc: Global, node: &mut Node, seat: Seat, scopes: &Scopes) -> Result<bool, OutOfMemory>
    ensures tree { OnOk result (node.new ≡ unwrap_or (joined.held_written (marked scopes.now) seat node.old) node.old) }
    ensures said { IfOk result (λ changed. changed ≡ is_some (joined.held_written (marked scopes.now) seat node.old)) }
{
    if mini_choices::minimize_held_branches(alloc, node, seat)? {
        Ok(true)
    } else {
        chained(alloc, node, seat, scopes)
    }
}

// 41, 44, 45 and 46, of what both branches have.
#[tactic(auto, using(crate::proofs::Joining::branched_first, crate::proofs::Joining::branched_told, crate::proofs::Joining::branched_then, crate::proofs::Joining::branched_says))]
fn branched(
    alloc: Global,
    node: &mut Node,
    seat: Seat,
    scopes: &Scopes,
) -> Result<bool, OutOfMemory>
    ensures tree { OnOk result (node.new ≡ unwrap_or (joined.branched_written (marked scopes.now) seat node.old) node.old) }
    ensures said { IfOk result (λ changed. changed ≡ is_some (joined.branched_written (marked scopes.now) seat node.old)) }
{
    if mini_choices::minimize_conditional_branches(alloc, node, seat)? {
        Ok(true)
    } else {
        held(alloc, node, seat, scopes)
    }
}

// 49 of an effect-free test.
#[tactic(auto, using(crate::proofs::Joining::idle_first, crate::proofs::Joining::idle_told, crate::proofs::Joining::idle_then, crate::proofs::Joining::idle_says))]
fn idle(alloc: Global, node: &mut Node, seat: Seat, scopes: &Scopes) -> Result<bool, OutOfMemory>
    ensures tree { OnOk result (node.new ≡ unwrap_or (joined.idle_written (marked scopes.now) seat node.old) node.old) }
    ensures said { IfOk result (λ changed. changed ≡ is_some (joined.idle_written (marked scopes.now) seat node.old)) }
{
    if mini_fold::fold_conditional(alloc, node, seat) {
        Ok(true)
    } else {
        branched(alloc, node, seat, scopes)
    }
}

// 47 and 48, of branches that are known, and 26 where only the truth is asked.
#[tactic(auto, using(crate::proofs::Joining::told_first, crate::proofs::Joining::told_told, crate::proofs::Joining::told_then, crate::proofs::Joining::told_says))]
fn told(alloc: Global, node: &mut Node, seat: Seat, scopes: &Scopes) -> Result<bool, OutOfMemory>
    ensures tree { OnOk result (node.new ≡ unwrap_or (joined.told_written (marked scopes.now) seat node.old) node.old) }
    ensures said { IfOk result (λ changed. changed ≡ is_some (joined.told_written (marked scopes.now) seat node.old)) }
{
    if mini_logic::minimize_expression_in_boolean_context(alloc, node, seat)? {
        Ok(true)
    } else {
        idle(alloc, node, seat, scopes)
    }
}

// 40, of a test that is turned.
#[tactic(auto, using(crate::proofs::Joining::turned_first, crate::proofs::Joining::turned_told, crate::proofs::Joining::turned_then, crate::proofs::Joining::turned_says))]
fn turned(alloc: Global, node: &mut Node, seat: Seat, scopes: &Scopes) -> Result<bool, OutOfMemory>
    ensures tree { OnOk result (node.new ≡ unwrap_or (joined.turned_written (marked scopes.now) seat node.old) node.old) }
    ensures said { IfOk result (λ changed. changed ≡ is_some (joined.turned_written (marked scopes.now) seat node.old)) }
{
    if mini_logic::minimize_conditional_expression(alloc, node)? {
        Ok(true)
    } else {
        told(alloc, node, seat, scopes)
    }
}

// 38: `x ||= b`, and `x ||= (a, b)`.
#[tactic(auto, using(crate::proofs::Joining::decided_first, crate::proofs::Joining::decided_told, crate::proofs::Joining::decided_then, crate::proofs::Joining::decided_says))]
fn decided(alloc: Global, node: &mut Node, seat: Seat) -> Result<bool, OutOfMemory>
    ensures tree { OnOk result (node.new ≡ unwrap_or (joined.decided_written seat node.old) node.old) }
    ensures said { IfOk result (λ changed. changed ≡ is_some (joined.decided_written seat node.old)) }
{
    if mini_choices::minimize_logical_expression(alloc, node)? {
        Ok(true)
    } else {
        mini_choices::minimize_logical_sequence(alloc, node, seat)
    }
}

// 37 of an assignment: `(x = a) == null`.
#[tactic(auto, using(crate::proofs::Joining::nullish_first, crate::proofs::Joining::nullish_told, crate::proofs::Joining::nullish_then, crate::proofs::Joining::nullish_says))]
fn nullish(alloc: Global, node: &mut Node, seat: Seat, scopes: &Scopes) -> Result<bool, OutOfMemory>
    ensures tree { OnOk result (node.new ≡ unwrap_or (joined.nullish_written (marked scopes.now) seat node.old) node.old) }
    ensures said { IfOk result (λ changed. changed ≡ is_some (joined.nullish_written (marked scopes.now) seat node.old)) }
{
    if mini_choices::minimize_assigned_nullish_comparison(alloc, node, scopes)? {
        Ok(true)
    } else {
        decided(alloc, node, seat)
    }
}

// 37: `x == null`.
#[tactic(auto, using(crate::proofs::Joining::logical_first, crate::proofs::Joining::logical_told, crate::proofs::Joining::logical_then, crate::proofs::Joining::logical_says))]
fn logical(alloc: Global, node: &mut Node, seat: Seat, scopes: &Scopes) -> Result<bool, OutOfMemory>
    ensures tree { OnOk result (node.new ≡ unwrap_or (joined.logical_written (marked scopes.now) seat node.old) node.old) }
    ensures said { IfOk result (λ changed. changed ≡ is_some (joined.logical_written (marked scopes.now) seat node.old)) }
{
    if mini_choices::minimize_nullish_comparison(alloc, node)? {
        Ok(true)
    } else {
        nullish(alloc, node, seat, scopes)
    }
}

impl PeepholeOptimizations {
    /// `!a ? b : c` becomes `a ? c : b`, `a ? !0 : b` `!!a || b`, `a ? b : b` `a, b`, `x ? x : b`
    /// `x || b`, `a ? b ? c : d : d` `a && b ? c : d`, `a ? f(p) : f(q)` `f(a ? p : q)`,
    /// `x == null ? b : x` `x ?? b`, and `x == null ? void 0 : x.m` `x?.m`, the last two also of
    /// `(x = a)` where the program mentions x as a name that can be written; each where it is
    /// lighter. The answer says whether one was done; the only error is that memory runs out, and
    /// then the expression is fit only to be dropped.
    pub fn minimize_conditional_expression(
        &self,
        alloc: Global,
        node: &mut Node,
        seat: Seat,
        scopes: &Scopes,
    ) -> Result<bool, OutOfMemory>
        ensures tree { OnOk result (node.new ≡ unwrap_or (joined.conditional_written (marked scopes.now) seat node.old) node.old) }
        ensures said { IfOk result (λ changed. changed ≡ is_some (joined.conditional_written (marked scopes.now) seat node.old)) }
    {
        if is_conditional(node) {
            turned(alloc, node, seat, scopes)
        } else {
            Ok(false)
        }
    }

    /// The conditional of three parts, as `minimize_conditional_expression` writes it once: of
    /// `!a`, b and c it is `a ? c : b`. The only error is that memory runs out.
    pub fn minimize_conditional(
        &self,
        alloc: Global,
        test: Node,
        consequent: Node,
        alternate: Node,
        seat: Seat,
        scopes: &Scopes,
    ) -> Result<Node, OutOfMemory>
        ensures { IfOk result (λ made. made ≡ unwrap_or (joined.conditional_written (marked scopes.now) seat (conditional_of test consequent alternate)) (conditional_of test consequent alternate)) }
    {
        let mut node = conditional(alloc, test, consequent, alternate)?;
        self.minimize_conditional_expression(alloc, &mut node, seat, scopes)?;
        Ok(node)
    }

    /// `x === null || x === undefined` becomes `x == null`, also of `(x = a)` where the program
    /// mentions x as a name that can be written, and `x || (x = b)` `x ||= b`, and so of `&&` and
    /// `??`. The answer says whether one was done; the only error is that memory runs out, and then
    /// the expression is fit only to be dropped.
    pub fn minimize_logical_expression(
        &self,
        alloc: Global,
        node: &mut Node,
        seat: Seat,
        scopes: &Scopes,
    ) -> Result<bool, OutOfMemory>
        ensures tree { OnOk result (node.new ≡ unwrap_or (joined.logical_written (marked scopes.now) seat node.old) node.old) }
        ensures said { IfOk result (λ changed. changed ≡ is_some (joined.logical_written (marked scopes.now) seat node.old)) }
    {
        logical(alloc, node, seat, scopes)
    }
}
