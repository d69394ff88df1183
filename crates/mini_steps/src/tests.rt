//! What no clause says: that there is memory for a step.

ghost use Rattle.std.specs.Prelude.{◌≡◌, IfOk};
ghost use Rattle.mini_steps.specs.Examples as example;

use crate::names::{RuleName, Step, StepList};
use crate::steps::apply_steps;
use mini_context::{TraverseCtx, resolve};
use mini_model::{
    BinaryOperator, MinifyError, Numbers, OutOfMemory, Shape, TextList, UnaryOperator,
};
use mini_node::{Node, binary, expression_statement, numeric_literal, of_one, unary};
use mini_tree::CompressOptions;
use std::alloc::Global;

// `!(1 == 2);`
fn unequal(alloc: Global) -> Result<Node, OutOfMemory>
    ensures { IfOk result (λ program. program ≡ example.unequal) }
{
    let left = numeric_literal(alloc, 1);
    let right = numeric_literal(alloc, 2);
    let equal = binary(alloc, BinaryOperator::Equality, left, right)?;
    let negated = unary(alloc, UnaryOperator::LogicalNot, equal)?;
    let statement = expression_statement(alloc, negated)?;
    let list = Node::new(Shape::Listed, of_one(alloc, statement)?);
    let parts = of_one(alloc, list)?;
    Ok(Node::new(Shape::Program(false, TextList::new(alloc)), parts))
}

fn path_of(alloc: Global, path: &[u32]) -> Result<Numbers, OutOfMemory> {
    let mut at = Numbers::new(alloc);
    for index in path {
        at.push(*index)?;
    }
    Ok(at)
}

// How many steps change something, where there is one, of row 23 at this path of `!(1 == 2);`.
fn changed_at(alloc: Global, path: &[u32]) -> Result<u64, MinifyError> {
    let mut program = unequal(alloc)?;
    let scopes = resolve(alloc, &mut program)?;
    let mut context = TraverseCtx::new(scopes, CompressOptions::new());
    let mut steps = StepList::new(alloc);
    let at = path_of(alloc, path)?;
    let rule = RuleName::MinimizeUnary;
    steps.push(Step { at, rule })?;
    Ok(apply_steps(alloc, &mut program, &mut context, &steps)?)
}

#[test]
fn a_step_changes_what_its_path_leads_to(rt: HostRuntime) {
    assert!(rt; matches!(changed_at(rt.alloc(), &[0, 0]), Ok(1)));
    assert!(rt; matches!(changed_at(rt.alloc(), &[5]), Ok(0)));
}
