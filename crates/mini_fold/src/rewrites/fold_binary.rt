//! Rows 3 to 8 as one call: what is calculated of a binary expression, and two operands that become
//! one.

ghost use Rattle.std.specs.Prelude.{◌≡◌, None, is_some, unwrap_or, OnOk, IfOk};
ghost use Rattle.mini_model.specs.Tree.{children, count};
ghost use Rattle.mini_node.specs.Children.{part};
ghost use Rattle.mini_fold.specs.FoldOperators.{mask_written, masks_written};
ghost use Rattle.mini_fold.specs.Names as name;

use crate::rewrites::fold_constants::fold_literal;
use crate::rewrites::fold_operands::{first_of_first, fold_sum as fold_texts, second_of_first};
use crate::rewrites::fold_operators::{holds_bitwise, masked};
use crate::rewrites::fold_templates::fold_sum as add_template;
use crate::rewrites::join_constants::join_constants;
use mini_model::{BinaryOperator, OutOfMemory, Seat};
use mini_node::{Node, binary, binary_operator, number, numeric_literal, taken};
use std::alloc::Global;

// 7, and 4 of texts that are written out.
fn fold_sums(alloc: Global, node: &mut Node, seat: Seat) -> Result<bool, OutOfMemory>
    ensures tree { OnOk result (node.new ≡ unwrap_or (name.texts_written seat node.old) node.old) }
    ensures said { IfOk result (λ changed. changed ≡ is_some (name.texts_written seat node.old)) }
{
    match binary_operator(node) {
        Some(BinaryOperator::Addition) => Ok(fold_texts(alloc, node, seat)?),
        _ => Ok(false),
    }
}

// `a & 2` of `a & 6 & 3`, and of `6 & a & 3`
fn join_masks(alloc: Global, node: &mut Node, operator: BinaryOperator) -> Result<bool, OutOfMemory>
    requires inner { count (children (part node.old 0)) ≡ 2 }
    requires outer { count (children node.old) ≡ 2 }
    ensures tree { OnOk result (node.new ≡ unwrap_or (masks_written operator (part node.old 0) (part node.old 1) None) node.old) }
    ensures said { IfOk result (λ changed. changed ≡ is_some (masks_written operator (part node.old 0) (part node.old 1) None)) }
{
    let mask = number(node.child(1));
    if let Some(joined) = masked(alloc, operator, number(node.child(0).child(1)), mask)? {
        let left = first_of_first(taken(alloc, node));
        *node = binary(alloc, operator, left, numeric_literal(alloc, joined))?;
        return Ok(true);
    }
    if let Some(joined) = masked(alloc, operator, number(node.child(0).child(0)), mask)? {
        let left = second_of_first(taken(alloc, node));
        *node = binary(alloc, operator, left, numeric_literal(alloc, joined))?;
        return Ok(true);
    }
    Ok(false)
}

// `a & 2` of `a & 6 & 3`, where this operator of bits stands over the same one.
fn join_mask(alloc: Global, node: &mut Node, operator: BinaryOperator) -> Result<bool, OutOfMemory>
    requires { count (children node.old) ≡ 2 }
    ensures tree { OnOk result (node.new ≡ unwrap_or (mask_written operator (part node.old 0) (part node.old 1) None) node.old) }
    ensures said { IfOk result (λ changed. changed ≡ is_some (mask_written operator (part node.old 0) (part node.old 1) None)) }
{
    if holds_bitwise(operator, node.child(0)) {
        join_masks(alloc, node, operator)
    } else {
        Ok(false)
    }
}

// 8 of numbers that are written out.
fn fold_masks(alloc: Global, node: &mut Node) -> Result<bool, OutOfMemory>
    ensures tree { OnOk result (node.new ≡ unwrap_or (name.masks_written node.old) node.old) }
    ensures said { IfOk result (λ changed. changed ≡ is_some (name.masks_written node.old)) }
{
    match binary_operator(node) {
        Some(operator) => join_mask(alloc, node, operator),
        None => Ok(false),
    }
}

// 5 and 6.
fn add_templates(alloc: Global, node: &mut Node, seat: Seat) -> Result<bool, OutOfMemory>
    ensures tree { OnOk result (node.new ≡ unwrap_or (name.templates_written seat node.old) node.old) }
    ensures said { IfOk result (λ changed. changed ≡ is_some (name.templates_written seat node.old)) }
{
    match binary_operator(node) {
        Some(BinaryOperator::Addition) => Ok(add_template(alloc, node, seat)?),
        _ => Ok(false),
    }
}

// 4 and 8 of other constants, and else those.
#[tactic(auto, using(crate::proofs::Naming::join_tree, crate::proofs::Naming::join_said, crate::proofs::Naming::join_then, crate::proofs::Naming::join_says))]
fn fold_joins(alloc: Global, node: &mut Node, seat: Seat) -> Result<bool, OutOfMemory>
    ensures tree { OnOk result (node.new ≡ unwrap_or (name.joins_written seat node.old) node.old) }
    ensures said { IfOk result (λ changed. changed ≡ is_some (name.joins_written seat node.old)) }
{
    if join_constants(alloc, node)? {
        Ok(true)
    } else {
        add_templates(alloc, node, seat)
    }
}

#[tactic(auto, using(crate::proofs::Naming::mask_tree, crate::proofs::Naming::mask_said, crate::proofs::Naming::mask_then, crate::proofs::Naming::mask_says))]
fn fold_masked(alloc: Global, node: &mut Node, seat: Seat) -> Result<bool, OutOfMemory>
    ensures tree { OnOk result (node.new ≡ unwrap_or (name.masked_written seat node.old) node.old) }
    ensures said { IfOk result (λ changed. changed ≡ is_some (name.masked_written seat node.old)) }
{
    if fold_masks(alloc, node)? {
        Ok(true)
    } else {
        fold_joins(alloc, node, seat)
    }
}

#[tactic(auto, using(crate::proofs::Naming::text_tree, crate::proofs::Naming::text_said, crate::proofs::Naming::text_then, crate::proofs::Naming::text_says))]
fn fold_summed(alloc: Global, node: &mut Node, seat: Seat) -> Result<bool, OutOfMemory>
    ensures tree { OnOk result (node.new ≡ unwrap_or (name.summed_written seat node.old) node.old) }
    ensures said { IfOk result (λ changed. changed ≡ is_some (name.summed_written seat node.old)) }
{
    if fold_sums(alloc, node, seat)? {
        Ok(true)
    } else {
        fold_masked(alloc, node, seat)
    }
}

// 3, and else those.
#[tactic(auto, using(crate::proofs::Naming::literal_tree, crate::proofs::Naming::literal_said, crate::proofs::Naming::literal_then, crate::proofs::Naming::literal_says))]
fn fold_operator(alloc: Global, node: &mut Node, seat: Seat) -> Result<bool, OutOfMemory>
    ensures tree { OnOk result (node.new ≡ unwrap_or (name.operator_written seat node.old) node.old) }
    ensures said { IfOk result (λ changed. changed ≡ is_some (name.operator_written seat node.old)) }
{
    if fold_literal(alloc, node, seat)? {
        Ok(true)
    } else {
        fold_summed(alloc, node, seat)
    }
}

/// A binary operator over constants becomes the literal of its value, `typeof a + ""` `typeof a`,
/// `a + "s" + "t"` `a + "st"`, `a & 6 & 3` `a & 2`, and a sum with a template one template, each
/// where it is lighter. The answer says whether one did; the only error is that memory runs out,
/// and then the expression is fit only to be dropped.
pub fn fold_binary_expr(alloc: Global, node: &mut Node, seat: Seat) -> Result<bool, OutOfMemory>
    ensures tree { OnOk result (node.new ≡ unwrap_or (name.binary_expression_written seat node.old) node.old) }
    ensures said { IfOk result (λ changed. changed ≡ is_some (name.binary_expression_written seat node.old)) }
{
    match binary_operator(node) {
        Some(_) => fold_operator(alloc, node, seat),
        None => Ok(false),
    }
}
