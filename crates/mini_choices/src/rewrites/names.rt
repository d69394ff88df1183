//! Rewrites and readers that stand in larger ones, each by itself: row 64 alone, the links of 46
//! over a value that the caller has, and the name of an expression that is one or assigns to one.

ghost use Rattle.std.specs.Prelude.{◌≡◌, true, is_some, unwrap_or, if◌then◌else◌, option_copied, OnOk, IfOk};
ghost use Rattle.mini_rows.specs.Spellings.{void_zero as void_zero_of};
ghost use Rattle.mini_choices.specs.Names as name;

use crate::assigning::{assigns_name, is_declared};
use crate::rewrites::chain_links::{fold_outermost, is_chain};
use crate::rewrites::fold_chain_expr::void_zero;
use crate::rewrites::inject_optional_chaining::{is_eval, is_spine, optional_over};
use mini_model::{OutOfMemory, Shape};
use mini_node::{Node, is_identifier, of_one, taken};
use std::alloc::Global;

/// `(a?.b)?.c` becomes `a?.b?.c`, whatever links stand outside. The answer says whether it did; the
/// only error is that memory runs out, and then the expression is fit only to be dropped.
pub fn substitute_chain_expression(alloc: Global, node: &mut Node) -> Result<bool, OutOfMemory>
    ensures tree { OnOk result (node.new ≡ unwrap_or (name.chain_written node.old) node.old) }
    ensures said { IfOk result (λ changed. changed ≡ is_some (name.chain_written node.old)) }
{
    if !is_chain(node) {
        return Ok(false);
    }
    fold_outermost(alloc, node, false)
}

/// The name, where an expression is one, and the one that it assigns to, where it is an assignment
/// by `=` to a name: x of `x` and of `x = a`. None of everything else.
pub fn extract_id_or_assign_to_id(expression: &Node) -> Option<&Node>
    ensures { option_copied result ≡ name.assigned_name expression.now }
{
    if is_identifier(expression) {
        return Some(expression);
    }
    if assigns_name(expression) {
        return Some(expression.child(0));
    }
    None
}

// Whether it is of links over the name, which a scope declares, and which isn't `eval`.
fn reads_target(target: &Node, expression: &Node) -> bool
    ensures { result ≡ name.reads_target target.now expression.now }
{
    is_identifier(target)
        && is_declared(target)
        && !is_eval(target.name())
        && is_spine(target, expression)
}

/// Where an expression is a member, a call or more of these over the name, which a scope declares,
/// and which isn't `eval`, the value goes into the place of the name, the first link becomes
/// optional, and the expression a chain: of `x.m(b)` and the value `x = a` it makes
/// `(x = a)?.m(b)`, and leaves `void 0` as the value. Else nothing changes. The answer says whether
/// it did; the only error is that memory runs out, and then both are fit only to be dropped.
pub fn inject_optional_chaining_if_matched(
    alloc: Global,
    target: &Node,
    value: &mut Node,
    expression: &mut Node,
) -> Result<bool, OutOfMemory>
    ensures tree { OnOk result (expression.new ≡ name.injected target.now value.old expression.old) }
    ensures left { OnOk result (value.new ≡ (if name.reads_target target.now expression.old then void_zero_of else value.old)) }
    ensures said { IfOk result (λ changed. changed ≡ name.reads_target target.now expression.old) }
{
    if !reads_target(target, expression) {
        return Ok(false);
    }
    let links = optional_over(alloc, taken(alloc, value), taken(alloc, expression))?;
    *expression = Node::new(Shape::ChainExpression, of_one(alloc, links)?);
    *value = void_zero(alloc)?;
    Ok(true)
}
