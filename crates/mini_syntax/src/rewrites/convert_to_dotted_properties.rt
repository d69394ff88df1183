//! Row 33: `o["x"]` becomes `o.x`, and `o["1"]` becomes `o[1]`, also where the member is assigned
//! to or updated. It is lighter in every seat.

ghost use Rattle.std.specs.Prelude.{◌≡◌, true, is_some, unwrap_or, OnOk, IfOk};
ghost use Rattle.std.specs.Option.{option_copied};
ghost use Rattle.mini_model.specs.Tree.{children, count};
ghost use Rattle.mini_node.specs.Kinds.{string as text_of, assignment_operator as operator_of};
ghost use Rattle.mini_syntax.specs.ConvertToDottedProperties.{is_name_text, number_of_text, named_member as its_named_member, numbered_member as its_numbered_member, text_in, as_name as the_name, dotted as dotted_of, numbered as numbered_of, turned, assigned, updated, update_operator, written};

use mini_model::{OutOfMemory, Shape, Text, equivalent_number, is_identifier_name};
use mini_node::{
    Node, computed_member, is_computed_member, numeric_literal, of_two, one, string, taken, two,
};
use std::alloc::Global;
use std::mem;

/// Whether it is a text that is an identifier's name.
pub fn is_name(node: &Node) -> bool
    ensures { result ≡ is_name_text (text_of node.now) }
{
    match string(node) {
        Some(text) => is_identifier_name(text),
        None => false,
    }
}

/// The number that a text writes.
pub fn number_of(node: &Node) -> Option<i64>
    ensures { result ≡ number_of_text (text_of node.now) }
{
    match string(node) {
        Some(text) => equivalent_number(text),
        None => None,
    }
}

// `o["x"]`: whether it is optional
fn named_member(node: &Node) -> Option<bool>
    ensures { result ≡ its_named_member node.now }
{
    match node.shape() {
        Shape::ComputedMemberExpression(is_optional) if node.is_bare(2) && is_name(node.child(1)) =>
            { Some(*is_optional) }
        _ => None,
    }
}

// `o["1"]`: the number
fn numbered_member(node: &Node) -> Option<i64>
    ensures { result ≡ its_numbered_member node.now }
{
    if is_computed_member(node) {
        number_of(node.child(1))
    } else {
        None
    }
}

// The text in quotes.
fn take_text(alloc: Global, mut shape: Shape) -> Text
    ensures { result ≡ text_in shape }
{
    match &mut shape {
        Shape::StringLiteral(text) => mem::replace(text, Text::new(alloc)),
        _ => Text::new(alloc),
    }
}

/// The name that a text in quotes is.
pub fn as_name(alloc: Global, property: Node) -> Node
    ensures { result ≡ the_name property }
{
    let (shape, _, _, _) = property.into_parts();
    Node::leaf(alloc, Shape::IdentifierName(take_text(alloc, shape)))
}

// `o.x`
fn dotted(alloc: Global, is_optional: bool, node: Node) -> Result<Node, OutOfMemory>
    ensures { IfOk result (λ w. w ≡ dotted_of is_optional node) }
{
    let (object, property) = two(node);
    let children = of_two(alloc, object, as_name(alloc, property))?;
    Ok(Node::new(Shape::StaticMemberExpression(is_optional), children))
}

// `o[1]`
fn numbered(alloc: Global, number: i64, node: Node) -> Result<Node, OutOfMemory>
    ensures { IfOk result (λ w. w ≡ numbered_of number node) }
{
    computed_member(alloc, one(node), numeric_literal(alloc, number))
}

// `o.x` or `o[1]`
fn turn(alloc: Global, node: &mut Node) -> Result<bool, OutOfMemory>
    ensures tree { OnOk result (node.new ≡ unwrap_or (turned node.old) node.old) }
    ensures said { IfOk result (λ changed. changed ≡ is_some (turned node.old)) }
{
    if let Some(is_optional) = named_member(node) {
        *node = dotted(alloc, is_optional, taken(alloc, node))?;
        return Ok(true);
    }
    if let Some(number) = numbered_member(node) {
        *node = numbered(alloc, number, taken(alloc, node))?;
        return Ok(true);
    }
    Ok(false)
}

// `o["x"] = v`, by any operator
fn is_assignment(node: &Node) -> bool
    ensures kind { result ≡ is_some (operator_of node.now) }
    ensures parts { result ≡ true → count (children node.now) ≡ 2 }
{
    match node.shape() {
        Shape::AssignmentExpression(_) => node.is_bare(2),
        _ => false,
    }
}

fn turn_assigned(alloc: Global, node: &mut Node) -> Result<bool, OutOfMemory>
    ensures tree { OnOk result (node.new ≡ unwrap_or (assigned node.old) node.old) }
    ensures said { IfOk result (λ changed. changed ≡ is_some (assigned node.old)) }
{
    if !is_assignment(node) {
        return Ok(false);
    }
    let changed = turn(alloc, node.children_mut().child_mut(0))?;
    Ok(changed)
}

// `o["x"]++`, or another update
fn is_update(node: &Node) -> bool
    ensures kind { result ≡ is_some (update_operator node.now) }
    ensures parts { result ≡ true → count (children node.now) ≡ 1 }
{
    match node.shape() {
        Shape::UpdateExpression(_, _) => node.is_bare(1),
        _ => false,
    }
}

fn turn_updated(alloc: Global, node: &mut Node) -> Result<bool, OutOfMemory>
    ensures tree { OnOk result (node.new ≡ unwrap_or (updated node.old) node.old) }
    ensures said { IfOk result (λ changed. changed ≡ is_some (updated node.old)) }
{
    if !is_update(node) {
        return Ok(false);
    }
    let changed = turn(alloc, node.children_mut().child_mut(0))?;
    Ok(changed)
}

/// `o["x"]` becomes `o.x`, and `o["1"]` becomes `o[1]`, also where the member is assigned to or
/// updated. The answer says whether it did; the only error is that memory runs out, and then the
/// expression is fit only to be dropped.
pub fn convert_to_dotted_properties(alloc: Global, node: &mut Node) -> Result<bool, OutOfMemory>
    ensures tree { OnOk result (node.new ≡ unwrap_or (written node.old) node.old) }
    ensures said { IfOk result (λ changed. changed ≡ is_some (written node.old)) }
{
    match node.shape() {
        Shape::ComputedMemberExpression(_) => turn(alloc, node),
        Shape::AssignmentExpression(_) => turn_assigned(alloc, node),
        Shape::UpdateExpression(_, _) => turn_updated(alloc, node),
        _ => Ok(false),
    }
}
