//! The rows on templates, keys and assignments: 19, 33 and 34. Each function makes what one form of
//! a row writes for a node, if it fits. The only error is that memory runs out.

ghost use Rattle.std.specs.Prelude.{◌≡◌, ◌<◌, ◌&&◌, true, Some, option_and_then, option_map, IfOk, IfSome};
ghost use Rattle.std.specs.Option.{option_copied};
ghost use Rattle.mini_model.specs.Tree.{children, count, leaf, none, ◌▸◌, shape_of};
ghost use Rattle.mini_model.specs.Numerals.{safe_number};
ghost use Rattle.mini_model.specs.declared.shape.Shape.TheVariants.{IdentifierName};
ghost use Rattle.mini_node.specs.Children.{is_bare, names, names_of, part};
ghost use Rattle.mini_node.specs.Equal.{same_tree};
ghost use Rattle.mini_node.specs.Kinds as kind;
ghost use Rattle.mini_log.specs.Terms as term;
ghost use Rattle.mini_log.specs.SpellingRows as row;
ghost use Rattle.mini_checker.specs.Forms.{marked};

use crate::copying::copy_node;
use crate::spellings::is_text_template;
use mini_context::Scopes;
use mini_model::{
    AssignmentOperator, LogicalOperator, Name, OutOfMemory, Shape, SymbolId, Text, UpdateOperator,
    equivalent_number, is_identifier_name,
};
use mini_node::{
    Node, Nodes, assignment, assignment_operator, computed_member, is_computed_member,
    is_identifier, is_same_tree, logical_operator, numeric_literal, of_one, of_two, string,
    string_literal,
};
use mini_terms::copied;
use std::alloc::Global;

// ---- 19

fn piece_text(alloc: Global, shape: &Shape) -> Result<Option<Node>, OutOfMemory>
    ensures { IfOk result (λ w. w ≡ row.piece_text shape.now) }
{
    match shape {
        Shape::TemplateElement(_, raw, Some(cooked)) => {
            if cooked.text().len() <= raw.text().len() {
                let text = copied(alloc, cooked.text().as_slice())?;
                Ok(Some(string_literal(alloc, text)))
            } else {
                Ok(None)
            }
        }
        _ => Ok(None),
    }
}

/// 19: a template without expressions becomes its text.
pub fn untemplated(alloc: Global, node: &Node) -> Result<Option<Node>, OutOfMemory>
    ensures { IfOk result (λ w. w ≡ row.untemplated node.now) }
{
    if is_text_template(node) {
        piece_text(alloc, node.child(0).child(0).shape())
    } else {
        Ok(None)
    }
}

// ---- 33

// The text in quotes that is the child at an index.
#[tactic(auto, using(mini_node::specs::Walks::no_child))]
fn text_at(node: &Node, at: usize) -> Option<&Text>
    ensures value { option_copied result ≡ kind.string (part node.now at) }
    ensures parts { IfSome result (λ text. at < count (children node.now)) }
{
    if at < node.children().len() {
        string(node.child(at))
    } else {
        None
    }
}

fn optional_member(node: &Node) -> Option<bool>
    ensures kind { result ≡ row.optional_member node.now }
    ensures parts { IfSome result (λ o. count (children node.now) ≡ 2) }
{
    match node.shape() {
        Shape::ComputedMemberExpression(is_optional) if node.is_bare(2) => Some(*is_optional),
        _ => None,
    }
}

// `o.x`
fn named(alloc: Global, node: &Node, text: &Text, is_optional: bool) -> Result<Node, OutOfMemory>
    requires { count (children node.now) ≡ 2 }
    ensures { IfOk result (λ w. w ≡ row.static_member is_optional (part node.now 0) (leaf (IdentifierName text.now))) }
{
    let name = copied(alloc, text.as_slice())?;
    let object = copy_node(alloc, node.child(0))?;
    let key = Node::leaf(alloc, Shape::IdentifierName(name));
    let children = of_two(alloc, object, key)?;
    Ok(Node::new(Shape::StaticMemberExpression(is_optional), children))
}

fn named_by(
    alloc: Global,
    node: &Node,
    text: &Text,
    is_optional: bool,
) -> Result<Option<Node>, OutOfMemory>
    requires { count (children node.now) ≡ 2 }
    ensures { IfOk result (λ w. w ≡ row.named_by node.now text.now is_optional) }
{
    if is_identifier_name(text) {
        Ok(Some(named(alloc, node, text, is_optional)?))
    } else {
        Ok(None)
    }
}

fn named_text(alloc: Global, node: &Node, text: &Text) -> Result<Option<Node>, OutOfMemory>
    ensures { IfOk result (λ w. w ≡ option_and_then (row.named_by node.now text.now) (row.optional_member node.now)) }
{
    match optional_member(node) {
        Some(is_optional) => named_by(alloc, node, text, is_optional),
        None => Ok(None),
    }
}

fn numbered_by(alloc: Global, node: &Node, number: i64) -> Result<Option<Node>, OutOfMemory>
    ensures { IfOk result (λ w. w ≡ row.numbered_by node.now number) }
{
    if is_computed_member(node) {
        let object = copy_node(alloc, node.child(0))?;
        let key = numeric_literal(alloc, number);
        Ok(Some(computed_member(alloc, object, key)?))
    } else {
        Ok(None)
    }
}

fn numbered_text(alloc: Global, node: &Node, text: &Text) -> Result<Option<Node>, OutOfMemory>
    ensures { IfOk result (λ w. w ≡ option_and_then (row.numbered_by node.now) (safe_number text.now)) }
{
    match equivalent_number(text) {
        Some(number) => numbered_by(alloc, node, number),
        None => Ok(None),
    }
}

fn dotted_text(alloc: Global, node: &Node, text: &Text) -> Result<Option<Node>, OutOfMemory>
    requires { kind.string (part node.now 1) ≡ Some text.now }
    ensures { IfOk result (λ w. w ≡ row.dotted node.now) }
{
    match named_text(alloc, node, text)? {
        Some(made) => Ok(Some(made)),
        None => numbered_text(alloc, node, text),
    }
}

/// 33: `o["x"]` becomes `o.x`, and `o["1"]` `o[1]`.
pub fn dotted(alloc: Global, node: &Node) -> Result<Option<Node>, OutOfMemory>
    ensures { IfOk result (λ w. w ≡ row.dotted node.now) }
{
    match text_at(node, 1) {
        Some(text) => dotted_text(alloc, node, text),
        None => Ok(None),
    }
}

fn dotted_target_by(
    alloc: Global,
    node: &Node,
    operator: AssignmentOperator,
) -> Result<Option<Node>, OutOfMemory>
    requires { count (children node.now) ≡ 2 }
    ensures { IfOk result (λ w. w ≡ option_map (λ m. kind.assignment operator m (part node.now 1)) (row.dotted (part node.now 0))) }
{
    match dotted(alloc, node.child(0))? {
        Some(target) => {
            let value = copy_node(alloc, node.child(1))?;
            Ok(Some(assignment(alloc, operator, target, value)?))
        }
        None => Ok(None),
    }
}

/// 33, of what is assigned to.
pub fn dotted_target(alloc: Global, node: &Node) -> Result<Option<Node>, OutOfMemory>
    ensures { IfOk result (λ w. w ≡ row.dotted_target node.now) }
{
    match assignment_operator(node) {
        Some(operator) => dotted_target_by(alloc, node, operator),
        None => Ok(None),
    }
}

fn dotted_update_by(
    alloc: Global,
    node: &Node,
    operator: UpdateOperator,
    is_prefix: bool,
) -> Result<Option<Node>, OutOfMemory>
    requires { count (children node.now) ≡ 1 }
    ensures { IfOk result (λ w. w ≡ row.updated_by node.now (operator, is_prefix)) }
{
    match dotted(alloc, node.child(0))? {
        Some(target) => {
            let nodes = of_one(alloc, target)?;
            let shape = Shape::UpdateExpression(operator, is_prefix);
            Ok(Some(Node::new(shape, nodes)))
        }
        None => Ok(None),
    }
}

/// 33, of what is updated.
pub fn dotted_update(alloc: Global, node: &Node) -> Result<Option<Node>, OutOfMemory>
    ensures { IfOk result (λ w. w ≡ row.dotted_update node.now) }
{
    match node.shape() {
        Shape::UpdateExpression(operator, is_prefix) if node.is_bare(1) => {
            dotted_update_by(alloc, node, *operator, *is_prefix)
        }
        _ => Ok(None),
    }
}

// ---- 34

fn deciding(operator: LogicalOperator) -> AssignmentOperator
    ensures { result ≡ row.deciding operator }
{
    match operator {
        LogicalOperator::Or => AssignmentOperator::LogicalOr,
        LogicalOperator::And => AssignmentOperator::LogicalAnd,
        LogicalOperator::Coalesce => AssignmentOperator::LogicalNullish,
    }
}

fn has_writable(scopes: &Scopes, symbol: Option<SymbolId>) -> bool
    ensures { result ≡ row.has_writable (marked scopes.now.writable) symbol }
{
    match symbol {
        Some(symbol) => scopes.is_mentioned_writable(symbol),
        None => false,
    }
}

fn is_writable_name(scopes: &Scopes, name: &Option<Name>) -> bool
    ensures { result ≡ row.is_writable_name (marked scopes.now.writable) (names name.now) }
{
    match name {
        Some(name) => has_writable(scopes, name.symbol),
        None => false,
    }
}

fn is_writable(scopes: &Scopes, node: &Node) -> bool
    ensures { result ≡ row.is_writable (marked scopes.now.writable) node.now }
{
    is_identifier(node) && is_writable_name(scopes, node.name())
}

fn is_plain_assignment(node: &Node) -> bool
    ensures kind { result ≡ term.is_assign (kind.assignment_operator node.now) }
    ensures parts { result ≡ true → count (children node.now) ≡ 2 }
{
    match assignment_operator(node) {
        Some(AssignmentOperator::Assign) => true,
        _ => false,
    }
}

fn combines(scopes: &Scopes, node: &Node) -> bool
    requires parts { count (children node.now) ≡ 2 }
    requires inner { count (children (part node.now 1)) ≡ 2 }
    ensures { result ≡ (row.is_writable (marked scopes.now.writable) (part node.now 0) && same_tree (part node.now 0) (part (part node.now 1) 0)) }
{
    is_writable(scopes, node.child(0)) && is_same_tree(node.child(0), node.child(1).child(0))
}

fn combined_by(
    alloc: Global,
    scopes: &Scopes,
    node: &Node,
    operator: LogicalOperator,
) -> Result<Option<Node>, OutOfMemory>
    requires kind { term.is_assign (kind.assignment_operator node.now) ≡ true }
    requires parts { count (children node.now) ≡ 2 }
    requires inner { count (children (part node.now 1)) ≡ 2 }
    ensures { IfOk result (λ w. w ≡ row.combined_by (marked scopes.now.writable) node.now operator) }
{
    if combines(scopes, node) {
        let target = copy_node(alloc, node.child(0))?;
        let value = copy_node(alloc, node.child(1).child(1))?;
        Ok(Some(assignment(alloc, deciding(operator), target, value)?))
    } else {
        Ok(None)
    }
}

fn combined_logical(
    alloc: Global,
    scopes: &Scopes,
    node: &Node,
) -> Result<Option<Node>, OutOfMemory>
    requires kind { term.is_assign (kind.assignment_operator node.now) ≡ true }
    requires parts { count (children node.now) ≡ 2 }
    ensures { IfOk result (λ w. w ≡ row.combined (marked scopes.now.writable) node.now) }
{
    match logical_operator(node.child(1)) {
        Some(operator) => combined_by(alloc, scopes, node, operator),
        None => Ok(None),
    }
}

/// 34: `x = x || b` becomes `x ||= b`, where x is declared and can be written.
pub fn combined(alloc: Global, scopes: &Scopes, node: &Node) -> Result<Option<Node>, OutOfMemory>
    ensures { IfOk result (λ w. w ≡ row.combined (marked scopes.now.writable) node.now) }
{
    if is_plain_assignment(node) {
        combined_logical(alloc, scopes, node)
    } else {
        Ok(None)
    }
}
