//! What may be jumped to.

ghost use Rattle.std.specs.Prelude.{◌≡◌, [], ◌∷◌, ◌++◌, not, unwrap_or, Some, None, IfOk, if◌then◌else◌};
ghost use Rattle.mini_model.specs.Tree.{child_or_absent, shape_of};
ghost use Rattle.mini_laws.specs.Early.{no_targets as none, label_by, label_in, is_loop as is_loop_in, last_is_loop as last_is_loop_in, label_for, turned as turned_by, has_label as has_label_in, has_loop_label as has_loop_label_in, is_bad as is_bad_with, is_bad_jump as is_bad_jump_in};

use crate::declared::copy_text;
use crate::kinds::{is_labeled, is_loop as is_loop_shape, jump_of};
use mini_laws::{Jump, Label, Targets, Turn};
use mini_model::{OutOfMemory, OwnedList, Shape, Text};
use mini_node::{Node, Nodes};
use std::alloc::Global;

/// Nothing to jump to.
pub fn no_targets(alloc: Global) -> Targets
    ensures { result ≡ none }
{
    Targets {
        labels: OwnedList::new(alloc),
        breaks: false,
        continues: false,
        returns: false,
        yields: false,
    }
}

/// Whether a statement is a loop, labels aside.
#[cycle(loops)]
fn is_loop(node: &Node) -> bool
    ensures { result ≡ is_loop_in node.now }
{
    if is_labeled(node.shape()) {
        last_is_loop(node.children())
    } else {
        is_loop_shape(node.shape())
    }
}

/// Whether the last of some nodes is a loop, labels aside.
#[cycle(loops)]
fn last_is_loop(nodes: &Nodes) -> bool
    ensures { result ≡ last_is_loop_in nodes.now }
{
    let length = nodes.len();
    length > 0 && is_loop(nodes.child(length - 1))
}

fn copy_labels(alloc: Global, labels: &OwnedList<Label>) -> Result<OwnedList<Label>, OutOfMemory>
    ensures { IfOk result (λ copy. copy ≡ labels.now) }
{
    let mut copy = OwnedList::new(alloc);
    for label in labels.as_slice() {
        copy.push(Label {
            name: copy_text(alloc, &label.name)?,
            is_loop: label.is_loop,
        })?;
    }
    Ok(copy)
}

/// The text of a label of this shape.
fn label_text(alloc: Global, shape: &Shape) -> Result<Text, OutOfMemory>
    ensures { IfOk result (λ text. text ≡ unwrap_or (label_by shape.now) []) }
{
    match shape {
        Shape::IdentifierName(text) => copy_text(alloc, text),
        _ => Ok(OwnedList::new(alloc)),
    }
}

/// The text of the label among these children.
fn label_name(alloc: Global, nodes: &Nodes) -> Result<Text, OutOfMemory>
    ensures { IfOk result (λ text. text ≡ unwrap_or (label_in nodes.now) []) }
{
    if nodes.len() > 0 {
        label_text(alloc, nodes.child(0).shape())
    } else {
        Ok(OwnedList::new(alloc))
    }
}

/// Whether the second of these children is a loop.
fn is_loop_body(nodes: &Nodes) -> bool
    ensures { result ≡ is_loop_in (child_or_absent nodes.now 1) }
{
    nodes.len() > 1 && is_loop(nodes.child(1))
}

/// The label of a statement with these children.
fn label_of(alloc: Global, nodes: &Nodes) -> Result<Label, OutOfMemory>
    ensures { IfOk result (λ label. label ≡ label_for nodes.now) }
{
    Ok(Label {
        name: label_name(alloc, nodes)?,
        is_loop: is_loop_body(nodes),
    })
}

/// What a child can jump to, by how that differs from what its node can, by the node's children,
/// and by what the node can jump to.
pub fn turned(
    alloc: Global,
    turn: Turn,
    nodes: &Nodes,
    targets: &Targets,
) -> Result<Targets, OutOfMemory>
    ensures { IfOk result (λ inner. inner ≡ turned_by turn nodes.now targets.now) }
{
    let mut inner = no_targets(alloc);
    match turn {
        Turn::Outside => return Ok(inner),
        Turn::InFunction(yields) => {
            inner.returns = true;
            inner.yields = yields;
            return Ok(inner);
        }
        _ => {}
    }
    inner.labels = copy_labels(alloc, &targets.labels)?;
    inner.breaks = targets.breaks;
    inner.continues = targets.continues;
    inner.returns = targets.returns;
    inner.yields = targets.yields;
    match turn {
        Turn::InLoop => {
            inner.breaks = true;
            inner.continues = true;
        }
        Turn::InSwitch => inner.breaks = true,
        Turn::Labeled => inner.labels.push(label_of(alloc, nodes)?)?,
        _ => {}
    }
    Ok(inner)
}

/// Whether a label with this text is among these; or, for a `continue`, one of a loop.
#[cycle(has_label)]
fn has_label(text: &Text, labels: &[Label], of_loop: bool) -> bool
    ensures { result ≡ (if of_loop then has_loop_label_in text.now labels.now else has_label_in text.now labels.now) }
{
    match labels {
        [] => false,
        [label, rest @ ..] => (label.name.as_slice() == text.as_slice()
            && (!of_loop || label.is_loop))
            || has_label(text, rest, of_loop),
    }
}

/// Whether a jump without a label has no target.
fn is_bad_unlabeled(jump: Jump, targets: &Targets) -> bool
    ensures { result ≡ is_bad_with jump None targets.now }
{
    match jump {
        Jump::Break => !targets.breaks,
        Jump::Continue => !targets.continues,
        Jump::Label => false,
        Jump::Return => !targets.returns,
        Jump::Yield => !targets.yields,
        Jump::Nothing => false,
    }
}

/// Whether a jump with a label has no target; of a labeled statement, whether its label is one of
/// those around it.
fn is_bad_labeled(jump: Jump, text: &Text, targets: &Targets) -> bool
    ensures { result ≡ is_bad_with jump (Some text.now) targets.now }
{
    match jump {
        Jump::Break => !has_label(text, targets.labels.as_slice(), false),
        Jump::Continue => !has_label(text, targets.labels.as_slice(), true),
        Jump::Label => has_label(text, targets.labels.as_slice(), false),
        Jump::Return => !targets.returns,
        Jump::Yield => !targets.yields,
        Jump::Nothing => false,
    }
}

fn is_bad_by(jump: Jump, label: &Shape, targets: &Targets) -> bool
    ensures { result ≡ is_bad_with jump (label_by label.now) targets.now }
{
    match label {
        Shape::IdentifierName(text) => is_bad_labeled(jump, text, targets),
        _ => is_bad_unlabeled(jump, targets),
    }
}

/// Whether a node of this shape with these children is a jump without a target.
pub fn is_bad_jump(shape: &Shape, nodes: &Nodes, targets: &Targets) -> bool
    ensures { result ≡ is_bad_jump_in shape.now nodes.now targets.now }
{
    let jump = jump_of(shape);
    if nodes.len() > 0 {
        is_bad_by(jump, nodes.child(0).shape(), targets)
    } else {
        is_bad_unlabeled(jump, targets)
    }
}
