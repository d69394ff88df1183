//! What is left of the parts of a sequence without those that have no effect (21):
//! `a(), 1, b(), 2, c()` becomes `a(), b(), c()`.

ghost use Rattle.std.specs.Prelude.{◌≡◌, ◌+◌, ◌<◌, ◌≤◌, ◌⊎◌, ◌&&◌, Bool, true, false, nat_le, IfOk};
ghost use Rattle.mini_model.specs.Tree.{Tree, children, count};
ghost use Rattle.mini_node.specs.Children.{part};
ghost use Rattle.mini_node.specs.Kinds.{is_sequence, sequence as sequence_of};
ghost use Rattle.mini_held.specs.Parts.{idle_before_last, left_after};

use mini_model::OutOfMemory;
use mini_node::{Node, Nodes, discard, one, sequence, taken};
use std::alloc::Global;

/// What tells which parts of a sequence have no effect and may go.
pub trait IdleParts {
    /// Which those are.
    ghost idle: { Tree → Bool };

    /// Whether a part is one of them.
    fn is_idle(&self, node: &Node) -> bool
        ensures { result ≡ idle node.now };
}

// Whether one of them may go, and is not the last.
fn loses_any<I: IdleParts>(test: &I, parts: &Nodes) -> bool
    ensures { result ≡ idle_before_last I.idle parts.now }
{
    for at in 0..parts.len().saturating_sub(1) {
        if test.is_idle(parts.child(at)) {
            return true;
        }
    }
    false
}

// Whether a part goes, where so many stay before it and so many stand after it.
fn is_gone<I: IdleParts>(test: &I, part: &Node, before: usize, after: usize) -> bool
    ensures goes { result ≡ true → (0 < after) × (nat_le 2 (before + after) && I.idle part.now ≡ true) }
    ensures stays { result ≡ false → (after ≤ 0) ⊎ (nat_le 2 (before + after) && I.idle part.now ≡ false) }
{
    after > 0 && (after > 1 || before > 0) && test.is_idle(part)
}

// Those that are left, in one walk.
fn left_of<I: IdleParts>(alloc: Global, test: &I, parts: Nodes) -> Result<Nodes, OutOfMemory>
    ensures { IfOk result (λ left. left ≡ left_after I.idle 0 parts) }
{
    let mut parts = parts;
    let mut left = Nodes::with_capacity(alloc, parts.len())?;
    for at in 0..parts.len() {
        let part = parts.take(at);
        let after = parts.len() - at - 1;
        if is_gone(test, &part, left.len(), after) {
            discard(part);
        } else {
            left.push(part)?;
        }
    }
    Ok(left)
}

/// Drops the parts of a sequence that may go, but its last one, and as long as two are left:
/// `a(), 1, b(), 2, c()` becomes `a(), b(), c()`, and `1, 2, a()` `2, a()`. The answer says whether
/// one went. The only error is that memory runs out, and then the sequence is fit only to be
/// dropped.
pub fn drop_parts<I: IdleParts>(
    alloc: Global,
    test: &I,
    node: &mut Node,
) -> Result<bool, OutOfMemory>
    requires parts { count (children node.old) ≡ 1 }
    requires kind { is_sequence node.old ≡ true }
    ensures said { IfOk result (λ changed. changed ≡ idle_before_last I.idle (children (part node.old 0))) }
    ensures left { IfOk result (λ changed. changed ≡ true → node.new ≡ sequence_of (left_after I.idle 0 (children (part node.old 0)))) }
    ensures same { IfOk result (λ changed. changed ≡ false → node.new ≡ node.old) }
{
    if !loses_any(test, node.child(0).children()) {
        return Ok(false);
    }
    let parts = one(taken(alloc, node)).into_children();
    let left = left_of(alloc, test, parts)?;
    *node = sequence(alloc, left)?;
    Ok(true)
}
