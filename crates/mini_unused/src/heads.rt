//! What may stand right after a declaration, for 71, and reads its name before all else:
//! `return x;`, `let y = x.b;`, `switch (x) { .. }`, `for (const y of x) ..`.

ghost use Rattle.std.specs.Prelude.{◌≡◌, ◌<◌, true, false};
ghost use Rattle.mini_model.specs.Tree.{children, count};
ghost use Rattle.mini_node.specs.Children.{part};
ghost use Rattle.mini_rows.specs.Unused as reading;
ghost use Rattle.mini_unused.specs.SubstituteSingleUse as row;

use crate::declarations::{declares_list, is_lexical};
use crate::declares::{is_bare_var, is_var_shape};
use crate::first_reads::{is_childless, is_first};
use crate::mentions::{is_mentioned, is_mentioned_from};
use crate::next_uses::is_declarator;
use crate::passing::{are_passed, is_value_operator, is_written_value};
use mini_model::{Name, Shape};
use mini_node::Node;

// A statement that evaluates its first part before all else.
fn is_head(node: &Node) -> bool
    ensures { result ≡ row.is_head node.now }
{
    let has_shape = matches!(
        node.shape(),
        Shape::ExpressionStatement
            | Shape::ReturnStatement
            | Shape::ThrowStatement
            | Shape::IfStatement
    );
    has_shape && node.is_nameless()
}

// A statement that evaluates its first part before all else reads the variable first in that, and
// nothing else in it mentions the name.
#[tactic(auto, using(crate::proofs::SingleUses::no_part, crate::proofs::SingleUses::no_head))]
fn reads_first(name: &Name, node: &Node) -> bool
    ensures { result ≡ reading.reads_first name.now node.now }
{
    if node.children().len() == 0 {
        return false;
    }
    if !is_head(node) {
        return false;
    }
    if !is_first(name, false, node.child(0)) {
        return false;
    }
    !is_mentioned_from(name, node.children(), 1)
}

// A declarator does in its initializer.
fn reads_declarator(name: &Name, node: &Node) -> bool
    ensures { result ≡ reading.reads_declarator name.now node.now }
{
    is_declarator(node)
        && is_first(name, false, node.child(1))
        && !is_mentioned(name, node.child(0))
}

// Of some declarators the first does.
fn reads_declarators(name: &Name, node: &Node) -> bool
    ensures { result ≡ reading.reads_declarators name.now node.now }
{
    !is_childless(node)
        && reads_declarator(name, node.child(0))
        && !is_mentioned_from(name, node.children(), 1)
}

// A declaration, of whatever kind, reads the variable first in its first initializer.
fn reads_initially(name: &Name, node: &Node) -> bool
    ensures { result ≡ reading.reads_initially name.now node.now }
{
    declares_list(node) && reads_declarators(name, node.child(0))
}

// `switch (e) { .. }`, and a `for`.
fn opens_scope(node: &Node) -> bool
    ensures value { result ≡ reading.opens_scope node.now }
    ensures some { result ≡ true → 0 < count (children node.now) }
{
    matches!(node.shape(), Shape::SwitchStatement) && node.is_bare(2)
        || matches!(node.shape(), Shape::ForStatement) && node.is_bare(4)
}

// It reads the variable before all else, outside of the scope that it opens.
fn reads_outside(name: &Name, node: &Node) -> bool
    ensures { result ≡ reading.reads_outside name.now node.now }
{
    opens_scope(node)
        && is_first(name, false, node.child(0))
        && !is_mentioned_from(name, node.children(), 1)
}

// A name, a member or a pattern, as a loop over keys or values assigns to it.
fn is_target(shape: &Shape) -> bool
    ensures { result ≡ reading.is_target_shape shape.now }
{
    matches!(
        shape,
        Shape::Identifier
            | Shape::StaticMemberExpression(_)
            | Shape::ComputedMemberExpression(_)
            | Shape::ObjectAssignmentTarget
            | Shape::ArrayAssignmentTarget
    )
}

// The left side of such a loop that declares no lexical name.
fn is_open_left(node: &Node) -> bool
    ensures { result ≡ reading.is_open_left node.now }
{
    is_target(node.shape()) || is_bare_var(node)
}

// `for (l in e) ..` and `for (l of e) ..` with such a left side.
fn goes_over(node: &Node) -> bool
    ensures value { result ≡ reading.goes_over node.now }
    ensures parts { result ≡ true → count (children node.now) ≡ 3 }
{
    matches!(node.shape(), Shape::ForInStatement | Shape::ForOfStatement)
        && node.is_bare(3)
        && is_open_left(node.child(0))
}

// It reads the variable in its right side.
fn reads_over(name: &Name, node: &Node) -> bool
    ensures { result ≡ reading.reads_over name.now node.now }
{
    goes_over(node)
        && is_first(name, false, node.child(1))
        && !is_mentioned(name, node.child(0))
        && !is_mentioned_from(name, node.children(), 2)
}

// A `for` that begins with a `var`, with a first declarator.
fn begins_var(node: &Node) -> bool
    ensures value { result ≡ reading.begins_var node.now }
    ensures begins { result ≡ true → 0 < count (children node.now) }
    ensures list { result ≡ true → 0 < count (children (part node.now 0)) }
    ensures some { result ≡ true → 0 < count (children (part (part node.now 0) 0)) }
    ensures parts { result ≡ true → 1 < count (children (part (part (part node.now 0) 0) 0)) }
{
    matches!(node.shape(), Shape::ForStatement)
        && node.is_bare(4)
        && is_var_shape(node.child(0).shape())
        && has_declarator(node.child(0))
}

// It reads the variable in that declarator.
fn reads_begun(name: &Name, node: &Node) -> bool
    ensures { result ≡ reading.reads_begun name.now node.now }
{
    begins_var(node)
        && reads_initially(name, node.child(0))
        && !is_mentioned_from(name, node.children(), 1)
}

/// What may stand right after the declaration.
pub fn reads_head(name: &Name, node: &Node) -> bool
    ensures { result ≡ reading.reads_head name.now node.now }
{
    reads_first(name, node)
        || reads_initially(name, node)
        || reads_outside(name, node)
        || reads_over(name, node)
        || reads_begun(name, node)
}

// A declaration with a first declarator.
fn has_declarator(node: &Node) -> bool
    ensures value { result ≡ reading.has_declarator node.now }
    ensures list { result ≡ true → 0 < count (children node.now) }
    ensures some { result ≡ true → 0 < count (children (part node.now 0)) }
    ensures parts { result ≡ true → 1 < count (children (part (part node.now 0) 0)) }
{
    declares_list(node) && !is_childless(node.child(0)) && is_declarator(node.child(0).child(0))
}

// Its initializer.
fn first_value(node: &Node) -> &Node
    requires list { 0 < count (children node.now) }
    requires some { 0 < count (children (part node.now 0)) }
    requires parts { 1 < count (children (part (part node.now 0) 0)) }
    ensures { result.now ≡ reading.first_value node.now }
{
    node.child(0).child(0).child(1)
}

/// What a head evaluates: of a declaration, and of a `var` that begins a `for`, the first
/// initializer, and of a loop over keys or values its right side.
pub fn evaluated(node: &Node) -> &Node
    ensures { result.now ≡ reading.evaluated node.now }
{
    if has_declarator(node) {
        first_value(node)
    } else if goes_over(node) {
        node.child(1)
    } else if begins_var(node) {
        first_value(node.child(0))
    } else {
        node
    }
}

// A `for` that begins with a `let` or a `const`, with a first declarator.
fn begins_let(node: &Node) -> bool
    ensures value { result ≡ reading.begins_let node.now }
    ensures begins { result ≡ true → 0 < count (children node.now) }
    ensures list { result ≡ true → 0 < count (children (part node.now 0)) }
    ensures some { result ≡ true → 0 < count (children (part (part node.now 0) 0)) }
    ensures parts { result ≡ true → 1 < count (children (part (part (part node.now 0) 0) 0)) }
{
    matches!(node.shape(), Shape::ForStatement)
        && node.is_bare(4)
        && is_lexical(node.child(0).shape())
        && has_declarator(node.child(0))
}

// It reads the variable in that declarator.
fn reads_let(name: &Name, node: &Node) -> bool
    ensures { result ≡ reading.reads_let name.now node.now }
{
    begins_let(node)
        && reads_initially(name, node.child(0))
        && !is_mentioned_from(name, node.children(), 1)
}

// `for (let l in e) ..` and `for (const l of e) ..`.
fn goes_over_let(node: &Node) -> bool
    ensures value { result ≡ reading.goes_over_let node.now }
    ensures parts { result ≡ true → count (children node.now) ≡ 3 }
{
    matches!(node.shape(), Shape::ForInStatement | Shape::ForOfStatement)
        && node.is_bare(3)
        && is_lexical(node.child(0).shape())
}

// It reads the variable in its right side.
fn reads_over_let(name: &Name, node: &Node) -> bool
    ensures { result ≡ reading.reads_over_let name.now node.now }
{
    goes_over_let(node)
        && is_first(name, false, node.child(1))
        && !is_mentioned(name, node.child(0))
        && !is_mentioned_from(name, node.children(), 2)
}

// A loop that hides its names first reads it.
fn reads_hidden(name: &Name, node: &Node) -> bool
    ensures { result ≡ reading.reads_hidden name.now node.now }
{
    reads_let(name, node) || reads_over_let(name, node)
}

/// What such a loop evaluates before all else.
pub fn evaluated_hidden(node: &Node) -> &Node
    ensures { result.now ≡ reading.evaluated_hidden node.now }
{
    if begins_let(node) {
        first_value(node.child(0))
    } else if goes_over_let(node) {
        node.child(1)
    } else {
        node
    }
}

// A number, a text, a boolean or null, and nothing in it.
fn is_literal(node: &Node) -> bool
    ensures { result ≡ reading.is_literal node.now }
{
    is_written_value(node.shape()) && node.is_bare(0)
}

// A constant with nothing else in it.
fn is_closed(node: &Node) -> bool
    ensures { result ≡ reading.is_closed node.now }
{
    is_literal(node)
        || (is_value_operator(node.shape()) && (node.is_bare(1) && is_literal(node.child(0))))
}

/// A head reads it, after parts that pass the initializer, and takes that: a loop that hides its
/// names first takes a constant alone.
pub fn takes(name: &Name, init: &Node, node: &Node) -> bool
    ensures { result ≡ reading.takes name.now init.now node.now }
{
    (reads_head(name, node) && are_passed(name, init, evaluated(node)))
        || (is_closed(init)
            && (reads_hidden(name, node) && are_passed(name, init, evaluated_hidden(node))))
}
