//! Assignments to the exports of a module, which are told by name.

ghost use Rattle.std.specs.Prelude.{◌≡◌, ◌||◌, true, codes};
ghost use Rattle.mini_model.specs.Tree.{shape_of, children, count};
ghost use Rattle.mini_model.specs.Weight.{same_text};
ghost use Rattle.mini_node.specs.Children.{names};
ghost use Rattle.mini_node.specs.Kinds as kind;
ghost use Rattle.mini_rows.specs.Folding as row;

use mini_model::{AssignmentOperator, LogicalOperator, Name, Shape, Text};
use mini_node::{Node, assignment_operator, is_computed_member, is_identifier, is_static_member};

// The units of `module` and of `exports`.
const MODULE: [u16; 6] = [109, 111, 100, 117, 108, 101];

const EXPORTS: [u16; 7] = [101, 120, 112, 111, 114, 116, 115];

fn is_spelled_module(name: &Option<Name>) -> bool
    ensures { result ≡ row.is_spelled (names name.now) (codes "module") }
{
    match name {
        Some(name) => name.spelling.as_slice() == MODULE.as_slice(),
        None => false,
    }
}

fn is_module(node: &Node) -> bool
    ensures { result ≡ row.is_module node.now }
{
    is_identifier(node) && is_spelled_module(node.name())
}

fn is_exports_text(text: &Text) -> bool
    ensures { result ≡ same_text text.now (codes "exports") }
{
    text.as_slice() == EXPORTS.as_slice()
}

fn is_exports_key(node: &Node) -> bool
    ensures { result ≡ row.is_exports_by (shape_of node.now) }
{
    match node.shape() {
        Shape::IdentifierName(text) | Shape::StringLiteral(text) => is_exports_text(text),
        _ => false,
    }
}

// `a.x` or `a[x]`
fn is_member(node: &Node) -> bool
    ensures kind { result ≡ (kind.is_static_member node.now || kind.is_computed_member node.now) }
    ensures parts { result ≡ true → count (children node.now) ≡ 2 }
{
    is_static_member(node) || is_computed_member(node)
}

fn is_exports(node: &Node) -> bool
    ensures { result ≡ row.is_exports node.now }
{
    is_member(node) && is_module(node.child(0)) && is_exports_key(node.child(1))
}

fn is_plain_assignment(node: &Node) -> bool
    ensures kind { result ≡ row.is_plain_assignment (kind.assignment_operator node.now) }
    ensures parts { result ≡ true → count (children node.now) ≡ 2 }
{
    match assignment_operator(node) {
        Some(AssignmentOperator::Assign) => true,
        _ => false,
    }
}

/// Whether the right side of `&&` assigns to `module.exports` or to `module["exports"]`, by name
/// alone.
pub fn names_exports(operator: LogicalOperator, right: &Node) -> bool
    ensures { result ≡ row.names_exports operator right.now }
{
    match operator {
        LogicalOperator::And => is_plain_assignment(right) && is_exports(right.child(0)),
        _ => false,
    }
}
