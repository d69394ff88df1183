//! Tests of statements that several rewrites ask.

ghost use Rattle.std.specs.Prelude.{◌≡◌, true};
ghost use Rattle.mini_model.specs.Tree.{children, count};
ghost use Rattle.mini_rows.specs.Lists.{is_unscoped as is_it_unscoped};
ghost use Rattle.mini_rows.specs.Branches.{has_else as it_has_else, is_other_branch as is_another_branch};
ghost use Rattle.mini_rows.specs.Turns.{may_choose as it_may_choose, is_unchained as is_it_unchained};

use mini_model::{Shape, VariableDeclarationKind};
use mini_node::Node;

/// Whether the statement declares nothing in the list round it but names of `var`.
pub fn is_unscoped(node: &Node) -> bool
    ensures { result ≡ is_it_unscoped node.now }
{
    match node.shape() {
        Shape::ExpressionStatement
        | Shape::EmptyStatement
        | Shape::DebuggerStatement
        | Shape::BlockStatement
        | Shape::LabeledStatement
        | Shape::BreakStatement
        | Shape::ContinueStatement
        | Shape::ReturnStatement
        | Shape::ThrowStatement
        | Shape::IfStatement
        | Shape::SwitchStatement
        | Shape::TryStatement
        | Shape::WhileStatement
        | Shape::DoWhileStatement
        | Shape::ForStatement
        | Shape::ForInStatement
        | Shape::ForOfStatement
        | Shape::VariableDeclaration(VariableDeclarationKind::Var) => true,
        _ => false,
    }
}

/// Whether the statement is an `if` with `else`.
#[tactic(auto, using(crate::proofs::Alternates::has_else_three, crate::proofs::Alternates::has_else_fewer))]
pub fn has_else(node: &Node) -> bool
    ensures { result ≡ it_has_else node.now }
{
    match node.shape() {
        Shape::IfStatement => {
            node.children().len() > 2 && !matches!(node.child(2).shape(), Shape::Absent)
        }
        _ => false,
    }
}

/// Whether the branch is there, and is no expression statement.
pub fn is_other_branch(node: &Node) -> bool
    ensures { result ≡ is_another_branch node.now }
{
    !matches!(
        node.shape(),
        Shape::ExpressionStatement | Shape::InnerExpression | Shape::Absent
    )
}

/// Whether it is an `if` with `else`, or a list, which weighs as one might.
pub fn may_choose(node: &Node) -> bool
    ensures { result ≡ it_may_choose node.now }
{
    match node.shape() {
        Shape::IfStatement => has_else(node),
        Shape::Listed => true,
        _ => false,
    }
}

/// Whether the alternate is there, and no `if`.
pub fn is_unchained(node: &Node) -> bool
    ensures { result ≡ is_it_unchained node.now }
{
    !matches!(
        node.shape(),
        Shape::IfStatement | Shape::InnerExpression | Shape::Absent
    )
}
