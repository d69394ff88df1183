//! Tests of statements and of expressions that the rows of lists ask.

ghost use Rattle.std.specs.Prelude.{◌≡◌, ◌&&◌, not, true, nat_eq};
ghost use Rattle.mini_model.specs.Tree.{children, count, is_absent};
ghost use Rattle.mini_node.specs.Children.{part};
ghost use Rattle.mini_node.specs.Kinds as kind;
ghost use Rattle.mini_log.specs.ListRows as row;
ghost use Rattle.mini_rows.specs.Lists as list;

use mini_model::{Shape, UnaryOperator, VariableDeclarationKind};
use mini_node::{Node, Nodes, is_block, is_expression_statement, is_sequence};

/// Whether the statement declares nothing in the list round it but names of `var`.
pub fn is_unscoped(node: &Node) -> bool
    ensures { result ≡ list.is_unscoped node.now }
{
    match node.shape() {
        Shape::ExpressionStatement
        | Shape::EmptyStatement
        | Shape::DebuggerStatement
        | Shape::BlockStatement
        | Shape::LabeledStatement
        | Shape::BreakStatement
        | Shape::ContinueStatement
        | Shape::ReturnStatement
        | Shape::ThrowStatement
        | Shape::IfStatement
        | Shape::SwitchStatement
        | Shape::TryStatement
        | Shape::WhileStatement
        | Shape::DoWhileStatement
        | Shape::ForStatement
        | Shape::ForInStatement
        | Shape::ForOfStatement
        | Shape::VariableDeclaration(VariableDeclarationKind::Var) => true,
        _ => false,
    }
}

// Whether each of the statements declares nothing in the list round it but names of `var`.
fn are_unscoped(nodes: &Nodes) -> bool
    ensures { result ≡ list.are_unscoped nodes.now }
{
    for at in 0..nodes.len() {
        if !is_unscoped(nodes.child(at)) {
            return false;
        }
    }
    true
}

/// Whether it is a block of statements that declare nothing in it but names of `var`.
pub fn is_loose_block(node: &Node) -> bool
    ensures kind { result ≡ (kind.is_block node.now && list.are_unscoped (children (part node.now 0))) }
    ensures parts { result ≡ true → count (children node.now) ≡ 1 }
{
    is_block(node) && are_unscoped(node.child(0).children())
}

/// Whether it is a block of one statement.
pub fn holds_one(node: &Node) -> bool
    ensures kind { result ≡ (kind.is_block node.now && nat_eq (count (children (part node.now 0))) 1) }
    ensures outer { result ≡ true → count (children node.now) ≡ 1 }
    ensures inner { result ≡ true → count (children (part node.now 0)) ≡ 1 }
{
    is_block(node) && node.child(0).children().len() == 1
}

// Whether there is a third child, and it isn't absent.
#[tactic(auto, using(crate::proofs::StatementTests::no_third))]
fn has_third(node: &Node) -> bool
    ensures { result ≡ not (is_absent (part node.now 2)) }
{
    node.children().len() > 2 && !matches!(node.child(2).shape(), Shape::Absent)
}

/// Whether it is an `if` with `else`.
pub fn has_else(node: &Node) -> bool
    ensures { result ≡ row.has_else node.now }
{
    matches!(node.shape(), Shape::IfStatement) && has_third(node)
}

// Whether the node declares nothing, as an expression does.
#[tactic(auto, using(crate::proofs::StatementTests::operand_declares, crate::proofs::StatementTests::no_operand))]
fn declares_nothing(node: &Node) -> bool
    ensures { result ≡ list.declares_nothing node.now }
{
    match node.shape() {
        Shape::UnaryExpression(UnaryOperator::LogicalNot) => {
            node.children().len() > 0 && declares_nothing(node.child(0))
        }
        Shape::Function(is_declaration, _, _) => !*is_declaration,
        Shape::Class(is_declaration) => !*is_declaration,
        Shape::Absent
        | Shape::Listed
        | Shape::BindingIdentifier
        | Shape::ObjectPattern
        | Shape::ArrayPattern
        | Shape::BindingProperty(_, _)
        | Shape::RestElement
        | Shape::AssignmentPattern
        | Shape::VariableDeclarator
        | Shape::VariableDeclaration(_)
        | Shape::SwitchCase
        | Shape::ExportNamedDeclaration
        | Shape::ExportDefaultDeclaration => false,
        _ => true,
    }
}

// Whether the expression is one part by itself.
fn is_one_part(node: &Node) -> bool
    ensures { result ≡ list.is_one_part node.now }
{
    match node.shape() {
        Shape::SequenceExpression => false,
        Shape::InnerExpression => false,
        _ => declares_nothing(node),
    }
}

// Whether it is a sequence of two parts at least, or one part by itself.
fn has_parts(node: &Node) -> bool
    ensures { result ≡ row.has_parts node.now }
{
    if is_sequence(node) {
        2 <= node.child(0).children().len()
    } else {
        is_one_part(node)
    }
}

/// Whether it is the statement of an expression that may be joined to another.
pub fn is_joinable(node: &Node) -> bool
    ensures { result ≡ row.is_joinable node.now }
{
    is_expression_statement(node) && has_parts(node.child(0))
}
