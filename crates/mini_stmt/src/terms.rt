//! Terms of the rewrites of lists.

ghost use Rattle.std.specs.Prelude.{◌≡◌, true, not, IfOk};
ghost use Rattle.mini_model.specs.Tree.{children, count};
ghost use Rattle.mini_rows.specs.Lists as list;
ghost use Rattle.mini_stmt.specs.Terms as term;

use mini_model::{OutOfMemory, Shape, UnaryOperator, VariableDeclarationKind};
use mini_node::{Node, Nodes, is_expression_statement, is_sequence, of_one, one, sequence};
use std::alloc::Global;

/// Whether the statement declares a name in the list round it that isn't hoisted through it: a
/// `let`, a `const`, a class, a function, an import or an export.
pub fn statement_cares_about_scope(node: &Node) -> bool
    ensures { result ≡ not (list.is_unscoped node.now) }
{
    !matches!(
        node.shape(),
        Shape::ExpressionStatement
            | Shape::EmptyStatement
            | Shape::DebuggerStatement
            | Shape::BlockStatement
            | Shape::LabeledStatement
            | Shape::BreakStatement
            | Shape::ContinueStatement
            | Shape::ReturnStatement
            | Shape::ThrowStatement
            | Shape::IfStatement
            | Shape::SwitchStatement
            | Shape::TryStatement
            | Shape::WhileStatement
            | Shape::DoWhileStatement
            | Shape::ForStatement
            | Shape::ForInStatement
            | Shape::ForOfStatement
            | Shape::VariableDeclaration(VariableDeclarationKind::Var)
    )
}

/// Whether none of the statements declares a name in the list round it that isn't hoisted through
/// it.
pub fn are_unscoped(nodes: &Nodes) -> bool
    ensures { result ≡ list.are_unscoped nodes.now }
{
    for at in 0..nodes.len() {
        if statement_cares_about_scope(nodes.child(at)) {
            return false;
        }
    }
    true
}

/// Whether one of the statements is terminated.
#[cycle(ending)]
pub fn has_terminated(nodes: &Nodes) -> bool
    ensures { result ≡ list.any (list.are_terminated nodes.now) }
{
    for at in 0..nodes.len() {
        if is_terminated(nodes.child(at)) {
            return true;
        }
    }
    false
}

/// Whether nothing runs after the statement.
#[cycle(ending)]
#[tactic(auto, using(crate::proofs::Parts::list_ends, crate::proofs::Parts::block_ends, crate::proofs::Parts::block_goes_on, crate::proofs::Parts::if_ends, crate::proofs::Parts::if_goes_on, crate::proofs::Parts::try_ends, crate::proofs::Parts::try_goes_on, crate::proofs::Parts::catch_ends, crate::proofs::Parts::catch_goes_on, crate::proofs::Parts::below))]
pub fn is_terminated(node: &Node) -> bool
    ensures { result ≡ list.is_terminated node.now }
{
    match node.shape() {
        Shape::ReturnStatement => true,
        Shape::ThrowStatement => true,
        Shape::BreakStatement => true,
        Shape::ContinueStatement => true,
        Shape::Listed => has_terminated(node.children()),
        Shape::BlockStatement => node.children().len() == 1 && is_terminated(node.child(0)),
        Shape::IfStatement => {
            node.children().len() == 3
                && is_terminated(node.child(1))
                && is_terminated(node.child(2))
        }
        Shape::TryStatement => {
            node.children().len() == 3
                && (is_terminated(node.child(2))
                    || (is_terminated(node.child(0)) && is_terminated(node.child(1))))
        }
        Shape::CatchClause => node.children().len() == 2 && is_terminated(node.child(1)),
        _ => false,
    }
}

/// Whether the node declares nothing, as an expression does.
#[tactic(auto, using(crate::proofs::Parts::operand_declares, crate::proofs::Parts::no_operand))]
pub fn declares_nothing(node: &Node) -> bool
    ensures { result ≡ list.declares_nothing node.now }
{
    match node.shape() {
        Shape::UnaryExpression(UnaryOperator::LogicalNot) => {
            node.children().len() > 0 && declares_nothing(node.child(0))
        }
        Shape::Function(is_declaration, _, _) => !*is_declaration,
        Shape::Class(is_declaration) => !*is_declaration,
        Shape::Absent
        | Shape::Listed
        | Shape::BindingIdentifier
        | Shape::ObjectPattern
        | Shape::ArrayPattern
        | Shape::BindingProperty(_, _)
        | Shape::RestElement
        | Shape::AssignmentPattern
        | Shape::VariableDeclarator
        | Shape::VariableDeclaration(_)
        | Shape::SwitchCase
        | Shape::ExportNamedDeclaration
        | Shape::ExportDefaultDeclaration => false,
        _ => true,
    }
}

/// Whether the expression is one part by itself.
pub fn is_one_part(node: &Node) -> bool
    ensures { result ≡ list.is_one_part node.now }
{
    match node.shape() {
        Shape::SequenceExpression => false,
        Shape::InnerExpression => false,
        _ => declares_nothing(node),
    }
}

// Whether there are two or more.
fn has_two(nodes: &Nodes) -> bool
    ensures { result ≡ term.has_two nodes.now }
{
    nodes.len() > 1
}

/// Whether the expression is one part by itself, or a sequence of two parts or more.
pub fn is_joinable(node: &Node) -> bool
    ensures { result ≡ term.is_joinable node.now }
{
    match node.shape() {
        Shape::SequenceExpression => is_sequence(node) && has_two(node.child(0).children()),
        _ => is_one_part(node),
    }
}

/// Whether the statement is `a;`.
pub fn is_joinable_statement(node: &Node) -> bool
    ensures kind { result ≡ term.is_joinable_statement node.now }
    ensures parts { result ≡ true → count (children node.now) ≡ 1 }
{
    is_expression_statement(node) && is_joinable(node.child(0))
}

// The parts of a sequence; any other expression is one.
fn parts_of(alloc: Global, expression: Node) -> Result<Nodes, OutOfMemory>
    ensures { IfOk result (λ parts. parts ≡ term.parts_of expression) }
{
    if is_sequence(&expression) {
        Ok(one(expression).into_children())
    } else {
        of_one(alloc, expression)
    }
}

/// The sequence `a, b`, of which each may be a sequence: the parts of both, in order. The only
/// error is that memory runs out.
pub fn join_sequence(alloc: Global, first: Node, second: Node) -> Result<Node, OutOfMemory>
    ensures { IfOk result (λ made. made ≡ term.joined first second) }
{
    let mut parts = parts_of(alloc, first)?;
    let mut others = parts_of(alloc, second)?;
    parts.append(&mut others)?;
    sequence(alloc, parts)
}
