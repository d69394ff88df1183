//! How a statement may be joined to the next one.

ghost use Rattle.std.specs.Prelude.{◌≡◌, true};
ghost use Rattle.mini_stmt.specs.MinimizeStatements.{lead_of as its_lead};

use crate::rewrites::join_jumps::{guards_return, guards_throw};
use crate::rewrites::join_vars::declared_kind;
use crate::terms::is_joinable_statement;
use mini_model::VariableDeclarationKind;
use mini_node::{Node, is_absent_part};

/// How a statement may be joined to the next one.
#[derive(Clone, Copy, PartialEq, Eq)]
pub enum Lead {
    /// `a;`
    Expression,
    /// A declaration of this kind.
    Declaration(VariableDeclarationKind),
    /// `if (a) return b;`. The field: whether it returns nothing.
    Return(bool),
    /// `if (a) throw b;`
    Throw,
    /// It may not be joined.
    Nothing,
}

/// How the statement may be joined to the next one.
pub fn lead_of(node: &Node) -> Lead
    ensures { result ≡ its_lead node.now }
{
    if is_joinable_statement(node) {
        return Lead::Expression;
    }
    if guards_return(node) {
        return Lead::Return(is_absent_part(node.child(1).child(0)));
    }
    if guards_throw(node) {
        return Lead::Throw;
    }
    match declared_kind(node) {
        Some(kind) => Lead::Declaration(kind),
        None => Lead::Nothing,
    }
}
