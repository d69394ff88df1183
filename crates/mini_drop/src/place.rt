//! Where a node stands, as far as items go there.

ghost use Rattle.std.specs.Prelude.{◌≡◌};
ghost use Rattle.mini_laws.specs.Naming.{is_lexical as is_it_lexical};
ghost use Rattle.mini_dead.specs.Pruned.{list_role as list_role_of, declaration_role as declaration_role_of, case_role as case_role_of, role as role_by, spot_below as spot_by};
ghost use Rattle.mini_drop.specs.Asked.{spot_in, role_in};

use mini_model::{Shape, VariableDeclarationKind};

/// Where a node stands, as far as items go there.
#[derive(Clone, Copy)]
pub enum Spot {
    /// Nowhere where items go, as in the head of a loop.
    Elsewhere,
    /// As a list of statements.
    Statements,
    /// As a statement of such a list.
    AStatement,
    /// As the list of declarators of such a statement, which are lexical or not.
    Declarators(bool),
    /// As the cases of a `switch`.
    CaseList,
    /// As one of them.
    OneCase,
}

/// What a node that stands there is to its children.
#[derive(Clone, Copy)]
pub enum Role {
    /// No list, and nothing that holds one.
    Plain,
    /// Its child is a list of statements.
    HasStatements,
    /// Its second child is a list of cases.
    HasCases,
    /// A list of statements.
    StatementList,
    /// A declaration of variables, which are lexical or not.
    Declaration(bool),
    /// A list of declarators.
    DeclaratorList(bool),
    /// A list of cases.
    CasesOf,
    /// A case.
    CaseOf,
}

fn is_lexical(kind: VariableDeclarationKind) -> bool
    ensures { result ≡ is_it_lexical kind }
{
    match kind {
        VariableDeclarationKind::Var => false,
        VariableDeclarationKind::Let | VariableDeclarationKind::Const => true,
    }
}

fn list_role(spot: Spot) -> Role
    ensures { role_in result ≡ list_role_of (spot_in spot) }
{
    match spot {
        Spot::Statements => Role::StatementList,
        Spot::Declarators(lexical) => Role::DeclaratorList(lexical),
        Spot::CaseList => Role::CasesOf,
        _ => Role::Plain,
    }
}

fn declaration_role(lexical: bool, spot: Spot) -> Role
    ensures { role_in result ≡ declaration_role_of lexical (spot_in spot) }
{
    match spot {
        Spot::AStatement => Role::Declaration(lexical),
        _ => Role::Plain,
    }
}

fn case_role(spot: Spot) -> Role
    ensures { role_in result ≡ case_role_of (spot_in spot) }
{
    match spot {
        Spot::OneCase => Role::CaseOf,
        _ => Role::Plain,
    }
}

/// What a node of this shape is to its children where it stands there.
pub fn role_of(shape: &Shape, spot: Spot) -> Role
    ensures { role_in result ≡ role_by shape.now (spot_in spot) }
{
    match shape {
        Shape::Program(..) | Shape::FunctionBody | Shape::StaticBlock | Shape::BlockStatement => {
            Role::HasStatements
        }
        Shape::SwitchStatement => Role::HasCases,
        Shape::Listed => list_role(spot),
        Shape::VariableDeclaration(kind) => declaration_role(is_lexical(*kind), spot),
        Shape::SwitchCase => case_role(spot),
        _ => Role::Plain,
    }
}

/// Where the child at an index stands.
pub fn spot_below(role: Role, at: usize) -> Spot
    ensures { spot_in result ≡ spot_by (role_in role) at }
{
    match role {
        Role::HasStatements => Spot::Statements,
        Role::HasCases if at > 0 => Spot::CaseList,
        Role::StatementList => Spot::AStatement,
        Role::Declaration(lexical) => Spot::Declarators(lexical),
        Role::CasesOf => Spot::OneCase,
        Role::CaseOf if at > 0 => Spot::Statements,
        _ => Spot::Elsewhere,
    }
}
