//! The scopes that a node opens.

ghost use Rattle.std.specs.Prelude.{◌≡◌, ℕ, ◌<◌, true, List, [], ◌∷◌, map, drop, length, IfOk};
ghost use Rattle.mini_model.specs.Tree.{children, count, shape_of};
ghost use Rattle.mini_node.specs.Children.{trees_of};
ghost use Rattle.mini_laws.specs.declared.names.Declared.TheVariants as declared;
ghost use Rattle.mini_laws.specs.declared.names.Binding.{Binding as BindingOf};
ghost use Rattle.mini_laws.specs.DeclaredNames.{names_of, body_names};
ghost use Rattle.mini_laws.specs.Scopes.{opened, at_or_empty, scopes_by, name_if, lexical_scope as scope_of_names, body_scope as scope_of_body, merged};

use crate::distinct::scope_of;
use crate::{has_inner, opening_of, push_body_names, push_names};
use mini_laws::{Binding, Declared, Opening, Use};
use mini_model::{Name, OutOfMemory};
use mini_node::Node;
use std::alloc::Global;
use std::mem;

/// The scopes that a node opens before its first child, before the second, and before the third.
#[derive(Drop)]
pub struct OpenScopes {
    /// The names that are in scope from the first child on.
    pub first: Vec<Binding>,
    /// The names that are in scope from the second child on.
    pub second: Vec<Binding>,
    /// The names that are in scope from the third child on.
    pub third: Vec<Binding>,
}

/// Whether a node has no children, and so opens no scope before one.
pub fn is_leaf(node: &Node) -> bool
    ensures { (result ≡ true) → count (children node.now) ≡ 0 }
{
    node.children().len() == 0
}

/// The scope of the names that a node declares in a block.
fn lexical_scope(
    alloc: Global,
    declared: Declared,
    node: &Node,
) -> Result<Vec<Binding>, OutOfMemory>
    ensures { IfOk result (λ scope. scope.items ≡ scope_of_names (names_of declared node.now)) }
{
    let mut names = Vec::new(alloc);
    push_names(alloc, declared, node, &mut names)?;
    scope_of(alloc, Vec::new(alloc), names, false)
}

/// The scope of a function's parameters.
fn parameter_scope(alloc: Global, params: &Node) -> Result<Vec<Binding>, OutOfMemory>
    ensures { IfOk result (λ scope. scope.items ≡ scope_of_body [] (names_of declared.Bound params.now)) }
{
    let mut names = Vec::new(alloc);
    push_names(alloc, Declared::Bound, params, &mut names)?;
    scope_of(alloc, Vec::new(alloc), names, true)
}

/// The scope of a body's names, but those that are among the names given.
fn body_scope(alloc: Global, params: Vec<Name>, body: &Node) -> Result<Vec<Binding>, OutOfMemory>
    ensures { IfOk result (λ scope. scope.items ≡ scope_of_body params.items (body_names body.now)) }
{
    let mut names = Vec::new(alloc);
    push_body_names(alloc, body, &mut names)?;
    scope_of(alloc, params, names, true)
}

/// The names of parameters that are those of the body too.
fn merged_names(alloc: Global, params: &Node) -> Result<Vec<Name>, OutOfMemory>
    ensures { IfOk result (λ names. names.items ≡ merged params.now) }
{
    let mut names = Vec::new(alloc);
    if !has_inner(params) {
        push_names(alloc, Declared::Bound, params, &mut names)?;
    }
    Ok(names)
}

/// The scope of the names of a function's body, but those that are parameters too.
fn inner_scope(alloc: Global, params: &Node, body: &Node) -> Result<Vec<Binding>, OutOfMemory>
    ensures { IfOk result (λ scope. scope.items ≡ scope_of_body (merged params.now) (body_names body.now)) }
{
    body_scope(alloc, merged_names(alloc, params)?, body)
}

/// The scope of a function's or class's own name, where it has one.
fn name_scope(alloc: Global, holds: bool, id: &Node) -> Result<Vec<Binding>, OutOfMemory>
    ensures { IfOk result (λ scope. scope.items ≡ scope_of_names (name_if holds id.now)) }
{
    if holds {
        lexical_scope(alloc, Declared::Bound, id)
    } else {
        Ok(Vec::new(alloc))
    }
}

impl OpenScopes {
    ghost use Rattle.mini_scope.specs.ScopeAt.{scope_at};

    /// No scope.
    fn none(alloc: Global) -> OpenScopes
        ensures { scope_at result ≡ at_or_empty [] }
    {
        OpenScopes {
            first: Vec::new(alloc),
            second: Vec::new(alloc),
            third: Vec::new(alloc),
        }
    }

    /// These scopes, where there was memory for each.
    fn filled(
        first: Result<Vec<Binding>, OutOfMemory>,
        second: Result<Vec<Binding>, OutOfMemory>,
        third: Result<Vec<Binding>, OutOfMemory>,
    ) -> Result<OpenScopes, OutOfMemory>
        ensures { (a b c : List BindingOf) → IfOk first (λ s. s.items ≡ a) → IfOk second (λ s. s.items ≡ b) → IfOk third (λ s. s.items ≡ c) → IfOk result (λ scopes. scope_at scopes ≡ at_or_empty (a ∷ b ∷ c ∷ [])) }
    {
        Ok(OpenScopes {
            first: first?,
            second: second?,
            third: third?,
        })
    }

    /// One scope, for all children.
    fn one(
        alloc: Global,
        first: Result<Vec<Binding>, OutOfMemory>,
    ) -> Result<OpenScopes, OutOfMemory>
        ensures { (a : List BindingOf) → IfOk first (λ s. s.items ≡ a) → IfOk result (λ scopes. scope_at scopes ≡ at_or_empty (a ∷ [])) }
    {
        OpenScopes::filled(first, Ok(Vec::new(alloc)), Ok(Vec::new(alloc)))
    }

    /// Takes out the names of the scope that is entered before the child at an index; none are left
    /// there.
    pub fn take(&mut self, alloc: Global, at: usize) -> Vec<Binding>
        ensures value { result.items ≡ scope_at self.old at }
        ensures rest { (k : ℕ) → at < k → scope_at self.new k ≡ scope_at self.old k }
    {
        match at {
            0 => mem::replace(&mut self.first, Vec::new(alloc)),
            1 => mem::replace(&mut self.second, Vec::new(alloc)),
            2 => mem::replace(&mut self.third, Vec::new(alloc)),
            _ => Vec::new(alloc),
        }
    }

    /// The scopes that a node opens, which is used like this. The only error is that memory runs
    /// out.
    pub fn of(alloc: Global, usage: Use, node: &Node) -> Result<OpenScopes, OutOfMemory>
        ensures { IfOk result (λ scopes. scope_at scopes ≡ opened usage (shape_of node.now) (children node.now)) }
    {
        OpenScopes::by(alloc, opening_of(usage, node.shape()), node.parts())
    }

    fn by(alloc: Global, opening: Opening, nodes: &[Node]) -> Result<OpenScopes, OutOfMemory>
        ensures { IfOk result (λ scopes. scope_at scopes ≡ at_or_empty (scopes_by opening (trees_of nodes.now))) }
    {
        match opening {
            Opening::Nothing => Ok(OpenScopes::none(alloc)),
            Opening::Body => match nodes {
                [body, ..] => OpenScopes::one(alloc, body_scope(alloc, Vec::new(alloc), body)),
                [] => Ok(OpenScopes::none(alloc)),
            },
            Opening::Function(own) => match nodes {
                [id, params, body, ..] => OpenScopes::filled(
                    name_scope(alloc, own, id),
                    parameter_scope(alloc, params),
                    inner_scope(alloc, params, body),
                ),
                _ => Ok(OpenScopes::none(alloc)),
            },
            Opening::Arrow => match nodes {
                [params, body, ..] => OpenScopes::filled(
                    parameter_scope(alloc, params),
                    inner_scope(alloc, params, body),
                    Ok(Vec::new(alloc)),
                ),
                _ => Ok(OpenScopes::none(alloc)),
            },
            Opening::Class(own, inside) => match nodes {
                [id, _super_class, _body, again, ..] => OpenScopes::filled(
                    name_scope(alloc, own, id),
                    name_scope(alloc, inside, again),
                    Ok(Vec::new(alloc)),
                ),
                _ => Ok(OpenScopes::none(alloc)),
            },
            Opening::First => match nodes {
                [first, ..] => {
                    OpenScopes::one(alloc, lexical_scope(alloc, Declared::Lexical, first))
                }
                [] => Ok(OpenScopes::none(alloc)),
            },
            Opening::Second => match nodes {
                [_first, second, ..] => OpenScopes::filled(
                    Ok(Vec::new(alloc)),
                    lexical_scope(alloc, Declared::Lexical, second),
                    Ok(Vec::new(alloc)),
                ),
                _ => Ok(OpenScopes::none(alloc)),
            },
            Opening::Bound => match nodes {
                [first, ..] => OpenScopes::one(alloc, lexical_scope(alloc, Declared::Bound, first)),
                [] => Ok(OpenScopes::none(alloc)),
            },
        }
    }
}
