//! Tests of assignments of names and of their members.

ghost use Rattle.std.specs.Bool.{Decides};
ghost use Rattle.std.specs.Prelude.{◌≡◌, true};
ghost use Rattle.mini_model.specs.Tree.{children, count};
ghost use Rattle.mini_node.specs.Children.{names};
ghost use Rattle.mini_node.specs.Kinds.{assignment_operator as its_operator};
ghost use Rattle.mini_choices.specs.Assigning.{is_plain, is_property as is_it_property, is_written_key as is_it_written_key, has_written_key as has_it_written_key, is_member_of_name as is_it_member_of_name, is_same_target as is_it_same_target, is_same_member as is_it_same_member, assigns_name as it_assigns_name, is_same_operator as is_it_same_operator, is_operator, is_same_name as is_it_same_name, is_indexed_name as is_it_indexed_name, is_same_indexed as is_it_same_indexed, is_declared_in as is_it_declared_in, is_declared as is_it_declared};
ghost use Rattle.mini_choices.specs.MinimizeNormalAssignmentToCombinedLogicalAssignment.{marked, may_write_in, writes_name as it_writes_name};

use mini_context::Scopes;
use mini_model::{AssignmentOperator, Name, Shape};
use mini_node::{
    Node, assignment_operator, is_computed_member, is_identifier, is_same_tree, is_static_member,
    number, string,
};
use mini_terms::is_effect_free;

/// Whether the expression is `x = b`, an assignment to a name.
pub fn assigns_name(node: &Node) -> bool
    ensures kind { result ≡ it_assigns_name node.now }
    ensures parts { result ≡ true → count (children node.now) ≡ 2 }
{
    match assignment_operator(node) {
        Some(AssignmentOperator::Assign) => is_identifier(node.child(0)),
        _ => false,
    }
}

fn are_equal(first: AssignmentOperator, second: AssignmentOperator) -> bool
    ensures { Decides result (first ≡ second) }
{
    first == second
}

fn is_same_operator(first: AssignmentOperator, second: AssignmentOperator) -> bool
    ensures { result ≡ is_it_same_operator first second }
{
    are_equal(first, second)
}

/// Whether the expression is an assignment by this operator.
pub fn assigns_by(operator: AssignmentOperator, node: &Node) -> bool
    ensures kind { result ≡ is_operator operator (its_operator node.now) }
    ensures parts { result ≡ true → count (children node.now) ≡ 2 }
{
    match assignment_operator(node) {
        Some(other) => is_same_operator(operator, other),
        None => false,
    }
}

/// Whether the expression is an assignment by `=`.
pub fn assigns_plainly(node: &Node) -> bool
    ensures kind { result ≡ is_plain (its_operator node.now) }
    ensures parts { result ≡ true → count (children node.now) ≡ 2 }
{
    matches!(assignment_operator(node), Some(AssignmentOperator::Assign))
}

// `.k`
fn is_property(node: &Node) -> bool
    ensures { result ≡ is_it_property node.now }
{
    matches!(node.shape(), Shape::IdentifierName(_)) && node.is_bare(0)
}

// `"a-b"` or `0`
fn is_written_key(node: &Node) -> bool
    ensures { result ≡ is_it_written_key node.now }
{
    string(node).is_some() || number(node).is_some()
}

/// Whether the expression is a member with a key that is written out: `x.k`, `x["a-b"]` or `x[0]`.
pub fn has_written_key(node: &Node) -> bool
    ensures kind { result ≡ has_it_written_key node.now }
    ensures parts { result ≡ true → count (children node.now) ≡ 2 }
{
    is_static_member(node) && is_property(node.child(1))
        || is_computed_member(node) && is_written_key(node.child(1))
}

// Whether it is a member with a key that is written out, of a name that a scope declares.
fn is_member_of_name(node: &Node) -> bool
    ensures { result ≡ is_it_member_of_name node.now }
{
    has_written_key(node) && is_identifier(node.child(0)) && is_declared(node.child(0))
}

/// Whether the two are members of names with keys that are written out, and one member.
pub fn is_same_member(first: &Node, second: &Node) -> bool
    ensures { result ≡ is_it_same_member first.now second.now }
{
    is_member_of_name(first) && is_same_tree(first, second)
}

// `x[k]`, where a scope declares x and k has no effect. `this` has one where it is asked of the
// world.
fn is_indexed_name(node: &Node, asked: bool) -> bool
    ensures { result ≡ is_it_indexed_name asked node.now }
{
    is_computed_member(node)
        && is_effect_free(node.child(1), asked)
        && is_identifier(node.child(0))
        && is_declared(node.child(0))
}

/// Whether the two are members of names with keys in brackets that have no effect, and one member.
/// `asked` says that `this` is asked of the world, and so has an effect.
pub fn is_same_indexed(first: &Node, second: &Node, asked: bool) -> bool
    ensures { result ≡ is_it_same_indexed asked first.now second.now }
{
    is_indexed_name(first, asked) && is_same_tree(first, second)
}

/// Whether the two are names, or members of names with keys that are written out, and one of them.
pub fn is_same_target(first: &Node, second: &Node) -> bool
    ensures { result ≡ is_it_same_target first.now second.now }
{
    (is_identifier(first) || is_member_of_name(first)) && is_same_tree(first, second)
}

/// Whether the two are names, and one name.
pub fn is_same_name(first: &Node, second: &Node) -> bool
    ensures { result ≡ is_it_same_name first.now second.now }
{
    is_identifier(first) && is_same_tree(first, second)
}

fn is_declared_in(name: &Option<Name>) -> bool
    ensures { result ≡ is_it_declared_in (names name.now) }
{
    match name {
        Some(name) => !name.symbol.is_none(),
        None => false,
    }
}

/// Whether a scope declares the name that the expression is.
pub fn is_declared(node: &Node) -> bool
    ensures { result ≡ is_it_declared node.now }
{
    is_declared_in(node.name())
}

/// Whether a scope declares the name, and it can be written.
fn may_write(name: &Option<Name>, scopes: &Scopes) -> bool
    ensures { result ≡ may_write_in (marked scopes.now) (names name.now) }
{
    match name {
        Some(name) => match name.symbol {
            Some(symbol) => scopes.is_mentioned_writable(symbol),
            None => false,
        },
        None => false,
    }
}

/// Whether the expression is `x = b`, where x can be written.
pub fn writes_name(node: &Node, scopes: &Scopes) -> bool
    ensures kind { result ≡ it_writes_name (marked scopes.now) node.now }
    ensures parts { result ≡ true → count (children node.now) ≡ 2 }
{
    assigns_name(node) && may_write(node.child(0).name(), scopes)
}
