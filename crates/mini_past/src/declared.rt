//! Declarators whose name may go, and whose initializer may go past names that keep their value.

ghost use Rattle.std.specs.Prelude.{◌≡◌, true};
ghost use Rattle.mini_model.specs.Tree.{children, count};
ghost use Rattle.mini_node.specs.Children.{names};
ghost use Rattle.mini_unused.specs.RemoveUnusedDeclaration as listing;
ghost use Rattle.mini_past.specs.SubstitutePast as row;

use crate::names::PastNames;
use mini_model::Name;
use mini_node::Node;
use mini_unused::{declares_name, is_constant};

// A name that a scope declares, and that can be written.
fn may_write<S: PastNames>(name: &Option<Name>, steady: &S) -> bool
    ensures { result ≡ listing.may_write_in (S.lets steady.now) (names name.now) }
{
    match name {
        Some(name) => match name.symbol {
            Some(symbol) => steady.is_writable(symbol),
            None => false,
        },
        None => false,
    }
}

// One that is free to go, or such a one.
fn may_lose<S: PastNames>(is_free: bool, name: &Option<Name>, steady: &S) -> bool
    ensures { result ≡ listing.may_lose is_free (S.lets steady.now) (names name.now) }
{
    is_free || may_write(name, steady)
}

// An initializer that may move, and is no constant.
fn may_pass<S: PastNames>(init: &Node, steady: &S) -> bool
    ensures { result ≡ row.may_pass (S.lets steady.now).switches init.now }
{
    steady.lets_move(init) && !is_constant(init)
}

/// Whether the declarator has a name that may go, and an initializer that may move and is no
/// constant.
pub fn may_pass_by<S: PastNames>(is_free: bool, declarator: &Node, steady: &S) -> bool
    ensures kind { result ≡ row.may_pass_by is_free (S.lets steady.now) declarator.now }
    ensures parts { result ≡ true → count (children declarator.now) ≡ 2 }
{
    declares_name(declarator)
        && may_lose(is_free, declarator.child(0).name(), steady)
        && may_pass(declarator.child(1), steady)
}
