//! Row 60 of `return`: `return undefined;`, `return void 0;` and `return void a;`, where a has no
//! effect, become `return;`, which is lighter in every place.

ghost use Rattle.std.specs.Prelude.{◌≡◌, is_some, unwrap_or, OnOk, IfOk};
ghost use Rattle.mini_model.specs.Tree.{absent as no_part};
ghost use Rattle.mini_node.specs.Kinds.{return_statement as returns};
ghost use Rattle.mini_tree.specs.Rule.{Applied};
ghost use Rattle.mini_syntax.specs.Lighter.{returns_lighter};
ghost use Rattle.mini_syntax.specs.SubstituteReturnStatement.{is_idle_void as is_it_idle_void, returns_undefined as returns_it_undefined, written, Gives, Rests};

use crate::forms::is_undefined;
use mini_model::{OutOfMemory, Position, UnaryOperator};
use mini_node::{Node, absent, is_return_statement, return_statement, unary_operator};
use mini_terms::{has_no_effect, leaves_nothing};
use mini_tree::{Context, Rule};
use std::alloc::Global;

// `void a`, where a has no effect.
fn is_idle_void(node: &Node) -> bool
    ensures { result ≡ is_it_idle_void node.now }
{
    match unary_operator(node) {
        Some(UnaryOperator::Void) => has_no_effect(node.child(0)) && leaves_nothing(node.child(0)),
        _ => false,
    }
}

// `return undefined;`, `return void 0;` or `return void a;`
fn returns_undefined(node: &Node) -> bool
    ensures { result ≡ returns_it_undefined node.now }
{
    if !is_return_statement(node) {
        return false;
    }
    is_undefined(node.child(0)) || is_idle_void(node.child(0))
}

// `return;`
fn returns_nothing(alloc: Global) -> Result<Node, OutOfMemory>
    ensures { IfOk result (λ w. w ≡ returns no_part) }
{
    return_statement(alloc, absent(alloc))
}

/// `return undefined;`, `return void 0;` and `return void a;`, where a has no effect, become
/// `return;`. The answer says whether it did; the only error is that memory runs out, and then the
/// statement is as it was.
pub fn substitute_return_statement(alloc: Global, node: &mut Node) -> Result<bool, OutOfMemory>
    ensures tree { OnOk result (node.new ≡ unwrap_or (written node.old) node.old) }
    ensures said { IfOk result (λ changed. changed ≡ is_some (written node.old)) }
{
    if !returns_undefined(node) {
        return Ok(false);
    }
    *node = returns_nothing(alloc)?;
    Ok(true)
}

/// Row 60 as a rule: of each statement.
pub struct SubstituteReturns;

impl<C: Context> Rule<C> for SubstituteReturns {
    ghost gives = { λ o q. Gives };

    ghost rests = { λ o q. Rests };

    ghost lighter = { λ o q. returns_lighter };

    #[tactic(auto, using(crate::proofs::Returns::applied))]
    fn apply(
        &self,
        alloc: Global,
        node: &mut Node,
        place: Position,
        context: &mut C,
    ) -> Result<bool, OutOfMemory> {
        match place {
            Position::Stmt(_) => Ok(substitute_return_statement(alloc, node)?),
            _ => Ok(false),
        }
    }
}
