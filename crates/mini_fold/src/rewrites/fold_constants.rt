//! Rows 1 and 3: a unary or binary expression over constants becomes the literal of its value.
//! `60 * 60` becomes `3600`, and `"a" + 1` becomes `"a1"`, where that is lighter in the seat. So
//! does the length of a text that isn't written out (9): `(!0 + "").length` becomes `4`. Where
//! nothing is written, two operands may be one (4 and 8).

ghost use Rattle.std.specs.Prelude.{◌≡◌, is_some, unwrap_or, OnOk, IfOk};
ghost use Rattle.mini_tree.specs.Rule.{Applied};
ghost use Rattle.mini_terms.specs.Calculated.{calculated};
ghost use Rattle.mini_fold.specs.FoldConstants.{is_lighter as is_it_lighter, replaces as does_it_replace, literal_written, shortens as does_it_shorten, length_written, other_written, written, Gives, Rests};
ghost use Rattle.mini_fold.specs.JoinConstants.{literal_of as literal_of_value};
ghost use Rattle.mini_rows.specs.Constants.{least_gain as gain};
ghost use Rattle.mini_fold.specs.Lighter.{constants_lighter};

use crate::rewrites::fold_static_member::length_of;
use crate::rewrites::join_constants::{join_constants, literal_of};
use mini_model::{OutOfMemory, Position, Seat, Shape};
use mini_node::Node;
use mini_terms::{evaluate_value, leaves_nothing, suits};
use mini_tree::{Context, Rule, expr_weight};
use std::alloc::Global;

// How much less a literal is to weigh.
fn least_gain(literal: &Node) -> u64
    ensures { result ≡ gain literal.now }
{
    match literal.shape() {
        Shape::NumericLiteral(0) => 2,
        _ => 1,
    }
}

fn is_lighter(literal: &Node, node: &Node, seat: Seat) -> bool
    ensures { result ≡ is_it_lighter seat literal.now node.now }
{
    least_gain(literal) <= expr_weight(node, seat).saturating_sub(expr_weight(literal, seat))
}

// Whether a literal may stand in an expression's place, and is lighter.
fn replaces(node: &Node, literal: &Node, seat: Seat) -> bool
    ensures { result ≡ does_it_replace seat node.now literal.now }
{
    leaves_nothing(node) && suits(seat, literal) && is_lighter(literal, node, seat)
}

// The literal of an expression's value.
fn literal(alloc: Global, node: &Node) -> Result<Option<Node>, OutOfMemory>
    ensures { IfOk result (λ w. w ≡ literal_of_value (calculated node.now)) }
{
    let value = evaluate_value(alloc, node)?;
    literal_of(alloc, value)
}

// An operator over constants becomes the literal of its value, where that is lighter.
pub fn fold_literal(alloc: Global, node: &mut Node, seat: Seat) -> Result<bool, OutOfMemory>
    ensures tree { OnOk result (node.new ≡ unwrap_or (literal_written seat node.old) node.old) }
    ensures said { IfOk result (λ changed. changed ≡ is_some (literal_written seat node.old)) }
{
    let Some(made) = literal(alloc, node)? else {
        return Ok(false);
    };
    if !replaces(node, &made, seat) {
        return Ok(false);
    }
    *node = made;
    Ok(true)
}

// Whether the number of a length may stand in its place, and is lighter.
fn shortens(node: &Node, number: &Node, seat: Seat) -> bool
    ensures { result ≡ does_it_shorten seat node.now number.now }
{
    leaves_nothing(node) && is_lighter(number, node, seat)
}

// The length of a text that is known becomes its number, where that is lighter.
fn fold_length(alloc: Global, node: &mut Node, seat: Seat) -> Result<bool, OutOfMemory>
    ensures tree { OnOk result (node.new ≡ unwrap_or (length_written seat node.old) node.old) }
    ensures said { IfOk result (λ changed. changed ≡ is_some (length_written seat node.old)) }
{
    let Some(made) = length_of(alloc, node, seat)? else {
        return Ok(false);
    };
    if !shortens(node, &made, seat) {
        return Ok(false);
    }
    *node = made;
    Ok(true)
}

// What has no literal that is lighter.
#[tactic(auto, using(crate::proofs::Constants::first_tree, crate::proofs::Constants::first_said, crate::proofs::Constants::then_tree, crate::proofs::Constants::then_said))]
fn fold_other(alloc: Global, node: &mut Node, seat: Seat) -> Result<bool, OutOfMemory>
    ensures tree { OnOk result (node.new ≡ unwrap_or (other_written seat node.old) node.old) }
    ensures said { IfOk result (λ changed. changed ≡ is_some (other_written seat node.old)) }
{
    if fold_length(alloc, node, seat)? {
        Ok(true)
    } else {
        join_constants(alloc, node)
    }
}

/// An operator over constants becomes the literal of its value, the length of a text that is known
/// its number, or two operands become one, where that is lighter. The answer says whether something
/// did; the only error is that memory runs out, and then the expression is fit only to be dropped.
#[tactic(auto, using(crate::proofs::Constants::first_tree, crate::proofs::Constants::first_said))]
pub fn fold_constant(alloc: Global, node: &mut Node, seat: Seat) -> Result<bool, OutOfMemory>
    ensures tree { OnOk result (node.new ≡ unwrap_or (written seat node.old) node.old) }
    ensures said { IfOk result (λ changed. changed ≡ is_some (written seat node.old)) }
{
    if fold_literal(alloc, node, seat)? {
        Ok(true)
    } else {
        fold_other(alloc, node, seat)
    }
}

/// Rows 1 and 3, 9 of texts that aren't written out, and 4 and 8 of constants that aren't, as a
/// rule: of each expression.
pub struct FoldConstants;

impl<C: Context> Rule<C> for FoldConstants {
    ghost gives = { λ o q. Gives };

    ghost rests = { λ o q. Rests };

    ghost lighter = { λ o q. constants_lighter };

    #[tactic(auto, using(crate::proofs::Constants::applied))]
    fn apply(
        &self,
        alloc: Global,
        node: &mut Node,
        place: Position,
        context: &mut C,
    ) -> Result<bool, OutOfMemory> {
        match place {
            Position::Expr(seat) => Ok(fold_constant(alloc, node, seat)?),
            _ => Ok(false),
        }
    }
}
