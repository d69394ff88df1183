//! The weight of a node at a place.

ghost use Rattle.std.specs.Prelude.{◌≡◌};
ghost use Rattle.mini_model.specs.Weight.{capped, own_weight as weight_of_own, weight as weight_at};
ghost use Rattle.mini_node.specs.Children.{names};

use crate::marks::place_weight;
use crate::outline::Outlined;
use crate::place::child_place;
use crate::text::text_weight;
use mini_model::{Name, Position, Seat, Shape, StmtSeat};
use mini_node::Node;

/// The weight of what a node of this shape and name writes besides its children, and of what its
/// place adds; it stays at the greatest u64.
pub fn own_weight<C: Outlined>(
    shape: &Shape,
    name: &Option<Name>,
    children: &C,
    place: Position,
) -> u64
    ensures { result ≡ capped (weight_of_own place shape.now (names name.now) (C.below children.now)) }
{
    match place {
        Position::Unwritten => 0,
        _ => text_weight(shape, name, children, place).saturating_add(place_weight(
            shape, children, place,
        )),
    }
}

/// The weight of a node at a place; it stays at the greatest u64.
#[tactic(auto, using(crate::proofs::Sums::weight_of, crate::proofs::Sums::from_start, crate::proofs::Sums::item_within, mini_node::proofs::Lists::counted))]
pub fn weight(node: &Node, place: Position) -> u64
    ensures { result ≡ capped (weight_at place node.now) }
{
    let count = node.children().len();
    let mut total = own_weight(node.shape(), node.name(), node.children(), place);
    let mut at = 0;
    for child in node.parts() {
        let stands = child_place(node.shape(), place, count, at);
        total = total.saturating_add(weight(child, stands));
        at += 1;
    }
    total
}

/// The weight of an expression in a seat.
pub fn expr_weight(expression: &Node, seat: Seat) -> u64
    ensures { result ≡ capped (weight_at (Position.Expr seat) expression.now) }
{
    weight(expression, Position::Expr(seat))
}

/// The weight of a statement in a seat.
pub fn stmt_weight(statement: &Node, seat: StmtSeat) -> u64
    ensures { result ≡ capped (weight_at (Position.Stmt seat) statement.now) }
{
    weight(statement, Position::Stmt(seat))
}
