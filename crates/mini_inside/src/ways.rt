//! What stands on the way to a `var` further inside.

ghost use Rattle.std.specs.Prelude.{◌≡◌, Some, None, if◌then◌else◌};
ghost use Rattle.mini_node.specs.Kinds.{is_listed_shape};
ghost use Rattle.mini_rows.specs.Inside as inside;

use mini_model::Shape;
use mini_rows::Way;

// One at a place.
#[tactic(auto, using(crate::proofs::FurtherPlaces::at_the_place, crate::proofs::FurtherPlaces::elsewhere))]
fn at_place(place: usize, way: Way, at: usize) -> Option<Way>
    ensures { result ≡ inside.at_place place way at }
{
    if at == place { Some(way) } else { None }
}

fn first_of(one: Option<Way>, other: Option<Way>) -> Option<Way>
    ensures { result ≡ inside.first_of one other }
{
    match one {
        Some(way) => Some(way),
        None => other,
    }
}

fn branch_way(at: usize) -> Option<Way>
    ensures { result ≡ inside.branch_way at }
{
    first_of(at_place(1, Way::Held, at), at_place(2, Way::Held, at))
}

fn for_way(at: usize) -> Option<Way>
    ensures { result ≡ inside.for_way at }
{
    first_of(at_place(0, Way::Head, at), at_place(3, Way::Held, at))
}

fn try_way(at: usize) -> Option<Way>
    ensures { result ≡ inside.try_way at }
{
    first_of(
        at_place(1, Way::Catch, at),
        first_of(
            at_place(0, Way::Statement, at),
            at_place(2, Way::Statement, at),
        ),
    )
}

// In a statement.
fn statement_way(shape: &Shape, at: usize) -> Option<Way>
    ensures { result ≡ inside.statement_way shape.now at }
{
    match shape {
        Shape::BlockStatement => at_place(0, Way::Statements, at),
        Shape::IfStatement => branch_way(at),
        Shape::WhileStatement => at_place(1, Way::Held, at),
        Shape::DoWhileStatement => at_place(0, Way::Held, at),
        Shape::ForStatement => for_way(at),
        Shape::ForInStatement => at_place(2, Way::Held, at),
        Shape::ForOfStatement => at_place(2, Way::Held, at),
        Shape::LabeledStatement => at_place(1, Way::Held, at),
        Shape::TryStatement => try_way(at),
        Shape::SwitchStatement => at_place(1, Way::Cases, at),
        _ => None,
    }
}

// In a list.
fn item_way(shape: &Shape, way: Way) -> Option<Way>
    ensures { result ≡ if is_listed_shape shape.now then Some way else None }
{
    if matches!(shape, Shape::Listed) {
        Some(way)
    } else {
        None
    }
}

fn case_way(shape: &Shape, at: usize) -> Option<Way>
    ensures { result ≡ if inside.is_case_shape shape.now then inside.at_place 1 Way.Statements at else None }
{
    if matches!(shape, Shape::SwitchCase) {
        at_place(1, Way::Statements, at)
    } else {
        None
    }
}

fn catch_way(shape: &Shape, at: usize) -> Option<Way>
    ensures { result ≡ if inside.is_catch_shape shape.now then inside.at_place 1 Way.Statement at else None }
{
    if matches!(shape, Shape::CatchClause) {
        at_place(1, Way::Statement, at)
    } else {
        None
    }
}

/// What stands on the way at the child at an index of a node that stands there like this; None
/// where the way doesn't go into it.
pub fn way_in(way: Way, shape: &Shape, at: usize) -> Option<Way>
    ensures { result ≡ inside.way_in way shape.now at }
{
    match way {
        Way::Statement | Way::Held => statement_way(shape, at),
        Way::Statements => item_way(shape, Way::Statement),
        Way::Cases => item_way(shape, Way::Case),
        Way::Case => case_way(shape, at),
        Way::Catch => catch_way(shape, at),
        Way::Head => None,
    }
}
