//! Whether what is left of a sequence may stand in its place (21): `(0, a)()` becomes `a()`, and
//! `typeof (0, a.b)` becomes `typeof a.b`.

ghost use Rattle.std.specs.Prelude.{◌≡◌, codes};
ghost use Rattle.mini_node.specs.Children.{names};
ghost use Rattle.mini_terms.specs.Parts.{is_number as is_it_number};
ghost use Rattle.mini_rows.specs.Folding.{is_spelled};
ghost use Rattle.mini_rows.specs.Sequences as row;

use mini_model::{Guard, Mix, Name, Seat, Shape};
use mini_node::Node;
use mini_terms::{is_plain_part, is_typed_by_value, suits};

// The units of `eval`.
const EVAL: [u16; 4] = [101, 118, 97, 108];

fn is_unmixed(mix: Mix) -> bool
    ensures { result ≡ row.is_unmixed mix }
{
    match mix {
        Mix::None => true,
        _ => false,
    }
}

/// Whether an expression has parentheses here only where a sequence has them too.
pub fn takes_alone(seat: Seat) -> bool
    ensures { result ≡ row.takes_alone seat }
{
    seat.level > 0 || !seat.access && !seat.new_callee && is_unmixed(seat.mix)
}

fn is_callee(guard: Guard) -> bool
    ensures { result ≡ row.is_callee guard }
{
    matches!(guard, Guard::Callee)
}

fn is_spelled_eval(name: &Option<Name>) -> bool
    ensures { result ≡ is_spelled (names name.now) (codes "eval") }
{
    match name {
        Some(name) => name.spelling.as_slice() == EVAL.as_slice(),
        None => false,
    }
}

// Whether it is a name that is called here, and not `eval`.
fn is_called_plainly(seat: Seat, node: &Node) -> bool
    ensures { result ≡ row.is_called_plainly seat node.now }
{
    is_callee(seat.guard)
        && matches!(node.shape(), Shape::Identifier)
        && !is_spelled_eval(node.name())
}

fn is_typeof(guard: Guard) -> bool
    ensures { result ≡ row.is_typeof guard }
{
    matches!(guard, Guard::Typeof)
}

fn is_number(node: &Node) -> bool
    ensures { result ≡ is_it_number node.now }
{
    matches!(node.shape(), Shape::NumericLiteral(_))
}

// Whether it is the operand of a `typeof`, which reads it by its value, and no number, which may be
// one with a minus before it.
fn is_typed_plainly(seat: Seat, node: &Node) -> bool
    ensures { result ≡ row.is_typed_plainly seat node.now }
{
    is_typeof(seat.guard) && is_typed_by_value(node) && is_plain_part(node) && !is_number(node)
}

/// Whether an expression means here what a sequence does of which it is left: it suits the place,
/// or is a name other than `eval` that is called, or the operand of a `typeof`, which reads it by
/// its value (ECMA-262, "EvaluateCall", "The typeof Operator").
pub fn stays_alone(seat: Seat, node: &Node) -> bool
    ensures { result ≡ row.stays_alone seat node.now }
{
    suits(seat, node) || is_called_plainly(seat, node) || is_typed_plainly(seat, node)
}
