//! Row 9: the length of a text that is written out becomes its number. `"abc".length` becomes `3`;
//! the member stays where a reference is asked, as of `delete "abc".length`. What is written is
//! lighter in every place; of a text that is known otherwise it is weighed.

ghost use Rattle.std.specs.Prelude.{◌≡◌, is_some, unwrap_or, true, IfOk};
ghost use Rattle.mini_model.specs.Tree.{shape_of, children, count};
ghost use Rattle.mini_kept.specs.Placed.{is_chain_seat as is_it_chain_seat};
ghost use Rattle.mini_terms.specs.Parts as part;
ghost use Rattle.mini_terms.specs.Reading as term;
ghost use Rattle.mini_terms.specs.Values.{value_in};
ghost use Rattle.mini_node.specs.Kinds as kind;
ghost use Rattle.mini_fold.specs.FoldConstants.{text_in, known_text, length_of as its_length};
ghost use Rattle.mini_fold.specs.FoldStaticMember.{names_length as names_it_length, is_length_key as is_it_length_key, says_length as says_it_length, takes_length as may_take_length, asks_length as asks_it_length, asks_computed as asks_it_computed, count_of as its_count, written, computed_written};

use mini_model::{Guard, OutOfMemory, Seat, Shape};
use mini_node::{Node, is_computed_member, is_static_member, numeric_literal, string};
use mini_terms::{ConstantValue, given_value, has_no_effect};
use std::alloc::Global;

// The units of `length`.
const LENGTH: [u16; 6] = [108, 101, 110, 103, 116, 104];

// The greatest safe number (ECMA-262, Number.MAX_SAFE_INTEGER).
const MAX_SAFE: usize = 9_007_199_254_740_991;

fn names_length(shape: &Shape) -> bool
    ensures { result ≡ names_it_length shape.now }
{
    match shape {
        Shape::IdentifierName(text) => text.as_slice() == LENGTH.as_slice(),
        _ => false,
    }
}

fn is_length_key(node: &Node) -> bool
    ensures { result ≡ is_it_length_key node.now }
{
    node.is_bare(0) && names_length(node.shape())
}

// Whether no reference is asked.
fn is_unguarded(guard: Guard) -> bool
    ensures { result ≡ term.is_unguarded guard }
{
    matches!(guard, Guard::None)
}

// Whether no `-` stands before it, or only the truth is asked.
fn takes_numbers(seat: Seat) -> bool
    ensures { result ≡ part.takes_numbers seat }
{
    seat.boolean || !seat.minus
}

// Whether what a chain holds may stand there.
fn is_chain_seat(seat: Seat) -> bool
    ensures { result ≡ is_it_chain_seat seat }
{
    seat.level == 16 && !seat.access && !seat.boolean && !seat.unused
}

fn takes_length(seat: Seat) -> bool
    ensures { result ≡ may_take_length seat }
{
    is_unguarded(seat.guard) && takes_numbers(seat) && !is_chain_seat(seat)
}

// `a.length`, where a number may stand.
fn asks_length(node: &Node, seat: Seat) -> bool
    ensures kind { result ≡ asks_it_length seat node.now }
    ensures parts { result ≡ true → count (children node.now) ≡ 2 }
{
    is_static_member(node) && is_length_key(node.child(1)) && takes_length(seat)
}

// The number of units of a text that is written out.
fn count_of(alloc: Global, node: &Node) -> Option<Node>
    ensures { result ≡ its_count (kind.string node.now) }
{
    match string(node) {
        Some(text) if text.len() <= MAX_SAFE => Some(numeric_literal(alloc, text.len() as i64)),
        _ => None,
    }
}

// The number of units of a value that is a text.
fn count_of_value(alloc: Global, value: Option<ConstantValue>) -> Option<Node>
    ensures { result ≡ its_count (text_in (value_in value)) }
{
    match value {
        Some(ConstantValue::String(text)) if text.len() <= MAX_SAFE => {
            Some(numeric_literal(alloc, text.len() as i64))
        }
        _ => None,
    }
}

// The number of units of the text of an effect-free expression, where it is known.
fn count_of_known(alloc: Global, node: &Node) -> Result<Option<Node>, OutOfMemory>
    ensures { IfOk result (λ w. w ≡ its_count (known_text node.now)) }
{
    if !has_no_effect(node) {
        return Ok(None);
    }
    let value = given_value(alloc, node)?;
    Ok(count_of_value(alloc, value))
}

/// The number that the length of a text is which is known, where it may stand: of `` `${!1}`.length
/// `` it is `5`.
///
/// The only error is that memory runs out.
pub fn length_of(alloc: Global, node: &Node, seat: Seat) -> Result<Option<Node>, OutOfMemory>
    ensures { IfOk result (λ w. w ≡ its_length seat node.now) }
{
    if asks_length(node, seat) {
        count_of_known(alloc, node.child(0))
    } else {
        Ok(None)
    }
}

/// The length of a text that is written out becomes its number: `"abc".length` becomes `3`. The
/// answer says whether it did.
pub fn fold_static_member(alloc: Global, node: &mut Node, seat: Seat) -> bool
    ensures tree { node.new ≡ unwrap_or (written seat node.old) node.old }
    ensures said { result ≡ is_some (written seat node.old) }
{
    if !asks_length(node, seat) {
        return false;
    }
    let Some(number) = count_of(alloc, node.child(0)) else {
        return false;
    };
    *node = number;
    true
}

// The text `length`.
fn says_length(node: &Node) -> bool
    ensures { result ≡ says_it_length (kind.string node.now) }
{
    match string(node) {
        Some(text) => text.as_slice() == LENGTH.as_slice(),
        None => false,
    }
}

// `a["length"]`, where a number may stand.
fn asks_computed(node: &Node, seat: Seat) -> bool
    ensures kind { result ≡ asks_it_computed seat node.now }
    ensures parts { result ≡ true → count (children node.now) ≡ 2 }
{
    is_computed_member(node) && says_length(node.child(1)) && takes_length(seat)
}

/// The length of a text that is read with a key in brackets becomes a number: `"abc"["length"]`
/// becomes `3`. The answer says whether it did.
pub fn fold_computed_member_expr(alloc: Global, node: &mut Node, seat: Seat) -> bool
    ensures tree { node.new ≡ unwrap_or (computed_written seat node.old) node.old }
    ensures said { result ≡ is_some (computed_written seat node.old) }
{
    if !asks_computed(node, seat) {
        return false;
    }
    let Some(number) = count_of(alloc, node.child(0)) else {
        return false;
    };
    *node = number;
    true
}
