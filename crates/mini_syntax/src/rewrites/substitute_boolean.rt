//! Row 65: `true` becomes `!0`, and `false` becomes `!1`, which is lighter in every seat.

ghost use Rattle.std.specs.Prelude.{◌≡◌, is_some, unwrap_or, OnOk, IfOk};
ghost use Rattle.mini_rows.specs.Spellings.{negated_digit as its_digit};
ghost use Rattle.mini_syntax.specs.SubstituteBoolean.{written};

use mini_model::OutOfMemory;
use mini_node::{Node, boolean, negation, numeric_literal};
use std::alloc::Global;

// `!0` or `!1`
fn negated_digit(alloc: Global, value: bool) -> Result<Node, OutOfMemory>
    ensures { IfOk result (λ w. w ≡ its_digit value) }
{
    match value {
        true => negation(alloc, numeric_literal(alloc, 0)),
        false => negation(alloc, numeric_literal(alloc, 1)),
    }
}

/// `true` becomes `!0`, and `false` becomes `!1`. The answer says whether it did; the only error is
/// that memory runs out, and then the expression is fit only to be dropped.
pub fn substitute_boolean(alloc: Global, node: &mut Node) -> Result<bool, OutOfMemory>
    ensures tree { OnOk result (node.new ≡ unwrap_or (written node.old) node.old) }
    ensures said { IfOk result (λ changed. changed ≡ is_some (written node.old)) }
{
    match boolean(node) {
        Some(value) => {
            *node = negated_digit(alloc, value)?;
            Ok(true)
        }
        None => Ok(false),
    }
}
