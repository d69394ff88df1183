//! Strict code.

ghost use Rattle.std.specs.Prelude.{◌≡◌, codes};
ghost use Rattle.mini_model.specs.Weight.{same_text};
ghost use Rattle.mini_laws.specs.Strict.{has_use_strict as has_use_strict_in, is_strict_in as is_strict_at};

use mini_model::{Shape, Text};

/// The units of `use strict`.
const USE_STRICT: [u16; 10] = [117, 115, 101, 32, 115, 116, 114, 105, 99, 116];

fn is_use_strict(directive: &Text) -> bool
    ensures { result ≡ same_text directive.now (codes "use strict") }
{
    directive.as_slice() == USE_STRICT.as_slice()
}

fn has_use_strict(directives: &[Text]) -> bool
    ensures { result ≡ has_use_strict_in directives.now }
{
    for directive in directives {
        if is_use_strict(directive) {
            return true;
        }
    }
    false
}

/// Whether what stands in a node of this shape is strict code, given whether the node does.
pub fn is_strict_in(strict: bool, shape: &Shape) -> bool
    ensures { result ≡ is_strict_at strict shape.now }
{
    match shape {
        Shape::Program(is_module, directives) => {
            *is_module || has_use_strict(directives.as_slice())
        }
        Shape::Function(_, _, directives) | Shape::ArrowFunctionExpression(directives) => {
            strict || has_use_strict(directives.as_slice())
        }
        Shape::Class(_) => true,
        _ => strict,
    }
}
