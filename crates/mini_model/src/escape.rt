ghost use Rattle.std.specs.Prelude.{◌≡◌, ◌++◌, IfOk, OnOk};
ghost use Rattle.mini_model.specs.Templates.{escape, escaped};

use crate::code_units::{BACKSLASH, BACKTICK, CARRIAGE_RETURN, DOLLAR, LETTER_R};
use crate::{OutOfMemory, Text};
use std::alloc::Global;

/// The raw text of a template literal that spells a text: `\`, the backtick and `$` have a
/// backslash before them, and a carriage return is `\r` (ECMA-262, "Template Literal Lexical
/// Components").
///
/// The only error is that memory runs out.
pub fn escape_string_for_template_literal(alloc: Global, value: &Text) -> Result<Text, OutOfMemory>
    ensures { IfOk result (λ raw. raw ≡ escaped value.now) }
{
    let mut raw = Text::new(alloc);
    for unit in value.as_slice() {
        push_escaped(&mut raw, *unit)?;
    }
    Ok(raw)
}

// Puts a unit last, as a template's raw text spells it.
fn push_escaped(raw: &mut Text, unit: u16) -> Result<(), OutOfMemory>
    ensures { OnOk result (raw.new ≡ raw.old ++ escape unit) }
{
    match unit {
        BACKSLASH | BACKTICK | DOLLAR => {
            raw.push(BACKSLASH)?;
            raw.push(unit)
        }
        CARRIAGE_RETURN => {
            raw.push(BACKSLASH)?;
            raw.push(LETTER_R)
        }
        _ => raw.push(unit),
    }
}
