// Texts in quotes (ECMA-262, "String Literals").

ghost use Rattle.std.specs.Prelude.{◌≡◌, ◌++◌, ◌⊎◌, OnOk};
ghost use Rattle.mini_print.specs.Text.{escape, escaped, quote, spelled};
ghost use Rattle.mini_print.specs.Token.{Quoted};

use crate::text::push_units;
use crate::writable::holds_bare;
use mini_model::{OutOfMemory, Text};

pub const DOUBLE_QUOTE: u16 = b'"' as u16;

const SINGLE_QUOTE: u16 = b'\'' as u16;

const BACKSLASH: u16 = b'\\' as u16;

// The escape of a line or a paragraph separator.
fn push_separator(text: &mut Text, unit: u16) -> Result<(), OutOfMemory>
    requires { (unit ≡ 8232) ⊎ (unit ≡ 8233) }
    ensures { OnOk result (text.new ≡ text.old ++ escape unit) }
{
    text.push(BACKSLASH)?;
    text.push(b'u' as u16)?;
    text.push(b'2' as u16)?;
    text.push(b'0' as u16)?;
    text.push(b'2' as u16)?;
    text.push(if unit == 0x2028 {
        b'8' as u16
    } else {
        b'9' as u16
    })
}

// A unit, as a text in double quotes spells it.
fn push_escaped(text: &mut Text, unit: u16) -> Result<(), OutOfMemory>
    ensures { OnOk result (text.new ≡ text.old ++ escape unit) }
{
    if unit == DOUBLE_QUOTE || unit == BACKSLASH {
        text.push(BACKSLASH)?;
        return text.push(unit);
    }
    if unit == 0x0A {
        text.push(BACKSLASH)?;
        return text.push(b'n' as u16);
    }
    if unit == 0x0D {
        text.push(BACKSLASH)?;
        return text.push(b'r' as u16);
    }
    if unit == 0x2028 || unit == 0x2029 {
        return push_separator(text, unit);
    }
    text.push(unit)
}

fn push_escapes(text: &mut Text, units: &[u16]) -> Result<(), OutOfMemory>
    ensures { OnOk result (text.new ≡ text.old ++ escaped units.now) }
{
    for unit in units {
        push_escaped(text, *unit)?;
    }
    Ok(())
}

/// Puts the literal of a text last: its units in double quotes, with escapes.
pub fn push_literal(text: &mut Text, units: &[u16]) -> Result<(), OutOfMemory>
    ensures { OnOk result (text.new ≡ text.old ++ spelled (Quoted (escaped units.now))) }
{
    text.push(DOUBLE_QUOTE)?;
    push_escapes(text, units)?;
    text.push(DOUBLE_QUOTE)
}

/// The quotes that units stand in as they are: double ones, or single ones where they hold a double
/// one with no backslash before it.
pub fn quote_of(units: &[u16]) -> u16
    ensures { result ≡ quote units.now }
{
    if holds_bare(DOUBLE_QUOTE, units) {
        SINGLE_QUOTE
    } else {
        DOUBLE_QUOTE
    }
}

/// Puts units last as they are, in their quotes.
pub fn push_quoted(text: &mut Text, units: &[u16]) -> Result<(), OutOfMemory>
    ensures { OnOk result (text.new ≡ text.old ++ spelled (Quoted units.now)) }
{
    let mark = quote_of(units);
    text.push(mark)?;
    push_units(text, units)?;
    text.push(mark)
}
