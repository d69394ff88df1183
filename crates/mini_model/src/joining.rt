ghost use Rattle.std.specs.Prelude.{◌≡◌, IfOk, OnOk};
ghost use Rattle.mini_model.specs.Joined.{ending_with, ending_of, readied, with_part, joined};
ghost use Rattle.mini_model.specs.Tails.{ending_at};

use crate::code_units::{BACKSLASH, DIGIT_ZERO, DOLLAR, LEFT_BRACE, LETTER_X};
use crate::{OutOfMemory, Text, TextList};
use std::alloc::Global;

// How a raw text ends.
#[derive(Clone, Copy)]
enum Tail {
    // In a backslash that no other escapes.
    OpenEscape,
    // In `\0`, whose backslash no other escapes.
    NullEscape,
    // In a `$` that no backslash escapes.
    BareDollar,
    // In anything else, or in nothing.
    Rest,
}

/// The raw texts of parts of a template literal, joined. Where a part ends in an unescaped `$` and
/// `{` comes next, a backslash goes between; where it ends in an unescaped `\0` and a digit comes
/// next, that `\0` becomes `\x00` (ECMA-262, "Template Literal Lexical Components", TemplateHead
/// and NotEscapeSequence).
///
/// The only error is that memory runs out.
pub fn concat_template_literal_raw(alloc: Global, parts: &TextList) -> Result<Text, OutOfMemory>
    ensures { IfOk result (λ raw. raw ≡ joined parts.now) }
{
    let mut raw = Text::new(alloc);
    let mut tail = Tail::Rest;
    for part in parts.as_slice() {
        tail = push_part(&mut raw, tail, part.as_slice())?;
    }
    Ok(raw)
}

// Puts a part last, and says how the raw text ends then.
fn push_part(raw: &mut Text, tail: Tail, part: &[u16]) -> Result<Tail, OutOfMemory>
    requires { ending_at tail ≡ ending_of raw.old }
    ensures joins { OnOk result (raw.new ≡ with_part raw.old part.now) }
    ensures ends { IfOk result (λ tail. ending_at tail ≡ ending_of raw.new) }
{
    let [first, ..] = part else {
        return Ok(tail);
    };
    let mut tail = make_ready(raw, tail, *first)?;
    for unit in part {
        raw.push(*unit)?;
        tail = tail_with(tail, *unit);
    }
    Ok(tail)
}

// Makes the raw text ready for a unit to come, and says how it ends then.
fn make_ready(raw: &mut Text, tail: Tail, next: u16) -> Result<Tail, OutOfMemory>
    requires { ending_at tail ≡ ending_of raw.old }
    ensures readies { OnOk result (raw.new ≡ readied (ending_of raw.old) raw.old next) }
    ensures ends { IfOk result (λ tail. ending_at tail ≡ ending_of raw.new) }
{
    match (tail, next) {
        (Tail::NullEscape, 0x30..=0x39) => {
            let _zero = raw.pop();
            raw.push(LETTER_X)?;
            raw.push(DIGIT_ZERO)?;
            raw.push(DIGIT_ZERO)?;
            Ok(Tail::Rest)
        }
        (Tail::BareDollar, LEFT_BRACE) => {
            raw.push(BACKSLASH)?;
            Ok(Tail::OpenEscape)
        }
        _ => Ok(tail),
    }
}

// How a raw text ends with one more unit behind.
fn tail_with(tail: Tail, unit: u16) -> Tail
    ensures { ending_at result ≡ ending_with (ending_at tail) unit }
{
    match (tail, unit) {
        (Tail::OpenEscape, DIGIT_ZERO) => Tail::NullEscape,
        (Tail::OpenEscape, _) => Tail::Rest,
        (_, BACKSLASH) => Tail::OpenEscape,
        (_, DOLLAR) => Tail::BareDollar,
        (_, _) => Tail::Rest,
    }
}
