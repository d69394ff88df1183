ghost use Rattle.std.specs.Prelude.{◌≡◌, IfOk};
ghost use Rattle.mini_model.specs.Templates.{character_step, escape_step, step, may_end, digit_step, brace_step, cooked};
ghost use Rattle.mini_model.specs.Reader.{place_of, step_of};

use crate::code_point::CodePoint;
use crate::code_units::{
    BACKSLASH, DIGIT_ZERO, LEFT_BRACE, LETTER_B, LETTER_F, LETTER_N, LETTER_R, LETTER_T, LETTER_U,
    LETTER_V, LETTER_X, RIGHT_BRACE,
};
use crate::{OutOfMemory, Text};
use std::alloc::Global;

// Where in a raw text the reader stands.
#[derive(Clone, Copy)]
enum State {
    // Before a character.
    Plain,
    // After a backslash.
    Escaping,
    // After `\0`, where no digit may follow.
    AfterZero,
    // In `\x` or `\u` with so many digits to come, and the value of those before.
    InDigits(u8, CodePoint),
    // After `\u`.
    AfterUnicode,
    // After `\u{`.
    AfterBrace,
    // After `\u{` and some digits, with their value.
    InBraces(CodePoint),
}

// What reading a unit does.
enum Reading {
    // The raw text is malformed.
    Fails,
    // It gives nothing.
    Skips(State),
    // It gives a unit.
    GivesUnit(u16, State),
    // It gives the units of a code point.
    GivesPoint(CodePoint, State),
}

/// The text that a template literal's raw text stands for; None exactly where the raw text is
/// malformed, so that only a tagged template may hold it (ECMA-262, "Template Literal Lexical
/// Components", TV). A carriage return stands for itself, and before a line feed it is a line end
/// of its own: the standard's TRV has made line feeds of both.
///
/// The only error is that memory runs out.
pub fn cook(alloc: Global, raw: &Text) -> Result<Option<Text>, OutOfMemory>
    ensures { IfOk result (λ text. text ≡ cooked raw.now) }
{
    let mut text = Text::new(alloc);
    let mut state = State::Plain;
    for unit in raw.as_slice() {
        match read(state, *unit) {
            Reading::Fails => return Ok(None),
            Reading::Skips(next) => state = next,
            Reading::GivesUnit(given, next) => {
                text.push(given)?;
                state = next;
            }
            Reading::GivesPoint(point, next) => {
                point.push_to(&mut text)?;
                state = next;
            }
        }
    }
    if may_end(state) {
        Ok(Some(text))
    } else {
        Ok(None)
    }
}

// Whether no escape is open.
fn may_end(state: State) -> bool
    ensures { result ≡ may_end (place_of state) }
{
    matches!(state, State::Plain | State::AfterZero)
}

// Reads one unit.
fn read(state: State, unit: u16) -> Reading
    ensures { step_of result ≡ step (place_of state) unit }
{
    match state {
        State::Plain => read_character(unit),
        State::Escaping => read_escape(unit),
        State::AfterZero => match unit {
            0x30..=0x39 => Reading::Fails,
            _ => read_character(unit),
        },
        State::InDigits(left, point) => read_digit(left, point.with_digit(unit)),
        State::AfterUnicode => match unit {
            LEFT_BRACE => Reading::Skips(State::AfterBrace),
            _ => read_digit(4, CodePoint::zero().with_digit(unit)),
        },
        State::AfterBrace => read_in_braces(CodePoint::zero().with_digit(unit)),
        State::InBraces(point) => match unit {
            RIGHT_BRACE => Reading::GivesPoint(point, State::Plain),
            _ => read_in_braces(point.with_digit(unit)),
        },
    }
}

// Reads a unit where no escape is open.
fn read_character(unit: u16) -> Reading
    ensures { step_of result ≡ character_step unit }
{
    match unit {
        BACKSLASH => Reading::Skips(State::Escaping),
        _ => Reading::GivesUnit(unit, State::Plain),
    }
}

// Reads the unit after a backslash.
fn read_escape(unit: u16) -> Reading
    ensures { step_of result ≡ escape_step unit }
{
    match unit {
        0x0A | 0x0D | 0x2028 | 0x2029 => Reading::Skips(State::Plain),
        DIGIT_ZERO => Reading::GivesUnit(0, State::AfterZero),
        0x31..=0x39 => Reading::Fails,
        LETTER_X => Reading::Skips(State::InDigits(2, CodePoint::zero())),
        LETTER_U => Reading::Skips(State::AfterUnicode),
        LETTER_B => Reading::GivesUnit(0x08, State::Plain),
        LETTER_T => Reading::GivesUnit(0x09, State::Plain),
        LETTER_N => Reading::GivesUnit(0x0A, State::Plain),
        LETTER_V => Reading::GivesUnit(0x0B, State::Plain),
        LETTER_F => Reading::GivesUnit(0x0C, State::Plain),
        LETTER_R => Reading::GivesUnit(0x0D, State::Plain),
        _ => Reading::GivesUnit(unit, State::Plain),
    }
}

// What a digit in braces does, with the value up to it.
fn read_in_braces(point: Option<CodePoint>) -> Reading
    ensures { step_of result ≡ brace_step point }
{
    match point {
        None => Reading::Fails,
        Some(point) => Reading::Skips(State::InBraces(point)),
    }
}

// What one of so many digits does, with the value up to it.
fn read_digit(left: u8, point: Option<CodePoint>) -> Reading
    ensures { step_of result ≡ digit_step left point }
{
    match point {
        None => Reading::Fails,
        Some(point) if left > 1 => Reading::Skips(State::InDigits(left - 1, point)),
        Some(point) => Reading::GivesPoint(point, State::Plain),
    }
}
