// What the raw text of a template cooks to (ECMA-262, "Template Literal Lexical Components").

ghost use Rattle.std.specs.Prelude.{◌≡◌, [], ◌∷◌, Some, is_some, not, option_map, IsUtf8};
ghost use Rattle.std.specs.Char.Escape.{encode_utf16};
ghost use Rattle.std.specs.Str.Iter.{encode_utf16_rest};
ghost use Rattle.mini_model.specs.Texts.{units_of};
ghost use Rattle.mini_accept.specs.WellShaped.{is_text_of_cooked};
ghost use Rattle.mini_model.specs.Templates.{hex_digit, with_digit, character_step, escape_step, step, may_end, digit_step, brace_step, cooked};
ghost use Rattle.mini_fields.specs.Cooking.{state_of, step_of, next_place, units_left, Begins, Follows};

use std::marker::Model;
use std::str::EncodeUtf16;

const BACKSLASH: u16 = b'\\' as u16;

const LEFT_BRACE: u16 = b'{' as u16;

const RIGHT_BRACE: u16 = b'}' as u16;

// ---- code points

const LAST: u32 = 0x10_FFFF;

// A code point, which may be a surrogate's. A contract sees its number.
#[derive(Clone, Copy)]
struct CodePoint {
    number: u32,
}

impl Model for CodePoint {
    ghost use Rattle.std.specs.Prelude.{ℕ, ◌≤◌};

    ghost Value = { ℕ };

    ghost view = { λ point. point.number };

    ghost invariant = { λ point. point.number ≤ 0x10FFFF };

    ghost inverse = { λ number. record { number = number } };
}

impl CodePoint {
    fn zero() -> CodePoint
        ensures { result ≡ 0 }
    {
        CodePoint { number: 0 }
    }

    // The code point whose digits are those of this one and the unit; None where the unit is no
    // digit, or the number is past the last code point.
    fn with_digit(self, unit: u16) -> Option<CodePoint>
        ensures { result ≡ with_digit self unit }
    {
        let number = self.number * 16 + hex_digit(unit)?;
        if number <= LAST {
            Some(CodePoint { number })
        } else {
            None
        }
    }
}

// The value of a hexadecimal digit.
fn hex_digit(unit: u16) -> Option<u32>
    ensures { result ≡ hex_digit unit }
{
    let unit = u32::from(unit);
    match unit {
        0x30..=0x39 => Some(unit - 0x30),
        0x41..=0x46 => Some(unit - 0x37),
        0x61..=0x66 => Some(unit - 0x57),
        _ => None,
    }
}

// ---- units

// Where in a raw text the reader stands.
#[derive(Clone, Copy)]
enum State {
    // Before a character.
    Plain,
    // After a backslash.
    Escaping,
    // After `\0`, where no digit may follow.
    AfterZero,
    // In `\x` or `\u` with so many digits to come, and the value of those before.
    InDigits(u8, CodePoint),
    // After `\u`.
    AfterUnicode,
    // After `\u{`.
    AfterBrace,
    // After `\u{` and some digits, with their value.
    InBraces(CodePoint),
}

// What reading a unit does.
#[derive(Clone, Copy)]
enum Reading {
    // The raw text is malformed.
    Fails,
    // It gives nothing.
    Skips(State),
    // It gives a unit.
    GivesUnit(u16, State),
    // It gives the units of a code point.
    GivesPoint(CodePoint, State),
}

// Whether no escape is open.
fn may_end(state: State) -> bool
    ensures { result ≡ may_end (state_of state) }
{
    matches!(state, State::Plain | State::AfterZero)
}

// Reads one unit.
fn read(state: State, unit: u16) -> Reading
    ensures { step_of result ≡ step (state_of state) unit }
{
    match state {
        State::Plain => read_character(unit),
        State::Escaping => read_escape(unit),
        State::AfterZero => match unit {
            0x30..=0x39 => Reading::Fails,
            _ => read_character(unit),
        },
        State::InDigits(left, point) => read_digit(left, point.with_digit(unit)),
        State::AfterUnicode => match unit {
            LEFT_BRACE => Reading::Skips(State::AfterBrace),
            _ => read_digit(4, CodePoint::zero().with_digit(unit)),
        },
        State::AfterBrace => read_in_braces(CodePoint::zero().with_digit(unit)),
        State::InBraces(point) => match unit {
            RIGHT_BRACE => Reading::GivesPoint(point, State::Plain),
            _ => read_in_braces(point.with_digit(unit)),
        },
    }
}

// Reads a unit where no escape is open.
fn read_character(unit: u16) -> Reading
    ensures { step_of result ≡ character_step unit }
{
    match unit {
        BACKSLASH => Reading::Skips(State::Escaping),
        _ => Reading::GivesUnit(unit, State::Plain),
    }
}

// Reads the unit after a backslash: an end of a line, a digit, a letter of an escape, or one that
// stands for itself.
fn read_escape(unit: u16) -> Reading
    ensures { step_of result ≡ escape_step unit }
{
    match unit {
        0x0A | 0x0D | 0x2028 | 0x2029 => Reading::Skips(State::Plain),
        0x30 => Reading::GivesUnit(0, State::AfterZero),
        0x31..=0x39 => Reading::Fails,
        0x78 => Reading::Skips(State::InDigits(2, CodePoint::zero())),
        0x75 => Reading::Skips(State::AfterUnicode),
        0x62 => Reading::GivesUnit(0x08, State::Plain),
        0x74 => Reading::GivesUnit(0x09, State::Plain),
        0x6E => Reading::GivesUnit(0x0A, State::Plain),
        0x76 => Reading::GivesUnit(0x0B, State::Plain),
        0x66 => Reading::GivesUnit(0x0C, State::Plain),
        0x72 => Reading::GivesUnit(0x0D, State::Plain),
        _ => Reading::GivesUnit(unit, State::Plain),
    }
}

// What a digit in braces does, with the value up to it.
fn read_in_braces(point: Option<CodePoint>) -> Reading
    ensures { step_of result ≡ brace_step point }
{
    match point {
        None => Reading::Fails,
        Some(point) => Reading::Skips(State::InBraces(point)),
    }
}

// What one of so many digits does, with the value up to it.
fn read_digit(left: u8, point: Option<CodePoint>) -> Reading
    ensures { step_of result ≡ digit_step left point }
{
    match point {
        None => Reading::Fails,
        Some(point) if left > 1 => Reading::Skips(State::InDigits(left - 1, point)),
        Some(point) => Reading::GivesPoint(point, State::Plain),
    }
}

// ---- texts

// The place that the reading leads to; None where the raw text is malformed.
fn next_state(reading: Reading) -> Option<State>
    ensures { option_map state_of result ≡ next_place (step_of reading) }
{
    match reading {
        Reading::Fails => None,
        Reading::Skips(next) | Reading::GivesUnit(_, next) | Reading::GivesPoint(_, next) => {
            Some(next)
        }
    }
}

/// Whether the raw text is malformed.
pub fn is_malformed(raw: &str) -> bool
    ensures { result ≡ not (is_some (cooked (units_of raw.now))) }
{
    let mut state = State::Plain;
    for unit in raw.encode_utf16() {
        match next_state(read(state, unit)) {
            None => return true,
            Some(next) => state = next,
        }
    }
    !may_end(state)
}

// Whether the unit is the next one of the text.
fn unit_is_next(rest: &mut EncodeUtf16<'_>, unit: u16) -> bool
    requires { IsUtf8 (encode_utf16_rest rest.old) }
    ensures utf8 { IsUtf8 (encode_utf16_rest rest.new) }
    ensures same { Begins result (unit ∷ []) (units_left rest.old) (units_left rest.new) }
{
    match rest.next() {
        None => false,
        Some(found) => found == unit,
    }
}

// Whether the units of the code point are the next ones of the text (ECMA-262,
// UTF16EncodeCodePoint).
#[tactic(auto, using(crate::proofs::Cooked::begins_with_two))]
fn point_is_next(rest: &mut EncodeUtf16<'_>, point: CodePoint) -> bool
    requires { IsUtf8 (encode_utf16_rest rest.old) }
    ensures utf8 { IsUtf8 (encode_utf16_rest rest.new) }
    ensures same { Begins result (encode_utf16 point) (units_left rest.old) (units_left rest.new) }
{
    if point.number < 0x1_0000 {
        unit_is_next(rest, point.number as u16)
    } else {
        let offset = point.number - 0x1_0000;
        unit_is_next(rest, (0xD800 + offset / 0x400) as u16)
            && unit_is_next(rest, (0xDC00 + offset % 0x400) as u16)
    }
}

// The place that the reading leads to, where what it gives is next in the text.
#[tactic(auto, using(crate::proofs::Cooked::begins_with_none, crate::proofs::Cooked::follows_begun, crate::proofs::Cooked::follows_other))]
fn follow(reading: Reading, rest: &mut EncodeUtf16<'_>) -> Option<State>
    requires { IsUtf8 (encode_utf16_rest rest.old) }
    ensures utf8 { IsUtf8 (encode_utf16_rest rest.new) }
    ensures same { Follows (option_map state_of result) (step_of reading) (units_left rest.old) (units_left rest.new) }
{
    match reading {
        Reading::Fails => None,
        Reading::Skips(next) => Some(next),
        Reading::GivesUnit(unit, next) if unit_is_next(rest, unit) => Some(next),
        Reading::GivesPoint(point, next) if point_is_next(rest, point) => Some(next),
        _ => None,
    }
}

/// Whether the text is what the raw text cooks to.
pub fn cooks_to(raw: &str, text: &str) -> bool
    ensures { result ≡ is_text_of_cooked (Some (units_of text.now)) (cooked (units_of raw.now)) }
{
    let mut state = State::Plain;
    let mut rest = text.encode_utf16();
    for unit in raw.encode_utf16() {
        match follow(read(state, unit), &mut rest) {
            None => return false,
            Some(next) => state = next,
        }
    }
    may_end(state) && rest.next().is_none()
}
