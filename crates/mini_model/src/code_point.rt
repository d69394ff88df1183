ghost use Rattle.std.specs.Prelude.{◌≡◌, ◌++◌, OnOk};
ghost use Rattle.std.specs.Char.Escape.{encode_utf16};
ghost use Rattle.mini_model.specs.Templates.{hex_digit, with_digit};

use crate::{OutOfMemory, Text};
use std::marker::Model;

const LAST: u32 = 0x10_FFFF;

// A code point, which may be a surrogate's. A contract sees its number.
#[derive(Clone, Copy)]
pub struct CodePoint {
    number: u32,
}

impl Model for CodePoint {
    ghost use Rattle.std.specs.Prelude.{ℕ, ◌≤◌};

    ghost Value = { ℕ };

    ghost view = { λ point. point.number };

    ghost invariant = { λ point. point.number ≤ 0x10FFFF };

    ghost inverse = { λ number. record { number = number } };
}

impl CodePoint {
    /// The code point U+0000.
    pub fn zero() -> CodePoint
        ensures { result ≡ 0 }
    {
        CodePoint { number: 0 }
    }

    // The code point whose digits are those of this one and the unit; None where the unit is no
    // digit, or the number is past the last code point.
    pub fn with_digit(self, unit: u16) -> Option<CodePoint>
        ensures { result ≡ with_digit self unit }
    {
        let number = self.number * 16 + hex_digit(unit)?;
        if number <= LAST {
            Some(CodePoint { number })
        } else {
            None
        }
    }

    // Puts the code point's UTF-16 units last (ECMA-262, UTF16EncodeCodePoint).
    pub fn push_to(self, text: &mut Text) -> Result<(), OutOfMemory>
        ensures { OnOk result (text.new ≡ text.old ++ encode_utf16 self) }
    {
        if self.number < 0x1_0000 {
            text.push(self.number as u16)
        } else {
            let offset = self.number - 0x1_0000;
            text.push((0xD800 + offset / 0x400) as u16)?;
            text.push((0xDC00 + offset % 0x400) as u16)
        }
    }
}

// The value of a hexadecimal digit.
fn hex_digit(unit: u16) -> Option<u32>
    ensures { result ≡ hex_digit unit }
{
    let unit = u32::from(unit);
    match unit {
        0x30..=0x39 => Some(unit - 0x30),
        0x41..=0x46 => Some(unit - 0x37),
        0x61..=0x66 => Some(unit - 0x57),
        _ => None,
    }
}
