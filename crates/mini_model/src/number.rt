ghost use Rattle.std.specs.Prelude.{◌≡◌, ◌≢◌, ◌≤◌, ℕ, ℤ, IfOk, MatchOption};
ghost use Rattle.std.specs.Fmt.{decimal, signed_decimal};
ghost use Rattle.mini_model.specs.Numerals.{max_safe_integer, IsTextOfSafe, safe_number};

use crate::{OutOfMemory, Text};
use itoa::Buffer;
use std::alloc::Global;

// The unit of `-`.
const MINUS: u16 = 0x2D;

// The units of `0` and `9`; those of the other digits lie between them.
const ZERO: u16 = 0x30;

const NINE: u16 = 0x39;

// The greatest safe number (ECMA-262, Number.MAX_SAFE_INTEGER).
const MAX_SAFE_INTEGER: u64 = 9_007_199_254_740_991;

/// The decimal text of a whole number, as `0`, `12` or `-5`. Of a safe number it is the text that
/// ECMA-262 gives it (Number::toString at radix 10); past those the standard may write zeros in
/// place of the last digits.
///
/// The only error is that memory runs out.
pub fn decimal(alloc: Global, n: i64) -> Result<Text, OutOfMemory>
    ensures { IfOk result (λ text. text ≡ signed_decimal n) }
{
    let mut buffer = Buffer::new();
    Text::from_str(alloc, buffer.format(n))
}

/// The safe number, at most 2^53 - 1 from 0, that has this text (ECMA-262,
/// CanonicalNumericIndexString, with Number.MAX_SAFE_INTEGER as the limit); None exactly where no
/// safe number has it, as at `+1`, `012` or no text, and at
/// `-0`, which the standard reads as a zero of its own.
pub fn equivalent_number(text: &Text) -> Option<i64>
    ensures exact { MatchOption result ((n : ℤ) → ¬ (IsTextOfSafe text.now n)) (IsTextOfSafe text.now) }
    ensures value { result ≡ safe_number text.now }
{
    match text.as_slice() {
        [MINUS, digits @ ..] => match whole_number(digits)? {
            0 => None,
            number => Some(-(number as i64)),
        },
        digits => Some(whole_number(digits)? as i64),
    }
}

// The number with these digits; None exactly where it's past the limit, and where they aren't
// digits of a number.
fn whole_number(digits: &[u16]) -> Option<u64>
    ensures { MatchOption result
        ((n : ℕ) → n ≤ max_safe_integer → digits.now ≢ decimal n)
        (λ n. (n ≤ max_safe_integer) × (digits.now ≡ decimal n)) }
{
    if digits.is_empty() {
        return None;
    }
    if digits.len() > 1 && digits[0] == ZERO {
        return None;
    }
    let mut number = 0;
    for unit in digits {
        match *unit {
            digit @ ZERO..=NINE => number = number * 10 + u64::from(digit - ZERO),
            _ => return None,
        }
        if number > MAX_SAFE_INTEGER {
            return None;
        }
    }
    Some(number)
}
