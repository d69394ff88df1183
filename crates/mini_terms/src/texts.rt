//! The number of a text (ECMA-262, "StringToNumber"), where it is whole and safe.

ghost use Rattle.std.specs.Prelude.{◌≡◌, ◌<◌, ◌≤◌, drop, length, reverse, take};
ghost use Rattle.mini_laws.specs.Conversion as conversion;
ghost use Rattle.mini_terms.specs.Const.{made};
ghost use Rattle.mini_terms.specs.Texts as term;

use crate::numbers::signed;

// The least number past the safe ones (ECMA-262, Number.MAX_SAFE_INTEGER).
const PAST_SAFE: u64 = 9_007_199_254_740_992;

const PLUS: u16 = 43;

const MINUS: u16 = 45;

const ZERO: u16 = 48;

// White space, or the end of a line.
fn is_space(unit: u16) -> bool
    ensures { result ≡ conversion.is_space unit }
{
    matches!(
        unit,
        9..=13 | 32 | 160 | 5_760 | 8_192..=8_202 | 8_232 | 8_233 | 8_239 | 8_287 | 12_288 | 65_279
    )
}

// How many units of white space it begins with.
#[tactic(auto, using(crate::proofs::TextNumbers::space_goes_on, crate::proofs::TextNumbers::space_ends, crate::proofs::TextNumbers::space_all))]
fn spaces_before(units: &[u16]) -> usize
    ensures some { result ≤ length units.now }
    ensures rest { drop result units.now ≡ conversion.without_space units.now }
{
    let mut at = 0;
    while at < units.len() && is_space(units[at]) {
        at += 1;
    }
    at
}

// Where the white space begins that it ends with.
#[tactic(auto, using(crate::proofs::TextNumbers::end_goes_on, crate::proofs::TextNumbers::end_ends, crate::proofs::TextNumbers::end_none))]
fn end_of(units: &[u16]) -> usize
    ensures some { result ≤ length units.now }
    ensures rest { take result units.now ≡ reverse (conversion.without_space (reverse units.now)) }
{
    let mut end = units.len();
    while end > 0 && is_space(units[end - 1]) {
        end -= 1;
    }
    end
}

// Without white space at its ends.
fn trimmed(units: &[u16]) -> &[u16]
    ensures { result.now ≡ conversion.trimmed units.now }
{
    let rest = &units[spaces_before(units)..];
    &rest[..end_of(rest)]
}

// The value of a digit; 99 is none in any base.
fn digit(unit: u16) -> u64
    ensures value { result ≡ conversion.digit unit }
    ensures small { result ≤ 99 }
{
    let unit = u64::from(unit);
    match unit {
        48..=57 => unit - 48,
        97..=122 => unit - 87,
        65..=90 => unit - 55,
        _ => 99,
    }
}

// The number, if it is safe.
fn capped(number: u64) -> Option<u64>
    ensures { result ≡ term.capped number }
{
    if number < PAST_SAFE {
        Some(number)
    } else {
        None
    }
}

// The number of the digits up to here, and one more.
#[tactic(auto, using(crate::proofs::TextNumbers::capped_safe))]
fn with_digit(base: u64, number: Option<u64>, unit: u16) -> Option<u64>
    requires base { base ≤ 16 }
    requires safe { term.IsSafe number }
    ensures value { result ≡ term.with_digit base number unit }
    ensures safe { term.IsSafe result }
{
    match number {
        Some(known) if digit(unit) < base => capped(known * base + digit(unit)),
        _ => None,
    }
}

// The number of some digits.
#[tactic(auto, using(crate::proofs::TextNumbers::digit_goes_on, crate::proofs::TextNumbers::digits_end))]
fn read_digits(base: u64, units: &[u16]) -> Option<u64>
    requires base { base ≤ 16 }
    ensures { result ≡ term.read_on base (term.capped 0) units.now }
{
    let mut number = Some(0);
    for unit in units {
        number = with_digit(base, number, *unit);
    }
    number
}

// The number of one digit at least.
#[tactic(auto, using(crate::proofs::TextNumbers::some_read))]
fn read_number(base: u64, units: &[u16]) -> Option<u64>
    requires some { 0 < base }
    requires base { base ≤ 16 }
    ensures { result ≡ term.safe_of (conversion.read_number base units.now) }
{
    if units.is_empty() {
        None
    } else {
        read_digits(base, units)
    }
}

// With a minus or without.
#[tactic(auto, using(crate::proofs::TextNumbers::number_back))]
fn read_signed(is_negative: bool, number: Option<u64>) -> Option<i64>
    ensures { result ≡ made (conversion.read_signed is_negative number) }
{
    match number {
        Some(size) => signed(is_negative, size),
        None => None,
    }
}

// Of digits in a base.
#[tactic(auto, using(crate::proofs::TextNumbers::signed_read))]
fn read_in(is_negative: bool, base: u64, units: &[u16]) -> Option<i64>
    requires some { 0 < base }
    requires base { base ≤ 16 }
    ensures { result ≡ made (conversion.read_signed is_negative (conversion.read_number base units.now)) }
{
    read_signed(is_negative, read_number(base, units))
}

// The base that `x`, `o` or `b` tells; 0 of any other unit.
fn base_of(unit: u16) -> u64
    ensures value { result ≡ conversion.base_of unit }
    ensures small { result ≤ 16 }
{
    match unit {
        88 | 120 => 16,
        79 | 111 => 8,
        66 | 98 => 2,
        _ => 0,
    }
}

// After a `0`: `0x`, `0o`, `0b` and their digits, or more decimal digits.
#[tactic(auto, using(crate::proofs::TextNumbers::zero_base, crate::proofs::TextNumbers::other_base))]
fn read_based(units: &[u16]) -> Option<i64>
    requires { 0 < length units.now }
    ensures { result ≡ term.read_zero units.now }
{
    let base = base_of(units[0]);
    if base == 0 {
        read_in(false, 10, units)
    } else {
        read_in(false, base, &units[1..])
    }
}

// After white space is gone.
#[tactic(auto, using(crate::proofs::TextNumbers::one_read, crate::proofs::TextNumbers::plus_read, crate::proofs::TextNumbers::minus_read, crate::proofs::TextNumbers::zero_read, crate::proofs::TextNumbers::other_read))]
fn read_trimmed(units: &[u16]) -> Option<i64>
    ensures { result ≡ made (conversion.read_trimmed units.now) }
{
    if units.is_empty() {
        return Some(0);
    }
    if units.len() == 1 {
        return read_in(false, 10, units);
    }
    match units[0] {
        PLUS => read_in(false, 10, &units[1..]),
        MINUS => read_in(true, 10, &units[1..]),
        ZERO => read_based(&units[1..]),
        _ => read_in(false, 10, units),
    }
}

/// The number of a text, if it is whole and safe.
pub fn text_number(units: &[u16]) -> Option<i64>
    ensures { result ≡ made (conversion.read_trimmed (conversion.trimmed units.now)) }
{
    read_trimmed(trimmed(units))
}
