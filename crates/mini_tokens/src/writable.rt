//! Texts that stand in a program as they are: reserved words, patterns and flags of regular
//! expressions, directives, and pieces of templates.

ghost use Rattle.std.specs.Prelude.{◌≡◌, ◌&&◌, not, [], false, map, nat_eq};
ghost use Rattle.mini_model.specs.Weight.{same_text};
ghost use Rattle.mini_print.specs.Grammar as grammar;
ghost use Rattle.mini_print.specs.Text as text;
ghost use Rattle.mini_print.specs.Unprintable as unprintable;
ghost use Rattle.mini_tokens.specs.Writable as units;

use mini_model::TextList;

// The words that name nothing (ECMA-262, ReservedWord), and those that name something only in some
// code: `await`, `enum`, `let` and `yield`.
const RESERVED: [&str; 39] = [
    "await",
    "break",
    "case",
    "catch",
    "class",
    "const",
    "continue",
    "debugger",
    "default",
    "delete",
    "do",
    "else",
    "enum",
    "export",
    "extends",
    "false",
    "finally",
    "for",
    "function",
    "if",
    "import",
    "in",
    "instanceof",
    "let",
    "new",
    "null",
    "return",
    "super",
    "switch",
    "this",
    "throw",
    "true",
    "try",
    "typeof",
    "var",
    "void",
    "while",
    "with",
    "yield",
];

const BACKSLASH: u16 = 92;

const DOUBLE_QUOTE: u16 = 34;

const SINGLE_QUOTE: u16 = 39;

const CARRIAGE_RETURN: u16 = 13;

const BACKTICK: u16 = 96;

const DOLLAR: u16 = 36;

const LEFT_BRACE: u16 = 123;

/// Whether the units are those of the ASCII text.
pub fn spells(units: &[u16], ascii: &[u8]) -> bool
    ensures { result ≡ same_text units.now ascii.now }
{
    match (units, ascii) {
        ([], []) => true,
        ([unit, more @ ..], [byte, rest @ ..]) => *unit == *byte as u16 && spells(more, rest),
        _ => false,
    }
}

fn is_word_of(words: &[&str], units: &[u16]) -> bool
    ensures { result ≡ grammar.is_word_of (map (λ w. w.now) words.now) units.now }
{
    match words {
        [] => false,
        [word, rest @ ..] => spells(units, word.as_bytes()) || is_word_of(rest, units),
    }
}

/// Whether the text is a reserved word (ECMA-262, ReservedWord), or one of `await`, `enum`, `let`
/// and `yield`.
pub fn is_reserved(units: &[u16]) -> bool
    ensures { result ≡ grammar.is_reserved units.now }
{
    is_word_of(&RESERVED, units)
}

fn is_line_end(unit: u16) -> bool
    ensures { result ≡ text.is_line_end unit }
{
    matches!(unit, 10 | 13 | 8_232 | 8_233)
}

#[tactic(auto, using(crate::proofs::Scans::lines_go_on, crate::proofs::Scans::lines_stop, crate::proofs::Scans::lines_end))]
fn has_no_line_end(units: &[u16]) -> bool
    ensures { result ≡ text.has_no_line_end units.now }
{
    for unit in units {
        if is_line_end(*unit) {
            return false;
        }
    }
    true
}

// Where a unit of a pattern stands: outside and inside a class, and behind a backslash in either.
#[derive(Clone, Copy)]
enum PatternMode {
    Outside,
    InClass,
    Escaped,
    EscapedInClass,
}

fn next_mode(mode: PatternMode, unit: u16) -> PatternMode
    ensures { units.mode_of result ≡ text.next_mode (units.mode_of mode) unit }
{
    match mode {
        PatternMode::Outside => match unit {
            92 => PatternMode::Escaped,
            91 => PatternMode::InClass,
            _ => PatternMode::Outside,
        },
        PatternMode::InClass => match unit {
            92 => PatternMode::EscapedInClass,
            93 => PatternMode::Outside,
            _ => PatternMode::InClass,
        },
        PatternMode::Escaped => PatternMode::Outside,
        PatternMode::EscapedInClass => PatternMode::InClass,
    }
}

// Whether the unit ends the pattern.
fn ends_pattern(mode: PatternMode, unit: u16) -> bool
    ensures { result ≡ text.ends_pattern (units.mode_of mode) unit }
{
    match mode {
        PatternMode::Outside => unit == 47,
        _ => false,
    }
}

fn is_outside(mode: PatternMode) -> bool
    ensures { result ≡ text.is_whole_pattern (units.mode_of mode) [] }
{
    match mode {
        PatternMode::Outside => true,
        _ => false,
    }
}

#[tactic(auto, using(crate::proofs::Scans::pattern_goes_on, crate::proofs::Scans::pattern_stops, crate::proofs::Scans::pattern_ends))]
fn is_whole_pattern(pattern: &[u16]) -> bool
    ensures { result ≡ text.is_whole_pattern text.Outside pattern.now }
{
    let mut mode = PatternMode::Outside;
    for unit in pattern {
        if ends_pattern(mode, *unit) {
            return false;
        }
        mode = next_mode(mode, *unit);
    }
    is_outside(mode)
}

// Whether a pattern begins no comment.
fn begins_pattern(pattern: &[u16]) -> bool
    ensures { result ≡ text.begins_pattern pattern.now }
{
    match pattern {
        [] => false,
        [first, ..] => *first != 42,
    }
}

/// Whether the slash before a pattern opens one wherever it stands: no blank begins the pattern,
/// nor a `=` and a blank.
pub fn begins_plainly(pattern: &[u16]) -> bool
    ensures { result ≡ text.begins_plainly pattern.now }
{
    match pattern {
        [] => true,
        [first] => *first != 32,
        [first, second, ..] => *first != 32 && !(*second == 32 && *first == 61),
    }
}

fn is_pattern(pattern: &[u16]) -> bool
    ensures { result ≡ text.is_pattern pattern.now }
{
    begins_pattern(pattern) && (is_whole_pattern(pattern) && has_no_line_end(pattern))
}

fn is_letter(unit: u16) -> bool
    ensures { result ≡ text.is_letter unit }
{
    matches!(unit, 65..=90 | 97..=122)
}

#[tactic(auto, using(crate::proofs::Scans::letters_go_on, crate::proofs::Scans::letters_stop, crate::proofs::Scans::letters_end))]
fn are_letters(units: &[u16]) -> bool
    ensures { result ≡ text.are_letters units.now }
{
    for unit in units {
        if !is_letter(*unit) {
            return false;
        }
    }
    true
}

/// Whether a regular expression can be written (ECMA-262, "Regular Expression Literals").
pub fn is_regular_expression(pattern: &[u16], flags: &[u16]) -> bool
    ensures { result ≡ (text.is_pattern pattern.now && text.are_letters flags.now) }
{
    is_pattern(pattern) && are_letters(flags)
}

// Whether the unit behind this one is escaped.
fn escapes(escaped: bool, unit: u16) -> bool
    ensures { result ≡ (not escaped && nat_eq unit 92) }
{
    !escaped && unit == BACKSLASH
}

#[tactic(auto, using(crate::proofs::Scans::escapes_go_on, crate::proofs::Scans::escapes_end))]
fn ends_escaped(units: &[u16]) -> bool
    ensures { result ≡ unprintable.ends_escaped false units.now }
{
    let mut escaped = false;
    for unit in units {
        escaped = escapes(escaped, *unit);
    }
    escaped
}

fn is_bare(sought: u16, escaped: bool, unit: u16) -> bool
    ensures { result ≡ (not escaped && nat_eq unit sought) }
{
    !escaped && unit == sought
}

/// Whether the unit stands in a text with no backslash before it.
#[tactic(auto, using(crate::proofs::Scans::bare_goes_on, crate::proofs::Scans::bare_stops, crate::proofs::Scans::bare_ends))]
pub fn holds_bare(sought: u16, units: &[u16]) -> bool
    ensures { result ≡ unprintable.holds_bare sought false units.now }
{
    let mut escaped = false;
    for unit in units {
        if is_bare(sought, escaped, *unit) {
            return true;
        }
        escaped = escapes(escaped, *unit);
    }
    false
}

/// Whether a text can stand between quotes as it is: no line ends in it, its last backslash escapes
/// something, and it holds one kind of quotes at most (ECMA-262, "String Literals").
pub fn is_directive(units: &[u16]) -> bool
    ensures { result ≡ unprintable.is_directive units.now }
{
    has_no_line_end(units)
        && (!ends_escaped(units)
            && !(holds_bare(DOUBLE_QUOTE, units) && holds_bare(SINGLE_QUOTE, units)))
}

/// Whether each of the texts can be written as a directive: in double quotes or in single ones.
#[tactic(auto, using(crate::proofs::Scans::directives_go_on, crate::proofs::Scans::directives_stop, crate::proofs::Scans::directives_end))]
pub fn are_directives(texts: &TextList) -> bool
    ensures { result ≡ unprintable.are_directives texts.now }
{
    for text in texts.as_slice() {
        if !is_directive(text.as_slice()) {
            return false;
        }
    }
    true
}

/// Whether the unit is a digit.
pub fn is_digit(unit: u16) -> bool
    ensures { result ≡ text.is_digit unit }
{
    matches!(unit, 48..=57)
}

/// Whether the unit can stand in a word: it is no blank, and begins no punctuator, text or private
/// name.
pub fn is_word_unit(unit: u16) -> bool
    ensures { result ≡ text.is_word_unit unit }
{
    matches!(unit, 36 | 48..=57 | 65..=90 | 95 | 97..=122 | 127..=65_535)
}

#[tactic(auto, using(crate::proofs::Words::words_go_on, crate::proofs::Words::words_stop, crate::proofs::Words::words_end))]
fn are_word_units(units: &[u16]) -> bool
    ensures { result ≡ text.are_word_units units.now }
{
    for unit in units {
        if !is_word_unit(*unit) {
            return false;
        }
    }
    true
}

/// Whether the text is a word: units of words, of which the first is no digit.
pub fn is_word(units: &[u16]) -> bool
    ensures { result ≡ text.is_word units.now }
{
    match units {
        [] => false,
        [first, ..] => !is_digit(*first) && are_word_units(units),
    }
}

fn starts_with(sought: u16, units: &[u16]) -> bool
    ensures { result ≡ unprintable.starts_with sought units.now }
{
    match units {
        [] => false,
        [first, ..] => *first == sought,
    }
}

// Whether a unit of a template's raw text may stand before the rest.
fn may_stand(escaped: bool, unit: u16, rest: &[u16]) -> bool
    ensures { result ≡ units.may_stand escaped unit rest.now }
{
    if escaped {
        unit != CARRIAGE_RETURN
    } else {
        unit != CARRIAGE_RETURN
            && (unit != BACKTICK && !(unit == DOLLAR && starts_with(LEFT_BRACE, rest)))
    }
}

/// Whether a raw text can be written as a piece of a template (ECMA-262, TemplateCharacters).
#[tactic(auto, using(crate::proofs::Scans::raw_goes_on, crate::proofs::Scans::raw_stops, crate::proofs::Scans::raw_ends))]
pub fn is_raw(units: &[u16]) -> bool
    ensures { result ≡ unprintable.is_raw false units.now }
{
    let mut escaped = false;
    for at in 0..units.len() {
        if !may_stand(escaped, units[at], &units[at + 1..]) {
            return false;
        }
        escaped = escapes(escaped, units[at]);
    }
    !escaped
}
