ghost use Rattle.std.specs.Prelude.{◌≡◌, ◌∷◌, [], ◌<◌, true, false, length, MatchOption};
ghost use Rattle.std.specs.Char.Utf16.{utf16_chars};
ghost use Rattle.mini_model.specs.Texts.{is_name_start, is_name_part, is_identifier_name};

use crate::Text;
use std::marker::Model;
use unicode_ident::{is_xid_continue, is_xid_start};

/// A text that is an identifier's name (ECMA-262, "Names and Keywords"). A contract sees the text.
pub struct IdentifierName {
    text: Text,
}

impl Model for IdentifierName {
    ghost use Rattle.std.specs.Prelude.{◌≡◌, ℕ, List, true};
    ghost use Rattle.mini_model.specs.Texts.{is_identifier_name};

    ghost Value = { List ℕ };

    ghost view = { λ name. name.text };

    ghost invariant = { λ name. is_identifier_name name.text ≡ true };
}

impl IdentifierName {
    /// The name with this text; None exactly where the text is no name (ECMA-262, IdentifierName).
    pub fn new(text: Text) -> Option<IdentifierName>
        ensures { MatchOption result
            (is_identifier_name text ≡ false)
            (λ name. (name ≡ text) × (is_identifier_name text ≡ true)) }
    {
        if is_identifier_name(&text) {
            Some(IdentifierName { text })
        } else {
            None
        }
    }

    /// The name's text, which is never empty and has no surrogate without a partner.
    pub fn text(&self) -> &Text
        ensures value { result.now ≡ self.now }
        ensures named { is_identifier_name self.now ≡ true }
    {
        &self.text
    }
}

impl Drop for IdentifierName {
    fn drop(self) {
        let IdentifierName { text } = self;
        drop(text);
    }
}

/// Whether the text is an identifier's name: a character that may begin one, and then some that may
/// go on with it (ECMA-262, IdentifierName, with XID_Start and XID_Continue of UAX #31).
pub fn is_identifier_name(text: &Text) -> bool
    ensures { result ≡ is_identifier_name text.now }
{
    let Some((Some(first), mut rest)) = split_first_char(text.as_slice()) else {
        return false;
    };
    if !is_name_start(first) {
        return false;
    }
    while let Some((ch, after)) = split_first_char(rest) {
        match ch {
            Some(part) if is_name_part(part) => rest = after,
            _ => return false,
        }
    }
    true
}

// Whether a name may begin with the character.
fn is_name_start(ch: char) -> bool
    ensures { result ≡ is_name_start ch }
{
    is_xid_start(ch) || ch == '$' || ch == '_'
}

// Whether a name may go on with the character: the two joiners are among those that it may.
fn is_name_part(ch: char) -> bool
    ensures { result ≡ is_name_part ch }
{
    is_xid_continue(ch) || matches!(ch, '$' | '\u{200C}' | '\u{200D}')
}

// The first character, which is None for a surrogate with no partner, and the units after it; None
// where there are none.
fn split_first_char(units: &[u16]) -> Option<(Option<char>, &[u16])>
    ensures { MatchOption result
        (units.now ≡ [])
        (λ split. (length split.1.now < length units.now)
        × (utf16_chars units.now ≡ split.0 ∷ utf16_chars split.1.now)) }
{
    match units {
        [] => None,
        [high @ 0xD800..0xDC00, low @ 0xDC00..0xE000, rest @ ..] => {
            let offset = (u32::from(*high) - 0xD800) * 0x400 + (u32::from(*low) - 0xDC00);
            Some((char::from_u32(0x1_0000 + offset), rest))
        }
        [unit, rest @ ..] => Some((char::from_u32(u32::from(*unit)), rest)),
    }
}
