// The names of identifiers.

ghost use Rattle.std.specs.Prelude.{◌≡◌, option_map};
ghost use Rattle.serde_json.specs.View.{view};
ghost use Rattle.mini_model.specs.Texts.{units_of, is_name_start, is_name_part};
ghost use Rattle.mini_accept.specs.WellShaped.{is_name};
ghost use Rattle.mini_accept.specs.Fields.{name_at};
ghost use Rattle.mini_fields.specs.Names.{fits};

use crate::look::text_at;
use serde_json::Value;
use unicode_ident::{is_xid_continue, is_xid_start};

/// Whether the text is an identifier's name (ECMA-262, IdentifierName).
#[tactic(auto, using(crate::proofs::Characters::is_name_of_text))]
pub fn is_name(text: &str) -> bool
    ensures { result ≡ is_name (units_of text.now) }
{
    let mut first = true;
    for ch in text.chars() {
        if !fits(first, ch) {
            return false;
        }
        first = false;
    }
    !first
}

// Whether the character may begin a name, or go on with one.
fn fits(first: bool, ch: char) -> bool
    ensures { result ≡ fits first ch }
{
    if first {
        is_name_start(ch)
    } else {
        is_name_part(ch)
    }
}

// Whether a name may begin with the character.
fn is_name_start(ch: char) -> bool
    ensures { result ≡ is_name_start ch }
{
    is_xid_start(ch) || ch == '$' || ch == '_'
}

// Whether a name may go on with the character.
fn is_name_part(ch: char) -> bool
    ensures { result ≡ is_name_part ch }
{
    is_xid_continue(ch) || matches!(ch, '$' | '\u{200C}' | '\u{200D}')
}

/// The name of an identifier; None where it has none.
pub fn name_at(value: &Value) -> Option<&str>
    ensures { option_map (λ s. units_of s.now) result ≡ name_at (view value.now) }
{
    let text = text_at("name", value)?;
    if is_name(text) { Some(text) } else { None }
}
