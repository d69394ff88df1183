// What a text has that it could do without: semicolons that are inserted where they lack, and
// parentheses round the one name of an arrow function and behind a `new` without arguments.

ghost use Rattle.std.specs.Prelude.{◌≡◌, OnOk};
ghost use Rattle.mini_print.specs.Grammar.{inserts};
ghost use Rattle.mini_print.specs.Printed.{terminated};
ghost use Rattle.mini_tokens.specs.Styles.{style_of};

use mini_grammar::{Punct, Token, Tokens};
use mini_model::OutOfMemory;

/// Whether a text has the `;` and the parentheses that it could do without.
#[derive(Clone, Copy)]
pub enum Style {
    /// Each `;`, and parentheses round the parameters of each arrow function and the arguments of
    /// each `new`.
    Full,
    /// No `;` that is inserted where it lacks, before a `}` and at the end of the text (ECMA-262,
    /// 12.10), and no parentheses round the one name of an arrow function (15.3) and behind a
    /// `new` without arguments (13.3.5).
    Short,
}

// Whether a `;` is inserted here.
#[tactic(auto, using(crate::proofs::Inserted::inserted_first))]
fn inserts(tokens: &Tokens) -> bool
    ensures { result ≡ inserts tokens.now }
{
    match tokens.first() {
        Some(token) => matches!(token, Token::Mark(Punct::RightBrace)),
        None => true,
    }
}

/// Puts the `;` that ends a statement or a field, where the style has it.
pub fn terminate<'a>(tokens: &mut Tokens<'a>, style: Style) -> Result<(), OutOfMemory>
    ensures { OnOk result (tokens.new ≡ terminated (style_of style) tokens.old) }
{
    match style {
        Style::Full => tokens.push(Token::Mark(Punct::Semicolon)),
        Style::Short => {
            if inserts(tokens) {
                Ok(())
            } else {
                tokens.push(Token::Mark(Punct::Semicolon))
            }
        }
    }
}
