// Tokens that a text has (ECMA-262, "Lexical Grammar").

ghost use Rattle.std.specs.Prelude.{◌≡◌, ◌↔◌, IsTrue};
ghost use Rattle.mini_grammar.specs.Views.{token_of};
ghost use Rattle.mini_print.specs.Text.{IsLexical, EachLexical};

use crate::writable::{is_directive, is_raw, is_regular_expression, is_word};
use mini_grammar::{Token, Tokens};

// Whether a text has the token.
#[tactic(auto, using(crate::proofs::Lasts::text_is_lexical))]
fn is_lexical<'a>(token: Token<'a>) -> bool
    ensures { IsTrue result ↔ IsLexical (token_of token.entry) }
{
    match token {
        Token::Word(units) | Token::Private(units) => is_word(units),
        Token::Mark(_) | Token::Number(_) | Token::BigInt(_) | Token::Text(_) => true,
        Token::Quoted(units) => is_directive(units),
        Token::Pattern(pattern, flags) => is_regular_expression(pattern, flags),
        Token::TemplateWhole(raw)
        | Token::TemplateHead(raw)
        | Token::TemplateMiddle(raw)
        | Token::TemplateTail(raw) => is_raw(raw),
    }
}

/// Whether each of the tokens is one that a text has: names and words have units of words alone,
/// and what is written as it is can stand between its marks.
pub fn are_lexical<'a>(tokens: &Tokens<'a>) -> bool
    ensures { IsTrue result ↔ EachLexical tokens.now }
{
    let items = tokens.from_last();
    for token in items {
        if !is_lexical(*token) {
            return false;
        }
    }
    true
}
