// Slashes: each divides, or begins a regular expression (ECMA-262, "Lexical Grammar").

ghost use Rattle.std.specs.Prelude.{◌≡◌, ◌&&◌, false, not};
ghost use Rattle.mini_grammar.specs.Views.{punctuator, token_of};
ghost use Rattle.mini_print.specs.Text as texts;
ghost use Rattle.mini_print.specs.Token as tokens;
ghost use Rattle.mini_tokens.specs.Styles.{style_of};
ghost use Rattle.mini_tokens.specs.Spelling.{is_plain};
ghost use Rattle.mini_tokens.specs.Spelling.{are_told_in};

use crate::style::Style;
use crate::writable::begins_plainly;
use mini_grammar::{Punct, Token, Tokens};
use mini_model::AssignmentOperator;

/// Whether a token is a slash that divides, or assigns what it makes.
pub fn is_slash<'a>(token: Token<'a>) -> bool
    ensures { result ≡ texts.is_slash (token_of token.entry) }
{
    matches!(
        token,
        Token::Mark(Punct::Slash | Punct::Assigns(AssignmentOperator::Division))
    )
}

fn is_closing(mark: Punct) -> bool
    ensures { result ≡ texts.ends_operand (tokens.Punct (punctuator mark)) }
{
    matches!(
        mark,
        Punct::RightParen
            | Punct::RightBracket
            | Punct::RightBrace
            | Punct::PlusPlus
            | Punct::MinusMinus
    )
}

/// Whether an operand may end with a token, so that a slash behind it may divide.
pub fn ends_operand<'a>(token: Token<'a>) -> bool
    ensures { result ≡ texts.ends_operand (token_of token.entry) }
{
    match token {
        Token::Mark(mark) => is_closing(mark),
        Token::TemplateHead(_) | Token::TemplateMiddle(_) => false,
        _ => true,
    }
}

// Whether a token is told from a division wherever it stands.
fn is_plain<'a>(token: Token<'a>) -> bool
    ensures { result ≡ is_plain (token_of token.entry) }
{
    match token {
        Token::Pattern(pattern, _) => begins_plainly(pattern),
        _ => true,
    }
}

// Whether what follows a token, plain or not, is taken for a division there.
fn is_mistaken<'a>(plain: bool, token: Token<'a>) -> bool
    ensures { result ≡ (not plain && texts.ends_operand (token_of token.entry)) }
{
    !plain && ends_operand(token)
}

// Whether each regular expression is told from a division where one blank stands between any two
// tokens.
#[tactic(auto, using(crate::proofs::Slashed::told_goes_on, crate::proofs::Slashed::told_stops, crate::proofs::Slashed::told_ends))]
fn are_told<'a>(tokens: &Tokens<'a>) -> bool
    ensures { result ≡ texts.are_told false tokens.now }
{
    let items = tokens.from_last();
    let mut plain = true;
    for token in items {
        if is_mistaken(plain, *token) {
            return false;
        }
        plain = is_plain(*token);
    }
    true
}

/// Whether each regular expression is told from a division: in full text, which has a blank between
/// any two tokens, one behind an operand or a word begins neither with a blank nor with a `=` and a
/// blank.
pub fn are_told_in<'a>(style: Style, tokens: &Tokens<'a>) -> bool
    ensures { result ≡ are_told_in (style_of style) tokens.now }
{
    match style {
        Style::Full => are_told(tokens),
        Style::Short => true,
    }
}
