// The text of tokens, with a blank only where two of them would run together.

ghost use Rattle.std.specs.Prelude.{◌≡◌, ◌++◌, ◌∷◌, not, IfOk, OnOk, slice_get, if◌then◌else◌};
ghost use Rattle.mini_grammar.specs.Views.{punctuator, token_of};
ghost use Rattle.mini_print.specs.Compact as compact;
ghost use Rattle.mini_print.specs.Text as texts;
ghost use Rattle.mini_print.specs.Token as tokens;
ghost use Rattle.mini_tokens.specs.Spelling.{behind};

use crate::marks::mark_units;
use crate::quotes::{DOUBLE_QUOTE, quote_of};
use crate::slashes::{ends_operand, is_slash};
use crate::text::{BACKTICK, BLANK, HASH, RIGHT_BRACE, SLASH, push_token};
use crate::writable::{is_digit, is_word_unit};
use itoa::Buffer;
use mini_grammar::{Punct, Token, Tokens};
use mini_model::{AssignmentOperator, OutOfMemory, Text};
use std::alloc::Global;

const BANG: u16 = b'!' as u16;

const AMPERSAND: u16 = b'&' as u16;

const TIMES: u16 = b'*' as u16;

const PLUS: u16 = b'+' as u16;

const MINUS: u16 = b'-' as u16;

const DOT: u16 = b'.' as u16;

const LESS: u16 = b'<' as u16;

const EQUAL: u16 = b'=' as u16;

const GREATER: u16 = b'>' as u16;

const QUESTION: u16 = b'?' as u16;

const BAR: u16 = b'|' as u16;

// ---- what a token begins with

fn first_digit(number: u64) -> Option<u16>
    ensures { result ≡ slice_get (texts.spelled (tokens.Number number)) 0 }
{
    let mut buffer = Buffer::new();
    let digit = buffer.format(number).as_bytes().first()?;
    Some(*digit as u16)
}

fn first_big_digit(number: u128) -> Option<u16>
    ensures { result ≡ slice_get (texts.spelled (tokens.BigInt number)) 0 }
{
    let mut buffer = Buffer::new();
    let digit = buffer.format(number).as_bytes().first()?;
    Some(*digit as u16)
}

// The first unit of a token's text.
fn first_unit<'a>(token: Token<'a>) -> Option<u16>
    ensures { result ≡ slice_get (texts.spelled (token_of token.entry)) 0 }
{
    match token {
        Token::Word(units) => units.first().copied(),
        Token::Mark(mark) => mark_units(mark).first().copied(),
        Token::Number(number) => first_digit(number),
        Token::BigInt(number) => first_big_digit(number),
        Token::Text(_) => Some(DOUBLE_QUOTE),
        Token::Quoted(units) => Some(quote_of(units)),
        Token::Pattern(_, _) => Some(SLASH),
        Token::Private(_) => Some(HASH),
        Token::TemplateWhole(_) | Token::TemplateHead(_) => Some(BACKTICK),
        Token::TemplateMiddle(_) | Token::TemplateTail(_) => Some(RIGHT_BRACE),
    }
}

// ---- where a token goes on

// Whether a longer punctuator, a comment or a number goes on with the unit.
fn goes_on_with(mark: Punct, unit: u16) -> bool
    ensures { result ≡ compact.goes_on_with (punctuator mark) unit }
{
    match mark {
        Punct::Dot => unit == DOT || is_digit(unit),
        Punct::Question => unit == DOT || unit == QUESTION,
        Punct::OptionalDot => is_digit(unit),
        Punct::Plus => unit == PLUS || unit == EQUAL,
        Punct::Minus => unit == MINUS || unit == EQUAL,
        Punct::Times => unit == TIMES || unit == EQUAL,
        Punct::Slash => unit == SLASH || (unit == TIMES || unit == EQUAL),
        Punct::MinusMinus => unit == GREATER,
        Punct::Ampersand => unit == AMPERSAND || unit == EQUAL,
        Punct::Bar => unit == BAR || unit == EQUAL,
        Punct::Less => unit == LESS || (unit == EQUAL || unit == BANG),
        Punct::Greater | Punct::ShiftR => unit == GREATER || unit == EQUAL,
        Punct::Assigns(AssignmentOperator::Assign) => unit == EQUAL || unit == GREATER,
        Punct::Percent
        | Punct::Power
        | Punct::Bang
        | Punct::Caret
        | Punct::AndAnd
        | Punct::BarBar
        | Punct::QuestionQuestion
        | Punct::ShiftL
        | Punct::ShiftRR
        | Punct::EqualEqual
        | Punct::BangEqual => unit == EQUAL,
        _ => false,
    }
}

fn goes_on_by<'a>(token: Token<'a>, unit: u16) -> bool
    ensures { result ≡ compact.goes_on_by (token_of token.entry) unit }
{
    match token {
        Token::Word(_) | Token::BigInt(_) | Token::Pattern(_, _) | Token::Private(_) => {
            is_word_unit(unit)
        }
        Token::Number(_) => is_word_unit(unit) || unit == DOT,
        Token::Mark(mark) => goes_on_with(mark, unit),
        _ => false,
    }
}

// Whether a token goes on with the text of the next.
fn goes_on<'a>(token: Token<'a>, next: Token<'a>) -> bool
    ensures { result ≡ compact.goes_on (token_of token.entry) (texts.spelled (token_of next.entry)) }
{
    match first_unit(next) {
        Some(unit) => goes_on_by(token, unit),
        None => false,
    }
}

// ---- the text

fn is_regular<'a>(token: Token<'a>) -> bool
    ensures { result ≡ compact.is_regular (token_of token.entry) }
{
    matches!(token, Token::Pattern(_, _))
}

// Whether the next token may stand right behind a token, as far as slashes go: behind an operand a
// slash begins no regular expression, and behind another token it is no punctuator.
fn may_enter<'a>(token: Token<'a>, next: Token<'a>) -> bool
    ensures { result ≡ compact.may_enter (texts.ends_operand (token_of token.entry)) (token_of next.entry) }
{
    if ends_operand(token) {
        !is_regular(next)
    } else {
        !is_slash(next)
    }
}

// Whether a blank stands between two tokens.
fn is_apart<'a>(token: Token<'a>, next: Token<'a>) -> bool
    ensures { result ≡ compact.apart (token_of token.entry) (token_of next.entry) }
{
    goes_on(token, next) || !may_enter(token, next)
}

// Puts the token behind this one last, behind a blank where one has to be.
fn push_next<'a>(text: &mut Text, token: Token<'a>, next: Token<'a>) -> Result<(), OutOfMemory>
    ensures { OnOk result (text.new ≡ text.old ++ behind (token_of token.entry) (token_of next.entry)) }
{
    if is_apart(token, next) {
        text.push(BLANK)?;
    }
    push_token(text, next)
}

/// The text of tokens, with a blank only where two of them would run together: each token is the
/// longest that its text begins with (ECMA-262, "Lexical Grammar").
///
/// The only error is that memory runs out.
#[tactic(auto, using(crate::proofs::Tight::first_text, crate::proofs::Tight::next_text, crate::proofs::Blanks::all_said))]
pub fn compact_text_of<'a>(alloc: Global, tokens: Tokens<'a>) -> Result<Text, OutOfMemory>
    ensures { IfOk result (λ text. text ≡ compact.compact_text_of tokens.entry) }
{
    let mut left = tokens;
    let mut text = Text::new(alloc);
    let Some(first) = left.pop() else {
        return Ok(text);
    };
    push_token(&mut text, first)?;
    let mut token = first;
    while let Some(next) = left.pop() {
        push_next(&mut text, token, next)?;
        token = next;
    }
    Ok(text)
}
