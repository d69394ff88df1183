// The text of tokens, with a blank between any two.

ghost use Rattle.std.specs.Prelude.{◌≡◌, ◌++◌, [], ◌∷◌, IfOk, OnOk};
ghost use Rattle.mini_grammar.specs.Views.{token_of};
ghost use Rattle.mini_print.specs.Text.{spelled, text_of};
ghost use Rattle.mini_print.specs.Token.{Number, BigInt, Pattern, Private};
ghost use Rattle.mini_tokens.specs.Spelling.{piece_text};

use crate::marks::mark_units;
use crate::quotes::{push_literal, push_quoted};
use itoa::Buffer;
use mini_grammar::{Token, Tokens};
use mini_model::{OutOfMemory, Text};
use std::alloc::Global;

pub const BLANK: u16 = b' ' as u16;

pub const SLASH: u16 = b'/' as u16;

pub const HASH: u16 = b'#' as u16;

pub const BACKTICK: u16 = b'`' as u16;

pub const RIGHT_BRACE: u16 = b'}' as u16;

const OPENING: [u16; 2] = [36, 123];

/// Puts units last.
pub fn push_units(text: &mut Text, units: &[u16]) -> Result<(), OutOfMemory>
    ensures { OnOk result (text.new ≡ text.old ++ units.now) }
{
    for unit in units {
        text.push(*unit)?;
    }
    Ok(())
}

fn push_ascii(text: &mut Text, bytes: &[u8]) -> Result<(), OutOfMemory>
    ensures { OnOk result (text.new ≡ text.old ++ bytes.now) }
{
    for byte in bytes {
        text.push(*byte as u16)?;
    }
    Ok(())
}

fn push_number(text: &mut Text, number: u64) -> Result<(), OutOfMemory>
    ensures { OnOk result (text.new ≡ text.old ++ spelled (Number number)) }
{
    let mut buffer = Buffer::new();
    push_ascii(text, buffer.format(number).as_bytes())
}

fn push_big(text: &mut Text, number: u128) -> Result<(), OutOfMemory>
    ensures { OnOk result (text.new ≡ text.old ++ spelled (BigInt number)) }
{
    let mut buffer = Buffer::new();
    push_ascii(text, buffer.format(number).as_bytes())?;
    text.push(b'n' as u16)
}

fn push_pattern(text: &mut Text, pattern: &[u16], flags: &[u16]) -> Result<(), OutOfMemory>
    ensures { OnOk result (text.new ≡ text.old ++ spelled (Pattern pattern.now flags.now)) }
{
    text.push(SLASH)?;
    push_units(text, pattern)?;
    text.push(SLASH)?;
    push_units(text, flags)
}

fn push_private(text: &mut Text, name: &[u16]) -> Result<(), OutOfMemory>
    ensures { OnOk result (text.new ≡ text.old ++ spelled (Private name.now)) }
{
    text.push(HASH)?;
    push_units(text, name)
}

// A piece of a template, from its first unit up to an expression or to its end.
fn push_piece(text: &mut Text, first: u16, raw: &[u16], last: bool) -> Result<(), OutOfMemory>
    ensures { OnOk result (text.new ≡ text.old ++ piece_text first raw.now last) }
{
    text.push(first)?;
    push_units(text, raw)?;
    if last {
        text.push(BACKTICK)
    } else {
        push_units(text, &OPENING)
    }
}

/// Puts the text of a token last.
pub fn push_token<'a>(text: &mut Text, token: Token<'a>) -> Result<(), OutOfMemory>
    ensures { OnOk result (text.new ≡ text.old ++ spelled (token_of token.entry)) }
{
    match token {
        Token::Word(units) => push_units(text, units),
        Token::Mark(mark) => push_units(text, mark_units(mark)),
        Token::Number(number) => push_number(text, number),
        Token::BigInt(number) => push_big(text, number),
        Token::Text(units) => push_literal(text, units),
        Token::Quoted(units) => push_quoted(text, units),
        Token::Pattern(pattern, flags) => push_pattern(text, pattern, flags),
        Token::Private(name) => push_private(text, name),
        Token::TemplateWhole(raw) => push_piece(text, BACKTICK, raw, true),
        Token::TemplateHead(raw) => push_piece(text, BACKTICK, raw, false),
        Token::TemplateMiddle(raw) => push_piece(text, RIGHT_BRACE, raw, false),
        Token::TemplateTail(raw) => push_piece(text, RIGHT_BRACE, raw, true),
    }
}

/// The text of tokens, with a blank between any two (ECMA-262, "Lexical Grammar").
///
/// The only error is that memory runs out.
#[tactic(auto, using(crate::proofs::Blanks::first_text, crate::proofs::Blanks::blank_step, crate::proofs::Blanks::all_said))]
pub fn text_of<'a>(alloc: Global, tokens: Tokens<'a>) -> Result<Text, OutOfMemory>
    ensures { IfOk result (λ text. text ≡ text_of tokens.entry) }
{
    let mut left = tokens;
    let mut text = Text::new(alloc);
    let Some(first) = left.pop() else {
        return Ok(text);
    };
    push_token(&mut text, first)?;
    while let Some(token) = left.pop() {
        text.push(BLANK)?;
        push_token(&mut text, token)?;
    }
    Ok(text)
}
