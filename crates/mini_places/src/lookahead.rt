// What tokens begin with, and what is told by that.

ghost use Rattle.std.specs.Prelude.{◌≡◌, ◌&&◌, OnOk, option_map};
ghost use Rattle.mini_print.specs.Grammar as grammar;
ghost use Rattle.mini_print.specs.Grammar.{opens, ends_yield, ends_yield_at, permits, is_key_token, is_left_brace, is_word_of, begins_statement};
ghost use Rattle.mini_node.specs.Children.{trees_of};
ghost use Rattle.mini_print.specs.Printed as printed;
ghost use Rattle.mini_print.specs.Printed.{printers, third_is_absent, undirected};
ghost use Rattle.mini_grammar.specs.Firsts.{is_that_word, is_it_colon, is_label, is_it_of};
ghost use Rattle.mini_places.specs.Nexts.{calls_next, is_import, begins_default, ends_next, is_directive, is_forbidden};
ghost use Rattle.mini_grammar.specs.Pieces.{look_of};
ghost use Rattle.mini_grammar.specs.Views.{token_of, word_text, word_texts};

use mini_grammar::{Keyword, Lookahead, Punct, Token, Tokens, is_absent, units_of};
use mini_model::OutOfMemory;
use mini_node::Node;
use mini_tokens::is_reserved;

fn is_word<'a>(token: Token<'a>, word: Keyword) -> bool
    ensures { result ≡ is_that_word (word_text word) (token_of token.entry) }
{
    match token {
        Token::Word(text) => text == units_of(word),
        _ => false,
    }
}

// Whether an `else` comes next.
#[tactic(auto, using(crate::proofs::Asked::else_first))]
fn opens_else(tokens: &Tokens) -> bool
    ensures { result ≡ opens grammar.Else tokens.now }
{
    match tokens.first() {
        Some(token) => is_word(token, Keyword::Else),
        None => false,
    }
}

// Whether an `if` has no `else`.
fn has_no_else(parts: &[Node]) -> bool
    ensures { result ≡ third_is_absent (printers printed.Full (trees_of parts.now)) }
{
    let Some((_, more)) = parts.split_first() else {
        return false;
    };
    let Some((_, more)) = more.split_first() else {
        return false;
    };
    let Some((third, more)) = more.split_first() else {
        return false;
    };
    match more.split_first() {
        Some(_) => false,
        None => is_absent(third),
    }
}

/// Whether an `if` would take an `else` that follows: it has none.
pub fn wants_braces<'a>(tokens: &Tokens<'a>, parts: &[Node]) -> bool
    ensures { result ≡ (third_is_absent (printers printed.Full (trees_of parts.now)) && opens grammar.Else tokens.now) }
{
    has_no_else(parts) && opens_else(tokens)
}

fn ends_yield_at<'a>(token: Token<'a>) -> bool
    ensures { result ≡ ends_yield_at (token_of token.entry) }
{
    match token {
        Token::Mark(Punct::RightParen)
        | Token::Mark(Punct::RightBracket)
        | Token::Mark(Punct::RightBrace)
        | Token::Mark(Punct::Comma)
        | Token::Mark(Punct::Semicolon)
        | Token::Mark(Punct::Colon)
        | Token::TemplateMiddle(_)
        | Token::TemplateTail(_) => true,
        Token::Word(text) => text == units_of(Keyword::In),
        _ => false,
    }
}

/// Whether what comes next is no expression.
#[tactic(auto, using(crate::proofs::Asked::yield_first))]
pub fn ends_yield(tokens: &Tokens) -> bool
    ensures { result ≡ ends_yield tokens.now }
{
    match tokens.first() {
        Some(token) => ends_yield_at(token),
        None => true,
    }
}

// Whether a text is one of these words.
fn is_one_of(words: &[Keyword], text: &[u16]) -> bool
    ensures { result ≡ is_word_of (word_texts words.now) text.now }
{
    let Some((word, others)) = words.split_first() else {
        return false;
    };
    text == units_of(*word) || is_one_of(others, text)
}

const STATEMENT_WORDS: [Keyword; 17] = [
    Keyword::Break,
    Keyword::Class,
    Keyword::Const,
    Keyword::Continue,
    Keyword::Debugger,
    Keyword::Do,
    Keyword::Export,
    Keyword::For,
    Keyword::Function,
    Keyword::If,
    Keyword::Let,
    Keyword::Return,
    Keyword::Switch,
    Keyword::Throw,
    Keyword::Try,
    Keyword::Var,
    Keyword::While,
];

fn begins_statement<'a>(token: Token<'a>) -> bool
    ensures { result ≡ begins_statement (token_of token.entry) }
{
    match token {
        Token::Mark(Punct::LeftBrace) | Token::Mark(Punct::Semicolon) => true,
        Token::Word(text) => is_one_of(&STATEMENT_WORDS, text),
        _ => false,
    }
}

fn is_colon<'a>(token: Option<Token<'a>>) -> bool
    ensures { result ≡ is_it_colon (option_map token_of token.entry) }
{
    matches!(token, Some(Token::Mark(Punct::Colon)))
}

fn begins_label<'a>(first: Token<'a>, second: Option<Token<'a>>) -> bool
    ensures { result ≡ is_label (token_of first.entry) (option_map token_of second.entry) }
{
    match first {
        Token::Word(text) => !is_reserved(text) && is_colon(second),
        _ => false,
    }
}

fn calls_next<'a>(token: Option<Token<'a>>) -> bool
    ensures { result ≡ calls_next (option_map token_of token.entry) }
{
    matches!(
        token,
        Some(Token::Mark(Punct::LeftParen)) | Some(Token::Mark(Punct::Dot))
    )
}

fn begins_import<'a>(first: Token<'a>, second: Option<Token<'a>>) -> bool
    ensures { result ≡ is_import (token_of first.entry) (option_map token_of second.entry) }
{
    is_word(first, Keyword::Import) && !calls_next(second)
}

const DEFAULT_WORDS: [Keyword; 2] = [Keyword::Function, Keyword::Class];

fn begins_default<'a>(token: Token<'a>) -> bool
    ensures { result ≡ begins_default (token_of token.entry) }
{
    match token {
        Token::Word(text) => is_one_of(&DEFAULT_WORDS, text),
        _ => false,
    }
}

fn is_key<'a>(token: Token<'a>) -> bool
    ensures { result ≡ is_key_token (token_of token.entry) }
{
    matches!(
        token,
        Token::Word(_) | Token::Text(_) | Token::Quoted(_) | Token::Number(_)
    )
}

fn is_brace<'a>(token: Token<'a>) -> bool
    ensures { result ≡ is_left_brace (token_of token.entry) }
{
    matches!(token, Token::Mark(Punct::LeftBrace))
}

fn is_of_word<'a>(token: Option<Token<'a>>) -> bool
    ensures { result ≡ is_it_of (option_map token_of token.entry) }
{
    match token {
        Some(token) => is_word(token, Keyword::Of),
        None => false,
    }
}

/// Whether tokens are as a restriction says.
#[tactic(auto, using(crate::proofs::Asked::asked_is))]
pub fn is_permitted(restriction: Lookahead, tokens: &Tokens) -> bool
    ensures { result ≡ permits (look_of restriction) tokens.now }
{
    let Some(first) = tokens.first() else {
        return !matches!(restriction, Lookahead::Key);
    };
    match restriction {
        Lookahead::NoStatement => {
            let second = tokens.second();
            !begins_statement(first)
                && !begins_import(first, second)
                && !begins_label(first, second)
        }
        Lookahead::NoBrace => !is_brace(first),
        Lookahead::Key => is_key(first),
        Lookahead::NotAsync => { !(is_word(first, Keyword::Async) && is_of_word(tokens.second())) }
        Lookahead::NoDeclaration => !begins_default(first),
    }
}

/// Whether a restriction forbids each text that begins with the token.
pub fn is_forbidden<'a>(restriction: Lookahead, token: Token<'a>) -> bool
    ensures { result ≡ is_forbidden restriction (token_of token.entry) }
{
    match restriction {
        Lookahead::NoStatement => begins_statement(token),
        Lookahead::NoBrace => is_brace(token),
        Lookahead::Key => !is_key(token),
        Lookahead::NotAsync => false,
        Lookahead::NoDeclaration => begins_default(token),
    }
}

fn ends_next<'a>(token: Option<Token<'a>>) -> bool
    ensures { result ≡ ends_next (option_map token_of token.entry) }
{
    matches!(
        token,
        None | Some(Token::Mark(Punct::Semicolon)) | Some(Token::Mark(Punct::RightBrace))
    )
}

fn is_directive<'a>(first: Token<'a>, second: Option<Token<'a>>) -> bool
    ensures { result ≡ is_directive (token_of first.entry) (option_map token_of second.entry) }
{
    match first {
        Token::Quoted(_) | Token::Text(_) => ends_next(second),
        _ => false,
    }
}

/// Puts a bare text that would be a directive in parentheses.
#[tactic(auto, using(crate::proofs::Asked::as_before, crate::proofs::Asked::as_enclosed))]
pub fn undirect<'a>(tokens: &mut Tokens<'a>) -> Result<(), OutOfMemory>
    ensures { OnOk result (tokens.new ≡ undirected tokens.old) }
{
    let Some(first) = tokens.first() else {
        return Ok(());
    };
    if !is_directive(first, tokens.second()) {
        return Ok(());
    }
    let _ = tokens.pop();
    tokens.push(Token::Mark(Punct::RightParen))?;
    tokens.push(first)?;
    tokens.push(Token::Mark(Punct::LeftParen))
}
