// Texts, names, numerals and templates. A text stands in a line as JSON, so that any character may
// be in it.

use crate::answer::Answer;
use crate::words::TextCase;
use mini_model::{
    BoxedText, IdentifierName, OutOfMemory, Text, TextList, concat_template_literal_raw, cook,
    decimal, equivalent_number, escape_string_for_template_literal, is_identifier_name,
};
use serde_json::Value;
use std::alloc::Global;

// The text that JSON says.
fn text_of(alloc: Global, json: &str) -> Option<Text> {
    match Value::from_str(alloc, json) {
        Ok(value) => text_in(alloc, &value),
        Err(_) => None,
    }
}

fn text_in(alloc: Global, value: &Value) -> Option<Text> {
    match value.as_str() {
        Some(text) => Text::from_str(alloc, text).ok(),
        None => None,
    }
}

// A text as JSON.
fn tell(alloc: Global, text: &Text, out: &mut Answer) {
    match text.to_utf8(alloc) {
        Ok(text) => out.show(&Value::from(text)),
        Err(_) => out.fail(),
    }
}

// A text as JSON, where there is memory for it.
fn tell_made(alloc: Global, text: Result<Text, OutOfMemory>, out: &mut Answer) {
    match text {
        Ok(text) => tell(alloc, &text, out),
        Err(_) => out.fail(),
    }
}

/// What is asked of the text that JSON says.
pub fn answer_text(alloc: Global, case: TextCase, json: &str, out: &mut Answer) {
    match text_of(alloc, json) {
        Some(text) => answer_of(alloc, case, text, out),
        None => out.fail(),
    }
}

fn answer_of(alloc: Global, case: TextCase, text: Text, out: &mut Answer) {
    match case {
        TextCase::Name => name(alloc, text, out),
        TextCase::Shortened => shorten(alloc, text, out),
        TextCase::Safe => safe_number(&text, out),
        TextCase::Escaped => {
            tell_made(alloc, escape_string_for_template_literal(alloc, &text), out)
        }
        TextCase::Cooked => cook_text(alloc, &text, out),
    }
}

// The text, whether it is an identifier's name, and whether there is a name with it.
fn name(alloc: Global, text: Text, out: &mut Answer) {
    tell(alloc, &text, out);
    out.word(&is_identifier_name(&text));
    out.text(" ");
    match IdentifierName::new(text) {
        Some(name) => tell(alloc, name.text(), out),
        None => out.text("None"),
    }
}

// The text without its last unit, whether that is an identifier's name, how many units it has, the
// last of them, and the unit that is gone.
fn shorten(alloc: Global, mut text: Text, out: &mut Answer) {
    let last = text.pop().unwrap_or(0);
    let named = is_identifier_name(&text);
    match BoxedText::new(alloc, text) {
        Ok(boxed) => tell_boxed(alloc, boxed, named, out),
        Err(_) => out.fail(),
    }
    out.word(&last);
}

// How a text is behind a pointer, and behind it again.
fn tell_boxed(alloc: Global, boxed: BoxedText, named: bool, out: &mut Answer) {
    tell(alloc, boxed.text(), out);
    let text = boxed.into_text();
    out.word(&named);
    out.word(&text.len());
    out.word(&text.as_slice().last().copied().unwrap_or(0));
}

/// The decimal text of a number.
pub fn number_text(alloc: Global, number: &str, out: &mut Answer) {
    match number.parse::<i64>() {
        Ok(number) => tell_made(alloc, decimal(alloc, number), out),
        Err(_) => out.fail(),
    }
}

// The safe number that a text is.
fn safe_number(text: &Text, out: &mut Answer) {
    match equivalent_number(text) {
        Some(number) => out.show(&number),
        None => out.text("None"),
    }
}

// What a raw text cooks to.
fn cook_text(alloc: Global, text: &Text, out: &mut Answer) {
    match cook(alloc, text) {
        Ok(Some(text)) => tell(alloc, &text, out),
        Ok(None) => out.text("None"),
        Err(_) => out.fail(),
    }
}

/// Raw texts, with bars between them, put together.
pub fn join(alloc: Global, json: &str, out: &mut Answer) {
    match Value::from_str(alloc, json) {
        Ok(value) => join_raw(alloc, value.as_str().unwrap_or(""), out),
        Err(_) => out.fail(),
    }
}

fn join_raw(alloc: Global, raws: &str, out: &mut Answer) {
    let mut parts = TextList::new(alloc);
    for raw in raws.split('|') {
        out.done(push_part(alloc, &mut parts, raw));
    }
    tell_made(alloc, concat_template_literal_raw(alloc, &parts), out)
}

fn push_part(alloc: Global, parts: &mut TextList, raw: &str) -> Result<(), OutOfMemory> {
    match Text::from_str(alloc, raw) {
        Ok(text) => parts.push(text),
        Err(_) => Err(OutOfMemory),
    }
}
