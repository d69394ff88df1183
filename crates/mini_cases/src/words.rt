// Words and numbers of a line.

/// A question about a text.
#[derive(Clone, Copy)]
pub enum TextCase {
    /// Whether it is an identifier's name.
    Name,
    /// The text without its last unit, and that unit.
    Shortened,
    /// The safe number that it is the text of.
    Safe,
    /// The raw text of a template that cooks to it.
    Escaped,
    /// The text that it cooks to as the raw text of a template.
    Cooked,
}

/// The value beside a text in a table of words.
pub fn word_in<A: Copy>(table: &[(&str, A)], text: &str) -> Option<A> {
    match table {
        [] => None,
        [row, rest @ ..] => if text == row.0 {
            Some(row.1)
        } else {
            word_in(rest, text)
        },
    }
}

/// A number, and what stands behind the space behind it.
pub fn numbered(text: &str) -> Option<(usize, &str)> {
    let (first, rest) = text.split_once(' ')?;
    match first.parse::<usize>() {
        Ok(number) => Some((number, rest)),
        Err(_) => None,
    }
}

/// A small number, and what stands behind the space behind it.
pub fn small_numbered(text: &str) -> Option<(u32, &str)> {
    let (number, rest) = numbered(text)?;
    match u32::try_from(number) {
        Ok(number) => Some((number, rest)),
        Err(_) => None,
    }
}
