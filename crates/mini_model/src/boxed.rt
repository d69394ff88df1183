ghost use Rattle.std.specs.Prelude.{◌≡◌, IfOk};

use crate::{OutOfMemory, Text};
use std::alloc::Global;
use std::marker::Model;

/// A text behind a pointer, for where a text would make its owner large. A contract sees the text's
/// units.
pub struct BoxedText {
    text: Box<Text>,
}

impl Model for BoxedText {
    ghost use Rattle.std.specs.Prelude.{ℕ, List};

    ghost Value = { List ℕ };

    ghost view = { λ boxed. boxed.text.value };
}

impl BoxedText {
    /// The text behind a pointer.
    ///
    /// The only error is that memory runs out; the text is gone then.
    pub fn new(alloc: Global, text: Text) -> Result<BoxedText, OutOfMemory>
        ensures { IfOk result (λ boxed. boxed ≡ text) }
    {
        match Box::new(alloc, text) {
            Ok(text) => Ok(BoxedText { text }),
            Err(_) => Err(OutOfMemory),
        }
    }

    /// The text.
    pub fn text(&self) -> &Text
        ensures { result.now ≡ self.now }
    {
        &self.text
    }

    /// The text, without the pointer.
    pub fn into_text(self) -> Text
        ensures { result ≡ self }
    {
        let BoxedText { text } = self;
        Box::into_inner(text)
    }
}

impl Drop for BoxedText {
    fn drop(self) {
        let BoxedText { text } = self;
        drop(text);
    }
}
