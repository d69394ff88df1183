ghost use Rattle.std.specs.Prelude.{◌≡◌, IfOk, string_bytes};
ghost use Rattle.mini_model.specs.Texts.{units_of, bytes_of};

use crate::{OutOfMemory, OwnedList, Text};
use std::alloc::Global;

impl OwnedList<u16> {
    /// The units of a text, two for each character past U+FFFF (The Unicode Standard, UTF-16).
    ///
    /// The only error is that memory runs out.
    pub fn from_str(alloc: Global, text: &str) -> Result<Text, OutOfMemory>
        ensures { IfOk result (λ units. units ≡ units_of text.now) }
    {
        let mut units = OwnedList::new(alloc);
        for unit in text.encode_utf16() {
            units.push(unit)?;
        }
        Ok(units)
    }

    /// The text in UTF-8, with U+FFFD for each surrogate that has no partner (The Unicode Standard,
    /// UTF-8).
    ///
    /// The only error is that memory runs out.
    pub fn to_utf8(&self, alloc: Global) -> Result<String, OutOfMemory>
        ensures { IfOk result (λ text. string_bytes text ≡ bytes_of self.now) }
    {
        match String::from_utf16_lossy(alloc, self.as_slice()) {
            Ok(text) => Ok(text),
            Err(_) => Err(OutOfMemory),
        }
    }
}
