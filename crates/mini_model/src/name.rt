ghost use Rattle.std.specs.Prelude.{◌≡◌};

use crate::Text;

/// The number of a symbol: one declared name of the program, whatever its spelling.
#[derive(Clone, Copy, PartialEq, Eq)]
pub struct SymbolId(pub u32);

/// A name where it stands in a node: its spelling, and its symbol where a scope declares it. A name
/// without a symbol is unresolved.
pub struct Name {
    /// The name's text.
    pub spelling: Text,
    /// The number of the declaration that the name refers to; None where it is unresolved.
    pub symbol: Option<SymbolId>,
}

impl Name {
    /// The name's spelling, without its symbol.
    pub fn into_spelling(self) -> Text
        ensures { result ≡ self.spelling }
    {
        let Name {
            spelling,
            symbol: _,
        } = self;
        spelling
    }
}

impl Drop for Name {
    fn drop(self) {
        let Name {
            spelling,
            symbol: _,
        } = self;
        drop(spelling);
    }
}
