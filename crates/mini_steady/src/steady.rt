//! What tells what is known of bodies.

ghost use Rattle.std.specs.Prelude.{◌≡◌};
ghost use Rattle.mini_laws.specs.Value.{Declared};
ghost use Rattle.mini_kept.specs.Without.{BodySets};
ghost use Rattle.mini_tree.specs.declared.options.CompressOptions.{CompressOptions};

use mini_context::{Scopes, TraverseCtx};
use mini_model::SymbolId;
use mini_tree::{CompressOptions, KeepNames};

/// What tells, by the number of a body, what is known of it: which names are steady there, so that
/// no answer of the world changes them while it runs; which its events don't show; which are
/// initialised as it starts; and whether it has a `this` for which it doesn't ask the world. It
/// tells also what the minifier may do.
pub trait SteadyNames {
    /// What it says is known, by the number of a body.
    ghost sets: { Self → BodySets };

    /// Whether the symbol is steady in the body with this number.
    fn is_steady(&self, symbol: SymbolId, body: u32) -> bool
        ensures { result ≡ (sets self.now body).steady (Declared symbol.0) };

    /// Whether no event of the body with this number shows the symbol.
    fn is_unshared(&self, symbol: SymbolId, body: u32) -> bool
        ensures { result ≡ (sets self.now body).unshared (Declared symbol.0) };

    /// Whether the symbol is initialised as the body with this number starts.
    fn is_initial(&self, symbol: SymbolId, body: u32) -> bool
        ensures { result ≡ (sets self.now body).initial (Declared symbol.0) };

    /// Whether the body with this number doesn't ask the world for `this`.
    fn has_this(&self, body: u32) -> bool
        ensures { result ≡ (sets self.now body).has_this };

    /// What it says that the minifier may do.
    ghost orders: { Self → CompressOptions };

    /// The options that say what the minifier may do.
    fn orders(&self) -> CompressOptions
        ensures { result ≡ orders self.now };
}

impl SteadyNames for Scopes {
    ghost use Rattle.mini_steady.specs.Told.{all_names_stay, told_by};

    ghost sets = { told_by };

    fn is_steady(&self, symbol: SymbolId, body: u32) -> bool {
        self.is_past(symbol) || Scopes::is_steady(self, symbol, body)
    }

    fn is_unshared(&self, symbol: SymbolId, body: u32) -> bool {
        self.is_past(symbol) || Scopes::is_unshared(self, symbol, body)
    }

    fn is_initial(&self, symbol: SymbolId, body: u32) -> bool {
        self.is_past(symbol) || Scopes::is_initial(self, symbol, body)
    }

    fn has_this(&self, body: u32) -> bool {
        Scopes::has_this(self, body)
    }

    ghost orders = { λ c. all_names_stay };

    // Who has no options but the tables lets every name stay.
    fn orders(&self) -> CompressOptions {
        let keep_names = KeepNames {
            function: true,
            class: true,
        };
        CompressOptions {
            keep_names,
            ..CompressOptions::new()
        }
    }
}

impl SteadyNames for TraverseCtx {
    ghost use Rattle.mini_steady.specs.Told.{told_by};

    ghost sets = { λ c. told_by c.scopes };

    fn is_steady(&self, symbol: SymbolId, body: u32) -> bool {
        SteadyNames::is_steady(&self.scopes, symbol, body)
    }

    fn is_unshared(&self, symbol: SymbolId, body: u32) -> bool {
        SteadyNames::is_unshared(&self.scopes, symbol, body)
    }

    fn is_initial(&self, symbol: SymbolId, body: u32) -> bool {
        SteadyNames::is_initial(&self.scopes, symbol, body)
    }

    fn has_this(&self, body: u32) -> bool {
        SteadyNames::has_this(&self.scopes, body)
    }

    ghost orders = { λ c. c.options };

    fn orders(&self) -> CompressOptions {
        self.options
    }
}
