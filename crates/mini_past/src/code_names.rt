//! What is known at a place in the code of a body, as if it were known of the body.

ghost use Rattle.std.specs.Prelude.{◌≡◌};
ghost use Rattle.mini_rows.specs.Switches.{without_vars};
ghost use Rattle.mini_unused.specs.Allowed.{switches_of};
ghost use Rattle.mini_steady.specs.Declarations.{known_of};

use crate::names::PastNames;
use mini_model::SymbolId;
use mini_node::Node;
use mini_steady::{BodyCode, SteadyNames, is_initialised};
use mini_tree::CompressOptions;
use mini_unused::may_move;

/// What is known at the place of a scope in the code of a body, whatever the number of the body is
/// that is asked for. No `var` goes from such a scope.
#[derive(Drop)]
pub struct CodeNames<'a, S: SteadyNames> {
    /// What is known of all bodies.
    pub names: &'a S,
    /// The body, and the symbols that are declared in its code and before the place.
    pub code: &'a BodyCode,
}

impl<'a, S: SteadyNames> SteadyNames for CodeNames<'a, S> {
    ghost sets = { λ c b. known_of (S.sets c.names.now) c.code.now };

    fn is_steady(&self, symbol: SymbolId, body: u32) -> bool {
        self.names.is_steady(symbol, self.code.number)
    }

    fn is_unshared(&self, symbol: SymbolId, body: u32) -> bool {
        self.names.is_unshared(symbol, self.code.number)
    }

    fn is_initial(&self, symbol: SymbolId, body: u32) -> bool {
        is_initialised(symbol, self.code, self.names)
    }

    fn has_this(&self, body: u32) -> bool {
        self.names.has_this(self.code.number)
    }

    ghost orders = { λ c. S.orders c.names.now };

    fn orders(&self) -> CompressOptions {
        self.names.orders()
    }
}

impl<'a, S: SteadyNames> PastNames for CodeNames<'a, S> {
    ghost lets = { λ c. without_vars (switches_of (S.orders c.names.now)) };

    fn is_writable(&self, symbol: SymbolId) -> bool {
        false
    }

    fn lets_move(&self, init: &Node) -> bool {
        may_move(init, self.names.orders())
    }
}
