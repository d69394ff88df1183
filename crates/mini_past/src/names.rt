//! What tells which names can be written and which initializers may move, beside what is known of
//! bodies.

ghost use Rattle.std.specs.Prelude.{◌≡◌};
ghost use Rattle.mini_model.specs.Tree.{Tree};
ghost use Rattle.mini_tree.specs.declared.options.CompressOptions.{CompressOptions};
ghost use Rattle.mini_laws.specs.Value.{Declared};
ghost use Rattle.mini_rows.specs.Switches.{Liberties};
ghost use Rattle.mini_rows.specs.Unused.{may_move as may_it_move};

use mini_context::{Scopes, TraverseCtx};
use mini_model::SymbolId;
use mini_node::Node;
use mini_steady::{SteadyContext, SteadyNames};
use mini_unused::may_move;

/// What tells what is known of bodies, which of the names that a program mentions can be written in
/// it, and what the minifier may do.
pub trait PastNames: SteadyNames {
    /// The variables that it says can be written, and what the minifier may do.
    ghost lets: { Self → Liberties };

    /// Whether the symbol is among them.
    fn is_writable(&self, symbol: SymbolId) -> bool
        ensures { result ≡ (lets self.now).writable (Declared symbol.0) };

    /// Whether an initializer may move.
    fn lets_move(&self, init: &Node) -> bool
        ensures { result ≡ may_it_move (lets self.now).switches init.now };
}

impl PastNames for Scopes {
    ghost use Rattle.mini_rows.specs.Switches.{liberties};
    ghost use Rattle.mini_steady.specs.Told.{all_names_stay};
    ghost use Rattle.mini_unused.specs.Allowed.{marked, switches_of};

    ghost lets = { λ c. liberties (switches_of all_names_stay) (marked c) };

    fn is_writable(&self, symbol: SymbolId) -> bool {
        self.is_mentioned_writable(symbol)
    }

    fn lets_move(&self, init: &Node) -> bool {
        may_move(init, SteadyNames::orders(self))
    }
}

impl PastNames for TraverseCtx {
    ghost use Rattle.mini_unused.specs.Allowed.{allowed};

    ghost lets = { allowed };

    fn is_writable(&self, symbol: SymbolId) -> bool {
        self.scopes.is_mentioned_writable(symbol)
    }

    fn lets_move(&self, init: &Node) -> bool {
        may_move(init, self.options)
    }
}

/// A context that tells which names can be written, and what the minifier may do, of the program
/// that it knows.
pub trait PastContext: SteadyContext + PastNames {
    /// The variables that can be written in a program, and what the minifier may do under these
    /// options.
    ghost lets_in: { CompressOptions → Tree → Liberties };

    /// What the context tells of what can be written and done is that of the program that it knows,
    /// under its options.
    ghost says: { (c : Self) (o : CompressOptions) (q : Tree) → Self.knows c o q → Self.lets c ≡ lets_in o q };
}

impl PastContext for TraverseCtx {
    ghost use Rattle.mini_unused.specs.Allowed.{allowed_in};
    ghost use Rattle.mini_inside.proofs.Holders.{told};

    ghost lets_in = { allowed_in };

    ghost says = { told };
}
