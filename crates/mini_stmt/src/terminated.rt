//! What never ends normally.

ghost use Rattle.std.specs.Prelude.{◌≡◌, Bool, true};

use crate::terms::{has_terminated, is_terminated};
use mini_node::{Node, Nodes};

/// What may never end normally: a statement, a list of statements, and such a part that may be
/// absent.
pub trait IsTerminated {
    /// Whether it is terminated, as a value of the definitions.
    ghost terminated: { Self → Bool };

    /// No run of it ends normally.
    ghost never_ends: { Self → Type 0 };

    /// Whether it is terminated: a jump, a list or a block in which a statement is, an `if` both of
    /// whose branches are, and a `try` whose finalizer is, or whose block and handler are. An
    /// absent part is not.
    fn is_terminated(&self) -> bool
        ensures { result ≡ terminated self.now };

    /// No run of what is terminated ends normally.
    ghost ends: { (it : Self) → terminated it ≡ true → never_ends it };
}

impl IsTerminated for Node {
    ghost use Rattle.mini_rows.specs.Lists.{is_terminated};
    ghost use Rattle.mini_rows.specs.ListLaws.{NeverEnds};
    ghost use Rattle.mini_rows.proofs.ListEnds.{terminated_never_ends};

    ghost terminated = { is_terminated };

    ghost never_ends = { NeverEnds };

    ghost ends = { terminated_never_ends };

    fn is_terminated(&self) -> bool {
        is_terminated(self)
    }
}

impl IsTerminated for Nodes {
    ghost use Rattle.mini_stmt.specs.Terminated.{ends, ListNeverEnds, list_ends};

    ghost terminated = { ends };

    ghost never_ends = { ListNeverEnds };

    ghost ends = { list_ends };

    fn is_terminated(&self) -> bool {
        has_terminated(self)
    }
}

impl<T: IsTerminated> IsTerminated for Option<T> {
    ghost use Rattle.mini_stmt.specs.Terminated.{some_ends, SomeNeverEnds, some_never};

    ghost terminated = { some_ends T.terminated };

    ghost never_ends = { SomeNeverEnds T.never_ends };

    ghost ends = { some_never T.terminated T.never_ends T.ends };

    fn is_terminated(&self) -> bool {
        match self {
            Some(it) => it.is_terminated(),
            None => false,
        }
    }
}
