//! What is built anew of the same parts.

ghost use Rattle.mini_rows.specs.Arranged.{ExpressionsArranged, StatementsArranged, ListsArranged, ListsArrangedOnce, NeighboursKept, StatementsRewritten, Row40Kept, Row82ElseKept, Row82AndKept, Row82OrKept, KeptIsLawful};

use mini_laws::Rewrites;

/// An expression that is built anew of the parts of another keeps all that a program has to keep,
/// but for its meaning and its shape.
pub fn expressions_arranged()
    ensures any { ExpressionsArranged }
    ensures row_40 { Row40Kept }
{}

/// A statement, or a list of statements, that is built anew of the parts of another keeps all that
/// a program has to keep, but for its meaning and its shape, where the parts that declare names
/// keep their order.
pub fn statements_arranged()
    ensures any { StatementsArranged }
    ensures lists { ListsArranged }
    ensures once { ListsArrangedOnce }
    ensures neighbours { NeighboursKept }
    ensures row_82_else { Row82ElseKept }
    ensures row_82_and { Row82AndKept }
{}

/// A statement for some of whose parts other expressions are written, as the negation of a test,
/// keeps all that a program has to keep, but for its meaning and its shape.
pub fn statements_rewritten()
    ensures any { StatementsRewritten }
    ensures row_82_or { Row82OrKept }
{}

/// A relation is lawful if each of its instances is kept, means the same and keeps its shape.
pub fn kept_is_lawful<R: Rewrites>()
    ensures { KeptIsLawful R.gives }
{}
