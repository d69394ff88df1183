use crate::seat::{Seat, StmtSeat};

/// Where a node stands, which its parent's shape and place, how many children there are and its
/// index tell (`specs/Position.antt`).
#[derive(Clone, Copy)]
pub enum Position {
    /// An expression in its seat. The head of a `for` may hold a declaration there, and the place
    /// of an arrow's body its statements.
    Expr(Seat),
    /// A statement in its seat.
    Stmt(StmtSeat),
    /// What is assigned to. The head of a loop may hold a declaration there.
    Target,
    /// The function that a method or an accessor is.
    Method,
    /// The key of a shorthand property, which its value spells, and the name that a class
    /// declaration holds once more.
    Unwritten,
    /// A list of statements.
    StatementList,
    /// The statements of a function's body, after which it returns.
    BodyList,
    /// A list of expressions with commas between them.
    ArgumentList,
    /// The parts of a sequence in its seat.
    SequenceList(Seat),
    /// The expressions of a template.
    TemplateList,
    /// Other parts with commas between them.
    CommaList,
    /// A place of no such kind, or a list without commas.
    Elsewhere,
}
