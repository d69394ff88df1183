//! The rows of a `var` that stands further inside the body that it belongs to.

ghost use Rattle.mini_rows.specs.Inside.{InsideIsLawful, InsideLightens, InsideLighter};

/// What stands on the way to a `var` further inside the body that it belongs to.
#[derive(Clone, Copy)]
pub enum Way {
    /// A statement of a list, or the block of a `try`, of its handler or of its finalizer.
    Statement,
    /// A statement that stands in no list: a branch, the body of a loop, or under a label.
    Held,
    /// A list of statements.
    Statements,
    /// The list of the cases of a `switch`.
    Cases,
    /// A case of a `switch`.
    Case,
    /// The handler of a `try`.
    Catch,
    /// The declaration that a `for` begins with.
    Head,
}

/// What the row of a `var` further inside writes keeps all that a program has to keep, but a name
/// that nothing mentions: it means the same where nobody else sees that variable, and those can be
/// written for which it acts.
pub fn inside_is_lawful()
    ensures { InsideIsLawful }
{}

/// What the row of a `var` further inside writes is lighter wherever the body stands, and makes the
/// whole lighter.
pub fn inside_lightens()
    ensures lighter { InsideLighter }
    ensures anywhere { InsideLightens }
{}
