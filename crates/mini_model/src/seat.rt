/// Which neighbours of a logical expression want parentheses round it (ECMA-262, "Binary Logical
/// Operators": `??` and `&&` or `||` stand in one another in parentheses alone).
#[derive(Clone, Copy)]
pub enum Mix {
    /// None.
    None,
    /// An operand of `??`.
    InCoalesce,
    /// An operand of `&&` or `||`.
    InAndOr,
}

/// What a seat reads beside the value: the reference of a callee, of `delete` or of `typeof`.
#[derive(Clone, Copy)]
pub enum Guard {
    /// The value alone.
    None,
    /// The callee of a call, or the tag of a template: `this`, and whether the call is a direct
    /// eval.
    Callee,
    /// The operand of `delete`.
    Delete,
    /// The operand of `typeof`, which may be an absent name.
    Typeof,
}

/// How an expression stands in its parent.
#[derive(Clone, Copy)]
pub struct Seat {
    /// The least level that needs no parentheses here, from 0 (a sequence) to 16 (a primary
    /// expression).
    pub level: u8,
    /// The object of a member access, a callee or a tag.
    pub access: bool,
    /// The callee of `new`.
    pub new_callee: bool,
    /// Only the truth of the value is asked for.
    pub boolean: bool,
    /// Nothing is asked of the value.
    pub unused: bool,
    /// A sequence that stands here can be lifted out.
    pub lifted: bool,
    /// The left operand of an equality.
    pub eq_left: bool,
    /// The test of a conditional expression.
    pub cond_test: bool,
    /// The operand of a unary minus.
    pub minus: bool,
    /// The operand of a logical operator that doesn't mix with all others.
    pub mix: Mix,
    /// What is asked beside the value.
    pub guard: Guard,
}

/// How a statement stands in its parent.
#[derive(Clone, Copy)]
pub enum StmtSeat {
    /// An item of a list of statements.
    List,
    /// The body of a loop or a label, or an `else` branch.
    Body,
    /// The consequent of an `if`.
    Consequent,
}
