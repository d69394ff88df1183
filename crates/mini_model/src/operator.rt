/// The operator of a unary expression (ECMA-262, "Unary Operators").
#[derive(Clone, Copy, PartialEq, Eq)]
pub enum UnaryOperator {
    /// `+`
    UnaryPlus,
    /// `-`
    UnaryNegation,
    /// `!`
    LogicalNot,
    /// `~`
    BitwiseNot,
    /// `typeof`
    Typeof,
    /// `void`
    Void,
    /// `delete`
    Delete,
}

/// The operator of an update (ECMA-262, "Update Expressions").
#[derive(Clone, Copy, PartialEq, Eq)]
pub enum UpdateOperator {
    /// `++`
    Increment,
    /// `--`
    Decrement,
}

/// The operator of a binary expression, from "Exponentiation Operator" to "Binary Bitwise
/// Operators" in ECMA-262.
#[derive(Clone, Copy, PartialEq, Eq)]
pub enum BinaryOperator {
    /// `==`
    Equality,
    /// `!=`
    Inequality,
    /// `===`
    StrictEquality,
    /// `!==`
    StrictInequality,
    /// `<`
    LessThan,
    /// `<=`
    LessEqualThan,
    /// `>`
    GreaterThan,
    /// `>=`
    GreaterEqualThan,
    /// `<<`
    ShiftLeft,
    /// `>>`
    ShiftRight,
    /// `>>>`
    ShiftRightZeroFill,
    /// `+`
    Addition,
    /// `-`
    Subtraction,
    /// `*`
    Multiplication,
    /// `/`
    Division,
    /// `%`
    Remainder,
    /// `**`
    Exponential,
    /// `&`
    BitwiseAnd,
    /// `^`
    BitwiseXor,
    /// `|`
    BitwiseOr,
    /// `in`
    In,
    /// `instanceof`
    Instanceof,
}

/// The operator of a logical expression (ECMA-262, "Binary Logical Operators").
#[derive(Clone, Copy, PartialEq, Eq)]
pub enum LogicalOperator {
    /// `||`
    Or,
    /// `&&`
    And,
    /// `??`
    Coalesce,
}

/// The operator of an assignment (ECMA-262, "Assignment Operators").
#[derive(Clone, Copy, PartialEq, Eq)]
pub enum AssignmentOperator {
    /// `=`
    Assign,
    /// `+=`
    Addition,
    /// `-=`
    Subtraction,
    /// `*=`
    Multiplication,
    /// `/=`
    Division,
    /// `%=`
    Remainder,
    /// `**=`
    Exponential,
    /// `<<=`
    ShiftLeft,
    /// `>>=`
    ShiftRight,
    /// `>>>=`
    ShiftRightZeroFill,
    /// `&=`
    BitwiseAnd,
    /// `^=`
    BitwiseXor,
    /// `|=`
    BitwiseOr,
    /// `||=`
    LogicalOr,
    /// `&&=`
    LogicalAnd,
    /// `??=`
    LogicalNullish,
}
