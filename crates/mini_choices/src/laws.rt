//! What the rule makes, and the rows.

ghost use Rattle.mini_choices.specs.Choices.{WrittenIsRow, UnwrittenRests};
ghost use Rattle.mini_choices.specs.Writes.{WritesAreRows, UnwrittenRest};
ghost use Rattle.mini_choices.specs.JoinWithLeftAssociativeOp.{JoinedSame, JoinedToTheLeft};

/// What the rewrites of conditionals, logical expressions and assignments write is what a row says,
/// and lighter; where they write nothing no row makes the expression lighter, as far as its weight
/// fits 64 bits.
pub fn choices_are_rows()
    ensures written { WrittenIsRow }
    ensures unwritten { UnwrittenRests }
{}

/// What `join_with_left_associative_op` makes means what the operator over the two does, in every
/// seat; it is of the operator, and its right operand is not.
pub fn left_joins_mean_the_same()
    ensures same { JoinedSame }
    ensures left { JoinedToTheLeft }
{}

/// What the rewrites of names that can be written write is what a row says, and lighter; where they
/// write nothing no row reads the expression.
pub fn writes_are_rows()
    ensures written { WritesAreRows }
    ensures unwritten { UnwrittenRest }
{}
