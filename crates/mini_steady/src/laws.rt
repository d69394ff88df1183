//! What the rewrites write, and the rows.

ghost use Rattle.mini_steady.specs.Members.{MembersAreRows, UnwrittenMembersRest};

/// What is written of members is what a row says, whatever is known of the body; where nothing is
/// written no row reads the expression.
pub fn members_are_rows()
    ensures written { MembersAreRows }
    ensures unwritten { UnwrittenMembersRest }
{}
