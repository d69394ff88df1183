//! All rows together.

ghost use Rattle.mini_rows.specs.Editions.{LatestHasEach};
ghost use Rattle.mini_rows.specs.Redex.{RowsAreLawful, RowsAreLoose};

/// What any row writes keeps all that a program has to keep, whatever the options let happen, where
/// what a write of each variable does stays; and so, but for constants that are declared in what
/// goes and names that nothing mentions, where such names may go.
pub fn rows_are_lawful()
    ensures lawful { RowsAreLawful }
    ensures loosely { RowsAreLoose }
{}

/// Each row acts where the edition is that of 2021 or a later one, as it is by default: it has the
/// form of what each row writes.
pub fn latest_edition_has_each_row()
    ensures { LatestHasEach }
{}
