//! The rows of `switch` and of `for` in which names are declared that no other body mentions.

ghost use Rattle.mini_rows.specs.Fading.{FadesItself};
ghost use Rattle.mini_rows.specs.Lexical.{LexicalLightens, LexicalMeansSame};
ghost use Rattle.mini_rows.specs.Steady.{LexicalFunctionsAreLawful, LexicalFunctionsLighten, LexicalKeepsOwn};

/// A tree does the same from two states that differ only in this: the second lacks the values of
/// some variables that no event shows.
pub fn each_tree_fades()
    ensures { FadesItself }
{}

/// Let two states differ only in this: the second lacks the values of the names that a `switch` or
/// a `for` declares. Then what its row writes does from the second what the statement does from the
/// first, in any environment in which no event shows those names.
pub fn lexical_names_mean_the_same()
    ensures { LexicalMeansSame }
{}

/// What a row of a `switch` or a `for` that declares names writes is lighter wherever the statement
/// stands, and makes the whole lighter, in the body of a function too.
pub fn lexical_names_lighten()
    ensures row { LexicalLightens }
    ensures functions { LexicalFunctionsLighten }
{}

/// What a row of a `switch` or a `for` that declares names writes keeps what the code of a body has
/// to keep, where it is known of the body that no event shows those names.
pub fn lexical_rows_are_kept()
    ensures { LexicalKeepsOwn }
{}

/// What a row of a `switch` or a `for` that declares names writes in the body of a function keeps
/// all that a program has to keep, where no event shows those names in that body: it runs as before
/// in any environment in which that is so.
pub fn lexical_functions_are_lawful()
    ensures { LexicalFunctionsAreLawful }
{}
