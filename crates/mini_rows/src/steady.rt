//! The rows that rest on it that names are steady.

ghost use Rattle.std.specs.Prelude.{ℕ};
ghost use Rattle.mini_rows.specs.Editions.{SteadyRowsIn};
ghost use Rattle.mini_rows.specs.OwnArrows.{LexicalCodeIsLawful, LexicalCodeLightens, SteadyCodeIsLawful, SteadyCodeLightens};
ghost use Rattle.mini_rows.specs.Steady.{LexicalRows, ReadsMore, SteadyFunctionsAreLawful, SteadyFunctionsLighten, SteadyLightens, SteadyMeansSame};

/// What each row of steady names writes means the same wherever the expression stands, in any
/// environment in which no answer changes the variables that are steady, and from each state in
/// which those have values that are known to have one.
pub fn steady_names_mean_the_same()
    ensures { SteadyMeansSame }
{}

/// What each row of steady names writes is lighter wherever the expression stands, and makes the
/// whole lighter, in the body of a function too.
pub fn steady_names_lighten()
    ensures row { SteadyLightens }
    ensures functions { SteadyFunctionsLighten }
{}

/// What the rows of steady and of lexical names read, they read also where more variables are known
/// to have values.
pub fn rows_read_more()
    ensures members { (edition : ℕ) → ReadsMore (SteadyRowsIn edition) }
    ensures lexical { ReadsMore LexicalRows }
{}

/// What a row of steady names writes in the body of a function keeps all that a program has to
/// keep, where the variables are steady in that body: it runs as before where no answer changes
/// them.
pub fn steady_functions_are_lawful()
    ensures { SteadyFunctionsAreLawful }
{}

/// What the rows of steady and of lexical names write in the body of a function or an arrow
/// function keeps all that a program has to keep, where what is known of the body is so.
pub fn own_code_is_lawful()
    ensures members { SteadyCodeIsLawful }
    ensures lexical { LexicalCodeIsLawful }
{}

/// What the rows of steady and of lexical names write in the body of a function or an arrow
/// function is lighter wherever that stands, and makes the whole lighter.
pub fn own_code_lightens()
    ensures members { SteadyCodeLightens }
    ensures lexical { LexicalCodeLightens }
{}
