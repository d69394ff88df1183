//! The rows of steady and of lexical names in the own code of a program.

ghost use Rattle.mini_rows.specs.OwnPrograms.{LexicalProgramsAreLawful, LexicalProgramsLighten, SteadyProgramsAreLawful, SteadyProgramsLighten};

/// What the rows of steady and of lexical names write in the own code of a program keeps all that
/// the program has to keep, where what is known of its body is so.
pub fn own_programs_are_lawful()
    ensures members { SteadyProgramsAreLawful }
    ensures lexical { LexicalProgramsAreLawful }
{}

/// What the rows of steady and of lexical names write in the own code of a program is lighter than
/// that.
pub fn own_programs_lighten()
    ensures members { SteadyProgramsLighten }
    ensures lexical { LexicalProgramsLighten }
{}
