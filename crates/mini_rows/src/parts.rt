//! The rows of steady and of lexical names in the own code of static blocks and of inner
//! expressions.

ghost use Rattle.mini_rows.specs.OwnParts.{LexicalPartsAreLawful, LexicalPartsLighten, SteadyPartsAreLawful, SteadyPartsLighten};

/// What the rows of steady and of lexical names write in the own code of a static block or an inner
/// expression keeps all that a program has to keep, where what is known of its body is so.
pub fn own_parts_are_lawful()
    ensures members { SteadyPartsAreLawful }
    ensures lexical { LexicalPartsAreLawful }
{}

/// What the rows of steady and of lexical names write in the own code of a static block or an inner
/// expression is lighter wherever that stands, and makes the whole lighter.
pub fn own_parts_lighten()
    ensures members { SteadyPartsLighten }
    ensures lexical { LexicalPartsLighten }
{}
