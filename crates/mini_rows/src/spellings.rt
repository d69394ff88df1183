//! The rows of spellings.

ghost use Rattle.mini_kept.specs.Lawful.{Lawful};
ghost use Rattle.mini_laws.specs.Rewritten.{MeansSame};
ghost use Rattle.mini_laws.specs.Weights.{Lightens};
ghost use Rattle.mini_rows.specs.KeyHolders.{HeldKeyContracts, HeldKeysLighter};
ghost use Rattle.mini_rows.specs.SpellKeys.{KeyContracts, KeysLighter};
ghost use Rattle.mini_rows.specs.Spellings.{SpellingContracts, SpellingsLighter};

/// What a row on a spelling writes means the same wherever the expression stands, and a parent
/// reads it alike.
pub fn spellings_mean_the_same()
    ensures { MeansSame SpellingContracts }
{}

/// What a row on a spelling writes is lighter in every seat, and so a step by such a row makes the
/// whole lighter.
pub fn spellings_are_lighter()
    ensures row { SpellingsLighter }
    ensures step { Lightens SpellingContracts }
{}

/// What a row on a spelling writes keeps all that a program has to keep.
pub fn spellings_are_lawful()
    ensures { Lawful SpellingContracts }
{}

/// What a row on a key of an object literal writes means the same wherever the literal stands, and
/// a parent reads it alike.
pub fn keys_mean_the_same()
    ensures { MeansSame KeyContracts }
{}

/// What a row on a key writes is lighter in every seat, and so a step by such a row makes the whole
/// lighter.
pub fn keys_are_lighter()
    ensures row { KeysLighter }
    ensures step { Lightens KeyContracts }
{}

/// What a row on a key writes keeps all that a program has to keep.
pub fn keys_are_lawful()
    ensures { Lawful KeyContracts }
{}

/// What the row on a key of a pattern or a class writes means the same wherever it stands, and a
/// parent reads it alike.
pub fn held_keys_mean_the_same()
    ensures { MeansSame HeldKeyContracts }
{}

/// What the row on a key of a pattern or a class writes is lighter everywhere, and so a step by it
/// makes the whole lighter.
pub fn held_keys_are_lighter()
    ensures row { HeldKeysLighter }
    ensures step { Lightens HeldKeyContracts }
{}

/// What the row on a key of a pattern or a class writes keeps all that a program has to keep: the
/// frame around it shows the same property.
pub fn held_keys_are_lawful()
    ensures { Lawful HeldKeyContracts }
{}
