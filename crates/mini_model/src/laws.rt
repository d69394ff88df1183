//! Laws on texts, bytes and names, each as the contract of a function that does nothing.
ghost use Rattle.std.specs.Prelude.{◌≡◌, ℕ, List, true, false, IsUtf8};
ghost use Rattle.std.specs.Char.Utf16.{has_unpaired_surrogate};
ghost use Rattle.mini_model.specs.Texts.{units_of, bytes_of, AllUnits, is_identifier_name};

/// A text whose surrogates all have their partners comes back from its bytes (The Unicode Standard,
/// UTF-8 and UTF-16).
pub fn units_of_bytes()
    ensures { (u : List ℕ) → has_unpaired_surrogate u ≡ false → AllUnits u → units_of (bytes_of u) ≡ u }
{}

/// UTF-8 bytes come back from their units (The Unicode Standard, UTF-8 and UTF-16).
pub fn bytes_of_units()
    ensures { (b : List ℕ) → IsUtf8 b → bytes_of (units_of b) ≡ b }
{}

/// In a name each surrogate has its partner, since one without is no character of a name (ECMA-262,
/// IdentifierName).
pub fn names_are_paired()
    ensures { (u : List ℕ) → is_identifier_name u ≡ true → has_unpaired_surrogate u ≡ false }
{}
