//! Laws on numbers and their texts, each as the contract of a function that does nothing.
ghost use Rattle.std.specs.Prelude.{◌≡◌, ◌↔◌, ℕ, ℤ, List, Some};
ghost use Rattle.std.specs.Fmt.{signed_decimal};
ghost use Rattle.mini_model.specs.Numerals.{IsSafe, IsTextOfSafe, safe_number};

/// Two safe numbers with the same text are equal (ECMA-262, Number::toString).
pub fn texts_tell_numbers_apart()
    ensures { (m n : ℤ) → IsSafe m → IsSafe n → signed_decimal m ≡ signed_decimal n → m ≡ n }
{}

/// The number that is computed of a text is the one safe number that has the text (ECMA-262,
/// CanonicalNumericIndexString).
pub fn safe_number_is_exact()
    ensures { (text : List ℕ) (n : ℤ) → (safe_number text ≡ Some n) ↔ IsTextOfSafe text n }
{}

/// A safe number comes back from its text (ECMA-262, Number::toString and
/// CanonicalNumericIndexString).
pub fn numbers_come_back()
    ensures { (n : ℤ) → IsSafe n → safe_number (signed_decimal n) ≡ Some n }
{}
