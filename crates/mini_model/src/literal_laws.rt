//! Laws on raw texts, each as the contract of a function that does nothing.
ghost use Rattle.std.specs.Prelude.{◌≡◌, ℕ, List, All, map, Some, true};
ghost use Rattle.std.specs.List.{concat};
ghost use Rattle.mini_model.specs.Templates.{escaped, cooked};
ghost use Rattle.mini_model.specs.Joined.{are_characters, joined};

/// A text, escaped for a template literal, cooks to itself (ECMA-262, "Template Literal Lexical
/// Components").
pub fn escaped_cooks_to_itself()
    ensures { (text : List ℕ) → cooked (escaped text) ≡ Some text }
{}

/// A text, escaped for a template literal, neither ends the template nor begins a substitution
/// (ECMA-262, TemplateCharacters).
pub fn escaped_stays_inside()
    ensures { (text : List ℕ) → are_characters (escaped text) ≡ true }
{}

/// Where each part cooks to a text, the parts joined cook to the texts joined (ECMA-262, "Template
/// Literal Lexical Components").
pub fn joined_cooks_to_joined()
    ensures { (parts texts : List (List ℕ)) → map cooked parts ≡ map Some texts → cooked (joined parts) ≡ Some (concat texts) }
{}

/// Where no part ends a template or begins a substitution, the parts joined do neither (ECMA-262,
/// TemplateCharacters).
pub fn joined_stays_inside()
    ensures { (parts : List (List ℕ)) → All (λ part. are_characters part ≡ true) parts → are_characters (joined parts) ≡ true }
{}
