//! Laws: which programs of ESTree have a text, and that a text has their tokens.
#![tactic(auto)]

ghost use Rattle.std.specs.Prelude.{◌≡◌, ℕ, List, true, false, None, Ok};
ghost use Rattle.std.specs.Char.Utf16.{has_unpaired_surrogate};
ghost use Rattle.serde_json.specs.Data.{Data};
ghost use Rattle.mini_model.specs.Tree.{Tree};
ghost use Rattle.mini_accept.specs.Accept.{program_at};
ghost use Rattle.mini_accept.specs.WellShaped.{IsWellShaped, is_name};
ghost use Rattle.mini_print.specs.Text.{EachLexical, is_word, text_of};
ghost use Rattle.mini_print.specs.Compact.{compact_text_of};
ghost use Rattle.mini_print.specs.Printed.{Style, styled_program, program_is_printable};
ghost use Rattle.mini_print.specs.Unprintable.{first_fault};

/// A program of ESTree without a fault is one that the grammar of texts has (ECMA-262, 11 to 16):
/// what keeps a well-shaped program from a text is a first fault, and nothing else. Its names may be
/// resolved or not.
pub fn programs_are_printable()
    ensures { (t : Tree) → IsWellShaped t → first_fault t ≡ None → program_is_printable t ≡ true }
{}

/// A program that is read is one that the grammar of texts has, or it has a first fault: the texts
/// of ESTree's programs lack no production.
pub fn read_programs_are_printable()
    ensures { (depth : ℕ) (value : Data) (t : Tree) (numbers : ℕ) → program_at depth value ≡ Ok (t, numbers) → first_fault t ≡ None → program_is_printable t ≡ true }
{}

/// Each token that is printed of a program of ESTree without a fault is one that a text has
/// (ECMA-262, 12), in full and in short: each name is a word, each number small enough, each text
/// between its quotes, and no regular expression and no piece of a template ends before its end.
pub fn programs_are_lexical()
    ensures { (style : Style) (t : Tree) → IsWellShaped t → first_fault t ≡ None → EachLexical (styled_program style t) }
{}

/// Each token that is printed of a program that is read and has no fault is one that a text has
/// (ECMA-262, 12), in full and in short.
pub fn read_programs_are_lexical()
    ensures { (style : Style) (depth : ℕ) (value : Data) (t : Tree) (numbers : ℕ) → program_at depth value ≡ Ok (t, numbers) → first_fault t ≡ None → EachLexical (styled_program style t) }
{}

/// In the text of a program of ESTree without a fault, spaced or compact, each half of a surrogate
/// pair has the other (The Unicode Standard, D91 and D92), so the text has a UTF-8.
pub fn program_texts_are_paired()
    ensures spaced { (style : Style) (t : Tree) → IsWellShaped t → first_fault t ≡ None → has_unpaired_surrogate (text_of (styled_program style t)) ≡ false }
    ensures compact { (style : Style) (t : Tree) → IsWellShaped t → first_fault t ≡ None → has_unpaired_surrogate (compact_text_of (styled_program style t)) ≡ false }
{}

/// The name of an identifier is a word of a text (ECMA-262, 12.7): no blank, and no unit that
/// begins another token, stands in it, and it begins with no digit.
pub fn names_are_words()
    ensures { (s : List ℕ) → is_name s ≡ true → is_word s ≡ true }
{}
