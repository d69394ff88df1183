//! Laws of the table, each as the contract of a function that does nothing.
ghost use Rattle.std.specs.Prelude.{◌≡◌, ◌≤◌, ℕ, List, true, false, Some, Ok, Err, IsUtf8, IsAscii};
ghost use Rattle.serde_json.specs.Data.{Data};
ghost use Rattle.mini_model.specs.Tree.{Tree};
ghost use Rattle.mini_model.specs.Texts.{units_of};
ghost use Rattle.mini_accept.specs.WellShaped.{a_program, is_text, IsWellShaped};
ghost use Rattle.mini_accept.specs.Faults.{Fault, too_deep};
ghost use Rattle.mini_accept.specs.Places.{at};
ghost use Rattle.mini_accept.specs.Fields.{paired_units};
ghost use Rattle.mini_accept.specs.Accept.{program_at, Accepts};
ghost use Rattle.mini_accept.specs.Located.{Located};
ghost use Rattle.mini_accept.specs.Numbered.{next_after};
ghost use Rattle.mini_accept.specs.Symbols.{has_no_symbol};

/// What is read within a depth is read within any greater one, with the same numbers.
pub fn deeper()
    ensures { (k : ℕ) (l : ℕ) (d : Data) (t : Tree) (n : ℕ) → program_at k d ≡ Ok (t, n) → k ≤ l → program_at l d ≡ Ok (t, n) }
{}

/// What is refused within a depth, but not for want of it, is refused within any greater one, by
/// the same fault.
pub fn refused_deeper()
    ensures { (k : ℕ) (l : ℕ) (d : Data) (f : Fault) → program_at k d ≡ Err f → (f.defect ≡ too_deep → ⊥) → k ≤ l → program_at l d ≡ Err f }
{}

/// A value is accepted as one tree at most.
pub fn accepts_one_tree()
    ensures { (d : Data) (t : Tree) (u : Tree) → Accepts d t → Accepts d u → t ≡ u }
{}

/// Each fault is a defect of the node at its pointer; a node is too deep exactly where it is past
/// the greatest depth.
pub fn faults_are_there()
    ensures { (k : ℕ) (d : Data) (f : Fault) → program_at k d ≡ Err f → Located k false (at a_program) d f }
{}

/// The numbers of a tree that is read are those from 0 on, in preorder.
pub fn numbers_in_preorder()
    ensures { (k : ℕ) (d : Data) (t : Tree) (n : ℕ) → program_at k d ≡ Ok (t, n) → next_after t 0 ≡ Some n }
{}

/// No name of a tree that is read has a symbol.
pub fn names_have_no_symbol()
    ensures { (k : ℕ) (d : Data) (t : Tree) (n : ℕ) → program_at k d ≡ Ok (t, n) → has_no_symbol t ≡ true }
{}

/// A tree that a value is accepted as is well shaped.
pub fn accepted_is_well_shaped()
    ensures { (k : ℕ) (d : Data) (t : Tree) (n : ℕ) → program_at k d ≡ Ok (t, n) → IsWellShaped t }
{}

/// A text in UTF-8 is read as its units, none of which is a surrogate without a partner; these tell
/// it from words in ASCII as its bytes do.
pub fn texts_are_read()
    ensures read { (s : List ℕ) → IsUtf8 s → paired_units s ≡ Some (units_of s) }
    ensures told { (w : List ℕ) (s : List ℕ) → IsAscii w → IsUtf8 s → is_text w (units_of s) ≡ is_text w s }
{}
