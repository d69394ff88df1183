//! Laws of the values that are small enough, each as the contract of a function that does nothing.
ghost use Rattle.std.specs.Prelude.{◌≡◌, ◌≤◌, ◌<◌, ◌^◌, ℕ, List, length, Some, Ok};
ghost use Rattle.serde_json.specs.Data.{Data};
ghost use Rattle.serde_json.specs.Read.{read};
ghost use Rattle.mini_model.specs.Tree.{Tree};
ghost use Rattle.mini_model.specs.declared.place.Position.TheVariants.{Elsewhere};
ghost use Rattle.mini_model.specs.Weight.{weight, program_weight};
ghost use Rattle.mini_accept.specs.Accept.{program_at, Accepts};
ghost use Rattle.mini_writer.specs.Fits.{Fits};
ghost use Rattle.mini_writer.specs.Countable.{AcceptedIsCountable};

/// The tree of a small enough value weighs less than 2^32.
pub fn accepted_weighs_little()
    ensures tree { (d : Data) (t : Tree) → Accepts d t → Fits d → weight Elsewhere t < 2 ^ 32 }
    ensures program { (d : Data) (t : Tree) → Accepts d t → Fits d → program_weight t < 2 ^ 32 }
{}

/// What is counted of the program of a small enough value fits in 32 bits: its symbols, its
/// references and its numbers.
pub fn accepted_is_countable()
    ensures { AcceptedIsCountable }
{}

/// A small enough value nests no deeper than a u32 can say.
pub fn fitting_is_read()
    ensures { (d : Data) (t : Tree) → Accepts d t → Fits d → (numbers : ℕ) × (program_at 4294967295 d ≡ Ok (t, numbers)) }
{}

/// What 16,777,216 bytes say is small enough.
pub fn read_bytes_fit()
    ensures { (bytes : List ℕ) (d : Data) → length bytes ≤ 16777216 → read bytes ≡ Some d → Fits d }
{}
