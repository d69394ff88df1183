// Why a program isn't printed.

ghost use Rattle.std.specs.Prelude.{◌≡◌};
ghost use Rattle.mini_faults.specs.declared.error.PrintError.TheVariants as error;

use mini_model::{Numbers, OutOfMemory};

/// Why a program isn't printed.
#[derive(Drop)]
pub enum PrintError {
    /// No memory was left.
    OutOfMemory,
    /// The name at the path is a reserved word.
    Reserved { at: Numbers },
    /// The text at the path can't stand in a program, or no text has the parts of the node there.
    BadText { at: Numbers },
    /// The program nests deeper than 1,000 levels, of which a template has one for each of its
    /// pieces.
    TooDeep,
    /// No node is such a one, and the program has no text in the style that was asked for.
    Unprintable,
}

impl From<OutOfMemory> for PrintError {
    ghost from_gives = { λ _ e. e ≡ error.OutOfMemory };

    fn from(_gone: OutOfMemory) -> PrintError {
        PrintError::OutOfMemory
    }
}
