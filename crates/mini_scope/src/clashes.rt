//! Names that are declared twice, in a list of declarations.

ghost use Rattle.std.specs.Prelude.{◌≡◌, [], ◌∷◌, ◌++◌, OnOk, if◌then◌else◌};
ghost use Rattle.mini_laws.specs.Early.{clashing};
ghost use Rattle.mini_scope.specs.Paths.{use_for};

use crate::environment::Environment;
use mini_laws::{Binding, Declaration, Path, Use};
use mini_model::{Name, OutOfMemory};
use std::alloc::Global;

/// How to look for the declarations with which a lexical one clashes, or another one.
fn use_for(is_lexical: bool) -> Use
    ensures { result ≡ use_for is_lexical }
{
    if is_lexical { Use::Read } else { Use::Hoisted }
}

/// Adds the path where it is wanted.
fn push_if(found: &mut Vec<Path>, is_wanted: bool, path: Path) -> Result<(), OutOfMemory>
    ensures { OnOk result (found.new.items ≡ (if is_wanted then found.old.items ++ path ∷ [] else found.old.items)) }
{
    if is_wanted {
        match found.push(path) {
            Ok(()) => {}
            Err(_) => return Err(OutOfMemory),
        }
    }
    Ok(())
}

/// Adds the paths of those declarations of a list that clash with an earlier one of it.
pub fn push_clashing(
    alloc: Global,
    declarations: Vec<Declaration>,
    found: &mut Vec<Path>,
) -> Result<(), OutOfMemory>
    ensures { OnOk result (found.new.items ≡ found.old.items ++ clashing [] declarations.items) }
{
    if declarations.len() < 2 {
        return Ok(());
    }
    let mut earlier = Environment::new(alloc);
    for declaration in declarations {
        let Declaration {
            spelling,
            is_lexical,
            at,
        } = declaration;
        push_if(found, earlier.has(use_for(is_lexical), &spelling), at)?;
        earlier.push(Binding {
            name: Name {
                spelling,
                symbol: None,
            },
            hoists: is_lexical,
        })?;
    }
    Ok(())
}
