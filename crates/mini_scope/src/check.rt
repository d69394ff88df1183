//! Whether a program has an early error.

ghost use Rattle.std.specs.Prelude.{◌≡◌, IfOk, OnOk, IfErr, []};
ghost use Rattle.mini_laws.specs.Early.{early_names, early_jumps, no_targets as none};
ghost use Rattle.mini_scope.specs.Errors.{first_path, IsFree, Stands};

use crate::doubles::push_early_names;
use crate::jumps::push_early_jumps;
use crate::targets::no_targets;
use mini_laws::Path;
use mini_model::{OutOfMemory, OwnedList};
use mini_node::Node;
use std::alloc::Global;

/// Why a program can't be resolved.
#[derive(Drop)]
pub enum EarlyError {
    /// The name at this path is declared, though it was before in the same scope.
    Name(Path),
    /// The jump at this path has no target.
    Jump(Path),
    /// There was no memory to look.
    OutOfMemory,
}

/// The paths of all names of a program that are declared twice.
fn names_of(alloc: Global, program: &Node) -> Result<Vec<Path>, OutOfMemory>
    ensures { IfOk result (λ found. found.items ≡ early_names [] program.now) }
{
    let mut path = OwnedList::new(alloc);
    let mut found = Vec::new(alloc);
    push_early_names(alloc, &mut path, program, &mut found)?;
    Ok(found)
}

/// The paths of all jumps of a program that have no target.
fn jumps_of(alloc: Global, program: &Node) -> Result<Vec<Path>, OutOfMemory>
    ensures { IfOk result (λ found. found.items ≡ early_jumps none [] program.now) }
{
    let mut path = OwnedList::new(alloc);
    let mut found = Vec::new(alloc);
    let targets = no_targets(alloc);
    push_early_jumps(alloc, &targets, &mut path, program, &mut found)?;
    Ok(found)
}

/// The first of some paths.
fn first_of(paths: Vec<Path>) -> Option<Path>
    ensures { result ≡ first_path paths.items }
{
    let mut paths = paths;
    if paths.is_empty() {
        None
    } else {
        Some(paths.remove(0))
    }
}

/// Looks for an early error of a program (ECMA-262, "Static Semantics: Early Errors"). `Name` comes
/// with the first name that is declared twice; else `Jump` with the first jump without a target;
/// `OutOfMemory` for want of memory.
pub fn check_early(alloc: Global, program: &Node) -> Result<(), EarlyError>
    ensures ok { OnOk result (IsFree program.now) }
    ensures err { IfErr result (Stands program.now) }
{
    let names = match names_of(alloc, program) {
        Ok(names) => names,
        Err(_) => return Err(EarlyError::OutOfMemory),
    };
    if let Some(path) = first_of(names) {
        return Err(EarlyError::Name(path));
    }
    let jumps = match jumps_of(alloc, program) {
        Ok(jumps) => jumps,
        Err(_) => return Err(EarlyError::OutOfMemory),
    };
    match first_of(jumps) {
        Some(path) => Err(EarlyError::Jump(path)),
        None => Ok(()),
    }
}
