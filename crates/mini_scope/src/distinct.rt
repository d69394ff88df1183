//! The names of a scope, each once.

ghost use Rattle.std.specs.Prelude.{◌≡◌, List, ◌++◌, [], drop, length, IfOk, OnOk};
ghost use Rattle.mini_model.specs.declared.name.Name.{Name as NameOf};
ghost use Rattle.mini_laws.specs.DeclaredNames.{with_names};
ghost use Rattle.mini_scope.specs.ScopeAt.{bound};

use crate::Environment;
use mini_laws::{Binding, Use};
use mini_model::{Name, OutOfMemory};
use std::alloc::Global;

/// Adds each of these names to a scope, also where one with its spelling is there.
pub fn add_all(scope: &mut Environment, names: Vec<Name>, hoists: bool) -> Result<(), OutOfMemory>
    ensures { OnOk result (scope.new ≡ scope.old ++ bound hoists names.items) }
{
    for name in names {
        scope.push(Binding { name, hoists })?;
    }
    Ok(())
}

/// Adds each of these names to a scope that has none with its spelling yet.
fn add_distinct(scope: &mut Environment, names: Vec<Name>, hoists: bool) -> Result<(), OutOfMemory>
    ensures { (seen : List NameOf) → scope.old ≡ bound hoists seen → OnOk result (scope.new ≡ bound hoists (with_names seen names.items)) }
{
    for name in names {
        if !scope.has(Use::Read, &name.spelling) {
            scope.push(Binding { name, hoists })?;
        }
    }
    Ok(())
}

/// These names as the bindings of a scope.
fn bindings_of(alloc: Global, names: Vec<Name>, hoists: bool) -> Result<Vec<Binding>, OutOfMemory>
    ensures { IfOk result (λ scope. scope.items ≡ bound hoists names.items) }
{
    let mut scope = Vec::new(alloc);
    for name in names {
        match scope.push(Binding { name, hoists }) {
            Ok(()) => {}
            Err(_) => return Err(OutOfMemory),
        }
    }
    Ok(scope)
}

/// The scope of these names, each once, but for those with the spelling of one that is given first.
pub fn scope_of(
    alloc: Global,
    given: Vec<Name>,
    names: Vec<Name>,
    hoists: bool,
) -> Result<Vec<Binding>, OutOfMemory>
    ensures { IfOk result (λ scope. scope.items ≡ bound hoists (drop (length given.items) (with_names given.items names.items))) }
{
    if names.is_empty() {
        return Ok(Vec::new(alloc));
    }
    let count = given.len();
    if count == 0 && names.len() == 1 {
        return bindings_of(alloc, names, hoists);
    }
    let mut scope = Environment::new(alloc);
    add_all(&mut scope, given, hoists)?;
    add_distinct(&mut scope, names, hoists)?;
    let mut bindings = scope.into_bindings();
    match bindings.split_off(count) {
        Ok(own) => Ok(own),
        Err(_) => Err(OutOfMemory),
    }
}
