//! The resolution of a program that has no early error.

ghost use Rattle.std.specs.Prelude.{◌≡◌, ◌+◌, ◌<◌, ◌^◌, None, Some, length, IfErr, IfOk, IfSome, OnOk};
ghost use Rattle.mini_model.specs.Faults.{fault_of};
ghost use Rattle.mini_laws.specs.declared.names.Use.TheVariants as variant;
ghost use Rattle.mini_laws.specs.References.{references};
ghost use Rattle.mini_laws.specs.Resolved.{resolved_program, symbols};
ghost use Rattle.mini_scope.specs.Pointers.{early_fault};
ghost use Rattle.mini_context.specs.Facts.{Tells};

use crate::scopes::Scopes;
use mini_model::MinifyError;
use mini_node::Node;
use mini_scope::{refuse_early, resolve_program};
use std::alloc::Global;

/// Gives each name of a program its symbol, and says what is known of the names.
///
/// `EarlyName` and `EarlyJump` come where the program has such an error, with its pointer; a
/// program that has none is refused for want of memory alone, and is fit then only to be dropped.
/// (ECMA-262, "Static Semantics: Early Errors", "ResolveBinding".)
pub fn resolve(alloc: Global, program: &mut Node) -> Result<Scopes, MinifyError>
    requires symbols { symbols variant.Read program.old < 2 ^ 32 }
    requires references { length (references variant.Read program.old) + 1 < 2 ^ 32 }
    ensures free { OnOk result (early_fault program.old ≡ None) }
    ensures resolved { OnOk result (program.new ≡ resolved_program program.old) }
    ensures scopes { IfOk result (λ scopes. Tells scopes (symbols variant.Read program.old) program.new) }
    ensures refused { IfErr result (λ e. IfSome (fault_of e) (λ f. early_fault program.old ≡ Some f)) }
{
    refuse_early(alloc, program)?;
    let count = resolve_program(alloc, program)?;
    let scopes = Scopes::of(alloc, program, count)?;
    Ok(scopes)
}
