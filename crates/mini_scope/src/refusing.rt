//! The refusal of a program that has an early error.

ghost use Rattle.std.specs.Prelude.{◌≡◌, None, Some, IfErr, IfSome, OnOk};
ghost use Rattle.mini_scope.specs.Errors.{Stands};
ghost use Rattle.mini_model.specs.Faults.{fault_of};
ghost use Rattle.mini_scope.specs.Pointers.{early_fault};

use crate::pointer::under_path;
use crate::{EarlyError, check_early};
use mini_model::{MinifyError, early_jump, early_name};
use mini_node::Node;
use std::alloc::Global;

/// The refusal of a program that has this early error.
fn refusal(alloc: Global, program: &Node, error: EarlyError) -> MinifyError
    requires { Stands program.now error }
    ensures { IfSome (fault_of result) (λ f. early_fault program.now ≡ Some f) }
{
    match error {
        EarlyError::OutOfMemory => MinifyError::OutOfMemory,
        EarlyError::Name(path) => {
            under_path(alloc, 0, program, path.as_slice(), early_name(alloc))
        }
        EarlyError::Jump(path) => {
            under_path(alloc, 0, program, path.as_slice(), early_jump(alloc))
        }
    }
}

/// Refuses a program that has an early error: `EarlyName` and `EarlyJump` come with the pointer of
/// what has it, and `OutOfMemory` for want of memory. (ECMA-262, "Static Semantics: Early Errors".)
pub fn refuse_early(alloc: Global, program: &Node) -> Result<(), MinifyError>
    ensures free { OnOk result (early_fault program.now ≡ None) }
    ensures refused { IfErr result (λ e. IfSome (fault_of e) (λ f. early_fault program.now ≡ Some f)) }
{
    match check_early(alloc, program) {
        Ok(()) => Ok(()),
        Err(error) => Err(refusal(alloc, program, error)),
    }
}
