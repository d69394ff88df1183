//! What is known of the names of a program, anew.

ghost use Rattle.std.specs.Prelude.{◌≡◌, ◌+◌, ◌<◌, ◌^◌, length, OnOk};
ghost use Rattle.mini_laws.specs.declared.names.Use.TheVariants as variant;
ghost use Rattle.mini_laws.specs.References.{references};
ghost use Rattle.mini_context.specs.Facts.{Refreshed};

use crate::context::TraverseCtx;
use mini_model::OutOfMemory;
use mini_node::Node;
use std::alloc::Global;

/// Sets the counts and what a direct eval can see to those of a program. The only error is that
/// memory runs out, and then the context is fit only to be dropped.
pub fn refresh(alloc: Global, program: &Node, context: &mut TraverseCtx) -> Result<(), OutOfMemory>
    requires { length (references variant.Read program.now) + 1 < 2 ^ 32 }
    ensures refreshed { OnOk result (Refreshed context.old.scopes context.new.scopes program.now) }
    ensures options { OnOk result (context.new.options ≡ context.old.options) }
    ensures parent { OnOk result (context.new.parent ≡ context.old.parent) }
    ensures changes { OnOk result (context.new.changes ≡ context.old.changes) }
{
    context.scopes.refresh(alloc, program)
}
