// Programs.

ghost use Rattle.std.specs.Prelude.{◌≡◌, IfOk};
ghost use Rattle.serde_json.specs.View.{view};
ghost use Rattle.mini_writer.specs.Written.{program_data};

use crate::walk::value;
use mini_model::OutOfMemory;
use mini_node::Node;
use serde_json::Value;
use std::alloc::Global;

/// The ESTree value of a program: an object for each node, with `type` and every field of its type
/// (ESTree, ES5 to ES2022), its directives as the first statements of its body. Numbers and symbols
/// aren't written.
///
/// The only error is that memory runs out.
#[tactic(auto, unfolding(crate::specs::Written::program_data))]
pub fn write_program(alloc: Global, program: &Node) -> Result<Value, OutOfMemory>
    ensures { IfOk result (λ v. view v ≡ program_data program.now) }
{
    match value(alloc, program) {
        Ok(value) => Ok(value),
        Err(_) => Err(OutOfMemory),
    }
}
