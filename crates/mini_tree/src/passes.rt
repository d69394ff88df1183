//! Passes over a program.

ghost use Rattle.std.specs.Prelude.{IfOk};
ghost use Rattle.mini_model.specs.Tree.{Tree};
ghost use Rattle.mini_tree.specs.declared.options.CompressOptions.{CompressOptions};
ghost use Rattle.mini_tree.specs.Passes.{MakesPasses};

use crate::rule::{Context, Rule};
use crate::walking::walk;
use mini_model::{OutOfMemory, Position};
use mini_node::Node;
use std::alloc::Global;

/// What passes over a program came to, where memory was enough.
#[derive(Clone, Copy)]
pub struct Passes {
    /// How many passes there were.
    pub passes: u32,
    /// Whether the last pass found nothing to do.
    pub settled: bool,
}

/// Makes passes over a program until one finds nothing to do, or as many as the bound says (0 is
/// read as 1). The context knows the program as the first begins, and looks at it anew before each
/// other. The only error is that memory runs out, and then the program and the context are fit only
/// to be dropped.
pub fn run_passes<C: Context, R: Rule<C>>(
    rule: &R,
    alloc: Global,
    program: &mut Node,
    max_passes: u32,
    context: &mut C,
) -> Result<Passes, OutOfMemory>
    requires { ((o : CompressOptions) × C.knows context.old o program.old) }
    ensures { IfOk result (λ made. (o : CompressOptions) → C.knows context.old o program.old → MakesPasses (R.gives o) (R.rests o) program.old program.new max_passes made.passes made.settled) }
{
    let bound = max_passes.max(1);
    let mut passes = 1;
    'passes: while walk(rule, alloc, program, Position::Elsewhere, context)? {
        if passes >= bound {
            let settled = false;
            return Ok(Passes { passes, settled });
        }
        context.refresh(alloc, program)?;
        passes += 1;
    }
    let settled = true;
    Ok(Passes { passes, settled })
}
