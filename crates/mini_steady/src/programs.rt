//! The own code of a program.

ghost use Rattle.std.specs.Prelude.{◌≡◌, true, IfOk};
ghost use Rattle.mini_model.specs.Tree.{children, count};
ghost use Rattle.mini_steady.specs.Programs as row;
ghost use Rattle.mini_steady.specs.Programs.{AppliedInProgram};
ghost use Rattle.mini_unused.specs.Allowed.{switches_of};

use crate::code::code_of;
use crate::functions::has_no_name;
use crate::own::{OwnRewrites, minimize_own_code};
use crate::steady::SteadyNames;
use mini_model::{OutOfMemory, Position, Shape};
use mini_node::Node;
use std::alloc::Global;

// A module or a script.
fn is_program(node: &Node) -> bool
    ensures kind { result ≡ row.is_program node.now }
    ensures parts { result ≡ true → count (children node.now) ≡ 1 }
{
    matches!(node.shape(), Shape::Program(_, _))
        && has_no_name(node.name())
        && node.children().len() == 1
}

/// Makes rows in the own code of a program: by rows of members the module
/// `const x = a(); x.k || (x.k = b);` becomes `const x = a(); x.k ||= b;`. The answer says whether
/// anything changed, and where nothing did no row reads the program; the only error is that memory
/// runs out, and then it is fit only to be dropped.
pub fn minimize_in_program<S: SteadyNames, W: OwnRewrites<S>>(
    alloc: Global,
    node: &mut Node,
    steady: &S,
    rewrites: &W,
) -> Result<bool, OutOfMemory>
    ensures { IfOk result (λ changed. AppliedInProgram (W.rows (switches_of (S.orders steady.now))) (S.sets steady.now) node.old node.new changed) }
{
    if !is_program(node) {
        return Ok(false);
    }
    let number = node.number();
    let mut code = code_of(alloc, number, node.child(0))?;
    let list = node.children_mut().child_mut(0);
    Ok(minimize_own_code(
        alloc,
        list,
        Position::StatementList,
        &mut code,
        steady,
        rewrites,
    )?)
}
