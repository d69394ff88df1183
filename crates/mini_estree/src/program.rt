// Programs.

ghost use Rattle.std.specs.Prelude.{◌≡◌, true, Ok, IfOk, IfErr};
ghost use Rattle.std.specs.Result.{result_err};
ghost use Rattle.serde_json.specs.View.{view};
ghost use Rattle.mini_accept.specs.Accept.{program_at};
ghost use Rattle.mini_accept.specs.Symbols.{has_no_symbol};
ghost use Rattle.mini_estree.specs.Reads.{Blames};

use crate::walk::node;
use mini_fields::{Class, Place};
use mini_model::MinifyError;
use mini_node::Node;
use serde_json::Value;
use std::alloc::Global;

/// The tree of a program, and how many of its nodes have a number.
#[derive(Drop)]
pub struct Numbered {
    /// The tree.
    pub root: Node,
    /// How many of its nodes have a number, the program among them.
    pub numbers: u32,
}

/// The tree of a program, whose nodes nest at most `max_depth` deep, the program being at depth 1,
/// and whose numbered nodes have the numbers from 0 on in preorder; no name has a symbol.
///
/// The error points to the first node that is no form of ESTree (`BadShape`), is a form that isn't
/// read (`Unsupported`) or nests too deep (`TooDeep`). `OutOfMemory` may come in place of any
/// answer.
#[tactic(auto, using(mini_accept::proofs::Symbols::program_unresolved), unfolding(mini_accept::specs::Accept::program_at))]
pub fn read_program(alloc: Global, value: &Value, max_depth: u32) -> Result<Numbered, MinifyError>
    ensures tree { IfOk result (λ p. program_at max_depth (view value.now) ≡ Ok (p.root, p.numbers)) }
    ensures symbols { IfOk result (λ p. has_no_symbol p.root ≡ true) }
    ensures refused { IfErr result (λ e. Blames e (result_err (program_at max_depth (view value.now)))) }
{
    let (root, numbers) = node(alloc, false, Place::At(Class::Program), value, max_depth, 0)?;
    Ok(Numbered { root, numbers })
}
