//! What the context of rewrites knows of a program, and how it looks at one anew.

ghost use Rattle.std.specs.Prelude.{◌≡◌};
ghost use Rattle.mini_model.specs.Weight.{capped};
ghost use Rattle.mini_node.specs.Children.{names};
ghost use Rattle.mini_context.specs.Known.{reference_count as count_of_references, own_reference_count as count_of_own};

use crate::context::TraverseCtx;
use crate::refreshing::refresh;
use mini_model::{Name, OutOfMemory, Shape};
use mini_node::Node;
use mini_tree::{CompressOptions, Context};
use std::alloc::Global;

fn own_reference_count(shape: &Shape, name: &Option<Name>) -> u64
    ensures { result ≡ count_of_own shape.now (names name.now) }
{
    match shape {
        Shape::Identifier => match name {
            Some(_) => 1,
            None => 0,
        },
        _ => 0,
    }
}

// How many references there are in a tree; it stays at the greatest u64.
#[tactic(auto, using(crate::proofs::Known::count_of, crate::proofs::Known::item_within))]
fn reference_count(node: &Node) -> u64
    ensures { result ≡ capped (count_of_references node.now) }
{
    let mut total = own_reference_count(node.shape(), node.name());
    for child in node.parts() {
        total = total.saturating_add(reference_count(child));
    }
    total
}

impl Context for TraverseCtx {
    ghost use Rattle.mini_context.specs.Known.{Knows};

    ghost knows = { Knows };

    fn options(&self) -> CompressOptions {
        self.options
    }

    // References are counted in 32 bits, so that memory counts as run out where there are more.
    fn refresh(&mut self, alloc: Global, program: &Node) -> Result<(), OutOfMemory> {
        if reference_count(program) > 4_294_967_294 {
            return Err(OutOfMemory);
        }
        refresh(alloc, program, self)?;
        Ok(())
    }
}
