//! How deep the text of a tree nests.

ghost use Rattle.std.specs.Prelude.{◌≡◌, nat_le};
ghost use Rattle.mini_node.specs.Children.{trees_of};
ghost use Rattle.mini_faults.specs.Depth as nesting;

use mini_model::Shape;
use mini_node::Node;

fn is_template(shape: &Shape) -> bool
    ensures { result ≡ nesting.is_template shape.now }
{
    matches!(shape, Shape::TemplateLiteral)
}

// The levels of a node: one, or one for each piece of a template.
#[tactic(auto, using(crate::proofs::Depths::levels_of_template, crate::proofs::Depths::levels_of_none, crate::proofs::Depths::one_level))]
fn own_levels(node: &Node) -> usize
    ensures { result ≡ nesting.own_levels node.now }
{
    if !is_template(node.shape()) {
        return 1;
    }
    if node.children().len() == 0 {
        return 0;
    }
    node.child(0).children().len()
}

fn is_at_most(levels: usize, most: usize) -> bool
    ensures { result ≡ nat_le levels most }
{
    levels <= most
}

// Whether a node has at most so many levels.
#[cycle(levels)]
#[tactic(auto, using(crate::proofs::Depths::below, crate::proofs::Depths::nests_by, crate::proofs::Depths::too_many))]
fn nests_within(levels: usize, node: &Node) -> bool
    ensures { result ≡ nesting.nests_within levels node.now }
{
    let own = own_levels(node);
    if !is_at_most(own, levels) {
        return false;
    }
    all_nest_within(levels.saturating_sub(own), node.parts())
}

#[cycle(levels)]
#[tactic(auto, using(crate::proofs::Depths::nodes_go_on, crate::proofs::Depths::nodes_stop, crate::proofs::Depths::nodes_end))]
fn all_nest_within(levels: usize, nodes: &[Node]) -> bool
    ensures { result ≡ nesting.all_nest_within levels (trees_of nodes.now) }
{
    for node in nodes {
        if !nests_within(levels, node) {
            return false;
        }
    }
    true
}

/// Whether a program nests no deeper than what is printed: 1,000 levels, of which a template has one
/// for each of its pieces.
pub fn may_print(program: &Node) -> bool
    ensures { result ≡ nesting.may_print program.now }
{
    nests_within(1000, program)
}
