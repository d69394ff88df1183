//! How deep nodes nest, and how deep a row may put them.

ghost use Rattle.std.specs.Prelude.{◌≡◌, true};
ghost use Rattle.mini_model.specs.declared.name.Name.{Name};
ghost use Rattle.mini_model.specs.Tree.{Tree};
ghost use Rattle.mini_node.specs.Children.{rest_children};
ghost use Rattle.mini_rows.specs.Choices.{Row42And, Row42Or};
ghost use Rattle.mini_rows.specs.Lists.{return_statement, throw_statement, Row73, Row74, Row75, Row75Block};
ghost use Rattle.mini_rows.specs.Nesting as nesting;
ghost use Rattle.mini_rows.specs.Nesting.{fits_in as fits_it_in, is_shallow as is_it_shallow, NoDeeper, DeeperByOne, NodeNoDeeper};
ghost use Rattle.mini_rows.specs.Unused.{put_first};

use mini_node::{Node, Nodes};

/// Whether the node nests at most that many nodes deep, itself among them.
#[cycle(depth)]
#[tactic(auto, using(crate::proofs::Nests::none_shallow, crate::proofs::Nests::shallow_below, crate::proofs::Nests::below))]
pub fn is_shallow(node: &Node, levels: u32) -> bool
    ensures { result ≡ nesting.is_shallow levels node.now }
{
    if levels == 0 {
        return false;
    }
    are_shallow(node.children(), 0, levels - 1)
}

/// Whether each of the nodes from a place on nests at most that many nodes deep, itself among them.
#[cycle(depth)]
pub fn are_shallow(nodes: &Nodes, from: usize, levels: u32) -> bool
    ensures { result ≡ nesting.are_shallow levels (rest_children from nodes.now) }
{
    for at in from..nodes.len() {
        if !is_shallow(nodes.child(at), levels) {
            return false;
        }
    }
    true
}

/// Whether a row may put the node deeper than it stands: it nests at most 500 nodes deep.
pub fn may_sink(node: &Node) -> bool
    ensures { result ≡ nesting.may_sink node.now }
{
    is_shallow(node, 500)
}

/// Whether a row may put each of the nodes from a place on deeper than it stands: each nests at
/// most 500 nodes deep.
pub fn may_all_sink(nodes: &Nodes, from: usize) -> bool
    ensures { result ≡ nesting.may_all_sink (rest_children from nodes.now) }
{
    are_shallow(nodes, from, 500)
}

/// Whether a row may put `a || b`, of these two sides, deeper than they stand: each nests at most
/// 499 nodes deep.
pub fn may_join(left: &Node, right: &Node) -> bool
    ensures { result ≡ nesting.may_join left.now right.now }
{
    is_shallow(left, 499) && is_shallow(right, 499)
}

/// Whether a row may put the part in the place of something in the whole: each nests at most 250
/// nodes deep.
pub fn fits_in(part: &Node, whole: &Node) -> bool
    ensures { result ≡ nesting.fits_in part.now whole.now }
{
    is_shallow(part, 250) && is_shallow(whole, 250)
}

/// How deep rows nest what they write. Where what is read nests at most k nodes deep, and k is at
/// least 503, what row 42, row 74, and row 75 with a block write nests at most k deep, and what row
/// 73, and row 75 with a turned test write at most one deeper. A tree into which row 71 has put an
/// initializer nests at most 500 deep.
pub fn rows_keep_their_depth()
    ensures returns { DeeperByOne (Row73 return_statement) }
    ensures throws { DeeperByOne (Row73 throw_statement) }
    ensures guards { NoDeeper Row74 }
    ensures turned { (jump : Tree) → DeeperByOne (Row75 jump) }
    ensures blocks { (jump : Tree) → NoDeeper (Row75Block jump) }
    ensures consequents { NodeNoDeeper Row42And }
    ensures alternates { NodeNoDeeper Row42Or }
    ensures puts { (x : Name) (r t : Tree) → fits_it_in r t ≡ true → is_it_shallow 500 (put_first x r t) ≡ true }
{}
