//! Names that are declared twice, in a tree.

ghost use Rattle.std.specs.Prelude.{◌≡◌, ◌++◌, OnOk};
ghost use Rattle.mini_laws.specs.Early.{early_names, all_early_names};

use crate::clashes::push_clashing;
use crate::declarations::{go_up, push_scope};
use mini_laws::Path;
use mini_model::OutOfMemory;
use mini_node::{Node, Nodes};
use std::alloc::Global;

/// Adds the places of the names that are declared twice in a node at a path.
#[cycle(names)]
pub fn push_early_names(
    alloc: Global,
    path: &mut Path,
    node: &Node,
    found: &mut Vec<Path>,
) -> Result<(), OutOfMemory>
    ensures path { OnOk result (path.new ≡ path.old) }
    ensures found { OnOk result (found.new.items ≡ found.old.items ++ early_names path.old node.now) }
{
    let mut declarations = Vec::new(alloc);
    push_scope(alloc, path, node, &mut declarations)?;
    push_clashing(alloc, declarations, found)?;
    push_all_early_names(alloc, path, node.children(), found)
}

/// Adds the places of the names that are declared twice in the children of a node.
#[cycle(names)]
fn push_all_early_names(
    alloc: Global,
    path: &mut Path,
    nodes: &Nodes,
    found: &mut Vec<Path>,
) -> Result<(), OutOfMemory>
    ensures path { OnOk result (path.new ≡ path.old) }
    ensures found { OnOk result (found.new.items ≡ found.old.items ++ all_early_names path.old 0 nodes.now) }
{
    for at in 0..nodes.len() {
        path.push(at)?;
        push_early_names(alloc, path, nodes.child(at), found)?;
        go_up(path);
    }
    Ok(())
}
