//! Jumps without a target, in a tree.

ghost use Rattle.std.specs.Prelude.{◌≡◌, [], ◌∷◌, ◌++◌, OnOk, if◌then◌else◌};
ghost use Rattle.mini_laws.specs.Early.{early_jumps, all_early_jumps, targets_of, turned as turned_by};

use crate::declarations::{copy_path, go_up};
use crate::kinds::turn_of;
use crate::targets::{is_bad_jump, turned};
use mini_laws::{Path, Targets, Turn};
use mini_model::{OutOfMemory, Shape};
use mini_node::{Node, Nodes};
use std::alloc::Global;

/// Adds the path where it is wanted.
fn push_here(
    alloc: Global,
    is_wanted: bool,
    path: &Path,
    found: &mut Vec<Path>,
) -> Result<(), OutOfMemory>
    ensures { OnOk result (found.new.items ≡ found.old.items ++ (if is_wanted then path.now ∷ [] else [])) }
{
    if is_wanted {
        match found.push(copy_path(alloc, path)?) {
            Ok(()) => {}
            Err(_) => return Err(OutOfMemory),
        }
    }
    Ok(())
}

/// Adds the places of the jumps without a target in a node at a path, which can jump to these
/// targets.
#[cycle(jumps)]
pub fn push_early_jumps(
    alloc: Global,
    targets: &Targets,
    path: &mut Path,
    node: &Node,
    found: &mut Vec<Path>,
) -> Result<(), OutOfMemory>
    ensures path { OnOk result (path.new ≡ path.old) }
    ensures found { OnOk result (found.new.items ≡ found.old.items ++ early_jumps targets.now path.old node.now) }
{
    let shape = node.shape();
    let nodes = node.children();
    let is_bad = is_bad_jump(shape, nodes, targets);
    push_here(alloc, is_bad, path, found)?;
    push_all_early_jumps(alloc, shape, targets, path, nodes, found)
}

/// Adds the places of the jumps without a target in the children of a node of this shape.
#[cycle(jumps)]
fn push_all_early_jumps(
    alloc: Global,
    shape: &Shape,
    targets: &Targets,
    path: &mut Path,
    nodes: &Nodes,
    found: &mut Vec<Path>,
) -> Result<(), OutOfMemory>
    ensures path { OnOk result (path.new ≡ path.old) }
    ensures found { OnOk result (found.new.items ≡ found.old.items ++ all_early_jumps (targets_of shape.now nodes.now targets.now) path.old 0 nodes.now) }
{
    for at in 0..nodes.len() {
        path.push(at)?;
        push_turned(
            alloc,
            turn_of(shape, at),
            nodes,
            targets,
            path,
            nodes.child(at),
            found,
        )?;
        go_up(path);
    }
    Ok(())
}

/// Adds the places of the jumps without a target in the child at an index.
#[cycle(jumps)]
fn push_turned(
    alloc: Global,
    turn: Turn,
    nodes: &Nodes,
    targets: &Targets,
    path: &mut Path,
    node: &Node,
    found: &mut Vec<Path>,
) -> Result<(), OutOfMemory>
    ensures path { OnOk result (path.new ≡ path.old) }
    ensures found { OnOk result (found.new.items ≡ found.old.items ++ early_jumps (turned_by turn nodes.now targets.now) path.old node.now) }
{
    match turn {
        Turn::Same => push_early_jumps(alloc, targets, path, node, found),
        _ => {
            let inner = turned(alloc, turn, nodes, targets)?;
            push_early_jumps(alloc, &inner, path, node, found)
        }
    }
}
