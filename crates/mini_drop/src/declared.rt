//! The symbols that anything but an item declares.

ghost use Rattle.std.specs.Prelude.{◌≡◌, ◌≤◌};
ghost use Rattle.mini_model.specs.Tree.{count};
ghost use Rattle.mini_node.specs.Children.{names, rest_children};
ghost use Rattle.mini_dead.specs.Dead.{declares, declares_otherwise, declares_inside, any_declares_otherwise};
ghost use Rattle.mini_drop.specs.Asked.{role_in, spot_in};
ghost use Rattle.mini_drop.specs.Symbols.{Adds, any_has, part_declares};

use crate::items::is_item;
use crate::place::{Role, Spot, role_of, spot_below};
use mini_context::mark_symbol;
use mini_model::{Name, Shape};
use mini_node::{Node, Nodes};

fn mark_name(marks: &mut Vec<bool>, name: &Option<Name>)
    ensures { Adds (any_has (names name.now)) marks.old.items marks.new.items }
{
    if let Some(name) = name {
        if let Some(symbol) = name.symbol {
            mark_symbol(marks, symbol);
        }
    }
}

// The name of a node, which an identifier doesn't declare.
fn mark_own(marks: &mut Vec<bool>, shape: &Shape, name: &Option<Name>)
    ensures { Adds (λ s. declares s shape.now (names name.now)) marks.old.items marks.new.items }
{
    match shape {
        Shape::Identifier => {}
        _ => mark_name(marks, name),
    }
}

/// Marks the symbols that a node declares which stands there, but for the names of items in it.
#[cycle(declared)]
pub fn mark_declared(marks: &mut Vec<bool>, spot: Spot, node: &Node)
    ensures { Adds (λ s. declares_otherwise s (spot_in spot) node.now) marks.old.items marks.new.items }
{
    mark_own(marks, node.shape(), node.name());
    mark_below(marks, role_of(node.shape(), spot), node.children(), 0);
}

// The children from a place on.
#[cycle(declared)]
fn mark_below(marks: &mut Vec<bool>, role: Role, nodes: &Nodes, from: usize)
    ensures { Adds (λ s. any_declares_otherwise s (role_in role) from (rest_children from nodes.now)) marks.old.items marks.new.items }
{
    for at in from..nodes.len() {
        mark_part(marks, role, at, nodes.child(at));
    }
}

#[cycle(declared)]
fn mark_part(marks: &mut Vec<bool>, role: Role, at: usize, node: &Node)
    ensures { Adds (part_declares (role_in role) at node.now) marks.old.items marks.new.items }
{
    if is_item(role, node) {
        mark_inside(marks, node);
    } else {
        mark_declared(marks, spot_below(role, at), node);
    }
}

// An item, but for its name.
#[cycle(declared)]
fn mark_inside(marks: &mut Vec<bool>, node: &Node)
    ensures { Adds (λ s. declares_inside s node.now) marks.old.items marks.new.items }
{
    mark_own(marks, node.shape(), node.name());
    mark_below(marks, Role::Plain, node.children(), 1);
}
