//! Row 62: `f(function g() { return 1; })` becomes `f(function () { return 1; })`, and
//! `f(class C {})` becomes `f(class {})`, where nothing in the function or class has the name's
//! spelling or its symbol, no direct eval stands there, and the options let such names go. It is
//! lighter in every place.

ghost use Rattle.std.specs.Prelude.{◌≡◌, ◌<◌, true};
ghost use Rattle.mini_model.specs.declared.place.Position.TheVariants.{Expr};
ghost use Rattle.mini_model.specs.declared.seat.Seat.{Seat};
ghost use Rattle.mini_model.specs.Tree.{shape_of, children, count};
ghost use Rattle.mini_node.specs.Children.{names};
ghost use Rattle.mini_rows.specs.Switches.{let_go};
ghost use Rattle.mini_unused.specs.Lighter.{name_is_lighter};
ghost use Rattle.mini_unused.specs.RemoveUnusedName as row;
ghost use Rattle.mini_unused.specs.RemoveUnusedName.{switches_of, Applied, Gives, RestsUnder};

use crate::declarations::{is_resolved_binding, take_child};
use crate::evals::any_has_eval;
use crate::mentions::is_mentioned_from;
use mini_model::{Name, OutOfMemory, Position, Shape};
use mini_node::{Node, Nodes, discard, is_absent_part};
use mini_tree::{CompressOptions, Context, Rule};
use std::alloc::Global;

// A function expression or a class expression, whose name the options let go.
fn may_lose_name(shape: &Shape, options: CompressOptions) -> bool
    ensures { result ≡ let_go (switches_of options) shape.now }
{
    match shape {
        Shape::Function(is_declaration, _, _) => !*is_declaration && !options.keep_names.function,
        Shape::Class(is_declaration) => !*is_declaration && !options.keep_names.class,
        _ => false,
    }
}

fn is_nameless(name: &Option<Name>) -> bool
    ensures { result ≡ row.is_nameless (names name.now) }
{
    name.is_none()
}

// It has the children of a function or of a class that holds its name once.
fn has_its_parts(node: &Node) -> bool
    ensures kind { result ≡ row.has_its_parts (shape_of node.now) (children node.now) }
    ensures parts { result ≡ true → 0 < count (children node.now) }
{
    match node.shape() {
        Shape::Function(_, _, _) => node.children().len() == 3,
        Shape::Class(_) => node.children().len() == 4 && is_absent_part(node.child(3)),
        _ => false,
    }
}

// Nothing after the name mentions it, and no direct eval stands there, which would see it.
fn is_unseen(name: &Option<Name>, children: &Nodes) -> bool
    ensures { result ≡ row.is_unseen (names name.now) children.now }
{
    match name {
        Some(name) => !is_mentioned_from(name, children, 1) && !any_has_eval(children, 1),
        None => false,
    }
}

fn loses_name(node: &Node, options: CompressOptions) -> bool
    ensures kind { result ≡ row.loses_it (switches_of options) node.now }
    ensures parts { result ≡ true → 0 < count (children node.now) }
{
    may_lose_name(node.shape(), options)
        && is_nameless(node.name())
        && has_its_parts(node)
        && is_resolved_binding(node.child(0))
        && is_unseen(node.child(0).name(), node.children())
}

/// A function or class expression loses its name where nothing in it mentions that and the options
/// let it go. The answer says whether it did.
pub fn remove_unused_name(node: &mut Node, options: CompressOptions) -> bool
    ensures { (s : Seat) → Applied (switches_of options) (Expr s) node.old node.new result }
{
    if !loses_name(node, options) {
        return false;
    }
    discard(take_child(node, 0));
    true
}

/// Row 62 as a rule: of each function expression and each class expression.
pub struct RemoveUnusedNames;

impl<C: Context> Rule<C> for RemoveUnusedNames {
    ghost gives = { Gives };

    ghost rests = { RestsUnder };

    ghost lighter = { λ o q. name_is_lighter (switches_of o) };

    #[tactic(auto, using(crate::proofs::Nameless::elsewhere))]
    fn apply(
        &self,
        _alloc: Global,
        node: &mut Node,
        place: Position,
        context: &mut C,
    ) -> Result<bool, OutOfMemory> {
        match place {
            Position::Expr(_) => Ok(remove_unused_name(node, context.options())),
            _ => Ok(false),
        }
    }
}
