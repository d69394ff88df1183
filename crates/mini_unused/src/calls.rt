//! Calls for one name: of a function or a class (62), of a declarator (72), and of neighbours in
//! one declaration (71).

ghost use Rattle.std.specs.Prelude.{◌≡◌, ◌+◌, ◌<◌, ◌^◌, true, false};
ghost use Rattle.mini_model.specs.declared.place.Position.TheVariants.{Expr};
ghost use Rattle.mini_model.specs.declared.seat.Seat.{Seat};
ghost use Rattle.mini_model.specs.Tree.{children, count, shape_of};
ghost use Rattle.mini_node.specs.Children.{part};
ghost use Rattle.mini_node.specs.Kinds.{is_listed as is_it_listed};
ghost use Rattle.mini_unused.specs.Calls as row;
ghost use Rattle.mini_unused.specs.RemoveUnusedDeclaration.{list_at, allowed, open_in};
ghost use Rattle.mini_unused.specs.RemoveUnusedName.{switches_of, Applied};

use crate::declarations::{declares_name, is_alone, is_lexical, may_declare, may_lose};
use crate::declares::declares_nothing;
use crate::evals::either_has_eval;
use crate::names::remove_unused_name;
use crate::next_uses::{next_at, substitute_next};
use mini_context::TraverseCtx;
use mini_model::Shape;
use mini_node::{Node, Nodes, is_absent_part};
use mini_tree::CompressOptions;

fn is_function(shape: &Shape) -> bool
    ensures { result ≡ row.is_function shape.now }
{
    matches!(shape, Shape::Function(_, _, _))
}

fn is_class(shape: &Shape) -> bool
    ensures { result ≡ row.is_class shape.now }
{
    matches!(shape, Shape::Class(_))
}

/// `f(function g() {})` becomes `f(function () {})`, as by `remove_unused_name`. What is no
/// function stays. The answer says whether it did.
pub fn try_remove_name_from_functions(node: &mut Node, options: CompressOptions) -> bool
    ensures function { row.is_function (shape_of node.old) ≡ true → (s : Seat) → Applied (switches_of options) (Expr s) node.old node.new result }
    ensures other { row.is_function (shape_of node.old) ≡ false → (node.new ≡ node.old) × (result ≡ false) }
{
    if is_function(node.shape()) {
        remove_unused_name(node, options)
    } else {
        false
    }
}

/// `f(class C {})` becomes `f(class {})`, as by `remove_unused_name`. What is no class stays. The
/// answer says whether it did.
pub fn try_remove_name_from_classes(node: &mut Node, options: CompressOptions) -> bool
    ensures class { row.is_class (shape_of node.old) ≡ true → (s : Seat) → Applied (switches_of options) (Expr s) node.old node.new result }
    ensures other { row.is_class (shape_of node.old) ≡ false → (node.new ≡ node.old) × (result ≡ false) }
{
    if is_class(node.shape()) {
        remove_unused_name(node, options)
    } else {
        false
    }
}

fn may_go_alone(init: &Node) -> bool
    ensures { result ≡ row.may_go_alone init.now }
{
    is_absent_part(init) || declares_nothing(init)
}

// Whether nothing else mentions the name of the declarator at the place, and it may go.
fn goes_alone(
    is_free: bool,
    list: &Node,
    which: usize,
    outside: &Node,
    statements: &Nodes,
    at: usize,
    context: &TraverseCtx,
) -> bool
    requires declarator { which < count (children list.now) }
    requires statement { at < count statements.now }
    requires fits { which + 1 < 2 ^ 64 }
    requires fits_too { at + 1 < 2 ^ 64 }
    ensures { result ≡ row.goes_alone is_free (open_in outside.now (allowed context.now)) list.now which outside.now statements.now at }
{
    let declarator = list.child(which);
    declares_name(declarator)
        && may_lose(is_free, declarator.child(0).name(), outside, context)
        && may_go_alone(declarator.child(1))
        && is_alone(
            declarator.child(0).name(),
            outside,
            declarator.child(1),
            list.children(),
            which,
            statements,
            at,
        )
}

/// Whether 72 would take the declarator at the second place of the declaration at the first, in a
/// list of statements with what stands outside of them, if it stood in a declaration of its own: of
/// `let x = a(), y = b(); c(y);` it would take `x = a()`, which leaves `a();`. Where a list stands
/// outside of them, as that of the nodes above a list further inside a body, it takes those of
/// `var`s alone.
pub fn should_remove_unused_declarator(
    outside: &Node,
    list: &Node,
    at: usize,
    which: usize,
    context: &TraverseCtx,
) -> bool
    requires statement { at < count (children list.now) }
    requires declarator { which < count (children (list_at (children list.now) at)) }
    requires fits { which + 1 < 2 ^ 64 }
    requires fits_too { at + 1 < 2 ^ 64 }
    ensures { result ≡ row.should_go (open_in outside.now (allowed context.now)) outside.now list.now at which }
{
    let statement = list.child(at);
    if !may_declare(outside, statement) {
        return false;
    }
    let is_free = is_lexical(statement.shape());
    let declarators = statement.child(0);
    goes_alone(
        is_free,
        declarators,
        which,
        outside,
        list.children(),
        at,
        context,
    ) && !either_has_eval(outside, list)
}

/// Of a list of statements with what stands outside of them, `let x = a(), y = x.b;` becomes
/// `let y = a().b;`, for the first such name; where a list stands outside, of a `var` alone. The
/// answer says whether there was one.
pub fn substitute_within(outside: &Node, list: &mut Node, context: &TraverseCtx) -> bool
    requires { is_it_listed list.old ≡ true }
    ensures { row.Within (open_in outside.now (allowed context.now)) outside.now list.old list.new result }
{
    match next_at(outside, list.children(), context) {
        Some((at, which)) => {
            if either_has_eval(outside, list) {
                return false;
            }
            substitute_next(list, at, which);
            true
        }
        None => false,
    }
}
