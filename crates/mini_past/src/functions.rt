//! Of a function, of an arrow function, of a module and of a static block.

ghost use Rattle.std.specs.Prelude.{◌≡◌};
ghost use Rattle.mini_past.specs.SubstitutePast.{AppliedPast, AppliedPastArrow, AppliedPastModule, AppliedPastStatic};

use crate::names::PastNames;
use crate::searching::substitute_past;
use mini_inside::{has_statements, is_function, is_module, is_static_block};
use mini_node::Node;
use mini_unused::{put_child, take_child};
use std::alloc::Global;

/// In a function with statements that is no arrow function, wherever it stands, row 71 past steady
/// names is made: `function f(g) { let x = a(); return g(x); }` becomes
/// `function f(g) { ; return g(a()); }`. The answer says whether a name went.
#[tactic(auto, using(crate::proofs::Holders::same_parts, crate::proofs::Holders::part_twice))]
pub fn substitute_past_in_function<S: PastNames>(alloc: Global, node: &mut Node, steady: &S) -> bool
    ensures { AppliedPast (S.sets steady.now) (S.lets steady.now) node.old node.new result }
{
    if !is_function(node) {
        return false;
    }
    let number = node.number();
    let mut body = take_child(node, 2);
    let mut list = take_child(&mut body, 0);
    let changed = substitute_past(alloc, node, &mut list, number, steady);
    put_child(&mut body, 0, list);
    put_child(node, 2, body);
    changed
}

/// In an arrow function with statements row 71 past steady names is made:
/// `g => { let x = a(); return g(x); }` becomes `g => { ; return g(a()); }`. The answer says
/// whether a name went.
#[tactic(auto, using(crate::proofs::Holders::same_parts, crate::proofs::Holders::part_twice))]
pub fn substitute_past_in_arrow<S: PastNames>(alloc: Global, node: &mut Node, steady: &S) -> bool
    ensures { AppliedPastArrow (S.sets steady.now) (S.lets steady.now) node.old node.new result }
{
    if !has_statements(node) {
        return false;
    }
    let number = node.number();
    let mut body = take_child(node, 1);
    let mut list = take_child(&mut body, 0);
    let changed = substitute_past(alloc, node, &mut list, number, steady);
    put_child(&mut body, 0, list);
    put_child(node, 1, body);
    changed
}

/// In a module row 71 past steady names is made:
/// `import g from "g"; const y = a(); const x = b(); c(y, x);` becomes
/// `import g from "g"; const y = a(); ; c(y, b());`. The answer says whether a name went.
#[tactic(auto, using(crate::proofs::Holders::same_parts, crate::proofs::Holders::part_twice))]
pub fn substitute_past_in_module<S: PastNames>(alloc: Global, node: &mut Node, steady: &S) -> bool
    ensures { AppliedPastModule (S.sets steady.now) (S.lets steady.now) node.old node.new result }
{
    if !is_module(node) {
        return false;
    }
    let mut list = take_child(node, 0);
    let changed = substitute_past(alloc, node, &mut list, 0, steady);
    put_child(node, 0, list);
    changed
}

/// In a static block row 71 past steady names is made:
/// `class A { static { const y = a(), x = b(); c(y, x); } }` becomes
/// `class A { static { const y = a(); c(y, b()); } }`. The answer says whether a name went.
#[tactic(auto, using(crate::proofs::Holders::same_parts, crate::proofs::Holders::part_twice))]
pub fn substitute_past_in_static<S: PastNames>(alloc: Global, node: &mut Node, steady: &S) -> bool
    ensures { AppliedPastStatic (S.sets steady.now) (S.lets steady.now) node.old node.new result }
{
    if !is_static_block(node) {
        return false;
    }
    let number = node.number();
    let mut list = take_child(node, 0);
    let changed = substitute_past(alloc, node, &mut list, number, steady);
    put_child(node, 0, list);
    changed
}
