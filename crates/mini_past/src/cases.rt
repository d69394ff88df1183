//! Of the statements of a case of a switch: of `switch (a) { case 1: const x = b(); return g(x); }`
//! they become `; return g(b());`.

ghost use Rattle.std.specs.Prelude.{◌≡◌, ◌<◌, true};
ghost use Rattle.mini_model.specs.Tree.{children, count};
ghost use Rattle.mini_node.specs.Children.{part};
ghost use Rattle.mini_steady.specs.Declarations.{known_of};
ghost use Rattle.mini_unused.specs.Allowed.{switches_of};
ghost use Rattle.mini_inside.specs.Holding as row;
ghost use Rattle.mini_past.specs.PastInBlocks.{AppliedPastCase, AppliedPastCases};

use crate::code_names::CodeNames;
use crate::searching::substitute_past;
use mini_inside::{is_case_at, put_statements, take_statements};
use mini_node::Node;
use mini_steady::{BodyCode, SteadyNames};
use std::alloc::Global;

// Of a switch in the code of a body, of the case at the index. All else in the switch stands
// outside of its statements.
fn substitute_past_in_case<S: SteadyNames>(
    alloc: Global,
    node: &mut Node,
    at: usize,
    body: &BodyCode,
    steady: &S,
) -> bool
    requires switch { row.is_switch node.old ≡ true }
    requires cases { 1 < count (children node.old) }
    requires case { at < count (children (part node.old 1)) }
    ensures { AppliedPastCase (switches_of (S.orders steady.now)) (known_of (S.sets steady.now) body.now) node.old at node.new result }
{
    if !is_case_at(node, at) {
        return false;
    }
    let names = CodeNames {
        names: steady,
        code: body,
    };
    let mut list = take_statements(node, at);
    let changed = substitute_past(alloc, node, &mut list, body.number, &names);
    put_statements(node, at, list);
    changed
}

/// Of the first case of a `switch`, from the index on, in whose statements row 71 past steady names
/// finds a name, that name goes. The answer says whether there was one.
pub fn substitute_past_in_cases<S: SteadyNames>(
    alloc: Global,
    node: &mut Node,
    from: usize,
    body: &BodyCode,
    steady: &S,
) -> bool
    requires switch { row.is_switch node.old ≡ true }
    requires cases { 1 < count (children node.old) }
    ensures { AppliedPastCases (switches_of (S.orders steady.now)) (known_of (S.sets steady.now) body.now) node.old from node.new result }
{
    if from >= node.child(1).children().len() {
        return false;
    }
    if substitute_past_in_case(alloc, node, from, body, steady) {
        return true;
    }
    substitute_past_in_cases(alloc, node, from + 1, body, steady)
}
