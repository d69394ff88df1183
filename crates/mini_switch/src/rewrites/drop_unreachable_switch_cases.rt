//! Row 81: of a `switch` over a value that is known one case is left.
//! `switch (2) { case 1: a(); case 2: b(); case 3: c(); }` becomes
//! `switch (2) { case 2: b(); c(); }`, which is lighter in every place.

ghost use Rattle.std.specs.Prelude.{◌≡◌, ◌≤◌, ◌<◌, ◌&&◌, ◌||◌, true, false, not, is_some, unwrap_or, OnOk, IfOk, IfSome};
ghost use Rattle.mini_model.specs.Tree.{children, count, shape_of, is_absent as is_it_absent, node_count};
ghost use Rattle.mini_node.specs.Children.{part, trees_of, first_children, rest_children};
ghost use Rattle.mini_rows.specs.Cases as case;
ghost use Rattle.mini_rows.specs.DeadCases as dead;
ghost use Rattle.mini_rows.specs.Lists as list;
ghost use Rattle.mini_rows.specs.Loops as looping;
ghost use Rattle.mini_terms.specs.Values.{value as value_of, value_in};
ghost use Rattle.mini_switch.specs.DropUnreachableSwitchCases as row;
ghost use Rattle.mini_switch.specs.DropUnreachableSwitchCases.{written, choices_of};

use crate::rewrites::minimize_switch_statements::is_case;
use mini_held::takes_names_along;
use mini_model::{OutOfMemory, Shape, VariableDeclarationKind};
use mini_node::{
    Node, Nodes, discard, is_absent_part, is_listed, listed, of_one, of_two, taken, two,
};
use mini_stmt::{are_unscoped, declares_nothing, has_terminated, is_left_lighter, left_behind};
use mini_terms::{ConstantValue, given_value, has_no_effect, strictly_equal};
use std::alloc::Global;

// What a discriminant gives where it gives a value, if that is known.
fn asked_value(alloc: Global, discriminant: &Node) -> Result<Option<ConstantValue>, OutOfMemory>
    ensures { IfOk result (λ v. value_in v ≡ dead.asked discriminant.now) }
{
    if declares_nothing(discriminant) {
        given_value(alloc, discriminant)
    } else {
        Ok(None)
    }
}

// The value of a test without an effect, if that is known.
fn tested_value(alloc: Global, test: &Node) -> Result<Option<ConstantValue>, OutOfMemory>
    ensures { IfOk result (λ v. value_in v ≡ dead.tested test.now) }
{
    if has_no_effect(test) {
        asked_value(alloc, test)
    } else {
        Ok(None)
    }
}

// Whether the value of a test is this one, where it is known.
fn verdict(alloc: Global, value: &ConstantValue, test: &Node) -> Result<Option<bool>, OutOfMemory>
    ensures { IfOk result (λ b. b ≡ row.verdict (value_of value.now) test.now) }
{
    match tested_value(alloc, test)? {
        Some(found) => Ok(Some(strictly_equal(value, &found))),
        None => Ok(None),
    }
}

// Whether each of the nodes is a case.
fn are_cases(nodes: &[Node]) -> bool
    ensures { result ≡ row.are_cases (trees_of nodes.now) }
{
    match nodes {
        [] => true,
        [first, rest @ ..] => is_case(first) && are_cases(rest),
    }
}

// Whether nothing in the cases is scoped.
#[tactic(auto, using(crate::proofs::DeadCases::two_parts, crate::proofs::DeadCases::rest_cases))]
fn are_loose(cases: &[Node]) -> bool
    requires { row.are_cases (trees_of cases.now) ≡ true }
    ensures { result ≡ dead.are_loose (choices_of (trees_of cases.now)) }
{
    match cases {
        [] => true,
        [first, rest @ ..] => are_unscoped(first.child(1).children()) && are_loose(rest),
    }
}

// How many cases there are.
#[tactic(auto, using(crate::proofs::DeadCases::counted))]
fn count_of(cases: &[Node]) -> usize
    ensures { result ≡ count (trees_of cases.now) }
{
    cases.len()
}

// How many cases there are from the first on whose test is the value; 0 where none is, and None
// where a test before isn't known.
#[tactic(auto, using(crate::proofs::DeadCases::two_parts, crate::proofs::DeadCases::rest_cases, crate::proofs::DeadCases::counted))]
fn selected(
    alloc: Global,
    value: &ConstantValue,
    cases: &[Node],
) -> Result<Option<usize>, OutOfMemory>
    requires { row.are_cases (trees_of cases.now) ≡ true }
    ensures kind { IfOk result (λ k. k ≡ row.selected (value_of value.now) (trees_of cases.now)) }
    ensures within { IfOk result (λ k. IfSome k (λ n. n ≤ count (trees_of cases.now))) }
{
    match cases {
        [] => Ok(Some(0)),
        [first, rest @ ..] => match verdict(alloc, value, first.child(0))? {
            Some(true) => Ok(Some(count_of(cases))),
            Some(false) => selected(alloc, value, rest),
            None => if is_absent_part(first.child(0)) {
                selected(alloc, value, rest)
            } else {
                Ok(None)
            },
        },
    }
}

// Whether `default` is among the cases.
#[tactic(auto, using(crate::proofs::DeadCases::two_parts, crate::proofs::DeadCases::rest_cases))]
fn any_default(cases: &[Node]) -> bool
    requires { row.are_cases (trees_of cases.now) ≡ true }
    ensures { result ≡ row.any_default (trees_of cases.now) }
{
    match cases {
        [] => false,
        [first, rest @ ..] => is_absent_part(first.child(0)) || any_default(rest),
    }
}

// Whether two `default`s are.
#[tactic(auto, using(crate::proofs::DeadCases::two_parts, crate::proofs::DeadCases::rest_cases))]
fn two_defaults(cases: &[Node]) -> bool
    requires { row.are_cases (trees_of cases.now) ≡ true }
    ensures { result ≡ row.two_defaults (trees_of cases.now) }
{
    match cases {
        [] => false,
        [first, rest @ ..] => if is_absent_part(first.child(0)) {
            any_default(rest)
        } else {
            two_defaults(rest)
        },
    }
}

// How many cases there are from the first `default` on; 0 where there is none.
#[tactic(auto, using(crate::proofs::DeadCases::two_parts, crate::proofs::DeadCases::rest_cases, crate::proofs::DeadCases::counted))]
fn default_left(cases: &[Node]) -> usize
    requires { row.are_cases (trees_of cases.now) ≡ true }
    ensures kind { result ≡ row.default_left (trees_of cases.now) }
    ensures within { result ≤ count (trees_of cases.now) }
{
    match cases {
        [] => 0,
        [first, rest @ ..] => if is_absent_part(first.child(0)) {
            cases.len()
        } else {
            default_left(rest)
        },
    }
}

// How many cases there are from the only `default` on; 0 where there is none, and None where there
// are two.
fn only_default(cases: &[Node]) -> Option<usize>
    requires { row.are_cases (trees_of cases.now) ≡ true }
    ensures kind { result ≡ row.only_default (trees_of cases.now) }
    ensures within { IfSome result (λ k. k ≤ count (trees_of cases.now)) }
{
    if two_defaults(cases) {
        None
    } else {
        Some(default_left(cases))
    }
}

// How many cases there are from the one on that is taken.
fn entry(alloc: Global, value: &ConstantValue, cases: &[Node]) -> Result<Option<usize>, OutOfMemory>
    requires { row.are_cases (trees_of cases.now) ≡ true }
    ensures kind { IfOk result (λ k. k ≡ row.entry (value_of value.now) (trees_of cases.now)) }
    ensures within { IfOk result (λ k. IfSome k (λ n. n ≤ count (trees_of cases.now))) }
{
    match selected(alloc, value, cases)? {
        Some(0) => Ok(only_default(cases)),
        found => Ok(found),
    }
}

// A function, or a static block.
fn is_body(shape: &Shape) -> bool
    ensures { result ≡ looping.is_body_shape shape.now }
{
    matches!(
        shape,
        Shape::Function(_, _, _) | Shape::ArrowFunctionExpression(_) | Shape::StaticBlock
    )
}

fn is_var(shape: &Shape) -> bool
    ensures { result ≡ list.is_var_shape shape.now }
{
    matches!(
        shape,
        Shape::VariableDeclaration(VariableDeclarationKind::Var)
    )
}

// Whether no `var` stands in the node, functions and static blocks aside.
#[cycle(hoisting)]
#[tactic(auto, using(crate::proofs::DeadCases::hoists_by, crate::proofs::Switches::below))]
fn hoists_nothing(node: &Node) -> bool
    ensures { result ≡ dead.hoists_nothing node.now }
{
    is_body(node.shape()) || (!is_var(node.shape()) && hoist_nothing(node.children()))
}

#[cycle(hoisting)]
fn hoist_nothing(nodes: &Nodes) -> bool
    ensures { result ≡ dead.hoist_nothing nodes.now }
{
    for at in 0..nodes.len() {
        if !hoists_nothing(nodes.child(at)) {
            return false;
        }
    }
    true
}

// `x`, or `x = a`, of a `var`.
fn binds_name(node: &Node) -> bool
    ensures { result ≡ row.binds_name node.now }
{
    matches!(node.shape(), Shape::VariableDeclarator)
        && node.is_bare(2)
        && matches!(node.child(0).shape(), Shape::BindingIdentifier)
        && node.child(0).is_named_leaf()
}

#[tactic(auto, using(crate::proofs::DeadCases::plain_is))]
fn are_plain_declarators(nodes: &[Node]) -> bool
    ensures { result ≡ dead.are_plain_declarators (trees_of nodes.now) }
{
    match nodes {
        [] => true,
        [first, rest @ ..] => binds_name(first) && are_plain_declarators(rest),
    }
}

fn some_plain(nodes: &[Node]) -> bool
    ensures { result ≡ row.some_plain (trees_of nodes.now) }
{
    match nodes {
        [] => false,
        [_, ..] => are_plain_declarators(nodes),
    }
}

// `var x = a, y;`
fn declares_names(node: &Node) -> bool
    ensures { result ≡ row.declares_names node.now }
{
    is_var(node.shape())
        && node.is_bare(1)
        && is_listed(node.child(0))
        && some_plain(node.child(0).parts())
}

// Whether no name is left behind of the statement, or those of a plain `var`.
#[tactic(auto, using(crate::proofs::DeadCases::names_are))]
fn leaves_names(node: &Node) -> bool
    ensures { result ≡ (dead.hoists_nothing node.now || dead.is_plain_var node.now) }
{
    hoists_nothing(node) || declares_names(node)
}

// Whether the names of `var`s in the statement weigh no more alone.
fn leaves_little(alloc: Global, node: &Node) -> Result<bool, OutOfMemory>
    ensures { IfOk result (λ little. little ≡ dead.leaves_little node.now) }
{
    if leaves_names(node) {
        Ok(true)
    } else {
        is_left_lighter(alloc, node)
    }
}

// Whether the statement takes along each name in it that can't be written, and nothing is left
// behind but names of `var`s.
fn goes(alloc: Global, statement: &Node) -> Result<bool, OutOfMemory>
    ensures { IfOk result (λ gone. gone ≡ (list.encloses false statement.now && dead.leaves_little statement.now)) }
{
    if takes_names_along(statement) {
        leaves_little(alloc, statement)
    } else {
        Ok(false)
    }
}

// Whether nothing is left behind of the statements but such names.
fn all_go(alloc: Global, statements: &[Node]) -> Result<bool, OutOfMemory>
    ensures { IfOk result (λ gone. gone ≡ dead.all_go (trees_of statements.now)) }
{
    match statements {
        [] => Ok(true),
        [first, rest @ ..] => if goes(alloc, first)? {
            all_go(alloc, rest)
        } else {
            Ok(false)
        },
    }
}

fn is_absent(node: &Node) -> bool
    ensures { result ≡ is_it_absent node.now }
{
    matches!(node.shape(), Shape::Absent)
}

// Whether nothing is left behind of the test.
fn test_goes(test: &Node) -> bool
    ensures { result ≡ dead.test_goes test.now }
{
    takes_names_along(test) && (is_absent(test) || declares_nothing(test))
}

// Whether nothing is left behind of the cases.
#[tactic(auto, using(crate::proofs::DeadCases::two_parts, crate::proofs::DeadCases::rest_cases))]
fn cases_go(alloc: Global, cases: &[Node]) -> Result<bool, OutOfMemory>
    requires { row.are_cases (trees_of cases.now) ≡ true }
    ensures { IfOk result (λ gone. gone ≡ dead.cases_go (choices_of (trees_of cases.now))) }
{
    match cases {
        [] => Ok(true),
        [first, rest @ ..] => if !test_goes(first.child(0)) {
            Ok(false)
        } else if all_go(alloc, first.child(1).parts())? {
            cases_go(alloc, rest)
        } else {
            Ok(false)
        },
    }
}

// Whether nothing is left behind of the cases after some statements but statements that run after
// these.
#[tactic(auto, using(crate::proofs::DeadCases::two_parts, crate::proofs::DeadCases::rest_cases))]
fn rest_goes(alloc: Global, statements: &Nodes, cases: &[Node]) -> Result<bool, OutOfMemory>
    requires { row.are_cases (trees_of cases.now) ≡ true }
    ensures { IfOk result (λ gone. gone ≡ dead.rest_goes statements.now (choices_of (trees_of cases.now))) }
{
    match cases {
        [] => Ok(true),
        [first, rest @ ..] => if has_terminated(statements) {
            cases_go(alloc, cases)
        } else if test_goes(first.child(0)) {
            rest_goes(alloc, first.child(1).children(), rest)
        } else {
            Ok(false)
        },
    }
}

#[tactic(auto, using(crate::proofs::DeadCases::two_parts, crate::proofs::DeadCases::rest_cases))]
fn later_go(alloc: Global, cases: &[Node]) -> Result<bool, OutOfMemory>
    requires { row.are_cases (trees_of cases.now) ≡ true }
    ensures { IfOk result (λ gone. gone ≡ row.later_go (choices_of (trees_of cases.now))) }
{
    match cases {
        [] => Ok(true),
        [first, rest @ ..] => rest_goes(alloc, first.child(1).children(), rest),
    }
}

// Whether nothing is left behind of the cases around the one at a place but statements that run
// after its own.
#[tactic(auto, using(crate::proofs::DeadCases::first_window, crate::proofs::DeadCases::last_window, crate::proofs::DeadCases::first_cases, crate::proofs::DeadCases::last_cases))]
fn others_go(alloc: Global, cases: &Nodes, at: usize) -> Result<bool, OutOfMemory>
    requires shaped { row.are_cases cases.now ≡ true }
    requires within { at ≤ count cases.now }
    ensures { IfOk result (λ gone. gone ≡ row.others_go at cases.now) }
{
    if cases_go(alloc, cases.window(0, at))? {
        later_go(alloc, cases.window(at, cases.len() - at))
    } else {
        Ok(false)
    }
}

// The place of the case that is left of some cases.
fn place_in(
    alloc: Global,
    value: &ConstantValue,
    cases: &Nodes,
) -> Result<Option<usize>, OutOfMemory>
    requires { row.are_cases cases.now ≡ true }
    ensures kind { IfOk result (λ place. place ≡ row.place_by cases.now (row.entry (value_of value.now) cases.now)) }
    ensures within { IfOk result (λ place. IfSome place (λ at. at ≤ count cases.now)) }
{
    match entry(alloc, value, cases.as_slice())? {
        Some(left) => {
            let at = cases.len() - left;
            let gone = others_go(alloc, cases, at)?;
            Ok(if gone { Some(at) } else { None })
        }
        None => Ok(None),
    }
}

// `switch (a) { .. }`
fn holds_cases(node: &Node) -> bool
    ensures kind { result ≡ row.holds_cases node.now }
    ensures outer { result ≡ true → count (children node.now) ≡ 2 }
{
    match node.shape() {
        Shape::SwitchStatement => node.is_bare(2) && is_listed(node.child(1)),
        _ => false,
    }
}

// A `switch` of two cases or more, in which nothing is scoped.
fn is_read(node: &Node) -> bool
    ensures kind { result ≡ row.is_read node.now }
    ensures outer { result ≡ true → count (children node.now) ≡ 2 }
    ensures inner { result ≡ true → row.are_cases (children (part node.now 1)) ≡ true }
{
    holds_cases(node)
        && node.child(1).children().len() > 1
        && are_cases(node.child(1).parts())
        && are_loose(node.child(1).parts())
}

// The place of the case that is left, or how many there are where none is taken.
fn place(alloc: Global, node: &Node) -> Result<Option<usize>, OutOfMemory>
    ensures kind { IfOk result (λ place. place ≡ row.place node.now) }
    ensures within { IfOk result (λ place. IfSome place (λ at. at ≤ count (children (part node.now 1)))) }
{
    if !is_read(node) {
        return Ok(None);
    }
    match asked_value(alloc, node.child(0))? {
        Some(value) => place_in(alloc, &value, node.child(1).children()),
        None => Ok(None),
    }
}

// `case test: statements`
fn case_of(alloc: Global, test: Node, statements: Nodes) -> Result<Node, OutOfMemory>
    ensures { IfOk result (λ w. w ≡ case.switch_case test statements) }
{
    let parts = of_two(alloc, test, listed(statements))?;
    Ok(Node::new(Shape::SwitchCase, parts))
}

// The `var` names of the statements, each statement's in a `var` without initializers.
fn left_all(alloc: Global, statements: &[Node]) -> Result<Nodes, OutOfMemory>
    ensures { IfOk result (λ left. left ≡ dead.left_all (trees_of statements.now)) }
{
    match statements {
        [] => Ok(Nodes::new(alloc)),
        [first, rest @ ..] => {
            let mut left = left_behind(alloc, first)?;
            let mut others = left_all(alloc, rest)?;
            left.append(&mut others)?;
            Ok(left)
        }
    }
}

// Those of the cases.
#[tactic(auto, using(crate::proofs::DeadCases::names_none, crate::proofs::DeadCases::names_more, crate::proofs::DeadCases::some_node))]
fn left_cases(alloc: Global, mut cases: Nodes) -> Result<Nodes, OutOfMemory>
    ensures { IfOk result (λ left. left ≡ dead.left_cases (choices_of cases)) }
{
    if cases.is_empty() {
        return Ok(cases);
    }
    let (test, body) = two(cases.remove(0));
    discard(test);
    let mut left = left_all(alloc, body.parts())?;
    discard(body);
    let mut others = left_cases(alloc, cases)?;
    left.append(&mut others)?;
    Ok(left)
}

// The statements that run: these, and those of the cases after them, up to the first list that ends
// in a jump; of the cases after that the names.
#[tactic(auto, using(crate::proofs::DeadCases::runs_alone, crate::proofs::DeadCases::runs_ended, crate::proofs::DeadCases::runs_on, crate::proofs::DeadCases::some_node))]
fn running(alloc: Global, mut statements: Nodes, mut cases: Nodes) -> Result<Nodes, OutOfMemory>
    ensures { IfOk result (λ r. r ≡ dead.running statements (choices_of cases)) }
{
    if cases.is_empty() {
        return Ok(statements);
    }
    if has_terminated(&statements) {
        let mut left = left_cases(alloc, cases)?;
        statements.append(&mut left)?;
        return Ok(statements);
    }
    let (test, body) = two(cases.remove(0));
    discard(test);
    let mut others = running(alloc, body.into_children(), cases)?;
    statements.append(&mut others)?;
    Ok(statements)
}

// The first case, with the names of all in the place of its statements.
#[tactic(auto, using(crate::proofs::DeadCases::emptied_is))]
fn emptied(alloc: Global, mut cases: Nodes) -> Result<Node, OutOfMemory>
    requires { 0 < count cases }
    ensures { IfOk result (λ w. w ≡ row.left_at (count cases) cases) }
{
    let (test, body) = two(cases.remove(0));
    let mut left = left_all(alloc, body.parts())?;
    discard(body);
    let mut others = left_cases(alloc, cases)?;
    left.append(&mut others)?;
    case_of(alloc, test, left)
}

// The case at a place, with the statements that run, behind the names of the cases before it.
#[tactic(auto, using(crate::proofs::DeadCases::entered_is, crate::proofs::DeadCases::rest_there))]
fn entered(alloc: Global, mut cases: Nodes, at: usize) -> Result<Node, OutOfMemory>
    requires { at < count cases }
    ensures { IfOk result (λ w. w ≡ row.left_at at cases) }
{
    let mut later = cases.split_off(at)?;
    let (test, body) = two(later.remove(0));
    let mut statements = running(alloc, body.into_children(), later)?;
    let mut left = left_cases(alloc, cases)?;
    left.append(&mut statements)?;
    case_of(alloc, test, left)
}

fn left_at(alloc: Global, cases: Nodes, at: usize) -> Result<Node, OutOfMemory>
    requires some { 0 < count cases }
    requires within { at ≤ count cases }
    ensures { IfOk result (λ w. w ≡ row.left_at at cases) }
{
    if at < cases.len() {
        entered(alloc, cases, at)
    } else {
        emptied(alloc, cases)
    }
}

fn dropped_at(alloc: Global, node: Node, at: usize) -> Result<Node, OutOfMemory>
    requires some { 0 < count (children (part node 1)) }
    requires within { at ≤ count (children (part node 1)) }
    ensures { IfOk result (λ w. w ≡ row.dropped_at node at) }
{
    let (discriminant, cases) = two(node);
    let left = left_at(alloc, cases.into_children(), at)?;
    let cases = of_one(alloc, left)?;
    let parts = of_two(alloc, discriminant, listed(cases))?;
    Ok(Node::new(Shape::SwitchStatement, parts))
}

/// Of a `switch` over a value that is known one case is left, with the statements that run. The
/// answer says whether others went; the only error is that memory runs out.
pub fn drop_unreachable_switch_cases(alloc: Global, node: &mut Node) -> Result<bool, OutOfMemory>
    ensures tree { OnOk result (node.new ≡ unwrap_or (written node.old) node.old) }
    ensures said { IfOk result (λ changed. changed ≡ is_some (written node.old)) }
{
    match place(alloc, node)? {
        Some(at) => {
            *node = dropped_at(alloc, taken(alloc, node), at)?;
            Ok(true)
        }
        None => Ok(false),
    }
}
