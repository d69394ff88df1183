//! Row 71 past steady names of a `var` further inside a body:
//! `function f(g) { if (g) { var x = a(); return g(x); } }` becomes
//! `function f(g) { if (g) { ; return g(a()); } }`, and
//! `function f(g) { for (;;) var x = a(), y = g(x); }` becomes
//! `function f(g) { for (;;) var y = g(a()); }`.

ghost use Rattle.std.specs.Prelude.{◌≡◌, ◌||◌, ◌&&◌, not, true, IfOk};
ghost use Rattle.mini_laws.specs.Value.{Declared};
ghost use Rattle.mini_model.specs.Tree.{children};
ghost use Rattle.mini_node.specs.Children.{trees_of};
ghost use Rattle.mini_node.specs.Kinds.{is_listed as is_it_listed};
ghost use Rattle.mini_rows.specs.declared.inside.Way.TheVariants as way;
ghost use Rattle.mini_rows.specs.Past.{any_bind};
ghost use Rattle.mini_rows.specs.PastInside.{PastInside, past_ends};
ghost use Rattle.mini_inside.specs.Further.{HereWalked};
ghost use Rattle.mini_past.specs.PastEnds.{OneWalked, RestsPastInside, begun_below, holder_number as number_of_holder, known_at, nodes_below as below, past_ends_lighten, past_inside_steps_lighter};
ghost use Rattle.mini_past.specs.SubstitutePast.{PastRemoved};

use crate::names::{PastContext, PastNames};
use crate::searching::substitute_past;
use mini_inside::{EndRewrites, put_first, remove_inside, take_alone};
use mini_model::{OutOfMemory, Position, SymbolId};
use mini_node::{Node, is_listed};
use mini_rows::Way;
use mini_steady::{SteadyNames, are_bound_twice, is_any_bound, is_let_around};
use mini_tree::{CompressOptions, Rule};
use mini_unused::is_var;
use std::alloc::Global;

// The number of what holds the body, the first of some nodes.
fn holder_number(nodes: &[Node]) -> u32
    ensures { result ≡ number_of_holder (trees_of nodes.now) }
{
    match nodes {
        [first, ..] => first.number(),
        [] => 0,
    }
}

// Those that stand in it declare a name with the symbol before a place, and nothing else in them
// does.
fn is_begun_below(symbol: SymbolId, nodes: &[Node]) -> bool
    ensures { result ≡ begun_below symbol.0 (below (trees_of nodes.now)) }
{
    match nodes {
        [_, rest @ ..] => is_let_around(symbol, true, rest) && !are_bound_twice(symbol, rest),
        [] => false,
    }
}

// None of them does.
fn is_free_below(symbol: SymbolId, nodes: &[Node]) -> bool
    ensures { result ≡ not (any_bind symbol.0 (below (trees_of nodes.now))) }
{
    match nodes {
        [_, rest @ ..] => !is_any_bound(symbol, rest),
        [] => true,
    }
}

// What is known at the end of a way, by the nodes above it, of whichever body it is asked.
#[derive(Drop)]
struct NamesBelow<'a, S: PastNames> {
    names: &'a S,
    above: &'a Node,
}

impl<'a, S: PastNames> SteadyNames for NamesBelow<'a, S> {
    ghost sets = { λ c b. known_at (S.sets c.names.now) (children c.above.now) };

    fn is_steady(&self, symbol: SymbolId, body: u32) -> bool {
        self.names
            .is_steady(symbol, holder_number(self.above.parts()))
    }

    fn is_unshared(&self, symbol: SymbolId, body: u32) -> bool {
        self.names
            .is_unshared(symbol, holder_number(self.above.parts()))
    }

    fn is_initial(&self, symbol: SymbolId, body: u32) -> bool {
        let nodes = self.above.parts();
        is_begun_below(symbol, nodes)
            || self.names.is_initial(symbol, holder_number(nodes)) && is_free_below(symbol, nodes)
    }

    fn has_this(&self, body: u32) -> bool {
        self.names.has_this(holder_number(self.above.parts()))
    }

    ghost orders = { λ c. S.orders c.names.now };

    fn orders(&self) -> CompressOptions {
        self.names.orders()
    }
}

impl<'a, S: PastNames> PastNames for NamesBelow<'a, S> {
    ghost lets = { λ c. S.lets c.names.now };

    fn is_writable(&self, symbol: SymbolId) -> bool {
        self.names.is_writable(symbol)
    }

    fn lets_move(&self, init: &Node) -> bool {
        self.names.lets_move(init)
    }
}

// The names of a list of statements below some nodes.
fn substitute_past_in<S: PastNames>(
    alloc: Global,
    above: &Node,
    list: &mut Node,
    steady: &S,
) -> bool
    requires { is_it_listed list.old ≡ true }
    ensures { PastRemoved (known_at (S.sets steady.now) (children above.now)) (S.lets steady.now) above.now list.old list.new result }
{
    let names = NamesBelow {
        names: steady,
        above,
    };
    substitute_past(alloc, above, list, 0, &names)
}

// In a list of statements, below some nodes.
fn substitute_past_below<S: PastNames>(
    alloc: Global,
    above: &Node,
    list: &mut Node,
    steady: &S,
) -> bool
    requires { is_it_listed above.now ≡ true }
    ensures { HereWalked (past_ends (S.sets steady.now) (S.lets steady.now)) (children above.now) way.Statements list.old list.new result }
{
    if !is_listed(list) {
        return false;
    }
    if above.children().len() == 0 {
        return false;
    }
    substitute_past_in(alloc, above, list, steady)
}

// In a `var` in no list, or that a `for` begins with, which is read like a list of this one
// statement.
fn substitute_past_alone<S: PastNames>(
    alloc: Global,
    above: &Node,
    node: &mut Node,
    steady: &S,
) -> Result<bool, OutOfMemory>
    requires { is_it_listed above.now ≡ true }
    ensures { IfOk result (λ changed. OneWalked (S.sets steady.now) (S.lets steady.now) (children above.now) node.old node.new changed) }
{
    if !is_var(node) {
        return Ok(false);
    }
    if above.children().len() == 0 {
        return Ok(false);
    }
    let mut list = take_alone(alloc, node)?;
    let changed = substitute_past_in(alloc, above, &mut list, steady);
    put_first(node, list);
    Ok(changed)
}

/// Row 71 past steady names at the ends of ways further inside a body.
#[derive(Drop)]
pub struct PastEnds<'a, S: PastNames> {
    /// Which names are steady in each body, and which can be written.
    pub steady: &'a S,
}

impl<'a, S: PastNames> EndRewrites for PastEnds<'a, S> {
    ghost ends = { λ c. past_ends (S.sets c.steady.now) (S.lets c.steady.now) };

    #[tactic(auto, using(crate::proofs::Ends::no_past_end))]
    fn rewrite_end(
        &self,
        alloc: Global,
        above: &Node,
        way: Way,
        node: &mut Node,
    ) -> Result<bool, OutOfMemory> {
        match way {
            Way::Statements => Ok(substitute_past_below(alloc, above, node, self.steady)),
            Way::Held => substitute_past_alone(alloc, above, node, self.steady),
            Way::Head => substitute_past_alone(alloc, above, node, self.steady),
            _ => Ok(false),
        }
    }

    ghost lighter = { λ c. past_ends_lighten (S.sets c.steady.now) (S.lets c.steady.now) };
}

/// Row 71 past steady names of a `var` further inside as a rule: of each function with statements,
/// of each static block, and of a module. Its context says what is known of each body, which names
/// can be written, and which initializers may move.
pub struct SubstitutePastInside;

impl<C: PastContext> Rule<C> for SubstitutePastInside {
    ghost gives = { λ o q. PastInside (C.steady q) (C.lets_in o q) };

    ghost rests = { λ o q. RestsPastInside (C.steady q) (C.lets_in o q) };

    ghost lighter = { λ o q. past_inside_steps_lighter (C.steady q) (C.lets_in o q) };

    fn apply(
        &self,
        alloc: Global,
        node: &mut Node,
        place: Position,
        context: &mut C,
    ) -> Result<bool, OutOfMemory> {
        let ends = PastEnds { steady: &*context };
        remove_inside(alloc, node, place, &ends)
    }
}
