//! What may be evaluated before an initializer, whatever that does: constants, names that are
//! steady and initialised, and `this`; and what is assigned to and what stands in a list, by such
//! parts.

ghost use Rattle.std.specs.Prelude.{◌≡◌, ◌<◌, ◌&&◌, IfSome};
ghost use Rattle.mini_model.specs.Tree.{count};
ghost use Rattle.mini_laws.specs.Value.{Declared};
ghost use Rattle.mini_node.specs.Children.{names as names_in, part};
ghost use Rattle.mini_rows.specs.Past as reading;
ghost use Rattle.mini_rows.specs.Unused.{is_field as it_is_field};
ghost use Rattle.mini_past.specs.LetPlaces.{Told};
ghost use Rattle.mini_past.specs.SubstitutePast.{held_at};

use crate::let_places::{LetPlaces, is_bound_in, is_let_by};
use mini_model::{AssignmentOperator, Name, Shape, SymbolId};
use mini_node::{Node, Nodes, is_identifier};
use mini_rows::Gathered;
use mini_steady::{SteadyNames, binds, is_this, writes};
use mini_terms::{is_effect_free, is_primitive, kind_of};
use mini_unused::{is_constant, is_field, is_member, is_plain_assignment, is_word};

// The initializer neither declares nor writes it.
fn leaves(init: &Node, name: &Name, symbol: SymbolId) -> bool
    ensures { result ≡ reading.leaves init.now name.now symbol.0 }
{
    !binds(symbol, init) && !writes(name, init)
}

// It keeps the value that it has where the declarator stands.
fn is_held_variable<S: SteadyNames>(
    symbol: SymbolId,
    statements: &Nodes,
    at: usize,
    declarators: &Nodes,
    which: usize,
    body: u32,
    steady: &S,
    lets: &Option<LetPlaces>,
) -> bool
    requires statement { at < count statements.now }
    requires declarator { which < count declarators.now }
    requires told { IfSome lets.now (λ m. Told m statements.now at declarators.now which) }
    ensures { result ≡ (held_at (S.sets steady.now body) statements.now at declarators.now which).variables (Declared symbol.0) }
{
    steady.is_steady(symbol, body)
        && ((steady.is_initial(symbol, body) && !is_bound_in(symbol, statements, lets))
            || is_let_by(symbol, statements, at, declarators, which, lets))
}

// The initializer leaves the variable of this name as it is, and that keeps the value that it has
// where the declarator stands.
fn is_held_symbol<S: SteadyNames>(
    name: &Name,
    init: &Node,
    statements: &Nodes,
    at: usize,
    declarators: &Nodes,
    which: usize,
    body: u32,
    steady: &S,
    lets: &Option<LetPlaces>,
) -> bool
    requires statement { at < count statements.now }
    requires declarator { which < count declarators.now }
    requires told { IfSome lets.now (λ m. Told m statements.now at declarators.now which) }
    ensures { result ≡ reading.is_held_symbol (held_at (S.sets steady.now body) statements.now at declarators.now which).variables init.now name.now name.now.symbol }
{
    match name.symbol {
        Some(symbol) => {
            is_held_variable(
                symbol,
                statements,
                at,
                declarators,
                which,
                body,
                steady,
                lets,
            ) && leaves(init, name, symbol)
        }
        None => false,
    }
}

fn is_held_name<S: SteadyNames>(
    name: &Option<Name>,
    init: &Node,
    statements: &Nodes,
    at: usize,
    declarators: &Nodes,
    which: usize,
    body: u32,
    steady: &S,
    lets: &Option<LetPlaces>,
) -> bool
    requires statement { at < count statements.now }
    requires declarator { which < count declarators.now }
    requires told { IfSome lets.now (λ m. Told m statements.now at declarators.now which) }
    ensures { result ≡ reading.is_held_name (held_at (S.sets steady.now body) statements.now at declarators.now which).variables init.now (names_in name.now) }
{
    match name {
        Some(name) => is_held_symbol(
            name,
            init,
            statements,
            at,
            declarators,
            which,
            body,
            steady,
            lets,
        ),
        None => false,
    }
}

// It is the name of such a variable, or `this` where the body doesn't ask the world for it.
fn keeps_value<S: SteadyNames>(
    init: &Node,
    node: &Node,
    statements: &Nodes,
    at: usize,
    declarators: &Nodes,
    which: usize,
    body: u32,
    steady: &S,
    lets: &Option<LetPlaces>,
) -> bool
    requires statement { at < count statements.now }
    requires declarator { which < count declarators.now }
    requires told { IfSome lets.now (λ m. Told m statements.now at declarators.now which) }
    ensures { result ≡ reading.keeps_value (held_at (S.sets steady.now body) statements.now at declarators.now which) init.now node.now }
{
    (is_identifier(node)
        && is_held_name(
            node.name(),
            init,
            statements,
            at,
            declarators,
            which,
            body,
            steady,
            lets,
        ))
        || (steady.has_this(body) && is_this(node))
}

// It may be evaluated before the initializer.
fn passes_any<S: SteadyNames>(
    init: &Node,
    node: &Node,
    statements: &Nodes,
    at: usize,
    declarators: &Nodes,
    which: usize,
    body: u32,
    steady: &S,
    lets: &Option<LetPlaces>,
) -> bool
    requires statement { at < count statements.now }
    requires declarator { which < count declarators.now }
    requires told { IfSome lets.now (λ m. Told m statements.now at declarators.now which) }
    ensures { result ≡ reading.passes_any (held_at (S.sets steady.now body) statements.now at declarators.now which) init.now node.now }
{
    is_constant(node)
        || keeps_value(
            init,
            node,
            statements,
            at,
            declarators,
            which,
            body,
            steady,
            lets,
        )
}

// The key of a member may be evaluated before the initializer.
fn passes_any_word<S: SteadyNames>(
    init: &Node,
    node: &Node,
    statements: &Nodes,
    at: usize,
    declarators: &Nodes,
    which: usize,
    body: u32,
    steady: &S,
    lets: &Option<LetPlaces>,
) -> bool
    requires statement { at < count statements.now }
    requires declarator { which < count declarators.now }
    requires told { IfSome lets.now (λ m. Told m statements.now at declarators.now which) }
    ensures { result ≡ reading.passes_any_word (held_at (S.sets steady.now body) statements.now at declarators.now which) init.now node.now }
{
    is_word(node.shape())
        || passes_any(
            init,
            node,
            statements,
            at,
            declarators,
            which,
            body,
            steady,
            lets,
        )
}

// A member that is assigned to may be evaluated before the initializer: its object and its key may.
fn passes_any_member<S: SteadyNames>(
    init: &Node,
    node: &Node,
    statements: &Nodes,
    at: usize,
    declarators: &Nodes,
    which: usize,
    body: u32,
    steady: &S,
    lets: &Option<LetPlaces>,
) -> bool
    requires statement { at < count statements.now }
    requires declarator { which < count declarators.now }
    requires told { IfSome lets.now (λ m. Told m statements.now at declarators.now which) }
    ensures { result ≡ reading.passes_any_member (held_at (S.sets steady.now body) statements.now at declarators.now which) init.now node.now }
{
    is_member(node)
        && (passes_any(
            init,
            node.child(0),
            statements,
            at,
            declarators,
            which,
            body,
            steady,
            lets,
        ) && passes_any_word(
            init,
            node.child(1),
            statements,
            at,
            declarators,
            which,
            body,
            steady,
            lets,
        ))
}

// What `=` assigns to may be evaluated before the initializer: a member of which that is so, or a
// name, of which nothing is evaluated before the right side.
fn passes_any_target<S: SteadyNames>(
    init: &Node,
    operator: &AssignmentOperator,
    node: &Node,
    statements: &Nodes,
    at: usize,
    declarators: &Nodes,
    which: usize,
    body: u32,
    steady: &S,
    lets: &Option<LetPlaces>,
) -> bool
    requires statement { at < count statements.now }
    requires declarator { which < count declarators.now }
    requires told { IfSome lets.now (λ m. Told m statements.now at declarators.now which) }
    ensures { result ≡ reading.passes_any_target (held_at (S.sets steady.now body) statements.now at declarators.now which) init.now operator.now node.now }
{
    is_plain_assignment(operator)
        && (passes_any_member(
            init,
            node,
            statements,
            at,
            declarators,
            which,
            body,
            steady,
            lets,
        ) || (is_identifier(node) && is_effect_free(node, true)))
}

// A property may be evaluated before the initializer, since its value may.
fn passes_any_field<S: SteadyNames>(
    init: &Node,
    node: &Node,
    statements: &Nodes,
    at: usize,
    declarators: &Nodes,
    which: usize,
    body: u32,
    steady: &S,
    lets: &Option<LetPlaces>,
) -> bool
    requires statement { at < count statements.now }
    requires declarator { which < count declarators.now }
    requires told { IfSome lets.now (λ m. Told m statements.now at declarators.now which) }
    ensures { result ≡ (it_is_field node.now && reading.passes_any (held_at (S.sets steady.now body) statements.now at declarators.now which) init.now (part node.now 1)) }
{
    is_field(node)
        && passes_any(
            init,
            node.child(1),
            statements,
            at,
            declarators,
            which,
            body,
            steady,
            lets,
        )
}

// An item of a list may be evaluated before the initializer, by what is gathered: where entries
// are, the value of a property; what is converted to a text has to be primitive.
#[tactic(auto, using(crate::proofs::PassedParts::values_pass_any))]
fn passes_any_item<S: SteadyNames>(
    gathered: Gathered,
    init: &Node,
    node: &Node,
    statements: &Nodes,
    at: usize,
    declarators: &Nodes,
    which: usize,
    body: u32,
    steady: &S,
    lets: &Option<LetPlaces>,
) -> bool
    requires statement { at < count statements.now }
    requires declarator { which < count declarators.now }
    requires told { IfSome lets.now (λ m. Told m statements.now at declarators.now which) }
    ensures { result ≡ reading.passes_any_item (held_at (S.sets steady.now body) statements.now at declarators.now which) gathered init.now node.now }
{
    let passes = passes_any(
        init,
        node,
        statements,
        at,
        declarators,
        which,
        body,
        steady,
        lets,
    );
    match gathered {
        Gathered::Texts => passes && is_primitive(kind_of(node)),
        Gathered::Values => passes,
        Gathered::Entries => {
            passes
                || passes_any_field(
                    init,
                    node,
                    statements,
                    at,
                    declarators,
                    which,
                    body,
                    steady,
                    lets,
                )
        }
    }
}

/// Whether the initializer may go past what stands before the read in a node of this shape.
pub fn passes_any_at<S: SteadyNames>(
    gathered: Gathered,
    init: &Node,
    shape: &Shape,
    node: &Node,
    statements: &Nodes,
    at: usize,
    declarators: &Nodes,
    which: usize,
    body: u32,
    steady: &S,
    lets: &Option<LetPlaces>,
) -> bool
    requires statement { at < count statements.now }
    requires declarator { which < count declarators.now }
    requires told { IfSome lets.now (λ m. Told m statements.now at declarators.now which) }
    ensures { result ≡ reading.passes_any_at (held_at (S.sets steady.now body) statements.now at declarators.now which) gathered init.now shape.now node.now }
{
    match shape {
        Shape::AssignmentExpression(operator) => passes_any_target(
            init,
            operator,
            node,
            statements,
            at,
            declarators,
            which,
            body,
            steady,
            lets,
        ),
        Shape::ObjectProperty(_, _, _, is_computed) => !*is_computed && is_word(node.shape()),
        Shape::Listed => passes_any_item(
            gathered,
            init,
            node,
            statements,
            at,
            declarators,
            which,
            body,
            steady,
            lets,
        ),
        Shape::TemplateLiteral => true,
        _ => passes_any(
            init,
            node,
            statements,
            at,
            declarators,
            which,
            body,
            steady,
            lets,
        ),
    }
}
