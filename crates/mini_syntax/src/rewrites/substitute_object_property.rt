//! Rows 51 and 52 of object literals: of each property a key in brackets loses them, a text becomes
//! a name or a number, and `x: x` becomes `x`. Each is lighter in every seat.

ghost use Rattle.std.specs.Prelude.{◌≡◌, [], Some, true, false, OnOk, IfOk};
ghost use Rattle.mini_model.specs.Tree.{node, none, ◌▸◌, children, count};
ghost use Rattle.mini_node.specs.Children.{names, part};
ghost use Rattle.mini_node.specs.Kinds.{string as text_of};
ghost use Rattle.mini_rows.specs.SpellKeys.{is_proto as is_it_proto, property as property_of};
ghost use Rattle.mini_tree.specs.Rule.{Applied};
ghost use Rattle.mini_syntax.specs.ConvertToDottedProperties.{number_of_text};
ghost use Rattle.mini_syntax.specs.Lighter.{keys_lighter};
ghost use Rattle.mini_syntax.specs.SubstituteObjectProperty as row;
ghost use Rattle.mini_syntax.specs.SubstituteObjectProperty.{written, is_written, Gives, Rests};

use crate::rewrites::convert_to_dotted_properties::{as_name, number_of};
use mini_model::{Name, OutOfMemory, Position, PropertyKind, Shape, Text, is_identifier_name};
use mini_node::{
    Node, Nodes, discard, is_identifier, is_listed, numeric_literal, of_two, string, taken, two,
};
use mini_tree::{Context, Rule};
use std::alloc::Global;

// The units of `__proto__`.
const PROTO: [u16; 9] = [95, 95, 112, 114, 111, 116, 111, 95, 95];

// The greatest safe number (ECMA-262, Number.MAX_SAFE_INTEGER).
const MAX_SAFE_INTEGER: i64 = 9_007_199_254_740_991;

fn is_proto(text: &Text) -> bool
    ensures { result ≡ is_it_proto text.now }
{
    text.as_slice() == PROTO.as_slice()
}

// `k: v`, `k() {}`, `get k() {}`
fn is_open(node: &Node) -> bool
    ensures kind { result ≡ row.is_open node.now }
    ensures parts { result ≡ true → count (children node.now) ≡ 2 }
{
    match node.shape() {
        Shape::ObjectProperty(_, _, false, false) => node.is_bare(2),
        _ => false,
    }
}

// `[k]: v`, `[k]() {}`, `get [k]() {}`
fn is_bracketed(node: &Node) -> bool
    ensures kind { result ≡ row.is_bracketed node.now }
    ensures parts { result ≡ true → count (children node.now) ≡ 2 }
{
    match node.shape() {
        Shape::ObjectProperty(_, _, false, true) => node.is_bare(2),
        _ => false,
    }
}

// No method, no getter and no setter: `__proto__` would set the prototype.
fn is_plain(node: &Node) -> bool
    ensures { result ≡ row.is_plain node.now }
{
    matches!(
        node.shape(),
        Shape::ObjectProperty(PropertyKind::Init, false, _, _)
    )
}

// A safe number from 0.
fn is_whole(value: i64) -> bool
    ensures { result ≡ row.is_whole value }
{
    value >= 0 && value <= MAX_SAFE_INTEGER
}

/// A text, or a safe whole number from 0; in a plain property not `__proto__`.
pub fn is_literal_key(plain: bool, key: &Node) -> bool
    ensures { result ≡ row.is_literal_key plain key.now }
{
    match key.shape() {
        Shape::StringLiteral(text) => key.is_bare(0) && !(plain && is_proto(text)),
        Shape::NumericLiteral(value) => key.is_bare(0) && is_whole(*value),
        _ => false,
    }
}

// `["x"]: v` and `[1]: v`
fn drops_brackets(node: &Node) -> bool
    ensures { result ≡ row.drops_brackets node.now }
{
    is_bracketed(node) && is_literal_key(is_plain(node), node.child(0))
}

fn opened_shape(shape: &Shape) -> Shape
    ensures { result ≡ row.opened_shape shape.now }
{
    match shape {
        Shape::ObjectProperty(kind, is_method, is_shorthand, _) => {
            Shape::ObjectProperty(*kind, *is_method, *is_shorthand, false)
        }
        _ => Shape::Absent,
    }
}

/// A node of this shape over a key and a value.
pub fn property(alloc: Global, shape: Shape, key: Node, value: Node) -> Result<Node, OutOfMemory>
    ensures { IfOk result (λ w. w ≡ node shape [] 0 (key ▸ value ▸ none)) }
{
    let children = of_two(alloc, key, value)?;
    Ok(Node::new(shape, children))
}

// `k: v`, of `[k]: v`
fn opened(alloc: Global, node: Node) -> Result<Node, OutOfMemory>
    ensures { IfOk result (λ w. w ≡ row.with_key node (part node 0)) }
{
    let shape = opened_shape(node.shape());
    let (key, value) = two(node);
    property(alloc, shape, key, value)
}

fn unbracket(alloc: Global, node: &mut Node) -> Result<bool, OutOfMemory>
    ensures tree { OnOk result (node.new ≡ row.unbracketed node.old) }
    ensures said { IfOk result (λ changed. changed ≡ row.drops_brackets node.old) }
{
    if !drops_brackets(node) {
        return Ok(false);
    }
    *node = opened(alloc, taken(alloc, node))?;
    Ok(true)
}

// A text that is a name; in a plain property not `__proto__`.
fn is_key_text(plain: bool, key: &Node) -> bool
    ensures { result ≡ row.is_key_text plain (text_of key.now) }
{
    match string(key) {
        Some(text) => is_identifier_name(text) && !(plain && is_proto(text)),
        None => false,
    }
}

// `"x": v`
fn names_key(node: &Node) -> bool
    ensures { result ≡ row.names_key node.now }
{
    is_open(node) && is_key_text(is_plain(node), node.child(0))
}

/// The number from 0 that a text writes.
pub fn whole_of(key: &Node) -> Option<i64>
    ensures { result ≡ row.whole_of (number_of_text (text_of key.now)) }
{
    match number_of(key) {
        Some(number) if number >= 0 => Some(number),
        _ => None,
    }
}

// `"1": v`: the number
fn key_number(node: &Node) -> Option<i64>
    ensures { result ≡ row.key_number node.now }
{
    if is_open(node) {
        whole_of(node.child(0))
    } else {
        None
    }
}

// `x: v`
fn named(alloc: Global, node: Node) -> Result<Node, OutOfMemory>
    ensures { IfOk result (λ w. w ≡ row.named node) }
{
    let shape = opened_shape(node.shape());
    let (key, value) = two(node);
    property(alloc, shape, as_name(alloc, key), value)
}

// `1: v`
fn numbered(alloc: Global, number: i64, node: Node) -> Result<Node, OutOfMemory>
    ensures { IfOk result (λ w. w ≡ row.numbered number node) }
{
    let shape = opened_shape(node.shape());
    let (key, value) = two(node);
    discard(key);
    property(alloc, shape, numeric_literal(alloc, number), value)
}

fn respell(alloc: Global, node: &mut Node) -> Result<bool, OutOfMemory>
    ensures tree { OnOk result (node.new ≡ row.respelled node.old) }
    ensures said { IfOk result (λ changed. changed ≡ row.respells node.old) }
{
    if names_key(node) {
        *node = named(alloc, taken(alloc, node))?;
        return Ok(true);
    }
    if let Some(number) = key_number(node) {
        *node = numbered(alloc, number, taken(alloc, node))?;
        return Ok(true);
    }
    Ok(false)
}

// Whether a name has this spelling, other than `__proto__`.
fn spells(key: &Text, name: &Option<Name>) -> bool
    ensures { result ≡ row.spells (Some key.now) (names name.now) }
{
    match name {
        Some(name) => key.as_slice() == name.spelling.as_slice() && !is_proto(key),
        None => false,
    }
}

// Whether the key is the name.
fn is_key_of(key: &Node, name: &Option<Name>) -> bool
    ensures { result ≡ row.spells (row.key_name key.now) (names name.now) }
{
    match key.shape() {
        Shape::IdentifierName(text) if key.is_bare(0) => spells(text, name),
        _ => false,
    }
}

// `k: v`
fn is_plain_open(node: &Node) -> bool
    ensures kind { result ≡ row.is_plain_open node.now }
    ensures parts { result ≡ true → count (children node.now) ≡ 2 }
{
    match node.shape() {
        Shape::ObjectProperty(PropertyKind::Init, false, false, false) => node.is_bare(2),
        _ => false,
    }
}

// `x: x`
fn is_doubled(node: &Node) -> bool
    ensures { result ≡ row.is_doubled node.now }
{
    is_plain_open(node)
        && is_identifier(node.child(1))
        && is_key_of(node.child(0), node.child(1).name())
}

// `x`
fn shorthand(alloc: Global, node: Node) -> Result<Node, OutOfMemory>
    ensures { IfOk result (λ w. w ≡ property_of true false (part node 0) (part node 1)) }
{
    let (key, value) = two(node);
    let shape = Shape::ObjectProperty(PropertyKind::Init, false, true, false);
    property(alloc, shape, key, value)
}

fn shorten(alloc: Global, node: &mut Node) -> Result<bool, OutOfMemory>
    ensures tree { OnOk result (node.new ≡ row.shortened node.old) }
    ensures said { IfOk result (λ changed. changed ≡ row.is_doubled node.old) }
{
    if !is_doubled(node) {
        return Ok(false);
    }
    *node = shorthand(alloc, taken(alloc, node))?;
    Ok(true)
}

// All that the rows say of a property.
fn turn(alloc: Global, node: &mut Node) -> Result<bool, OutOfMemory>
    ensures tree { OnOk result (node.new ≡ row.turned node.old) }
    ensures said { IfOk result (λ changed. changed ≡ row.turns node.old) }
{
    let opened = unbracket(alloc, node)?;
    let spelled = respell(alloc, node)?;
    let shortened = shorten(alloc, node)?;
    Ok(opened | spelled | shortened)
}

// Each property, from the first to the last.
fn turn_each(alloc: Global, properties: &mut Nodes) -> Result<bool, OutOfMemory>
    ensures tree { OnOk result (properties.new ≡ row.all_turned properties.old) }
    ensures said { IfOk result (λ changed. changed ≡ row.any_turns properties.old) }
{
    let mut changed = false;
    for at in 0..properties.len() {
        let turned = turn(alloc, properties.child_mut(at))?;
        changed = changed | turned;
    }
    Ok(changed)
}

fn is_object_literal(node: &Node) -> bool
    ensures kind { result ≡ row.is_object_literal node.now }
    ensures parts { result ≡ true → count (children node.now) ≡ 1 }
{
    match node.shape() {
        Shape::ObjectExpression => node.is_bare(1) && is_listed(node.child(0)),
        _ => false,
    }
}

/// Of each property of an object literal a key in brackets loses them where it is a text or a whole
/// number, a text becomes the name or the number that it writes, and `x: x` becomes `x`; a key
/// `__proto__` stays but of a method, a getter or a setter. The answer says whether anything
/// changed; the only error is that memory runs out, and then the literal is fit only to be dropped.
pub fn substitute_object_property(alloc: Global, node: &mut Node) -> Result<bool, OutOfMemory>
    ensures tree { OnOk result (node.new ≡ written node.old) }
    ensures said { IfOk result (λ changed. changed ≡ is_written node.old) }
{
    if !is_object_literal(node) {
        return Ok(false);
    }
    let properties = node.children_mut().child_mut(0).children_mut();
    let changed = turn_each(alloc, properties)?;
    Ok(changed)
}

/// The rows of keys as a rule: of each object literal.
pub struct SubstituteKeys;

impl<C: Context> Rule<C> for SubstituteKeys {
    ghost gives = { λ o q. Gives };

    ghost rests = { λ o q. Rests };

    ghost lighter = { λ o q. keys_lighter };

    #[tactic(auto, using(crate::proofs::Keys::applied))]
    fn apply(
        &self,
        alloc: Global,
        node: &mut Node,
        place: Position,
        context: &mut C,
    ) -> Result<bool, OutOfMemory> {
        match place {
            Position::Expr(_) => Ok(substitute_object_property(alloc, node)?),
            _ => Ok(false),
        }
    }
}
