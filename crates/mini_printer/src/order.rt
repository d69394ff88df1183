//! A tree in the order of its text: each production of the grammar has its parts as they stand in
//! the text, from the first to the last.

ghost use Rattle.std.specs.Prelude.{◌≡◌, ◌<◌, ◌+◌, ◌&&◌, [], true, false, get_or, drop, length, IfOk, OnOk};
ghost use Rattle.mini_model.specs.declared.shape.Shape.TheVariants as shape;
ghost use Rattle.mini_model.specs.Tree as tree;
ghost use Rattle.mini_model.specs.Paths.{append};
ghost use Rattle.mini_model.specs.Tree.{none, ◌▸◌, children, child_or_absent, shape_of, count, node_count};
ghost use Rattle.mini_node.specs.Children.{names, part, like, with_names, with_part, with_child, rest_children};
ghost use Rattle.mini_print.specs.Grammar.{constructor_shape};
ghost use Rattle.mini_print.specs.Printed as printed;
ghost use Rattle.mini_printer.specs.Ordered as ordered;
ghost use Rattle.mini_printer.specs.Ordered.{IsUnlinked};

use mini_model::{MethodDefinitionKind, OutOfMemory, Shape, Text, TextList};
use mini_node::{
    Node, Nodes, absent, discard, listed, of_one, of_three, of_two, one, string_literal, take_first,
};
use mini_tokens::spells;
use std::alloc::Global;
use std::mem;

// ---- optional chains (ECMA-262, OptionalExpression)

// What a link of a chain is of: where that has an optional link, what its first link is of, and
// otherwise all of it.
#[derive(Drop)]
enum Object {
    Base(Node),
    Whole(Node),
}

fn into_base(object: Object) -> Node
    ensures { result ≡ ordered.base_of object }
{
    match object {
        Object::Base(base) => base,
        Object::Whole(whole) => whole,
    }
}

fn is_link_shape(shape: &Shape) -> bool
    ensures { result ≡ printed.is_link shape.now }
{
    matches!(
        shape,
        Shape::CallExpression(_)
            | Shape::StaticMemberExpression(_)
            | Shape::ComputedMemberExpression(_)
            | Shape::PrivateFieldExpression(_)
    )
}

fn is_optional(node: &Node) -> bool
    ensures { result ≡ printed.is_optional (shape_of node.now) }
{
    match node.shape() {
        Shape::CallExpression(optional) => *optional,
        Shape::StaticMemberExpression(optional) => *optional,
        Shape::ComputedMemberExpression(optional) => *optional,
        Shape::PrivateFieldExpression(optional) => *optional,
        _ => false,
    }
}

#[tactic(auto, using(crate::proofs::Orders::link_parts))]
fn is_link(node: &Node) -> bool
    ensures kind { result ≡ ordered.is_link_over node.now }
    ensures parts { result ≡ true → 0 < count (children node.now) }
{
    !node.children().is_empty() && is_link_shape(node.shape())
}

// Takes the first child out of a link, which is what it is of, and leaves an absent part there.
#[tactic(auto, using(crate::proofs::Orders::part_taken, crate::proofs::Orders::part_smaller))]
fn take_object(link: &mut Node) -> Node
    requires { 0 < count (children link.old) }
    ensures value { result ≡ part link.old 0 }
    ensures rest { link.new ≡ with_part link.old 0 tree.absent }
    ensures smaller { node_count result < node_count link.old }
{
    link.children_mut().take(0)
}

// Takes the links of a tree out, from the first on, where one of them is optional, and gives what
// the first is of. The only error is that memory runs out.
fn take_links(node: Node, links: &mut Nodes) -> Result<Object, OutOfMemory>
    requires { links.old ≡ none }
    ensures { IfOk result (λ object. IsUnlinked object node links.new) }
{
    if !is_link(&node) {
        return Ok(Object::Whole(node));
    }
    let mut link = node;
    let object = take_links(take_object(&mut link), links)?;
    match object {
        Object::Base(base) => push_link(links, link, base),
        Object::Whole(whole) => end_links(links, link, whole),
    }
}

fn push_link(links: &mut Nodes, link: Node, base: Node) -> Result<Object, OutOfMemory>
    ensures object { IfOk result (λ object. object ≡ Object.Base base) }
    ensures links { OnOk result (links.new ≡ append links.old (link ▸ none)) }
{
    links.push(link)?;
    Ok(Object::Base(base))
}

// The link is the first where it is optional, and otherwise stands over what it was of.
fn end_links(links: &mut Nodes, link: Node, object: Node) -> Result<Object, OutOfMemory>
    requires { 0 < count (children link) }
    ensures object { IfOk result (λ ended. ended ≡ ordered.ended (printed.is_optional (shape_of link)) object link) }
    ensures links { OnOk result (links.new ≡ ordered.pushed (printed.is_optional (shape_of link)) links.old link) }
{
    if is_optional(&link) {
        return push_link(links, link, object);
    }
    let mut link = link;
    discard(link.children_mut().replace(0, object));
    Ok(Object::Whole(link))
}

// A chain over its links, from the first on.
#[tactic(auto, using(crate::proofs::Orders::chain_by))]
fn chain(base: Node, links: Nodes) -> Result<Nodes, OutOfMemory>
    requires { 0 < count links }
    ensures { IfOk result (λ parts. parts ≡ ordered.chain base links) }
{
    let mut links = links;
    let first = take_first(&mut links);
    of_three(links.allocator(), base, first, listed(links))
}

fn linked(expression: Node) -> Result<Nodes, OutOfMemory>
    ensures { IfOk result (λ parts. parts ≡ printed.linked expression none) }
{
    let alloc = expression.children().allocator();
    if expression.children().is_empty() {
        return of_one(alloc, expression);
    }
    let mut expression = expression;
    let mut links = Nodes::new(alloc);
    let object = take_links(take_object(&mut expression), &mut links)?;
    let base = into_base(object);
    links.push(expression)?;
    chain(base, links)
}

#[tactic(auto, using(crate::proofs::Orders::chain_alone, crate::proofs::Orders::chain_other))]
fn chain_parts(parts: Nodes) -> Result<Nodes, OutOfMemory>
    ensures { IfOk result (λ made. made ≡ ordered.chain_parts parts) }
{
    if parts.len() == 1 {
        let mut parts = parts;
        linked(take_first(&mut parts))
    } else {
        Ok(parts)
    }
}

// ---- templates (ECMA-262, TemplateLiteral)

fn is_list(node: &Node) -> bool
    ensures { result ≡ ordered.is_list node.now }
{
    matches!(node.shape(), Shape::Listed) && node.name().is_none()
}

// Whether a piece without a part stands in the place.
#[tactic(auto, using(crate::proofs::Orders::piece_by, crate::proofs::Orders::no_piece))]
fn is_piece_at(quasis: &Nodes, at: usize) -> bool
    ensures kind { result ≡ ordered.is_piece_first (rest_children at quasis.now) }
    ensures within { result ≡ true → at < count quasis.now }
{
    at < quasis.len() && quasis.child(at).children().is_empty()
}

// The pieces from a place on, with the expressions from there on, each over what follows it. The
// only error is that memory runs out.
fn threaded(quasis: &mut Nodes, expressions: &mut Nodes, at: usize) -> Result<Node, OutOfMemory>
    ensures { IfOk result (λ made. made ≡ printed.threaded (rest_children at quasis.old) (rest_children at expressions.old)) }
{
    let alloc = quasis.allocator();
    let count = quasis.len();
    if !is_piece_at(quasis, at) {
        return Ok(absent(alloc));
    }
    let piece = quasis.take(at);
    if at < expressions.len() {
        let expression = expressions.take(at);
        let rest = threaded(quasis, expressions, at + 1)?;
        let parts = of_two(alloc, expression, rest)?;
        Ok(piece.over(parts))
    } else if at + 1 == count {
        Ok(piece)
    } else {
        Ok(absent(alloc))
    }
}

#[tactic(auto, using(crate::proofs::Orders::pieces_none, crate::proofs::Orders::pieces_one, crate::proofs::Orders::pieces_many, crate::proofs::Orders::pieces_by))]
fn pieces(quasis: &mut Nodes, expressions: &mut Nodes) -> Result<Nodes, OutOfMemory>
    ensures { IfOk result (λ parts. parts ≡ printed.pieces quasis.old expressions.old) }
{
    let alloc = quasis.allocator();
    let count = quasis.len();
    if count == 0 {
        return of_one(alloc, absent(alloc));
    }
    let first = quasis.take(0);
    if !expressions.is_empty() {
        let expression = expressions.take(0);
        let rest = threaded(quasis, expressions, 1)?;
        of_three(alloc, first, expression, rest)
    } else if count == 1 {
        of_one(alloc, first)
    } else {
        of_one(alloc, absent(alloc))
    }
}

fn is_template(parts: &Nodes) -> bool
    ensures { result ≡ ordered.is_template parts.now }
{
    parts.len() == 2 && is_list(parts.child(0)) && is_list(parts.child(1))
}

#[tactic(auto, using(crate::proofs::Orders::template_other, crate::proofs::Orders::template_by))]
fn template_parts(parts: Nodes) -> Result<Nodes, OutOfMemory>
    ensures { IfOk result (λ made. made ≡ ordered.template_parts parts) }
{
    if !is_template(&parts) {
        return Ok(parts);
    }
    let mut parts = parts;
    let mut quasis = take_first(&mut parts).into_children();
    let mut expressions = take_first(&mut parts).into_children();
    pieces(&mut quasis, &mut expressions)
}

// ---- static members of a class (ECMA-262, ClassElement)

fn is_constructor_key(key: &Node) -> bool
    ensures { result ≡ constructor_shape (shape_of key.now) }
{
    match key.shape() {
        Shape::IdentifierName(text) => spells(text.as_slice(), b"constructor"),
        Shape::StringLiteral(text) => spells(text.as_slice(), b"constructor"),
        _ => false,
    }
}

fn plain_kind(kind: MethodDefinitionKind, is_constructor: bool) -> MethodDefinitionKind
    ensures { result ≡ printed.plain_kind kind is_constructor }
{
    match kind {
        MethodDefinitionKind::Method if is_constructor => MethodDefinitionKind::Constructor,
        kind => kind,
    }
}

fn method_parts(
    kind: MethodDefinitionKind,
    is_computed: bool,
    parts: Nodes,
) -> Result<Nodes, OutOfMemory>
    ensures { IfOk result (λ made. made ≡ ordered.method_parts kind is_computed parts) }
{
    if parts.len() != 2 {
        return Ok(parts);
    }
    let plain = plain_kind(kind, !is_computed && is_constructor_key(parts.child(0)));
    let shape = Shape::MethodDefinition(plain, is_computed, false);
    of_one(parts.allocator(), Node::new(shape, parts))
}

fn property_parts(is_computed: bool, parts: Nodes) -> Result<Nodes, OutOfMemory>
    ensures { IfOk result (λ made. made ≡ ordered.property_parts is_computed parts) }
{
    if parts.len() != 2 {
        return Ok(parts);
    }
    let shape = Shape::PropertyDefinition(is_computed, false);
    of_one(parts.allocator(), Node::new(shape, parts))
}

// ---- imports and exports (ECMA-262, ImportClause and ExportSpecifier)

fn is_binding(node: &Node) -> bool
    ensures { result ≡ ordered.is_binding node.now }
{
    matches!(node.shape(), Shape::BindingIdentifier)
}

// Whether a specifier has no name of its own, and is over a name that is declared.
fn is_over_binding(specifier: &Node) -> bool
    ensures { result ≡ ordered.is_over_binding specifier.now }
{
    let parts = specifier.children();
    specifier.name().is_none() && parts.len() == 1 && is_binding(parts.child(0))
}

fn is_default(specifier: &Node) -> bool
    ensures { result ≡ ordered.is_default specifier.now }
{
    matches!(specifier.shape(), Shape::ImportDefaultSpecifier) && is_over_binding(specifier)
}

fn is_namespace(specifier: &Node) -> bool
    ensures { result ≡ ordered.is_namespace specifier.now }
{
    matches!(specifier.shape(), Shape::ImportNamespaceSpecifier) && is_over_binding(specifier)
}

fn begins_with_default(specifiers: &Nodes) -> bool
    ensures { result ≡ ordered.has_default specifiers.now }
{
    !specifiers.is_empty() && is_default(specifiers.child(0))
}

fn is_namespace_alone(specifiers: &Nodes) -> bool
    ensures { result ≡ ordered.has_namespace specifiers.now }
{
    specifiers.len() == 1 && is_namespace(specifiers.child(0))
}

// Takes the local name of the default out, which is the first specifier; an absent part where there
// is no default.
fn take_default(specifiers: &mut Nodes) -> Node
    ensures value { result ≡ ordered.local_if (ordered.has_default specifiers.old) specifiers.old }
    ensures rest { specifiers.new ≡ ordered.rest_if (ordered.has_default specifiers.old) specifiers.old }
{
    if begins_with_default(specifiers) {
        one(take_first(specifiers))
    } else {
        absent(specifiers.allocator())
    }
}

// The same of a namespace, which is the only specifier.
fn take_namespace(specifiers: &mut Nodes) -> Node
    ensures value { result ≡ ordered.local_if (ordered.has_namespace specifiers.old) specifiers.old }
    ensures rest { specifiers.new ≡ ordered.rest_if (ordered.has_namespace specifiers.old) specifiers.old }
{
    if is_namespace_alone(specifiers) {
        one(take_first(specifiers))
    } else {
        absent(specifiers.allocator())
    }
}

fn specified(specifiers: Nodes, source: Node) -> Result<Nodes, OutOfMemory>
    ensures { IfOk result (λ made. made ≡ printed.import_parts specifiers source) }
{
    let mut specifiers = specifiers;
    let default = take_default(&mut specifiers);
    let namespace = take_namespace(&mut specifiers);
    let alloc = specifiers.allocator();
    let mut parts = of_three(alloc, default, namespace, listed(specifiers))?;
    parts.push(source)?;
    Ok(parts)
}

fn is_import(parts: &Nodes) -> bool
    ensures { result ≡ ordered.is_import parts.now }
{
    parts.len() == 2 && is_list(parts.child(0))
}

#[tactic(auto, using(crate::proofs::Orders::import_other, crate::proofs::Orders::import_by))]
fn import_parts(parts: Nodes) -> Result<Nodes, OutOfMemory>
    ensures { IfOk result (λ made. made ≡ ordered.import_parts parts) }
{
    if !is_import(&parts) {
        return Ok(parts);
    }
    let mut parts = parts;
    let specifiers = take_first(&mut parts).into_children();
    specified(specifiers, take_first(&mut parts))
}

fn export_parts(parts: Nodes) -> Nodes
    ensures { result ≡ ordered.export_parts parts }
{
    let mut parts = parts;
    if parts.len() == 2 {
        parts.swap(0, 1);
    }
    parts
}

// ---- directives (ECMA-262, Directive Prologues)

// The text in a place, taken out.
fn take_text(texts: &mut TextList, at: usize) -> Text
    requires { at < length texts.old }
    ensures value { result ≡ get_or texts.old at [] }
    ensures rest { drop (at + 1) texts.new ≡ drop (at + 1) texts.old }
    ensures count { length texts.new ≡ length texts.old }
{
    let none = Text::new(texts.allocator());
    match texts.get_mut(at) {
        Some(text) => mem::replace(text, none),
        None => none,
    }
}

/// Directives as the texts that stand for them. The only error is that memory runs out.
pub fn directives(texts: TextList) -> Result<Nodes, OutOfMemory>
    ensures { IfOk result (λ nodes. nodes ≡ printed.directives texts) }
{
    let mut texts = texts;
    let alloc = texts.allocator();
    let mut nodes = Nodes::with_capacity(alloc, texts.len())?;
    for at in 0..texts.len() {
        nodes.push(string_literal(alloc, take_text(&mut texts, at)))?;
    }
    Ok(nodes)
}

fn is_body(node: &Node) -> bool
    ensures { result ≡ ordered.is_body node.now }
{
    matches!(node.shape(), Shape::FunctionBody) && node.children().len() == 1
}

// A body with the directives of its function before its statements.
#[tactic(auto, using(crate::proofs::Orders::body_kept, crate::proofs::Orders::body_lost, crate::proofs::Orders::body_with))]
fn with_directives(texts: TextList, body: Node) -> Result<Node, OutOfMemory>
    ensures { IfOk result (λ made. made ≡ printed.with_directives texts body) }
{
    if is_body(&body) {
        let mut body = body;
        let directives = listed(directives(texts)?);
        body.children_mut().insert(0, directives)?;
        Ok(body)
    } else if texts.len() == 0 {
        Ok(body)
    } else {
        Ok(absent(texts.allocator()))
    }
}

// The parts of a function whose body stands in the place.
#[tactic(auto, using(crate::proofs::Orders::put_twice))]
fn function_parts(texts: TextList, parts: Nodes, at: usize) -> Result<Nodes, OutOfMemory>
    requires { at < count parts }
    ensures { IfOk result (λ made. made ≡ with_child parts at (printed.with_directives texts (child_or_absent parts at))) }
{
    let mut parts = parts;
    let body = with_directives(texts, parts.take(at))?;
    discard(parts.replace(at, body));
    Ok(parts)
}

// Takes the directives of a function out of its shape; none of any other.
fn take_directives(alloc: Global, shape: &mut Shape) -> TextList
    ensures value { result ≡ ordered.directives_of shape.old }
    ensures rest { shape.new ≡ ordered.without_directives shape.old }
{
    let none = TextList::new(alloc);
    match shape {
        Shape::Function(_, _, texts) => mem::replace(texts, none),
        Shape::ArrowFunctionExpression(texts) => mem::replace(texts, none),
        _ => none,
    }
}

// A node with the directives of its shape in its part at the place.
fn with_body(node: Node, at: usize) -> Result<Node, OutOfMemory>
    requires { at < count (children node) }
    ensures { IfOk result (λ made. made ≡ ordered.with_body at node) }
{
    let (shape, name, number, parts) = node.into_parts();
    let mut shape = shape;
    let texts = take_directives(parts.allocator(), &mut shape);
    let parts = function_parts(texts, parts, at)?;
    Ok(Node::with(shape, name, number, parts))
}

#[tactic(auto, using(crate::proofs::Orders::function_three, crate::proofs::Orders::function_other))]
fn function(node: Node) -> Result<Node, OutOfMemory>
    ensures { IfOk result (λ made. made ≡ ordered.function node) }
{
    if node.children().len() == 3 {
        with_body(node, 2)
    } else {
        Ok(node)
    }
}

#[tactic(auto, using(crate::proofs::Orders::arrow_two, crate::proofs::Orders::arrow_other))]
fn arrow(node: Node) -> Result<Node, OutOfMemory>
    ensures { IfOk result (λ made. made ≡ ordered.arrow node) }
{
    if node.children().len() == 2 {
        with_body(node, 1)
    } else {
        Ok(node)
    }
}

// ---- all nodes

// An inner expression is the expression.
fn inner(node: Node) -> Node
    ensures { result ≡ ordered.inner node }
{
    if node.children().len() == 1 {
        one(node)
    } else {
        node
    }
}

fn parts_in_order(shape: &Shape, parts: Nodes) -> Result<Nodes, OutOfMemory>
    ensures { IfOk result (λ made. made ≡ ordered.parts_in_order shape.now parts) }
{
    match shape {
        Shape::ChainExpression => chain_parts(parts),
        Shape::TemplateLiteral => template_parts(parts),
        Shape::MethodDefinition(kind, is_computed, true) => method_parts(
            *kind,
            *is_computed,
            parts,
        ),
        Shape::PropertyDefinition(is_computed, true) => property_parts(*is_computed, parts),
        Shape::ImportDeclaration => import_parts(parts),
        Shape::ExportSpecifier => Ok(export_parts(parts)),
        _ => Ok(parts),
    }
}

fn over_parts(node: Node) -> Result<Node, OutOfMemory>
    ensures { IfOk result (λ made. made ≡ like node (ordered.parts_in_order (shape_of node) (children node))) }
{
    let mut node = node;
    let parts = node.take_children();
    let parts = parts_in_order(node.shape(), parts)?;
    Ok(node.over(parts))
}

// A node without the name that it carries: a declarator that has one writes another variable than
// the one that it declares, which no text says.
fn nameless(node: Node) -> Node
    ensures { result ≡ with_names node [] }
{
    let mut node = node;
    node.set_name(None);
    node
}

// A node whose parts are in the order of their texts.
fn seen(node: Node) -> Result<Node, OutOfMemory>
    ensures { IfOk result (λ made. made ≡ ordered.seen node) }
{
    match node.shape() {
        Shape::InnerExpression => Ok(inner(node)),
        Shape::Function(..) => function(node),
        Shape::ArrowFunctionExpression(_) => arrow(node),
        Shape::VariableDeclarator => Ok(nameless(node)),
        _ => over_parts(node),
    }
}

/// A tree in the order of its text. The base of an optional chain stands before its links; a
/// template has each expression behind the piece before it; a static member of a class is over what
/// it is without `static`; the directives of a function are in its body; the default and the
/// namespace of an import stand before its names, and the local name of an export is first.
///
/// The only error is that memory runs out.
#[cycle(showing)]
pub fn shown(node: Node) -> Result<Node, OutOfMemory>
    ensures { IfOk result (λ made. made ≡ printed.shown node) }
{
    let mut node = node;
    show_all(node.children_mut())?;
    seen(node)
}

/// Puts each of some trees into the order of its text, as `shown` does. The only error is that
/// memory runs out, and then they are fit only to be dropped.
#[cycle(showing)]
pub fn show_all(nodes: &mut Nodes) -> Result<(), OutOfMemory>
    ensures { OnOk result (nodes.new ≡ printed.all_shown nodes.old) }
{
    for at in 0..nodes.len() {
        let node = shown(nodes.take(at))?;
        discard(nodes.replace(at, node));
    }
    Ok(())
}
