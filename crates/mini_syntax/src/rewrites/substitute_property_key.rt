//! Row 52 of patterns and classes: of a property of a pattern, a method or a field a text becomes
//! the name or the number that it writes, and a text or a whole number in brackets loses them, but
//! of a parameter. It is lighter in every place. The rule over it has row 53 too.

ghost use Rattle.std.specs.Prelude.{◌≡◌, true, IfOk, OnOk};
ghost use Rattle.mini_model.specs.Tree.{children, count, shape_of};
ghost use Rattle.mini_node.specs.Children.{part};
ghost use Rattle.mini_rows.specs.KeyHolders.{stays_in_brackets};
ghost use Rattle.mini_tree.specs.Rule.{Applied};
ghost use Rattle.mini_syntax.specs.Lighter.{held_keys_lighter};
ghost use Rattle.mini_syntax.specs.declared.rewrites.substitute_property_key.ClassPropertyKeyParentType.TheVariants.{MethodDefinition, PropertyDefinition};
ghost use Rattle.mini_syntax.specs.SubstitutePropertyKey as row;
ghost use Rattle.mini_syntax.specs.SubstitutePropertyKey.{spelled, is_spelled, key_written, is_key_written, written, is_written, Gives, Rests};

use crate::forms::is_inner;
use crate::rewrites::compress_assignment_target_property::compress_assignment_target_property;
use crate::rewrites::convert_to_dotted_properties::{as_name, is_name};
use crate::rewrites::substitute_binding_property::substitute_binding_property;
use crate::rewrites::substitute_object_property::{is_literal_key, property, whole_of};
use mini_model::{OutOfMemory, Position, Shape, Text};
use mini_node::{Node, numeric_literal, one, taken, two};
use mini_tree::{Context, Rule};
use std::alloc::Global;

// The units of `constructor`, `#constructor` and `prototype`.
const CONSTRUCTOR: [u16; 11] = [99, 111, 110, 115, 116, 114, 117, 99, 116, 111, 114];

const PRIVATE_CONSTRUCTOR: [u16; 12] = [35, 99, 111, 110, 115, 116, 114, 117, 99, 116, 111, 114];

const PROTOTYPE: [u16; 9] = [112, 114, 111, 116, 111, 116, 121, 112, 101];

// What has a key without brackets, other than in an object literal, and is no shorthand.
fn is_holder(node: &Node) -> bool
    ensures kind { result ≡ row.is_holder node.now }
    ensures parts { result ≡ true → count (children node.now) ≡ 2 }
{
    match node.shape() {
        Shape::BindingProperty(false, false) => node.is_bare(2),
        Shape::AssignmentTargetPropertyProperty(false) => node.is_bare(2),
        Shape::MethodDefinition(_, false, _) => node.is_bare(2),
        Shape::PropertyDefinition(false, _) => node.is_bare(2),
        _ => false,
    }
}

// A text becomes the name or the number from 0 that it writes.
fn respell(alloc: Global, key: &mut Node) -> bool
    ensures tree { key.new ≡ row.respelled key.old }
    ensures said { result ≡ row.respells key.old }
{
    if is_name(key) {
        *key = as_name(alloc, taken(alloc, key));
        return true;
    }
    if let Some(number) = whole_of(key) {
        *key = numeric_literal(alloc, number);
        return true;
    }
    false
}

/// Of a property of a pattern, a method or a field of a class a key that is a text becomes the name
/// or the number from 0 that the text writes; a key in brackets and a private name stay. The answer
/// says whether it did.
pub fn substitute_property_key(alloc: Global, node: &mut Node) -> bool
    ensures tree { node.new ≡ spelled node.old }
    ensures said { result ≡ is_spelled node.old }
{
    if !is_holder(node) {
        return false;
    }
    respell(alloc, node.children_mut().child_mut(0))
}

/// A part of a class that has a key.
#[derive(Clone, Copy)]
pub enum ClassPropertyKeyParentType {
    /// A method or an accessor.
    MethodDefinition,
    /// A field.
    PropertyDefinition,
}

fn is_method(kind: ClassPropertyKeyParentType) -> bool
    ensures { result ≡ row.is_method kind }
{
    matches!(kind, ClassPropertyKeyParentType::MethodDefinition)
}

/// A method or a field of a class, and whether it is static.
#[derive(Clone, Copy)]
pub struct ClassPropertyKeyParent {
    /// Whether it is a method or a field.
    pub kind: ClassPropertyKeyParentType,
    /// Whether it is static.
    pub is_static: bool,
}

// Whether a method or a field is static.
fn is_static_member(shape: &Shape) -> bool
    ensures { result ≡ row.is_static_member shape.now }
{
    match shape {
        Shape::MethodDefinition(_, _, is_static) | Shape::PropertyDefinition(_, is_static) => {
            *is_static
        }
        _ => false,
    }
}

impl ClassPropertyKeyParent {
    /// What is asked of the key of a method of a class: that it is a method, and whether it is
    /// static.
    pub fn of_method(method: &Node) -> ClassPropertyKeyParent
        ensures kind { result.kind ≡ MethodDefinition }
        ensures is_static { result.is_static ≡ row.is_static_member (shape_of method.now) }
    {
        ClassPropertyKeyParent {
            kind: ClassPropertyKeyParentType::MethodDefinition,
            is_static: is_static_member(method.shape()),
        }
    }

    /// What is asked of the key of a field of a class: that it is a field, and whether it is
    /// static.
    pub fn of_property(property: &Node) -> ClassPropertyKeyParent
        ensures kind { result.kind ≡ PropertyDefinition }
        ensures is_static { result.is_static ≡ row.is_static_member (shape_of property.now) }
    {
        ClassPropertyKeyParent {
            kind: ClassPropertyKeyParentType::PropertyDefinition,
            is_static: is_static_member(property.shape()),
        }
    }

    /// Whether a text stays in the brackets that it stands in as a key there: `constructor` of a
    /// method that isn't static and of a field, `prototype` where static, and `#constructor`.
    /// Without them it would be another thing, or an early error.
    pub fn should_keep_as_computed_property(&self, key: &Text) -> bool
        ensures { result ≡ stays_in_brackets (row.is_method self.now.kind) self.now.is_static key.now }
    {
        key.as_slice() == PRIVATE_CONSTRUCTOR.as_slice()
            || (self.is_static && key.as_slice() == PROTOTYPE.as_slice())
            || (!(is_method(self.kind) && self.is_static)
                && key.as_slice() == CONSTRUCTOR.as_slice())
    }
}

// The method or the field that has this shape.
fn parent_of(shape: &Shape) -> Option<ClassPropertyKeyParent>
    ensures { result ≡ row.parent_of shape.now }
{
    match shape {
        Shape::MethodDefinition(_, _, is_static) => Some(ClassPropertyKeyParent {
            kind: ClassPropertyKeyParentType::MethodDefinition,
            is_static: *is_static,
        }),
        Shape::PropertyDefinition(_, is_static) => Some(ClassPropertyKeyParent {
            kind: ClassPropertyKeyParentType::PropertyDefinition,
            is_static: *is_static,
        }),
        _ => None,
    }
}

// Whether the brackets of this key stay for what it is.
fn keeps(holder: &Shape, key: &Shape) -> bool
    ensures { result ≡ row.keeps holder.now key.now }
{
    match key {
        Shape::StringLiteral(text) => match parent_of(holder) {
            Some(parent) => parent.should_keep_as_computed_property(text),
            None => false,
        },
        _ => false,
    }
}

// `[k]: v` of what is assigned to, `[k]() {}` and `[k] = v` of a class
fn is_bracketed(node: &Node) -> bool
    ensures kind { result ≡ row.is_bracketed node.now }
    ensures parts { result ≡ true → count (children node.now) ≡ 2 }
{
    match node.shape() {
        Shape::AssignmentTargetPropertyProperty(true) => node.is_bare(2),
        Shape::MethodDefinition(_, true, _) => node.is_bare(2),
        Shape::PropertyDefinition(true, _) => node.is_bare(2),
        _ => false,
    }
}

// `["x"]` and `[1]`
fn drops_brackets(node: &Node) -> bool
    ensures kind { result ≡ row.drops_brackets node.now }
    ensures parts { result ≡ true → count (children node.now) ≡ 2 }
    ensures inner { result ≡ true → count (children (part node.now 0)) ≡ 1 }
{
    if !is_bracketed(node) || !is_inner(node.child(0)) {
        return false;
    }
    let key = node.child(0).child(0);
    is_literal_key(false, key) && !keeps(node.shape(), key.shape())
}

fn bare_shape(shape: &Shape) -> Shape
    ensures { result ≡ row.bare_shape shape.now }
{
    match shape {
        Shape::AssignmentTargetPropertyProperty(_) => {
            Shape::AssignmentTargetPropertyProperty(false)
        }
        Shape::MethodDefinition(kind, _, is_static) => {
            Shape::MethodDefinition(*kind, false, *is_static)
        }
        Shape::PropertyDefinition(_, is_static) => Shape::PropertyDefinition(false, *is_static),
        _ => Shape::Absent,
    }
}

// `k: v`, of `[k]: v`
fn bare(alloc: Global, node: Node) -> Result<Node, OutOfMemory>
    requires parts { count (children node) ≡ 2 }
    requires inner { count (children (part node 0)) ≡ 1 }
    ensures { IfOk result (λ w. w ≡ row.bare node) }
{
    let shape = bare_shape(node.shape());
    let (inner, value) = two(node);
    property(alloc, shape, one(inner), value)
}

// A text or a whole number in brackets loses them.
fn unbracket(alloc: Global, node: &mut Node) -> Result<bool, OutOfMemory>
    ensures tree { OnOk result (node.new ≡ row.unbracketed node.old) }
    ensures said { IfOk result (λ changed. changed ≡ row.drops_brackets node.old) }
{
    if !drops_brackets(node) {
        return Ok(false);
    }
    *node = bare(alloc, taken(alloc, node))?;
    Ok(true)
}

/// Of a property of a pattern that is assigned to (`[{ ["x"]: a } = b]`), a method or a field of a
/// class a key in brackets loses them where it is a text or a whole number from 0, but where
/// `should_keep_as_computed_property`; another key that is a text becomes the name or the number
/// that it writes. The answer says whether anything changed; the only error is that memory runs
/// out. It is handed on as `substitute_assignment_target_property_property`,
/// `substitute_method_definition` and `substitute_property_definition`.
pub fn substitute_held_key(alloc: Global, node: &mut Node) -> Result<bool, OutOfMemory>
    ensures tree { OnOk result (node.new ≡ row.held_written node.old) }
    ensures said { IfOk result (λ changed. changed ≡ row.is_held_written node.old) }
{
    if unbracket(alloc, node)? {
        return Ok(true);
    }
    Ok(substitute_property_key(alloc, node))
}

/// Of a property of a pattern, a method or a field a key in brackets loses them where it is a text
/// or a whole number from 0, but of a parameter and where `should_keep_as_computed_property`;
/// another key that is a text becomes the name or the number that it writes. Of a pattern that is
/// declared the brackets go at what declares it. The answer says whether anything changed; the only
/// error is that memory runs out.
#[tactic(auto, using(crate::proofs::PropertyKeys::held_instead, crate::proofs::PropertyKeys::held_said, crate::proofs::PropertyKeys::bared_instead))]
pub fn substitute_key(alloc: Global, node: &mut Node) -> Result<bool, OutOfMemory>
    ensures tree { OnOk result (node.new ≡ key_written node.old) }
    ensures said { IfOk result (λ changed. changed ≡ is_key_written node.old) }
{
    if substitute_binding_property(alloc, node)? {
        return Ok(true);
    }
    let changed = substitute_held_key(alloc, node)?;
    Ok(changed)
}

/// A property that is assigned to becomes the shorthand, as `x: x` becomes `x`, or its key is
/// spelled otherwise, as of `"x": a` and `["x"]: a`. The answer says whether anything changed; the
/// only error is that memory runs out, and then the property is fit only to be dropped.
#[tactic(auto, using(crate::proofs::PropertyKeys::target_instead, crate::proofs::PropertyKeys::target_said, crate::proofs::PropertyKeys::shorthand_instead))]
pub fn substitute_assignment_target_property(
    alloc: Global,
    node: &mut Node,
) -> Result<bool, OutOfMemory>
    ensures tree { OnOk result (node.new ≡ row.target_written node.old) }
    ensures said { IfOk result (λ changed. changed ≡ row.is_target_written node.old) }
{
    if compress_assignment_target_property(alloc, node)? {
        return Ok(true);
    }
    let changed = substitute_held_key(alloc, node)?;
    Ok(changed)
}

// A property that is assigned to becomes the shorthand, or a key is spelled otherwise. The answer
// says whether anything changed.
#[tactic(auto, using(crate::proofs::PropertyKeys::key_instead, crate::proofs::PropertyKeys::key_said, crate::proofs::PropertyKeys::doubled_instead))]
fn rewrite_key(alloc: Global, node: &mut Node) -> Result<bool, OutOfMemory>
    ensures tree { OnOk result (node.new ≡ written node.old) }
    ensures said { IfOk result (λ changed. changed ≡ is_written node.old) }
{
    if compress_assignment_target_property(alloc, node)? {
        return Ok(true);
    }
    let changed = substitute_key(alloc, node)?;
    Ok(changed)
}

/// The rows on keys of patterns and classes as a rule: of each property of a pattern, each method,
/// each field and what declares a pattern.
pub struct SubstitutePropertyKeys;

impl<C: Context> Rule<C> for SubstitutePropertyKeys {
    ghost gives = { λ o q. Gives };

    ghost rests = { λ o q. Rests };

    ghost lighter = { λ o q. held_keys_lighter };

    #[tactic(auto, using(crate::proofs::PropertyKeys::applied))]
    fn apply(
        &self,
        alloc: Global,
        node: &mut Node,
        place: Position,
        context: &mut C,
    ) -> Result<bool, OutOfMemory> {
        match place {
            Position::Elsewhere => Ok(rewrite_key(alloc, node)?),
            _ => Ok(false),
        }
    }
}
