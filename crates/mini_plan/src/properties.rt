// Properties of objects (ESTree; ECMA-262, "Object Initializer").

ghost use Rattle.std.specs.Prelude.{◌≡◌, [], ◌∷◌, map, option_map, option_and_then, codes};
ghost use Rattle.serde_json.specs.Data.{Data};
ghost use Rattle.serde_json.specs.View.{view};
ghost use Rattle.serde_json.specs.Find.{get};
ghost use Rattle.mini_accept.specs.WellShaped.{is_init, a_key, value_class};
ghost use Rattle.mini_accept.specs.Expressions as expression;
ghost use Rattle.mini_accept.specs.Expressions.{is_same_name, is_name_with_default, identifier_text, repeats_key, is_whole_property};
ghost use Rattle.mini_accept.specs.Plans.{child};
ghost use Rattle.mini_plan.specs.Properties.{property_fields};
ghost use Rattle.mini_plan.specs.Views.{child_of, plan_of};

use crate::plan::{Below, Plan};
use mini_fields::{Class, flag_at, has_text, has_type, property_kind_at, text_at};
use mini_model::{PropertyKind, Shape};
use serde_json::Value;

// Whether the value is an identifier of this name.
fn is_same_name(name: Option<&str>, value: &Value) -> bool
    ensures { result ≡ is_same_name (option_map (λ s. s.now) name.entry) (view value.now) }
{
    match name {
        None => false,
        Some(name) => has_type("Identifier", value) && has_text("name", name, value),
    }
}

// Whether the value, or what of it stands before its default, is an identifier of this name.
fn is_name_with_default(name: Option<&str>, value: &Value) -> bool
    ensures { result ≡ is_name_with_default (option_map (λ s. s.now) name.entry) (view value.now) }
{
    if !has_type("AssignmentPattern", value) {
        return is_same_name(name, value);
    }
    match value.get("left") {
        None => false,
        Some(left) => is_same_name(name, left),
    }
}

// The name of an identifier.
fn identifier_text(value: &Value) -> Option<&str>
    ensures { option_map (λ s. s.now) result ≡ identifier_text (view value.now) }
{
    if has_type("Identifier", value) {
        text_at("name", value)
    } else {
        None
    }
}

// The name of a key that is an identifier.
fn key_text(value: &Value) -> Option<&str>
    ensures { option_map (λ s. s.now) result ≡ option_and_then identifier_text (get (codes "key") (view value.now)) }
{
    identifier_text(value.get("key")?)
}

/// Whether the value of a shorthand property repeats its key.
pub fn repeats_key(value: &Value) -> bool
    ensures { result ≡ repeats_key (view value.now) }
{
    match value.get("value") {
        None => false,
        Some(found) => is_name_with_default(key_text(value), found),
    }
}

/// Whether the property is no accessor.
pub fn is_init(kind: PropertyKind) -> bool
    ensures { result ≡ is_init kind }
{
    matches!(kind, PropertyKind::Init)
}

// A method or an accessor is no shorthand, and an accessor no method; a shorthand property repeats
// its key.
fn is_whole_property(fields: PropertyFields, value: &Value) -> bool
    ensures { result ≡ is_whole_property fields.kind fields.is_method fields.shorthand fields.computed (view value.now) }
{
    let is_accessor = !is_init(fields.kind);
    if fields.is_method && fields.shorthand
        || is_accessor && (fields.is_method || fields.shorthand)
    {
        return false;
    }
    !fields.shorthand || (!fields.computed && repeats_key(value))
}

const COMPUTED_METHOD: [Below; 2] = [
    Below::Node("key", Class::Key(true)),
    Below::Node("value", Class::Method),
];

const METHOD: [Below; 2] = [
    Below::Node("key", Class::Key(false)),
    Below::Node("value", Class::Method),
];

const COMPUTED_VALUE: [Below; 2] = [
    Below::Node("key", Class::Key(true)),
    Below::Node("value", Class::Expression),
];

const VALUE: [Below; 2] = [
    Below::Node("key", Class::Key(false)),
    Below::Node("value", Class::Expression),
];

// The children of a property of an object literal.
fn children(kind: PropertyKind, is_method: bool, computed: bool) -> &'static [Below]
    ensures { (d : Data) → map (child_of d) result.now ≡ child (codes "key") (a_key computed) ∷ child (codes "value") (value_class kind is_method) ∷ [] }
{
    if is_method || !is_init(kind) {
        if computed { &COMPUTED_METHOD } else { &METHOD }
    } else if computed {
        &COMPUTED_VALUE
    } else {
        &VALUE
    }
}

/// The plain fields of a property.
#[derive(Clone, Copy)]
pub struct PropertyFields {
    /// Whether it is a value or method, a getter or a setter.
    pub kind: PropertyKind,
    /// The field `method`.
    pub is_method: bool,
    /// The field `shorthand`.
    pub shorthand: bool,
    /// The field `computed`.
    pub computed: bool,
}

/// The plain fields of a property, by its JSON value; None where one of them has another form.
pub fn property_fields(value: &Value) -> Option<PropertyFields>
    ensures { result ≡ property_fields (view value.now) }
{
    let kind = property_kind_at("kind", value)?;
    let is_method = flag_at("method", value)?;
    let shorthand = flag_at("shorthand", value)?;
    let computed = flag_at("computed", value)?;
    Some(PropertyFields {
        kind,
        is_method,
        shorthand,
        computed,
    })
}

/// `Property` of an object literal.
pub fn object_property(value: &Value) -> Option<Plan<'_>>
    ensures { option_map (plan_of (view value.now)) result ≡ expression.object_property (view value.now) }
{
    let fields = property_fields(value)?;
    if !is_whole_property(fields, value) {
        return None;
    }
    Plan::of(
        Shape::ObjectProperty(
            fields.kind,
            fields.is_method,
            fields.shorthand,
            fields.computed,
        ),
        children(fields.kind, fields.is_method, fields.computed),
    )
}
