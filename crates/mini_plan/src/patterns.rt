// Patterns: those that a declaration binds, and those that are assigned to (ESTree; ECMA-262,
// "Destructuring Binding Patterns" and "Destructuring Assignment").

ghost use Rattle.std.specs.Prelude.{◌≡◌, [], ◌∷◌, ◌&&◌, ◌||◌, not, map, option_map, codes};
ghost use Rattle.serde_json.specs.Data.{Data};
ghost use Rattle.serde_json.specs.View.{view};
ghost use Rattle.mini_accept.specs.Patterns as pattern;
ghost use Rattle.mini_accept.specs.Patterns.{is_binding, default_left};
ghost use Rattle.mini_accept.specs.Expressions.{repeats_key};
ghost use Rattle.mini_accept.specs.Plans.{inner};
ghost use Rattle.mini_accept.specs.WellShaped.{an_expression, is_init};
ghost use Rattle.mini_fields.specs.Views.{place_of};
ghost use Rattle.mini_plan.specs.Views.{child_of, plan_of};

use crate::plan::{Below, Items, Plan};
use crate::properties::{PropertyFields, is_init, object_property, property_fields, repeats_key};
use mini_fields::{Class, Place, child_has_type, has_list};
use mini_model::Shape;
use serde_json::Value;

// Whether the pattern in the place is one that a declaration binds.
fn is_binding(place: Place) -> bool
    ensures { result ≡ is_binding (place_of place) }
{
    match place {
        Place::At(Class::Pattern)
        | Place::At(Class::PatternElement)
        | Place::At(Class::Parameter)
        | Place::At(Class::PatternRest) => true,
        _ => false,
    }
}

const PATTERN_PROPERTIES: [Below; 1] = [Below::Many("properties", Items::PatternProperties)];

const TARGET_PROPERTIES: [Below; 1] = [Below::Many("properties", Items::TargetProperties)];

/// `ObjectPattern`
pub fn object_pattern(place: Place, value: &Value) -> Option<Plan<'_>>
    ensures { option_map (plan_of (view value.now)) result ≡ pattern.object_pattern (place_of place) (view value.now) }
{
    if !has_list("properties", value) {
        None
    } else if is_binding(place) {
        Plan::of(Shape::ObjectPattern, &PATTERN_PROPERTIES)
    } else {
        Plan::of(Shape::ObjectAssignmentTarget, &TARGET_PROPERTIES)
    }
}

const PATTERN_ELEMENTS: [Below; 1] = [Below::Many("elements", Items::PatternElements)];

const TARGET_ELEMENTS: [Below; 1] = [Below::Many("elements", Items::TargetElements)];

/// `ArrayPattern`
pub fn array_pattern(place: Place, value: &Value) -> Option<Plan<'_>>
    ensures { option_map (plan_of (view value.now)) result ≡ pattern.array_pattern (place_of place) (view value.now) }
{
    if !has_list("elements", value) {
        None
    } else if is_binding(place) {
        Plan::of(Shape::ArrayPattern, &PATTERN_ELEMENTS)
    } else {
        Plan::of(Shape::ArrayAssignmentTarget, &TARGET_ELEMENTS)
    }
}

const COMPUTED_BINDING: [Below; 2] = [
    Below::Inner("key", Class::Expression),
    Below::Node("value", Class::PatternElement),
];

const BINDING: [Below; 2] = [
    Below::Node("key", Class::InnerKey),
    Below::Node("value", Class::PatternElement),
];

const SHORTHAND: [Below; 2] = [
    Below::Node("key", Class::Label),
    Below::Node("value", Class::NamedTarget),
];

const COMPUTED_MEMBER: [Below; 2] = [
    Below::Inner("key", Class::Expression),
    Below::Inner("value", Class::MemberTarget),
];

const MEMBER: [Below; 2] = [
    Below::Node("key", Class::InnerKey),
    Below::Inner("value", Class::MemberTarget),
];

const COMPUTED_TARGET: [Below; 2] = [
    Below::Inner("key", Class::Expression),
    Below::Node("value", Class::TargetElement),
];

const TARGET: [Below; 2] = [
    Below::Node("key", Class::InnerKey),
    Below::Node("value", Class::TargetElement),
];

// A property of a pattern that is assigned to.
fn target_property(shorthand: bool, computed: bool, value: &Value) -> Option<Plan<'_>>
    ensures { option_map (plan_of (view value.now)) result ≡ pattern.target_property shorthand computed (view value.now) }
{
    if shorthand {
        return Plan::of(Shape::AssignmentTargetPropertyIdentifier, &SHORTHAND);
    }
    let is_member = child_has_type("value", "MemberExpression", value);
    let shape = Shape::AssignmentTargetPropertyProperty(computed);
    match (is_member, computed) {
        (true, true) => Plan::of(shape, &COMPUTED_MEMBER),
        (true, false) => Plan::of(shape, &MEMBER),
        (false, true) => Plan::of(shape, &COMPUTED_TARGET),
        (false, false) => Plan::of(shape, &TARGET),
    }
}

// No method and no accessor; a shorthand property repeats its key.
fn is_pattern_property(fields: PropertyFields, value: &Value) -> bool
    ensures { result ≡ (is_init fields.kind && (not fields.is_method && (not fields.shorthand || (not fields.computed && repeats_key (view value.now))))) }
{
    if fields.is_method || !is_init(fields.kind) {
        return false;
    }
    !fields.shorthand || (!fields.computed && repeats_key(value))
}

// A property of a pattern that binds.
fn binding_property<'v>(shorthand: bool, computed: bool) -> Option<Plan<'v>>
    ensures { (d : Data) → option_map (plan_of d) result ≡ pattern.binding_property shorthand computed }
{
    let shape = Shape::BindingProperty(shorthand, computed);
    if computed {
        Plan::of(shape, &COMPUTED_BINDING)
    } else {
        Plan::of(shape, &BINDING)
    }
}

/// `Property` of a pattern: no method and no accessor; a shorthand property repeats its key.
fn pattern_property(binds: bool, value: &Value) -> Option<Plan<'_>>
    ensures { option_map (plan_of (view value.now)) result ≡ pattern.pattern_property binds (view value.now) }
{
    let fields = property_fields(value)?;
    if !is_pattern_property(fields, value) {
        None
    } else if binds {
        binding_property(fields.shorthand, fields.computed)
    } else {
        target_property(fields.shorthand, fields.computed, value)
    }
}

/// `Property`, of a pattern or of an object literal.
pub fn property(place: Place, value: &Value) -> Option<Plan<'_>>
    ensures { option_map (plan_of (view value.now)) result ≡ pattern.property (place_of place) (view value.now) }
{
    match place {
        Place::At(Class::PatternProperty) => pattern_property(true, value),
        Place::At(Class::TargetProperty) => pattern_property(false, value),
        _ => object_property(value),
    }
}

const PATTERN_REST: [Below; 1] = [Below::Node("argument", Class::Pattern)];

const MEMBER_REST: [Below; 1] = [Below::Inner("argument", Class::MemberTarget)];

const TARGET_REST: [Below; 1] = [Below::Node("argument", Class::ElementTarget)];

/// `RestElement`
pub fn rest(place: Place, value: &Value) -> Option<Plan<'_>>
    ensures { option_map (plan_of (view value.now)) result ≡ pattern.rest (place_of place) (view value.now) }
{
    if is_binding(place) {
        Plan::of(Shape::RestElement, &PATTERN_REST)
    } else if child_has_type("argument", "MemberExpression", value) {
        Plan::of(Shape::RestElement, &MEMBER_REST)
    } else {
        Plan::of(Shape::RestElement, &TARGET_REST)
    }
}

const NAME_DEFAULT: [Below; 2] = [
    Below::Node("left", Class::TargetName),
    Below::Inner("right", Class::Expression),
];

const PATTERN_DEFAULT: [Below; 2] = [
    Below::Node("left", Class::Pattern),
    Below::Inner("right", Class::Expression),
];

const MEMBER_DEFAULT: [Below; 2] = [
    Below::Inner("left", Class::MemberTarget),
    Below::Inner("right", Class::Expression),
];

const TARGET_DEFAULT: [Below; 2] = [
    Below::Node("left", Class::ElementTarget),
    Below::Inner("right", Class::Expression),
];

// The children of a pattern with a default. The left side of a shorthand property's value is a
// name.
fn default_children(place: Place, value: &Value) -> &'static [Below]
    ensures { map (child_of (view value.now)) result.now ≡ default_left (place_of place) (view value.now) ∷ inner (codes "right") an_expression ∷ [] }
{
    match place {
        Place::At(Class::NamedTarget) => &NAME_DEFAULT,
        _ if is_binding(place) => &PATTERN_DEFAULT,
        _ if child_has_type("left", "MemberExpression", value) => &MEMBER_DEFAULT,
        _ => &TARGET_DEFAULT,
    }
}

/// `AssignmentPattern`
pub fn default(place: Place, value: &Value) -> Option<Plan<'_>>
    ensures { option_map (plan_of (view value.now)) result ≡ pattern.default (place_of place) (view value.now) }
{
    Plan::of(Shape::AssignmentPattern, default_children(place, value))
}
