// Functions and classes (ESTree; ECMA-262, "Functions and Classes").

ghost use Rattle.std.specs.Prelude.{◌≡◌, ◌&&◌, is_some, option_map, codes};
ghost use Rattle.serde_json.specs.View.{view};
ghost use Rattle.mini_model.specs.Texts.{units_of};
ghost use Rattle.mini_accept.specs.WellShaped.{is_text};
ghost use Rattle.mini_accept.specs.Fields.{has_units, list_at, flag_at};
ghost use Rattle.mini_accept.specs.Functions as function;
ghost use Rattle.mini_accept.specs.Functions.{is_default_export, is_named, names_constructor, is_constructor, has_its_kind};
ghost use Rattle.mini_fields.specs.Views.{place_of};
ghost use Rattle.mini_plan.specs.Views.{plan_of};

use crate::plan::{Below, Head, Items, Plan};
use mini_fields::{
    Class, Place, child_has_type, flag_at, has_flag, has_list, has_type, is_given,
    is_string_literal, method_kind_at, text_at,
};
use mini_model::{MethodDefinitionKind, Shape};
use serde_json::Value;

// ---- functions

// Whether a declaration there is exported by default.
fn is_default_export(place: Place) -> bool
    ensures { result ≡ is_default_export (place_of place) }
{
    match place {
        Place::At(Class::DefaultExport) => true,
        _ => false,
    }
}

// Whether a declaration there has a name, or needs none since it is exported by default.
fn is_named(declaration: bool, place: Place, value: &Value) -> bool
    ensures { result ≡ is_named declaration (place_of place) (view value.now) }
{
    !declaration || is_default_export(place) || is_given("id", value)
}

// Whether the parameters are a list, and `async` is a flag.
fn has_parameters(value: &Value) -> bool
    ensures { result ≡ (is_some (list_at (codes "params") (view value.now)) && is_some (flag_at (codes "async") (view value.now))) }
{
    has_list("params", value) && has_flag("async", value)
}

const FUNCTION: [Below; 3] = [
    Below::Optional("id", Class::Binding),
    Below::Many("params", Items::Parameters),
    Below::Node("body", Class::FunctionBody),
];

/// `FunctionDeclaration` or `FunctionExpression`
pub fn function(declaration: bool, place: Place, value: &Value) -> Option<Plan<'_>>
    ensures { option_map (plan_of (view value.now)) result ≡ function.function declaration (place_of place) (view value.now) }
{
    let generator = flag_at("generator", value)?;
    if !has_parameters(value) || !is_named(declaration, place, value) {
        return None;
    }
    Some(Plan {
        head: Head::Function(declaration, generator, value),
        children: &FUNCTION,
    })
}

const ARROW_FUNCTION_EXPRESSION: [Below; 2] = [
    Below::Many("params", Items::Parameters),
    Below::Node("body", Class::ArrowBody),
];

/// `ArrowFunctionExpression`: `expression` says that the body is one.
pub fn arrow(value: &Value) -> Option<Plan<'_>>
    ensures { option_map (plan_of (view value.now)) result ≡ function.arrow (view value.now) }
{
    let expression = flag_at("expression", value)?;
    let is_block = child_has_type("body", "BlockStatement", value);
    if !has_parameters(value) || expression == is_block {
        return None;
    }
    Some(Plan {
        head: Head::Arrow(value),
        children: &ARROW_FUNCTION_EXPRESSION,
    })
}

// ---- classes

// The last child is the name that a declaration holds once more.
const CLASS_DECLARATION: [Below; 4] = [
    Below::Optional("id", Class::Binding),
    Below::OptionalInner("superClass", Class::Expression),
    Below::Node("body", Class::ClassBody),
    Below::Optional("id", Class::Binding),
];

const CLASS_EXPRESSION: [Below; 4] = [
    Below::Optional("id", Class::Binding),
    Below::OptionalInner("superClass", Class::Expression),
    Below::Node("body", Class::ClassBody),
    Below::Absent,
];

/// `ClassDeclaration` or `ClassExpression`
pub fn class(declaration: bool, place: Place, value: &Value) -> Option<Plan<'_>>
    ensures { option_map (plan_of (view value.now)) result ≡ function.class declaration (place_of place) (view value.now) }
{
    if !is_named(declaration, place, value) {
        return None;
    }
    if declaration {
        Plan::of(Shape::Class(true), &CLASS_DECLARATION)
    } else {
        Plan::of(Shape::Class(false), &CLASS_EXPRESSION)
    }
}

// Whether the text is `constructor`, unit by unit.
fn is_constructor_text(text: &str) -> bool
    ensures { result ≡ is_text (codes "constructor") (units_of text.now) }
{
    text == "constructor"
}

// Whether the field is the text `constructor`.
fn says_constructor(key: &str, value: &Value) -> bool
    ensures { result ≡ has_units key.now (codes "constructor") (view value.now) }
{
    match text_at(key, value) {
        None => false,
        Some(text) => is_constructor_text(text),
    }
}

// Whether a key is the name or the text `constructor`.
fn names_constructor(key: &Value) -> bool
    ensures { result ≡ names_constructor (view key.now) }
{
    (has_type("Identifier", key) && says_constructor("name", key))
        || (is_string_literal(key) && says_constructor("value", key))
}

// Whether the key makes a method that isn't static the constructor (ECMA-262, ConstructorMethod).
fn is_constructor(computed: bool, is_static: bool, value: &Value) -> bool
    ensures { result ≡ is_constructor computed is_static (view value.now) }
{
    if is_static || computed {
        return false;
    }
    match value.get("key") {
        None => false,
        Some(key) => names_constructor(key),
    }
}

// Whether a method is the constructor just where its key makes it that; an accessor may have any
// key.
fn has_its_kind(kind: MethodDefinitionKind, is_it: bool) -> bool
    ensures { result ≡ has_its_kind kind is_it }
{
    match kind {
        MethodDefinitionKind::Constructor => is_it,
        MethodDefinitionKind::Method => !is_it,
        MethodDefinitionKind::Get | MethodDefinitionKind::Set => true,
    }
}

const COMPUTED_METHOD: [Below; 2] = [
    Below::Inner("key", Class::Expression),
    Below::Node("value", Class::Method),
];

const METHOD: [Below; 2] = [
    Below::Node("key", Class::PrivateOrKey),
    Below::Node("value", Class::Method),
];

/// `MethodDefinition`
pub fn method_definition(value: &Value) -> Option<Plan<'_>>
    ensures { option_map (plan_of (view value.now)) result ≡ function.method_definition (view value.now) }
{
    let kind = method_kind_at("kind", value)?;
    let computed = flag_at("computed", value)?;
    let is_static = flag_at("static", value)?;
    if !has_its_kind(kind, is_constructor(computed, is_static, value)) {
        return None;
    }
    let shape = Shape::MethodDefinition(kind, computed, is_static);
    Plan::of(shape, if computed { &COMPUTED_METHOD } else { &METHOD })
}

const COMPUTED_PROPERTY: [Below; 2] = [
    Below::Inner("key", Class::Expression),
    Below::OptionalInner("value", Class::Expression),
];

const PROPERTY: [Below; 2] = [
    Below::Node("key", Class::PrivateOrKey),
    Below::OptionalInner("value", Class::Expression),
];

/// `PropertyDefinition`
pub fn property_definition(value: &Value) -> Option<Plan<'_>>
    ensures { option_map (plan_of (view value.now)) result ≡ function.property_definition (view value.now) }
{
    let computed = flag_at("computed", value)?;
    let is_static = flag_at("static", value)?;
    let shape = Shape::PropertyDefinition(computed, is_static);
    Plan::of(
        shape,
        if computed {
            &COMPUTED_PROPERTY
        } else {
            &PROPERTY
        },
    )
}
