// Imports and exports (ESTree; ECMA-262, "Imports" and "Exports").

ghost use Rattle.std.specs.Prelude.{◌≡◌, option_map};
ghost use Rattle.serde_json.specs.View.{view, items_view};
ghost use Rattle.mini_accept.specs.Modules as imports;
ghost use Rattle.mini_accept.specs.Modules.{has_attributes, is_whole_export};
ghost use Rattle.mini_fields.specs.Views.{place_of};
ghost use Rattle.mini_plan.specs.Views.{plan_of};

use crate::plan::{Below, Items, Plan};
use mini_fields::{Class, Place, has_no_item, is_given, list_at};
use mini_model::Shape;
use serde_json::Value;

// No attributes: others aren't read.
fn has_attributes(value: &Value) -> bool
    ensures { result ≡ has_attributes (view value.now) }
{
    !is_given("attributes", value) || list_at("attributes", value).is_some()
}

const IMPORT_DECLARATION: [Below; 2] = [
    Below::Many("specifiers", Items::Each(Class::Import)),
    Below::Node("source", Class::String),
];

/// `ImportDeclaration`
pub fn import(value: &Value) -> Option<Plan<'_>>
    ensures { option_map (plan_of (view value.now)) result ≡ imports.import (view value.now) }
{
    list_at("specifiers", value)?;
    if !has_attributes(value) {
        return None;
    }
    Plan::of(Shape::ImportDeclaration, &IMPORT_DECLARATION)
}

// A declaration that is exported has no specifiers and no source.
fn is_whole_export(value: &Value, specifiers: &[Value]) -> bool
    ensures { result ≡ is_whole_export (view value.now) (items_view specifiers.now) }
{
    !is_given("declaration", value) || (has_no_item(specifiers) && !is_given("source", value))
}

const EXPORT_OF_OTHERS: [Below; 3] = [
    Below::Optional("declaration", Class::ExportedDeclaration),
    Below::Many("specifiers", Items::Exported(false)),
    Below::Optional("source", Class::String),
];

const EXPORT_OF_OWN: [Below; 3] = [
    Below::Optional("declaration", Class::ExportedDeclaration),
    Below::Many("specifiers", Items::Exported(true)),
    Below::Optional("source", Class::String),
];

/// `ExportNamedDeclaration`
pub fn export_named(value: &Value) -> Option<Plan<'_>>
    ensures { option_map (plan_of (view value.now)) result ≡ imports.export_named (view value.now) }
{
    let specifiers = list_at("specifiers", value)?;
    if !has_attributes(value) || !is_whole_export(value, specifiers) {
        return None;
    }
    if is_given("source", value) {
        Plan::of(Shape::ExportNamedDeclaration, &EXPORT_OF_OTHERS)
    } else {
        Plan::of(Shape::ExportNamedDeclaration, &EXPORT_OF_OWN)
    }
}

const OWN_SPECIFIER: [Below; 2] = [
    Below::Node("exported", Class::ModuleName),
    Below::Placed("local", Place::LocalName),
];

const OTHER_SPECIFIER: [Below; 2] = [
    Below::Node("exported", Class::ModuleName),
    Below::Node("local", Class::ModuleName),
];

/// `ExportSpecifier`: a name of this module is a variable; one of another module isn't.
pub fn export_specifier(place: Place, value: &Value) -> Option<Plan<'_>>
    ensures { option_map (plan_of (view value.now)) result ≡ imports.export_specifier (place_of place) (view value.now) }
{
    match place {
        Place::Exported(true) => Plan::of(Shape::ExportSpecifier, &OWN_SPECIFIER),
        _ => Plan::of(Shape::ExportSpecifier, &OTHER_SPECIFIER),
    }
}

const EXPORT_ALL_DECLARATION: [Below; 2] = [
    Below::Optional("exported", Class::ModuleName),
    Below::Node("source", Class::String),
];

/// `ExportAllDeclaration`
pub fn export_all(value: &Value) -> Option<Plan<'_>>
    ensures { option_map (plan_of (view value.now)) result ≡ imports.export_all (view value.now) }
{
    if !has_attributes(value) {
        return None;
    }
    Plan::of(Shape::ExportAllDeclaration, &EXPORT_ALL_DECLARATION)
}
