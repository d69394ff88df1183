// Calls, members and chains (ESTree; ECMA-262, "Left-Hand-Side Expressions").

ghost use Rattle.std.specs.Prelude.{◌≡◌, false, if◌then◌else◌, option_map};
ghost use Rattle.serde_json.specs.Data.{Data};
ghost use Rattle.serde_json.specs.View.{view};
ghost use Rattle.mini_accept.specs.WellShaped.{a_link, an_expression};
ghost use Rattle.mini_accept.specs.Expressions as expression;
ghost use Rattle.mini_accept.specs.Expressions.{is_link, computed_member, named_member, link_key, is_chain_link, has_mark};
ghost use Rattle.mini_fields.specs.Views.{place_of};
ghost use Rattle.mini_plan.specs.Views.{plan_of};

use crate::plan::{Below, Items, Plan};
use mini_fields::{Class, Place, child_has_type, flag_at, has_list, has_true, has_type};
use mini_model::Shape;
use serde_json::Value;

// Whether the node is a link of a chain, which may be optional (ECMA-262, "Optional Chains").
fn is_link(place: Place) -> bool
    ensures { result ≡ is_link (place_of place) }
{
    match place {
        Place::At(Class::Link) | Place::At(Class::Chain) => true,
        _ => false,
    }
}

// ---- calls

const SUPER_CALL: [Below; 2] = [
    Below::Node("callee", Class::Super),
    Below::Many("arguments", Items::InnerArguments),
];

const LINK_CALL: [Below; 2] = [
    Below::Node("callee", Class::Link),
    Below::Many("arguments", Items::Each(Class::Argument)),
];

const CALL: [Below; 2] = [
    Below::Node("callee", Class::Expression),
    Below::Many("arguments", Items::Each(Class::Argument)),
];

/// `CallExpression`: a link of a chain may be optional.
pub fn call(place: Place, value: &Value) -> Option<Plan<'_>>
    ensures { option_map (plan_of (view value.now)) result ≡ expression.call (place_of place) (view value.now) }
{
    let optional = flag_at("optional", value)?;
    if !has_list("arguments", value) {
        return None;
    }
    if child_has_type("callee", "Super", value) {
        if optional {
            None
        } else {
            Plan::of(Shape::SuperCallExpression, &SUPER_CALL)
        }
    } else if is_link(place) {
        Plan::of(Shape::CallExpression(optional), &LINK_CALL)
    } else if optional {
        None
    } else {
        Plan::of(Shape::CallExpression(optional), &CALL)
    }
}

// ---- members

const SUPER_COMPUTED_MEMBER: [Below; 2] = [
    Below::Node("object", Class::Super),
    Below::Inner("property", Class::Expression),
];

const SUPER_STATIC_MEMBER: [Below; 2] = [
    Below::Node("object", Class::Super),
    Below::Node("property", Class::Label),
];

// A member of `super`, in brackets or by its name.
fn super_member<'v>(computed: bool) -> Option<Plan<'v>>
    ensures { (d : Data) → option_map (plan_of d) result ≡ expression.super_member computed }
{
    if computed {
        Plan::of(Shape::SuperComputedMemberExpression, &SUPER_COMPUTED_MEMBER)
    } else {
        Plan::of(Shape::SuperStaticMemberExpression, &SUPER_STATIC_MEMBER)
    }
}

const COMPUTED_LINK: [Below; 2] = [
    Below::Node("object", Class::Link),
    Below::Node("property", Class::Expression),
];

const PRIVATE_LINK: [Below; 2] = [
    Below::Inner("object", Class::Link),
    Below::Node("property", Class::PrivateName),
];

const STATIC_LINK: [Below; 2] = [
    Below::Node("object", Class::Link),
    Below::Node("property", Class::Label),
];

// A member that is a link of a chain.
fn link_member(optional: bool, computed: bool, value: &Value) -> Option<Plan<'_>>
    ensures { option_map (plan_of (view value.now)) result ≡ (if computed then computed_member optional a_link else named_member optional a_link (view value.now)) }
{
    if computed {
        Plan::of(Shape::ComputedMemberExpression(optional), &COMPUTED_LINK)
    } else if child_has_type("property", "PrivateIdentifier", value) {
        Plan::of(Shape::PrivateFieldExpression(optional), &PRIVATE_LINK)
    } else {
        Plan::of(Shape::StaticMemberExpression(optional), &STATIC_LINK)
    }
}

const COMPUTED_MEMBER: [Below; 2] = [
    Below::Node("object", Class::Expression),
    Below::Node("property", Class::Expression),
];

const PRIVATE_MEMBER: [Below; 2] = [
    Below::Inner("object", Class::Expression),
    Below::Node("property", Class::PrivateName),
];

const STATIC_MEMBER: [Below; 2] = [
    Below::Node("object", Class::Expression),
    Below::Node("property", Class::Label),
];

// Another member of an expression.
fn plain_member(computed: bool, value: &Value) -> Option<Plan<'_>>
    ensures { option_map (plan_of (view value.now)) result ≡ (if computed then computed_member false an_expression else named_member false an_expression (view value.now)) }
{
    if computed {
        Plan::of(Shape::ComputedMemberExpression(false), &COMPUTED_MEMBER)
    } else if child_has_type("property", "PrivateIdentifier", value) {
        Plan::of(Shape::PrivateFieldExpression(false), &PRIVATE_MEMBER)
    } else {
        Plan::of(Shape::StaticMemberExpression(false), &STATIC_MEMBER)
    }
}

/// `MemberExpression`: a link of a chain may be optional.
pub fn member_expression(place: Place, value: &Value) -> Option<Plan<'_>>
    ensures { option_map (plan_of (view value.now)) result ≡ expression.member_expression (place_of place) (view value.now) }
{
    let optional = flag_at("optional", value)?;
    let computed = flag_at("computed", value)?;
    if child_has_type("object", "Super", value) {
        if optional {
            None
        } else {
            super_member(computed)
        }
    } else if is_link(place) {
        link_member(optional, computed, value)
    } else if optional {
        None
    } else {
        plain_member(computed, value)
    }
}

// ---- chains

// The field that leads to the next link of a chain; empty where the node is no link.
fn link_key(value: &Value) -> &'static str
    ensures { result.now ≡ link_key (view value.now) }
{
    if has_type("CallExpression", value) {
        "callee"
    } else if has_type("MemberExpression", value) {
        "object"
    } else {
        ""
    }
}

// Whether the node is a call or a member.
fn is_chain_link(value: &Value) -> bool
    ensures { result ≡ is_chain_link (view value.now) }
{
    !link_key(value).is_empty()
}

// Whether some link of the chain is optional.
#[tactic(auto, using(crate::proofs::Marks::below_is_smaller))]
fn has_mark(value: &Value) -> bool
    ensures { result ≡ has_mark (view value.now) }
{
    if !is_chain_link(value) {
        return false;
    }
    if has_true("optional", value) {
        return true;
    }
    match value.get(link_key(value)) {
        None => false,
        Some(next) => has_mark(next),
    }
}

const CHAIN_EXPRESSION: [Below; 1] = [Below::Node("expression", Class::Chain)];

/// `ChainExpression`: some link of it is optional.
pub fn chain(value: &Value) -> Option<Plan<'_>>
    ensures { option_map (plan_of (view value.now)) result ≡ expression.chain (view value.now) }
{
    if !has_mark(value.get("expression")?) {
        return None;
    }
    Plan::of(Shape::ChainExpression, &CHAIN_EXPRESSION)
}
