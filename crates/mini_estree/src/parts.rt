// What is read of a node's children, part by part.

ghost use Rattle.std.specs.Prelude.{◌≡◌, option_map, is_some, if◌then◌else◌, codes};
ghost use Rattle.serde_json.specs.Find.{as_null};
ghost use Rattle.serde_json.specs.View.{view, items_view};
ghost use Rattle.mini_accept.specs.WellShaped.{a_statement, a_target_element, a_target_rest};
ghost use Rattle.mini_accept.specs.Fields.{is_given};
ghost use Rattle.mini_accept.specs.Places.{at, field, a_directive, down};
ghost use Rattle.mini_accept.specs.Plans.{tree_at, inner_at, hole, checked, each, or_rest, target_part};
ghost use Rattle.mini_accept.specs.Statements.{body};
ghost use Rattle.mini_fields.specs.Views.{class_of, depth_of, place_of};
ghost use Rattle.mini_plan.specs.Bodies.{is_before};
ghost use Rattle.mini_plan.specs.Views.{step_of, part_of, item_of, items_at, child_of};
ghost use Rattle.mini_estree.specs.Forms.{child_of_form};

use mini_fields::{Class, Depth, Place, Tagging, has_type, is_given, list_at};
use mini_plan::{Below, Items, Part, Step, directive_count};
use serde_json::Value;

/// The node that the step leads to.
pub fn down<'v>(step: Step, value: &'v Value) -> Option<&'v Value>
    ensures { option_map (λ v. view v.now) result ≡ down (step_of step) (view value.now) }
{
    match step {
        Step::Field(key) => value.get(key),
        Step::Item(key, index) => value.get(key)?.get(index),
    }
}

/// A child, as one part or as a list.
#[derive(Clone, Copy)]
pub enum Form<'v> {
    /// One part.
    One(Part),
    /// A list: how its items are read, the field that holds it, and the values of the items.
    Many(Items, &'static str, &'v [Value]),
}

// The items of a list; none where it isn't there.
fn items_at<'v>(key: &str, value: &'v Value) -> &'v [Value]
    ensures { items_view result.now ≡ items_at key.now (view value.now) }
{
    match list_at(key, value) {
        None => &[],
        Some(list) => list.as_slice(),
    }
}

// The directives and the statements of a body.
#[tactic(auto, using(mini_plan::proofs::Bodies::body_listed))]
fn body<'v>(depth: Depth, value: &'v Value) -> Form<'v>
    ensures { child_of_form result ≡ body (depth_of depth) (items_at (codes "body") (view value.now)) }
{
    let list = items_at("body", value);
    Form::Many(Items::Body(depth, directive_count(list)), "body", list)
}

// The tree of the node in a field.
fn tree(key: &'static str, class: Class) -> Part
    ensures { part_of result ≡ tree_at (field key.now) (at (class_of class)) }
{
    Part::Tree(Step::Field(key), Place::At(class))
}

// An inner expression over it.
fn inner(key: &'static str, class: Class) -> Part
    ensures { part_of result ≡ inner_at (field key.now) (at (class_of class)) }
{
    Part::Inner(Step::Field(key), Place::At(class))
}

// The part, if its field is given.
fn if_given(key: &str, value: &Value, part: Part) -> Part
    ensures { part_of result ≡ (if is_given key.now (view value.now) then part_of part else hole) }
{
    if is_given(key, value) {
        part
    } else {
        Part::Hole
    }
}

/// The form of a child.
pub fn form_of(below: Below, value: &Value) -> Form<'_>
    ensures { child_of_form result ≡ child_of (view value.now) below }
{
    match below {
        Below::Absent => Form::One(Part::Hole),
        Below::Node(key, class) => Form::One(tree(key, class)),
        Below::Placed(key, place) => Form::One(Part::Tree(Step::Field(key), place)),
        Below::Inner(key, class) => Form::One(inner(key, class)),
        Below::Checked(key, class) => Form::One(Part::Checked(Step::Field(key), Place::At(class))),
        Below::Optional(key, class) => Form::One(if_given(key, value, tree(key, class))),
        Below::OptionalInner(key, class) => Form::One(if_given(key, value, inner(key, class))),
        Below::Many(key, items) => Form::Many(items, key, items_at(key, value)),
        Below::Body(depth) => body(depth, value),
    }
}

// No node where the item is null.
fn or_hole(value: &Value, part: Part) -> Part
    ensures { part_of result ≡ (if is_some (as_null (view value.now)) then hole else part_of part) }
{
    if value.is_null() { Part::Hole } else { part }
}

// A node of one class, behind which a rest may stand.
fn or_rest(class: Class, rest: Class, last: bool, value: &Value, step: Step) -> Part
    ensures { part_of result ≡ or_rest (each (class_of class)) (class_of rest) last (view value.now) (step_of step) }
{
    if last && has_type("RestElement", value) {
        Part::Tree(step, Place::At(rest))
    } else {
        Part::Tree(step, Place::At(class))
    }
}

// An element that is assigned to.
fn target_element(last: bool, value: &Value, step: Step) -> Part
    ensures { part_of result ≡ or_rest (target_part a_target_element) a_target_rest last (view value.now) (step_of step) }
{
    if last && has_type("RestElement", value) {
        Part::Tree(step, Place::At(Class::TargetRest))
    } else if has_type("MemberExpression", value) {
        Part::Inner(step, Place::At(Class::MemberTarget))
    } else {
        Part::Tree(step, Place::At(Class::TargetElement))
    }
}

// A statement of a body with so many directives.
fn body_item(depth: Depth, directives: usize, step: Step) -> Part
    ensures { part_of result ≡ (if is_before directives (step_of step) then checked (step_of step) a_directive else tree_at (step_of step) (at (a_statement (depth_of depth)))) }
{
    match step {
        Step::Item(_, index) if index < directives => Part::Checked(step, Place::Directive),
        _ => Part::Tree(step, Place::At(Class::Statement(depth))),
    }
}

/// What an item of a list is read as; whether it is the last comes second.
pub fn item_part(items: Items, last: bool, value: &Value, step: Step) -> Part
    ensures { part_of result ≡ item_of items last (view value.now) (step_of step) }
{
    match items {
        Items::Each(class) => Part::Tree(step, Place::At(class)),
        Items::Elements => or_hole(value, Part::Tree(step, Place::At(Class::Argument))),
        Items::Parameters => or_rest(Class::Parameter, Class::PatternRest, last, value, step),
        Items::InnerArguments if has_type("SpreadElement", value) => {
            Part::Tree(step, Place::At(Class::InnerArgument))
        }
        Items::InnerArguments => Part::Inner(step, Place::At(Class::Expression)),
        Items::Exported(own) => Part::Tree(step, Place::Exported(own)),
        Items::Quasis(tagging) => Part::Tree(step, Place::Quasi(tagging, last)),
        Items::Pieces(Tagging::Tagged) => Part::Inner(step, Place::At(Class::Expression)),
        Items::Pieces(Tagging::Untagged) => Part::Tree(step, Place::At(Class::Expression)),
        Items::PatternProperties => {
            or_rest(
                Class::PatternProperty,
                Class::PatternRest,
                last,
                value,
                step,
            )
        }
        Items::PatternElements => or_hole(
            value,
            or_rest(Class::PatternElement, Class::PatternRest, last, value, step),
        ),
        Items::TargetProperties => {
            or_rest(Class::TargetProperty, Class::TargetRest, last, value, step)
        }
        Items::TargetElements => or_hole(value, target_element(last, value, step)),
        Items::Body(depth, directives) => body_item(depth, directives, step),
    }
}
