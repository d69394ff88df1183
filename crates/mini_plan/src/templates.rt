// Templates (ESTree; ECMA-262, "Template Literals").

ghost use Rattle.std.specs.Prelude.{◌≡◌, suc, nat_eq, option_map};
ghost use Rattle.serde_json.specs.Data.{Data};
ghost use Rattle.serde_json.specs.View.{view, items_view};
ghost use Rattle.mini_accept.specs.Fields.{item_count};
ghost use Rattle.mini_accept.specs.Expressions as expression;
ghost use Rattle.mini_fields.specs.Views.{place_of, tagging_of};
ghost use Rattle.mini_plan.specs.Templates.{quasi_plan};
ghost use Rattle.mini_plan.specs.Views.{plan_of};

use crate::plan::{Below, Head, Items, Plan};
use mini_fields::{Class, Place, Tagging, cooks_to, flag_at, is_malformed, list_at, text_at};
use mini_model::Shape;
use serde_json::Value;

// How a template stands.
fn tagging_there(place: Place) -> Tagging
    ensures { tagging_of result ≡ expression.tagging_of (place_of place) }
{
    match place {
        Place::At(Class::TaggedTemplate) => Tagging::Tagged,
        _ => Tagging::Untagged,
    }
}

// How the template of a piece stands.
fn tagging_at(place: Place) -> Tagging
    ensures { tagging_of result ≡ expression.tagging_at (place_of place) }
{
    match place {
        Place::Quasi(tagging, _) => tagging,
        _ => Tagging::Untagged,
    }
}

// Whether there is one quasi more than expressions.
#[tactic(auto, using(mini_fields::proofs::Lists::item_count_length))]
fn is_one_more(quasis: &[Value], expressions: &[Value]) -> bool
    ensures { result ≡ nat_eq (item_count (items_view quasis.now)) (suc (item_count (items_view expressions.now))) }
{
    quasis.len().checked_sub(1) == Some(expressions.len())
}

const TAGGED_TEMPLATE: [Below; 2] = [
    Below::Many("quasis", Items::Quasis(Tagging::Tagged)),
    Below::Many("expressions", Items::Pieces(Tagging::Tagged)),
];

const TEMPLATE_LITERAL: [Below; 2] = [
    Below::Many("quasis", Items::Quasis(Tagging::Untagged)),
    Below::Many("expressions", Items::Pieces(Tagging::Untagged)),
];

/// `TemplateLiteral`: one quasi more than expressions.
pub fn template(place: Place, value: &Value) -> Option<Plan<'_>>
    ensures { option_map (plan_of (view value.now)) result ≡ expression.template (expression.tagging_of (place_of place)) (view value.now) }
{
    let quasis = list_at("quasis", value)?;
    let expressions = list_at("expressions", value)?;
    if !is_one_more(quasis, expressions) {
        return None;
    }
    match tagging_there(place) {
        Tagging::Tagged => Plan::of(Shape::TemplateLiteral, &TAGGED_TEMPLATE),
        Tagging::Untagged => Plan::of(Shape::TemplateLiteral, &TEMPLATE_LITERAL),
    }
}

// The plan of a piece with these texts. The cooked text has to be that of the raw one; only under a
// tag may it be null, where the raw text is malformed.
#[tactic(auto, using(mini_fields::proofs::Texts::units_there, mini_accept::proofs::Texts::cooked_read))]
fn texts_plan<'v>(tagging: Tagging, tail: bool, texts: &'v Value) -> Option<Plan<'v>>
    ensures { (d : Data) → option_map (plan_of d) result ≡ quasi_plan (tagging_of tagging) tail (view texts.now) }
{
    let raw = text_at("raw", texts)?;
    match texts.get("cooked")? {
        Value::Null => match tagging {
            Tagging::Tagged if is_malformed(raw) => Some(Plan {
                head: Head::Quasi(tail, raw, None),
                children: &[],
            }),
            _ => None,
        },
        cooked => {
            let text = cooked.as_str()?;
            if !cooks_to(raw, text) {
                return None;
            }
            Some(Plan {
                head: Head::Quasi(tail, raw, Some(text)),
                children: &[],
            })
        }
    }
}

/// `TemplateElement`
pub fn quasi(place: Place, value: &Value) -> Option<Plan<'_>>
    ensures { option_map (plan_of (view value.now)) result ≡ expression.quasi (expression.tagging_at (place_of place)) (view value.now) }
{
    let tail = flag_at("tail", value)?;
    texts_plan(tagging_at(place), tail, value.get("value")?)
}
