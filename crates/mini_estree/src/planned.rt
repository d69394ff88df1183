// The plan of a node where it stands, or the defect that it has itself.

ghost use Rattle.std.specs.Prelude.{◌≡◌, Bool, None, Ok, Err, IfOk, IfErr, map};
ghost use Rattle.serde_json.specs.View.{view, items_view};
ghost use Rattle.mini_accept.specs.WellShaped.{is_strict_in};
ghost use Rattle.mini_accept.specs.Accept.{is_part_placed, are_parts_placed, is_child_placed, are_placed, plan};
ghost use Rattle.mini_accept.specs.Fields.{kind_of};
ghost use Rattle.mini_accept.specs.Plans.{parts_from};
ghost use Rattle.mini_fields.specs.Views.{defect_of, place_of};
ghost use Rattle.mini_plan.specs.Views.{part_of, item_of, child_of, shape_of_head, plan_of};

use crate::head::is_strict_in;
use crate::parts::{Form, down, form_of, item_part};
use mini_fields::{
    Defect, Place, is_misplaced, is_unread, is_unread_unknown, kind_of, may_stand_by,
};
use mini_plan::{Below, Items, Part, Plan, Step, entry};
use serde_json::Value;

// ---- the nodes below stand where they may

fn is_part_placed(strict: bool, part: Part, value: &Value) -> bool
    ensures { result ≡ is_part_placed strict (view value.now) (part_of part) }
{
    match part {
        Part::Hole => true,
        Part::Tree(step, place) | Part::Inner(step, place) | Part::Checked(step, place) => {
            match down(step, value) {
                None => false,
                Some(found) => !is_misplaced(strict, place, found),
            }
        }
    }
}

fn is_list_placed(
    strict: bool,
    items: Items,
    key: &'static str,
    list: &[Value],
    value: &Value,
) -> bool
    ensures { result ≡ are_parts_placed strict (view value.now) (parts_from (item_of items) key.now 0 (items_view list.now)) }
{
    for (index, item) in list.iter().enumerate() {
        let last = index + 1 == list.len();
        let part = item_part(items, last, item, Step::Item(key, index));
        if !is_part_placed(strict, part, value) {
            return false;
        }
    }
    true
}

fn is_child_placed(strict: bool, below: Below, value: &Value) -> bool
    ensures { result ≡ is_child_placed strict (view value.now) (child_of (view value.now) below) }
{
    match form_of(below, value) {
        Form::One(part) => is_part_placed(strict, part, value),
        Form::Many(items, key, list) => is_list_placed(strict, items, key, list, value),
    }
}

fn are_placed(strict: bool, children: &[Below], value: &Value) -> bool
    ensures { result ≡ are_placed strict (view value.now) (map (child_of (view value.now)) children.now) }
{
    match children {
        [] => true,
        [below, rest @ ..] => {
            is_child_placed(strict, *below, value) && are_placed(strict, rest, value)
        }
    }
}

// ---- plans

// The defect of a node whose type isn't in the table.
#[tactic(auto, using(crate::proofs::Plans::unread, crate::proofs::Plans::unknown))]
fn unknown_defect(place: Place, value: &Value) -> Defect
    ensures { (strict : Bool) → kind_of (view value.now) ≡ None → plan strict (place_of place) (view value.now) ≡ Err (defect_of result) }
{
    if is_unread_unknown(place, value) {
        Defect::Unsupported
    } else {
        Defect::BadShape
    }
}

/// How a node in a place is read, in strict or sloppy code, or the defect that it has itself.
#[tactic(auto, using(crate::proofs::Plans::unread, crate::proofs::Plans::misplaced, crate::proofs::Plans::unplanned, crate::proofs::Plans::placed, crate::proofs::Plans::displaced))]
pub fn plan(strict: bool, place: Place, value: &Value) -> Result<Plan<'_>, Defect>
    ensures planned { IfOk result (λ x. plan strict (place_of place) (view value.now) ≡ Ok (plan_of (view value.now) x)) }
    ensures refused { IfErr result (λ e. plan strict (place_of place) (view value.now) ≡ Err (defect_of e)) }
{
    let Some(kind) = kind_of(value) else {
        return Err(unknown_defect(place, value));
    };
    if is_unread(strict, place, kind, value) {
        return Err(Defect::Unsupported);
    }
    if !may_stand_by(place, kind, value) {
        return Err(Defect::BadShape);
    }
    match entry(kind, place, value) {
        None => Err(Defect::BadShape),
        Some(found) => {
            let inside = is_strict_in(strict, &found.head);
            if are_placed(inside, found.children, value) {
                Ok(found)
            } else {
                Err(Defect::BadShape)
            }
        }
    }
}
