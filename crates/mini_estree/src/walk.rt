// From node to node, in the order in which they are read.

ghost use Rattle.std.specs.Prelude.{◌≡◌, ◌∷◌, [], suc, map, None, Some, Ok, IfOk, IfErr};
ghost use Rattle.std.specs.Result.{result_err};
ghost use Rattle.serde_json.specs.View.{view, items_view};
ghost use Rattle.mini_accept.specs.Accept.{reads, read_below, read_part, read_parts, read_child, read_children};
ghost use Rattle.mini_accept.specs.Places.{step_text};
ghost use Rattle.mini_accept.specs.Plans.{parts_from};
ghost use Rattle.mini_model.specs.Faults.{fault_of, IsUnder};
ghost use Rattle.mini_fields.specs.Views.{place_of, defect_of};
ghost use Rattle.mini_model.specs.Paths.{append};
ghost use Rattle.mini_model.specs.Tree.{node as tree_node, none, ◌▸◌};
ghost use Rattle.mini_model.specs.declared.shape.Shape.TheVariants as shape;
ghost use Rattle.mini_plan.specs.Views.{step_of, part_of, item_of, child_of, shape_of_head, names_of_head};
ghost use Rattle.mini_estree.specs.Reads.{Blames, Gives, fault_told, onto, number_given, first_below};

use crate::head::{is_strict_in, name, shape, takes_number};
use crate::parts::{Form, down, form_of, item_part};
use crate::planned::plan;
use mini_fields::{Defect, Place};
use mini_model::{MinifyError, OutOfMemory, Shape, bad_shape, too_deep, unsupported};
use mini_node::{Node, Nodes};
use mini_plan::{Below, Head, Items, Part, Plan, Step};
use serde_json::Value;
use std::alloc::Global;

// ---- errors

// The error of a defect of a node itself.
fn refusal(alloc: Global, defect: Defect) -> MinifyError
    ensures { fault_of result ≡ Some (fault_told (record { defect = defect_of defect; at = [] })) }
{
    match defect {
        Defect::BadShape => bad_shape(alloc),
        Defect::Unsupported => unsupported(alloc),
    }
}

// The error of a node, as seen from the node above.
fn under(alloc: Global, error: MinifyError, step: Step) -> MinifyError
    ensures { IsUnder (step_text (step_of step)) (fault_of error) (fault_of result) }
{
    match step {
        Step::Field(key) => error.under(alloc, key),
        Step::Item(key, index) => error.under_item(alloc, key, index),
    }
}

// The number behind this one. That there are so many nodes counts as want of memory.
fn next_number(n: u32) -> Result<u32, MinifyError>
    ensures next { IfOk result (λ m. m ≡ suc n) }
    ensures last { IfErr result (λ e. fault_of e ≡ None) }
{
    match n.checked_add(1) {
        None => Err(MinifyError::OutOfMemory),
        Some(next) => Ok(next),
    }
}

// The number of a node, which is 0 where it takes none, and the first one below it.
fn numbering(takes_number: bool, n: u32) -> Result<(u32, u32), MinifyError>
    ensures given { IfOk result (λ p. (p.0 ≡ number_given takes_number n) × (p.1 ≡ first_below takes_number n)) }
    ensures last { IfErr result (λ e. fault_of e ≡ None) }
{
    if takes_number {
        let first = next_number(n)?;
        Ok((n, first))
    } else {
        Ok((0, n))
    }
}

// ---- nodes

// The node of a head and a number, without children yet.
fn leaf(alloc: Global, head: Head<'_>, number: u32) -> Result<Node, OutOfMemory>
    ensures { IfOk result (λ x. x ≡ tree_node (shape_of_head head.entry) (names_of_head head.entry) number none) }
{
    let name = name(alloc, &head)?;
    let shape = shape(alloc, head)?;
    Ok(Node::with(shape, name, number, Nodes::new(alloc)))
}

// A node behind those before it, and the next number.
fn put(out: &mut Nodes, node: Node, next: u32) -> Result<u32, MinifyError>
    ensures put { IfOk result (λ m. (m ≡ next) × (out.new ≡ append out.old (node ▸ none))) }
    ensures last { IfErr result (λ e. fault_of e ≡ None) }
{
    out.push(node)?;
    Ok(next)
}

// An inner expression over a node.
fn inner(alloc: Global, number: u32, below: Node) -> Result<Node, MinifyError>
    ensures made { IfOk result (λ x. x ≡ tree_node shape.InnerExpression [] number (below ▸ none)) }
    ensures last { IfErr result (λ e. fault_of e ≡ None) }
{
    let mut children = Nodes::with_capacity(alloc, 1)?;
    children.push(below)?;
    Ok(Node::with(Shape::InnerExpression, None, number, children))
}

/// The tree of a node in a place, which nests at most so deep, in strict or sloppy code, and the
/// next number.
#[cycle(walk)]
#[tactic(auto, using(crate::proofs::Nodes::deep, crate::proofs::Nodes::unplanned, crate::proofs::Nodes::blames_memory))]
pub fn node(
    alloc: Global,
    strict: bool,
    place: Place,
    value: &Value,
    depth: u32,
    n: u32,
) -> Result<(Node, u32), MinifyError>
    ensures { Gives (λ x. (x.0, x.1)) result (reads depth strict (place_of place) n (view value.now)) }
{
    if depth == 0 {
        return Err(too_deep(alloc));
    }
    let planned = match plan(strict, place, value) {
        Ok(planned) => planned,
        Err(defect) => return Err(refusal(alloc, defect)),
    };
    let Plan {
        head,
        children: below,
    } = planned;
    let inside = is_strict_in(strict, &head);
    let (number, first) = numbering(takes_number(place, &head), n)?;
    let root = leaf(alloc, head, number)?;
    let (children, next) = children(alloc, inside, below, value, depth - 1, first)?;
    Ok((root.over(children), next))
}

// The trees of the children of a node, and the next number.
#[cycle(walk)]
#[tactic(auto, using(crate::proofs::Nodes::onto_none, crate::proofs::Nodes::children_step, crate::proofs::Nodes::children_stop, crate::proofs::Nodes::children_end, crate::proofs::Nodes::blames_memory))]
fn children(
    alloc: Global,
    strict: bool,
    all: &[Below],
    value: &Value,
    depth: u32,
    n: u32,
) -> Result<(Nodes, u32), MinifyError>
    ensures { Gives (λ x. (x.0, x.1)) result (read_children (reads depth) strict (view value.now) n (map (child_of (view value.now)) all.now)) }
{
    let mut out = Nodes::with_capacity(alloc, all.len())?;
    let mut next = n;
    for below in all {
        next = child(alloc, strict, *below, value, depth, next, &mut out)?;
    }
    Ok((out, next))
}

// A child, behind those before it.
#[cycle(walk)]
#[tactic(auto, using(crate::proofs::Nodes::listed_onto, crate::proofs::Nodes::listed_stop, crate::proofs::Nodes::one_onto, crate::proofs::Nodes::one_stop, crate::proofs::Nodes::blames_memory))]
fn child(
    alloc: Global,
    strict: bool,
    below: Below,
    value: &Value,
    depth: u32,
    n: u32,
    out: &mut Nodes,
) -> Result<u32, MinifyError>
    ensures read { IfOk result (λ m. onto out.old (read_child (reads depth) strict (view value.now) n (child_of (view value.now) below)) ≡ Ok (out.new, m)) }
    ensures refused { IfErr result (λ e. Blames e (result_err (read_child (reads depth) strict (view value.now) n (child_of (view value.now) below)))) }
{
    match form_of(below, value) {
        Form::One(one) => part(alloc, strict, one, value, depth, n, out),
        Form::Many(items, key, list) => {
            let (children, next) = listed(alloc, strict, items, key, list, value, depth, n)?;
            put(out, Node::new(Shape::Listed, children), next)
        }
    }
}

// The trees of a list.
#[cycle(walk)]
#[tactic(auto, using(crate::proofs::Nodes::onto_none, crate::proofs::Nodes::items_step, crate::proofs::Nodes::items_stop, crate::proofs::Nodes::items_end, crate::proofs::Nodes::blames_memory))]
fn listed(
    alloc: Global,
    strict: bool,
    items: Items,
    key: &'static str,
    list: &[Value],
    value: &Value,
    depth: u32,
    n: u32,
) -> Result<(Nodes, u32), MinifyError>
    ensures { Gives (λ x. (x.0, x.1)) result (read_parts (reads depth) strict (view value.now) n (parts_from (item_of items) key.now 0 (items_view list.now))) }
{
    let mut out = Nodes::with_capacity(alloc, list.len())?;
    let mut next = n;
    for (index, item) in list.iter().enumerate() {
        let last = index + 1 == list.len();
        let step = Step::Item(key, index);
        next = part(
            alloc,
            strict,
            item_part(items, last, item, step),
            value,
            depth,
            next,
            &mut out,
        )?;
    }
    Ok((out, next))
}

// A part, behind those before it.
#[cycle(walk)]
#[tactic(auto, using(crate::proofs::Nodes::tree_onto, crate::proofs::Nodes::tree_stop, crate::proofs::Nodes::inner_onto, crate::proofs::Nodes::inner_stop, crate::proofs::Nodes::checked_onto, crate::proofs::Nodes::checked_stop, crate::proofs::Nodes::blames_memory))]
fn part(
    alloc: Global,
    strict: bool,
    part: Part,
    value: &Value,
    depth: u32,
    n: u32,
    out: &mut Nodes,
) -> Result<u32, MinifyError>
    ensures read { IfOk result (λ m. onto out.old (read_part (reads depth) strict (view value.now) n (part_of part)) ≡ Ok (out.new, m)) }
    ensures refused { IfErr result (λ e. Blames e (result_err (read_part (reads depth) strict (view value.now) n (part_of part)))) }
{
    match part {
        Part::Hole => put(out, Node::leaf(alloc, Shape::Absent), n),
        Part::Tree(step, place) => {
            let (found, next) = below(alloc, strict, step, place, value, depth, n)?;
            put(out, found, next)
        }
        Part::Inner(step, place) => {
            let first = next_number(n)?;
            let (found, next) = below(alloc, strict, step, place, value, depth, first)?;
            put(out, inner(alloc, n, found)?, next)
        }
        Part::Checked(step, place) => {
            let (_, _) = below(alloc, strict, step, place, value, depth, n)?;
            Ok(n)
        }
    }
}

// The node that a step leads to.
#[cycle(walk)]
#[tactic(auto, using(crate::proofs::Nodes::below_read, crate::proofs::Nodes::below_missing, crate::proofs::Nodes::below_stop))]
fn below(
    alloc: Global,
    strict: bool,
    step: Step,
    place: Place,
    value: &Value,
    depth: u32,
    n: u32,
) -> Result<(Node, u32), MinifyError>
    ensures { Gives (λ x. (x.0, x.1)) result (read_below (reads depth) strict n (view value.now) (step_of step) (place_of place)) }
{
    let Some(found) = down(step, value) else {
        return Err(bad_shape(alloc));
    };
    match node(alloc, strict, place, found, depth, n) {
        Ok(read) => Ok(read),
        Err(error) => Err(under(alloc, error, step)),
    }
}
