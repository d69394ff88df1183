//! Rows 18, 5 and 6: a part of a template whose value is calculated goes into the text: ``
//! `a${1}b${c}` `` becomes `` `a1b${c}` ``; a sum of templates is one, as `` `a${b}` + `c${d}` ``
//! becomes `` `a${b}c${d}` ``, and `` `a${b}` + "c" `` becomes `` `a${b}c` ``; so are they behind
//! another operand, as `` a + `x${b}` + "y" `` becomes `` a + `x${b}y` ``. What is written is
//! lighter in its seat.

ghost use Rattle.std.specs.Prelude.{◌≡◌, ◌<◌, ◌+◌, nat_eq, true, false, [], ◌∷◌, Some, is_some, unwrap_or, OnOk, IfOk, IfSome};
ghost use Rattle.mini_model.specs.Joined.{joined};
ghost use Rattle.mini_model.specs.Tree.{children, count, first_or_absent, shape_of};
ghost use Rattle.mini_rows.specs.Templates as row;
ghost use Rattle.mini_tree.specs.Rule.{Applied};
ghost use Rattle.mini_fold.specs.FoldTemplates as template;
ghost use Rattle.mini_fold.specs.FoldSequences.{last_of};
ghost use Rattle.mini_fold.specs.FoldTemplates.{Gives, Rests, PartsRest};
ghost use Rattle.mini_model.specs.declared.operator.BinaryOperator.TheVariants.{Addition};
ghost use Rattle.mini_node.specs.Children.{part};
ghost use Rattle.mini_node.specs.Kinds.{binary_operator as its_binary_operator};
ghost use Rattle.mini_fold.specs.Lighter.{templates_lighter};

use crate::rewrites::fold_operands::{is_string_kind, last};
use crate::rewrites::fold_sequences::take_last;
use mini_model::{
    BinaryOperator, BoxedText, OutOfMemory, Position, Seat, Shape, Text, TextList,
    concat_template_literal_raw, escape_string_for_template_literal,
};
use mini_node::{
    Node, Nodes, binary, binary_operator, discard, is_listed, listed, of_two, one, take_first,
    taken, two,
};
use mini_terms::{
    copied, has_no_effect, is_primitive, kind_of, leaves_nothing, operand_value, text_of_both,
    to_text,
};
use mini_tree::{Context, Rule, expr_weight, seats};
use std::alloc::Global;

const NOTHING: [u16; 0] = [];

// Whether it is a piece of a template's text that cooks.
fn is_piece(node: &Node) -> bool
    ensures { result ≡ template.is_piece node.now }
{
    matches!(node.shape(), Shape::TemplateElement(_, _, Some(_))) && node.is_bare(0)
}

#[tactic(auto, using(crate::proofs::Templates::piece_missing, crate::proofs::Templates::piece_there, crate::proofs::Templates::all_there, crate::proofs::Templates::pieces_begin))]
fn are_pieces(nodes: &Nodes) -> bool
    ensures { result ≡ template.are_pieces nodes.now }
{
    for at in 0..nodes.len() {
        if !is_piece(nodes.child(at)) {
            return false;
        }
    }
    true
}

fn is_tail(node: &Node) -> bool
    ensures { result ≡ template.tail_in (shape_of node.now) }
{
    match node.shape() {
        Shape::TemplateElement(is_tail, _, _) => *is_tail,
        _ => false,
    }
}

// The raw text of a piece.
fn raw(node: &Node) -> &[u16]
    ensures { result.now ≡ template.raw_in (shape_of node.now) }
{
    match node.shape() {
        Shape::TemplateElement(_, raw, _) => raw.text().as_slice(),
        _ => &NOTHING,
    }
}

// What it cooks to.
fn cooked(node: &Node) -> &[u16]
    ensures { result.now ≡ template.cooked_in (shape_of node.now) }
{
    match node.shape() {
        Shape::TemplateElement(_, _, Some(cooked)) => cooked.text().as_slice(),
        _ => &NOTHING,
    }
}

fn is_template(node: &Node) -> bool
    ensures kind { result ≡ template.is_template node.now }
    ensures parts { result ≡ true → count (children node.now) ≡ 2 }
{
    matches!(node.shape(), Shape::TemplateLiteral)
        && node.is_bare(2)
        && is_listed(node.child(0))
        && is_listed(node.child(1))
}

// Whether there is one more of the first.
#[tactic(auto, using(crate::proofs::Templates::one_more))]
fn has_one_more(texts: &Nodes, parts: &Nodes) -> bool
    ensures { result ≡ nat_eq (count texts.now) (count parts.now + 1) }
{
    parts.len() < texts.len() && texts.len() - parts.len() == 1
}

// Whether it is a template with pieces of text round each part.
#[tactic(auto, using(crate::proofs::Templates::has_text))]
fn is_whole(node: &Node) -> bool
    ensures kind { result ≡ template.is_whole node.now }
    ensures parts { result ≡ true → count (children node.now) ≡ 2 }
    ensures texts { result ≡ true → 0 < count (template.texts_of node.now) }
{
    is_template(node)
        && has_one_more(node.child(0).children(), node.child(1).children())
        && are_pieces(node.child(0).children())
}

// What a template of so many parts weighs more without its last one.
fn spare(seat: Seat, count: usize) -> u64
    ensures { result ≡ template.spare seat count }
{
    if count == 1 {
        if seat.eq_left { 2 } else { 1 }
    } else {
        0
    }
}

// Whether twice the growth of a text is at most what goes for it.
fn pays(besides: u64, grown: u64, weight: u64) -> bool
    ensures { result ≡ template.pays besides grown weight }
{
    grown <= weight.saturating_add(besides).saturating_sub(grown)
}

// What goes with `${}`.
fn hole(spared: u64) -> u64
    ensures { result ≡ template.hole spared }
{
    5_u64.saturating_sub(spared)
}

fn growth(joined: usize, first: usize, second: usize) -> usize
    ensures { result ≡ template.growth joined first second }
{
    joined.saturating_sub(first).saturating_sub(second)
}

// The text of an expression's value, where it is calculated.
#[tactic(auto, using(crate::proofs::Templates::told_by, crate::proofs::Templates::told_none))]
fn told(alloc: Global, node: &Node) -> Result<Option<Text>, OutOfMemory>
    ensures { IfOk result (λ t. t ≡ row.told node.now) }
{
    match operand_value(alloc, node)? {
        Some(value) => Ok(Some(to_text(alloc, value)?)),
        None => Ok(None),
    }
}

// Two raw texts as one.
fn joined_raw(alloc: Global, first: Text, second: Text) -> Result<Text, OutOfMemory>
    ensures { IfOk result (λ r. r ≡ joined (first ∷ (second ∷ []))) }
{
    let mut both = TextList::new(alloc);
    both.push(first)?;
    both.push(second)?;
    concat_template_literal_raw(alloc, &both)
}

// The raw texts of two pieces as one, with a text between them.
fn sewn_raw(alloc: Global, first: &Node, text: &Text, second: &Node) -> Result<Text, OutOfMemory>
    ensures { IfOk result (λ r. r ≡ (template.joined_at first.now text.now second.now).raw) }
{
    let spelled = escape_string_for_template_literal(alloc, text)?;
    let before = joined_raw(alloc, copied(alloc, raw(first))?, spelled)?;
    joined_raw(alloc, before, copied(alloc, raw(second))?)
}

// What they cook to.
fn sewn_cooked(alloc: Global, first: &Node, text: Text, second: &Node) -> Result<Text, OutOfMemory>
    ensures { IfOk result (λ c. c ≡ (template.joined_at first.now text second.now).cooked) }
{
    let before = text_of_both(alloc, cooked(first), text)?;
    text_of_both(alloc, before.as_slice(), copied(alloc, cooked(second))?)
}

fn piece(alloc: Global, is_tail: bool, raw: Text, cooked: Text) -> Result<Node, OutOfMemory>
    ensures { IfOk result (λ p. p ≡ row.piece (record { is_tail = is_tail; raw = raw; cooked = cooked })) }
{
    let raw = BoxedText::new(alloc, raw)?;
    let cooked = BoxedText::new(alloc, cooked)?;
    Ok(Node::leaf(alloc, Shape::TemplateElement(is_tail, raw, Some(cooked))))
}

// Whether a part goes, for which this raw text comes.
fn is_sewn(spared: u64, first: &Node, part: &Node, raw_text: &Text, second: &Node) -> bool
    ensures { result ≡ template.is_sewn spared first.now part.now raw_text.now second.now }
{
    leaves_nothing(part)
        && pays(
            hole(spared),
            growth(raw_text.len(), raw(first).len(), raw(second).len()) as u64,
            expr_weight(part, seats::whole()),
        )
}

// The two pieces round a part as one, with the text of the part between, where that is lighter.
fn sewn(
    alloc: Global,
    spared: u64,
    first: &Node,
    part: &Node,
    second: &Node,
) -> Result<Option<Node>, OutOfMemory>
    ensures { IfOk result (λ m. m ≡ template.sewn spared first.now part.now second.now) }
{
    let Some(text) = told(alloc, part)? else {
        return Ok(None);
    };
    let raw_text = sewn_raw(alloc, first, &text, second)?;
    if !is_sewn(spared, first, part, &raw_text, second) {
        return Ok(None);
    }
    let cooked_text = sewn_cooked(alloc, first, text, second)?;
    Ok(Some(piece(alloc, is_tail(second), raw_text, cooked_text)?))
}

// The first part that goes, by its place, and the piece that comes for it.
#[tactic(auto, using(crate::proofs::Templates::stops, crate::proofs::Templates::goes_on, crate::proofs::Templates::ends, crate::proofs::Templates::begins))]
fn sewn_at(
    alloc: Global,
    spared: u64,
    texts: &Nodes,
    parts: &Nodes,
) -> Result<Option<(usize, Node)>, OutOfMemory>
    requires { count texts.now ≡ count parts.now + 1 }
    ensures found { IfOk result (λ o. IfSome o (λ x. x.0 < count parts.now)) }
    ensures made { IfOk result (λ o. IfSome o (λ x. Some x.1 ≡ template.sewn_at spared texts.now parts.now x.0)) }
    ensures any { IfOk result (λ o. is_some o ≡ template.any_sewn spared texts.now parts.now) }
{
    for at in 0..parts.len() {
        let made = sewn(
            alloc,
            spared,
            texts.child(at),
            parts.child(at),
            texts.child(at + 1),
        )?;
        if let Some(joined) = made {
            return Ok(Some((at, joined)));
        }
    }
    Ok(None)
}

// A template of these pieces and parts.
fn template_literal(alloc: Global, texts: Nodes, parts: Nodes) -> Result<Node, OutOfMemory>
    ensures { IfOk result (λ w. w ≡ row.template texts parts) }
{
    let children = of_two(alloc, listed(texts), listed(parts))?;
    Ok(Node::new(Shape::TemplateLiteral, children))
}

// The template without the part at this place, with this piece in the place of the two round it.
#[tactic(auto, using(crate::proofs::Templates::room_left))]
fn inline_part(alloc: Global, node: Node, at: usize, joined: Node) -> Result<Node, OutOfMemory>
    requires within { at < count (template.parts_of node) }
    requires counts { count (template.texts_of node) ≡ count (template.parts_of node) + 1 }
    ensures { IfOk result (λ w. w ≡ template.inlined at joined node) }
{
    let (texts, parts) = two(node);
    let mut texts = texts.into_children();
    let mut parts = parts.into_children();
    discard(texts.remove(at));
    discard(texts.replace(at, joined));
    discard(parts.remove(at));
    template_literal(alloc, texts, parts)
}

/// A part of a template whose value is calculated goes into the text, where that is lighter. The
/// answer says whether one did; the only error is that memory runs out, and then the expression is
/// fit only to be dropped.
pub fn inline_template_literal(
    alloc: Global,
    node: &mut Node,
    seat: Seat,
) -> Result<bool, OutOfMemory>
    ensures { IfOk result (λ changed. Applied Gives PartsRest (Position.Expr seat) node.old node.new changed) }
{
    if !is_whole(node) {
        return Ok(false);
    }
    let spared = spare(seat, node.child(1).children().len());
    match sewn_at(
        alloc,
        spared,
        node.child(0).children(),
        node.child(1).children(),
    )? {
        Some(found) => {
            let (at, joined) = found;
            *node = inline_part(alloc, taken(alloc, node), at, joined)?;
            Ok(true)
        }
        None => Ok(false),
    }
}

// The parentheses round a sum that a template has not.
fn bonus(seat: Seat) -> u64
    ensures { result ≡ template.bonus seat }
{
    if seat.level > 11 && seat.level <= 16 {
        4
    } else {
        0
    }
}

// The mark of a template without parts on the left of an equality.
fn mark(seat: Seat, count: usize) -> u64
    ensures { result ≡ template.mark seat count }
{
    if seat.eq_left && count == 0 { 1 } else { 0 }
}

// What goes with `+`.
fn plus_sign(seat: Seat, count: usize) -> u64
    ensures { result ≡ template.plus_sign seat count }
{
    (1 + bonus(seat)).saturating_sub(mark(seat, count))
}

// What goes of a sum in a seat, or of the operands behind another one, where a `+` goes.
fn besides(seat: Option<Seat>, count: usize) -> u64
    ensures { result ≡ template.besides seat count }
{
    match seat {
        Some(seat) => plus_sign(seat, count),
        None => 1,
    }
}

// Where the first operand stands.
fn head_seat(seat: Option<Seat>) -> Seat
    ensures { result ≡ template.head_seat seat }
{
    match seat {
        Some(_) => seats::binary_left_operand(BinaryOperator::Addition),
        None => seats::binary_right_operand(BinaryOperator::Addition),
    }
}

// Two pieces as one.
fn paired(alloc: Global, first: &Node, second: &Node) -> Result<Node, OutOfMemory>
    ensures { IfOk result (λ p. p ≡ template.paired first.now second.now) }
{
    let joined = joined_raw(
        alloc,
        copied(alloc, raw(first))?,
        copied(alloc, raw(second))?,
    )?;
    let text = text_of_both(alloc, cooked(first), copied(alloc, cooked(second))?)?;
    piece(alloc, is_tail(second), joined, text)
}

// `` `a${b}c${d}` `` of `` `a${b}` `` and `` `c${d}` ``
fn both_joined(alloc: Global, left: Node, right: Node) -> Result<Node, OutOfMemory>
    ensures { IfOk result (λ w. w ≡ template.both_written left right) }
{
    let (texts, parts) = two(left);
    let (more_texts, more_parts) = two(right);
    let mut texts = texts.into_children();
    let mut more_texts = more_texts.into_children();
    let mut parts = parts.into_children();
    let mut more_parts = more_parts.into_children();
    let last = take_last(alloc, &mut texts);
    let first = take_first(&mut more_texts);
    texts.push(paired(alloc, &last, &first)?)?;
    texts.append(&mut more_texts)?;
    parts.append(&mut more_parts)?;
    template_literal(alloc, texts, parts)
}

// Whether what is added goes, for which this raw text comes.
fn is_added(
    seat: Option<Seat>,
    at: Seat,
    count: usize,
    part: &Node,
    raw_text: &Text,
    end: &Node,
) -> bool
    ensures { result ≡ template.is_added seat at count part.now raw_text.now end.now }
{
    leaves_nothing(part)
        && pays(
            besides(seat, count),
            growth(raw_text.len(), raw(end).len(), 0) as u64,
            expr_weight(part, at),
        )
}

// The last piece of a template with the text of what is added to it, where that is lighter.
fn tail_joined(
    alloc: Global,
    seat: Option<Seat>,
    count: usize,
    last: &Node,
    tail: &Node,
) -> Result<Option<Node>, OutOfMemory>
    ensures { IfOk result (λ m. m ≡ template.tail_piece seat count last.now tail.now) }
{
    let Some(text) = told(alloc, tail)? else {
        return Ok(None);
    };
    let spelled = escape_string_for_template_literal(alloc, &text)?;
    let raw_text = joined_raw(alloc, copied(alloc, raw(last))?, spelled)?;
    if !is_added(
        seat,
        seats::binary_right_operand(BinaryOperator::Addition),
        count,
        tail,
        &raw_text,
        last,
    ) {
        return Ok(None);
    }
    let text = text_of_both(alloc, cooked(last), text)?;
    Ok(Some(piece(alloc, true, raw_text, text)?))
}

// The first piece of a template with the text of what it is added to, where that is lighter.
fn head_joined(
    alloc: Global,
    seat: Option<Seat>,
    count: usize,
    head: &Node,
    first: &Node,
) -> Result<Option<Node>, OutOfMemory>
    ensures { IfOk result (λ m. m ≡ template.head_piece seat count head.now first.now) }
{
    let Some(text) = told(alloc, head)? else {
        return Ok(None);
    };
    let spelled = escape_string_for_template_literal(alloc, &text)?;
    let raw_text = joined_raw(alloc, spelled, copied(alloc, raw(first))?)?;
    if !is_added(seat, head_seat(seat), count, head, &raw_text, first) {
        return Ok(None);
    }
    let text = text_of_both(alloc, text.as_slice(), copied(alloc, cooked(first))?)?;
    Ok(Some(piece(alloc, is_tail(first), raw_text, text)?))
}

// `` `a${b}c` `` of `` `a${b}` + "c" ``, with this piece in the place of the last one.
fn with_tail(alloc: Global, left: Node, joined: Node) -> Result<Node, OutOfMemory>
    ensures { IfOk result (λ w. w ≡ template.with_tail left joined) }
{
    let (texts, parts) = two(left);
    let mut texts = texts.into_children();
    discard(take_last(alloc, &mut texts));
    texts.push(joined)?;
    template_literal(alloc, texts, parts.into_children())
}

// `` `ab${c}` `` of `` "a" + `b${c}` ``, with this piece in the place of the first one.
#[tactic(auto, using(crate::proofs::Templates::inserted_first))]
fn with_head(alloc: Global, right: Node, joined: Node) -> Result<Node, OutOfMemory>
    ensures { IfOk result (λ w. w ≡ template.with_head right joined) }
{
    let (texts, parts) = two(right);
    let mut texts = texts.into_children();
    discard(take_first(&mut texts));
    texts.insert(0, joined)?;
    template_literal(alloc, texts, parts.into_children())
}

// How many parts a template has.
fn parts_count(node: &Node) -> usize
    requires { count (children node.now) ≡ 2 }
    ensures { result ≡ count (template.parts_of node.now) }
{
    node.child(1).children().len()
}

// The last piece of a template's text.
#[tactic(auto, using(crate::proofs::Templates::last_there))]
fn last_text(node: &Node) -> &Node
    requires parts { count (children node.now) ≡ 2 }
    requires texts { 0 < count (template.texts_of node.now) }
    ensures { result.now ≡ last_of (template.texts_of node.now) }
{
    let texts = node.child(0).children();
    texts.child(texts.len() - 1)
}

// The first one.
#[tactic(auto, using(crate::proofs::Templates::first_there))]
fn first_text(node: &Node) -> &Node
    requires parts { count (children node.now) ≡ 2 }
    requires texts { 0 < count (template.texts_of node.now) }
    ensures { result.now ≡ first_or_absent (template.texts_of node.now) }
{
    node.child(0).children().child(0)
}

// `` `a${b}c` `` of `` `a${b}` + "c" ``
fn fold_tail(alloc: Global, node: &mut Node, seat: Option<Seat>) -> Result<bool, OutOfMemory>
    requires sides { count (children node.old) ≡ 2 }
    requires parts { count (children (part node.old 0)) ≡ 2 }
    requires texts { 0 < count (template.texts_of (part node.old 0)) }
    ensures tree { OnOk result (node.new ≡ unwrap_or (template.tail_written seat (part node.old 0) (part node.old 1)) node.old) }
    ensures said { IfOk result (λ changed. changed ≡ is_some (template.tail_written seat (part node.old 0) (part node.old 1))) }
{
    let left = node.child(0);
    let made = tail_joined(
        alloc,
        seat,
        parts_count(left),
        last_text(left),
        node.child(1),
    )?;
    let Some(joined) = made else {
        return Ok(false);
    };
    *node = with_tail(alloc, one(taken(alloc, node)), joined)?;
    Ok(true)
}

// `` `ab${c}` `` of `` "a" + `b${c}` ``
fn fold_head(alloc: Global, node: &mut Node, seat: Option<Seat>) -> Result<bool, OutOfMemory>
    requires sides { count (children node.old) ≡ 2 }
    requires parts { count (children (part node.old 1)) ≡ 2 }
    requires texts { 0 < count (template.texts_of (part node.old 1)) }
    ensures tree { OnOk result (node.new ≡ unwrap_or (template.head_written seat (part node.old 0) (part node.old 1)) node.old) }
    ensures said { IfOk result (λ changed. changed ≡ is_some (template.head_written seat (part node.old 0) (part node.old 1))) }
{
    let right = node.child(1);
    let made = head_joined(
        alloc,
        seat,
        parts_count(right),
        node.child(0),
        first_text(right),
    )?;
    let Some(joined) = made else {
        return Ok(false);
    };
    *node = with_head(alloc, last(taken(alloc, node)), joined)?;
    Ok(true)
}

// A sum of a template and another, or what has a calculated value, becomes one template.
fn fold_pair(alloc: Global, node: &mut Node, seat: Option<Seat>) -> Result<bool, OutOfMemory>
    requires { count (children node.old) ≡ 2 }
    ensures tree { OnOk result (node.new ≡ unwrap_or (template.sum_written seat (part node.old 0) (part node.old 1)) node.old) }
    ensures said { IfOk result (λ changed. changed ≡ is_some (template.sum_written seat (part node.old 0) (part node.old 1))) }
{
    match (is_whole(node.child(0)), is_whole(node.child(1))) {
        (true, true) => {
            let (left, right) = two(taken(alloc, node));
            *node = both_joined(alloc, left, right)?;
            Ok(true)
        }
        (true, false) => fold_tail(alloc, node, seat),
        (false, true) => fold_head(alloc, node, seat),
        (false, false) => Ok(false),
    }
}

// Whether the operands behind another one may become one template, as far as they tell.
fn may_join(inner: &Node, tail: &Node) -> bool
    ensures { result ≡ template.may_join inner.now tail.now }
{
    (is_whole(inner) || is_whole(tail)) && is_string_kind(kind_of(inner)) && has_no_effect(tail)
}

// Whether they may behind this one, which is converted after the last of them is evaluated.
fn is_settled(alloc: Global, first: &Node, inner: &Node, tail: &Node) -> Result<bool, OutOfMemory>
    ensures { IfOk result (λ b. b ≡ template.is_settled first.now inner.now tail.now) }
{
    if !may_join(inner, tail) {
        return Ok(false);
    }
    if is_primitive(kind_of(first)) {
        return Ok(true);
    }
    Ok(told(alloc, tail)?.is_some())
}

// `(a + b) + c` of a and `b + c`
fn leftmost(alloc: Global, first: Node, sum: Node) -> Result<Node, OutOfMemory>
    ensures { IfOk result (λ made. made ≡ template.rejoined false first sum) }
{
    let (second, third) = two(sum);
    let left = binary(alloc, BinaryOperator::Addition, first, second)?;
    binary(alloc, BinaryOperator::Addition, left, third)
}

// `a + s`, where s is one template, and else `(a + b) + c` of a and `b + c`.
fn rejoined(alloc: Global, is_one: bool, first: Node, sum: Node) -> Result<Node, OutOfMemory>
    ensures { IfOk result (λ made. made ≡ template.rejoined is_one first sum) }
{
    if is_one {
        binary(alloc, BinaryOperator::Addition, first, sum)
    } else {
        leftmost(alloc, first, sum)
    }
}

// `` a + `x${b}y` `` of `` a + `x${b}` + `y` ``
#[tactic(auto, using(crate::proofs::Templates::behind_tree, crate::proofs::Templates::behind_said))]
fn fold_behind(alloc: Global, node: &mut Node) -> Result<bool, OutOfMemory>
    requires outer { its_binary_operator node.old ≡ Some Addition }
    requires within { its_binary_operator (part node.old 0) ≡ Some Addition }
    ensures tree { OnOk result (node.new ≡ unwrap_or (template.behind_written (part (part node.old 0) 0) (part (part node.old 0) 1) (part node.old 1)) node.old) }
    ensures said { IfOk result (λ changed. changed ≡ is_some (template.behind_written (part (part node.old 0) 0) (part (part node.old 0) 1) (part node.old 1))) }
{
    let (left, tail) = two(taken(alloc, node));
    let (first, inner) = two(left);
    let mut sum = binary(alloc, BinaryOperator::Addition, inner, tail)?;
    let changed = fold_pair(alloc, &mut sum, None)?;
    *node = rejoined(alloc, changed, first, sum)?;
    Ok(changed)
}

// The operands behind another one become one template, where they may.
fn fold_nested(alloc: Global, node: &mut Node) -> Result<bool, OutOfMemory>
    requires outer { its_binary_operator node.old ≡ Some Addition }
    requires within { its_binary_operator (part node.old 0) ≡ Some Addition }
    requires sides { count (children node.old) ≡ 2 }
    requires operands { count (children (part node.old 0)) ≡ 2 }
    ensures tree { OnOk result (node.new ≡ unwrap_or (template.nested_written (part (part node.old 0) 0) (part (part node.old 0) 1) (part node.old 1)) node.old) }
    ensures said { IfOk result (λ changed. changed ≡ is_some (template.nested_written (part (part node.old 0) 0) (part (part node.old 0) 1) (part node.old 1))) }
{
    let left = node.child(0);
    if is_settled(alloc, left.child(0), left.child(1), node.child(1))? {
        fold_behind(alloc, node)
    } else {
        Ok(false)
    }
}

// A sum whose first operand is a sum: what stands behind that one's first operand, or else all of
// it.
#[tactic(auto, using(crate::proofs::Templates::behind_tree_first, crate::proofs::Templates::behind_said_first, crate::proofs::Templates::same_operands, crate::proofs::Templates::whole_said))]
fn fold_sum_of_sum(alloc: Global, node: &mut Node, seat: Seat) -> Result<bool, OutOfMemory>
    requires outer { its_binary_operator node.old ≡ Some Addition }
    requires within { its_binary_operator (part node.old 0) ≡ Some Addition }
    requires sides { count (children node.old) ≡ 2 }
    requires operands { count (children (part node.old 0)) ≡ 2 }
    ensures tree { OnOk result (node.new ≡ unwrap_or (template.behind_or_whole seat (part node.old 0) (part node.old 1)) node.old) }
    ensures said { IfOk result (λ changed. changed ≡ is_some (template.behind_or_whole seat (part node.old 0) (part node.old 1))) }
{
    if fold_nested(alloc, node)? {
        Ok(true)
    } else {
        fold_pair(alloc, node, Some(seat))
    }
}

/// A sum of a template and another, or of a template and what has a calculated value, becomes one
/// template, also behind another operand, where that is lighter. The answer says whether it did;
/// the only error is that memory runs out, and then the expression is fit only to be dropped.
#[tactic(auto, using(crate::proofs::Templates::two_operands, crate::proofs::Templates::plain_tree, crate::proofs::Templates::plain_said))]
pub fn fold_sum(alloc: Global, node: &mut Node, seat: Seat) -> Result<bool, OutOfMemory>
    requires outer { its_binary_operator node.old ≡ Some Addition }
    requires sides { count (children node.old) ≡ 2 }
    ensures tree { OnOk result (node.new ≡ unwrap_or (template.added_written seat (part node.old 0) (part node.old 1)) node.old) }
    ensures said { IfOk result (λ changed. changed ≡ is_some (template.added_written seat (part node.old 0) (part node.old 1))) }
{
    match binary_operator(node.child(0)) {
        Some(BinaryOperator::Addition) => fold_sum_of_sum(alloc, node, seat),
        _ => Ok(fold_pair(alloc, node, Some(seat))?),
    }
}

/// A part of a template whose value is calculated goes into the text, and a sum of a template and
/// another, or of a template and what has a calculated value, becomes one template, also behind
/// another operand, where that is lighter. The answer says whether something did; the only error is
/// that memory runs out, and then the expression is fit only to be dropped.
#[tactic(auto, using(crate::proofs::Templates::sum_applied, crate::proofs::Templates::others_applied))]
pub fn fold_templates(alloc: Global, node: &mut Node, seat: Seat) -> Result<bool, OutOfMemory>
    ensures { IfOk result (λ changed. Applied Gives Rests (Position.Expr seat) node.old node.new changed) }
{
    match binary_operator(node) {
        Some(BinaryOperator::Addition) => Ok(fold_sum(alloc, node, seat)?),
        _ => Ok(inline_template_literal(alloc, node, seat)?),
    }
}

/// Rows 5, 6 and 18 as a rule: of each expression.
pub struct FoldTemplates;

impl<C: Context> Rule<C> for FoldTemplates {
    ghost gives = { λ o q. Gives };

    ghost rests = { λ o q. Rests };

    ghost lighter = { λ o q. templates_lighter };

    #[tactic(auto, using(crate::proofs::Templates::elsewhere))]
    fn apply(
        &self,
        alloc: Global,
        node: &mut Node,
        place: Position,
        context: &mut C,
    ) -> Result<bool, OutOfMemory> {
        match place {
            Position::Expr(seat) => Ok(fold_templates(alloc, node, seat)?),
            _ => Ok(false),
        }
    }
}
