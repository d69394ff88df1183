// What a part begins with, told without writing it: its first token stands at the end of a way
// down its first parts.

ghost use Rattle.std.specs.Prelude.{◌≡◌, ◌∷◌, [], List, true, false, option_map};
ghost use Rattle.mini_node.specs.Children.{trees_of};
ghost use Rattle.mini_print.specs.Grammar as grammar;
ghost use Rattle.mini_print.specs.Grammar.{permits};
ghost use Rattle.mini_print.specs.Token as marks;
ghost use Rattle.mini_print.specs.Printed as printed;
ghost use Rattle.mini_print.specs.Printed.{printer, printers, by_production, lay, lay_items};
ghost use Rattle.mini_grammar.specs.Pieces.{parts_in, piece_parts, look_of, is_mark};
ghost use Rattle.mini_grammar.specs.Views.{rule_of, place_of, aim_of, token_of};
ghost use Rattle.mini_printer.specs.Fronts.{IsFront};
ghost use Rattle.mini_tokens.specs.Styles.{style_of};
ghost use Rattle.mini_places.specs.Standing.{standing_of, is_special};

use crate::walk::{below_zero, is_end, is_mark, styled};
use mini_grammar::{
    Aim, Lookahead, Piece, Place, Punct, Rule, Token, own_token, pieces_of, rule_in, units_of,
};
use mini_node::Node;
use mini_places::{
    Standing, goal_in, has_gaps, in_place, is_enclosed, is_forbidden, left_operand, list_goal,
    plain, seated, standing_of,
};
use mini_tokens::Style;

/// Whether a node in its place begins with a token that a restriction forbids, whatever follows
/// it. Where that isn't told without writing it the answer is no.
pub fn begins_forbidden<'a>(
    style: Style,
    restriction: Lookahead,
    node: &'a Node,
    there: Place<'a>,
) -> bool
    ensures { result ≡ true → (r : List marks.Token) → permits (look_of restriction) ((printer (style_of style) node.now).one (place_of there.entry) r) ≡ false }
{
    match front_of(style, node, there) {
        Some(token) => is_forbidden(restriction, token),
        None => false,
    }
}

// The first token of a node in its place, whatever follows it; None where that isn't told.
#[cycle(fronts)]
fn front_of<'a>(style: Style, node: &'a Node, there: Place<'a>) -> Option<Token<'a>>
    ensures { IsFront (option_map token_of result) (λ r. (printer (style_of style) node.now).one (place_of there.entry) r) }
{
    let Some(rule) = rule_in(plain(there.goal), node) else {
        return None;
    };
    match below_zero(node.shape()) {
        Some(_) => None,
        None => {
            let parts = node.parts();
            rule_front(
                style,
                styled(style, rule, parts),
                parts,
                seated(rule, there),
            )
        }
    }
}

#[cycle(fronts)]
fn rule_front<'a>(
    style: Style,
    rule: Rule<'a>,
    parts: &'a [Node],
    there: Place<'a>,
) -> Option<Token<'a>>
    ensures { IsFront (option_map token_of result) (λ r. by_production (style_of style) (Some (rule_of rule.entry)) (printers (style_of style) (trees_of parts.now)) (place_of there.entry) r) }
{
    match standing_of(rule) {
        Standing::If => None,
        Standing::Yield => None,
        _ => production_front(style, rule, parts, there),
    }
}

#[cycle(fronts)]
fn production_front<'a>(
    style: Style,
    rule: Rule<'a>,
    parts: &'a [Node],
    there: Place<'a>,
) -> Option<Token<'a>>
    requires { is_special (standing_of (rule_of rule)) ≡ false }
    ensures { IsFront (option_map token_of result) (λ r. by_production (style_of style) (Some (rule_of rule.entry)) (printers (style_of style) (trees_of parts.now)) (place_of there.entry) r) }
{
    if is_enclosed(rule, there) {
        return Some(Token::Mark(Punct::LeftParen));
    }
    pieces_front(style, rule, there.goal, pieces_of(rule), parts)
}

fn mark_front<'a>(rule: Rule<'a>, piece: Piece) -> Option<Token<'a>>
    ensures { (s : printed.Style) (g : grammar.Goal) → IsFront (option_map token_of result) (λ r. lay s g (piece_parts (rule_of rule.entry) piece []) [] r) }
{
    match piece {
        Piece::Word(word) => Some(Token::Word(units_of(word))),
        Piece::Mark(mark) => Some(Token::Mark(mark)),
        Piece::Own => Some(own_token(rule)),
        _ => None,
    }
}

// The pieces of a production, over its parts.
#[cycle(fronts)]
fn pieces_front<'a>(
    style: Style,
    rule: Rule<'a>,
    goal: Aim<'a>,
    pieces: &[Piece],
    parts: &'a [Node],
) -> Option<Token<'a>>
    ensures { IsFront (option_map token_of result) (λ r. lay (style_of style) (aim_of goal.entry) (parts_in (rule_of rule.entry) pieces.now) (printers (style_of style) (trees_of parts.now)) r) }
{
    let Some((piece, _)) = pieces.split_first() else {
        return None;
    };
    if is_end(*piece) {
        return None;
    }
    if is_mark(*piece) {
        return mark_front(rule, *piece);
    }
    let Some((part, _)) = parts.split_first() else {
        return None;
    };
    part_front(style, rule, goal, *piece, part)
}

// A piece of a production over its part.
#[cycle(fronts)]
fn part_front<'a>(
    style: Style,
    rule: Rule<'a>,
    goal: Aim<'a>,
    piece: Piece,
    part: &'a Node,
) -> Option<Token<'a>>
    ensures { IsFront (option_map token_of result) (λ r. lay (style_of style) (aim_of goal.entry) (piece_parts (rule_of rule.entry) piece []) (printer (style_of style) part.now ∷ []) r) }
{
    match piece {
        Piece::Left(level) => front_of(style, part, in_place(goal, level)),
        Piece::LeftOperand => front_of(style, part, left_operand(rule, goal)),
        Piece::Part(own, level) => front_of(style, part, in_place(goal_in(goal, own), level)),
        Piece::Commas(own, least) => {
            items_front(style, list_goal(goal, own), has_gaps(least), part.parts())
        }
        _ => None,
    }
}

// The items of a list.
#[cycle(fronts)]
fn items_front<'a>(style: Style, goal: Aim<'a>, gaps: bool, items: &'a [Node]) -> Option<Token<'a>>
    ensures { IsFront (option_map token_of result) (λ r. lay_items (aim_of goal.entry) gaps (printers (style_of style) (trees_of items.now)) r) }
{
    if gaps {
        return None;
    }
    let Some((item, _)) = items.split_first() else {
        return None;
    };
    front_of(style, item, in_place(goal, 1))
}
