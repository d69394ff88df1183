// The walk: the tokens of a node before those that follow.

ghost use Rattle.std.specs.Prelude.{◌≡◌, List, [], ◌∷◌, OnOk, MatchOption, Some, true, false, not, ◌&&◌, if◌then◌else◌};
ghost use Rattle.mini_model.specs.declared.operator.UnaryOperator.TheVariants.{UnaryNegation};
ghost use Rattle.mini_model.specs.declared.shape.Shape.TheVariants as shape;
ghost use Rattle.mini_node.specs.Children.{trees_of};
ghost use Rattle.mini_print.specs.Token as marks;
ghost use Rattle.mini_print.specs.Grammar as grammar;
ghost use Rattle.mini_print.specs.Grammar.{opens, permits, ends_yield as yield_ends};
ghost use Rattle.mini_print.specs.Printed as printed;
ghost use Rattle.mini_print.specs.Printed.{printer, printers, by_production, number_printer, lay, lay_items, lay_block, braced, third_is_absent, enclosed, undirected, Printer, is_fit};
ghost use Rattle.mini_grammar.specs.Firsts.{is_negative, below, laid_item};
ghost use Rattle.mini_tokens.specs.Styles.{style_of};
ghost use Rattle.mini_grammar.specs.Pieces.{parts_in, piece_parts, look_of, opener_of, is_mark, is_end, takes_part};
ghost use Rattle.mini_places.specs.Standing.{standing_of, is_special};
ghost use Rattle.mini_grammar.specs.Views.{rule_of, place_of, goal_of, aim_of, token_of};

use crate::front::begins_forbidden;
use mini_grammar::{
    Aim, Fixed, Goal, Keyword, Lookahead, Opener, Piece, Place, Punct, Rule, Token, Tokens,
    is_absent, own_text, own_token, pieces_of, rule_in, short_rule, units_of,
};
use mini_model::{AssignmentOperator, OutOfMemory, Shape, UnaryOperator};
use mini_node::Node;
use mini_places::{
    Standing, at, ends_yield, goal_in, has_gaps, heir, in_place, is_enclosed, is_permitted,
    left_operand, list_goal, plain, right_operand, seated, standing_of, undirect, wants_braces,
};
use mini_tokens::{Style, terminate};

fn size_below(value: i64) -> Option<u64>
    ensures { MatchOption result (is_negative (shape.NumericLiteral value) ≡ false) (λ n. shape.NumericLiteral value ≡ below n) }
{
    let size = value.unsigned_abs();
    if value >= 0 { None } else { Some(size) }
}

/// The size of a number below zero; None of any other shape.
pub fn below_zero(shape: &Shape) -> Option<u64>
    ensures { MatchOption result (is_negative shape.now ≡ false) (λ n. shape.now ≡ below n) }
{
    match shape {
        Shape::NumericLiteral(value) => size_below(*value),
        _ => None,
    }
}

// A number, in its place.
#[tactic(auto, using(crate::proofs::Walked::number_enclosed, crate::proofs::Walked::number_open))]
fn write_number<'a>(
    tokens: &mut Tokens<'a>,
    number: u64,
    there: Place<'a>,
) -> Result<(), OutOfMemory>
    ensures { OnOk result (tokens.new ≡ (number_printer printed.Full number).one (place_of there.entry) tokens.old) }
{
    if is_enclosed(Rule::NumberLiteral(number), there) {
        tokens.push(Token::Mark(Punct::RightParen))?;
        tokens.push(Token::Number(number))?;
        tokens.push(Token::Mark(Punct::LeftParen))
    } else {
        tokens.push(Token::Number(number))
    }
}

// A minus before a number that stands in the goal.
fn write_minus<'a>(tokens: &mut Tokens<'a>, number: u64, goal: Aim<'a>) -> Result<(), OutOfMemory>
    ensures { OnOk result (tokens.new ≡ marks.Punct marks.Minus ∷ (number_printer printed.Full number).one (grammar.place (aim_of goal.entry) 14) tokens.old) }
{
    write_number(tokens, number, in_place(goal, 14))?;
    tokens.push(Token::Mark(Punct::Minus))
}

// A number below zero, in its place, by its size.
#[tactic(auto, using(crate::proofs::Walked::minus_enclosed, crate::proofs::Walked::minus_open))]
fn write_negative<'a>(
    tokens: &mut Tokens<'a>,
    number: u64,
    there: Place<'a>,
) -> Result<(), OutOfMemory>
    ensures { OnOk result (tokens.new ≡ by_production printed.Full (Some (grammar.Unary UnaryNegation)) (number_printer printed.Full number ∷ []) (place_of there.entry) tokens.old) }
{
    if is_enclosed(Rule::Unary(UnaryOperator::UnaryNegation), there) {
        tokens.push(Token::Mark(Punct::RightParen))?;
        write_minus(tokens, number, Aim::Plain(Goal::Anything))?;
        tokens.push(Token::Mark(Punct::LeftParen))
    } else {
        write_minus(tokens, number, heir(there.goal))
    }
}

#[tactic(auto, using(crate::proofs::Walked::bare_fits))]
fn stands_bare<'a>(tokens: &Tokens<'a>, there: Place<'a>) -> bool
    ensures { result ≡ (is_fit (place_of there.entry) grammar.YieldBare && yield_ends tokens.now) }
{
    !is_enclosed(Rule::Fixed(Fixed::YieldBare), there) && ends_yield(tokens)
}

// A `yield` without an expression, in its place.
#[tactic(auto, using(crate::proofs::Walked::bare_stays, crate::proofs::Walked::bare_enclosed))]
fn write_yield<'a>(tokens: &mut Tokens<'a>, there: Place<'a>) -> Result<(), OutOfMemory>
    ensures { (ks : List Printer) → OnOk result (tokens.new ≡ by_production printed.Full (Some grammar.YieldBare) ks (place_of there.entry) tokens.old) }
{
    if stands_bare(tokens, there) {
        return tokens.push(Token::Word(units_of(Keyword::Yield)));
    }
    tokens.push(Token::Mark(Punct::RightParen))?;
    tokens.push(Token::Word(units_of(Keyword::Yield)))?;
    tokens.push(Token::Mark(Punct::LeftParen))
}

/// The production in a style of a node whose production is this, over these parts.
#[tactic(auto, using(crate::proofs::Walked::full_same))]
pub fn styled<'a>(style: Style, rule: Rule<'a>, parts: &'a [Node]) -> Rule<'a>
    ensures { rule_of result ≡ printed.styled (rule_of rule.entry) (style_of style) (trees_of parts.now) }
{
    match style {
        Style::Full => rule,
        Style::Short => short_rule(rule, parts),
    }
}

/// A node, in its place.
#[cycle(writing)]
#[tactic(auto, using(crate::proofs::Walked::nothing_there, crate::proofs::Walked::rule_stands, crate::proofs::Walked::minus_stands, crate::proofs::Walked::minus_is))]
pub fn write_node<'a>(
    tokens: &mut Tokens<'a>,
    style: Style,
    node: &'a Node,
    there: Place<'a>,
) -> Result<(), OutOfMemory>
    ensures { OnOk result (tokens.new ≡ (printer (style_of style) node.now).one (place_of there.entry) tokens.old) }
{
    let Some(rule) = rule_in(plain(there.goal), node) else {
        return Ok(());
    };
    let there = seated(rule, there);
    match below_zero(node.shape()) {
        Some(number) => write_negative(tokens, number, there),
        None => {
            let parts = node.parts();
            write_rule(tokens, style, styled(style, rule, parts), parts, there)
        }
    }
}

// A production over its parts, in its place.
#[cycle(writing)]
fn write_rule<'a>(
    tokens: &mut Tokens<'a>,
    style: Style,
    rule: Rule<'a>,
    parts: &'a [Node],
    there: Place<'a>,
) -> Result<(), OutOfMemory>
    ensures { OnOk result (tokens.new ≡ by_production (style_of style) (Some (rule_of rule.entry)) (printers (style_of style) (trees_of parts.now)) (place_of there.entry) tokens.old) }
{
    match standing_of(rule) {
        Standing::If => write_if(tokens, style, rule, parts),
        Standing::Yield => write_yield(tokens, there),
        _ => write_production(tokens, style, rule, parts, there),
    }
}

// An `if`, in braces where it would take an `else` that follows.
#[cycle(writing)]
#[tactic(auto, using(crate::proofs::Walked::if_braced, crate::proofs::Walked::if_plain))]
fn write_if<'a>(
    tokens: &mut Tokens<'a>,
    style: Style,
    rule: Rule<'a>,
    parts: &'a [Node],
) -> Result<(), OutOfMemory>
    requires { rule_of rule ≡ grammar.If }
    ensures { OnOk result (tokens.new ≡ braced (style_of style) (third_is_absent (printers (style_of style) (trees_of parts.now)) && opens grammar.Else tokens.old) (printers (style_of style) (trees_of parts.now)) tokens.old) }
{
    let goal = Aim::Plain(Goal::Statement);
    if wants_braces(tokens, parts) {
        tokens.push(Token::Mark(Punct::RightBrace))?;
        write_pieces(tokens, style, rule, goal, pieces_of(rule), parts)?;
        tokens.push(Token::Mark(Punct::LeftBrace))
    } else {
        write_pieces(tokens, style, rule, goal, pieces_of(rule), parts)
    }
}

// A production, in parentheses where it doesn't fit.
#[cycle(writing)]
#[tactic(auto, using(crate::proofs::Walked::produced_enclosed, crate::proofs::Walked::produced_open))]
fn write_production<'a>(
    tokens: &mut Tokens<'a>,
    style: Style,
    rule: Rule<'a>,
    parts: &'a [Node],
    there: Place<'a>,
) -> Result<(), OutOfMemory>
    requires { is_special (standing_of (rule_of rule)) ≡ false }
    ensures { OnOk result (tokens.new ≡ by_production (style_of style) (Some (rule_of rule.entry)) (printers (style_of style) (trees_of parts.now)) (place_of there.entry) tokens.old) }
{
    if is_enclosed(rule, there) {
        tokens.push(Token::Mark(Punct::RightParen))?;
        write_pieces(
            tokens,
            style,
            rule,
            Aim::Plain(Goal::Anything),
            pieces_of(rule),
            parts,
        )?;
        tokens.push(Token::Mark(Punct::LeftParen))
    } else {
        write_pieces(tokens, style, rule, there.goal, pieces_of(rule), parts)
    }
}

// The pieces of a production, over the parts that are left.
#[cycle(writing)]
#[tactic(auto, using(crate::proofs::Walked::no_piece, crate::proofs::Walked::last_piece, crate::proofs::Walked::mark_piece, crate::proofs::Walked::takes_by, crate::proofs::Walked::missing_part, crate::proofs::Walked::part_piece))]
fn write_pieces<'a>(
    tokens: &mut Tokens<'a>,
    style: Style,
    rule: Rule<'a>,
    goal: Aim<'a>,
    pieces: &[Piece],
    parts: &'a [Node],
) -> Result<(), OutOfMemory>
    ensures { OnOk result (tokens.new ≡ lay (style_of style) (aim_of goal.entry) (parts_in (rule_of rule.entry) pieces.now) (printers (style_of style) (trees_of parts.now)) tokens.old) }
{
    let Some((piece, others)) = pieces.split_first() else {
        return Ok(());
    };
    if is_end(*piece) {
        return Ok(());
    }
    if is_mark(*piece) {
        write_pieces(tokens, style, rule, goal, others, parts)?;
        return write_mark(tokens, style, rule, *piece);
    }
    let Some((part, more)) = parts.split_first() else {
        return Ok(());
    };
    write_pieces(tokens, style, rule, goal, others, more)?;
    write_part(tokens, style, rule, goal, *piece, part)
}

/// Whether a piece is a token, or nothing.
pub fn is_mark(piece: Piece) -> bool
    ensures { result ≡ is_mark piece }
{
    matches!(
        piece,
        Piece::Word(_) | Piece::Mark(_) | Piece::Own | Piece::Fork | Piece::Semicolon
    )
}

/// Whether a piece says what follows a production.
pub fn is_end(piece: Piece) -> bool
    ensures { result ≡ is_end piece }
{
    matches!(piece, Piece::End(_))
}

// A token of a production.
fn write_mark<'a>(
    tokens: &mut Tokens<'a>,
    style: Style,
    rule: Rule<'a>,
    piece: Piece,
) -> Result<(), OutOfMemory>
    requires { is_mark piece ≡ true }
    ensures { (g : grammar.Goal) → OnOk result (tokens.new ≡ lay (style_of style) g (piece_parts (rule_of rule.entry) piece []) [] tokens.old) }
{
    match piece {
        Piece::Word(word) => tokens.push(Token::Word(units_of(word))),
        Piece::Mark(mark) => tokens.push(Token::Mark(mark)),
        Piece::Own => tokens.push(own_token(rule)),
        Piece::Semicolon => terminate(tokens, style),
        _ => Ok(()),
    }
}

// A piece of a production over its part.
#[cycle(writing)]
#[tactic(auto, using(crate::proofs::Walked::items_are, crate::proofs::Walked::block_is, crate::proofs::Walked::absent_is))]
fn write_part<'a>(
    tokens: &mut Tokens<'a>,
    style: Style,
    rule: Rule<'a>,
    goal: Aim<'a>,
    piece: Piece,
    part: &'a Node,
) -> Result<(), OutOfMemory>
    requires { takes_part piece ≡ true }
    ensures { OnOk result (tokens.new ≡ lay (style_of style) (aim_of goal.entry) (piece_parts (rule_of rule.entry) piece []) (printer (style_of style) part.now ∷ []) tokens.old) }
{
    match piece {
        Piece::Left(level) => write_node(tokens, style, part, in_place(goal, level)),
        Piece::LeftOperand => write_node(tokens, style, part, left_operand(rule, goal)),
        Piece::RightOperand => write_node(tokens, style, part, right_operand(rule, goal)),
        Piece::Part(own, level) => write_node(
            tokens,
            style,
            part,
            in_place(goal_in(goal, own), level),
        ),
        Piece::Default(declared) => write_node(
            tokens,
            style,
            part,
            in_place(Aim::DefaultOf(declared, own_text(rule)), 0),
        ),
        Piece::Restricted(restriction, own, level) => write_restricted(
            tokens,
            style,
            part,
            restriction,
            in_place(goal_in(goal, own), level),
        ),
        Piece::Commas(own, least) => write_items(
            tokens,
            style,
            list_goal(goal, own),
            has_gaps(least),
            part.parts(),
        ),
        Piece::Perhaps(own) => write_perhaps(tokens, style, part, at(own, 0)),
        Piece::Option(opener, own, level) => write_option(
            tokens,
            style,
            part,
            opener,
            in_place(goal_in(goal, own), level),
        ),
        Piece::Statements(own) => write_block(tokens, style, own, part.parts()),
        Piece::Undirected => write_undirected(tokens, style, part.parts()),
        _ => Ok(()),
    }
}

// A part in parentheses, or in its place.
#[cycle(writing)]
fn write_enclosed<'a>(
    tokens: &mut Tokens<'a>,
    style: Style,
    part: &'a Node,
    condition: bool,
    there: Place<'a>,
) -> Result<(), OutOfMemory>
    ensures { OnOk result (tokens.new ≡ enclosed condition (printer (style_of style) part.now) (place_of there.entry) tokens.old) }
{
    if condition {
        tokens.push(Token::Mark(Punct::RightParen))?;
        write_node(tokens, style, part, at(Goal::Anything, 0))?;
        tokens.push(Token::Mark(Punct::LeftParen))
    } else {
        write_node(tokens, style, part, there)
    }
}

// A part in parentheses, if it begins otherwise than the restriction says.
#[cycle(writing)]
#[tactic(auto, using(crate::proofs::Ends::left_behind))]
fn write_restricted<'a>(
    tokens: &mut Tokens<'a>,
    style: Style,
    part: &'a Node,
    restriction: Lookahead,
    there: Place<'a>,
) -> Result<(), OutOfMemory>
    ensures { OnOk result (tokens.new ≡ enclosed (not (permits (look_of restriction) ((printer (style_of style) part.now).one (place_of there.entry) tokens.old))) (printer (style_of style) part.now) (place_of there.entry) tokens.old) }
{
    if begins_forbidden(style, restriction, part, there) {
        return write_enclosed(tokens, style, part, true, there);
    }
    let count = tokens.len();
    write_node(tokens, style, part, there)?;
    if is_permitted(restriction, tokens) {
        return Ok(());
    }
    tokens.keep_last(count);
    write_enclosed(tokens, style, part, true, there)
}

// A part that may be absent.
#[cycle(writing)]
#[tactic(auto, using(crate::proofs::Walked::absent_is))]
fn write_perhaps<'a>(
    tokens: &mut Tokens<'a>,
    style: Style,
    part: &'a Node,
    there: Place<'a>,
) -> Result<(), OutOfMemory>
    ensures { OnOk result (tokens.new ≡ (if (printer (style_of style) part.now).absent then tokens.old else (printer (style_of style) part.now).one (place_of there.entry) tokens.old)) }
{
    if is_absent(part) {
        return Ok(());
    }
    write_node(tokens, style, part, there)
}

fn opener_token<'a>(opener: Opener) -> Token<'a>
    ensures { token_of result ≡ grammar.opener (opener_of opener) }
{
    match opener {
        Opener::Equals => Token::Mark(Punct::Assigns(AssignmentOperator::Assign)),
        Opener::Else => Token::Word(units_of(Keyword::Else)),
        Opener::Catch => Token::Word(units_of(Keyword::Catch)),
        Opener::Finally => Token::Word(units_of(Keyword::Finally)),
        Opener::Extends => Token::Word(units_of(Keyword::Extends)),
        Opener::As => Token::Word(units_of(Keyword::As)),
    }
}

// A part that may be absent, behind a token.
#[cycle(writing)]
#[tactic(auto, using(crate::proofs::Walked::absent_is))]
fn write_option<'a>(
    tokens: &mut Tokens<'a>,
    style: Style,
    part: &'a Node,
    opener: Opener,
    there: Place<'a>,
) -> Result<(), OutOfMemory>
    ensures { OnOk result (tokens.new ≡ (if (printer (style_of style) part.now).absent then tokens.old else grammar.opener (opener_of opener) ∷ (printer (style_of style) part.now).one (place_of there.entry) tokens.old)) }
{
    if is_absent(part) {
        return Ok(());
    }
    write_perhaps(tokens, style, part, there)?;
    tokens.push(opener_token(opener))
}

// The items of a list, with commas.
#[cycle(writing)]
fn write_items<'a>(
    tokens: &mut Tokens<'a>,
    style: Style,
    goal: Aim<'a>,
    gaps: bool,
    items: &'a [Node],
) -> Result<(), OutOfMemory>
    ensures { OnOk result (tokens.new ≡ lay_items (aim_of goal.entry) gaps (printers (style_of style) (trees_of items.now)) tokens.old) }
{
    let mut left = items.len();
    let mut last = true;
    while left > 0 {
        left -= 1;
        write_item(tokens, style, goal, gaps, &items[left], last)?;
        last = false;
    }
    Ok(())
}

// An item, and the comma behind it.
#[cycle(writing)]
#[tactic(auto, using(crate::proofs::Walked::absent_is))]
fn write_item<'a>(
    tokens: &mut Tokens<'a>,
    style: Style,
    goal: Aim<'a>,
    gaps: bool,
    item: &'a Node,
    last: bool,
) -> Result<(), OutOfMemory>
    ensures { OnOk result (tokens.new ≡ laid_item (aim_of goal.entry) gaps last (printer (style_of style) item.now) tokens.old) }
{
    if gaps && is_absent(item) {
        return tokens.push(Token::Mark(Punct::Comma));
    }
    if !last {
        tokens.push(Token::Mark(Punct::Comma))?;
    }
    write_node(tokens, style, item, in_place(goal, 1))
}

// What stands one behind the other.
#[cycle(writing)]
pub fn write_block<'a>(
    tokens: &mut Tokens<'a>,
    style: Style,
    goal: Goal,
    items: &'a [Node],
) -> Result<(), OutOfMemory>
    ensures { OnOk result (tokens.new ≡ lay_block (goal_of goal) (printers (style_of style) (trees_of items.now)) tokens.old) }
{
    let mut left = items.len();
    while left > 0 {
        left -= 1;
        write_node(tokens, style, &items[left], at(goal, 0))?;
    }
    Ok(())
}

// The statements of a body, of which the first is no directive, and the brace behind them.
#[cycle(writing)]
fn write_undirected<'a>(
    tokens: &mut Tokens<'a>,
    style: Style,
    items: &'a [Node],
) -> Result<(), OutOfMemory>
    ensures { OnOk result (tokens.new ≡ undirected (lay_block grammar.Statement (printers (style_of style) (trees_of items.now)) (marks.Punct marks.RightBrace ∷ tokens.old))) }
{
    tokens.push(Token::Mark(Punct::RightBrace))?;
    write_block(tokens, style, Goal::Statement, items)?;
    undirect(tokens)
}
