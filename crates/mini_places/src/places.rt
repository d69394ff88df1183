// The places of parts.

ghost use Rattle.std.specs.Prelude.{◌≡◌, option_map, Some};
ghost use Rattle.mini_model.specs.Position.{left_level, right_level, mix_of};
ghost use Rattle.mini_print.specs.Grammar as grammar;
ghost use Rattle.mini_print.specs.Grammar.{is_of, Bindings, Patterns, Values};
ghost use Rattle.mini_print.specs.Groups as groups;
ghost use Rattle.mini_print.specs.Printed as printed;
ghost use Rattle.mini_grammar.specs.Pieces as pieces;
ghost use Rattle.mini_grammar.specs.Pieces.{least_of};
ghost use Rattle.mini_grammar.specs.Views.{rule_of, place_of, goal_of, aim_of};

use crate::standing::{Standing, binary_level, is_reserved_token, logical_level, standing_of};
use mini_grammar::{Aim, Fixed, Goal, Least, Place, Rule, own_token};
use mini_model::{BinaryOperator, LogicalOperator, Mix};
use mini_tokens::is_reserved;

/// The place of a goal.
pub fn at<'a>(goal: Goal, level: u8) -> Place<'a>
    ensures { place_of result ≡ grammar.place (goal_of goal) level }
{
    Place {
        goal: Aim::Plain(goal),
        level,
        around: Mix::None,
    }
}

/// The place of a goal, whichever it is.
pub fn in_place<'a>(goal: Aim<'a>, level: u8) -> Place<'a>
    ensures { place_of result ≡ grammar.place (aim_of goal.entry) level }
{
    Place {
        goal,
        level,
        around: Mix::None,
    }
}

/// The goal in which the same stands, in parentheses or not.
pub fn plain<'a>(goal: Aim<'a>) -> Aim<'a>
    ensures { aim_of result ≡ printed.plain (aim_of goal.entry) }
{
    match goal {
        Aim::Plain(Goal::WithoutIn) | Aim::Plain(Goal::Callee) | Aim::Plain(Goal::Target) => {
            Aim::Plain(Goal::Anything)
        }
        _ => goal,
    }
}

/// The goal of the expressions at the end of a production.
pub fn heir<'a>(goal: Aim<'a>) -> Aim<'a>
    ensures { aim_of result ≡ grammar.heir (aim_of goal.entry) }
{
    match goal {
        Aim::Plain(Goal::Declared) | Aim::Plain(Goal::Element) | Aim::Plain(Goal::Property) => {
            Aim::Plain(Goal::Anything)
        }
        Aim::Plain(Goal::HeadDeclared) => Aim::Plain(Goal::WithoutIn),
        _ => goal,
    }
}

/// The goal of a part.
pub fn goal_in<'a>(goal: Aim<'a>, own: Option<Goal>) -> Aim<'a>
    ensures { aim_of result ≡ groups.goal_of (aim_of goal.entry) (option_map goal_of own) }
{
    match own {
        Some(own) => Aim::Plain(own),
        None => heir(goal),
    }
}

/// The goal of a list's items.
pub fn list_goal<'a>(goal: Aim<'a>, own: Option<Goal>) -> Aim<'a>
    ensures { aim_of result ≡ groups.list_goal_of (aim_of goal.entry) (option_map goal_of own) }
{
    match own {
        Some(own) => Aim::Plain(own),
        None => goal,
    }
}

/// Whether a list may have gaps.
pub fn has_gaps(least: Least) -> bool
    ensures { result ≡ groups.has_gaps (least_of least) }
{
    matches!(least, Least::Gaps)
}

fn is_binding<'a>(rule: Rule<'a>) -> bool
    ensures { result ≡ is_of Bindings (rule_of rule.entry) }
{
    match rule {
        Rule::BindingName(text) => !is_reserved(text),
        Rule::Fixed(Fixed::ObjectPattern) | Rule::Fixed(Fixed::ArrayPattern) => true,
        _ => false,
    }
}

fn is_target_pattern<'a>(rule: Rule<'a>) -> bool
    ensures { result ≡ is_of Patterns (rule_of rule.entry) }
{
    matches!(
        rule,
        Rule::Fixed(Fixed::ArrayTarget) | Rule::Fixed(Fixed::ObjectTarget)
    )
}

#[tactic(auto, using(crate::proofs::Stands::value_is))]
fn is_value<'a>(rule: Rule<'a>) -> bool
    ensures { result ≡ is_of Values (rule_of rule.entry) }
{
    match standing_of(rule) {
        Standing::If | Standing::Plain => false,
        Standing::Named(_) => !is_reserved_token(own_token(rule)),
        Standing::Yield | Standing::Value(_, _) => true,
    }
}

/// The place of a production that stands by itself, or in one around it.
pub fn seated<'a>(rule: Rule<'a>, place: Place<'a>) -> Place<'a>
    ensures { place_of result ≡ printed.seated (Some (rule_of rule.entry)) (place_of place.entry) }
{
    match place.goal {
        Aim::Plain(Goal::Parameter) | Aim::Plain(Goal::BoundElement) => {
            if is_binding(rule) {
                at(Goal::Bound, 0)
            } else {
                place
            }
        }
        Aim::Plain(Goal::TargetElement) => {
            if is_value(rule) {
                at(Goal::Target, 16)
            } else if is_target_pattern(rule) {
                at(Goal::TargetPattern, 0)
            } else {
                place
            }
        }
        _ => place,
    }
}

// The place of the left operand of a binary operator.
fn level_on_the_left(operator: BinaryOperator) -> u8
    ensures { result ≡ left_level operator }
{
    match operator {
        BinaryOperator::Exponential => 15,
        _ => binary_level(operator),
    }
}

fn level_on_the_right(operator: BinaryOperator) -> u8
    ensures { result ≡ right_level operator }
{
    match operator {
        BinaryOperator::Exponential => 13,
        _ => binary_level(operator) + 1,
    }
}

fn mix_of(operator: LogicalOperator) -> Mix
    ensures { result ≡ mix_of operator }
{
    match operator {
        LogicalOperator::Coalesce => Mix::InCoalesce,
        LogicalOperator::And | LogicalOperator::Or => Mix::InAndOr,
    }
}

/// The place of the left operand of a production's operator.
pub fn left_operand<'a>(rule: Rule<'a>, goal: Aim<'a>) -> Place<'a>
    ensures goal { (place_of result).goal ≡ aim_of goal.entry }
    ensures level { (place_of result).level ≡ pieces.left_operand (rule_of rule.entry) }
    ensures around { (place_of result).around ≡ pieces.operand_mix (rule_of rule.entry) }
{
    match rule {
        Rule::Binary(operator) => in_place(goal, level_on_the_left(operator)),
        Rule::Logical(operator) => Place {
            goal,
            level: logical_level(operator),
            around: mix_of(operator),
        },
        _ => in_place(goal, 0),
    }
}

/// The place of the right operand of a production's operator.
pub fn right_operand<'a>(rule: Rule<'a>, goal: Aim<'a>) -> Place<'a>
    ensures goal { (place_of result).goal ≡ grammar.heir (aim_of goal.entry) }
    ensures level { (place_of result).level ≡ pieces.right_operand (rule_of rule.entry) }
    ensures around { (place_of result).around ≡ pieces.operand_mix (rule_of rule.entry) }
{
    let goal = heir(goal);
    match rule {
        Rule::Binary(operator) => in_place(goal, level_on_the_right(operator)),
        Rule::Logical(operator) => Place {
            goal,
            level: logical_level(operator) + 1,
            around: mix_of(operator),
        },
        _ => in_place(goal, 0),
    }
}
