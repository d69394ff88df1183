// How productions stand: which are expressions, how tightly those bind, and where they don't stand.

ghost use Rattle.std.specs.Prelude.{◌≡◌, ◌≤◌, not};
ghost use Rattle.mini_model.specs.Position.{binary_level, logical_level};
ghost use Rattle.mini_print.specs.Grammar.{is_reserved};
ghost use Rattle.mini_grammar.specs.Pieces.{own};
ghost use Rattle.mini_places.specs.Standing.{standing_of, in_barred, mix_barred, assign_barred, fits, is_barred, is_mixed, is_reserved_token, is_value_goal, opened};
ghost use Rattle.mini_grammar.specs.Views.{rule_of, fixed_of, place_of, goal_of, token_of};

use mini_grammar::{Aim, Fixed, Goal, Place, Rule, Token, own_token};
use mini_model::{AssignmentOperator, BinaryOperator, LogicalOperator, Mix};
use mini_tokens::is_reserved;

/// Where a value doesn't stand as it is.
#[derive(Clone, Copy)]
pub enum Barred {
    /// Nowhere.
    Never,
    /// An operator `in`: in the head of a loop.
    In,
    /// A call: as the callee of `new`.
    Call,
    /// A chain: as the callee of `new`, or where it is assigned to.
    Chain,
    /// What would be a pattern: where it is assigned to.
    Pattern,
    /// A spread: anywhere but in a list.
    Spread,
    /// `??`: as an operand of `&&` and `||`.
    Coalesce,
    /// `&&` and `||`: as an operand of `??`.
    AndOr,
}

/// How a production stands.
#[derive(Clone, Copy)]
pub enum Standing {
    /// An `if`.
    If,
    /// A `yield` without an expression.
    Yield,
    /// No expression.
    Plain,
    /// An expression that is a name, or begins with one of its own: how tightly it binds.
    Named(u8),
    /// Another expression: how tightly it binds, and where it doesn't stand.
    Value(u8, Barred),
}

/// How tightly an operator of two operands binds.
pub fn binary_level(operator: BinaryOperator) -> u8
    ensures value { result ≡ binary_level operator }
    ensures bound { result ≤ 13 }
{
    match operator {
        BinaryOperator::BitwiseOr => 5,
        BinaryOperator::BitwiseXor => 6,
        BinaryOperator::BitwiseAnd => 7,
        BinaryOperator::Equality
        | BinaryOperator::Inequality
        | BinaryOperator::StrictEquality
        | BinaryOperator::StrictInequality => 8,
        BinaryOperator::LessThan
        | BinaryOperator::LessEqualThan
        | BinaryOperator::GreaterThan
        | BinaryOperator::GreaterEqualThan
        | BinaryOperator::In
        | BinaryOperator::Instanceof => 9,
        BinaryOperator::ShiftLeft
        | BinaryOperator::ShiftRight
        | BinaryOperator::ShiftRightZeroFill => 10,
        BinaryOperator::Addition | BinaryOperator::Subtraction => 11,
        BinaryOperator::Multiplication | BinaryOperator::Division | BinaryOperator::Remainder => 12,
        BinaryOperator::Exponential => 13,
    }
}

/// How tightly a logical operator binds.
pub fn logical_level(operator: LogicalOperator) -> u8
    ensures value { result ≡ logical_level operator }
    ensures bound { result ≤ 4 }
{
    match operator {
        LogicalOperator::Coalesce | LogicalOperator::Or => 3,
        LogicalOperator::And => 4,
    }
}

fn in_barred(operator: BinaryOperator) -> Barred
    ensures { result ≡ in_barred operator }
{
    match operator {
        BinaryOperator::In => Barred::In,
        _ => Barred::Never,
    }
}

fn mix_barred(operator: LogicalOperator) -> Barred
    ensures { result ≡ mix_barred operator }
{
    match operator {
        LogicalOperator::Coalesce => Barred::Coalesce,
        LogicalOperator::Or | LogicalOperator::And => Barred::AndOr,
    }
}

fn assign_barred(operator: AssignmentOperator) -> Barred
    ensures { result ≡ assign_barred operator }
{
    match operator {
        AssignmentOperator::Assign => Barred::Pattern,
        _ => Barred::Never,
    }
}

fn fixed_standing(rule: Fixed) -> Standing
    ensures { result ≡ standing_of (fixed_of rule) }
{
    match rule {
        Fixed::Null
        | Fixed::This
        | Fixed::True
        | Fixed::False
        | Fixed::Member
        | Fixed::Index
        | Fixed::New
        | Fixed::FunctionExpression
        | Fixed::GeneratorExpression
        | Fixed::SuperMember
        | Fixed::SuperIndex
        | Fixed::NewTarget
        | Fixed::ImportMeta
        | Fixed::TaggedTemplate
        | Fixed::ClassPlain => Standing::Value(18, Barred::Never),
        Fixed::Array | Fixed::Object => Standing::Value(17, Barred::Pattern),
        Fixed::SpreadItem => Standing::Value(1, Barred::Spread),
        Fixed::Call | Fixed::Import | Fixed::SuperCall => Standing::Value(18, Barred::Call),
        Fixed::Conditional | Fixed::Arrow | Fixed::ArrowBlock | Fixed::Yield | Fixed::YieldFrom =>
            Standing::Value(1, Barred::Never),
        Fixed::Sequence => Standing::Value(0, Barred::Never),
        Fixed::If => Standing::If,
        Fixed::YieldBare => Standing::Yield,
        Fixed::Chain | Fixed::NewBare => Standing::Value(16, Barred::Chain),
        Fixed::PatternAssignment => Standing::Value(1, Barred::Pattern),
        _ => Standing::Plain,
    }
}

/// How a production stands.
pub fn standing_of<'a>(rule: Rule<'a>) -> Standing
    ensures { result ≡ standing_of (rule_of rule.entry) }
{
    match rule {
        Rule::Fixed(rule) => fixed_standing(rule),
        Rule::Binary(operator) => Standing::Value(binary_level(operator), in_barred(operator)),
        Rule::Logical(operator) => Standing::Value(logical_level(operator), mix_barred(operator)),
        Rule::Assignment(operator) => Standing::Value(1, assign_barred(operator)),
        Rule::Reference(_) | Rule::ClassNamed(_) => Standing::Named(18),
        Rule::ArrowName(_) | Rule::ArrowNameBlock(_) => Standing::Named(1),
        Rule::NumberLiteral(_)
        | Rule::BigIntLiteral(_)
        | Rule::TextLiteral(_)
        | Rule::RegExpLiteral(_, _)
        | Rule::WholeTemplate(_)
        | Rule::Template(_) => Standing::Value(18, Barred::Never),
        Rule::Postfix(_) | Rule::Prefix(_) => Standing::Value(15, Barred::Never),
        Rule::Unary(_) => Standing::Value(14, Barred::Never),
        Rule::PrivateIn(_) => Standing::Value(9, Barred::In),
        _ => Standing::Plain,
    }
}

/// Whether a token is a word that names nothing.
pub fn is_reserved_token<'a>(token: Token<'a>) -> bool
    ensures { result ≡ is_reserved_token (token_of token.entry) }
{
    match token {
        Token::Word(text) => is_reserved(text),
        _ => false,
    }
}

fn is_value_goal(goal: Goal) -> bool
    ensures { result ≡ is_value_goal (goal_of goal) }
{
    matches!(
        goal,
        Goal::Anything | Goal::WithoutIn | Goal::Callee | Goal::Element | Goal::Target
    )
}

fn is_barred(goal: Goal, barred: Barred) -> bool
    ensures { result ≡ is_barred (goal_of goal) barred }
{
    match goal {
        Goal::WithoutIn => matches!(barred, Barred::In | Barred::Spread),
        Goal::Callee => matches!(barred, Barred::Call | Barred::Chain | Barred::Spread),
        Goal::Target => matches!(barred, Barred::Pattern | Barred::Chain | Barred::Spread),
        Goal::Anything => matches!(barred, Barred::Spread),
        _ => false,
    }
}

fn is_mixed(around: Mix, barred: Barred) -> bool
    ensures { result ≡ is_mixed around barred }
{
    match around {
        Mix::InCoalesce => matches!(barred, Barred::AndOr),
        Mix::InAndOr => matches!(barred, Barred::Coalesce),
        Mix::None => false,
    }
}

fn fits<'a>(place: Place<'a>, level: u8, barred: Barred) -> bool
    ensures { result ≡ fits (place_of place.entry) level barred }
{
    match place.goal {
        Aim::Plain(goal) => is_value_goal(goal)
            && !is_barred(goal, barred)
            && place.level <= level
            && !is_mixed(place.around, barred),
        Aim::DefaultOf(_, _) => false,
    }
}

/// Whether a production stands in parentheses.
pub fn is_enclosed<'a>(rule: Rule<'a>, place: Place<'a>) -> bool
    ensures { result ≡ not (opened (standing_of (rule_of rule.entry)) (own (rule_of rule.entry)) (place_of place.entry)) }
{
    match standing_of(rule) {
        Standing::If | Standing::Plain => false,
        Standing::Yield => !fits(place, 1, Barred::Never),
        Standing::Named(level) => {
            !fits(place, level, Barred::Never) && !is_reserved_token(own_token(rule))
        }
        Standing::Value(level, barred) => !fits(place, level, barred),
    }
}
