// How punctuators are spelled.

ghost use Rattle.std.specs.Prelude.{◌≡◌};
ghost use Rattle.mini_print.specs.Text.{spelling, assignment_spelling};
ghost use Rattle.mini_grammar.specs.Views.{punctuator};

use mini_grammar::Punct;
use mini_model::AssignmentOperator;

const LEFT_PAREN: [u16; 1] = [40];

const RIGHT_PAREN: [u16; 1] = [41];

const LEFT_BRACKET: [u16; 1] = [91];

const RIGHT_BRACKET: [u16; 1] = [93];

const LEFT_BRACE: [u16; 1] = [123];

const RIGHT_BRACE: [u16; 1] = [125];

const COMMA: [u16; 1] = [44];

const SEMICOLON: [u16; 1] = [59];

const COLON: [u16; 1] = [58];

const QUESTION: [u16; 1] = [63];

const DOT: [u16; 1] = [46];

const ELLIPSIS: [u16; 3] = [46, 46, 46];

const OPTIONAL_DOT: [u16; 2] = [63, 46];

const ARROW: [u16; 2] = [61, 62];

const PLUS: [u16; 1] = [43];

const MINUS: [u16; 1] = [45];

const TIMES: [u16; 1] = [42];

const SLASH: [u16; 1] = [47];

const PERCENT: [u16; 1] = [37];

const POWER: [u16; 2] = [42, 42];

const PLUS_PLUS: [u16; 2] = [43, 43];

const MINUS_MINUS: [u16; 2] = [45, 45];

const BANG: [u16; 1] = [33];

const TILDE: [u16; 1] = [126];

const AMPERSAND: [u16; 1] = [38];

const BAR: [u16; 1] = [124];

const CARET: [u16; 1] = [94];

const AND_AND: [u16; 2] = [38, 38];

const BAR_BAR: [u16; 2] = [124, 124];

const QUESTION_QUESTION: [u16; 2] = [63, 63];

const SHIFT_L: [u16; 2] = [60, 60];

const SHIFT_R: [u16; 2] = [62, 62];

const SHIFT_RR: [u16; 3] = [62, 62, 62];

const LESS: [u16; 1] = [60];

const LESS_EQUAL: [u16; 2] = [60, 61];

const GREATER: [u16; 1] = [62];

const GREATER_EQUAL: [u16; 2] = [62, 61];

const EQUAL_EQUAL: [u16; 2] = [61, 61];

const BANG_EQUAL: [u16; 2] = [33, 61];

const EQUAL_EQUAL_EQUAL: [u16; 3] = [61, 61, 61];

const BANG_EQUAL_EQUAL: [u16; 3] = [33, 61, 61];

const ASSIGN_ASSIGN: [u16; 1] = [61];

const ASSIGN_ADDITION: [u16; 2] = [43, 61];

const ASSIGN_SUBTRACTION: [u16; 2] = [45, 61];

const ASSIGN_MULTIPLICATION: [u16; 2] = [42, 61];

const ASSIGN_DIVISION: [u16; 2] = [47, 61];

const ASSIGN_REMAINDER: [u16; 2] = [37, 61];

const ASSIGN_EXPONENTIAL: [u16; 3] = [42, 42, 61];

const ASSIGN_SHIFT_LEFT: [u16; 3] = [60, 60, 61];

const ASSIGN_SHIFT_RIGHT: [u16; 3] = [62, 62, 61];

const ASSIGN_SHIFT_RIGHT_ZERO_FILL: [u16; 4] = [62, 62, 62, 61];

const ASSIGN_BITWISE_AND: [u16; 2] = [38, 61];

const ASSIGN_BITWISE_XOR: [u16; 2] = [94, 61];

const ASSIGN_BITWISE_OR: [u16; 2] = [124, 61];

const ASSIGN_LOGICAL_OR: [u16; 3] = [124, 124, 61];

const ASSIGN_LOGICAL_AND: [u16; 3] = [38, 38, 61];

const ASSIGN_LOGICAL_NULLISH: [u16; 3] = [63, 63, 61];

fn assignment_units(operator: AssignmentOperator) -> &'static [u16]
    ensures { result.now ≡ assignment_spelling operator }
{
    match operator {
        AssignmentOperator::Assign => &ASSIGN_ASSIGN,
        AssignmentOperator::Addition => &ASSIGN_ADDITION,
        AssignmentOperator::Subtraction => &ASSIGN_SUBTRACTION,
        AssignmentOperator::Multiplication => &ASSIGN_MULTIPLICATION,
        AssignmentOperator::Division => &ASSIGN_DIVISION,
        AssignmentOperator::Remainder => &ASSIGN_REMAINDER,
        AssignmentOperator::Exponential => &ASSIGN_EXPONENTIAL,
        AssignmentOperator::ShiftLeft => &ASSIGN_SHIFT_LEFT,
        AssignmentOperator::ShiftRight => &ASSIGN_SHIFT_RIGHT,
        AssignmentOperator::ShiftRightZeroFill => &ASSIGN_SHIFT_RIGHT_ZERO_FILL,
        AssignmentOperator::BitwiseAnd => &ASSIGN_BITWISE_AND,
        AssignmentOperator::BitwiseXor => &ASSIGN_BITWISE_XOR,
        AssignmentOperator::BitwiseOr => &ASSIGN_BITWISE_OR,
        AssignmentOperator::LogicalOr => &ASSIGN_LOGICAL_OR,
        AssignmentOperator::LogicalAnd => &ASSIGN_LOGICAL_AND,
        AssignmentOperator::LogicalNullish => &ASSIGN_LOGICAL_NULLISH,
    }
}

/// The units of a punctuator.
pub fn mark_units(mark: Punct) -> &'static [u16]
    ensures { result.now ≡ spelling (punctuator mark) }
{
    match mark {
        Punct::LeftParen => &LEFT_PAREN,
        Punct::RightParen => &RIGHT_PAREN,
        Punct::LeftBracket => &LEFT_BRACKET,
        Punct::RightBracket => &RIGHT_BRACKET,
        Punct::LeftBrace => &LEFT_BRACE,
        Punct::RightBrace => &RIGHT_BRACE,
        Punct::Comma => &COMMA,
        Punct::Semicolon => &SEMICOLON,
        Punct::Colon => &COLON,
        Punct::Question => &QUESTION,
        Punct::Dot => &DOT,
        Punct::Ellipsis => &ELLIPSIS,
        Punct::OptionalDot => &OPTIONAL_DOT,
        Punct::Arrow => &ARROW,
        Punct::Plus => &PLUS,
        Punct::Minus => &MINUS,
        Punct::Times => &TIMES,
        Punct::Slash => &SLASH,
        Punct::Percent => &PERCENT,
        Punct::Power => &POWER,
        Punct::PlusPlus => &PLUS_PLUS,
        Punct::MinusMinus => &MINUS_MINUS,
        Punct::Bang => &BANG,
        Punct::Tilde => &TILDE,
        Punct::Ampersand => &AMPERSAND,
        Punct::Bar => &BAR,
        Punct::Caret => &CARET,
        Punct::AndAnd => &AND_AND,
        Punct::BarBar => &BAR_BAR,
        Punct::QuestionQuestion => &QUESTION_QUESTION,
        Punct::ShiftL => &SHIFT_L,
        Punct::ShiftR => &SHIFT_R,
        Punct::ShiftRR => &SHIFT_RR,
        Punct::Less => &LESS,
        Punct::LessEqual => &LESS_EQUAL,
        Punct::Greater => &GREATER,
        Punct::GreaterEqual => &GREATER_EQUAL,
        Punct::EqualEqual => &EQUAL_EQUAL,
        Punct::BangEqual => &BANG_EQUAL,
        Punct::EqualEqualEqual => &EQUAL_EQUAL_EQUAL,
        Punct::BangEqualEqual => &BANG_EQUAL_EQUAL,
        Punct::Assigns(operator) => assignment_units(operator),
    }
}
