// The token that a production itself has.

ghost use Rattle.std.specs.Prelude.{◌≡◌};
ghost use Rattle.mini_print.specs.Token as tokens;
ghost use Rattle.mini_print.specs.Grammar.{kind_token};
ghost use Rattle.mini_grammar.specs.Pieces.{flag_of, own, own_text};
ghost use Rattle.mini_grammar.specs.Views.{rule_of, token_of};

use crate::grammar::Rule;
use crate::keyword::{Keyword, units_of};
use crate::token::{Punct, Token};
use mini_model::{
    BinaryOperator, LogicalOperator, UnaryOperator, UpdateOperator, VariableDeclarationKind,
};

fn binary_token<'a>(operator: BinaryOperator) -> Token<'a>
    ensures { token_of result ≡ tokens.binary_token operator }
{
    match operator {
        BinaryOperator::Equality => Token::Mark(Punct::EqualEqual),
        BinaryOperator::Inequality => Token::Mark(Punct::BangEqual),
        BinaryOperator::StrictEquality => Token::Mark(Punct::EqualEqualEqual),
        BinaryOperator::StrictInequality => Token::Mark(Punct::BangEqualEqual),
        BinaryOperator::LessThan => Token::Mark(Punct::Less),
        BinaryOperator::LessEqualThan => Token::Mark(Punct::LessEqual),
        BinaryOperator::GreaterThan => Token::Mark(Punct::Greater),
        BinaryOperator::GreaterEqualThan => Token::Mark(Punct::GreaterEqual),
        BinaryOperator::ShiftLeft => Token::Mark(Punct::ShiftL),
        BinaryOperator::ShiftRight => Token::Mark(Punct::ShiftR),
        BinaryOperator::ShiftRightZeroFill => Token::Mark(Punct::ShiftRR),
        BinaryOperator::Addition => Token::Mark(Punct::Plus),
        BinaryOperator::Subtraction => Token::Mark(Punct::Minus),
        BinaryOperator::Multiplication => Token::Mark(Punct::Times),
        BinaryOperator::Division => Token::Mark(Punct::Slash),
        BinaryOperator::Remainder => Token::Mark(Punct::Percent),
        BinaryOperator::Exponential => Token::Mark(Punct::Power),
        BinaryOperator::BitwiseAnd => Token::Mark(Punct::Ampersand),
        BinaryOperator::BitwiseXor => Token::Mark(Punct::Caret),
        BinaryOperator::BitwiseOr => Token::Mark(Punct::Bar),
        BinaryOperator::In => Token::Word(units_of(Keyword::In)),
        BinaryOperator::Instanceof => Token::Word(units_of(Keyword::Instanceof)),
    }
}

fn logical_token<'a>(operator: LogicalOperator) -> Token<'a>
    ensures { token_of result ≡ tokens.logical_token operator }
{
    match operator {
        LogicalOperator::Or => Token::Mark(Punct::BarBar),
        LogicalOperator::And => Token::Mark(Punct::AndAnd),
        LogicalOperator::Coalesce => Token::Mark(Punct::QuestionQuestion),
    }
}

fn unary_token<'a>(operator: UnaryOperator) -> Token<'a>
    ensures { token_of result ≡ tokens.unary_token operator }
{
    match operator {
        UnaryOperator::UnaryPlus => Token::Mark(Punct::Plus),
        UnaryOperator::UnaryNegation => Token::Mark(Punct::Minus),
        UnaryOperator::LogicalNot => Token::Mark(Punct::Bang),
        UnaryOperator::BitwiseNot => Token::Mark(Punct::Tilde),
        UnaryOperator::Typeof => Token::Word(units_of(Keyword::Typeof)),
        UnaryOperator::Void => Token::Word(units_of(Keyword::Void)),
        UnaryOperator::Delete => Token::Word(units_of(Keyword::Delete)),
    }
}

fn update_token<'a>(operator: UpdateOperator) -> Token<'a>
    ensures { token_of result ≡ tokens.update_token operator }
{
    match operator {
        UpdateOperator::Increment => Token::Mark(Punct::PlusPlus),
        UpdateOperator::Decrement => Token::Mark(Punct::MinusMinus),
    }
}

fn declaring_token<'a>(kind: VariableDeclarationKind) -> Token<'a>
    ensures { token_of result ≡ kind_token kind }
{
    match kind {
        VariableDeclarationKind::Var => Token::Word(units_of(Keyword::Var)),
        VariableDeclarationKind::Let => Token::Word(units_of(Keyword::Let)),
        VariableDeclarationKind::Const => Token::Word(units_of(Keyword::Const)),
    }
}

/// The token that a production itself has: its name, number, text or operator. A `;` for a
/// production without one.
#[tactic(auto, using(crate::proofs::Nameless::no_token))]
pub fn own_token<'a>(rule: Rule<'a>) -> Token<'a>
    ensures { token_of result ≡ own (rule_of rule.entry) }
{
    match rule {
        Rule::Reference(text)
        | Rule::PropertyName(text)
        | Rule::BindingName(text)
        | Rule::Label(text)
        | Rule::BoundShorthand(text)
        | Rule::Shorthand(text)
        | Rule::KeyWord(text)
        | Rule::TargetShorthand(text)
        | Rule::TargetDefault(text)
        | Rule::ClassNamed(text)
        | Rule::ClassDeclared(text)
        | Rule::BoundDefault(text)
        | Rule::ImportDefault(text)
        | Rule::ImportDefaultNames(text)
        | Rule::ImportDefaultNamespace(text)
        | Rule::ImportShort(text)
        | Rule::ExportShort(text)
        | Rule::ExportAs(text)
        | Rule::ForwardName(text)
        | Rule::DeclaredClass(text)
        | Rule::DefaultClassNamed(text)
        | Rule::ArrowName(text)
        | Rule::ArrowNameBlock(text) => Token::Word(text),
        Rule::NumberLiteral(value) | Rule::KeyNumber(value) => Token::Number(value),
        Rule::BigIntLiteral(value) => Token::BigInt(value),
        Rule::TextLiteral(text)
        | Rule::KeyText(text)
        | Rule::ImportBare(text)
        | Rule::ForwardText(text) => Token::Text(text),
        Rule::Directive(text) => Token::Quoted(text),
        Rule::RegExpLiteral(pattern, flags) => Token::Pattern(pattern, flags),
        Rule::Postfix(operator) | Rule::Prefix(operator) => update_token(operator),
        Rule::Unary(operator) => unary_token(operator),
        Rule::Binary(operator) => binary_token(operator),
        Rule::Logical(operator) => logical_token(operator),
        Rule::Assignment(operator) => Token::Mark(Punct::Assigns(operator)),
        Rule::Variables(kind) | Rule::HeadVariables(kind) | Rule::DeclaredVariables(kind) => {
            declaring_token(kind)
        }
        Rule::PrivateName(text) | Rule::PrivateIn(text) | Rule::PrivateKey(text) => {
            Token::Private(text)
        }
        Rule::WholeTemplate(text) | Rule::TagWhole(text) => Token::TemplateWhole(text),
        Rule::Template(text) | Rule::TagParts(text) => Token::TemplateHead(text),
        Rule::MiddlePiece(text) => Token::TemplateMiddle(text),
        Rule::TailPiece(text) => Token::TemplateTail(text),
        Rule::Fixed(_) | Rule::NamedDefault(_, _) => Token::Mark(Punct::Semicolon),
    }
}

/// The name or the text of a production; the empty text for a production without one.
#[tactic(auto, using(crate::proofs::Nameless::no_text))]
pub fn own_text<'a>(rule: Rule<'a>) -> &'a [u16]
    ensures { result.now ≡ own_text (rule_of rule.entry) }
{
    match rule {
        Rule::Reference(text)
        | Rule::TextLiteral(text)
        | Rule::PropertyName(text)
        | Rule::BindingName(text)
        | Rule::PrivateName(text)
        | Rule::PrivateIn(text)
        | Rule::Label(text)
        | Rule::KeyWord(text)
        | Rule::KeyText(text)
        | Rule::BoundShorthand(text)
        | Rule::Shorthand(text)
        | Rule::WholeTemplate(text)
        | Rule::Template(text)
        | Rule::MiddlePiece(text)
        | Rule::TailPiece(text)
        | Rule::TagWhole(text)
        | Rule::TagParts(text)
        | Rule::BoundDefault(text)
        | Rule::ClassNamed(text)
        | Rule::ClassDeclared(text)
        | Rule::PrivateKey(text)
        | Rule::TargetShorthand(text)
        | Rule::TargetDefault(text)
        | Rule::Directive(text)
        | Rule::ImportBare(text)
        | Rule::ImportDefault(text)
        | Rule::ImportDefaultNames(text)
        | Rule::ImportDefaultNamespace(text)
        | Rule::ImportShort(text)
        | Rule::ExportShort(text)
        | Rule::ExportAs(text)
        | Rule::ForwardName(text)
        | Rule::ForwardText(text)
        | Rule::DeclaredClass(text)
        | Rule::DefaultClassNamed(text)
        | Rule::ArrowName(text)
        | Rule::ArrowNameBlock(text)
        | Rule::NamedDefault(_, text) => text,
        Rule::Fixed(_)
        | Rule::NumberLiteral(_)
        | Rule::BigIntLiteral(_)
        | Rule::RegExpLiteral(_, _)
        | Rule::Postfix(_)
        | Rule::Prefix(_)
        | Rule::Unary(_)
        | Rule::Binary(_)
        | Rule::Logical(_)
        | Rule::Assignment(_)
        | Rule::Variables(_)
        | Rule::HeadVariables(_)
        | Rule::DeclaredVariables(_)
        | Rule::KeyNumber(_) => &[],
    }
}

/// Whether the default of a property by a name is that of a declaration; false for any other
/// production.
#[tactic(auto, using(crate::proofs::Nameless::no_flag))]
pub fn own_flag<'a>(rule: Rule<'a>) -> bool
    ensures { result ≡ flag_of (rule_of rule.entry) }
{
    match rule {
        Rule::NamedDefault(declared, _) => declared,
        _ => false,
    }
}
