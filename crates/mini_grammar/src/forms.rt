// What stands in each production: the table.

ghost use Rattle.std.specs.Prelude.{◌≡◌, ◌≤◌, length};
ghost use Rattle.mini_grammar.specs.Pieces.{pieces_of};
ghost use Rattle.mini_grammar.specs.Views.{rule_of};

use crate::expressions;
use crate::grammar::{Ending, Fixed, Goal, Least, Lookahead, Opener, Piece, Rule, Silent};
use crate::keyword::Keyword;
use crate::token::Punct;
use mini_model::AssignmentOperator;

const CLASS_PLAIN: [Piece; 5] = [
    Piece::Word(Keyword::Class),
    Piece::Silent(Silent::Nothing),
    Piece::Option(Opener::Extends, Some(Goal::Anything), 16),
    Piece::Part(Some(Goal::ClassBraces), 0),
    Piece::Silent(Silent::Nothing),
];

const CLASS_NAMED: [Piece; 6] = [
    Piece::Word(Keyword::Class),
    Piece::Own,
    Piece::Silent(Silent::Binding),
    Piece::Option(Opener::Extends, Some(Goal::Anything), 16),
    Piece::Part(Some(Goal::ClassBraces), 0),
    Piece::Silent(Silent::Nothing),
];

const CLASS_DECLARED: [Piece; 6] = [
    Piece::Word(Keyword::Class),
    Piece::Own,
    Piece::Silent(Silent::Binding),
    Piece::Option(Opener::Extends, Some(Goal::Anything), 16),
    Piece::Part(Some(Goal::ClassBraces), 0),
    Piece::Silent(Silent::Binding),
];

const CLASS_BODY: [Piece; 3] = [
    Piece::Mark(Punct::LeftBrace),
    Piece::Statements(Goal::ClassElement),
    Piece::Mark(Punct::RightBrace),
];

const CLASS_METHOD: [Piece; 2] = [
    Piece::Part(Some(Goal::ClassKey), 0),
    Piece::Part(Some(Goal::MethodValue), 0),
];

const CLASS_COMPUTED_METHOD: [Piece; 4] = [
    Piece::Mark(Punct::LeftBracket),
    Piece::Part(Some(Goal::Anything), 1),
    Piece::Mark(Punct::RightBracket),
    Piece::Part(Some(Goal::MethodValue), 0),
];

const CLASS_GENERATOR: [Piece; 3] = [
    Piece::Mark(Punct::Times),
    Piece::Part(Some(Goal::ClassKey), 0),
    Piece::Part(Some(Goal::GeneratorValue), 0),
];

const CLASS_COMPUTED_GENERATOR: [Piece; 5] = [
    Piece::Mark(Punct::Times),
    Piece::Mark(Punct::LeftBracket),
    Piece::Part(Some(Goal::Anything), 1),
    Piece::Mark(Punct::RightBracket),
    Piece::Part(Some(Goal::GeneratorValue), 0),
];

const CLASS_GETTER: [Piece; 3] = [
    Piece::Word(Keyword::Get),
    Piece::Part(Some(Goal::ClassKey), 0),
    Piece::Part(Some(Goal::MethodValue), 0),
];

const CLASS_COMPUTED_GETTER: [Piece; 5] = [
    Piece::Word(Keyword::Get),
    Piece::Mark(Punct::LeftBracket),
    Piece::Part(Some(Goal::Anything), 1),
    Piece::Mark(Punct::RightBracket),
    Piece::Part(Some(Goal::MethodValue), 0),
];

const CLASS_SETTER: [Piece; 3] = [
    Piece::Word(Keyword::Set),
    Piece::Part(Some(Goal::ClassKey), 0),
    Piece::Part(Some(Goal::MethodValue), 0),
];

const CLASS_COMPUTED_SETTER: [Piece; 5] = [
    Piece::Word(Keyword::Set),
    Piece::Mark(Punct::LeftBracket),
    Piece::Part(Some(Goal::Anything), 1),
    Piece::Mark(Punct::RightBracket),
    Piece::Part(Some(Goal::MethodValue), 0),
];

const FIELD: [Piece; 3] = [
    Piece::Part(Some(Goal::ClassKey), 0),
    Piece::Option(Opener::Equals, Some(Goal::Anything), 1),
    Piece::Semicolon,
];

const COMPUTED_FIELD: [Piece; 5] = [
    Piece::Mark(Punct::LeftBracket),
    Piece::Part(Some(Goal::Anything), 1),
    Piece::Mark(Punct::RightBracket),
    Piece::Option(Opener::Equals, Some(Goal::Anything), 1),
    Piece::Semicolon,
];

const STATIC_ELEMENT: [Piece; 2] = [
    Piece::Word(Keyword::Static),
    Piece::Part(Some(Goal::PlainElement), 0),
];

const STATIC_INIT: [Piece; 4] = [
    Piece::Word(Keyword::Static),
    Piece::Mark(Punct::LeftBrace),
    Piece::Statements(Goal::Statement),
    Piece::Mark(Punct::RightBrace),
];

const BOUND_DEFAULT: [Piece; 3] = [
    Piece::Own,
    Piece::Silent(Silent::Name),
    Piece::Default(true),
];

const NAMED_DEFAULT: [Piece; 4] = [
    Piece::Mark(Punct::Assigns(AssignmentOperator::Assign)),
    Piece::Silent(Silent::Named),
    Piece::Part(Some(Goal::Anything), 1),
    Piece::End(Ending::Ended),
];

const TEMPLATE: [Piece; 4] = [
    Piece::Own,
    Piece::Silent(Silent::Piece(false)),
    Piece::Part(Some(Goal::Anything), 0),
    Piece::Part(Some(Goal::TemplateRest), 0),
];

const MIDDLE_PIECE: [Piece; 3] = [
    Piece::Own,
    Piece::Part(Some(Goal::Anything), 0),
    Piece::Part(Some(Goal::TemplateRest), 0),
];

const TAGGED_TEMPLATE: [Piece; 2] = [Piece::Left(17), Piece::Part(Some(Goal::TagTemplate), 0)];

const CHAIN: [Piece; 4] = [
    Piece::Left(17),
    Piece::Mark(Punct::OptionalDot),
    Piece::Part(Some(Goal::FirstLink), 0),
    Piece::Statements(Goal::Link),
];

const FIRST_MEMBER: [Piece; 2] = [
    Piece::Silent(Silent::Nothing),
    Piece::Part(Some(Goal::AfterDot), 0),
];

const FIRST_INDEX: [Piece; 4] = [
    Piece::Mark(Punct::LeftBracket),
    Piece::Silent(Silent::Nothing),
    Piece::Part(Some(Goal::Anything), 0),
    Piece::Mark(Punct::RightBracket),
];

const FIRST_CALL: [Piece; 4] = [
    Piece::Mark(Punct::LeftParen),
    Piece::Silent(Silent::Nothing),
    Piece::Commas(Some(Goal::Element), Least::Zero),
    Piece::Mark(Punct::RightParen),
];

const LINK_MEMBER: [Piece; 3] = [
    Piece::Mark(Punct::Dot),
    Piece::Silent(Silent::Nothing),
    Piece::Part(Some(Goal::AfterDot), 0),
];

const OPTIONAL_MEMBER: [Piece; 3] = [
    Piece::Mark(Punct::OptionalDot),
    Piece::Silent(Silent::Nothing),
    Piece::Part(Some(Goal::AfterDot), 0),
];

const OPTIONAL_INDEX: [Piece; 5] = [
    Piece::Mark(Punct::OptionalDot),
    Piece::Mark(Punct::LeftBracket),
    Piece::Silent(Silent::Nothing),
    Piece::Part(Some(Goal::Anything), 0),
    Piece::Mark(Punct::RightBracket),
];

const OPTIONAL_CALL: [Piece; 5] = [
    Piece::Mark(Punct::OptionalDot),
    Piece::Mark(Punct::LeftParen),
    Piece::Silent(Silent::Nothing),
    Piece::Commas(Some(Goal::Element), Least::Zero),
    Piece::Mark(Punct::RightParen),
];

const IMPORT_BARE: [Piece; 7] = [
    Piece::Word(Keyword::Import),
    Piece::Own,
    Piece::Silent(Silent::Nothing),
    Piece::Silent(Silent::Nothing),
    Piece::Silent(Silent::NoItems),
    Piece::Silent(Silent::Text),
    Piece::Semicolon,
];

const IMPORT_NAMES: [Piece; 9] = [
    Piece::Word(Keyword::Import),
    Piece::Mark(Punct::LeftBrace),
    Piece::Silent(Silent::Nothing),
    Piece::Silent(Silent::Nothing),
    Piece::Commas(Some(Goal::ImportItem), Least::Zero),
    Piece::Mark(Punct::RightBrace),
    Piece::Word(Keyword::From),
    Piece::Part(Some(Goal::SourceText), 0),
    Piece::Semicolon,
];

const IMPORT_NAMESPACE: [Piece; 9] = [
    Piece::Word(Keyword::Import),
    Piece::Mark(Punct::Times),
    Piece::Word(Keyword::As),
    Piece::Silent(Silent::Nothing),
    Piece::Part(Some(Goal::Binding), 0),
    Piece::Silent(Silent::NoItems),
    Piece::Word(Keyword::From),
    Piece::Part(Some(Goal::SourceText), 0),
    Piece::Semicolon,
];

const IMPORT_DEFAULT: [Piece; 8] = [
    Piece::Word(Keyword::Import),
    Piece::Own,
    Piece::Silent(Silent::Binding),
    Piece::Silent(Silent::Nothing),
    Piece::Silent(Silent::NoItems),
    Piece::Word(Keyword::From),
    Piece::Part(Some(Goal::SourceText), 0),
    Piece::Semicolon,
];

const IMPORT_DEFAULT_NAMES: [Piece; 11] = [
    Piece::Word(Keyword::Import),
    Piece::Own,
    Piece::Mark(Punct::Comma),
    Piece::Mark(Punct::LeftBrace),
    Piece::Silent(Silent::Binding),
    Piece::Silent(Silent::Nothing),
    Piece::Commas(Some(Goal::ImportItem), Least::Zero),
    Piece::Mark(Punct::RightBrace),
    Piece::Word(Keyword::From),
    Piece::Part(Some(Goal::SourceText), 0),
    Piece::Semicolon,
];

const IMPORT_DEFAULT_NAMESPACE: [Piece; 11] = [
    Piece::Word(Keyword::Import),
    Piece::Own,
    Piece::Mark(Punct::Comma),
    Piece::Mark(Punct::Times),
    Piece::Word(Keyword::As),
    Piece::Silent(Silent::Binding),
    Piece::Part(Some(Goal::Binding), 0),
    Piece::Silent(Silent::NoItems),
    Piece::Word(Keyword::From),
    Piece::Part(Some(Goal::SourceText), 0),
    Piece::Semicolon,
];

const IMPORT_AS: [Piece; 3] = [
    Piece::Part(Some(Goal::ModuleName), 0),
    Piece::Word(Keyword::As),
    Piece::Part(Some(Goal::Binding), 0),
];

const EXPORT_NAMES: [Piece; 7] = [
    Piece::Word(Keyword::Export),
    Piece::Mark(Punct::LeftBrace),
    Piece::Silent(Silent::Nothing),
    Piece::Commas(Some(Goal::ExportItem), Least::Zero),
    Piece::Mark(Punct::RightBrace),
    Piece::Silent(Silent::Nothing),
    Piece::Semicolon,
];

const EXPORT_FROM: [Piece; 8] = [
    Piece::Word(Keyword::Export),
    Piece::Mark(Punct::LeftBrace),
    Piece::Silent(Silent::Nothing),
    Piece::Commas(Some(Goal::ForwardItem), Least::Zero),
    Piece::Mark(Punct::RightBrace),
    Piece::Word(Keyword::From),
    Piece::Part(Some(Goal::SourceText), 0),
    Piece::Semicolon,
];

const EXPORT_ALL: [Piece; 6] = [
    Piece::Word(Keyword::Export),
    Piece::Mark(Punct::Times),
    Piece::Option(Opener::As, Some(Goal::ModuleName), 0),
    Piece::Word(Keyword::From),
    Piece::Part(Some(Goal::SourceText), 0),
    Piece::Semicolon,
];

const EXPORT_DECLARED: [Piece; 4] = [
    Piece::Word(Keyword::Export),
    Piece::Part(Some(Goal::Exportable), 0),
    Piece::Silent(Silent::NoItems),
    Piece::Silent(Silent::Nothing),
];

const EXPORT_VALUE: [Piece; 4] = [
    Piece::Word(Keyword::Export),
    Piece::Word(Keyword::Default),
    Piece::Restricted(Lookahead::NoDeclaration, Some(Goal::Anything), 1),
    Piece::Semicolon,
];

const EXPORT_DEFAULT: [Piece; 3] = [
    Piece::Word(Keyword::Export),
    Piece::Word(Keyword::Default),
    Piece::Part(Some(Goal::DefaultDeclared), 0),
];

const EXPORT_SHORT: [Piece; 4] = [
    Piece::Own,
    Piece::Silent(Silent::Reference),
    Piece::Silent(Silent::Name),
    Piece::End(Ending::Ended),
];

const EXPORT_AS: [Piece; 4] = [
    Piece::Own,
    Piece::Word(Keyword::As),
    Piece::Silent(Silent::Reference),
    Piece::Part(Some(Goal::ModuleName), 0),
];

const FORWARD_NAME: [Piece; 4] = [
    Piece::Own,
    Piece::Silent(Silent::Name),
    Piece::Silent(Silent::Name),
    Piece::End(Ending::Ended),
];

const FORWARD_TEXT: [Piece; 4] = [
    Piece::Own,
    Piece::Silent(Silent::Text),
    Piece::Silent(Silent::Text),
    Piece::End(Ending::Ended),
];

const FORWARD_AS: [Piece; 3] = [
    Piece::Part(Some(Goal::ModuleName), 0),
    Piece::Word(Keyword::As),
    Piece::Part(Some(Goal::ModuleName), 0),
];

/// What stands in a production, from left to right.
pub fn pieces_of<'a>(rule: Rule<'a>) -> &'static [Piece]
    ensures value { result.now ≡ pieces_of (rule_of rule.entry) }
    ensures few { length result.now ≤ 16 }
{
    match rule {
        Rule::Reference(_)
        | Rule::NumberLiteral(_)
        | Rule::BigIntLiteral(_)
        | Rule::TextLiteral(_)
        | Rule::RegExpLiteral(_, _)
        | Rule::PropertyName(_)
        | Rule::BindingName(_)
        | Rule::PrivateName(_)
        | Rule::KeyWord(_)
        | Rule::KeyText(_)
        | Rule::KeyNumber(_)
        | Rule::PrivateKey(_)
        | Rule::TailPiece(_) => &expressions::OWN,
        Rule::Fixed(Fixed::Null) => &expressions::NULL,
        Rule::Fixed(Fixed::This) => &expressions::THIS,
        Rule::Fixed(Fixed::True) => &expressions::TRUE,
        Rule::Fixed(Fixed::False) => &expressions::FALSE,
        Rule::Fixed(Fixed::Array) => &expressions::ARRAY,
        Rule::Fixed(Fixed::Object) => &expressions::OBJECT,
        Rule::Fixed(Fixed::KeyValue) => &expressions::KEY_VALUE,
        Rule::Fixed(Fixed::Computed) => &expressions::COMPUTED,
        Rule::Fixed(Fixed::Spread) | Rule::Fixed(Fixed::SpreadItem) => &expressions::SPREAD,
        Rule::Fixed(Fixed::Member) => &expressions::MEMBER,
        Rule::Fixed(Fixed::Index) => &expressions::INDEX,
        Rule::Fixed(Fixed::New) => &expressions::NEW,
        Rule::Fixed(Fixed::NewBare) => &expressions::NEW_BARE,
        Rule::Fixed(Fixed::Import) => &expressions::IMPORT,
        Rule::Fixed(Fixed::Call) => &expressions::CALL,
        Rule::Postfix(_) => &expressions::POSTFIX,
        Rule::Prefix(_) => &expressions::PREFIX,
        Rule::Unary(_) => &expressions::UNARY,
        Rule::Binary(_) | Rule::Logical(_) => &expressions::BINARY,
        Rule::Fixed(Fixed::Conditional) => &expressions::CONDITIONAL,
        Rule::Assignment(_) => &expressions::ASSIGNMENT,
        Rule::Fixed(Fixed::Sequence) => &expressions::SEQUENCE,
        Rule::Fixed(Fixed::Arrow) => &expressions::ARROW,
        Rule::Fixed(Fixed::ArrowBlock) => &expressions::ARROW_BLOCK,
        Rule::ArrowName(_) => &expressions::ARROW_NAME,
        Rule::ArrowNameBlock(_) => &expressions::ARROW_NAME_BLOCK,
        Rule::Fixed(Fixed::Block) | Rule::Fixed(Fixed::BlockPart) => &expressions::BLOCK,
        Rule::Variables(_) | Rule::DeclaredVariables(_) => &expressions::VARIABLES,
        Rule::Fixed(Fixed::Declarator) => &expressions::DECLARATOR,
        Rule::Fixed(Fixed::Empty) => &expressions::EMPTY,
        Rule::Fixed(Fixed::ExpressionStatement) => &expressions::EXPRESSION_STATEMENT,
        Rule::Fixed(Fixed::If) => &expressions::IF,
        Rule::Fixed(Fixed::DoWhile) => &expressions::DO_WHILE,
        Rule::Fixed(Fixed::While) => &expressions::WHILE,
        Rule::Fixed(Fixed::For) => &expressions::FOR,
        Rule::Fixed(Fixed::Return) => &expressions::RETURN,
        Rule::Fixed(Fixed::Throw) => &expressions::THROW,
        Rule::Fixed(Fixed::Debugger) => &expressions::DEBUGGER,
        Rule::Fixed(Fixed::Break) => &expressions::BREAK,
        Rule::Fixed(Fixed::Continue) => &expressions::CONTINUE,
        Rule::Fixed(Fixed::FunctionExpression) | Rule::Fixed(Fixed::DefaultFunction) =>
            &expressions::FUNCTION_EXPRESSION,
        Rule::Fixed(Fixed::FunctionDeclaration) | Rule::Fixed(Fixed::DeclaredFunction) =>
            &expressions::FUNCTION_DECLARATION,
        Rule::Fixed(Fixed::GeneratorExpression) | Rule::Fixed(Fixed::DefaultGenerator) =>
            &expressions::GENERATOR_EXPRESSION,
        Rule::Fixed(Fixed::GeneratorDeclaration) | Rule::Fixed(Fixed::DeclaredGenerator) =>
            &expressions::GENERATOR_DECLARATION,
        Rule::Fixed(Fixed::Yield) => &expressions::YIELD,
        Rule::Fixed(Fixed::YieldBare) => &expressions::YIELD_BARE,
        Rule::Fixed(Fixed::YieldFrom) => &expressions::YIELD_FROM,
        Rule::Fixed(Fixed::SuperMember) => &expressions::SUPER_MEMBER,
        Rule::Fixed(Fixed::SuperIndex) => &expressions::SUPER_INDEX,
        Rule::Fixed(Fixed::SuperCall) => &expressions::SUPER_CALL,
        Rule::Fixed(Fixed::NewTarget) => &expressions::NEW_TARGET,
        Rule::Fixed(Fixed::ImportMeta) => &expressions::IMPORT_META,
        Rule::PrivateIn(_) => &expressions::PRIVATE_IN,
        Rule::Label(_) => &expressions::LABEL,
        Rule::Fixed(Fixed::Switch) => &expressions::SWITCH,
        Rule::Fixed(Fixed::Case) => &expressions::CASE,
        Rule::Fixed(Fixed::DefaultCase) => &expressions::DEFAULT_CASE,
        Rule::Fixed(Fixed::Try) => &expressions::TRY,
        Rule::Fixed(Fixed::CatchParam) => &expressions::CATCH_PARAM,
        Rule::Fixed(Fixed::CatchBare) => &expressions::CATCH_BARE,
        Rule::Fixed(Fixed::ObjectPattern) => &expressions::OBJECT_PATTERN,
        Rule::Fixed(Fixed::ArrayPattern) => &expressions::ARRAY_PATTERN,
        Rule::Fixed(Fixed::Rest) | Rule::Fixed(Fixed::BoundRest) => &expressions::REST,
        Rule::Fixed(Fixed::BoundKeyValue) => &expressions::BOUND_KEY_VALUE,
        Rule::Fixed(Fixed::BoundComputed) => &expressions::BOUND_COMPUTED,
        Rule::BoundShorthand(_) | Rule::ImportShort(_) => &expressions::BOUND_SHORTHAND,
        Rule::Shorthand(_) | Rule::TargetShorthand(_) => &expressions::SHORTHAND,
        Rule::Fixed(Fixed::ForIn) => &expressions::FOR_IN,
        Rule::Fixed(Fixed::ForOf) => &expressions::FOR_OF,
        Rule::Fixed(Fixed::ForDeclared) => &expressions::FOR_DECLARED,
        Rule::Fixed(Fixed::ForDeclaredIn) => &expressions::FOR_DECLARED_IN,
        Rule::Fixed(Fixed::ForDeclaredOf) => &expressions::FOR_DECLARED_OF,
        Rule::Fixed(Fixed::ForPatternIn) => &expressions::FOR_PATTERN_IN,
        Rule::Fixed(Fixed::ForPatternOf) => &expressions::FOR_PATTERN_OF,
        Rule::HeadVariables(_) => &expressions::HEAD_VARIABLES,
        Rule::Fixed(Fixed::MethodProperty) => &expressions::METHOD_PROPERTY,
        Rule::Fixed(Fixed::Getter) => &expressions::GETTER,
        Rule::Fixed(Fixed::Setter) => &expressions::SETTER,
        Rule::Fixed(Fixed::GeneratorProperty) => &expressions::GENERATOR_PROPERTY,
        Rule::Fixed(Fixed::MethodFunction) | Rule::Fixed(Fixed::GeneratorMethod) =>
            &expressions::METHOD_FUNCTION,
        Rule::Fixed(Fixed::FunctionBody) => &expressions::FUNCTION_BODY,
        Rule::WholeTemplate(_) | Rule::TagWhole(_) => &expressions::WHOLE_TEMPLATE,
        Rule::Fixed(Fixed::Defaulted) => &expressions::DEFAULTED,
        Rule::Fixed(Fixed::PatternAssignment) => &expressions::PATTERN_ASSIGNMENT,
        Rule::Fixed(Fixed::ArrayTarget) => &expressions::ARRAY_TARGET,
        Rule::Fixed(Fixed::ObjectTarget) => &expressions::OBJECT_TARGET,
        Rule::Fixed(Fixed::PatternItem) => &expressions::PATTERN_ITEM,
        Rule::Fixed(Fixed::ValueItem) => &expressions::VALUE_ITEM,
        Rule::Fixed(Fixed::PatternRest) => &expressions::PATTERN_REST,
        Rule::Fixed(Fixed::ValueRest) | Rule::Fixed(Fixed::TargetPropertyRest) =>
            &expressions::VALUE_REST,
        Rule::TargetDefault(_) => &expressions::TARGET_DEFAULT,
        Rule::Fixed(Fixed::TargetKeyValue) => &expressions::TARGET_KEY_VALUE,
        Rule::Fixed(Fixed::TargetComputed) => &expressions::TARGET_COMPUTED,
        Rule::Directive(_) => &expressions::DIRECTIVE,
        Rule::Fixed(Fixed::ClassPlain) | Rule::Fixed(Fixed::DefaultClass) => &CLASS_PLAIN,
        Rule::ClassNamed(_) => &CLASS_NAMED,
        Rule::ClassDeclared(_) | Rule::DeclaredClass(_) | Rule::DefaultClassNamed(_) =>
            &CLASS_DECLARED,
        Rule::Fixed(Fixed::ClassBody) => &CLASS_BODY,
        Rule::Fixed(Fixed::ClassMethod) => &CLASS_METHOD,
        Rule::Fixed(Fixed::ClassComputedMethod) | Rule::Fixed(Fixed::ComputedMethod) =>
            &CLASS_COMPUTED_METHOD,
        Rule::Fixed(Fixed::ClassGenerator) => &CLASS_GENERATOR,
        Rule::Fixed(Fixed::ClassComputedGenerator) | Rule::Fixed(Fixed::ComputedGenerator) =>
            &CLASS_COMPUTED_GENERATOR,
        Rule::Fixed(Fixed::ClassGetter) => &CLASS_GETTER,
        Rule::Fixed(Fixed::ClassComputedGetter) | Rule::Fixed(Fixed::ComputedGetter) =>
            &CLASS_COMPUTED_GETTER,
        Rule::Fixed(Fixed::ClassSetter) => &CLASS_SETTER,
        Rule::Fixed(Fixed::ClassComputedSetter) | Rule::Fixed(Fixed::ComputedSetter) =>
            &CLASS_COMPUTED_SETTER,
        Rule::Fixed(Fixed::Field) => &FIELD,
        Rule::Fixed(Fixed::ComputedField) => &COMPUTED_FIELD,
        Rule::Fixed(Fixed::StaticElement) => &STATIC_ELEMENT,
        Rule::Fixed(Fixed::StaticInit) => &STATIC_INIT,
        Rule::BoundDefault(_) => &BOUND_DEFAULT,
        Rule::NamedDefault(_, _) => &NAMED_DEFAULT,
        Rule::Template(_) | Rule::TagParts(_) => &TEMPLATE,
        Rule::MiddlePiece(_) => &MIDDLE_PIECE,
        Rule::Fixed(Fixed::TaggedTemplate) => &TAGGED_TEMPLATE,
        Rule::Fixed(Fixed::Chain) => &CHAIN,
        Rule::Fixed(Fixed::FirstMember) => &FIRST_MEMBER,
        Rule::Fixed(Fixed::FirstIndex) | Rule::Fixed(Fixed::LinkIndex) => &FIRST_INDEX,
        Rule::Fixed(Fixed::FirstCall) | Rule::Fixed(Fixed::LinkCall) => &FIRST_CALL,
        Rule::Fixed(Fixed::LinkMember) => &LINK_MEMBER,
        Rule::Fixed(Fixed::OptionalMember) => &OPTIONAL_MEMBER,
        Rule::Fixed(Fixed::OptionalIndex) => &OPTIONAL_INDEX,
        Rule::Fixed(Fixed::OptionalCall) => &OPTIONAL_CALL,
        Rule::ImportBare(_) => &IMPORT_BARE,
        Rule::Fixed(Fixed::ImportNames) => &IMPORT_NAMES,
        Rule::Fixed(Fixed::ImportNamespace) => &IMPORT_NAMESPACE,
        Rule::ImportDefault(_) => &IMPORT_DEFAULT,
        Rule::ImportDefaultNames(_) => &IMPORT_DEFAULT_NAMES,
        Rule::ImportDefaultNamespace(_) => &IMPORT_DEFAULT_NAMESPACE,
        Rule::Fixed(Fixed::ImportAs) => &IMPORT_AS,
        Rule::Fixed(Fixed::ExportNames) => &EXPORT_NAMES,
        Rule::Fixed(Fixed::ExportFrom) => &EXPORT_FROM,
        Rule::Fixed(Fixed::ExportAll) => &EXPORT_ALL,
        Rule::Fixed(Fixed::ExportDeclared) => &EXPORT_DECLARED,
        Rule::Fixed(Fixed::ExportValue) => &EXPORT_VALUE,
        Rule::Fixed(Fixed::ExportDefault) => &EXPORT_DEFAULT,
        Rule::ExportShort(_) => &EXPORT_SHORT,
        Rule::ExportAs(_) => &EXPORT_AS,
        Rule::ForwardName(_) => &FORWARD_NAME,
        Rule::ForwardText(_) => &FORWARD_TEXT,
        Rule::Fixed(Fixed::ForwardAs) => &FORWARD_AS,
    }
}
