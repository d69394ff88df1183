// What stands in the productions of expressions and patterns.

use crate::grammar::{Ending, Goal, Least, Lookahead, Opener, Piece, Silent};
use crate::keyword::Keyword;
use crate::token::Punct;
use mini_model::AssignmentOperator;

pub const OWN: [Piece; 1] = [Piece::Own];

pub const NULL: [Piece; 1] = [Piece::Word(Keyword::Null)];

pub const THIS: [Piece; 1] = [Piece::Word(Keyword::This)];

pub const TRUE: [Piece; 1] = [Piece::Word(Keyword::True)];

pub const FALSE: [Piece; 1] = [Piece::Word(Keyword::False)];

pub const ARRAY: [Piece; 3] = [
    Piece::Mark(Punct::LeftBracket),
    Piece::Commas(Some(Goal::Element), Least::Gaps),
    Piece::Mark(Punct::RightBracket),
];

pub const OBJECT: [Piece; 3] = [
    Piece::Mark(Punct::LeftBrace),
    Piece::Commas(Some(Goal::Property), Least::Zero),
    Piece::Mark(Punct::RightBrace),
];

pub const KEY_VALUE: [Piece; 3] = [
    Piece::Restricted(Lookahead::Key, Some(Goal::KeyName), 0),
    Piece::Mark(Punct::Colon),
    Piece::Part(None, 1),
];

pub const COMPUTED: [Piece; 5] = [
    Piece::Mark(Punct::LeftBracket),
    Piece::Part(Some(Goal::Anything), 1),
    Piece::Mark(Punct::RightBracket),
    Piece::Mark(Punct::Colon),
    Piece::Part(None, 1),
];

pub const SPREAD: [Piece; 2] = [Piece::Mark(Punct::Ellipsis), Piece::Part(None, 1)];

pub const MEMBER: [Piece; 3] = [
    Piece::Left(17),
    Piece::Mark(Punct::Dot),
    Piece::Part(Some(Goal::AfterDot), 0),
];

pub const INDEX: [Piece; 4] = [
    Piece::Left(17),
    Piece::Mark(Punct::LeftBracket),
    Piece::Part(Some(Goal::Anything), 0),
    Piece::Mark(Punct::RightBracket),
];

pub const NEW: [Piece; 6] = [
    Piece::Word(Keyword::New),
    Piece::Part(Some(Goal::Callee), 16),
    Piece::Fork,
    Piece::Mark(Punct::LeftParen),
    Piece::Commas(Some(Goal::Element), Least::Zero),
    Piece::Mark(Punct::RightParen),
];

pub const NEW_BARE: [Piece; 4] = [
    Piece::Word(Keyword::New),
    Piece::Part(Some(Goal::Callee), 16),
    Piece::Fork,
    Piece::Silent(Silent::NoItems),
];

pub const IMPORT: [Piece; 4] = [
    Piece::Word(Keyword::Import),
    Piece::Mark(Punct::LeftParen),
    Piece::Part(Some(Goal::Anything), 1),
    Piece::Mark(Punct::RightParen),
];

pub const CALL: [Piece; 4] = [
    Piece::Left(17),
    Piece::Mark(Punct::LeftParen),
    Piece::Commas(Some(Goal::Element), Least::Zero),
    Piece::Mark(Punct::RightParen),
];

pub const POSTFIX: [Piece; 2] = [Piece::Left(18), Piece::Own];

pub const PREFIX: [Piece; 2] = [Piece::Own, Piece::Part(None, 16)];

pub const UNARY: [Piece; 2] = [Piece::Own, Piece::Part(None, 14)];

pub const BINARY: [Piece; 3] = [Piece::LeftOperand, Piece::Own, Piece::RightOperand];

pub const CONDITIONAL: [Piece; 5] = [
    Piece::Left(3),
    Piece::Mark(Punct::Question),
    Piece::Part(Some(Goal::Anything), 1),
    Piece::Mark(Punct::Colon),
    Piece::Part(None, 1),
];

pub const ASSIGNMENT: [Piece; 3] = [Piece::Left(18), Piece::Own, Piece::Part(None, 1)];

pub const SEQUENCE: [Piece; 1] = [Piece::Commas(None, Least::Two)];

pub const ARROW: [Piece; 5] = [
    Piece::Mark(Punct::LeftParen),
    Piece::Commas(Some(Goal::Parameter), Least::Zero),
    Piece::Mark(Punct::RightParen),
    Piece::Mark(Punct::Arrow),
    Piece::Restricted(Lookahead::NoBrace, None, 1),
];

pub const ARROW_BLOCK: [Piece; 5] = [
    Piece::Mark(Punct::LeftParen),
    Piece::Commas(Some(Goal::Parameter), Least::Zero),
    Piece::Mark(Punct::RightParen),
    Piece::Mark(Punct::Arrow),
    Piece::Part(Some(Goal::Body), 0),
];

pub const ARROW_NAME: [Piece; 4] = [
    Piece::Own,
    Piece::Mark(Punct::Arrow),
    Piece::Silent(Silent::Parameter),
    Piece::Restricted(Lookahead::NoBrace, None, 1),
];

pub const ARROW_NAME_BLOCK: [Piece; 4] = [
    Piece::Own,
    Piece::Mark(Punct::Arrow),
    Piece::Silent(Silent::Parameter),
    Piece::Part(Some(Goal::Body), 0),
];

pub const BLOCK: [Piece; 3] = [
    Piece::Mark(Punct::LeftBrace),
    Piece::Statements(Goal::Statement),
    Piece::Mark(Punct::RightBrace),
];

pub const VARIABLES: [Piece; 3] = [
    Piece::Own,
    Piece::Commas(Some(Goal::Declared), Least::One),
    Piece::Semicolon,
];

pub const DECLARATOR: [Piece; 2] = [
    Piece::Part(Some(Goal::Bound), 0),
    Piece::Option(Opener::Equals, None, 1),
];

pub const EMPTY: [Piece; 1] = [Piece::Mark(Punct::Semicolon)];

pub const EXPRESSION_STATEMENT: [Piece; 2] = [
    Piece::Restricted(Lookahead::NoStatement, Some(Goal::Anything), 0),
    Piece::Semicolon,
];

pub const IF: [Piece; 6] = [
    Piece::Word(Keyword::If),
    Piece::Mark(Punct::LeftParen),
    Piece::Part(Some(Goal::Anything), 0),
    Piece::Mark(Punct::RightParen),
    Piece::Part(Some(Goal::Statement), 0),
    Piece::Option(Opener::Else, Some(Goal::Statement), 0),
];

pub const DO_WHILE: [Piece; 7] = [
    Piece::Word(Keyword::Do),
    Piece::Part(Some(Goal::Statement), 0),
    Piece::Word(Keyword::While),
    Piece::Mark(Punct::LeftParen),
    Piece::Part(Some(Goal::Anything), 0),
    Piece::Mark(Punct::RightParen),
    Piece::Semicolon,
];

pub const WHILE: [Piece; 5] = [
    Piece::Word(Keyword::While),
    Piece::Mark(Punct::LeftParen),
    Piece::Part(Some(Goal::Anything), 0),
    Piece::Mark(Punct::RightParen),
    Piece::Part(Some(Goal::Statement), 0),
];

pub const FOR: [Piece; 10] = [
    Piece::Word(Keyword::For),
    Piece::Mark(Punct::LeftParen),
    Piece::Perhaps(Goal::WithoutIn),
    Piece::Fork,
    Piece::Mark(Punct::Semicolon),
    Piece::Perhaps(Goal::Anything),
    Piece::Mark(Punct::Semicolon),
    Piece::Perhaps(Goal::Anything),
    Piece::Mark(Punct::RightParen),
    Piece::Part(Some(Goal::Statement), 0),
];

pub const RETURN: [Piece; 3] = [
    Piece::Word(Keyword::Return),
    Piece::Perhaps(Goal::Anything),
    Piece::Semicolon,
];

pub const THROW: [Piece; 3] = [
    Piece::Word(Keyword::Throw),
    Piece::Part(Some(Goal::Anything), 0),
    Piece::Semicolon,
];

pub const DEBUGGER: [Piece; 2] = [Piece::Word(Keyword::Debugger), Piece::Semicolon];

pub const BREAK: [Piece; 3] = [
    Piece::Word(Keyword::Break),
    Piece::Perhaps(Goal::LabelName),
    Piece::Semicolon,
];

pub const CONTINUE: [Piece; 3] = [
    Piece::Word(Keyword::Continue),
    Piece::Perhaps(Goal::LabelName),
    Piece::Semicolon,
];

pub const FUNCTION_EXPRESSION: [Piece; 6] = [
    Piece::Word(Keyword::Function),
    Piece::Perhaps(Goal::Binding),
    Piece::Mark(Punct::LeftParen),
    Piece::Commas(Some(Goal::Parameter), Least::Zero),
    Piece::Mark(Punct::RightParen),
    Piece::Part(Some(Goal::Body), 0),
];

pub const FUNCTION_DECLARATION: [Piece; 6] = [
    Piece::Word(Keyword::Function),
    Piece::Part(Some(Goal::Binding), 0),
    Piece::Mark(Punct::LeftParen),
    Piece::Commas(Some(Goal::Parameter), Least::Zero),
    Piece::Mark(Punct::RightParen),
    Piece::Part(Some(Goal::Body), 0),
];

pub const GENERATOR_EXPRESSION: [Piece; 7] = [
    Piece::Word(Keyword::Function),
    Piece::Mark(Punct::Times),
    Piece::Perhaps(Goal::Binding),
    Piece::Mark(Punct::LeftParen),
    Piece::Commas(Some(Goal::Parameter), Least::Zero),
    Piece::Mark(Punct::RightParen),
    Piece::Part(Some(Goal::Body), 0),
];

pub const GENERATOR_DECLARATION: [Piece; 7] = [
    Piece::Word(Keyword::Function),
    Piece::Mark(Punct::Times),
    Piece::Part(Some(Goal::Binding), 0),
    Piece::Mark(Punct::LeftParen),
    Piece::Commas(Some(Goal::Parameter), Least::Zero),
    Piece::Mark(Punct::RightParen),
    Piece::Part(Some(Goal::Body), 0),
];

pub const YIELD: [Piece; 2] = [Piece::Word(Keyword::Yield), Piece::Part(None, 1)];

pub const YIELD_BARE: [Piece; 3] = [
    Piece::Word(Keyword::Yield),
    Piece::Silent(Silent::Nothing),
    Piece::End(Ending::YieldEnd),
];

pub const YIELD_FROM: [Piece; 3] = [
    Piece::Word(Keyword::Yield),
    Piece::Mark(Punct::Times),
    Piece::Part(None, 1),
];

pub const SUPER_MEMBER: [Piece; 4] = [
    Piece::Word(Keyword::Super),
    Piece::Mark(Punct::Dot),
    Piece::Silent(Silent::Super),
    Piece::Part(Some(Goal::AfterDot), 0),
];

pub const SUPER_INDEX: [Piece; 5] = [
    Piece::Word(Keyword::Super),
    Piece::Mark(Punct::LeftBracket),
    Piece::Silent(Silent::Super),
    Piece::Part(Some(Goal::Anything), 0),
    Piece::Mark(Punct::RightBracket),
];

pub const SUPER_CALL: [Piece; 5] = [
    Piece::Word(Keyword::Super),
    Piece::Mark(Punct::LeftParen),
    Piece::Silent(Silent::Super),
    Piece::Commas(Some(Goal::Element), Least::Zero),
    Piece::Mark(Punct::RightParen),
];

pub const NEW_TARGET: [Piece; 5] = [
    Piece::Word(Keyword::New),
    Piece::Mark(Punct::Dot),
    Piece::Word(Keyword::Target),
    Piece::Silent(Silent::Word(Keyword::New)),
    Piece::Silent(Silent::Word(Keyword::Target)),
];

pub const IMPORT_META: [Piece; 5] = [
    Piece::Word(Keyword::Import),
    Piece::Mark(Punct::Dot),
    Piece::Word(Keyword::Meta),
    Piece::Silent(Silent::Word(Keyword::Import)),
    Piece::Silent(Silent::Word(Keyword::Meta)),
];

pub const PRIVATE_IN: [Piece; 4] = [
    Piece::Own,
    Piece::Word(Keyword::In),
    Piece::Silent(Silent::Private),
    Piece::Part(None, 10),
];

pub const LABEL: [Piece; 4] = [
    Piece::Own,
    Piece::Mark(Punct::Colon),
    Piece::Silent(Silent::Name),
    Piece::Part(Some(Goal::Statement), 0),
];

pub const SWITCH: [Piece; 7] = [
    Piece::Word(Keyword::Switch),
    Piece::Mark(Punct::LeftParen),
    Piece::Part(Some(Goal::Anything), 0),
    Piece::Mark(Punct::RightParen),
    Piece::Mark(Punct::LeftBrace),
    Piece::Statements(Goal::CaseItem),
    Piece::Mark(Punct::RightBrace),
];

pub const CASE: [Piece; 5] = [
    Piece::Word(Keyword::Case),
    Piece::Part(Some(Goal::Anything), 0),
    Piece::Mark(Punct::Colon),
    Piece::Statements(Goal::Statement),
    Piece::End(Ending::CaseEnd),
];

pub const DEFAULT_CASE: [Piece; 5] = [
    Piece::Word(Keyword::Default),
    Piece::Mark(Punct::Colon),
    Piece::Silent(Silent::Nothing),
    Piece::Statements(Goal::Statement),
    Piece::End(Ending::CaseEnd),
];

pub const TRY: [Piece; 4] = [
    Piece::Word(Keyword::Try),
    Piece::Part(Some(Goal::BlockOnly), 0),
    Piece::Option(Opener::Catch, Some(Goal::Catching), 0),
    Piece::Option(Opener::Finally, Some(Goal::BlockOnly), 0),
];

pub const CATCH_PARAM: [Piece; 4] = [
    Piece::Mark(Punct::LeftParen),
    Piece::Part(Some(Goal::Bound), 0),
    Piece::Mark(Punct::RightParen),
    Piece::Part(Some(Goal::BlockOnly), 0),
];

pub const CATCH_BARE: [Piece; 2] = [
    Piece::Silent(Silent::Nothing),
    Piece::Part(Some(Goal::BlockOnly), 0),
];

pub const OBJECT_PATTERN: [Piece; 3] = [
    Piece::Mark(Punct::LeftBrace),
    Piece::Commas(Some(Goal::BoundProperty), Least::Zero),
    Piece::Mark(Punct::RightBrace),
];

pub const ARRAY_PATTERN: [Piece; 3] = [
    Piece::Mark(Punct::LeftBracket),
    Piece::Commas(Some(Goal::Parameter), Least::Gaps),
    Piece::Mark(Punct::RightBracket),
];

pub const REST: [Piece; 2] = [
    Piece::Mark(Punct::Ellipsis),
    Piece::Part(Some(Goal::Bound), 0),
];

pub const BOUND_KEY_VALUE: [Piece; 3] = [
    Piece::Restricted(Lookahead::Key, Some(Goal::KeyName), 0),
    Piece::Mark(Punct::Colon),
    Piece::Part(Some(Goal::BoundElement), 0),
];

pub const BOUND_COMPUTED: [Piece; 5] = [
    Piece::Mark(Punct::LeftBracket),
    Piece::Part(Some(Goal::Anything), 1),
    Piece::Mark(Punct::RightBracket),
    Piece::Mark(Punct::Colon),
    Piece::Part(Some(Goal::BoundElement), 0),
];

pub const BOUND_SHORTHAND: [Piece; 4] = [
    Piece::Own,
    Piece::Silent(Silent::Name),
    Piece::Silent(Silent::Binding),
    Piece::End(Ending::Ended),
];

pub const SHORTHAND: [Piece; 4] = [
    Piece::Own,
    Piece::Silent(Silent::Name),
    Piece::Silent(Silent::Reference),
    Piece::End(Ending::Ended),
];

pub const FOR_IN: [Piece; 8] = [
    Piece::Word(Keyword::For),
    Piece::Mark(Punct::LeftParen),
    Piece::Part(Some(Goal::WithoutIn), 18),
    Piece::Fork,
    Piece::Word(Keyword::In),
    Piece::Part(Some(Goal::Anything), 0),
    Piece::Mark(Punct::RightParen),
    Piece::Part(Some(Goal::Statement), 0),
];

pub const FOR_OF: [Piece; 8] = [
    Piece::Word(Keyword::For),
    Piece::Mark(Punct::LeftParen),
    Piece::Restricted(Lookahead::NotAsync, Some(Goal::WithoutIn), 18),
    Piece::Fork,
    Piece::Word(Keyword::Of),
    Piece::Part(Some(Goal::Anything), 1),
    Piece::Mark(Punct::RightParen),
    Piece::Part(Some(Goal::Statement), 0),
];

pub const FOR_DECLARED: [Piece; 10] = [
    Piece::Word(Keyword::For),
    Piece::Mark(Punct::LeftParen),
    Piece::Part(Some(Goal::HeadDeclaration), 0),
    Piece::Fork,
    Piece::Mark(Punct::Semicolon),
    Piece::Perhaps(Goal::Anything),
    Piece::Mark(Punct::Semicolon),
    Piece::Perhaps(Goal::Anything),
    Piece::Mark(Punct::RightParen),
    Piece::Part(Some(Goal::Statement), 0),
];

pub const FOR_DECLARED_IN: [Piece; 8] = [
    Piece::Word(Keyword::For),
    Piece::Mark(Punct::LeftParen),
    Piece::Part(Some(Goal::HeadDeclaration), 0),
    Piece::Fork,
    Piece::Word(Keyword::In),
    Piece::Part(Some(Goal::Anything), 0),
    Piece::Mark(Punct::RightParen),
    Piece::Part(Some(Goal::Statement), 0),
];

pub const FOR_DECLARED_OF: [Piece; 8] = [
    Piece::Word(Keyword::For),
    Piece::Mark(Punct::LeftParen),
    Piece::Part(Some(Goal::HeadDeclaration), 0),
    Piece::Fork,
    Piece::Word(Keyword::Of),
    Piece::Part(Some(Goal::Anything), 1),
    Piece::Mark(Punct::RightParen),
    Piece::Part(Some(Goal::Statement), 0),
];

pub const FOR_PATTERN_IN: [Piece; 7] = [
    Piece::Word(Keyword::For),
    Piece::Mark(Punct::LeftParen),
    Piece::Part(Some(Goal::TargetPattern), 0),
    Piece::Word(Keyword::In),
    Piece::Part(Some(Goal::Anything), 0),
    Piece::Mark(Punct::RightParen),
    Piece::Part(Some(Goal::Statement), 0),
];

pub const FOR_PATTERN_OF: [Piece; 7] = [
    Piece::Word(Keyword::For),
    Piece::Mark(Punct::LeftParen),
    Piece::Part(Some(Goal::TargetPattern), 0),
    Piece::Word(Keyword::Of),
    Piece::Part(Some(Goal::Anything), 1),
    Piece::Mark(Punct::RightParen),
    Piece::Part(Some(Goal::Statement), 0),
];

pub const HEAD_VARIABLES: [Piece; 3] = [
    Piece::Own,
    Piece::Commas(Some(Goal::HeadDeclared), Least::One),
    Piece::End(Ending::HeadEnd),
];

pub const METHOD_PROPERTY: [Piece; 2] = [
    Piece::Restricted(Lookahead::Key, Some(Goal::KeyName), 0),
    Piece::Part(Some(Goal::MethodValue), 0),
];

pub const GETTER: [Piece; 3] = [
    Piece::Word(Keyword::Get),
    Piece::Restricted(Lookahead::Key, Some(Goal::KeyName), 0),
    Piece::Part(Some(Goal::MethodValue), 0),
];

pub const SETTER: [Piece; 3] = [
    Piece::Word(Keyword::Set),
    Piece::Restricted(Lookahead::Key, Some(Goal::KeyName), 0),
    Piece::Part(Some(Goal::MethodValue), 0),
];

pub const GENERATOR_PROPERTY: [Piece; 3] = [
    Piece::Mark(Punct::Times),
    Piece::Restricted(Lookahead::Key, Some(Goal::KeyName), 0),
    Piece::Part(Some(Goal::GeneratorValue), 0),
];

pub const METHOD_FUNCTION: [Piece; 5] = [
    Piece::Silent(Silent::Nothing),
    Piece::Mark(Punct::LeftParen),
    Piece::Commas(Some(Goal::Parameter), Least::Zero),
    Piece::Mark(Punct::RightParen),
    Piece::Part(Some(Goal::Body), 0),
];

pub const FUNCTION_BODY: [Piece; 3] = [
    Piece::Mark(Punct::LeftBrace),
    Piece::Statements(Goal::Leading),
    Piece::Undirected,
];

pub const WHOLE_TEMPLATE: [Piece; 2] = [Piece::Own, Piece::Silent(Silent::Piece(true))];

pub const DEFAULTED: [Piece; 3] = [
    Piece::Part(Some(Goal::Bound), 0),
    Piece::Option(Opener::Equals, Some(Goal::Anything), 1),
    Piece::End(Ending::Ended),
];

pub const PATTERN_ASSIGNMENT: [Piece; 3] = [
    Piece::Part(Some(Goal::TargetPattern), 0),
    Piece::Mark(Punct::Assigns(AssignmentOperator::Assign)),
    Piece::Part(None, 1),
];

pub const ARRAY_TARGET: [Piece; 3] = [
    Piece::Mark(Punct::LeftBracket),
    Piece::Commas(Some(Goal::TargetElement), Least::Gaps),
    Piece::Mark(Punct::RightBracket),
];

pub const OBJECT_TARGET: [Piece; 3] = [
    Piece::Mark(Punct::LeftBrace),
    Piece::Commas(Some(Goal::TargetProperty), Least::Zero),
    Piece::Mark(Punct::RightBrace),
];

pub const PATTERN_ITEM: [Piece; 3] = [
    Piece::Part(Some(Goal::TargetPattern), 0),
    Piece::Option(Opener::Equals, Some(Goal::Anything), 1),
    Piece::End(Ending::Ended),
];

pub const VALUE_ITEM: [Piece; 3] = [
    Piece::Part(Some(Goal::Target), 16),
    Piece::Option(Opener::Equals, Some(Goal::Anything), 1),
    Piece::End(Ending::Ended),
];

pub const PATTERN_REST: [Piece; 2] = [
    Piece::Mark(Punct::Ellipsis),
    Piece::Part(Some(Goal::TargetPattern), 0),
];

pub const VALUE_REST: [Piece; 3] = [
    Piece::Mark(Punct::Ellipsis),
    Piece::Part(Some(Goal::Target), 16),
    Piece::End(Ending::Ended),
];

pub const TARGET_DEFAULT: [Piece; 3] = [
    Piece::Own,
    Piece::Silent(Silent::Name),
    Piece::Default(false),
];

pub const TARGET_KEY_VALUE: [Piece; 3] = [
    Piece::Restricted(Lookahead::Key, Some(Goal::KeyName), 0),
    Piece::Mark(Punct::Colon),
    Piece::Part(Some(Goal::TargetElement), 0),
];

pub const TARGET_COMPUTED: [Piece; 5] = [
    Piece::Mark(Punct::LeftBracket),
    Piece::Part(Some(Goal::Anything), 1),
    Piece::Mark(Punct::RightBracket),
    Piece::Mark(Punct::Colon),
    Piece::Part(Some(Goal::TargetElement), 0),
];

pub const DIRECTIVE: [Piece; 2] = [Piece::Own, Piece::Semicolon];
