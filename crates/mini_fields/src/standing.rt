// Which nodes may stand in a place, and which forms aren't read.

ghost use Rattle.std.specs.Prelude.{◌≡◌, Bool, None, Some, map, option_map};
ghost use Rattle.serde_json.specs.View.{view, items_view};
ghost use Rattle.mini_accept.specs.Fields.{is_one_of, has_one_of, kind_of};
ghost use Rattle.mini_accept.specs.Standing.{is_identifier, is_variable, is_default, has_true, is_member_target, is_method, is_head_by, is_head, is_piece, stands_as, may_stand, begins_with, has_unread_type, is_nested, is_key, is_unread, is_misplaced};
ghost use Rattle.mini_fields.specs.Unread.{is_foreign, is_for_text, is_literal, is_function_declaration, has_unread_field_of, is_unread_itself, is_unread_at, is_unread_of};
ghost use Rattle.mini_fields.specs.Stands.{is_expression_kind, is_statement_kind, is_pattern_kind, is_identifier_kind, is_block_kind, is_statement_of, is_loop_left, asked_type, stands_otherwise, stands_in_list};
ghost use Rattle.mini_fields.specs.Views.{depth_of, class_of, place_of, letters_of};

use crate::kind::kind_of;
use crate::literals::{is_big_int_literal, is_key_literal, is_string_literal, is_unread_literal};
use crate::look::{flag_at, has_text, has_type, is_bare, is_given, list_at, text_at};
use crate::place::{Class, Depth, MetaWord, Place};
use mini_accept::Kind;
use serde_json::Value;

// ---- types that stand in like places

const DECLARATION_TYPES: [&str; 3] = [
    "VariableDeclaration",
    "FunctionDeclaration",
    "ClassDeclaration",
];

const MEMBER_TYPES: [&str; 3] = ["MethodDefinition", "PropertyDefinition", "StaticBlock"];

const CHAIN_TYPES: [&str; 2] = ["CallExpression", "MemberExpression"];

const PROPERTY_TYPES: [&str; 2] = ["Property", "SpreadElement"];

const IMPORT_TYPES: [&str; 3] = [
    "ImportSpecifier",
    "ImportDefaultSpecifier",
    "ImportNamespaceSpecifier",
];

const EXPORT_TYPES: [&str; 2] = ["FunctionDeclaration", "ClassDeclaration"];

const MODULE_TYPES: [&str; 4] = [
    "ImportDeclaration",
    "ExportNamedDeclaration",
    "ExportDefaultDeclaration",
    "ExportAllDeclaration",
];

// Whether the text is one of the words.
fn is_one_of(words: &[&str], text: &str) -> bool
    ensures { result ≡ is_one_of (map (λ w. w.now) words.now) text.now }
{
    match words {
        [] => false,
        [word, rest @ ..] => text == *word || is_one_of(rest, text),
    }
}

/// Whether the value is a node of one of these types.
pub fn has_one_of(types: &[&str], value: &Value) -> bool
    ensures { result ≡ has_one_of (map (λ w. w.now) types.now) (view value.now) }
{
    match text_at("type", value) {
        None => false,
        Some(name) => is_one_of(types, name),
    }
}

/// Whether the value is an identifier.
pub fn is_identifier(value: &Value) -> bool
    ensures { result ≡ is_identifier (view value.now) }
{
    has_type("Identifier", value)
}

// Whether the value is a declaration of variables.
fn is_variable(value: &Value) -> bool
    ensures { result ≡ is_variable (view value.now) }
{
    has_type("VariableDeclaration", value)
}

// Whether the value is a pattern with a default.
fn is_default(value: &Value) -> bool
    ensures { result ≡ is_default (view value.now) }
{
    has_type("AssignmentPattern", value)
}

// ---- forms of a type that a place asks for

/// Whether the field is true.
pub fn has_true(key: &str, value: &Value) -> bool
    ensures { result ≡ has_true key.now (view value.now) }
{
    match value.get(key) {
        None => false,
        Some(found) => match found.as_bool() {
            None => false,
            Some(flag) => flag,
        },
    }
}

// Whether it is a member that may be assigned to (ECMA-262, AssignmentTargetType).
fn is_member_target(value: &Value) -> bool
    ensures { result ≡ is_member_target (view value.now) }
{
    has_type("MemberExpression", value) && !has_true("optional", value)
}

// Whether it is what a method has as its value.
fn is_method(value: &Value) -> bool
    ensures { result ≡ is_method (view value.now) }
{
    has_type("FunctionExpression", value) && !is_given("id", value)
}

// Whether there is one declarator, which has an initializer only where it may.
#[tactic(auto, using(crate::proofs::Lists::is_head_by_many))]
fn is_head_by(may_have_init: bool, declarators: &[Value]) -> bool
    ensures { result ≡ is_head_by may_have_init (items_view declarators.now) }
{
    match declarators {
        [declarator] => may_have_init || !is_given("init", declarator),
        _ => false,
    }
}

// Whether the declaration is the head of a `for..in` (true) or `for..of`.
fn is_head(enumerates: bool, value: &Value) -> bool
    ensures { result ≡ is_head enumerates (view value.now) }
{
    match list_at("declarations", value) {
        None => false,
        Some(declarators) => {
            is_head_by(enumerates && has_text("kind", "var", value), declarators)
        }
    }
}

// Whether a piece of a template says that it is the last where it is; it may say nothing.
fn is_piece(last: bool, tail: Option<bool>) -> bool
    ensures { result ≡ is_piece last tail }
{
    match tail {
        None => true,
        Some(tail) => last == tail,
    }
}

// ---- places

// Whether nodes of the type are expressions.
fn is_expression_kind(kind: Kind) -> bool
    ensures { result ≡ is_expression_kind kind }
{
    match kind {
        Kind::Identifier
        | Kind::Literal
        | Kind::ThisExpression
        | Kind::ArrayExpression
        | Kind::ObjectExpression
        | Kind::FunctionExpression
        | Kind::ArrowFunctionExpression
        | Kind::ClassExpression
        | Kind::UnaryExpression
        | Kind::UpdateExpression
        | Kind::BinaryExpression
        | Kind::LogicalExpression
        | Kind::AssignmentExpression
        | Kind::ConditionalExpression
        | Kind::SequenceExpression
        | Kind::CallExpression
        | Kind::NewExpression
        | Kind::MemberExpression
        | Kind::ChainExpression
        | Kind::YieldExpression
        | Kind::TemplateLiteral
        | Kind::TaggedTemplateExpression
        | Kind::MetaProperty
        | Kind::ImportExpression => true,
        _ => false,
    }
}

// Whether nodes of the type are statements.
fn is_statement_kind(kind: Kind) -> bool
    ensures { result ≡ is_statement_kind kind }
{
    match kind {
        Kind::ExpressionStatement
        | Kind::EmptyStatement
        | Kind::DebuggerStatement
        | Kind::BlockStatement
        | Kind::LabeledStatement
        | Kind::BreakStatement
        | Kind::ContinueStatement
        | Kind::ReturnStatement
        | Kind::ThrowStatement
        | Kind::IfStatement
        | Kind::SwitchStatement
        | Kind::TryStatement
        | Kind::WhileStatement
        | Kind::DoWhileStatement
        | Kind::ForStatement
        | Kind::ForInStatement
        | Kind::ForOfStatement
        | Kind::VariableDeclaration
        | Kind::FunctionDeclaration
        | Kind::ClassDeclaration => true,
        _ => false,
    }
}

// Whether nodes of the type are names and patterns without a default.
fn is_pattern_kind(kind: Kind) -> bool
    ensures { result ≡ is_pattern_kind kind }
{
    match kind {
        Kind::Identifier | Kind::ObjectPattern | Kind::ArrayPattern => true,
        _ => false,
    }
}

// Whether nodes of the type are identifiers.
fn is_identifier_kind(kind: Kind) -> bool
    ensures { result ≡ is_identifier_kind kind }
{
    match kind {
        Kind::Identifier => true,
        _ => false,
    }
}

// Whether nodes of the type are blocks.
fn is_block_kind(kind: Kind) -> bool
    ensures { result ≡ is_block_kind kind }
{
    match kind {
        Kind::BlockStatement => true,
        _ => false,
    }
}

// Whether a node of the type is a statement that may stand in such a body.
fn is_statement_in(depth: Depth, kind: Kind, value: &Value) -> bool
    ensures { result ≡ is_statement_of (depth_of depth) kind (view value.now) }
{
    match depth {
        Depth::InModule => is_statement_kind(kind) || has_one_of(&MODULE_TYPES, value),
        Depth::InBody | Depth::Nested => is_statement_kind(kind),
    }
}

// Whether it is the head of a `for..in` (true) or `for..of`.
fn is_loop_left(enumerates: bool, kind: Kind, value: &Value) -> bool
    ensures { result ≡ is_loop_left enumerates kind (view value.now) }
{
    if is_variable(value) {
        is_head(enumerates, value)
    } else {
        is_pattern_kind(kind) || is_member_target(value)
    }
}

// The letters of a word of a meta property.
fn letters_of(word: MetaWord) -> &'static str
    ensures { result.now ≡ letters_of word }
{
    match word {
        MetaWord::New => "new",
        MetaWord::Target => "target",
        MetaWord::Import => "import",
        MetaWord::Meta => "meta",
    }
}

// The type that the class asks for, where it asks for one and for nothing else.
fn asked_type(class: Class) -> Option<&'static str>
    ensures { option_map (λ s. s.now) result ≡ asked_type class }
{
    match class {
        Class::Program => Some("Program"),
        Class::Case => Some("SwitchCase"),
        Class::Catch => Some("CatchClause"),
        Class::Declarator => Some("VariableDeclarator"),
        Class::PatternProperty | Class::TargetProperty => Some("Property"),
        Class::PatternRest | Class::TargetRest => Some("RestElement"),
        Class::PrivateName => Some("PrivateIdentifier"),
        Class::ClassBody => Some("ClassBody"),
        Class::InnerArgument => Some("SpreadElement"),
        Class::Super => Some("Super"),
        Class::TaggedTemplate => Some("TemplateLiteral"),
        _ => None,
    }
}

// Whether a node of the type may stand where another class is asked for: most ask for the type
// alone.
fn stands_otherwise(class: Class, kind: Kind, value: &Value) -> bool
    ensures { result ≡ stands_otherwise class kind (view value.now) }
{
    match class {
        Class::Expression | Class::Link | Class::Key(true) => is_expression_kind(kind),
        Class::Statement(depth) => is_statement_in(depth, kind, value),
        Class::Block | Class::FunctionBody => is_block_kind(kind),
        Class::ArrowBody => is_block_kind(kind) || is_expression_kind(kind),
        Class::Init => is_variable(value) || is_expression_kind(kind),
        Class::LoopLeft(enumerates) => is_loop_left(enumerates, kind, value),
        Class::Argument => has_type("SpreadElement", value) || is_expression_kind(kind),
        Class::Pattern | Class::ElementTarget => is_pattern_kind(kind),
        Class::PatternElement | Class::Parameter | Class::TargetElement => {
            is_pattern_kind(kind) || is_default(value)
        }
        Class::Binding | Class::Label | Class::TargetName => is_identifier_kind(kind),
        Class::Key(false) | Class::InnerKey => is_identifier_kind(kind) || is_key_literal(value),
        Class::PrivateOrKey => {
            is_identifier_kind(kind)
                || (is_key_literal(value) || has_type("PrivateIdentifier", value))
        }
        Class::Target => is_pattern_kind(kind) || is_member_target(value),
        Class::SimpleTarget => is_identifier_kind(kind) || is_member_target(value),
        Class::MemberTarget => is_member_target(value),
        Class::NamedTarget => is_identifier_kind(kind) || is_default(value),
        Class::Method => is_method(value),
        Class::ModuleName => is_identifier_kind(kind) || is_string_literal(value),
        Class::String => is_string_literal(value),
        Class::Word(word) => {
            is_identifier_kind(kind) && has_text("name", letters_of(word), value)
        }
        _ => stands_in_list(class, kind, value),
    }
}

// Whether a value of the type may stand where a class is asked for that takes one of some types.
fn stands_in_list(class: Class, kind: Kind, value: &Value) -> bool
    ensures { result ≡ stands_in_list class kind (view value.now) }
{
    match class {
        Class::ClassMember => has_one_of(&MEMBER_TYPES, value),
        Class::Chain => has_one_of(&CHAIN_TYPES, value),
        Class::ObjectProperty => has_one_of(&PROPERTY_TYPES, value),
        Class::Import => has_one_of(&IMPORT_TYPES, value),
        Class::ExportedDeclaration => has_one_of(&DECLARATION_TYPES, value),
        Class::DefaultExport => is_expression_kind(kind) || has_one_of(&EXPORT_TYPES, value),
        _ => false,
    }
}

// Whether a value of the type may stand where this class is asked for.
fn stands_by(class: Class, kind: Kind, value: &Value) -> bool
    requires { kind_of (view value.now) ≡ Some kind }
    ensures { result ≡ stands_as (class_of class) (view value.now) }
{
    match asked_type(class) {
        Some(name) => has_type(name, value),
        None => stands_otherwise(class, kind, value),
    }
}

/// Whether a node of this type is one that may stand in the place.
pub fn may_stand_by(place: Place, kind: Kind, value: &Value) -> bool
    requires { kind_of (view value.now) ≡ Some kind }
    ensures { result ≡ may_stand (place_of place) (view value.now) }
{
    match place {
        Place::At(class) => stands_by(class, kind, value),
        Place::Directive => has_type("ExpressionStatement", value),
        Place::DirectiveText => has_type("Literal", value) && text_at("value", value).is_some(),
        Place::Quasi(_, last) => {
            has_type("TemplateElement", value) && is_piece(last, flag_at("tail", value))
        }
        Place::Exported(_) => has_type("ExportSpecifier", value),
        Place::LocalName => is_identifier(value),
    }
}

/// Whether the type of the node, and where the place asks for one its form, is one that stands
/// there.
pub fn may_stand(place: Place, value: &Value) -> bool
    ensures { result ≡ may_stand (place_of place) (view value.now) }
{
    match kind_of(value) {
        None => false,
        Some(kind) => may_stand_by(place, kind, value),
    }
}

// ---- forms that aren't read

// Whether the text begins with the other one.
fn begins_with(start: &[u8], text: &[u8]) -> bool
    ensures { result ≡ begins_with start.now text.now }
{
    match start {
        [] => true,
        [first, rest @ ..] => match text {
            [] => false,
            [byte, after @ ..] => *first == *byte && begins_with(rest, after),
        },
    }
}

// Whether it is a type of TypeScript's or of JSX's.
fn is_foreign(value: &Value) -> bool
    ensures { result ≡ is_foreign (view value.now) }
{
    match text_at("type", value) {
        None => false,
        Some(name) => begins_with(b"TS", name.as_bytes()) || begins_with(b"JSX", name.as_bytes()),
    }
}

// Whether the type is TypeScript's, JSX's, or one of JavaScript's that isn't read.
fn has_unread_type(value: &Value) -> bool
    ensures { result ≡ has_unread_type (view value.now) }
{
    has_one_of(
        &[
            "AwaitExpression",
            "WithStatement",
            "ParenthesizedExpression",
            "Decorator",
            "AccessorProperty",
        ],
        value,
    ) || is_foreign(value)
}

// Whether the literal there is looked at for its text alone, as that of a directive is.
fn is_for_text(place: Place) -> bool
    ensures { result ≡ is_for_text (place_of place) }
{
    match place {
        Place::DirectiveText => true,
        _ => false,
    }
}

/// Whether a node whose type isn't in the table is a form that isn't read.
pub fn is_unread_unknown(place: Place, value: &Value) -> bool
    ensures { (strict : Bool) → kind_of (view value.now) ≡ None → result ≡ is_unread strict (place_of place) (view value.now) }
{
    has_unread_type(value) || (!is_for_text(place) && !is_bare("decorators", value))
}

// Whether it is an asynchronous function or loop, a declaration of `using`, or has import
// attributes or the options of an import.
fn has_unread_field(kind: Kind, value: &Value) -> bool
    ensures { result ≡ has_unread_field_of kind (view value.now) }
{
    match kind {
        Kind::FunctionDeclaration | Kind::FunctionExpression | Kind::ArrowFunctionExpression => {
            has_true("async", value)
        }
        Kind::ForOfStatement => has_true("await", value),
        Kind::VariableDeclaration => {
            has_text("kind", "using", value) || has_text("kind", "await using", value)
        }
        Kind::ImportDeclaration | Kind::ExportNamedDeclaration | Kind::ExportAllDeclaration => {
            !is_bare("attributes", value)
        }
        Kind::ImportExpression => is_given("options", value),
        _ => false,
    }
}

// Whether nodes of the type are literals.
fn is_literal(kind: Kind) -> bool
    ensures { result ≡ is_literal kind }
{
    match kind {
        Kind::Literal => true,
        _ => false,
    }
}

// Whether nodes of the type are declarations of functions.
fn is_function_declaration(kind: Kind) -> bool
    ensures { result ≡ is_function_declaration kind }
{
    match kind {
        Kind::FunctionDeclaration => true,
        _ => false,
    }
}

// Whether a field says that the form isn't read, or it is a literal that isn't.
fn is_unread_itself(kind: Kind, value: &Value) -> bool
    ensures { result ≡ is_unread_itself kind (view value.now) }
{
    has_unread_field(kind, value)
        || (!is_bare("decorators", value) || (is_literal(kind) && is_unread_literal(value)))
}

// Whether a statement there is in another one.
fn is_nested(class: Class) -> bool
    ensures { result ≡ is_nested (class_of class) }
{
    match class {
        Class::Statement(Depth::Nested) => true,
        _ => false,
    }
}

// Whether a key there has no brackets.
fn is_key(class: Class) -> bool
    ensures { result ≡ is_key (class_of class) }
{
    match class {
        Class::Key(false) | Class::PrivateOrKey | Class::InnerKey => true,
        _ => false,
    }
}

// Whether the form isn't read where it stands: a BigInt as a key without brackets, and a function
// of sloppy code that isn't directly in a body.
fn is_unread_at(strict: bool, place: Place, kind: Kind, value: &Value) -> bool
    ensures { result ≡ is_unread_at strict (place_of place) kind (view value.now) }
{
    match place {
        Place::At(class) => {
            (is_key(class) && is_big_int_literal(value))
                || (!strict && is_nested(class) && is_function_declaration(kind))
        }
        _ => false,
    }
}

// Whether the value, by the type that it has, is a form that isn't read where it stands.
fn is_unread_of(strict: bool, place: Place, kind: Kind, value: &Value) -> bool
    ensures { result ≡ is_unread_of strict (place_of place) kind (view value.now) }
{
    (!is_for_text(place) && is_unread_itself(kind, value))
        || is_unread_at(strict, place, kind, value)
}

/// Whether a node of the type is a form that isn't read, in strict or sloppy code.
pub fn is_unread(strict: bool, place: Place, kind: Kind, value: &Value) -> bool
    ensures { kind_of (view value.now) ≡ Some kind → result ≡ is_unread strict (place_of place) (view value.now) }
{
    is_unread_of(strict, place, kind, value)
}

/// Whether the value is a defect of the node above: it is no object, or has another type than the
/// place asks for.
pub fn is_misplaced(strict: bool, place: Place, value: &Value) -> bool
    ensures { result ≡ is_misplaced strict (place_of place) (view value.now) }
{
    if !value.is_object() {
        return true;
    }
    let Some(kind) = kind_of(value) else {
        return false;
    };
    if may_stand_by(place, kind, value) {
        return false;
    }
    !is_unread(strict, place, kind, value)
}
