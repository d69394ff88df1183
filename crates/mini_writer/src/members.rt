// Objects of ESTree, by their members.

ghost use Rattle.std.specs.Prelude.{◌≡◌, codes, IfOk};
ghost use Rattle.serde_json.specs.Data.{string, object, member, no_members};
ghost use Rattle.serde_json.specs.View.{view, members_view};
ghost use Rattle.mini_writer.specs.Keys.{key_text, with_members, node_object, plain_object};

use serde_json::{Map, Value, put};
use std::alloc::{AllocError, Global};

/// The name of a field of a node of ESTree, but for `type`.
#[derive(Clone, Copy)]
pub enum Key {
    /// `alternate`
    Alternate,
    /// `argument`
    Argument,
    /// `arguments`
    Arguments,
    /// `async`
    Async,
    /// `attributes`
    Attributes,
    /// `await`
    Await,
    /// `bigint`
    Bigint,
    /// `block`
    Block,
    /// `body`
    Body,
    /// `callee`
    Callee,
    /// `cases`
    Cases,
    /// `computed`
    Computed,
    /// `consequent`
    Consequent,
    /// `cooked`
    Cooked,
    /// `declaration`
    Declaration,
    /// `declarations`
    Declarations,
    /// `delegate`
    Delegate,
    /// `directive`
    Directive,
    /// `discriminant`
    Discriminant,
    /// `elements`
    Elements,
    /// `exported`
    Exported,
    /// `expression`
    Expression,
    /// `expressions`
    Expressions,
    /// `finalizer`
    Finalizer,
    /// `flags`
    Flags,
    /// `generator`
    Generator,
    /// `handler`
    Handler,
    /// `id`
    Id,
    /// `imported`
    Imported,
    /// `init`
    Init,
    /// `key`
    Key,
    /// `kind`
    Kind,
    /// `label`
    Label,
    /// `left`
    Left,
    /// `local`
    Local,
    /// `meta`
    Meta,
    /// `method`
    Method,
    /// `name`
    Name,
    /// `object`
    Object,
    /// `operator`
    Operator,
    /// `optional`
    Optional,
    /// `param`
    Param,
    /// `params`
    Params,
    /// `pattern`
    Pattern,
    /// `prefix`
    Prefix,
    /// `properties`
    Properties,
    /// `property`
    Property,
    /// `quasi`
    Quasi,
    /// `quasis`
    Quasis,
    /// `raw`
    Raw,
    /// `regex`
    Regex,
    /// `right`
    Right,
    /// `shorthand`
    Shorthand,
    /// `source`
    Source,
    /// `sourceType`
    SourceType,
    /// `specifiers`
    Specifiers,
    /// `static`
    Static,
    /// `superClass`
    SuperClass,
    /// `tag`
    Tag,
    /// `tail`
    Tail,
    /// `test`
    Test,
    /// `update`
    Update,
    /// `value`
    Value,
}

/// The name of a field, as it stands in JSON.
pub fn key_text(key: Key) -> &'static str
    ensures { result.now ≡ key_text key }
{
    match key {
        Key::Alternate => "alternate",
        Key::Argument => "argument",
        Key::Arguments => "arguments",
        Key::Async => "async",
        Key::Attributes => "attributes",
        Key::Await => "await",
        Key::Bigint => "bigint",
        Key::Block => "block",
        Key::Body => "body",
        Key::Callee => "callee",
        Key::Cases => "cases",
        Key::Computed => "computed",
        Key::Consequent => "consequent",
        Key::Cooked => "cooked",
        Key::Declaration => "declaration",
        Key::Declarations => "declarations",
        Key::Delegate => "delegate",
        Key::Directive => "directive",
        Key::Discriminant => "discriminant",
        Key::Elements => "elements",
        Key::Exported => "exported",
        Key::Expression => "expression",
        Key::Expressions => "expressions",
        Key::Finalizer => "finalizer",
        Key::Flags => "flags",
        Key::Generator => "generator",
        Key::Handler => "handler",
        Key::Id => "id",
        Key::Imported => "imported",
        Key::Init => "init",
        Key::Key => "key",
        Key::Kind => "kind",
        Key::Label => "label",
        Key::Left => "left",
        Key::Local => "local",
        Key::Meta => "meta",
        Key::Method => "method",
        Key::Name => "name",
        Key::Object => "object",
        Key::Operator => "operator",
        Key::Optional => "optional",
        Key::Param => "param",
        Key::Params => "params",
        Key::Pattern => "pattern",
        Key::Prefix => "prefix",
        Key::Properties => "properties",
        Key::Property => "property",
        Key::Quasi => "quasi",
        Key::Quasis => "quasis",
        Key::Raw => "raw",
        Key::Regex => "regex",
        Key::Right => "right",
        Key::Shorthand => "shorthand",
        Key::Source => "source",
        Key::SourceType => "sourceType",
        Key::Specifiers => "specifiers",
        Key::Static => "static",
        Key::SuperClass => "superClass",
        Key::Tag => "tag",
        Key::Tail => "tail",
        Key::Test => "test",
        Key::Update => "update",
        Key::Value => "value",
    }
}

/// A field and what it holds.
#[derive(Drop)]
pub struct Member(pub Key, pub Value);

/// A text as a JSON value.
pub fn text_value(alloc: Global, text: &str) -> Result<Value, AllocError>
    ensures { IfOk result (λ v. view v ≡ string text.now) }
{
    Ok(Value::String(String::from_str(alloc, text)?))
}

/// The object of a node of this type, without other fields yet.
pub(crate) fn typed(alloc: Global, kind: &str) -> Result<Map<String, Value>, AllocError>
    ensures { IfOk result (λ object. members_view object.entries ≡ member (codes "type") (string kind.now) no_members) }
{
    let mut object = Map::new(alloc);
    let kind = text_value(alloc, kind)?;
    put(&mut object, alloc, "type", kind)?;
    Ok(object)
}

// The object with these fields besides.
fn filled(
    alloc: Global,
    started: Map<String, Value>,
    members: Vec<Member>,
) -> Result<Value, AllocError>
    ensures { IfOk result (λ v. view v ≡ object (with_members members.items (members_view started.entries))) }
{
    let mut object = started;
    for member in members {
        put(&mut object, alloc, key_text(member.0), member.1)?;
    }
    Ok(Value::Object(object))
}

/// The node of this type with these fields, of which none stands twice.
pub fn node(alloc: Global, kind: &str, members: Vec<Member>) -> Result<Value, AllocError>
    ensures { IfOk result (λ v. view v ≡ node_object kind.now members.items) }
{
    let object = typed(alloc, kind)?;
    filled(alloc, object, members)
}

/// The object with these fields, which is no node.
pub fn plain_object(alloc: Global, members: Vec<Member>) -> Result<Value, AllocError>
    ensures { IfOk result (λ v. view v ≡ plain_object members.items) }
{
    filled(alloc, Map::new(alloc), members)
}
