// Statements (ESTree; ECMA-262, "Statements and Declarations").

ghost use Rattle.std.specs.Prelude.{◌≡◌, option_map, codes};
ghost use Rattle.serde_json.specs.View.{view, items_view};
ghost use Rattle.mini_model.specs.Texts.{units_of};
ghost use Rattle.mini_accept.specs.WellShaped.{has_use_strict, is_text};
ghost use Rattle.mini_accept.specs.Statements as statement;
ghost use Rattle.mini_accept.specs.Statements.{directive_text, directives_of};
ghost use Rattle.mini_fields.specs.Views.{place_of};
ghost use Rattle.mini_plan.specs.Bodies.{leading};
ghost use Rattle.mini_plan.specs.Views.{plan_of};

use crate::plan::{Below, Head, Items, Plan};
use mini_fields::{
    Class, Depth, Place, has_flag, has_no_item, has_type, is_given, list_at, source_type_at,
    text_at, variable_kind_at,
};
use mini_model::Shape;
use serde_json::Value;

const EXPRESSION: Class = Class::Expression;

const STATEMENT: Class = Class::Statement(Depth::Nested);

// ---- bodies

/// The text of a directive (ECMA-262, "Directive Prologues and the Use Strict Directive"); None of
/// any other statement.
#[tactic(auto, using(mini_accept::proofs::Texts::text_read))]
pub fn directive_text(value: &Value) -> Option<&str>
    ensures { option_map (λ s. units_of s.now) result ≡ directive_text (view value.now) }
{
    if has_type("ExpressionStatement", value) {
        text_at("directive", value)
    } else {
        None
    }
}

// Whether the directive makes the code strict.
#[tactic(auto, using(crate::proofs::Strict::is_use_strict))]
fn is_use_strict(text: &str) -> bool
    ensures { result ≡ is_text (units_of text.now) (codes "use strict") }
{
    text == "use strict"
}

/// Whether one of the directives before all other statements makes the code strict (ECMA-262,
/// "Directive Prologues and the Use Strict Directive").
pub fn has_use_strict(statements: &[Value]) -> bool
    ensures { result ≡ has_use_strict (directives_of (items_view statements.now)) }
{
    for statement in statements {
        match directive_text(statement) {
            None => return false,
            Some(text) if is_use_strict(text) => return true,
            Some(_) => (),
        }
    }
    false
}

/// How many directives stand before all other statements.
pub fn directive_count(statements: &[Value]) -> usize
    ensures { result ≡ leading (items_view statements.now) }
{
    for (index, statement) in statements.iter().enumerate() {
        if directive_text(statement).is_none() {
            return index;
        }
    }
    statements.len()
}

const MODULE: [Below; 1] = [Below::Body(Depth::InModule)];

const SCRIPT: [Below; 1] = [Below::Body(Depth::InBody)];

/// `Program`
pub fn program(value: &Value) -> Option<Plan<'_>>
    ensures { option_map (plan_of (view value.now)) result ≡ statement.program (view value.now) }
{
    let is_module = source_type_at("sourceType", value)?;
    let statements = list_at("body", value)?;
    if is_module {
        Some(Plan {
            head: Head::Program(true, statements),
            children: &MODULE,
        })
    } else {
        Some(Plan {
            head: Head::Program(false, statements),
            children: &SCRIPT,
        })
    }
}

// ---- statements

const DIRECTIVE: [Below; 1] = [Below::Placed("expression", Place::DirectiveText)];

const EXPRESSION_STATEMENT: [Below; 1] = [Below::Node("expression", EXPRESSION)];

/// `ExpressionStatement`: only a directive has the field `directive`.
pub fn expression_statement(place: Place, value: &Value) -> Option<Plan<'_>>
    ensures { option_map (plan_of (view value.now)) result ≡ statement.expression_statement (place_of place) (view value.now) }
{
    match place {
        Place::Directive => Plan::of(Shape::ExpressionStatement, &DIRECTIVE),
        _ if is_given("directive", value) => None,
        _ => Plan::of(Shape::ExpressionStatement, &EXPRESSION_STATEMENT),
    }
}

const FUNCTION_BODY: [Below; 1] = [Below::Body(Depth::InBody)];

const BLOCK_STATEMENT: [Below; 1] = [Below::Many("body", Items::Each(STATEMENT))];

/// `BlockStatement`
pub fn block_in(place: Place, value: &Value) -> Option<Plan<'_>>
    ensures { option_map (plan_of (view value.now)) result ≡ statement.block_in (place_of place) (view value.now) }
{
    list_at("body", value)?;
    match place {
        Place::At(Class::FunctionBody) | Place::At(Class::ArrowBody) => {
            Plan::of(Shape::FunctionBody, &FUNCTION_BODY)
        }
        _ => Plan::of(Shape::BlockStatement, &BLOCK_STATEMENT),
    }
}

const TRY_STATEMENT: [Below; 3] = [
    Below::Node("block", Class::Block),
    Below::Optional("handler", Class::Catch),
    Below::Optional("finalizer", Class::Block),
];

/// `TryStatement`: one of a handler and a finalizer is given.
pub fn try_statement(value: &Value) -> Option<Plan<'_>>
    ensures { option_map (plan_of (view value.now)) result ≡ statement.try (view value.now) }
{
    if !is_given("handler", value) && !is_given("finalizer", value) {
        return None;
    }
    Plan::of(Shape::TryStatement, &TRY_STATEMENT)
}

const FOR_OF_STATEMENT: [Below; 3] = [
    Below::Node("left", Class::LoopLeft(false)),
    Below::Node("right", EXPRESSION),
    Below::Node("body", STATEMENT),
];

/// `ForOfStatement`: a loop that awaits isn't read.
pub fn for_of(value: &Value) -> Option<Plan<'_>>
    ensures { option_map (plan_of (view value.now)) result ≡ statement.for_of (view value.now) }
{
    if !has_flag("await", value) {
        return None;
    }
    Plan::of(Shape::ForOfStatement, &FOR_OF_STATEMENT)
}

const VARIABLE_DECLARATION: [Below; 1] = [Below::Many(
    "declarations",
    Items::Each(Class::Declarator),
)];

/// `VariableDeclaration`: one declarator or more.
pub fn variable(value: &Value) -> Option<Plan<'_>>
    ensures { option_map (plan_of (view value.now)) result ≡ statement.variable (view value.now) }
{
    let kind = variable_kind_at("kind", value)?;
    if has_no_item(list_at("declarations", value)?) {
        return None;
    }
    Plan::of(Shape::VariableDeclaration(kind), &VARIABLE_DECLARATION)
}
