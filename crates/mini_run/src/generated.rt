// The script that is minified where none is read.

ghost use Rattle.std.specs.Prelude.{◌≡◌, ◌+◌, ◌≤◌, ◌<◌, ◌^◌, ℕ, IfOk, OnOk};
ghost use Rattle.serde_json.specs.View.{view};
ghost use Rattle.mini_model.specs.Paths.{append};
ghost use Rattle.mini_model.specs.Texts.{units_of};
ghost use Rattle.mini_model.specs.Tree.{none, unresolved, call};
ghost use Rattle.mini_node.specs.Kinds as kind;
ghost use Rattle.mini_writer.specs.Fits.{Fits};
ghost use Rattle.mini_run.specs.Generated as script;
ghost use Rattle.mini_run.specs.Generated.{generated_data};

use mini_model::{
    BinaryOperator, LogicalOperator, Name, OutOfMemory, Shape, Text, TextList, UnaryOperator,
};
use mini_node::{
    Node, Nodes, absent, binary, call_expression, computed_member, expression_statement,
    identifier, if_statement, listed, logical, negation, numeric_literal, of_one, of_three, of_two,
    return_statement, string_literal, unary,
};
use mini_writer::write_program;
use serde_json::Value;
use std::alloc::Global;

fn name(alloc: Global, text: &str) -> Result<Name, OutOfMemory>
    ensures { IfOk result (λ name. name ≡ unresolved (units_of text.now)) }
{
    let spelling = Text::from_str(alloc, text)?;
    Ok(Name {
        spelling,
        symbol: None,
    })
}

fn named(alloc: Global, text: &str) -> Result<Node, OutOfMemory>
    ensures { IfOk result (λ made. made ≡ script.named text.now) }
{
    let name = name(alloc, text)?;
    Ok(identifier(alloc, name))
}

fn declared(alloc: Global, text: &str) -> Result<Node, OutOfMemory>
    ensures { IfOk result (λ made. made ≡ script.declared text.now) }
{
    let name = name(alloc, text)?;
    Ok(Node::with(Shape::BindingIdentifier, Some(name), 0, Nodes::new(alloc)))
}

fn quoted(alloc: Global, text: &str) -> Result<Node, OutOfMemory>
    ensures { IfOk result (λ made. made ≡ kind.string_literal (units_of text.now)) }
{
    let text = Text::from_str(alloc, text)?;
    Ok(string_literal(alloc, text))
}

// `f();`, or `f(i);`
fn called(alloc: Global, text: &str, arguments: Nodes) -> Result<Node, OutOfMemory>
    ensures { IfOk result (λ made. made ≡ script.called text.now arguments) }
{
    let callee = named(alloc, text)?;
    let made = call_expression(alloc, callee, arguments)?;
    expression_statement(alloc, made)
}

fn argument(alloc: Global, i: u32) -> Result<Nodes, OutOfMemory>
    ensures { IfOk result (λ made. made ≡ script.argument i) }
{
    of_one(alloc, numeric_literal(alloc, i64::from(i)))
}

// `if (!a) b(i); else c();`
fn choice(alloc: Global, i: u32) -> Result<Node, OutOfMemory>
    ensures { IfOk result (λ made. made ≡ script.choice i) }
{
    let name = named(alloc, "a")?;
    let test = negation(alloc, name)?;
    let arguments = argument(alloc, i)?;
    let consequent = called(alloc, "b", arguments)?;
    let alternate = called(alloc, "c", Nodes::new(alloc))?;
    if_statement(alloc, test, consequent, alternate)
}

// `typeof u == "undefined"`
fn test(alloc: Global) -> Result<Node, OutOfMemory>
    ensures { IfOk result (λ made. made ≡ script.test) }
{
    let name = named(alloc, "u")?;
    let left = unary(alloc, UnaryOperator::Typeof, name)?;
    let right = quoted(alloc, "undefined")?;
    binary(alloc, BinaryOperator::Equality, left, right)
}

// `d["k"]`
fn member(alloc: Global) -> Result<Node, OutOfMemory>
    ensures { IfOk result (λ made. made ≡ script.member) }
{
    let object = named(alloc, "d")?;
    let key = quoted(alloc, "k")?;
    computed_member(alloc, object, key)
}

// `typeof u == "undefined" && d["k"](i);`
fn comparison(alloc: Global, i: u32) -> Result<Node, OutOfMemory>
    ensures { IfOk result (λ made. made ≡ script.comparison i) }
{
    let left = test(alloc)?;
    let callee = member(alloc)?;
    let arguments = argument(alloc, i)?;
    let right = call_expression(alloc, callee, arguments)?;
    let both = logical(alloc, LogicalOperator::And, left, right)?;
    expression_statement(alloc, both)
}

// `if (p) return 1 + i;`
fn guard(alloc: Global, i: u32) -> Result<Node, OutOfMemory>
    ensures { IfOk result (λ made. made ≡ script.guard i) }
{
    let left = numeric_literal(alloc, 1);
    let right = numeric_literal(alloc, i64::from(i));
    let sum = binary(alloc, BinaryOperator::Addition, left, right)?;
    let returned = return_statement(alloc, sum)?;
    let test = named(alloc, "p")?;
    if_statement(alloc, test, returned, absent(alloc))
}

// `{ if (p) return 1 + i; return "s"; }`
fn body(alloc: Global, i: u32) -> Result<Node, OutOfMemory>
    ensures { IfOk result (λ made. made ≡ script.body i) }
{
    let first = guard(alloc, i)?;
    let text = quoted(alloc, "s")?;
    let second = return_statement(alloc, text)?;
    let statements = of_two(alloc, first, second)?;
    let children = of_one(alloc, listed(statements))?;
    Ok(Node::new(Shape::FunctionBody, children))
}

// `fi`
fn function_name(alloc: Global, i: u32) -> Result<Node, OutOfMemory>
    ensures { IfOk result (λ made. made ≡ script.function_name i) }
{
    match format!(in alloc; "f{i}") {
        Ok(text) => declared(alloc, text.as_str()),
        Err(_) => Err(OutOfMemory),
    }
}

// `function fi(p) { if (p) return 1 + i; return "s"; }`
fn guarded(alloc: Global, i: u32) -> Result<Node, OutOfMemory>
    ensures { IfOk result (λ made. made ≡ script.guarded i) }
{
    let name = function_name(alloc, i)?;
    let parameter = declared(alloc, "p")?;
    let parameters = of_one(alloc, parameter)?;
    let body = body(alloc, i)?;
    let children = of_three(alloc, name, listed(parameters), body)?;
    let shape = Shape::Function(true, false, TextList::new(alloc));
    Ok(Node::new(shape, children))
}

// The statement with this number.
fn statement(alloc: Global, i: u32) -> Result<Node, OutOfMemory>
    ensures { IfOk result (λ made. made ≡ script.statement i) }
{
    match i % 3 {
        0 => choice(alloc, i),
        1 => comparison(alloc, i),
        _ => guarded(alloc, i),
    }
}

// So many more of them, from this number on.
fn fill(alloc: Global, list: &mut Nodes, from: u32, more: u32) -> Result<(), OutOfMemory>
    requires { from + more < 2 ^ 32 }
    ensures { OnOk result (list.new ≡ append list.old (script.statements from more)) }
{
    if more == 0 {
        return Ok(());
    }
    let made = statement(alloc, from)?;
    list.push(made)?;
    fill(alloc, list, from + 1, more - 1)
}

/// The script of that many statements, as its ESTree value: in turn `if (!a) b(i); else c();`,
/// `typeof u == "undefined" && d["k"](i);` and
/// `function fi(p) { if (p) return 1 + i; return "s"; }`, where i is the statement's number, from
/// 0.
///
/// The only error is that memory runs out.
#[tactic(auto, unfolding(crate::specs::Generated::generated_data))]
pub fn generate(alloc: Global, n: u32) -> Result<Value, OutOfMemory>
    ensures value { IfOk result (λ made. view made ≡ generated_data n) }
{
    let mut list = Nodes::new(alloc);
    fill(alloc, &mut list, 0, n)?;
    let children = of_one(alloc, listed(list))?;
    let program = Node::new(Shape::Program(false, TextList::new(alloc)), children);
    write_program(alloc, &program)
}

/// The script of as many statements as `--generate` may ask for is small enough to be minified.
pub fn generated_fit()
    ensures { (n : ℕ) → n ≤ 2000 → Fits (generated_data n) }
{}
