//! What the tables of early errors say of a shape.

ghost use Rattle.std.specs.Prelude.{◌≡◌};
ghost use Rattle.mini_laws.specs.Early.{clash_of as clash_in, holds_statements as holds_them, is_function_shape, is_labeled as is_labeled_shape, is_loop_shape, is_pattern_shape, jump_of as jump_in, turn_of as turn_in};

use mini_laws::{Clash, Jump, Turn};
use mini_model::Shape;

/// Whether a node of this shape holds the statements of a body, in order.
pub fn holds_statements(shape: &Shape) -> bool
    ensures { result ≡ holds_them shape.now }
{
    matches!(
        shape,
        Shape::Listed | Shape::FunctionBody | Shape::SwitchCase
    )
}

/// What must not clash in the scopes that a node of this shape opens.
pub fn clash_of(shape: &Shape) -> Clash
    ensures { result ≡ clash_in shape.now }
{
    match shape {
        Shape::Program(is_module, ..) => Clash::Body(!*is_module),
        Shape::StaticBlock => Clash::Body(true),
        Shape::BlockStatement => Clash::Body(false),
        Shape::Function(..) => Clash::Function(1, 2),
        Shape::ArrowFunctionExpression(_) => Clash::Function(0, 1),
        Shape::SwitchStatement => Clash::Switch,
        Shape::CatchClause => Clash::Catch,
        Shape::ForStatement => Clash::Loop(3),
        Shape::ForInStatement | Shape::ForOfStatement => Clash::Loop(2),
        _ => Clash::Nothing,
    }
}

/// Whether a node of this shape is a function.
pub fn is_function(shape: &Shape) -> bool
    ensures { result ≡ is_function_shape shape.now }
{
    matches!(shape, Shape::Function(..))
}

/// Whether the parameter of a `catch` that has this shape is a pattern, and not a name alone.
pub fn is_pattern(shape: &Shape) -> bool
    ensures { result ≡ is_pattern_shape shape.now }
{
    !matches!(shape, Shape::BindingIdentifier)
}

/// Whether a node of this shape is a labeled statement.
pub fn is_labeled(shape: &Shape) -> bool
    ensures { result ≡ is_labeled_shape shape.now }
{
    matches!(shape, Shape::LabeledStatement)
}

/// Whether a node of this shape is a loop.
pub fn is_loop(shape: &Shape) -> bool
    ensures { result ≡ is_loop_shape shape.now }
{
    matches!(
        shape,
        Shape::WhileStatement
            | Shape::DoWhileStatement
            | Shape::ForStatement
            | Shape::ForInStatement
            | Shape::ForOfStatement
    )
}

/// What the child at an index of a node of this shape can jump to, beside what the node can.
pub fn turn_of(shape: &Shape, at: usize) -> Turn
    ensures { result ≡ turn_in shape.now at }
{
    match shape {
        Shape::WhileStatement if at > 0 => Turn::InLoop,
        Shape::DoWhileStatement if at == 0 => Turn::InLoop,
        Shape::ForStatement if at > 2 => Turn::InLoop,
        Shape::ForInStatement | Shape::ForOfStatement if at > 1 => Turn::InLoop,
        Shape::SwitchStatement if at > 0 => Turn::InSwitch,
        Shape::LabeledStatement => Turn::Labeled,
        Shape::Function(_, is_generator, _) => Turn::InFunction(*is_generator),
        Shape::ArrowFunctionExpression(_) => Turn::InFunction(false),
        Shape::StaticBlock => Turn::Outside,
        Shape::PropertyDefinition(..) if at > 0 => Turn::Outside,
        _ => Turn::Same,
    }
}

/// What kind of jump a node of this shape is.
pub fn jump_of(shape: &Shape) -> Jump
    ensures { result ≡ jump_in shape.now }
{
    match shape {
        Shape::BreakStatement => Jump::Break,
        Shape::ContinueStatement => Jump::Continue,
        Shape::LabeledStatement => Jump::Label,
        Shape::ReturnStatement => Jump::Return,
        Shape::YieldExpression(_) => Jump::Yield,
        _ => Jump::Nothing,
    }
}
