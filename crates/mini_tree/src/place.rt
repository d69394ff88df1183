//! Where the children of a node stand, by its shape.

ghost use Rattle.std.specs.Prelude.{◌≡◌, ◌<◌};
ghost use Rattle.mini_model.specs.Position.{argument_seat, whole_seat, seat_at, key_position, written_key_position, value_position, item_position, part_seat, is_accessor as is_accessor_kind, binary_operand_seat, operand_seat, first_rest, first_second_rest, conditional_position, if_position, for_position, call_position, class_position, child_position};

use crate::seats;
use mini_model::{BinaryOperator, LogicalOperator, Position, PropertyKind, Seat, Shape, StmtSeat};

/// The seat at a place. For a place that holds no expression it is one without any mark.
pub fn seat_at_place(place: Position) -> Seat
    ensures { result ≡ seat_at place }
{
    match place {
        Position::Expr(seat) => seat,
        _ => seats::whole(),
    }
}

fn first_or(at: usize, first: Position, other: Position) -> Position
    ensures { result ≡ first_rest first other at }
{
    if at == 0 { first } else { other }
}

fn first_second_or(at: usize, first: Position, second: Position, other: Position) -> Position
    ensures { result ≡ first_second_rest first second other at }
{
    match at {
        0 => first,
        1 => second,
        _ => other,
    }
}

const BODY: Position = Position::Stmt(StmtSeat::Body);

fn argument() -> Position
    ensures { result ≡ Position.Expr argument_seat }
{
    Position::Expr(seats::argument())
}

fn whole() -> Position
    ensures { result ≡ Position.Expr whole_seat }
{
    Position::Expr(seats::whole())
}

// The key of a property.
fn key(computed: bool) -> Position
    ensures { result ≡ key_position computed }
{
    if computed {
        argument()
    } else {
        Position::Elsewhere
    }
}

// A key that a shorthand property doesn't write.
fn written_key(shorthand: bool, computed: bool) -> Position
    ensures { result ≡ written_key_position shorthand computed }
{
    if shorthand {
        Position::Unwritten
    } else {
        key(computed)
    }
}

/// Whether a property is an accessor.
pub fn is_accessor(kind: PropertyKind) -> bool
    ensures { result ≡ is_accessor_kind kind }
{
    !matches!(kind, PropertyKind::Init)
}

// The value of a property: of a method or an accessor it's the function.
fn value(kind: PropertyKind, method: bool) -> Position
    ensures { result ≡ value_position kind method }
{
    if method || is_accessor(kind) {
        Position::Method
    } else {
        argument()
    }
}

fn if_place(at: usize) -> Position
    ensures { result ≡ if_position at }
{
    match at {
        0 => Position::Expr(seats::if_test()),
        1 => Position::Stmt(StmtSeat::Consequent),
        _ => BODY,
    }
}

fn for_place(at: usize) -> Position
    ensures { result ≡ for_position at }
{
    match at {
        0 => Position::Expr(seats::statement_expression()),
        1 => Position::Expr(seats::if_test()),
        2 => Position::Expr(seats::statement_expression()),
        _ => BODY,
    }
}

// The name of a class declaration is written once, and held twice.
fn class_place(at: usize) -> Position
    ensures { result ≡ class_position at }
{
    match at {
        1 => Position::Expr(seats::super_class()),
        0 | 2 => Position::Elsewhere,
        _ => Position::Unwritten,
    }
}

fn call_place(at: usize) -> Position
    ensures { result ≡ call_position at }
{
    first_or(at, Position::Expr(seats::callee()), Position::ArgumentList)
}

fn conditional_place(seat: Seat, at: usize) -> Position
    ensures { result ≡ conditional_position seat at }
{
    match at {
        0 => Position::Expr(seats::conditional_test()),
        _ => Position::Expr(seats::branch(seat)),
    }
}

fn binary_operand(operator: BinaryOperator, at: usize) -> Seat
    ensures { result ≡ binary_operand_seat operator at }
{
    match at {
        0 => seats::binary_left_operand(operator),
        _ => seats::binary_right_operand(operator),
    }
}

fn logical_operand(operator: LogicalOperator, seat: Seat, at: usize) -> Seat
    ensures { result ≡ operand_seat operator seat at }
{
    match at {
        0 => seats::left_operand(operator, seat),
        _ => seats::right_operand(operator, seat),
    }
}

// A part of a sequence of so many.
fn part(seat: Seat, count: usize, at: usize) -> Seat
    requires { at < count }
    ensures { result ≡ part_seat seat count at }
{
    if at + 1 == count {
        seats::branch(seat)
    } else {
        seats::passed_part()
    }
}

// An item of a list of so many.
fn item_place(place: Position, count: usize, at: usize) -> Position
    requires { at < count }
    ensures { result ≡ item_position place count at }
{
    match place {
        Position::StatementList | Position::BodyList => Position::Stmt(StmtSeat::List),
        Position::ArgumentList => argument(),
        Position::SequenceList(seat) => Position::Expr(part(seat, count, at)),
        Position::TemplateList => whole(),
        _ => Position::Elsewhere,
    }
}

/// Where a child stands: the one at an index among so many, of a node of this shape at this place.
pub fn child_place(shape: &Shape, place: Position, count: usize, at: usize) -> Position
    requires { at < count }
    ensures { result ≡ child_position shape.now place count at }
{
    match shape {
        Shape::Listed => item_place(place, count, at),
        Shape::InnerExpression => first_or(at, place, Position::Elsewhere),
        Shape::Program(_, _) | Shape::BlockStatement | Shape::StaticBlock =>
            Position::StatementList,
        Shape::FunctionBody => Position::BodyList,
        Shape::ExpressionStatement => Position::Expr(seats::statement_expression()),
        Shape::LabeledStatement => first_or(at, Position::Elsewhere, BODY),
        Shape::ReturnStatement | Shape::ThrowStatement => whole(),
        Shape::IfStatement => if_place(at),
        Shape::SwitchStatement => first_or(at, whole(), Position::Elsewhere),
        Shape::SwitchCase => first_or(at, whole(), Position::StatementList),
        Shape::WhileStatement => first_or(at, Position::Expr(seats::if_test()), BODY),
        Shape::DoWhileStatement => first_or(at, BODY, Position::Expr(seats::if_test())),
        Shape::ForStatement => for_place(at),
        Shape::ForInStatement => first_second_or(at, Position::Target, whole(), BODY),
        Shape::ForOfStatement => first_second_or(at, Position::Target, argument(), BODY),
        Shape::VariableDeclaration(_)
        | Shape::ObjectExpression
        | Shape::ObjectPattern
        | Shape::ArrayPattern
        | Shape::ObjectAssignmentTarget
        | Shape::ArrayAssignmentTarget => Position::CommaList,
        Shape::VariableDeclarator => first_or(at, Position::Elsewhere, argument()),
        Shape::Function(_, _, _) | Shape::ExportNamedDeclaration => first_second_or(
            at,
            Position::Elsewhere,
            Position::CommaList,
            Position::Elsewhere,
        ),
        Shape::ArrowFunctionExpression(_) => first_or(at, Position::CommaList, argument()),
        Shape::Class(_) => class_place(at),
        Shape::MethodDefinition(_, computed, _) => first_or(at, key(*computed), Position::Method),
        Shape::PropertyDefinition(computed, _) => first_or(at, key(*computed), argument()),
        Shape::ImportDeclaration => first_or(at, Position::CommaList, Position::Elsewhere),
        Shape::ExportDefaultDeclaration | Shape::SpreadElement | Shape::ImportExpression =>
            argument(),
        Shape::ArrayExpression => Position::ArgumentList,
        Shape::ObjectProperty(kind, method, shorthand, computed) => first_or(
            at,
            written_key(*shorthand, *computed),
            value(*kind, *method),
        ),
        Shape::UnaryExpression(operator) => Position::Expr(seats::unary_operand(*operator)),
        Shape::UpdateExpression(_, _) | Shape::RestElement => Position::Target,
        Shape::BinaryExpression(operator) => Position::Expr(binary_operand(*operator, at)),
        Shape::PrivateInExpression => first_or(
            at,
            Position::Elsewhere,
            Position::Expr(binary_operand(BinaryOperator::In, at)),
        ),
        Shape::LogicalExpression(operator) => Position::Expr(logical_operand(
            *operator,
            seat_at_place(place),
            at,
        )),
        Shape::AssignmentExpression(_) | Shape::AssignmentPattern => first_or(
            at,
            Position::Target,
            argument(),
        ),
        Shape::ConditionalExpression => conditional_place(seat_at_place(place), at),
        Shape::SequenceExpression => Position::SequenceList(seat_at_place(place)),
        Shape::CallExpression(_) => call_place(at),
        Shape::SuperCallExpression => first_or(at, Position::Elsewhere, Position::ArgumentList),
        Shape::NewExpression => first_or(
            at,
            Position::Expr(seats::new_callee()),
            Position::ArgumentList,
        ),
        Shape::StaticMemberExpression(_) | Shape::PrivateFieldExpression(_) => first_or(
            at,
            Position::Expr(seats::object()),
            Position::Elsewhere,
        ),
        Shape::ComputedMemberExpression(_) => first_or(
            at,
            Position::Expr(seats::object()),
            whole(),
        ),
        Shape::SuperComputedMemberExpression => first_or(at, Position::Elsewhere, whole()),
        Shape::ChainExpression => Position::Expr(seats::chained(seat_at_place(place))),
        Shape::YieldExpression(_) => Position::Expr(seats::yield_argument()),
        Shape::TemplateLiteral => first_or(at, Position::Elsewhere, Position::TemplateList),
        Shape::TaggedTemplateExpression => first_or(
            at,
            Position::Expr(seats::callee()),
            Position::Elsewhere,
        ),
        Shape::BindingProperty(shorthand, computed) => first_or(
            at,
            written_key(*shorthand, *computed),
            Position::Target,
        ),
        Shape::AssignmentTargetPropertyIdentifier => first_or(
            at,
            Position::Unwritten,
            Position::Target,
        ),
        Shape::AssignmentTargetPropertyProperty(computed) => first_or(
            at,
            key(*computed),
            Position::Target,
        ),
        Shape::Absent
        | Shape::EmptyStatement
        | Shape::DebuggerStatement
        | Shape::BreakStatement
        | Shape::ContinueStatement
        | Shape::TryStatement
        | Shape::CatchClause
        | Shape::ClassBody
        | Shape::ImportSpecifier
        | Shape::ImportDefaultSpecifier
        | Shape::ImportNamespaceSpecifier
        | Shape::ExportSpecifier
        | Shape::ExportAllDeclaration
        | Shape::Identifier
        | Shape::BindingIdentifier
        | Shape::IdentifierName(_)
        | Shape::PrivateIdentifier(_)
        | Shape::NumericLiteral(_)
        | Shape::StringLiteral(_)
        | Shape::BooleanLiteral(_)
        | Shape::NullLiteral
        | Shape::RegExpLiteral(_, _)
        | Shape::BigIntLiteral(_)
        | Shape::ThisExpression
        | Shape::Super
        | Shape::SuperStaticMemberExpression
        | Shape::TemplateElement(_, _, _)
        | Shape::MetaProperty(_) => Position::Elsewhere,
    }
}
