// The words of operators and kinds, as ESTree writes them.

ghost use Rattle.std.specs.Prelude.{◌≡◌};
ghost use Rattle.mini_writer.specs.Words as words;

use mini_model::{
    AssignmentOperator, BinaryOperator, LogicalOperator, MethodDefinitionKind, PropertyKind,
    UnaryOperator, UpdateOperator, VariableDeclarationKind,
};

/// The text of an operator of one operand, as `!`.
pub fn unary_word(operator: UnaryOperator) -> &'static str
    ensures { result.now ≡ words.unary_word operator }
{
    match operator {
        UnaryOperator::UnaryPlus => "+",
        UnaryOperator::UnaryNegation => "-",
        UnaryOperator::LogicalNot => "!",
        UnaryOperator::BitwiseNot => "~",
        UnaryOperator::Typeof => "typeof",
        UnaryOperator::Void => "void",
        UnaryOperator::Delete => "delete",
    }
}

/// The text of `++` or `--`.
pub fn update_word(operator: UpdateOperator) -> &'static str
    ensures { result.now ≡ words.update_word operator }
{
    match operator {
        UpdateOperator::Increment => "++",
        UpdateOperator::Decrement => "--",
    }
}

/// The text of an operator of two operands, as `<=`.
pub fn binary_word(operator: BinaryOperator) -> &'static str
    ensures { result.now ≡ words.binary_word operator }
{
    match operator {
        BinaryOperator::Equality => "==",
        BinaryOperator::Inequality => "!=",
        BinaryOperator::StrictEquality => "===",
        BinaryOperator::StrictInequality => "!==",
        BinaryOperator::LessThan => "<",
        BinaryOperator::LessEqualThan => "<=",
        BinaryOperator::GreaterThan => ">",
        BinaryOperator::GreaterEqualThan => ">=",
        BinaryOperator::ShiftLeft => "<<",
        BinaryOperator::ShiftRight => ">>",
        BinaryOperator::ShiftRightZeroFill => ">>>",
        BinaryOperator::Addition => "+",
        BinaryOperator::Subtraction => "-",
        BinaryOperator::Multiplication => "*",
        BinaryOperator::Division => "/",
        BinaryOperator::Remainder => "%",
        BinaryOperator::Exponential => "**",
        BinaryOperator::BitwiseAnd => "&",
        BinaryOperator::BitwiseXor => "^",
        BinaryOperator::BitwiseOr => "|",
        BinaryOperator::In => "in",
        BinaryOperator::Instanceof => "instanceof",
    }
}

/// The text of an operator that may leave its right operand alone: `||`, `&&` or `??`.
pub fn logical_word(operator: LogicalOperator) -> &'static str
    ensures { result.now ≡ words.logical_word operator }
{
    match operator {
        LogicalOperator::Or => "||",
        LogicalOperator::And => "&&",
        LogicalOperator::Coalesce => "??",
    }
}

/// The text of the operator of an assignment, as `+=`.
pub fn assignment_word(operator: AssignmentOperator) -> &'static str
    ensures { result.now ≡ words.assignment_word operator }
{
    match operator {
        AssignmentOperator::Assign => "=",
        AssignmentOperator::Addition => "+=",
        AssignmentOperator::Subtraction => "-=",
        AssignmentOperator::Multiplication => "*=",
        AssignmentOperator::Division => "/=",
        AssignmentOperator::Remainder => "%=",
        AssignmentOperator::Exponential => "**=",
        AssignmentOperator::ShiftLeft => "<<=",
        AssignmentOperator::ShiftRight => ">>=",
        AssignmentOperator::ShiftRightZeroFill => ">>>=",
        AssignmentOperator::BitwiseAnd => "&=",
        AssignmentOperator::BitwiseXor => "^=",
        AssignmentOperator::BitwiseOr => "|=",
        AssignmentOperator::LogicalOr => "||=",
        AssignmentOperator::LogicalAnd => "&&=",
        AssignmentOperator::LogicalNullish => "??=",
    }
}

/// The `kind` of a declaration of variables: `var`, `let` or `const`.
pub fn variable_word(kind: VariableDeclarationKind) -> &'static str
    ensures { result.now ≡ words.variable_word kind }
{
    match kind {
        VariableDeclarationKind::Var => "var",
        VariableDeclarationKind::Let => "let",
        VariableDeclarationKind::Const => "const",
    }
}

/// The `kind` of a property: `init`, `get` or `set`.
pub fn property_word(kind: PropertyKind) -> &'static str
    ensures { result.now ≡ words.property_word kind }
{
    match kind {
        PropertyKind::Init => "init",
        PropertyKind::Get => "get",
        PropertyKind::Set => "set",
    }
}

/// The `kind` of a method: `constructor`, `method`, `get` or `set`.
pub fn method_word(kind: MethodDefinitionKind) -> &'static str
    ensures { result.now ≡ words.method_word kind }
{
    match kind {
        MethodDefinitionKind::Constructor => "constructor",
        MethodDefinitionKind::Method => "method",
        MethodDefinitionKind::Get => "get",
        MethodDefinitionKind::Set => "set",
    }
}

/// The `sourceType` of a program: `module` or `script`.
pub fn source_type(is_module: bool) -> &'static str
    ensures { result.now ≡ words.source_type is_module }
{
    if is_module { "module" } else { "script" }
}

/// The `type` of a function: `FunctionDeclaration` or `FunctionExpression`.
pub fn function_type(declaration: bool) -> &'static str
    ensures { result.now ≡ words.function_type declaration }
{
    if declaration {
        "FunctionDeclaration"
    } else {
        "FunctionExpression"
    }
}

/// The `type` of a class: `ClassDeclaration` or `ClassExpression`.
pub fn class_type(declaration: bool) -> &'static str
    ensures { result.now ≡ words.class_type declaration }
{
    if declaration {
        "ClassDeclaration"
    } else {
        "ClassExpression"
    }
}
