use crate::kind::{MetaPropertyKind, MethodDefinitionKind, PropertyKind, VariableDeclarationKind};
use crate::operator::{
    AssignmentOperator, BinaryOperator, LogicalOperator, UnaryOperator, UpdateOperator,
};
use crate::{BoxedText, Text, TextList};

/// What a node of the plain form is: its kind with its plain fields. Its names, its number and its
/// children stand beside it. A shape has one child for each field of its type in ESTree (ES5 to
/// ES2022) that holds a node or a list of nodes, in the order in which each variant names them; a
/// list field is one child, `Listed` over its items, and a part that is absent is `Absent`.
pub enum Shape {
    /// A part that is absent, and a hole among the elements of an array.
    Absent,
    /// The items of a list field.
    Listed,
    /// An inner expression of a carried node, which has a number of its own: its one child is the
    /// expression, or, in a pattern, the member that is assigned to. No node of ESTree.
    InnerExpression,
    /// `body`. The fields: whether it is a module, and its directives.
    Program(bool, TextList),

    // Statements
    /// An expression statement: `expression`.
    ExpressionStatement,
    /// `;`: no child.
    EmptyStatement,
    /// `debugger;`: no child.
    DebuggerStatement,
    /// `body`.
    BlockStatement,
    /// `label`, an `IdentifierName`, and `body`.
    LabeledStatement,
    /// `label`, an `IdentifierName` or absent.
    BreakStatement,
    /// `label`, an `IdentifierName` or absent.
    ContinueStatement,
    /// `argument`, which may be absent.
    ReturnStatement,
    /// `argument`.
    ThrowStatement,
    /// `test`, `consequent`, `alternate`, which may be absent.
    IfStatement,
    /// `discriminant`, `cases`.
    SwitchStatement,
    /// `test`, absent in `default`, and `consequent`.
    SwitchCase,
    /// `block`, `handler`, `finalizer`; one of the two last may be absent.
    TryStatement,
    /// `param`, which may be absent, and `body`.
    CatchClause,
    /// `test`, `body`.
    WhileStatement,
    /// `body`, `test`.
    DoWhileStatement,
    /// `init`, `test`, `update`, which may be absent each, and `body`.
    ForStatement,
    /// `left`, `right`, `body`.
    ForInStatement,
    /// `left`, `right`, `body`.
    ForOfStatement,
    /// `declarations`. The field: `kind`.
    VariableDeclaration(VariableDeclarationKind),
    /// `id`, `init`, which may be absent.
    VariableDeclarator,

    // Functions and classes
    /// `id`, which may be absent, `params`, `body`. The fields: whether it is a declaration,
    /// whether it is a generator, and its directives.
    Function(bool, bool, TextList),
    /// `params`, `body`: a `FunctionBody` or an expression. The field: its directives.
    ArrowFunctionExpression(TextList),
    /// `body`: the statements of a function, which ESTree holds in a BlockStatement.
    FunctionBody,
    /// `id`, `superClass`, which may be absent each, `body`, and the name once more: a declaration
    /// has its name in the scope around it, and holds it as a constant in a scope of its own, so of
    /// a declaration with a name the last child is a `BindingIdentifier` of the same spelling, and
    /// of any other class it is absent. It is no node of ESTree and isn't written (ECMA-262,
    /// ClassDefinitionEvaluation). The field: whether it is a declaration.
    Class(bool),
    /// `body`.
    ClassBody,
    /// `key`, `value`. The fields: `kind`, `computed`, `static`.
    MethodDefinition(MethodDefinitionKind, bool, bool),
    /// `key`, `value`, which may be absent. The fields: `computed`, `static`.
    PropertyDefinition(bool, bool),
    /// `body`.
    StaticBlock,

    // Modules
    /// `specifiers`, `source`.
    ImportDeclaration,
    /// `imported`, `local`.
    ImportSpecifier,
    /// `local`.
    ImportDefaultSpecifier,
    /// `local`.
    ImportNamespaceSpecifier,
    /// `declaration`, which may be absent, `specifiers`, `source`, which may be absent.
    ExportNamedDeclaration,
    /// `exported`, `local`.
    ExportSpecifier,
    /// `declaration`.
    ExportDefaultDeclaration,
    /// `exported`, which may be absent, and `source`.
    ExportAllDeclaration,

    // Names and literals
    /// A name that is read or written: no child, one name.
    Identifier,
    /// A name that is declared: no child, one name.
    BindingIdentifier,
    /// A name that names no variable, as a key's, a property's or a label's: no child. The field:
    /// its text.
    IdentifierName(Text),
    /// `#x`: no child. The field: the text after the `#`.
    PrivateIdentifier(Text),
    /// A number: no child. The field: its value.
    NumericLiteral(i64),
    /// A text in quotes: no child. The field: its value.
    StringLiteral(Text),
    /// `true` or `false`: no child. The field: its value.
    BooleanLiteral(bool),
    /// `null`: no child.
    NullLiteral,
    /// A regular expression: no child. The fields: `pattern`, `flags`.
    RegExpLiteral(BoxedText, BoxedText),
    /// A BigInt: no child. The field: its value.
    BigIntLiteral(u128),

    // Expressions
    /// `this`: no child.
    ThisExpression,
    /// `super`, as the object or the callee of the three shapes named for it: no child.
    Super,
    /// `elements`.
    ArrayExpression,
    /// `properties`.
    ObjectExpression,
    /// `key`, `value`. The fields: `kind`, `method`, `shorthand`, `computed`.
    ObjectProperty(PropertyKind, bool, bool, bool),
    /// `argument`.
    SpreadElement,
    /// `argument`. The field: `operator`.
    UnaryExpression(UnaryOperator),
    /// `argument`. The fields: `operator`, `prefix`.
    UpdateExpression(UpdateOperator, bool),
    /// `left`, `right`. The field: `operator`.
    BinaryExpression(BinaryOperator),
    /// `left`, a `PrivateIdentifier`, and `right`.
    PrivateInExpression,
    /// `left`, `right`. The field: `operator`.
    LogicalExpression(LogicalOperator),
    /// `left`, `right`. The field: `operator`.
    AssignmentExpression(AssignmentOperator),
    /// `test`, `consequent`, `alternate`.
    ConditionalExpression,
    /// `expressions`.
    SequenceExpression,
    /// `callee`, `arguments`. The field: `optional`.
    CallExpression(bool),
    /// `callee`, which is `Super`, and `arguments`.
    SuperCallExpression,
    /// `callee`, `arguments`.
    NewExpression,
    /// `object`, `property`, an `IdentifierName`. The field: `optional`.
    StaticMemberExpression(bool),
    /// `object`, `property`. The field: `optional`.
    ComputedMemberExpression(bool),
    /// `object`, `property`, a `PrivateIdentifier`. The field: `optional`.
    PrivateFieldExpression(bool),
    /// `object`, which is `Super`, and `property`, an `IdentifierName`.
    SuperStaticMemberExpression,
    /// `object`, which is `Super`, and `property`.
    SuperComputedMemberExpression,
    /// `expression`.
    ChainExpression,
    /// `argument`, which may be absent. The field: `delegate`.
    YieldExpression(bool),
    /// `quasis`, `expressions`.
    TemplateLiteral,
    /// A piece of a template's text: no child. The fields: `tail`, the raw text, and the cooked
    /// one, if there is one.
    TemplateElement(bool, BoxedText, Option<BoxedText>),
    /// `tag`, `quasi`.
    TaggedTemplateExpression,
    /// `meta`, `property`, each an `IdentifierName`. The field: which of the two meta properties it
    /// is.
    MetaProperty(MetaPropertyKind),
    /// `import(source)`: `source`.
    ImportExpression,

    // Patterns
    /// A pattern of a declaration: `properties`.
    ObjectPattern,
    /// A pattern of a declaration: `elements`.
    ArrayPattern,
    /// A property of an `ObjectPattern`: `key`, `value`. The fields: `shorthand`, `computed`.
    BindingProperty(bool, bool),
    /// `argument`.
    RestElement,
    /// `left`, `right`: a part of a pattern, or a parameter, with its default.
    AssignmentPattern,
    /// A pattern of an assignment: `properties`.
    ObjectAssignmentTarget,
    /// A pattern of an assignment: `elements`.
    ArrayAssignmentTarget,
    /// `key`, `value`: a shorthand property of an `ObjectAssignmentTarget`.
    AssignmentTargetPropertyIdentifier,
    /// A property of an `ObjectAssignmentTarget` that isn't a shorthand: `key`, `value`. The field:
    /// `computed`.
    AssignmentTargetPropertyProperty(bool),
}

impl Drop for Shape {
    fn drop(self) {
        match self {
            Shape::Absent
            | Shape::Listed
            | Shape::InnerExpression
            | Shape::ExpressionStatement
            | Shape::EmptyStatement
            | Shape::DebuggerStatement
            | Shape::BlockStatement
            | Shape::LabeledStatement
            | Shape::BreakStatement
            | Shape::ContinueStatement
            | Shape::ReturnStatement
            | Shape::ThrowStatement
            | Shape::IfStatement
            | Shape::SwitchStatement
            | Shape::SwitchCase
            | Shape::TryStatement
            | Shape::CatchClause
            | Shape::WhileStatement
            | Shape::DoWhileStatement
            | Shape::ForStatement
            | Shape::ForInStatement
            | Shape::ForOfStatement
            | Shape::VariableDeclaration(_)
            | Shape::VariableDeclarator
            | Shape::FunctionBody
            | Shape::Class(_)
            | Shape::ClassBody
            | Shape::MethodDefinition(_, _, _)
            | Shape::PropertyDefinition(_, _)
            | Shape::StaticBlock
            | Shape::ImportDeclaration
            | Shape::ImportSpecifier
            | Shape::ImportDefaultSpecifier
            | Shape::ImportNamespaceSpecifier
            | Shape::ExportNamedDeclaration
            | Shape::ExportSpecifier
            | Shape::ExportDefaultDeclaration
            | Shape::ExportAllDeclaration
            | Shape::Identifier
            | Shape::BindingIdentifier
            | Shape::NumericLiteral(_)
            | Shape::BooleanLiteral(_)
            | Shape::NullLiteral
            | Shape::BigIntLiteral(_)
            | Shape::ThisExpression
            | Shape::Super
            | Shape::ArrayExpression
            | Shape::ObjectExpression
            | Shape::ObjectProperty(_, _, _, _)
            | Shape::SpreadElement
            | Shape::UnaryExpression(_)
            | Shape::UpdateExpression(_, _)
            | Shape::BinaryExpression(_)
            | Shape::PrivateInExpression
            | Shape::LogicalExpression(_)
            | Shape::AssignmentExpression(_)
            | Shape::ConditionalExpression
            | Shape::SequenceExpression
            | Shape::CallExpression(_)
            | Shape::SuperCallExpression
            | Shape::NewExpression
            | Shape::StaticMemberExpression(_)
            | Shape::ComputedMemberExpression(_)
            | Shape::PrivateFieldExpression(_)
            | Shape::SuperStaticMemberExpression
            | Shape::SuperComputedMemberExpression
            | Shape::ChainExpression
            | Shape::YieldExpression(_)
            | Shape::TemplateLiteral
            | Shape::TaggedTemplateExpression
            | Shape::MetaProperty(_)
            | Shape::ImportExpression
            | Shape::ObjectPattern
            | Shape::ArrayPattern
            | Shape::BindingProperty(_, _)
            | Shape::RestElement
            | Shape::AssignmentPattern
            | Shape::ObjectAssignmentTarget
            | Shape::ArrayAssignmentTarget
            | Shape::AssignmentTargetPropertyIdentifier
            | Shape::AssignmentTargetPropertyProperty(_) => {}
            Shape::Program(_, directives) => drop(directives),
            Shape::Function(_, _, directives) => drop(directives),
            Shape::ArrowFunctionExpression(directives) => drop(directives),
            Shape::IdentifierName(text) => drop(text),
            Shape::PrivateIdentifier(text) => drop(text),
            Shape::StringLiteral(text) => drop(text),
            Shape::RegExpLiteral(pattern, flags) => {
                drop(pattern);
                drop(flags);
            }
            Shape::TemplateElement(_, raw, cooked) => {
                drop(raw);
                drop(cooked);
            }
        }
    }
}
