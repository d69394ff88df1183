// Goals, productions, and what stands in a production: the types of the table.

use crate::keyword::Keyword;
use crate::token::Punct;
use mini_model::{
    AssignmentOperator, BinaryOperator, LogicalOperator, Mix, UnaryOperator, UpdateOperator,
    VariableDeclarationKind,
};

/// What may stand somewhere: a nonterminal of ECMA-262, with its parameters, by the names of the
/// definitions of `mini_print`.
#[derive(Clone, Copy)]
pub enum Goal {
    Anything,
    WithoutIn,
    Callee,
    AfterDot,
    Binding,
    Statement,
    Declared,
    Element,
    Property,
    Body,
    Bound,
    Parameter,
    BoundProperty,
    HeadDeclaration,
    HeadDeclared,
    MethodValue,
    GeneratorValue,
    KeyName,
    LabelName,
    CaseItem,
    Catching,
    BlockOnly,
    TemplateRest,
    TagTemplate,
    FirstLink,
    Link,
    BoundElement,
    ClassBraces,
    ClassElement,
    PlainElement,
    ClassKey,
    TargetPattern,
    Target,
    TargetElement,
    TargetProperty,
    Leading,
    ModuleItem,
    SourceText,
    ModuleName,
    ImportItem,
    Exportable,
    DefaultDeclared,
    ExportItem,
    ForwardItem,
}

/// A goal: one of these, or the default of a property by a name, which is declared or not.
#[derive(Clone, Copy)]
pub enum Aim<'a> {
    /// One of these.
    Plain(Goal),
    /// The default of a property by this name; the flag says whether that is declared.
    DefaultOf(bool, &'a [u16]),
}

/// A production, by the names of the definitions of `mini_print`.
#[derive(Clone, Copy)]
pub enum Rule<'a> {
    /// A production without a text, a number or an operator of its own.
    Fixed(Fixed),
    Reference(&'a [u16]),
    NumberLiteral(u64),
    BigIntLiteral(u128),
    TextLiteral(&'a [u16]),
    RegExpLiteral(&'a [u16], &'a [u16]),
    PropertyName(&'a [u16]),
    Postfix(UpdateOperator),
    Prefix(UpdateOperator),
    Unary(UnaryOperator),
    Binary(BinaryOperator),
    Logical(LogicalOperator),
    Assignment(AssignmentOperator),
    BindingName(&'a [u16]),
    Variables(VariableDeclarationKind),
    PrivateName(&'a [u16]),
    PrivateIn(&'a [u16]),
    Label(&'a [u16]),
    HeadVariables(VariableDeclarationKind),
    KeyWord(&'a [u16]),
    KeyText(&'a [u16]),
    KeyNumber(u64),
    BoundShorthand(&'a [u16]),
    Shorthand(&'a [u16]),
    WholeTemplate(&'a [u16]),
    Template(&'a [u16]),
    MiddlePiece(&'a [u16]),
    TailPiece(&'a [u16]),
    TagWhole(&'a [u16]),
    TagParts(&'a [u16]),
    BoundDefault(&'a [u16]),
    NamedDefault(bool, &'a [u16]),
    ClassNamed(&'a [u16]),
    ClassDeclared(&'a [u16]),
    PrivateKey(&'a [u16]),
    TargetShorthand(&'a [u16]),
    TargetDefault(&'a [u16]),
    Directive(&'a [u16]),
    ImportBare(&'a [u16]),
    ImportDefault(&'a [u16]),
    ImportDefaultNames(&'a [u16]),
    ImportDefaultNamespace(&'a [u16]),
    ImportShort(&'a [u16]),
    ExportShort(&'a [u16]),
    ExportAs(&'a [u16]),
    ForwardName(&'a [u16]),
    ForwardText(&'a [u16]),
    DeclaredVariables(VariableDeclarationKind),
    DeclaredClass(&'a [u16]),
    DefaultClassNamed(&'a [u16]),
    ArrowName(&'a [u16]),
    ArrowNameBlock(&'a [u16]),
}

/// A production without a text, a number or an operator of its own.
#[derive(Clone, Copy)]
pub enum Fixed {
    Null,
    This,
    True,
    False,
    Array,
    Object,
    KeyValue,
    Computed,
    Spread,
    SpreadItem,
    Member,
    Index,
    New,
    NewBare,
    Call,
    Import,
    Conditional,
    Sequence,
    Arrow,
    ArrowBlock,
    Block,
    Declarator,
    Empty,
    ExpressionStatement,
    If,
    DoWhile,
    While,
    For,
    Return,
    Throw,
    Debugger,
    Break,
    Continue,
    FunctionExpression,
    FunctionDeclaration,
    FunctionBody,
    GeneratorExpression,
    GeneratorDeclaration,
    Yield,
    YieldFrom,
    YieldBare,
    SuperMember,
    SuperIndex,
    SuperCall,
    NewTarget,
    ImportMeta,
    Switch,
    Case,
    DefaultCase,
    Try,
    CatchParam,
    CatchBare,
    BlockPart,
    ObjectPattern,
    ArrayPattern,
    Rest,
    BoundKeyValue,
    BoundComputed,
    BoundRest,
    ForIn,
    ForOf,
    ForDeclared,
    ForDeclaredIn,
    ForDeclaredOf,
    ForPatternIn,
    ForPatternOf,
    MethodProperty,
    Getter,
    Setter,
    GeneratorProperty,
    MethodFunction,
    GeneratorMethod,
    TaggedTemplate,
    Chain,
    FirstMember,
    FirstIndex,
    FirstCall,
    LinkMember,
    LinkIndex,
    LinkCall,
    OptionalMember,
    OptionalIndex,
    OptionalCall,
    Defaulted,
    ClassPlain,
    ClassBody,
    ClassMethod,
    ClassComputedMethod,
    ClassGenerator,
    ClassComputedGenerator,
    ClassGetter,
    ClassComputedGetter,
    ClassSetter,
    ClassComputedSetter,
    Field,
    ComputedField,
    StaticElement,
    StaticInit,
    PatternAssignment,
    ArrayTarget,
    ObjectTarget,
    PatternItem,
    ValueItem,
    PatternRest,
    ValueRest,
    TargetKeyValue,
    TargetComputed,
    TargetPropertyRest,
    ComputedMethod,
    ComputedGetter,
    ComputedSetter,
    ComputedGenerator,
    ImportNames,
    ImportNamespace,
    ImportAs,
    ExportNames,
    ExportFrom,
    ExportAll,
    ExportDeclared,
    ExportValue,
    ExportDefault,
    ForwardAs,
    DeclaredFunction,
    DeclaredGenerator,
    DefaultFunction,
    DefaultGenerator,
    DefaultClass,
}

/// A place: what may stand there, how tightly it has to bind, and which operators of logic are
/// around it.
#[derive(Clone, Copy)]
pub struct Place<'a> {
    /// What may stand there.
    pub goal: Aim<'a>,
    /// How tightly it has to bind.
    pub level: u8,
    /// Which operators of logic are around it.
    pub around: Mix,
}

/// A restriction on the tokens that a part begins with.
#[derive(Clone, Copy)]
pub enum Lookahead {
    /// They begin no other statement.
    NoStatement,
    /// They don't begin with `{`.
    NoBrace,
    /// They begin with a name, a word, a text or a number.
    Key,
    /// They don't begin with `async of`.
    NotAsync,
    /// They begin no function or class.
    NoDeclaration,
}

/// What tells, behind a production, that it ends.
#[derive(Clone, Copy)]
pub enum Ending {
    /// What stands behind a property, a parameter or an element.
    Ended,
    /// What stands behind the declaration in the head of a loop.
    HeadEnd,
    /// What stands behind a clause of a `switch`.
    CaseEnd,
    /// What stands behind a `yield` without an expression.
    YieldEnd,
}

/// The token before a part that may be absent.
#[derive(Clone, Copy)]
pub enum Opener {
    /// `=`
    Equals,
    /// `else`
    Else,
    /// `catch`
    Catch,
    /// `finally`
    Finally,
    /// `extends`
    Extends,
    /// `as`
    As,
}

/// How many items a list has at least, or whether it may have gaps.
#[derive(Clone, Copy)]
pub enum Least {
    /// None.
    Zero,
    /// One.
    One,
    /// Two.
    Two,
    /// None, and there may be gaps.
    Gaps,
}

/// What a part is that isn't in the text.
#[derive(Clone, Copy)]
pub enum Silent {
    /// Nothing.
    Nothing,
    /// `super`.
    Super,
    /// The name of the production.
    Name,
    /// The name of the production, declared.
    Binding,
    /// The name of the production, referred to.
    Reference,
    /// The private name of the production.
    Private,
    /// The name of the property whose default this is.
    Named,
    /// The first piece of a template, alone or not.
    Piece(bool),
    /// A word.
    Word(Keyword),
    /// The text of the production.
    Text,
    /// A list of nothing.
    NoItems,
    /// A list of the name of the production, declared: the parameters of an arrow function.
    Parameter,
}

/// What stands in a production.
#[derive(Clone, Copy)]
pub enum Piece {
    /// A word.
    Word(Keyword),
    /// A punctuator.
    Mark(Punct),
    /// The token that the production itself has: its name, number, text or operator.
    Own,
    /// The first part, in the goal of the whole, which binds at least so tightly.
    Left(u8),
    /// The left operand of the production's operator.
    LeftOperand,
    /// The right operand of the production's operator.
    RightOperand,
    /// A part in this goal, or in the whole's heir where none is named.
    Part(Option<Goal>, u8),
    /// The default of the production's name; the flag says whether that is declared.
    Default(bool),
    /// A part in parentheses, if it begins otherwise than the restriction says.
    Restricted(Lookahead, Option<Goal>, u8),
    /// A list with commas.
    Commas(Option<Goal>, Least),
    /// A part that may be absent.
    Perhaps(Goal),
    /// A part that may be absent, behind a token.
    Option(Opener, Option<Goal>, u8),
    /// Parts one behind the other.
    Statements(Goal),
    /// The statements of a body, of which the first is no directive, and the brace behind them.
    Undirected,
    /// A part that isn't in the text.
    Silent(Silent),
    /// Nothing.
    Fork,
    /// The `;` that ends a statement or a field: it stands there, or it is inserted.
    Semicolon,
    /// Nothing, at the end of the production.
    End(Ending),
}
