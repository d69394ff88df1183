/// How a declaration declares its names (ECMA-262, "Let and Const Declarations" and "Variable
/// Statement").
#[derive(Clone, Copy, PartialEq, Eq)]
pub enum VariableDeclarationKind {
    /// `var`
    Var,
    /// `let`
    Let,
    /// `const`
    Const,
}

/// What a property of an object literal is (ECMA-262, "Object Initializer"). A method is an `Init`.
#[derive(Clone, Copy, PartialEq, Eq)]
pub enum PropertyKind {
    /// A value, or a method.
    Init,
    /// `get`
    Get,
    /// `set`
    Set,
}

/// What a method of a class is (ECMA-262, "Method Definitions").
#[derive(Clone, Copy, PartialEq, Eq)]
pub enum MethodDefinitionKind {
    /// The class's constructor.
    Constructor,
    /// A method.
    Method,
    /// `get`
    Get,
    /// `set`
    Set,
}

/// A meta property (ECMA-262, "Meta Properties").
#[derive(Clone, Copy, PartialEq, Eq)]
pub enum MetaPropertyKind {
    /// `new.target`
    NewTarget,
    /// `import.meta`
    ImportMeta,
}
