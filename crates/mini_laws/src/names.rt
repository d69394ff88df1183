//! What is said of the names of a program: how they are used, which scopes declare them, and what
//! may be jumped to.

use mini_model::{Name, OwnedList, Text};

/// How the names of a place are used.
#[derive(Clone, Copy)]
pub enum Use {
    /// The name's value is read.
    Read,
    /// The name is assigned to.
    Write,
    /// The name is read and assigned to, as by `+=` and `++`.
    ReadWrite,
    /// A `var` declares the name.
    Hoisted,
    /// A `var` in the head of a `for..in` or `for..of` declares the name, and each turn writes it.
    Headed,
    /// A statement stands there that is a branch or a body: what it declares is read as in a block
    /// of its own.
    Alone,
}

/// A name that a scope declares.
#[derive(Drop)]
pub struct Binding {
    /// The name with its symbol.
    pub name: Name,
    /// Whether the scope is that of a program or a function, where a `var` goes.
    pub hoists: bool,
}

/// Which of the names that a tree declares.
#[derive(Clone, Copy)]
pub enum Declared {
    /// Those that it binds, as a pattern does (ECMA-262, BoundNames).
    Bound,
    /// Those that it declares in the block or the list in which it stands directly, as a statement
    /// (ECMA-262, LexicallyDeclaredNames).
    Lexical,
    /// Those that `var` declares in it, but for those in its functions and classes (ECMA-262,
    /// VarDeclaredNames).
    Hoisted,
}

/// Where the names of one kind (`Declared`) stand that a node declares.
#[derive(Clone, Copy)]
pub enum Place {
    /// In the node itself.
    Here,
    /// They are the names that its first child binds.
    FirstBound,
    /// They are the names that its children bind.
    Bound,
    /// They are the names of this kind that its children declare.
    Below,
    /// It has no names of this kind.
    Nowhere,
}

/// The scopes that a node opens.
#[derive(Clone, Copy)]
pub enum Opening {
    /// No scope.
    Nothing,
    /// One scope, of the names of a body, which is its first child.
    Body,
    /// The scopes of a function: that of its own name, where that is in scope in it alone (the
    /// field says whether); that of its parameters; that of its body.
    Function(bool),
    /// The scopes of an arrow function: that of its parameters; that of its body.
    Arrow,
    /// The scopes of a class: that of its own name, where that is in scope in it alone; and that of
    /// the name which a declaration holds again, its last child. The fields say whether it opens
    /// the one, and the other.
    Class(bool, bool),
    /// One scope, of the lexical names of its first child, around all its children.
    First,
    /// One scope, of the lexical names of its second child, around the children from that on: the
    /// cases of a `switch`.
    Second,
    /// One scope, of the names that its first child binds, around all its children.
    Bound,
}

/// The indices from the root to a node.
pub type Path = OwnedList<usize>;

/// A name that is declared at a place.
#[derive(Drop)]
pub struct Declaration {
    /// The name's text.
    pub spelling: Text,
    /// Whether the name is lexical, and not declared as by `var`.
    pub is_lexical: bool,
    /// The path to the node that declares it.
    pub at: Path,
}

/// A label around a place.
#[derive(Drop)]
pub struct Label {
    /// The label's text.
    pub name: Text,
    /// Whether the label stands before a loop.
    pub is_loop: bool,
}

/// The labels around a place, and what else may be jumped to or out of.
#[derive(Drop)]
pub struct Targets {
    /// The labels around the place.
    pub labels: OwnedList<Label>,
    /// Whether a `break` without a label has a target.
    pub breaks: bool,
    /// Whether a `continue` without a label has a target.
    pub continues: bool,
    /// Whether a `return` may stand there.
    pub returns: bool,
    /// Whether a `yield` may stand there.
    pub yields: bool,
}

/// What must not clash in the scopes that a node opens.
#[derive(Clone, Copy)]
pub enum Clash {
    /// Nothing.
    Nothing,
    /// The names of its first child, a body. The field says whether functions are like `var` in
    /// that.
    Body(bool),
    /// The parameters and the names of the body, which are its children at these two indices.
    Function(usize, usize),
    /// The names of its second child, the cases.
    Switch,
    /// The parameter, its first child, and the names of the block, its second child.
    Catch,
    /// The names of its first child, and those that are hoisted out of the body, its child at this
    /// index.
    Loop(usize),
}

/// What a child of a node can jump to, by what the node can jump to.
#[derive(Clone, Copy)]
pub enum Turn {
    /// What its node can jump to.
    Same,
    /// What its node can jump to, and by `break` and `continue` the loop that the node is.
    InLoop,
    /// What its node can jump to, and by `break` the `switch` that the node is.
    InSwitch,
    /// What its node can jump to, and the label that the node has.
    Labeled,
    /// Nothing around the function that the node is; it may `return`, and `yield` where the field
    /// says that it is a generator.
    InFunction(bool),
    /// Nothing.
    Outside,
}

/// A kind of jump.
#[derive(Clone, Copy)]
pub enum Jump {
    /// `break`, with or without a label.
    Break,
    /// `continue`, with or without a label.
    Continue,
    /// A labeled statement, whose label is to be another than those around it.
    Label,
    /// `return`.
    Return,
    /// `yield`.
    Yield,
    /// No jump, and no label.
    Nothing,
}

/// How a node stands that may have a number.
#[derive(Clone, Copy)]
pub enum Numbering {
    /// It has a body: a program, a function, a static block or an inner expression.
    Body,
    /// It is carried as it is: every other node with a number.
    Carried,
    /// It has no number.
    Unnumbered,
}

/// The innermost node with a number around a place.
#[derive(Clone, Copy)]
pub struct Around {
    /// The number that the node has.
    pub number: u32,
    /// Whether the node is carried, and has no body.
    pub carried: bool,
}
