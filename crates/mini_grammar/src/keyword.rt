// The words of the language.

ghost use Rattle.std.specs.Prelude.{◌≡◌};
ghost use Rattle.mini_grammar.specs.Views.{word_text};

/// A word of the language.
#[derive(Clone, Copy)]
pub enum Keyword {
    /// `as`
    As,
    /// `async`
    Async,
    /// `await`
    Await,
    /// `break`
    Break,
    /// `case`
    Case,
    /// `catch`
    Catch,
    /// `class`
    Class,
    /// `const`
    Const,
    /// `continue`
    Continue,
    /// `debugger`
    Debugger,
    /// `default`
    Default,
    /// `delete`
    Delete,
    /// `do`
    Do,
    /// `else`
    Else,
    /// `enum`
    Enum,
    /// `export`
    Export,
    /// `extends`
    Extends,
    /// `false`
    False,
    /// `finally`
    Finally,
    /// `for`
    For,
    /// `from`
    From,
    /// `function`
    Function,
    /// `get`
    Get,
    /// `if`
    If,
    /// `import`
    Import,
    /// `in`
    In,
    /// `instanceof`
    Instanceof,
    /// `let`
    Let,
    /// `meta`
    Meta,
    /// `new`
    New,
    /// `null`
    Null,
    /// `of`
    Of,
    /// `return`
    Return,
    /// `set`
    Set,
    /// `static`
    Static,
    /// `super`
    Super,
    /// `switch`
    Switch,
    /// `target`
    Target,
    /// `this`
    This,
    /// `throw`
    Throw,
    /// `true`
    True,
    /// `try`
    Try,
    /// `typeof`
    Typeof,
    /// `var`
    Var,
    /// `void`
    Void,
    /// `while`
    While,
    /// `with`
    With,
    /// `yield`
    Yield,
}

const AS: [u16; 2] = [97, 115];

const ASYNC: [u16; 5] = [97, 115, 121, 110, 99];

const AWAIT: [u16; 5] = [97, 119, 97, 105, 116];

const BREAK: [u16; 5] = [98, 114, 101, 97, 107];

const CASE: [u16; 4] = [99, 97, 115, 101];

const CATCH: [u16; 5] = [99, 97, 116, 99, 104];

const CLASS: [u16; 5] = [99, 108, 97, 115, 115];

const CONST: [u16; 5] = [99, 111, 110, 115, 116];

const CONTINUE: [u16; 8] = [99, 111, 110, 116, 105, 110, 117, 101];

const DEBUGGER: [u16; 8] = [100, 101, 98, 117, 103, 103, 101, 114];

const DEFAULT: [u16; 7] = [100, 101, 102, 97, 117, 108, 116];

const DELETE: [u16; 6] = [100, 101, 108, 101, 116, 101];

const DO: [u16; 2] = [100, 111];

const ELSE: [u16; 4] = [101, 108, 115, 101];

const ENUM: [u16; 4] = [101, 110, 117, 109];

const EXPORT: [u16; 6] = [101, 120, 112, 111, 114, 116];

const EXTENDS: [u16; 7] = [101, 120, 116, 101, 110, 100, 115];

const FALSE: [u16; 5] = [102, 97, 108, 115, 101];

const FINALLY: [u16; 7] = [102, 105, 110, 97, 108, 108, 121];

const FOR: [u16; 3] = [102, 111, 114];

const FROM: [u16; 4] = [102, 114, 111, 109];

const FUNCTION: [u16; 8] = [102, 117, 110, 99, 116, 105, 111, 110];

const GET: [u16; 3] = [103, 101, 116];

const IF: [u16; 2] = [105, 102];

const IMPORT: [u16; 6] = [105, 109, 112, 111, 114, 116];

const IN: [u16; 2] = [105, 110];

const INSTANCEOF: [u16; 10] = [105, 110, 115, 116, 97, 110, 99, 101, 111, 102];

const LET: [u16; 3] = [108, 101, 116];

const META: [u16; 4] = [109, 101, 116, 97];

const NEW: [u16; 3] = [110, 101, 119];

const NULL: [u16; 4] = [110, 117, 108, 108];

const OF: [u16; 2] = [111, 102];

const RETURN: [u16; 6] = [114, 101, 116, 117, 114, 110];

const SET: [u16; 3] = [115, 101, 116];

const STATIC: [u16; 6] = [115, 116, 97, 116, 105, 99];

const SUPER: [u16; 5] = [115, 117, 112, 101, 114];

const SWITCH: [u16; 6] = [115, 119, 105, 116, 99, 104];

const TARGET: [u16; 6] = [116, 97, 114, 103, 101, 116];

const THIS: [u16; 4] = [116, 104, 105, 115];

const THROW: [u16; 5] = [116, 104, 114, 111, 119];

const TRUE: [u16; 4] = [116, 114, 117, 101];

const TRY: [u16; 3] = [116, 114, 121];

const TYPEOF: [u16; 6] = [116, 121, 112, 101, 111, 102];

const VAR: [u16; 3] = [118, 97, 114];

const VOID: [u16; 4] = [118, 111, 105, 100];

const WHILE: [u16; 5] = [119, 104, 105, 108, 101];

const WITH: [u16; 4] = [119, 105, 116, 104];

const YIELD: [u16; 5] = [121, 105, 101, 108, 100];

/// The units of a word.
pub fn units_of(word: Keyword) -> &'static [u16]
    ensures { result.now ≡ word_text word }
{
    match word {
        Keyword::As => &AS,
        Keyword::Async => &ASYNC,
        Keyword::Await => &AWAIT,
        Keyword::Break => &BREAK,
        Keyword::Case => &CASE,
        Keyword::Catch => &CATCH,
        Keyword::Class => &CLASS,
        Keyword::Const => &CONST,
        Keyword::Continue => &CONTINUE,
        Keyword::Debugger => &DEBUGGER,
        Keyword::Default => &DEFAULT,
        Keyword::Delete => &DELETE,
        Keyword::Do => &DO,
        Keyword::Else => &ELSE,
        Keyword::Enum => &ENUM,
        Keyword::Export => &EXPORT,
        Keyword::Extends => &EXTENDS,
        Keyword::False => &FALSE,
        Keyword::Finally => &FINALLY,
        Keyword::For => &FOR,
        Keyword::From => &FROM,
        Keyword::Function => &FUNCTION,
        Keyword::Get => &GET,
        Keyword::If => &IF,
        Keyword::Import => &IMPORT,
        Keyword::In => &IN,
        Keyword::Instanceof => &INSTANCEOF,
        Keyword::Let => &LET,
        Keyword::Meta => &META,
        Keyword::New => &NEW,
        Keyword::Null => &NULL,
        Keyword::Of => &OF,
        Keyword::Return => &RETURN,
        Keyword::Set => &SET,
        Keyword::Static => &STATIC,
        Keyword::Super => &SUPER,
        Keyword::Switch => &SWITCH,
        Keyword::Target => &TARGET,
        Keyword::This => &THIS,
        Keyword::Throw => &THROW,
        Keyword::True => &TRUE,
        Keyword::Try => &TRY,
        Keyword::Typeof => &TYPEOF,
        Keyword::Var => &VAR,
        Keyword::Void => &VOID,
        Keyword::While => &WHILE,
        Keyword::With => &WITH,
        Keyword::Yield => &YIELD,
    }
}
