/// What type of value an expression has (ECMA-262, "ECMAScript Language Types"), where that is
/// known from its text. A regular expression, an array, a function and a class are objects, and no
/// expression is known to be a Symbol.
#[derive(Clone, Copy, Debug, PartialEq, Eq)]
pub enum Kind {
    /// `undefined`
    Undefined,
    /// `null`
    Null,
    /// `true` or `false`
    Boolean,
    /// A Number.
    Number,
    /// A BigInt.
    BigInt,
    /// A String.
    String,
    /// An object.
    Object,
    /// It is not known.
    Undetermined,
}
