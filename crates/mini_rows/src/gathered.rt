/// What is gathered from the items of a list.
#[derive(Clone, Copy)]
pub enum Gathered {
    /// Their values.
    Values,
    /// Entries: elements, properties or arguments.
    Entries,
    /// Texts: each value is converted before the next item is evaluated.
    Texts,
}
