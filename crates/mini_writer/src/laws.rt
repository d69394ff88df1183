//! The laws of writing and reading, each as the contract of a function that does nothing.
ghost use Rattle.mini_writer.specs.RoundTrip.{ReadIsWritten, WrittenIsAccepted};

/// What is written for a well-shaped tree is accepted as this tree, but for its numbers and
/// symbols.
pub fn written_is_accepted()
    ensures { WrittenIsAccepted }
{}

/// What is written for a tree that a value was accepted as is accepted as this tree, but for its
/// numbers and symbols.
pub fn read_is_written()
    ensures { ReadIsWritten }
{}
