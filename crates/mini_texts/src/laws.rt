//! A law: which inputs have a text.

ghost use Rattle.std.specs.Prelude.{◌≡◌, ℕ, List, Option, false};
ghost use Rattle.mini_cli.specs.Run.{IsValidInput};
ghost use Rattle.mini_texts.specs.Inputs.{IsPrintableInput};
ghost use Rattle.mini_texts.specs.Texts.{text_task};
ghost use Rattle.mini_texts.specs.declared.options.TextOptions.{TextOptions};

/// An input that is a program, no node of which is a fault, and which doesn't nest too deep, is one
/// that no line refuses: its compact text is written, unless memory runs out, or the source or the
/// sink fails.
pub fn printable_inputs_are_valid()
    ensures { (o : TextOptions) (before : Option (List ℕ)) → o.spaced ≡ false → IsPrintableInput o.max_depth before → IsValidInput (text_task o) before }
{}
