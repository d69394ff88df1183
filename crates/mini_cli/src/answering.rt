ghost use Rattle.std.specs.Prelude.{string_bytes, IfOk, IfErr};
ghost use Rattle.serde_json.specs.View.{view};
ghost use Rattle.mini_cli.specs.Run.{Task, IfTold};
ghost use Rattle.mini_writer.specs.Fits.{Fits};

use serde_json::Value;
use std::alloc::Global;

/// Why a value has no answer.
#[derive(Drop)]
pub enum Refusal {
    /// No memory was left.
    OutOfMemory,
    /// The value has a defect. The line, with a newline at its end, is for people.
    Told(String),
}

/// What a run does between reading and writing.
pub trait Answering {
    // which texts are an answer to a value, and which lines tell why it has none
    ghost task: { Self → Task };

    /// The answer to a value that is given away, as it is to be written.
    fn answer(&self, alloc: Global, value: Value) -> Result<String, Refusal>
        requires { Fits (view value) }
        ensures answered { IfOk result (λ text. (task self.now).answers (view value) (string_bytes text)) }
        ensures refused { IfErr result (λ e. IfTold e ((task self.now).refuses (view value))) };
}
