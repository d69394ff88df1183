// Programs and values, read and written, with no run of the minifier between.

ghost use Rattle.std.specs.Prelude.{IfOk, string_bytes};
ghost use Rattle.mini_cases.specs.Echo.{IsEcho, IsSameJson};

use crate::error::NoAnswer;
use mini_estree::{read_program, write_program};
use serde_json::Value;
use std::alloc::Global;

/// How deep the nodes of a program may nest.
const MAX_DEPTH: u32 = 1000;

/// The text of the program that a text says, as compact JSON.
///
/// The text must be JSON of a program that is read and whose nodes nest at most 1000 deep. It is
/// let go as soon as its value is there.
pub fn echoed(alloc: Global, text: String) -> Result<String, NoAnswer>
    ensures { IfOk result (λ s. IsEcho (string_bytes text) (string_bytes s)) }
{
    let value = Value::from_str(alloc, text.as_str())?;
    drop(text);
    let program = read_program(alloc, &value, MAX_DEPTH)?;
    drop(value);
    let back = write_program(alloc, &program.root);
    drop(program);
    Ok(back?.to_string(alloc)?)
}

/// The text of the value that a text says, as compact JSON. The text is let go as soon as its value
/// is there.
pub fn same_json(alloc: Global, text: String) -> Result<String, NoAnswer>
    ensures { IfOk result (λ s. IsSameJson (string_bytes text) (string_bytes s)) }
{
    let value = Value::from_str(alloc, text.as_str())?;
    drop(text);
    Ok(value.to_string(alloc)?)
}
