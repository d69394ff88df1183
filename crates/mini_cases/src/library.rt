// The library's call, as README.md shows it.

use mini_estree::fits;
use mini_peephole::{CompressOptions, minify_estree};
use serde_json::Value;
use std::alloc::Global;

/// The lighter program of a program in ESTree JSON. There is none where the text is no JSON or too
/// large, where the program is refused, and where memory runs out.
pub fn lighter(alloc: Global, json: &str) -> Option<Value> {
    let program = Value::from_str(alloc, json).ok()?;
    if !fits(&program) {
        return None;
    }
    let answer = minify_estree(alloc, &program, &CompressOptions::new()).ok()?;
    Some(answer.program)
}
