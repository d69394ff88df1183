// From a value to the text of its program, minified.

ghost use Rattle.std.specs.Prelude.{◌≡◌, ℕ, Ok, string_bytes, IfOk, IfErr};
ghost use Rattle.serde_json.specs.View.{view};
ghost use Rattle.mini_accept.specs.Accept.{program_at};
ghost use Rattle.mini_cli.specs.Run.{IfTold};
ghost use Rattle.mini_texts.specs.Minified.{minified_task, IsUnreadAnswer, IsPrintedAnswer, IsUnprintedAnswer};

use crate::printing::print_line;
use mini_cli::{Answering, Refusal, refuse_unread};
use mini_estree::{Numbered, read_program};
use mini_node::Node;
use mini_peephole::{Minified, minify_value};
use mini_tree::CompressOptions;
use serde_json::Value;
use std::alloc::Global;

/// Minifies programs and prints the answers.
#[derive(Clone, Copy)]
pub struct Minifying {
    /// Whether a blank stands between any two tokens.
    pub spaced: bool,
    /// The options of the minifier.
    pub options: CompressOptions,
}

// The tree of an answer's program, however deep it nests. The value is let go.
fn tree_of(alloc: Global, program: Value) -> Result<Node, Refusal>
    ensures tree { IfOk result (λ tree. (numbers : ℕ) × (program_at 4294967295 (view program) ≡ Ok (tree, numbers))) }
    ensures refused { IfErr result (λ e. IfTold e (IsUnreadAnswer (view program))) }
{
    match read_program(alloc, &program, 4_294_967_295) {
        Ok(numbered) => {
            let Numbered { root, .. } = numbered;
            Ok(root)
        }
        Err(error) => Err(refuse_unread(alloc, &error)),
    }
}

// The text of an answer's program, with a newline behind it.
fn print_answer(alloc: Global, minified: Minified, spaced: bool) -> Result<String, Refusal>
    ensures printed { IfOk result (λ line. IsPrintedAnswer spaced minified (string_bytes line)) }
    ensures refused { IfErr result (λ e. IfTold e (IsUnprintedAnswer spaced minified)) }
{
    let Minified { program, .. } = minified;
    let tree = tree_of(alloc, program)?;
    print_line(alloc, tree, spaced)
}

impl Answering for Minifying {
    ghost task = { λ m. minified_task m.spaced m.options };

    fn answer(&self, alloc: Global, value: Value) -> Result<String, Refusal> {
        match minify_value(alloc, value, &self.options) {
            Ok(minified) => print_answer(alloc, minified, self.spaced),
            Err(error) => Err(refuse_unread(alloc, &error)),
        }
    }
}
