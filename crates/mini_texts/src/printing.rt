// From a value to the text of its program.

ghost use Rattle.std.specs.Prelude.{◌≡◌, true, ℕ, Ok, Some, None, string_bytes, IfOk, IfErr};
ghost use Rattle.std.specs.Char.Utf16.{has_unpaired_surrogate};
ghost use Rattle.serde_json.specs.View.{view};
ghost use Rattle.mini_accept.specs.Accept.{program_at};
ghost use Rattle.mini_cli.specs.Run.{IfTold, note_line};
ghost use Rattle.mini_print.specs.Unprintable.{first_fault};
ghost use Rattle.mini_printer.specs.Texts.{IsTextOf, IsRefusalOf};
ghost use Rattle.mini_texts.specs.Texts.{program_data_in, path_text, splits_by, style_by, text_by, text_task, print_note, lone_half, IsLine, IsPrinted, IsUnread, IsUnprinted};

use crate::options::TextOptions;
use mini_cli::{Answering, Refusal, refuse, refuse_unread};
use mini_estree::{Numbered, read_program};
use mini_model::{Numbers, Text};
use mini_node::Node;
use mini_printer::{PrintError, print_compact, print_program};
use serde_json::Value;
use std::alloc::{AllocError, Global};

/// Prints programs.
#[derive(Clone, Copy)]
pub struct Printing {
    /// How their text is written.
    pub options: TextOptions,
}

// The program of an answer of the minifier, or the value itself.
fn program_in(value: &Value) -> &Value
    ensures { view result.now ≡ program_data_in (view value.now) }
{
    match value.get("program") {
        Some(program) => program,
        None => value,
    }
}

// The tree of the program that a value is or has. The value is let go.
fn tree_of(alloc: Global, value: Value, max_depth: u32) -> Result<Node, Refusal>
    ensures tree { IfOk result (λ tree. (numbers : ℕ) × (program_at max_depth (program_data_in (view value)) ≡ Ok (tree, numbers))) }
    ensures refused { IfErr result (λ e. IfTold e (IsUnread max_depth (view value))) }
{
    match read_program(alloc, program_in(&value), max_depth) {
        Ok(numbered) => {
            let Numbered { root, .. } = numbered;
            Ok(root)
        }
        Err(error) => Err(refuse_unread(alloc, &error)),
    }
}

fn print(alloc: Global, program: Node, spaced: bool) -> Result<Text, PrintError>
    ensures exact { IfOk result (λ text. text ≡ text_by spaced program) }
    ensures one { IfOk result (λ text. IsTextOf (splits_by spaced) program text) }
    ensures plain { IfOk result (λ text. first_fault program ≡ None) }
    ensures refused { IfErr result (λ e. IsRefusalOf (style_by spaced) program e) }
{
    if spaced {
        print_program(alloc, program)
    } else {
        print_compact(alloc, program)
    }
}

// The text of a path: a slash and a number for each of its places.
#[tactic(auto, using(crate::proofs::Told::path_goes_on, crate::proofs::Told::path_ends))]
fn path_of(alloc: Global, at: &Numbers) -> Result<String, AllocError>
    ensures { IfOk result (λ text. string_bytes text ≡ path_text at.now) }
{
    let mut path = String::new(alloc);
    for place in at.as_slice() {
        path.push('/')?;
        path.push_str(place.to_string(alloc)?.as_str())?;
    }
    Ok(path)
}

fn refuse_at(alloc: Global, defect: &str, at: &Numbers) -> Refusal
    ensures { IfTold result (λ line. line ≡ note_line defect.now (path_text at.now)) }
{
    match path_of(alloc, at) {
        Ok(path) => refuse(alloc, defect, path.as_str()),
        Err(_) => Refusal::OutOfMemory,
    }
}

fn refuse_unprinted(alloc: Global, error: PrintError) -> Refusal
    ensures { IfTold result (λ line. print_note error ≡ Some line) }
{
    match error {
        PrintError::OutOfMemory => Refusal::OutOfMemory,
        PrintError::Reserved { at } => refuse_at(alloc, "Reserved", &at),
        PrintError::BadText { at } => refuse_at(alloc, "BadText", &at),
        PrintError::TooDeep => refuse(alloc, "TooDeep", ""),
        PrintError::Unprintable => refuse(alloc, "Unprintable", ""),
    }
}

// The text in UTF-8, with a newline behind it; refused where half a surrogate pair stands alone.
fn line_of(alloc: Global, text: Text) -> Result<String, Refusal>
    ensures line { IfOk result (λ line. IsLine text (string_bytes line)) }
    ensures refused { IfErr result (λ e. IfTold e (λ line. (has_unpaired_surrogate text ≡ true) × (line ≡ lone_half))) }
{
    let encoded: Result<Result<_, _>, _> = String::from_utf16(alloc, text.as_slice());
    match encoded {
        Ok(Ok(encoded)) => {
            let mut line = encoded;
            match line.push('\n') {
                Ok(()) => Ok(line),
                Err(_) => Err(Refusal::OutOfMemory),
            }
        }
        Ok(Err(_)) => Err(refuse(alloc, "LoneSurrogate", "")),
        Err(_) => Err(Refusal::OutOfMemory),
    }
}

/// The text of a program, with a newline behind it.
#[tactic(auto, using(crate::proofs::Told::printed, crate::proofs::Told::half_told, crate::proofs::Told::cause_told))]
pub fn print_line(alloc: Global, program: Node, spaced: bool) -> Result<String, Refusal>
    ensures printed { IfOk result (λ line. IsPrinted spaced program (string_bytes line)) }
    ensures refused { IfErr result (λ e. IfTold e (IsUnprinted spaced program)) }
{
    match print(alloc, program, spaced) {
        Ok(text) => line_of(alloc, text),
        Err(error) => Err(refuse_unprinted(alloc, error)),
    }
}

impl Answering for Printing {
    ghost task = { λ p. text_task p.options };

    #[tactic(auto, using(crate::proofs::Told::answered_by, crate::proofs::Told::refused_by, crate::proofs::Told::refused_unread))]
    fn answer(&self, alloc: Global, value: Value) -> Result<String, Refusal> {
        let program = tree_of(alloc, value, self.options.max_depth)?;
        print_line(alloc, program, self.options.spaced)
    }
}
