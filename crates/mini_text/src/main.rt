//! JavaScript text of a program: ESTree JSON, or an answer of the minifier, from standard input to
//! standard output; or the text of its minified program.
#![tactic(auto)]

use mini_run::{StdSink, StdSource, Words};
use mini_texts::{Status, run_text};
use std::env;
use std::io::ErrorKind;
use std::process::ExitCode;

fn main(rt: HostRuntime) -> ExitCode {
    ExitCode::from(start(&rt).code())
}

fn start(rt: &HostRuntime) -> Status {
    let alloc = rt.alloc();
    let arguments = match env::args(rt) {
        Ok(arguments) => arguments,
        Err(error) => {
            if error.kind() == ErrorKind::OutOfMemory {
                return Status::OutOfMemory;
            }
            return Status::BadWords;
        }
    };
    let mut words = Words::new(alloc);
    for word in arguments.skip(1) {
        if words.push(word.as_str()).is_err() {
            return Status::OutOfMemory;
        }
    }
    let mut source = StdSource::new(rt.stdin());
    let mut sink = StdSink::new(rt.stdout());
    let mut notes = StdSink::new(rt.stderr());
    run_text(alloc, words, &mut source, &mut sink, &mut notes)
}
