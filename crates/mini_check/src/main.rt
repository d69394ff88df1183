//! The checker of logs: a program with a log of rewrites of it, as JSON from standard input, and the
//! program to which the log leads to standard output. With the word `--log`, a program from standard
//! input, and it with a log of rewrites of it to standard output.
#![tactic(auto)]

use mini_certificate::{Status, run_check, run_log};
use mini_run::{StdSink, StdSource, Words};
use std::env;
use std::io::ErrorKind;
use std::process::ExitCode;

fn main(rt: HostRuntime) -> ExitCode {
    ExitCode::from(start(&rt).code())
}

fn start(rt: &HostRuntime) -> Status {
    let alloc = rt.alloc();
    let arguments = match env::args(rt) {
        Ok(arguments) => arguments,
        Err(error) => {
            if error.kind() == ErrorKind::OutOfMemory {
                return Status::OutOfMemory;
            }
            return Status::BadWords;
        }
    };
    let mut words = Words::new(alloc);
    let mut makes_log = false;
    for word in arguments.skip(1) {
        if !makes_log && word.as_str() == "--log" {
            makes_log = true;
        } else if words.push(word.as_str()).is_err() {
            return Status::OutOfMemory;
        }
    }
    let mut source = StdSource::new(rt.stdin());
    let mut sink = StdSink::new(rt.stdout());
    let mut notes = StdSink::new(rt.stderr());
    if makes_log {
        run_log(alloc, &words, &mut source, &mut sink, &mut notes)
    } else {
        run_check(alloc, &words, &mut source, &mut sink, &mut notes)
    }
}
