// From the bytes in to the bytes out.

ghost use Rattle.std.specs.Prelude.{◌≡◌, ◌<◌, ◌≤◌, ℕ, List, length, IfOk, IsErrOf};
ghost use Rattle.mini_cli.specs.Run.{changed, Gave, GaveMore, IsTold, IsOutcome, IsFinished, IsDelivered, IsReadDue, IsValidInput, IsAnswered};
ghost use Rattle.mini_run.specs.Causes.{Rose};

use crate::answering::{Answering, Refusal};
use crate::status::Status;
use mini_run::{Sink, Source, Steps, Stopped, read_all, write_all};
use serde_json::Value;
use std::alloc::Global;
use std::marker::Brand;
use std::sync::ledger::{Blank, Ledger};

/// The outcome of a whole input: its answer's text, or why there is none.
#[derive(Drop)]
pub enum Outcome {
    /// The answer's text.
    Answer(String),
    /// The input is no JSON.
    Unread,
    /// The value is refused, and the line says why.
    Faulty(String),
    /// No memory was left.
    NoRoom,
}

// The bytes are let go as soon as their value is there, and the value as soon as it is read.
fn settle<A: Answering>(answering: &A, alloc: Global, input: Vec<u8>) -> Outcome
    requires { length input.items ≤ 16777216 }
    ensures { IsOutcome (A.task answering.now) input.items result }
{
    let read = Value::from_slice(alloc, &input);
    drop(input);
    let value = match read {
        Ok(value) => value,
        Err(error) => {
            if error.is_memory() {
                return Outcome::NoRoom;
            }
            return Outcome::Unread;
        }
    };
    match answering.answer(alloc, value) {
        Ok(text) => Outcome::Answer(text),
        Err(Refusal::Told(line)) => Outcome::Faulty(line),
        Err(Refusal::OutOfMemory) => Outcome::NoRoom,
    }
}

// A fault of the notes changes no status.
fn tell<E: Sink>(notes: &mut E, line: &[u8])
    ensures { IsTold (changed (E.written notes.old) (E.written notes.new) (E.faults notes.old) (E.faults notes.new)) line.now }
{
    match write_all(notes, line) {
        Ok(()) => (),
        Err(_) => (),
    }
}

// Writes what came out, or tells why nothing did.
fn finish<K: Sink, E: Sink>(outcome: Outcome, sink: &mut K, notes: &mut E) -> Status
    ensures { IsFinished outcome result
        (changed (K.written sink.old) (K.written sink.new) (K.faults sink.old) (K.faults sink.new))
        (changed (E.written notes.old) (E.written notes.new) (E.faults notes.old) (E.faults notes.new)) }
{
    match outcome {
        Outcome::NoRoom => Status::OutOfMemory,
        Outcome::Unread => Status::NotJson,
        Outcome::Faulty(line) => {
            tell(notes, line.as_bytes());
            Status::Refused
        }
        Outcome::Answer(text) => match write_all(sink, text.as_bytes()) {
            Ok(()) => Status::Done,
            Err(_) => Status::WriteFault,
        },
    }
}

fn deliver<A: Answering, K: Sink, E: Sink>(
    answering: &A,
    alloc: Global,
    input: Vec<u8>,
    sink: &mut K,
    notes: &mut E,
) -> Status
    requires { length input.items ≤ 16777216 }
    ensures { IsDelivered (A.task answering.now) result input.items
        (changed (K.written sink.old) (K.written sink.new) (K.faults sink.old) (K.faults sink.new))
        (changed (E.written notes.old) (E.written notes.new) (E.faults notes.old) (E.faults notes.new)) }
{
    let outcome = settle(answering, alloc, input);
    finish(outcome, sink, notes)
}

// Reads all, with a count of steps of its own.
fn read_input<S: Source, L: Ledger>(
    alloc: Global,
    source: &mut S,
    blank: Blank,
) -> Result<Vec<u8>, Stopped>
    requires name { blank.name ≡ L.name }
    requires parts { blank.parts ≡ L.parts }
    requires some { 0 < blank.parts }
    ensures all { IfOk result (λ input. Gave (changed (S.left source.old) (S.left source.new) (S.faults source.old) (S.faults source.new)) input.items) }
    ensures fault { IsErrOf result Stopped.Fault → Rose (S.faults source.old) (S.faults source.new) }
    ensures long { IsErrOf result Stopped.TooLong → (input : List ℕ) × GaveMore (changed (S.left source.old) (S.left source.new) (S.faults source.old) (S.faults source.new)) input }
{
    let mut steps = Steps::<L>::new(blank);
    read_all(alloc, source, &mut steps)
}

/// Reads all that the source gives, and writes the answer to the JSON value that its bytes say, or
/// tells in the notes why there is none.
///
/// The status says which: where the source tells its bytes, and they are JSON of a value that isn't
/// refused, nothing but want of memory and failures of the source and the sink is in the way.
pub fn run_answering<A: Answering, S: Source, K: Sink, E: Sink>(
    answering: &A,
    alloc: Global,
    source: &mut S,
    sink: &mut K,
    notes: &mut E,
) -> Status
    ensures due { IsReadDue (A.task answering.now) result
        (changed (S.left source.old) (S.left source.new) (S.faults source.old) (S.faults source.new))
        (changed (K.written sink.old) (K.written sink.new) (K.faults sink.old) (K.faults sink.new))
        (changed (E.written notes.old) (E.written notes.new) (E.faults notes.old) (E.faults notes.new)) }
    ensures answered { IsValidInput (A.task answering.now) (S.left source.old)
        → IsAnswered result (S.faults source.old) (S.faults source.new) (K.faults sink.old) (K.faults sink.new) }
{
    match read_input::<S, Brand>(alloc, source, Blank::new(1)) {
        Ok(input) => deliver(answering, alloc, input, sink, notes),
        Err(Stopped::Memory) => Status::OutOfMemory,
        Err(Stopped::Fault) => Status::ReadFault,
        Err(Stopped::TooLong) => Status::TooLong,
    }
}
