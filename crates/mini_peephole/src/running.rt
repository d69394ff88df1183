// From the bytes in to the bytes out.

ghost use Rattle.std.specs.Prelude.{◌≡◌, ◌<◌, ◌≤◌, ◌⊎◌, ℕ, List, length, Some, IfSome, IfOk, IfErr, OnOk, IsErrOf, string_bytes, false};
ghost use Rattle.mini_peephole.specs.Answer.{code_of, line_of, numbers_data, told_members, answer_text, answer_data, note_text, weights_text, HasAnswer, IsOutcome, IsOutcomeOf, IsFinished, IsDelivered, IsDeliveredOf, IsReadDue, IsDue, to_read, IsTold, Gave, GaveMore, IsValidInput, IsValidScript, IsAnswered};
ghost use Rattle.mini_peephole.specs.declared.minify.Minified.{Minified};
ghost use Rattle.mini_peephole.specs.Minified.{IsRefusal};
ghost use Rattle.mini_run.specs.Causes.{Rose};
ghost use Rattle.mini_run.specs.Words.{NameOrders};
ghost use Rattle.serde_json.specs.Data.{put as with_member};
ghost use Rattle.serde_json.specs.Read.{read};
ghost use Rattle.serde_json.specs.View.{view, members_view};
ghost use Rattle.serde_json.specs.Written.{has_float};
ghost use Rattle.mini_model.specs.Faults.{fault_of};
ghost use Rattle.mini_tree.specs.declared.options.CompressOptions.{CompressOptions};
ghost use Rattle.mini_writer.specs.Fits.{Fits};

use crate::minify::{Minified, Weighed, minify_value, weigh_value};
use mini_estree::MinifyError;
use mini_run::{Sink, Source, Steps, Stopped, Words, generate, read_all, read_orders, write_all};
use mini_tree::{CompressOptions, Numbers};
use serde_json::{Map, Value, put};
use std::alloc::{AllocError, Global};
use std::marker::Brand;
use std::sync::ledger::{Blank, Ledger};

/// How a run ended.
#[derive(Clone, Copy, PartialEq, Eq, Debug)]
pub enum Status {
    /// The whole answer was written.
    Done,
    /// A word is none that a run takes, or stands twice.
    BadWords,
    /// The bytes are no UTF-8 or no JSON, or nest too deep.
    NotJson,
    /// The JSON is no program that is read, or one with an early error.
    Refused,
    /// The source failed.
    ReadFault,
    /// The sink failed.
    WriteFault,
    /// The source gave more than 16,777,216 bytes.
    TooLong,
    /// No memory was left.
    OutOfMemory,
}

impl Status {
    /// The number that the process ends with.
    pub fn code(&self) -> u8
        ensures { result ≡ code_of self.now }
    {
        match self {
            Status::Done => 0,
            Status::BadWords => 1,
            Status::NotJson => 2,
            Status::Refused => 3,
            Status::ReadFault => 4,
            Status::WriteFault => 5,
            Status::TooLong => 6,
            Status::OutOfMemory => 7,
        }
    }
}

/// The outcome of a whole input: its answer's text, or why there is none.
#[derive(Drop)]
pub enum Outcome {
    /// The answer's text.
    Answer(String),
    /// The input is no JSON.
    Unread,
    /// The program is refused.
    Faulty(MinifyError),
    /// No memory was left.
    NoRoom,
}

#[tactic(auto, unfolding(crate::specs::Answer::line_of))]
fn line(alloc: Global, value: &Value) -> Result<String, AllocError>
    requires { has_float (view value.now) ≡ false }
    ensures { IfOk result (λ text. string_bytes text ≡ line_of (view value.now)) }
{
    let mut text = value.to_string(alloc)?;
    text.push('\n')?;
    Ok(text)
}

fn numbers_value(alloc: Global, numbers: &Numbers) -> Result<Value, AllocError>
    ensures { IfOk result (λ value. view value ≡ numbers_data numbers.now) }
{
    let mut values: Vec<Value> = Vec::new(alloc);
    'numbers: for number in numbers.as_slice() {
        values.push(Value::from(*number))?;
    }
    Ok(Value::from(values))
}

fn put_numbers(
    alloc: Global,
    members: &mut Map<String, Value>,
    key: &str,
    numbers: &Numbers,
) -> Result<(), AllocError>
    ensures { OnOk result (members_view members.new.entries ≡ with_member key.now (numbers_data numbers.now) (members_view members.old.entries)) }
{
    let value = numbers_value(alloc, numbers)?;
    put(members, alloc, key, value)
}

// All that is told of an answer besides its program.
fn told(alloc: Global, minified: &Minified) -> Result<Map<String, Value>, AllocError>
    ensures { IfOk result (λ members. members_view members.entries ≡ told_members minified.now) }
{
    let mut members = Map::new(alloc);
    put_numbers(alloc, &mut members, "kept", &minified.kept)?;
    put(&mut members, alloc, "passes", Value::from(minified.passes))?;
    put(
        &mut members,
        alloc,
        "settled",
        Value::Bool(minified.settled),
    )?;
    put_numbers(alloc, &mut members, "symbols", &minified.symbols)?;
    Ok(members)
}

fn answer_value(alloc: Global, minified: Minified) -> Result<Value, AllocError>
    ensures { IfOk result (λ value. view value ≡ answer_data minified) }
{
    let mut members = told(alloc, &minified)?;
    put(&mut members, alloc, "program", minified.program)?;
    Ok(Value::Object(members))
}

fn answer(alloc: Global, minified: Minified) -> Result<String, AllocError>
    requires { has_float (view minified.program) ≡ false }
    ensures { IfOk result (λ text. string_bytes text ≡ answer_text minified) }
{
    let value = answer_value(alloc, minified)?;
    line(alloc, &value)
}

/// What a run does between reading and writing.
pub trait Minifier {
    // what is an answer to bytes, under some options
    ghost answers: { CompressOptions → List ℕ → Minified → Type 0 };

    /// The answer to a value that is given away. A value is refused for want of memory, or where it
    /// is no program that is read to the depth of the options, or one with an early error.
    fn minify(
        &self,
        alloc: Global,
        program: Value,
        options: &CompressOptions,
    ) -> Result<Minified, MinifyError>
        requires { Fits (view program) }
        ensures answered { IfOk result (λ m. (input : List ℕ) → read input ≡ Some (view program) → answers options.now input m) }
        ensures plain { IfOk result (λ m. has_float (view m.program) ≡ false) }
        ensures refused { IfErr result (λ e. IsRefusal (view program) options.now e) };
}

/// Rewrites, and nothing besides.
pub struct Rewriting;

impl Minifier for Rewriting {
    ghost answers = { λ o input m. HasAnswer o input m };

    fn minify(
        &self,
        alloc: Global,
        program: Value,
        options: &CompressOptions,
    ) -> Result<Minified, MinifyError> {
        minify_value(alloc, program, options)
    }
}

// The bytes are let go as soon as their value is there, and the value as soon as it is read.
fn settle<M: Minifier>(
    minifier: &M,
    alloc: Global,
    input: Vec<u8>,
    options: &CompressOptions,
) -> Outcome
    requires { length input.items ≤ 16777216 }
    ensures { IsOutcome M.answers options.now input.items result }
{
    let read = Value::from_slice(alloc, &input);
    drop(input);
    let value = match read {
        Ok(value) => value,
        Err(error) => {
            if error.is_memory() {
                return Outcome::NoRoom;
            }
            return Outcome::Unread;
        }
    };
    match minifier.minify(alloc, value, options) {
        Ok(minified) => match answer(alloc, minified) {
            Ok(text) => Outcome::Answer(text),
            Err(_) => Outcome::NoRoom,
        },
        Err(error) => {
            if error.is_memory() {
                return Outcome::NoRoom;
            }
            Outcome::Faulty(error)
        }
    }
}

#[tactic(auto, unfolding(crate::specs::Answer::note_text))]
fn note(alloc: Global, error: &MinifyError) -> Result<String, AllocError>
    ensures { IfOk result (λ text. IfSome (fault_of error.now) (λ f. string_bytes text ≡ note_text f)) }
{
    let mut told = String::new(alloc);
    told.push_str("refused: ")?;
    told.push_str(error.variant())?;
    told.push_str(" at ")?;
    told.push_str(error.place())?;
    told.push('\n')?;
    Ok(told)
}

// A fault of the notes changes no status.
fn tell<E: Sink>(notes: &mut E, line: &[u8])
    ensures { IsTold
        (record { before = E.written notes.old; after = E.written notes.new; faults_before = E.faults notes.old; faults_after = E.faults notes.new })
        line.now }
{
    match write_all(notes, line) {
        Ok(()) => (),
        Err(_) => (),
    }
}

// Writes what came out, or tells why nothing did.
fn finish<K: Sink, E: Sink>(alloc: Global, outcome: Outcome, sink: &mut K, notes: &mut E) -> Status
    ensures { IsFinished outcome result
        (record { before = K.written sink.old; after = K.written sink.new; faults_before = K.faults sink.old; faults_after = K.faults sink.new })
        (record { before = E.written notes.old; after = E.written notes.new; faults_before = E.faults notes.old; faults_after = E.faults notes.new }) }
{
    match outcome {
        Outcome::NoRoom => Status::OutOfMemory,
        Outcome::Unread => Status::NotJson,
        Outcome::Faulty(error) => match note(alloc, &error) {
            Ok(text) => {
                tell(notes, text.as_bytes());
                Status::Refused
            }
            Err(_) => Status::OutOfMemory,
        },
        Outcome::Answer(text) => match write_all(sink, text.as_bytes()) {
            Ok(()) => Status::Done,
            Err(_) => Status::WriteFault,
        },
    }
}

fn deliver<M: Minifier, K: Sink, E: Sink>(
    minifier: &M,
    alloc: Global,
    input: Vec<u8>,
    options: &CompressOptions,
    sink: &mut K,
    notes: &mut E,
) -> Status
    requires { length input.items ≤ 16777216 }
    ensures { IsDelivered M.answers result options.now input.items
        (record { before = K.written sink.old; after = K.written sink.new; faults_before = K.faults sink.old; faults_after = K.faults sink.new })
        (record { before = E.written notes.old; after = E.written notes.new; faults_before = E.faults notes.old; faults_after = E.faults notes.new }) }
{
    let outcome = settle(minifier, alloc, input, options);
    finish(alloc, outcome, sink, notes)
}

#[tactic(auto, unfolding(crate::specs::Answer::weights_text))]
fn weights_line(alloc: Global, n: u32, weighed: &Weighed) -> Result<String, AllocError>
    ensures { IfOk result (λ text. string_bytes text ≡ weights_text n weighed.now.before weighed.now.after weighed.now.minified.passes weighed.now.minified.settled) }
{
    let before = weighed.before;
    let after = weighed.after;
    let passes = weighed.minified.passes;
    let settled = weighed.minified.settled;
    format!(in alloc; "statements={n} weight={before}..{after} passes={passes} settled={settled}\n")
}

// What the script of n statements comes to.
fn settle_script(alloc: Global, n: u32, options: &CompressOptions) -> Outcome
    requires { n ≤ 2000 }
    ensures { IsOutcomeOf options.now n result }
{
    let value = match generate(alloc, n) {
        Ok(value) => value,
        Err(_) => return Outcome::NoRoom,
    };
    match weigh_value(alloc, value, options) {
        Ok(weighed) => match weights_line(alloc, n, &weighed) {
            Ok(text) => Outcome::Answer(text),
            Err(_) => Outcome::NoRoom,
        },
        Err(error) => {
            if error.is_memory() {
                return Outcome::NoRoom;
            }
            Outcome::Faulty(error)
        }
    }
}

fn deliver_script<K: Sink, E: Sink>(
    alloc: Global,
    n: u32,
    options: &CompressOptions,
    sink: &mut K,
    notes: &mut E,
) -> Status
    requires { n ≤ 2000 }
    ensures { IsDeliveredOf result options.now n
        (record { before = K.written sink.old; after = K.written sink.new; faults_before = K.faults sink.old; faults_after = K.faults sink.new })
        (record { before = E.written notes.old; after = E.written notes.new; faults_before = E.faults notes.old; faults_after = E.faults notes.new }) }
{
    let outcome = settle_script(alloc, n, options);
    finish(alloc, outcome, sink, notes)
}

// Reads all, with a count of steps of its own.
fn read_input<S: Source, L: Ledger>(
    alloc: Global,
    source: &mut S,
    blank: Blank,
) -> Result<Vec<u8>, Stopped>
    requires name { blank.name ≡ L.name }
    requires parts { blank.parts ≡ L.parts }
    requires some { 0 < blank.parts }
    ensures all { IfOk result (λ input. Gave
        (record { before = S.left source.old; after = S.left source.new; faults_before = S.faults source.old; faults_after = S.faults source.new })
        input.items) }
    ensures fault { IsErrOf result Stopped.Fault → Rose (S.faults source.old) (S.faults source.new) }
    ensures long { IsErrOf result Stopped.TooLong → (input : List ℕ) × GaveMore
        (record { before = S.left source.old; after = S.left source.new; faults_before = S.faults source.old; faults_after = S.faults source.new })
        input }
{
    let mut steps = Steps::<L>::new(blank);
    read_all(alloc, source, &mut steps)
}

/// Reads all that the source gives, makes an answer of it under these options, and writes that, or
/// tells why there is none.
pub fn run_read<M: Minifier, S: Source, K: Sink, E: Sink>(
    minifier: &M,
    alloc: Global,
    options: &CompressOptions,
    source: &mut S,
    sink: &mut K,
    notes: &mut E,
) -> Status
    ensures { (words : List (List ℕ)) → NameOrders words (to_read options.now) → IsReadDue M.answers result words
        (record { before = S.left source.old; after = S.left source.new; faults_before = S.faults source.old; faults_after = S.faults source.new })
        (record { before = K.written sink.old; after = K.written sink.new; faults_before = K.faults sink.old; faults_after = K.faults sink.new })
        (record { before = E.written notes.old; after = E.written notes.new; faults_before = E.faults notes.old; faults_after = E.faults notes.new }) }
{
    match read_input::<S, Brand>(alloc, source, Blank::new(1)) {
        Ok(input) => deliver(minifier, alloc, input, options, sink, notes),
        Err(Stopped::Memory) => Status::OutOfMemory,
        Err(Stopped::Fault) => Status::ReadFault,
        Err(Stopped::TooLong) => Status::TooLong,
    }
}

/// Reads the words and all that the source gives, minifies it, and writes the answer, or tells why
/// there is none. Where the words order a script of some statements, that is minified in place of
/// what is read, and what it weighs before and after is written.
pub fn run<S: Source, K: Sink, E: Sink>(
    alloc: Global,
    words: &Words,
    source: &mut S,
    sink: &mut K,
    notes: &mut E,
) -> Status
    ensures due { IsDue result words.now
        (record { before = S.left source.old; after = S.left source.new; faults_before = S.faults source.old; faults_after = S.faults source.new })
        (record { before = K.written sink.old; after = K.written sink.new; faults_before = K.faults sink.old; faults_after = K.faults sink.new })
        (record { before = E.written notes.old; after = E.written notes.new; faults_before = E.faults notes.old; faults_after = E.faults notes.new }) }
    ensures answered { (IsValidInput words.now (S.left source.old) ⊎ IsValidScript words.now)
        → IsAnswered result (S.faults source.old) (S.faults source.new) (K.faults sink.old) (K.faults sink.new) }
{
    let orders = match read_orders(words) {
        Some(orders) => orders,
        None => return Status::BadWords,
    };
    match orders.generate {
        None => run_read(&Rewriting, alloc, &orders.options, source, sink, notes),
        Some(n) => deliver_script(alloc, n, &orders.options, sink, notes),
    }
}
