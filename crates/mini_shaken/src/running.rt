//! From the bytes in to the bytes out.

ghost use Rattle.std.specs.Prelude.{◌≡◌};
ghost use Rattle.mini_peephole.specs.Answer.{IsReadDue, IsValidInput, IsAnswered};
ghost use Rattle.mini_shaken.specs.Shaken.{HasShaken};

use crate::shake::shake_value;
use mini_estree::MinifyError;
use mini_peephole::{Minified, Minifier, Status, run_read};
use mini_run::{Sink, Source, Words, read_orders};
use mini_tree::CompressOptions;
use serde_json::Value;
use std::alloc::Global;

/// Takes out what is dead and rewrites what is left, in turn.
pub struct Shaking;

impl Minifier for Shaking {
    ghost answers = { λ o input m. HasShaken o input m };

    fn minify(
        &self,
        alloc: Global,
        program: Value,
        options: &CompressOptions,
    ) -> Result<Minified, MinifyError> {
        shake_value(alloc, program, options)
    }
}

/// Reads the words and all that the source gives, takes out what is dead and rewrites what is left,
/// in turn, and writes the answer, or tells why there is none. Words that order a script to be
/// generated are bad here.
pub fn run<S: Source, K: Sink, E: Sink>(
    alloc: Global,
    words: &Words,
    source: &mut S,
    sink: &mut K,
    notes: &mut E,
) -> Status
    ensures due { IsReadDue HasShaken result words.now
        (record { before = S.left source.old; after = S.left source.new; faults_before = S.faults source.old; faults_after = S.faults source.new })
        (record { before = K.written sink.old; after = K.written sink.new; faults_before = K.faults sink.old; faults_after = K.faults sink.new })
        (record { before = E.written notes.old; after = E.written notes.new; faults_before = E.faults notes.old; faults_after = E.faults notes.new }) }
    ensures answered { IsValidInput words.now (S.left source.old) → IsAnswered result (S.faults source.old) (S.faults source.new) (K.faults sink.old) (K.faults sink.new) }
{
    let orders = match read_orders(words) {
        Some(orders) => orders,
        None => return Status::BadWords,
    };
    match orders.generate {
        None => run_read(&Shaking, alloc, &orders.options, source, sink, notes),
        Some(_) => Status::BadWords,
    }
}
