// From the bytes in to the bytes out.

ghost use Rattle.std.specs.Prelude.{◌≡◌, MatchOption};
ghost use Rattle.mini_cli.specs.Run.{changed, IsDue, IsValidInput, IsAnswered};
ghost use Rattle.mini_tree.specs.declared.options.CompressOptions.{CompressOptions};
ghost use Rattle.mini_certificate.specs.Checked.{check_task, log_task, NameOptions};

use crate::checking::Checking;
use crate::logging::Logging;
use mini_cli::{Status, run_answering};
use mini_run::{Sink, Source, Words, read_orders};
use mini_tree::CompressOptions;
use std::alloc::Global;

// The options that the words name; None where they are not good, or ask for a program to be
// generated.

fn options_of(words: &Words) -> Option<CompressOptions>
    ensures { MatchOption result ((o : CompressOptions) → NameOptions words.now o → ⊥) (NameOptions words.now) }
{
    match read_orders(words) {
        Some(orders) => match orders.generate {
            None => Some(orders.options),
            Some(_) => None,
        },
        None => None,
    }
}

/// Reads the words and the certificate that the source gives as JSON, a program with a log of
/// rewrites of it, and checks the log. Where each entry in turn has a step, it writes the last
/// program; else it tells in the notes which entry is the first that has none, or why what was read
/// is no certificate. Words that order a program to be generated are bad here.
///
/// With `Done` the program that is written keeps all that the one read has to keep, whoever wrote
/// the log, and is lighter by at least the number of entries.
pub fn run_check<S: Source, K: Sink, E: Sink>(
    alloc: Global,
    words: &Words,
    source: &mut S,
    sink: &mut K,
    notes: &mut E,
) -> Status
    ensures due { IsDue NameOptions check_task result words.now
        (changed (S.left source.old) (S.left source.new) (S.faults source.old) (S.faults source.new))
        (changed (K.written sink.old) (K.written sink.new) (K.faults sink.old) (K.faults sink.new))
        (changed (E.written notes.old) (E.written notes.new) (E.faults notes.old) (E.faults notes.new)) }
    ensures answered { (o : CompressOptions) → NameOptions words.now o → IsValidInput (check_task o) (S.left source.old)
        → IsAnswered result (S.faults source.old) (S.faults source.new) (K.faults sink.old) (K.faults sink.new) }
{
    match options_of(words) {
        Some(options) => run_answering(&Checking { options }, alloc, source, sink, notes),
        None => Status::BadWords,
    }
}

/// Reads the words and the program that the source gives as JSON, makes steps of it by the rows of
/// a log until none is left, and writes the certificate of that: the program as it was read, and
/// the log. Words that order a program to be generated are bad here.
///
/// With `Done` a check of what is written under the same words leads to a program of which no row
/// has a step.
pub fn run_log<S: Source, K: Sink, E: Sink>(
    alloc: Global,
    words: &Words,
    source: &mut S,
    sink: &mut K,
    notes: &mut E,
) -> Status
    ensures due { IsDue NameOptions log_task result words.now
        (changed (S.left source.old) (S.left source.new) (S.faults source.old) (S.faults source.new))
        (changed (K.written sink.old) (K.written sink.new) (K.faults sink.old) (K.faults sink.new))
        (changed (E.written notes.old) (E.written notes.new) (E.faults notes.old) (E.faults notes.new)) }
    ensures answered { (o : CompressOptions) → NameOptions words.now o → IsValidInput (log_task o) (S.left source.old)
        → IsAnswered result (S.faults source.old) (S.faults source.new) (K.faults sink.old) (K.faults sink.new) }
{
    match options_of(words) {
        Some(options) => run_answering(&Logging { options }, alloc, source, sink, notes),
        None => Status::BadWords,
    }
}
