// From the bytes in to the bytes out.

ghost use Rattle.mini_cli.specs.Run.{changed, IsDue, IsReadDue, IsValidInput, IsAnswered};
ghost use Rattle.mini_texts.specs.Options.{NameTextOrders};
ghost use Rattle.mini_texts.specs.Minified.{ordered_task};
ghost use Rattle.mini_texts.specs.declared.options.TextOrders.{TextOrders};

use crate::minifying::Minifying;
use crate::options::{TextOptions, TextOrders, read_text_orders};
use crate::printing::Printing;
use mini_cli::{Status, run_answering};
use mini_run::{Sink, Source, Words};
use std::alloc::Global;

// Reads all that the source gives, and does what is ordered.
fn run_orders<S: Source, K: Sink, E: Sink>(
    alloc: Global,
    orders: &TextOrders,
    source: &mut S,
    sink: &mut K,
    notes: &mut E,
) -> Status
    ensures due { IsReadDue (ordered_task orders.now) result
        (changed (S.left source.old) (S.left source.new) (S.faults source.old) (S.faults source.new))
        (changed (K.written sink.old) (K.written sink.new) (K.faults sink.old) (K.faults sink.new))
        (changed (E.written notes.old) (E.written notes.new) (E.faults notes.old) (E.faults notes.new)) }
    ensures answered { IsValidInput (ordered_task orders.now) (S.left source.old)
        → IsAnswered result (S.faults source.old) (S.faults source.new) (K.faults sink.old) (K.faults sink.new) }
{
    let spaced = orders.spaced;
    let options = orders.options;
    if orders.minify {
        run_answering(&Minifying { spaced, options }, alloc, source, sink, notes)
    } else {
        let max_depth = options.max_depth;
        let options = TextOptions { spaced, max_depth };
        run_answering(&Printing { options }, alloc, source, sink, notes)
    }
}

/// Reads the words and all that the source gives, and writes the text of the program that its bytes
/// say as JSON, and a newline; or tells in the notes why there is none. Where the words say
/// `--minify`, the program is minified, and the text is that of the answer.
///
/// With `Done` the bytes written split into the program's tokens and no others, and these group to
/// the program and to no other; of one that was minified, to an answer that is faithful to it.
pub fn run_text<S: Source, K: Sink, E: Sink>(
    alloc: Global,
    words: Words,
    source: &mut S,
    sink: &mut K,
    notes: &mut E,
) -> Status
    ensures due { IsDue NameTextOrders ordered_task result words
        (changed (S.left source.old) (S.left source.new) (S.faults source.old) (S.faults source.new))
        (changed (K.written sink.old) (K.written sink.new) (K.faults sink.old) (K.faults sink.new))
        (changed (E.written notes.old) (E.written notes.new) (E.faults notes.old) (E.faults notes.new)) }
    ensures answered { (o : TextOrders) → NameTextOrders words o → IsValidInput (ordered_task o) (S.left source.old)
        → IsAnswered result (S.faults source.old) (S.faults source.new) (K.faults sink.old) (K.faults sink.new) }
{
    let mut words = words;
    match read_text_orders(&mut words) {
        Some(orders) => run_orders(alloc, &orders, source, sink, notes),
        None => Status::BadWords,
    }
}
