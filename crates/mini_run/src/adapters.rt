// Standard input, output and error as a source and sinks.

ghost use Rattle.std.specs.Prelude.{◌≡◌, ℕ};
ghost use Rattle.mini_run.specs.Causes.{Rose, HasCause};

use crate::outside::{Failed, Sink, Source};
use std::io::{Read, Write};

/// A reader of std, with a count of its errors.
#[derive(Drop)]
pub struct StdSource<R: Read> {
    inner: R,
    faults: u64,
}

impl<R: Read> StdSource<R> {
    /// The reader, with no errors so far.
    pub fn new(inner: R) -> StdSource<R>
        ensures { result ≡ record { inner = inner; faults = 0 } }
    {
        StdSource { inner, faults: 0 }
    }
}

impl<R: Read> Source for StdSource<R> {
    ghost left = { λ source. R.remaining source.inner };

    ghost faults = { λ source. source.faults };

    fn read(&mut self, piece: &mut [u8]) -> Result<usize, Failed> {
        match self.inner.read(piece) {
            Ok(count) => Ok(count),
            Err(_) => {
                self.faults = self.faults.saturating_add(1);
                Err(Failed)
            }
        }
    }
}

/// A writer of std, with a count of its errors.
#[derive(Drop)]
pub struct StdSink<W: Write> {
    inner: W,
    faults: u64,
}

impl<W: Write> StdSink<W> {
    /// The writer, with no errors so far.
    pub fn new(inner: W) -> StdSink<W>
        ensures { result ≡ record { inner = inner; faults = 0 } }
    {
        StdSink { inner, faults: 0 }
    }
}

impl<W: Write> Sink for StdSink<W> {
    ghost written = { λ sink. W.contents sink.inner };

    ghost faults = { λ sink. sink.faults };

    fn write(&mut self, piece: &[u8]) -> Result<usize, Failed> {
        match self.inner.write(piece) {
            Ok(count) => {
                if count == 0 && !piece.is_empty() {
                    self.faults = self.faults.saturating_add(1);
                }
                Ok(count)
            }
            Err(_) => {
                self.faults = self.faults.saturating_add(1);
                Err(Failed)
            }
        }
    }
}
