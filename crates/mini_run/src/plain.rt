// A source and a sink that never fail.

ghost use Rattle.std.specs.Prelude.{◌≡◌, ◌+◌, ◌-◌, ◌^◌, ◌<◌, ◌≤◌, Some, None, Ok, length, min, take, drop};
ghost use Rattle.std.specs.Io.{ReadsAtMost, WritesAtMost};
ghost use Rattle.std.specs.Io.KnownBytes.{ReadConsumes, WriteAppends};
ghost use Rattle.mini_run.specs.Causes.{Rose, HasCause};

use crate::outside::{Failed, Sink, Source};
use std::marker::Model;

/// Gives the bytes that it was made with. A call moves as many as the piece has room for, and never
/// fails.
#[derive(Drop)]
pub struct PlainSource {
    bytes: Vec<u8>,
    at: usize,
}

impl Model for PlainSource {
    ghost use Rattle.std.specs.Prelude.{◌≤◌, ℕ, List, length, drop};

    ghost Value = { List ℕ };

    ghost view = { λ source. drop source.at source.bytes.items };

    ghost invariant = { λ source. source.at ≤ length source.bytes.items };
}

impl PlainSource {
    /// All the bytes are still to come.
    pub fn new(bytes: Vec<u8>) -> PlainSource
        ensures { result ≡ bytes.items }
    {
        PlainSource { bytes, at: 0 }
    }

    /// The bytes still to come.
    pub fn left(&self) -> &[u8]
        ensures { result.now ≡ self.now }
    {
        &self.bytes[self.at..]
    }
}

// Copies the front of the bytes.
fn copy_front(piece: &mut [u8], bytes: &[u8], count: usize)
    requires room { count ≤ length piece.old }
    requires there { count ≤ length bytes.now }
    ensures { take count piece.new ≡ take count bytes.now }
{
    piece[..count].copy_from_slice(&bytes[..count]);
}

impl Source for PlainSource {
    ghost left = { λ source. Some source };

    ghost faults = { λ source. 0 };

    fn read(&mut self, piece: &mut [u8]) -> Result<usize, Failed>
        ensures bound { ReadsAtMost result piece.new }
        ensures bytes { ReadConsumes (Some self.old) (Some self.new) result piece.new }
        ensures cause { HasCause 0 0 result }

        ensures count { result ≡ Ok (min (length piece.new) (length self.old)) }
        ensures left { self.new ≡ drop (min (length piece.new) (length self.old)) self.old }
    {
        let count = piece.len().min(self.bytes.len() - self.at);
        copy_front(piece, &self.bytes[self.at..], count);
        self.at += count;
        Ok(count)
    }
}

/// Takes each piece whole, and keeps how many bytes that were, up to the greatest u64. It never
/// fails, and doesn't tell the bytes.
#[derive(Drop)]
pub struct PlainSink {
    taken: u64,
}

impl Model for PlainSink {
    ghost use Rattle.std.specs.Prelude.{ℕ};

    ghost Value = { ℕ };

    ghost view = { λ sink. sink.taken };
}

impl PlainSink {
    /// No byte was taken.
    pub fn new() -> PlainSink
        ensures { result ≡ 0 }
    {
        PlainSink { taken: 0 }
    }

    /// How many bytes it took.
    pub fn taken(&self) -> u64
        ensures { result ≡ self.now }
    {
        self.taken
    }
}

impl Sink for PlainSink {
    ghost written = { λ sink. None };

    ghost faults = { λ sink. 0 };

    fn write(&mut self, piece: &[u8]) -> Result<usize, Failed>
        ensures bound { WritesAtMost result piece.now }
        ensures bytes { WriteAppends None None result piece.now }
        ensures cause { HasCause 0 0 result }
        ensures none { result ≡ Ok 0 → 0 < length piece.now → Rose 0 0 }

        ensures whole { result ≡ Ok (length piece.now) }
        ensures taken { self.new ≡ min (self.old + length piece.now) (2 ^ 64 - 1) }
    {
        self.taken = self.taken.saturating_add(piece.len() as u64);
        Ok(piece.len())
    }
}
