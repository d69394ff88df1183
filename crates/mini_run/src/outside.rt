// What a run reads and writes.

ghost use Rattle.std.specs.Prelude.{◌≡◌, ◌+◌, ℕ, List, Option, ◌≤◌, ◌<◌, length, vec_len, IfOk, OnOk, OnErr, IsErrOf, Ok};
ghost use Rattle.std.specs.Io.{ReadsAtMost, WritesAtMost};
ghost use Rattle.std.specs.Io.KnownBytes.{ReadConsumes, WriteAppends, Consumes, Appends, IsAtEnd};
ghost use Rattle.mini_run.specs.Causes.{Rose, HasCause, GrewWithin};

use crate::steps::Steps;
use std::alloc::Global;
use std::sync::ledger::Ledger;

/// A call outside failed.
#[derive(Clone, Copy)]
pub struct Failed;

/// A source of bytes, such as standard input.
pub trait Source {
    // the bytes still to come, where it tells them
    ghost left: { Self → Option (List ℕ) };

    // how often it failed
    ghost faults: { Self → ℕ };

    /// Fills the front of the piece with the next bytes, and answers how many. 0 for a piece with
    /// room is the end.
    fn read(&mut self, piece: &mut [u8]) -> Result<usize, Failed>
        ensures bound { ReadsAtMost result piece.new }
        ensures bytes { ReadConsumes (left self.old) (left self.new) result piece.new }
        ensures cause { HasCause (faults self.old) (faults self.new) result };
}

/// A sink of bytes, such as standard output.
pub trait Sink {
    // the bytes that it took, where it tells them
    ghost written: { Self → Option (List ℕ) };

    // how often it failed
    ghost faults: { Self → ℕ };

    /// Takes a beginning of the piece, and answers how long. To take nothing of a piece that isn't
    /// empty is a fault.
    fn write(&mut self, piece: &[u8]) -> Result<usize, Failed>
        ensures bound { WritesAtMost result piece.now }
        ensures bytes { WriteAppends (written self.old) (written self.new) result piece.now }
        ensures cause { HasCause (faults self.old) (faults self.new) result }
        ensures none { result ≡ Ok 0 → 0 < length piece.now → Rose (faults self.old) (faults self.new) };
}

/// Why reading stopped before the end.
#[derive(Clone, Copy)]
pub enum Stopped {
    /// No memory was left.
    Memory,
    /// The source failed.
    Fault,
    /// The source gave more than `LIMIT` bytes.
    TooLong,
}

/// How many bytes are read at most.
pub const LIMIT: usize = 16_777_216;

/// How many bytes are asked for at once.
const PIECE: usize = 16_384;

// One call of the source, which is one step.
fn read_step<S: Source, L: Ledger>(
    source: &mut S,
    piece: &mut [u8],
    steps: &mut Steps<L>,
) -> Result<usize, Failed>
    ensures bound { ReadsAtMost result piece.new }
    ensures bytes { ReadConsumes (S.left source.old) (S.left source.new) result piece.new }
    ensures cause { HasCause (S.faults source.old) (S.faults source.new) result }
    ensures step { steps.new ≡ steps.old + 1 }
{
    steps.tick();
    source.read(piece)
}

/// All the bytes that are left, up to `LIMIT`. A step is a call of the source, and each turn of the
/// loop makes one: each but the last takes at least one byte.
pub fn read_all<S: Source, L: Ledger>(
    alloc: Global,
    source: &mut S,
    steps: &mut Steps<L>,
) -> Result<Vec<u8>, Stopped>
    ensures bytes { IfOk result (λ input. Consumes (S.left source.old) (S.left source.new) input.items) }
    ensures end { OnOk result (IsAtEnd (S.left source.new)) }
    ensures short { IfOk result (λ input. length input.items ≤ LIMIT) }
    ensures later { S.faults source.old ≤ S.faults source.new }
    ensures fault { IsErrOf result Stopped.Fault → Rose (S.faults source.old) (S.faults source.new) }
    ensures long { IsErrOf result Stopped.TooLong → (bytes : List ℕ) × (LIMIT < length bytes)
        × Consumes (S.left source.old) (S.left source.new) bytes × (steps.new ≤ steps.old + length bytes) }
    ensures turns { steps.new ≤ steps.old + 16777217 }
    ensures one_each { IfOk result (λ input. steps.new ≤ steps.old + length input.items + 1) }
{
    let mut piece = [0u8; PIECE];
    let mut input: Vec<u8> = Vec::new(alloc);
    'reading: while input.len() <= LIMIT {
        let count = match read_step(source, &mut piece, steps) {
            Ok(count) => count,
            Err(_) => return Err(Stopped::Fault),
        };
        if count == 0 {
            return Ok(input);
        }
        if input.extend_from_slice(&piece[..count]).is_err() {
            return Err(Stopped::Memory);
        }
    }
    Err(Stopped::TooLong)
}

/// Writes the bytes: all of them, or a beginning where the sink failed. Each call is given all that
/// is left.
pub fn write_all<K: Sink>(sink: &mut K, bytes: &[u8]) -> Result<(), Failed>
    ensures ok { OnOk result (Appends (K.written sink.old) (K.written sink.new) bytes.now) }
    ensures part { GrewWithin (K.written sink.old) (K.written sink.new) bytes.now }
    ensures cause { HasCause (K.faults sink.old) (K.faults sink.new) result }
{
    let mut at = 0;
    'writing: while at < bytes.len() {
        let count = sink.write(&bytes[at..])?;
        if count == 0 {
            return Err(Failed);
        }
        at += count;
    }
    Ok(())
}
