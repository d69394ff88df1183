// A source and a sink in memory, for tests.

ghost use Rattle.std.specs.Prelude.{◌≡◌, ◌↔◌, ◌⊎◌, ◌+◌, ◌-◌, ◌<◌, ◌≤◌, ◌++◌, [], ℕ, List, Some, Ok, IsTrue, IfOk, OnErr, IsErr, length, take, true, false};
ghost use Rattle.std.specs.Io.{ReadsAtMost, WritesAtMost};
ghost use Rattle.std.specs.Io.KnownBytes.{ReadConsumes, WriteAppends};
ghost use Rattle.mini_run.specs.Causes.{Rose, HasCause};
ghost use Rattle.mini_run.specs.Memory.{IsListed, after_call, after_fault, moved, after_read, after_failed_read, after_failed_write};

use crate::outside::{Failed, Sink, Source};
use crate::plain::PlainSource;
use mini_model::OutOfMemory;
use std::alloc::Global;
use std::marker::Model;

/// Which calls fail, and the most bytes that another moves.
#[derive(Drop)]
struct Plan {
    limit: usize,
    fails: Vec<u32>,
    calls: u64,
    faults: u64,
}

impl Model for Plan {
    ghost use Rattle.mini_run.specs.Memory.{Schedule};

    ghost Value = { Schedule };

    ghost view = { λ plan. record { limit = plan.limit; fails = plan.fails.items; calls = plan.calls; faults = plan.faults } };
}

impl Plan {
    fn new(limit: usize, fails: Vec<u32>) -> Plan
        ensures { result ≡ record { limit = limit; fails = fails.items; calls = 0; faults = 0 } }
    {
        Plan {
            limit,
            fails,
            calls: 0,
            faults: 0,
        }
    }

    // Whether the next call fails.
    fn is_listed(&self) -> bool
        ensures { IsTrue result ↔ IsListed self.now }
    {
        match u32::try_from(self.calls.saturating_add(1)) {
            Ok(number) => self.fails.contains(&number),
            Err(_) => false,
        }
    }

    // Counts a call, and its fault where it fails.
    fn count(&mut self, fails: bool)
        ensures ok { fails ≡ false → self.new ≡ after_call self.old }
        ensures err { fails ≡ true → self.new ≡ after_fault self.old }
        ensures later { self.old.faults ≤ self.new.faults }
        ensures rose { fails ≡ true → Rose self.old.faults self.new.faults }
    {
        self.calls = self.calls.saturating_add(1);
        if fails {
            self.faults = self.faults.saturating_add(1);
        }
    }

    // How many bytes a call moves.
    fn moved(&self, piece: usize, there: usize) -> usize
        ensures { result ≡ moved self.now piece there }
    {
        let most = if self.limit == 0 { 1 } else { self.limit };
        most.min(piece.min(there))
    }
}

/// Gives the bytes that it was made with. Calls are counted from 1 up to the greatest u32; those
/// past it have no number. A call fails exactly where its number is one of `fails`, and any other
/// moves at most `limit` bytes, or 1.
#[derive(Drop)]
pub struct MemSource {
    rest: PlainSource,
    plan: Plan,
}

impl Model for MemSource {
    ghost use Rattle.mini_run.specs.Memory.{Supply};

    ghost Value = { Supply };

    ghost view = { λ source. record { left = source.rest; schedule = source.plan } };
}

impl MemSource {
    /// All the bytes are still to come, at most `limit` a call; `fails` has the numbers of the
    /// calls that fail.
    pub fn new(bytes: Vec<u8>, limit: usize, fails: Vec<u32>) -> MemSource
        ensures { result ≡ record { left = bytes.items; schedule = record { limit = limit; fails = fails.items; calls = 0; faults = 0 } } }
    {
        MemSource {
            rest: PlainSource::new(bytes),
            plan: Plan::new(limit, fails),
        }
    }

    /// The bytes still to come.
    pub fn left(&self) -> &[u8]
        ensures { result.now ≡ self.now.left }
    {
        self.rest.left()
    }
}

impl Source for MemSource {
    ghost left = { λ source. Some source.left };

    ghost faults = { λ source. source.schedule.faults };

    fn read(&mut self, piece: &mut [u8]) -> Result<usize, Failed>
        ensures bound { ReadsAtMost result piece.new }
        ensures bytes { ReadConsumes (Some self.old.left) (Some self.new.left) result piece.new }
        ensures cause { HasCause self.old.schedule.faults self.new.schedule.faults result }

        ensures fails { IsErr result ↔ IsListed self.old.schedule }
        ensures count { IfOk result (λ n. n ≡ moved self.old.schedule (length piece.new) (length self.old.left)) }
        ensures ok { IfOk result (λ n. self.new ≡ after_read self.old n) }
        ensures err { OnErr result (self.new ≡ after_failed_read self.old) }
    {
        let fails = self.plan.is_listed();
        self.plan.count(fails);
        if fails {
            return Err(Failed);
        }
        let count = self.plan.moved(piece.len(), self.rest.left().len());
        self.rest.read(&mut piece[..count])
    }
}

/// Takes bytes up to the room that it was made with. Calls are counted from 1 up to the greatest
/// u32; those past it have no number. A call fails exactly where its number is one of `fails`, or
/// where a piece that isn't empty finds no room; any other moves at most `limit` bytes, or 1.
#[derive(Drop)]
pub struct MemSink {
    bytes: Vec<u8>,
    room: usize,
    plan: Plan,
}

impl Model for MemSink {
    ghost use Rattle.std.specs.Prelude.{◌+◌, ◌≤◌, vec_len, vec_capacity};
    ghost use Rattle.mini_run.specs.Memory.{Store};

    ghost Value = { Store };

    ghost view = { λ sink. record { written = sink.bytes.items; room = sink.room; schedule = sink.plan } };

    ghost invariant = { λ sink. vec_len sink.bytes + sink.room ≤ vec_capacity sink.bytes };
}

impl MemSink {
    /// Takes the memory for all the room. No later call takes memory.
    pub fn new(
        alloc: Global,
        room: usize,
        limit: usize,
        fails: Vec<u32>,
    ) -> Result<MemSink, OutOfMemory>
        ensures { IfOk result (λ sink. sink ≡ record { written = []; room = room; schedule = record { limit = limit; fails = fails.items; calls = 0; faults = 0 } }) }
    {
        match Vec::with_capacity(alloc, room) {
            Ok(bytes) => Ok(MemSink {
                bytes,
                room,
                plan: Plan::new(limit, fails),
            }),
            Err(_) => Err(OutOfMemory),
        }
    }

    /// The bytes that it took.
    pub fn written(&self) -> &[u8]
        ensures { result.now ≡ self.now.written }
    {
        self.bytes.as_slice()
    }
}

impl Sink for MemSink {
    ghost written = { λ sink. Some sink.written };

    ghost faults = { λ sink. sink.schedule.faults };

    fn write(&mut self, piece: &[u8]) -> Result<usize, Failed>
        ensures bound { WritesAtMost result piece.now }
        ensures bytes { WriteAppends (Some self.old.written) (Some self.new.written) result piece.now }
        ensures cause { HasCause self.old.schedule.faults self.new.schedule.faults result }
        ensures none { result ≡ Ok 0 → 0 < length piece.now → Rose self.old.schedule.faults self.new.schedule.faults }

        ensures fails { IsErr result ↔ (IsListed self.old.schedule ⊎ ((self.old.room ≡ 0) × (0 < length piece.now))) }
        ensures count { IfOk result (λ n. n ≡ moved self.old.schedule (length piece.now) self.old.room) }
        ensures ok { IfOk result (λ n. self.new ≡ record { written = self.old.written ++ take n piece.now; room = self.old.room - n; schedule = after_call self.old.schedule }) }
        ensures err { OnErr result (self.new ≡ after_failed_write self.old) }
    {
        let fails = self.plan.is_listed() || (self.room == 0 && !piece.is_empty());
        self.plan.count(fails);
        if fails {
            return Err(Failed);
        }
        let count = self.plan.moved(piece.len(), self.room);
        self.bytes.extend_from_slice(&piece[..count]).unwrap();
        self.room -= count;
        Ok(count)
    }
}
