//! Sources and sinks in memory, with calls that fail.

ghost use Rattle.std.specs.Prelude.{◌≡◌, ◌≤◌, ◌↔◌, length, Contains};
ghost use Rattle.dns_io.specs.Causes.{Observed};
ghost use Rattle.dns_io.specs.Moves.{ReadMoves, ReadBound, ReadCause, WriteMoves, WriteBound, WriteCause};
ghost use Rattle.dns_memory.specs.Memory.{Supplies, Stores, next};

use crate::listed_calls::FailingCalls;
use crate::octet_replay::OctetReplay;
use dns_io::{Sink, SinkWrite, Source, SourceRead};
use std::marker::Model;

/// A source over a vector, which tells what is left. The calls whose numbers are listed fail, and no others.
#[derive(Drop)]
pub struct MemorySource {
    octets: OctetReplay,
    most: usize,
    calls: FailingCalls,
}

impl Model for MemorySource {
    ghost use Rattle.dns_memory.specs.Memory.{Supply};

    ghost Value = { Supply };

    ghost view = { λ s. record {
      left = s.octets.left;
      most = s.most;
      failing = s.calls.listed.items;
      calls = s.calls.made;
      faults = s.calls.faults;
    } };
}

impl MemorySource {
    /// Gives at most `most` octets a call, and at least one. `failing` lists the numbers of the calls that fail, from
    /// 0.
    pub fn new(octets: Vec<u8>, failing: Vec<u64>, most: usize) -> MemorySource
        ensures { result ≡ record { left = octets.items; most = most; failing = failing.items; calls = 0; faults = 0 } }
    {
        MemorySource {
            octets: OctetReplay::new(octets),
            most,
            calls: FailingCalls::of(failing),
        }
    }

    /// The octets that weren't read yet.
    pub fn left(&self) -> &[u8]
        ensures { result.now ≡ self.now.left }
    {
        self.octets.left()
    }
}

impl Source for MemorySource {
    ghost tells = { λ _. Unit {0} };

    ghost left = { λ s. s.left };

    ghost faults = { λ s. s.faults };

    fn read(&mut self, buf: &mut [u8]) -> SourceRead
        ensures moves { Observed (Unit {0}) (Unit {0}) (ReadMoves result buf.new self.old.left self.new.left) }
        ensures bound { ReadBound result buf.new }
        ensures later { self.old.faults ≤ self.new.faults }
        ensures cause { ReadCause result self.old.faults self.new.faults }
        ensures gives { Supplies result (length buf.old) self.old self.new }
        ensures fails { (result ≡ SourceRead.Failed) ↔ Contains self.old.failing self.old.calls }
        ensures called { self.new.calls ≡ next self.old.calls }
        ensures kept { (self.new.failing ≡ self.old.failing) × (self.new.most ≡ self.old.most) }
    {
        if self.calls.fails() {
            return SourceRead::Failed;
        }
        match self.octets.read(buf, self.most.max(1)) {
            Some(count) => SourceRead::Got(count),
            None => SourceRead::End,
        }
    }
}

/// A sink over a vector, which tells what was taken. The calls whose numbers are listed fail, and also those for which
/// there is no memory.
#[derive(Drop)]
pub struct MemorySink {
    octets: Vec<u8>,
    most: usize,
    calls: FailingCalls,
}

impl Model for MemorySink {
    ghost use Rattle.dns_memory.specs.Memory.{Store};

    ghost Value = { Store };

    ghost view = { λ s. record {
      taken = s.octets.items;
      most = s.most;
      failing = s.calls.listed.items;
      calls = s.calls.made;
      faults = s.calls.faults;
    } };
}

impl MemorySink {
    /// Takes at most `most` octets a call, and at least one, after those of `octets`. `failing` lists the numbers of
    /// the calls that fail, from 0.
    pub fn new(octets: Vec<u8>, failing: Vec<u64>, most: usize) -> MemorySink
        ensures { result ≡ record { taken = octets.items; most = most; failing = failing.items; calls = 0; faults = 0 } }
    {
        MemorySink {
            octets,
            most,
            calls: FailingCalls::of(failing),
        }
    }

    /// All octets taken so far, after those that were handed in.
    pub fn written(&self) -> &[u8]
        ensures { result.now ≡ self.now.taken }
    {
        self.octets.as_slice()
    }
}

impl Sink for MemorySink {
    ghost tells = { λ _. Unit {0} };

    ghost taken = { λ s. s.taken };

    ghost faults = { λ s. s.faults };

    fn write(&mut self, piece: &[u8]) -> SinkWrite
        ensures moves { Observed (Unit {0}) (Unit {0}) (WriteMoves result piece.now self.old.taken self.new.taken) }
        ensures bound { WriteBound result piece.now }
        ensures later { self.old.faults ≤ self.new.faults }
        ensures cause { WriteCause result self.old.faults self.new.faults }
        ensures takes { Stores result (length piece.now) self.old self.new }
        ensures listed { Contains self.old.failing self.old.calls → result ≡ SinkWrite.Failed }
        ensures called { self.new.calls ≡ next self.old.calls }
        ensures kept { (self.new.failing ≡ self.old.failing) × (self.new.most ≡ self.old.most) }
    {
        if self.calls.fails() {
            return SinkWrite::Failed;
        }
        let count = piece.len().min(self.most.max(1));
        match self.octets.extend_from_slice(&piece[..count]) {
            Ok(()) => SinkWrite::Took(count),
            Err(_) => {
                self.calls.fault();
                SinkWrite::Failed
            }
        }
    }
}
