//! A link in memory, with calls that fail or answer Again.

ghost use Rattle.std.specs.Prelude.{◌≡◌, ◌≤◌, ◌+◌, ◌++◌, [], length, Contains};
ghost use Rattle.dns_io.specs.Causes.{Observed};
ghost use Rattle.dns_io.specs.Traffic.{LinkReadMoves, LinkReadBound, LinkReadCause, LinkWriteMoves, LinkWriteBound, LinkWriteCause};
ghost use Rattle.dns_memory.specs.MemoryForms.{traffic_of, LinkTells, LinkReads, LinkWrites};

use crate::listed_calls::{CallFate, ListedCalls};
use crate::octet_replay::OctetReplay;
use dns_io::{Link, LinkRead, LinkWrite};
use std::marker::Model;
use std::sync::Wait;

/// A link over vectors, which tells what came and what went as long as it can count. Reads and writes are counted
/// apart, and of each the listed calls fail or answer Again; a write for which there is no memory fails too.
#[derive(Drop)]
pub struct MemoryLink {
    input: OctetReplay,
    output: Vec<u8>,
    most: usize,
    ends: u64,
    reads: ListedCalls,
    writes: ListedCalls,
}

impl Model for MemoryLink {
    ghost use Rattle.dns_memory.specs.MemoryForms.{LinkState};

    ghost Value = { LinkState };

    ghost view = { λ s. record {
      left = s.input.left;
      came = s.input.came;
      went = s.output.items;
      most = s.most;
      ends = s.ends;
      reads = s.reads;
      writes = s.writes;
    } };
}

impl MemoryLink {
    /// Gives the octets of `input`, and keeps what is written after those of `output`; at most `most` octets a call,
    /// and at least one.
    pub fn new(
        input: Vec<u8>,
        output: Vec<u8>,
        most: usize,
        reads: ListedCalls,
        writes: ListedCalls,
    ) -> MemoryLink
        ensures { result ≡ record {
          left = input.items;
          came = [];
          went = output.items;
          most = most;
          ends = 0;
          reads = reads;
          writes = writes;
        } }
    {
        MemoryLink {
            input: OctetReplay::new(input),
            output,
            most,
            ends: 0,
            reads,
            writes,
        }
    }

    /// All octets written so far, after those that were handed in.
    pub fn written(&self) -> &[u8]
        ensures { result.now ≡ self.now.went }
    {
        self.output.as_slice()
    }
}

impl Link for MemoryLink {
    ghost use Rattle.std.specs.Prelude.{◌+◌};

    ghost tells = { λ s. LinkTells s };

    ghost traffic = { λ s. traffic_of s };

    ghost faults = { λ s. s.reads.faults + s.writes.faults };

    fn read(&mut self, buf: &mut [u8]) -> LinkRead
        ensures moves { Observed (LinkTells self.new) (LinkTells self.old)
            (LinkReadMoves result buf.new (traffic_of self.old) (traffic_of self.new)) }
        ensures bound { LinkReadBound result buf.new }
        ensures later { self.old.reads.faults + self.old.writes.faults ≤ self.new.reads.faults + self.new.writes.faults }
        ensures cause { LinkReadCause result (self.old.reads.faults + self.old.writes.faults)
            (self.new.reads.faults + self.new.writes.faults) }
        ensures gives { LinkReads result (length buf.old) self.old self.new }
        ensures input { self.new.came ++ self.new.left ≡ self.old.came ++ self.old.left }
        ensures kept { (self.new.writes ≡ self.old.writes) × (self.new.most ≡ self.old.most) }
    {
        match self.reads.take() {
            CallFate::Failed => return LinkRead::Failed,
            CallFate::Again => return LinkRead::Again,
            CallFate::CarriedOut => {}
        }
        match self.input.read(buf, self.most.max(1)) {
            Some(count) => LinkRead::Got(count),
            None => {
                self.ends = self.ends.saturating_add(1);
                LinkRead::End
            }
        }
    }

    fn write(&mut self, piece: &[u8]) -> LinkWrite
        ensures moves { Observed (LinkTells self.new) (LinkTells self.old)
            (LinkWriteMoves result piece.now (traffic_of self.old) (traffic_of self.new)) }
        ensures bound { LinkWriteBound result piece.now }
        ensures later { self.old.reads.faults + self.old.writes.faults ≤ self.new.reads.faults + self.new.writes.faults }
        ensures cause { LinkWriteCause result (self.old.reads.faults + self.old.writes.faults)
            (self.new.reads.faults + self.new.writes.faults) }
        ensures takes { LinkWrites result (length piece.now) self.old self.new }
        ensures listed { Contains self.old.writes.failing.items self.old.writes.made → result ≡ LinkWrite.Failed }
        ensures kept { (self.new.reads ≡ self.old.reads) × (self.new.most ≡ self.old.most) × (self.new.left ≡ self.old.left) }
    {
        match self.writes.take() {
            CallFate::Failed => return LinkWrite::Failed,
            CallFate::Again => return LinkWrite::Again,
            CallFate::CarriedOut => {}
        }
        let count = piece.len().min(self.most.max(1));
        match self.output.extend_from_slice(&piece[..count]) {
            Ok(()) => LinkWrite::Took(count),
            Err(_) => {
                self.writes.fault();
                LinkWrite::Failed
            }
        }
    }

    fn wait<R: Wait>(&mut self, _rt: &R, _millis: u64)
        ensures moves { Observed (LinkTells self.new) (LinkTells self.old) (traffic_of self.new ≡ traffic_of self.old) }
        ensures same { self.new.reads.faults + self.new.writes.faults ≡ self.old.reads.faults + self.old.writes.faults }
        ensures kept { self.new ≡ self.old }
    {}

    fn close(&mut self)
        ensures moves { Observed (LinkTells self.new) (LinkTells self.old) (traffic_of self.new ≡ traffic_of self.old) }
        ensures same { self.new.reads.faults + self.new.writes.faults ≡ self.old.reads.faults + self.old.writes.faults }
        ensures kept { self.new ≡ self.old }
    {}
}
