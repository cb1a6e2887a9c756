//! A link that passes on queries alone.

ghost use Rattle.std.specs.Prelude.{◌≡◌, ◌≤◌, false};
ghost use Rattle.dns_io.specs.Causes.{Observed};
ghost use Rattle.dns_io.specs.Traffic.{LinkReadBound, LinkReadCause, LinkReadMoves};
ghost use Rattle.dns_query_link.specs.QueryReads.{IsCounted, LeavesNone, no_reads, Ties, WasAsked, without_responses};

use crate::query_reads::QueryReads;
use dns_io::{Link, LinkRead, LinkWrite};
use dns_query_sock::QueryCounts;
use std::alloc::Global;
use std::snapshot::Snapshot;
use std::sync::{Arc, Wait};

/// A link over another that drops each frame whose message has QR set. So two servers never answer each other's responses (RFC
/// 1035, section 4.1.1). It tells what the other tells without the responses, as long as there is memory.
#[derive(Drop)]
pub struct QueryLink<L: Link> {
    inner: L,
    // The link as it was taken.
    start: Snapshot<L>,
    reads: QueryReads,
    // Whether a write answered Again since the last wait.
    full: bool,
    ghost tied: { Ties (L.Link.tells inner) (L.Link.traffic start.value).came (L.Link.traffic inner) reads },
}

impl<L: Link> QueryLink<L> {
    /// Passes on the queries that this link reads from now on. The responses that it drops are counted, if something counts them.
    #[tactic(auto, using(crate::proofs::Ties::tied_first))]
    pub fn new(alloc: Global, inner: L, counts: Option<Arc<QueryCounts>>) -> QueryLink<L>
        ensures inner { result.inner ≡ inner }
        ensures start { result.start.value ≡ inner }
        ensures reads { result.reads ≡ no_reads }
    {
        let start = Snapshot::of(&inner);
        QueryLink {
            inner,
            start,
            reads: QueryReads::new(alloc, counts),
            full: false,
        }
    }
}

impl<L: Link> Link for QueryLink<L> {
    ghost tells = { λ l. L.tells l.inner × IsCounted l.reads };

    ghost traffic = { λ l. without_responses (L.traffic l.start.value).came l.reads (L.traffic l.inner) };

    ghost faults = { λ l. L.faults l.inner };

    #[tactic(auto, using(crate::proofs::Ties::gives_ties, crate::proofs::Ties::taken_ties, crate::proofs::Ties::taken_moves))]
    fn read(&mut self, buf: &mut [u8]) -> LinkRead
        ensures moves { Observed (L.tells self.new.inner × IsCounted self.new.reads) (L.tells self.old.inner × IsCounted self.old.reads)
            (LinkReadMoves result buf.new
            (without_responses (L.traffic self.old.start.value).came self.old.reads (L.traffic self.old.inner))
            (without_responses (L.traffic self.new.start.value).came self.new.reads (L.traffic self.new.inner))) }
        ensures bound { LinkReadBound result buf.new }
        ensures later { L.faults self.old.inner ≤ L.faults self.new.inner }
        ensures cause { LinkReadCause result (L.faults self.old.inner) (L.faults self.new.inner) }
        // All octets of queries that came whole were given before.
        ensures waiting { LeavesNone result self.new.reads }
        // The link itself was read.
        ensures asked { Observed (L.tells self.new.inner) (L.tells self.old.inner)
            (WasAsked result buf.new (L.traffic self.old.inner) (L.traffic self.new.inner)) }
    {
        if !self.reads.wants_octets() {
            return self.reads.give(buf);
        }
        match self.inner.read(buf) {
            LinkRead::Got(count) => {
                self.reads.take(&buf[..count]);
                self.reads.give(buf)
            }
            LinkRead::Again => LinkRead::Again,
            LinkRead::End => LinkRead::End,
            LinkRead::Failed => LinkRead::Failed,
        }
    }

    fn write(&mut self, piece: &[u8]) -> LinkWrite {
        let written = self.inner.write(piece);
        self.full = self.full || matches!(written, LinkWrite::Again);
        written
    }

    /// Waits for room if the last write answered Again, and else returns at once if octets wait to be read.
    fn wait<R: Wait>(&mut self, rt: &R, millis: u64) {
        let waits = self.full || self.reads.wants_octets();
        self.full = false;
        if waits {
            self.inner.wait(rt, millis);
        }
    }

    fn close(&mut self) {
        self.inner.close();
    }
}
