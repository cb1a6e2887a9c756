//! What the reads of a link without responses give.

ghost use Rattle.std.specs.Prelude.{◌≡◌, ◌&&◌, ◌==◌, not, length};
ghost use Rattle.dns_io.specs.Traffic.{LinkReadBound};
ghost use Rattle.dns_query_link.specs.QueryReads.{Gives, no_reads, Takes};

use crate::query_frames::QueryFrames;
use dns_io::LinkRead;
use dns_query_sock::QueryCounts;
use std::alloc::Global;
use std::marker::Model;
use std::sync::Arc;

/// What is held of the octets that came over a link, and what its reads give of it.
#[derive(Drop)]
pub(crate) struct QueryReads {
    alloc: Global,
    frames: QueryFrames,
    counts: Option<Arc<QueryCounts>>,
    // How many reads gave nothing of what came.
    vain: u64,
    // Whether memory ran out.
    ended: bool,
}

impl Model for QueryReads {
    ghost use Rattle.dns_query_link.specs.QueryReads.{Reads};

    ghost Value = { Reads };

    ghost view = { λ r. record { held = r.frames; vain = r.vain; ended = r.ended } };
}

/// Counts responses that were dropped, if something counts them.
fn count_dropped(counts: &Option<Arc<QueryCounts>>, dropped: u64) {
    if let Some(counts) = counts {
        counts.count_dropped(dropped);
    }
}

impl QueryReads {
    /// Nothing came yet. Responses are counted, if something counts them.
    pub(crate) fn new(alloc: Global, counts: Option<Arc<QueryCounts>>) -> QueryReads
        ensures { result ≡ no_reads }
    {
        QueryReads {
            alloc,
            frames: QueryFrames::new(alloc),
            counts,
            vain: 0,
            ended: false,
        }
    }

    /// Whether octets are wanted: none wait, and there was memory so far.
    pub(crate) fn wants_octets(&self) -> bool
        ensures { result ≡ (not self.now.ended && (length self.now.held.waiting == 0)) }
    {
        !self.ended && self.frames.is_empty()
    }

    /// Takes octets that came, and counts the responses among them. Without memory nothing more is given.
    pub(crate) fn take(&mut self, octets: &[u8])
        ensures { Takes octets.now self.old self.new }
    {
        match self.frames.feed(self.alloc, octets) {
            Ok(dropped) => count_dropped(&self.counts, dropped),
            Err(_) => self.ended = true,
        }
    }

    /// Gives octets that wait. If none do it is Again, and End if memory ran out.
    pub(crate) fn give(&mut self, buf: &mut [u8]) -> LinkRead
        ensures given { Gives result buf.new self.old self.new }
        ensures bound { LinkReadBound result buf.new }
    {
        if self.ended {
            return LinkRead::End;
        }
        if self.frames.is_empty() {
            self.vain = self.vain.saturating_add(1);
            return LinkRead::Again;
        }
        LinkRead::Got(self.frames.take(buf))
    }
}
