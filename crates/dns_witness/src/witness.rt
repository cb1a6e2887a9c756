//! A link that tells, over any link.

ghost use Rattle.std.specs.Prelude.{◌≡◌, ◌≤◌};
ghost use Rattle.dns_io.specs.Causes.{Observed};
ghost use Rattle.dns_io.specs.Traffic.{LinkReadMoves, LinkReadBound, LinkReadCause, LinkWriteMoves, LinkWriteBound, LinkWriteCause};
ghost use Rattle.dns_witness.specs.Since.{TrafficSince};

use crate::traffic::{Move, SeenTraffic};
use dns_io::{Link, LinkRead, LinkWrite};
use std::snapshot::Snapshot;
use std::sync::Wait;

/// A link, and what its calls said. If the link itself tells, that is what went through it since it was taken.
#[derive(Drop)]
pub struct Witness<L: Link> {
    link: L,
    start: Snapshot<L>,
    seen: SeenTraffic,
    ghost tied: { ∥ Observed (L.Link.tells link) (L.Link.tells start.value)
        (TrafficSince (L.Link.traffic start.value) (L.Link.traffic link) seen.traffic) ∥₁ },
}

impl<L: Link> Witness<L> {
    ghost use Rattle.dns_witness.specs.Seen.{still};

    /// Of a link, through which nothing went by this so far.
    #[tactic(auto, using(crate::proofs::Ties::tied_first))]
    pub fn new(link: L) -> Witness<L>
        ensures link { (result.link ≡ link) × (result.start.value ≡ link) }
        ensures seen { result.seen.traffic ≡ still }
    {
        let start = Snapshot::of(&link);
        Witness {
            link,
            start,
            seen: SeenTraffic::new(),
        }
    }

    /// The link.
    pub fn into_inner(self) -> L
        ensures { result ≡ self.link }
    {
        let Witness { link, .. } = self;
        link
    }

    /// True of each, after any calls: if the link tells, what its calls said is what went through it since.
    pub fn is_tied(&self)
        ensures { ∥ Observed (L.tells self.now.link) (L.tells self.now.start.value)
            (TrafficSince (L.traffic self.now.start.value) (L.traffic self.now.link) self.now.seen.traffic) ∥₁ }
    {}
}

impl<L: Link> Link for Witness<L> {
    ghost tells = { λ _. Unit {0} };

    ghost traffic = { λ w. w.seen.traffic };

    ghost faults = { λ w. L.faults w.link };

    #[tactic(auto, using(crate::proofs::Ties::tied_read))]
    fn read(&mut self, buf: &mut [u8]) -> LinkRead
        ensures moves { Observed (Unit {0}) (Unit {0}) (LinkReadMoves result buf.new self.old.seen.traffic self.new.seen.traffic) }
        ensures bound { LinkReadBound result buf.new }
        ensures later { L.faults self.old.link ≤ L.faults self.new.link }
        ensures cause { LinkReadCause result (L.faults self.old.link) (L.faults self.new.link) }
        // The link itself gave this.
        ensures inner { Observed (L.tells self.new.link) (L.tells self.old.link)
            (LinkReadMoves result buf.new (L.traffic self.old.link) (L.traffic self.new.link)) }
    {
        let answer = self.link.read(buf);
        match answer {
            LinkRead::Got(count) => self.seen.moved(&Move::Came, &buf[..count]),
            LinkRead::Again => self.seen.moved(&Move::Empty, &[]),
            LinkRead::End => self.seen.moved(&Move::Ended, &[]),
            LinkRead::Failed => {}
        }
        answer
    }

    #[tactic(auto, using(crate::proofs::Ties::tied_write))]
    fn write(&mut self, piece: &[u8]) -> LinkWrite
        ensures moves { Observed (Unit {0}) (Unit {0}) (LinkWriteMoves result piece.now self.old.seen.traffic self.new.seen.traffic) }
        ensures bound { LinkWriteBound result piece.now }
        ensures later { L.faults self.old.link ≤ L.faults self.new.link }
        ensures cause { LinkWriteCause result (L.faults self.old.link) (L.faults self.new.link) }
        // The link itself took this.
        ensures inner { Observed (L.tells self.new.link) (L.tells self.old.link)
            (LinkWriteMoves result piece.now (L.traffic self.old.link) (L.traffic self.new.link)) }
    {
        let answer = self.link.write(piece);
        match answer {
            LinkWrite::Took(count) => self.seen.moved(&Move::Went, &piece[..count]),
            LinkWrite::Again => self.seen.moved(&Move::Full, &[]),
            LinkWrite::Failed => {}
        }
        answer
    }

    #[tactic(auto, using(crate::proofs::Ties::tied_still))]
    fn wait<R: Wait>(&mut self, rt: &R, millis: u64) {
        self.link.wait(rt, millis);
    }

    #[tactic(auto, using(crate::proofs::Ties::tied_still))]
    fn close(&mut self) {
        self.link.close();
    }
}
