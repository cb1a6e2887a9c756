//! A link in memory of which no call fails.

ghost use Rattle.std.specs.Prelude.{◌≡◌, ◌≤◌, ◌++◌, ℕ, [], true, length};
ghost use Rattle.dns_io.specs.Causes.{Observed};
ghost use Rattle.dns_io.specs.Traffic.{LinkReadMoves, LinkReadBound, LinkReadCause, LinkWriteMoves, LinkWriteBound, LinkWriteCause};
ghost use Rattle.dns_memory.specs.SteadyForms.{SteadyLinkTells, SteadyLinkReads, steady_traffic};

use crate::octet_replay::OctetReplay;
use dns_io::{Link, LinkRead, LinkWrite};
use std::marker::Model;
use std::sync::Wait;

/// A link over vectors. No call fails or answers Again, so its count of faults is 0 forever. It tells what came and
/// went as long as there is memory for it and it can count its ends: afterwards it takes octets and tells nothing.
#[derive(Drop)]
pub struct SteadyLink {
    input: OctetReplay,
    output: Vec<u8>,
    whole: bool,
    ends: u64,
}

impl Model for SteadyLink {
    ghost use Rattle.dns_memory.specs.SteadyForms.{SteadyLinkState};

    ghost Value = { SteadyLinkState };

    ghost view = { λ s. record { left = s.input.left; came = s.input.came; went = s.output.items; whole = s.whole; ends = s.ends } };
}

impl SteadyLink {
    /// Gives the octets of `input`, and keeps what is written after those of `output`.
    pub fn new(input: Vec<u8>, output: Vec<u8>) -> SteadyLink
        ensures { result ≡ record { left = input.items; came = []; went = output.items; whole = true; ends = 0 } }
    {
        SteadyLink {
            input: OctetReplay::new(input),
            output,
            whole: true,
            ends: 0,
        }
    }

    /// The octets written, as far as they were kept.
    pub fn written(&self) -> &[u8]
        ensures { result.now ≡ self.now.went }
    {
        self.output.as_slice()
    }
}

impl Link for SteadyLink {
    ghost tells = { λ s. SteadyLinkTells s };

    ghost traffic = { λ s. steady_traffic s };

    ghost faults = { λ _. 0 };

    fn read(&mut self, buf: &mut [u8]) -> LinkRead
        ensures moves { Observed (SteadyLinkTells self.new) (SteadyLinkTells self.old)
            (LinkReadMoves result buf.new (steady_traffic self.old) (steady_traffic self.new)) }
        ensures bound { LinkReadBound result buf.new }
        ensures later { 0 ≤ 0 }
        ensures cause { LinkReadCause result 0 0 }
        ensures gives { SteadyLinkReads result self.old self.new }
        ensures input { self.new.came ++ self.new.left ≡ self.old.came ++ self.old.left }
        ensures kept { (self.new.went ≡ self.old.went) × (self.new.whole ≡ self.old.whole) }
    {
        match self.input.read(buf, usize::MAX) {
            Some(count) => LinkRead::Got(count),
            None => {
                self.ends = self.ends.saturating_add(1);
                LinkRead::End
            }
        }
    }

    fn write(&mut self, piece: &[u8]) -> LinkWrite
        ensures moves { Observed (SteadyLinkTells self.new) (SteadyLinkTells self.old)
            (LinkWriteMoves result piece.now (steady_traffic self.old) (steady_traffic self.new)) }
        ensures bound { LinkWriteBound result piece.now }
        ensures later { 0 ≤ 0 }
        ensures cause { LinkWriteCause result 0 0 }
        ensures takes { result ≡ LinkWrite.Took (length piece.now) }
        ensures kept { (self.new.left ≡ self.old.left) × (self.new.came ≡ self.old.came) × (self.new.ends ≡ self.old.ends) }
    {
        if self.whole && self.output.extend_from_slice(piece).is_err() {
            self.whole = false;
        }
        LinkWrite::Took(piece.len())
    }

    fn wait<R: Wait>(&mut self, _rt: &R, _millis: u64)
        ensures moves { Observed (SteadyLinkTells self.new) (SteadyLinkTells self.old) (steady_traffic self.new ≡ steady_traffic self.old) }
        ensures same { ◌≡◌ {A = ℕ} 0 0 }
        ensures kept { self.new ≡ self.old }
    {}

    fn close(&mut self)
        ensures moves { Observed (SteadyLinkTells self.new) (SteadyLinkTells self.old) (steady_traffic self.new ≡ steady_traffic self.old) }
        ensures same { ◌≡◌ {A = ℕ} 0 0 }
        ensures kept { self.new ≡ self.old }
    {}
}
