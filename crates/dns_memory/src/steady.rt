//! Sources and sinks in memory of which no call fails.

ghost use Rattle.std.specs.Prelude.{◌≡◌, ◌≤◌, ◌↔◌, length, [], IsTrue, true, IfSome, IsSome};

use crate::octet_replay::OctetReplay;
use dns_io::{Sink, SinkWrite, Source, SourceRead};
use std::marker::Model;

/// A source over a vector, which tells what is left. No call fails, so its count of faults is 0 forever.
#[derive(Drop)]
pub struct SteadySource {
    octets: OctetReplay,
}

impl Model for SteadySource {
    ghost use Rattle.std.specs.Prelude.{ℕ, List};

    ghost Value = { List ℕ };

    ghost view = { λ s. s.octets.left };
}

impl SteadySource {
    /// A source of these octets.
    pub fn new(octets: Vec<u8>) -> SteadySource
        ensures { result ≡ octets.items }
    {
        SteadySource {
            octets: OctetReplay::new(octets),
        }
    }

    /// The octets that weren't read yet.
    pub fn left(&self) -> &[u8]
        ensures { result.now ≡ self.now }
    {
        self.octets.left()
    }
}

impl Source for SteadySource {
    ghost tells = { λ _. Unit {0} };

    ghost left = { λ s. s };

    ghost faults = { λ _. 0 };

    fn read(&mut self, buf: &mut [u8]) -> SourceRead {
        match self.octets.read(buf, usize::MAX) {
            Some(count) => SourceRead::Got(count),
            None => SourceRead::End,
        }
    }
}

/// A sink over a vector. No call fails, so its count of faults is 0 forever. It tells what was taken as long as there
/// is memory for it: afterwards it takes octets, keeps none and tells nothing.
#[derive(Drop)]
pub struct SteadySink {
    octets: Vec<u8>,
    whole: bool,
}

impl Model for SteadySink {
    ghost use Rattle.dns_memory.specs.Memory.{KeptOctets};

    ghost Value = { KeptOctets };

    ghost view = { λ s. record { taken = s.octets.items; whole = s.whole } };
}

impl SteadySink {
    /// A sink that holds these octets already, and appends what it takes.
    pub fn new(octets: Vec<u8>) -> SteadySink
        ensures { result ≡ record { taken = octets.items; whole = true } }
    {
        SteadySink {
            octets,
            whole: true,
        }
    }

    /// The octets taken, if all of them were kept.
    pub fn written(&self) -> Option<&[u8]>
        ensures whole { IsSome result ↔ IsTrue self.now.whole }
        ensures value { IfSome result (λ t. t.now ≡ self.now.taken) }
    {
        if self.whole {
            Some(self.octets.as_slice())
        } else {
            None
        }
    }
}

impl Sink for SteadySink {
    ghost tells = { λ s. IsTrue s.whole };

    ghost taken = { λ s. s.taken };

    ghost faults = { λ _. 0 };

    fn write(&mut self, piece: &[u8]) -> SinkWrite {
        if self.whole && self.octets.extend_from_slice(piece).is_err() {
            self.whole = false;
        }
        SinkWrite::Took(piece.len())
    }
}
