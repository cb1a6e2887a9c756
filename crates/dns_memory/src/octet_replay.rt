//! Octets in memory that are read from their front.

ghost use Rattle.std.specs.Prelude.{◌≡◌, []};
ghost use Rattle.dns_memory.specs.Passing.{Passes};

use std::marker::Model;

/// Octets, and the place up to which they were read.
#[derive(Drop)]
pub(crate) struct OctetReplay {
    octets: Vec<u8>,
    place: usize,
}

impl Model for OctetReplay {
    ghost use Rattle.std.specs.Prelude.{◌≤◌, ℕ, take, drop, length};
    ghost use Rattle.dns_memory.specs.Passing.{Passing};

    ghost Value = { Passing ℕ };

    ghost view = { λ s. record { came = take s.place s.octets.items; left = drop s.place s.octets.items } };

    ghost invariant = { λ s. s.place ≤ length s.octets.items };
}

impl OctetReplay {
    pub(crate) fn new(octets: Vec<u8>) -> OctetReplay
        ensures { result ≡ record { came = []; left = octets.items } }
    {
        OctetReplay { octets, place: 0 }
    }

    /// The octets left.
    pub(crate) fn left(&self) -> &[u8]
        ensures { result.now ≡ self.now.left }
    {
        &self.octets[self.place..]
    }

    /// Reads octets into the front of `buf`, as many as there is room for and `most` at most, and says how many; none
    /// if nothing is left.
    pub(crate) fn read(&mut self, buf: &mut [u8], most: usize) -> Option<usize>
        ensures { Passes result most buf.new self.old self.new }
    {
        let left = self.octets.len() - self.place;
        if left == 0 {
            return None;
        }
        let count = left.min(buf.len()).min(most);
        buf[..count].copy_from_slice(&self.octets[self.place..self.place + count]);
        self.place += count;
        Some(count)
    }
}
