//! Finished messages.

ghost use Rattle.std.specs.Prelude.{◌≡◌, ◌≤◌, ◌++◌, ◌+◌, length, drop};
ghost use Rattle.dns_name.specs.Place.{two};

use std::marker::Model;

/// A finished message, as a datagram holds it and as a stream does (RFC 1035, section 4.2.2).
#[derive(Debug, Drop)]
pub struct StreamTarget {
    octets: Vec<u8>,
}

impl Model for StreamTarget {
    ghost use Rattle.std.specs.Prelude.{List, ℕ, drop};
    ghost use Rattle.dns_base.specs.Draft.{IsFrame};

    ghost Value = { List ℕ };

    ghost view = { λ t. drop 2 t.octets.items };

    ghost invariant = { λ t. IsFrame t.octets.items };
}

impl StreamTarget {
    /// The message that stands after two octets.
    pub(crate) fn of(mut octets: Vec<u8>) -> StreamTarget
        requires framed { 2 ≤ length octets.items }
        requires short { length (drop 2 octets.items) ≤ 65535 }
        ensures { result ≡ drop 2 octets.items }
    {
        let size = octets.len() - 2;
        octets[0] = (size / 256) as u8;
        octets[1] = (size % 256) as u8;
        StreamTarget { octets }
    }

    /// The message's octets without the length before them, as a datagram holds them.
    pub fn as_dgram_slice(&self) -> &[u8]
        ensures value { result.now ≡ self.now }
        ensures short { length result.now ≤ 65535 }
    {
        &self.octets.as_slice()[2..]
    }

    /// Gives what `as_stream_slice` shows, which is not copied.
    pub fn into_octets(self) -> Vec<u8>
        ensures value { result.items ≡ two (length self) ++ self }
        ensures short { length self ≤ 65535 }
    {
        let StreamTarget { octets } = self;
        octets
    }

    /// The message's octets after their number in two octets.
    pub fn as_stream_slice(&self) -> &[u8]
        ensures value { result.now ≡ two (length self.now) ++ self.now }
        ensures short { length self.now ≤ 65535 }
    {
        self.octets.as_slice()
    }
}
