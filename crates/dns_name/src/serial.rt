//! Serial numbers.

ghost use Rattle.dns_name.specs.Serials.{serial_cmp, serial_of};
ghost use Rattle.std.specs.Prelude.{◌≡◌, ◌+◌, ◌<◌, ◌^◌, ◌%◌};

use std::cmp::Ordering;

/// A serial number of 32 bits (RFC 1982).
#[derive(Clone, Copy, Debug, PartialEq, Eq, Hash)]
pub struct Serial(pub u32);

impl Serial {
    /// The serial number of this value.
    pub fn new(number: u32) -> Serial
        ensures { result.0 ≡ number }
    {
        Serial(number)
    }

    /// The serial so much later (RFC 1982, section 3.1).
    pub fn add(self, other: u32) -> Serial
        requires { other < 2 ^ 31 }
        ensures { result.0 ≡ (self.0 + other) % 2 ^ 32 }
    {
        Serial(self.0.wrapping_add(other))
    }

    /// How two serials compare (RFC 1982, section 3.2); none if they are 2^31 apart. This comparison is not
    /// transitive, so it is no `PartialOrd`.
    pub fn partial_cmp(&self, other: &Serial) -> Option<Ordering>
        ensures { result ≡ serial_cmp self.now.0 other.now.0 }
    {
        let distance = self.0.wrapping_sub(other.0);
        if distance == 0 {
            Some(Ordering::Equal)
        } else if distance < 0x8000_0000 {
            Some(Ordering::Greater)
        } else if distance == 0x8000_0000 {
            None
        } else {
            Some(Ordering::Less)
        }
    }

    /// The serial that four octets are in network order.
    pub fn from_be_bytes(octets: [u8; 4]) -> Serial
        ensures { result.0 ≡ serial_of octets }
    {
        let [a, b, c, d] = octets;
        let high = 256 * a as u32 + b as u32;
        let low = 256 * c as u32 + d as u32;
        Serial(65536 * high + low)
    }

    /// The number.
    pub fn into_int(self) -> u32
        ensures { result ≡ self.0 }
    {
        self.0
    }
}
