//! Times to live.

ghost use Rattle.std.specs.Prelude.{◌≡◌, ◌<◌, ◌^◌};

use std::marker::Model;

/// How long a record may be kept, in seconds (RFC 1035, section 3.2.1).
#[derive(Clone, Copy, Debug, PartialEq, Eq, PartialOrd, Ord, Hash)]
pub struct Ttl {
    secs: u32,
}

impl Model for Ttl {
    ghost use Rattle.std.specs.Prelude.{ℕ};

    ghost Value = { ℕ };

    ghost view = { λ t. t.secs };

    ghost inverse = { λ n. record { secs = n } };
}

impl Ttl {
    /// A TTL of this many seconds; any number of 32 bits is one.
    pub const fn from_secs(secs: u32) -> Ttl
        ensures { result ≡ secs }
    {
        Ttl { secs }
    }

    /// The number of seconds.
    pub const fn as_secs(self) -> u32
        ensures value { result ≡ self }
        ensures fits { result < 2 ^ 32 }
    {
        self.secs
    }
}
