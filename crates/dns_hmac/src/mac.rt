//! Digests and message authentication codes.

ghost use Rattle.std.specs.Prelude.{◌≡◌, ◌≤◌, length};
ghost use Rattle.dns_hmac.specs.Macs.{octets_of};

/// A message authentication code, or a digest, whole.
#[derive(Clone, Copy)]
pub enum Mac {
    /// Of SHA-1.
    Sha1([u8; 20]),
    /// Of SHA-256.
    Sha256([u8; 32]),
    /// Of SHA-384.
    Sha384([u8; 48]),
    /// Of SHA-512.
    Sha512([u8; 64]),
}

impl Mac {
    /// The octets of the code, 64 at most.
    pub fn as_slice(&self) -> &[u8]
        ensures value { result.now ≡ octets_of self.now }
        ensures short { length result.now ≤ 64 }
    {
        match self {
            Mac::Sha1(octets) => octets,
            Mac::Sha256(octets) => octets,
            Mac::Sha384(octets) => octets,
            Mac::Sha512(octets) => octets,
        }
    }
}
