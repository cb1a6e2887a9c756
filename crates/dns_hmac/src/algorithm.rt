//! The hash functions that HMAC is made with.

ghost use Rattle.std.specs.Prelude.{◌≡◌, ◌≤◌};
ghost use Rattle.dns_hmac.specs.Digests.{block_of, size_of};

/// A hash function of FIPS 180-4, by which a text is authenticated.
#[derive(Clone, Copy)]
pub enum Algorithm {
    /// SHA-1, with digests of 20 octets.
    Sha1,
    /// SHA-256, with digests of 32 octets.
    Sha256,
    /// SHA-384, with digests of 48 octets.
    Sha384,
    /// SHA-512, with digests of 64 octets.
    Sha512,
}

impl Algorithm {
    /// How many octets are hashed at a time (RFC 2104, section 2: B).
    pub fn block_len(self) -> usize
        ensures value { result ≡ block_of self }
        ensures most { result ≤ 128 }
    {
        match self {
            Algorithm::Sha1 => 64,
            Algorithm::Sha256 => 64,
            Algorithm::Sha384 => 128,
            Algorithm::Sha512 => 128,
        }
    }

    /// How many octets a digest has (RFC 2104, section 2: L).
    pub fn digest_len(self) -> usize
        ensures value { result ≡ size_of self }
        ensures most { result ≤ 64 }
    {
        match self {
            Algorithm::Sha1 => 20,
            Algorithm::Sha256 => 32,
            Algorithm::Sha384 => 48,
            Algorithm::Sha512 => 64,
        }
    }
}
