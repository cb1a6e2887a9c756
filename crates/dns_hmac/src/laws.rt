//! Laws of message authentication codes.

ghost use Rattle.std.specs.Prelude.{◌≡◌, ℕ, List, length};
ghost use Rattle.dns_hmac.specs.declared.algorithm.Algorithm.{Algorithm};
ghost use Rattle.dns_hmac.specs.Digests.{digest_of, size_of};
ghost use Rattle.dns_hmac.specs.Hmac.{hmac};

/// A digest has as many octets as its algorithm says, and so has a code under any key.
pub fn macs_have_their_size()
    ensures digests { (a : Algorithm) (text : List ℕ) → length (digest_of a text) ≡ size_of a }
    ensures codes { (a : Algorithm) (key text : List ℕ) → length (hmac a key text) ≡ size_of a }
{}
