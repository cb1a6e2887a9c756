//! Codes of texts under a key.

ghost use Rattle.std.specs.Prelude.{◌≡◌, ◌≤◌, ⊤, ℕ, ◌-◌, List, [], ◌++◌, length, replicate};
ghost use Rattle.dns_hmac.specs.declared.algorithm.Algorithm.{Algorithm};
ghost use Rattle.dns_hmac.specs.Digests.{block_of, digest_of};
ghost use Rattle.dns_hmac.specs.Hashers.{HoldsText, kind_of};
ghost use Rattle.dns_hmac.specs.Hmac.{filled, hmac, key_block, masked};
ghost use Rattle.dns_hmac.specs.Keyed.{Keyed, KeyedBy};
ghost use Rattle.dns_hmac.specs.Macs.{octets_of};

use crate::algorithm::Algorithm;
use crate::hasher::Hasher;
use crate::mac::Mac;
use std::alloc::AllocError;

/// What each octet of a key is XORed with for the inner digest (RFC 2104, section 2: ipad).
const INNER: u8 = 0x36;

/// What each octet of a key is XORed with for the outer digest (RFC 2104, section 2: opad).
const OUTER: u8 = 0x5c;

/// A text that is authenticated under a key, piece by piece.
///
/// `new` masks and digests the key once. A clone of what it gives takes in a further text under the same key; cloning is
/// never refused.
#[derive(Drop)]
pub struct Hmac {
    inner: Hasher,
    outer: Hasher,
}

impl Hmac {
    /// The empty text under a key of any length. A key longer than a block is digested first.
    #[tactic(auto, using(crate::proofs::Sizes::digest_fits))]
    pub fn new(algorithm: Algorithm, key: &[u8]) -> Hmac
        ensures { Keyed algorithm key.now [] result }
    {
        if key.len() > algorithm.block_len() {
            let digest = digest(algorithm, key);
            return Hmac::under(algorithm, digest.as_slice());
        }
        Hmac::under(algorithm, key)
    }

    /// The empty text under a key that a block holds.
    fn under(algorithm: Algorithm, key: &[u8]) -> Hmac
        requires { length key.now ≤ block_of algorithm }
        ensures { KeyedBy algorithm (filled algorithm key.now) [] result }
    {
        let inner = masked_text(algorithm, key, INNER);
        let outer = masked_text(algorithm, key, OUTER);
        Hmac { inner, outer }
    }

    /// Adds octets to the text.
    pub fn update(&mut self, octets: &[u8])
        ensures { (a : Algorithm) (key text : List ℕ) → Keyed a key text self.old → Keyed a key (text ++ octets.now) self.new }
    {
        self.inner.update(octets);
    }

    /// The code of the text that was added.
    pub fn finalize(self) -> Mac
        ensures { (a : Algorithm) (key text : List ℕ) → Keyed a key text self → octets_of result ≡ hmac a key text }
    {
        let Hmac { inner, outer } = self;
        let digest = inner.finalize();
        let mut outer = outer;
        outer.update(digest.as_slice());
        outer.finalize()
    }

    /// The code of a whole text under a key, at once.
    pub fn of(algorithm: Algorithm, key: &[u8], text: &[u8]) -> Mac
        ensures { octets_of result ≡ hmac algorithm key.now text.now }
    {
        let mut code = Hmac::new(algorithm, key);
        code.update(text);
        code.finalize()
    }
}

impl Clone for Hmac {
    ghost is_clone = { λ x y. y ≡ x };

    ghost is_infallible = { λ _. ⊤ };

    fn clone(&self) -> Result<Hmac, AllocError> {
        Ok(Hmac {
            inner: self.inner.clone()?,
            outer: self.outer.clone()?,
        })
    }
}

/// The digest of a text.
fn digest(algorithm: Algorithm, text: &[u8]) -> Mac
    ensures { octets_of result ≡ digest_of algorithm text.now }
{
    let mut hasher = Hasher::new(algorithm);
    hasher.update(text);
    hasher.finalize()
}

/// A hasher of a key that is filled up to a block and masked.
fn masked_text(algorithm: Algorithm, key: &[u8], pad: u8) -> Hasher
    requires { length key.now ≤ block_of algorithm }
    ensures kind { kind_of result ≡ algorithm }
    ensures text { HoldsText result (masked pad (filled algorithm key.now)) }
{
    let block = masked_block(key, pad);
    let mut hasher = Hasher::new(algorithm);
    hasher.update(&block[..algorithm.block_len()]);
    hasher
}

/// A key with zeros after it, each octet masked.
fn masked_block(key: &[u8], pad: u8) -> [u8; 128]
    requires { length key.now ≤ 128 }
    ensures { result ≡ masked pad key.now ++ replicate (128 - length key.now) pad }
{
    let mut block = [pad; 128];
    'each: for i in 0..key.len() {
        block[i] = key[i] ^ pad;
    }
    block
}
