//! Octets that are held, owned or borrowed.

ghost use Rattle.std.specs.Prelude.{◌≡◌, ◌==◌, ⊤, ℕ, List};
ghost use Rattle.std.specs.Cmp.{partial_order_from_own_ties};
ghost use Rattle.std.specs.Cmp.Rules.{comparing, hashing};
ghost use Rattle.std.specs.Cmp.Lexicographic.{pointwise, slice_cmp};
ghost use Rattle.std.specs.Hash as fed;
ghost use Rattle.std.specs.Ordering.{nat_cmp, as_partial_cmp};
ghost use Rattle.std.proofs.Common.{rules};

use std::alloc::AllocError;
use std::cmp::Ordering;
use std::fmt;
use std::hash::{Hash, Hasher};
use std::marker::Model;

/// Octets that are owned or borrowed, so that one type serves both.
pub trait HoldsOctets: Drop {
    /// The octets.
    ghost octets: { Self → List ℕ };

    /// The octets as a slice.
    fn as_octets(&self) -> &[u8]
        ensures { result.now ≡ octets self.now };
}

impl HoldsOctets for Vec<u8> {
    ghost octets = { λ v. v.items };

    fn as_octets(&self) -> &[u8] {
        self.as_slice()
    }
}

impl<'a> HoldsOctets for &'a [u8] {
    ghost octets = { λ s. s.now };

    fn as_octets(&self) -> &[u8] {
        *self
    }
}

/// Octets in S, which contracts see as a list and which compare as one.
#[derive(Drop)]
pub struct OctetStore<S: HoldsOctets> {
    octets: S,
}

impl<S: HoldsOctets> Model for OctetStore<S> {
    ghost use Rattle.std.specs.Prelude.{List, ℕ};

    ghost Value = { List ℕ };

    ghost view = { λ h. S.octets h.octets };
}

impl<S: HoldsOctets> OctetStore<S> {
    /// The octets of S, which are not copied.
    pub fn of(octets: S) -> OctetStore<S>
        ensures { result ≡ S.octets octets }
    {
        OctetStore { octets }
    }

    /// The octets as a slice.
    pub fn as_slice(&self) -> &[u8]
        ensures { result.now ≡ self.now }
    {
        self.octets.as_octets()
    }

    /// Gives back what holds them.
    pub fn into_inner(self) -> S
        ensures { S.octets result ≡ self }
    {
        let OctetStore { octets } = self;
        octets
    }
}

impl<'a> OctetStore<&'a [u8]> {
    /// The octets, for as long as they are lent.
    pub fn lent(&self) -> &'a [u8]
        ensures { result.now ≡ self.now }
    {
        self.octets
    }
}

impl OctetStore<Vec<u8>> {
    ghost use Rattle.std.specs.Borrow.{sem};
    ghost use Rattle.dns_name.specs.Lending.{LendsOctets, LendsVector};

    /// The vector that holds the octets.
    pub fn as_vec(&self) -> &Vec<u8>
        ensures { result.now.items ≡ self.now }
    {
        &self.octets
    }

    /// The octets, to be overwritten; how many there are stays.
    pub fn as_mut_slice(&mut self) -> &mut [u8]
        ensures* writes_back { sem 𝓛 (LendsOctets self.entry result) }
        ensures value { result.now ≡ self.old }
    {
        self.octets.as_mut_slice()
    }

    /// The vector that holds the octets, to be changed.
    pub fn as_mut_vec(&mut self) -> &mut Vec<u8>
        ensures* writes_back { sem 𝓛 (LendsVector self.entry result) }
        ensures value { result.now.items ≡ self.old }
    {
        &mut self.octets
    }
}

impl<S: HoldsOctets + Copy> Clone for OctetStore<S> {
    ghost is_clone = { λ h copy. copy ≡ h };

    ghost is_infallible = { λ _. ⊤ };

    fn clone(&self) -> Result<OctetStore<S>, AllocError> {
        Ok(OctetStore {
            octets: self.octets,
        })
    }
}

impl<S: HoldsOctets> fmt::Debug for OctetStore<S> {
    fn fmt<W: fmt::Write>(&self, f: &mut fmt::Formatter<W>) -> fmt::Result {
        self.as_slice().fmt(f)
    }
}

impl<S: HoldsOctets> PartialEq for OctetStore<S> {
    ghost eq = { pointwise ◌==◌ };

    ghost laws = { Prim.search (comparing, rules) };

    fn eq(&self, other: &OctetStore<S>) -> bool {
        self.as_slice() == other.as_slice()
    }
}

impl<S: HoldsOctets> Eq for OctetStore<S> {
    ghost laws = { Prim.search (comparing, rules) };
}

impl<S: HoldsOctets> Hash for OctetStore<S> {
    ghost hash_input = { fed.slice fed.u8 };

    ghost respects_eq = { Prim.search (hashing, rules) };

    fn hash<H: Hasher>(&self, state: &mut H) {
        self.as_slice().hash(state);
    }
}

impl<S: HoldsOctets> Ord for OctetStore<S> {
    ghost cmp = { slice_cmp nat_cmp };

    ghost total = { Prim.search (comparing, rules) };

    ghost matches_partial_cmp = { Prim.search (comparing, rules) };

    ghost matches_eq = { Prim.search (comparing, rules) };

    fn cmp(&self, other: &OctetStore<S>) -> Ordering {
        self.as_slice().cmp(other.as_slice())
    }
}

impl<S: HoldsOctets> PartialOrd for OctetStore<S> {
    ghost partial_cmp = { as_partial_cmp (slice_cmp nat_cmp) };

    ghost laws = { partial_order_from_own_ties (Prim.search (comparing, rules)) (Prim.search (comparing, rules)) };

    fn partial_cmp(&self, other: &OctetStore<S>) -> Option<Ordering> {
        Some(self.cmp(other))
    }
}
