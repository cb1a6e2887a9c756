//! NSEC records (RFC 4034, section 4).

ghost use Rattle.std.specs.Prelude.{◌≡◌, ℕ, List, IfOk};
ghost use Rattle.dns_order.specs.Keys.{canonical_key};
ghost use Rattle.dns_route.specs.Routes.{ends_name};
ghost use Rattle.dns_denial.specs.Nsecs.{is_before, is_up_to, lists};

use dns_name::{Name, NameRef, OutOfMemory};
use dns_order::{canonical_key, keys_are_ordered};
use dns_route::matches_are_suffixes;
use std::alloc::Global;
use std::marker::Model;

/// An NSEC record: its owner, the next name, and the types that the owner has (RFC 4034, section 4.1).
#[derive(Drop)]
pub struct Nsec {
    key: Vec<u8>,
    owner: Name,
    next: Name,
    types: Vec<u16>,
}

impl Model for Nsec {
    ghost use Rattle.std.specs.Prelude.{◌≡◌};
    ghost use Rattle.dns_order.specs.Keys.{canonical_key};
    ghost use Rattle.dns_denial.specs.Nsecs.{NsecState};

    ghost Value = { NsecState };

    ghost view = { λ n. record { owner = n.owner; next = n.next; types = n.types.items } };

    ghost invariant = { λ n. n.key.items ≡ canonical_key n.owner };
}

impl Nsec {
    /// An NSEC of these names and types, in any order.
    pub fn new(alloc: Global, owner: Name, next: Name, types: Vec<u16>) -> Result<Nsec, OutOfMemory>
        ensures { IfOk result (λ n. n ≡ record { owner = owner; next = next; types = types.items }) }
    {
        let key = canonical_key(alloc, &owner.for_ref())?;
        Ok(Nsec {
            key,
            owner,
            next,
            types,
        })
    }

    /// The name that owns it.
    pub fn owner(&self) -> &Name
        ensures { result.now ≡ self.now.owner }
    {
        &self.owner
    }

    /// The next name in canonical order that has an NSEC; of the last one the apex.
    pub fn next(&self) -> &Name
        ensures { result.now ≡ self.now.next }
    {
        &self.next
    }

    /// The types that the owner has.
    pub fn types(&self) -> &[u16]
        ensures { result.now ≡ self.now.types }
    {
        self.types.as_slice()
    }

    /// Whether a type is among them.
    pub fn lists(&self, rtype: u16) -> bool
        ensures { result ≡ lists self.now rtype }
    {
        self.types.as_slice().iter().any(|listed| rtype == *listed)
    }

    /// The key of its owner.
    pub(crate) fn key(&self) -> &[u8]
        ensures { result.now ≡ canonical_key self.now.owner }
    {
        self.key.as_slice()
    }

    /// Whether its owner is before another's.
    pub(crate) fn is_before(&self, other: &Nsec) -> bool
        ensures { result ≡ is_before self.now.owner other.now.owner }
    {
        self.owner.name_cmp(&other.owner.for_ref()).is_lt()
    }

    /// Whether its owner isn't after the name of a key.
    pub(crate) fn is_up_to(&self, key: &[u8]) -> bool
        ensures { (name : List (List ℕ)) → key.now ≡ canonical_key name → result ≡ is_up_to name self.now }
    {
        keys_are_ordered();
        !key.cmp(self.key.as_slice()).is_lt()
    }

    /// Whether its owner ends with a name.
    pub(crate) fn is_below(&self, name: &NameRef<'_>) -> bool
        ensures { result ≡ ends_name self.now.owner name.now }
    {
        matches_are_suffixes();
        self.owner.ends_with(name)
    }

    /// Whether its next name ends with a name.
    pub(crate) fn leads_below(&self, name: &NameRef<'_>) -> bool
        ensures { result ≡ ends_name self.now.next name.now }
    {
        matches_are_suffixes();
        self.next.ends_with(name)
    }
}
