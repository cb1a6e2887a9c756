//! NSEC3 records in the order of their hashes (RFC 5155).

ghost use Rattle.std.specs.Prelude.{◌≡◌, ◌≤◌, ◌<◌, ◌-◌, length, true, false, not, ◌↔◌, IsTrue, MatchOption};
ghost use Rattle.std.specs.Str.{bytes_eq};
ghost use Rattle.std.specs.List.Sorted.{IsPartitionPoint};
ghost use Rattle.dns_denial.specs.Hashes.{AreSorted3, is_up_to3};
ghost use Rattle.dns_denial.specs.Nsec3.{IsNearest, Nsec3State, is_lower};

use std::marker::Model;

/// An NSEC3 record: the hash of its owner, the flag Opt-Out, the next hash and the types (RFC 5155, section 3.1).
#[derive(Drop)]
pub struct Nsec3 {
    hash: [u8; 20],
    opt_out: bool,
    next: [u8; 20],
    types: Vec<u16>,
}

impl Model for Nsec3 {
    ghost use Rattle.dns_denial.specs.Nsec3.{Nsec3State};

    ghost Value = { Nsec3State };

    ghost view = { λ n. record { hash = n.hash; opt_out = n.opt_out; next = n.next; types = n.types.items } };
}

impl Nsec3 {
    /// An NSEC3 of these hashes and types.
    pub fn new(hash: [u8; 20], opt_out: bool, next: [u8; 20], types: Vec<u16>) -> Nsec3
        ensures { result ≡ record { hash = hash; opt_out = opt_out; next = next; types = types.items } }
    {
        Nsec3 {
            hash,
            opt_out,
            next,
            types,
        }
    }

    /// The hash of its owner.
    pub fn hash(&self) -> &[u8; 20]
        ensures { result.now ≡ self.now.hash }
    {
        &self.hash
    }

    /// Whether Opt-Out is set (RFC 5155, section 3.1.2.1).
    pub fn opt_out(&self) -> bool
        ensures { result ≡ self.now.opt_out }
    {
        self.opt_out
    }

    /// The next hash in the order of hashes (RFC 5155, section 3.1.7).
    pub fn next(&self) -> &[u8; 20]
        ensures { result.now ≡ self.now.next }
    {
        &self.next
    }

    /// The types of the type bit maps.
    pub fn types(&self) -> &[u16]
        ensures { result.now ≡ self.now.types }
    {
        self.types.as_slice()
    }

    /// Whether a hash is that of its owner.
    pub(crate) fn is_of(&self, hash: &[u8]) -> bool
        ensures { result ≡ bytes_eq self.now.hash hash.now }
    {
        let own: &[u8] = &self.hash;
        own == hash
    }

    /// Whether its hash is below another's.
    fn is_before(&self, other: &Nsec3) -> bool
        ensures { result ≡ is_lower self.now.hash other.now.hash }
    {
        let own: &[u8] = &self.hash;
        let others: &[u8] = &other.hash;
        own.cmp(others).is_lt()
    }

    /// Whether its hash is not above another.
    fn is_up_to(&self, hash: &[u8]) -> bool
        ensures { result ≡ is_up_to3 hash.now self.now }
    {
        let own: &[u8] = &self.hash;
        !hash.cmp(own).is_lt()
    }
}

/// NSEC3s in the order of their hashes.
#[derive(Drop)]
pub struct HashedChain {
    nsecs: Vec<Nsec3>,
}

impl Model for HashedChain {
    ghost use Rattle.std.specs.Prelude.{List};
    ghost use Rattle.dns_denial.specs.Hashes.{AreSorted3};
    ghost use Rattle.dns_denial.specs.Nsec3.{Nsec3State};

    ghost Value = { List Nsec3State };

    ghost view = { λ c. c.nsecs.items };

    ghost invariant = { λ c. AreSorted3 c.nsecs.items };
}

/// How many NSEC3s have a hash that is not above another.
fn count_up_to(nsecs: &[Nsec3], hash: &[u8]) -> usize
    requires { AreSorted3 nsecs.now }
    ensures bound { result ≤ length nsecs.now }
    ensures point { IsPartitionPoint (λ n. is_up_to3 hash.now n ≡ true) (λ n. is_up_to3 hash.now n ≡ false) nsecs.now result }
{
    nsecs.partition_point(|nsec| nsec.is_up_to(hash))
}

/// The NSEC3 that matches or covers a hash.
pub(crate) fn nearest<'a>(nsecs: &'a [Nsec3], hash: &[u8]) -> &'a Nsec3
    requires sorted { AreSorted3 nsecs.now }
    requires some { 0 < length nsecs.now }
    ensures { IsNearest nsecs.now hash.now result.now }
{
    let count = count_up_to(nsecs, hash);
    if count == 0 {
        return &nsecs[nsecs.len() - 1];
    }
    &nsecs[count - 1]
}

/// Whether each hash is below those after it.
fn are_sorted(nsecs: &[Nsec3]) -> bool
    ensures { IsTrue result ↔ AreSorted3 nsecs.now }
{
    'each: for place in 1..nsecs.len() {
        if !nsecs[place - 1].is_before(&nsecs[place]) {
            return false;
        }
    }
    true
}

impl HashedChain {
    /// The chain of NSEC3s that are in the order of their hashes, no two of one hash; none of others.
    pub fn of(nsecs: Vec<Nsec3>) -> Option<HashedChain>
        ensures { MatchOption result (AreSorted3 nsecs.items → ⊥) (λ c. c ≡ nsecs.items) }
    {
        if are_sorted(nsecs.as_slice()) {
            return Some(HashedChain { nsecs });
        }
        None
    }

    /// The NSEC3s, in order.
    pub fn nsecs(&self) -> &[Nsec3]
        ensures value { result.now ≡ self.now }
        ensures sorted { AreSorted3 result.now }
    {
        self.nsecs.as_slice()
    }
}
