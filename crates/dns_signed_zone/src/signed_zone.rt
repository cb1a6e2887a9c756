//! A signed zone.

ghost use Rattle.std.specs.Prelude.{◌≡◌, [], None, IfOk, IsTrue, MatchResult};
ghost use Rattle.std.specs.Option.{option_copied};
ghost use Rattle.dns_route.specs.Routes.{ends_name};
ghost use Rattle.dns_zone.specs.Places.{at_places};
ghost use Rattle.dns_zone_tree.specs.Kinds.{places_of};
ghost use Rattle.dns_zone_tree.specs.TreeErrors.{tree_error};
ghost use Rattle.dns_denial.specs.Accepted.{servers_owner};
ghost use Rattle.dns_denial.specs.Chains.{IsWhole};
ghost use Rattle.dns_denial.specs.Checks.{Breaks};
ghost use Rattle.dns_zone.specs.Owned.{AreLawful};
ghost use Rattle.dns_signed_zone.specs.MadeZones.{IsMadeOf, Refuses};
ghost use Rattle.dns_signed_zone.specs.SignedZones.{IsOne, IsTwo, Proves, head_of, proofs_in, servers_at};

use crate::reply_proofs::Proofs;
use crate::signed_zone_error::SignedZoneError;
use dns_base::Record;
use dns_denial::{Chain, ChainError};
use dns_name::{Name, NameRef, OutOfMemory};
use dns_nsec_data::chain_in;
use dns_route::matches_are_suffixes;
use dns_zone_tree::{Kinds, TypedPlace, Walk, ZoneTree};
use std::alloc::Global;
use std::marker::Model;

/// The type of the records that make a delegation point (RFC 1034, section 4.2.1).
const NS: u16 = 2;

/// A zone whose chain of NSECs is whole.
#[derive(Drop)]
pub struct SignedZone {
    zone: ZoneTree,
    chain: Chain,
}

impl Model for SignedZone {
    ghost use Rattle.dns_denial.specs.Chains.{IsWhole};
    ghost use Rattle.dns_signed_zone.specs.SignedZones.{SignedState};

    ghost Value = { SignedState };

    ghost view = { λ s. record { zone = s.zone; nsecs = s.chain } };

    ghost invariant = { λ s. IsWhole s.zone s.chain };
}

/// The first NS record at places.
fn first_server<'a>(records: &'a [Record], kinds: &[TypedPlace]) -> Option<&'a Record>
    ensures { option_copied result ≡ head_of (at_places records.now (places_of 2 kinds.now)) }
{
    'each: for kind in kinds {
        if let Some(server) = kind.record(records, NS) {
            return Some(server);
        }
    }
    None
}

/// The NSEC for a name that exists.
fn one<'a>(chain: &'a Chain, alloc: Global, name: &NameRef<'_>) -> Result<Proofs<'a>, OutOfMemory>
    ensures { IfOk result (IsOne chain.now name.now) }
{
    match chain.denial(alloc, name)? {
        Some(nsec) => Ok(Proofs {
            first: Some(nsec),
            second: None,
        }),
        None => Ok(Proofs {
            first: None,
            second: None,
        }),
    }
}

/// The NSECs for a name that doesn't exist.
fn two<'a>(chain: &'a Chain, alloc: Global, name: &NameRef<'_>) -> Result<Proofs<'a>, OutOfMemory>
    ensures { IfOk result (IsTwo chain.now name.now) }
{
    match chain.wildcard_denial(alloc, name)? {
        Some(denial) => Ok(Proofs {
            first: Some(denial.name),
            second: Some(denial.wildcard),
        }),
        None => Ok(Proofs {
            first: None,
            second: None,
        }),
    }
}

/// The NSEC of a delegation point, given the places of its records.
fn at_cut<'a>(
    zone: &ZoneTree,
    chain: &'a Chain,
    alloc: Global,
    kinds: &Kinds,
) -> Result<Proofs<'a>, OutOfMemory>
    requires { servers_at zone.now kinds.now ≡ [] → ⊥ }
    ensures { IfOk result (IsOne chain.now (servers_owner (servers_at zone.now kinds.now))) }
{
    match first_server(zone.records(), kinds.as_slice()) {
        Some(server) => one(chain, alloc, &server.owner.for_ref()),
        None => unreachable!(),
    }
}

/// The NSECs of a chain that prove what the reply of a zone says of a name, if a type is asked for.
fn proofs_of<'a>(
    zone: &ZoneTree,
    chain: &'a Chain,
    alloc: Global,
    name: &NameRef<'_>,
    rtype: u16,
) -> Result<Proofs<'a>, OutOfMemory>
    requires whole { IsWhole zone.now chain.now }
    requires inside { IsTrue (ends_name name.now zone.now.apex) }
    ensures { IfOk result (λ p. Proves (record { zone = zone.now; nsecs = chain.now }) rtype name.now (proofs_in p)) }
{
    let found = zone.walk(alloc, name, rtype)?;
    match found {
        Walk::Node(_) => one(chain, alloc, name),
        Walk::Missing(_) => two(chain, alloc, name),
        Walk::Cut(kinds) => at_cut(zone, chain, alloc, kinds),
        Walk::Dname(_) => Ok(Proofs {
            first: None,
            second: None,
        }),
    }
}

/// A zone with the chain of its NSEC records.
fn chained(alloc: Global, zone: ZoneTree) -> Result<SignedZone, SignedZoneError>
    requires { tree_error zone.apex zone.records ≡ None }
    ensures { MatchResult result (IsMadeOf zone) (Refuses zone) }
{
    match chain_in(alloc, zone.records()) {
        Ok(chain) => match SignedZone::new(alloc, zone, chain) {
            Ok(signed) => Ok(signed),
            Err(error) => Err(SignedZoneError::Chain(error)),
        },
        Err(error) => Err(SignedZoneError::Nsec(error)),
    }
}

impl SignedZone {
    /// The zone that begins at an apex and has these records, with the chain of its NSEC records. Refused for the first of the
    /// causes in the order of `SignedZoneError`.
    pub fn of(
        alloc: Global,
        apex: Name,
        records: Vec<Record>,
    ) -> Result<SignedZone, SignedZoneError>
        requires { AreLawful records.items }
        ensures { MatchResult result (IsMadeOf (record { apex = apex; records = records.items }))
            (Refuses (record { apex = apex; records = records.items })) }
    {
        match ZoneTree::new(alloc, apex, records) {
            Ok(zone) => chained(alloc, zone),
            Err(error) => Err(SignedZoneError::Tree(error)),
        }
    }

    /// The zone with its chain. Refused if the chain isn't whole.
    pub fn new(alloc: Global, zone: ZoneTree, chain: Chain) -> Result<SignedZone, ChainError>
        requires { tree_error zone.apex zone.records ≡ None }
        ensures { MatchResult result (λ s. s ≡ record { zone = zone; nsecs = chain }) (λ e. Breaks zone chain e) }
    {
        match chain.check(alloc, &zone) {
            Ok(()) => Ok(SignedZone { zone, chain }),
            Err(error) => Err(error),
        }
    }

    /// The zone.
    pub fn zone(&self) -> &ZoneTree
        ensures { result.now ≡ self.now.zone }
    {
        &self.zone
    }

    /// The chain, which is whole.
    pub fn chain(&self) -> &Chain
        ensures value { result.now ≡ self.now.nsecs }
        ensures whole { IsWhole self.now.zone result.now }
    {
        &self.chain
    }

    /// Whether a name is at or below the apex, so that `proofs` can be asked for it.
    pub fn is_in_zone(&self, name: &NameRef<'_>) -> bool
        ensures { result ≡ ends_name name.now self.now.zone.apex }
    {
        matches_are_suffixes();
        name.ends_with(&self.zone.apex().for_ref())
    }

    /// The NSECs that prove what the reply to a question says of a name, if a type is asked for: they are the zone's, and a
    /// validator accepts them.
    pub fn proofs(
        &self,
        alloc: Global,
        name: &NameRef<'_>,
        rtype: u16,
    ) -> Result<Proofs<'_>, OutOfMemory>
        requires { IsTrue (ends_name name.now self.now.zone.apex) }
        ensures { IfOk result (λ p. Proves self.now rtype name.now (proofs_in p)) }
    {
        proofs_of(&self.zone, &self.chain, alloc, name, rtype)
    }
}
