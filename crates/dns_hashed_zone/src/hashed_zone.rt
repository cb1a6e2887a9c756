//! A zone that is signed with NSEC3.

ghost use Rattle.std.specs.Prelude.{◌≡◌, ◌+◌, ◌++◌, length, None, IfOk, IsTrue, MatchResult, OnOk};
ghost use Rattle.std.specs.List.{slice_get};
ghost use Rattle.std.specs.Option.{option_copied};
ghost use Rattle.dns_route.specs.Routes.{ends_name};
ghost use Rattle.dns_zone.specs.Owned.{AreLawful};
ghost use Rattle.dns_zone_tree.specs.TreeErrors.{tree_error};
ghost use Rattle.dns_denial.specs.Nsec3.{IsWhole3, is_matched};
ghost use Rattle.dns_hashed_zone.specs.HashedStates.{all_records, items_of, joined};
ghost use Rattle.dns_hashed_zone.specs.MadeHashed.{AreSized, IsBroken, IsChainedAs3, IsGrouped, IsMadeOf3, IsRefusedAs3, Refuses3};
ghost use Rattle.dns_hashed_zone.specs.Searches.{IsFound, near_place};

use crate::check::checked;
use crate::groups::{Parts, grouped, parted};
use crate::hashed_zone_error::{HashedChainError, HashedZoneError};
use crate::search::{HashedName, Near, found, near_of};
use dns_base::Record;
use dns_denial::{HashedChain, Hashing};
use dns_name::{Name, NameRef, OutOfMemory};
use dns_nsec3_data::{HashedNames, Nsec3Error, hashed_names_in};
use dns_route::matches_are_suffixes;
use dns_zone_tree::ZoneTree;
use std::alloc::Global;
use std::marker::Model;

/// A zone whose chain of NSEC3s is whole.
#[derive(Drop)]
pub struct HashedZone {
    zone: ZoneTree,
    hashing: Hashing,
    chain: HashedChain,
    groups: Vec<Vec<Record>>,
    count: usize,
}

impl Model for HashedZone {
    ghost use Rattle.dns_hashed_zone.specs.HashedStates.{HashedState, IsKept, items_of};

    ghost Value = { HashedState };

    ghost view = { λ s. record { zone = s.zone; hashing = s.hashing; nsec3s = s.chain; groups = items_of s.groups.items } };

    ghost invariant = { λ s. IsKept (record { zone = s.zone; hashing = s.hashing; nsec3s = s.chain; groups = items_of s.groups.items })
        s.count };
}

/// Adds copies of records.
fn add_records(alloc: Global, records: &[Record], into: &mut Vec<Record>) -> Result<(), OutOfMemory>
    ensures { OnOk result (into.new.items ≡ into.old.items ++ records.now) }
{
    'each: for resource in records {
        let copy = resource.try_clone(alloc)?;
        into.push(copy)?;
    }
    Ok(())
}

/// The records of each NSEC3 of a chain that is whole.
fn groups_of(
    alloc: Global,
    zone: &ZoneTree,
    hashing: &Hashing,
    chain: &HashedChain,
    hashed: Vec<Record>,
) -> Result<Vec<Vec<Record>>, HashedChainError>
    requires zone { tree_error zone.now.apex zone.now.records ≡ None }
    requires sized { AreSized chain.now }
    ensures { MatchResult result (λ v. IsGrouped zone.now hashing.now chain.now hashed.items (items_of v.items))
        (IsBroken zone.now hashing.now chain.now hashed.items) }
{
    let nsecs = chain.nsecs();
    checked(zone, alloc, hashing, nsecs)?;
    grouped(alloc, zone.apex(), nsecs, hashed)
}

/// The zone of names with its chain, and the records of that.
fn chained(
    alloc: Global,
    zone: ZoneTree,
    names: HashedNames,
    hashed: Vec<Record>,
    count: usize,
) -> Result<HashedZone, HashedZoneError>
    requires zone { tree_error zone.apex zone.records ≡ None }
    requires sized { AreSized names.chain }
    requires lawful { AreLawful hashed.items }
    requires count { count ≡ length zone.records + length hashed.items }
    ensures { MatchResult result (λ s. IsChainedAs3 zone names hashed.items s) (IsRefusedAs3 zone names hashed.items) }
{
    let HashedNames { hashing, chain } = names;
    match groups_of(alloc, &zone, &hashing, &chain, hashed) {
        Ok(groups) => Ok(HashedZone {
            zone,
            hashing,
            chain,
            groups,
            count,
        }),
        Err(error) => Err(HashedZoneError::Chain(error)),
    }
}

impl HashedZone {
    /// The zone that begins at an apex and has these records, with the chain of its NSEC3 records. Refused for a cause of
    /// `HashedZoneError`.
    pub fn of(
        alloc: Global,
        apex: Name,
        records: Vec<Record>,
    ) -> Result<HashedZone, HashedZoneError>
        requires { AreLawful records.items }
        ensures { MatchResult result (IsMadeOf3 (record { apex = apex; records = records.items }))
            (Refuses3 (record { apex = apex; records = records.items })) }
    {
        let names = match hashed_names_in(alloc, &apex, records.as_slice()) {
            Ok(names) => names,
            Err(error) => return Err(HashedZoneError::Nsec3(error)),
        };
        let count = records.len();
        let Ok(parts) = parted(alloc, records) else {
            return Err(HashedZoneError::Nsec3(Nsec3Error::OutOfMemory));
        };
        let Parts { named, hashed } = parts;
        match ZoneTree::new(alloc, apex, named) {
            Ok(zone) => chained(alloc, zone, names, hashed, count),
            Err(error) => Err(HashedZoneError::Tree(error)),
        }
    }

    /// The zone, without NSEC3 records and the RRSIGs that cover them.
    pub fn zone(&self) -> &ZoneTree
        ensures { result.now ≡ self.now.zone }
    {
        &self.zone
    }

    /// The chain, which is whole. The data of its NSEC3 records and of their RRSIGs can be written.
    pub fn chain(&self) -> &HashedChain
        ensures value { result.now ≡ self.now.nsec3s }
        ensures whole { IsWhole3 self.now.zone self.now.hashing result.now }
        ensures lawful { AreLawful (joined self.now.groups) }
    {
        &self.chain
    }

    /// Whether a name is at or below the apex.
    pub fn is_in_zone(&self, name: &NameRef<'_>) -> bool
        ensures { result ≡ ends_name name.now self.now.zone.apex }
    {
        matches_are_suffixes();
        name.ends_with(&self.zone.apex().for_ref())
    }

    /// The NSEC3s of a name at or below the apex.
    pub fn search<'n>(
        &self,
        alloc: Global,
        name: &NameRef<'n>,
    ) -> Result<HashedName<'n>, OutOfMemory>
        requires { IsTrue (ends_name name.now self.now.zone.apex) }
        ensures { IfOk result (IsFound self.now.hashing self.now.nsec3s name.now) }
    {
        found(self.chain.nsecs(), alloc, &self.hashing, name)
    }

    /// The NSEC3 that matches or covers a name.
    pub fn near(&self, alloc: Global, name: &NameRef<'_>) -> Result<Near, OutOfMemory>
        ensures place { IfOk result (λ n. n.place ≡ near_place self.now.hashing self.now.nsec3s name.now) }
        ensures matched { IfOk result (λ n. n.matched ≡ is_matched self.now.hashing self.now.nsec3s name.now) }
    {
        near_of(self.chain.nsecs(), alloc, &self.hashing, name)
    }

    /// The NSEC3 record of a place, with its RRSIGs; none if there is no such place.
    pub fn group(&self, place: usize) -> Option<&[Record]>
        ensures { option_copied result ≡ slice_get self.now.groups place }
    {
        match self.groups.as_slice().get(place) {
            Some(group) => Some(group.as_slice()),
            None => None,
        }
    }

    /// How many records it has, NSEC3 records and their RRSIGs too.
    pub fn record_count(&self) -> usize
        ensures { result ≡ length (all_records self.now) }
    {
        self.count
    }

    /// A copy of all its records: those of names, and after them the NSEC3 records with their RRSIGs in the order of their hashes.
    pub fn all_records(&self, alloc: Global) -> Result<Vec<Record>, OutOfMemory>
        ensures value { IfOk result (λ v. v.items ≡ all_records self.now) }
        ensures lawful { IfOk result (λ v. AreLawful v.items) }
    {
        let mut all = Vec::new(alloc);
        add_records(alloc, self.zone.records(), &mut all)?;
        'each: for group in &self.groups {
            add_records(alloc, group.as_slice(), &mut all)?;
        }
        Ok(all)
    }
}
