//! The addresses of the hosts that a referral names.

ghost use Rattle.std.specs.Prelude.{◌≡◌, ◌||◌, ◌∷◌, [], ℕ, nat_eq, IfOk, OnOk};
ghost use Rattle.std.specs.Ordering.{nat_cmp};
ghost use Rattle.std.specs.BTreeSet.{IsOrdered, contains};
ghost use Rattle.std.specs.List.{list_any, slice_get};
ghost use Rattle.std.specs.Option.{option_copied};
ghost use Rattle.dns_zone.specs.Cuts.{glue, is_address_at, is_address_of, is_glue};
ghost use Rattle.dns_zone.specs.Owned.{target};
ghost use Rattle.dns_zone.specs.Places.{at_places, passes};
ghost use Rattle.dns_zone_tree.specs.Kinds.{kind_places, places_of};

use crate::kinds::{Kinds, TypedPlace};
use crate::zone_tree::ZoneTree;
use dns_base::{Name, Record, RecordData, Rtype};
use dns_name::OutOfMemory;
use std::alloc::Global;
use std::collections::BTreeSet;

/// Adds a place to a set, if it is of a type.
fn add_kind(set: &mut BTreeSet<usize>, kind: &TypedPlace, rtype: u16) -> Result<(), OutOfMemory>
    ensures { OnOk result ((i : ℕ) → contains nat_cmp set.new i
        ≡ (contains nat_cmp set.old i || list_any (nat_eq i) (places_of rtype (kind.now ∷ [])))) }
{
    match kind.of_type(rtype) {
        Some(place) => {
            set.insert(place)?;
            Ok(())
        }
        None => Ok(()),
    }
}

/// Adds the places of a type to a set.
fn add_all(set: &mut BTreeSet<usize>, kinds: &[TypedPlace], rtype: u16) -> Result<(), OutOfMemory>
    ensures { OnOk result ((i : ℕ) → contains nat_cmp set.new i
        ≡ (contains nat_cmp set.old i || list_any (nat_eq i) (places_of rtype kinds.now))) }
{
    'each: for kind in kinds {
        add_kind(set, kind, rtype)?;
    }
    Ok(())
}

/// Adds the places of the addresses of a name to a set.
fn add_addresses(set: &mut BTreeSet<usize>, kinds: &Kinds) -> Result<(), OutOfMemory>
    ensures { OnOk result ((i : ℕ) → contains nat_cmp set.new i
        ≡ ((contains nat_cmp set.old i || list_any (nat_eq i) (kind_places 1 kinds.now))
        || list_any (nat_eq i) (kind_places 28 kinds.now))) }
{
    add_all(set, kinds.as_slice(), Rtype::A.to_int())?;
    add_all(set, kinds.as_slice(), Rtype::AAAA.to_int())
}

/// The places of a set, in order.
fn in_order(alloc: Global, set: &BTreeSet<usize>) -> Result<Vec<usize>, OutOfMemory>
    ensures value { IfOk result (λ v. v.items ≡ set.now.keys) }
    ensures ordered { IsOrdered nat_cmp set.now }
{
    let mut places = Vec::with_capacity(alloc, set.len())?;
    'each: for place in set.iter() {
        places.push(*place)?;
    }
    Ok(places)
}

/// The name that the data of a record is, if it is one.
pub fn record_target(resource: &Record) -> Option<&Name>
    ensures { option_copied result ≡ target resource.now.rdata }
{
    match &resource.rdata {
        RecordData::Named { name, .. } => Some(name),
        _ => None,
    }
}

impl ZoneTree {
    /// Adds the places of a host's addresses.
    fn add_host(
        &self,
        alloc: Global,
        host: &Name,
        addresses: &mut BTreeSet<usize>,
    ) -> Result<(), OutOfMemory>
        ensures { OnOk result ((i : ℕ) → contains nat_cmp addresses.new i
            ≡ (contains nat_cmp addresses.old i || passes (is_address_of host.now) (slice_get self.now.records i))) }
    {
        let found = self.node(alloc, &host.for_ref())?;
        match found {
            Some(kinds) => add_addresses(addresses, kinds),
            None => Ok(()),
        }
    }

    /// Adds the places of the addresses of the host that a record names.
    fn add_target(
        &self,
        alloc: Global,
        server: &Record,
        addresses: &mut BTreeSet<usize>,
    ) -> Result<(), OutOfMemory>
        ensures { OnOk result ((i : ℕ) → contains nat_cmp addresses.new i
            ≡ (contains nat_cmp addresses.old i || passes (is_address_at (target server.now.rdata)) (slice_get self.now.records i))) }
    {
        match record_target(server) {
            Some(host) => self.add_host(alloc, host, addresses),
            None => Ok(()),
        }
    }

    /// Adds the places of the addresses of the host that the record at a place names, if it is an NS record.
    fn add_server(
        &self,
        alloc: Global,
        kind: &TypedPlace,
        addresses: &mut BTreeSet<usize>,
    ) -> Result<(), OutOfMemory>
        ensures { OnOk result ((i : ℕ) → contains nat_cmp addresses.new i
            ≡ (contains nat_cmp addresses.old i || passes (is_glue (at_places self.now.records (places_of 2 (kind.now ∷ []))))
            (slice_get self.now.records i))) }
    {
        match kind.record(self.records.as_slice(), Rtype::NS.to_int()) {
            Some(server) => self.add_target(alloc, server, addresses),
            None => Ok(()),
        }
    }

    /// The places of the addresses of the hosts that the NS records at places name, as a set.
    fn addresses(&self, alloc: Global, kinds: &[TypedPlace]) -> Result<BTreeSet<usize>, OutOfMemory>
        ensures { IfOk result (λ s. (i : ℕ) → contains nat_cmp s i
            ≡ passes (is_glue (at_places self.now.records (places_of 2 kinds.now))) (slice_get self.now.records i)) }
    {
        let mut addresses = BTreeSet::new(alloc);
        'each: for kind in kinds {
            self.add_server(alloc, kind, &mut addresses)?;
        }
        Ok(addresses)
    }

    /// The places of the addresses of the hosts that the NS records of a name name, in order.
    pub fn glue(&self, alloc: Global, cut: &Kinds) -> Result<Vec<usize>, OutOfMemory>
        ensures { IfOk result (λ v. at_places self.now.records v.items
            ≡ glue self.now (at_places self.now.records (kind_places 2 cut.now))) }
    {
        let addresses = self.addresses(alloc, cut.as_slice())?;
        in_order(alloc, &addresses)
    }
}
