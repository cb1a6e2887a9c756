//! The addresses of the hosts that a referral names.

ghost use Rattle.std.specs.Prelude.{◌≡◌, ◌||◌, ◌∷◌, [], ℕ, List, nat_eq, IfOk, OnOk};
ghost use Rattle.std.specs.Ordering.{nat_cmp};
ghost use Rattle.std.specs.BTreeSet.{IsOrdered, contains};
ghost use Rattle.std.specs.List.{list_any, slice_get};
ghost use Rattle.dns_zone.specs.Cuts.{glue, is_address_of, is_glue};
ghost use Rattle.dns_zone.specs.Owned.{is_asked};
ghost use Rattle.dns_zone.specs.Paths.{name_path};
ghost use Rattle.dns_zone.specs.Places.{at_places, passes};

use crate::path::path_of_name;
use crate::zone::Zone;
use dns_base::{Name, Rtype};
use dns_name::OutOfMemory;
use std::alloc::Global;
use std::collections::BTreeSet;

/// Adds places to a set.
fn add_all(set: &mut BTreeSet<usize>, places: &[usize]) -> Result<(), OutOfMemory>
    ensures { OnOk result ((i : ℕ) → contains nat_cmp set.new i ≡ (contains nat_cmp set.old i || list_any (nat_eq i) places.now)) }
{
    'each: for place in places {
        set.insert(*place)?;
    }
    Ok(())
}

/// The places of a set, in order.
fn in_order(alloc: Global, set: &BTreeSet<usize>) -> Result<Vec<usize>, OutOfMemory>
    ensures value { IfOk result (λ v. v.items ≡ set.now.keys) }
    ensures ordered { IsOrdered nat_cmp set.now }
{
    let mut places = Vec::with_capacity(alloc, set.len())?;
    'each: for place in set.iter() {
        places.push(*place)?;
    }
    Ok(places)
}

impl Zone {
    /// Adds the places of a host's addresses of a type.
    fn add_owned(
        &self,
        path: &[u8],
        rtype: u16,
        addresses: &mut BTreeSet<usize>,
    ) -> Result<(), OutOfMemory>
        ensures { OnOk result ((name : List (List ℕ)) → path.now ≡ name_path name → (i : ℕ)
            → contains nat_cmp addresses.new i ≡ (contains nat_cmp addresses.old i
            || passes (is_asked name rtype) (slice_get self.now.records i))) }
    {
        match self.owned(path, rtype) {
            Some(places) => add_all(addresses, places),
            None => Ok(()),
        }
    }

    /// Adds the places of a host's addresses.
    fn add_host(
        &self,
        alloc: Global,
        host: &Name,
        addresses: &mut BTreeSet<usize>,
    ) -> Result<(), OutOfMemory>
        ensures { OnOk result ((i : ℕ) → contains nat_cmp addresses.new i
            ≡ (contains nat_cmp addresses.old i || passes (is_address_of host.now) (slice_get self.now.records i))) }
    {
        let path = path_of_name(alloc, host)?;
        self.add_owned(path.as_slice(), Rtype::A.to_int(), addresses)?;
        self.add_owned(path.as_slice(), Rtype::AAAA.to_int(), addresses)
    }

    /// Adds the places of the addresses of the host that the record at a place names.
    fn add_server(
        &self,
        alloc: Global,
        place: usize,
        addresses: &mut BTreeSet<usize>,
    ) -> Result<(), OutOfMemory>
        ensures { OnOk result ((i : ℕ) → contains nat_cmp addresses.new i
            ≡ (contains nat_cmp addresses.old i || passes (is_glue (at_places self.now.records (place ∷ [])))
            (slice_get self.now.records i))) }
    {
        match self.target(place) {
            Some(host) => self.add_host(alloc, host, addresses),
            None => Ok(()),
        }
    }

    /// The places of the addresses of the hosts that the records at places name, as a set.
    fn addresses(&self, alloc: Global, servers: &[usize]) -> Result<BTreeSet<usize>, OutOfMemory>
        ensures { IfOk result (λ s. (i : ℕ) → contains nat_cmp s i
            ≡ passes (is_glue (at_places self.now.records servers.now)) (slice_get self.now.records i)) }
    {
        let mut addresses = BTreeSet::new(alloc);
        'each: for place in servers {
            self.add_server(alloc, *place, &mut addresses)?;
        }
        Ok(addresses)
    }

    /// The places of the addresses of the hosts that the records at places name, in order.
    pub(crate) fn glue(&self, alloc: Global, servers: &[usize]) -> Result<Vec<usize>, OutOfMemory>
        ensures { IfOk result (λ v. at_places self.now.records v.items ≡ glue self.now (at_places self.now.records servers.now)) }
    {
        let addresses = self.addresses(alloc, servers)?;
        in_order(alloc, &addresses)
    }
}
