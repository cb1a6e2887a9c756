//! Records of a zone in wire form.

ghost use Rattle.std.specs.Prelude.{◌≡◌, ◌++◌, ◌∷◌, [], map, IfOk, OnOk};
ghost use Rattle.dns_base.specs.Records.{record_of};
ghost use Rattle.dns_zone.specs.Owned.{AreLawful};
ghost use Rattle.dns_zone.specs.Places.{at_places};
ghost use Rattle.dns_zone_tree.specs.Kinds.{kind_places, places_of};

use crate::kinds::{Kinds, TypedPlace, record_at};
use crate::zone_tree::ZoneTree;
use dns_base::{Record, WireRecords};
use dns_name::OutOfMemory;
use std::alloc::Global;

/// Adds the record at a place, if there is one.
fn add_place(
    alloc: Global,
    records: &[Record],
    place: usize,
    into: &mut WireRecords,
) -> Result<(), OutOfMemory>
    requires { AreLawful records.now }
    ensures { OnOk result (into.new ≡ into.old ++ map record_of (at_places records.now (place ∷ []))) }
{
    match record_at(records, place) {
        Some(record) => into.push(alloc, record),
        None => Ok(()),
    }
}

/// The records at places, in wire form.
pub(crate) fn wire_places(
    alloc: Global,
    records: &[Record],
    places: &[usize],
) -> Result<WireRecords, OutOfMemory>
    requires { AreLawful records.now }
    ensures { IfOk result (λ w. w ≡ map record_of (at_places records.now places.now)) }
{
    let mut all = WireRecords::new(alloc);
    'each: for place in places {
        add_place(alloc, records, *place, &mut all)?;
    }
    Ok(all)
}

/// Adds the record at a place, if it is of a type.
fn add_kind(
    alloc: Global,
    records: &[Record],
    kind: &TypedPlace,
    rtype: u16,
    into: &mut WireRecords,
) -> Result<(), OutOfMemory>
    requires { AreLawful records.now }
    ensures { OnOk result (into.new ≡ into.old ++ map record_of (at_places records.now (places_of rtype (kind.now ∷ [])))) }
{
    match kind.record(records, rtype) {
        Some(record) => into.push(alloc, record),
        None => Ok(()),
    }
}

/// Adds the records of a type at places, one after another.
fn add_kinds(
    alloc: Global,
    records: &[Record],
    kinds: &[TypedPlace],
    rtype: u16,
    into: &mut WireRecords,
) -> Result<(), OutOfMemory>
    requires { AreLawful records.now }
    ensures { OnOk result (into.new ≡ into.old ++ map record_of (at_places records.now (places_of rtype kinds.now))) }
{
    'each: for kind in kinds {
        add_kind(alloc, records, kind, rtype, into)?;
    }
    Ok(())
}

impl ZoneTree {
    /// Adds the records of a type of a name in wire form, given the places of its records.
    pub fn write_kind(
        &self,
        alloc: Global,
        kinds: &Kinds,
        rtype: u16,
        into: &mut WireRecords,
    ) -> Result<(), OutOfMemory>
        ensures { OnOk result (into.new ≡ into.old ++ map record_of (at_places self.now.records (kind_places rtype kinds.now))) }
    {
        add_kinds(alloc, self.records(), kinds.as_slice(), rtype, into)
    }
}
