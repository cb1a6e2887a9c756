//! Places of the records of one name, with their types.

ghost use Rattle.std.specs.Prelude.{◌≡◌, ◌<◌, ◌++◌, ◌∷◌, [], length, IfOk, IfSome, IsTrue, OnOk, MatchBool, MatchOption};
ghost use Rattle.std.specs.List.{count_by, list_any, slice_get};
ghost use Rattle.std.specs.Option.{option_copied};
ghost use Rattle.dns_base.specs.Records.{IsLawful};
ghost use Rattle.dns_zone.specs.Owned.{AreLawful};
ghost use Rattle.dns_zone.specs.Places.{at_places};
ghost use Rattle.dns_zone_tree.specs.TypedPlaces.{head_record, is_kind, places_of};

use crate::places::Places;
use dns_base::{Record, Rtype};
use dns_name::OutOfMemory;
use std::alloc::Global;

/// The type that asks for any (RFC 1035, section 3.2.3).
pub const ANY: u16 = 255;

/// The place of a record in a list, and the record's type.
#[derive(Clone, Copy, Default)]
pub struct TypedPlace {
    rtype: u16,
    place: u32,
}

/// The record at a place, if there is one.
pub fn record_at(records: &[Record], place: usize) -> Option<&Record>
    ensures { option_copied result ≡ slice_get records.now place }
{
    records.get(place)
}

/// The record at the first of some places, if there is one.
pub(crate) fn first_record<'a>(records: &'a [Record], kinds: &[TypedPlace]) -> Option<&'a Record>
    ensures { option_copied result ≡ head_record records.now kinds.now }
{
    match kinds.first() {
        Some(kind) => record_at(records, kind.place()),
        None => None,
    }
}

impl TypedPlace {
    /// The place of a record of a type.
    pub(crate) fn new(rtype: u16, place: u32) -> TypedPlace
        ensures { result ≡ record { rtype = rtype; place = place } }
    {
        TypedPlace { rtype, place }
    }

    /// Whether it is another one.
    pub(crate) fn is_same(&self, other: &TypedPlace) -> bool
        ensures { IsTrue result → self.now ≡ other.now }
    {
        self.rtype == other.rtype && self.place == other.place
    }

    /// The place.
    pub(crate) fn place(&self) -> usize
        ensures { result ≡ self.now.place }
    {
        self.place as usize
    }

    /// Whether the record has a type; type 255 asks for any.
    pub(crate) fn is_of(&self, rtype: u16) -> bool
        ensures { result ≡ is_kind rtype self.now }
    {
        rtype == ANY || self.rtype == rtype
    }

    /// The place, if the record has a type.
    pub(crate) fn of_type(&self, rtype: u16) -> Option<usize>
        ensures { MatchOption result (places_of rtype (self.now ∷ []) ≡ []) (λ p. places_of rtype (self.now ∷ []) ≡ p ∷ []) }
    {
        if self.is_of(rtype) {
            return Some(self.place as usize);
        }
        None
    }

    /// The record of a list at the place, if it has a type.
    pub fn record<'a>(&self, records: &'a [Record], rtype: u16) -> Option<&'a Record>
        ensures value { MatchOption result (at_places records.now (places_of rtype (self.now ∷ [])) ≡ [])
            (λ r. at_places records.now (places_of rtype (self.now ∷ [])) ≡ r.now ∷ []) }
        ensures lawful { AreLawful records.now → IfSome result (λ r. IsLawful r.now.rdata) }
    {
        match self.of_type(rtype) {
            Some(place) => record_at(records, place),
            None => None,
        }
    }
}

/// The places of the records of a name, with their types, in the order of the list.
#[derive(Drop)]
pub struct Kinds {
    places: Places,
}

impl Kinds {
    ghost use Rattle.dns_zone_tree.specs.Kinds.{kind_places};

    /// No places.
    pub(crate) fn new() -> Kinds
        ensures { result.places.items ≡ [] }
    {
        Kinds {
            places: Places::new(),
        }
    }

    /// A copy.
    pub(crate) fn try_clone(&self, alloc: Global) -> Result<Kinds, OutOfMemory>
        ensures { IfOk result (λ m. m.places.items ≡ self.now.places.items) }
    {
        let places = self.places.try_clone(alloc)?;
        Ok(Kinds { places })
    }

    /// Keeps a place after the others.
    pub(crate) fn push(&mut self, alloc: Global, kind: TypedPlace) -> Result<(), OutOfMemory>
        ensures { OnOk result (self.new.places.items ≡ self.old.places.items ++ kind ∷ []) }
    {
        self.places.push(alloc, kind)
    }

    /// All places, in order.
    pub fn as_slice(&self) -> &[TypedPlace]
        ensures { result.now ≡ self.now.places.items }
    {
        self.places.as_slice()
    }

    /// Whether there is a place of a type; of type 255 any.
    pub fn has(&self, rtype: u16) -> bool
        ensures { MatchBool result (0 < length (kind_places rtype self.now)) (kind_places rtype self.now ≡ []) }
    {
        if rtype == Rtype::NS.to_int() {
            return self.places.has_servers();
        }
        if rtype == Rtype::DNAME.to_int() {
            return self.places.has_dname();
        }
        has_kind(self.as_slice(), rtype)
    }

    /// How many places of a type there are.
    pub(crate) fn count(&self, rtype: u16) -> usize
        ensures { result ≡ length (kind_places rtype self.now) }
    {
        count_kinds(self.as_slice(), rtype)
    }
}

/// Whether one of some places is of a type.
fn has_kind(kinds: &[TypedPlace], rtype: u16) -> bool
    ensures { result ≡ list_any (is_kind rtype) kinds.now }
{
    'each: for kind in kinds {
        if kind.is_of(rtype) {
            return true;
        }
    }
    false
}

/// How many of some places are of a type.
fn count_kinds(kinds: &[TypedPlace], rtype: u16) -> usize
    ensures { result ≡ count_by (is_kind rtype) kinds.now }
{
    kinds.iter().filter(|kind| kind.is_of(rtype)).count()
}
