//! The places of records, by the path of the owner and the type.

ghost use Rattle.std.specs.Prelude.{◌≡◌, ◌<◌, ◌++◌, ◌∷◌, [], ℕ, List, length, nat_eq, if◌then◌else◌, ◌&&◌, ◌||◌, is_some, IsSome, IfOk, OnOk, MatchOption, None};
ghost use Rattle.std.specs.Str.{bytes_eq};

use crate::kinds::{Kinds, find_kind, first_kinds, put_kind};
use dns_base::Record;
use dns_name::OutOfMemory;
use std::alloc::Global;
use std::collections::BTreeMap;
use std::ops::Bound;

/// The places of the records of a list, by the path of the owner and the type.
#[derive(Drop)]
pub(crate) struct NamePlaces {
    pub(crate) kinds: BTreeMap<Vec<u8>, Kinds>,
}

impl NamePlaces {
    ghost use Rattle.std.specs.List.{list_any};
    ghost use Rattle.dns_message.specs.declared.record.Record.{Record};
    ghost use Rattle.std.specs.Option.{option_copied};
    ghost use Rattle.dns_zone.specs.ZoneIndex.{KnowsPlaces, Puts, begins_at, kinds_under, places_under};

    /// An index of no records.
    pub(crate) fn new(alloc: Global) -> NamePlaces
        ensures { KnowsPlaces result [] }
    {
        NamePlaces {
            kinds: BTreeMap::new(alloc),
        }
    }

    /// Keeps a place of a type under a path that is there.
    fn put_behind(
        &mut self,
        alloc: Global,
        path: &[u8],
        rtype: u16,
        place: usize,
    ) -> Result<(), OutOfMemory>
        requires { IsSome (kinds_under self.old path.now) }
        ensures { OnOk result (Puts self.old path.now rtype place self.new) }
    {
        match self.kinds.get_mut(path) {
            Some(kinds) => put_kind(kinds, alloc, rtype, place),
            None => unreachable!(),
        }
    }

    /// Keeps a place of a type under a path.
    pub(crate) fn put(
        &mut self,
        alloc: Global,
        path: Vec<u8>,
        rtype: u16,
        place: usize,
    ) -> Result<(), OutOfMemory>
        ensures { OnOk result (Puts self.old path.items rtype place self.new) }
    {
        let octets = path.as_slice();
        if self.kinds.contains_key(octets) {
            return self.put_behind(alloc, octets, rtype, place);
        }
        let kinds = first_kinds(alloc, rtype, place)?;
        self.kinds.insert(path, kinds)?;
        Ok(())
    }

    /// What is kept under a path.
    pub(crate) fn kinds_at(&self, path: &[u8]) -> Option<&Kinds>
        ensures { option_copied result ≡ kinds_under self.now path.now }
    {
        self.kinds.get(path)
    }

    /// The places that are kept under a path and a type, if there are any.
    pub(crate) fn find(&self, path: &[u8], rtype: u16) -> Option<&[usize]>
        ensures { MatchOption result (places_under self.now path.now rtype ≡ [])
            (λ s. (s.now ≡ places_under self.now path.now rtype) × (0 < length s.now)) }
    {
        match self.kinds.get(path) {
            Some(kinds) => find_kind(kinds, rtype),
            None => None,
        }
    }

    /// Whether a path that is kept begins with a path. The least of those that aren't before it does, if any does.
    pub(crate) fn has_behind(&self, path: &Vec<u8>) -> bool
        ensures { (rs : List Record) → KnowsPlaces self.now rs → result ≡ list_any (begins_at path.now.items) rs }
    {
        let from = (Bound::Included(path), Bound::Unbounded);
        match self.kinds.range(from).next() {
            Some((key, _)) => key.as_slice().starts_with(path.as_slice()),
            None => false,
        }
    }
}
