//! The zones of before another configuration.

ghost use Rattle.std.specs.Prelude.{◌≡◌, IfOk};
ghost use Rattle.std.specs.List.{position};
ghost use Rattle.dns_zone_copies.specs.Following.{IsKnown, IsPlaceOf, is_its};

use crate::secondary::Secondary;
use dns_config::ZoneEntry;
use dns_name::OutOfMemory;
use std::alloc::Global;

/// The zones of before, and the place at which the next one stands that is asked for, if they stand in the same order.
#[derive(Drop)]
pub(crate) struct Before<'a> {
    zones: &'a [Secondary],
    next: usize,
}

/// The place of the first zone of an entry.
fn first_of(zones: &[Secondary], entry: &ZoneEntry) -> Option<usize>
    ensures { result ≡ position (is_its entry.now) zones.now }
{
    zones.iter().position(|zone| zone.is_of(entry))
}

impl<'a> Before<'a> {
    /// None was asked for yet.
    pub(crate) fn new(zones: &'a [Secondary]) -> Before<'a>
        ensures { result.zones.now ≡ zones.now }
    {
        Before { zones, next: 0 }
    }

    /// The place of an entry's zone. The next place is tried first.
    fn place_of(&self, entry: &ZoneEntry) -> Option<usize>
        ensures { IsPlaceOf self.now.zones.now entry.now result }
    {
        match self.zones.get(self.next) {
            Some(zone) if zone.is_of(entry) => Some(self.next),
            _ => first_of(self.zones, entry),
        }
    }

    /// What is known of an entry's zone, if it was there before.
    pub(crate) fn known_of(
        &mut self,
        alloc: Global,
        entry: &ZoneEntry,
    ) -> Result<Option<Secondary>, OutOfMemory>
        ensures known { IfOk result (IsKnown self.old.zones.now entry.now) }
        ensures zones { self.new.zones.now ≡ self.old.zones.now }
    {
        match self.place_of(entry) {
            Some(place) => {
                self.next = place.saturating_add(1);
                Ok(Some(self.zones[place].again(alloc)?))
            }
            None => Ok(None),
        }
    }
}
