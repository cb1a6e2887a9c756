//! The records of a zone, in the bunches of a transfer.

ghost use Rattle.std.specs.Prelude.{◌≡◌, ◌≤◌, IfOk, length};
ghost use Rattle.std.specs.Option.{option_copied};
ghost use Rattle.std.specs.List.{slice_get};
ghost use Rattle.dns_zone.specs.Owned.{AreLawful};
ghost use Rattle.dns_transfer.specs.Transfers.{bunched, sent_records};

use crate::packing::Packing;
use dns_base::{Record, WireRecords};
use dns_name::OutOfMemory;
use std::alloc::Global;
use std::marker::Model;

/// Records in bunches, each of which one reply has. Contracts see the list of the bunches.
#[derive(Drop)]
pub struct Bunches {
    bunches: Vec<WireRecords>,
}

impl Model for Bunches {
    ghost use Rattle.std.specs.Prelude.{List};
    ghost use Rattle.dns_base.specs.Msg.{ResourceRecord};

    ghost Value = { List (List ResourceRecord) };

    ghost view = { λ b. b.bunches.items };
}

impl Bunches {
    /// Those of a zone that has these records.
    pub fn of(alloc: Global, records: &[Record]) -> Result<Bunches, OutOfMemory>
        requires { AreLawful records.now }
        ensures { IfOk result (λ b. b ≡ bunched (sent_records records.now)) }
    {
        let mut packing = Packing::new(alloc);
        packing.pack_soa(alloc, records)?;
        packing.pack_others(alloc, records)?;
        packing.pack_soa(alloc, records)?;
        let bunches = packing.finish()?;
        Ok(Bunches { bunches })
    }

    /// How many there are.
    pub(crate) fn len(&self) -> usize
        ensures value { result ≡ length self.now }
        ensures few { result ≤ 9223372036854775807 }
    {
        self.bunches.len()
    }

    /// The bunch at a place.
    pub(crate) fn get(&self, place: usize) -> Option<&WireRecords>
        ensures { option_copied result ≡ slice_get self.now place }
    {
        self.bunches.get(place)
    }
}
