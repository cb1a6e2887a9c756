//! Records that are put into bunches.

ghost use Rattle.std.specs.Prelude.{◌≡◌, ◌++◌, ◌∷◌, [], List, OnOk, IfOk, map, ◌&&◌, ◌||◌, true};
ghost use Rattle.std.specs.List.{filter};
ghost use Rattle.dns_base.specs.Msg.{ResourceRecord};
ghost use Rattle.dns_base.specs.Records.{IsLawful, record_of};
ghost use Rattle.dns_zone.specs.Owned.{AreLawful, is_of};
ghost use Rattle.dns_transfer.specs.Packings.{packed};
ghost use Rattle.dns_transfer.specs.Transfers.{bunch_limit, bunches, has_room_for, is_no_soa};

use dns_base::{Record, Rtype, WireRecords};
use dns_name::OutOfMemory;
use std::alloc::Global;
use std::marker::Model;
use std::mem;

/// How many octets a bunch of several records takes at most.
const BUNCH_LIMIT: usize = 16384;

/// Bunches that are being made.
#[derive(Drop)]
pub(crate) struct Packing {
    done: Vec<WireRecords>,
    current: WireRecords,
    size: usize,
}

impl Model for Packing {
    ghost use Rattle.dns_transfer.specs.Packings.{IsSized, Packing as PackingState};

    ghost Value = { PackingState };

    ghost view = { λ p. record { done = p.done.items; current = p.current } };

    ghost invariant = { λ p. IsSized p.current p.size };
}

impl Packing {
    /// No bunches, and none that has a record.
    pub(crate) fn new(alloc: Global) -> Packing
        ensures { result ≡ record { done = []; current = [] } }
    {
        Packing {
            done: Vec::new(alloc),
            current: WireRecords::new(alloc),
            size: 0,
        }
    }

    /// Whether the bunch that is begun has room for a record of that many octets.
    fn has_room(&self, added: &Record) -> bool
        requires { IsLawful added.now.rdata }
        ensures { result ≡ has_room_for self.now.current (record_of added.now) }
    {
        self.current.is_empty() || self.size + added.compose_len() <= BUNCH_LIMIT
    }

    /// Adds a record to the bunch that is begun.
    fn extend(&mut self, alloc: Global, added: &Record) -> Result<(), OutOfMemory>
        requires lawful { IsLawful added.now.rdata }
        requires room { has_room_for self.old.current (record_of added.now) ≡ true }
        ensures { OnOk result (self.new ≡ record self.old { current = self.old.current ++ record_of added.now ∷ [] }) }
    {
        self.current.push(alloc, added)?;
        self.size += added.compose_len();
        Ok(())
    }

    /// Begins a bunch with a record.
    fn begin(&mut self, alloc: Global, added: &Record) -> Result<(), OutOfMemory>
        requires { IsLawful added.now.rdata }
        ensures { OnOk result (self.new ≡ record { done = self.old.done ++ self.old.current ∷ []; current = record_of added.now ∷ [] }) }
    {
        let mut next = WireRecords::new(alloc);
        next.push(alloc, added)?;
        let size = added.compose_len();
        let full = mem::replace(&mut self.current, next);
        self.size = size;
        self.done.push(full)?;
        Ok(())
    }

    /// Packs a record.
    fn pack(&mut self, alloc: Global, added: &Record) -> Result<(), OutOfMemory>
        requires { IsLawful added.now.rdata }
        ensures { OnOk result ((rest : List ResourceRecord) → packed self.new rest ≡ packed self.old (record_of added.now ∷ rest)) }
    {
        if self.has_room(added) {
            self.extend(alloc, added)
        } else {
            self.begin(alloc, added)
        }
    }

    /// Packs the SOA records of a list.
    pub(crate) fn pack_soa(&mut self, alloc: Global, records: &[Record]) -> Result<(), OutOfMemory>
        requires { AreLawful records.now }
        ensures { OnOk result ((rest : List ResourceRecord)
            → packed self.new rest ≡ packed self.old (map record_of (filter (is_of 6) records.now) ++ rest)) }
    {
        'each: for record in records {
            if record.rdata.rtype() == Rtype::SOA {
                self.pack(alloc, record)?;
            }
        }
        Ok(())
    }

    /// Packs the other records of a list.
    pub(crate) fn pack_others(
        &mut self,
        alloc: Global,
        records: &[Record],
    ) -> Result<(), OutOfMemory>
        requires { AreLawful records.now }
        ensures { OnOk result ((rest : List ResourceRecord)
            → packed self.new rest ≡ packed self.old (map record_of (filter is_no_soa records.now) ++ rest)) }
    {
        'each: for record in records {
            if record.rdata.rtype() != Rtype::SOA {
                self.pack(alloc, record)?;
            }
        }
        Ok(())
    }

    /// All bunches.
    pub(crate) fn finish(self) -> Result<Vec<WireRecords>, OutOfMemory>
        ensures { IfOk result (λ v. v.items ≡ packed self []) }
    {
        let Packing { done, current, .. } = self;
        let mut all = done;
        all.push(current)?;
        Ok(all)
    }
}
