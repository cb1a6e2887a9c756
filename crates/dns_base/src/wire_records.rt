//! Records that are kept as they are written.

ghost use Rattle.std.specs.Prelude.{◌≡◌, ◌≤◌, ◌++◌, ◌∷◌, [], ◌↔◌, IsTrue, length, OnOk, OnErr};
ghost use Rattle.std.specs.List.{AllByRecursion};
ghost use Rattle.dns_base.specs.Msg.{HasOwner};
ghost use Rattle.dns_base.specs.Records.{IsLawful, record_of};
ghost use Rattle.dns_base.specs.Replaced.{spelling};

use dns_message::Record;
use dns_name::OutOfMemory;
use std::alloc::Global;
use std::marker::Model;

/// Records in wire form, names uncompressed. Contracts see the list of the records.
#[derive(Debug, Drop)]
pub struct WireRecords {
    octets: Vec<u8>,
    count: usize,
}

impl Model for WireRecords {
    ghost use Rattle.std.specs.Prelude.{List};
    ghost use Rattle.dns_base.specs.Msg.{ResourceRecord};
    ghost use Rattle.dns_base.specs.Replaced.{records_at};
    ghost use Rattle.dns_base.specs.WireRecords.{AreWireRecords};

    ghost Value = { List ResourceRecord };

    ghost view = { λ r. records_at r.octets.items r.count 0 };

    ghost invariant = { λ r. AreWireRecords r.octets.items r.count };
}

impl WireRecords {
    /// No records, and no memory taken.
    pub fn new(alloc: Global) -> WireRecords
        ensures { result ≡ [] }
    {
        WireRecords {
            octets: Vec::new(alloc),
            count: 0,
        }
    }

    /// Adds a record after the others; nothing if there is no memory.
    pub fn push(&mut self, alloc: Global, added: &Record) -> Result<(), OutOfMemory>
        requires { IsLawful added.now.rdata }
        ensures ok { OnOk result (self.new ≡ self.old ++ record_of added.now ∷ []) }
        ensures err { OnErr result (self.new ≡ self.old) }
    {
        let _size = added.compose_len();
        added.compose(alloc, &mut self.octets)?;
        self.count += 1;
        Ok(())
    }

    /// How many records there are.
    pub fn len(&self) -> usize
        ensures { result ≡ length self.now }
    {
        self.count
    }

    /// Whether there are no records.
    pub fn is_empty(&self) -> bool
        ensures { IsTrue result ↔ (self.now ≡ []) }
    {
        self.count == 0
    }

    /// The octets of all records, one after another.
    pub fn as_slice(&self) -> &[u8]
        ensures value { result.now ≡ spelling self.now }
        ensures named { AllByRecursion HasOwner self.now }
    {
        self.octets.as_slice()
    }
}
