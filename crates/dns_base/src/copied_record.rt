//! Records that are copied out of a message.

ghost use Rattle.std.specs.Prelude.{◌≡◌};
ghost use Rattle.dns_base.specs.CopiedRecord.{copied_record};
ghost use Rattle.dns_base.specs.Records.{IsLawful, record_of};
ghost use Rattle.dns_base.specs.Standing.{GivesParsed};

use dns_message::{Record, RecordRef};
use dns_name::{ParseError, Rtype};
use std::alloc::Global;
use std::marker::Model;

/// A record whose data was read by the shape of its type.
#[derive(Debug, Drop)]
pub struct CopiedRecord {
    inner: Record,
}

impl Model for CopiedRecord {
    ghost use Rattle.dns_base.specs.Msg.{ResourceRecord};
    ghost use Rattle.dns_base.specs.Records.{IsLawful, record_of};

    ghost Value = { ResourceRecord };

    ghost view = { λ r. record_of r.inner };

    ghost invariant = { λ r. IsLawful r.inner.rdata };
}

impl CopiedRecord {
    /// A copy of a record as it stands in a message, its names uncompressed; refused if its data is unreadable.
    pub fn read(alloc: Global, source: &RecordRef<'_>) -> Result<CopiedRecord, ParseError>
        ensures { GivesParsed result (copied_record source.now) }
    {
        let inner = source.to_record(alloc)?;
        Ok(CopiedRecord { inner })
    }

    /// The type.
    pub fn rtype(&self) -> Rtype
        ensures { result ≡ self.now.rtype }
    {
        self.inner.rdata.rtype()
    }

    /// The record.
    pub fn get(&self) -> &Record
        ensures value { record_of result.now ≡ self.now }
        ensures lawful { IsLawful result.now.rdata }
    {
        &self.inner
    }
}
