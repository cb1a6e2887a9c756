//! What can be written as a record.

ghost use Rattle.std.specs.Prelude.{◌≡◌, ◌≤◌, ◌++◌, length, take, OnOk, OnErr};
ghost use Rattle.dns_message.specs.Msg.{HasOwner, ResourceRecord};
ghost use Rattle.dns_message.specs.Records.{IsLawful, record_of, record_by};
ghost use Rattle.dns_message.specs.Wire.{record_octets};

use crate::fixed::{FixedFields, push_fixed};
use crate::rdata::RecordData;
use crate::record::Record;
use crate::write::{labels_size, push_labels, settle};
use dns_name::{Class, OutOfMemory, ParsedName, Ttl};
use std::alloc::Global;

/// What can be written as a record: a record on its own, or one whose name and data are borrowed.
pub trait ComposeRecord {
    /// The record.
    ghost resource: { Self → ResourceRecord };

    /// Whether the data of the record can be written.
    ghost is_lawful: { Self → Type 0 };

    /// How many octets the record takes.
    fn record_len(&self) -> usize
        requires { is_lawful self.now }
        ensures value { result ≡ length (record_octets (resource self.now)) }
        ensures named { HasOwner (resource self.now) }
        ensures short { result ≤ 65800 };

    /// Appends the record's octets; nothing if there is no memory.
    fn compose_record(&self, alloc: Global, target: &mut Vec<u8>) -> Result<(), OutOfMemory>
        requires { is_lawful self.now }
        ensures ok { OnOk result (target.new.items ≡ target.old.items ++ record_octets (resource self.now)) }
        ensures err { OnErr result (target.new.items ≡ target.old.items) };
}

impl ComposeRecord for Record {
    ghost resource = { record_of };

    ghost is_lawful = { λ r. IsLawful r.rdata };

    fn record_len(&self) -> usize {
        self.compose_len()
    }

    fn compose_record(&self, alloc: Global, target: &mut Vec<u8>) -> Result<(), OutOfMemory> {
        self.compose(alloc, target)
    }
}

/// A record whose name and data are borrowed (RFC 1035, section 3.2.1).
#[derive(Drop)]
pub struct RecordFields<'a> {
    /// The name that owns the record.
    pub owner: ParsedName<'a>,
    /// The class.
    pub class: Class,
    /// How long the record may be kept.
    pub ttl: Ttl,
    /// The data.
    pub rdata: &'a RecordData,
}

impl<'a> RecordFields<'a> {
    /// Appends the octets of a record, or some of them.
    fn write(&self, alloc: Global, target: &mut Vec<u8>) -> Result<(), OutOfMemory>
        requires { IsLawful self.now.rdata.now }
        ensures ok { OnOk result (target.new.items ≡ target.old.items ++ record_octets (record_by self.now)) }
        ensures err { OnErr result (take (length target.old.items) target.new.items ≡ target.old.items) }
    {
        push_labels(target, self.owner.labels())?;
        let fields = FixedFields {
            rtype: self.rdata.rtype(),
            class: self.class,
            ttl: self.ttl,
            size: self.rdata.size() as u16,
        };
        push_fixed(target, fields)?;
        self.rdata.write(alloc, target)
    }
}

impl<'a> ComposeRecord for RecordFields<'a> {
    ghost resource = { record_by };

    ghost is_lawful = { λ r. IsLawful r.rdata.now };

    fn record_len(&self) -> usize {
        labels_size(self.owner.labels()) + 10 + self.rdata.size()
    }

    fn compose_record(&self, alloc: Global, target: &mut Vec<u8>) -> Result<(), OutOfMemory> {
        let start = target.len();
        let written = self.write(alloc, target);
        settle(target, start, written)
    }
}
