//! Message whose additional records are being built.

ghost use Rattle.std.specs.Prelude.{◌≡◌, ◌≤◌, length};
ghost use Rattle.dns_base.specs.Wire.{wire};
ghost use Rattle.dns_base.specs.Built.{Pushes, with_additional};
ghost use Rattle.dns_base.specs.OptFields.{opt_resource};
ghost use Rattle.dns_base.specs.Options.{IsOptionList};
ghost use Rattle.dns_base.specs.Readers.{AreReadable, resources};
ghost use Rattle.dns_base.specs.Records.{IsLawful, record_of};
ghost use Rattle.dns_base.specs.Replaced.{less_type};
ghost use Rattle.dns_base.specs.Sections.{all_of, standing_additional};

use crate::builder::AdditionalBuilder;
use crate::compose_record::OptFields;
use crate::draft::Section;
use crate::error::PushError;
use dns_message::{Record, RecordIter};
use dns_name::{Rtype, Ttl};
use std::alloc::Global;

impl AdditionalBuilder {
    /// The additional records, in order. They are read from the place where they begin; no other section is.
    pub fn additional_records(&self) -> RecordIter<'_>
        ensures value { result ≡ all_of (standing_additional (wire self.now.message)) }
        ensures readable { AreReadable result }
        ensures records { resources result ≡ self.now.message.additional }
    {
        self.draft.additional_records()
    }

    /// Drops the additional records of a type; the others stay, in order. Takes no memory.
    #[inline(always)]
    pub fn remove_type(&mut self, rtype: Rtype)
        ensures { self.new ≡ less_type rtype self.old }
    {
        self.draft.remove_type(rtype);
    }

    /// How many octets the message takes without its additional records of a type.
    pub fn len_without(&self, rtype: Rtype) -> usize
        ensures { result ≡ length (wire (less_type rtype self.now).message) }
    {
        self.draft.len_without(rtype)
    }

    /// Puts a record in place of the additional records of a type; it becomes the last. Refused `ShortBuf` exactly
    /// if the message would then pass its limit; a refused call leaves the message.
    pub fn replace_type(
        &mut self,
        alloc: Global,
        rtype: Rtype,
        added: &Record,
    ) -> Result<(), PushError>
        requires { IsLawful added.now.rdata }
        ensures { Pushes self.old self.new (with_additional (less_type rtype self.old) (record_of added.now)) result }
    {
        self.draft.replace_type(alloc, rtype, added)
    }

    /// Adds an OPT record of these options. It is written as it is pushed, and takes no memory but the message's.
    pub fn push_opt(
        &mut self,
        alloc: Global,
        size: u16,
        ttl: Ttl,
        options: &[u8],
    ) -> Result<(), PushError>
        requires list { IsOptionList options.now }
        requires short { length options.now ≤ 65535 }
        ensures { Pushes self.old self.new (with_additional self.old (opt_resource size ttl options.now)) result }
    {
        let fields = OptFields { size, ttl, options };
        self.draft.push_record(alloc, Section::Additional, &fields)
    }

    /// Puts an OPT record of these options in place of the OPT records; it becomes the last. Refused `ShortBuf` exactly
    /// if the message would then pass its limit; a refused call leaves the message.
    pub fn replace_opt(
        &mut self,
        alloc: Global,
        size: u16,
        ttl: Ttl,
        options: &[u8],
    ) -> Result<(), PushError>
        requires list { IsOptionList options.now }
        requires short { length options.now ≤ 65535 }
        ensures { Pushes self.old self.new (with_additional (less_type 41 self.old) (opt_resource size ttl options.now)) result }
    {
        let fields = OptFields { size, ttl, options };
        self.draft.replace_type(alloc, Rtype::OPT, &fields)
    }
}
