//! Message whose records of a section are being built.

ghost use Rattle.dns_base.specs.Built.{Pushes, less_section, with_record};
ghost use Rattle.dns_base.specs.Builds.{with_records};
ghost use Rattle.dns_base.specs.Records.{IsLawful, record_of};
ghost use Rattle.std.specs.Prelude.{◌≡◌};

use crate::builder::Builder;
use crate::builder::stage::RecordStage;
use crate::error::PushError;
use crate::wire_records::WireRecords;
use dns_message::{ComposeRecord, Record};
use std::alloc::Global;

impl<S: RecordStage> Builder<S> {
    /// Adds a record to the section. A refused call leaves the message; `ShortBuf` says that it would pass its limit.
    pub fn push(&mut self, alloc: Global, added: &Record) -> Result<(), PushError>
        requires { IsLawful added.now.rdata }
        ensures { Pushes self.old self.new (with_record S.section self.old (record_of added.now)) result }
    {
        self.draft.push_record(alloc, S::section(), added)
    }

    /// Adds what can be written as a record, as one whose name and data are borrowed.
    pub fn push_composed<R: ComposeRecord>(
        &mut self,
        alloc: Global,
        added: &R,
    ) -> Result<(), PushError>
        requires { R.is_lawful added.now }
        ensures { Pushes self.old self.new (with_record S.section self.old (R.resource added.now)) result }
    {
        self.draft.push_record(alloc, S::section(), added)
    }

    /// Adds records in wire form, by one append. Refused `ShortBuf` exactly if the message would pass its limit with
    /// all of them; a refused call leaves the message.
    pub fn push_records(&mut self, added: &WireRecords) -> Result<(), PushError>
        ensures { Pushes self.old self.new (with_records S.section self.old added.now) result }
    {
        self.draft.push_records(S::section(), added)
    }

    /// Drops all records of the section; earlier sections stay.
    pub fn rewind(&mut self)
        ensures { self.new ≡ less_section S.section self.old }
    {
        self.draft.rewind(S::section());
    }
}
