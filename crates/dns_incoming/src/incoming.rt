//! A transfer as it comes in.

ghost use Rattle.std.specs.Prelude.{◌≡◌, ◌&&◌, ◌∷◌, ◌++◌, [], OnOk, is_some, length, nat_eq, nat_lt};
ghost use Rattle.std.specs.List.{slice_get};
ghost use Rattle.dns_base.specs.Records.{IsLawful};
ghost use Rattle.dns_base.specs.Standing.{typed};
ghost use Rattle.dns_base.specs.Header.{header_of};
ghost use Rattle.dns_base.specs.Sections.{questions_of, reached, standing_answers};
ghost use Rattle.dns_route.specs.Routes.{ends_name};
ghost use Rattle.dns_zone.specs.Owned.{AreLawful, is_of};
ghost use Rattle.dns_incoming.specs.Incoming.{added_to, opened_with, code_fault, ended_with, fault_kept, faulted, header_fault, is_again, is_apex_soa, limited_to, readable_item, readable_record, record_kept, taken_behind, taken_items, taken_message, taken_more, taken_read, taken_record, taken_section};
ghost use Rattle.dns_incoming.specs.IncomingLaws.{incoming};
ghost use Rattle.dns_incoming.specs.declared.status.TransferStatus.{TransferStatus};

use crate::status::{TransferDefect, TransferStatus};
use dns_base::{
    Header, Message, Name, OutOfMemory, ParseError, Rcode, Record, RecordIter, RecordRef, Rtype,
};
use dns_route::matches_are_suffixes;
use std::alloc::Global;
use std::marker::Model;

/// A transfer of a zone as it comes in. It touches nothing outside: whoever asks for the transfer tells it each message of the
/// connection, and asks how far it is.
#[derive(Drop)]
pub struct IncomingTransfer {
    id: u16,
    apex: Name,
    most: usize,
    records: Vec<Record>,
    status: TransferStatus,
}

impl Model for IncomingTransfer {
    ghost use Rattle.dns_zone.specs.Owned.{AreLawful};
    ghost use Rattle.dns_incoming.specs.Incoming.{IncomingState};

    ghost Value = { IncomingState };

    ghost view = { λ t. record { id = t.id; apex = t.apex; most = t.most; records = t.records.items; status = t.status } };

    ghost invariant = { λ t. AreLawful t.records.items };
}

impl IncomingTransfer {
    /// The transfer that was asked for with an identifier, of the zone that begins at an apex and has at most that many records.
    pub fn new(alloc: Global, id: u16, apex: Name, most: usize) -> IncomingTransfer
        ensures { result ≡ incoming id apex most }
    {
        IncomingTransfer {
            id,
            apex,
            most,
            records: Vec::new(alloc),
            status: TransferStatus::More,
        }
    }

    /// How far it is.
    pub fn status(&self) -> TransferStatus
        ensures { result ≡ self.now.status }
    {
        self.status
    }

    /// The records that came. They are those of the zone once all of them came.
    pub fn into_records(self) -> Vec<Record>
        ensures value { result.items ≡ self.records }
        ensures lawful { AreLawful result.items }
    {
        let IncomingTransfer { records, .. } = self;
        records
    }

    /// Takes a message.
    pub fn take(&mut self, alloc: Global, message: &Message) -> Result<(), OutOfMemory>
        ensures { OnOk result (self.new ≡ taken_message self.old message.now) }
    {
        match self.fault_of(message) {
            Some(fault) => {
                self.fail(fault);
                Ok(())
            }
            None => self.take_answers(alloc, message),
        }
    }

    /// Why the header of a message isn't that of an answer.
    fn fault_of(&self, message: &Message) -> Option<TransferDefect>
        ensures { result ≡ header_fault self.now.id (header_of message.now) }
    {
        header_fault(self.id, message.header())
    }

    /// Takes the answer records of a message.
    fn take_answers(&mut self, alloc: Global, message: &Message) -> Result<(), OutOfMemory>
        ensures { OnOk result (self.new ≡ taken_section self.old (reached (questions_of message.now).1 (standing_answers message.now))) }
    {
        match message.answer() {
            Ok(items) => self.take_items(alloc, items),
            Err(_) => {
                self.fail(TransferDefect::Unreadable);
                Ok(())
            }
        }
    }

    /// Takes the records that a section gives.
    fn take_items(&mut self, alloc: Global, items: RecordIter<'_>) -> Result<(), OutOfMemory>
        ensures { OnOk result (self.new ≡ taken_items self.old items.entry) }
    {
        let mut left = items;
        'each: while let Some(item) = left.next() {
            self.take_item(alloc, item)?;
        }
        Ok(())
    }

    /// Takes a record that a section gives.
    fn take_item(
        &mut self,
        alloc: Global,
        item: Result<RecordRef<'_>, ParseError>,
    ) -> Result<(), OutOfMemory>
        ensures { OnOk result (self.new ≡ taken_read self.old (readable_item item.entry)) }
    {
        match item {
            Ok(standing) => self.take_standing(alloc, &standing),
            Err(_) => {
                self.fail(TransferDefect::Unreadable);
                Ok(())
            }
        }
    }

    /// Takes a record as it stands in a message.
    fn take_standing(&mut self, alloc: Global, standing: &RecordRef<'_>) -> Result<(), OutOfMemory>
        ensures { OnOk result (self.new ≡ taken_read self.old (readable_record (typed standing.now))) }
    {
        match standing.to_record(alloc) {
            Ok(added) => self.take_record(added),
            Err(ParseError::OutOfMemory) => Err(OutOfMemory),
            Err(_) => {
                self.fail(TransferDefect::Unreadable);
                Ok(())
            }
        }
    }

    /// Takes a record.
    fn take_record(&mut self, added: Record) -> Result<(), OutOfMemory>
        requires { IsLawful added.rdata }
        ensures { OnOk result (self.new ≡ taken_record self.old added) }
    {
        match self.status {
            TransferStatus::More => self.take_more(added),
            TransferStatus::Done => {
                self.fail(TransferDefect::Behind);
                Ok(())
            }
            TransferStatus::Refused(_) => Ok(()),
        }
    }

    /// Takes a record while more are to come.
    fn take_more(&mut self, added: Record) -> Result<(), OutOfMemory>
        requires { IsLawful added.rdata }
        ensures { OnOk result (self.new ≡ taken_more self.old added) }
    {
        if self.has_begun() {
            return self.take_behind(added);
        }
        self.begin(added)
    }

    /// Takes a record after the first one.
    fn take_behind(&mut self, added: Record) -> Result<(), OutOfMemory>
        requires { IsLawful added.rdata }
        ensures { OnOk result (self.new ≡ taken_behind self.old added) }
    {
        if is_soa(&added) {
            self.end(&added);
            return Ok(());
        }
        self.add(added)
    }

    /// Takes the first record.
    fn begin(&mut self, added: Record) -> Result<(), OutOfMemory>
        requires { IsLawful added.rdata }
        ensures { OnOk result (self.new ≡ opened_with self.old added) }
    {
        if self.is_apex_soa(&added) {
            return self.keep(added);
        }
        self.fail(TransferDefect::NoSoa);
        Ok(())
    }

    /// Takes an SOA record after the first one.
    fn end(&mut self, added: &Record)
        ensures { self.new ≡ ended_with self.old added.now }
    {
        if self.is_again(added) {
            self.finish();
            return;
        }
        self.fail(TransferDefect::OtherSoa);
    }

    /// All records came.
    fn finish(&mut self)
        ensures { self.new ≡ record self.old { status = TransferStatus.Done } }
    {
        self.status = TransferStatus::Done;
    }

    /// Takes a record that isn't an SOA record.
    fn add(&mut self, added: Record) -> Result<(), OutOfMemory>
        requires { IsLawful added.rdata }
        ensures { OnOk result (self.new ≡ added_to self.old added) }
    {
        if self.is_within(&added) {
            return self.add_limited(added);
        }
        self.fail(TransferDefect::Outside);
        Ok(())
    }

    /// Takes a record of the zone.
    fn add_limited(&mut self, added: Record) -> Result<(), OutOfMemory>
        requires { IsLawful added.rdata }
        ensures { OnOk result (self.new ≡ limited_to self.old added) }
    {
        if self.has_room() {
            return self.keep(added);
        }
        self.fail(TransferDefect::TooMany);
        Ok(())
    }

    /// Keeps a record.
    fn keep(&mut self, added: Record) -> Result<(), OutOfMemory>
        requires { IsLawful added.rdata }
        ensures { OnOk result (self.new ≡ record_kept self.old added) }
    {
        self.records.push(added)?;
        Ok(())
    }

    /// Refuses what came, unless it is refused already.
    fn fail(&mut self, fault: TransferDefect)
        ensures { self.new ≡ faulted self.old fault }
    {
        self.status = fault_kept(self.status, fault);
    }

    /// Whether a record came.
    fn has_begun(&self) -> bool
        ensures { result ≡ is_some (slice_get self.now.records 0) }
    {
        match self.records.get(0) {
            Some(_) => true,
            None => false,
        }
    }

    /// Whether one more record may come.
    fn has_room(&self) -> bool
        ensures { result ≡ nat_lt (length self.now.records) self.now.most }
    {
        self.records.len() < self.most
    }

    /// Whether a record is an SOA record of the zone.
    fn is_apex_soa(&self, added: &Record) -> bool
        ensures { result ≡ is_apex_soa self.now.apex added.now }
    {
        is_soa(added) && added.owner == self.apex
    }

    /// Whether a record is the first one again.
    fn is_again(&self, added: &Record) -> bool
        ensures { result ≡ is_again (slice_get self.now.records 0) added.now }
    {
        match self.records.get(0) {
            Some(first) => *first == *added,
            None => false,
        }
    }

    /// Whether the owner of a record is at or below the apex.
    fn is_within(&self, added: &Record) -> bool
        ensures { result ≡ ends_name added.now.owner self.now.apex }
    {
        matches_are_suffixes();
        added.owner.ends_with(&self.apex.for_ref())
    }
}

/// How far a transfer is with a fault: the first one stays.
fn fault_kept(status: TransferStatus, fault: TransferDefect) -> TransferStatus
    ensures { result ≡ fault_kept status fault }
{
    match status {
        TransferStatus::More => TransferStatus::Refused(fault),
        TransferStatus::Done => TransferStatus::Refused(fault),
        TransferStatus::Refused(first) => TransferStatus::Refused(first),
    }
}

/// Whether a record is an SOA record.
fn is_soa(added: &Record) -> bool
    ensures { result ≡ is_of 6 added.now }
{
    added.rdata.rtype() == Rtype::SOA
}

/// Why a header isn't that of an answer to the query with an identifier.
fn header_fault(id: u16, header: Header) -> Option<TransferDefect>
    ensures { result ≡ header_fault id header }
{
    if is_answer(id, &header) {
        return code_fault(&header);
    }
    Some(TransferDefect::Identifier)
}

/// Whether a header is that of a response with an identifier.
fn is_answer(id: u16, header: &Header) -> bool
    ensures { result ≡ (nat_eq header.now.id id && header.now.qr) }
{
    header.id == id && header.qr
}

/// Why the response code of a header isn't that of an answer.
fn code_fault(header: &Header) -> Option<TransferDefect>
    ensures { result ≡ code_fault header.now }
{
    if header.rcode == Rcode::NOERROR {
        return None;
    }
    Some(TransferDefect::Code)
}
