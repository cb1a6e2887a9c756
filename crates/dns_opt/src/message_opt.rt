//! The OPT record of a message.

ghost use Rattle.std.specs.Prelude.{◌≡◌, List, ℕ};
ghost use Rattle.dns_opt.specs.OptRecords.{first_opt, opt_of, readable_opt};

use crate::record::{OptRecordRef, head_by};
use dns_base::{Message, MessageRef, RecordIter, RecordRef, Rtype};
use dns_options::OptRef;

/// A message that may have an OPT record (RFC 6891, section 6.1.1).
pub trait MessageOpt {
    /// The message's octets.
    ghost octets: { Self → List ℕ };

    /// The first OPT record; none if it, or a record before it, is unreadable.
    fn opt(&self) -> Option<OptRecordRef<'_>>
        ensures { result ≡ opt_of (octets self.now) };
}

/// The OPT record that a record of this type is; none if its data is no option list.
fn readable<'m>(found: &RecordRef<'m>) -> Option<OptRecordRef<'m>>
    ensures { result ≡ readable_opt found.now.resource }
{
    match OptRef::from_slice(found.rdata()) {
        Ok(options) => Some(OptRecordRef::of(head_by(found.class(), found.ttl()), options)),
        Err(_) => None,
    }
}

/// The first OPT record of a section.
pub(crate) fn first_opt(records: RecordIter<'_>) -> Option<OptRecordRef<'_>>
    ensures { result ≡ first_opt records.entry }
{
    let mut left = records;
    'walk: while let Some(Ok(record)) = left.next() {
        if record.rtype() == Rtype::OPT {
            return readable(&record);
        }
    }
    None
}

/// The first OPT record of a borrowed message, which lives as long as the message; none if it, or a record before it,
/// is unreadable.
pub fn opt_of<'m>(message: &MessageRef<'m>) -> Option<OptRecordRef<'m>>
    ensures { result ≡ opt_of message.now }
{
    match message.additional() {
        Ok(records) => first_opt(records),
        Err(_) => None,
    }
}

impl<'m> MessageOpt for MessageRef<'m> {
    ghost octets = { λ m. m };

    fn opt(&self) -> Option<OptRecordRef<'_>> {
        opt_of(self)
    }
}

impl MessageOpt for Message {
    ghost octets = { λ m. m };

    fn opt(&self) -> Option<OptRecordRef<'_>> {
        match self.additional() {
            Ok(records) => first_opt(records),
            Err(_) => None,
        }
    }
}
