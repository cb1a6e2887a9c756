//! Where the TTLs of a message's records stand.

ghost use Rattle.std.specs.Prelude.{◌≡◌, ◌≢◌, ◌-◌, IfOk, OnOk, Ok};
ghost use Rattle.dns_base.specs.CopiedRecord.{copied_record};
ghost use Rattle.dns_base.specs.Records.{IsLawful, record_of};
ghost use Rattle.dns_service.specs.Copied.{copied, copied_item, copied_records};
ghost use Rattle.dns_cache.specs.Marks.{AreMarked, IsMarked, MarksOf, SectionsMarked, counted_mark, mark_of, marked_size, marked_ttls};
ghost use Rattle.dns_cache.specs.Ttls.{lesser_of, smallest};

use dns_base::{
    MessageRef, ParseError, Record, RecordIter, RecordRef, Rtype, data_has_names, records_stand,
};
use dns_service::OutOfMemory;
use std::alloc::Global;

/// What the octets of a record are made of.
#[derive(Clone, Copy, Debug)]
pub(crate) struct Mark {
    /// How many octets stand before the TTL.
    pub(crate) before: u16,
    /// How many octets the record has.
    pub(crate) size: u32,
    /// The TTL in s.
    pub(crate) ttl: u32,
    /// Whether the record is an OPT record, whose TTL is none.
    pub(crate) is_opt: bool,
}

impl Mark {
    /// The TTL in s as it counts (RFC 2181, section 8).
    fn counted(self) -> u32
        ensures { result ≡ counted_mark self }
    {
        if self.ttl < 2147483648 { self.ttl } else { 0 }
    }
}

/// The marks of a message's records, without those of the OPT records of its additional section.
pub(crate) fn marks_of(alloc: Global, message: &MessageRef<'_>) -> Result<Vec<Mark>, OutOfMemory>
    ensures { IfOk result (λ marks. MarksOf (copied message.now) marks.items) }
{
    records_stand();
    match message.sections() {
        Ok((_, answers, authority, additional)) => {
            mark_sections(alloc, answers, authority, additional)
        }
        Err(_) => Ok(Vec::new(alloc)),
    }
}

/// The marks of three sections of records, without those of the OPT records of the last.
fn mark_sections(
    alloc: Global,
    answers: RecordIter<'_>,
    authority: RecordIter<'_>,
    additional: RecordIter<'_>,
) -> Result<Vec<Mark>, OutOfMemory>
    ensures { IfOk result (λ marks. SectionsMarked (copied_records answers.entry) (copied_records authority.entry)
        (copied_records additional.entry) marks.items) }
{
    let mut marks = Vec::new(alloc);
    mark_section(alloc, answers, true, &mut marks)?;
    mark_section(alloc, authority, true, &mut marks)?;
    mark_section(alloc, additional, false, &mut marks)?;
    Ok(marks)
}

/// Marks the records that a section gives, after others: all of them, or those of other types than OPT. If one is
/// unreadable, what is marked means nothing.
fn mark_section(
    alloc: Global,
    items: RecordIter<'_>,
    all: bool,
    marks: &mut Vec<Mark>,
) -> Result<(), OutOfMemory>
    ensures { OnOk result (AreMarked all (copied_records items.entry) marks.old.items marks.new.items) }
{
    let mut left = items;
    'each: while let Some(item) = left.next() {
        mark_item(alloc, item, all, marks)?;
    }
    Ok(())
}

/// Marks a record that a section gives.
fn mark_item(
    alloc: Global,
    item: Result<RecordRef<'_>, ParseError>,
    all: bool,
    marks: &mut Vec<Mark>,
) -> Result<(), OutOfMemory>
    ensures { OnOk result (IsMarked all (copied_item item.entry) marks.old.items marks.new.items) }
{
    match item {
        Ok(standing) => mark_standing(alloc, &standing, all, marks),
        Err(_) => Ok(()),
    }
}

/// Marks a record as it stands in a message.
fn mark_standing(
    alloc: Global,
    standing: &RecordRef<'_>,
    all: bool,
    marks: &mut Vec<Mark>,
) -> Result<(), OutOfMemory>
    ensures { OnOk result (IsMarked all (copied_record standing.now) marks.old.items marks.new.items) }
{
    match standing.to_record(alloc) {
        Ok(record) => mark_owned(record, all, marks),
        Err(error) => refused(error),
    }
}

/// Running out of memory stays apart from what is unreadable.
fn refused(error: ParseError) -> Result<(), OutOfMemory>
    ensures { OnOk result (error ≢ ParseError.OutOfMemory) }
{
    match error {
        ParseError::OutOfMemory => Err(OutOfMemory),
        _ => Ok(()),
    }
}

/// Marks a record that isn't needed any more.
fn mark_owned(source: Record, all: bool, marks: &mut Vec<Mark>) -> Result<(), OutOfMemory>
    requires { IsLawful source.rdata }
    ensures { OnOk result (IsMarked all (Ok (record_of source)) marks.old.items marks.new.items) }
{
    mark_record(&source, all, marks)
}

/// Marks a record.
fn mark_record(source: &Record, all: bool, marks: &mut Vec<Mark>) -> Result<(), OutOfMemory>
    requires { IsLawful source.now.rdata }
    ensures { OnOk result (IsMarked all (Ok (record_of source.now)) marks.old.items marks.new.items) }
{
    data_has_names(&source.rdata);
    if all || source.rdata.rtype() != Rtype::OPT {
        marks.push(marked(source))?;
    }
    Ok(())
}

/// The mark of a record.
fn marked(source: &Record) -> Mark
    requires { IsLawful source.now.rdata }
    ensures { result ≡ mark_of (record_of source.now) }
{
    Mark {
        before: source.owner.as_slice().len() as u16 + 4,
        size: source.compose_len() as u32,
        ttl: source.ttl.as_secs(),
        is_opt: source.rdata.rtype() == Rtype::OPT,
    }
}

/// The least TTL in s of marked records but OPT, 0 if there are none.
pub(crate) fn least_of(marks: &[Mark]) -> u32
    ensures { result ≡ smallest (marked_ttls marks.now) }
{
    let mut least = None;
    'marks: for mark in marks {
        if !mark.is_opt {
            least = Some(lesser(least, mark.counted()));
        }
    }
    least.unwrap_or(0)
}

/// The lesser of a number that may be there and another.
fn lesser(least: Option<u32>, ttl: u32) -> u32
    ensures { result ≡ lesser_of least ttl }
{
    match least {
        Some(number) => number.min(ttl),
        None => ttl,
    }
}

/// The place after which as many octets follow as the marked records have.
pub(crate) fn start_before(marks: &[Mark], end: usize) -> usize
    ensures { result ≡ end - marked_size marks.now }
{
    let mut start = end;
    'marks: for mark in marks {
        start = start.saturating_sub(mark.size as usize);
    }
    start
}
