//! The lines of a zone and of its records.

ghost use Rattle.std.specs.Prelude.{◌≡◌, ◌≤◌, ◌++◌, IfOk, Ok, OnOk, length};
ghost use Rattle.std.specs.Str.{bytes_eq};
ghost use Rattle.dns_name.specs.Place.{two};
ghost use Rattle.dns_message.specs.Fixed.{fixed_octets};
ghost use Rattle.dns_message.specs.Records.{IsLawful, data_octets};
ghost use Rattle.dns_message.specs.Standing.{standing_at};
ghost use Rattle.dns_message.specs.Wire.{record_octets};
ghost use Rattle.dns_trace.specs.Reading.{GivesLine, TakesLine, unless};
ghost use Rattle.dns_script.specs.ServiceLines.{GivesRead, read_alone, record_line, record_with_owner, record_words, resource_of, written_uncompressed, zone_line};

use crate::draft::Draft;
use crate::line_checks::before_events;
use dns_base::{ParseError, Record, record_in};
use dns_name::{Name, OutOfMemory};
use dns_trace::{LineError, Reason, Words, decimal, name, octets, port, unless};
use std::alloc::Global;

/// Octets after others.
fn push(target: &mut Vec<u8>, octets: &[u8]) -> Result<(), OutOfMemory>
    ensures { OnOk result (target.new.items ≡ target.old.items ++ octets.now) }
{
    target.extend_from_slice(octets)?;
    Ok(())
}

/// A number of 16 bits after them, in network order.
fn push_number(target: &mut Vec<u8>, number: u16) -> Result<(), OutOfMemory>
    ensures { OnOk result (target.new.items ≡ target.old.items ++ two number) }
{
    push(target, &[(number / 256) as u8, (number % 256) as u8])
}

/// What stands between the name and the data: the type, the class IN, how long the record may be kept, and how many octets
/// its data takes.
fn push_fixed(target: &mut Vec<u8>, rtype: u16, ttl: u32, size: u16) -> Result<(), OutOfMemory>
    ensures { OnOk result (target.new.items ≡ target.old.items
        ++ fixed_octets (record { rtype = rtype; class = 1; ttl = ttl; size = size })) }
{
    push_number(target, rtype)?;
    push_number(target, 1)?;
    push_number(target, (ttl / 65536) as u16)?;
    push_number(target, (ttl % 65536) as u16)?;
    push_number(target, size)
}

/// The octets of a record of class IN.
fn composed(
    alloc: Global,
    owner: &Name,
    ttl: u32,
    rtype: u16,
    rdata: &[u8],
) -> Result<Vec<u8>, OutOfMemory>
    requires { length rdata.now ≤ 65535 }
    ensures { IfOk result (λ v. v.items ≡ record_octets (resource_of owner.now ttl rtype rdata.now)) }
{
    let mut octets = Vec::new(alloc);
    push(&mut octets, owner.as_slice())?;
    push_fixed(&mut octets, rtype, ttl, rdata.len() as u16)?;
    push(&mut octets, rdata)?;
    Ok(octets)
}

/// The record that octets are, names followed.
fn record_alone(alloc: Global, octets: &[u8]) -> Result<Record, LineError>
    ensures value { GivesRead result (read_alone (standing_at octets.now 0)) }
    ensures lawful { IfOk result (λ r. IsLawful r.rdata) }
{
    let read = match record_in(octets, 0) {
        Ok((record, _)) => record.to_record(alloc),
        Err(error) => Err(error),
    };
    match read {
        Ok(record) => Ok(record),
        Err(ParseError::OutOfMemory) => Err(LineError::OutOfMemory),
        Err(_) => Err(LineError::Refused(Reason::Value)),
    }
}

/// The data of a record is written as these octets, so that no name of it is compressed.
fn written_as(alloc: Global, resource: &Record, rdata: &[u8]) -> Result<(), LineError>
    requires { IsLawful resource.now.rdata }
    ensures { GivesLine (λ u. u) result (unless Reason.Value (bytes_eq (data_octets resource.now.rdata) rdata.now)) }
{
    let mut octets = Vec::new(alloc);
    resource.rdata.compose(alloc, &mut octets)?;
    unless(Reason::Value, octets.as_slice() == rdata)?;
    Ok(())
}

/// The record of octets, if its data has the shape of its type and no compressed name.
fn typed_record(alloc: Global, octets: &[u8], rdata: &[u8]) -> Result<Record, LineError>
    ensures value { GivesLine (λ r. r) result (written_uncompressed rdata.now (read_alone (standing_at octets.now 0))) }
    ensures lawful { IfOk result (λ r. IsLawful r.rdata) }
{
    match record_alone(alloc, octets) {
        Ok(record) => written_uncompressed(alloc, record, rdata),
        Err(error) => Err(error),
    }
}

/// A record, if its data is written as these octets.
fn written_uncompressed(alloc: Global, resource: Record, rdata: &[u8]) -> Result<Record, LineError>
    requires { IsLawful resource.rdata }
    ensures value { GivesLine (λ r. r) result (written_uncompressed rdata.now (Ok resource)) }
    ensures lawful { IfOk result (λ r. IsLawful r.rdata) }
{
    let written = written_as(alloc, &resource, rdata);
    written.and(Ok(resource))
}

/// The record of a line `record NAME TTL TYPE HEX`.
#[tactic(auto, unfolding(crate::specs::ServiceLines::record_words))]
fn record_words(alloc: Global, words: &Words) -> Result<Record, LineError>
    ensures value { GivesLine (λ r. r) result (record_words words.now) }
    ensures lawful { IfOk result (λ r. IsLawful r.rdata) }
{
    unless(Reason::Count, words.len() == 5)?;
    let owner = name(alloc, words.word(1))?;
    record_with_owner(alloc, &owner, words)
}

/// The record with this owner of such a line. Its data has at most 65,535 octets.
fn record_with_owner(alloc: Global, owner: &Name, words: &Words) -> Result<Record, LineError>
    ensures value { GivesLine (λ r. r) result (record_with_owner owner.now words.now) }
    ensures lawful { IfOk result (λ r. IsLawful r.rdata) }
{
    let seconds = decimal(words.word(2), 20, 4294967296)?;
    let rtype = port(words.word(3))?;
    let data = octets(alloc, words.word(4))?;
    unless(Reason::Value, data.as_slice().len() <= 65535)?;
    let octets = composed(alloc, owner, seconds as u32, rtype, data.as_slice())?;
    typed_record(alloc, octets.as_slice(), data.as_slice())
}

/// A line `record NAME TTL TYPE HEX`. A record stands before the first event, and after the line of its zone.
#[tactic(auto, unfolding(crate::specs::ServiceLines::record_line))]
pub(crate) fn read_record<E: Drop>(
    alloc: Global,
    draft: &mut Draft<E>,
    words: &Words,
) -> Result<(), LineError>
    ensures { TakesLine result draft.new (record_line draft.old words.now) }
{
    before_events(&draft.script)?;
    unless(Reason::Order, draft.has_zone())?;
    let record = record_words(alloc, words)?;
    draft.push_record(record)?;
    Ok(())
}

/// A line `zone NAME`. A zone stands before the first event, if no other service line does.
#[tactic(auto, unfolding(crate::specs::ServiceLines::zone_line, crate::specs::ServiceLines::apex_of))]
pub(crate) fn read_zone<E: Drop>(
    alloc: Global,
    draft: &mut Draft<E>,
    words: &Words,
) -> Result<(), LineError>
    ensures { TakesLine result draft.new (zone_line draft.old words.now) }
{
    before_events(&draft.script)?;
    unless(Reason::Mix, draft.may_be_zone())?;
    unless(Reason::Repeat, !draft.has_zone())?;
    unless(Reason::Count, words.len() == 2)?;
    let apex = name(alloc, words.word(1))?;
    draft.begin_zone(alloc, apex);
    Ok(())
}
