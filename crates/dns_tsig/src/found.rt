//! The TSIG of a message: where it stands, and the message without it.

ghost use Rattle.std.specs.Prelude.{◌≡◌, ◌≤◌, ◌+◌, ◌++◌, length, IfOk, OnOk, drop, ◌<◌};
ghost use Rattle.dns_message.specs.Sections.{field, questions_of};
ghost use Rattle.dns_message.specs.Standing.{record_at};
ghost use Rattle.dns_tsig.specs.Found.{found, is_lawful, place_of, record_count, signed_at, signed_by, tsig_among, tsig_place};
ghost use Rattle.dns_tsig.specs.Reading.{tsig_of};
ghost use Rattle.dns_tsig.specs.Places.{IsWithin};

use crate::error::TsigError;
use crate::octets::two_octets;
use crate::tsig::{TsigRef, tsig_in};
use dns_message::{RecordRef, number_at, question_in, record_in};
use dns_name::{Class, OutOfMemory, ParseError, Rtype};
use std::marker::Model;

/// The type of TSIG records.
const TSIG: u16 = 250;

/// Where a message's TSIG stands.
#[derive(Clone, Copy)]
pub(crate) enum TsigPlace {
    /// There is none.
    Absent,
    /// It is the last record, and begins at this place.
    Last(usize),
    /// It is another record than the last, or something stands after it.
    Misplaced,
}

/// A message and the TSIG that ends it, both lent.
#[derive(Drop)]
pub struct Signed<'a> {
    message: &'a [u8],
    at: usize,
    tsig: TsigRef<'a>,
}

impl<'a> Model for Signed<'a> {
    ghost use Rattle.std.specs.Prelude.{◌≤◌, ◌<◌, length};
    ghost use Rattle.dns_message.specs.Sections.{field};
    ghost use Rattle.dns_tsig.specs.Found.{Signed, bare_of};

    ghost Value = { Signed };

    ghost view = { λ s. record { bare = bare_of s.message.now s.at; tsig = s.tsig } };

    ghost invariant = { λ s. (12 ≤ s.at) × (s.at ≤ length s.message.now) × (0 < field 10 s.message.now) };
}

impl<'a> Signed<'a> {
    /// The TSIG record of the message.
    pub fn tsig(&self) -> &TsigRef<'a>
        ensures { result.now ≡ self.now.tsig }
    {
        &self.tsig
    }

    /// The octets of the message without its TSIG and its ID: up to the last count, that count, and what is after it.
    pub(crate) fn parts(&self) -> (&'a [u8], [u8; 2], &'a [u8])
        ensures { result.0.now ++ (result.1 ++ result.2.now) ≡ drop 2 self.now.bare }
    {
        let count = number_at(self.message, 10) - 1;
        (
            &self.message[2..10],
            two_octets(count),
            &self.message[12..self.at],
        )
    }

    /// Appends the message without its TSIG. If there is no memory, some of its octets may have been appended.
    pub fn take_off(&self, target: &mut Vec<u8>) -> Result<(), OutOfMemory>
        ensures octets { OnOk result (target.new.items ≡ target.old.items ++ self.now.bare) }
        ensures header { OnOk result (length target.old.items + 12 ≤ length target.new.items) }
    {
        let count = number_at(self.message, 10) - 1;
        target.extend_from_slice(&self.message[..10])?;
        target.extend_from_slice(&two_octets(count))?;
        target.extend_from_slice(&self.message[12..self.at])?;
        Ok(())
    }
}

/// The message and the TSIG that ends it, none if it has none. It is FORMERR if it has one that can't be interpreted or stands
/// elsewhere (RFC 8945, section 5.1). A message whose records can't be read is taken as one without.
#[tactic(auto, unfolding(crate::specs::Found::found))]
pub fn find(message: &[u8]) -> Result<Option<Signed<'_>>, TsigError>
    requires { 12 ≤ length message.now }
    ensures { result ≡ found message.now }
{
    match tsig_place(message) {
        Ok(TsigPlace::Last(at)) => signed_at(message, at),
        Ok(TsigPlace::Misplaced) => Err(TsigError::FormErr),
        Ok(TsigPlace::Absent) => Ok(None),
        Err(_) => Ok(None),
    }
}

/// Where a message's TSIG stands.
#[tactic(auto, unfolding(crate::specs::Found::tsig_place))]
fn tsig_place(message: &[u8]) -> Result<TsigPlace, ParseError>
    requires { 12 ≤ length message.now }
    ensures value { result ≡ tsig_place message.now }
    ensures within { IfOk result (IsWithin message.now) }
{
    let start = end_of_questions(message)?;
    tsig_among(message, start, record_count(message))
}

/// The place after the questions, or the refusal of the first one that can't be read (RFC 1035, section 4.1.2).
#[tactic(auto, using(dns_message::proofs::Coming::ending, dns_message::proofs::Coming::all_ended), unfolding(dns_message::specs::Sections::questions_of))]
fn end_of_questions(message: &[u8]) -> Result<usize, ParseError>
    requires { 12 ≤ length message.now }
    ensures value { result ≡ (questions_of message.now).1 }
    ensures within { IfOk result (λ end. end ≤ length message.now) }
{
    let mut at = 12;
    let mut left = number_at(message, 4);
    'questions: while left > 0 {
        let (_, end) = question_in(message, at)?;
        at = end;
        left -= 1;
    }
    Ok(at)
}

/// How many records a message states.
fn record_count(message: &[u8]) -> u32
    requires { 12 ≤ length message.now }
    ensures { result ≡ record_count message.now }
{
    u32::from(number_at(message, 6))
        + u32::from(number_at(message, 8))
        + u32::from(number_at(message, 10))
}

/// Where the TSIG stands among that many records from a place on.
#[tactic(auto, using(crate::proofs::Places::among), unfolding(dns_message::specs::Standing::record_at))]
fn tsig_among(message: &[u8], start: usize, count: u32) -> Result<TsigPlace, ParseError>
    requires { start ≤ length message.now }
    ensures value { result ≡ tsig_among message.now count start }
    ensures within { IfOk result (IsWithin message.now) }
{
    let mut at = start;
    let mut left = count;
    'records: while left > 0 {
        let (record, end) = record_in(message, at)?;
        left -= 1;
        if record.rtype().to_int() == TSIG {
            return Ok(place_of(message, at, end, left));
        }
        at = end;
    }
    Ok(TsigPlace::Absent)
}

/// The place of a TSIG, with that many records after it.
fn place_of(message: &[u8], at: usize, end: usize, left: u32) -> TsigPlace
    ensures { result ≡ place_of message.now at end left }
{
    if left == 0 && end == message.len() && at >= 12 {
        return TsigPlace::Last(at);
    }
    TsigPlace::Misplaced
}

/// The message and the TSIG that ends it, from the TSIG's place on.
fn signed_at(message: &[u8], at: usize) -> Result<Option<Signed<'_>>, TsigError>
    requires header { 12 ≤ at }
    requires within { at ≤ length message.now }
    ensures { result ≡ signed_at message.now at (record_at message.now at) }
{
    match record_in(message, at) {
        Ok((record, _)) if is_lawful(message, &record) => signed_by(message, at, &record),
        _ => Err(TsigError::FormErr),
    }
}

/// Whether a TSIG record has the class and the TTL that it has to have, and stands in the additional section.
fn is_lawful(message: &[u8], item: &RecordRef<'_>) -> bool
    requires { 10 ≤ length message.now }
    ensures { result ≡ is_lawful message.now item.now.resource }
{
    item.class() == Class::ANY && item.ttl().as_secs() == 0 && number_at(message, 10) > 0
}

/// The message and the TSIG that this record is.
fn signed_by<'a>(
    message: &'a [u8],
    at: usize,
    item: &RecordRef<'a>,
) -> Result<Option<Signed<'a>>, TsigError>
    requires header { 12 ≤ at }
    requires within { at ≤ length message.now }
    requires counted { 0 < field 10 message.now }
    ensures { result ≡ signed_by message.now at (tsig_of item.now.resource.owner item.now.resource.rdata) }
{
    match tsig_in(item.owner(), item.rdata()) {
        Some(tsig) => Ok(Some(Signed { message, at, tsig })),
        None => Err(TsigError::FormErr),
    }
}
