//! Records.

ghost use Rattle.std.specs.Prelude.{◌≡◌, ◌≤◌, ◌<◌, ◌+◌, ◌++◌, length, take, IfOk, OnOk, OnErr, ⊤};
ghost use Rattle.std.specs.Cmp.{partial_equiv_from_equiv};
ghost use Rattle.std.specs.Iterator.{YieldsFirst, item_count};
ghost use Rattle.dns_message.specs.Equality.{same_record, same_record_equiv};
ghost use Rattle.dns_message.specs.Fixed.{fixed_of};
ghost use Rattle.dns_message.specs.Msg.{HasOwner};
ghost use Rattle.dns_message.specs.Records.{IsLawful, record_of};
ghost use Rattle.dns_message.specs.Standing.{GivesParsed, standing_at, typed};
ghost use Rattle.dns_message.specs.Sections.{ends_at, to_come};
ghost use Rattle.dns_message.specs.Wire.{record_octets};

use crate::fixed::{FixedFields, fixed_in, push_fixed};
use crate::rdata::RecordData;
use crate::rdata_read::data_in;
use crate::read::octets_in;
use crate::write::settle;
use dns_name::{Class, Name, OutOfMemory, ParseError, ParsedName, Rtype, Ttl};
use std::alloc::{AllocError, Global};
use std::marker::Model;

/// A record (RFC 1035, section 3.2.1), whose type is that of its data. Records are equal if their owners are up
/// to ASCII case, their classes and their data: the TTL doesn't count (RFC 2136, section 1.1.1).
#[derive(Debug, Drop)]
pub struct Record {
    /// The name that owns the record.
    pub owner: Name,
    /// The class.
    pub class: Class,
    /// How long the record may be kept.
    pub ttl: Ttl,
    /// The data.
    pub rdata: RecordData,
}

impl PartialEq for Record {
    ghost eq = { same_record };

    ghost laws = { partial_equiv_from_equiv same_record_equiv };

    fn eq(&self, other: &Record) -> bool {
        self.owner == other.owner && self.class == other.class && self.rdata == other.rdata
    }
}

impl Eq for Record {
    ghost laws = { same_record_equiv };
}

impl Record {
    /// A copy in memory of its own, of the owner's name and the data.
    pub fn try_clone(&self, alloc: Global) -> Result<Record, OutOfMemory>
        ensures value { IfOk result (λ r. r ≡ self.now) }
        ensures lawful { IsLawful self.now.rdata → IfOk result (λ r. IsLawful r.rdata) }
    {
        let owner = self.owner.try_clone(alloc)?;
        let rdata = self.rdata.try_clone(alloc)?;
        Ok(Record {
            owner,
            class: self.class,
            ttl: self.ttl,
            rdata,
        })
    }

    /// How many octets the record takes, names uncompressed.
    pub fn compose_len(&self) -> usize
        requires { IsLawful self.now.rdata }
        ensures value { result ≡ length (record_octets (record_of self.now)) }
        ensures named { HasOwner (record_of self.now) }
        ensures short { result ≤ 65800 }
    {
        self.owner.as_slice().len() + 10 + self.rdata.size()
    }

    /// Appends the record's octets, names uncompressed (RFC 1035, section 3.2.1); nothing if there is no memory.
    pub fn compose(&self, alloc: Global, target: &mut Vec<u8>) -> Result<(), OutOfMemory>
        requires { IsLawful self.now.rdata }
        ensures ok { OnOk result (target.new.items ≡ target.old.items ++ record_octets (record_of self.now)) }
        ensures err { OnErr result (target.new.items ≡ target.old.items) }
    {
        let start = target.len();
        let written = self.write(alloc, target);
        settle(target, start, written)
    }

    /// Appends the octets of a record, or some of them.
    fn write(&self, alloc: Global, target: &mut Vec<u8>) -> Result<(), OutOfMemory>
        requires { IsLawful self.now.rdata }
        ensures ok { OnOk result (target.new.items ≡ target.old.items ++ record_octets (record_of self.now)) }
        ensures err { OnErr result (take (length target.old.items) target.new.items ≡ target.old.items) }
    {
        self.owner.compose(alloc, target)?;
        push_fixed(target, self.fields())?;
        self.rdata.write(alloc, target)
    }

    /// What stands between the owner and the data.
    fn fields(&self) -> FixedFields
        requires { IsLawful self.now.rdata }
        ensures { result ≡ fixed_of (record_of self.now) }
    {
        FixedFields {
            rtype: self.rdata.rtype(),
            class: self.class,
            ttl: self.ttl,
            size: self.rdata.size() as u16,
        }
    }
}

/// A record as it stands in a message (RFC 1035, section 4.1.3).
#[derive(Drop)]
pub struct RecordRef<'a> {
    message: &'a [u8],
    owner: ParsedName<'a>,
    rtype: Rtype,
    class: Class,
    ttl: Ttl,
    rdata: &'a [u8],
    start: usize,
    end: usize,
}

impl<'a> Model for RecordRef<'a> {
    ghost use Rattle.std.specs.Prelude.{◌≤◌, ◌+◌, length};
    ghost use Rattle.dns_message.specs.Standing.{Standing, data_at};

    ghost Value = { Standing };

    ghost view = { λ r. record {
      resource = record {
        owner = r.owner;
        rtype = r.rtype;
        class = r.class;
        ttl = r.ttl;
        rdata = r.rdata.now;
      };
      content = data_at r.rtype r.message.now r.end r.start;
    } };

    ghost invariant = { λ r. (r.start ≤ r.end) × (r.end ≤ length r.message.now) × (r.end ≤ r.start + 65535) };
}

impl<'a> Clone for RecordRef<'a> {
    ghost is_clone = { λ item copy. copy ≡ item };

    ghost is_infallible = { λ _. ⊤ };

    fn clone(&self) -> Result<RecordRef<'a>, AllocError> {
        Ok(RecordRef {
            message: self.message,
            owner: self.owner.clone()?,
            rtype: self.rtype,
            class: self.class,
            ttl: self.ttl,
            rdata: self.rdata,
            start: self.start,
            end: self.end,
        })
    }
}

impl<'a> RecordRef<'a> {
    /// The name that owns the record.
    pub fn owner(&self) -> ParsedName<'a>
        ensures { result ≡ self.now.resource.owner }
    {
        self.owner.clone().unwrap()
    }

    /// The record's type, which says what shape its data has.
    pub fn rtype(&self) -> Rtype
        ensures { result ≡ self.now.resource.rtype }
    {
        self.rtype
    }

    /// The record's class; in an OPT record it is the UDP payload size.
    pub fn class(&self) -> Class
        ensures { result ≡ self.now.resource.class }
    {
        self.class
    }

    /// How long the record may be kept.
    pub fn ttl(&self) -> Ttl
        ensures { result ≡ self.now.resource.ttl }
    {
        self.ttl
    }

    /// The data as it stands in the message, where names may be compressed.
    pub fn rdata(&self) -> &'a [u8]
        ensures { result.now ≡ self.now.resource.rdata }
    {
        self.rdata
    }

    /// Copies the record out of the message. Its data is read in the shape of its type, and refused if it has another
    /// shape.
    pub fn to_record(&self, alloc: Global) -> Result<Record, ParseError>
        ensures value { GivesParsed result (typed self.now) }
        ensures lawful { IfOk result (λ r. IsLawful r.rdata) }
    {
        let owner = self.owner.to_name(alloc)?;
        let rdata = data_in(alloc, self.message, self.rtype, self.end, self.start)?;
        Ok(Record {
            owner,
            class: self.class,
            ttl: self.ttl,
            rdata,
        })
    }
}

/// The record at a place of a message, in octets from its start, and the place after it (RFC 1035, section 4.1.3).
#[inline(always)]
#[tactic(auto, unfolding(crate::specs::Standing::standing_at))]
pub fn record_in<'a>(message: &'a [u8], at: usize) -> Result<(RecordRef<'a>, usize), ParseError>
    requires { at ≤ length message.now }
    ensures value { result ≡ standing_at message.now at }
    ensures within { IfOk result (λ r. r.1 ≤ length message.now) }
{
    let (owner, at) = ParsedName::at(message, message.len(), at)?;
    let (fields, start) = fixed_in(message, at)?;
    let (rdata, end) = octets_in(message, fields.size as usize, start)?;
    let item = RecordRef {
        message,
        owner,
        rtype: fields.rtype,
        class: fields.class,
        ttl: fields.ttl,
        rdata,
        start,
        end,
    };
    Ok((item, end))
}

/// The records of a section, each as it stands in the message; after one refusal the end.
#[derive(Drop)]
pub struct RecordIter<'a> {
    message: &'a [u8],
    at: usize,
    left: u16,
}

impl<'a> Model for RecordIter<'a> {
    ghost use Rattle.std.specs.Prelude.{List, Result, ◌≤◌, length};
    ghost use Rattle.dns_name.specs.declared.error.ParseError.{ParseError};
    ghost use Rattle.dns_message.specs.Standing.{Standing, standing_at};
    ghost use Rattle.dns_message.specs.Sections.{to_come};

    ghost Value = { List (Result Standing ParseError) };

    ghost view = { λ i. to_come (standing_at i.message.now) i.left i.at };

    ghost invariant = { λ i. i.at ≤ length i.message.now };
}

impl<'a> Clone for RecordIter<'a> {
    ghost is_clone = { λ items copy. copy ≡ items };

    ghost is_infallible = { λ _. ⊤ };

    fn clone(&self) -> Result<RecordIter<'a>, AllocError> {
        Ok(RecordIter {
            message: self.message,
            at: self.at,
            left: self.left,
        })
    }
}

impl<'a> RecordIter<'a> {
    /// The `left` records of a message from a place on, in octets from its start.
    pub fn of(message: &'a [u8], at: usize, left: u16) -> RecordIter<'a>
        requires { at ≤ length message.now }
        ensures { result ≡ to_come (standing_at message.now) left at }
    {
        RecordIter { message, at, left }
    }
}

impl<'a> Iterator for RecordIter<'a> {
    type Item = Result<RecordRef<'a>, ParseError>;

    ghost next_gives = { YieldsFirst (λ i. i) };

    ghost remaining = { item_count (λ i. i) };

    #[inline(always)]
    #[tactic(auto, using(crate::proofs::Coming::coming))]
    fn next(&mut self) -> Option<Result<RecordRef<'a>, ParseError>> {
        if self.left == 0 {
            return None;
        }
        match record_in(self.message, self.at) {
            Ok((item, end)) => {
                self.at = end;
                self.left -= 1;
                Some(Ok(item))
            }
            Err(e) => {
                self.left = 0;
                Some(Err(e))
            }
        }
    }
}

/// The place after that many records from a place on.
#[tactic(auto, using(crate::proofs::Coming::ending))]
pub(crate) fn records_end(message: &[u8], start: usize, count: u16) -> Result<usize, ParseError>
    requires { start ≤ length message.now }
    ensures value { result ≡ ends_at (standing_at message.now) count start }
    ensures within { IfOk result (λ end. end ≤ length message.now) }
{
    let mut at = start;
    let mut left = count;
    'items: while left > 0 {
        let (_, end) = record_in(message, at)?;
        at = end;
        left -= 1;
    }
    Ok(at)
}
