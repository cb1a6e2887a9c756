//! A message that is read item by item.

ghost use Rattle.std.specs.Prelude.{◌≡◌, ◌≤◌, length, IfOk, OnErr, None, Some};
ghost use Rattle.dns_base.specs.Standing.{GivesParsed};
ghost use Rattle.dns_embed.specs.Reading.{Begins, Reads, item_at, next_section, one_less, question_by, record_by};
ghost use Rattle.dns_message.specs.Read.{question_at};
ghost use Rattle.dns_message.specs.Standing.{standing_at};

use crate::buffer::put;
use dns_base::{
    ComposeQuestion, ComposeRecord, CopiedRecord, HeaderCounts, Message, Octets, OutOfMemory,
    ParseError, question_in, record_in,
};
use std::alloc::Global;
use std::marker::Model;

/// The section of an item (RFC 1035, section 4.1).
#[derive(Clone, Copy)]
pub enum ItemSection {
    /// The item is a question.
    Question,
    /// The item is an answer record.
    Answer,
    /// The item is an authority record.
    Authority,
    /// The item is an additional record.
    Additional,
}

/// What came of the next item of a message.
#[derive(Clone, Copy)]
pub enum ReadItem {
    /// None is left.
    End,
    /// It is an item of a section. It stands at the front of the buffer, and that many octets are its.
    Item(ItemSection, usize),
    /// It is an item of that many octets, for which the buffer is too short. It stays.
    NoRoom(usize),
    /// It can't be read. It stays.
    Unreadable,
}

/// A message, the place in it of the next item, and how many items each section has from there on.
#[derive(Drop)]
pub struct MessageReader {
    octets: Octets,
    at: usize,
    left: HeaderCounts,
}

impl Model for MessageReader {
    ghost use Rattle.std.specs.Prelude.{◌≤◌, length};
    ghost use Rattle.dns_embed.specs.Reading.{Reading};

    ghost Value = { Reading };

    ghost view = { λ r. record { octets = r.octets; at = r.at; left = r.left } };

    ghost invariant = { λ r. r.at ≤ length r.octets };
}

impl MessageReader {
    /// Reads a message from its first item on. None if the octets are no message. They are copied.
    pub fn new(alloc: Global, octets: &[u8]) -> Result<Option<MessageReader>, OutOfMemory>
        ensures { IfOk result (Begins octets.now) }
    {
        let octets = Vec::from_slice(alloc, octets)?;
        let Ok(message) = Message::from_octets(octets) else {
            return Ok(None);
        };
        let left = message.header_counts();
        Ok(Some(MessageReader {
            octets: Octets::from_vec(message.into_octets()),
            at: 12,
            left,
        }))
    }

    /// Reads the next item into a buffer, in wire form with names uncompressed, if it fits.
    pub fn next(&mut self, alloc: Global, buffer: &mut [u8]) -> Result<ReadItem, OutOfMemory>
        ensures next { IfOk result (Reads self.old self.new buffer.old buffer.new) }
        ensures reader { OnErr result (self.new ≡ self.old) }
        ensures buffer { OnErr result (buffer.new ≡ buffer.old) }
    {
        let Some(section) = next_section(self.left) else {
            return Ok(ReadItem::End);
        };
        match item_in(alloc, section, self.octets.as_slice(), self.at) {
            Ok((item, end)) => {
                let len = item.as_slice().len();
                if !put(item.as_slice(), buffer) {
                    return Ok(ReadItem::NoRoom(len));
                }
                self.at = end;
                self.left = one_less(section, self.left);
                Ok(ReadItem::Item(section, len))
            }
            Err(ParseError::OutOfMemory) => Err(OutOfMemory),
            Err(_) => Ok(ReadItem::Unreadable),
        }
    }
}

/// The section of the next item.
fn next_section(left: HeaderCounts) -> Option<ItemSection>
    ensures { result ≡ next_section left }
{
    if left.qdcount != 0 {
        Some(ItemSection::Question)
    } else if left.ancount != 0 {
        Some(ItemSection::Answer)
    } else if left.nscount != 0 {
        Some(ItemSection::Authority)
    } else if left.arcount != 0 {
        Some(ItemSection::Additional)
    } else {
        None
    }
}

/// One item of a section less, which has some.
fn one_less(section: ItemSection, left: HeaderCounts) -> HeaderCounts
    requires { next_section left ≡ Some section }
    ensures { result ≡ one_less section left }
{
    match section {
        ItemSection::Question => HeaderCounts {
            qdcount: left.qdcount - 1,
            ..left
        },
        ItemSection::Answer => HeaderCounts {
            ancount: left.ancount - 1,
            ..left
        },
        ItemSection::Authority => HeaderCounts {
            nscount: left.nscount - 1,
            ..left
        },
        ItemSection::Additional => HeaderCounts {
            arcount: left.arcount - 1,
            ..left
        },
    }
}

/// The item of a section at a place of a message, and the place after it.
fn item_in(
    alloc: Global,
    section: ItemSection,
    message: &[u8],
    at: usize,
) -> Result<(Octets, usize), ParseError>
    requires { at ≤ length message.now }
    ensures value { GivesParsed result (item_at section message.now at) }
    ensures within { IfOk result (λ r. r.1 ≤ length message.now) }
{
    match section {
        ItemSection::Question => question_octets(alloc, message, at),
        ItemSection::Answer | ItemSection::Authority | ItemSection::Additional => {
            record_octets(alloc, message, at)
        }
    }
}

/// The question at a place of a message, and the place after it.
fn question_octets(alloc: Global, message: &[u8], at: usize) -> Result<(Octets, usize), ParseError>
    requires { at ≤ length message.now }
    ensures value { GivesParsed result (question_by (question_at message.now at)) }
    ensures within { IfOk result (λ r. r.1 ≤ length message.now) }
{
    let (question, end) = question_in(message, at)?;
    let mut octets = Vec::new(alloc);
    question.compose_question(alloc, &mut octets)?;
    Ok((Octets::from_vec(octets), end))
}

/// The record at a place of a message, and the place after it.
fn record_octets(alloc: Global, message: &[u8], at: usize) -> Result<(Octets, usize), ParseError>
    requires { at ≤ length message.now }
    ensures value { GivesParsed result (record_by (standing_at message.now at)) }
    ensures within { IfOk result (λ r. r.1 ≤ length message.now) }
{
    let (standing, end) = record_in(message, at)?;
    let copied = CopiedRecord::read(alloc, &standing)?;
    let mut octets = Vec::new(alloc);
    copied.get().compose_record(alloc, &mut octets)?;
    Ok((Octets::from_vec(octets), end))
}
