//! A message as it is being built.

ghost use Rattle.std.specs.Prelude.{◌≡◌, ◌≤◌, ◌<◌, ◌+◌, ◌++◌, [], length, drop, take, replicate, min, IsTrue, IfOk, ◌↔◌};
ghost use Rattle.dns_base.specs.Header.{header_octets, IsHeader};
ghost use Rattle.dns_base.specs.Msg.{IsMessage, item_counts};
ghost use Rattle.dns_base.specs.Wire.{wire};
ghost use Rattle.dns_base.specs.Sections.{field};
ghost use Rattle.dns_base.specs.Built.{Built, NoRecords, Pushes, empty, with_header, with_question, with_record, less_questions, less_section, IsLast};
ghost use Rattle.dns_base.specs.Draft.{all_at, count_place, counted, moved_behind, start_in, start_of};
ghost use Rattle.dns_base.specs.Replaced.{AreSpelt, less_type, other_than, records_at, spelling};

mod answer_header;
mod appending;
mod copying;

use crate::error::PushError;
use crate::replace::{Others, count_others, squeeze};
use crate::stream::StreamTarget;
use dns_message::{
    ComposeQuestion, ComposeRecord, Header, HeaderCounts, Message, MessageRef, number_at,
};
use dns_name::{OutOfMemory, Rtype};
use std::alloc::Global;
use std::marker::Model;

/// One of the three sections of records, in the order of a message (RFC 1035, section 4.1).
#[derive(Clone, Copy, Debug)]
pub enum Section {
    Answer,
    Authority,
    Additional,
}

/// Where the count of a section of records stands in a message.
fn count_place(section: Section) -> usize
    ensures value { result ≡ count_place section }
    ensures within { result ≤ 10 }
{
    match section {
        Section::Answer => 6,
        Section::Authority => 8,
        Section::Additional => 10,
    }
}

/// Where the sections of records begin in a message, in octets from its start.
#[derive(Clone, Copy, Debug)]
struct Starts {
    answer: u16,
    authority: u16,
    additional: u16,
}

impl Starts {
    /// All at one place.
    fn all(place: usize) -> Starts
        requires { place ≤ 65535 }
        ensures { result ≡ all_at place }
    {
        let place = place as u16;
        Starts {
            answer: place,
            authority: place,
            additional: place,
        }
    }

    /// Where a section begins.
    fn of(self, section: Section) -> usize
        ensures value { result ≡ start_in self section }
        ensures short { result ≤ 65535 }
    {
        let place = match section {
            Section::Answer => self.answer,
            Section::Authority => self.authority,
            Section::Additional => self.additional,
        };
        place as usize
    }

    /// These starts, but every section after the given one begins at `place`.
    fn behind(self, section: Section, place: usize) -> Starts
        requires { place ≤ 65535 }
        ensures { result ≡ moved_behind self section place }
    {
        let place = place as u16;
        match section {
            Section::Answer => Starts {
                authority: place,
                additional: place,
                ..self
            },
            Section::Authority => Starts {
                additional: place,
                ..self
            },
            Section::Additional => self,
        }
    }
}

/// A message after two octets for its length, where its sections begin, and the limit of its octets.
#[derive(Debug, Drop)]
pub(crate) struct Draft {
    octets: Vec<u8>,
    starts: Starts,
    limit: u16,
}

impl Model for Draft {
    ghost use Rattle.std.specs.Prelude.{drop};
    ghost use Rattle.dns_base.specs.Sections.{message_of};
    ghost use Rattle.dns_base.specs.Built.{Built};
    ghost use Rattle.dns_base.specs.Draft.{AreStarts, IsDraft};

    ghost Value = { Built };

    ghost view = { λ b. record { message = message_of (drop 2 b.octets.items); limit = b.limit } };

    ghost invariant = { λ b. IsDraft b.octets.items b.limit × AreStarts b.starts (drop 2 b.octets.items) };
}

/// How many octets a draft has room for at first: those of a usual reply, a header, one question and a record or two.
const ROOM: usize = 128;

/// Two octets for a length, and a header of zeros.
fn blank(alloc: Global) -> Result<Vec<u8>, OutOfMemory>
    ensures { IfOk result (λ v. v.items ≡ replicate 14 0) }
{
    let mut octets = vec![in alloc; 0u8; ROOM]?;
    octets.truncate(14);
    Ok(octets)
}

/// Two octets for a length, and a header of zeros, in memory that is given if that has room for a usual reply.
fn blank_in(alloc: Global, memory: Vec<u8>) -> Result<Vec<u8>, OutOfMemory>
    ensures { IfOk result (λ v. v.items ≡ replicate 14 0) }
{
    if memory.len() < 14 || memory.capacity() < ROOM {
        return blank(alloc);
    }
    let mut octets = memory;
    octets.truncate(14);
    octets.as_mut_slice().copy_from_slice(&[0; 14]);
    Ok(octets)
}

impl Draft {
    /// The empty message with a zero header, in memory that is given.
    pub(crate) fn in_memory(alloc: Global, memory: Vec<u8>) -> Result<Draft, OutOfMemory>
        ensures { IfOk result (λ b. b ≡ record { message = empty; limit = 65535 }) }
    {
        let octets = blank_in(alloc, memory)?;
        Ok(Draft {
            octets,
            starts: Starts::all(12),
            limit: 65535,
        })
    }

    /// The empty message with a zero header.
    pub(crate) fn new(alloc: Global) -> Result<Draft, OutOfMemory>
        ensures { IfOk result (λ b. b ≡ record { message = empty; limit = 65535 }) }
    {
        Draft::in_memory(alloc, Vec::new(alloc))
    }

    /// A copy, with room for a small record more.
    pub(crate) fn try_clone(&self, alloc: Global) -> Result<Draft, OutOfMemory>
        ensures { IfOk result (λ b. b ≡ self.now) }
    {
        let mut octets = Vec::with_capacity(alloc, self.octets.len() + 32)?;
        octets.extend_from_slice(self.octets.as_slice())?;
        Ok(Draft {
            octets,
            starts: self.starts,
            limit: self.limit,
        })
    }

    /// The message's octets.
    pub(crate) fn as_slice(&self) -> &[u8]
        ensures value { result.now ≡ wire self.now.message }
        ensures lawful { IsMessage self.now.message }
        ensures header { 12 ≤ length result.now }
        ensures short { length result.now ≤ 65535 }
    {
        &self.octets.as_slice()[2..]
    }

    /// The message, borrowed.
    pub(crate) fn as_message(&self) -> MessageRef<'_>
        ensures value { result ≡ wire self.now.message }
        ensures lawful { IsMessage self.now.message }
    {
        MessageRef::of(self.as_slice())
    }

    /// The header.
    pub(crate) fn header(&self) -> Header
        ensures { result ≡ self.now.message.header }
    {
        self.as_message().header()
    }

    /// How many items each section has.
    pub(crate) fn counts(&self) -> HeaderCounts
        ensures { result ≡ item_counts self.now.message }
    {
        self.as_message().header_counts()
    }

    /// How many octets the message may take.
    pub(crate) fn push_limit(&self) -> usize
        ensures value { result ≡ self.now.limit }
        ensures limited { result ≤ 65535 }
    {
        self.limit as usize
    }

    /// Lets the message take that many octets, at most 65,535.
    pub(crate) fn set_push_limit(&mut self, limit: usize)
        ensures { self.new ≡ record self.old { limit = min limit 65535 } }
    {
        self.limit = limit.min(65535) as u16;
    }

    /// Sets the header.
    pub(crate) fn set_header(&mut self, header: Header)
        ensures { self.new ≡ with_header self.old header }
    {
        put_header(&mut self.octets, &header);
    }

    /// Adds a question.
    pub(crate) fn push_question<Q: ComposeQuestion>(
        &mut self,
        alloc: Global,
        question: &Q,
    ) -> Result<(), PushError>
        requires { NoRecords self.old.message }
        ensures { Pushes self.old self.new (with_question self.old (Q.asked question.now)) result }
    {
        if self.octets.len() - 2 + question.compose_len() > self.limit as usize {
            return Err(PushError::ShortBuf);
        }
        question.compose_question(alloc, &mut self.octets)?;
        count_more(&mut self.octets, 4);
        self.starts = Starts::all(self.octets.len() - 2);
        Ok(())
    }

    /// Adds a record to the last section.
    pub(crate) fn push_record<R: ComposeRecord>(
        &mut self,
        alloc: Global,
        section: Section,
        added: &R,
    ) -> Result<(), PushError>
        requires last { IsLast section self.old.message }
        requires lawful { R.is_lawful added.now }
        ensures { Pushes self.old self.new (with_record section self.old (R.resource added.now)) result }
    {
        if self.octets.len() - 2 + added.record_len() > self.limit as usize {
            return Err(PushError::ShortBuf);
        }
        added.compose_record(alloc, &mut self.octets)?;
        count_more(&mut self.octets, count_place(section));
        let end = self.octets.len() - 2;
        self.starts = self.starts.behind(section, end);
        Ok(())
    }

    /// Drops the questions.
    pub(crate) fn rewind_questions(&mut self)
        requires { NoRecords self.old.message }
        ensures { self.new ≡ less_questions self.old }
    {
        cut(&mut self.octets, 12, 4);
        self.starts = Starts::all(12);
    }

    /// Drops the records of the last section.
    pub(crate) fn rewind(&mut self, section: Section)
        requires { IsLast section self.old.message }
        ensures { self.new ≡ less_section section self.old }
    {
        let start = self.starts.of(section);
        cut(&mut self.octets, start, count_place(section));
        self.starts = self.starts.behind(section, start);
    }

    /// The place where the additional records begin.
    pub(crate) fn additional_start(&self) -> usize
        ensures value { start_of Section.Additional (wire self.now.message) ≡ Ok result }
        ensures spelt { AreSpelt (wire self.now.message) (length self.now.message.additional) result }
        ensures read { records_at (wire self.now.message) (length self.now.message.additional) result ≡ self.now.message.additional }
    {
        self.starts.additional as usize
    }

    /// The additional records of other types than one.
    fn others(&self, rtype: Rtype) -> Others
        ensures start { start_of Section.Additional (wire self.now.message) ≡ Ok result.start }
        ensures count { result.count ≡ length self.now.message.additional }
        ensures kept { result.kept ≡ length (other_than rtype self.now.message.additional) }
        ensures size { result.size ≡ length (spelling (other_than rtype self.now.message.additional)) }
    {
        let start = self.additional_start();
        let count = self.counts().arcount;
        count_others(self.as_slice(), start, count, rtype)
    }

    /// Drops the additional records of a type.
    #[inline(always)]
    pub(crate) fn remove_type(&mut self, rtype: Rtype)
        ensures { self.new ≡ less_type rtype self.old }
    {
        let others = self.others(rtype);
        if others.kept == others.count {
            return;
        }
        squeeze(&mut self.octets, others, rtype, others.kept);
    }

    /// How many octets the message takes without its additional records of a type.
    pub(crate) fn len_without(&self, rtype: Rtype) -> usize
        ensures { result ≡ length (wire (less_type rtype self.now).message) }
    {
        let _message = self.as_slice();
        let others = self.others(rtype);
        others.start + others.size
    }

    /// Puts a record in place of the additional records of a type.
    pub(crate) fn replace_type<R: ComposeRecord>(
        &mut self,
        alloc: Global,
        rtype: Rtype,
        added: &R,
    ) -> Result<(), PushError>
        requires { R.is_lawful added.now }
        ensures { Pushes self.old self.new (with_record Section.Additional (less_type rtype self.old) (R.resource added.now)) result }
    {
        let others = self.others(rtype);
        if others.start + others.size + added.record_len() > self.limit as usize {
            return Err(PushError::ShortBuf);
        }
        added.compose_record(alloc, &mut self.octets)?;
        squeeze(&mut self.octets, others, rtype, others.kept + 1);
        Ok(())
    }

    /// The message, whose octets are moved to the front.
    pub(crate) fn into_message(self) -> Message
        ensures value { result ≡ wire self.message }
        ensures lawful { IsMessage self.message }
    {
        let Draft { mut octets, .. } = self;
        drop_length(&mut octets);
        Message::of(octets)
    }

    /// The finished message.
    pub(crate) fn finish(self) -> StreamTarget
        ensures value { result ≡ wire self.message }
        ensures lawful { IsMessage self.message }
    {
        let Draft { octets, .. } = self;
        StreamTarget::of(octets)
    }
}

/// Drops the two octets in front of a message.
fn drop_length(octets: &mut Vec<u8>)
    requires { 2 ≤ length octets.old.items }
    ensures { octets.new.items ≡ drop 2 octets.old.items }
{
    let len = octets.len();
    octets.as_mut_slice().copy_within(2..len, 0);
    octets.truncate(len - 2);
}

/// Writes the header of a message that stands after two octets.
fn put_header(octets: &mut Vec<u8>, header: &Header)
    requires { 6 ≤ length octets.old.items }
    ensures header { drop 2 octets.new.items ≡ header_octets header.now ++ drop 6 octets.old.items }
    ensures len { length octets.new.items ≡ length octets.old.items }
    ensures lawful { IsHeader header.now }
{
    let [a, b, c, d] = header.octets();
    octets[2] = a;
    octets[3] = b;
    octets[4] = c;
    octets[5] = d;
}

/// Writes a count at a place of a message that stands after two octets.
fn put_count(octets: &mut Vec<u8>, at: usize, count: u16)
    requires within { at + 3 < length octets.old.items }
    ensures message { drop 2 octets.new.items ≡ counted at count (drop 2 octets.old.items) }
    ensures len { length octets.new.items ≡ length octets.old.items }
{
    octets[at + 2] = (count / 256) as u8;
    octets[at + 3] = (count % 256) as u8;
}

/// Counts one item more at a place of a message that stands after two octets.
fn count_more(octets: &mut Vec<u8>, at: usize)
    requires within { at + 3 < length octets.old.items }
    requires few { field at (drop 2 octets.old.items) < 65535 }
    ensures message { drop 2 octets.new.items ≡ counted at (field at (drop 2 octets.old.items) + 1) (drop 2 octets.old.items) }
    ensures len { length octets.new.items ≡ length octets.old.items }
{
    let count = number_at(&octets.as_slice()[2..], at) + 1;
    put_count(octets, at, count);
}

/// Cuts a message that stands after two octets, and sets the count at a place of it to 0.
fn cut(octets: &mut Vec<u8>, start: usize, at: usize)
    requires after { at + 1 < start }
    requires within { start + 2 ≤ length octets.old.items }
    ensures message { drop 2 octets.new.items ≡ counted at 0 (take start (drop 2 octets.old.items)) }
    ensures len { length octets.new.items ≡ start + 2 }
{
    octets.truncate(start + 2);
    put_count(octets, at, 0);
}
