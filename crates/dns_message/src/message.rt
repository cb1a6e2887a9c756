//! Messages as they come.

ghost use Rattle.std.specs.Prelude.{◌≡◌, ◌≤◌, ◌<◌, length, IfOk, IsOk, MatchResult, ⊤};
ghost use Rattle.dns_message.specs.Header.{header_of};
ghost use Rattle.dns_message.specs.Sections.{all_of, counts_of, first_of, questions_of, answers_of, authority_of, reached, sections_of, standing_answers, standing_authority, standing_additional};

use crate::header::{Header, HeaderCounts, header_in, number_at};
use crate::question::{QuestionIter, QuestionRef, questions_end};
use crate::record::{RecordIter, records_end};
use dns_name::ParseError;
use std::alloc::AllocError;
use std::marker::Model;

/// The questions of a message and its answer, authority and additional records.
pub type Sections<'a> = (
    QuestionIter<'a>,
    RecordIter<'a>,
    RecordIter<'a>,
    RecordIter<'a>,
);

/// A message's octets, owned: at least a header.
#[derive(Debug, Drop)]
pub struct Message {
    octets: Vec<u8>,
}

impl Model for Message {
    ghost use Rattle.std.specs.Prelude.{List, ℕ, ◌≤◌, length};

    ghost Value = { List ℕ };

    ghost view = { λ m. m.octets.items };

    ghost invariant = { λ m. 12 ≤ length m.octets.items };
}

/// A message's octets, borrowed: at least a header.
#[derive(Debug, Drop)]
pub struct MessageRef<'a> {
    octets: &'a [u8],
}

impl<'a> Model for MessageRef<'a> {
    ghost use Rattle.std.specs.Prelude.{List, ℕ, ◌≤◌, length};

    ghost Value = { List ℕ };

    ghost view = { λ m. m.octets.now };

    ghost invariant = { λ m. 12 ≤ length m.octets.now };
}

impl Message {
    /// Refused exactly below 12 octets. The vector is not copied.
    pub fn from_octets(octets: Vec<u8>) -> Result<Message, ParseError>
        ensures { MatchResult result (λ m. (m ≡ octets.items) × (12 ≤ length octets.items))
            (λ e. (e ≡ ParseError.ShortInput) × (length octets.items < 12)) }
    {
        if octets.len() < 12 {
            return Err(ParseError::ShortInput);
        }
        Ok(Message { octets })
    }

    /// The message that octets are, at least the 12 of a header. The vector is not copied.
    pub fn of(octets: Vec<u8>) -> Message
        requires { 12 ≤ length octets.items }
        ensures { result ≡ octets.items }
    {
        Message { octets }
    }

    /// Gives the message's octets back, which are not copied.
    pub fn into_octets(self) -> Vec<u8>
        ensures value { result.items ≡ self }
        ensures header { 12 ≤ length result.items }
    {
        let Message { octets } = self;
        octets
    }

    /// All octets of the message, header included.
    pub fn as_slice(&self) -> &[u8]
        ensures value { result.now ≡ self.now }
        ensures header { 12 ≤ length result.now }
    {
        self.octets.as_slice()
    }

    /// Borrows the message; no octet is copied.
    pub fn for_ref(&self) -> MessageRef<'_>
        ensures value { result ≡ self.now }
        ensures header { 12 ≤ length self.now }
    {
        MessageRef {
            octets: self.octets.as_slice(),
        }
    }

    /// The header.
    pub fn header(&self) -> Header
        ensures { result ≡ header_of self.now }
    {
        self.for_ref().header()
    }

    /// The numbers of items that the header states.
    pub fn header_counts(&self) -> HeaderCounts
        ensures { result ≡ counts_of self.now }
    {
        self.for_ref().header_counts()
    }

    /// The questions up to the first unreadable one, and then its refusal.
    pub fn question(&self) -> QuestionIter<'_>
        ensures { result ≡ all_of (questions_of self.now) }
    {
        self.for_ref().question()
    }

    /// The answer records, refused if a question is unreadable.
    pub fn answer(&self) -> Result<RecordIter<'_>, ParseError>
        ensures { result ≡ reached (questions_of self.now).1 (standing_answers self.now) }
    {
        self.for_ref().answer()
    }

    /// The authority records, refused if an earlier section is unreadable.
    pub fn authority(&self) -> Result<RecordIter<'_>, ParseError>
        ensures { result ≡ reached (answers_of self.now).1 (standing_authority self.now) }
    {
        self.for_ref().authority()
    }

    /// The additional records, refused if an earlier section is unreadable.
    pub fn additional(&self) -> Result<RecordIter<'_>, ParseError>
        ensures { result ≡ reached (authority_of self.now).1 (standing_additional self.now) }
    {
        self.for_ref().additional()
    }

    /// All four sections at once, refused if a section before the last is unreadable.
    pub fn sections(&self) -> Result<Sections<'_>, ParseError>
        ensures { result ≡ sections_of self.now }
    {
        self.for_ref().sections()
    }

    /// The first question, none if there is none or it is unreadable.
    pub fn first_question(&self) -> Option<QuestionRef<'_>>
        ensures { result ≡ first_of (questions_of self.now).0 }
    {
        self.for_ref().first_question()
    }
}

impl<'a> Clone for MessageRef<'a> {
    ghost is_clone = { λ message copy. copy ≡ message };

    ghost is_infallible = { λ _. ⊤ };

    fn clone(&self) -> Result<MessageRef<'a>, AllocError> {
        Ok(MessageRef {
            octets: self.octets,
        })
    }
}

impl<'a> MessageRef<'a> {
    /// Refused exactly below 12 octets.
    pub fn from_slice(octets: &'a [u8]) -> Result<MessageRef<'a>, ParseError>
        ensures { MatchResult result (λ m. (m ≡ octets.now) × (12 ≤ length octets.now))
            (λ e. (e ≡ ParseError.ShortInput) × (length octets.now < 12)) }
    {
        if octets.len() < 12 {
            return Err(ParseError::ShortInput);
        }
        Ok(MessageRef { octets })
    }

    /// The message that octets are, at least the 12 of a header.
    pub fn of(octets: &'a [u8]) -> MessageRef<'a>
        requires { 12 ≤ length octets.now }
        ensures { result ≡ octets.now }
    {
        MessageRef { octets }
    }

    /// All octets of the message, header included.
    pub fn as_slice(&self) -> &'a [u8]
        ensures value { result.now ≡ self.now }
        ensures header { 12 ≤ length result.now }
    {
        self.octets
    }

    /// The header.
    pub fn header(&self) -> Header
        ensures { result ≡ header_of self.now }
    {
        header_in(self.octets)
    }

    /// The numbers of items that the header states.
    pub fn header_counts(&self) -> HeaderCounts
        ensures { result ≡ counts_of self.now }
    {
        HeaderCounts {
            qdcount: number_at(self.octets, 4),
            ancount: number_at(self.octets, 6),
            nscount: number_at(self.octets, 8),
            arcount: number_at(self.octets, 10),
        }
    }

    /// The questions up to the first unreadable one, and then its refusal.
    pub fn question(&self) -> QuestionIter<'a>
        ensures { result ≡ all_of (questions_of self.now) }
    {
        questions(self.octets)
    }

    /// The answer records up to the first unreadable one, and then its refusal; refused if a question is
    /// unreadable.
    pub fn answer(&self) -> Result<RecordIter<'a>, ParseError>
        ensures { result ≡ reached (questions_of self.now).1 (standing_answers self.now) }
    {
        let at = end_of_questions(self.octets)?;
        Ok(answers_from(self.octets, at))
    }

    /// The authority records up to the first unreadable one, and then its refusal; refused if an earlier
    /// section is unreadable.
    pub fn authority(&self) -> Result<RecordIter<'a>, ParseError>
        ensures { result ≡ reached (answers_of self.now).1 (standing_authority self.now) }
    {
        let at = end_of_answers(self.octets)?;
        Ok(authority_from(self.octets, at))
    }

    /// The additional records up to the first unreadable one, and then its refusal; refused if an earlier
    /// section is unreadable.
    pub fn additional(&self) -> Result<RecordIter<'a>, ParseError>
        ensures { result ≡ reached (authority_of self.now).1 (standing_additional self.now) }
    {
        let at = end_of_authority(self.octets)?;
        Ok(additional_from(self.octets, at))
    }

    /// All four sections, as `question`, `answer`, `authority` and `additional` give them; refused if a section
    /// before the last is unreadable. The first three are passed over once, to find where the next begins (RFC 1035,
    /// section 4.1).
    #[tactic(auto, unfolding(crate::specs::Sections::answers_of, crate::specs::Sections::authority_of))]
    pub fn sections(&self) -> Result<Sections<'a>, ParseError>
        ensures { result ≡ sections_of self.now }
    {
        let answers = end_of_questions(self.octets)?;
        let authority = behind_answers(self.octets, answers)?;
        let additional = behind_authority(self.octets, authority)?;
        Ok((
            questions(self.octets),
            answers_from(self.octets, answers),
            authority_from(self.octets, authority),
            additional_from(self.octets, additional),
        ))
    }

    /// The first question, none if there is none or it is unreadable.
    #[tactic(auto, using(crate::proofs::Coming::first_here, crate::proofs::Coming::first_refused, crate::proofs::Coming::first_none))]
    pub fn first_question(&self) -> Option<QuestionRef<'a>>
        ensures { result ≡ first_of (questions_of self.now).0 }
    {
        let mut questions = self.question();
        match questions.next() {
            Some(Ok(question)) => Some(question),
            _ => None,
        }
    }
}

#[tactic(auto, using(crate::proofs::Coming::all_come), unfolding(crate::specs::Sections::questions_of))]
pub(crate) fn questions(message: &[u8]) -> QuestionIter<'_>
    requires { 12 ≤ length message.now }
    ensures { result ≡ all_of (questions_of message.now) }
{
    QuestionIter::of(message, 12, number_at(message, 4))
}

/// The place after the questions, in octets from the message's start (RFC 1035, section 4.1.2), or the refusal of
/// the first unreadable one.
#[tactic(auto, using(crate::proofs::Coming::all_ended), unfolding(crate::specs::Sections::questions_of))]
fn end_of_questions(message: &[u8]) -> Result<usize, ParseError>
    requires { 12 ≤ length message.now }
    ensures value { result ≡ (questions_of message.now).1 }
    ensures within { IfOk result (λ end. end ≤ length message.now) }
{
    questions_end(message, 12, number_at(message, 4))
}

/// The answer records, which begin at a place.
#[tactic(auto, using(crate::proofs::Coming::all_come))]
fn answers_from(message: &[u8], at: usize) -> RecordIter<'_>
    requires header { 12 ≤ length message.now }
    requires within { at ≤ length message.now }
    requires here { (questions_of message.now).1 ≡ Ok at }
    ensures { result ≡ all_of (standing_answers message.now) }
{
    RecordIter::of(message, at, number_at(message, 6))
}

/// The place after the answer records, which begin at a place.
#[tactic(auto, using(crate::proofs::Coming::behind_ended), unfolding(crate::specs::Sections::answers_of))]
fn behind_answers(message: &[u8], at: usize) -> Result<usize, ParseError>
    requires header { 12 ≤ length message.now }
    requires within { at ≤ length message.now }
    requires here { (questions_of message.now).1 ≡ Ok at }
    ensures value { result ≡ (answers_of message.now).1 }
    ensures within { IfOk result (λ end. end ≤ length message.now) }
{
    records_end(message, at, number_at(message, 6))
}

/// The place after the answer records, in octets from the message's start (RFC 1035, section 4.1.3), or the
/// refusal of the first unreadable question or record before it.
#[tactic(auto, unfolding(crate::specs::Sections::answers_of))]
fn end_of_answers(message: &[u8]) -> Result<usize, ParseError>
    requires { 12 ≤ length message.now }
    ensures value { result ≡ (answers_of message.now).1 }
    ensures within { IfOk result (λ end. end ≤ length message.now) }
{
    let at = end_of_questions(message)?;
    behind_answers(message, at)
}

/// The authority records, which begin at a place.
#[tactic(auto, using(crate::proofs::Coming::all_come))]
fn authority_from(message: &[u8], at: usize) -> RecordIter<'_>
    requires header { 12 ≤ length message.now }
    requires within { at ≤ length message.now }
    requires here { (answers_of message.now).1 ≡ Ok at }
    ensures { result ≡ all_of (standing_authority message.now) }
{
    RecordIter::of(message, at, number_at(message, 8))
}

/// The place after the authority records, which begin at a place.
#[tactic(auto, using(crate::proofs::Coming::behind_ended), unfolding(crate::specs::Sections::authority_of))]
fn behind_authority(message: &[u8], at: usize) -> Result<usize, ParseError>
    requires header { 12 ≤ length message.now }
    requires within { at ≤ length message.now }
    requires here { (answers_of message.now).1 ≡ Ok at }
    ensures value { result ≡ (authority_of message.now).1 }
    ensures within { IfOk result (λ end. end ≤ length message.now) }
{
    records_end(message, at, number_at(message, 8))
}

/// The place after the authority records, in octets from the message's start (RFC 1035, section 4.1.3), or the
/// refusal of the first unreadable question or record before it.
#[tactic(auto, unfolding(crate::specs::Sections::authority_of))]
fn end_of_authority(message: &[u8]) -> Result<usize, ParseError>
    requires { 12 ≤ length message.now }
    ensures value { result ≡ (authority_of message.now).1 }
    ensures within { IfOk result (λ end. end ≤ length message.now) }
{
    let at = end_of_answers(message)?;
    behind_authority(message, at)
}

/// The additional records, which begin at a place.
#[tactic(auto, using(crate::proofs::Coming::all_come))]
fn additional_from(message: &[u8], at: usize) -> RecordIter<'_>
    requires header { 12 ≤ length message.now }
    requires within { at ≤ length message.now }
    requires here { (authority_of message.now).1 ≡ Ok at }
    ensures { result ≡ all_of (standing_additional message.now) }
{
    RecordIter::of(message, at, number_at(message, 10))
}
