//! Questions.

ghost use Rattle.std.specs.Prelude.{◌≡◌, ◌≤◌, ◌<◌, ◌+◌, ◌++◌, length, take, IfOk, OnOk, OnErr, ⊤};
ghost use Rattle.std.specs.Cmp.{partial_equiv_from_equiv};
ghost use Rattle.std.specs.Iterator.{YieldsFirst, item_count};
ghost use Rattle.dns_message.specs.declared.question.Question.{Question};
ghost use Rattle.dns_message.specs.Equality.{same_question, same_question_equiv};
ghost use Rattle.dns_message.specs.Read.{question_at};
ghost use Rattle.dns_message.specs.Sections.{ends_at, to_come};
ghost use Rattle.dns_message.specs.Wire.{question_octets};
ghost use Rattle.dns_message.specs.Msg.{HasName};

use crate::read::two_in;
use crate::write::{labels_size, push_labels, push_two, settle};
use dns_name::{Class, Name, OutOfMemory, ParseError, ParsedName, Rtype};
use std::alloc::{AllocError, Global};
use std::marker::Model;

/// A question (RFC 1035, section 4.1.2). Questions are equal if their names are up to ASCII case, their types and
/// their classes.
#[derive(Debug, Drop)]
pub struct Question {
    /// The name that is asked for.
    pub qname: Name,
    /// The type of the records that are asked for.
    pub qtype: Rtype,
    /// The class of the records that are asked for.
    pub qclass: Class,
}

/// What can be written as a question: a question on its own, or as it stands in a message.
pub trait ComposeQuestion {
    /// The question that is written.
    ghost asked: { Self → Question };

    /// How many octets the question takes, its name uncompressed (RFC 1035, section 4.1.2).
    fn compose_len(&self) -> usize
        ensures value { result ≡ length (question_octets (asked self.now)) }
        ensures named { HasName (asked self.now) };

    /// Appends the question's octets, its name uncompressed; nothing if there is no memory.
    fn compose_question(&self, alloc: Global, target: &mut Vec<u8>) -> Result<(), OutOfMemory>
        ensures ok { OnOk result (target.new.items ≡ target.old.items ++ question_octets (asked self.now)) }
        ensures err { OnErr result (target.new.items ≡ target.old.items) };
}

impl ComposeQuestion for Question {
    ghost asked = { λ q. q };

    fn compose_len(&self) -> usize {
        self.qname.as_slice().len() + 4
    }

    fn compose_question(&self, alloc: Global, target: &mut Vec<u8>) -> Result<(), OutOfMemory> {
        let start = target.len();
        let written = self.write(alloc, target);
        settle(target, start, written)
    }
}

impl PartialEq for Question {
    ghost eq = { same_question };

    ghost laws = { partial_equiv_from_equiv same_question_equiv };

    fn eq(&self, other: &Question) -> bool {
        self.qname == other.qname && self.qtype == other.qtype && self.qclass == other.qclass
    }
}

impl Eq for Question {
    ghost laws = { same_question_equiv };
}

impl Question {
    /// A copy in memory of its own. The letters of the name keep their case.
    pub fn try_clone(&self, alloc: Global) -> Result<Question, OutOfMemory>
        ensures { IfOk result (λ q. q ≡ self.now) }
    {
        let qname = self.qname.try_clone(alloc)?;
        Ok(Question {
            qname,
            qtype: self.qtype,
            qclass: self.qclass,
        })
    }

    /// Appends the octets of a question, or some of them.
    fn write(&self, alloc: Global, target: &mut Vec<u8>) -> Result<(), OutOfMemory>
        ensures ok { OnOk result (target.new.items ≡ target.old.items ++ question_octets self.now) }
        ensures err { OnErr result (take (length target.old.items) target.new.items ≡ target.old.items) }
    {
        self.qname.compose(alloc, target)?;
        push_two(target, self.qtype.to_int())?;
        push_two(target, self.qclass.to_int())
    }
}

/// A question as it stands in a message.
#[derive(Drop)]
pub struct QuestionRef<'a> {
    qname: ParsedName<'a>,
    qtype: Rtype,
    qclass: Class,
}

impl<'a> Model for QuestionRef<'a> {
    ghost use Rattle.dns_message.specs.declared.question.Question.{Question};

    ghost Value = { Question };

    ghost view = { λ q. record { qname = q.qname; qtype = q.qtype; qclass = q.qclass } };
}

impl<'a> Clone for QuestionRef<'a> {
    ghost is_clone = { λ question copy. copy ≡ question };

    ghost is_infallible = { λ _. ⊤ };

    fn clone(&self) -> Result<QuestionRef<'a>, AllocError> {
        Ok(QuestionRef {
            qname: self.qname.clone()?,
            qtype: self.qtype,
            qclass: self.qclass,
        })
    }
}

impl<'a> QuestionRef<'a> {
    /// The name that is asked for.
    pub fn qname(&self) -> ParsedName<'a>
        ensures { result ≡ self.now.qname }
    {
        self.qname.clone().unwrap()
    }

    /// The type of the records that are asked for.
    pub fn qtype(&self) -> Rtype
        ensures { result ≡ self.now.qtype }
    {
        self.qtype
    }

    /// The class of the question, IN in nearly all.
    pub fn qclass(&self) -> Class
        ensures { result ≡ self.now.qclass }
    {
        self.qclass
    }

    /// Copies the question out of the message. The letters of its name keep their case.
    pub fn to_question(&self, alloc: Global) -> Result<Question, OutOfMemory>
        ensures { IfOk result (λ q. q ≡ self.now) }
    {
        let qname = self.qname.to_name(alloc)?;
        Ok(Question {
            qname,
            qtype: self.qtype,
            qclass: self.qclass,
        })
    }

    /// Appends the octets of a question, or some of them.
    fn write(&self, target: &mut Vec<u8>) -> Result<(), OutOfMemory>
        ensures ok { OnOk result (target.new.items ≡ target.old.items ++ question_octets self.now) }
        ensures err { OnErr result (take (length target.old.items) target.new.items ≡ target.old.items) }
    {
        push_labels(target, self.qname.labels())?;
        push_two(target, self.qtype.to_int())?;
        push_two(target, self.qclass.to_int())
    }
}

impl<'a> ComposeQuestion for QuestionRef<'a> {
    ghost asked = { λ q. q };

    fn compose_len(&self) -> usize {
        labels_size(self.qname.labels()) + 4
    }

    fn compose_question(&self, _alloc: Global, target: &mut Vec<u8>) -> Result<(), OutOfMemory> {
        let start = target.len();
        let written = self.write(target);
        settle(target, start, written)
    }
}

/// The question at a place of a message, in octets from its start, and the place after it (RFC 1035, section 4.1.2).
#[inline(always)]
#[tactic(auto, unfolding(crate::specs::Read::question_at))]
pub fn question_in<'a>(message: &'a [u8], at: usize) -> Result<(QuestionRef<'a>, usize), ParseError>
    requires { at ≤ length message.now }
    ensures value { result ≡ question_at message.now at }
    ensures within { IfOk result (λ r. r.1 ≤ length message.now) }
{
    let (qname, at) = ParsedName::at(message, message.len(), at)?;
    let (qtype, at) = two_in(message, at)?;
    let (qclass, at) = two_in(message, at)?;
    let question = QuestionRef {
        qname,
        qtype: Rtype::from_int(qtype),
        qclass: Class::from_int(qclass),
    };
    Ok((question, at))
}

/// The questions of a message, each as it stands there; after one refusal the end.
#[derive(Drop)]
pub struct QuestionIter<'a> {
    message: &'a [u8],
    at: usize,
    left: u16,
}

impl<'a> Model for QuestionIter<'a> {
    ghost use Rattle.std.specs.Prelude.{List, Result, ◌≤◌, length};
    ghost use Rattle.dns_name.specs.declared.error.ParseError.{ParseError};
    ghost use Rattle.dns_message.specs.declared.question.Question.{Question};
    ghost use Rattle.dns_message.specs.Read.{question_at};
    ghost use Rattle.dns_message.specs.Sections.{to_come};

    ghost Value = { List (Result Question ParseError) };

    ghost view = { λ i. to_come (question_at i.message.now) i.left i.at };

    ghost invariant = { λ i. i.at ≤ length i.message.now };
}

impl<'a> Clone for QuestionIter<'a> {
    ghost is_clone = { λ questions copy. copy ≡ questions };

    ghost is_infallible = { λ _. ⊤ };

    fn clone(&self) -> Result<QuestionIter<'a>, AllocError> {
        Ok(QuestionIter {
            message: self.message,
            at: self.at,
            left: self.left,
        })
    }
}

impl<'a> QuestionIter<'a> {
    /// The `left` questions of a message from a place on.
    pub(crate) fn of(message: &'a [u8], at: usize, left: u16) -> QuestionIter<'a>
        requires { at ≤ length message.now }
        ensures { result ≡ to_come (question_at message.now) left at }
    {
        QuestionIter { message, at, left }
    }
}

impl<'a> Iterator for QuestionIter<'a> {
    type Item = Result<QuestionRef<'a>, ParseError>;

    ghost next_gives = { YieldsFirst (λ i. i) };

    ghost remaining = { item_count (λ i. i) };

    #[inline(always)]
    #[tactic(auto, using(crate::proofs::Coming::coming))]
    fn next(&mut self) -> Option<Result<QuestionRef<'a>, ParseError>> {
        if self.left == 0 {
            return None;
        }
        match question_in(self.message, self.at) {
            Ok((question, end)) => {
                self.at = end;
                self.left -= 1;
                Some(Ok(question))
            }
            Err(e) => {
                self.left = 0;
                Some(Err(e))
            }
        }
    }
}

/// The place after that many questions from a place on.
#[tactic(auto, using(crate::proofs::Coming::ending))]
pub(crate) fn questions_end(message: &[u8], start: usize, count: u16) -> Result<usize, ParseError>
    requires { start ≤ length message.now }
    ensures value { result ≡ ends_at (question_at message.now) count start }
    ensures within { IfOk result (λ end. end ≤ length message.now) }
{
    let mut at = start;
    let mut left = count;
    'items: while left > 0 {
        let (_, end) = question_in(message, at)?;
        at = end;
        left -= 1;
    }
    Ok(at)
}
