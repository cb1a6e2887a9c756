//! The answers that words spell.

ghost use Rattle.std.specs.Prelude.{◌≡◌, [], MatchOption, take, drop, length, true, false};
ghost use Rattle.std.specs.Str.{bytes_eq};
ghost use Rattle.dns_trace.specs.Reading.{GivesLine};
ghost use Rattle.dns_trace.specs.Values.{number};
ghost use Rattle.dns_script.specs.AnswerWords.{answer_in, answer_of, answers_after, feedback_word, reply_word, single_answer};

use crate::rule::{ScriptAnswer, ScriptAnswers, ScriptReply};
use dns_name::{Rcode, Ttl};
use dns_service::{ServiceError, ServiceFeedback};
use dns_trace::{LineError, Reason, Words, decimal, num};
use std::alloc::Global;

/// What follows a prefix of a word.
pub(crate) fn behind<'a>(word: &'a [u8], prefix: &[u8]) -> Option<&'a [u8]>
    ensures { MatchOption result (bytes_eq (take (length prefix.now) word.now) prefix.now ≡ false)
        (λ rest. (bytes_eq (take (length prefix.now) word.now) prefix.now ≡ true) × (rest.now ≡ drop (length prefix.now) word.now)) }
{
    if word.len() < prefix.len() || &word[..prefix.len()] != prefix {
        return None;
    }
    Some(&word[prefix.len()..])
}

/// A response code of four bits.
pub(crate) fn rcode(word: &[u8]) -> Result<Rcode, Reason>
    ensures { result ≡ number 20 16 word.now }
{
    let number = decimal(word, 20, 16)?;
    match Rcode::checked_from_int(number as u8) {
        Some(rcode) => Ok(rcode),
        None => Err(Reason::Value),
    }
}

/// A number of octets of at most 65,000.
fn octets(word: &[u8]) -> Result<u16, Reason>
    ensures { result ≡ number 20 65001 word.now }
{
    let number = decimal(word, 20, 65001)?;
    Ok(number as u16)
}

/// A reply: `rcode:N`, `blank:N`, `live:T` with a time to live of 32 bits, or `fill:L` or `opt:L` with that many zeros.
#[tactic(auto, unfolding(crate::specs::AnswerWords::reply_word, crate::specs::AnswerWords::sized_reply))]
fn reply(word: &[u8]) -> Result<ScriptReply, Reason>
    ensures { result ≡ reply_word word.now }
{
    if let Some(rest) = behind(word, b"rcode:".as_slice()) {
        return Ok(ScriptReply::Rcode(rcode(rest)?));
    }
    if let Some(rest) = behind(word, b"blank:".as_slice()) {
        return Ok(ScriptReply::Blank(rcode(rest)?));
    }
    if let Some(rest) = behind(word, b"live:".as_slice()) {
        let number = decimal(rest, 20, 4294967296)?;
        return Ok(ScriptReply::Live(Ttl::from_secs(number as u32)));
    }
    if let Some(rest) = behind(word, b"fill:".as_slice()) {
        return Ok(ScriptReply::Fill(octets(rest)?));
    }
    if let Some(rest) = behind(word, b"opt:".as_slice()) {
        return Ok(ScriptReply::Opt(octets(rest)?));
    }
    Err(Reason::Value)
}

/// A feedback: `begin`, `end` or `idle:NUM`.
#[tactic(auto, unfolding(crate::specs::AnswerWords::feedback_word))]
fn feedback(word: &[u8]) -> Result<ServiceFeedback, Reason>
    ensures { result ≡ feedback_word word.now }
{
    if word == b"begin".as_slice() {
        return Ok(ServiceFeedback::BeginTransaction);
    }
    if word == b"end".as_slice() {
        return Ok(ServiceFeedback::EndTransaction);
    }
    if let Some(rest) = behind(word, b"idle:".as_slice()) {
        let idle_timeout = Some(num(rest)?);
        return Ok(ServiceFeedback::Reconfigure { idle_timeout });
    }
    Err(Reason::Value)
}

/// An answer without `+`: `pend`, an error, a feedback or a reply.
#[tactic(auto, unfolding(crate::specs::AnswerWords::single_answer))]
fn single(word: &[u8]) -> Result<ScriptAnswer, Reason>
    ensures { result ≡ single_answer word.now }
{
    if word == b"pend".as_slice() {
        return Ok(ScriptAnswer::Pend);
    }
    if word == b"formerr".as_slice() {
        return Ok(ScriptAnswer::Error(ServiceError::FormatError));
    }
    if word == b"servfail".as_slice() {
        return Ok(ScriptAnswer::Error(ServiceError::InternalError));
    }
    if word == b"notimp".as_slice() {
        return Ok(ScriptAnswer::Error(ServiceError::NotImplemented));
    }
    if word == b"refused".as_slice() {
        return Ok(ScriptAnswer::Error(ServiceError::Refused));
    }
    match feedback(word) {
        Ok(feedback) => Ok(ScriptAnswer::Feedback(feedback)),
        Err(_) => Ok(ScriptAnswer::Reply(reply(word)?)),
    }
}

/// An answer by what stands before, between and after its `+`.
#[tactic(auto, unfolding(crate::specs::AnswerWords::double_answer))]
fn answer_in(parts: &Words) -> Result<ScriptAnswer, Reason>
    ensures { result ≡ answer_in parts.now }
{
    if parts.len() == 1 {
        return single(parts.word(0));
    }
    if parts.len() == 2 {
        let feedback = feedback(parts.word(0))?;
        let reply = reply(parts.word(1))?;
        return Ok(ScriptAnswer::Both(feedback, reply));
    }
    Err(Reason::Value)
}

/// An answer: `pend`, an error, a feedback, a reply, or a feedback, `+` and a reply.
fn answer(alloc: Global, word: &[u8]) -> Result<ScriptAnswer, LineError>
    ensures { GivesLine (λ a. a) result (answer_of word.now) }
{
    let parts = Words::parts(alloc, word, b'+')?;
    Ok(answer_in(&parts)?)
}

/// The answers from the third word on, in a vector.
fn answer_list(alloc: Global, words: &Words) -> Result<Vec<ScriptAnswer>, LineError>
    ensures { GivesLine (λ v. v.items) result (answers_after [] (drop 2 words.now)) }
{
    let mut answers = Vec::new(alloc);
    for i in 2..words.len() {
        let given = answer(alloc, words.word(i))?;
        answers.extend_from_slice(&[given])?;
    }
    Ok(answers)
}

/// The answers from the third word on.
pub fn answers(alloc: Global, words: &Words) -> Result<ScriptAnswers, LineError>
    ensures { GivesLine (λ a. a) result (answers_after [] (drop 2 words.now)) }
{
    let answers = answer_list(alloc, words)?;
    Ok(ScriptAnswers::from_vec(alloc, answers)?)
}
