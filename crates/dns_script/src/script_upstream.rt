//! The upstreams of a script, and the forwarder that has them.

ghost use Rattle.std.specs.Prelude.{◌≡◌, ◌++◌, ◌∷◌, [], IfOk, OnOk};
ghost use Rattle.dns_base.specs.Wire.{wire};
ghost use Rattle.dns_forward.specs.Asked.{asked};
ghost use Rattle.dns_route.specs.RequestMessage.{request_sent};
ghost use Rattle.dns_script.specs.Upstreams.{PendFirst, answered_at, events_to, replied_to, sent_turn, upstream_turn, upstreams_under, word_events, word_of_poll};

use crate::rule_list::RuleList;
use crate::script_answers::begin;
use crate::upstream::{UpstreamLine, UpstreamWord, Upstreams};
use dns_base::{AnswerBuilder, Message, PushError};
use dns_forward::{Asking, AskingEvent, AskingOutcome, Forwarding, ask_all, led_to};
use dns_name::{Octets, OutOfMemory, Rcode};
use dns_route::request::Error;
use dns_route::{RequestMessage, SendError, SingleService, Turned, relay_answer};
use dns_service::{Polled, Request, ServiceError};
use std::alloc::Global;
use std::marker::Model;

/// What is answered to a request at a poll.
type SentAnswer = Result<Polled<Result<Message, SendError>>, OutOfMemory>;

/// The last moment that there is, at which each tick is due.
const LAST_MOMENT: u64 = 18_446_744_073_709_551_615;

/// A reply under an identifier, as octets.
fn under(reply: AnswerBuilder, id: u16) -> Octets
    ensures { result ≡ wire (record reply.message { header = record reply.message.header { id = id } }) }
{
    let mut reply = reply;
    let mut header = reply.header();
    header.id = id;
    reply.set_header(header);
    Octets::from_vec(reply.into_message().into_octets())
}

/// The reply to a message with this response code under an identifier arrives; none if it has no room for the questions.
fn push_reply(
    alloc: Global,
    events: &mut Vec<AskingEvent>,
    message: &Message,
    id: u16,
    rcode: Rcode,
) -> Result<(), OutOfMemory>
    ensures { OnOk result (events.new.items ≡ events.old.items ++ replied_to id message.now rcode) }
{
    if let Some(reply) = begin(alloc, message, rcode)? {
        let octets = under(reply, id);
        events.push(AskingEvent::Arrived {
            at: LAST_MOMENT,
            octets,
        })?;
    }
    Ok(())
}

/// What a word says happens, if a message was sent under an identifier.
fn push_events(
    alloc: Global,
    events: &mut Vec<AskingEvent>,
    message: &Message,
    id: u16,
    word: UpstreamWord,
) -> Result<(), OutOfMemory>
    ensures { OnOk result (events.new.items ≡ events.old.items ++ word_events id message.now word) }
{
    match word {
        UpstreamWord::Pend => Ok(()),
        UpstreamWord::Rcode(rcode) => push_reply(alloc, events, message, id, rcode),
        UpstreamWord::Stray(rcode) => {
            push_reply(alloc, events, message, id.wrapping_add(1), rcode)
        }
        UpstreamWord::Late => {
            events.push(AskingEvent::Tick { at: LAST_MOMENT })?;
            Ok(())
        }
    }
}

/// The word of a poll.
fn word_of_poll(words: &[UpstreamWord], k: u64) -> UpstreamWord
    ensures { result ≡ word_of_poll words.now k }
{
    match words.get(k as usize) {
        Some(word) => *word,
        None => UpstreamWord::Late,
    }
}

/// What happens up to a poll.
fn events_to(
    alloc: Global,
    message: &Message,
    id: u16,
    words: &[UpstreamWord],
    k: u64,
) -> Result<Vec<AskingEvent>, OutOfMemory>
    ensures { IfOk result (λ v. v.items ≡ events_to id message.now words.now k) }
{
    let mut events = Vec::new(alloc);
    push_events(alloc, &mut events, message, id, word_of_poll(words, 0))?;
    for i in 0..k {
        push_events(alloc, &mut events, message, id, word_of_poll(words, i + 1))?;
    }
    Ok(events)
}

/// What is answered to a message at a poll.
fn answered_at(alloc: Global, message: Message, words: &[UpstreamWord], k: u64) -> SentAnswer
    ensures { IfOk result (λ p. p ≡ answered_at words.now message k) }
{
    let id = message.header().id ^ 0x5555;
    let events = events_to(alloc, &message, id, words, k)?;
    let outcomes = asked(alloc, message, id, events.as_slice())?;
    Ok(led_to(outcomes))
}

/// What comes of the events of a message that is asked under an identifier, twice at most.
fn asked(
    alloc: Global,
    message: Message,
    id: u16,
    events: &[AskingEvent],
) -> Result<Vec<AskingOutcome>, OutOfMemory>
    ensures { IfOk result (λ os. os.items ≡ asked message id 2 1 0 events.now) }
{
    let asking = Asking::new(alloc, message, id, 2, 1, 0)?;
    ask_all(alloc, asking, events)
}

/// How many words `pend` there are in front of all others.
fn pends_before(words: &[UpstreamWord]) -> u64
    ensures { PendFirst words.now result }
{
    let len = words.len() as u64;
    for k in 0..len {
        match word_of_poll(words, k) {
            UpstreamWord::Pend => {}
            _ => return k,
        }
    }
    len
}

/// A single service over an upstream of a script. Contracts see its words. How many of these are `pend` in front of all others is
/// kept, so that a poll at which nothing came yet makes no event.
#[derive(Drop)]
pub(crate) struct ScriptRelay {
    words: RuleList<UpstreamWord>,
    pends: u64,
}

impl Model for ScriptRelay {
    ghost use Rattle.std.specs.Prelude.{List};
    ghost use Rattle.dns_script.specs.Upstreams.{PendFirst};
    ghost use Rattle.dns_script.specs.declared.upstream.UpstreamWord.{UpstreamWord};

    ghost Value = { List UpstreamWord };

    ghost view = { λ r. r.words };

    ghost invariant = { λ r. PendFirst r.words r.pends };
}

impl ScriptRelay {
    /// What is answered to a message at a poll.
    fn answered(&self, alloc: Global, message: Message, k: u64) -> SentAnswer
        ensures { IfOk result (λ p. p ≡ answered_at self.now message k) }
    {
        let pends = self.pends;
        if k < pends {
            return Ok(Polled::Pending);
        }
        answered_at(alloc, message, self.words.as_slice(), k)
    }

    /// What the answer to a request becomes that is sent for a query.
    fn turn_of(
        &self,
        alloc: Global,
        query: &Message,
        sent: &RequestMessage,
        k: u64,
    ) -> Result<Turned, OutOfMemory>
        ensures { IfOk result (λ p. p ≡ sent_turn self.now query.now k (wire (request_sent sent.now))) }
    {
        match sent.to_message(alloc) {
            Ok(message) => relay_answer(alloc, query, self.answered(alloc, message, k)?),
            Err(PushError::ShortBuf) => Ok(Polled::Ready(Err(ServiceError::InternalError))),
            Err(PushError::OutOfMemory) => Err(OutOfMemory),
        }
    }
}

impl SingleService for ScriptRelay {
    ghost answer = { upstream_turn };

    fn turn(&self, alloc: Global, request: &Request<()>, k: u64) -> Result<Turned, OutOfMemory> {
        match RequestMessage::try_from(alloc, request) {
            Ok(sent) => self.turn_of(alloc, request.message(), &sent, k),
            Err(Error::Unreadable(_)) => Ok(Polled::Ready(Err(ServiceError::InternalError))),
            Err(Error::OutOfMemory) => Err(OutOfMemory),
        }
    }
}

/// A forwarder that has these upstreams.
pub(crate) fn forwarder(
    alloc: Global,
    upstreams: Upstreams,
) -> Result<Forwarding<ScriptRelay>, OutOfMemory>
    ensures { IfOk result (λ f. f ≡ upstreams_under upstreams) }
{
    let mut forwarder = Forwarding::new(alloc);
    'upstreams: for upstream in upstreams.into_vec() {
        add(alloc, &mut forwarder, upstream)?;
    }
    Ok(forwarder)
}

/// An upstream more.
fn add(
    alloc: Global,
    forwarder: &mut Forwarding<ScriptRelay>,
    upstream: UpstreamLine,
) -> Result<(), OutOfMemory>
    ensures { OnOk result (forwarder.new ≡ forwarder.old ++ (upstream.name, upstream.words) ∷ []) }
{
    let UpstreamLine { name, words } = upstream;
    let pends = pends_before(words.as_slice());
    let relay = ScriptRelay { words, pends };
    forwarder.add_service(alloc, name, relay)
}
