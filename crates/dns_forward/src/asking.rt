//! One question to one upstream.

ghost use Rattle.std.specs.Prelude.{◌≡◌, ◌≤◌, ◌+◌, [], max, IfOk, OnErr, List};
ghost use Rattle.dns_service.specs.Config.{in_range};
ghost use Rattle.dns_forward.specs.declared.asking_event.AskingEvent.{AskingEvent};
ghost use Rattle.dns_forward.specs.declared.asking_event.AskingOutcome.{AskingOutcome};
ghost use Rattle.dns_forward.specs.Asked.{Inquiry, deadline, first_due, has_ended, is_due};
ghost use Rattle.dns_forward.specs.Matching.{with_id};

use crate::asking_event::{AskingEvent, AskingOutcome, Ticked};
use crate::matching::{Expected, with_id};
use dns_base::Message;
use dns_name::OutOfMemory;
use std::alloc::Global;

/// A question that is asked of one upstream: which octets are sent and when again, and which are the answer. It does no input or
/// output: its owner sends `octets` when it is made and whenever a tick says `Send`, and tells it what arrives and what time it is.
/// Moments are in any unit, the timeout's.
#[derive(Debug, Drop)]
pub struct Asking {
    /// The message under the identifier that it is sent under.
    pub(crate) octets: Message,
    /// The identifier that the answer is given under.
    pub(crate) asker: u16,
    /// What octets that arrive need to be the answer.
    pub(crate) expected: Expected,
    /// How long an answer is waited for after a send.
    pub(crate) timeout: u64,
    /// When the message was sent last.
    pub(crate) last: u64,
    /// How many ticks can be due until it has ended; 0 once an answer came or it was given up.
    pub(crate) left: u8,
}

impl Asking {
    ghost use Rattle.dns_forward.specs.Askings.{HasHeard, Hears};

    /// A message that is sent under an identifier, at most `tries` times, from 1 to 8. It is sent again if no answer came for
    /// `timeout`, from 1, since queries may be lost (RFC 1035, section 4.2.1). It counts as sent at `at`.
    pub fn new(
        alloc: Global,
        message: Message,
        id: u16,
        tries: u8,
        timeout: u64,
        at: u64,
    ) -> Result<Asking, OutOfMemory>
        ensures { IfOk result (HasHeard (record {
          message = message;
          id = id;
          tries = in_range 1 8 tries;
          timeout = max timeout 1;
          at = at;
        }) []) }
    {
        Asking::of(alloc, message, id, tries.clamp(1, 8), timeout.max(1), at)
    }

    /// Begins an asking whose tries, at least one, and timeout are taken as they are.
    fn of(
        alloc: Global,
        message: Message,
        id: u16,
        tries: u8,
        timeout: u64,
        at: u64,
    ) -> Result<Asking, OutOfMemory>
        requires { 1 ≤ tries }
        ensures { IfOk result (HasHeard (record { message = message; id = id; tries = tries; timeout = timeout; at = at }) []) }
    {
        let expected = Expected::of(alloc, &message, id)?;
        let asker = message.header().id;
        Ok(Asking {
            octets: with_id(message.into_octets(), id),
            asker,
            expected,
            timeout,
            last: at,
            left: tries,
        })
    }

    /// The message that is sent.
    pub fn octets(&self) -> &[u8]
        ensures { (q : Inquiry) (es : List AskingEvent) → HasHeard q es self.now → result.now ≡ with_id q.id q.message }
    {
        self.octets.as_slice()
    }

    /// Whether it has ended: an answer came, or it was given up.
    pub fn has_ended(&self) -> bool
        ensures { (q : Inquiry) (es : List AskingEvent) → HasHeard q es self.now → result ≡ has_ended q es }
    {
        self.left == 0
    }

    /// The deadline: the first moment at which a tick is due, so that its owner need not look before. It is 0 if the moment
    /// at which the timeout passes would be past 2^64 - 1. There is none once it has ended.
    pub fn deadline(&self) -> Option<u64>
        ensures { (q : Inquiry) (es : List AskingEvent) → HasHeard q es self.now → result ≡ deadline q es }
    {
        if self.left == 0 {
            return None;
        }
        Some(self.first_due())
    }

    /// The first moment at which a tick is due.
    fn first_due(&self) -> u64
        ensures { result ≡ first_due self.now.timeout self.now.last }
    {
        match self.last.checked_add(self.timeout) {
            Some(until) => until,
            None => 0,
        }
    }

    /// The answer, if octets that arrive are the first that match. It is given under the identifier of the message
    /// that was asked, otherwise as it came, truncated or not. A call without memory changes nothing.
    pub fn arrived(
        &mut self,
        alloc: Global,
        at: u64,
        octets: &[u8],
    ) -> Result<Option<Message>, OutOfMemory>
        ensures ok { IfOk result (λ m. Hears self.old self.new (AskingEvent.Arrived at octets.now) (AskingOutcome.OfArrival m)) }
        ensures err { OnErr result (self.new ≡ self.old) }
    {
        let _at = at;
        if self.left == 0 || !self.expected.is_answer(octets) {
            return Ok(None);
        }
        let octets = Vec::from_slice(alloc, octets)?;
        self.left = 0;
        Ok(Some(with_id(octets, self.asker)))
    }

    /// What is to be done at a moment: to send again if the last send is the timeout ago or more, or if the moment of that would
    /// pass 2^64 - 1; or to give up, if no send is left.
    pub fn tick(&mut self, at: u64) -> Ticked
        ensures { Hears self.old self.new (AskingEvent.Tick at) (AskingOutcome.OfTick result) }
    {
        if self.left == 0 || !self.is_due(at) {
            return Ticked::Nothing;
        }
        self.last = at;
        self.left -= 1;
        if self.left == 0 {
            return Ticked::GaveUp;
        }
        Ticked::Send
    }

    /// Whether a tick is due.
    fn is_due(&self, at: u64) -> bool
        ensures { result ≡ is_due self.now.timeout self.now.last at }
    {
        match self.last.checked_add(self.timeout) {
            Some(until) => until <= at,
            None => true,
        }
    }

    /// What comes of an event. A call without memory changes nothing.
    pub(crate) fn apply_event(
        &mut self,
        alloc: Global,
        event: &AskingEvent,
    ) -> Result<AskingOutcome, OutOfMemory>
        ensures ok { IfOk result (Hears self.old self.new event.now) }
        ensures err { OnErr result (self.new ≡ self.old) }
    {
        match event {
            AskingEvent::Arrived { at, octets } => {
                let answer = self.arrived(alloc, *at, octets.as_slice())?;
                Ok(AskingOutcome::OfArrival(answer))
            }
            AskingEvent::Tick { at } => Ok(AskingOutcome::OfTick(self.tick(*at))),
        }
    }
}
