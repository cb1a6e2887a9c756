//! One message that is looked up at one upstream.

ghost use Rattle.std.specs.Prelude.{◌≡◌, IfOk, OnErr, [], Ok};
ghost use Rattle.dns_forward.specs.declared.asking_event.AskingOutcome.TheVariants.{OfTick};
ghost use Rattle.dns_forward.specs.Matching.{with_id};
ghost use Rattle.dns_lookup.specs.Lookups.{InDatagrams, Over, OverConnection, Progress, Subject};
ghost use Rattle.dns_lookup.specs.Lookups.{by_answer, by_datagram, by_frame, is_lost, moment, question};
ghost use Rattle.dns_lookup.specs.Stages.{ConnectionLeads, DatagramLeads, DatagramsLead, FrameLeads, IsAt, Steps, due_at};
ghost use Rattle.dns_lookup.specs.declared.lookup_event.LookupOutcome.TheVariants.{Answer, Connect, Send};

use crate::heard::{hear_datagram, hear_frame};
use crate::lookup_event::{LookupEvent, LookupOutcome, UpstreamConfig};
use dns_base::Message;
use dns_forward::{Asking, AskingOutcome, Ticked};
use dns_name::{Octets, OutOfMemory};
use dns_route::SendError;
use std::alloc::Global;
use std::mem::replace;

/// What a lookup waits for.
#[derive(Drop)]
pub(crate) enum Stage {
    /// An answer in a datagram.
    Datagrams(Asking),
    /// One over a connection, in place of this, which is truncated.
    Connection(Asking, Message),
    /// Nothing.
    Ended,
}

/// A message that is looked up at one upstream. It does no input or output: its owner opens a port for it at random, sends what
/// it is told, and tells it what comes.
#[derive(Drop)]
pub struct Lookup {
    upstream: UpstreamConfig,
    message: Message,
    id: u16,
    stage: Stage,
}

/// A copy of a message.
fn copied(alloc: Global, message: &Message) -> Result<Message, OutOfMemory>
    ensures { IfOk result (λ m. m ≡ message.now) }
{
    let octets = message.as_slice();
    Ok(Message::of(Vec::from_slice(alloc, octets)?))
}

/// Begins to look up a message at an upstream under an identifier, which its owner picks at random. It gives the octets that the
/// upstream is sent first.
pub fn begin_lookup(
    alloc: Global,
    upstream: UpstreamConfig,
    message: Message,
    id: u16,
    at: u64,
) -> Result<(Lookup, Octets), OutOfMemory>
    ensures begun { IfOk result (λ p. IsAt (record { upstream = upstream; message = message; id = id; at = at }) (InDatagrams []) p.0) }
    ensures octets { IfOk result (λ p. p.1 ≡ with_id id message) }
{
    let copy = copied(alloc, &message)?;
    let asking = Asking::new(alloc, copy, id, upstream.tries, upstream.timeout, at)?;
    let octets = Octets::from_slice(alloc, asking.octets())?;
    let stage = Stage::Datagrams(asking);
    let lookup = Lookup {
        upstream,
        message,
        id,
        stage,
    };
    Ok((lookup, octets))
}

/// Whether a connection is lost by an event.
fn is_lost(event: &LookupEvent) -> bool
    ensures { result ≡ is_lost event.now }
{
    match event {
        LookupEvent::Datagram { .. } => false,
        LookupEvent::Frame { .. } => false,
        LookupEvent::Tick { .. } => false,
        LookupEvent::Lost => true,
    }
}

/// The moment of an event.
fn moment(event: &LookupEvent) -> u64
    ensures { result ≡ moment event.now }
{
    match event {
        LookupEvent::Datagram { at, .. } => *at,
        LookupEvent::Frame { at, .. } => *at,
        LookupEvent::Tick { at } => *at,
        LookupEvent::Lost => 0,
    }
}

impl Lookup {
    /// An event of the lookup. A datagram from elsewhere than the upstream, or that doesn't match, is nothing to it. If it
    /// finds no memory the lookup has ended, and every later event is nothing to it.
    pub fn step(&mut self, alloc: Global, event: &LookupEvent) -> Result<LookupOutcome, OutOfMemory>
        ensures ok { IfOk result (Steps self.old event.now self.new) }
        ensures err { OnErr result (self.new ≡ record self.old { stage = Stage.Ended }) }
    {
        match self.step_stage(alloc, event) {
            Ok(outcome) => Ok(outcome),
            Err(error) => {
                self.stage = Stage::Ended;
                Err(error)
            }
        }
    }

    /// The first moment at which a tick is due, so that the lookup's owner need not look before. There is none once it has
    /// ended.
    pub fn deadline(&self) -> Option<u64>
        ensures { (s : Subject) (p : Progress) → IsAt s p self.now → result ≡ due_at s p }
    {
        match &self.stage {
            Stage::Datagrams(asking) => asking.deadline(),
            Stage::Connection(asking, _) => asking.deadline(),
            Stage::Ended => None,
        }
    }

    /// An event at the stage of the lookup.
    fn step_stage(
        &mut self,
        alloc: Global,
        event: &LookupEvent,
    ) -> Result<LookupOutcome, OutOfMemory>
        ensures ok { IfOk result (Steps self.old event.now self.new) }
        ensures err { OnErr result (self.new ≡ record self.old { stage = self.new.stage }) }
    {
        match &mut self.stage {
            Stage::Datagrams(asking) => {
                let heard = hear_datagram(alloc, asking, &self.upstream.addr, event)?;
                self.after_event(alloc, event, heard)
            }
            Stage::Connection(asking, _) => {
                let framed = hear_frame(alloc, asking, event)?;
                Ok(self.after_frame_event(event, framed))
            }
            Stage::Ended => Ok(LookupOutcome::Nothing),
        }
    }

    /// What an event in datagrams leads to, of which the asking heard this.
    fn after_event(
        &mut self,
        alloc: Global,
        event: &LookupEvent,
        heard: Option<AskingOutcome>,
    ) -> Result<LookupOutcome, OutOfMemory>
        ensures ok { IfOk result (DatagramLeads self.old event.now heard self.new) }
        ensures err { OnErr result (self.new ≡ record self.old { stage = self.new.stage }) }
    {
        match heard {
            Some(outcome) => self.after_datagram(alloc, moment(event), outcome),
            None => Ok(LookupOutcome::Nothing),
        }
    }

    /// What an event over a connection leads to, of which the asking heard this.
    fn after_frame_event(
        &mut self,
        event: &LookupEvent,
        heard: Option<AskingOutcome>,
    ) -> LookupOutcome
        ensures led { FrameLeads self.old (is_lost event.now) heard self.new result }
        ensures rest { self.new ≡ record self.old { stage = self.new.stage } }
    {
        if is_lost(event) {
            return self.give_truncated();
        }
        match heard {
            Some(outcome) => self.after_frame(outcome),
            None => LookupOutcome::Nothing,
        }
    }

    /// What the asking in datagrams heard leads to.
    fn after_datagram(
        &mut self,
        alloc: Global,
        at: u64,
        outcome: AskingOutcome,
    ) -> Result<LookupOutcome, OutOfMemory>
        ensures ok { IfOk result (DatagramsLead self.old self.new (λ s es. by_datagram s at es outcome)) }
        ensures err { OnErr result (self.new ≡ record self.old { stage = self.new.stage }) }
    {
        match outcome {
            AskingOutcome::OfArrival(Some(answer)) => self.answered(alloc, at, answer),
            AskingOutcome::OfArrival(None) => Ok(LookupOutcome::Nothing),
            AskingOutcome::OfTick(ticked) => self.after_tick(alloc, ticked),
        }
    }

    /// What a tick of the asking in datagrams leads to.
    fn after_tick(&mut self, alloc: Global, ticked: Ticked) -> Result<LookupOutcome, OutOfMemory>
        ensures ok { IfOk result (DatagramsLead self.old self.new (λ s es. by_datagram s 0 es (OfTick ticked))) }
        ensures err { OnErr result (self.new ≡ record self.old { stage = self.new.stage }) }
    {
        match ticked {
            Ticked::Nothing => Ok(LookupOutcome::Nothing),
            Ticked::Send => self.send_again(alloc),
            Ticked::GaveUp => {
                self.stage = Stage::Ended;
                Ok(LookupOutcome::Answer(Err(SendError::Timeout)))
            }
        }
    }

    /// The message is sent in a datagram again.
    fn send_again(&self, alloc: Global) -> Result<LookupOutcome, OutOfMemory>
        ensures { IfOk result (DatagramsLead self.now self.now (λ s es. (InDatagrams es, Send (question s)))) }
    {
        match &self.stage {
            Stage::Datagrams(asking) => {
                let octets = Octets::from_slice(alloc, asking.octets())?;
                Ok(LookupOutcome::Send(octets))
            }
            Stage::Connection(_, _) => Ok(LookupOutcome::Nothing),
            Stage::Ended => Ok(LookupOutcome::Nothing),
        }
    }

    /// An answer came in a datagram.
    fn answered(
        &mut self,
        alloc: Global,
        at: u64,
        answer: Message,
    ) -> Result<LookupOutcome, OutOfMemory>
        ensures ok { IfOk result (DatagramsLead self.old self.new (λ s es. by_answer s at answer)) }
        ensures err { OnErr result (self.new ≡ record self.old { stage = self.new.stage }) }
    {
        if answer.header().tc {
            return self.connect(alloc, at, answer);
        }
        self.stage = Stage::Ended;
        Ok(LookupOutcome::Answer(Ok(answer)))
    }

    /// The message is asked again over a connection, since an answer is truncated.
    fn connect(
        &mut self,
        alloc: Global,
        at: u64,
        truncated: Message,
    ) -> Result<LookupOutcome, OutOfMemory>
        ensures ok { IfOk result (DatagramsLead self.old self.new (λ s es. (OverConnection truncated at [], Connect (question s)))) }
        ensures err { OnErr result (self.new ≡ self.old) }
    {
        let copy = copied(alloc, &self.message)?;
        let asking = Asking::new(alloc, copy, self.id, 1, self.upstream.timeout, at)?;
        let octets = Octets::from_slice(alloc, asking.octets())?;
        self.stage = Stage::Connection(asking, truncated);
        Ok(LookupOutcome::Connect(octets))
    }

    /// What the asking over a connection heard leads to.
    fn after_frame(&mut self, outcome: AskingOutcome) -> LookupOutcome
        ensures led { ConnectionLeads self.old self.new (λ m at es. by_frame m at es outcome) result }
        ensures rest { self.new ≡ record self.old { stage = self.new.stage } }
    {
        match outcome {
            AskingOutcome::OfArrival(Some(answer)) => {
                self.stage = Stage::Ended;
                LookupOutcome::Answer(Ok(answer))
            }
            AskingOutcome::OfArrival(None) => LookupOutcome::Nothing,
            AskingOutcome::OfTick(ticked) => self.after_frame_tick(ticked),
        }
    }

    /// What a tick of the asking over a connection leads to.
    fn after_frame_tick(&mut self, ticked: Ticked) -> LookupOutcome
        ensures led { ConnectionLeads self.old self.new (λ m at es. by_frame m at es (OfTick ticked)) result }
        ensures rest { self.new ≡ record self.old { stage = self.new.stage } }
    {
        match ticked {
            Ticked::Nothing => LookupOutcome::Nothing,
            Ticked::Send => LookupOutcome::Nothing,
            Ticked::GaveUp => self.give_truncated(),
        }
    }

    /// The truncated answer is the answer.
    fn give_truncated(&mut self) -> LookupOutcome
        ensures led { ConnectionLeads self.old self.new (λ m at es. (Over, Answer (Ok m))) result }
        ensures rest { self.new ≡ record self.old { stage = Stage.Ended } }
    {
        match replace(&mut self.stage, Stage::Ended) {
            Stage::Datagrams(_) => LookupOutcome::Nothing,
            Stage::Connection(_, truncated) => LookupOutcome::Answer(Ok(truncated)),
            Stage::Ended => LookupOutcome::Nothing,
        }
    }
}
