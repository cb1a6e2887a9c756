//! A client's query that is asked of an upstream.

ghost use Rattle.std.specs.Prelude.{◌≡◌, IfOk, OnOk};
ghost use Rattle.dns_layers.specs.Rewritten.{rewritten};
ghost use Rattle.dns_proxy.specs.Proxied.{Asked, due_of};
ghost use Rattle.dns_proxy.specs.Queries.{FrontAfter, Goes, Stands, replied};

use crate::front::Front;
use crate::query_event::QueryOutcome;
use crate::replied::replied_by;
use dns_base::Message;
use dns_layers::Rewrite;
use dns_lookup::{Lookup, LookupEvent, LookupOutcome};
use dns_route::SendError;
use dns_service::{Octets, OutOfMemory, Request};
use std::alloc::Global;

/// A client's query that is asked of an upstream, until its client is sent something for it.
#[derive(Drop)]
pub struct Query<R> {
    pub(crate) client: u64,
    pub(crate) request: Request<()>,
    pub(crate) limit: Option<u16>,
    pub(crate) rule: R,
    pub(crate) lookup: Lookup,
}

impl<R: Rewrite> Query<R> {
    /// What the client is sent for what came of the lookup.
    pub(crate) fn reply<F: Front<Rule = R>>(
        &self,
        alloc: Global,
        front: &mut F,
        answer: Result<Message, SendError>,
    ) -> Result<Option<Octets>, OutOfMemory>
        ensures reply { let o = self.now.request.octets in
            IfOk result (λ b. b ≡ replied self.now.limit o (rewritten (R.rewriting self.now.rule) (F.given o answer))) }
        ensures front { let r = self.now.request in
            OnOk result (front.new ≡ F.after_give front.old r.octets r.received_secs answer) }
    {
        let item = front.give(alloc, &self.request, answer)?;
        let octets = replied_by(alloc, &self.rule, self.request.message(), self.limit, item)?;
        Ok(octets)
    }

    /// The query ends with it.
    fn end<F: Front<Rule = R>>(
        &self,
        alloc: Global,
        front: &mut F,
        answer: Result<Message, SendError>,
    ) -> Result<QueryOutcome, OutOfMemory>
        ensures reply { let o = self.now.request.octets in
            let item = rewritten (R.rewriting self.now.rule) (F.given o answer) in
            IfOk result (λ t. t ≡ QueryOutcome.Reply (replied self.now.limit o item)) }
        ensures front { let r = self.now.request in
            OnOk result (front.new ≡ F.after_give front.old r.octets r.received_secs answer) }
    {
        let octets = self.reply(alloc, front, answer)?;
        Ok(QueryOutcome::Reply(octets))
    }

    /// An event of the query's lookup. Once it has ended, and if it finds no memory, it isn't to be used.
    pub fn step<F: Front<Rule = R>>(
        &mut self,
        alloc: Global,
        front: &mut F,
        event: &LookupEvent,
    ) -> Result<QueryOutcome, OutOfMemory>
        ensures goes { IfOk result (λ t. (a : Asked) → Stands R.rewriting self.old a
            → Goes R.rewriting F.given a event.now t self.new) }
        ensures front { OnOk result ((a : Asked) → Stands R.rewriting self.old a
            → FrontAfter F.after_give a event.now front.old front.new) }
    {
        let outcome = self.lookup.step(alloc, event)?;
        match outcome {
            LookupOutcome::Nothing => Ok(QueryOutcome::Nothing),
            LookupOutcome::Send(octets) => Ok(QueryOutcome::Send(octets)),
            LookupOutcome::Connect(octets) => Ok(QueryOutcome::Connect(octets)),
            LookupOutcome::Answer(answer) => self.end(alloc, front, answer),
        }
    }

    /// The first moment at which a tick of it is due.
    pub fn deadline(&self) -> Option<u64>
        ensures { (a : Asked) → Stands R.rewriting self.now a → result ≡ due_of a }
    {
        self.lookup.deadline()
    }
}
