//! What stands before the upstreams: how a request is taken, and what an answer gives to it.

ghost use Rattle.std.specs.Prelude.{◌≡◌, ℕ, List, Option, Result, IfOk, OnOk};
ghost use Rattle.dns_service.specs.declared.message.Request.{Request};
ghost use Rattle.dns_service.specs.Answer.{Answer, Item};
ghost use Rattle.dns_layers.specs.Calls.{LeavesHint};
ghost use Rattle.dns_route.specs.declared.send_request.SendError.{SendError};
ghost use Rattle.dns_proxy.specs.Fronts.{IsTaken};

use dns_base::Message;
use dns_layers::Rewrite;
use dns_route::SendError;
use dns_service::{OutOfMemory, Request, ServiceResult};
use std::alloc::Global;

/// How a request is taken.
#[derive(Drop)]
pub enum Taken<R> {
    /// It is answered with this at once.
    Own(ServiceResult),
    /// An upstream is asked this message for it, and what is given for it is rewritten by this rule.
    Passed(R, Message),
}

/// What stands before the upstreams: the layers, a cache, and what is asked.
pub trait Front: Drop {
    type Rule: Rewrite;

    /// Answer k to a request, if this item is given for it.
    ghost over: { Self → Item → Request (Unit {0}) → ℕ → Answer };

    /// The hint that a request has after the call.
    ghost hint: { Self → Request (Unit {0}) → Option ℕ };

    /// The message that an upstream is asked for a request, if one is.
    ghost asks: { Self → Request (Unit {0}) → Option (List ℕ) };

    /// The item that an upstream's answer to a query gives, or that there is none.
    ghost given: { List ℕ → Result (List ℕ) SendError → Item };

    /// What it is once it has taken a request.
    ghost after_take: { Self → Request (Unit {0}) → Self };

    /// What it is once an answer was given to a query that came at these seconds.
    ghost after_give: { Self → List ℕ → ℕ → Result (List ℕ) SendError → Self };

    /// Takes a request. If it finds no memory the request isn't to be used.
    fn take(
        &mut self,
        alloc: Global,
        request: &mut Request<()>,
    ) -> Result<Taken<Self::Rule>, OutOfMemory>
        ensures taken { IfOk result (IsTaken Self.Rule.rewriting (λ i. over self.old i request.old) (asks self.old request.old)) }
        ensures kept { LeavesHint (hint self.old request.old) request.old request.new result }
        ensures after { OnOk result (self.new ≡ after_take self.old request.old) };

    /// The item that an answer to a request gives.
    fn give(
        &mut self,
        alloc: Global,
        request: &Request<()>,
        answer: Result<Message, SendError>,
    ) -> Result<ServiceResult, OutOfMemory>
        ensures item { IfOk result (λ i. i ≡ given request.now.octets answer) }
        ensures after { OnOk result (self.new ≡ after_give self.old request.now.octets request.now.received_secs answer) };
}
