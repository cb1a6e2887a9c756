//! Zones without data.

ghost use Rattle.std.specs.Prelude.{◌≡◌, ◌&&◌, ℕ, IfOk, OnErr, nat_eq, nat_le, length};
ghost use Rattle.std.specs.List.{list_any};
ghost use Rattle.dns_service.specs.declared.message.Request.{Request};
ghost use Rattle.dns_base.specs.Header.{header_of};
ghost use Rattle.dns_base.specs.Sections.{first_of, questions_of};
ghost use Rattle.dns_service.specs.Codes.{query_opcode, servfail};
ghost use Rattle.dns_service.specs.ErrorReply.{error_reply};
ghost use Rattle.dns_route.specs.Routes.{ends_name};
ghost use Rattle.dns_layers.specs.Calls.{AnswersAs, LeavesHint};
ghost use Rattle.dns_layers.specs.Rewritten.{own_reply};
ghost use Rattle.dns_secondary_service.specs.Withheld.{asks_withheld, is_as_near, is_nearest, is_withheld, question_withheld, withholding, withholding_hint};

use crate::withholding_replies::{WithholdingFuture, WithholdingStream};
use dns_base::{AdditionalBuilder, Message, Name, Opcode, OptRcode, OutOfMemory, QuestionRef};
use dns_layers::alone;
use dns_route::matches_are_suffixes;
use dns_service::{Now, ReplyFuture, Request, Service, mk_error_response};
use std::alloc::Global;

/// A service behind zones that have no data: a query for a name whose nearest zone is one of them is answered SERVFAIL.
#[derive(Drop)]
pub struct Withholding<S> {
    next: S,
    served: Vec<Name>,
    withheld: Vec<Name>,
}

impl<S> Withholding<S> {
    /// Round a service that serves zones with these apexes, beside zones with those that have no data.
    pub fn new(next: S, served: Vec<Name>, withheld: Vec<Name>) -> Self
        ensures { result ≡ record { next = next; served = served; withheld = withheld } }
    {
        Withholding {
            next,
            served,
            withheld,
        }
    }

    /// Whether a request is a query for a name whose nearest zone has no data.
    fn asks_withheld<Meta>(&self, request: &Request<Meta>) -> bool
        ensures { result ≡ asks_withheld self.now.served.items self.now.withheld.items request.now.octets }
    {
        is_query(request) && self.has_question_withheld(request)
    }

    /// Whether the first question of a request asks for a name whose nearest zone has no data.
    fn has_question_withheld<Meta>(&self, request: &Request<Meta>) -> bool
        ensures { result ≡ question_withheld self.now.served.items self.now.withheld.items (first_of (questions_of request.now.octets).0) }
    {
        match request.message().first_question() {
            Some(question) => {
                is_withheld(self.served.as_slice(), self.withheld.as_slice(), &question)
            }
            None => false,
        }
    }
}

impl<S, Meta> Service<Meta> for Withholding<S>
where
    S: Service<Meta>,
{
    type Stream = WithholdingStream<S::Stream>;

    type Future = WithholdingFuture<S::Future>;

    ghost answer = { λ s. withholding s.served.items s.withheld.items (S.answer s.next) };

    ghost hint = { λ s. withholding_hint s.served.items s.withheld.items (S.hint s.next) };

    ghost can_call = { λ s. S.can_call s.next };

    fn call(
        &self,
        alloc: Global,
        request: &mut Request<Meta>,
    ) -> Result<WithholdingFuture<S::Future>, OutOfMemory> {
        if self.asks_withheld(request) {
            return failed(alloc, request.message());
        }
        pass(alloc, &self.next, request)
    }
}

/// The reply SERVFAIL to a message.
fn servfail_reply(alloc: Global, request: &Message) -> Result<AdditionalBuilder, OutOfMemory>
    ensures { IfOk result (λ b. b.message ≡ error_reply request.now servfail) }
{
    mk_error_response(alloc, request, OptRcode::SERVFAIL)
}

/// The reply SERVFAIL, at once.
fn failed<F: ReplyFuture>(
    alloc: Global,
    request: &Message,
) -> Result<WithholdingFuture<F>, OutOfMemory>
    ensures { AnswersAs ⟦<WithholdingFuture<F> as ReplyFuture>⟧.answer (own_reply (error_reply request.now servfail)) result }
{
    let reply = servfail_reply(alloc, request)?;
    Ok(WithholdingFuture::Own(Now::new(alone(reply))))
}

/// The inner replies to the request.
fn pass<S: Service<Meta>, Meta>(
    alloc: Global,
    next: &S,
    request: &mut Request<Meta>,
) -> Result<WithholdingFuture<S::Future>, OutOfMemory>
    requires { S.can_call next.now }
    ensures answers { AnswersAs ⟦<WithholdingFuture<S::Future> as ReplyFuture>⟧.answer
        (S.answer next.now request.old) result }
    ensures kept { LeavesHint (S.hint next.now request.old) request.old request.new result }
    ensures refused { OnErr result (request.new ≡ request.old) }
{
    let future = next.call(alloc, request)?;
    Ok(WithholdingFuture::Passing(future))
}

/// Whether a request is a query.
fn is_query<Meta>(request: &Request<Meta>) -> bool
    ensures { result ≡ nat_eq (header_of request.now.octets).opcode query_opcode }
{
    request.message().header().opcode == Opcode::QUERY
}

/// Whether an apex ends the name of a question.
fn ends(question: &QuestionRef<'_>, apex: &Name) -> bool
    ensures { result ≡ ends_name question.now.qname apex.now }
{
    matches_are_suffixes();
    question.qname().ends_with(&apex.for_ref())
}

/// Whether an apex ends the name of a question, and has no fewer labels than another one.
fn is_as_near(question: &QuestionRef<'_>, other: &Name, apex: &Name) -> bool
    ensures { result ≡ is_as_near question.now.qname other.now apex.now }
{
    ends(question, apex) && other.label_count() <= apex.label_count()
}

/// Whether one of some apexes ends the name of a question and has no fewer labels than another one.
fn is_any_as_near(served: &[Name], question: &QuestionRef<'_>, other: &Name) -> bool
    ensures { result ≡ list_any (is_as_near question.now.qname other.now) served.now }
{
    for apex in served {
        if is_as_near(question, other, apex) {
            return true;
        }
    }
    false
}

/// Whether an apex that isn't served is nearer to the name of a question than all that are.
fn is_nearest(served: &[Name], question: &QuestionRef<'_>, apex: &Name) -> bool
    ensures { result ≡ is_nearest served.now question.now.qname apex.now }
{
    ends(question, apex) && !is_any_as_near(served, question, apex)
}

/// Whether the nearest zone to the name of a question has no data.
fn is_withheld(served: &[Name], withheld: &[Name], question: &QuestionRef<'_>) -> bool
    ensures { result ≡ is_withheld served.now withheld.now question.now.qname }
{
    for apex in withheld {
        if is_nearest(served, question, apex) {
            return true;
        }
    }
    false
}
