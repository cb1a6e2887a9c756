//! How the layers take a request, whatever service is inside.

ghost use Rattle.std.specs.Prelude.{◌≡◌, IfOk, OnErr, is_some, not};
ghost use Rattle.dns_service.specs.Asked.{asked_of};
ghost use Rattle.dns_service.specs.Transport.{hint_of, limit};
ghost use Rattle.dns_layers.specs.Calls.{LeavesHint};
ghost use Rattle.dns_layers.specs.Edns.{transport_by};
ghost use Rattle.dns_layers.specs.Verdicts.{verdict_on};
ghost use Rattle.dns_middleware.specs.Wrapped.{gate, hint_left, passed};
ghost use Rattle.dns_middleware.specs.WrappedCalls.{inner_gate};
ghost use Rattle.dns_middleware.specs.WrappedStreams.{refused_reply, wrap_rule};
ghost use Rattle.dns_decide.specs.Decided.{AnswersNotice, AnswersReplies, AnswersUnrefused, is_pass, is_passed};

use dns_base::AdditionalBuilder;
use dns_layers::{
    AskStream, Notice, Notifiable, Refusal, ask_owned, notice_of, pass_on, read_request, refusal_by,
};
use dns_middleware::{PassPlan, WrapPost, own_rewritten, pass_plan};
use dns_service::{Asked, OutOfMemory, Request, Settings};
use std::alloc::Global;

/// How the layers take a request, whatever service is inside.
#[derive(Drop)]
pub enum Decision<V> {
    /// They answer with this reply of their own.
    Own(AdditionalBuilder),
    /// The reply by the target's verdict, rewritten by this rule.
    Asking(AskStream<V>, WrapPost),
    /// The request is passed on, and each reply of the service is rewritten by this rule.
    Passed(WrapPost),
}

/// Decides how a request is taken, as the service in its layers does it, and leaves the same hint. A refused call leaves the
/// request.
pub fn decide<N: Notifiable, Meta>(
    alloc: Global,
    settings: &Settings,
    target: &N,
    request: &mut Request<Meta>,
) -> Result<Decision<N::Future>, OutOfMemory>
    // Whatever service is inside, what is decided answers as the service in its layers.
    ensures answers { IfOk result (AnswersReplies N.Future.verdict settings.now (verdict_on (N.verdict target.now)) request.old) }
    ensures passes { IfOk result (λ d. is_passed d ≡ is_pass (gate settings.now request.old)) }
    ensures kept { LeavesHint (hint_left settings.now request.old) request.old request.new result }
    ensures err { OnErr result (request.new ≡ request.old) }
{
    let asked = read_request(request);
    match refusal_by(settings, request.transport_ctx(), &asked) {
        Some(refusal) => match refuse(alloc, settings, &asked, request, refusal) {
            Ok(reply) => Ok(Decision::Own(reply)),
            Err(error) => Err(error),
        },
        None => decide_unrefused(alloc, settings, target, &asked, request),
    }
}

/// The reply to a request that is refused. This was read of the request.
fn refuse<Meta>(
    alloc: Global,
    settings: &Settings,
    asked: &Asked,
    request: &Request<Meta>,
    refused: Refusal,
) -> Result<AdditionalBuilder, OutOfMemory>
    requires { asked.now ≡ asked_of request.now.octets }
    ensures { let r = request.now in
        let rule = wrap_rule settings.now.edns r.transport (limit (hint_of r.transport)) (asked_of r.octets) in
        IfOk result (λ b. b.message ≡ refused_reply rule r.octets refused) }
{
    let transport = request.transport_ctx();
    let post = WrapPost::new(settings.edns, asked, transport, transport.hint());
    post.refuse(alloc, request.message(), refused)
}

/// Decides how a request is taken that isn't refused. This was read of the request.
#[tactic(auto, using(dns_layers::proofs::EdnsLaws::passed_hinted, dns_layers::proofs::EdnsLaws::kept_hint))]
fn decide_unrefused<N: Notifiable, Meta>(
    alloc: Global,
    settings: &Settings,
    target: &N,
    asked: &Asked,
    request: &mut Request<Meta>,
) -> Result<Decision<N::Future>, OutOfMemory>
    requires asked { asked.now ≡ asked_of request.old.octets }
    ensures answers { IfOk result (AnswersUnrefused N.Future.verdict settings.now (verdict_on (N.verdict target.now)) request.old) }
    ensures passes { IfOk result (λ d. is_passed d ≡ is_pass (inner_gate settings.now request.old)) }
    ensures kept { LeavesHint (hint_of (passed settings.now request.old).transport) request.old request.new result }
    ensures err { OnErr result (request.new ≡ request.old) }
{
    let plan = pass_plan(settings, asked, request);
    match own_rewritten(alloc, settings, &plan.post, request, asked) {
        Ok(Some(reply)) => {
            pass_on(plan.size, request);
            Ok(Decision::Own(reply))
        }
        Ok(None) => match notice_of(alloc, request, asked) {
            Ok(notice) => ask_or_pass(alloc, target, notice, plan, request),
            Err(_) => Err(OutOfMemory),
        },
        Err(error) => Err(error),
    }
}

/// The target is asked if there is a notice, and else the request is passed on.
#[tactic(auto, using(dns_layers::proofs::EdnsLaws::passed_hinted, dns_layers::proofs::EdnsLaws::kept_hint))]
fn ask_or_pass<N: Notifiable, Meta>(
    alloc: Global,
    target: &N,
    notice: Option<Notice>,
    plan: PassPlan,
    request: &mut Request<Meta>,
) -> Result<Decision<N::Future>, OutOfMemory>
    ensures answers { IfOk result (AnswersNotice N.Future.verdict plan (verdict_on (N.verdict target.now)) request.old notice) }
    ensures passes { IfOk result (λ d. is_passed d ≡ not (is_some notice)) }
    ensures kept { LeavesHint (hint_of (transport_by plan.size request.old.transport)) request.old request.new result }
    ensures err { OnErr result (request.new ≡ request.old) }
{
    match notice {
        Some(notice) => {
            let stream = ask_owned(alloc, target, request.message(), notice)?;
            pass_on(plan.size, request);
            Ok(Decision::Asking(stream, plan.post))
        }
        None => {
            pass_on(plan.size, request);
            Ok(Decision::Passed(plan.post))
        }
    }
}
