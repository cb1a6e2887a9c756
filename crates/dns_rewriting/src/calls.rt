//! The call of a service whose replies are rewritten.

ghost use Rattle.std.specs.Prelude.{◌≡◌, ℕ, OnErr, Option};
ghost use Rattle.dns_service.specs.Msg.{Msg};
ghost use Rattle.dns_service.specs.Answer.{Answer};
ghost use Rattle.dns_service.specs.Req.{hint_at_entry};
ghost use Rattle.dns_service.specs.Transport.{limit, limit_over};
ghost use Rattle.dns_layers.specs.Calls.{AnswersAs, LeavesHint};
ghost use Rattle.dns_rewriting.specs.Rewritings.{by_rule, rewritten_replies};

use crate::future::RewrittenFuture;
use dns_layers::Rewrite;
use dns_service::{OutOfMemory, ReplyFuture, Request, Service, limit_over};
use std::alloc::Global;

/// A rule for the replies to a request, of what was found in it before the service inside was called.
pub trait RuleOf<T>: Rewrite {
    /// The rewritten reply, by what was found and how many octets a reply may take, if that is limited.
    ghost rewriting_of: { T → Option ℕ → Msg → Msg };

    /// The rule of what was found, for replies of that many octets at most, if that is limited.
    fn rule_of(found: T, limit: Option<u16>) -> Self
        ensures { Self.rewriting result ≡ rewriting_of found limit };
}

/// Calls a service. If something was found in the request, its replies are rewritten by the rule of that.
pub fn call_rewritten<S: Service<Meta>, Meta, T: Drop, R: RuleOf<T>>(
    alloc: Global,
    next: &S,
    request: &mut Request<Meta>,
    found: Option<T>,
) -> Result<RewrittenFuture<S::Future, R>, OutOfMemory>
    requires { S.can_call next.now }
    ensures answers { AnswersAs ⟦<RewrittenFuture<S::Future, R> as ReplyFuture>⟧.answer
        (rewritten_replies R.rewriting_of found (S.answer next.now) (S.hint next.now) request.old) result }
    ensures kept { LeavesHint (S.hint next.now request.old) request.old request.new result }
    ensures refused { OnErr result (request.new ≡ request.old) }
{
    let future = next.call(alloc, request)?;
    let rule = rule_where(found, limit_now(request));
    Ok(RewrittenFuture::new(future, rule))
}

/// The rule, if something was found.
fn rule_where<T: Drop, R: RuleOf<T>>(found: Option<T>, limit: Option<u16>) -> Option<R>
    ensures { (a : Answer) → by_rule R.rewriting result a ≡ by_rule (λ t. R.rewriting_of t limit) found a }
{
    match found {
        Some(found) => Some(R::rule_of(found, limit)),
        None => None,
    }
}

/// How many octets the replies to a request may take, if that is limited, by the hint that it has now.
fn limit_now<Meta>(request: &Request<Meta>) -> Option<u16>
    ensures { result ≡ limit_over request.now.transport (limit (hint_at_entry request.now)) }
{
    let transport = request.transport_ctx();
    limit_over(transport, transport.hint())
}
