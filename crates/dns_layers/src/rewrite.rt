//! Rewriting of replies in place, by a rule that is made at the call and needs nothing of the request.

ghost use Rattle.std.specs.Prelude.{◌≡◌, OnOk};
ghost use Rattle.dns_base.specs.Msg.{Msg};
ghost use Rattle.dns_service.specs.declared.message.Request.{Request};
ghost use Rattle.dns_service.specs.Answer.{Item, mapped};
ghost use Rattle.dns_layers.specs.Rewritten.{rewritten};

use dns_base::AdditionalBuilder;
use dns_service::{CallResult, OutOfMemory, Polled, Request, ServiceResult};
use dns_stream::Postprocess;
use std::alloc::Global;

/// A rule by which replies are rewritten.
pub trait Rewrite: Drop {
    /// The rewritten reply.
    ghost rewriting: { Self → Msg → Msg };

    /// Rewrites a reply in place. After memory ran out the reply isn't to be used. Its push limit may be any, and may be
    /// left as any: a rule that pushes clears it first (`clear_push_limit`), since a push that would pass it is refused.
    fn rewrite(&self, alloc: Global, reply: &mut AdditionalBuilder) -> Result<(), OutOfMemory>
        ensures { OnOk result (reply.new.message ≡ rewriting self.now reply.old.message) };
}

/// A rule that rewrites replies, as what maps the items of a service.
#[derive(Drop)]
pub struct Rewriting<R> {
    pub(crate) rule: R,
}

impl<R: Rewrite> Rewriting<R> {
    /// Maps the items of a service by this rule.
    pub fn new(rule: R) -> Self
        ensures { (r : Request (Unit {0})) (i : Item)
            → ⟦<Rewriting<R> as Postprocess<()>>⟧.post result r i ≡ rewritten (R.rewriting rule) i }
    {
        Rewriting { rule }
    }
}

impl<R: Rewrite> Postprocess<()> for Rewriting<R> {
    ghost post = { λ p _. rewritten (R.rewriting p.rule) };

    fn map(
        &self,
        alloc: Global,
        _request: &Request<()>,
        item: ServiceResult,
    ) -> Result<ServiceResult, OutOfMemory> {
        let mut item = item;
        rewrite_item(&self.rule, alloc, &mut item)?;
        Ok(item)
    }
}

/// Rewrites the reply in an item, if it has one.
pub(crate) fn rewrite_item<R: Rewrite>(
    rule: &R,
    alloc: Global,
    item: &mut ServiceResult,
) -> Result<(), OutOfMemory>
    ensures { OnOk result (item.new ≡ rewritten (R.rewriting rule.now) item.old) }
{
    match item {
        Ok(given) => rewrite_given(rule, alloc, given),
        Err(_) => Ok(()),
    }
}

fn rewrite_given<R: Rewrite>(
    rule: &R,
    alloc: Global,
    given: &mut CallResult,
) -> Result<(), OutOfMemory>
    ensures { OnOk result (Ok given.new ≡ rewritten (R.rewriting rule.now) (Ok given.old)) }
{
    match given.response_mut() {
        Some(reply) => rule.rewrite(alloc, reply),
        None => Ok(()),
    }
}

/// Rewrites the reply in an answer, if it has one. After memory ran out the answer isn't to be used.
pub fn rewrite_answer<R: Rewrite>(
    rule: &R,
    alloc: Global,
    answer: &mut Polled<Option<ServiceResult>>,
) -> Result<(), OutOfMemory>
    ensures { OnOk result (answer.new ≡ mapped (rewritten (R.rewriting rule.now)) answer.old) }
{
    match answer {
        Polled::Ready(Some(item)) => rewrite_item(rule, alloc, item),
        Polled::Ready(None) => Ok(()),
        Polled::Pending => Ok(()),
    }
}
