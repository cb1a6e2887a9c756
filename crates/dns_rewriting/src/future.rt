//! The future of a service whose replies are rewritten.

ghost use Rattle.std.specs.Prelude.{◌≡◌, ℕ};
ghost use Rattle.dns_rewriting.specs.Rewritings.{by_rule};

use crate::stream::RewrittenStream;
use dns_layers::Rewrite;
use dns_service::{OutOfMemory, Polled, ReplyFuture};
use std::alloc::Global;

/// The replies of the future inside, each rewritten by a rule if there is one.
#[derive(Drop)]
pub struct RewrittenFuture<F, R> {
    inner: F,
    rule: Option<R>,
}

impl<F: ReplyFuture, R: Rewrite> RewrittenFuture<F, R> {
    /// The replies of a future, rewritten by this rule, if it is one.
    pub fn new(inner: F, rule: Option<R>) -> Self
        ensures { (k : ℕ) → ⟦<RewrittenFuture<F, R> as ReplyFuture>⟧.answer result k ≡ by_rule R.rewriting rule (F.answer inner k) }
    {
        RewrittenFuture { inner, rule }
    }
}

impl<F: ReplyFuture, R: Rewrite> ReplyFuture for RewrittenFuture<F, R> {
    type Stream = RewrittenStream<F::Stream, R>;

    ghost answer = { λ f k. by_rule R.rewriting f.rule (F.answer f.inner k) };

    #[tactic(auto, using(crate::proofs::Rules::by_rule_pending))]
    fn poll(
        &mut self,
        alloc: Global,
    ) -> Result<Polled<RewrittenStream<F::Stream, R>>, OutOfMemory> {
        match self.inner.poll(alloc)? {
            Polled::Ready(inner) => Ok(Polled::Ready(RewrittenStream {
                inner,
                rule: self.rule.take(),
            })),
            Polled::Pending => Ok(Polled::Pending),
        }
    }
}
