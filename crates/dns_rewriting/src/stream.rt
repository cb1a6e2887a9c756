//! The stream of a service whose replies are rewritten.

ghost use Rattle.std.specs.Prelude.{◌≡◌, IfOk, OnErr, OnOk};
ghost use Rattle.dns_rewriting.specs.Rewritings.{by_rule};

use dns_layers::{Rewrite, rewrite_answer};
use dns_service::{OutOfMemory, Polled, ReplyStream, ServiceResult};
use std::alloc::Global;

/// The replies of the stream inside, each rewritten by a rule if there is one.
#[derive(Drop)]
pub struct RewrittenStream<S, R> {
    pub(crate) inner: S,
    pub(crate) rule: Option<R>,
}

impl<S: ReplyStream, R: Rewrite> ReplyStream for RewrittenStream<S, R> {
    ghost answer = { λ s k. by_rule R.rewriting s.rule (S.answer s.inner k) };

    ghost size = { λ s. S.size s.inner };

    fn poll_next(&mut self, alloc: Global) -> Result<Polled<Option<ServiceResult>>, OutOfMemory> {
        let mut polled = self.inner.poll_next(alloc);
        rewrite_polled(&self.rule, alloc, &mut polled)?;
        polled
    }

    fn size_hint(&self) -> (usize, Option<usize>) {
        self.inner.size_hint()
    }
}

/// Rewrites in place the reply in what a poll gave.
fn rewrite_polled<R: Rewrite>(
    rule: &Option<R>,
    alloc: Global,
    polled: &mut Result<Polled<Option<ServiceResult>>, OutOfMemory>,
) -> Result<(), OutOfMemory>
    ensures given { OnOk result (IfOk polled.old (λ a. polled.new ≡ Ok (by_rule R.rewriting rule.now a))) }
    ensures refused { OnErr polled.old (polled.new ≡ polled.old) }
{
    match polled {
        Ok(answer) => rewrite_where(rule, alloc, answer),
        Err(_) => Ok(()),
    }
}

/// Rewrites in place the reply in an answer, if there is a rule.
fn rewrite_where<R: Rewrite>(
    rule: &Option<R>,
    alloc: Global,
    answer: &mut Polled<Option<ServiceResult>>,
) -> Result<(), OutOfMemory>
    ensures { OnOk result (answer.new ≡ by_rule R.rewriting rule.now answer.old) }
{
    match rule {
        Some(rule) => rewrite_answer(rule, alloc, answer),
        None => Ok(()),
    }
}
