//! An accept object that counts.

ghost use Rattle.std.specs.Prelude.{◌≡◌};

use crate::metered::Metered;
use crate::metrics::ServerMetrics;
use dns_io::{AcceptAnswer, AsyncAccept};
use std::marker::Model;
use std::sync::{Arc, Wait};

/// An accept object over another, which tells what that tells, and gives its links as `Metered`. In clauses it is the
/// other accept object.
#[derive(Drop)]
pub struct MeteredAccept<A> {
    inner: A,
    metrics: Arc<ServerMetrics>,
}

impl<A> Model for MeteredAccept<A> {
    ghost Value = { A };

    ghost view = { λ m. m.inner };
}

impl<A> MeteredAccept<A> {
    /// Gives the links of `inner`, each of which counts for these metrics.
    pub fn new(inner: A, metrics: Arc<ServerMetrics>) -> MeteredAccept<A>
        ensures { result ≡ inner }
    {
        MeteredAccept { inner, metrics }
    }

    /// The accept object inside.
    pub fn inner(&self) -> &A
        ensures { result.now ≡ self.now }
    {
        &self.inner
    }
}

impl<A: AsyncAccept> AsyncAccept for MeteredAccept<A> {
    type Link = Metered<A::Link>;

    ghost tells = { λ accept. A.tells accept };

    ghost accept_traffic = { λ accept. A.accept_traffic accept };

    ghost faults = { λ accept. A.faults accept };

    fn poll_accept(&mut self) -> AcceptAnswer<Metered<A::Link>> {
        match self.inner.poll_accept() {
            AcceptAnswer::Accepted(link, from) => {
                // So many links that their number has no room count nothing.
                let metrics = Arc::try_clone(&self.metrics).ok();
                AcceptAnswer::Accepted(Metered::new(link, metrics), from)
            }
            AcceptAnswer::Again => AcceptAnswer::Again,
            AcceptAnswer::Failed => AcceptAnswer::Failed,
        }
    }

    fn wait<R: Wait>(&mut self, rt: &R, millis: u64) {
        self.inner.wait(rt, millis);
    }
}
