//! What connections come from that pass on queries alone.

ghost use Rattle.std.specs.Prelude.{◌≡◌};

use crate::query_link::QueryLink;
use dns_io::{AcceptAnswer, AsyncAccept, Link};
use dns_query_sock::QueryCounts;
use std::alloc::Global;
use std::sync::{Arc, Wait};

/// An accept object over another, whose connections pass on queries alone, and are counted.
#[derive(Drop)]
pub struct QueryAccept<A> {
    inner: A,
    alloc: Global,
    counts: Arc<QueryCounts>,
}

impl<A> QueryAccept<A> {
    /// Over this one. Connections, and the responses that are dropped in them, are counted.
    pub fn new(alloc: Global, inner: A, counts: Arc<QueryCounts>) -> QueryAccept<A>
        ensures { result.inner ≡ inner }
    {
        QueryAccept {
            inner,
            alloc,
            counts,
        }
    }

    /// A link over one that came.
    fn over<L: Link>(&self, link: L) -> QueryLink<L> {
        self.counts.count_connection();
        QueryLink::new(self.alloc, link, Arc::try_clone(&self.counts).ok())
    }
}

impl<A: AsyncAccept> AsyncAccept for QueryAccept<A> {
    type Link = QueryLink<A::Link>;

    ghost tells = { λ a. A.tells a.inner };

    ghost accept_traffic = { λ a. A.accept_traffic a.inner };

    ghost faults = { λ a. A.faults a.inner };

    fn poll_accept(&mut self) -> AcceptAnswer<QueryLink<A::Link>> {
        match self.inner.poll_accept() {
            AcceptAnswer::Accepted(link, from) => AcceptAnswer::Accepted(self.over(link), from),
            AcceptAnswer::Again => AcceptAnswer::Again,
            AcceptAnswer::Failed => AcceptAnswer::Failed,
        }
    }

    fn wait<R: Wait>(&mut self, rt: &R, millis: u64) {
        self.inner.wait(rt, millis);
    }
}
