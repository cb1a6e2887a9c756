//! An accept object in memory of which no call fails.

ghost use Rattle.std.specs.Prelude.{◌≡◌, ◌≤◌, ℕ, [], true};
ghost use Rattle.dns_io.specs.Causes.{Observed};
ghost use Rattle.dns_io.specs.AcceptTraffic.{AcceptMoves, AcceptCause};
ghost use Rattle.dns_memory.specs.SteadyForms.{SteadyAcceptTells, SteadyAcceptsNext, steady_accept_traffic};

use dns_io::{AcceptAnswer, AsyncAccept, Link};
use dns_name::SocketAddr;
use std::alloc::Global;
use std::collections::VecDeque;
use std::marker::Model;
use std::sync::Wait;

/// Connections over links of any type, in their order. No call fails, so its count of faults is 0 forever; one answers
/// Again if no connection is left. It tells who came as long as there is memory for it and it can count the calls
/// that answered Again: afterwards it gives connections and tells nothing.
#[derive(Drop)]
pub struct SteadyAccept<L: Drop> {
    left: VecDeque<(L, SocketAddr)>,
    callers: Vec<SocketAddr>,
    whole: bool,
    empty_accepts: u64,
}

impl<L: Drop> Model for SteadyAccept<L> {
    ghost use Rattle.dns_memory.specs.SteadyForms.{SteadyAcceptState};

    ghost Value = { SteadyAcceptState L };

    ghost view = { λ s. record { left = s.left.items; callers = s.callers.items; whole = s.whole; empty_accepts = s.empty_accepts } };
}

impl<L: Drop> SteadyAccept<L> {
    /// Gives these connections in order, and then answers Again.
    pub fn new(alloc: Global, connections: VecDeque<(L, SocketAddr)>) -> SteadyAccept<L>
        ensures { result ≡ record { left = connections.items; callers = []; whole = true; empty_accepts = 0 } }
    {
        SteadyAccept {
            left: connections,
            callers: Vec::new(alloc),
            whole: true,
            empty_accepts: 0,
        }
    }
}

impl<L: Link + Drop> AsyncAccept for SteadyAccept<L> {
    type Link = L;

    ghost tells = { λ s. SteadyAcceptTells s };

    ghost accept_traffic = { λ s. steady_accept_traffic s };

    ghost faults = { λ _. 0 };

    fn poll_accept(&mut self) -> AcceptAnswer<L>
        ensures moves { Observed (SteadyAcceptTells self.new) (SteadyAcceptTells self.old)
            (AcceptMoves result (steady_accept_traffic self.old) (steady_accept_traffic self.new)) }
        ensures later { 0 ≤ 0 }
        ensures cause { AcceptCause result 0 0 }
        ensures gives { SteadyAcceptsNext result self.old self.new }
    {
        let Some((link, from)) = self.left.pop_front() else {
            self.empty_accepts = self.empty_accepts.saturating_add(1);
            return AcceptAnswer::Again;
        };
        if self.callers.push(from).is_err() {
            self.whole = false;
        }
        AcceptAnswer::Accepted(link, from)
    }

    fn wait<R: Wait>(&mut self, _rt: &R, _millis: u64)
        ensures moves { Observed (SteadyAcceptTells self.new) (SteadyAcceptTells self.old)
            (steady_accept_traffic self.new ≡ steady_accept_traffic self.old) }
        ensures same { ◌≡◌ {A = ℕ} 0 0 }
        ensures kept { self.new ≡ self.old }
    {}
}
