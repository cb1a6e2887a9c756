//! An accept object in memory, with calls that fail or answer Again.

ghost use Rattle.std.specs.Prelude.{◌≡◌, ◌≤◌, [], Contains};
ghost use Rattle.dns_io.specs.Causes.{Observed};
ghost use Rattle.dns_io.specs.AcceptTraffic.{AcceptMoves, AcceptCause};
ghost use Rattle.dns_memory.specs.MemoryForms.{accept_traffic_of, StillCounts, AcceptsNext};

use crate::listed_calls::{CallFate, ListedCalls};
use dns_io::{AcceptAnswer, AsyncAccept, Link};
use dns_name::SocketAddr;
use std::alloc::Global;
use std::collections::VecDeque;
use std::marker::Model;
use std::sync::Wait;

/// Connections over links of any type, in their order. It tells who came as long as it can count. The listed calls fail
/// or answer Again; a call answers Again too if no connection is left, and fails if there is no memory for the
/// address.
#[derive(Drop)]
pub struct MemoryAccept<L: Drop> {
    left: VecDeque<(L, SocketAddr)>,
    callers: Vec<SocketAddr>,
    calls: ListedCalls,
}

impl<L: Drop> Model for MemoryAccept<L> {
    ghost use Rattle.dns_memory.specs.MemoryForms.{AcceptState};

    ghost Value = { AcceptState L };

    ghost view = { λ s. record { left = s.left.items; callers = s.callers.items; calls = s.calls } };
}

impl<L: Drop> MemoryAccept<L> {
    /// Gives these connections in order, except at listed calls.
    pub fn new(
        alloc: Global,
        connections: VecDeque<(L, SocketAddr)>,
        calls: ListedCalls,
    ) -> MemoryAccept<L>
        ensures { result ≡ record { left = connections.items; callers = []; calls = calls } }
    {
        MemoryAccept {
            left: connections,
            callers: Vec::new(alloc),
            calls,
        }
    }
}

impl<L: Link + Drop> AsyncAccept for MemoryAccept<L> {
    type Link = L;

    ghost tells = { λ s. StillCounts s.calls.agains };

    ghost accept_traffic = { λ s. accept_traffic_of s };

    ghost faults = { λ s. s.calls.faults };

    fn poll_accept(&mut self) -> AcceptAnswer<L>
        ensures moves { Observed (StillCounts self.new.calls.agains) (StillCounts self.old.calls.agains)
            (AcceptMoves result (accept_traffic_of self.old) (accept_traffic_of self.new)) }
        ensures later { self.old.calls.faults ≤ self.new.calls.faults }
        ensures cause { AcceptCause result self.old.calls.faults self.new.calls.faults }
        ensures gives { AcceptsNext result self.old self.new }
        ensures listed { Contains self.old.calls.failing.items self.old.calls.made → result ≡ AcceptAnswer.Failed }
    {
        match self.calls.take() {
            CallFate::Failed => return AcceptAnswer::Failed,
            CallFate::Again => return AcceptAnswer::Again,
            CallFate::CarriedOut => {}
        }
        let Some((link, from)) = self.left.pop_front() else {
            self.calls.answer_again();
            return AcceptAnswer::Again;
        };
        match self.callers.push(from) {
            Ok(()) => AcceptAnswer::Accepted(link, from),
            Err(_) => {
                self.calls.fault();
                AcceptAnswer::Failed
            }
        }
    }

    fn wait<R: Wait>(&mut self, _rt: &R, _millis: u64)
        ensures moves { Observed (StillCounts self.new.calls.agains) (StillCounts self.old.calls.agains)
            (accept_traffic_of self.new ≡ accept_traffic_of self.old) }
        ensures same { self.new.calls.faults ≡ self.old.calls.faults }
        ensures kept { self.new ≡ self.old }
    {}
}
