//! A spawner that keeps the addresses of its works, with starts that fail.

ghost use Rattle.std.specs.Prelude.{◌≡◌, ◌≤◌, ◌+◌, [], ◌∷◌, ◌++◌, OnOk, OnErr, IfOk, IfSome, IfNone, MatchOption, IsFalse, Contains, ◌↔◌, vec_len};
ghost use Rattle.dns_io.specs.Causes.{Rose, Observed};
ghost use Rattle.dns_io.specs.Starts.{PermitMoves, PermitCause};
ghost use Rattle.dns_memory.specs.Memory.{next};

use crate::kept_threads::KeptThreads;
use crate::listed_calls::FailingCalls;
use dns_io::{Spawner, Started, Work};
use dns_name::{OutOfMemory, SocketAddr};
use std::alloc::Global;

/// Starts each work in a thread, but those starts that are listed, and tells the addresses.
#[derive(Drop)]
pub struct MemorySpawner<W: Work> {
    threads: KeptThreads<W::Done>,
    given: Vec<SocketAddr>,
    calls: FailingCalls,
}

impl<W: Work> MemorySpawner<W> {
    /// `failing` lists the numbers of the starts that fail, from 0.
    pub fn new(alloc: Global, failing: Vec<u64>) -> MemorySpawner<W>
        ensures given { result.given.items ≡ [] }
        ensures calls { result.calls ≡ record { listed = failing; made = 0; faults = 0 } }
    {
        MemorySpawner {
            threads: KeptThreads::new(alloc),
            given: Vec::new(alloc),
            calls: FailingCalls::of(failing),
        }
    }
}

impl<W: Work> Spawner<W> for MemorySpawner<W> {
    ghost tells = { λ _. Unit {0} };

    ghost given = { λ s. s.given.items };

    ghost faults = { λ s. s.calls.faults };

    fn permit(&mut self, addr: SocketAddr) -> Result<bool, OutOfMemory>
        ensures given { Observed (Unit {0}) (Unit {0}) (PermitMoves result addr self.old.given.items self.new.given.items) }
        ensures later { self.old.calls.faults ≤ self.new.calls.faults }
        ensures cause { PermitCause result self.old.calls.faults self.new.calls.faults }
        ensures fails { IfOk result (λ may. IsFalse may ↔ Contains self.old.calls.listed.items self.old.calls.made) }
        ensures called { OnOk result (self.new.calls.made ≡ next self.old.calls.made) }
    {
        self.threads.reserve()?;
        self.given.push(addr)?;
        Ok(!self.calls.fails())
    }

    fn refuse(&mut self) {
        self.calls.fault();
    }

    fn keep(&mut self, thread: Started<W::Done>) -> Option<Started<W::Done>>
        ensures given { Observed (Unit {0}) (Unit {0}) (self.new.given.items ≡ self.old.given.items) }
        ensures same { self.new.calls.faults ≡ self.old.calls.faults }
        ensures kept { IfNone result (self.new.threads.threads.items ≡ self.old.threads.threads.items ++ thread ∷ []) }
    {
        self.threads.keep(thread)
    }

    fn ended(&mut self) -> Option<Started<W::Done>>
        ensures given { Observed (Unit {0}) (Unit {0}) (self.new.given.items ≡ self.old.given.items) }
        ensures same { self.new.calls.faults ≡ self.old.calls.faults }
        ensures all { IfNone result (self.new.threads.threads.items ≡ self.old.threads.threads.items) }
        ensures others { IfSome result (λ thread. vec_len self.new.threads.threads + 1 ≡ vec_len self.old.threads.threads) }
    {
        self.threads.ended()
    }

    fn next(&mut self) -> Option<Started<W::Done>>
        ensures given { Observed (Unit {0}) (Unit {0}) (self.new.given.items ≡ self.old.given.items) }
        ensures same { self.new.calls.faults ≡ self.old.calls.faults }
        ensures one { MatchOption result ((vec_len self.old.threads.threads ≡ 0) × (vec_len self.new.threads.threads ≡ 0))
            (λ _. vec_len self.new.threads.threads + 1 ≡ vec_len self.old.threads.threads) }
    {
        self.threads.next()
    }
}
