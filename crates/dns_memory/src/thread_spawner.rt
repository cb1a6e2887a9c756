//! A spawner that starts threads and keeps no addresses.

ghost use Rattle.std.specs.Prelude.{◌≡◌, ◌+◌, List, [], ◌∷◌, ◌++◌, IfSome, IfNone, MatchOption, vec_len};
ghost use Rattle.dns_name.specs.declared.address.SocketAddr.{SocketAddr};
ghost use Rattle.dns_io.specs.Causes.{Observed};

use crate::kept_threads::KeptThreads;
use dns_io::{Spawner, Started, Work};
use dns_name::{OutOfMemory, SocketAddr};
use std::alloc::Global;

/// Starts each work in a thread. It tells nothing, and counts the threads that could not be made.
#[derive(Drop)]
pub struct ThreadSpawner<W: Work> {
    threads: KeptThreads<W::Done>,
    faults: u64,
}

impl<W: Work> ThreadSpawner<W> {
    /// A spawner that has started nothing.
    pub fn new(alloc: Global) -> ThreadSpawner<W>
        ensures { ⟦<ThreadSpawner<W> as Spawner<W>>⟧.faults result ≡ 0 }
    {
        ThreadSpawner {
            threads: KeptThreads::new(alloc),
            faults: 0,
        }
    }
}

impl<W: Work> Spawner<W> for ThreadSpawner<W> {
    ghost tells = { λ _. ⊥ };

    ghost given = { λ _. [] };

    ghost faults = { λ s. s.faults };

    fn permit(&mut self, _addr: SocketAddr) -> Result<bool, OutOfMemory> {
        self.threads.reserve()?;
        Ok(true)
    }

    fn refuse(&mut self) {
        self.faults = self.faults.saturating_add(1);
    }

    fn keep(&mut self, thread: Started<W::Done>) -> Option<Started<W::Done>>
        ensures given { Observed ⊥ ⊥ (◌≡◌ {A = List SocketAddr} [] []) }
        ensures same { self.new.faults ≡ self.old.faults }
        ensures kept { IfNone result (self.new.threads.threads.items ≡ self.old.threads.threads.items ++ thread ∷ []) }
    {
        self.threads.keep(thread)
    }

    fn ended(&mut self) -> Option<Started<W::Done>>
        ensures given { Observed ⊥ ⊥ (◌≡◌ {A = List SocketAddr} [] []) }
        ensures same { self.new.faults ≡ self.old.faults }
        ensures all { IfNone result (self.new.threads.threads.items ≡ self.old.threads.threads.items) }
        ensures others { IfSome result (λ thread. vec_len self.new.threads.threads + 1 ≡ vec_len self.old.threads.threads) }
    {
        self.threads.ended()
    }

    fn next(&mut self) -> Option<Started<W::Done>>
        ensures given { Observed ⊥ ⊥ (◌≡◌ {A = List SocketAddr} [] []) }
        ensures same { self.new.faults ≡ self.old.faults }
        ensures one { MatchOption result ((vec_len self.old.threads.threads ≡ 0) × (vec_len self.new.threads.threads ≡ 0))
            (λ _. vec_len self.new.threads.threads + 1 ≡ vec_len self.old.threads.threads) }
    {
        self.threads.next()
    }
}
