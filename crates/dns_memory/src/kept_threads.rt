//! The threads that a spawner started.

ghost use Rattle.std.specs.Prelude.{◌≡◌, ◌≤◌, ◌+◌, [], ◌∷◌, ◌++◌, IfSome, IfNone, MatchOption, vec_len};

use dns_io::Started;
use dns_name::OutOfMemory;
use std::alloc::Global;

/// Threads that were started, each until it is joined. One after the other is looked at for its end.
#[derive(Drop)]
pub(crate) struct KeptThreads<D: Drop> {
    threads: Vec<Started<D>>,
    place: usize,
}

impl<D: Drop> KeptThreads<D> {
    pub(crate) fn new(alloc: Global) -> KeptThreads<D>
        ensures { result.threads.items ≡ [] }
    {
        KeptThreads {
            threads: Vec::new(alloc),
            place: 0,
        }
    }

    /// Takes memory for one thread more.
    pub(crate) fn reserve(&mut self) -> Result<(), OutOfMemory>
        ensures { self.new.threads.items ≡ self.old.threads.items }
    {
        Ok(self.threads.reserve(1)?)
    }

    /// Keeps a thread, or hands it back if there is no memory.
    pub(crate) fn keep(&mut self, thread: Started<D>) -> Option<Started<D>>
        ensures kept { IfNone result (self.new.threads.items ≡ self.old.threads.items ++ thread ∷ []) }
        ensures refused { IfSome result (λ back. (back ≡ thread) × (self.new.threads.items ≡ self.old.threads.items)) }
    {
        match self.threads.push(thread) {
            Ok(()) => None,
            Err(refused) => Some(refused.value),
        }
    }

    /// Looks at one thread more, and gives it if its work is done.
    pub(crate) fn ended(&mut self) -> Option<Started<D>>
        ensures all { IfNone result (self.new.threads.items ≡ self.old.threads.items) }
        ensures others { IfSome result (λ thread. vec_len self.new.threads + 1 ≡ vec_len self.old.threads) }
    {
        if self.place >= self.threads.len() {
            self.place = 0;
        }
        if self.place >= self.threads.len() {
            return None;
        }
        if self.threads[self.place].has_ended() {
            return Some(self.threads.swap_remove(self.place));
        }
        self.place += 1;
        None
    }

    /// Gives a thread, until none is left.
    pub(crate) fn next(&mut self) -> Option<Started<D>>
        ensures { MatchOption result ((vec_len self.old.threads ≡ 0) × (vec_len self.new.threads ≡ 0))
            (λ _. vec_len self.new.threads + 1 ≡ vec_len self.old.threads) }
    {
        self.threads.pop()
    }
}
