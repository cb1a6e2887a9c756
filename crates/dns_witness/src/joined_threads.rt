//! Threads that are joined where they are kept.

ghost use Rattle.std.specs.Prelude.{◌≡◌, ◌+◌, length, vec_len, false};
ghost use Rattle.dns_witness.specs.Works.{AllJoined, Began, no_works};

use crate::works::SeenWorks;
use dns_io::Started;
use dns_name::OutOfMemory;
use std::alloc::Global;
use std::sync::Wait;
use std::thread::Threads;

/// Threads that were started, each until it is joined, and what those gave that were joined. Always those that are kept and those
/// that were joined are as many as were started. One after the other is looked at for its end.
#[derive(Drop)]
pub(crate) struct JoinedThreads<D: Drop> {
    threads: Vec<Started<D>>,
    place: usize,
    pub(crate) seen: SeenWorks<Option<D>>,
    ghost counted: { seen.works.started ≡ vec_len threads + length seen.works.joined },
}

impl<D: Drop> JoinedThreads<D> {
    /// None was started so far.
    pub(crate) fn new(alloc: Global) -> JoinedThreads<D>
        ensures { result.seen.works ≡ no_works }
    {
        JoinedThreads {
            threads: Vec::new(alloc),
            place: 0,
            seen: SeenWorks::new(),
        }
    }

    /// Takes memory for one thread more.
    pub(crate) fn reserve(&mut self) -> Result<(), OutOfMemory>
        ensures { self.new.seen.works ≡ self.old.seen.works }
    {
        Ok(self.threads.reserve(1)?)
    }

    /// Keeps a thread that was started, or waits for its end if there is no memory.
    #[tactic(auto, using(crate::proofs::Joins::began_one, crate::proofs::Joins::began_both, crate::proofs::Joins::counted_one, crate::proofs::Joins::counted_both))]
    pub(crate) fn keep<R: Threads>(&mut self, rt: &R, thread: Started<D>)
        ensures { Began 1 self.old.seen.works self.new.seen.works }
    {
        self.seen = self.seen.began();
        if let Err(refused) = self.threads.push(thread) {
            let gave = refused.value.join(rt);
            self.seen = self.seen.joined(&gave);
        }
    }

    /// Looks at one thread more, and joins it if its work is done.
    #[tactic(auto, using(crate::proofs::Joins::began_same, crate::proofs::Joins::began_joined, crate::proofs::Joins::counted_joined))]
    pub(crate) fn join_ended<R: Threads>(&mut self, rt: &R)
        ensures { Began 0 self.old.seen.works self.new.seen.works }
    {
        if self.place >= self.threads.len() {
            self.place = 0;
        }
        if self.place >= self.threads.len() {
            return;
        }
        if self.threads[self.place].has_ended() {
            let gave = self.threads.swap_remove(self.place).join(rt);
            self.seen = self.seen.joined(&gave);
        } else {
            self.place += 1;
        }
    }

    /// Waits for the end of the thread that was kept last, and says whether there was one.
    #[tactic(auto, using(crate::proofs::Joins::began_same, crate::proofs::Joins::began_joined, crate::proofs::Joins::counted_joined))]
    fn join_last<R: Threads>(&mut self, rt: &R) -> bool
        ensures works { Began 0 self.old.seen.works self.new.seen.works }
        ensures none { result ≡ false → vec_len self.new.threads ≡ 0 }
    {
        match self.threads.pop() {
            Some(thread) => {
                let gave = thread.join(rt);
                self.seen = self.seen.joined(&gave);
                true
            }
            None => false,
        }
    }

    /// Waits for the end of each thread that is kept.
    #[tactic(auto, using(crate::proofs::Joins::began_same, crate::proofs::Joins::began_then, crate::proofs::Joins::all_joined))]
    pub(crate) fn join_all<R: Threads + Wait>(&mut self, rt: &R)
        ensures { AllJoined self.old.seen.works self.new.seen.works }
    {
        for _ in rt.forever() {
            if !self.join_last(rt) {
                break;
            }
        }
    }
}
