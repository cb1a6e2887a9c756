//! A spawner that joins its threads itself, over any spawner.

ghost use Rattle.std.specs.Prelude.{◌≡◌, ◌≤◌, IsNone};
ghost use Rattle.dns_io.specs.Causes.{Observed, Rose};
ghost use Rattle.dns_io.specs.Starts.{PermitCause, PermitMoves};
ghost use Rattle.dns_witness.specs.Works.{AllJoined, Began, no_works};

use crate::joined_threads::JoinedThreads;
use crate::witness_spawner::WitnessSpawner;
use dns_io::{Spawner, Started, Work};
use dns_name::{OutOfMemory, SocketAddr};
use std::alloc::Global;
use std::sync::Wait;
use std::thread::Threads;

/// A spawner that keeps the threads of its works and joins them itself, and what each gave that it joined. Whether a thread may be
/// started the spawner beneath says, which keeps no thread.
#[derive(Drop)]
pub struct JoiningSpawner<P, W: Work, R> {
    spawner: P,
    rt: R,
    threads: JoinedThreads<W::Done>,
}

impl<P, W: Work, R> JoiningSpawner<P, W, R> {
    /// Of a spawner. No work was started by this so far.
    pub fn new(alloc: Global, rt: R, spawner: P) -> JoiningSpawner<P, W, R>
        ensures spawner { result.spawner ≡ spawner }
        ensures works { result.threads.seen.works ≡ no_works }
    {
        JoiningSpawner {
            spawner,
            rt,
            threads: JoinedThreads::new(alloc),
        }
    }
}

impl<P, W: Work, R: Threads + Wait> JoiningSpawner<P, W, R> {
    /// Waits for the end of each thread that is kept. Then as many works were joined as were started.
    pub fn join_kept(&mut self)
        ensures spawner { self.new.spawner ≡ self.old.spawner }
        ensures works { AllJoined self.old.threads.seen.works self.new.threads.seen.works }
    {
        self.threads.join_all(&self.rt);
    }
}

impl<W: Work, P: Spawner<W>, R: Threads + Wait> Spawner<W> for JoiningSpawner<P, W, R> {
    ghost tells = { λ s. P.tells s.spawner };

    ghost given = { λ s. P.given s.spawner };

    ghost faults = { λ s. P.faults s.spawner };

    fn permit(&mut self, addr: SocketAddr) -> Result<bool, OutOfMemory>
        ensures given { Observed (P.tells self.new.spawner) (P.tells self.old.spawner)
            (PermitMoves result addr (P.given self.old.spawner) (P.given self.new.spawner)) }
        ensures later { P.faults self.old.spawner ≤ P.faults self.new.spawner }
        ensures cause { PermitCause result (P.faults self.old.spawner) (P.faults self.new.spawner) }
        ensures works { self.new.threads.seen.works ≡ self.old.threads.seen.works }
    {
        self.threads.reserve()?;
        self.spawner.permit(addr)
    }

    fn refuse(&mut self)
        ensures given { Observed (P.tells self.new.spawner) (P.tells self.old.spawner)
            (P.given self.new.spawner ≡ P.given self.old.spawner) }
        ensures later { P.faults self.old.spawner ≤ P.faults self.new.spawner }
        ensures cause { Rose (P.faults self.old.spawner) (P.faults self.new.spawner) }
        ensures works { self.new.threads.seen.works ≡ self.old.threads.seen.works }
    {
        self.spawner.refuse();
    }

    // It hands no thread back.
    fn keep(&mut self, thread: Started<W::Done>) -> Option<Started<W::Done>>
        ensures given { Observed (P.tells self.new.spawner) (P.tells self.old.spawner)
            (P.given self.new.spawner ≡ P.given self.old.spawner) }
        ensures same { P.faults self.new.spawner ≡ P.faults self.old.spawner }
        ensures works { Began 1 self.old.threads.seen.works self.new.threads.seen.works }
        ensures none { IsNone result }
    {
        self.threads.keep(&self.rt, thread);
        None
    }

    // It joins one that has ended.
    fn ended(&mut self) -> Option<Started<W::Done>>
        ensures given { Observed (P.tells self.new.spawner) (P.tells self.old.spawner)
            (P.given self.new.spawner ≡ P.given self.old.spawner) }
        ensures same { P.faults self.new.spawner ≡ P.faults self.old.spawner }
        ensures works { Began 0 self.old.threads.seen.works self.new.threads.seen.works }
        ensures none { IsNone result }
    {
        self.threads.join_ended(&self.rt);
        None
    }

    // It joins all that are kept.
    fn next(&mut self) -> Option<Started<W::Done>>
        ensures given { Observed (P.tells self.new.spawner) (P.tells self.old.spawner)
            (P.given self.new.spawner ≡ P.given self.old.spawner) }
        ensures same { P.faults self.new.spawner ≡ P.faults self.old.spawner }
        ensures works { AllJoined self.old.threads.seen.works self.new.threads.seen.works }
        ensures none { IsNone result }
    {
        self.threads.join_all(&self.rt);
        None
    }
}

impl<P, W: Work, R: Threads + Wait> WitnessSpawner<JoiningSpawner<P, W, R>> {
    /// Waits for the end of each thread that is kept. Then as many works were joined as were started.
    pub fn join_kept(&mut self)
        ensures given { self.new.seen ≡ self.old.seen }
        ensures spawner { self.new.spawner.spawner ≡ self.old.spawner.spawner }
        ensures works { AllJoined self.old.spawner.threads.seen.works self.new.spawner.threads.seen.works }
    {
        self.spawner.join_kept();
    }
}
