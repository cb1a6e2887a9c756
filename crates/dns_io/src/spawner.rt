//! What starts work in threads.

ghost use Rattle.std.specs.Prelude.{◌≡◌, ℕ, List, ◌≤◌};
ghost use Rattle.dns_name.specs.declared.address.SocketAddr.{SocketAddr};
ghost use Rattle.dns_io.specs.Causes.{Rose, Observed};
ghost use Rattle.dns_io.specs.Starts.{StartMoves, StartCause, PermitMoves, PermitCause};

use crate::work::{Started, Work, start_work};
use dns_name::{OutOfMemory, SocketAddr};
use std::alloc::Global;
use std::sync::Wait;
use std::thread::Threads;

/// How many kept threads `join_ended` looks at.
const BATCH: u32 = 32;

/// The answer of one start.
#[derive(Clone, Copy, Debug, PartialEq, Eq)]
pub enum Start {
    /// The work was handed to a thread.
    Started,
    /// The work was given up.
    Failed,
}

/// What starts work, known by the addresses of the works that it was given. An implementor writes five small calls,
/// which keep addresses, counts and threads; `start` and `join_all` stand on these.
pub trait Spawner<W: Work> {
    /// That the works are known.
    ghost tells: { Self → Type 0 };

    /// The addresses of the works that were given to `start` so far, refused ones among them, if the spawner tells.
    ghost given: { Self → List SocketAddr };

    /// The number of refused starts so far, up to 2^64 - 1.
    ghost faults: { Self → ℕ };

    /// For `start`: keeps the address, and says whether a thread may be started.
    fn permit(&mut self, addr: SocketAddr) -> Result<bool, OutOfMemory>
        ensures given { Observed (tells self.new) (tells self.old) (PermitMoves result addr (given self.old) (given self.new)) }
        ensures later { faults self.old ≤ faults self.new }
        ensures cause { PermitCause result (faults self.old) (faults self.new) };

    /// For `start`: counts a thread that could not be made.
    fn refuse(&mut self)
        ensures given { Observed (tells self.new) (tells self.old) (given self.new ≡ given self.old) }
        ensures later { faults self.old ≤ faults self.new }
        ensures cause { Rose (faults self.old) (faults self.new) };

    /// For `start`: keeps a thread, or hands it back.
    fn keep(&mut self, thread: Started<W::Done>) -> Option<Started<W::Done>>
        ensures given { Observed (tells self.new) (tells self.old) (given self.new ≡ given self.old) }
        ensures same { faults self.new ≡ faults self.old };

    /// For `start`: a kept thread whose work is done, if one is found.
    fn ended(&mut self) -> Option<Started<W::Done>>
        ensures given { Observed (tells self.new) (tells self.old) (given self.new ≡ given self.old) }
        ensures same { faults self.new ≡ faults self.old };

    /// For `join_all`: a kept thread, until none is left.
    fn next(&mut self) -> Option<Started<W::Done>>
        ensures given { Observed (tells self.new) (tells self.old) (given self.new ≡ given self.old) }
        ensures same { faults self.new ≡ faults self.old };

    /// Asks `ended` 32 times for a kept thread whose work is done, and joins each that it gives, which ends at once.
    final fn join_ended<R: Threads>(&mut self, rt: &R)
        ensures given { Observed (tells self.new) (tells self.old) (given self.new ≡ given self.old) }
        ensures same { faults self.new ≡ faults self.old }
    {
        for _ in 0..BATCH {
            join_one_ended(self, rt);
        }
    }

    /// Starts the work in a thread of its own. If it answers `Failed` or finds no memory the work was given up. It
    /// first joins threads whose work is done, as `join_ended` does. No clause says how many threads are kept, or that the
    /// work is done or given up.
    final fn start<R: Threads + Wait + Copy + Send + 'static>(
        &mut self,
        rt: &R,
        alloc: Global,
        work: W,
    ) -> Result<Start, OutOfMemory>
        requires { W.ready work }
        ensures given { Observed (tells self.new) (tells self.old) (StartMoves result (W.addr work) (given self.old) (given self.new)) }
        ensures later { faults self.old ≤ faults self.new }
        ensures cause { StartCause result (faults self.old) (faults self.new) }
    {
        self.join_ended(rt);
        match self.permit(work.client_addr()) {
            Err(error) => {
                work.give_up(rt);
                Err(error)
            }
            Ok(false) => {
                work.give_up(rt);
                Ok(Start::Failed)
            }
            Ok(true) => start_permitted(self, rt, alloc, work),
        }
    }

    /// Waits for the end of each thread that `next` gives, until it gives none: by the spawners of dns_memory, of all that
    /// were started and are kept. No clause says so.
    final fn join_all<R: Threads + Wait>(&mut self, rt: &R)
        ensures given { Observed (tells self.new) (tells self.old) (given self.new ≡ given self.old) }
        ensures same { faults self.new ≡ faults self.old }
    {
        for _ in rt.forever() {
            if !join_next(self, rt) {
                break;
            }
        }
    }
}

/// Waits for the end of a thread whose work is done, if one is found.
fn join_one_ended<W: Work, S: Spawner<W>, R: Threads>(spawner: &mut S, rt: &R)
    ensures given { Observed (S.tells spawner.new) (S.tells spawner.old) (S.given spawner.new ≡ S.given spawner.old) }
    ensures same { S.faults spawner.new ≡ S.faults spawner.old }
{
    if let Some(thread) = spawner.ended() {
        let _ = thread.join(rt);
    }
}

/// Waits for the end of a kept thread, and says whether there was one.
fn join_next<W: Work, S: Spawner<W>, R: Threads>(spawner: &mut S, rt: &R) -> bool
    ensures given { Observed (S.tells spawner.new) (S.tells spawner.old) (S.given spawner.new ≡ S.given spawner.old) }
    ensures same { S.faults spawner.new ≡ S.faults spawner.old }
{
    match spawner.next() {
        Some(thread) => {
            let _ = thread.join(rt);
            true
        }
        None => false,
    }
}

/// Starts the work in a thread, which there is leave for.
fn start_permitted<W: Work, S: Spawner<W>, R: Threads + Wait + Copy + Send + 'static>(
    spawner: &mut S,
    rt: &R,
    alloc: Global,
    work: W,
) -> Result<Start, OutOfMemory>
    requires { W.ready work }
    ensures given { Observed (S.tells spawner.new) (S.tells spawner.old) (S.given spawner.new ≡ S.given spawner.old) }
    ensures later { S.faults spawner.old ≤ S.faults spawner.new }
    ensures cause { StartCause result (S.faults spawner.old) (S.faults spawner.new) }
{
    match start_work(rt, alloc, work) {
        Ok(started) => Ok(keep_started(spawner, rt, started)),
        Err(error) => Err(error),
    }
}

/// Keeps a thread that was started, or joins it if it can't be kept, and counts one that could not be made.
fn keep_started<W: Work, S: Spawner<W>, R: Threads>(
    spawner: &mut S,
    rt: &R,
    started: Option<Started<W::Done>>,
) -> Start
    ensures given { Observed (S.tells spawner.new) (S.tells spawner.old) (S.given spawner.new ≡ S.given spawner.old) }
    ensures later { S.faults spawner.old ≤ S.faults spawner.new }
    ensures cause { StartCause (Ok result) (S.faults spawner.old) (S.faults spawner.new) }
{
    let Some(thread) = started else {
        spawner.refuse();
        return Start::Failed;
    };
    if let Some(thread) = spawner.keep(thread) {
        let _ = thread.join(rt);
    }
    Start::Started
}
