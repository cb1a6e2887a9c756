//! Work for threads.

ghost use Rattle.std.specs.Prelude.{◌≡◌, ⊤};
ghost use Rattle.dns_name.specs.declared.address.SocketAddr.{SocketAddr};

use dns_name::{OutOfMemory, SocketAddr};
use std::alloc::Global;
use std::sync::atomic::{AtomicBool, Ordering};
use std::sync::{Arc, Wait};
use std::thread::{Builder, JoinHandle, Promise, Threads};

/// How many octets the stack of a thread has that does work. docs/benchmarks.md says how many were seen in use.
const STACK: usize = 256 * 1024;

/// Work for a thread of its own: a connection to be served.
pub trait Work: Send + Drop + 'static {
    /// What the work gives when it is done.
    type Done: Send + Drop + 'static;

    /// The address of the client that it is done for.
    ghost addr: { Self → SocketAddr };

    /// That the work may be done, or given up.
    ghost ready: { Self → Type 0 };

    /// What the work gives.
    ghost gives: { Self → Self.Done → Type 0 };

    /// The address of the client that it is done for.
    fn client_addr(&self) -> SocketAddr
        ensures { result ≡ addr self.now };

    /// Does the work.
    fn run<R: Wait>(self, rt: &R, alloc: Global) -> Self::Done
        requires { ready self }
        ensures { gives self result };

    /// Ends the work before it began.
    fn give_up<R: Wait>(self, rt: &R)
        requires { ready self };
}

/// What a thread and its starter say to each other.
#[derive(Drop)]
struct Flags {
    refused: AtomicBool,
    ended: AtomicBool,
}

/// That a thread's result may be anything.
#[derive(Clone, Copy)]
struct AnyResult;

impl<T> Promise<T> for AnyResult {
    ghost kept_by = { λ _ _. ⊤ };
}

/// Flags that say nothing yet, for both.
fn shared_flags(alloc: Global) -> Result<(Arc<Flags>, Arc<Flags>), OutOfMemory> {
    let both = Flags {
        refused: AtomicBool::new(false),
        ended: AtomicBool::new(false),
    };
    let flags = Arc::new(alloc, both)?;
    let theirs = Arc::try_clone(&flags)?;
    Ok((flags, theirs))
}

/// A thread that was started for work.
#[derive(Drop)]
pub struct Started<D: Drop> {
    handle: JoinHandle<Option<D>>,
    flags: Arc<Flags>,
}

impl<D: Drop> Started<D> {
    /// Whether the thread said that its work is done, after which it ends at once. Of what another thread says a proof knows
    /// nothing, so no clause stands here.
    pub fn has_ended(&self) -> bool {
        self.flags.ended.load(Ordering::SeqCst)
    }

    /// Waits for the thread's end. What the work gave is `None` if it was given up. No clause says which of both it is, and
    /// none ties what is given to the work.
    pub fn join<R: Threads>(self, rt: &R) -> Option<D> {
        let Started { handle, flags: _ } = self;
        handle.join(rt)
    }
}

/// Starts the work in a thread. If no thread can be made the answer is `None`, and the work was given up, as it was
/// if there is no memory. No clause says that a work that was started is done: the thread reads a flag for whether it is
/// to give it up, and of what is read there a proof knows nothing.
pub fn start_work<R: Threads + Wait + Copy + Send + 'static, W: Work>(
    rt: &R,
    alloc: Global,
    work: W,
) -> Result<Option<Started<W::Done>>, OutOfMemory>
    requires { W.ready work }
{
    match shared_flags(alloc) {
        Ok((flags, theirs)) => Ok(in_thread(rt, alloc, work, flags, theirs)),
        Err(_) => {
            work.give_up(rt);
            Err(OutOfMemory)
        }
    }
}

/// Starts the work in a thread, which has these flags too, or gives it up if no thread can be made.
fn in_thread<R: Threads + Wait + Copy + Send + 'static, W: Work>(
    rt: &R,
    alloc: Global,
    work: W,
    flags: Arc<Flags>,
    theirs: Arc<Flags>,
) -> Option<Started<W::Done>>
    requires { W.ready work }
{
    let mine = *rt;
    let body = move || -> Option<W::Done>
        requires { W.ready work }
    {
        if theirs.refused.load(Ordering::SeqCst) {
            work.give_up(&mine);
            return None;
        }
        let done = work.run(&mine, alloc);
        theirs.ended.store(true, Ordering::SeqCst);
        Some(done)
    };
    let thread = Builder::new().stack_size(STACK);
    match thread.spawn_with(rt, AnyResult, body) {
        Ok(handle) => Some(Started {
            handle: handle.forget_promise(),
            flags,
        }),
        Err(refused) => {
            flags.refused.store(true, Ordering::SeqCst);
            let _ = (refused.value)();
            None
        }
    }
}
