//! Spawners, with real threads.

ghost use Rattle.std.specs.Prelude.{◌≡◌};

use dns_name::{IpAddr, OutOfMemory, SocketAddr};
use dns_outside::{MemorySpawner, Spawner, Start, ThreadSpawner, Work};
use std::alloc::Global;
use std::sync::atomic::{AtomicU64, Ordering};
use std::sync::{Arc, Wait};
use std::thread::Threads;

const PEER: SocketAddr = SocketAddr {
    ip: IpAddr::V4([192, 0, 2, 1]),
    port: 53,
};

/// Work that adds 1 to a sum if it is done, and 1,000 if it is given up.
#[derive(Drop)]
struct Sum {
    addr: SocketAddr,
    sum: Arc<AtomicU64>,
}

impl Work for Sum {
    type Done = ();

    ghost addr = { λ s. s.addr };

    ghost ready = { λ _. Unit {0} };

    ghost gives = { λ _ _. Unit {0} };

    fn client_addr(&self) -> SocketAddr
        ensures { result ≡ self.now.addr }
    {
        self.addr
    }

    fn run<R: Wait>(self, _rt: &R, _alloc: Global) {
        self.sum.fetch_add(1, Ordering::SeqCst);
    }

    fn give_up<R: Wait>(self, _rt: &R) {
        self.sum.fetch_add(1_000, Ordering::SeqCst);
    }
}

/// How many works are started, how many of the starts are refused, and what the sum is then.
#[derive(Clone, Copy)]
struct Works {
    count: u64,
    refused: u64,
    sum: u64,
}

/// Starts one work that adds to this sum.
fn start_one<R: Threads + Wait + Copy + Send + 'static, P: Spawner<Sum>>(
    rt: &R,
    alloc: Global,
    spawner: &mut P,
    sum: &Arc<AtomicU64>,
) -> Result<Start, OutOfMemory> {
    match Arc::try_clone(sum) {
        Ok(sum) => spawner.start(rt, alloc, Sum { addr: PEER, sum }),
        Err(error) => Err(error.into()),
    }
}

/// Starts that many, one after the other, and waits for all. How many starts were refused.
fn start_all<R: Threads + Wait + Copy + Send + 'static, P: Spawner<Sum>>(
    rt: &R,
    alloc: Global,
    spawner: &mut P,
    sum: &Arc<AtomicU64>,
    count: u64,
) -> Result<u64, OutOfMemory> {
    let mut refused = 0u64;
    for _ in 0..count {
        if start_one(rt, alloc, spawner, sum)? == Start::Failed {
            refused = refused.saturating_add(1);
        }
    }
    spawner.join_all(rt);
    Ok(refused)
}

/// Whether a spawner does these works, which add to this sum.
fn sums_up<R: Threads + Wait + Copy + Send + 'static, P: Spawner<Sum>>(
    rt: &R,
    alloc: Global,
    spawner: &mut P,
    sum: &Arc<AtomicU64>,
    works: &Works,
) -> bool {
    start_all(rt, alloc, spawner, sum, works.count) == Ok(works.refused)
        && sum.load(Ordering::SeqCst) == works.sum
}

/// Whether it does, from a sum of 0.
fn does<R: Threads + Wait + Copy + Send + 'static, P: Spawner<Sum>>(
    rt: &R,
    alloc: Global,
    spawner: &mut P,
    works: &Works,
) -> bool {
    match Arc::new(alloc, AtomicU64::new(0)) {
        Ok(sum) => sums_up(rt, alloc, spawner, &sum, works),
        Err(_) => false,
    }
}

/// Whether a spawner in memory does, of whose starts these are refused.
fn are_done_in_memory<R: Threads + Wait + Copy + Send + 'static>(
    rt: &R,
    alloc: Global,
    failed_starts: &[u64],
    works: &Works,
) -> bool {
    match Vec::from_slice(alloc, failed_starts) {
        Ok(failing) => does(rt, alloc, &mut MemorySpawner::new(alloc, failing), works),
        Err(_) => false,
    }
}

const THREE: &Works = &Works {
    count: 3,
    refused: 1,
    sum: 1_002,
};

const MANY: &Works = &Works {
    count: 40,
    refused: 0,
    sum: 40,
};

/// Whether threads do these works.
fn are_done_in_threads<R: Threads + Wait + Copy + Send + 'static>(
    rt: &R,
    alloc: Global,
    works: &Works,
) -> bool {
    does(rt, alloc, &mut ThreadSpawner::new(alloc), works)
}

/// Each spawner does its works, and else the first that doesn't is named.
#[test]
fn each_spawner_holds(rt: HostRuntime) -> Result<(), &'static str> {
    // The second of three starts is refused: its work is given up, and the others are done before they are joined.
    if !are_done_in_memory(&rt, rt.alloc(), &[1], THREE) {
        return Err("a_refused_start_is_given_up");
    }
    // Many works, one after the other, are all done.
    if !are_done_in_threads(&rt, rt.alloc(), MANY) {
        return Err("all_work_is_done");
    }
    Ok(())
}
