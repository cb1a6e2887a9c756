//! A check in a thread of its own.

use crate::check::{Check, Checked, run};
use anyhow::bail;
use std::alloc::Global;
use std::rt::Clock;
use std::sync::Arc;
use std::sync::atomic::{AtomicBool, Ordering};
use std::thread::{self, JoinHandle, Threads};

/// A check that is going on in a thread of its own.
#[derive(Drop)]
pub(crate) struct Checking {
    thread: JoinHandle<Result<Checked, String>>,
    ended: Arc<AtomicBool>,
    stop: Arc<AtomicBool>,
    /// When it is given up.
    deadline: u64,
}

/// A check that can be shared; if there is no memory it is given up.
fn shareable(alloc: Global, checking: Checking) -> anyhow::Result<Arc<Checking>> {
    match Arc::new(alloc, checking) {
        Ok(checking) => Ok(checking),
        Err(refused) => {
            refused.value.give_up();
            bail!("out of memory")
        }
    }
}

impl Checking {
    /// Starts a check that is given up at a moment.
    pub(crate) fn start<R: Threads + Clock + Copy + Send + 'static>(
        rt: &R,
        alloc: Global,
        check: Check,
        deadline: u64,
    ) -> anyhow::Result<Arc<Checking>> {
        let ended = Arc::new(alloc, AtomicBool::new(false))?;
        let theirs = Arc::try_clone(&ended)?;
        let stop = Arc::try_clone(&check.stop)?;
        let clock = *rt;
        let thread = thread::spawn(rt, move || {
            let checked = run(&clock, alloc, check);
            theirs.store(true, Ordering::SeqCst);
            checked
        })?;
        shareable(
            alloc,
            Checking {
                thread,
                ended,
                stop,
                deadline,
            },
        )
    }

    /// Gives it up: it ends after the read that it is in.
    pub(crate) fn give_up(&self) {
        self.stop.store(true, Ordering::SeqCst);
    }

    /// Gives it up once its deadline has passed.
    pub(crate) fn give_up_late(&self, now: u64) {
        if now >= self.deadline {
            self.give_up();
        }
    }

    /// Whether it has ended.
    pub(crate) fn has_ended(&self) -> bool {
        self.ended.load(Ordering::SeqCst)
    }

    /// What came of it, which is waited for.
    pub(crate) fn join<R: Threads>(self, rt: &R) -> Result<Checked, String> {
        self.thread.join(rt)
    }
}
