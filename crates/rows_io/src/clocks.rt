//! The machine's clock, over the one of this machine and over one of a test's own.

use dns_outside::{Clock, HostClock};
use std::alloc::Global;
use std::io::ErrorKind;
use std::sync::atomic::{AtomicBool, AtomicU64, Ordering};
use std::time::Duration;
use std::{io, rt};

/// Whether a clock's seconds stand after 2001, and another one like it gives none that are earlier and no earlier moment.
fn stands_later<C: Clock + Drop>(alloc: Global, clock: &mut C) -> bool {
    let (at, secs) = clock.now();
    match clock.another(alloc) {
        Ok(mut other) => {
            let (later, second) = other.now();
            secs > 1_000_000_000 && later >= at && second >= secs
        }
        Err(_) => false,
    }
}

/// Whether the latest reading is the last one, and another one some time after it was called old.
fn goes_on<C: Clock>(clock: &mut C) -> bool {
    let first = clock.latest();
    let again = clock.latest();
    for _ in 0..100_000_000u64 {
        clock.outdate();
        if clock.latest() != first {
            return again == first && first.1 > 1_000_000_000;
        }
    }
    false
}

/// A clock that gives both times as they were set last, or neither.
#[derive(Clone, Copy)]
struct SetClock<'a> {
    millis: &'a AtomicU64,
    secs: &'a AtomicU64,
    fails: &'a AtomicBool,
}

impl SetClock<'_> {
    /// What a reading gives, unless the clock fails.
    fn reading(&self, time: Duration) -> io::Result<Duration> {
        match self.fails.load(Ordering::SeqCst) {
            true => Err(io::Error::from(ErrorKind::Other)),
            false => Ok(time),
        }
    }
}

impl rt::Clock for SetClock<'_> {
    fn monotonic(&self) -> io::Result<Duration> {
        self.reading(Duration::from_millis(self.millis.load(Ordering::SeqCst)))
    }

    fn since_1970(&self) -> io::Result<Duration> {
        self.reading(Duration::from_secs(self.secs.load(Ordering::SeqCst)))
    }
}

/// Whether a clock gives this moment and second, once its times are set to the moment and to this time of day.
fn reads<'a>(
    clock: &mut HostClock<SetClock<'a>>,
    times: SetClock<'a>,
    at: u64,
    day: u64,
    secs: u64,
) -> bool {
    times.millis.store(at, Ordering::SeqCst);
    times.secs.store(day, Ordering::SeqCst);
    clock.now() == (at, secs)
}

/// Whether a step of the time of day changes the seconds from the next millisecond on, and no moment.
fn steps_alone() -> bool {
    let millis = AtomicU64::new(0);
    let secs = AtomicU64::new(0);
    let fails = AtomicBool::new(false);
    let times = SetClock {
        millis: &millis,
        secs: &secs,
        fails: &fails,
    };
    let mut clock = HostClock::new(times);
    reads(&mut clock, times, 5_007, 1_700_000_000, 1_700_000_000)
        && reads(&mut clock, times, 5_007, 1_700_000_030, 1_700_000_000)
        && reads(&mut clock, times, 5_008, 1_700_000_030, 1_700_000_030)
        && reads(&mut clock, times, 5_009, 1_699_913_600, 1_699_913_600)
}

/// Whether a clock that can't be read gives its last reading again, and 0 if there was none.
fn stands_still() -> bool {
    let millis = AtomicU64::new(5_007);
    let secs = AtomicU64::new(1_700_000_000);
    let fails = AtomicBool::new(true);
    let times = SetClock {
        millis: &millis,
        secs: &secs,
        fails: &fails,
    };
    let mut clock = HostClock::new(times);
    let first = clock.now();
    fails.store(false, Ordering::SeqCst);
    let second = clock.now();
    fails.store(true, Ordering::SeqCst);
    millis.store(6_000, Ordering::SeqCst);
    secs.store(1_700_000_001, Ordering::SeqCst);
    first == (0, 0) && second == (5_007, 1_700_000_000) && clock.now() == second
}

/// The machine's clock does as is wanted, and else what it doesn't is named.
#[test]
fn each_clock_holds(rt: HostRuntime) -> Result<(), &'static str> {
    // It gives its last reading as the latest one until that is called old.
    if !goes_on(&mut HostClock::new(rt)) {
        return Err("the_latest_reading_stays");
    }
    // It gives seconds after 2001 and moments that don't go back, and so does another.
    if !stands_later(rt.alloc(), &mut HostClock::new(rt)) {
        return Err("the_clock_is_read");
    }
    if !steps_alone() {
        return Err("a_step_of_the_time_of_day_moves_no_moment");
    }
    if !stands_still() {
        return Err("a_clock_that_cannot_be_read_stands");
    }
    Ok(())
}
