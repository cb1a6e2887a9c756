//! The machine's clock.

ghost use Rattle.std.specs.Prelude.{◌≡◌, [], true, None};

use dns_io::Clock;
use dns_name::OutOfMemory;
use std::alloc::Global;
use std::rt;
use std::time::Duration;

/// The machine's clock, which tells nothing. The moment in milliseconds is that of the monotonic clock, which no change of the
/// time of day moves. The seconds are the time of day, since 1970, which is read once for each moment: a reading at the moment of
/// the one before has its seconds. A part that can't be read is given as it was read last, 0 at first.
#[derive(Drop)]
pub struct HostClock<T> {
    rt: T,
    last: (u64, u64),
    is_old: bool,
    // The moment for which the time of day was read last.
    read_for: Option<u64>,
}

impl<T: rt::Clock> HostClock<T> {
    /// A clock that has given no reading.
    pub fn new(rt: T) -> HostClock<T>
        ensures { result ≡ record { rt = rt; last = (0, 0); is_old = true; read_for = None } }
    {
        HostClock {
            rt,
            last: (0, 0),
            is_old: true,
            read_for: None,
        }
    }

    /// Reads the time of day, for the last moment.
    #[inline(never)]
    fn read_time_of_day(&mut self) {
        if let Ok(since) = rt::Clock::since_1970(&self.rt) {
            self.last.1 = since.as_secs();
            self.read_for = Some(self.last.0);
        }
    }
}

/// The whole milliseconds of a duration, at most 2^64 - 1.
fn millis_of(time: Duration) -> u64 {
    let millis = u64::from(time.subsec_millis());
    time.as_secs().saturating_mul(1000).saturating_add(millis)
}

impl<T: rt::Clock + Copy> Clock for HostClock<T> {
    ghost tells = { λ _. ⊥ };

    ghost readings = { λ _. [] };

    fn now(&mut self) -> (u64, u64) {
        self.is_old = false;
        if let Ok(since) = rt::Clock::monotonic(&self.rt) {
            self.last.0 = millis_of(since);
            if self.read_for == Some(self.last.0) {
                return self.last;
            }
        }
        self.read_time_of_day();
        self.last
    }

    fn latest(&mut self) -> (u64, u64) {
        if self.is_old {
            return Clock::now(self);
        }
        self.last
    }

    fn outdate(&mut self) {
        self.is_old = true;
    }

    fn another(&self, _alloc: Global) -> Result<HostClock<T>, OutOfMemory> {
        Ok(HostClock::new(self.rt))
    }
}
