//! A clock in memory.

ghost use Rattle.std.specs.Prelude.{◌≡◌, [], IfOk};
ghost use Rattle.dns_io.specs.Causes.{Observed};
ghost use Rattle.dns_memory.specs.MemoryForms.{StillCounts, readings_of};

use dns_io::Clock;
use dns_name::OutOfMemory;
use std::alloc::Global;
use std::marker::Model;

/// A clock that gives the readings of a list, and then the last of them again and again, or (0, 0) if the list is
/// empty. It tells them as long as it can count them.
#[derive(Drop)]
pub struct MemoryClock {
    listed: Vec<(u64, u64)>,
    given: usize,
}

impl Model for MemoryClock {
    ghost use Rattle.dns_memory.specs.MemoryForms.{ClockState};

    ghost Value = { ClockState };

    ghost view = { λ s. record { listed = s.listed.items; given = s.given } };
}

impl MemoryClock {
    /// A clock that has given no reading.
    pub fn new(listed: Vec<(u64, u64)>) -> MemoryClock
        ensures { result ≡ record { listed = listed.items; given = 0 } }
    {
        MemoryClock { listed, given: 0 }
    }
}

#[tactic(auto, using(crate::proofs::ClockReadings::reading_listed, crate::proofs::ClockReadings::reading_again))]
impl Clock for MemoryClock {
    ghost tells = { λ s. StillCounts s.given };

    ghost readings = { λ s. readings_of s };

    fn now(&mut self) -> (u64, u64) {
        let given = self.given;
        self.given = given.saturating_add(1);
        if given < self.listed.len() {
            return self.listed[given];
        }
        if self.listed.is_empty() {
            return (0, 0);
        }
        self.listed[self.listed.len() - 1]
    }

    fn another(&self, alloc: Global) -> Result<MemoryClock, OutOfMemory>
        ensures fresh { IfOk result (λ other. readings_of other ≡ []) }
        ensures same { IfOk result (λ other. other ≡ record { listed = self.now.listed; given = 0 }) }
    {
        let copy = Vec::from_slice(alloc, self.listed.as_slice())?;
        Ok(MemoryClock::new(copy))
    }
}
