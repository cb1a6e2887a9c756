//! A clock whose latest reading stands.

ghost use Rattle.std.specs.Prelude.{[]};

use dns_memory::{Clock, MemoryClock};
use dns_name::OutOfMemory;
use std::alloc::Global;

/// A clock that gives the readings of another. When they stand, the latest one is given again until it is told that this is
/// old. It tells nothing.
#[derive(Drop)]
pub struct Standing {
    inner: MemoryClock,
    stands: bool,
    last: Option<(u64, u64)>,
}

impl Standing {
    /// A clock that has given no reading.
    pub fn new(inner: MemoryClock, stands: bool) -> Standing {
        Standing {
            inner,
            stands,
            last: None,
        }
    }
}

impl Clock for Standing {
    ghost tells = { λ _. ⊥ };

    ghost readings = { λ _. [] };

    fn now(&mut self) -> (u64, u64) {
        let reading = self.inner.now();
        self.last = Some(reading);
        reading
    }

    fn latest(&mut self) -> (u64, u64) {
        match self.last {
            Some(reading) if self.stands => reading,
            _ => self.now(),
        }
    }

    fn outdate(&mut self) {
        self.last = None;
    }

    fn another(&self, alloc: Global) -> Result<Standing, OutOfMemory> {
        Ok(Standing::new(self.inner.another(alloc)?, self.stands))
    }
}
