//! Clocks.

ghost use Rattle.std.specs.Prelude.{◌≡◌, ℕ, List, [], ◌∷◌, ◌++◌, IfOk};
ghost use Rattle.dns_io.specs.Causes.{Observed};

use dns_name::OutOfMemory;
use std::alloc::Global;

/// A clock, known by the readings that it gave. No call fails.
pub trait Clock: Sized {
    /// That the readings are known. They are of a clock in memory, and are not of the machine's.
    ghost tells: { Self → Type 0 };

    /// The readings given so far, if the clock tells: milliseconds, and seconds.
    ghost readings: { Self → List (ℕ × ℕ) };

    /// One reading: the time in milliseconds and in whole seconds. It may be less than an earlier one.
    fn now(&mut self) -> (u64, u64)
        ensures { Observed (tells self.new) (tells self.old) (readings self.new ≡ readings self.old ++ result ∷ []) };

    /// The reading that was given last, if the clock keeps it and hasn't been told since that it is old; else one of now. What
    /// comes right after an event may have its moment.
    fn latest(&mut self) -> (u64, u64)
        ensures { Observed (tells self.new) (tells self.old) (readings self.new ≡ readings self.old ++ result ∷ []) }
    {
        self.now()
    }

    /// Time has passed, so that the reading that was given last is old.
    fn outdate(&mut self)
        ensures { Observed (tells self.new) (tells self.old) (readings self.new ≡ readings self.old) }
    {}

    /// Another clock of this kind, which has given no reading yet.
    fn another(&self, alloc: Global) -> Result<Self, OutOfMemory>
        ensures { IfOk result (λ other. readings other ≡ []) };
}
