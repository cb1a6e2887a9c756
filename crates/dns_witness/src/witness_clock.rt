//! A clock that tells, over any clock.

ghost use Rattle.std.specs.Prelude.{◌≡◌, [], ◌∷◌, ◌++◌, IfOk};
ghost use Rattle.dns_io.specs.Causes.{Observed};
ghost use Rattle.dns_witness.specs.Since.{ReadingsSince};

use crate::readings::{Reading, SeenReadings};
use dns_io::Clock;
use dns_name::OutOfMemory;
use std::alloc::Global;
use std::snapshot::Snapshot;

/// A clock, and the readings that its calls gave. If the clock itself tells, these are all that it gave since it was taken.
#[derive(Drop)]
pub struct WitnessClock<C: Clock> {
    clock: C,
    start: Snapshot<C>,
    seen: SeenReadings,
    ghost tied: { ∥ Observed (C.Clock.tells clock) (C.Clock.tells start.value)
        (ReadingsSince (C.Clock.readings start.value) (C.Clock.readings clock) seen.readings) ∥₁ },
}

impl<C: Clock> WitnessClock<C> {
    /// Of a clock, which has given no reading by this so far.
    #[tactic(auto, using(crate::proofs::ClockTies::tied_first))]
    pub fn new(clock: C) -> WitnessClock<C>
        ensures clock { (result.clock ≡ clock) × (result.start.value ≡ clock) }
        ensures seen { result.seen.readings ≡ [] }
    {
        let start = Snapshot::of(&clock);
        WitnessClock {
            clock,
            start,
            seen: SeenReadings::new(),
        }
    }

    /// The clock.
    pub fn into_inner(self) -> C
        ensures { result ≡ self.clock }
    {
        let WitnessClock { clock, .. } = self;
        clock
    }

    /// True of each, after any calls: if the clock tells, the readings seen are all that it gave since.
    pub fn is_tied(&self)
        ensures { ∥ Observed (C.tells self.now.clock) (C.tells self.now.start.value)
            (ReadingsSince (C.readings self.now.start.value) (C.readings self.now.clock) self.now.seen.readings) ∥₁ }
    {}
}

impl<C: Clock> Clock for WitnessClock<C> {
    ghost tells = { λ _. Unit {0} };

    ghost readings = { λ w. w.seen.readings };

    #[tactic(auto, using(crate::proofs::ClockTies::tied_reading))]
    fn now(&mut self) -> (u64, u64)
        ensures reads { Observed (Unit {0}) (Unit {0}) (self.new.seen.readings ≡ self.old.seen.readings ++ result ∷ []) }
        // The clock itself gave this.
        ensures inner { Observed (C.tells self.new.clock) (C.tells self.old.clock)
            (C.readings self.new.clock ≡ C.readings self.old.clock ++ result ∷ []) }
    {
        let (millis, secs) = self.clock.now();
        self.seen.read(&Reading { millis, secs });
        (millis, secs)
    }

    #[tactic(auto, using(crate::proofs::ClockTies::tied_reading))]
    fn latest(&mut self) -> (u64, u64)
        ensures reads { Observed (Unit {0}) (Unit {0}) (self.new.seen.readings ≡ self.old.seen.readings ++ result ∷ []) }
        // The clock itself gave this.
        ensures inner { Observed (C.tells self.new.clock) (C.tells self.old.clock)
            (C.readings self.new.clock ≡ C.readings self.old.clock ++ result ∷ []) }
    {
        let (millis, secs) = self.clock.latest();
        self.seen.read(&Reading { millis, secs });
        (millis, secs)
    }

    #[tactic(auto, using(crate::proofs::ClockTies::tied_still))]
    fn outdate(&mut self) {
        self.clock.outdate();
    }

    fn another(&self, alloc: Global) -> Result<Self, OutOfMemory>
        ensures fresh { IfOk result (λ other. other.seen.readings ≡ []) }
    {
        let clock = self.clock.another(alloc)?;
        Ok(WitnessClock::new(clock))
    }
}
