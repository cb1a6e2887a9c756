//! A spawner that tells, over any spawner.

ghost use Rattle.std.specs.Prelude.{◌≡◌, ◌≤◌, []};
ghost use Rattle.dns_io.specs.Causes.{Observed, Rose};
ghost use Rattle.dns_io.specs.Starts.{PermitCause, PermitMoves};

use crate::starts::SeenStarts;
use dns_io::{Spawner, Started, Work};
use dns_name::{OutOfMemory, SocketAddr};

/// A spawner, and the addresses of the works that it was given.
#[derive(Drop)]
pub struct WitnessSpawner<P> {
    pub(crate) spawner: P,
    seen: SeenStarts,
}

impl<P> WitnessSpawner<P> {
    /// Of a spawner, which was given no work by this so far.
    pub fn new(spawner: P) -> WitnessSpawner<P>
        ensures spawner { result.spawner ≡ spawner }
        ensures seen { result.seen.given ≡ [] }
    {
        WitnessSpawner {
            spawner,
            seen: SeenStarts::new(),
        }
    }

    /// The spawner.
    pub fn into_inner(self) -> P
        ensures { result ≡ self.spawner }
    {
        let WitnessSpawner { spawner, .. } = self;
        spawner
    }
}

impl<W: Work, P: Spawner<W>> Spawner<W> for WitnessSpawner<P> {
    ghost tells = { λ _. Unit {0} };

    ghost given = { λ s. s.seen.given };

    ghost faults = { λ s. P.faults s.spawner };

    fn permit(&mut self, addr: SocketAddr) -> Result<bool, OutOfMemory>
        ensures given { Observed (Unit {0}) (Unit {0}) (PermitMoves result addr self.old.seen.given self.new.seen.given) }
        ensures later { P.faults self.old.spawner ≤ P.faults self.new.spawner }
        ensures cause { PermitCause result (P.faults self.old.spawner) (P.faults self.new.spawner) }
        // The spawner itself was given this.
        ensures inner { Observed (P.tells self.new.spawner) (P.tells self.old.spawner)
            (PermitMoves result addr (P.given self.old.spawner) (P.given self.new.spawner)) }
    {
        match self.spawner.permit(addr) {
            Ok(may) => {
                self.seen.give(&addr);
                Ok(may)
            }
            Err(error) => Err(error),
        }
    }

    fn refuse(&mut self)
        ensures given { Observed (Unit {0}) (Unit {0}) (self.new.seen.given ≡ self.old.seen.given) }
        ensures later { P.faults self.old.spawner ≤ P.faults self.new.spawner }
        ensures cause { Rose (P.faults self.old.spawner) (P.faults self.new.spawner) }
        ensures inner { Observed (P.tells self.new.spawner) (P.tells self.old.spawner)
            (P.given self.new.spawner ≡ P.given self.old.spawner) }
    {
        self.spawner.refuse();
    }

    fn keep(&mut self, thread: Started<W::Done>) -> Option<Started<W::Done>>
        ensures given { Observed (Unit {0}) (Unit {0}) (self.new.seen.given ≡ self.old.seen.given) }
        ensures same { P.faults self.new.spawner ≡ P.faults self.old.spawner }
        ensures inner { Observed (P.tells self.new.spawner) (P.tells self.old.spawner)
            (P.given self.new.spawner ≡ P.given self.old.spawner) }
    {
        self.spawner.keep(thread)
    }

    fn ended(&mut self) -> Option<Started<W::Done>>
        ensures given { Observed (Unit {0}) (Unit {0}) (self.new.seen.given ≡ self.old.seen.given) }
        ensures same { P.faults self.new.spawner ≡ P.faults self.old.spawner }
        ensures inner { Observed (P.tells self.new.spawner) (P.tells self.old.spawner)
            (P.given self.new.spawner ≡ P.given self.old.spawner) }
    {
        self.spawner.ended()
    }

    fn next(&mut self) -> Option<Started<W::Done>>
        ensures given { Observed (Unit {0}) (Unit {0}) (self.new.seen.given ≡ self.old.seen.given) }
        ensures same { P.faults self.new.spawner ≡ P.faults self.old.spawner }
        ensures inner { Observed (P.tells self.new.spawner) (P.tells self.old.spawner)
            (P.given self.new.spawner ≡ P.given self.old.spawner) }
    {
        self.spawner.next()
    }
}
