//! The target of NOTIFY.

ghost use Rattle.std.specs.Prelude.{◌≡◌, IfOk};
ghost use Rattle.dns_service.specs.declared.service.Polled.TheVariants.{Ready};
ghost use Rattle.dns_secondary_service.specs.Targets.{notify_verdict};
ghost use Rattle.dns_zone_copies.specs.Targets.{watched_zones};

use crate::secondary::Secondary;
use dns_layers::{Notifiable, NotifyError, VerdictFuture};
use dns_name::{Class, IpAddr, Name, Serial};
use dns_secondary::{WatchedZone, woken_by};
use dns_service::{OutOfMemory, Polled};
use std::alloc::Global;
use std::sync::Arc;
use std::sync::atomic::{AtomicBool, Ordering};

/// The zones that a server is secondary of. A NOTIFY from a zone's primary is taken and wakes the zone; each other one is
/// answered NOTAUTH. The mark that wakes a zone is its secondary's, so that it stays where another target takes this one's place.
#[derive(Drop)]
pub struct CopiesTarget {
    zones: Vec<WatchedZone>,
    marks: Vec<Arc<AtomicBool>>,
}

impl CopiesTarget {
    /// The target for some secondaries.
    pub(crate) fn of(alloc: Global, secondaries: &[Secondary]) -> Result<CopiesTarget, OutOfMemory>
        ensures { IfOk result (λ t. t.zones.items ≡ watched_zones secondaries.now) }
    {
        let zones = watched(alloc, secondaries)?;
        let mut marks = Vec::new(alloc);
        for secondary in secondaries {
            marks.push(Arc::try_clone(secondary.mark())?)?;
        }
        Ok(CopiesTarget { zones, marks })
    }

    /// Wakes a zone.
    fn wake(&self, index: usize) {
        if let Some(mark) = self.marks.get(index) {
            mark.store(true, Ordering::SeqCst);
        }
    }
}

/// The zones of some secondaries, and their primaries.
fn watched(alloc: Global, secondaries: &[Secondary]) -> Result<Vec<WatchedZone>, OutOfMemory>
    ensures { IfOk result (λ zones. zones.items ≡ watched_zones secondaries.now) }
{
    let mut zones = Vec::new(alloc);
    'each: for secondary in secondaries {
        zones.push(secondary.watched(alloc)?)?;
    }
    Ok(zones)
}

/// A verdict that is there at once.
#[derive(Clone, Copy)]
pub struct Decided {
    verdict: Result<(), NotifyError>,
}

impl VerdictFuture for Decided {
    ghost verdict = { λ d _. Ready d.verdict };

    fn poll(&mut self, _: Global) -> Result<Polled<Result<(), NotifyError>>, OutOfMemory> {
        Ok(Polled::Ready(self.verdict))
    }
}

impl Notifiable for CopiesTarget {
    type Future = Decided;

    ghost verdict = { λ t class name _ source _. Ready (notify_verdict t.zones.items class name source) };

    fn notify_zone_changed(
        &self,
        _: Global,
        class: Class,
        apex_name: &Name,
        _: Option<Serial>,
        source: IpAddr,
    ) -> Result<Decided, OutOfMemory> {
        match woken_by(self.zones.as_slice(), class, apex_name, source) {
            Some(index) => {
                self.wake(index);
                Ok(Decided { verdict: Ok(()) })
            }
            None => Ok(Decided {
                verdict: Err(NotifyError::NotAuthForZone),
            }),
        }
    }
}
