//! The target of NOTIFY of a secondary.

ghost use Rattle.std.specs.Prelude.{◌≡◌, IfOk};
ghost use Rattle.dns_service.specs.declared.service.Polled.TheVariants.{Ready};
ghost use Rattle.dns_secondary_service.specs.Targets.{notify_verdict};

use dns_layers::{Notifiable, NotifyError, VerdictFuture};
use dns_name::{Class, IpAddr, Name, Serial};
use dns_secondary::{WatchedZone, woken_by};
use dns_service::{OutOfMemory, Polled};
use std::alloc::Global;
use std::sync::atomic::{AtomicBool, Ordering};

/// The zones that a server is secondary of. A NOTIFY from a zone's primary is taken and wakes the zone; each other one is
/// answered NOTAUTH.
#[derive(Drop)]
pub struct NotifyTarget {
    zones: Vec<WatchedZone>,
    woken: Vec<AtomicBool>,
}

impl NotifyTarget {
    /// A target for these zones, of which none is woken.
    pub fn new(alloc: Global, zones: Vec<WatchedZone>) -> Result<NotifyTarget, OutOfMemory>
        ensures { IfOk result (λ t. t.zones ≡ zones) }
    {
        let mut woken = Vec::new(alloc);
        for _ in zones.iter() {
            woken.push(AtomicBool::new(false))?;
        }
        Ok(NotifyTarget { zones, woken })
    }

    /// Whether a zone was woken since this was asked last. Of what another thread says a proof knows nothing, so no clause
    /// stands here.
    pub fn take_woken(&self, index: usize) -> bool {
        match self.woken.get(index) {
            Some(woken) => woken.swap(false, Ordering::SeqCst),
            None => false,
        }
    }

    /// Wakes a zone.
    fn wake(&self, index: usize) {
        if let Some(woken) = self.woken.get(index) {
            woken.store(true, Ordering::SeqCst);
        }
    }
}

/// A verdict that is there at once.
#[derive(Clone, Copy)]
pub struct Decided {
    verdict: Result<(), NotifyError>,
}

impl VerdictFuture for Decided {
    ghost verdict = { λ d _. Ready d.verdict };

    fn poll(&mut self, _: Global) -> Result<Polled<Result<(), NotifyError>>, OutOfMemory> {
        Ok(Polled::Ready(self.verdict))
    }
}

impl Notifiable for NotifyTarget {
    type Future = Decided;

    ghost verdict = { λ t class name _ source _. Ready (notify_verdict t.zones.items class name source) };

    fn notify_zone_changed(
        &self,
        _: Global,
        class: Class,
        apex_name: &Name,
        _: Option<Serial>,
        source: IpAddr,
    ) -> Result<Decided, OutOfMemory> {
        match woken_by(self.zones.as_slice(), class, apex_name, source) {
            Some(index) => {
                self.wake(index);
                Ok(Decided { verdict: Ok(()) })
            }
            None => Ok(Decided {
                verdict: Err(NotifyError::NotAuthForZone),
            }),
        }
    }
}
