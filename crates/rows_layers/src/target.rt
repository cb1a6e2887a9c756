//! A target of notifications for rows, which is pending some times.

ghost use Rattle.std.specs.Prelude.{nat_lt, if◌then◌else◌};
ghost use Rattle.dns_service.specs.declared.service.Polled.TheVariants.{Pending, Ready};

use dns_middleware::{Notifiable, NotifyError, VerdictFuture};
use dns_name::{Class, IpAddr, Name, Serial};
use dns_service::{OutOfMemory, Polled};
use rows_table::{Row, RowError};
use std::alloc::Global;

/// Gives the same verdict on each zone, and is pending that many times before.
#[derive(Clone, Copy, Debug)]
pub(crate) struct Target {
    waits: u8,
    verdict: Result<(), NotifyError>,
}

impl Target {
    /// The target of the next words: how often it is pending, and `ok`, `notauth` or `other`.
    pub(crate) fn next(row: &mut Row<'_>) -> Target {
        Target {
            waits: row.number(),
            verdict: match row.word() {
                "ok" => Ok(()),
                "notauth" => Err(NotifyError::NotAuthForZone),
                "other" => Err(NotifyError::Other),
                _ => Ok(row.fail(RowError::OutOfForm)),
            },
        }
    }
}

impl Notifiable for Target {
    type Future = Target;

    ghost verdict = { λ t _ _ _ _ k. if nat_lt k t.waits then Pending else Ready t.verdict };

    fn notify_zone_changed(
        &self,
        _alloc: Global,
        _class: Class,
        _apex_name: &Name,
        _serial: Option<Serial>,
        _source: IpAddr,
    ) -> Result<Target, OutOfMemory> {
        Ok(*self)
    }
}

impl VerdictFuture for Target {
    ghost verdict = { λ t k. if nat_lt k t.waits then Pending else Ready t.verdict };

    fn poll(&mut self, _alloc: Global) -> Result<Polled<Result<(), NotifyError>>, OutOfMemory> {
        match self.waits.checked_sub(1) {
            Some(waits) => {
                self.waits = waits;
                Ok(Polled::Pending)
            }
            None => Ok(Polled::Ready(self.verdict)),
        }
    }
}

impl Target {
    /// A target that is authoritative for nothing, at once.
    pub(crate) fn refusing() -> Target {
        Target {
            waits: 0,
            verdict: Err(NotifyError::NotAuthForZone),
        }
    }
}
