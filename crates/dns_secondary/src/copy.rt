//! A secondary's copy of a zone.

ghost use Rattle.std.specs.Prelude.{◌≡◌, None, max};
ghost use Rattle.dns_secondary.specs.Copies.{CopyState, checking, found_current, has_passed, interval_of, is_due, is_newer, is_obsolete, offered, pause_after, without_obsolete, woken};

use crate::timers::SoaTimers;
use dns_name::{IpAddr, Serial};
use std::cmp::Ordering;
use std::marker::Model;

/// For what a secondary waits.
#[derive(Clone, Copy)]
pub enum Pause {
    /// For nothing: a check is due.
    AtOnce,
    /// For REFRESH after a check.
    Refresh,
    /// For RETRY after a check that couldn't be completed.
    Retry,
}

/// How long it waits between checks if there is no copy, in seconds.
const WITHOUT_COPY: u64 = 60;

/// A secondary's copy of a zone: what its SOA record says, and when it is checked.
#[derive(Clone, Copy)]
pub struct ZoneCopy {
    primary: IpAddr,
    held: Option<SoaTimers>,
    current: u64,
    since: u64,
    pause: Pause,
}

impl Model for ZoneCopy {
    ghost use Rattle.dns_secondary.specs.Copies.{CopyState};

    ghost Value = { CopyState };

    ghost view = { λ c. record { primary = c.primary; held = c.held; current = c.current; since = c.since; pause = c.pause } };

    ghost inverse = { λ v. record { primary = v.primary; held = v.held; current = v.current; since = v.since; pause = v.pause } };
}

impl ZoneCopy {
    /// A copy of the zone of this primary, or none yet, which counts as current at a moment. A check is due at once.
    pub fn new(primary: IpAddr, held: Option<SoaTimers>, now: u64) -> ZoneCopy
        ensures { result ≡ record { primary = primary; held = held; current = now; since = now; pause = Pause.AtOnce } }
    {
        ZoneCopy {
            primary,
            held,
            current: now,
            since: now,
            pause: Pause::AtOnce,
        }
    }

    /// The address of the primary.
    pub fn primary(&self) -> IpAddr
        ensures { result ≡ self.now.primary }
    {
        self.primary
    }

    /// What the SOA record of the copy says, if there is a copy.
    pub fn held(&self) -> Option<SoaTimers>
        ensures { result ≡ self.now.held }
    {
        self.held
    }

    /// Whether the primary is to be asked for its SOA record.
    pub fn is_due(&self, now: u64) -> bool
        ensures { result ≡ is_due self.now now }
    {
        has_passed(interval_of(self.pause, &self.held), self.since, now)
    }

    /// Marks that a check begins. Until something comes of it, it counts as one that couldn't be completed.
    pub fn begin(&mut self, now: u64)
        ensures { self.new ≡ checking self.old now }
    {
        self.since = now;
        self.pause = Pause::Retry;
    }

    /// Whether a zone with this serial would replace the copy.
    pub fn is_newer(&self, serial: Serial) -> bool
        ensures { result ≡ is_newer self.now.held serial }
    {
        is_newer(&self.held, serial)
    }

    /// Marks that the copy was current at a moment.
    fn mark_current(&mut self, now: u64)
        ensures { self.new ≡ found_current self.old now }
    {
        self.current = now;
        self.since = now;
        self.pause = pause_after(self.pause);
    }

    /// Takes the SOA record of the zone that the primary has: it is the copy's from now on if its serial is newer, and
    /// else the copy is current. The result says which.
    pub fn offer(&mut self, offer: SoaTimers, now: u64) -> bool
        ensures newer { result ≡ is_newer self.old.held offer.serial }
        ensures copy { self.new ≡ offered self.old offer now }
    {
        let newer = self.is_newer(offer.serial);
        self.mark_current(now);
        if newer {
            self.held = Some(offer);
        }
        newer
    }

    /// Discards the copy if it is obsolete, and says whether it was.
    pub fn discard(&mut self, now: u64) -> bool
        ensures obsolete { result ≡ is_obsolete self.old.held self.old.current now }
        ensures copy { self.new ≡ without_obsolete self.old now }
    {
        let obsolete = is_obsolete(&self.held, self.current, now);
        if obsolete {
            self.held = None;
        }
        obsolete
    }

    /// Wakes the check of the zone: it is due at once.
    pub fn wake(&mut self)
        ensures { self.new ≡ woken self.old }
    {
        self.pause = Pause::AtOnce;
    }
}

/// Whether an interval, in seconds, has passed since a moment.
fn has_passed(interval: u64, since: u64, now: u64) -> bool
    ensures { result ≡ has_passed interval since now }
{
    now.saturating_sub(since) >= interval
}

/// How long it waits, in seconds.
fn interval_of(pause: Pause, held: &Option<SoaTimers>) -> u64
    ensures { result ≡ interval_of pause held.now }
{
    match held {
        None => match pause {
            Pause::AtOnce => 0,
            Pause::Refresh => WITHOUT_COPY,
            Pause::Retry => WITHOUT_COPY,
        },
        Some(timers) => match pause {
            Pause::AtOnce => 0,
            Pause::Refresh => u64::from(timers.refresh.max(1)),
            Pause::Retry => u64::from(timers.retry.max(1)),
        },
    }
}

/// What it waits for after a check that was completed.
fn pause_after(pause: Pause) -> Pause
    ensures { result ≡ pause_after pause }
{
    match pause {
        Pause::AtOnce => Pause::AtOnce,
        Pause::Refresh => Pause::Refresh,
        Pause::Retry => Pause::Refresh,
    }
}

/// Whether a serial is newer than that of a copy (RFC 1982, section 3.2).
fn is_newer(held: &Option<SoaTimers>, serial: Serial) -> bool
    ensures { result ≡ is_newer held.now serial }
{
    match held {
        None => true,
        Some(timers) => match serial.partial_cmp(&timers.serial) {
            Some(Ordering::Greater) => true,
            _ => false,
        },
    }
}

/// Whether a copy that was current at a moment is obsolete.
fn is_obsolete(held: &Option<SoaTimers>, current: u64, now: u64) -> bool
    ensures { result ≡ is_obsolete held.now current now }
{
    match held {
        None => false,
        Some(timers) => has_passed(u64::from(timers.expire), current, now),
    }
}
