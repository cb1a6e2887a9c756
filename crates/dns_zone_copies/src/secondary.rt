//! Zones that the server is secondary of.

ghost use Rattle.std.specs.Prelude.{◌≡◌, ◌&&◌, true, IfOk, OnErr, OnOk, is_none, is_some, option_map, string_bytes};
ghost use Rattle.std.specs.Arc.{arc_value};
ghost use Rattle.std.specs.Bool.{OnFalse, OnTrue};
ghost use Rattle.std.specs.Str.{bytes_eq};
ghost use Rattle.dns_name.specs.Canonical.{same_name};
ghost use Rattle.dns_secondary.specs.Copies.{checking, is_newer, is_obsolete, without_obsolete, woken};
ghost use Rattle.dns_socket_addr.specs.SocketAddresses.{same_socket_addr};
ghost use Rattle.dns_zone_copies.specs.Looking.{LooksAt, MayBeOffered, MayBeWoken, MayBegin};
ghost use Rattle.dns_zone_copies.specs.Secondaries.{Takes, begun, copy_followed, followed, is_entry_of, is_held, lacks_copy, passed_over, same_timers, with_offer};

use crate::check::{Check, Checked};
use crate::checking::Checking;
use crate::copy_file;
use crate::primary::connect;
use dns_config::ZoneEntry;
use dns_name::{Name, OutOfMemory, SocketAddr};
use dns_peer_keys::Key;
use dns_secondary::{SoaTimers, WatchedZone, ZoneCopy};
use dns_socket_addr::{SocketAddrText, same_socket_addr};
use log::{Log, error, info, warn};
use std::alloc::{AllocError, Global};
use std::fmt::Write;
use std::marker::Model;
use std::net::Net;
use std::rt::{Clock, Files};
use std::sync::Arc;
use std::sync::atomic::{AtomicBool, Ordering};
use std::thread::Threads;

mod line;

/// How long a check may take, in seconds.
const LONGEST_CHECK: u64 = 600;

/// A zone that the server is secondary of, and its copy.
#[derive(Drop)]
pub struct Secondary {
    apex: Name,
    primary: SocketAddr,
    /// The key that is shared with the primary.
    key: Option<Arc<Key>>,
    file: String,
    copy: ZoneCopy,
    /// Set by each NOTIFY of the zone, until it is looked at.
    mark: Arc<AtomicBool>,
    /// The check that is going on. It is shared while another configuration is followed.
    checking: Option<Arc<Checking>>,
}

impl Model for Secondary {
    ghost use Rattle.std.specs.Prelude.{option_map, string_bytes};
    ghost use Rattle.std.specs.Arc.{arc_value};
    ghost use Rattle.dns_zone_copies.specs.Secondaries.{SecondaryState};

    ghost Value = { SecondaryState };

    ghost view = { λ s. record {
      apex = s.apex;
      primary = s.primary;
      key = option_map arc_value s.key;
      file = string_bytes s.file;
      copy = s.copy;
    } };
}

/// Whether an entry of the configuration is of a zone with this apex and this primary.
fn is_entry_of(entry: &ZoneEntry, apex: &Name, primary: SocketAddr) -> bool
    ensures { result ≡ is_entry_of entry.now.primary entry.now.name.name apex.now primary }
{
    match &entry.primary {
        Some(peer) => entry.name.name == *apex && same_socket_addr(peer.address, primary),
        None => false,
    }
}

/// A key, shared once more.
fn shared_key(key: &Option<Arc<Key>>) -> Result<Option<Arc<Key>>, OutOfMemory>
    ensures { IfOk result (λ shared. option_map arc_value shared ≡ option_map arc_value key.now) }
{
    match key {
        Some(key) => Ok(Some(Arc::try_clone(key)?)),
        None => Ok(None),
    }
}

/// Whether two SOA records say equal things of copies.
fn same_timers(one: SoaTimers, other: SoaTimers) -> bool
    ensures { result ≡ same_timers one other }
{
    one.serial.into_int() == other.serial.into_int()
        && one.refresh == other.refresh
        && one.retry == other.retry
        && one.expire == other.expire
}

/// A check, shared once more.
fn shared(checking: &Option<Arc<Checking>>) -> Result<Option<Arc<Checking>>, OutOfMemory> {
    match checking {
        Some(checking) => Ok(Some(Arc::try_clone(checking)?)),
        None => Ok(None),
    }
}

/// A check that is shared no more.
fn unshared(checking: Option<Arc<Checking>>) -> Option<Checking> {
    match checking {
        Some(checking) => Arc::into_inner(checking),
        None => None,
    }
}

impl Secondary {
    /// The secondary of an entry that has this primary, with which a key may be shared. It begins with the copy that is served,
    /// which was current at a moment.
    pub(crate) fn new(
        alloc: Global,
        entry: &ZoneEntry,
        primary: SocketAddr,
        key: Option<Arc<Key>>,
        served: Option<SoaTimers>,
        current: u64,
    ) -> Result<Secondary, OutOfMemory>
        ensures { IfOk result
            (λ s. s ≡ begun entry.now.name.name primary (option_map arc_value key) (string_bytes entry.now.file) served current) }
    {
        let file = String::from_str(alloc, entry.file.as_str())?;
        Ok(Secondary {
            apex: entry.name.name.try_clone(alloc)?,
            primary,
            key,
            file,
            copy: ZoneCopy::new(primary.ip, served, current),
            mark: Arc::new(alloc, AtomicBool::new(false))?,
            checking: None,
        })
    }

    /// The same zone with its copy, its check and its mark, which are shared.
    pub(crate) fn again(&self, alloc: Global) -> Result<Secondary, OutOfMemory>
        ensures { IfOk result (λ s. s ≡ self.now) }
    {
        let file = String::from_str(alloc, self.file.as_str())?;
        Ok(Secondary {
            apex: self.apex.try_clone(alloc)?,
            primary: self.primary,
            key: shared_key(&self.key)?,
            file,
            copy: self.copy,
            mark: Arc::try_clone(&self.mark)?,
            checking: shared(&self.checking)?,
        })
    }

    /// Whether it is the secondary of an entry: of its name, with its primary.
    pub fn is_of(&self, entry: &ZoneEntry) -> bool
        ensures { result ≡ is_entry_of entry.now.primary entry.now.name.name self.now.apex self.now.primary }
    {
        is_entry_of(entry, &self.apex, self.primary)
    }

    /// Whether there is a copy.
    pub fn has_copy(&self) -> bool
        ensures { result ≡ is_some self.now.copy.held }
    {
        self.copy.held().is_some()
    }

    /// Whether it is the secondary of an entry, and has no copy in the entry's file.
    pub fn lacks_copy_of(&self, entry: &ZoneEntry) -> bool
        ensures { result ≡ lacks_copy entry.now.primary entry.now.name.name (string_bytes entry.now.file) self.now }
    {
        self.is_of(entry) && entry.file.as_str() == self.file.as_str() && self.copy.held().is_none()
    }

    /// Whether these are what the SOA record of the copy says.
    pub(crate) fn is_held(&self, timers: SoaTimers) -> bool
        ensures { result ≡ is_held self.now.copy.held timers }
    {
        match self.copy.held() {
            Some(held) => same_timers(held, timers),
            None => false,
        }
    }

    /// What each NOTIFY of the zone sets.
    pub(crate) fn mark(&self) -> &Arc<AtomicBool> {
        &self.mark
    }

    /// Whether a check is going on.
    pub(crate) fn is_checking(&self) -> bool {
        self.checking.is_some()
    }

    /// The zone and its primary, for NOTIFY.
    pub(crate) fn watched(&self, alloc: Global) -> Result<WatchedZone, OutOfMemory>
        ensures { IfOk result (λ w. w ≡ record { apex = self.now.apex; primary = self.now.primary.ip }) }
    {
        Ok(WatchedZone {
            apex: self.apex.try_clone(alloc)?,
            primary: self.primary.ip,
        })
    }

    /// The check that is going on, unless it is shared with one that goes on with the zone.
    pub(crate) fn into_checking(self) -> Option<Checking> {
        unshared(self.checking)
    }

    /// Wakes the check of the copy.
    fn wake<R: Log>(&mut self, rt: &R)
        ensures { self.new ≡ record self.old { copy = woken self.old.copy } }
    {
        info!(rt; "{}: NOTIFY from its primary", self.apex);
        self.copy.wake();
    }

    /// Wakes the check of the copy, if a NOTIFY came since this was asked last.
    fn wake_marked<R: Log>(&mut self, rt: &R)
        ensures { MayBeWoken self.old self.new }
    {
        if self.mark.swap(false, Ordering::SeqCst) {
            self.wake(rt);
        }
    }

    /// Goes on to the copy that is served, which was current at a moment.
    fn follow_copy(&mut self, served: Option<SoaTimers>, current: u64, now: u64)
        ensures { self.new ≡ record self.old { copy = copy_followed self.old.primary.ip self.old.copy served current now } }
    {
        match served {
            Some(timers) => {
                if !self.is_held(timers) {
                    self.copy = ZoneCopy::new(self.primary.ip, served, current);
                }
            }
            None => {
                if self.has_copy() {
                    self.copy = ZoneCopy::new(self.primary.ip, None, now);
                    self.copy.begin(now);
                }
            }
        }
    }

    /// Goes on to the file of an entry, to a key, and to the copy that is served, which was current at a moment.
    pub(crate) fn follow(
        &mut self,
        alloc: Global,
        entry: &ZoneEntry,
        key: Option<Arc<Key>>,
        served: Option<SoaTimers>,
        current: u64,
        now: u64,
    ) -> Result<(), OutOfMemory>
        ensures ok { OnOk result
            (self.new ≡ followed self.old (option_map arc_value key) (string_bytes entry.now.file) served current now) }
        ensures err { OnErr result (self.new ≡ self.old) }
    {
        self.file = String::from_str(alloc, entry.file.as_str())?;
        self.key = key;
        self.follow_copy(served, current, now);
        Ok(())
    }

    /// Whether the file of a copy that came was written. What keeps it from that is logged.
    fn is_kept<R: Files + Log>(&self, rt: &R, alloc: Global, serial: u32, text: &[u8]) -> bool {
        let file = self.file.as_str();
        match copy_file::write(rt, alloc, file, text) {
            Ok(()) => {
                let primary = SocketAddrText(self.primary);
                info!(rt; "{}: serial {serial} was transferred from {primary}", self.apex);
                true
            }
            Err(fault) => {
                error!(rt; "{}: {file}: {fault:#}", self.apex);
                false
            }
        }
    }

    /// Marks in its file that the copy is current. What keeps it from that is logged.
    fn keep_current<R: Files + Clock + Log>(&self, rt: &R) {
        let file = self.file.as_str();
        if let Err(fault) = copy_file::mark_current(rt, file) {
            warn!(rt; "{}: {file}: {fault:#}", self.apex);
        }
    }

    /// Takes a copy that came. Whether it is served from now on: one whose serial isn't newer is left.
    fn take_copy<R: Files + Log>(
        &mut self,
        rt: &R,
        alloc: Global,
        timers: SoaTimers,
        text: &[u8],
        now: u64,
    ) -> bool
        ensures newer { OnTrue result (is_newer self.old.copy.held timers.serial ≡ true) }
        ensures taken { OnTrue result (self.new ≡ with_offer self.old timers now) }
        ensures left { OnFalse result (self.new ≡ passed_over self.old timers now) }
    {
        let serial = timers.serial.into_int();
        if self.copy.is_newer(timers.serial) && !self.is_kept(rt, alloc, serial, text) {
            return false;
        }
        self.copy.offer(timers, now)
    }

    /// Takes what the SOA record of the primary says of a copy that is current. Whether another copy is served from now on.
    fn take_current<R: Files + Clock + Log>(&mut self, rt: &R, timers: SoaTimers, now: u64) -> bool
        ensures newer { result ≡ is_newer self.old.copy.held timers.serial }
        ensures copy { self.new ≡ with_offer self.old timers now }
    {
        self.keep_current(rt);
        self.copy.offer(timers, now)
    }

    /// Takes what came of a check. Whether another copy is served from now on.
    fn take<R: Files + Clock + Log>(
        &mut self,
        rt: &R,
        alloc: Global,
        checked: Result<Checked, String>,
        now: u64,
    ) -> bool
        ensures { Takes checked self.old self.new now result }
    {
        match checked {
            Ok(Checked::Current(timers)) => self.take_current(rt, timers, now),
            Ok(Checked::Came(timers, text)) => {
                self.take_copy(rt, alloc, timers, text.as_slice(), now)
            }
            Err(fault) => {
                let primary = SocketAddrText(self.primary);
                error!(rt; "{}: {primary}: {}", self.apex, fault.as_str());
                false
            }
        }
    }

    /// The check that has ended, if one has.
    fn take_check(&mut self) -> Option<Checking>
        ensures { self.new ≡ self.old }
    {
        let ended = match &self.checking {
            Some(checking) => checking.has_ended(),
            None => false,
        };
        if ended {
            return unshared(self.checking.take());
        }
        None
    }

    /// Takes what came of a check that has ended. Whether another copy is served from now on.
    fn take_ended<R: Files + Clock + Log + Threads>(
        &mut self,
        rt: &R,
        alloc: Global,
        now: u64,
    ) -> bool
        ensures { MayBeOffered now self.old self.new result }
    {
        match self.take_check() {
            Some(checking) => {
                let checked = checking.join(rt);
                self.take(rt, alloc, checked, now)
            }
            None => false,
        }
    }

    /// Begins a check.
    fn begin<R: Net + Threads + Clock + Copy + Send + 'static>(
        &mut self,
        rt: &R,
        alloc: Global,
        now: u64,
    ) -> anyhow::Result<()>
        ensures { self.new ≡ record self.old { copy = checking self.old.copy now } }
    {
        self.copy.begin(now);
        let check = Check {
            apex: self.apex.try_clone(alloc)?,
            stream: connect(rt, self.primary)?,
            key: shared_key(&self.key)?,
            copy: self.copy,
            stop: Arc::new(alloc, AtomicBool::new(false))?,
        };
        let deadline = now.saturating_add(LONGEST_CHECK);
        self.checking = Some(Checking::start(rt, alloc, check, deadline)?);
        Ok(())
    }

    /// Discards the copy if it is obsolete. Whether it was.
    pub(crate) fn discard<R: Log>(&mut self, rt: &R, now: u64) -> bool
        ensures obsolete { result ≡ is_obsolete self.old.copy.held self.old.copy.current now }
        ensures copy { self.new ≡ record self.old { copy = without_obsolete self.old.copy now } }
    {
        let obsolete = self.copy.discard(now);
        if obsolete {
            error!(rt; "{}: EXPIRE has passed; the copy is discarded", self.apex);
        }
        obsolete
    }

    /// Begins a check that is due, unless one is going on. That it can't be begun is logged. Whether one was begun.
    pub(crate) fn begin_due<R: Net + Log + Threads + Clock + Copy + Send + 'static>(
        &mut self,
        rt: &R,
        alloc: Global,
        now: u64,
    ) -> bool
        ensures { MayBegin now self.old self.new }
    {
        if self.checking.is_some() || !self.copy.is_due(now) {
            return false;
        }
        if let Err(fault) = self.begin(rt, alloc, now) {
            error!(rt; "{}: {fault:#}", self.apex);
        }
        self.checking.is_some()
    }

    /// Takes what came of a NOTIFY and of a check, discards an obsolete copy, and gives a check up that takes too long. Whether
    /// another copy, or none, is served from now on.
    pub(crate) fn look<R: Files + Clock + Log + Threads>(
        &mut self,
        rt: &R,
        alloc: Global,
        now: u64,
    ) -> bool
        ensures { LooksAt now self.old self.new result }
    {
        self.wake_marked(rt);
        let came = self.take_ended(rt, alloc, now);
        let went = self.discard(rt, now);
        if let Some(checking) = &self.checking {
            checking.give_up_late(now);
        }
        came || went
    }
}
