//! The serials that were announced.

ghost use Rattle.std.specs.Prelude.{◌≡◌, IfOk, OnOk, Some, option_map};
ghost use Rattle.std.specs.Arc.{arc_value};
ghost use Rattle.dns_notifier.specs.Announced.{key_shared, known_serials};

use crate::known::{Known, has_serial, known_serials, place_of, serial_of};
use crate::pending::{Moment, NotifyState, PendingNotify};
use anyhow::bail;
use dns_config::{Config, KeyName, ZoneEntry};
use dns_generation::ZoneSummary;
use dns_name::{Name, SocketAddr};
use dns_peer_keys::{Key, PeerKeys};
use dns_socket_addr::{SocketAddrText, same_socket_addr};
use log::{Log, error, info};
use std::alloc::Global;
use std::collections::VecDeque;
use std::mem;
use std::net::Net;
use std::random::RandomSource;
use std::rt::Clock;
use std::sync::Arc;

/// How many NOTIFYs are on their way at once.
const MOST_PENDING: usize = 20;

/// A zone, an address to which the NOTIFY of its new serial is to be sent, and the key that is shared with it, if any.
#[derive(Drop)]
struct Announcement {
    apex: Name,
    to: SocketAddr,
    key: Option<Arc<Key>>,
}

/// The moment in milliseconds, and the seconds since 1970.
fn read_moment<R: Clock>(rt: &R, millis: u64) -> anyhow::Result<Moment> {
    let secs = rt.since_1970()?.as_secs();
    Ok(Moment { millis, secs })
}

/// The key of a name, if one is named.
fn key_of(keys: &PeerKeys, named: &Option<KeyName>) -> anyhow::Result<Option<Arc<Key>>>
    ensures { IfOk result (λ key. key_shared keys.now named.now ≡ Some (option_map arc_value key)) }
{
    match named {
        Some(named) => match keys.get(&named.name) {
            Some((_, key)) => Ok(Some(Arc::try_clone(key)?)),
            None => bail!("no key has the name {}", named.name),
        },
        None => Ok(None),
    }
}

/// The serials that were announced, the announcements that wait, and those that weren't answered yet.
#[derive(Drop)]
pub struct Notifier {
    known: Vec<Known>,
    waiting: VecDeque<Announcement>,
    pending: Vec<PendingNotify>,
}

impl Notifier {
    /// Nothing was announced yet.
    pub fn new(alloc: Global) -> Notifier {
        Notifier {
            known: Vec::new(alloc),
            waiting: VecDeque::new(alloc),
            pending: Vec::new(alloc),
        }
    }

    /// Whether the announcement of a zone to an address waits.
    fn is_waiting(&self, apex: &Name, to: SocketAddr) -> bool {
        for other in self.waiting.iter() {
            if same_socket_addr(other.to, to) && other.apex == *apex {
                return true;
            }
        }
        false
    }

    /// Puts the announcements of a zone after those that wait, unless they wait already.
    fn announce(
        &mut self,
        alloc: Global,
        keys: &PeerKeys,
        entry: &ZoneEntry,
    ) -> anyhow::Result<()> {
        let apex = &entry.name.name;
        // For a zone that is announced for the first time nothing waits.
        let is_first = self.known.is_empty();
        for peer in entry.notify.iter() {
            let to = peer.address;
            if is_first || !self.is_waiting(apex, to) {
                let key = key_of(keys, &peer.key)?;
                let apex = apex.try_clone(alloc)?;
                self.waiting.push_back(Announcement { apex, to, key })?;
            }
        }
        Ok(())
    }

    /// Announces the zones that are served with another serial than before. What was known stays.
    fn announce_changes(
        &mut self,
        alloc: Global,
        config: &Config,
        keys: &PeerKeys,
        summaries: &[ZoneSummary],
    ) -> anyhow::Result<()> {
        let mut next = 0;
        for (entry, summary) in config.zone.iter().zip(summaries.iter()) {
            if let Some(serial) = serial_of(summary) {
                let place = place_of(self.known.as_slice(), next, &entry.name.name);
                if let Some(place) = place {
                    next = place.saturating_add(1);
                }
                if !has_serial(self.known.as_slice(), place, serial) {
                    self.announce(alloc, keys, entry)?;
                }
            }
        }
        Ok(())
    }

    /// Announces each zone of a configuration that is served with another serial than before. The summaries are those of its
    /// zones, in their order. Each is signed under the key that its address shares, if any.
    pub fn tell_changes(
        &mut self,
        alloc: Global,
        config: &Config,
        keys: &PeerKeys,
        summaries: &[ZoneSummary],
    ) -> anyhow::Result<()>
        ensures { OnOk result (self.new.known.items ≡ known_serials config.now.zone.items summaries.now) }
    {
        let known = known_serials(alloc, config.zone.as_slice(), summaries)?;
        self.announce_changes(alloc, config, keys, summaries)?;
        self.known = known;
        Ok(())
    }

    /// Sends an announcement.
    fn send<R: Net + RandomSource + Log>(
        &mut self,
        rt: &R,
        alloc: Global,
        announcement: Announcement,
        now: Moment,
    ) -> anyhow::Result<()> {
        let Announcement { apex, to, key } = announcement;
        info!(rt; "{apex}: NOTIFY to {}", SocketAddrText(to));
        let notify = PendingNotify::begin(rt, alloc, apex, to, key, now)?;
        self.pending.push(notify)?;
        Ok(())
    }

    /// Sends the announcements that wait, in order, while there is room for them.
    fn send_waiting<R: Net + RandomSource + Log>(
        &mut self,
        rt: &R,
        alloc: Global,
        now: Moment,
    ) -> anyhow::Result<()> {
        let room = MOST_PENDING.saturating_sub(self.pending.len());
        for _ in 0..room {
            match self.waiting.pop_front() {
                Some(announcement) => self.send(rt, alloc, announcement, now)?,
                None => return Ok(()),
            }
        }
        Ok(())
    }

    /// Takes the answers that came, and sends again what wasn't answered.
    fn hear<R: Net + Log>(&mut self, rt: &R, alloc: Global, now: Moment) -> anyhow::Result<()> {
        let pending = mem::replace(&mut self.pending, Vec::new(alloc));
        for notify in pending {
            let mut notify = notify;
            match notify.look(rt, alloc, now)? {
                NotifyState::Waiting => self.pending.push(notify)?,
                NotifyState::Answered(code) => {
                    let to = SocketAddrText(notify.to);
                    info!(rt; "{}: NOTIFY was answered by {to} with code {code}", notify.apex);
                }
                NotifyState::NotTaken(fault) => {
                    let to = SocketAddrText(notify.to);
                    error!(rt; "{}: NOTIFY to {to}: {fault}", notify.apex);
                    self.pending.push(notify)?;
                }
                NotifyState::GaveUp => {
                    let to = SocketAddrText(notify.to);
                    error!(rt; "{}: NOTIFY wasn't answered by {to}", notify.apex);
                }
            }
        }
        Ok(())
    }

    /// Takes the answers that came, and sends again what wasn't answered. Sends the announcements that wait, as many as may be on
    /// their way at once. An answer to what was signed has to verify.
    pub fn look<R: Net + RandomSource + Log + Clock>(
        &mut self,
        rt: &R,
        alloc: Global,
        now: u64,
    ) -> anyhow::Result<()> {
        let now = read_moment(rt, now)?;
        self.hear(rt, alloc, now)?;
        self.send_waiting(rt, alloc, now)
    }
}
