//! The copies of all zones that a server is secondary of.

ghost use Rattle.std.specs.Prelude.{◌≡◌, ◌≤◌, ◌<◌, ◌++◌, [], IfOk, IfSome, OnErr, OnOk, Some, length, map, option_map, string_bytes};
ghost use Rattle.std.specs.Arc.{arc_value};
ghost use Rattle.std.specs.List.{AllZip, list_any};
ghost use Rattle.std.specs.Option.{option_to_list};
ghost use Rattle.dns_zone_copies.specs.Following.{Follows, HasSecondary};
ghost use Rattle.dns_zone_copies.specs.Looking.{Looks, LooksAtAll, MayBegin, has_obsolete_copy, without_obsolete_copy};
ghost use Rattle.dns_zone_copies.specs.Reporting.{Reports};
ghost use Rattle.dns_zone_copies.specs.Secondaries.{continued, key_shared};
ghost use Rattle.dns_zone_copies.specs.Targets.{watched_zones};

use crate::before::Before;
use crate::checking::Checking;
use crate::copy_file;
use crate::secondary::Secondary;
use crate::target::CopiesTarget;
use anyhow::bail;
use dns_config::{Config, KeyName, ZoneEntry};
use dns_generation::ZoneSummary;
use dns_name::{OutOfMemory, SocketAddr};
use dns_peer_keys::{Key, PeerKeys};
use dns_secondary::SoaTimers;
use log::Log;
use std::alloc::{AllocError, Global};
use std::mem;
use std::net::Net;
use std::rt::{Clock, Files};
use std::sync::Arc;
use std::thread::Threads;

/// How many checks are going on at once.
const MOST_CHECKS: usize = 10;

/// The zones that the server is secondary of, and what wakes their checks.
#[derive(Drop)]
pub struct Copies {
    secondaries: Vec<Secondary>,
    target: Arc<CopiesTarget>,
    /// Checks of zones that are no longer configured.
    leaving: Vec<Checking>,
    /// The place of the secondary whose check is begun next, if it is due.
    next: usize,
}

/// The key of a name, if one is named.
fn key_of(keys: &PeerKeys, named: &Option<KeyName>) -> anyhow::Result<Option<Arc<Key>>>
    ensures { IfOk result (λ key. key_shared keys.now named.now ≡ Some (option_map arc_value key)) }
{
    match named {
        Some(named) => match keys.get(&named.name) {
            Some((_, key)) => Ok(Some(Arc::try_clone(key)?)),
            None => bail!("no key has the name {}", named.name),
        },
        None => Ok(None),
    }
}

/// The secondary of an entry with a primary: the one that was there before, if it was, and else a new one. What is served was
/// current at a moment.
fn continued(
    alloc: Global,
    before: Option<Secondary>,
    entry: &ZoneEntry,
    primary: SocketAddr,
    key: Option<Arc<Key>>,
    served: Option<SoaTimers>,
    current: u64,
    now: u64,
) -> Result<Secondary, OutOfMemory>
    ensures { IfOk result (λ s. s ≡ continued before entry.now.name.name primary (option_map arc_value key)
        (string_bytes entry.now.file) served current now) }
{
    match before {
        Some(mut secondary) => {
            secondary.follow(alloc, entry, key, served, current, now)?;
            Ok(secondary)
        }
        None => Secondary::new(alloc, entry, primary, key, served, current),
    }
}

/// The secondary of an entry, if that has a primary. It goes on with what was known of the zone before.
fn secondary_of<R: Files + Clock>(
    rt: &R,
    alloc: Global,
    before: &mut Before<'_>,
    entry: &ZoneEntry,
    keys: &PeerKeys,
    served: Option<SoaTimers>,
    now: u64,
) -> anyhow::Result<Option<Secondary>>
    ensures secondary { IfOk result (HasSecondary before.old.zones.now keys.now entry.now entry.now.primary served now) }
    ensures before { before.new.zones.now ≡ before.old.zones.now }
{
    let primary = match &entry.primary {
        Some(primary) => primary,
        None => return Ok(None),
    };
    let key = key_of(keys, &primary.key)?;
    let found = before.known_of(alloc, entry)?;
    let current = copy_file::current(rt, entry.file.as_str(), now);
    let secondary = continued(
        alloc,
        found,
        entry,
        primary.address,
        key,
        served,
        current,
        now,
    )?;
    Ok(Some(secondary))
}

/// Puts a secondary, if there is one, after others.
fn put(secondaries: &mut Vec<Secondary>, secondary: Option<Secondary>) -> Result<(), OutOfMemory>
    ensures { OnOk result (secondaries.new.items ≡ secondaries.old.items ++ option_to_list secondary) }
{
    if let Some(secondary) = secondary {
        secondaries.push(secondary)?;
    }
    Ok(())
}

/// The secondaries of a configuration's zones with these keys and summaries. Those that were there before go on.
fn follow_all<R: Files + Clock>(
    rt: &R,
    alloc: Global,
    zones: &[Secondary],
    config: &Config,
    keys: &PeerKeys,
    summaries: &[ZoneSummary],
    now: u64,
) -> anyhow::Result<Vec<Secondary>>
    ensures { IfOk result (λ after. Follows zones.now keys.now config.now.zone.items summaries.now now after.items) }
{
    let mut secondaries = Vec::new(alloc);
    let mut before = Before::new(zones);
    let mut left = summaries;
    'each: for entry in config.zone.iter() {
        let (summary, later) = match left.split_first() {
            Some(both) => both,
            None => return Ok(secondaries),
        };
        let served = summary.timers;
        let secondary = secondary_of(rt, alloc, &mut before, entry, keys, served, now)?;
        put(&mut secondaries, secondary)?;
        left = later;
    }
    Ok(secondaries)
}

/// The target of NOTIFY for some zones.
fn target_of(alloc: Global, secondaries: &[Secondary]) -> Result<Arc<CopiesTarget>, OutOfMemory>
    ensures { IfOk result (λ t. (arc_value t).zones.items ≡ watched_zones secondaries.now) }
{
    let target = CopiesTarget::of(alloc, secondaries)?;
    Ok(Arc::new(alloc, target)?)
}

/// Looks at each copy. Whether another one, or none, is served from now on.
fn look_at_all<R: Files + Clock + Log + Threads>(
    rt: &R,
    alloc: Global,
    secondaries: &mut [Secondary],
    now: u64,
) -> bool
    ensures { LooksAtAll now secondaries.old secondaries.new result }
{
    let mut changed = false;
    'each: for secondary in secondaries.iter_mut() {
        let looked = secondary.look(rt, alloc, now);
        changed = changed || looked;
    }
    changed
}

/// Discards the copies that are obsolete. Whether there were any.
fn discard_all<R: Log>(rt: &R, secondaries: &mut [Secondary], now: u64) -> bool
    ensures lost { result ≡ list_any (has_obsolete_copy now) secondaries.old }
    ensures secondaries { secondaries.new ≡ map (without_obsolete_copy now) secondaries.old }
{
    let mut any = false;
    'each: for secondary in secondaries.iter_mut() {
        let lost = secondary.discard(rt, now);
        any = any || lost;
    }
    any
}

/// Begins checks that are due, in order, while there is room for them: how many secondaries were looked at, and how much room is
/// left.
fn begin_checks<R: Net + Log + Threads + Clock + Copy + Send + 'static>(
    rt: &R,
    alloc: Global,
    secondaries: &mut [Secondary],
    room: usize,
    now: u64,
) -> (usize, usize)
    ensures room { result.1 ≤ room }
    ensures begun { AllZip (MayBegin now) secondaries.old secondaries.new }
{
    let mut left = room;
    let count = secondaries.len();
    'each: for (place, secondary) in secondaries.iter_mut().enumerate() {
        if left == 0 {
            return (place, 0);
        }
        if secondary.begin_due(rt, alloc, now) {
            left -= 1;
        }
    }
    (count, left)
}

/// Begins checks that are due, from a place on and then from the first, while there is room for them. The place of the next one.
fn begin_from<R: Net + Log + Threads + Clock + Copy + Send + 'static>(
    rt: &R,
    alloc: Global,
    secondaries: &mut [Secondary],
    place: usize,
    room: usize,
    now: u64,
) -> usize
    ensures { AllZip (MayBegin now) secondaries.old secondaries.new }
{
    let place = place.min(secondaries.len());
    let (first, last) = secondaries.split_at_mut(place);
    let (count, left) = begin_checks(rt, alloc, last, room, now);
    if left == 0 {
        return place.saturating_add(count);
    }
    let (count, _) = begin_checks(rt, alloc, first, left, now);
    count
}

/// The place of a check that has ended.
fn ended_place(leaving: &[Checking]) -> Option<usize>
    ensures { IfSome result (λ place. place < length leaving.now) }
{
    leaving.iter().position(|checking| checking.has_ended())
}

/// How many checks are going on.
fn count_checks(secondaries: &[Secondary]) -> usize {
    secondaries
        .iter()
        .filter(|secondary| secondary.is_checking())
        .count()
}

/// Gives up the checks of zones that are no longer configured, and puts them after those that leave, where there is room for them.
fn leave(leaving: &mut Vec<Checking>, before: Vec<Secondary>) {
    for secondary in before {
        if let Some(checking) = secondary.into_checking() {
            checking.give_up();
            let _ = leaving.push(checking);
        }
    }
}

impl Copies {
    /// No copy yet.
    pub fn new(alloc: Global) -> Result<Copies, OutOfMemory>
        ensures secondaries { IfOk result (λ c. c.secondaries.items ≡ []) }
        ensures target { IfOk result (λ c. (arc_value c.target).zones.items ≡ []) }
    {
        Ok(Copies {
            secondaries: Vec::new(alloc),
            target: target_of(alloc, &[])?,
            leaving: Vec::new(alloc),
            next: 0,
        })
    }

    /// The zones.
    pub fn as_slice(&self) -> &[Secondary]
        ensures { result.now ≡ self.now.secondaries.items }
    {
        self.secondaries.as_slice()
    }

    /// The target of NOTIFY.
    pub fn target(&self) -> &Arc<CopiesTarget>
        ensures { result.now ≡ self.now.target }
    {
        &self.target
    }

    /// Goes on to the zones of a configuration with these keys and summaries. A zone that was there before with its primary keeps its
    /// check, and what is known of its copy if that is served. If a key isn't known, or memory runs out, all stays.
    pub fn follow<R: Files + Clock>(
        &mut self,
        rt: &R,
        alloc: Global,
        config: &Config,
        keys: &PeerKeys,
        summaries: &[ZoneSummary],
        now: u64,
    ) -> anyhow::Result<()>
        ensures target { OnOk result ((arc_value self.new.target).zones.items ≡ watched_zones self.new.secondaries.items) }
        ensures copies { OnOk result (Follows self.old.secondaries.items keys.now config.now.zone.items summaries.now now
            self.new.secondaries.items) }
        ensures kept { OnErr result (self.new.secondaries.items ≡ self.old.secondaries.items) }
        ensures watched { OnErr result (self.new.target ≡ self.old.target) }
    {
        let zones = self.secondaries.as_slice();
        let checks = count_checks(zones);
        let secondaries = follow_all(rt, alloc, zones, config, keys, summaries, now)?;
        let target = target_of(alloc, secondaries.as_slice())?;
        self.leaving.reserve(checks)?;
        self.target = target;
        let before = mem::replace(&mut self.secondaries, secondaries);
        leave(&mut self.leaving, before);
        Ok(())
    }

    /// Discards the copies that are obsolete. Whether there were any.
    pub fn discard_obsolete<R: Log>(&mut self, rt: &R, now: u64) -> bool
        ensures lost { result ≡ list_any (has_obsolete_copy now) self.old.secondaries.items }
        ensures copies { self.new.secondaries.items ≡ map (without_obsolete_copy now) self.old.secondaries.items }
        ensures target { self.new.target ≡ self.old.target }
    {
        discard_all(rt, self.secondaries.as_mut_slice(), now)
    }

    /// Ends a check of a zone that is no longer configured, if one is done.
    fn end_leaving<R: Threads>(&mut self, rt: &R)
        ensures secondaries { self.new.secondaries.items ≡ self.old.secondaries.items }
        ensures target { self.new.target ≡ self.old.target }
    {
        if let Some(place) = ended_place(self.leaving.as_slice()) {
            let checking = self.leaving.remove(place);
            let _ = checking.join(rt);
        }
    }

    /// How many checks can be begun.
    fn room(&self) -> usize {
        MOST_CHECKS
            .saturating_sub(self.leaving.len())
            .saturating_sub(count_checks(self.secondaries.as_slice()))
    }

    /// Begins the checks that are due, from the next one on.
    fn begin_next<R: Net + Log + Threads + Clock + Copy + Send + 'static>(
        &mut self,
        rt: &R,
        alloc: Global,
        now: u64,
    )
        ensures begun { AllZip (MayBegin now) self.old.secondaries.items self.new.secondaries.items }
        ensures target { self.new.target ≡ self.old.target }
    {
        let room = self.room();
        let secondaries = self.secondaries.as_mut_slice();
        self.next = begin_from(rt, alloc, secondaries, self.next, room, now);
    }

    /// Looks at each copy, and begins the checks that are due, as many as may go on at once. Whether another copy, or none, is
    /// served from now on.
    pub fn look<R: Net + Files + Clock + Log + Threads + Copy + Send + 'static>(
        &mut self,
        rt: &R,
        alloc: Global,
        now: u64,
    ) -> Result<bool, OutOfMemory>
        ensures looked { IfOk result (Looks now self.old.secondaries.items self.new.secondaries.items) }
        ensures kept { OnErr result (self.new.secondaries.items ≡ self.old.secondaries.items) }
        ensures target { self.new.target ≡ self.old.target }
    {
        self.end_leaving(rt);
        let changed = look_at_all(rt, alloc, self.secondaries.as_mut_slice(), now);
        self.begin_next(rt, alloc, now);
        Ok(changed)
    }

    /// What is said of each copy.
    pub fn report(&self, alloc: Global) -> Result<String, AllocError>
        ensures { IfOk result (λ text. Reports self.now.secondaries.items (string_bytes text)) }
    {
        let mut text = String::new(alloc);
        'each: for secondary in self.secondaries.iter() {
            secondary.push_line(alloc, &mut text)?;
        }
        Ok(text)
    }

    /// Gives all checks up, and waits for the end of each.
    pub fn end<R: Threads>(self, rt: &R) {
        let Copies {
            secondaries,
            leaving,
            ..
        } = self;
        let mut checks = leaving;
        for secondary in secondaries {
            if let Some(checking) = secondary.into_checking() {
                checking.give_up();
                join_next(rt, &mut checks, checking);
            }
        }
        join_all(rt, checks);
    }
}

/// Puts a check after others whose end is waited for; if there is no memory, its end is waited for at once.
fn join_next<R: Threads>(rt: &R, checks: &mut Vec<Checking>, checking: Checking) {
    if let Err(refused) = checks.push(checking) {
        let _ = refused.value.join(rt);
    }
}

/// Waits for the end of some checks.
fn join_all<R: Threads>(rt: &R, checks: Vec<Checking>) {
    for checking in checks {
        let _ = checking.join(rt);
    }
}
