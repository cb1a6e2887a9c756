//! What is measured of a server, as its page of metrics reports it.

use crate::served_config::ServedConfig;
use dns_config::ZoneEntry;
use dns_generation::ZoneSummary;
use dns_listener::{Counters, Numbers};
use dns_metrics::{Family, Label, Measured, MetricError, MetricKind};
use dns_notifier::serial_of;
use std::alloc::{AllocError, Global};
use std::rt::Clock;
use std::sync::{Arc, Mutex, Wait};
use std::time::Instant;

/// A zone that is served: its name, its serial if it has data, and how many records it has.
#[derive(Drop)]
struct ShownZone {
    name: String,
    serial: Option<u32>,
    records: u64,
}

/// A generation: its number, and its zones.
#[derive(Drop)]
pub(crate) struct Shown {
    number: u64,
    zones: Vec<ShownZone>,
}

/// A zone of a configuration, as it was read.
fn shown_zone(
    alloc: Global,
    entry: &ZoneEntry,
    summary: &ZoneSummary,
) -> Result<ShownZone, AllocError> {
    let name = &entry.name.name;
    Ok(ShownZone {
        name: format!(in alloc; "{name}")?,
        serial: serial_of(summary),
        records: summary.records as u64,
    })
}

impl Shown {
    /// The generation that is served.
    pub(crate) fn of(alloc: Global, served: &ServedConfig) -> Result<Shown, AllocError> {
        let summaries = served.zones.summaries.as_slice();
        let mut zones = Vec::new(alloc);
        for (entry, summary) in served.config.zone.iter().zip(summaries.iter()) {
            zones.push(shown_zone(alloc, entry, summary)?)?;
        }
        Ok(Shown {
            number: served.number,
            zones,
        })
    }
}

/// Labels, each of a name and a value.
fn labels(alloc: Global, pairs: &[(&str, &str)]) -> Result<Vec<Label>, MetricError> {
    let mut all = Vec::new(alloc);
    for pair in pairs {
        all.push(Label::new(alloc, pair.0, pair.1)?)?;
    }
    Ok(all)
}

/// A metric that has one value.
fn single(
    alloc: Global,
    name: &str,
    help: &str,
    kind: MetricKind,
    value: u64,
) -> Result<Family, MetricError> {
    let mut family = Family::new(alloc, name, help, kind)?;
    family.add(Vec::new(alloc), value)?;
    Ok(family)
}

/// The replies.
fn replies(alloc: Global, numbers: &Numbers) -> Result<Family, MetricError> {
    let help = "Replies, by transport and response code.";
    let mut family = Family::new(alloc, "zoned_replies_total", help, MetricKind::Counter)?;
    for reply in numbers.replies.iter() {
        let udp = [("transport", "udp"), ("rcode", reply.code)];
        family.add(labels(alloc, &udp)?, reply.udp)?;
        let tcp = [("transport", "tcp"), ("rcode", reply.code)];
        family.add(labels(alloc, &tcp)?, reply.tcp)?;
    }
    Ok(family)
}

/// The transfers.
fn transfers(alloc: Global, numbers: &Numbers) -> Result<Family, MetricError> {
    let help = "Transfers that were asked for, by what became of them.";
    let mut family = Family::new(alloc, "zoned_transfers_total", help, MetricKind::Counter)?;
    family.add(labels(alloc, &[("outcome", "begun")])?, numbers.begun)?;
    family.add(labels(alloc, &[("outcome", "refused")])?, numbers.refused)?;
    Ok(family)
}

/// The replies that were limited.
fn limited(alloc: Global, numbers: &Numbers) -> Result<Family, MetricError> {
    let help = "Replies over UDP that were limited, by what became of them.";
    let name = "zoned_limited_replies_total";
    let mut family = Family::new(alloc, name, help, MetricKind::Counter)?;
    family.add(
        labels(alloc, &[("outcome", "truncated")])?,
        numbers.truncated,
    )?;
    family.add(labels(alloc, &[("outcome", "dropped")])?, numbers.limited)?;
    Ok(family)
}

/// What was counted.
fn counted(alloc: Global, numbers: &Numbers) -> Result<Vec<Family>, MetricError> {
    let mut families = Vec::new(alloc);
    families.push(replies(alloc, numbers)?)?;
    let counts = [
        (
            "zoned_connections_total",
            "Connections that were accepted.",
            numbers.connections,
        ),
        (
            "zoned_dropped_responses_total",
            "Responses that came in place of queries, and were dropped.",
            numbers.dropped,
        ),
    ];
    for (name, help, value) in counts {
        families.push(single(alloc, name, help, MetricKind::Counter, value)?)?;
    }
    families.push(transfers(alloc, numbers)?)?;
    families.push(limited(alloc, numbers)?)?;
    Ok(families)
}

/// The serials of the zones that have data.
fn serials(alloc: Global, zones: &[ShownZone]) -> Result<Family, MetricError> {
    let help = "The serial of a zone that has data.";
    let mut family = Family::new(alloc, "zoned_zone_serial", help, MetricKind::Gauge)?;
    for zone in zones {
        if let Some(serial) = zone.serial {
            let under = labels(alloc, &[("zone", zone.name.as_str())])?;
            family.add(under, serial as u64)?;
        }
    }
    Ok(family)
}

/// How many records the zones have.
fn records(alloc: Global, zones: &[ShownZone]) -> Result<Family, MetricError> {
    let help = "How many records a zone has.";
    let mut family = Family::new(alloc, "zoned_zone_records", help, MetricKind::Gauge)?;
    for zone in zones {
        let under = labels(alloc, &[("zone", zone.name.as_str())])?;
        family.add(under, zone.records)?;
    }
    Ok(family)
}

/// What is measured of a server: its counts, since when it runs, and the generation that it serves.
#[derive(Drop)]
pub(crate) struct Measures<R> {
    pub(crate) machine: R,
    pub(crate) since: Instant,
    pub(crate) counters: Arc<Counters>,
    pub(crate) shown: Arc<Mutex<Shown>>,
}

impl<R: Clock + Wait> Measures<R> {
    /// For how many seconds the server runs. If the clock fails, none.
    fn seconds(&self) -> u64 {
        match self.since.elapsed(&self.machine) {
            Ok(time) => time.as_secs(),
            Err(_) => 0,
        }
    }

    /// Puts the generation that is served after other metrics.
    fn push_shown(&self, alloc: Global, families: &mut Vec<Family>) -> Result<(), MetricError> {
        let shown = self.shown.lock(&self.machine);
        let (name, help) = ("zoned_generation", "The number of what is served.");
        families.push(single(alloc, name, help, MetricKind::Gauge, shown.number)?)?;
        families.push(serials(alloc, shown.zones.as_slice())?)?;
        families.push(records(alloc, shown.zones.as_slice())?)?;
        Ok(())
    }
}

impl<R: Clock + Wait> Measured for Measures<R> {
    fn families(&self, alloc: Global) -> Result<Vec<Family>, MetricError> {
        let numbers = self.counters.numbers();
        let mut families = counted(alloc, &numbers)?;
        let (name, help) = ("zoned_uptime_seconds", "Seconds since the start.");
        families.push(single(alloc, name, help, MetricKind::Gauge, self.seconds())?)?;
        self.push_shown(alloc, &mut families)?;
        Ok(families)
    }
}
