//! Zones that are read of files.

ghost use Rattle.std.specs.Prelude.{◌≡◌, ◌↔◌, false, true, IfOk, IsOk, OnErr, OnOk, if◌then◌else◌, map, string_bytes};
ghost use Rattle.std.specs.List.{list_any};
ghost use Rattle.dns_generation.specs.Generations.{AddsFile, with_withheld};
ghost use Rattle.dns_zone_copies.specs.Secondaries.{lacks_copy};
ghost use Rattle.zoned.specs.Loading.{AreNear, AreWithout, CopyIsRead, EntryIsRead, FileIsRead, ReadsAll, allowed_network, networks_of, no_zones};
ghost use Rattle.zoned.specs.Zones.{is_entry_named, stands_twice, without_data};

use crate::configuration::load_config;
use crate::keys::Keys;
use anyhow::{Context, bail};
use dns_config::{Config, ZoneEntry};
use dns_generation::{Generation, ZoneSigning, ZoneSummary, networks};
use dns_notifier::serial_of;
use dns_socket_addr::SocketAddrText;
use dns_zone_copies::Secondary;
use log::{info, warn};
use std::alloc::{AllocError, Global};
use std::fmt::Write;
use std::{fs, slice};

/// Judges the text of a zone's file, and puts the zone after the others. It is transferred to its own networks, or to those for
/// all.
fn add_zone(
    alloc: Global,
    generation: &mut Generation,
    entry: &ZoneEntry,
    text: &[u8],
) -> anyhow::Result<()>
    ensures ok { OnOk result (AddsFile entry.now.name.name text.now
        (networks_of entry.now.allow_transfer generation.old.authority.allowed) generation.old generation.new) }
    ensures err { OnErr result (generation.new ≡ generation.old) }
{
    let apex = &entry.name.name;
    match &entry.allow_transfer {
        Some(rules) => {
            let allowed = networks(alloc, rules.as_slice())?;
            generation.add_for(alloc, apex, text, allowed)?;
        }
        None => generation.add(alloc, apex, text)?,
    }
    Ok(())
}

/// Reads and judges the zone of one file, and puts it after the others.
fn load_zone(rt: &HostRuntime, generation: &mut Generation, entry: &ZoneEntry) -> anyhow::Result<()>
    ensures ok { OnOk result (FileIsRead entry.now generation.old generation.new) }
    ensures err { OnErr result (generation.new ≡ generation.old) }
{
    let file = entry.file.as_str();
    let text = fs::read(rt, file).context(format_args!("{file}"))?;
    add_zone(rt.alloc(), generation, entry, text.as_slice()).context(format_args!("{file}"))
}

/// Whether a zone stands among some.
fn stands_among(entries: &[ZoneEntry], entry: &ZoneEntry) -> bool
    ensures { result ≡ list_any (is_entry_named entry.now.name.name) entries.now }
{
    entries
        .iter()
        .any(|other| other.name.name == entry.name.name)
}

/// Refuses a configuration in which a zone stands twice.
pub(crate) fn refuse_twice(config: &Config) -> anyhow::Result<()>
    ensures { IsOk result ↔ (stands_twice config.now.zone.items ≡ false) }
{
    let mut entries = config.zone.as_slice();
    'each: while let [entry, others @ ..] = entries {
        if stands_among(others, entry) {
            bail!("zone {} stands twice", entry.name.name);
        }
        entries = others;
    }
    Ok(())
}

/// The secondary at a place, if it is that of an entry, and else all.
fn near<'a>(secondaries: &'a [Secondary], place: usize, entry: &ZoneEntry) -> &'a [Secondary]
    ensures { AreNear secondaries.now entry.now result.now }
{
    match secondaries.get(place) {
        Some(secondary) if secondary.is_of(entry) => slice::from_ref(secondary),
        _ => secondaries,
    }
}

/// The place of the secondary after that of an entry, if the entry has one.
fn place_after(place: usize, entry: &ZoneEntry) -> usize {
    if entry.primary.is_some() {
        return place.saturating_add(1);
    }
    place
}

/// Whether the secondary of a zone has no copy of it.
fn is_without_copy(secondaries: &[Secondary], entry: &ZoneEntry) -> bool
    ensures { result ≡ list_any (lacks_copy entry.now.primary entry.now.name.name (string_bytes entry.now.file)) secondaries.now }
{
    secondaries
        .iter()
        .any(|secondary| secondary.lacks_copy_of(entry))
}

/// A zone in few words: without data where its secondary has no copy of it.
fn summary_without(
    secondaries: &[Secondary],
    entry: &ZoneEntry,
    summary: &ZoneSummary,
) -> ZoneSummary
    ensures { result ≡ (if list_any (lacks_copy entry.now.primary entry.now.name.name (string_bytes entry.now.file)) secondaries.now
        then without_data else summary.now) }
{
    if is_without_copy(secondaries, entry) {
        return ZoneSummary {
            timers: None,
            records: 0,
            signing: ZoneSigning::Unsigned,
        };
    }
    *summary
}

/// The zones of a configuration in few words, those without data whose secondary has no copy.
pub(crate) fn summaries_without(
    alloc: Global,
    config: &Config,
    summaries: &[ZoneSummary],
    secondaries: &[Secondary],
) -> Result<Vec<ZoneSummary>, AllocError>
    ensures { IfOk result (λ others. AreWithout secondaries.now config.now.zone.items summaries.now others.items) }
{
    let mut others = Vec::new(alloc);
    let mut place = 0usize;
    let mut left = summaries;
    'each: for entry in config.zone.iter() {
        let (summary, later) = match left.split_first() {
            Some(both) => both,
            None => return Ok(others),
        };
        let its = near(secondaries, place, entry);
        others.push(summary_without(its, entry, summary))?;
        place = place_after(place, entry);
        left = later;
    }
    Ok(others)
}

/// Puts a zone that has a primary after the others: its copy, if there is one that is a zone, and else without data.
fn load_copy(
    rt: &HostRuntime,
    generation: &mut Generation,
    secondaries: &[Secondary],
    entry: &ZoneEntry,
) -> anyhow::Result<()>
    ensures lacking { OnOk result
        (list_any (lacks_copy entry.now.primary entry.now.name.name (string_bytes entry.now.file)) secondaries.now ≡ true
        → generation.new ≡ with_withheld entry.now.name.name generation.old) }
    ensures read { OnOk result (CopyIsRead secondaries.now entry.now generation.old generation.new) }
{
    if is_without_copy(secondaries, entry) {
        generation.withhold(rt.alloc(), &entry.name.name)?;
        return Ok(());
    }
    if let Err(fault) = load_zone(rt, generation, entry) {
        warn!(rt; "{}: no copy is served: {fault:#}", entry.name.name);
        generation.withhold(rt.alloc(), &entry.name.name)?;
    }
    Ok(())
}

/// Puts a zone after the others, whether it has a primary or not.
fn load_entry(
    rt: &HostRuntime,
    generation: &mut Generation,
    secondaries: &[Secondary],
    entry: &ZoneEntry,
) -> anyhow::Result<()>
    ensures { OnOk result (EntryIsRead secondaries.now entry.now entry.now.primary generation.old generation.new) }
{
    match &entry.primary {
        Some(_) => load_copy(rt, generation, secondaries, entry),
        None => load_zone(rt, generation, entry),
    }
}

/// All zones of a configuration, each read and judged. The secondaries mostly stand in the order of its zones.
pub(crate) fn load_generation(
    rt: &HostRuntime,
    config: &Config,
    secondaries: &[Secondary],
) -> anyhow::Result<Generation>
    ensures { IfOk result (ReadsAll secondaries.now config.now.zone.items
        (no_zones (map allowed_network config.now.allow_transfer.items))) }
{
    let allowed = networks(rt.alloc(), config.allow_transfer.as_slice())?;
    let mut generation = Generation::new(rt.alloc(), allowed);
    let mut place = 0usize;
    'each: for entry in config.zone.iter() {
        load_entry(rt, &mut generation, near(secondaries, place, entry), entry)?;
        place = place_after(place, entry);
    }
    Ok(generation)
}

/// Appends the line of a zone.
fn push_zone(
    text: &mut String,
    entry: &ZoneEntry,
    summary: &ZoneSummary,
) -> Result<(), AllocError> {
    let name = &entry.name.name;
    let file = entry.file.as_str();
    let records = summary.records;
    let signing = summary.signing;
    match serial_of(summary) {
        Some(serial) => writeln!(
            text,
            "zone {name} serial {serial}, {records} records, {signing}, of {file}"
        ),
        None => writeln!(text, "zone {name} without data, of {file}"),
    }
}

/// Logs of each signed zone how it is signed.
pub(crate) fn log_signed(rt: &HostRuntime, config: &Config, summaries: &[ZoneSummary]) {
    for (entry, summary) in config.zone.iter().zip(summaries.iter()) {
        let signing = summary.signing;
        match signing {
            ZoneSigning::Unsigned => {}
            _ => info!(rt; "zone {} is signed: {signing}", entry.name.name),
        }
    }
}

/// A line for each zone: its name, its serial, how many records it has, how it is signed, and its file.
pub(crate) fn report(
    alloc: Global,
    config: &Config,
    summaries: &[ZoneSummary],
) -> Result<String, AllocError> {
    let mut text = String::new(alloc);
    for (entry, summary) in config.zone.iter().zip(summaries.iter()) {
        push_zone(&mut text, entry, summary)?;
    }
    Ok(text)
}

/// Says what a configuration would serve and where, or the first fault.
pub(crate) fn check(rt: &HostRuntime, path: &str) -> anyhow::Result<()> {
    let config = load_config(rt, path)?;
    refuse_twice(&config)?;
    let _ = Keys::of(rt, &config).context(format_args!("{path}"))?;
    let generation = load_generation(rt, &config, &[])?;
    for endpoint in config.listen.iter() {
        println!(rt; "listen {}", SocketAddrText(endpoint.address))?;
    }
    if let Some(endpoint) = &config.metrics {
        println!(rt; "metrics {}", SocketAddrText(endpoint.address))?;
    }
    let zones = report(rt.alloc(), &config, generation.summaries())?;
    print!(rt; "{zones}")?;
    Ok(())
}
