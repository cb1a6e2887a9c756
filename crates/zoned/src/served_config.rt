//! What is served at a time, with its number.

use crate::configuration::load_config;
use crate::keys::Keys;
use crate::load::{load_generation, refuse_twice, summaries_without};
use anyhow::Context;
use dns_authority::Authority;
use dns_config::Config;
use dns_generation::ZoneSummary;
use dns_listener::ZoneService;
use dns_middleware::Settings;
use dns_name::OutOfMemory;
use dns_secondary_service::Withholding;
use dns_zone_copies::Secondary;
use std::alloc::Global;
use std::sync::Arc;

/// The zones of a configuration that were read and judged, what answers over them, and what is said of each, in their order.
#[derive(Drop)]
pub(crate) struct Judged {
    read: Arc<Withholding<Authority>>,
    pub(crate) service: Arc<ZoneService>,
    pub(crate) summaries: Vec<ZoneSummary>,
}

/// What answers over zones that were read: those that have data by their summaries, and the others without.
fn service_over(
    alloc: Global,
    read: &Arc<Withholding<Authority>>,
    config: &Config,
    summaries: &[ZoneSummary],
) -> Result<Arc<ZoneService>, OutOfMemory> {
    let mut served = Vec::new(alloc);
    let mut withheld = Vec::new(alloc);
    for (entry, summary) in config.zone.iter().zip(summaries.iter()) {
        let apex = entry.name.name.try_clone(alloc)?;
        if summary.timers.is_some() {
            served.push(apex)?;
        } else {
            withheld.push(apex)?;
        }
    }
    let read = Arc::try_clone(read)?;
    Ok(Arc::new(alloc, Withholding::new(read, served, withheld))?)
}

/// How many zones have data.
fn served_count(summaries: &[ZoneSummary]) -> usize {
    let mut count = 0usize;
    for summary in summaries {
        if summary.timers.is_some() {
            count = count.saturating_add(1);
        }
    }
    count
}

impl Judged {
    /// Reads and judges the zones of a configuration. Zones whose secondary has no copy are without data.
    fn load(
        rt: &HostRuntime,
        config: &Config,
        secondaries: &[Secondary],
    ) -> anyhow::Result<Judged> {
        let generation = load_generation(rt, config, secondaries)?;
        let summaries = Vec::from_slice(rt.alloc(), generation.summaries())?;
        let read = Arc::new(rt.alloc(), generation.into_service())?;
        let service = Withholding::new(
            Arc::try_clone(&read)?,
            Vec::new(rt.alloc()),
            Vec::new(rt.alloc()),
        );
        Ok(Judged {
            read,
            service: Arc::new(rt.alloc(), service)?,
            summaries,
        })
    }

    /// These without the data of zones whose secondary has no copy; nothing if there are none.
    fn without_lost(
        &self,
        alloc: Global,
        config: &Config,
        secondaries: &[Secondary],
    ) -> Result<Option<Judged>, OutOfMemory> {
        let summaries = self.summaries.as_slice();
        let others = summaries_without(alloc, config, summaries, secondaries)?;
        if served_count(others.as_slice()) == served_count(summaries) {
            return Ok(None);
        }
        let service = service_over(alloc, &self.read, config, others.as_slice())?;
        Ok(Some(Judged {
            read: Arc::try_clone(&self.read)?,
            service,
            summaries: others,
        }))
    }
}

/// A configuration, its settings, its keys and its zones as they are served.
#[derive(Drop)]
pub(crate) struct ServedConfig {
    pub(crate) number: u64,
    pub(crate) config: Arc<Config>,
    pub(crate) settings: Settings,
    pub(crate) keys: Keys,
    pub(crate) zones: Judged,
}

impl ServedConfig {
    /// Reads and judges the zones of a configuration with these keys. Zones whose secondary has no copy are without data.
    fn of(
        rt: &HostRuntime,
        number: u64,
        config: Arc<Config>,
        keys: Keys,
        secondaries: &[Secondary],
    ) -> anyhow::Result<ServedConfig> {
        let settings = config.settings(rt.alloc())?;
        let zones = Judged::load(rt, &config, secondaries)?;
        Ok(ServedConfig {
            number,
            config,
            settings,
            keys,
            zones,
        })
    }

    /// Reads and judges a configuration, its keys and its zones.
    pub(crate) fn load(
        rt: &HostRuntime,
        number: u64,
        path: &str,
        secondaries: &[Secondary],
    ) -> anyhow::Result<ServedConfig> {
        let config = Arc::new(rt.alloc(), load_config(rt, path)?)?;
        refuse_twice(&config)?;
        let keys = Keys::of(rt, &config).context(format_args!("{path}"))?;
        ServedConfig::of(rt, number, config, keys, secondaries)
    }

    /// What follows if a copy came or went: the zones of the configuration are read and judged again. Its keys stay.
    pub(crate) fn renewed(
        &self,
        rt: &HostRuntime,
        secondaries: &[Secondary],
    ) -> anyhow::Result<ServedConfig> {
        let config = Arc::try_clone(&self.config)?;
        let keys = self.keys.again()?;
        let number = self.number.saturating_add(1);
        ServedConfig::of(rt, number, config, keys, secondaries)
    }

    /// What follows where zones can't be read again: these without the data of zones whose secondary has no copy; nothing if
    /// there are none.
    pub(crate) fn without_lost(
        &self,
        alloc: Global,
        secondaries: &[Secondary],
    ) -> anyhow::Result<Option<ServedConfig>> {
        let zones = match self.zones.without_lost(alloc, &self.config, secondaries)? {
            Some(zones) => zones,
            None => return Ok(None),
        };
        Ok(Some(ServedConfig {
            number: self.number.saturating_add(1),
            config: Arc::try_clone(&self.config)?,
            settings: self.settings.try_clone(alloc)?,
            keys: self.keys.again()?,
            zones,
        }))
    }
}
