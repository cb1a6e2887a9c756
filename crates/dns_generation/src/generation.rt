//! Zones that were read and judged.

ghost use Rattle.std.specs.Prelude.{◌≡◌, ◌<◌, ◌++◌, ◌∷◌, [], IfErr, OnErr, OnOk, vec_capacity, vec_len};
ghost use Rattle.dns_authority.specs.Authorities.{and_data, authority_answer};
ghost use Rattle.dns_authority.specs.ServedZones.{tree_of};
ghost use Rattle.dns_secondary_service.specs.Withheld.{withholding};
ghost use Rattle.dns_generation.specs.Generations.{AddsFile, HasFault, networks_or, summary_of, timers_among, with_withheld, with_zone};

use crate::signing::{ZoneSigning, zone_signing};
use crate::zone_text_error::ZoneTextError;
use crate::zones::zone_of;
use dns_authority::{Authority, Network, ZoneData};
use dns_message::Record;
use dns_name::{Name, OutOfMemory};
use dns_secondary::SoaTimers;
use dns_secondary_service::Withholding;
use dns_service::Service;
use std::alloc::Global;
use std::marker::Model;

/// A zone in few words.
#[derive(Clone, Copy)]
pub struct ZoneSummary {
    /// What its SOA record says of copies; nothing if the zone has no data.
    pub timers: Option<SoaTimers>,
    /// How many records it has.
    pub records: usize,
    /// How it is signed.
    pub signing: ZoneSigning,
}

/// Zones that were read and judged, the authority over them, and zones that have no data.
#[derive(Drop)]
pub struct Generation {
    authority: Authority,
    served: Vec<Name>,
    withheld: Vec<Name>,
    summaries: Vec<ZoneSummary>,
}

impl Model for Generation {
    ghost use Rattle.dns_generation.specs.Generations.{GenerationState};

    ghost Value = { GenerationState };

    ghost view = { λ g. record {
      authority = g.authority;
      served = g.served.items;
      withheld = g.withheld.items;
      summaries = g.summaries.items;
    } };
}

/// What the first SOA record of some records says of copies.
fn timers_among(records: &[Record]) -> Option<SoaTimers>
    ensures { result ≡ timers_among records.now }
{
    for record in records {
        let timers = SoaTimers::of(&record.rdata);
        if timers.is_some() {
            return timers;
        }
    }
    None
}

/// A zone in few words.
fn summary_of(zone: &ZoneData) -> ZoneSummary
    ensures { result ≡ summary_of zone.now }
{
    let tree = zone.tree();
    ZoneSummary {
        timers: timers_among(tree.records()),
        records: zone.record_count(),
        signing: zone_signing(zone),
    }
}

/// Makes room for an apex and its summary.
fn reserve_both(apexes: &mut Vec<Name>, summaries: &mut Vec<ZoneSummary>) -> Result<(), OutOfMemory>
    ensures apexes { apexes.new.items ≡ apexes.old.items }
    ensures summaries { summaries.new.items ≡ summaries.old.items }
    ensures room { OnOk result ((vec_len apexes.new < vec_capacity apexes.new) × (vec_len summaries.new < vec_capacity summaries.new)) }
{
    apexes.reserve(1)?;
    summaries.reserve(1)?;
    Ok(())
}

/// Adds an apex and its summary, for which there is room.
fn push_both(
    apexes: &mut Vec<Name>,
    summaries: &mut Vec<ZoneSummary>,
    apex: Name,
    summary: ZoneSummary,
)
    requires apexes { vec_len apexes.old < vec_capacity apexes.old }
    requires summaries { vec_len summaries.old < vec_capacity summaries.old }
    ensures apexes { apexes.new.items ≡ apexes.old.items ++ apex ∷ [] }
    ensures summaries { summaries.new.items ≡ summaries.old.items ++ summary ∷ [] }
{
    apexes.push_reserved(apex);
    summaries.push_reserved(summary);
}

/// Adds a zone to an authority, which may be transferred to the authority's networks.
fn add_shared(authority: &mut Authority, alloc: Global, zone: ZoneData) -> Result<(), OutOfMemory>
    ensures ok { OnOk result (authority.new ≡ and_data authority.old.allowed zone authority.old) }
    ensures err { OnErr result (authority.new ≡ authority.old) }
{
    let allowed = Vec::from_slice(alloc, authority.allowed())?;
    authority.add_data(alloc, zone, allowed)
}

/// Adds a zone to an authority, which may be transferred to its own networks, or to those of the authority if it has none.
fn add_zone(
    authority: &mut Authority,
    alloc: Global,
    zone: ZoneData,
    own: Option<Vec<Network>>,
) -> Result<(), OutOfMemory>
    ensures ok { OnOk result (authority.new ≡ and_data (networks_or own authority.old.allowed) zone authority.old) }
    ensures err { OnErr result (authority.new ≡ authority.old) }
{
    match own {
        Some(allowed) => authority.add_data(alloc, zone, allowed),
        None => add_shared(authority, alloc, zone),
    }
}

impl Generation {
    /// A generation of no zone. A zone that has no networks of its own may be transferred to these.
    pub fn new(alloc: Global, allowed: Vec<Network>) -> Generation
        ensures { result ≡ record {
          authority = record { zones = []; allowed = allowed.items };
          served = [];
          withheld = [];
          summaries = [];
        } }
    {
        Generation {
            authority: Authority::new(alloc, allowed),
            served: Vec::new(alloc),
            withheld: Vec::new(alloc),
            summaries: Vec::new(alloc),
        }
    }

    /// Puts a zone with a summary after the others. A refused call leaves the generation.
    fn put(
        &mut self,
        alloc: Global,
        apex: Name,
        zone: ZoneData,
        own: Option<Vec<Network>>,
        summary: ZoneSummary,
    ) -> Result<(), OutOfMemory>
        requires apex { apex ≡ (tree_of zone).apex }
        requires summary { summary ≡ summary_of zone }
        ensures ok { OnOk result (self.new ≡ with_zone (networks_or own self.old.authority.allowed) zone self.old) }
        ensures err { OnErr result (self.new ≡ self.old) }
    {
        reserve_both(&mut self.served, &mut self.summaries)?;
        add_zone(&mut self.authority, alloc, zone, own)?;
        push_both(&mut self.served, &mut self.summaries, apex, summary);
        Ok(())
    }

    /// Reads a zone of the text of its file, judges it, and puts it after the others. A refused call leaves the generation.
    fn add_file(
        &mut self,
        alloc: Global,
        apex: &Name,
        text: &[u8],
        own: Option<Vec<Network>>,
    ) -> Result<(), ZoneTextError>
        ensures ok { OnOk result (AddsFile apex.now text.now (networks_or own self.old.authority.allowed) self.old self.new) }
        ensures fault { IfErr result (HasFault apex.now text.now) }
        ensures err { OnErr result (self.new ≡ self.old) }
    {
        let zone = zone_of(alloc, apex, text)?;
        let apex = apex.try_clone(alloc)?;
        let summary = summary_of(&zone);
        self.put(alloc, apex, zone, own, summary)?;
        Ok(())
    }

    /// Reads a zone of the text of its file, judges it, and puts it after the others. It may be transferred to the networks of the
    /// generation. A refused call leaves the generation.
    pub fn add(&mut self, alloc: Global, apex: &Name, text: &[u8]) -> Result<(), ZoneTextError>
        ensures ok { OnOk result (AddsFile apex.now text.now self.old.authority.allowed self.old self.new) }
        ensures fault { IfErr result (HasFault apex.now text.now) }
        ensures err { OnErr result (self.new ≡ self.old) }
    {
        self.add_file(alloc, apex, text, None)
    }

    /// Reads a zone of the text of its file, judges it, and puts it after the others. It may be transferred to these networks. A
    /// refused call leaves the generation.
    pub fn add_for(
        &mut self,
        alloc: Global,
        apex: &Name,
        text: &[u8],
        allowed: Vec<Network>,
    ) -> Result<(), ZoneTextError>
        ensures ok { OnOk result (AddsFile apex.now text.now allowed.items self.old self.new) }
        ensures fault { IfErr result (HasFault apex.now text.now) }
        ensures err { OnErr result (self.new ≡ self.old) }
    {
        self.add_file(alloc, apex, text, Some(allowed))
    }

    /// Puts a zone without data after the others: a query for its names is answered SERVFAIL. A refused call leaves the
    /// generation.
    pub fn withhold(&mut self, alloc: Global, apex: &Name) -> Result<(), OutOfMemory>
        ensures ok { OnOk result (self.new ≡ with_withheld apex.now self.old) }
        ensures err { OnErr result (self.new ≡ self.old) }
    {
        let apex = apex.try_clone(alloc)?;
        let summary = ZoneSummary {
            timers: None,
            records: 0,
            signing: ZoneSigning::Unsigned,
        };
        reserve_both(&mut self.withheld, &mut self.summaries)?;
        push_both(&mut self.withheld, &mut self.summaries, apex, summary);
        Ok(())
    }

    /// Each zone in few words, in the order in which they were put after each other.
    pub fn summaries(&self) -> &[ZoneSummary]
        ensures { result.now ≡ self.now.summaries }
    {
        self.summaries.as_slice()
    }

    /// What answers: the authority, behind the zones that have no data.
    pub fn into_service(self) -> Withholding<Authority>
        ensures { ⟦<Withholding<Authority> as Service<()>>⟧.answer result
            ≡ withholding self.served self.withheld (authority_answer self.authority) }
    {
        let Generation {
            authority,
            served,
            withheld,
            ..
        } = self;
        Withholding::new(authority, served, withheld)
    }
}
