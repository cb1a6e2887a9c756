//! What a script says as far as its lines are read.

ghost use Rattle.std.specs.Prelude.{◌≡◌, ◌++◌, ◌∷◌, [], OnOk, Some, is_some};
ghost use Rattle.dns_base.specs.Records.{IsLawful};
ghost use Rattle.dns_zone.specs.ZoneErrors.{zone_error};
ghost use Rattle.dns_trace.specs.Reading.{GivesLine, TakesLine};
ghost use Rattle.dns_script.specs.Draft.{empty_draft, finished, made_zone, may_be_rule, may_be_upstream, may_be_zone, record_more, service_by, with_zone_record, with_service, zone_refused};

use crate::rule::{Rule, Rules};
use crate::script::Script;
use crate::service_lines::ServiceLines;
use crate::upstream::{UpstreamLine, Upstreams};
use dns_base::Record;
use dns_name::{Name, OutOfMemory};
use dns_trace::{LineError, Reason};
use dns_zone::{Zone, ZoneError};
use std::alloc::Global;
use std::marker::Model;

/// The name of a zone, and the records after its line.
#[derive(Drop)]
pub(crate) struct ZoneLines {
    apex: Name,
    records: Vec<Record>,
}

impl Model for ZoneLines {
    ghost use Rattle.dns_script.specs.Draft.{ZoneSaid};
    ghost use Rattle.dns_zone.specs.Owned.{AreLawful};

    ghost Value = { ZoneSaid };

    ghost view = { λ z. record { apex = z.apex; records = z.records.items } };

    ghost invariant = { λ z. AreLawful z.records.items };
}

impl ZoneLines {
    /// One record more.
    fn push(&mut self, resource: Record) -> Result<(), OutOfMemory>
        requires { IsLawful resource.rdata }
        ensures { OnOk result (self.new ≡ record self.old { records = self.old.records ++ resource ∷ [] }) }
    {
        self.records.push(resource)?;
        Ok(())
    }
}

/// A script whose service isn't made yet, and its service lines.
#[derive(Drop)]
pub(crate) struct Draft<E> {
    /// What the other lines say.
    pub script: Script<E>,
    rules: Rules,
    upstreams: Upstreams,
    zone: Option<ZoneLines>,
}

impl<E> Model for Draft<E> {
    ghost use Rattle.dns_script.specs.Draft.{Draft};

    ghost Value = { Draft E };

    ghost view = { λ d. record { plan = d.script; rules = d.rules; upstreams = d.upstreams; zone = d.zone } };
}

impl<E: Drop> Draft<E> {
    /// What a script says without a line.
    pub fn new(alloc: Global) -> Draft<E>
        ensures { result ≡ empty_draft }
    {
        Draft {
            script: Script::new(alloc),
            rules: Rules::new(alloc),
            upstreams: Upstreams::new(alloc),
            zone: None,
        }
    }

    /// Whether a rule is of the kind of the service lines so far.
    pub fn may_be_rule(&self) -> bool
        ensures { result ≡ may_be_rule self.now }
    {
        self.upstreams.as_slice().is_empty() && self.zone.is_none()
    }

    /// Whether an upstream line is of the kind of the service lines so far.
    pub fn may_be_upstream(&self) -> bool
        ensures { result ≡ may_be_upstream self.now }
    {
        self.rules.as_slice().is_empty() && self.zone.is_none()
    }

    /// Whether a zone line is of the kind of the service lines so far.
    pub fn may_be_zone(&self) -> bool
        ensures { result ≡ may_be_zone self.now }
    {
        self.rules.as_slice().is_empty() && self.upstreams.as_slice().is_empty()
    }

    /// Whether there is a zone, after which records stand.
    pub fn has_zone(&self) -> bool
        ensures { result ≡ is_some self.now.zone }
    {
        self.zone.is_some()
    }

    /// Appends the rule of a service line.
    pub fn push_rule(&mut self, rule: Rule) -> Result<(), OutOfMemory>
        ensures { OnOk result (self.new ≡ record self.old { rules = self.old.rules ++ rule ∷ [] }) }
    {
        self.rules.push(rule)
    }

    /// Appends the upstream of an upstream line.
    pub fn push_upstream(&mut self, upstream: UpstreamLine) -> Result<(), OutOfMemory>
        ensures { OnOk result (self.new ≡ record self.old { upstreams = self.old.upstreams ++ upstream ∷ [] }) }
    {
        self.upstreams.push(upstream)
    }

    /// A zone without a record, in place of one.
    pub fn begin_zone(&mut self, alloc: Global, apex: Name)
        ensures { self.new ≡ record self.old { zone = Some (record { apex = apex; records = [] }) } }
    {
        self.zone = Some(ZoneLines {
            apex,
            records: Vec::new(alloc),
        });
    }

    /// One record of the zone more, if there is one.
    pub fn push_record(&mut self, resource: Record) -> Result<(), OutOfMemory>
        requires { IsLawful resource.rdata }
        ensures { OnOk result (self.new ≡ with_zone_record self.old resource) }
    {
        push_record(&mut self.zone, resource)
    }

    /// The script with its service. The records of a zone may make none.
    pub fn finish(self, alloc: Global) -> Result<Script<E>, LineError>
        ensures { GivesLine (λ p. p) result (finished self) }
    {
        let Draft {
            script,
            rules,
            upstreams,
            zone,
        } = self;
        let mut script = script;
        let served = serve(alloc, &mut script, rules, upstreams, zone);
        served.and(Ok(script))
    }
}

/// A script gets the service that its lines say, if they say one.
fn serve<E: Drop>(
    alloc: Global,
    script: &mut Script<E>,
    rules: Rules,
    upstreams: Upstreams,
    zone: Option<ZoneLines>,
) -> Result<(), LineError>
    ensures { TakesLine result script.new (with_service script.old (service_by rules upstreams zone)) }
{
    match service_of(alloc, rules, upstreams, zone) {
        Ok(service) => {
            script.set_service(service);
            Ok(())
        }
        Err(error) => Err(error),
    }
}

/// One record of a zone more, if there is one.
fn push_record(zone: &mut Option<ZoneLines>, resource: Record) -> Result<(), OutOfMemory>
    requires { IsLawful resource.rdata }
    ensures { OnOk result (zone.new ≡ record_more zone.old resource) }
{
    match zone {
        Some(zone) => zone.push(resource),
        None => Ok(()),
    }
}

/// The service that lines say.
fn service_of(
    alloc: Global,
    rules: Rules,
    upstreams: Upstreams,
    zone: Option<ZoneLines>,
) -> Result<ServiceLines, LineError>
    ensures { GivesLine (λ s. s) result (service_by rules upstreams zone) }
{
    match zone {
        Some(zone) => made_zone(alloc, zone),
        None => {
            if upstreams.as_slice().is_empty() {
                return Ok(ServiceLines::Rules(rules));
            }
            Ok(ServiceLines::Upstreams(upstreams))
        }
    }
}

/// The zone, if its records make one.
fn made_zone(alloc: Global, zone: ZoneLines) -> Result<ServiceLines, LineError>
    ensures { GivesLine (λ s. s) result (made_zone zone (zone_error zone.apex zone.records)) }
{
    let ZoneLines { apex, records } = zone;
    match Zone::new(alloc, apex, records) {
        Ok(zone) => Ok(ServiceLines::Zone(zone)),
        Err(error) => Err(refused(error)),
    }
}

/// Why lines make no zone.
fn refused(error: ZoneError) -> LineError
    ensures { result ≡ zone_refused error }
{
    match error {
        ZoneError::OutOfMemory => LineError::OutOfMemory,
        _ => LineError::Refused(Reason::Zone),
    }
}
