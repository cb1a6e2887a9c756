//! A zone of an authority.

ghost use Rattle.std.specs.Prelude.{◌≡◌, ◌∷◌, [], length, map, None, IfOk};
ghost use Rattle.std.specs.List.{AllByRecursion, filter, position};
ghost use Rattle.dns_base.specs.Records.{IsLawful, record_of};
ghost use Rattle.dns_zone.specs.ZoneIndex.{IsInZone};
ghost use Rattle.dns_zone.specs.Owned.{AreLawful, is_of};
ghost use Rattle.dns_zone.specs.ZoneReply.{negative_soa};
ghost use Rattle.dns_zone_tree.specs.Long.{is_long};
ghost use Rattle.dns_zone_tree.specs.Names.{KnowsNames};
ghost use Rattle.dns_zone_tree.specs.TreeErrors.{Makes, tree_error};

use crate::check::checked;
use crate::error::TreeError;
use crate::hints::Hints;
use crate::kinds::Kinds;
use crate::listing::{kinds_of, negative_of};
use crate::names::Names;
use crate::referrals::Referrals;
use dns_base::{Record, WireRecords};
use dns_name::{Name, OutOfMemory};
use std::alloc::Global;
use std::marker::Model;

/// A zone of an authority: records that are found by name and type, in a tree by keys in the canonical order. Contracts see
/// the apex and the records in order.
#[derive(Drop)]
pub struct ZoneTree {
    pub(crate) apex: Name,
    pub(crate) records: Vec<Record>,
    pub(crate) names: Names,
    pub(crate) top: Kinds,
    pub(crate) negative: Record,
    pub(crate) denial: WireRecords,
    pub(crate) referrals: Referrals,
    pub(crate) hints: Hints,
    pub(crate) headed: bool,
}

impl Model for ZoneTree {
    ghost use Rattle.dns_zone.specs.Owned.{ZoneState};
    ghost use Rattle.dns_zone_tree.specs.Names.{IsTree};

    ghost Value = { ZoneState };

    ghost view = { λ z. record { apex = z.apex; records = z.records.items } };

    ghost invariant = { λ z. IsTree z.apex z.records.items z.names z.top z.negative z.denial z.referrals.list.items z.headed };
}

/// A record in wire form.
fn written(alloc: Global, resource: &Record) -> Result<WireRecords, OutOfMemory>
    requires { IsLawful resource.now.rdata }
    ensures { IfOk result (λ w. w ≡ record_of resource.now ∷ []) }
{
    let mut one = WireRecords::new(alloc);
    one.push(alloc, resource)?;
    Ok(one)
}

/// The zone of records that were checked.
fn made(
    alloc: Global,
    apex: Name,
    records: Vec<Record>,
    names: Names,
) -> Result<ZoneTree, OutOfMemory>
    requires lawful { AreLawful records.items }
    requires within { AllByRecursion (IsInZone apex) records.items }
    requires short { position is_long records.items ≡ None }
    requires one { length (filter (is_of 6) records.items) ≡ 1 }
    requires known { KnowsNames names records.items }
    ensures { IfOk result (λ z. z ≡ record { apex = apex; records = records.items }) }
{
    let negative = negative_of(alloc, records.as_slice())?;
    let denial = written(alloc, &negative)?;
    let top = kinds_of(alloc, &names, &apex)?;
    let mut zone = ZoneTree {
        apex,
        records,
        names,
        top,
        negative,
        denial,
        referrals: Referrals::new(alloc),
        hints: Hints::new(alloc),
        headed: false,
    };
    zone.head(alloc)?;
    zone.refer(alloc)?;
    Ok(zone)
}

impl ZoneTree {
    /// The zone that begins at the apex and has these records. Refused for the first of the causes in the order of
    /// `TreeError`, whose places are those of the list.
    pub fn new(alloc: Global, apex: Name, records: Vec<Record>) -> Result<ZoneTree, TreeError>
        requires { AreLawful records.items }
        ensures { Makes (tree_error apex records.items) (record { apex = apex; records = records.items }) result }
    {
        match checked(alloc, &apex, records.as_slice()) {
            Ok(names) => match made(alloc, apex, records, names) {
                Ok(zone) => Ok(zone),
                Err(_) => Err(TreeError::OutOfMemory),
            },
            Err(error) => Err(error),
        }
    }

    /// The name at which it begins.
    pub fn apex(&self) -> &Name
        ensures { result.now ≡ self.now.apex }
    {
        &self.apex
    }

    /// Its records, in order.
    pub fn records(&self) -> &[Record]
        ensures value { result.now ≡ self.now.records }
        ensures lawful { AreLawful result.now }
        ensures within { AllByRecursion (IsInZone self.now.apex) result.now }
        ensures short { position is_long result.now ≡ None }
    {
        self.records.as_slice()
    }

    /// The SOA record as it is in a negative answer (RFC 2308, section 3).
    pub fn negative(&self) -> &Record
        ensures value { map negative_soa (filter (is_of 6) self.now.records) ≡ result.now ∷ [] }
        ensures lawful { IsLawful result.now.rdata }
    {
        &self.negative
    }

    /// That record in wire form.
    pub fn denial(&self) -> &WireRecords
        ensures { result.now ≡ map record_of (map negative_soa (filter (is_of 6) self.now.records)) }
    {
        &self.denial
    }
}
