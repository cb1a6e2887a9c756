//! Copies of record data.

ghost use Rattle.std.specs.Prelude.{◌≡◌, IfOk, None};
ghost use Rattle.dns_message.specs.Equality.{data_parts};
ghost use Rattle.dns_message.specs.Records.{IsLawful, octets_alone};

use crate::rdata::RecordData;
use dns_name::{Name, Octets, OutOfMemory, Rtype};
use std::alloc::Global;

/// Data that is copied, or out of memory.
type CopiedData = Result<RecordData, OutOfMemory>;

impl RecordData {
    /// A copy in memory of its own, with every name and string in it.
    #[tactic(auto, using(crate::proofs::Copies::lawful_copy))]
    pub fn try_clone(&self, alloc: Global) -> Result<RecordData, OutOfMemory>
        ensures value { IfOk result (λ d. d ≡ self.now) }
        ensures lawful { IsLawful self.now → IfOk result IsLawful }
    {
        self.copied(alloc)
    }

    /// A copy.
    fn copied(&self, alloc: Global) -> CopiedData
        ensures { IfOk result (λ d. d ≡ self.now) }
    {
        match self {
            RecordData::A(octets) => Ok(RecordData::A(*octets)),
            RecordData::Aaaa(octets) => Ok(RecordData::Aaaa(*octets)),
            RecordData::Opt(octets) => copy_opt(alloc, octets),
            RecordData::Unknown { rtype, octets } => copy_unknown(alloc, *rtype, octets),
            _ => self.copied_fields(alloc),
        }
    }

    /// A copy of data that is names and numbers.
    fn copied_fields(&self, alloc: Global) -> CopiedData
        requires { octets_alone self.now ≡ None }
        ensures { IfOk result (λ d. d ≡ self.now) }
    {
        match self {
            RecordData::Named { rtype, name } => copy_named(alloc, *rtype, name),
            RecordData::Minfo { first, second } => copy_minfo(alloc, first, second),
            RecordData::Mx {
                preference,
                exchange,
            } => copy_mx(alloc, *preference, exchange),
            RecordData::Srv {
                priority,
                weight,
                port,
                target,
            } => copy_srv(alloc, *priority, *weight, *port, target),
            _ => self.copied_soa(alloc),
        }
    }

    /// A copy of the start of a zone.
    fn copied_soa(&self, alloc: Global) -> CopiedData
        requires { (data_parts self.now).0 ≡ 4 }
        ensures { IfOk result (λ d. d ≡ self.now) }
    {
        let (mname, rname, numbers) = self.zone_start();
        let (mname, rname) = copy_names(alloc, mname, rname)?;
        Ok(RecordData::of_zone_start(mname, rname, numbers))
    }
}

fn copy_names(alloc: Global, first: &Name, second: &Name) -> Result<(Name, Name), OutOfMemory>
    ensures { IfOk result (λ names. (names.0 ≡ first.now) × (names.1 ≡ second.now)) }
{
    let first = first.try_clone(alloc)?;
    let second = second.try_clone(alloc)?;
    Ok((first, second))
}

fn copy_named(alloc: Global, rtype: Rtype, name: &Name) -> CopiedData
    ensures { IfOk result (λ d. d ≡ RecordData.Named rtype name.now) }
{
    let name = name.try_clone(alloc)?;
    Ok(RecordData::Named { rtype, name })
}

fn copy_minfo(alloc: Global, first: &Name, second: &Name) -> CopiedData
    ensures { IfOk result (λ d. d ≡ RecordData.Minfo first.now second.now) }
{
    let (first, second) = copy_names(alloc, first, second)?;
    Ok(RecordData::Minfo { first, second })
}

fn copy_mx(alloc: Global, preference: u16, exchange: &Name) -> CopiedData
    ensures { IfOk result (λ d. d ≡ RecordData.Mx preference exchange.now) }
{
    let exchange = exchange.try_clone(alloc)?;
    Ok(RecordData::Mx {
        preference,
        exchange,
    })
}

fn copy_srv(alloc: Global, priority: u16, weight: u16, port: u16, target: &Name) -> CopiedData
    ensures { IfOk result (λ d. d ≡ RecordData.Srv priority weight port target.now) }
{
    let target = target.try_clone(alloc)?;
    Ok(RecordData::Srv {
        priority,
        weight,
        port,
        target,
    })
}

fn copy_opt(alloc: Global, octets: &Octets) -> CopiedData
    ensures { IfOk result (λ d. d ≡ RecordData.Opt octets.now) }
{
    let octets = Octets::from_slice(alloc, octets.as_slice())?;
    Ok(RecordData::Opt(octets))
}

fn copy_unknown(alloc: Global, rtype: Rtype, octets: &Octets) -> CopiedData
    ensures { IfOk result (λ d. d ≡ RecordData.Unknown rtype octets.now) }
{
    let octets = Octets::from_slice(alloc, octets.as_slice())?;
    Ok(RecordData::Unknown { rtype, octets })
}
