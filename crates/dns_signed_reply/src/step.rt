//! One name of a chain of aliases: what is given of it, and what it leads to.

ghost use Rattle.std.specs.Prelude.{◌≡◌, [], List, ℕ, Some, if◌then◌else◌, IfOk, IsTrue};
ghost use Rattle.std.specs.Option.{option_copied};
ghost use Rattle.dns_route.specs.Routes.{ends_name};
ghost use Rattle.dns_zone.specs.Owned.{target};
ghost use Rattle.dns_zone.specs.Places.{at_places};
ghost use Rattle.dns_zone.specs.ZoneReply.{ZoneReply, authoritative, denied, follows, referral};
ghost use Rattle.dns_zone_tree.specs.Kinds.{kind_places};
ghost use Rattle.dns_zone_tree.specs.Regions.{asked_region};
ghost use Rattle.dns_zone_tree.specs.Walks.{IsNode, ReachesNode, ReachesNone};
ghost use Rattle.dns_zone_tree.specs.Wildcards.{wildcard};
ghost use Rattle.dns_name_server.specs.NameServerReplies.{behind_alias, by_dname, by_region, by_target, gone_to, made_alias, too_long};
ghost use Rattle.dns_name_server.specs.Steps.{followed_alias};
ghost use Rattle.dns_signed_reply.specs.PlainReplies.{StepsTo, by_records, said, step_reply};

use crate::names::front_of;
use crate::plain::{PlainReply, authoritative, denied, own_reply, referral};
use crate::records::{of_node, of_wildcard};
use dns_base::{Name, NameRef, Rcode, Record, RecordData, Rtype};
use dns_name::OutOfMemory;
use dns_zone_tree::{ANY, Kinds, Walk, ZoneTree, record_target};
use std::alloc::Global;

/// The type of an alias.
const CNAME: u16 = 5;

/// The type of an alias for all names below a name (RFC 6672).
const DNAME: u16 = 39;

/// What a name leads to.
#[derive(Drop)]
pub(crate) enum Step {
    /// The end of the chain.
    End(PlainReply),
    /// Another name.
    On(Name),
}

/// Whether an alias is followed for a type.
pub fn follows(rtype: u16) -> bool
    ensures { result ≡ follows rtype }
{
    rtype != CNAME && rtype != ANY
}

/// Nothing more.
fn nothing(alloc: Global) -> PlainReply
    ensures { said result ≡ authoritative [] }
{
    let none = Vec::new(alloc);
    authoritative(alloc, none)
}

/// The first of the CNAME records of a name, if it is followed for a type.
fn followed_alias(rtype: u16, aliases: &[Record]) -> Option<&Record>
    ensures { option_copied result ≡ followed_alias rtype aliases.now }
{
    if follows(rtype) {
        return aliases.first();
    }
    None
}

/// Gives an alias, and goes to its target.
fn follow(alloc: Global, alias: &Record, given: &mut Vec<Record>) -> Result<Step, OutOfMemory>
    ensures { IfOk result (λ s. StepsTo given.old.items given.new.items s
        (λ go. behind_alias alias.now (gone_to go (target alias.now.rdata)))) }
{
    let copy = alias.try_clone(alloc)?;
    given.push(copy)?;
    match record_target(alias) {
        Some(target) => {
            let name = target.try_clone(alloc)?;
            Ok(Step::On(name))
        }
        None => Ok(Step::End(nothing(alloc))),
    }
}

/// What a name leads to that has these CNAME records and these of the type.
fn with_records(
    zone: &ZoneTree,
    alloc: Global,
    rtype: u16,
    aliases: &[Record],
    records: Vec<Record>,
    given: &mut Vec<Record>,
) -> Result<Step, OutOfMemory>
    ensures { IfOk result (λ s. StepsTo given.old.items given.new.items s (λ go. by_records zone.now go rtype aliases.now records.items)) }
{
    match followed_alias(rtype, aliases) {
        Some(alias) => follow(alloc, alias, given),
        None => {
            let reply = own_reply(zone, alloc, records)?;
            Ok(Step::End(reply))
        }
    }
}

/// What a name that exists leads to.
fn at_node(
    zone: &ZoneTree,
    alloc: Global,
    rtype: u16,
    kinds: &Kinds,
    given: &mut Vec<Record>,
) -> Result<Step, OutOfMemory>
    ensures { (name : List (List ℕ)) → ReachesNode zone.now rtype name kinds.now
        → IfOk result (λ s. StepsTo given.old.items given.new.items s
        (λ go. by_region zone.now go rtype name (asked_region zone.now rtype name))) }
{
    let aliases = of_node(zone, alloc, kinds, CNAME)?;
    let records = of_node(zone, alloc, kinds, rtype)?;
    with_records(zone, alloc, rtype, aliases.as_slice(), records, given)
}

/// What a name that a wildcard stands for leads to.
fn at_wildcard(
    zone: &ZoneTree,
    alloc: Global,
    rtype: u16,
    name: &NameRef<'_>,
    kinds: &Kinds,
    given: &mut Vec<Record>,
) -> Result<Step, OutOfMemory>
    ensures { (n : ℕ) → ReachesNone zone.now rtype name.now n → IsNode zone.now (wildcard zone.now name.now) (Some kinds.now)
        → IfOk result (λ s. StepsTo given.old.items given.new.items s
        (λ go. by_region zone.now go rtype name.now (asked_region zone.now rtype name.now))) }
{
    let aliases = of_wildcard(zone, alloc, kinds, CNAME, name)?;
    let records = of_wildcard(zone, alloc, kinds, rtype, name)?;
    with_records(zone, alloc, rtype, aliases.as_slice(), records, given)
}

/// That a name doesn't exist.
fn no_such_name(zone: &ZoneTree, alloc: Global) -> Result<Step, OutOfMemory>
    ensures { IfOk result (λ s. (go : List (List ℕ) → ZoneReply) → step_reply go s ≡ denied zone.now 3) }
{
    let reply = denied(zone, alloc, Rcode::NXDOMAIN)?;
    Ok(Step::End(reply))
}

/// What a name that doesn't exist leads to.
fn at_missing(
    zone: &ZoneTree,
    alloc: Global,
    rtype: u16,
    name: &NameRef<'_>,
    skipped: usize,
    given: &mut Vec<Record>,
) -> Result<Step, OutOfMemory>
    requires { ReachesNone zone.now rtype name.now skipped }
    ensures { IfOk result (λ s. StepsTo given.old.items given.new.items s
        (λ go. by_region zone.now go rtype name.now (asked_region zone.now rtype name.now))) }
{
    let found = zone.wildcard(alloc, &name.behind(skipped))?;
    match found {
        Some(kinds) => at_wildcard(zone, alloc, rtype, name, kinds, given),
        None => no_such_name(zone, alloc),
    }
}

/// The target of a CNAME record that is made of a DNAME record, if it is followed for a type.
fn gone_to(alloc: Global, rtype: u16, to: Name) -> Step
    ensures { (go : List (List ℕ) → ZoneReply) → step_reply go result ≡ (if follows rtype then go to else authoritative []) }
{
    if follows(rtype) {
        return Step::On(to);
    }
    Step::End(nothing(alloc))
}

/// The CNAME record that is made of a DNAME record (RFC 6672, section 3.1).
fn made_alias(
    alloc: Global,
    name: &NameRef<'_>,
    dname: &Record,
    to: &Name,
) -> Result<Record, OutOfMemory>
    ensures { IfOk result (λ r. r ≡ made_alias name.now dname.now to.now) }
{
    let owner = name.to_owned(alloc)?;
    let target = to.try_clone(alloc)?;
    Ok(Record {
        owner,
        class: dname.class,
        ttl: dname.ttl,
        rdata: RecordData::Named {
            rtype: Rtype::CNAME,
            name: target,
        },
    })
}

/// The end of a chain at a name that would be too long (RFC 6672, section 2.2).
fn too_long(alloc: Global) -> PlainReply
    ensures { said result ≡ too_long }
{
    let mut reply = nothing(alloc);
    reply.rcode = Rcode::YXDOMAIN;
    reply
}

/// Gives the CNAME record that is made of a DNAME record, if its target isn't too long, and goes to that.
fn substituted(
    alloc: Global,
    rtype: u16,
    name: &NameRef<'_>,
    dname: &Record,
    target: &Name,
    given: &mut Vec<Record>,
) -> Result<Step, OutOfMemory>
    ensures { IfOk result (λ s. StepsTo given.old.items given.new.items s (λ go. by_target go rtype name.now dname.now (Some target.now))) }
{
    let count = name.label_count().saturating_sub(dname.owner.label_count());
    let front = front_of(alloc, name, count)?;
    let found = front.under(alloc, target)?;
    match found {
        Some(to) => {
            let alias = made_alias(alloc, name, dname, &to)?;
            given.push(alias)?;
            Ok(gone_to(alloc, rtype, to))
        }
        None => Ok(Step::End(too_long(alloc))),
    }
}

/// What a name below a DNAME record leads to, if that has a target.
fn by_target(
    alloc: Global,
    rtype: u16,
    name: &NameRef<'_>,
    dname: &Record,
    given: &mut Vec<Record>,
) -> Result<Step, OutOfMemory>
    ensures { IfOk result (λ s. StepsTo given.old.items given.new.items s
        (λ go. by_target go rtype name.now dname.now (target dname.now.rdata))) }
{
    match record_target(dname) {
        Some(target) => substituted(alloc, rtype, name, dname, target, given),
        None => Ok(Step::End(nothing(alloc))),
    }
}

/// Gives a DNAME record, and what a name below it leads to.
fn give_dname(
    alloc: Global,
    rtype: u16,
    name: &NameRef<'_>,
    dname: &Record,
    given: &mut Vec<Record>,
) -> Result<Step, OutOfMemory>
    ensures { IfOk result (λ s. StepsTo given.old.items given.new.items s
        (λ go. behind_alias dname.now (by_target go rtype name.now dname.now (target dname.now.rdata)))) }
{
    let copy = dname.try_clone(alloc)?;
    given.push(copy)?;
    by_target(alloc, rtype, name, dname, given)
}

/// What a name below DNAME records leads to.
fn at_dname(
    zone: &ZoneTree,
    alloc: Global,
    rtype: u16,
    name: &NameRef<'_>,
    kinds: &Kinds,
    given: &mut Vec<Record>,
) -> Result<Step, OutOfMemory>
    ensures { IfOk result (λ s. StepsTo given.old.items given.new.items s
        (λ go. by_dname go rtype name.now (at_places zone.now.records (kind_places 39 kinds.now)))) }
{
    let found = of_node(zone, alloc, kinds, DNAME)?;
    match found.as_slice().first() {
        Some(dname) => give_dname(alloc, rtype, name, dname, given),
        None => Ok(Step::End(nothing(alloc))),
    }
}

/// A referral to a cut.
fn at_cut(zone: &ZoneTree, alloc: Global, kinds: &Kinds) -> Result<Step, OutOfMemory>
    ensures { IfOk result (λ s. (go : List (List ℕ) → ZoneReply)
        → step_reply go s ≡ referral zone.now (at_places zone.now.records (kind_places 2 kinds.now))) }
{
    let reply = referral(zone, alloc, kinds)?;
    Ok(Step::End(reply))
}

/// What a name leads to, if a type is asked for.
pub(crate) fn step_of(
    zone: &ZoneTree,
    alloc: Global,
    rtype: u16,
    name: &NameRef<'_>,
    given: &mut Vec<Record>,
) -> Result<Step, OutOfMemory>
    requires { IsTrue (ends_name name.now zone.now.apex) }
    ensures { IfOk result (λ s. StepsTo given.old.items given.new.items s
        (λ go. by_region zone.now go rtype name.now (asked_region zone.now rtype name.now))) }
{
    let found = zone.walk(alloc, name, rtype)?;
    match found {
        Walk::Cut(kinds) => at_cut(zone, alloc, kinds),
        Walk::Dname(kinds) => at_dname(zone, alloc, rtype, name, kinds, given),
        Walk::Node(kinds) => at_node(zone, alloc, rtype, kinds, given),
        Walk::Missing(skipped) => at_missing(zone, alloc, rtype, name, skipped, given),
    }
}
