//! One name of a chain of aliases: what is given of it, and what it leads to.

ghost use Rattle.std.specs.Prelude.{◌≡◌, ◌++◌, ◌∷◌, [], List, ℕ, map, Some, if◌then◌else◌, IfOk, IfSome, OnOk, IsTrue};
ghost use Rattle.std.specs.Option.{option_copied};
ghost use Rattle.dns_base.specs.Records.{IsLawful, record_of};
ghost use Rattle.dns_route.specs.Routes.{ends_name};
ghost use Rattle.dns_zone.specs.Owned.{AreLawful, ZoneState, target};
ghost use Rattle.dns_zone.specs.Places.{at_places};
ghost use Rattle.dns_zone.specs.ZoneReply.{ZoneReply, authoritative, follows};
ghost use Rattle.dns_zone_tree.specs.Kinds.{kind_places, places_of};
ghost use Rattle.dns_zone_tree.specs.Regions.{asked_region};
ghost use Rattle.dns_zone_tree.specs.Walks.{IsNode, ReachesNode, ReachesNone};
ghost use Rattle.dns_zone_tree.specs.Wildcards.{given_as, wildcard};
ghost use Rattle.dns_name_server.specs.NameServerReplies.{behind_alias, by_dname, by_region, by_target, gone_to, made_alias};
ghost use Rattle.dns_name_server.specs.Steps.{StepsTo, behind, end_reply, followed_alias, head_of, own_reply, owned_by, step_reply, wired};

use crate::names::front_of;
use dns_base::{Name, NameRef, Record, RecordData, Rtype, WireRecords};
use dns_name::OutOfMemory;
use dns_zone_tree::{ANY, Kinds, TypedPlace, Walk, ZoneTree, record_target};
use std::alloc::Global;

/// What a chain of aliases ends with. Places are those of the zone's records.
#[derive(Drop)]
pub(crate) enum End<'a> {
    /// The records of a type that the last name owns.
    Own(&'a Kinds, u16),
    /// Nothing more.
    Nothing,
    /// The name servers of a cut.
    Delegation(&'a Kinds),
    /// No such records, of a name that exists or not.
    Denied(bool),
    /// A name that would be too long.
    TooLong,
}

/// What a name leads to.
#[derive(Drop)]
pub(crate) enum Step<'a> {
    /// The end.
    End(End<'a>),
    /// Another name.
    On(Name),
}

/// Whether an alias is followed for a type.
fn follows(rtype: u16) -> bool
    ensures { result ≡ follows rtype }
{
    rtype != Rtype::CNAME.to_int() && rtype != ANY
}

/// The first record of a type at places.
fn first_of<'a>(records: &'a [Record], kinds: &[TypedPlace], rtype: u16) -> Option<&'a Record>
    requires { AreLawful records.now }
    ensures value { option_copied result ≡ head_of (at_places records.now (places_of rtype kinds.now)) }
    ensures lawful { IfSome result (λ r. IsLawful r.now.rdata) }
{
    'each: for kind in kinds {
        if let Some(record) = kind.record(records, rtype) {
            return Some(record);
        }
    }
    None
}

/// A copy of a record, with another owner if one is given.
fn copied(
    alloc: Global,
    resource: &Record,
    owner: Option<&NameRef<'_>>,
) -> Result<Record, OutOfMemory>
    ensures value { IfOk result (λ r. r ≡ owned_by (option_copied owner.entry) resource.now) }
    ensures lawful { IsLawful resource.now.rdata → IfOk result (λ r. IsLawful r.rdata) }
{
    let mut copy = resource.try_clone(alloc)?;
    match owner {
        Some(name) => {
            copy.owner = name.to_owned(alloc)?;
            Ok(copy)
        }
        None => Ok(copy),
    }
}

/// Gives the record at a place as another name's, if it is of a type.
fn give_one(
    alloc: Global,
    records: &[Record],
    kind: &TypedPlace,
    rtype: u16,
    name: &NameRef<'_>,
    given: &mut WireRecords,
) -> Result<(), OutOfMemory>
    requires { AreLawful records.now }
    ensures { OnOk result (given.new ≡ given.old
        ++ map record_of (map (given_as name.now) (at_places records.now (places_of rtype (kind.now ∷ []))))) }
{
    match kind.record(records, rtype) {
        Some(record) => {
            let copy = copied(alloc, record, Some(name))?;
            given.push(alloc, &copy)?;
            Ok(())
        }
        None => Ok(()),
    }
}

/// Gives the records of a type at places as another name's.
fn give(
    alloc: Global,
    records: &[Record],
    kinds: &[TypedPlace],
    rtype: u16,
    name: &NameRef<'_>,
    given: &mut WireRecords,
) -> Result<(), OutOfMemory>
    requires { AreLawful records.now }
    ensures { OnOk result (given.new ≡ given.old
        ++ map record_of (map (given_as name.now) (at_places records.now (places_of rtype kinds.now)))) }
{
    'each: for kind in kinds {
        give_one(alloc, records, kind, rtype, name, given)?;
    }
    Ok(())
}

/// Gives an alias, with another owner if one is given, and goes to its target.
fn follow<'a>(
    alloc: Global,
    alias: &Record,
    owner: Option<&NameRef<'_>>,
    given: &mut WireRecords,
) -> Result<Step<'a>, OutOfMemory>
    requires { IsLawful alias.now.rdata }
    ensures { (z : ZoneState) → IfOk result (λ s.
        StepsTo z given.old given.new s (λ go. behind_alias (owned_by (option_copied owner.entry) alias.now)
        (gone_to go (target alias.now.rdata)))) }
{
    let copy = copied(alloc, alias, owner)?;
    given.push(alloc, &copy)?;
    match record_target(alias) {
        Some(target) => {
            let name = target.try_clone(alloc)?;
            Ok(Step::On(name))
        }
        None => Ok(Step::End(End::Nothing)),
    }
}

/// The alias among the records of a name, if it is followed for a type.
fn alias_in<'a>(zone: &'a ZoneTree, rtype: u16, kinds: &Kinds) -> Option<&'a Record>
    ensures value { option_copied result ≡ followed_alias rtype (at_places zone.now.records (kind_places 5 kinds.now)) }
    ensures lawful { IfSome result (λ r. IsLawful r.now.rdata) }
{
    if follows(rtype) {
        return first_of(zone.records(), kinds.as_slice(), Rtype::CNAME.to_int());
    }
    None
}

/// The records of a type of a name that exists.
fn own_end<'a>(kinds: &'a Kinds, rtype: u16) -> End<'a>
    ensures { (z : ZoneState) (name : List (List ℕ)) → ReachesNode z rtype name kinds.now
        → end_reply z result ≡ own_reply z (at_places z.records (kind_places rtype kinds.now)) }
{
    if kinds.has(rtype) {
        return End::Own(kinds, rtype);
    }
    End::Denied(true)
}

/// What a name that exists leads to.
fn at_node<'a>(
    zone: &'a ZoneTree,
    alloc: Global,
    rtype: u16,
    kinds: &'a Kinds,
    given: &mut WireRecords,
) -> Result<Step<'a>, OutOfMemory>
    ensures { (name : List (List ℕ)) → ReachesNode zone.now rtype name kinds.now
        → IfOk result (λ s. StepsTo zone.now given.old given.new s
        (λ go. by_region zone.now go rtype name (asked_region zone.now rtype name))) }
{
    match alias_in(zone, rtype, kinds) {
        Some(alias) => follow(alloc, alias, None, given),
        None => Ok(Step::End(own_end(kinds, rtype))),
    }
}

/// Gives the records of a type of a wildcard as another name's.
fn give_kind<'a>(
    zone: &ZoneTree,
    alloc: Global,
    rtype: u16,
    name: &NameRef<'_>,
    kinds: &Kinds,
    given: &mut WireRecords,
) -> Result<End<'a>, OutOfMemory>
    ensures { IfOk result (λ e. behind given.new (wired (end_reply zone.now e))
        ≡ behind given.old (wired (own_reply zone.now
        (map (given_as name.now) (at_places zone.now.records (kind_places rtype kinds.now)))))) }
{
    let start = given.len();
    give(alloc, zone.records(), kinds.as_slice(), rtype, name, given)?;
    let end = given.len();
    if end == start {
        return Ok(End::Denied(true));
    }
    Ok(End::Nothing)
}

/// What a name that a wildcard stands for leads to.
fn at_wildcard<'a>(
    zone: &'a ZoneTree,
    alloc: Global,
    rtype: u16,
    name: &NameRef<'_>,
    kinds: &'a Kinds,
    given: &mut WireRecords,
) -> Result<Step<'a>, OutOfMemory>
    ensures { (n : ℕ) → ReachesNone zone.now rtype name.now n → IsNode zone.now (wildcard zone.now name.now) (Some kinds.now)
        → IfOk result (λ s. StepsTo zone.now given.old given.new s
        (λ go. by_region zone.now go rtype name.now (asked_region zone.now rtype name.now))) }
{
    match alias_in(zone, rtype, kinds) {
        Some(alias) => follow(alloc, alias, Some(name), given),
        None => {
            let end = give_kind(zone, alloc, rtype, name, kinds, given)?;
            Ok(Step::End(end))
        }
    }
}

/// What a name that doesn't exist leads to.
fn at_missing<'a>(
    zone: &'a ZoneTree,
    alloc: Global,
    rtype: u16,
    name: &NameRef<'_>,
    skipped: usize,
    given: &mut WireRecords,
) -> Result<Step<'a>, OutOfMemory>
    requires { ReachesNone zone.now rtype name.now skipped }
    ensures { IfOk result (λ s. StepsTo zone.now given.old given.new s
        (λ go. by_region zone.now go rtype name.now (asked_region zone.now rtype name.now))) }
{
    let found = zone.wildcard(alloc, &name.behind(skipped))?;
    match found {
        Some(kinds) => at_wildcard(zone, alloc, rtype, name, kinds, given),
        None => Ok(Step::End(End::Denied(false))),
    }
}

/// The target of a CNAME record that is made of a DNAME record, if it is followed for a type.
fn gone_to<'a>(rtype: u16, to: Name) -> Step<'a>
    ensures { (z : ZoneState) (go : List (List ℕ) → ZoneReply)
        → step_reply z go result ≡ (if follows rtype then go to else authoritative []) }
{
    if follows(rtype) {
        return Step::On(to);
    }
    Step::End(End::Nothing)
}

/// The CNAME record that is made of a DNAME record (RFC 6672, section 3.1).
fn made_alias(
    alloc: Global,
    name: &NameRef<'_>,
    dname: &Record,
    to: &Name,
) -> Result<Record, OutOfMemory>
    ensures value { IfOk result (λ r. r ≡ made_alias name.now dname.now to.now) }
    ensures lawful { IfOk result (λ r. IsLawful r.rdata) }
{
    let owner = name.to_owned(alloc)?;
    let target = to.try_clone(alloc)?;
    Ok(Record {
        owner,
        class: dname.class,
        ttl: dname.ttl,
        rdata: RecordData::Named {
            rtype: Rtype::CNAME,
            name: target,
        },
    })
}

/// Gives the CNAME record that is made of a DNAME record, if its target isn't too long, and goes to that.
fn substituted<'a>(
    alloc: Global,
    rtype: u16,
    name: &NameRef<'_>,
    dname: &Record,
    target: &Name,
    given: &mut WireRecords,
) -> Result<Step<'a>, OutOfMemory>
    ensures { (z : ZoneState) → IfOk result (λ s.
        StepsTo z given.old given.new s (λ go. by_target go rtype name.now dname.now (Some target.now))) }
{
    let count = name.label_count().saturating_sub(dname.owner.label_count());
    let front = front_of(alloc, name, count)?;
    let found = front.under(alloc, target)?;
    match found {
        Some(to) => {
            let alias = made_alias(alloc, name, dname, &to)?;
            given.push(alloc, &alias)?;
            Ok(gone_to(rtype, to))
        }
        None => Ok(Step::End(End::TooLong)),
    }
}

/// What a name below a DNAME record leads to, if that has a target.
fn by_target<'a>(
    alloc: Global,
    rtype: u16,
    name: &NameRef<'_>,
    dname: &Record,
    given: &mut WireRecords,
) -> Result<Step<'a>, OutOfMemory>
    ensures { (z : ZoneState) → IfOk result (λ s.
        StepsTo z given.old given.new s (λ go. by_target go rtype name.now dname.now (target dname.now.rdata))) }
{
    match record_target(dname) {
        Some(target) => substituted(alloc, rtype, name, dname, target, given),
        None => Ok(Step::End(End::Nothing)),
    }
}

/// Gives a DNAME record, and what a name below it leads to.
fn give_dname<'a>(
    alloc: Global,
    rtype: u16,
    name: &NameRef<'_>,
    dname: &Record,
    given: &mut WireRecords,
) -> Result<Step<'a>, OutOfMemory>
    requires { IsLawful dname.now.rdata }
    ensures { (z : ZoneState) → IfOk result (λ s.
        StepsTo z given.old given.new s (λ go. behind_alias dname.now (by_target go rtype name.now dname.now (target dname.now.rdata)))) }
{
    let copy = copied(alloc, dname, None)?;
    given.push(alloc, &copy)?;
    by_target(alloc, rtype, name, dname, given)
}

/// What a name below DNAME records leads to.
fn at_dname<'a>(
    zone: &'a ZoneTree,
    alloc: Global,
    rtype: u16,
    name: &NameRef<'_>,
    kinds: &Kinds,
    given: &mut WireRecords,
) -> Result<Step<'a>, OutOfMemory>
    ensures { IfOk result (λ s. StepsTo zone.now given.old given.new s
        (λ go. by_dname go rtype name.now (at_places zone.now.records (kind_places 39 kinds.now)))) }
{
    match first_of(zone.records(), kinds.as_slice(), Rtype::DNAME.to_int()) {
        Some(dname) => give_dname(alloc, rtype, name, dname, given),
        None => Ok(Step::End(End::Nothing)),
    }
}

/// What a name leads to, if a type is asked for.
pub(crate) fn step_of<'a>(
    zone: &'a ZoneTree,
    alloc: Global,
    rtype: u16,
    name: &NameRef<'_>,
    given: &mut WireRecords,
) -> Result<Step<'a>, OutOfMemory>
    requires { IsTrue (ends_name name.now zone.now.apex) }
    ensures { IfOk result (λ s. StepsTo zone.now given.old given.new s
        (λ go. by_region zone.now go rtype name.now (asked_region zone.now rtype name.now))) }
{
    let found = zone.walk(alloc, name, rtype)?;
    match found {
        Walk::Cut(kinds) => Ok(Step::End(End::Delegation(kinds))),
        Walk::Dname(kinds) => at_dname(zone, alloc, rtype, name, kinds, given),
        Walk::Node(kinds) => at_node(zone, alloc, rtype, kinds, given),
        Walk::Missing(skipped) => at_missing(zone, alloc, rtype, name, skipped, given),
    }
}
