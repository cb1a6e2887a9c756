//! Whether a chain of NSEC3s is whole.

ghost use Rattle.std.specs.Prelude.{◌≡◌, ◌||◌, ◌&&◌, ◌<◌, ◌-◌, ◌∷◌, [], not, drop, length, map, nat_eq, slice_index_or, true, false, None, IfOk, IsTrue, MatchOption, MatchResult};
ghost use Rattle.std.specs.List.{Contains, list_all, list_any, position};
ghost use Rattle.std.specs.Str.{bytes_eq};
ghost use Rattle.dns_base.specs.Records.{data_type};
ghost use Rattle.dns_message.specs.declared.record.Record.{Record};
ghost use Rattle.dns_route.specs.Routes.{ends_name};
ghost use Rattle.dns_zone.specs.Places.{at_places};
ghost use Rattle.dns_zone_tree.specs.Kinds.{places_of};
ghost use Rattle.dns_zone_tree.specs.TreeErrors.{tree_error};
ghost use Rattle.dns_denial.specs.Chains.{has_type, is_deniable, is_record_at};
ghost use Rattle.dns_denial.specs.Checks.{IsHeld, is_placed};
ghost use Rattle.dns_denial.specs.Hashes.{AreSorted3};
ghost use Rattle.dns_denial.specs.Nsec3.{IsChained3, Nsec3State, has, is_matched, is_unsigned};
ghost use Rattle.dns_hashed_zone.specs.HashedChecks.{AreLinked3, Breaks3, IsUnlinked3, are_held, hash_after, is_held, is_met, is_there3, is_unlisted3, lists_types, zone_names};
ghost use Rattle.dns_hashed_zone.specs.Meetings.{IsAbove, IsStanding, all_marked, is_point, is_type_listed, is_typed, marked, record_marked};

use crate::hashed_zone_error::HashedChainError;
use crate::search::near_of;
use dns_base::Record;
use dns_denial::{Hashing, Nsec3};
use dns_name::{NameRef, OutOfMemory};
use dns_zone_tree::{ANY, Kinds, TypedPlace, Walk, ZoneTree};
use std::alloc::Global;

/// The type of name servers.
const NS: u16 = 2;

/// The type of the records of a delegation's keys. A walk for it passes the cut at the name itself.
const DS: u16 = 43;

/// Whether a type's bit says something.
fn is_deniable(rtype: u16) -> bool
    ensures { result ≡ is_deniable rtype }
{
    !(rtype == 46 || rtype == 47)
}

/// Whether there is a place of a type.
fn is_placed(kinds: &Kinds, rtype: u16) -> bool
    ensures { result ≡ is_placed rtype kinds.now }
{
    kinds.has(rtype)
}

/// Whether a name with these places is a delegation point.
fn is_cut(zone: &ZoneTree, name: &NameRef<'_>, kinds: &Kinds) -> bool
    ensures { result ≡ is_point zone.now name.now kinds.now }
{
    is_placed(kinds, NS) && !name.name_eq(&zone.apex().for_ref())
}

/// Whether a name with these places has a type: of a delegation point the NS and the DS alone.
fn is_typed(kinds: &Kinds, cut: bool, rtype: u16) -> bool
    ensures { result ≡ is_typed kinds.now cut rtype }
{
    is_placed(kinds, rtype) && (!cut || (rtype == NS || rtype == DS))
}

/// Whether a record has the type 255, and a name for its owner.
fn is_any_at(name: &NameRef<'_>, resource: &Record) -> bool
    ensures { result ≡ is_record_at name.now 255 resource.now }
{
    resource.owner.name_eq(name) && resource.rdata.rtype().to_int() == ANY
}

/// Whether a name owns a record of the type 255.
fn owns_any(zone: &ZoneTree, name: &NameRef<'_>) -> bool
    ensures { result ≡ list_any (is_record_at name.now 255) zone.now.records }
{
    zone.records()
        .iter()
        .any(|resource| is_any_at(name, resource))
}

/// Whether the zone has the type 255 at a name.
fn has_any(zone: &ZoneTree, name: &NameRef<'_>, cut: bool) -> bool
    ensures { result ≡ (list_any (is_record_at name.now 255) zone.now.records && not cut) }
{
    if cut {
        return false;
    }
    owns_any(zone, name)
}

/// Whether the zone has a type at a name with these places.
fn has_type(zone: &ZoneTree, name: &NameRef<'_>, kinds: &Kinds, cut: bool, rtype: u16) -> bool
    requires held { IsHeld zone.now name.now kinds.now }
    requires cut { cut ≡ is_point zone.now name.now kinds.now }
    ensures { result ≡ has_type zone.now name.now rtype }
{
    if rtype == ANY {
        return has_any(zone, name, cut);
    }
    is_typed(kinds, cut, rtype)
}

/// Whether a type that is listed is there.
fn is_there(zone: &ZoneTree, name: &NameRef<'_>, kinds: &Kinds, cut: bool, rtype: u16) -> bool
    requires held { IsHeld zone.now name.now kinds.now }
    requires cut { cut ≡ is_point zone.now name.now kinds.now }
    ensures { result ≡ is_there3 zone.now name.now rtype }
{
    !is_deniable(rtype) || has_type(zone, name, kinds, cut, rtype)
}

/// Whether types that are listed are there.
fn are_there(zone: &ZoneTree, name: &NameRef<'_>, kinds: &Kinds, cut: bool, types: &[u16]) -> bool
    requires held { IsHeld zone.now name.now kinds.now }
    requires cut { cut ≡ is_point zone.now name.now kinds.now }
    ensures { result ≡ list_all (is_there3 zone.now name.now) types.now }
{
    'each: for rtype in types {
        if !is_there(zone, name, kinds, cut, *rtype) {
            return false;
        }
    }
    true
}

/// Whether a type that a name has is to be listed: of a delegation point the NS and the DS alone.
fn is_to_list(cut: bool, rtype: u16) -> bool
    ensures { result ≡ (is_deniable rtype && (not cut || (nat_eq rtype 2 || nat_eq rtype 43))) }
{
    is_deniable(rtype) && (!cut || (rtype == NS || rtype == DS))
}

/// Whether an NSEC3 lists a type.
fn lists(nsec: &Nsec3, rtype: u16) -> bool
    ensures { result ≡ has nsec.now rtype }
{
    nsec.types().iter().any(|listed| rtype == *listed)
}

/// Whether a type that a name has is listed, if it is to be.
fn is_type_listed(cut: bool, nsec: &Nsec3, rtype: u16) -> bool
    ensures { result ≡ is_type_listed cut nsec.now rtype }
{
    if !is_to_list(cut, rtype) {
        return true;
    }
    lists(nsec, rtype)
}

/// Whether the type of the record at a place is listed, if it is to be.
fn is_listed(records: &[Record], kind: &TypedPlace, cut: bool, nsec: &Nsec3) -> bool
    ensures { result ≡ list_all (λ r. is_type_listed cut nsec.now (data_type r.rdata))
        (at_places records.now (places_of 255 (kind.now ∷ []))) }
{
    match kind.record(records, ANY) {
        Some(resource) => is_type_listed(cut, nsec, resource.rdata.rtype().to_int()),
        None => true,
    }
}

/// Whether types that are there are listed.
fn are_listed(records: &[Record], kinds: &[TypedPlace], cut: bool, nsec: &Nsec3) -> bool
    ensures { result ≡ list_all (λ r. is_type_listed cut nsec.now (data_type r.rdata)) (at_places records.now (places_of 255 kinds.now)) }
{
    'each: for kind in kinds {
        if !is_listed(records, kind, cut, nsec) {
            return false;
        }
    }
    true
}

/// Whether an NSEC3 lists exactly the types that the zone has at a name with these places.
fn lists_types(zone: &ZoneTree, name: &NameRef<'_>, kinds: &Kinds, nsec: &Nsec3) -> bool
    requires { IsHeld zone.now name.now kinds.now }
    ensures { result ≡ lists_types zone.now name.now nsec.now }
{
    let cut = is_cut(zone, name, kinds);
    if !are_there(zone, name, kinds, cut, nsec.types()) {
        return false;
    }
    are_listed(zone.records(), kinds.as_slice(), cut, nsec)
}

/// Whether an NSEC3 lists the types of a name.
fn is_right(
    zone: &ZoneTree,
    alloc: Global,
    name: &NameRef<'_>,
    nsec: &Nsec3,
) -> Result<bool, OutOfMemory>
    requires zone { tree_error zone.now.apex zone.now.records ≡ None }
    requires inside { IsTrue (ends_name name.now zone.now.apex) }
    requires stands { IsStanding zone.now name.now }
    ensures { IfOk result (λ b. b ≡ lists_types zone.now name.now nsec.now) }
{
    let found = zone.walk(alloc, name, DS)?;
    match found {
        Walk::Node(kinds) => Ok(lists_types(zone, name, kinds, nsec)),
        Walk::Missing(_) => unreachable!(),
        Walk::Cut(_) => unreachable!(),
        Walk::Dname(_) => unreachable!(),
    }
}

/// Whether a name without an NSEC3 may be without: it needn't have one, and the NSEC3 of its next closer name has Opt-Out. That of a
/// name below another one without an NSEC3 is that one's.
fn is_spared(firm: bool, above: bool, nsec: &Nsec3) -> bool
    ensures { result ≡ (not firm && (not above || nsec.now.opt_out)) }
{
    !firm && (!above || nsec.opt_out())
}

/// Whether a name has an NSEC3 that lists its types, which is met then; or may be without one. Gives whether it has one; nothing if it
/// should have one, or another one.
fn held_at(
    zone: &ZoneTree,
    alloc: Global,
    hashing: &Hashing,
    nsecs: &[Nsec3],
    name: &NameRef<'_>,
    firm: bool,
    above: bool,
    met: &mut [bool],
) -> Result<Option<bool>, OutOfMemory>
    requires zone { tree_error zone.now.apex zone.now.records ≡ None }
    requires sorted { AreSorted3 nsecs.now }
    requires some { 0 < length nsecs.now }
    requires inside { IsTrue (ends_name name.now zone.now.apex) }
    requires stands { IsStanding zone.now name.now }
    requires above { is_matched hashing.now nsecs.now name.now ≡ false → IsAbove hashing.now nsecs.now (drop 1 name.now) above }
    requires many { length met.old ≡ length nsecs.now }
    ensures held { IfOk result (λ o. MatchOption o (is_held zone.now hashing.now nsecs.now firm name.now ≡ false)
        (λ b. (is_held zone.now hashing.now nsecs.now firm name.now ≡ true) × IsAbove hashing.now nsecs.now name.now b)) }
    ensures met { IfOk result (λ o. MatchOption o (length met.new ≡ length met.old)
        (λ b. met.new ≡ marked hashing.now name.now nsecs.now met.old)) }
{
    let near = near_of(nsecs, alloc, hashing, name)?;
    let nsec = &nsecs[near.place];
    if near.matched {
        if !is_right(zone, alloc, name, nsec)? {
            return Ok(None);
        }
        met[near.place] = true;
        return Ok(Some(true));
    }
    if !is_spared(firm, above, nsec) {
        return Ok(None);
    }
    Ok(Some(false))
}

/// Whether the names from the apex down to one are held; their NSEC3s are met. Of the apex it is said whether it has one.
fn are_held(
    zone: &ZoneTree,
    alloc: Global,
    hashing: &Hashing,
    nsecs: &[Nsec3],
    rooted: bool,
    name: &NameRef<'_>,
    firm: bool,
    met: &mut [bool],
) -> Result<bool, OutOfMemory>
    requires zone { tree_error zone.now.apex zone.now.records ≡ None }
    requires sorted { AreSorted3 nsecs.now }
    requires rooted { rooted ≡ is_matched hashing.now nsecs.now zone.now.apex }
    requires inside { IsTrue (ends_name name.now zone.now.apex) }
    requires stands { IsStanding zone.now name.now }
    requires many { length met.old ≡ length nsecs.now }
    ensures held { IfOk result (λ b. b ≡ are_held zone.now hashing.now nsecs.now firm name.now) }
    ensures met { IfOk result (λ b. b ≡ true
        → met.new ≡ all_marked hashing.now nsecs.now (zone_names zone.now name.now) met.old) }
    ensures many { IfOk result (λ b. length met.new ≡ length met.old) }
{
    if !rooted {
        return Ok(false);
    }
    let mut left = name.label_count() - zone.apex().label_count();
    let top = name.behind(left);
    let Some(mut above) = held_at(zone, alloc, hashing, nsecs, &top, firm, true, met)? else {
        return Ok(false);
    };
    'labels: while left > 0 {
        left -= 1;
        let one = name.behind(left);
        match held_at(zone, alloc, hashing, nsecs, &one, firm, above, met)? {
            Some(matched) => above = matched,
            None => return Ok(false),
        }
    }
    Ok(true)
}

/// Whether a name with these places has to have an NSEC3: it is no delegation point without DS.
fn is_firm(zone: &ZoneTree, name: &NameRef<'_>, kinds: &Kinds) -> bool
    requires { IsHeld zone.now name.now kinds.now }
    ensures { result ≡ not (is_unsigned zone.now name.now) }
{
    if !is_cut(zone, name, kinds) {
        return true;
    }
    is_placed(kinds, DS)
}

/// Whether the names of a record are held; their NSEC3s are met.
fn is_listed_at(
    zone: &ZoneTree,
    alloc: Global,
    hashing: &Hashing,
    nsecs: &[Nsec3],
    rooted: bool,
    resource: &Record,
    met: &mut [bool],
) -> Result<bool, OutOfMemory>
    requires zone { tree_error zone.now.apex zone.now.records ≡ None }
    requires sorted { AreSorted3 nsecs.now }
    requires rooted { rooted ≡ is_matched hashing.now nsecs.now zone.now.apex }
    requires one { Contains zone.now.records resource.now }
    requires many { length met.old ≡ length nsecs.now }
    ensures listed { IfOk result (λ b. b ≡ not (is_unlisted3 zone.now hashing.now nsecs.now resource.now)) }
    ensures met { IfOk result (λ b. b ≡ true → met.new ≡ record_marked zone.now hashing.now nsecs.now resource.now met.old) }
    ensures many { IfOk result (λ b. length met.new ≡ length met.old) }
{
    let owner = resource.owner.for_ref();
    let found = zone.walk(alloc, &owner, DS)?;
    match found {
        Walk::Node(kinds) => {
            let firm = is_firm(zone, &owner, kinds);
            are_held(zone, alloc, hashing, nsecs, rooted, &owner, firm, met)
        }
        Walk::Cut(_) => Ok(true),
        Walk::Dname(_) => Ok(false),
        Walk::Missing(_) => unreachable!(),
    }
}

/// Whether a record has the owner of the one before it, letter by letter.
fn is_seen(records: &[Record], index: usize) -> bool
    requires { index < length records.now }
    ensures { IsTrue result → (d : Record) → (0 < index)
        × ((slice_index_or records.now index d).owner ≡ (slice_index_or records.now (index - 1) d).owner) }
{
    if index == 0 {
        return false;
    }
    let one = records[index].owner.for_ref();
    let other = records[index - 1].owner.for_ref();
    one.as_slice() == other.as_slice()
}

/// The place of the first record of which a name has no NSEC3 that it should have.
fn first_unlisted(
    zone: &ZoneTree,
    alloc: Global,
    hashing: &Hashing,
    nsecs: &[Nsec3],
    rooted: bool,
    met: &mut [bool],
) -> Result<Option<usize>, OutOfMemory>
    requires zone { tree_error zone.now.apex zone.now.records ≡ None }
    requires sorted { AreSorted3 nsecs.now }
    requires rooted { rooted ≡ is_matched hashing.now nsecs.now zone.now.apex }
    requires none { met.old ≡ map (λ _. false) nsecs.now }
    ensures listed { IfOk result (λ o. o ≡ position (is_unlisted3 zone.now hashing.now nsecs.now) zone.now.records) }
    ensures met { IfOk result (λ o. o ≡ None
        → met.new ≡ map (λ n. list_any (λ r. is_met zone.now hashing.now r n) zone.now.records) nsecs.now) }
{
    let records = zone.records();
    'each: for index in 0..records.len() {
        if is_seen(records, index) {
            continue;
        }
        if !is_listed_at(zone, alloc, hashing, nsecs, rooted, &records[index], met)? {
            return Ok(Some(index));
        }
    }
    Ok(None)
}

/// Whether a name has an NSEC3.
fn has_nsec3(
    nsecs: &[Nsec3],
    alloc: Global,
    hashing: &Hashing,
    name: &NameRef<'_>,
) -> Result<bool, OutOfMemory>
    requires { AreSorted3 nsecs.now }
    ensures { IfOk result (λ b. b ≡ is_matched hashing.now nsecs.now name.now) }
{
    if nsecs.is_empty() {
        return Ok(false);
    }
    let near = near_of(nsecs, alloc, hashing, name)?;
    Ok(near.matched)
}

/// The hash after a place; after the last one the first.
fn hash_after<'a>(nsecs: &'a [Nsec3], place: usize) -> &'a [u8; 20]
    requires { place < length nsecs.now }
    ensures { (d : Nsec3State) → result.now ≡ hash_after nsecs.now place d }
{
    if place + 1 < nsecs.len() {
        return nsecs[place + 1].hash();
    }
    nsecs[0].hash()
}

/// Whether an NSEC3 points to a hash.
fn leads_to(nsec: &Nsec3, hash: &[u8; 20]) -> bool
    ensures { result ≡ bytes_eq nsec.now.next hash.now }
{
    let next: &[u8] = nsec.next();
    let other: &[u8] = hash;
    next == other
}

/// The place of the first NSEC3 that doesn't point to the next one; the last points to the first.
fn first_unlinked(nsecs: &[Nsec3]) -> Option<usize>
    ensures { MatchOption result (AreLinked3 nsecs.now (length nsecs.now)) (IsUnlinked3 nsecs.now) }
{
    'each: for place in 0..nsecs.len() {
        if !leads_to(&nsecs[place], hash_after(nsecs, place)) {
            return Some(place);
        }
    }
    None
}

/// The place of the first NSEC3 that isn't met.
fn first_unmet(met: &[bool]) -> Option<usize>
    ensures { result ≡ position not met.now }
{
    met.iter().position(|one| !*one)
}

/// Decides whether the chain of a zone is whole.
pub(crate) fn checked(
    zone: &ZoneTree,
    alloc: Global,
    hashing: &Hashing,
    nsecs: &[Nsec3],
) -> Result<(), HashedChainError>
    requires zone { tree_error zone.now.apex zone.now.records ≡ None }
    requires sorted { AreSorted3 nsecs.now }
    ensures { MatchResult result (λ _. IsChained3 zone.now hashing.now nsecs.now) (Breaks3 zone.now hashing.now nsecs.now) }
{
    let mut met = vec![in alloc; false; nsecs.len()]?;
    let rooted = has_nsec3(nsecs, alloc, hashing, &zone.apex().for_ref())?;
    let unlisted = first_unlisted(zone, alloc, hashing, nsecs, rooted, met.as_mut_slice())?;
    if let Some(index) = unlisted {
        return Err(HashedChainError::Unlisted(index));
    }
    if let Some(place) = first_unmet(met.as_slice()) {
        return Err(HashedChainError::Unfounded(place));
    }
    match first_unlinked(nsecs) {
        Some(place) => Err(HashedChainError::Unlinked(place)),
        None => Ok(()),
    }
}
